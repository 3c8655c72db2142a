//! Writers of several parts, which leave nothing of a value that they could not write whole.

ghost use Rattle.std.specs.Prelude.{◌≡◌, ℕ, List, length, take, OnOk, OnErr};
ghost use Rattle.merkle_forest_parts.specs.Codec.{Extends};

use std::alloc::AllocError;

/// Passes on what a write answered, and cuts `out` back to its first `start` bytes where that is a refusal: so a writer
/// of several parts answers `or_undo(write_parts(self, out), out, start)` with the length that `out` had before (own).
pub fn or_undo(
    written: Result<(), AllocError>,
    out: &mut Vec<u8>,
    start: usize,
) -> Result<(), AllocError>
    ensures same { result ≡ written }
    ensures ok { OnOk result (out.new.items ≡ out.old.items) }
    ensures err { OnErr result (out.new.items ≡ take start out.old.items) }
    ensures undone { OnErr result ((before : List ℕ) → length before ≡ start → Extends before out.old.items
        → out.new.items ≡ before) }
{
    if written.is_err() {
        out.truncate(start);
    }
    written
}
