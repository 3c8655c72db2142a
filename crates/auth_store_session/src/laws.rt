//! What holds of all openings.

ghost use Rattle.std.specs.Prelude.{◌≡◌, ℕ, List, ◌∷◌, Option};
ghost use Rattle.fault_storage_parts.specs.Crc32.{crc32};
ghost use Rattle.paged_blob_parts.specs.Calls.{Call, opened, file_of};
ghost use Rattle.paged_blob_parts.specs.Chance.{NoneByChance};
ghost use Rattle.paged_blob_parts.specs.Images.{IsImage};
ghost use Rattle.paged_blob_parts.specs.Moments.{Grows};
ghost use Rattle.auth_store_parts.specs.History.{History, Commit};
ghost use Rattle.auth_store_log.specs.Records.{Format, begun, history_bytes, recovered_log};
ghost use Rattle.auth_store_machine.specs.Machine.{IsShownOf};
ghost use Rattle.auth_store_machine.specs.Standing.{IsOpenedThrough};
ghost use Rattle.auth_store_machine.specs.Stores.{IsWritten, OpeningsShow};

use auth_store_log::laws::one_history_a_log;

/// Where no opening is by chance, the history whose log is recovered of what an opening shows is the one that stood, or
/// that with the pending commit.
pub fn an_opening_shows_what_stood()
    ensures { (format : Format) (size : ℕ) (history now : History) (pending : Option Commit) (calls : List Call)
        (shown : List ℕ) → OpeningsShow format size history pending calls → IsWritten format now
        → IsImage (file_of calls) shown → NoneByChance crc32 size (opened shown ∷ calls)
        → history_bytes format now ≡ begun format (recovered_log format crc32 size shown)
        → IsShownOf history pending now }
{
    one_history_a_log();
}

/// An opening that is given up, at whichever of its calls, leaves what openings may show as it was.
pub fn an_opening_given_up_loses_nothing()
    ensures { (format : Format) (size : ℕ) (history : History) (pending : Option Commit) (old new : List Call)
        (shown : List ℕ) → OpeningsShow format size history pending old → IsOpenedThrough format size shown old new
        → NoneByChance crc32 size new → OpeningsShow format size history pending new }
{}

/// Where none of the openings among more calls is by chance, none is among fewer.
pub fn chance_is_asked_of_each_opening()
    ensures { (size : ℕ) (old new : List Call) → Grows old new → NoneByChance crc32 size new
        → NoneByChance crc32 size old }
{}
