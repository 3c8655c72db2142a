//! Ranges of locations.

ghost use Rattle.std.specs.Prelude.{◌≡◌, ℕ};

use crate::family::Family;
use crate::location::Location;
use std::ops::Range;

/// A range of locations, seen as numbers. In the Rust: `merkle::LocationRangeExt`.
pub trait LocationRangeExt {
    ghost start: { Self → ℕ };

    ghost end: { Self → ℕ };

    /// The same range, with its ends as usize. In the Rust: `merkle::LocationRangeExt::to_usize_range`.
    fn to_usize_range(&self) -> Range<usize>
        ensures start { result.start ≡ start self.now }
        ensures end { result.end ≡ end self.now };
}

impl<F: Family> LocationRangeExt for Range<Location<F>> {
    ghost start = { λ range. range.start };

    ghost end = { λ range. range.end };

    fn to_usize_range(&self) -> Range<usize> {
        self.start.as_u64() as usize..self.end.as_u64() as usize
    }
}
