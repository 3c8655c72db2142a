//! The heights of the parents that are born with a leaf.

ghost use Rattle.std.specs.Prelude.{◌≡◌, ◌≤◌, ◌+◌, ℕ};
ghost use Rattle.std.specs.Iterator.{YieldsFirst, item_count};
ghost use Rattle.std.specs.List.{range_with_len};

use std::marker::Model;

/// Heights in order of birth, each one higher than the one before. Contracts see those that are left.
/// In the Rust: the unnamed iterator of `merkle::Family::parent_heights`.
#[derive(Drop)]
pub struct ParentHeights {
    next: u32,
    left: u32,
}

impl Model for ParentHeights {
    ghost use Rattle.std.specs.Prelude.{◌+◌, ◌≤◌, ℕ, List};
    ghost use Rattle.std.specs.List.{range_with_len};

    ghost Value = { List ℕ };

    ghost view = { λ a. range_with_len a.next a.left };

    ghost invariant = { λ a. a.next + a.left ≤ 64 };
}

impl ParentHeights {
    /// So many heights from the first one on (own).
    pub fn new(first: u32, count: u32) -> ParentHeights
        requires { first + count ≤ 64 }
        ensures { result ≡ range_with_len first count }
    {
        ParentHeights {
            next: first,
            left: count,
        }
    }
}

impl Iterator for ParentHeights {
    type Item = u32;

    ghost next_gives = { YieldsFirst (λ s. s) };

    ghost remaining = { item_count (λ s. s) };

    fn next(&mut self) -> Option<u32> {
        if self.left == 0 {
            return None;
        }
        let height = self.next;
        self.next += 1;
        self.left -= 1;
        Some(height)
    }
}
