//! Which bytes of a file calls may have changed.

ghost use Rattle.std.specs.Prelude.{◌≡◌, ◌⊎◌, ◌+◌, ◌-◌, ◌<◌, ◌≤◌, ◌^◌, true, ℕ};
ghost use Rattle.auth_store_device.specs.Touches.{IsOutside};

/// The bytes from one place on, up to another, among which are all that calls may have changed. One that ends where a
/// u64 does ends nowhere (own).
#[derive(Clone, Copy, Debug)]
pub(crate) struct Touched {
    /// The place of the first.
    pub(crate) from: u64,
    /// The place behind the last.
    pub(crate) to: u64,
}

impl Touched {
    /// No byte.
    pub(crate) fn none() -> Touched
        ensures { (i : ℕ) → IsOutside result i }
    {
        Touched {
            from: u64::MAX,
            to: 0,
        }
    }

    /// All bytes.
    pub(crate) fn all() -> Touched
        ensures { (i : ℕ) → IsOutside result i → ⊥ }
    {
        Touched {
            from: 0,
            to: u64::MAX,
        }
    }

    /// Those up to now, and these.
    pub(crate) fn widen(&mut self, from: u64, to: u64)
        ensures { (i : ℕ) → IsOutside self.new i → IsOutside self.old i
            × ((i < from) ⊎ ((to ≤ i) × (to < 2 ^ 64 - 1))) }
    {
        self.from = self.from.min(from);
        self.to = self.to.max(to);
    }

    /// Whether so many bytes from a place on are none of them, as may be known.
    pub(crate) fn is_outside(self, start: usize, count: usize) -> bool
        requires { start + count < 2 ^ 64 }
        ensures { result ≡ true → (i : ℕ) → start ≤ i → i < start + count → IsOutside self i }
    {
        let start = start as u64;
        start + count as u64 <= self.from || (self.to <= start && self.to < u64::MAX)
    }
}
