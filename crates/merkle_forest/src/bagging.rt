//! How peaks are folded into one digest.

ghost use Rattle.std.specs.Prelude.{◌≡◌};
ghost use Rattle.merkle_forest.specs.Hashing.{domain_of};

/// The side from which the peaks' digests are folded into one. In the Rust: `merkle::Bagging`.
#[derive(Clone, Copy, Debug, PartialEq, Eq)]
pub enum Bagging {
    /// From the left: `fold(fold(a, b), c)`. In the Rust: `merkle::Bagging::ForwardFold`.
    ForwardFold,
    /// From the right: `fold(a, fold(b, c))`. In the Rust: `merkle::Bagging::BackwardFold`.
    BackwardFold,
}

impl Bagging {
    /// The byte that stands for it in a root's string, 0 or 1. In the Rust: `merkle::Bagging::domain`.
    pub fn domain(self) -> u8
        ensures { result ≡ domain_of self }
    {
        match self {
            Bagging::ForwardFold => 0,
            Bagging::BackwardFold => 1,
        }
    }
}
