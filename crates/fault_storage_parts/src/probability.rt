//! Probabilities as fractions of whole numbers.

ghost use Rattle.std.specs.Prelude.{◌≡◌, ◌<◌, ◌≤◌, ◌==◌, ◌||◌, ◌⊎◌, ◌↔◌, IfSome, IsSome};

use rand_core::Rng;

/// How often something comes about: `numerator` times in `denominator`, kept as it was given (2/4 is another fraction
/// than 1/2).
/// In the Rust: `commonware_runtime::storage::faulty::Probability`, there over floats.
#[derive(Clone, Copy, Debug, PartialEq, Eq)]
pub struct Probability {
    /// How many of the words bring it about.
    pub numerator: u64,
    /// Of how many.
    pub denominator: u64,
    ghost some: { 0 < denominator },
    ghost at_most_one: { numerator ≤ denominator },
}

impl Probability {
    ghost use Rattle.fault_storage_parts.specs.Draws.{is_certain, sample};
    ghost use Rattle.fault_storage_parts.specs.DrawsCode.{rate_of};

    /// Never; it takes no word.
    pub const ZERO: Probability = Probability {
        numerator: 0,
        denominator: 1,
    };

    /// Always; it takes no word.
    pub const ONE: Probability = Probability {
        numerator: 1,
        denominator: 1,
    };

    /// The fraction. None: it is above one, or the denominator is zero.
    pub fn new(numerator: u64, denominator: u64) -> Option<Probability>
        ensures some { IsSome result ↔ ((0 < denominator) × (numerator ≤ denominator)) }
        ensures value { IfSome result (λ rate. (rate.numerator ≡ numerator) × (rate.denominator ≡ denominator)) }
    {
        if denominator == 0 || numerator > denominator {
            return None;
        }
        Some(Probability {
            numerator,
            denominator,
        })
    }

    /// Whether it never comes about.
    pub fn is_zero(&self) -> bool
        ensures { result ≡ (self.now.numerator == 0) }
    {
        self.numerator == 0
    }

    // Whether nothing is left to a word: it is zero or one by its value.
    fn is_certain(&self) -> bool
        ensures { result ≡ is_certain (rate_of self.now) }
    {
        self.numerator == 0 || self.numerator == self.denominator
    }

    /// Whether it comes about this time. A fraction that is zero or one takes no word of the generator, any other takes
    /// one `next_u64`. In the Rust: `commonware_runtime::storage::faulty::Probability::sample`.
    pub fn sample<R: Rng>(&self, rng: &mut R) -> bool
        ensures { (result, R.stream rng.new) ≡ sample (rate_of self.now) (R.stream rng.old) }
    {
        if self.is_certain() {
            return self.numerator > 0;
        }
        rng.next_u64() % self.denominator < self.numerator
    }
}
