//! Locations of leaves.

ghost use Rattle.std.specs.Prelude.{◌≡◌, ◌+◌, ◌-◌, ◌^◌, ◌<◌, ◌≤◌, ◌↔◌, min, IsTrue, IsNone, IfSome, Some};
ghost use Rattle.std.specs.Fmt.{decimal};
ghost use Rattle.std.proofs.Common.{rules};
ghost use Rattle.merkle_forest_parts.specs.Varint.{varint, after_number};
ghost use Rattle.merkle_forest.specs.declared.family.TheConstants.{MAX_LEAVES};
ghost use Rattle.merkle_forest_parts.specs.Laws.Varint.{after_number_again, varint_at_most};

use crate::codec::{
    Cursor, EncodeSize, Error, Faithful, MaxEncodeSize, Read, Write, number_size, read_number,
    write_number,
};
use crate::family::{Family, MAX_LEAVES};
use std::alloc::{AllocError, Global};
use std::fmt;
use std::marker::{Model, PhantomData};
use std::ops::{Add, AddAssign, Sub, SubAssign};

/// The index of a leaf in a forest of the family: how many leaves stand before it. Contracts see the number.
/// In the Rust: `merkle::Location`.
#[derive_where(Clone, Copy, PartialEq, Eq, PartialOrd, Ord, Hash)]
pub struct Location<F: Family> {
    value: u64,
    family: PhantomData<F>,
}

impl<F: Family> Model for Location<F> {
    ghost use Rattle.std.specs.Prelude.{ℕ};

    ghost Value = { ℕ };

    ghost view = { λ l. l.value };

    ghost inverse = { λ n. record { value = n; family = record {} } };
}

impl<F: Family> Location<F> {
    /// The location of this number, also where that is past `MAX_LEAVES`. In the Rust: `merkle::Location::new`.
    pub const fn new(number: u64) -> Location<F>
        ensures { result ≡ number }
    {
        Location {
            value: number,
            family: PhantomData,
        }
    }

    /// The location's number: how many leaves stand before it. In the Rust: `merkle::Location::as_u64`.
    pub const fn as_u64(self) -> u64
        ensures { result ≡ self }
    {
        self.value
    }

    /// Whether it is at most `MAX_LEAVES`, as a count of leaves is. In the Rust: `merkle::Location::is_valid`.
    pub const fn is_valid(self) -> bool
        ensures { IsTrue result ↔ (self ≤ MAX_LEAVES) }
    {
        self.value <= MAX_LEAVES
    }

    /// Whether it is below `MAX_LEAVES`, as a leaf's location is. In the Rust: `merkle::Location::is_valid_index`.
    pub const fn is_valid_index(self) -> bool
        ensures { IsTrue result ↔ (self < MAX_LEAVES) }
    {
        self.value < MAX_LEAVES
    }

    /// The sum. Past `MAX_LEAVES` it is None. In the Rust: `merkle::Location::checked_add`.
    pub fn checked_add(self, more: u64) -> Option<Location<F>>
        ensures some { IfSome result (λ sum. sum ≡ self + more) }
        ensures none { IsNone result ↔ (MAX_LEAVES < self + more) }
    {
        let sum = self.value.checked_add(more)?;
        if sum > MAX_LEAVES {
            return None;
        }
        Some(Location::new(sum))
    }

    /// The difference. Below 0 it is None. In the Rust: `merkle::Location::checked_sub`.
    pub fn checked_sub(self, less: u64) -> Option<Location<F>>
        ensures some { IfSome result (λ rest. rest + less ≡ self) }
        ensures none { IsNone result ↔ (self < less) }
    {
        let rest = self.value.checked_sub(less)?;
        Some(Location::new(rest))
    }

    /// The sum, or `MAX_LEAVES` where the sum is past it. In the Rust: `merkle::Location::saturating_add`.
    pub fn saturating_add(self, more: u64) -> Location<F>
        ensures { result ≡ min (self + more) MAX_LEAVES }
    {
        Location::new(self.value.saturating_add(more).min(MAX_LEAVES))
    }

    /// The difference, or 0 where there is none. In the Rust: `merkle::Location::saturating_sub`.
    pub fn saturating_sub(self, less: u64) -> Location<F>
        ensures { result ≡ self - less }
    {
        Location::new(self.value.saturating_sub(less))
    }
}

impl<F: Family> Default for Location<F> {
    ghost is_default = { λ l. l ≡ 0 };

    fn default() -> Location<F> {
        Location::new(0)
    }
}

impl<F: Family> From<u64> for Location<F> {
    ghost from_gives = { λ n l. l ≡ n };

    fn from(number: u64) -> Location<F> {
        Location::new(number)
    }
}

impl<F: Family> From<usize> for Location<F> {
    ghost from_gives = { λ n l. l ≡ n };

    fn from(number: usize) -> Location<F> {
        Location::new(number as u64)
    }
}

impl<F: Family> From<Location<F>> for u64 {
    ghost from_gives = { λ l n. n ≡ l };

    fn from(location: Location<F>) -> u64 {
        location.as_u64()
    }
}

impl<F: Family> Add for Location<F> {
    type Output = Location<F>;

    ghost can_add = { λ a b. a + b < 2 ^ 64 };

    ghost add_gives = { λ a b sum. sum ≡ a + b };

    fn add(self, other: Location<F>) -> Location<F> {
        Location::new(self.value + other.value)
    }
}

impl<F: Family> Add<u64> for Location<F> {
    type Output = Location<F>;

    ghost can_add = { λ a b. a + b < 2 ^ 64 };

    ghost add_gives = { λ a b sum. sum ≡ a + b };

    fn add(self, other: u64) -> Location<F> {
        Location::new(self.value + other)
    }
}

impl<F: Family> Sub for Location<F> {
    type Output = Location<F>;

    ghost can_sub = { λ a b. b ≤ a };

    ghost sub_gives = { λ a b rest. rest ≡ a - b };

    fn sub(self, other: Location<F>) -> Location<F> {
        Location::new(self.value - other.value)
    }
}

impl<F: Family> Sub<u64> for Location<F> {
    type Output = Location<F>;

    ghost can_sub = { λ a b. b ≤ a };

    ghost sub_gives = { λ a b rest. rest ≡ a - b };

    fn sub(self, other: u64) -> Location<F> {
        Location::new(self.value - other)
    }
}

impl<F: Family> AddAssign<u64> for Location<F> {
    ghost can_add_assign = { λ a b. a + b < 2 ^ 64 };

    ghost add_assign_gives = { λ a b sum. sum ≡ a + b };

    fn add_assign(&mut self, other: u64) {
        self.value += other;
    }
}

impl<F: Family> SubAssign<u64> for Location<F> {
    ghost can_sub_assign = { λ a b. b ≤ a };

    ghost sub_assign_gives = { λ a b rest. rest ≡ a - b };

    fn sub_assign(&mut self, other: u64) {
        self.value -= other;
    }
}

impl<F: Family> fmt::Display for Location<F> {
    ghost output = { λ l. Some (decimal l) };

    fn fmt<W: fmt::Write>(&self, f: &mut fmt::Formatter<W>) -> fmt::Result {
        write!(f, "{}", self.value)
    }
}

impl<F: Family> fmt::Debug for Location<F> {
    ghost debug_output = { λ l. Some (decimal l) };

    fn fmt<W: fmt::Write>(&self, f: &mut fmt::Formatter<W>) -> fmt::Result {
        write!(f, "{}", self.value)
    }
}

impl<F: Family> Write for Location<F> {
    ghost encoding = { varint };

    ghost is_value = { λ l. l < 2 ^ 64 };

    fn write(&self, out: &mut Vec<u8>) -> Result<(), AllocError> {
        write_number(out, self.value)
    }
}

impl<F: Family> Faithful for Location<F> {
    ghost copied = { λ v w same. Prim.search rules };
}

impl<F: Family> EncodeSize for Location<F> {
    fn encode_size(&self) -> usize {
        number_size(self.value)
    }
}

impl<F: Family> Read for Location<F> {
    type Cfg = ();

    ghost after = { λ _ bytes. after_number MAX_LEAVES bytes };

    ghost may_lack = { λ _ _. ⊥ };

    ghost is_within = { λ _ l. l ≤ MAX_LEAVES };

    fn read_cfg(_alloc: Global, cursor: &mut Cursor<'_>, _cfg: &()) -> Result<Location<F>, Error> {
        let number = read_number(cursor)?;
        if number > MAX_LEAVES {
            return Err(Error::Invalid);
        }
        Ok(Location::new(number))
    }

    ghost read_again = { λ _ l rest value within. after_number_again MAX_LEAVES l rest value within };
}

impl<F: Family> MaxEncodeSize for Location<F> {
    ghost MAX_SIZE = { 10 };

    const MAX_SIZE: usize = 10;

    ghost bounded = { λ v small. varint_at_most v small };
}
