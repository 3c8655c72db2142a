//! Positions of nodes.

ghost use Rattle.std.specs.Prelude.{◌≡◌, ◌+◌, ◌-◌, ◌^◌, ◌<◌, ◌≤◌, ◌↔◌, min, IsTrue, IsNone, IfSome, Some};
ghost use Rattle.std.specs.Fmt.{decimal};
ghost use Rattle.std.proofs.Common.{rules};
ghost use Rattle.merkle_forest.specs.Nodes.{IsSize};
ghost use Rattle.merkle_forest_parts.specs.Varint.{varint, after_number};
ghost use Rattle.merkle_forest.specs.declared.family.TheConstants.{MAX_NODES};
ghost use Rattle.merkle_forest_parts.specs.Laws.Varint.{after_number_again, varint_at_most};

use crate::codec::{
    Cursor, EncodeSize, Error, Faithful, MaxEncodeSize, Read, Write, number_size, read_number,
    write_number,
};
use crate::family::{Family, MAX_NODES};
use std::alloc::{AllocError, Global};
use std::fmt;
use std::marker::{Model, PhantomData};
use std::ops::{Add, AddAssign, Sub, SubAssign};

/// The index of a node in a forest of the family: how many nodes stand before it. Contracts see the number.
/// In the Rust: `merkle::Position`.
#[derive_where(Clone, Copy, PartialEq, Eq, PartialOrd, Ord, Hash)]
pub struct Position<F: Family> {
    value: u64,
    family: PhantomData<F>,
}

impl<F: Family> Model for Position<F> {
    ghost use Rattle.std.specs.Prelude.{ℕ};

    ghost Value = { ℕ };

    ghost view = { λ p. p.value };

    ghost inverse = { λ n. record { value = n; family = record {} } };
}

impl<F: Family> Position<F> {
    /// The position of this number, also where that is past `MAX_NODES`. In the Rust: `merkle::Position::new`.
    pub const fn new(number: u64) -> Position<F>
        ensures { result ≡ number }
    {
        Position {
            value: number,
            family: PhantomData,
        }
    }

    /// The position's number: how many nodes stand before it. In the Rust: `merkle::Position::as_u64`.
    pub const fn as_u64(self) -> u64
        ensures { result ≡ self }
    {
        self.value
    }

    /// Whether it is at most `MAX_NODES`, as a count of nodes is. In the Rust: `merkle::Position::is_valid`.
    pub const fn is_valid(self) -> bool
        ensures { IsTrue result ↔ (self ≤ MAX_NODES) }
    {
        self.value <= MAX_NODES
    }

    /// Whether it is below `MAX_NODES`, as a node's position is. In the Rust: `merkle::Position::is_valid_index`.
    pub const fn is_valid_index(self) -> bool
        ensures { IsTrue result ↔ (self < MAX_NODES) }
    {
        self.value < MAX_NODES
    }

    /// Whether a forest of up to `MAX_LEAVES` leaves has this many nodes.
    /// In the Rust: `merkle::Position::is_valid_size`.
    pub fn is_valid_size(self) -> bool
        ensures { IsTrue result ↔ IsSize F.merge_rule self }
    {
        F::is_valid_size(self)
    }

    /// The sum. Past `MAX_NODES` it is None. In the Rust: `merkle::Position::checked_add`.
    pub fn checked_add(self, more: u64) -> Option<Position<F>>
        ensures some { IfSome result (λ sum. sum ≡ self + more) }
        ensures none { IsNone result ↔ (MAX_NODES < self + more) }
    {
        let sum = self.value.checked_add(more)?;
        if sum > MAX_NODES {
            return None;
        }
        Some(Position::new(sum))
    }

    /// The difference. Below 0 it is None. In the Rust: `merkle::Position::checked_sub`.
    pub fn checked_sub(self, less: u64) -> Option<Position<F>>
        ensures some { IfSome result (λ rest. rest + less ≡ self) }
        ensures none { IsNone result ↔ (self < less) }
    {
        let rest = self.value.checked_sub(less)?;
        Some(Position::new(rest))
    }

    /// The sum, or `MAX_NODES` where the sum is past it. In the Rust: `merkle::Position::saturating_add`.
    pub fn saturating_add(self, more: u64) -> Position<F>
        ensures { result ≡ min (self + more) MAX_NODES }
    {
        Position::new(self.value.saturating_add(more).min(MAX_NODES))
    }

    /// The difference, or 0 where there is none. In the Rust: `merkle::Position::saturating_sub`.
    pub fn saturating_sub(self, less: u64) -> Position<F>
        ensures { result ≡ self - less }
    {
        Position::new(self.value.saturating_sub(less))
    }
}

impl<F: Family> Default for Position<F> {
    ghost is_default = { λ p. p ≡ 0 };

    fn default() -> Position<F> {
        Position::new(0)
    }
}

impl<F: Family> From<u64> for Position<F> {
    ghost from_gives = { λ n p. p ≡ n };

    fn from(number: u64) -> Position<F> {
        Position::new(number)
    }
}

impl<F: Family> From<usize> for Position<F> {
    ghost from_gives = { λ n p. p ≡ n };

    fn from(number: usize) -> Position<F> {
        Position::new(number as u64)
    }
}

impl<F: Family> From<Position<F>> for u64 {
    ghost from_gives = { λ p n. n ≡ p };

    fn from(position: Position<F>) -> u64 {
        position.as_u64()
    }
}

impl<F: Family> Add for Position<F> {
    type Output = Position<F>;

    ghost can_add = { λ a b. a + b < 2 ^ 64 };

    ghost add_gives = { λ a b sum. sum ≡ a + b };

    fn add(self, other: Position<F>) -> Position<F> {
        Position::new(self.value + other.value)
    }
}

impl<F: Family> Add<u64> for Position<F> {
    type Output = Position<F>;

    ghost can_add = { λ a b. a + b < 2 ^ 64 };

    ghost add_gives = { λ a b sum. sum ≡ a + b };

    fn add(self, other: u64) -> Position<F> {
        Position::new(self.value + other)
    }
}

impl<F: Family> Sub for Position<F> {
    type Output = Position<F>;

    ghost can_sub = { λ a b. b ≤ a };

    ghost sub_gives = { λ a b rest. rest ≡ a - b };

    fn sub(self, other: Position<F>) -> Position<F> {
        Position::new(self.value - other.value)
    }
}

impl<F: Family> Sub<u64> for Position<F> {
    type Output = Position<F>;

    ghost can_sub = { λ a b. b ≤ a };

    ghost sub_gives = { λ a b rest. rest ≡ a - b };

    fn sub(self, other: u64) -> Position<F> {
        Position::new(self.value - other)
    }
}

impl<F: Family> AddAssign<u64> for Position<F> {
    ghost can_add_assign = { λ a b. a + b < 2 ^ 64 };

    ghost add_assign_gives = { λ a b sum. sum ≡ a + b };

    fn add_assign(&mut self, other: u64) {
        self.value += other;
    }
}

impl<F: Family> SubAssign<u64> for Position<F> {
    ghost can_sub_assign = { λ a b. b ≤ a };

    ghost sub_assign_gives = { λ a b rest. rest ≡ a - b };

    fn sub_assign(&mut self, other: u64) {
        self.value -= other;
    }
}

impl<F: Family> fmt::Display for Position<F> {
    ghost output = { λ p. Some (decimal p) };

    fn fmt<W: fmt::Write>(&self, f: &mut fmt::Formatter<W>) -> fmt::Result {
        write!(f, "{}", self.value)
    }
}

impl<F: Family> fmt::Debug for Position<F> {
    ghost debug_output = { λ p. Some (decimal p) };

    fn fmt<W: fmt::Write>(&self, f: &mut fmt::Formatter<W>) -> fmt::Result {
        write!(f, "{}", self.value)
    }
}

impl<F: Family> Write for Position<F> {
    ghost encoding = { varint };

    ghost is_value = { λ p. p < 2 ^ 64 };

    fn write(&self, out: &mut Vec<u8>) -> Result<(), AllocError> {
        write_number(out, self.value)
    }
}

impl<F: Family> Faithful for Position<F> {
    ghost copied = { λ v w same. Prim.search rules };
}

impl<F: Family> EncodeSize for Position<F> {
    fn encode_size(&self) -> usize {
        number_size(self.value)
    }
}

impl<F: Family> Read for Position<F> {
    type Cfg = ();

    ghost after = { λ _ bytes. after_number MAX_NODES bytes };

    ghost may_lack = { λ _ _. ⊥ };

    ghost is_within = { λ _ p. p ≤ MAX_NODES };

    fn read_cfg(_alloc: Global, cursor: &mut Cursor<'_>, _cfg: &()) -> Result<Position<F>, Error> {
        let number = read_number(cursor)?;
        if number > MAX_NODES {
            return Err(Error::Invalid);
        }
        Ok(Position::new(number))
    }

    ghost read_again = { λ _ p rest value within. after_number_again MAX_NODES p rest value within };
}

impl<F: Family> MaxEncodeSize for Position<F> {
    ghost MAX_SIZE = { 10 };

    const MAX_SIZE: usize = 10;

    ghost bounded = { λ v small. varint_at_most v small };
}
