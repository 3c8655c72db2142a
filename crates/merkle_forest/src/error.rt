//! Why a call of the Merkle layer is refused.

use crate::family::Family;
use crate::location::Location;
use crate::position::Position;
use std::fmt;

/// What a call of the Merkle layer refuses. In the Rust: `merkle::Error`, which has more variants.
#[derive_where(Clone, Copy, Debug, PartialEq, Eq)]
pub enum Error<F: Family> {
    /// M1: no leaf stands at this position. In the Rust: `merkle::Error::NonLeaf`.
    NonLeaf(Position<F>),
    /// M2: this position is past `MAX_NODES`. In the Rust: `merkle::Error::PositionOverflow`.
    PositionOverflow(Position<F>),
    /// M3: this location is past `MAX_LEAVES`. In the Rust: `merkle::Error::LocationOverflow`.
    LocationOverflow(Location<F>),
    /// M16: there are fewer peaks than inactive ones. In the Rust: `merkle::Error::InvalidInactivePeaks`.
    InvalidInactivePeaks,
}

/// An error is printed by its number and what it means.
impl<F: Family> fmt::Display for Error<F> {
    ghost use Rattle.std.specs.Prelude.{Some};
    ghost use Rattle.merkle_forest.specs.Errors.{error_text};

    ghost output = { λ e. Some (error_text e) };

    fn fmt<W: fmt::Write>(&self, f: &mut fmt::Formatter<W>) -> fmt::Result {
        match self {
            Error::NonLeaf(position) => { write!(f, "M1: no leaf stands at position {position}") }
            Error::PositionOverflow(position) => {
                write!(f, "M2: position {position} is past the limit")
            }
            Error::LocationOverflow(location) => {
                write!(f, "M3: location {location} is past the limit")
            }
            Error::InvalidInactivePeaks => f.write_str("M16: fewer peaks than inactive ones"),
        }
    }
}

impl<F: Family> std::error::Error for Error<F> {}
