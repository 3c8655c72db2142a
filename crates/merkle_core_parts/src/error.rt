//! Why a call of a tree, or of a batch, is refused.

ghost use Rattle.std.specs.Prelude.{◌≡◌};
ghost use Rattle.merkle_core_parts.specs.declared.error.Error.TheVariants.{Memory};

use merkle_forest::{Family, Location, Position};
use std::alloc::{AllocError, AllocFailed};
use std::fmt;

/// What a call of a tree, or of a batch, refuses. In the Rust: `merkle::Error`, which has more variants.
#[derive_where(Clone, Copy, Debug, PartialEq, Eq)]
pub enum Error<F: Family> {
    /// M3: this location is past `MAX_LEAVES`. In the Rust: `merkle::Error::LocationOverflow`.
    LocationOverflow(Location<F>),
    /// M4: a range or a list of locations is empty. In the Rust: `merkle::Error::Empty`.
    Empty,
    /// M5: a range ends at this location, past the leaves. In the Rust: `merkle::Error::RangeOutOfBounds`.
    RangeOutOfBounds(Location<F>),
    /// M6: no tree has so many nodes. In the Rust: `merkle::Error::InvalidSize`, with the number of nodes.
    InvalidSize,
    /// M7: no leaf stands at this location. In the Rust: `merkle::Error::LeafOutOfBounds`.
    LeafOutOfBounds(Location<F>),
    /// M8: this location is the one before it again. In the Rust: `merkle::Error::DuplicateLocation`.
    DuplicateLocation(Location<F>),
    /// M9: this location is less than the one before it. In the Rust: `merkle::Error::UnsortedLocation`.
    UnsortedLocation(Location<F>),
    /// M10: the node at this position is pruned, or is nowhere. In the Rust: `merkle::Error::ElementPruned`.
    ElementPruned(Position<F>),
    /// M12: there are not as many pinned nodes as the leaves before the boundary have peaks. In the Rust:
    /// `merkle::Error::InvalidPinnedNodes`.
    InvalidPinnedNodes,
    /// M13: the tree is not the one that the batch begins from. In the Rust: `merkle::Error::StaleBatch`.
    StaleBatch,
    /// M14: what a batch had that was given up is needed. In the Rust: `merkle::Error::AncestorDropped`, with the
    /// sizes.
    AncestorDropped,
    /// M16: there are fewer peaks than inactive ones. In the Rust: `merkle::Error::InvalidInactivePeaks`.
    InvalidInactivePeaks,
    /// M20: the node at this position is needed, and is not there. In the Rust: `merkle::Error::MissingNode`.
    MissingNode(Position<F>),
    /// M23: out of memory (own).
    Memory,
}

/// An error is printed by its number and what it means.
impl<F: Family> fmt::Display for Error<F> {
    ghost use Rattle.std.specs.Prelude.{Some};
    ghost use Rattle.merkle_core_parts.specs.Errors.{error_text};

    ghost output = { λ e. Some (error_text e) };

    fn fmt<W: fmt::Write>(&self, f: &mut fmt::Formatter<W>) -> fmt::Result {
        match self {
            Error::LocationOverflow(location) => {
                write!(f, "M3: location {location} is past the limit")
            }
            Error::Empty => f.write_str("M4: no location is asked for"),
            Error::RangeOutOfBounds(location) => {
                write!(
                    f,
                    "M5: the range ends past the leaves at location {location}"
                )
            }
            Error::InvalidSize => f.write_str("M6: no tree has so many nodes"),
            Error::LeafOutOfBounds(location) => write!(f, "M7: no leaf at location {location}"),
            Error::DuplicateLocation(location) => write!(f, "M8: location {location} comes twice"),
            Error::UnsortedLocation(location) => {
                write!(f, "M9: location {location} comes after a greater one")
            }
            Error::ElementPruned(position) => write!(f, "M10: node {position} is pruned"),
            Error::InvalidPinnedNodes => f.write_str("M12: too few or too many pinned nodes"),
            Error::StaleBatch => f.write_str("M13: the batch begins from another tree"),
            Error::AncestorDropped => f.write_str("M14: a batch that was given up is needed"),
            Error::InvalidInactivePeaks => f.write_str("M16: fewer peaks than inactive ones"),
            Error::MissingNode(position) => write!(f, "M20: node {position} is missing"),
            Error::Memory => f.write_str("M23: out of memory"),
        }
    }
}

impl<F: Family> std::error::Error for Error<F> {}

impl<F: Family> From<AllocError> for Error<F> {
    ghost from_gives = { λ _ e. e ≡ Memory };

    fn from(_e: AllocError) -> Error<F> {
        Error::Memory
    }
}

impl<F: Family, T: Drop> From<AllocFailed<T>> for Error<F> {
    ghost from_gives = { λ _ e. e ≡ Memory };

    fn from(_e: AllocFailed<T>) -> Error<F> {
        Error::Memory
    }
}
