//! Why a call on the proofs of a state is refused.

ghost use Rattle.std.specs.Prelude.{◌≡◌};
ghost use Rattle.state_proofs.specs.declared.error.Error.TheVariants.{Memory, Merkle};

use merkle_core::error;
use merkle_forest::{Family, Location};
use std::alloc::AllocError;
use std::fmt;

/// What a call on the proofs of a state refuses. In the Rust: `qmdb::Error`, which has more variants.
#[derive_where(Clone, Copy, Debug, PartialEq, Eq)]
pub enum Error<F: Family> {
    /// Q1: the bits and the operations do not belong together. In the Rust: `qmdb::Error::DataCorrupted`, with a text.
    DataCorrupted,
    /// Q2: the chunk of the operation at this location is pruned. In the Rust: `qmdb::Error::OperationPruned`.
    OperationPruned(Location<F>),
    /// Q3: the Merkle layer refuses. In the Rust: `qmdb::Error::Merkle`.
    Merkle(error::Error<F>),
    /// Q4: out of memory (own).
    Memory,
}

/// An error is printed by its number and what it means.
impl<F: Family> fmt::Display for Error<F> {
    ghost use Rattle.std.specs.Prelude.{Some};
    ghost use Rattle.state_proofs.specs.Errors.{refusal_text};

    ghost output = { λ e. Some (refusal_text e) };

    fn fmt<W: fmt::Write>(&self, f: &mut fmt::Formatter<W>) -> fmt::Result {
        match self {
            Error::DataCorrupted => f.write_str("Q1: bits and operations do not belong together"),
            Error::OperationPruned(location) => {
                write!(f, "Q2: the operation at {location} is in a pruned chunk")
            }
            Error::Merkle(error) => write!(f, "Q3: {error}"),
            Error::Memory => f.write_str("Q4: out of memory"),
        }
    }
}

impl<F: Family> std::error::Error for Error<F> {}

impl<F: Family> From<AllocError> for Error<F> {
    ghost from_gives = { λ _ e. e ≡ Memory };

    fn from(_e: AllocError) -> Error<F> {
        Error::Memory
    }
}

impl<F: Family> From<error::Error<F>> for Error<F> {
    ghost from_gives = { λ m e. e ≡ Merkle m };

    fn from(e: error::Error<F>) -> Error<F> {
        Error::Merkle(e)
    }
}
