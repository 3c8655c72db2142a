//! The numbers of refusals, and what they carry.

use merkle_core::error::Error as TreeError;
use merkle_core::{ExtractionError, StoreError};
use merkle_forest::{Family, codec};
use state_proofs::Error as ProofError;

/// The number of a refusal, and what it carries.
#[derive(Clone, Copy)]
pub(crate) struct Refusal {
    /// The number, of a refusal within another one behind the number of that.
    pub(crate) number: &'static str,
    /// A location, a position or a tag.
    pub(crate) carried: Option<u64>,
}

fn plain(number: &'static str) -> Refusal {
    Refusal {
        number,
        carried: None,
    }
}

fn with(number: &'static str, carried: u64) -> Refusal {
    Refusal {
        number,
        carried: Some(carried),
    }
}

/// The refusal of a tree.
pub(crate) fn of_tree<F: Family>(error: TreeError<F>) -> Refusal {
    match error {
        TreeError::LocationOverflow(location) => with("M3", location.as_u64()),
        TreeError::Empty => plain("M4"),
        TreeError::RangeOutOfBounds(location) => with("M5", location.as_u64()),
        TreeError::InvalidSize => plain("M6"),
        TreeError::LeafOutOfBounds(location) => with("M7", location.as_u64()),
        TreeError::DuplicateLocation(location) => with("M8", location.as_u64()),
        TreeError::UnsortedLocation(location) => with("M9", location.as_u64()),
        TreeError::ElementPruned(position) => with("M10", position.as_u64()),
        TreeError::InvalidPinnedNodes => plain("M12"),
        TreeError::StaleBatch => plain("M13"),
        TreeError::AncestorDropped => plain("M14"),
        TreeError::InvalidInactivePeaks => plain("M16"),
        TreeError::MissingNode(position) => with("M20", position.as_u64()),
        TreeError::Memory => plain("M23"),
    }
}

// The refusal of the Merkle layer under a proof.
fn below<F: Family>(error: TreeError<F>) -> Refusal {
    match error {
        TreeError::LocationOverflow(location) => with("Q3 M3", location.as_u64()),
        TreeError::Empty => plain("Q3 M4"),
        TreeError::RangeOutOfBounds(location) => with("Q3 M5", location.as_u64()),
        TreeError::LeafOutOfBounds(location) => with("Q3 M7", location.as_u64()),
        TreeError::ElementPruned(position) => with("Q3 M10", position.as_u64()),
        TreeError::Memory => plain("Q3 M23"),
        _ => plain("Q3"),
    }
}

/// The refusal of a call on the proofs of a state.
pub(crate) fn of_proof<F: Family>(error: ProofError<F>) -> Refusal {
    match error {
        ProofError::DataCorrupted => plain("Q1"),
        ProofError::OperationPruned(location) => with("Q2", location.as_u64()),
        ProofError::Merkle(error) => below(error),
        ProofError::Memory => plain("Q4"),
    }
}

/// The refusal of a proof that is built out of a store.
pub(crate) fn of_store<F: Family>(error: StoreError<F>) -> Refusal {
    match error {
        StoreError::Refused(error) => of_tree(error),
        StoreError::CompressedDigest(position) => with("M11", position.as_u64()),
    }
}

/// The refusal of an extraction.
pub(crate) fn of_extraction(error: ExtractionError) -> Refusal {
    match error {
        ExtractionError::InvalidProof => plain("M15"),
        ExtractionError::RootMismatch => plain("M17"),
        ExtractionError::Memory => plain("M23"),
    }
}

/// The refusal of bytes.
pub(crate) fn of_bytes(error: codec::Error) -> Refusal {
    match error {
        codec::Error::EndOfBuffer => plain("C1"),
        codec::Error::ExtraData => plain("C2"),
        codec::Error::InvalidVarint => plain("C3"),
        codec::Error::InvalidBool => plain("C4"),
        codec::Error::InvalidEnum(tag) => with("C5", u64::from(tag)),
        codec::Error::InvalidLength => plain("C6"),
        codec::Error::Invalid => plain("C7"),
        codec::Error::Memory => plain("C8"),
    }
}
