//! Why no root can be reconstructed from a proof.

use std::fmt;

/// Why no root can be reconstructed from the proof of a range. In the Rust: `merkle::proof::ReconstructionError`.
#[derive(Clone, Copy, Debug, PartialEq, Eq)]
pub enum ReconstructionError {
    /// The tree has fewer peaks than are inactive.
    InvalidProof,
    /// There are fewer digests than the proof of the range has.
    MissingDigests,
    /// There are more digests than the proof of the range has.
    ExtraDigests,
    /// The range begins past the leaves.
    InvalidStartLoc,
    /// The range ends past the leaves.
    InvalidEndLoc,
    /// No element is shown.
    MissingElements,
    /// The tree has more leaves than `MAX_LEAVES`.
    InvalidSize,
    /// Out of memory (own).
    Memory,
}

/// An error is printed by what it means.
impl fmt::Display for ReconstructionError {
    ghost use Rattle.std.specs.Prelude.{Some};
    ghost use Rattle.merkle_proofs.specs.Reconstruction.{reconstruction_text};

    ghost output = { λ e. Some (reconstruction_text e) };

    fn fmt<W: fmt::Write>(&self, f: &mut fmt::Formatter<W>) -> fmt::Result {
        match self {
            ReconstructionError::InvalidProof => f.write_str("fewer peaks than inactive ones"),
            ReconstructionError::MissingDigests => f.write_str("too few digests"),
            ReconstructionError::ExtraDigests => f.write_str("too many digests"),
            ReconstructionError::InvalidStartLoc => {
                f.write_str("the range begins past the leaves")
            }
            ReconstructionError::InvalidEndLoc => f.write_str("the range ends past the leaves"),
            ReconstructionError::MissingElements => f.write_str("no element is shown"),
            ReconstructionError::InvalidSize => f.write_str("the tree is too large"),
            ReconstructionError::Memory => f.write_str("out of memory"),
        }
    }
}

impl std::error::Error for ReconstructionError {}
