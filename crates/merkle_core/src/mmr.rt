//! Merkle Mountain Ranges: the family's names in one place.

use merkle_core_parts::error;
pub use merkle_forest::mmr::{Family, Location, PeakIterator, Position, StandardHasher};
use merkle_memory::mem;

/// What a call of a Merkle Mountain Range, or of a batch over one, refuses. In the Rust: `merkle::mmr::Error`.
pub type Error = error::Error<Family>;

/// A Merkle Mountain Range that is kept in memory. In the Rust: `merkle::mmr::mem::Mmr`.
pub type Mmr<D> = mem::Mem<Family, D>;

/// A proof against the root of a Merkle Mountain Range. In the Rust: `merkle::mmr::Proof`.
pub type Proof<D> = merkle_proofs::Proof<Family, D>;
