//! Merkle Mountain Belts: the family's names in one place.

use merkle_core_parts::error;
pub use merkle_forest::mmb::{Family, Location, PeakIterator, Position, StandardHasher};
use merkle_memory::mem;

/// What a call of a Merkle Mountain Belt, or of a batch over one, refuses. In the Rust: `merkle::mmb::Error`.
pub type Error = error::Error<Family>;

/// A Merkle Mountain Belt that is kept in memory. In the Rust: `merkle::mmb::mem::Mmb`.
pub type Mmb<D> = mem::Mem<Family, D>;

/// A proof against the root of a Merkle Mountain Belt. In the Rust: `merkle::mmb::Proof`.
pub type Proof<D> = merkle_proofs::Proof<Family, D>;
