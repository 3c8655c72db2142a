//! Trees in memory and Merkle proofs of the forest, as one library. The crate ports a part of `merkle` of
//! commonware-storage 2026.10.0; `In the Rust` names what an item is there.
#![tactic(auto)]

pub mod mmb;
pub mod mmr;
pub mod provable;

pub use merkle_core_parts::{Error, Readable, error, readable};
pub use merkle_forest::{Bagging, ByteHash, HashFunction, MAX_PINNED_NODES};
pub use merkle_memory::batch::{MerkleizedBatch, UnmerkleizedBatch};
pub use merkle_memory::{Config, Mem, Reserved, Unreserved, batch, mem};
pub use merkle_proofs::building::{historical_range_proof, multi_proof, range_proof};
pub use merkle_proofs::extraction::ExtractionError;
pub use merkle_proofs::multi::multi_proof_positions;
pub use merkle_proofs::plan::{ElementPlan, RangePlan};
pub use merkle_proofs::proof::{MAX_PROOF_DIGESTS_PER_ELEMENT, Proof};
pub use merkle_proofs::proof_store::{ProofStore, StoreError};
pub use merkle_proofs::verifying::error::ReconstructionError;
pub use merkle_proofs::{
    building, extraction, laws, multi, pinned, plan, proof, proof_store, subtree, verification,
    verifying,
};
pub use mmb::Mmb;
pub use mmr::Mmr;
pub use provable::Provable;
