//! Proofs built out of what nodes are read from, and out of a kept proof. In the Rust: `merkle::verification`.

pub use crate::building::{historical_range_proof, multi_proof, range_proof};
pub use crate::proof_store::ProofStore;
