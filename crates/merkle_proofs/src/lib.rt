//! Merkle proofs of the forest, out of what nodes are read from. The crate ports a part of `merkle` of
//! commonware-storage 2026.10.0; `In the Rust` names what an item is there.
#![tactic(auto)]

pub mod building;
pub mod extraction;
pub mod laws;
pub mod multi;
pub mod pinned;
pub mod plan;
pub mod proof;
pub mod proof_store;
pub mod subtree;
pub mod verification;
pub mod verifying;

pub use proof::Proof;
