//! A state whose root is asked for.

pub mod building;

pub use state_proofs_parts::snapshot::Snapshot;
