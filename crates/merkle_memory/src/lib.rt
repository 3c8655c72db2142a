//! The tree that is kept in memory, and the batches of its changes. The crate ports `merkle::mem` and `merkle::batch`
//! of commonware-storage 2026.10.0; `In the Rust` names what an item is there.
#![tactic(auto)]

pub mod batch;
pub mod components;
pub mod growth;
pub mod laws;
mod layer;
mod layered;
pub mod mem;
pub mod peaks;
mod reading;
pub mod rebuild;

pub use mem::{Config, Mem, Reserved, Unreserved};
