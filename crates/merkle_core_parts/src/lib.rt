//! What is said of trees that are kept in memory, and of the batches of their changes; what their nodes are read from,
//! and what calls of them refuse. The crate ports parts of `merkle` of commonware-storage 2026.10.0; `In the Rust`
//! names what an item is there.
#![tactic(auto)]

pub mod error;
pub mod laws;
pub mod readable;

pub use error::Error;
pub use readable::Readable;
