//! A log of operations over a blob that tears what is written to it: it is recovered up to its last commit, and what is
//! appended is durable or wholly lost.
#![tactic(auto)]

pub mod append;
pub mod encoding;
pub mod error;
pub mod laws;
pub mod opening;
pub mod operations;
pub mod records;
pub mod replay;

pub use append::append_batch;
pub use encoding::bytes_of;
pub use error::LogError;
pub use opening::recover;
pub use operations::{PlacedLog, operations_of, read_operation};
pub use replay::places_of_log;
