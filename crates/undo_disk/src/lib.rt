//! A blob in memory that keeps no byte twice, for programs that measure what is done to blobs: a sync of it copies
//! nothing.
#![tactic(auto)]

pub mod disk;
pub mod step;

pub use disk::UndoDisk;
