//! What the fault storage is made of that knows no store: errors, headers, checksum, settings, draws, and one file. The
//! crate ports these parts of the storage of commonware-runtime 2026.10.0; `In the Rust` names what an item is there.
#![tactic(auto)]

pub mod blob_file;
pub mod checksum;
pub mod config;
pub mod draws;
pub mod error;
pub mod file;
pub mod header;
pub mod laws;
pub mod overlay;
pub mod partition;
pub mod probability;
pub mod replay;

pub use error::Error;
