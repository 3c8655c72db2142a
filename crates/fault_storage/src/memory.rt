//! The store in memory.

mod audit;
pub mod blob;
mod files;
pub mod snapshot;
pub mod storage;

pub use blob::Blob;
pub use snapshot::Snapshot;
pub use storage::Storage;
