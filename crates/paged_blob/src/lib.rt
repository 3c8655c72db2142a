//! One list of bytes over a blob that tears what is written to it. The crate ports the paged blobs of
//! commonware-runtime 2026.10.0; `In the Rust` names what an item is there.
#![tactic(auto)]

pub mod direct;
pub mod laws;
pub mod shrink;
pub mod writer;

pub use paged_blob_parts::{
    Blob, CacheRef, CallKind, DurableSlot, Error, Recorded, Replay, Sealed, StartedReads,
    StartedSync, View, WriteMode, bench, blob, cache, error, flush, prefix_of_blob,
    prefix_of_blob_at_most, read, record, replay, scan, sealed, started, view,
};
pub use shrink::{LastPage, cut_blob};
pub use writer::recovery::{Recovering, Recovery};
pub use writer::syncing::WriterSync;
pub use writer::{Append, Writer};
