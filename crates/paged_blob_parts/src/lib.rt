//! What a list of bytes over a blob is made of: blobs, their pages written, found again and read, and lists that take
//! no more bytes. The crate ports a part of the paged blobs of commonware-runtime 2026.10.0; `In the Rust` names what
//! an item is there.
#![tactic(auto)]

pub mod bench;
pub mod blob;
pub mod cache;
pub mod error;
pub mod flush;
pub mod laws;
pub mod read;
pub mod record;
pub mod replay;
pub mod scan;
pub mod sealed;
pub mod started;
pub mod view;

pub use blob::{Blob, WriteMode};
pub use cache::CacheRef;
pub use error::{CallKind, Error};
pub use flush::DurableSlot;
pub use record::Recorded;
pub use replay::Replay;
pub use scan::{prefix_of_blob, prefix_of_blob_at_most};
pub use sealed::Sealed;
pub use started::{StartedReads, StartedSync};
pub use view::View;
