//! Named blobs that fail, tear writes and crash as they are told to. The crate ports the fault storage of
//! commonware-runtime 2026.10.0; `In the Rust` names what an item is there.
#![tactic(auto)]

pub mod directory;
pub mod faulty;
pub mod laws;
pub mod memory;
pub mod opens;
pub mod pending;
pub mod started;
pub mod storage;
pub mod stored;

pub use fault_storage_parts::checksum::{Checksum, Crc32};
pub use fault_storage_parts::config::{Config, ResizeConfig, WriteConfig};
pub use fault_storage_parts::draws::PartialWriteMode;
pub use fault_storage_parts::error::{Call, Error, HeaderError};
pub use fault_storage_parts::header::{Header, Layout, Layouts, Resolved, Versions, resolve};
pub use fault_storage_parts::partition::validate_partition_name;
pub use fault_storage_parts::probability::Probability;
pub use fault_storage_parts::{
    blob_file, checksum, config, draws, error, file, header, overlay, partition, probability,
    replay,
};
pub use opens::{BlobName, OpenBlob, Opens};
pub use pending::{Pending, Ticket};
pub use started::StartedSync;
pub use storage::{Blob, Opened, Storage, WriteMode};
