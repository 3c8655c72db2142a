//! Proofs under the canonical root of a state, their builders and their checks. The crate ports parts of
//! `qmdb::current` of commonware-storage 2026.10.0; `In the Rust` names what an item is there.
#![tactic(auto)]

pub mod constant;
pub mod dynamic;
pub mod error;
pub mod exclusion;
pub mod laws;
pub mod log_read;
pub mod operation;
pub mod ordered;
pub mod proof;
pub mod required;
pub mod snapshot;
pub mod verify;
pub mod witness;

pub use error::Error;
pub use exclusion::ExclusionProof;
pub use log_read::LogRead;
pub use ordered::KeyValueProof;
pub use proof::RangeProof;
pub use proof::request::RangeProofSpec;
pub use required::{RequiredChunks, required_chunks};
pub use snapshot::Snapshot;
pub use state_proofs_parts::{
    BitList, BitMap, BitOverlay, BitmapReadable, ChunkForm, ChunkSize, MerkleizedBitMap, Prunable,
    UnmerkleizedBitMap, authenticated, bitmap, bitmap_error, bitmap_laws, bits, canonical,
    chunk_form, chunk_size, grafting, inclusion, overlay, prunable, seal, shown_chunk, stage_bits,
};
pub use witness::OpsRootWitness;
