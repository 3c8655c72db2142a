//! An authenticated store on a device that fails, with its sessions, its light client and its script: all that a user
//! of the store names, and the script that runs it.
#![tactic(auto)]

pub mod script;

pub use auth_store_client as client;
pub use auth_store_client::{Claim, check, is_chunk_width};
pub use auth_store_device::{Device, Image, Mutation, Mutations, OpenError, Opening, Openings};
pub use auth_store_ledger::{Batch, Word, batch, history, state};
pub use auth_store_proving::{KeyProof, ProvedOperation, ProvedRange, ProvedSlice};
pub use auth_store_run::{Ran, run, run_session};
pub use auth_store_session::{Answer, NotOpened, Session, Sizes, Step, Store, StoreError};
pub use fault_storage::{
    Config, HeaderError, PartialWriteMode, Probability, ResizeConfig, WriteConfig, faulty, memory,
};
pub use merkle_forest::codec::FixedBytes;
pub use merkle_forest::{ByteHash, mmb, mmr};
pub use paged_blob::{Blob, CacheRef, CallKind, WriteMode};
pub use rand_pcg::Pcg32;
pub use script::{ScriptEnd, new_device, run_script};
pub use state_ops::{Operation, OrderedOperation, OrderedUpdate};
pub use state_proofs::{BitOverlay, Prunable, stage_bits};
