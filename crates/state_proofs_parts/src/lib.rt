//! Bits in chunks, and what is made of them: a list that is pruned from the front by whole chunks, with a root over it,
//! and a state's bits grafted onto the tree of its operations, with the state's canonical root. The crate ports
//! `bitmap::authenticated` of commonware-storage 2026.10.0, the parts of `qmdb::current` there that need no proof, and
//! the part of `commonware_utils::bitmap::Prunable` on which both stand; `In the Rust` names what an item is there.
//!
//! A map is one of a list of bits where its tree has the leaves of the list's full chunks: `Maps` of `state_theory` has
//! this, and the root of a list. What each call does to the list stands in its clause `of_list`.
#![tactic(auto)]

pub mod authenticated;
pub mod bitmap;
pub mod bitmap_error;
pub mod bitmap_laws;
pub mod bits;
pub mod canonical;
pub mod chunk_form;
pub mod chunk_size;
pub mod grafting;
pub mod inclusion;
pub mod overlay;
mod parts;
pub mod prunable;
pub mod seal;
pub mod shown_chunk;
pub mod snapshot;
mod tree;

pub use authenticated::{BitMap, MerkleizedBitMap, UnmerkleizedBitMap};
pub use bitmap::{BitList, BitmapReadable};
pub use chunk_form::ChunkForm;
pub use chunk_size::ChunkSize;
pub use overlay::{BitOverlay, stage_bits};
pub use prunable::Prunable;
pub use snapshot::Snapshot;
