//! Positions, families and hashers of the Merkle forest, and its codec. The crate ports the lower part of `merkle` of
//! commonware-storage 2026.10.0; `In the Rust` names what an item is there.
#![tactic(auto)]

pub mod bagging;
pub mod chunk_peaks;
pub mod conversions;
pub mod error;
pub mod family;
pub mod forest;
pub mod graftable;
pub mod hasher;
pub mod laws;
pub mod location;
pub mod location_range;
pub mod mmb;
pub mod mmr;
pub mod parent_heights;
pub mod path;
pub mod peaks;
pub mod pending;
pub mod position;
pub mod root;
pub mod sizes;
pub mod trees;

pub use bagging::Bagging;
pub use error::Error;
pub use family::{Family, MAX_LEAVES, MAX_NODES, MAX_PINNED_NODES};
pub use graftable::Graftable;
pub use hasher::{ByteHash, HashFunction, Hasher, Standard};
pub use location::Location;
pub use location_range::LocationRangeExt;
pub use merkle_forest_parts::codec::{
    Cursor, Decode, Encode, EncodeSize, FixedBytes, FixedSize, MaxEncodeSize, RangeCfg, Read, UInt,
    Write,
};
pub use merkle_forest_parts::{Digest, codec, digest};
pub use pending::{PendingOf, Unused};
pub use position::Position;
