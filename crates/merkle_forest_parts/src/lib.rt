//! The codec of the Merkle forest, and its digests: how values are written as bytes and read back.
//! The crate ports what commonware-storage 2026.10.0 needs of commonware_codec, commonware_cryptography and
//! commonware_utils; `In the Rust` names what an item is there.
#![tactic(auto)]

pub mod codec;
pub mod digest;

pub use digest::Digest;
