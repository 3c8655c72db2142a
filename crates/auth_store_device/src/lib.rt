//! The device of a store: a blob over a store of files that fails as its settings say, whose calls are kept as data,
//! and which may be cut off from its power after so many of them.
#![tactic(auto)]

pub(crate) mod base;
pub mod blocks;
pub(crate) mod chance;
pub mod device;
pub mod error;
pub(crate) mod file;
pub(crate) mod kept;
pub mod laws;
pub(crate) mod list;
pub(crate) mod log;
pub(crate) mod opening;
pub mod openings;
pub(crate) mod record;
pub(crate) mod touched;

pub use blocks::{Image, Pieces};
pub use device::Device;
pub use error::OpenError;
pub use openings::{Mutation, Mutations, Opening, Openings};
