//! Operations.

use crate::update::{self, Update};
use merkle_forest::{Family, Location};

/// The tag of a delete, the first byte of its encoding. In the Rust: `qmdb::any::operation::DELETE_CONTEXT`.
pub const DELETE_CONTEXT: u8 = 0xD1;

/// The tag of an update, the first byte of its encoding. In the Rust: `qmdb::any::operation::UPDATE_CONTEXT`.
pub const UPDATE_CONTEXT: u8 = 0xD2;

/// The tag of a commit, the first byte of its encoding. In the Rust: `qmdb::any::operation::COMMIT_CONTEXT`.
pub const COMMIT_CONTEXT: u8 = 0xD3;

/// One entry of a log. In the Rust: `qmdb::any::operation::Operation`.
#[derive(Debug, PartialEq, Drop)]
pub enum Operation<F: Family, S: Update> {
    /// The key is no longer in the state. In the Rust: `qmdb::any::operation::Operation::Delete`.
    Delete(S::Key),
    /// The key has this value. In the Rust: `qmdb::any::operation::Operation::Update`.
    Update(S),
    /// A batch ends here, with its metadata and the inactivity floor.
    /// In the Rust: `qmdb::any::operation::Operation::CommitFloor`.
    CommitFloor(Option<S::Value>, Location<F>),
}

/// An operation of a log whose updates name the next key. In the Rust: `qmdb::any::operation::Ordered`.
pub type Ordered<F, K, E> = Operation<F, update::Ordered<K, E>>;

/// An operation of a log whose updates name no other key. In the Rust: `qmdb::any::operation::Unordered`.
pub type Unordered<F, K, E> = Operation<F, update::Unordered<K, E>>;
