//! What code over a log asks of its operations.

ghost use Rattle.std.specs.Prelude.{◌≡◌, ℕ, Bool, Option, option_map, is_some};
ghost use Rattle.state_ops_parts.specs.Operation as spec;

use crate::key::Key;
use crate::operation;
use crate::update::Update;
use merkle_forest::{Family, Location};

/// An operation that may record an inactivity floor. In the Rust: `qmdb::operation::Floored`.
pub trait Floored<F: Family> {
    /// The floor of an operation, if it records one.
    ghost floor_of: { Self → Option ℕ };

    /// The floor that the operation records, or None where it is no commit.
    /// In the Rust: `qmdb::operation::Floored::has_floor`.
    fn has_floor(&self) -> Option<Location<F>>
        ensures { result ≡ floor_of self.now };
}

/// An operation of a log. In the Rust: `qmdb::operation::Operation`.
pub trait Operation<F: Family>: Floored<F> {
    /// The keys of the log. In the Rust: `qmdb::operation::Operation::Key`.
    type Key: Key;

    /// The key of an operation, if it speaks of one.
    ghost key_of: { Self → Option Self.Key };

    /// Whether an operation gives its key a value.
    ghost updates: { Self → Bool };

    /// Whether an operation takes its key away.
    ghost deletes: { Self → Bool };

    /// The key of which the operation speaks, or None where it is a commit.
    /// In the Rust: `qmdb::operation::Operation::key`.
    fn key(&self) -> Option<&Self::Key>
        ensures { option_map (λ k. k.now) result ≡ key_of self.now };

    /// That key, taken out. In the Rust: `qmdb::operation::Operation::into_key`.
    fn into_key(self) -> Option<Self::Key>
        ensures { result ≡ key_of self };

    /// Whether the operation gives its key a value. In the Rust: `qmdb::operation::Operation::is_update`.
    fn is_update(&self) -> bool
        ensures { result ≡ updates self.now };

    /// Whether the operation takes its key away. In the Rust: `qmdb::operation::Operation::is_delete`.
    fn is_delete(&self) -> bool
        ensures { result ≡ deletes self.now };
}

/// An operation that may end a batch. In the Rust: `qmdb::operation::Committable`.
pub trait Committable {
    /// Whether an operation ends a batch.
    ghost commits: { Self → Bool };

    /// Whether the operation ends a batch. In the Rust: `qmdb::operation::Committable::is_commit`.
    fn is_commit(&self) -> bool
        ensures { result ≡ commits self.now };
}

impl<F: Family, S: Update> Floored<F> for operation::Operation<F, S> {
    ghost floor_of = { spec.floor_in };

    fn has_floor(&self) -> Option<Location<F>> {
        match self {
            operation::Operation::CommitFloor(_, floor) => Some(*floor),
            _ => None,
        }
    }
}

impl<F: Family, S: Update> Operation<F> for operation::Operation<F, S> {
    type Key = S::Key;

    ghost key_of = { spec.key_in S.key_of };

    ghost updates = { spec.is_update };

    ghost deletes = { spec.is_delete };

    fn key(&self) -> Option<&S::Key> {
        match self {
            operation::Operation::Delete(key) => Some(key),
            operation::Operation::Update(update) => Some(update.key()),
            operation::Operation::CommitFloor(_, _) => None,
        }
    }

    fn into_key(self) -> Option<S::Key> {
        match self {
            operation::Operation::Delete(key) => Some(key),
            operation::Operation::Update(update) => Some(update.into_key()),
            operation::Operation::CommitFloor(_, _) => None,
        }
    }

    fn is_update(&self) -> bool {
        matches!(self, operation::Operation::Update(_))
    }

    fn is_delete(&self) -> bool {
        matches!(self, operation::Operation::Delete(_))
    }
}

impl<F: Family, S: Update> Committable for operation::Operation<F, S> {
    ghost commits = { λ o. is_some (spec.floor_in o) };

    fn is_commit(&self) -> bool {
        matches!(self, operation::Operation::CommitFloor(_, _))
    }
}
