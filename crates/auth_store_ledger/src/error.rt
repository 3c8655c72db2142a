//! Why a ledger refuses.

ghost use Rattle.std.specs.Prelude.{◌≡◌};
ghost use Rattle.auth_store_ledger.specs.declared.error.LedgerError.TheVariants.{Memory};

use auth_store_index::ReadError;
use std::alloc::{AllocError, AllocFailed};

/// Why a call of a ledger was refused. The ledger then stays as it was.
#[derive(Clone, Copy, Debug, PartialEq, Eq, thiserror::Error)]
pub enum LedgerError {
    /// The log would pass the greatest number of operations, 2 to the 62.
    #[error("the log would pass 2^62 operations")]
    NumberEnded,
    /// Out of memory.
    #[error("out of memory")]
    Memory,
}

impl From<AllocError> for LedgerError {
    ghost from_gives = { λ _ e. e ≡ Memory };

    fn from(_e: AllocError) -> LedgerError {
        LedgerError::Memory
    }
}

impl<T: Drop> From<AllocFailed<T>> for LedgerError {
    ghost from_gives = { λ _ e. e ≡ Memory };

    fn from(_e: AllocFailed<T>) -> LedgerError {
        LedgerError::Memory
    }
}

/// Why a batch is not committed. The ledger then stays as it was.
#[derive(Debug, Drop, thiserror::Error)]
pub enum CommitError<E> {
    /// The log would pass the greatest number of operations, 2 to the 62.
    #[error("the log would pass 2^62 operations")]
    NumberEnded,
    /// Out of memory.
    #[error("out of memory")]
    Memory,
    /// The log isn't read.
    #[error("the log isn't read")]
    Log(E),
}

impl<E> From<AllocError> for CommitError<E> {
    ghost use Rattle.auth_store_ledger.specs.declared.error.CommitError.TheVariants as commits;

    ghost from_gives = { λ _ e. e ≡ commits.Memory };

    fn from(_e: AllocError) -> CommitError<E> {
        CommitError::Memory
    }
}

impl<E, T: Drop> From<AllocFailed<T>> for CommitError<E> {
    ghost use Rattle.auth_store_ledger.specs.declared.error.CommitError.TheVariants as commits;

    ghost from_gives = { λ _ e. e ≡ commits.Memory };

    fn from(_e: AllocFailed<T>) -> CommitError<E> {
        CommitError::Memory
    }
}

impl<E> From<LedgerError> for CommitError<E> {
    ghost use Rattle.auth_store_ledger.specs.Refusals.{commit_refused};

    ghost from_gives = { λ refused e. e ≡ commit_refused refused };

    fn from(refused: LedgerError) -> CommitError<E> {
        match refused {
            LedgerError::NumberEnded => CommitError::NumberEnded,
            LedgerError::Memory => CommitError::Memory,
        }
    }
}

impl<E> From<ReadError<E>> for CommitError<E> {
    ghost use Rattle.auth_store_ledger.specs.Refusals.{commit_unread};

    ghost from_gives = { λ refused e. e ≡ commit_unread refused };

    fn from(refused: ReadError<E>) -> CommitError<E> {
        match refused {
            ReadError::Memory(_) => CommitError::Memory,
            ReadError::Log(why) => CommitError::Log(why),
        }
    }
}
