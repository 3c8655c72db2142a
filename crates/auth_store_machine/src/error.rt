//! Why a store refuses.

ghost use Rattle.std.specs.Prelude.{◌≡◌, codes};
ghost use Rattle.auth_store_machine.specs.declared.error.StoreError.TheVariants.{Memory};
ghost use Rattle.auth_store_machine.specs.Refusals.{number_of, of_blob, of_ledger, of_log, of_opening};
ghost use Rattle.auth_store_machine.specs.Refusals.{of_commit, of_proof, of_read, of_reason};

use auth_store_device::OpenError;
use auth_store_ledger::{CommitError, LedgerError, ReadError};
use auth_store_log::LogError;
use auth_store_proving::{ProofError, Unprovable};
use fault_storage::HeaderError;
use paged_blob::{CallKind, Error};
use std::alloc::{AllocError, AllocFailed};

/// Why a call of a store was refused (own).
#[derive(Clone, Copy, Debug, PartialEq, Eq, thiserror::Error)]
pub enum StoreError {
    /// S1: the device injected a fault, into a call of this kind of the open log, or into the opening.
    #[error("S1: injected fault")]
    Fault(Option<CallKind>),
    /// S2: a cut of the power stands.
    #[error("S2: power cut")]
    PowerCut,
    /// S3: a number would pass its type, or the log 2 to the 62 operations.
    #[error("S3: number ended")]
    NumberEnded,
    /// S4: out of memory.
    #[error("S4: out of memory")]
    Memory,
    /// S5: what is recovered of the log is the log of no history; after the opening, somebody else wrote the log.
    #[error("S5: the log is corrupt")]
    Corrupt,
    /// S6: the store failed before.
    #[error("S6: the store has failed")]
    Failed,
    /// S7: pruning past the floor.
    #[error("S7: past the floor")]
    PastFloor,
    /// S8: of a proof: the operation is not active.
    #[error("S8: the operation is not active")]
    Inactive,
    /// S9: of a proof: the log has no such operation, or the range ends past it.
    #[error("S9: past the end of the log")]
    OutOfRange,
    /// S10: of a proof: the operation, or the first of the range, stands before the pruned chunks.
    #[error("S10: before the pruned chunks")]
    Pruned,
    /// S11: of a proof: the range is empty; it starts at its end or past it.
    #[error("S11: the range is empty")]
    EmptyRange,
    /// S12: the log's header is refused.
    #[error("S12: {0}")]
    Header(HeaderError),
}

impl StoreError {
    /// The refusal's number: `"S1"` to `"S12"`.
    pub fn number(&self) -> &'static str
        ensures { result.now ≡ number_of self.now }
    {
        match self {
            StoreError::Fault(_) => "S1",
            StoreError::PowerCut => "S2",
            StoreError::NumberEnded => "S3",
            StoreError::Memory => "S4",
            StoreError::Corrupt => "S5",
            StoreError::Failed => "S6",
            StoreError::PastFloor => "S7",
            StoreError::Inactive => "S8",
            StoreError::OutOfRange => "S9",
            StoreError::Pruned => "S10",
            StoreError::EmptyRange => "S11",
            StoreError::Header(_) => "S12",
        }
    }
}

impl From<AllocError> for StoreError {
    ghost from_gives = { λ _ e. e ≡ Memory };

    fn from(_e: AllocError) -> StoreError {
        StoreError::Memory
    }
}

impl<T: Drop> From<AllocFailed<T>> for StoreError {
    ghost from_gives = { λ _ e. e ≡ Memory };

    fn from(_e: AllocFailed<T>) -> StoreError {
        StoreError::Memory
    }
}

impl From<LedgerError> for StoreError {
    ghost from_gives = { λ refused e. e ≡ of_ledger refused };

    fn from(refused: LedgerError) -> StoreError {
        match refused {
            LedgerError::NumberEnded => StoreError::NumberEnded,
            LedgerError::Memory => StoreError::Memory,
        }
    }
}

impl From<Unprovable> for StoreError {
    ghost from_gives = { λ why e. e ≡ of_reason why };

    fn from(why: Unprovable) -> StoreError {
        match why {
            Unprovable::Inactive => StoreError::Inactive,
            Unprovable::OutOfRange => StoreError::OutOfRange,
            Unprovable::Pruned => StoreError::Pruned,
            Unprovable::EmptyRange => StoreError::EmptyRange,
        }
    }
}

impl From<ProofError<LogError>> for StoreError {
    ghost from_gives = { λ refused e. e ≡ of_proof refused };

    fn from(refused: ProofError<LogError>) -> StoreError {
        match refused {
            ProofError::Unprovable(why) => StoreError::from(why),
            ProofError::Memory => StoreError::Memory,
            ProofError::Log(error) => StoreError::from(error),
        }
    }
}

impl From<CommitError<LogError>> for StoreError {
    ghost from_gives = { λ refused e. e ≡ of_commit refused };

    fn from(refused: CommitError<LogError>) -> StoreError {
        match refused {
            CommitError::NumberEnded => StoreError::NumberEnded,
            CommitError::Memory => StoreError::Memory,
            CommitError::Log(error) => StoreError::from(error),
        }
    }
}

impl From<ReadError<LogError>> for StoreError {
    ghost from_gives = { λ refused e. e ≡ of_read refused };

    fn from(refused: ReadError<LogError>) -> StoreError {
        match refused {
            ReadError::Memory(_) => StoreError::Memory,
            ReadError::Log(error) => StoreError::from(error),
        }
    }
}

impl From<Error> for StoreError {
    ghost from_gives = { λ refused e. e ≡ of_blob refused };

    fn from(refused: Error) -> StoreError {
        match refused {
            Error::Injected(kind) => StoreError::Fault(Some(kind)),
            Error::PowerCut => StoreError::PowerCut,
            Error::NumberEnded => StoreError::NumberEnded,
            Error::Memory => StoreError::Memory,
            Error::BlobMissing => StoreError::Corrupt,
            Error::BlobInsufficientLength => StoreError::Corrupt,
            Error::ChecksumMismatch => StoreError::Corrupt,
        }
    }
}

impl From<LogError> for StoreError {
    ghost from_gives = { λ refused e. e ≡ of_log refused };

    fn from(refused: LogError) -> StoreError {
        match refused {
            LogError::Corrupt => StoreError::Corrupt,
            LogError::Refused(error) => StoreError::from(error),
        }
    }
}

impl From<OpenError> for StoreError {
    ghost from_gives = { λ refused e. e ≡ of_opening refused };

    fn from(refused: OpenError) -> StoreError {
        match refused {
            OpenError::Header(fault) => StoreError::Header(fault),
            OpenError::Injected => StoreError::Fault(None),
            OpenError::NumberEnded => StoreError::NumberEnded,
            OpenError::Memory => StoreError::Memory,
            OpenError::PowerCut => StoreError::PowerCut,
        }
    }
}
