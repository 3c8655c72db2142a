//! Why a log is refused.

ghost use Rattle.std.specs.Prelude.{◌≡◌};
ghost use Rattle.auth_store_log.specs.declared.error.LogError.TheVariants.{Refused};
ghost use Rattle.paged_blob_parts.specs.declared.error.Error.TheVariants.{Memory};

use paged_blob::Error;
use std::alloc::{AllocError, AllocFailed};

/// What reading a log refuses.
#[derive(Clone, Copy, Debug, PartialEq, Eq, thiserror::Error)]
pub enum LogError {
    /// The bytes are not those of a log, so that somebody else wrote them.
    #[error("the bytes are no log")]
    Corrupt,
    /// A call of the blob or of its writer was refused, or memory.
    #[error("{0}")]
    Refused(Error),
}

impl From<Error> for LogError {
    ghost from_gives = { λ e refused. refused ≡ Refused e };

    fn from(e: Error) -> LogError {
        LogError::Refused(e)
    }
}

impl From<AllocError> for LogError {
    ghost from_gives = { λ _ refused. refused ≡ Refused Memory };

    fn from(_e: AllocError) -> LogError {
        LogError::Refused(Error::Memory)
    }
}

impl<T: Drop> From<AllocFailed<T>> for LogError {
    ghost from_gives = { λ _ refused. refused ≡ Refused Memory };

    fn from(_e: AllocFailed<T>) -> LogError {
        LogError::Refused(Error::Memory)
    }
}
