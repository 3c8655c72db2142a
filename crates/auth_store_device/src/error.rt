//! Why an opening is refused.

ghost use Rattle.std.specs.Prelude.{◌≡◌};
ghost use Rattle.auth_store_device.specs.declared.error.OpenError.TheVariants.{Memory};

use fault_storage::HeaderError;
use std::alloc::{AllocError, AllocFailed};

/// Why an opening of the device is refused, or its making (own).
#[derive(Clone, Copy, Debug, PartialEq, Eq, thiserror::Error)]
pub enum OpenError {
    /// F5: the log has a header that is refused, for this reason.
    #[error("F5: {0}")]
    Header(HeaderError),
    /// F6: a fault was injected.
    #[error("F6: injected fault")]
    Injected,
    /// F8: a number would pass its type; the call counts as not made.
    #[error("F8: number ended")]
    NumberEnded,
    /// F9: out of memory; the call counts as not made.
    #[error("F9: out of memory")]
    Memory,
    /// F10: a cut of the power stands; the call changes nothing but the count of refused calls.
    #[error("F10: power cut")]
    PowerCut,
}

impl From<AllocError> for OpenError {
    ghost from_gives = { λ _ e. e ≡ Memory };

    fn from(_e: AllocError) -> OpenError {
        OpenError::Memory
    }
}

impl<T: Drop> From<AllocFailed<T>> for OpenError {
    ghost from_gives = { λ _ e. e ≡ Memory };

    fn from(_e: AllocFailed<T>) -> OpenError {
        OpenError::Memory
    }
}
