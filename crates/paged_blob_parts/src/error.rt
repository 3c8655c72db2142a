//! Why a call of a blob is refused.

ghost use Rattle.std.specs.Prelude.{◌≡◌};
ghost use Rattle.paged_blob_parts.specs.declared.error.Error.TheVariants.{Memory};

use std::alloc::{AllocError, AllocFailed};

/// The calls of a blob that can fail.
#[derive(Clone, Copy, Debug, PartialEq, Eq)]
pub enum CallKind {
    /// Reading bytes.
    Read,
    /// Writing bytes.
    Write,
    /// Changing the length.
    Resize,
    /// Making durable what was written.
    Sync,
}

/// What a call of a blob, or over one, refuses. In the Rust: `commonware_runtime::Error`, which has more variants.
#[derive(Clone, Copy, Debug, PartialEq, Eq, thiserror::Error)]
pub enum Error {
    /// F1: no opening of the blob stands, and the call changes nothing.
    /// In the Rust: `commonware_runtime::Error::BlobMissing`.
    #[error("F1: blob missing")]
    BlobMissing,
    /// F6: a fault was injected into a call of this kind.
    #[error("F6: injected fault")]
    Injected(CallKind),
    /// F7: the blob ends before the bytes that are asked for.
    /// In the Rust: `commonware_runtime::Error::BlobInsufficientLength`.
    #[error("F7: blob too short")]
    BlobInsufficientLength,
    /// F8: a number would pass its type; the call counts as not made.
    /// In the Rust: `commonware_runtime::Error::OffsetOverflow`.
    #[error("F8: number ended")]
    NumberEnded,
    /// F9: out of memory; the call counts as not made (own).
    #[error("F9: out of memory")]
    Memory,
    /// F10: a cut of the power stands; the call changes nothing but a count (own).
    #[error("F10: power cut")]
    PowerCut,
    /// F12: a page that was whole does not verify. In the Rust: `commonware_runtime::Error::InvalidChecksum`.
    #[error("F12: checksum mismatch")]
    ChecksumMismatch,
}

impl From<AllocError> for Error {
    ghost from_gives = { λ _ e. e ≡ Memory };

    fn from(_e: AllocError) -> Error {
        Error::Memory
    }
}

impl<T: Drop> From<AllocFailed<T>> for Error {
    ghost from_gives = { λ _ e. e ≡ Memory };

    fn from(_e: AllocFailed<T>) -> Error {
        Error::Memory
    }
}
