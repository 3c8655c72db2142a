//! Why a call of the fault storage is refused.

ghost use Rattle.std.specs.Prelude.{◌≡◌, true};
ghost use Rattle.fault_storage_parts.specs.declared.error.Error.TheVariants.{Memory};
ghost use Rattle.fault_storage_parts.specs.Refusals.{may_be_torn};

use std::alloc::{AllocError, AllocFailed};

/// Which check of a header fails. In the Rust: `commonware_runtime::storage::HeaderError`.
#[derive(Clone, Copy, Debug, PartialEq, Eq, thiserror::Error)]
pub enum HeaderError {
    /// H1: the first four bytes are no layout's.
    #[error("H1: no header of a blob")]
    Magic,
    /// H2: the layout is none of those that are accepted.
    #[error("H2: layout not accepted")]
    LayoutNotAllowed,
    /// H3: the file ends before its header does.
    #[error("H3: header cut short")]
    Short,
    /// H4: the layout's number is not the one of its first four bytes.
    #[error("H4: wrong layout version")]
    LayoutVersion,
    /// H5: the checksum is not the one of the first eight bytes.
    #[error("H5: wrong header checksum")]
    Checksum,
    /// H6: the blob version is none of those that are accepted.
    #[error("H6: blob version not accepted")]
    BlobVersion,
}

impl HeaderError {
    /// Whether a creation that a crash cut short may look so: for H1, H3 and H5.
    /// In the Rust: `commonware_runtime::storage::HeaderError::may_be_torn_creation`.
    pub fn may_be_torn_creation(self) -> bool
        ensures { result ≡ may_be_torn self }
    {
        matches!(
            self,
            HeaderError::Magic | HeaderError::Short | HeaderError::Checksum
        )
    }

    /// The refusal of the call that met it: F5. In the Rust: `commonware_runtime::storage::HeaderError::into_error`.
    pub fn into_error(self) -> Error
        ensures { result ≡ Error.Header self }
    {
        Error::Header(self)
    }
}

/// The calls that can be made to fail.
#[derive(Clone, Copy, Debug, PartialEq, Eq)]
pub enum Call {
    /// Opening a blob.
    Open,
    /// Reading bytes.
    Read,
    /// Writing bytes.
    Write,
    /// Making a blob durable.
    Sync,
    /// Changing a blob's length.
    Resize,
    /// Removing blobs.
    Remove,
    /// Listing names.
    Scan,
}

/// What a call of the fault storage refuses. In the Rust: `commonware_runtime::Error`, which has more variants.
#[derive(Clone, Copy, Debug, PartialEq, Eq, thiserror::Error)]
pub enum Error {
    /// F1: there is no blob of this name. In the Rust: `commonware_runtime::Error::BlobMissing`.
    #[error("F1: blob missing")]
    BlobMissing,
    /// F2: there is no partition of this name. In the Rust: `commonware_runtime::Error::PartitionMissing`.
    #[error("F2: partition missing")]
    PartitionMissing,
    /// F3: a partition's name is empty, or has a byte that is no ASCII letter, digit, `_` or `-`.
    /// In the Rust: `commonware_runtime::Error::PartitionNameInvalid`.
    #[error("F3: invalid partition name")]
    PartitionNameInvalid,
    /// F4: the name is open already.
    #[error("F4: already open")]
    AlreadyOpen,
    /// F5: the file's header fails this check.
    #[error("F5: {0}")]
    Header(HeaderError),
    /// F6: a fault was injected into a call of this kind.
    #[error("F6: injected fault")]
    Injected(Call),
    /// F7: the blob ends before the bytes that are asked for.
    /// In the Rust: `commonware_runtime::Error::BlobInsufficientLength`.
    #[error("F7: blob too short")]
    BlobInsufficientLength,
    /// F8: a number would pass its type; the call counts as not made. In the Rust:
    /// `commonware_runtime::Error::OffsetOverflow`.
    #[error("F8: number ended")]
    NumberEnded,
    /// F9: out of memory; the call counts as not made (own).
    #[error("F9: out of memory")]
    Memory,
    /// F11: a failure of the name is retained, so that it is not opened as it is.
    #[error("F11: failure retained")]
    Retained,
}

impl From<AllocError> for Error {
    ghost from_gives = { λ _ e. e ≡ Memory };

    fn from(_e: AllocError) -> Error {
        Error::Memory
    }
}

impl<T: Drop> From<AllocFailed<T>> for Error {
    ghost from_gives = { λ _ e. e ≡ Memory };

    fn from(_e: AllocFailed<T>) -> Error {
        Error::Memory
    }
}
