//! Why a call of a bitmap is refused.

ghost use Rattle.std.specs.Prelude.{◌≡◌};
ghost use Rattle.merkle_core_parts.specs.declared.error.Error.{Error as TreeError};
ghost use Rattle.merkle_core_parts.specs.declared.error.Error.TheVariants.{Memory as TreeMemory};
ghost use Rattle.state_proofs_parts.specs.declared.bitmap_error.Error.TheVariants.{Memory};

use merkle_forest::mmr::Family;
use std::alloc::{AllocError, AllocFailed};

/// What a call of a bitmap refuses. In the Rust: `merkle::Error`, which has more variants.
#[derive(Clone, Copy, Debug, PartialEq, Eq, thiserror::Error)]
pub enum Error {
    /// M12: there are not as many pinned nodes as the pruned chunks have peaks.
    /// In the Rust: `merkle::Error::InvalidPinnedNodes`.
    #[error("M12: too few or too many pinned nodes")]
    InvalidPinnedNodes,
    /// M21: more chunks are to be pruned than a bitmap can have. In the Rust: `merkle::Error::DataCorrupted`.
    #[error("M21: more pruned chunks than a bitmap has")]
    DataCorrupted,
    /// M22: this bit is past the bits, of which there are so many. In the Rust: `merkle::Error::BitOutOfBounds`.
    #[error("M22: bit {0} is past the {1} bits")]
    BitOutOfBounds(u64, u64),
    /// M23: out of memory (own).
    #[error("M23: out of memory")]
    Memory,
}

impl From<AllocError> for Error {
    ghost from_gives = { λ _ e. e ≡ Memory };

    fn from(_e: AllocError) -> Error {
        Error::Memory
    }
}

impl<T: Drop> From<AllocFailed<T>> for Error {
    ghost from_gives = { λ _ e. e ≡ Memory };

    fn from(_e: AllocFailed<T>) -> Error {
        Error::Memory
    }
}

// The refusal of a call of the tree that was refused for want of memory.
pub(crate) fn out_of_memory(e: merkle_core_parts::Error<Family>) -> Error
    requires { e ≡ TreeMemory }
    ensures { result ≡ Memory }
{
    match e {
        merkle_core_parts::Error::Memory => Error::Memory,
        _ => unreachable!(),
    }
}
