//! Why there is no proof.

ghost use Rattle.std.specs.Prelude.{◌≡◌};

use auth_store_index::ReadError;
use std::alloc::{AllocError, AllocFailed};

/// Why there is no proof of what was asked for: the first of these that holds, in this order.
#[derive(Clone, Copy, Debug, PartialEq, Eq, thiserror::Error)]
pub enum Unprovable {
    /// S11: the range is empty; it starts at its end or past it.
    #[error("S11: the range is empty")]
    EmptyRange,
    /// S9: the log has no such operation, or the range ends past it.
    #[error("S9: past the end of the log")]
    OutOfRange,
    /// S10: the operation, or the first of the range, stands before the pruned chunks.
    #[error("S10: before the pruned chunks")]
    Pruned,
    /// S8: the operation is not active.
    #[error("S8: the operation is not active")]
    Inactive,
}

/// Why a ledger gives no proof: there is none, or out of memory, or the log isn't read.
#[derive(Debug, Drop, thiserror::Error)]
pub enum ProofError<E> {
    /// There is none.
    #[error("{0}")]
    Unprovable(Unprovable),
    /// Out of memory.
    #[error("out of memory")]
    Memory,
    /// The log isn't read.
    #[error("the log isn't read")]
    Log(E),
}

impl<E> From<Unprovable> for ProofError<E> {
    ghost use Rattle.auth_store_proving.specs.declared.error.ProofError.TheVariants as proofs;

    ghost from_gives = { λ why e. e ≡ proofs.Unprovable why };

    fn from(why: Unprovable) -> ProofError<E> {
        ProofError::Unprovable(why)
    }
}

impl<E> From<AllocError> for ProofError<E> {
    ghost use Rattle.auth_store_proving.specs.declared.error.ProofError.TheVariants as proofs;

    ghost from_gives = { λ _ e. e ≡ proofs.Memory };

    fn from(_e: AllocError) -> ProofError<E> {
        ProofError::Memory
    }
}

impl<E, T: Drop> From<AllocFailed<T>> for ProofError<E> {
    ghost use Rattle.auth_store_proving.specs.declared.error.ProofError.TheVariants as proofs;

    ghost from_gives = { λ _ e. e ≡ proofs.Memory };

    fn from(_e: AllocFailed<T>) -> ProofError<E> {
        ProofError::Memory
    }
}

impl<E> From<ReadError<E>> for ProofError<E> {
    ghost use Rattle.auth_store_proving.specs.Refusals.{proof_unread};

    ghost from_gives = { λ refused e. e ≡ proof_unread refused };

    fn from(refused: ReadError<E>) -> ProofError<E> {
        match refused {
            ReadError::Memory(_) => ProofError::Memory,
            ReadError::Log(why) => ProofError::Log(why),
        }
    }
}
