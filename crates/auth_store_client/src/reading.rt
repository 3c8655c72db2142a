//! Proofs that the bytes of a claim encode, all of them.

ghost use Rattle.std.specs.Prelude.{◌≡◌, ◌↔◌, [], ℕ, List, Ok, Some, None, IfOk, IsErr, OnOk, MatchOption, option_map};
ghost use Rattle.state_theory.specs.Encoded.{Fits, operation_proof_encoding};
ghost use Rattle.state_proofs.specs.Exclusion.{ExclusionParts, exclusion_encoding};
ghost use Rattle.state_proofs.specs.ExclusionCode.{form_exclusion_of};
ghost use Rattle.state_proofs.specs.ProofsCode.{parts_of};
ghost use Rattle.state_theory.specs.Verified.{Parts};
ghost use Rattle.auth_store_client.specs.Claims.{FitsExclusion, terms};

use merkle_core::MAX_PROOF_DIGESTS_PER_ELEMENT;
use merkle_forest::codec::{Cursor, Error, Read};
use merkle_forest::{Digest, HashFunction, PendingOf};
use state_ops::{FixedEncoding, FixedKey, FixedValue};
use state_proofs::exclusion::ExclusionProof;
use state_proofs::operation::Proof;
use std::alloc::{AllocError, Global};

// That bytes are no proof is known, where they were not read, unless it was out of memory.
pub(crate) fn unread(e: Error) -> Result<(), AllocError>
    ensures ok { OnOk result (e ≡ Error.Memory → ⊥) }
    ensures err { IsErr result ↔ (e ≡ Error.Memory) }
{
    match e {
        Error::Memory => Err(AllocError),
        Error::EndOfBuffer
        | Error::ExtraData
        | Error::InvalidVarint
        | Error::InvalidBool
        | Error::InvalidEnum(_)
        | Error::InvalidLength
        | Error::Invalid => Ok(()),
    }
}

// The proof of one operation, with a chunk of so many bytes and within the limits, whose encoding the bytes are. None:
// they are not one. It fails only when out of memory.
pub(crate) fn read_operation<F: PendingOf<D>, D: Digest>(
    alloc: Global,
    width: usize,
    bytes: &[u8],
) -> Result<Option<Proof<F, D>>, AllocError>
    ensures { IfOk result (λ found. MatchOption found
        ((proof : Parts) → Fits F.is_pending width D.SIZE 122 proof
        → bytes.now ≡ operation_proof_encoding F.pending_encoding proof → ⊥)
        (λ proof. let parts = parts_of D.encoding F.held proof in Fits F.is_pending width D.SIZE 122 parts
        × (bytes.now ≡ operation_proof_encoding F.pending_encoding parts))) }
{
    let limits = (width, MAX_PROOF_DIGESTS_PER_ELEMENT);
    let mut cursor = Cursor::new(bytes);
    match Proof::read_cfg(alloc, &mut cursor, &limits) {
        Ok(proof) => {
            if cursor.is_empty() {
                return Ok(Some(proof));
            }
            Ok(None)
        }
        Err(e) => {
            unread(e)?;
            Ok(None)
        }
    }
}

// The proof of absence, with a chunk of so many bytes and within the limits, whose encoding the bytes are. None: they
// are not one. It fails only when out of memory.
pub(crate) fn read_exclusion<F, H, K, V>(
    alloc: Global,
    width: usize,
    bytes: &[u8],
) -> Result<Option<ExclusionProof<F, K, FixedEncoding<V>, H::Digest>>, AllocError>
where
    F: merkle_forest::Family + PendingOf<H::Digest>,
    H: HashFunction,
    K: FixedKey,
    V: FixedValue,
    ensures { let terms = terms F.merge_rule H.hash_of width H.Digest.SIZE F.is_pending F.pending_encoding (K.after tt)
        (V.after tt) K.SIZE V.SIZE in
        IfOk result (λ found. MatchOption found
        ((proof : ExclusionParts) → FitsExclusion terms proof
        → bytes.now ≡ exclusion_encoding F.pending_encoding proof → ⊥)
        (λ proof. let parts = form_exclusion_of (λ chunk. chunk.items) K.encoding V.encoding H.Digest.encoding F.held
        proof in
        FitsExclusion terms parts × (bytes.now ≡ exclusion_encoding F.pending_encoding parts))) }
{
    let limits = ((width, MAX_PROOF_DIGESTS_PER_ELEMENT), (), ());
    let mut cursor = Cursor::new(bytes);
    match ExclusionProof::<F, K, FixedEncoding<V>, H::Digest>::read_cfg(
        alloc,
        &mut cursor,
        &limits,
    ) {
        Ok(proof) => {
            if cursor.is_empty() {
                return Ok(Some(proof));
            }
            Ok(None)
        }
        Err(e) => {
            unread(e)?;
            Ok(None)
        }
    }
}
