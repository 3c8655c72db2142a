//! Checking a claim: one function for each kind of claim, and `check` over all of them.

ghost use Rattle.std.specs.Prelude.{◌≡◌, ◌↔◌, [], ℕ, List, Ok, IfOk, IsTrue};
ghost use Rattle.state_ops.specs.Operation.{meaning_of};
ghost use Rattle.state_ops.specs.Reading.{IsField, IsOfFields};
ghost use Rattle.auth_store_client.specs.Claims.{terms, ClaimsFields, Shows, ShowsAbsence, ShowsActive};
ghost use Rattle.auth_store_client.specs.ClaimsCode.{claim_of};
ghost use Rattle.auth_store_client.specs.Soundness.{IsProved};
ghost use Rattle.auth_store_client.specs.States.{IsChunkWidth, setting_of_width};

use crate::claim::Claim;
use crate::laws::{
    shown_claims_are_honest_or_strings_collide, shown_claims_are_true_or_strings_collide,
};
use crate::range::shows_range;
use crate::reading::{read_exclusion, read_operation};
use crate::slice::shows_slice;
use merkle_forest::{Graftable, HashFunction, PendingOf};
use state_ops::ordered::encode;
use state_ops::{FixedKey, FixedValue, OrderedOperation};
use state_proofs::ordered::shows_value;
use std::alloc::{AllocError, Global};

// Whether the bytes are those of a proof that the key is not in the state of this root.
fn shows_absence<F, H, K, V>(
    alloc: Global,
    width: usize,
    root: &H::Digest,
    key: &K,
    bytes: &[u8],
) -> Result<bool, AllocError>
where
    F: Graftable + PendingOf<H::Digest>,
    H: HashFunction,
    K: FixedKey,
    V: FixedValue,
    ensures { let terms = terms F.merge_rule H.hash_of width H.Digest.SIZE F.is_pending F.pending_encoding (K.after tt)
        (V.after tt) K.SIZE V.SIZE in
        IfOk result (λ yes. IsTrue yes
        ↔ ShowsAbsence terms (H.Digest.encoding root.now) (K.encoding key.now) bytes.now) }
{
    match read_exclusion::<F, H, K, V>(alloc, width, bytes)? {
        None => Ok(false),
        Some(proof) => proof.verify::<H>(alloc, key, root),
    }
}

// Whether the bytes are those of a proof that the operation is active at this location of the state of this root. Where
// it says yes, the operation's keys and values have their sizes and are read again.
fn shows_active<F, H, K, V>(
    alloc: Global,
    width: usize,
    root: &H::Digest,
    location: u64,
    operation: &OrderedOperation<F, K, V>,
    bytes: &[u8],
) -> Result<bool, AllocError>
where
    F: Graftable + PendingOf<H::Digest>,
    H: HashFunction,
    K: FixedKey,
    V: FixedValue,
    ensures exact { let terms = terms F.merge_rule H.hash_of width H.Digest.SIZE F.is_pending F.pending_encoding
        (K.after tt) (V.after tt) K.SIZE V.SIZE in
        IfOk result (λ yes. IsTrue yes ↔ ShowsActive terms (H.Digest.encoding root.now) location
        (meaning_of K.encoding V.encoding operation.now) bytes.now) }
    ensures fields { IfOk result (λ yes. IsTrue yes → IsOfFields (IsField (K.after tt) K.SIZE)
        (IsField (V.after tt) V.SIZE) (meaning_of K.encoding V.encoding operation.now)) }
{
    match read_operation::<F, H::Digest>(alloc, width, bytes)? {
        None => Ok(false),
        Some(proof) => {
            if proof.loc.as_u64() != location {
                return Ok(false);
            }
            let operation = encode(alloc, operation)?;
            Ok(proof.verify::<H>(&operation, root))
        }
    }
}

// Whether the bytes show the claim under this root, with chunks of `N` bytes. Where it says yes, the keys and the
// values that the claim names have their sizes and are read again. It fails only when out of memory.
fn shows<F, H, K, V, const N: usize>(
    alloc: Global,
    root: &H::Digest,
    claim: &Claim<F, K, V>,
    bytes: &[u8],
) -> Result<bool, AllocError>
where
    F: Graftable + PendingOf<H::Digest>,
    H: HashFunction,
    K: FixedKey,
    V: FixedValue,
    ensures exact { let terms = terms F.merge_rule H.hash_of N H.Digest.SIZE F.is_pending F.pending_encoding
        (K.after tt) (V.after tt) K.SIZE V.SIZE in
        IfOk result (λ yes. IsTrue yes ↔ Shows terms (claim_of K.encoding V.encoding claim.now)
        (H.Digest.encoding root.now) bytes.now) }
    ensures fields { IfOk result (λ yes. IsTrue yes → ClaimsFields (IsField (K.after tt) K.SIZE)
        (IsField (V.after tt) V.SIZE) (claim_of K.encoding V.encoding claim.now)) }
{
    match claim {
        Claim::Value { key, value } => shows_value::<F, H, K, V>(alloc, N, root, key, value, bytes),
        Claim::Absent { key } => shows_absence::<F, H, K, V>(alloc, N, root, key, bytes),
        Claim::Active {
            location,
            operation,
        } => shows_active::<F, H, K, V>(alloc, N, root, *location, operation, bytes),
        Claim::Range {
            start,
            operations,
            active,
        } => shows_range::<F, H, K, V>(alloc, N, root, *start, operations, active, bytes),
        Claim::Slice { start, operations } => {
            shows_slice::<F, H, K, V>(alloc, N, root, *start, operations, bytes)
        }
    }
}

/// Whether the bytes prove the claim about the state of this root, with chunks of `N` bytes: then it is true of each
/// history of keys and values with this root, and these are its honest bytes there, or two different strings hashed at
/// one place share a digest. Bytes that are no proof, or have others after it, prove nothing. It fails only when out of
/// memory.
pub fn check<F, H, K, V, const N: usize>(
    alloc: Global,
    root: &H::Digest,
    claim: &Claim<F, K, V>,
    bytes: &[u8],
) -> Result<bool, AllocError>
where
    F: Graftable + PendingOf<H::Digest>,
    H: HashFunction,
    K: FixedKey,
    V: FixedValue,
    ensures exact { let terms = terms F.merge_rule H.hash_of N H.Digest.SIZE F.is_pending F.pending_encoding
        (K.after tt) (V.after tt) K.SIZE V.SIZE in
        IfOk result (λ yes. IsTrue yes ↔ Shows terms (claim_of K.encoding V.encoding claim.now)
        (H.Digest.encoding root.now) bytes.now) }
    ensures sound { let setting = setting_of_width F.merge_rule H.hash_of N in
        let terms = terms F.merge_rule H.hash_of N H.Digest.SIZE F.is_pending F.pending_encoding (K.after tt)
        (V.after tt) K.SIZE V.SIZE in
        H.Digest.SIZE ≡ 32 → IsChunkWidth N → IfOk result (λ yes. IsTrue yes → IsProved setting terms
        (claim_of K.encoding V.encoding claim.now) (H.Digest.encoding root.now) bytes.now) }
{
    shown_claims_are_true_or_strings_collide::<F, H, K, V, N>();
    shown_claims_are_honest_or_strings_collide::<F, H, K, V, N>();
    shows::<F, H, K, V, N>(alloc, root, claim, bytes)
}
