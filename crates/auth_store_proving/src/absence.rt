//! Proofs that a key is not there.
//!
//! A log with the keys c and g, and what proves a key absent:
//!
//!     log     0 commit  1 update c, next g  2 update g, next c  3 commit
//!     e       between c and g: the update of c        a, k      before c and behind g: the update of g
//!
//! Of a log whose state has no key the last commit proves each key absent: its floor is its own place.

ghost use Rattle.std.specs.Prelude.{◌≡◌, ◌<◌, ◌-◌, ℕ, List, None, Some, IfOk, IfErr, OnOk};
ghost use Rattle.std.specs.Prelude.{length, option_map, slice_get, unwrap_or};
ghost use Rattle.auth_store_client.specs.Absence.{honest_absence_parts, metadata_in};
ghost use Rattle.auth_store_index.specs.Refusals.{IfLog};
ghost use Rattle.auth_store_ledger.specs.History.{history_of, update_fields};
ghost use Rattle.auth_store_proving.specs.Proving.{IsHonestAbsence};
ghost use Rattle.auth_store_ledger.specs.Store.{IsPlaced, setting_of_width};
ghost use Rattle.state_ops.specs.Reading.{IsField};
ghost use Rattle.state_proofs.specs.Exclusion.{by_commit, by_update};
ghost use Rattle.state_proofs.specs.ExclusionCode.{form_exclusion_of};
ghost use Rattle.state_proofs.specs.ProofsCode.{parts_of};

use crate::key::operation_proof;
use crate::logged::{read_operation, update_at};
use auth_store_index::ReadError;
use auth_store_index::near::entry_before;
use auth_store_ledger::LoggedOperations;
use auth_store_parts::history::Places;
use merkle_forest::codec::Write;
use merkle_forest::{Digest, Family, Graftable, HashFunction, PendingOf};
use state_current::Current;
use state_ops::update::Ordered;
use state_ops::{FixedEncoding, FixedKey, FixedValue, Operation, OrderedOperation};
use state_proofs::exclusion::ExclusionProof;
use state_proofs::operation::Proof;
use std::alloc::Global;

// The metadata of the commit at a location of the log, or none where no commit stands there.
fn metadata_at<F: Family, K: FixedKey, V: FixedValue, L: LoggedOperations<F, K, V>>(
    log: &mut L,
    location: u64,
) -> Result<Option<V>, ReadError<L::Error>>
    requires may { L.readable log.old }
    requires within { location < length (L.log log.old) }
    ensures metadata { IfOk result (λ metadata. option_map V.encoding metadata
        ≡ unwrap_or (metadata_in (slice_get (L.log log.old) location)) None) }
    ensures same { L.log log.new ≡ L.log log.old }
    ensures leads { OnOk result (L.leads log.old log.new) }
    ensures refused { IfErr result (IfLog (L.leads log.old log.new) (L.refuses log.old log.new)) }
{
    let operation: OrderedOperation<F, K, V> = read_operation(log, location)?;
    match operation {
        Operation::CommitFloor(metadata, _) => Ok(metadata),
        Operation::Update(_) => Ok(None),
        Operation::Delete(_) => Ok(None),
    }
}

// The proof by the commit at a location of the log, where this is the one that it is active.
fn proof_by_commit<F, D, K: FixedKey, V: FixedValue, L: LoggedOperations<F, K, V>>(
    log: &mut L,
    proof: Proof<F, D>,
    location: u64,
) -> Result<ExclusionProof<F, K, FixedEncoding<V>, D>, ReadError<L::Error>>
where
    F: Graftable + PendingOf<D>,
    D: Digest,
    requires may { L.readable log.old }
    requires within { location < length (L.log log.old) }
    ensures by { IfOk result (λ by. form_exclusion_of (λ chunk. chunk.items) K.encoding V.encoding D.encoding F.held by
        ≡ by_commit (parts_of D.encoding F.held proof)
        (unwrap_or (metadata_in (slice_get (L.log log.old) location)) None)) }
    ensures same { L.log log.new ≡ L.log log.old }
    ensures leads { OnOk result (L.leads log.old log.new) }
    ensures refused { IfErr result (IfLog (L.leads log.old log.new) (L.refuses log.old log.new)) }
{
    let metadata = metadata_at(log, location)?;
    Ok(ExclusionProof::Commit(proof, metadata))
}

// The proof by the update of this key, which stands at the location of the log, where this is the one that it is
// active.
fn proof_by_update<F, D, K: FixedKey, V: FixedValue, L: LoggedOperations<F, K, V>>(
    log: &mut L,
    proof: Proof<F, D>,
    key: &K,
    location: u64,
) -> Result<ExclusionProof<F, K, FixedEncoding<V>, D>, ReadError<L::Error>>
where
    F: Graftable + PendingOf<D>,
    D: Digest,
    requires may { L.readable log.old }
    requires stands { update_fields (slice_get (L.log log.old) location) ≡ None → ⊥ }
    ensures by { (value next : List ℕ) → update_fields (slice_get (L.log log.old) location) ≡ Some (value, next)
        → IfOk result (λ by. form_exclusion_of (λ chunk. chunk.items) K.encoding V.encoding D.encoding F.held by
        ≡ by_update (parts_of D.encoding F.held proof) (K.encoding key.now) value next) }
    ensures same { L.log log.new ≡ L.log log.old }
    ensures leads { OnOk result (L.leads log.old log.new) }
    ensures refused { IfErr result (IfLog (L.leads log.old log.new) (L.refuses log.old log.new)) }
{
    let Ordered {
        value,
        next_key,
        ..
    } = update_at(log, location)?;
    let key = key.clone()?;
    Ok(ExclusionProof::KeyValue(
        proof,
        Ordered {
            key,
            value,
            next_key,
        },
    ))
}

// The honest proof that the key is absent from the state that the log leads to.
fn exclusion_proof<F, H, K: FixedKey, V: FixedValue, L: LoggedOperations<F, K, V>, const N: usize>(
    alloc: Global,
    log: &mut L,
    places: &Places<K>,
    current: &Current<F, H, N>,
    key: &K,
) -> Result<ExclusionProof<F, K, FixedEncoding<V>, H::Digest>, ReadError<L::Error>>
where
    F: Graftable + PendingOf<H::Digest>,
    H: HashFunction,
    requires may { L.readable log.old }
    requires placed { IsPlaced (setting_of_width F.merge_rule H.hash_of N) K.SIZE V.SIZE (L.log log.old) places.now
        current.now }
    ensures proof { IfOk result (λ proof.
        form_exclusion_of (λ chunk. chunk.items) K.encoding V.encoding H.Digest.encoding F.held proof
        ≡ honest_absence_parts (setting_of_width F.merge_rule H.hash_of N) K.SIZE V.SIZE
        (history_of (L.log log.old)) (K.encoding key.now)) }
    ensures same { L.log log.new ≡ L.log log.old }
    ensures leads { OnOk result (L.leads log.old log.new) }
    ensures refused { IfErr result (IfLog (L.leads log.old log.new) (L.refuses log.old log.new)) }
{
    match entry_before(places.locations(), key) {
        Some((before, location)) => {
            let proof = operation_proof(alloc, current, *location)?;
            proof_by_update(log, proof, before, *location as u64)
        }
        None => {
            let last = current.leaves().as_u64() - 1;
            let proof = operation_proof(alloc, current, last as usize)?;
            proof_by_commit(log, proof, last)
        }
    }
}

// The honest bytes of the proof that the key is absent from the state that the log leads to; what they name are keys
// and values.
pub(crate) fn prove_absence<F, H, K, V, L, const N: usize>(
    alloc: Global,
    log: &mut L,
    places: &Places<K>,
    current: &Current<F, H, N>,
    key: &K,
) -> Result<Vec<u8>, ReadError<L::Error>>
where
    F: Graftable + PendingOf<H::Digest>,
    H: HashFunction,
    K: FixedKey,
    V: FixedValue,
    L: LoggedOperations<F, K, V>,
    requires may { L.readable log.old }
    requires placed { IsPlaced (setting_of_width F.merge_rule H.hash_of N) K.SIZE V.SIZE (L.log log.old) places.now
        current.now }
    ensures bytes { IfOk result (λ bytes. IsHonestAbsence (IsField (K.after tt) K.SIZE) (IsField (V.after tt) V.SIZE)
        F.pending_encoding (setting_of_width F.merge_rule H.hash_of N) K.SIZE V.SIZE (history_of (L.log log.old))
        (K.encoding key.now) bytes.items) }
    ensures same { L.log log.new ≡ L.log log.old }
    ensures leads { OnOk result (L.leads log.old log.new) }
    ensures refused { IfErr result (IfLog (L.leads log.old log.new) (L.refuses log.old log.new)) }
{
    let proof = exclusion_proof(alloc, log, places, current, key)?;
    let mut bytes = Vec::new(alloc);
    proof.write(&mut bytes)?;
    Ok(bytes)
}
