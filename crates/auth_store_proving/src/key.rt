//! Proofs that a store answers.

ghost use Rattle.std.specs.Prelude.{◌≡◌, ◌<◌, ◌≤◌, ◌*◌, ℕ, List, IfOk, IfErr, OnOk};
ghost use Rattle.auth_store_index.specs.Refusals.{IfLog};
ghost use Rattle.auth_store_ledger.specs.History.{history_of};
ghost use Rattle.auth_store_client.specs.Claims.{terms};
ghost use Rattle.auth_store_proving.specs.Proving.{IsAccepted, IsHonestAnswer, IsHonestUpdate, honest_answer};
ghost use Rattle.auth_store_proving.specs.ProvingCode.{found_of, key_answer_of};
ghost use Rattle.auth_store_ledger.specs.Store.{IsKept, IsLedgerOf, IsPlaced, setting_of_width, state_of_log};
ghost use Rattle.auth_store_ledger.specs.Store.{root_of_history};
ghost use Rattle.auth_store_log.specs.Records.{format_of};
ghost use Rattle.state_ops.specs.Operation as meaning;
ghost use Rattle.state_ops.specs.Reading.{IsField};
ghost use Rattle.state_theory.specs.Honest.{honest_parts, key_value_proof};
ghost use Rattle.state_proofs.specs.ProofsCode.{parts_of};

use crate::absence::prove_absence;
use crate::logged::update_at;
use auth_store_client::laws::{honest_proofs_show_absence, honest_proofs_show_true_values};
use auth_store_index::ReadError;
use auth_store_ledger::{Ledger, LoggedOperations};
use auth_store_parts::history::Places;
use merkle_forest::codec::Write;
use merkle_forest::{Graftable, HashFunction, Location, PendingOf};
use state_current::Current;
use state_ops::update::Ordered;
use state_ops::{FixedKey, FixedValue};
use state_proofs::Error;
use state_proofs::operation::Proof;
use state_proofs::ordered::KeyValueProof;
use std::alloc::{AllocError, Global};

/// What a store answers of a key, with the bytes that prove it under the root of that moment.
#[derive(Debug, Drop)]
pub enum KeyProof<V> {
    /// The key's value, and the honest bytes of the proof that it has it.
    Value(V, Vec<u8>),
    /// The key isn't there: the honest bytes of the proof that it is absent.
    Absent(Vec<u8>),
}

// Want of memory for a proof.
pub(crate) fn out_of_memory<F: Graftable>(error: Error<F>) -> AllocError
    requires { error ≡ Error.Memory }
{
    match error {
        Error::Memory => AllocError,
        _ => unreachable!(),
    }
}

// The honest proof of the operation at a location, whose chunk is not pruned, of what is kept of a log. It fails only
// when out of memory.
pub(crate) fn operation_proof<F, H, const N: usize>(
    alloc: Global,
    current: &Current<F, H, N>,
    location: usize,
) -> Result<Proof<F, H::Digest>, AllocError>
where
    F: Graftable + PendingOf<H::Digest>,
    H: HashFunction,
    requires behind { 8 * N * current.now.bits.pruned ≤ location }
    requires within { location < current.now.operations.leaves }
    ensures { (key value : ℕ) (log : List meaning.Operation)
        → let setting = setting_of_width F.merge_rule H.hash_of N in
        IsKept setting key value log current.now → IfOk result (λ proof. parts_of H.Digest.encoding F.held proof
        ≡ honest_parts setting (state_of_log key value log) location) }
{
    match state_proving::operation_proof(alloc, current, Location::new(location as u64)) {
        Ok(proof) => Ok(proof),
        Err(error) => Err(out_of_memory(error)),
    }
}

// The honest bytes that prove the update at a location of a log of which this is kept, whose chunk is not pruned and
// which names this next key. It fails only when out of memory.
fn proof_at<F, H, K: FixedKey, const N: usize>(
    alloc: Global,
    current: &Current<F, H, N>,
    location: usize,
    next_key: &K,
) -> Result<Vec<u8>, AllocError>
where
    F: Graftable + PendingOf<H::Digest>,
    H: HashFunction,
    requires behind { 8 * N * current.now.bits.pruned ≤ location }
    requires within { location < current.now.operations.leaves }
    ensures next { IfOk result (λ _. IsField (K.after tt) K.SIZE (K.encoding next_key.now)) }
    ensures bytes { (key value : ℕ) (log : List meaning.Operation)
        → let setting = setting_of_width F.merge_rule H.hash_of N in
        IsKept setting key value log current.now → IfOk result (λ bytes. bytes.items
        ≡ key_value_proof F.pending_encoding setting (state_of_log key value log) location (K.encoding next_key.now)) }
{
    let proof = KeyValueProof::<F, K, H::Digest> {
        proof: operation_proof(alloc, current, location)?,
        next_key: next_key.clone()?,
    };
    let mut bytes = Vec::new(alloc);
    proof.write(&mut bytes)?;
    Ok(bytes)
}

// The value of the key and the bytes that prove it, where the log has an active update of it, which is read: the log
// may be read on. It is refused out of memory or as the log is.
fn prove_value<F, H, K: FixedKey, V: FixedValue, L: LoggedOperations<F, K, V>, const N: usize>(
    alloc: Global,
    log: &mut L,
    places: &Places<K>,
    current: &Current<F, H, N>,
    key: &K,
) -> Result<Option<(V, Vec<u8>)>, ReadError<L::Error>>
where
    F: Graftable + PendingOf<H::Digest>,
    H: HashFunction,
    requires may { L.readable log.old }
    requires placed { IsPlaced (setting_of_width F.merge_rule H.hash_of N) K.SIZE V.SIZE (L.log log.old) places.now
        current.now }
    ensures found { IfOk result (λ found. IsHonestUpdate (IsField (K.after tt) K.SIZE) F.pending_encoding
        (setting_of_width F.merge_rule H.hash_of N) K.SIZE V.SIZE (L.log log.old) (K.encoding key.now)
        (found_of V.encoding found)) }
    ensures readable { OnOk result (L.readable log.new) }
    ensures placed { OnOk result (IsPlaced (setting_of_width F.merge_rule H.hash_of N) K.SIZE V.SIZE (L.log log.new)
        places.now current.now) }
    ensures same { L.log log.new ≡ L.log log.old }
    ensures leads { OnOk result (L.leads log.old log.new) }
    ensures refused { IfErr result (IfLog (L.leads log.old log.new) (L.refuses log.old log.new)) }
{
    let Some(location) = places.get(key) else {
        return Ok(None);
    };
    let Ordered {
        value,
        next_key,
        ..
    } = update_at(log, location as u64)?;
    // What is active stands behind the floor, and what is pruned before it.
    let kept_from = current.kept_from().as_u64();
    prove!(kept_from <= location as u64);
    let bytes = proof_at(alloc, current, location, &next_key)?;
    Ok(Some((value, bytes)))
}

// The value of the key and the bytes that prove it, or the bytes that prove that it isn't there; what they name are
// keys and values. It is refused out of memory or as the log is.
fn key_proof<F, H, K: FixedKey, V: FixedValue, L: LoggedOperations<F, K, V>, const N: usize>(
    alloc: Global,
    log: &mut L,
    places: &Places<K>,
    current: &Current<F, H, N>,
    key: &K,
) -> Result<KeyProof<V>, ReadError<L::Error>>
where
    F: Graftable + PendingOf<H::Digest>,
    H: HashFunction,
    requires may { L.readable log.old }
    requires placed { IsPlaced (setting_of_width F.merge_rule H.hash_of N) K.SIZE V.SIZE (L.log log.old) places.now
        current.now }
    ensures ok { IfOk result (λ found. IsHonestAnswer (IsField (K.after tt) K.SIZE) (IsField (V.after tt) V.SIZE)
        F.pending_encoding (setting_of_width F.merge_rule H.hash_of N) K.SIZE V.SIZE (history_of (L.log log.old))
        (K.encoding key.now) (key_answer_of V.encoding found)) }
    ensures same { L.log log.new ≡ L.log log.old }
    ensures leads { OnOk result (L.leads log.old log.new) }
    ensures refused { IfErr result (IfLog (L.leads log.old log.new) (L.refuses log.old log.new)) }
{
    let found = prove_value(alloc, log, places, current, key)?;
    match found {
        Some((value, bytes)) => Ok(KeyProof::Value(value, bytes)),
        None => {
            let bytes = prove_absence(alloc, log, places, current, key)?;
            Ok(KeyProof::Absent(bytes))
        }
    }
}

/// The value of the key, or that it isn't there, with the honest bytes that prove it under the root of this moment.
/// The operation that the proof is of is read of the log. It is refused out of memory or as the log is.
pub fn prove_key<F, H, K, V, L, const N: usize>(
    ledger: &Ledger<F, H, K, V, N>,
    log: &mut L,
    key: &K,
) -> Result<KeyProof<V>, ReadError<L::Error>>
where
    F: Graftable + PendingOf<H::Digest>,
    H: HashFunction,
    K: FixedKey,
    V: FixedValue,
    L: LoggedOperations<F, K, V>,
    requires may { L.readable log.old }
    requires of { IsLedgerOf (setting_of_width F.merge_rule H.hash_of N)
        (format_of (K.after tt) (V.after tt) K.SIZE V.SIZE) (L.log log.old) ledger.now }
    ensures ok { let setting = setting_of_width F.merge_rule H.hash_of N in
        IfOk result (λ found. key_answer_of V.encoding found
        ≡ honest_answer F.pending_encoding setting K.SIZE V.SIZE (history_of (L.log log.old))
        (K.encoding key.now)) }
    ensures shown { let terms = terms F.merge_rule H.hash_of N H.Digest.SIZE F.is_pending F.pending_encoding
        (K.after tt) (V.after tt) K.SIZE V.SIZE in
        let root = root_of_history (setting_of_width F.merge_rule H.hash_of N) K.SIZE V.SIZE
        (history_of (L.log log.old)) in
        IfOk result (λ found. IsAccepted terms root (K.encoding key.now) (key_answer_of V.encoding found)) }
    ensures same { L.log log.new ≡ L.log log.old }
    ensures leads { OnOk result (L.leads log.old log.new) }
    ensures refused { IfErr result (IfLog (L.leads log.old log.new) (L.refuses log.old log.new)) }
{
    honest_proofs_show_true_values::<F, H, K, V, N>();
    honest_proofs_show_absence::<F, H, K, V, N>();
    ledger.holds_a_history();
    let (places, current) = ledger.parts();
    key_proof(ledger.allocator(), log, places, current, key)
}
