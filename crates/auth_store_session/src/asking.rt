//! What an open store answers to a step of its session.

ghost use Rattle.std.specs.Prelude.{◌≡◌, ◌+◌, Option, Some, option_map, true};
ghost use Rattle.paged_blob_parts.specs.Moments.{Grows};
ghost use Rattle.auth_store_log.specs.Records.{format_of};
ghost use Rattle.auth_store_machine.specs.Machine.{machine, IsAnswerTo};
ghost use Rattle.auth_store_parts.specs.Batch as words;
ghost use Rattle.auth_store_machine.specs.Machine.{ask_config, ask_cut, ask_commit};
ghost use Rattle.auth_store_machine.specs.Machine.{ask_get, ask_root, ask_commits, ask_floor, ask_len, ask_prune};
ghost use Rattle.auth_store_machine.specs.Machine.{ask_proof};
ghost use Rattle.auth_store_machine.specs.Machine.{IsSaid, is_root_of_commit, is_value, is_root, is_commits, is_floor};
ghost use Rattle.auth_store_machine.specs.Machine.{is_len, is_pruned, is_proof, is_set, of_key, of_operation, of_range};
ghost use Rattle.auth_store_machine.specs.Machine.{of_slice};
ghost use Rattle.auth_store_device.specs.Devices.{after_asking};
ghost use Rattle.auth_store_session.specs.MachineCode.{meaning_of, request_of, config_after, IsLeftBy};
ghost use Rattle.auth_store_machine.specs.Standing.{IsLeftOpen, StepsOpen};

use crate::session::{Answer, Step};
use crate::store::Store;
use auth_store_ledger::Batch;
use fault_storage::Config;
use merkle_forest::{Graftable, HashFunction, PendingOf};
use rand_core::Rng;
use state_ops::{FixedKey, FixedValue};

// Commits a batch of an open store.
fn commit<R, F, H, K, V, const N: usize>(
    store: &mut Store<R, F, H, K, V, N>,
    batch: Batch<K, V>,
    metadata: Option<V>,
) -> Answer<F, H::Digest, K, V>
where
    R: Rng + Drop,
    F: Graftable + PendingOf<H::Digest>,
    H: HashFunction,
    K: FixedKey,
    V: FixedValue,
    ensures steps { let format = format_of (K.after tt) (V.after tt) K.SIZE V.SIZE in
        let size = store.old.cache.page_size + 12 in
        let m = machine F.merge_rule H.hash_of F.pending_encoding N K.SIZE V.SIZE size in
        StepsOpen m format store.old (ask_commit (words.meanings K.encoding V.encoding batch.words.items)
        (option_map V.encoding metadata)) (meaning_of H.Digest.encoding K.encoding V.encoding result) store.new }
    ensures kind { IsSaid is_root_of_commit (meaning_of H.Digest.encoding K.encoding V.encoding result) }
    ensures page_size { store.new.cache.page_size ≡ store.old.cache.page_size }
    ensures grows { Grows store.old.device.calls store.new.device.calls }
    ensures settings { store.new.device.storage.config ≡ store.old.device.storage.config }
{
    match store.commit(batch, metadata) {
        Ok(root) => Answer::Committed(root),
        Err(error) => Answer::Refused(error),
    }
}

// Asks an open store for the value of a key.
fn get<R, F, H, K, V, const N: usize>(
    store: &mut Store<R, F, H, K, V, N>,
    key: &K,
) -> Answer<F, H::Digest, K, V>
where
    R: Rng + Drop,
    F: Graftable + PendingOf<H::Digest>,
    H: HashFunction,
    K: FixedKey,
    V: FixedValue,
    ensures steps { let format = format_of (K.after tt) (V.after tt) K.SIZE V.SIZE in
        let size = store.old.cache.page_size + 12 in
        let m = machine F.merge_rule H.hash_of F.pending_encoding N K.SIZE V.SIZE size in
        StepsOpen m format store.old (ask_get (K.encoding key.now))
        (meaning_of H.Digest.encoding K.encoding V.encoding result) store.new }
    ensures kind { IsSaid is_value (meaning_of H.Digest.encoding K.encoding V.encoding result) }
    ensures page_size { store.new.cache.page_size ≡ store.old.cache.page_size }
    ensures grows { Grows store.old.device.calls store.new.device.calls }
    ensures settings { store.new.device.storage.config ≡ store.old.device.storage.config }
{
    match store.get(key) {
        Ok(found) => Answer::Value(found),
        Err(error) => Answer::Refused(error),
    }
}

// Asks an open store for its root.
fn root<R, F, H, K, V, const N: usize>(
    store: &Store<R, F, H, K, V, N>,
) -> Answer<F, H::Digest, K, V>
where
    R: Rng + Drop,
    F: Graftable + PendingOf<H::Digest>,
    H: HashFunction,
    K: FixedKey,
    V: FixedValue,
    ensures steps { let format = format_of (K.after tt) (V.after tt) K.SIZE V.SIZE in
        let size = store.now.cache.page_size + 12 in
        let m = machine F.merge_rule H.hash_of F.pending_encoding N K.SIZE V.SIZE size in
        StepsOpen m format store.now ask_root (meaning_of H.Digest.encoding K.encoding V.encoding result) store.now }
    ensures kind { IsSaid is_root (meaning_of H.Digest.encoding K.encoding V.encoding result) }
{
    match store.root() {
        Ok(root) => Answer::Root(root),
        Err(error) => Answer::Refused(error),
    }
}

// Asks an open store for the number of its commits.
fn commits<R, F, H, K, V, const N: usize>(
    store: &Store<R, F, H, K, V, N>,
) -> Answer<F, H::Digest, K, V>
where
    R: Rng + Drop,
    F: Graftable + PendingOf<H::Digest>,
    H: HashFunction,
    K: FixedKey,
    V: FixedValue,
    ensures steps { let format = format_of (K.after tt) (V.after tt) K.SIZE V.SIZE in
        let size = store.now.cache.page_size + 12 in
        let m = machine F.merge_rule H.hash_of F.pending_encoding N K.SIZE V.SIZE size in
        StepsOpen m format store.now ask_commits (meaning_of H.Digest.encoding K.encoding V.encoding result) store.now }
    ensures kind { IsSaid is_commits (meaning_of H.Digest.encoding K.encoding V.encoding result) }
{
    match store.commits() {
        Ok(count) => Answer::Commits(count),
        Err(error) => Answer::Refused(error),
    }
}

// Asks an open store for its last floor.
fn floor<R, F, H, K, V, const N: usize>(
    store: &Store<R, F, H, K, V, N>,
) -> Answer<F, H::Digest, K, V>
where
    R: Rng + Drop,
    F: Graftable + PendingOf<H::Digest>,
    H: HashFunction,
    K: FixedKey,
    V: FixedValue,
    ensures steps { let format = format_of (K.after tt) (V.after tt) K.SIZE V.SIZE in
        let size = store.now.cache.page_size + 12 in
        let m = machine F.merge_rule H.hash_of F.pending_encoding N K.SIZE V.SIZE size in
        StepsOpen m format store.now ask_floor (meaning_of H.Digest.encoding K.encoding V.encoding result) store.now }
    ensures kind { IsSaid is_floor (meaning_of H.Digest.encoding K.encoding V.encoding result) }
{
    match store.floor() {
        Ok(location) => Answer::Floor(location),
        Err(error) => Answer::Refused(error),
    }
}

// Asks an open store for the number of its operations.
fn len<R, F, H, K, V, const N: usize>(store: &Store<R, F, H, K, V, N>) -> Answer<F, H::Digest, K, V>
where
    R: Rng + Drop,
    F: Graftable + PendingOf<H::Digest>,
    H: HashFunction,
    K: FixedKey,
    V: FixedValue,
    ensures steps { let format = format_of (K.after tt) (V.after tt) K.SIZE V.SIZE in
        let size = store.now.cache.page_size + 12 in
        let m = machine F.merge_rule H.hash_of F.pending_encoding N K.SIZE V.SIZE size in
        StepsOpen m format store.now ask_len (meaning_of H.Digest.encoding K.encoding V.encoding result) store.now }
    ensures kind { IsSaid is_len (meaning_of H.Digest.encoding K.encoding V.encoding result) }
{
    match store.len() {
        Ok(count) => Answer::Len(count),
        Err(error) => Answer::Refused(error),
    }
}

// Prunes an open store up to a location.
fn prune<R, F, H, K, V, const N: usize>(
    store: &mut Store<R, F, H, K, V, N>,
    location: u64,
) -> Answer<F, H::Digest, K, V>
where
    R: Rng + Drop,
    F: Graftable + PendingOf<H::Digest>,
    H: HashFunction,
    K: FixedKey,
    V: FixedValue,
    ensures steps { let format = format_of (K.after tt) (V.after tt) K.SIZE V.SIZE in
        let size = store.old.cache.page_size + 12 in
        let m = machine F.merge_rule H.hash_of F.pending_encoding N K.SIZE V.SIZE size in
        StepsOpen m format store.old (ask_prune location) (meaning_of H.Digest.encoding K.encoding V.encoding
        result) store.new }
    ensures kind { IsSaid is_pruned (meaning_of H.Digest.encoding K.encoding V.encoding result) }
    ensures page_size { store.new.cache.page_size ≡ store.old.cache.page_size }
    ensures grows { Grows store.old.device.calls store.new.device.calls }
    ensures settings { store.new.device.storage.config ≡ store.old.device.storage.config }
    ensures left { store.new.device.left ≡ store.old.device.left }
{
    match store.prune(location) {
        Ok(chunks) => Answer::Pruned(chunks),
        Err(error) => Answer::Refused(error),
    }
}

// Asks an open store for the value of a key, or that it is absent, and its proof.
fn prove<R, F, H, K, V, const N: usize>(
    store: &mut Store<R, F, H, K, V, N>,
    key: &K,
) -> Answer<F, H::Digest, K, V>
where
    R: Rng + Drop,
    F: Graftable + PendingOf<H::Digest>,
    H: HashFunction,
    K: FixedKey,
    V: FixedValue,
    ensures steps { let format = format_of (K.after tt) (V.after tt) K.SIZE V.SIZE in
        let size = store.old.cache.page_size + 12 in
        let m = machine F.merge_rule H.hash_of F.pending_encoding N K.SIZE V.SIZE size in
        StepsOpen m format store.old (ask_proof (of_key (K.encoding key.now)))
        (meaning_of H.Digest.encoding K.encoding V.encoding result) store.new }
    ensures kind { IsSaid is_proof (meaning_of H.Digest.encoding K.encoding V.encoding result) }
    ensures page_size { store.new.cache.page_size ≡ store.old.cache.page_size }
    ensures grows { Grows store.old.device.calls store.new.device.calls }
    ensures settings { store.new.device.storage.config ≡ store.old.device.storage.config }
{
    match store.prove_key(key) {
        Ok(found) => Answer::Proof(found),
        Err(error) => Answer::Refused(error),
    }
}

// Asks an open store for the operation at a location and the proof that it is active.
fn prove_operation<R, F, H, K, V, const N: usize>(
    store: &mut Store<R, F, H, K, V, N>,
    location: u64,
) -> Answer<F, H::Digest, K, V>
where
    R: Rng + Drop,
    F: Graftable + PendingOf<H::Digest>,
    H: HashFunction,
    K: FixedKey,
    V: FixedValue,
    ensures steps { let format = format_of (K.after tt) (V.after tt) K.SIZE V.SIZE in
        let size = store.old.cache.page_size + 12 in
        let m = machine F.merge_rule H.hash_of F.pending_encoding N K.SIZE V.SIZE size in
        StepsOpen m format store.old (ask_proof (of_operation location))
        (meaning_of H.Digest.encoding K.encoding V.encoding result) store.new }
    ensures kind { IsSaid is_proof (meaning_of H.Digest.encoding K.encoding V.encoding result) }
    ensures page_size { store.new.cache.page_size ≡ store.old.cache.page_size }
    ensures grows { Grows store.old.device.calls store.new.device.calls }
    ensures settings { store.new.device.storage.config ≡ store.old.device.storage.config }
{
    match store.prove_operation(location) {
        Ok(proved) => Answer::Operation(proved),
        Err(error) => Answer::Refused(error),
    }
}

// Asks an open store for the operations from a location up to another, their activity bits and the proof of both.
fn prove_range<R, F, H, K, V, const N: usize>(
    store: &mut Store<R, F, H, K, V, N>,
    start: u64,
    stop: u64,
) -> Answer<F, H::Digest, K, V>
where
    R: Rng + Drop,
    F: Graftable + PendingOf<H::Digest>,
    H: HashFunction,
    K: FixedKey,
    V: FixedValue,
    ensures steps { let format = format_of (K.after tt) (V.after tt) K.SIZE V.SIZE in
        let size = store.old.cache.page_size + 12 in
        let m = machine F.merge_rule H.hash_of F.pending_encoding N K.SIZE V.SIZE size in
        StepsOpen m format store.old (ask_proof (of_range start stop))
        (meaning_of H.Digest.encoding K.encoding V.encoding result) store.new }
    ensures kind { IsSaid is_proof (meaning_of H.Digest.encoding K.encoding V.encoding result) }
    ensures page_size { store.new.cache.page_size ≡ store.old.cache.page_size }
    ensures grows { Grows store.old.device.calls store.new.device.calls }
    ensures settings { store.new.device.storage.config ≡ store.old.device.storage.config }
{
    match store.prove_range(start, stop) {
        Ok(proved) => Answer::Range(proved),
        Err(error) => Answer::Refused(error),
    }
}

// Asks an open store for the operations from a location up to another and the proof that the log has them.
fn prove_log<R, F, H, K, V, const N: usize>(
    store: &mut Store<R, F, H, K, V, N>,
    start: u64,
    stop: u64,
) -> Answer<F, H::Digest, K, V>
where
    R: Rng + Drop,
    F: Graftable + PendingOf<H::Digest>,
    H: HashFunction,
    K: FixedKey,
    V: FixedValue,
    ensures steps { let format = format_of (K.after tt) (V.after tt) K.SIZE V.SIZE in
        let size = store.old.cache.page_size + 12 in
        let m = machine F.merge_rule H.hash_of F.pending_encoding N K.SIZE V.SIZE size in
        StepsOpen m format store.old (ask_proof (of_slice start stop))
        (meaning_of H.Digest.encoding K.encoding V.encoding result) store.new }
    ensures kind { IsSaid is_proof (meaning_of H.Digest.encoding K.encoding V.encoding result) }
    ensures page_size { store.new.cache.page_size ≡ store.old.cache.page_size }
    ensures grows { Grows store.old.device.calls store.new.device.calls }
    ensures settings { store.new.device.storage.config ≡ store.old.device.storage.config }
{
    match store.prove_log(start, stop) {
        Ok(proved) => Answer::Slice(proved),
        Err(error) => Answer::Refused(error),
    }
}

// Puts settings in place of the device of an open store.
fn configure<R, F, H, K, V, const N: usize>(
    store: &mut Store<R, F, H, K, V, N>,
    config: Config,
) -> Answer<F, H::Digest, K, V>
where
    R: Rng + Drop,
    F: Graftable + PendingOf<H::Digest>,
    H: HashFunction,
    K: FixedKey,
    V: FixedValue,
    ensures steps { let format = format_of (K.after tt) (V.after tt) K.SIZE V.SIZE in
        let size = store.old.cache.page_size + 12 in
        let m = machine F.merge_rule H.hash_of F.pending_encoding N K.SIZE V.SIZE size in
        StepsOpen m format store.old ask_config is_set store.new }
    ensures set { result ≡ Answer.Set }
    ensures page_size { store.new.cache.page_size ≡ store.old.cache.page_size }
    ensures grows { Grows store.old.device.calls store.new.device.calls }
    ensures settings { store.new.device.storage.config ≡ config }
    ensures left { store.new.device.left ≡ store.old.device.left }
{
    store.set_config(config);
    Answer::Set
}

// Has the power of the device of an open store cut after so many calls.
fn cut<R, F, H, K, V, const N: usize>(
    store: &mut Store<R, F, H, K, V, N>,
    calls: u64,
) -> Answer<F, H::Digest, K, V>
where
    R: Rng + Drop,
    F: Graftable + PendingOf<H::Digest>,
    H: HashFunction,
    K: FixedKey,
    V: FixedValue,
    ensures steps { let format = format_of (K.after tt) (V.after tt) K.SIZE V.SIZE in
        let size = store.old.cache.page_size + 12 in
        let m = machine F.merge_rule H.hash_of F.pending_encoding N K.SIZE V.SIZE size in
        StepsOpen m format store.old (ask_cut calls) is_set store.new }
    ensures set { result ≡ Answer.Set }
    ensures page_size { store.new.cache.page_size ≡ store.old.cache.page_size }
    ensures grows { Grows store.old.device.calls store.new.device.calls }
    ensures settings { store.new.device.storage.config ≡ store.old.device.storage.config }
    ensures left { store.new.device.left ≡ after_asking calls store.old.device.left }
{
    store.cut_after(calls);
    Answer::Set
}

// What an open store answers to a step. One that would close it leaves it open.
pub(crate) fn step_open<R, F, H, K, V, const N: usize>(
    store: &mut Store<R, F, H, K, V, N>,
    step: Step<K, V>,
) -> Answer<F, H::Digest, K, V>
where
    R: Rng + Drop,
    F: Graftable + PendingOf<H::Digest>,
    H: HashFunction,
    K: FixedKey,
    V: FixedValue,
    ensures steps { let format = format_of (K.after tt) (V.after tt) K.SIZE V.SIZE in
        let size = store.old.cache.page_size + 12 in
        let m = machine F.merge_rule H.hash_of F.pending_encoding N K.SIZE V.SIZE size in
        let request = request_of K.encoding V.encoding step in
        IsLeftOpen request → StepsOpen m format store.old request
        (meaning_of H.Digest.encoding K.encoding V.encoding result)
        store.new }
    ensures kind { let request = request_of K.encoding V.encoding step in
        IsLeftOpen request → IsAnswerTo true request (meaning_of H.Digest.encoding K.encoding V.encoding result) }
    ensures page_size { store.new.cache.page_size ≡ store.old.cache.page_size }
    ensures grows { Grows store.old.device.calls store.new.device.calls }
    ensures settings { Some store.new.device.storage.config ≡ config_after step (Some store.old.device.storage.config) }
    ensures left { IsLeftBy step store.old.device.left store.new.device.left }
{
    match step {
        Step::Open(_) | Step::Crash | Step::Close => Answer::StillOpen,
        Step::Commit(batch, metadata) => commit(store, batch, metadata),
        Step::Get(key) => get(store, &key),
        Step::Root => root(store),
        Step::Commits => commits(store),
        Step::Floor => floor(store),
        Step::Len => len(store),
        Step::Prune(location) => prune(store, location),
        Step::ProveKey(key) => prove(store, &key),
        Step::ProveOperation(location) => prove_operation(store, location),
        Step::ProveRange(start, stop) => prove_range(store, start, stop),
        Step::ProveLog(start, stop) => prove_log(store, start, stop),
        Step::Config(config) => configure(store, config),
        Step::CutAfter(calls) => cut(store, calls),
    }
}
