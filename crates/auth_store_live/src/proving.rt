//! What a ledger answers by reads of the log of a live store.

ghost use Rattle.std.specs.Prelude.{◌≡◌, ◌++◌, Ok, option_map, IfOk, IfErr, OnOk, OnErr};
ghost use Rattle.auth_store_client.specs.Claims.{terms};
ghost use Rattle.auth_store_parts.specs.Batch as words;
ghost use Rattle.auth_store_parts.specs.History.{history_of, log_of};
ghost use Rattle.auth_store_proving.specs.Proving.{IsAccepted, IsAcceptedOperation, IsAcceptedRange, IsAcceptedSlice};
ghost use Rattle.auth_store_proving.specs.Proving.{answer_of_operation, answer_of_range, answer_of_slice};
ghost use Rattle.auth_store_proving.specs.Proving.{honest_answer};
ghost use Rattle.auth_store_proving.specs.ProvingCode.{key_answer_of, operation_answer_of, range_answer_of};
ghost use Rattle.auth_store_proving.specs.ProvingCode.{slice_answer_of};
ghost use Rattle.auth_store_ledger.specs.Store.{IsLedgerOf, commit_after, root_of_history, setting_of_width};
ghost use Rattle.auth_store_log.specs.Records.{format_of, log_bytes};
ghost use Rattle.auth_store_machine.specs.Machine.{PassesLimit, refusal_of};
ghost use Rattle.auth_store_machine.specs.Reads.{IsProofRefusal, IsReadable, LeavesRead, log_in, over};
ghost use Rattle.auth_store_machine.specs.Stores.{IsBatchRefusal, IsReadRefusal};

use crate::reader::LogReader;
use auth_store_ledger::{Batch, Ledger};
use auth_store_machine::StoreError;
use auth_store_proving::{
    KeyProof, ProvedOperation, ProvedRange, ProvedSlice, prove_key, prove_log, prove_operation,
    prove_range,
};
use merkle_forest::{Graftable, HashFunction, PendingOf};
use paged_blob::Blob;
use state_ops::{FixedKey, FixedValue};

// Tells the ledger the batch with its commit, and answers the bytes that its log grows by. It is refused where the log
// would pass 2^62 operations, out of memory, or where a read of the log is; the ledger then stays as it was.
pub(crate) fn taken_batch<'a, 'b, 'c, B, F, H, K, V, const N: usize>(
    ledger: &mut Ledger<F, H, K, V, N>,
    log: &mut LogReader<'a, 'b, 'c, F, K, V, B>,
    batch: Batch<K, V>,
    metadata: Option<V>,
) -> Result<Vec<u8>, StoreError>
where
    B: Blob + 'a,
    F: Graftable,
    H: HashFunction,
    K: FixedKey,
    V: FixedValue,
    requires may { IsReadable (format_of (K.after tt) (V.after tt) K.SIZE V.SIZE)
        (over (B.calls log.old.blob.now) (B.failures log.old.blob.now) (B.left log.old.blob.now) log.old.cache.now)
        log.old.writer.now }
    requires of { let format = format_of (K.after tt) (V.after tt) K.SIZE V.SIZE in
        IsLedgerOf (setting_of_width F.merge_rule H.hash_of N) format
        (log_in format (B.calls log.old.blob.now) log.old.writer.now) ledger.old }
    ensures ok { let format = format_of (K.after tt) (V.after tt) K.SIZE V.SIZE in
        let said = words.meanings K.encoding V.encoding batch.words.items in
        let before = log_in format (B.calls log.old.blob.now) log.old.writer.now in
        let next = commit_after said (option_map V.encoding metadata) (history_of before) in
        OnOk result (IsLedgerOf (setting_of_width F.merge_rule H.hash_of N) format (log_of next) ledger.new) }
    ensures bytes { let format = format_of (K.after tt) (V.after tt) K.SIZE V.SIZE in
        let said = words.meanings K.encoding V.encoding batch.words.items in
        let before = log_in format (B.calls log.old.blob.now) log.old.writer.now in
        let next = commit_after said (option_map V.encoding metadata) (history_of before) in
        IfOk result (λ bytes. log_bytes K.SIZE V.SIZE (log_of next)
        ≡ log_bytes K.SIZE V.SIZE before ++ bytes.items) }
    ensures pruned { ledger.new.kept.bits.pruned ≡ ledger.old.kept.bits.pruned }
    ensures unchanged { OnErr result (ledger.new ≡ ledger.old) }
    ensures names { (log.new.blob.ghost_name ≡ log.old.blob.ghost_name)
        × (log.new.cache.ghost_name ≡ log.old.cache.ghost_name) }
    ensures readable { IsReadable (format_of (K.after tt) (V.after tt) K.SIZE V.SIZE)
        (over (B.calls log.new.blob.now) (B.failures log.new.blob.now) (B.left log.new.blob.now) log.new.cache.now)
        log.old.writer.now }
    ensures reads { LeavesRead (refusal_of result)
        (over (B.calls log.old.blob.now) (B.failures log.old.blob.now) (B.left log.old.blob.now) log.old.cache.now)
        (over (B.calls log.new.blob.now) (B.failures log.new.blob.now) (B.left log.new.blob.now) log.new.cache.now) }
    ensures refused { let format = format_of (K.after tt) (V.after tt) K.SIZE V.SIZE in
        let said = words.meanings K.encoding V.encoding batch.words.items in
        let before = log_in format (B.calls log.old.blob.now) log.old.writer.now in
        let next = commit_after said (option_map V.encoding metadata) (history_of before) in
        IfErr result (IsBatchRefusal (B.failures log.old.blob.now) (B.failures log.new.blob.now)
        (PassesLimit next)) }
{
    Ok(ledger.commit(log, batch, metadata)?)
}

// The value of the key, or that it is absent, with the honest bytes that prove it. It is refused out of memory, or
// where a read of the log is.
pub(crate) fn key_proof<'a, 'b, 'c, B, F, H, K, V, const N: usize>(
    ledger: &Ledger<F, H, K, V, N>,
    log: &mut LogReader<'a, 'b, 'c, F, K, V, B>,
    key: &K,
) -> Result<KeyProof<V>, StoreError>
where
    B: Blob + 'a,
    F: Graftable + PendingOf<H::Digest>,
    H: HashFunction,
    K: FixedKey,
    V: FixedValue,
    requires may { IsReadable (format_of (K.after tt) (V.after tt) K.SIZE V.SIZE)
        (over (B.calls log.old.blob.now) (B.failures log.old.blob.now) (B.left log.old.blob.now) log.old.cache.now)
        log.old.writer.now }
    requires of { let format = format_of (K.after tt) (V.after tt) K.SIZE V.SIZE in
        IsLedgerOf (setting_of_width F.merge_rule H.hash_of N) format
        (log_in format (B.calls log.old.blob.now) log.old.writer.now) ledger.now }
    ensures ok { let format = format_of (K.after tt) (V.after tt) K.SIZE V.SIZE in
        let setting = setting_of_width F.merge_rule H.hash_of N in
        let history = history_of (log_in format (B.calls log.old.blob.now) log.old.writer.now) in
        IfOk result (λ found. key_answer_of V.encoding found
        ≡ honest_answer F.pending_encoding setting K.SIZE V.SIZE history (K.encoding key.now)) }
    ensures shown { let format = format_of (K.after tt) (V.after tt) K.SIZE V.SIZE in
        let history = history_of (log_in format (B.calls log.old.blob.now) log.old.writer.now) in
        let terms = terms F.merge_rule H.hash_of N H.Digest.SIZE F.is_pending F.pending_encoding
        (K.after tt) (V.after tt) K.SIZE V.SIZE in
        let root = root_of_history (setting_of_width F.merge_rule H.hash_of N) K.SIZE V.SIZE history in
        IfOk result (λ proved. IsAccepted terms root (K.encoding key.now)
        (key_answer_of V.encoding proved)) }
    ensures names { (log.new.blob.ghost_name ≡ log.old.blob.ghost_name)
        × (log.new.cache.ghost_name ≡ log.old.cache.ghost_name) }
    ensures readable { IsReadable (format_of (K.after tt) (V.after tt) K.SIZE V.SIZE)
        (over (B.calls log.new.blob.now) (B.failures log.new.blob.now) (B.left log.new.blob.now) log.new.cache.now)
        log.old.writer.now }
    ensures reads { LeavesRead (refusal_of result)
        (over (B.calls log.old.blob.now) (B.failures log.old.blob.now) (B.left log.old.blob.now) log.old.cache.now)
        (over (B.calls log.new.blob.now) (B.failures log.new.blob.now) (B.left log.new.blob.now) log.new.cache.now) }
    ensures refused { IfErr result (IsReadRefusal (B.failures log.old.blob.now) (B.failures log.new.blob.now)) }
{
    Ok(prove_key(ledger, log, key)?)
}

// The operation at a location, with the honest bytes that prove it active. It is refused where there is no proof, out
// of memory, or where a read of the log is.
pub(crate) fn operation_proof<'a, 'b, 'c, B, F, H, K, V, const N: usize>(
    ledger: &Ledger<F, H, K, V, N>,
    log: &mut LogReader<'a, 'b, 'c, F, K, V, B>,
    location: u64,
) -> Result<ProvedOperation<F, K, V>, StoreError>
where
    B: Blob + 'a,
    F: Graftable + PendingOf<H::Digest>,
    H: HashFunction,
    K: FixedKey,
    V: FixedValue,
    requires may { IsReadable (format_of (K.after tt) (V.after tt) K.SIZE V.SIZE)
        (over (B.calls log.old.blob.now) (B.failures log.old.blob.now) (B.left log.old.blob.now) log.old.cache.now)
        log.old.writer.now }
    requires of { let format = format_of (K.after tt) (V.after tt) K.SIZE V.SIZE in
        IsLedgerOf (setting_of_width F.merge_rule H.hash_of N) format
        (log_in format (B.calls log.old.blob.now) log.old.writer.now) ledger.now }
    ensures ok { let format = format_of (K.after tt) (V.after tt) K.SIZE V.SIZE in
        let setting = setting_of_width F.merge_rule H.hash_of N in
        let history = history_of (log_in format (B.calls log.old.blob.now) log.old.writer.now) in
        IfOk result (λ proved. answer_of_operation F.pending_encoding setting K.SIZE V.SIZE history
        ledger.now.kept.bits.pruned location ≡ Ok (operation_answer_of K.encoding V.encoding proved)) }
    ensures shown { let format = format_of (K.after tt) (V.after tt) K.SIZE V.SIZE in
        let history = history_of (log_in format (B.calls log.old.blob.now) log.old.writer.now) in
        let terms = terms F.merge_rule H.hash_of N H.Digest.SIZE F.is_pending F.pending_encoding
        (K.after tt) (V.after tt) K.SIZE V.SIZE in
        let root = root_of_history (setting_of_width F.merge_rule H.hash_of N) K.SIZE V.SIZE history in
        IfOk result (λ proved. IsAcceptedOperation terms root location
        (operation_answer_of K.encoding V.encoding proved)) }
    ensures names { (log.new.blob.ghost_name ≡ log.old.blob.ghost_name)
        × (log.new.cache.ghost_name ≡ log.old.cache.ghost_name) }
    ensures readable { IsReadable (format_of (K.after tt) (V.after tt) K.SIZE V.SIZE)
        (over (B.calls log.new.blob.now) (B.failures log.new.blob.now) (B.left log.new.blob.now) log.new.cache.now)
        log.old.writer.now }
    ensures reads { LeavesRead (refusal_of result)
        (over (B.calls log.old.blob.now) (B.failures log.old.blob.now) (B.left log.old.blob.now) log.old.cache.now)
        (over (B.calls log.new.blob.now) (B.failures log.new.blob.now) (B.left log.new.blob.now) log.new.cache.now) }
    ensures refused { let format = format_of (K.after tt) (V.after tt) K.SIZE V.SIZE in
        let setting = setting_of_width F.merge_rule H.hash_of N in
        let history = history_of (log_in format (B.calls log.old.blob.now) log.old.writer.now) in
        IfErr result (IsProofRefusal (B.failures log.old.blob.now) (B.failures log.new.blob.now)
        (answer_of_operation F.pending_encoding setting K.SIZE V.SIZE history ledger.now.kept.bits.pruned
        location)) }
{
    Ok(prove_operation(ledger, log, location)?)
}

// The operations from `start` up to `stop` and their activity bits, with the honest bytes that prove both. It is
// refused as an operation is.
pub(crate) fn range_proof<'a, 'b, 'c, B, F, H, K, V, const N: usize>(
    ledger: &Ledger<F, H, K, V, N>,
    log: &mut LogReader<'a, 'b, 'c, F, K, V, B>,
    start: u64,
    stop: u64,
) -> Result<ProvedRange<F, K, V>, StoreError>
where
    B: Blob + 'a,
    F: Graftable + PendingOf<H::Digest>,
    H: HashFunction,
    K: FixedKey,
    V: FixedValue,
    requires may { IsReadable (format_of (K.after tt) (V.after tt) K.SIZE V.SIZE)
        (over (B.calls log.old.blob.now) (B.failures log.old.blob.now) (B.left log.old.blob.now) log.old.cache.now)
        log.old.writer.now }
    requires of { let format = format_of (K.after tt) (V.after tt) K.SIZE V.SIZE in
        IsLedgerOf (setting_of_width F.merge_rule H.hash_of N) format
        (log_in format (B.calls log.old.blob.now) log.old.writer.now) ledger.now }
    ensures ok { let format = format_of (K.after tt) (V.after tt) K.SIZE V.SIZE in
        let setting = setting_of_width F.merge_rule H.hash_of N in
        let history = history_of (log_in format (B.calls log.old.blob.now) log.old.writer.now) in
        IfOk result (λ proved. answer_of_range F.pending_encoding setting K.SIZE V.SIZE history
        ledger.now.kept.bits.pruned start stop ≡ Ok (range_answer_of K.encoding V.encoding proved)) }
    ensures shown { let format = format_of (K.after tt) (V.after tt) K.SIZE V.SIZE in
        let history = history_of (log_in format (B.calls log.old.blob.now) log.old.writer.now) in
        let terms = terms F.merge_rule H.hash_of N H.Digest.SIZE F.is_pending F.pending_encoding
        (K.after tt) (V.after tt) K.SIZE V.SIZE in
        let root = root_of_history (setting_of_width F.merge_rule H.hash_of N) K.SIZE V.SIZE history in
        IfOk result (λ proved. IsAcceptedRange terms root start
        (range_answer_of K.encoding V.encoding proved)) }
    ensures names { (log.new.blob.ghost_name ≡ log.old.blob.ghost_name)
        × (log.new.cache.ghost_name ≡ log.old.cache.ghost_name) }
    ensures readable { IsReadable (format_of (K.after tt) (V.after tt) K.SIZE V.SIZE)
        (over (B.calls log.new.blob.now) (B.failures log.new.blob.now) (B.left log.new.blob.now) log.new.cache.now)
        log.old.writer.now }
    ensures reads { LeavesRead (refusal_of result)
        (over (B.calls log.old.blob.now) (B.failures log.old.blob.now) (B.left log.old.blob.now) log.old.cache.now)
        (over (B.calls log.new.blob.now) (B.failures log.new.blob.now) (B.left log.new.blob.now) log.new.cache.now) }
    ensures refused { let format = format_of (K.after tt) (V.after tt) K.SIZE V.SIZE in
        let setting = setting_of_width F.merge_rule H.hash_of N in
        let history = history_of (log_in format (B.calls log.old.blob.now) log.old.writer.now) in
        IfErr result (IsProofRefusal (B.failures log.old.blob.now) (B.failures log.new.blob.now)
        (answer_of_range F.pending_encoding setting K.SIZE V.SIZE history ledger.now.kept.bits.pruned
        start stop)) }
{
    Ok(prove_range(ledger, log, start, stop)?)
}

// The operations from `start` up to `stop`, with the honest bytes that prove that the log has them. It is refused as an
// operation is.
pub(crate) fn slice_proof<'a, 'b, 'c, B, F, H, K, V, const N: usize>(
    ledger: &Ledger<F, H, K, V, N>,
    log: &mut LogReader<'a, 'b, 'c, F, K, V, B>,
    start: u64,
    stop: u64,
) -> Result<ProvedSlice<F, K, V>, StoreError>
where
    B: Blob + 'a,
    F: Graftable + PendingOf<H::Digest>,
    H: HashFunction,
    K: FixedKey,
    V: FixedValue,
    requires may { IsReadable (format_of (K.after tt) (V.after tt) K.SIZE V.SIZE)
        (over (B.calls log.old.blob.now) (B.failures log.old.blob.now) (B.left log.old.blob.now) log.old.cache.now)
        log.old.writer.now }
    requires of { let format = format_of (K.after tt) (V.after tt) K.SIZE V.SIZE in
        IsLedgerOf (setting_of_width F.merge_rule H.hash_of N) format
        (log_in format (B.calls log.old.blob.now) log.old.writer.now) ledger.now }
    ensures ok { let format = format_of (K.after tt) (V.after tt) K.SIZE V.SIZE in
        let setting = setting_of_width F.merge_rule H.hash_of N in
        let history = history_of (log_in format (B.calls log.old.blob.now) log.old.writer.now) in
        IfOk result (λ proved. answer_of_slice F.pending_encoding setting K.SIZE V.SIZE history
        ledger.now.kept.bits.pruned start stop ≡ Ok (slice_answer_of K.encoding V.encoding proved)) }
    ensures shown { let format = format_of (K.after tt) (V.after tt) K.SIZE V.SIZE in
        let history = history_of (log_in format (B.calls log.old.blob.now) log.old.writer.now) in
        let terms = terms F.merge_rule H.hash_of N H.Digest.SIZE F.is_pending F.pending_encoding
        (K.after tt) (V.after tt) K.SIZE V.SIZE in
        let root = root_of_history (setting_of_width F.merge_rule H.hash_of N) K.SIZE V.SIZE history in
        IfOk result (λ proved. IsAcceptedSlice terms root start
        (slice_answer_of K.encoding V.encoding proved)) }
    ensures names { (log.new.blob.ghost_name ≡ log.old.blob.ghost_name)
        × (log.new.cache.ghost_name ≡ log.old.cache.ghost_name) }
    ensures readable { IsReadable (format_of (K.after tt) (V.after tt) K.SIZE V.SIZE)
        (over (B.calls log.new.blob.now) (B.failures log.new.blob.now) (B.left log.new.blob.now) log.new.cache.now)
        log.old.writer.now }
    ensures reads { LeavesRead (refusal_of result)
        (over (B.calls log.old.blob.now) (B.failures log.old.blob.now) (B.left log.old.blob.now) log.old.cache.now)
        (over (B.calls log.new.blob.now) (B.failures log.new.blob.now) (B.left log.new.blob.now) log.new.cache.now) }
    ensures refused { let format = format_of (K.after tt) (V.after tt) K.SIZE V.SIZE in
        let setting = setting_of_width F.merge_rule H.hash_of N in
        let history = history_of (log_in format (B.calls log.old.blob.now) log.old.writer.now) in
        IfErr result (IsProofRefusal (B.failures log.old.blob.now) (B.failures log.new.blob.now)
        (answer_of_slice F.pending_encoding setting K.SIZE V.SIZE history ledger.now.kept.bits.pruned
        start stop)) }
{
    Ok(prove_log(ledger, log, start, stop)?)
}
