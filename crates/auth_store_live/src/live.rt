//! What an open store has while it has not failed, over a blob of any make.
//!
//! A request that reads lends the ledger a reader of the log; a batch is told by it before anything is appended:
//!
//!     batch ─▶ ledger ◀─ reads ─ log on the blob        refused: live, as it was
//!                │ bytes
//!                ▼
//!     writer: append, sync                              refused: failed
//!                │
//!                ▼
//!     live with the batch

ghost use Rattle.std.specs.Prelude.{◌≡◌, ◌⊎◌, ◌+◌, ◌++◌, ◌≤◌, ◌<◌, ◌^◌, [], max, length, true, IsFalse, IfOk};
ghost use Rattle.std.specs.Prelude.{IfErr, OnOk, OnErr, IfSome};
ghost use Rattle.std.specs.Prelude.{List, option_map, Some, None, Ok, Err, MatchResult, IsSomeAnd};
ghost use Rattle.fault_storage_parts.specs.Crc32.{crc32};
ghost use Rattle.paged_blob_parts.specs.Answers.{IsPowerOff};
ghost use Rattle.paged_blob_parts.specs.CachedContent.{HoldsPagesOf};
ghost use Rattle.paged_blob_parts.specs.Caches.{Cache};
ghost use Rattle.paged_blob_parts.specs.Calls.{Call, content, file_of};
ghost use Rattle.paged_blob_parts.specs.Moments.{Grows, Through};
ghost use Rattle.paged_blob_parts.specs.Writers.{IsWriter, Keeps, written};
ghost use Rattle.paged_blob.specs.Completed.{completed_syncs};
ghost use Rattle.auth_store_client.specs.Claims.{terms};
ghost use Rattle.auth_store_parts.specs.Batch as words;
ghost use Rattle.auth_store_parts.specs.History.{history_of, latest_map, log_of};
ghost use Rattle.auth_store_parts.specs.Map.{value_at};
ghost use Rattle.auth_store_proving.specs.Proving.{IsAccepted, IsAcceptedOperation, IsAcceptedRange, IsAcceptedSlice};
ghost use Rattle.auth_store_proving.specs.Proving.{answer_of_operation, answer_of_range, answer_of_slice};
ghost use Rattle.auth_store_proving.specs.Proving.{honest_answer};
ghost use Rattle.auth_store_proving.specs.ProvingCode.{key_answer_of, operation_answer_of, range_answer_of};
ghost use Rattle.auth_store_proving.specs.ProvingCode.{slice_answer_of};
ghost use Rattle.auth_store_ledger.specs.Store.{IsChunkWidth, IsLedgerOf, IsPrunedUpTo, commit_after, floor_of};
ghost use Rattle.auth_store_ledger.specs.Store.{root_of_history, setting_of_width};
ghost use Rattle.auth_store_log.specs.Records.{format_of, begun, history_bytes, recovered_log};
ghost use Rattle.auth_store_log.specs.Shown.{IsKeptThrough};
ghost use Rattle.state_ops.specs.Operation.{Operation};
ghost use Rattle.auth_store_machine.specs.Commits.{CommitsOver, IsCutShort};
ghost use Rattle.auth_store_machine.specs.Machine.{refusal_of, PassesLimit};
ghost use Rattle.auth_store_machine.specs.Reads.{IsLiveOn, IsProofRefusal, IsReadable, LeavesRead, live_on};
ghost use Rattle.auth_store_machine.specs.Reads.{log_in, over, seen_on};
ghost use Rattle.auth_store_machine.specs.Stores.{IsCache, IsLive, IsNoHistory, IsReadRefusal, IsOpenRefusal};
ghost use Rattle.auth_store_machine.specs.Stores.{IsAppendRefusal, IsBatchRefusal, Raises, EndsDisk, EndsOpening};
ghost use Rattle.auth_store_machine.specs.Stores.{OpeningsShow};

use crate::proving::{key_proof, operation_proof, range_proof, slice_proof, taken_batch};
use crate::reader::LogReader;
use auth_store_ledger::{Batch, Ledger, LoggedValues};
use auth_store_log::laws::a_kept_log_is_shown;
use auth_store_log::{append_batch, operations_of, recover};
use auth_store_machine::StoreError;
use auth_store_proving::{KeyProof, ProvedOperation, ProvedRange, ProvedSlice};
use fault_storage::Crc32;
use merkle_forest::{Graftable, HashFunction, PendingOf};
use paged_blob::laws::each_image_keeps_what_is_durable;
use paged_blob::{Blob, CacheRef, Writer};
use state_ops::{FixedKey, FixedValue};
use std::alloc::Global;
use std::marker::{Model, PhantomData};

/// What is kept of the history, and the writer of its log.
#[derive(Drop)]
pub struct Live<F: Graftable, H: HashFunction, K: FixedKey, V: FixedValue, const N: usize> {
    /// What is kept of the history.
    pub ledger: Ledger<F, H, K, V, N>,
    /// The writer of its log.
    pub writer: Writer<Crc32>,
}

impl<F: Graftable, H: HashFunction, K: FixedKey, V: FixedValue, const N: usize> Model
    for Live<F, H, K, V, N> {
    ghost use Rattle.auth_store_machine.specs.Reads.{LiveParts};

    ghost Value = { LiveParts };

    ghost view = { λ l. record { ledger = l.ledger; writer = l.writer } };
}

impl<F: Graftable, H: HashFunction, K: FixedKey, V: FixedValue, const N: usize> Live<
    F,
    H,
    K,
    V,
    N,
> {
    /// The law that openings show the history of a live store, while nothing else is called of its blob (own).
    pub fn is_shown(&self)
        ensures { let format = format_of (K.after tt) (V.after tt) K.SIZE V.SIZE in (calls : List Call) (cache : Cache)
            → IsLive format calls cache (live_on format calls self.now)
            → OpeningsShow format (cache.page_size + 12) (live_on format calls self.now).history None calls }
    {
        each_image_keeps_what_is_durable();
        a_kept_log_is_shown();
        let _ = &self.ledger;
    }
}

/// Recovers the log of a blob that was opened, of so many bytes, and keeps what there is to keep of its history. S5: it
/// is the log of no history. S1 to S4 where a call of the blob, the cache or memory is wanting. After a refusal
/// openings show what they did.
pub fn recover_live<B, F, H, K, V, const N: usize>(
    alloc: Global,
    blob: &mut B,
    cache: &mut CacheRef,
    blob_size: u64,
    capacity: usize,
) -> Result<Live<F, H, K, V, N>, StoreError>
where
    B: Blob,
    F: Graftable,
    H: HashFunction,
    K: FixedKey,
    V: FixedValue,
    requires width { IsChunkWidth N }
    requires cache { IsCache cache.old }
    requires sound { IsFalse (file_of (B.calls blob.old)).failed }
    requires settled { (file_of (B.calls blob.old)).changes ≡ [] }
    requires known { blob_size ≡ length (content (B.calls blob.old)) }
    requires open { (B.failures blob.old).is_open ≡ true }
    ensures live { let format = format_of (K.after tt) (V.after tt) K.SIZE V.SIZE in
        IfOk result (IsLiveOn (setting_of_width F.merge_rule H.hash_of N) format (B.calls blob.new) cache.new) }
    ensures history { let format = format_of (K.after tt) (V.after tt) K.SIZE V.SIZE in
        let size = cache.old.page_size + 12 in
        IfOk result (λ live. history_bytes format (live_on format (B.calls blob.new) live).history
        ≡ begun format (recovered_log format crc32 size (content (B.calls blob.old)))) }
    ensures whole { IfOk result (λ live. live.ledger.kept.bits.pruned ≡ 0) }
    ensures capacity { IfOk result (λ live. live.writer.tip.capacity ≡ max capacity (cache.old.page_size + 12)) }
    ensures any_moment { let format = format_of (K.after tt) (V.after tt) K.SIZE V.SIZE in
        let size = cache.old.page_size + 12 in
        Through (IsKeptThrough format crc32 size (recovered_log format crc32 size (content (B.calls blob.old))))
        (B.calls blob.old) (B.calls blob.new) }
    ensures cache { IsCache cache.new }
    ensures page_size { cache.new.page_size ≡ cache.old.page_size }
    ensures open { (B.failures blob.new).is_open ≡ true }
    ensures settings { (B.failures blob.new).settings ≡ (B.failures blob.old).settings }
    ensures raised { Raises (refusal_of result) (B.failures blob.old) (B.failures blob.new) }
    ensures left { B.left blob.new ≤ B.left blob.old }
    ensures names { (cache.old.next_id ≤ cache.new.next_id) × (cache.new.next_id ≤ cache.old.next_id + 3) }
    ensures refused { let format = format_of (K.after tt) (V.after tt) K.SIZE V.SIZE in
        let size = cache.old.page_size + 12 in
        let before = content (B.calls blob.old) in
        IfErr result (IsOpenRefusal (B.failures blob.old) (B.failures blob.new)
        (EndsOpening size (K.SIZE, V.SIZE) cache.old.next_id (length before))
        (IsNoHistory format (recovered_log format crc32 size before))) }
{
    let (writer, bytes) = recover::<F, K, V, B, Crc32>(alloc, blob, cache, blob_size, capacity)?;
    let log = operations_of::<F, K, V>(alloc, &bytes)?;
    let ledger = Ledger::of(alloc, log)?;
    Ok(Live { ledger, writer })
}

// Makes bytes durable behind those that are written, and answers the writer.
fn append_log<B: Blob>(
    writer: Writer<Crc32>,
    blob: &mut B,
    cache: &mut CacheRef,
    bytes: &[u8],
) -> Result<Writer<Crc32>, StoreError>
    requires cache { IsCache cache.old }
    requires open { (B.failures blob.old).is_open ≡ true }
    requires writer { IsWriter crc32 (B.calls blob.old) writer }
    requires synced { writer.synced ≡ length (written crc32 (B.calls blob.old) writer) }
    requires sized { writer.page_size ≡ cache.old.page_size + 12 }
    requires named { writer.blob_id < cache.old.next_id }
    requires cached { HoldsPagesOf (written crc32 (B.calls blob.old) writer) cache.old writer.blob_id }
    ensures writer { IfOk result (IsWriter crc32 (B.calls blob.new)) }
    ensures content { IfOk result (λ now. written crc32 (B.calls blob.new) now
        ≡ written crc32 (B.calls blob.old) writer ++ bytes.now) }
    ensures synced { IfOk result (λ now. now.synced ≡ length (written crc32 (B.calls blob.new) now)) }
    ensures sized { IfOk result (λ now. now.page_size ≡ cache.new.page_size + 12) }
    ensures named { IfOk result (λ now. now.blob_id < cache.new.next_id) }
    ensures cached { IfOk result (λ now. HoldsPagesOf (written crc32 (B.calls blob.new) now) cache.new now.blob_id) }
    ensures any_moment { Through (Keeps crc32 (cache.old.page_size + 12)
        (written crc32 (B.calls blob.old) writer ++ bytes.now)
        (length (written crc32 (B.calls blob.old) writer))) (B.calls blob.old) (B.calls blob.new) }
    ensures cache { IsCache cache.new }
    ensures page_size { cache.new.page_size ≡ cache.old.page_size }
    ensures open { (B.failures blob.new).is_open ≡ true }
    ensures settings { (B.failures blob.new).settings ≡ (B.failures blob.old).settings }
    ensures raised { Raises (refusal_of result) (B.failures blob.old) (B.failures blob.new) }
    ensures left { B.left blob.new ≤ B.left blob.old }
    ensures unsynced { OnErr result (completed_syncs (B.calls blob.new) ≡ completed_syncs (B.calls blob.old)) }
    ensures powered { OnOk result (0 < length bytes.now → IsPowerOff (B.failures blob.old) (B.left blob.old) → ⊥) }
    ensures names { cache.new.next_id ≡ cache.old.next_id }
    ensures refused { IfErr result (IsAppendRefusal (B.failures blob.old) (B.failures blob.new)
        (EndsDisk (cache.old.page_size + 12) (written crc32 (B.calls blob.old) writer ++ bytes.now))) }
{
    let appended = append_batch(writer, blob, cache, bytes)?;
    Ok(appended)
}

// The log of a live store may be read on its blob, and its ledger is of it.
fn may_be_read<B, F, H, K, V, const N: usize>(
    ledger: &Ledger<F, H, K, V, N>,
    writer: &Writer<Crc32>,
    blob: &B,
    cache: &CacheRef,
)
where
    B: Blob,
    F: Graftable,
    H: HashFunction,
    K: FixedKey,
    V: FixedValue,
    requires cache { IsCache cache.now }
    requires opened { (B.failures blob.now).is_open ≡ true }
    requires live { let format = format_of (K.after tt) (V.after tt) K.SIZE V.SIZE in
        IsLiveOn (setting_of_width F.merge_rule H.hash_of N) format (B.calls blob.now) cache.now
        (record { ledger = ledger.now; writer = writer.now }) }
    ensures may { IsReadable (format_of (K.after tt) (V.after tt) K.SIZE V.SIZE)
        (over (B.calls blob.now) (B.failures blob.now) (B.left blob.now) cache.now) writer.now }
    ensures of { let format = format_of (K.after tt) (V.after tt) K.SIZE V.SIZE in
        IsLedgerOf (setting_of_width F.merge_rule H.hash_of N) format
        (log_in format (B.calls blob.now) writer.now) ledger.now }
{}

// The ledger and the writer of a live store, whose log may be read on its blob.
fn parts_to_read<'l, B, F, H, K, V, const N: usize>(
    live: &'l Live<F, H, K, V, N>,
    blob: &B,
    cache: &CacheRef,
) -> (&'l Ledger<F, H, K, V, N>, &'l Writer<Crc32>)
where
    B: Blob,
    F: Graftable,
    H: HashFunction,
    K: FixedKey,
    V: FixedValue,
    requires cache { IsCache cache.now }
    requires opened { (B.failures blob.now).is_open ≡ true }
    requires live { let format = format_of (K.after tt) (V.after tt) K.SIZE V.SIZE in
        IsLiveOn (setting_of_width F.merge_rule H.hash_of N) format (B.calls blob.now) cache.now live.now }
    ensures are { live.now ≡ record { ledger = result.0.now; writer = result.1.now } }
    ensures may { IsReadable (format_of (K.after tt) (V.after tt) K.SIZE V.SIZE)
        (over (B.calls blob.now) (B.failures blob.now) (B.left blob.now) cache.now) result.1.now }
    ensures of { let format = format_of (K.after tt) (V.after tt) K.SIZE V.SIZE in
        IsLedgerOf (setting_of_width F.merge_rule H.hash_of N) format
        (log_in format (B.calls blob.now) result.1.now) result.0.now }
{
    (&live.ledger, &live.writer)
}

// Tells a ledger the batch with its commit, by reads of its log, and answers the bytes that its log grows by. Refused,
// the ledger stays as it was.
fn take_batch<B, F, H, K, V, const N: usize>(
    alloc: Global,
    ledger: &mut Ledger<F, H, K, V, N>,
    writer: &Writer<Crc32>,
    blob: &mut B,
    cache: &mut CacheRef,
    batch: Batch<K, V>,
    metadata: Option<V>,
) -> Result<Vec<u8>, StoreError>
where
    B: Blob,
    F: Graftable,
    H: HashFunction,
    K: FixedKey,
    V: FixedValue,
    requires cache { IsCache cache.old }
    requires open { (B.failures blob.old).is_open ≡ true }
    requires live { let format = format_of (K.after tt) (V.after tt) K.SIZE V.SIZE in
        IsLiveOn (setting_of_width F.merge_rule H.hash_of N) format (B.calls blob.old) cache.old
        (record { ledger = ledger.old; writer = writer.now }) }
    ensures ok { let format = format_of (K.after tt) (V.after tt) K.SIZE V.SIZE in
        let said = words.meanings K.encoding V.encoding batch.words.items in
        let log = log_in format (B.calls blob.old) writer.now in
        OnOk result (IsLedgerOf (setting_of_width F.merge_rule H.hash_of N) format
        (log_of (commit_after said (option_map V.encoding metadata) (history_of log))) ledger.new) }
    ensures bytes { let format = format_of (K.after tt) (V.after tt) K.SIZE V.SIZE in
        let said = words.meanings K.encoding V.encoding batch.words.items in
        let log = log_in format (B.calls blob.old) writer.now in
        IfOk result (λ bytes. history_bytes format (commit_after said (option_map V.encoding metadata) (history_of log))
        ≡ written crc32 (B.calls blob.old) writer.now ++ bytes.items) }
    ensures pruned { ledger.new.kept.bits.pruned ≡ ledger.old.kept.bits.pruned }
    ensures unchanged { OnErr result (ledger.new ≡ ledger.old) }
    ensures readable { IsReadable (format_of (K.after tt) (V.after tt) K.SIZE V.SIZE)
        (over (B.calls blob.new) (B.failures blob.new) (B.left blob.new) cache.new) writer.now }
    ensures reads { LeavesRead (refusal_of result)
        (over (B.calls blob.old) (B.failures blob.old) (B.left blob.old) cache.old)
        (over (B.calls blob.new) (B.failures blob.new) (B.left blob.new) cache.new) }
    ensures refused { let format = format_of (K.after tt) (V.after tt) K.SIZE V.SIZE in
        let said = words.meanings K.encoding V.encoding batch.words.items in
        let log = log_in format (B.calls blob.old) writer.now in
        IfErr result (IsBatchRefusal (B.failures blob.old) (B.failures blob.new)
        (PassesLimit (commit_after said (option_map V.encoding metadata) (history_of log)))) }
{
    may_be_read(ledger, writer, &*blob, &*cache);
    let of = PhantomData;
    let mut log = LogReader {
        alloc,
        writer,
        blob,
        cache,
        of,
    };
    taken_batch(ledger, &mut log, batch, metadata)
}

// Takes a batch with its commit into the history and makes it durable. Refused before anything is appended, what was
// handed in comes back; refused later, nothing does.
fn grow_live<B, F, H, K, V, const N: usize>(
    alloc: Global,
    mut ledger: Ledger<F, H, K, V, N>,
    writer: Writer<Crc32>,
    blob: &mut B,
    cache: &mut CacheRef,
    batch: Batch<K, V>,
    metadata: Option<V>,
) -> Result<Live<F, H, K, V, N>, (Option<Live<F, H, K, V, N>>, StoreError)>
where
    B: Blob,
    F: Graftable,
    H: HashFunction,
    K: FixedKey,
    V: FixedValue,
    requires cache { IsCache cache.old }
    requires open { (B.failures blob.old).is_open ≡ true }
    requires live { let format = format_of (K.after tt) (V.after tt) K.SIZE V.SIZE in
        IsLiveOn (setting_of_width F.merge_rule H.hash_of N) format (B.calls blob.old) cache.old
        (record { ledger = ledger; writer = writer }) }
    ensures live { let format = format_of (K.after tt) (V.after tt) K.SIZE V.SIZE in
        IfOk result (IsLiveOn (setting_of_width F.merge_rule H.hash_of N) format (B.calls blob.new) cache.new) }
    ensures next { let format = format_of (K.after tt) (V.after tt) K.SIZE V.SIZE in
        let said = words.meanings K.encoding V.encoding batch.words.items in
        let history = history_of (log_in format (B.calls blob.old) writer) in
        let next = commit_after said (option_map V.encoding metadata) history in
        IfOk result (λ now. ((live_on format (B.calls blob.new) now).history ≡ next)
        × (length (log_of next) ≤ 2 ^ 62)) }
    ensures pruned { MatchResult result (λ now. now.ledger.kept.bits.pruned ≡ ledger.kept.bits.pruned)
        (λ refused. IfSome refused.0 (λ kept. kept.ledger.kept.bits.pruned ≡ ledger.kept.bits.pruned)) }
    // Refused, no sync was completed: all that may refuse a batch comes before.
    ensures unsynced { OnErr result (completed_syncs (B.calls blob.new) ≡ completed_syncs (B.calls blob.old)) }
    // Under a cut of the power nothing is made durable.
    ensures powered { OnOk result (IsPowerOff (B.failures blob.old) (B.left blob.old) → ⊥) }
    ensures kept { let format = format_of (K.after tt) (V.after tt) K.SIZE V.SIZE in
        let said = words.meanings K.encoding V.encoding batch.words.items in
        let history = history_of (log_in format (B.calls blob.old) writer) in
        let next = commit_after said (option_map V.encoding metadata) history in
        IfErr result (λ refused. IfSome refused.0 (λ kept. ((live_on format (B.calls blob.new) kept).history ≡ history)
        × IsLiveOn (setting_of_width F.merge_rule H.hash_of N) format (B.calls blob.new) cache.new kept
        × IsBatchRefusal (B.failures blob.old) (B.failures blob.new) (PassesLimit next) refused.1)) }
    ensures failed { let format = format_of (K.after tt) (V.after tt) K.SIZE V.SIZE in
        let said = words.meanings K.encoding V.encoding batch.words.items in
        let history = history_of (log_in format (B.calls blob.old) writer) in
        IfErr result (λ refused. refused.0 ≡ None
        → IsCutShort format (cache.old.page_size + 12) said (option_map V.encoding metadata) history
        (B.failures blob.old) (B.failures blob.new) (B.calls blob.new) refused.1) }
    ensures cache { IsCache cache.new }
    ensures page_size { cache.new.page_size ≡ cache.old.page_size }
    ensures open { (B.failures blob.new).is_open ≡ true }
    ensures settings { (B.failures blob.new).settings ≡ (B.failures blob.old).settings }
    ensures raised { MatchResult result (λ now. Raises None (B.failures blob.old) (B.failures blob.new))
        (λ refused. Raises (Some refused.1) (B.failures blob.old) (B.failures blob.new)) }
    ensures left { B.left blob.new ≤ B.left blob.old }
    ensures names { cache.new.next_id ≡ cache.old.next_id }
    ensures grows { Grows (B.calls blob.old) (B.calls blob.new) }
{
    each_image_keeps_what_is_durable();
    a_kept_log_is_shown();
    let bytes = match take_batch(alloc, &mut ledger, &writer, blob, cache, batch, metadata) {
        Ok(bytes) => bytes,
        Err(error) => return Err((Some(Live { ledger, writer }), error)),
    };
    ledger.is_recorded();
    match append_log(writer, blob, cache, &bytes) {
        Ok(writer) => Ok(Live { ledger, writer }),
        Err(error) => Err((None, error)),
    }
}

/// Takes a batch with its commit into the history and makes it durable, and answers the new root. Refused before
/// anything is appended, the store is as it was; refused later, it has failed.
pub fn commit_live<B, F, H, K, V, const N: usize>(
    alloc: Global,
    store: &mut Option<Live<F, H, K, V, N>>,
    blob: &mut B,
    cache: &mut CacheRef,
    batch: Batch<K, V>,
    metadata: Option<V>,
) -> Result<H::Digest, StoreError>
where
    B: Blob,
    F: Graftable,
    H: HashFunction,
    K: FixedKey,
    V: FixedValue,
    requires cache { IsCache cache.old }
    requires open { (B.failures blob.old).is_open ≡ true }
    requires live { let format = format_of (K.after tt) (V.after tt) K.SIZE V.SIZE in
        IfSome store.old (IsLiveOn (setting_of_width F.merge_rule H.hash_of N) format (B.calls blob.old) cache.old) }
    ensures live { let format = format_of (K.after tt) (V.after tt) K.SIZE V.SIZE in
        IfSome store.new (IsLiveOn (setting_of_width F.merge_rule H.hash_of N) format (B.calls blob.new) cache.new) }
    ensures failed { store.old ≡ None → (result ≡ Err StoreError.Failed) × (store.new ≡ None)
        × (blob.new ≡ blob.old) × (cache.new ≡ cache.old) }
    ensures commits { let format = format_of (K.after tt) (V.after tt) K.SIZE V.SIZE in
        let said = words.meanings K.encoding V.encoding batch.words.items in
        IfSome (seen_on format (B.calls blob.old) store.old) (λ was.
        CommitsOver (setting_of_width F.merge_rule H.hash_of N) format (cache.old.page_size + 12) said
        (option_map V.encoding metadata) was.history (B.failures blob.old) (B.left blob.old) H.Digest.encoding result
        (B.failures blob.new) (B.calls blob.new) (seen_on format (B.calls blob.new) store.new)) }
    ensures pruned { IfSome store.old (λ was. IfSome store.new (λ now.
        now.ledger.kept.bits.pruned ≡ was.ledger.kept.bits.pruned)) }
    // Refused, no sync was completed: all that may refuse a batch, want of memory too, comes before.
    ensures unsynced { OnErr result (completed_syncs (B.calls blob.new) ≡ completed_syncs (B.calls blob.old)) }
    ensures cache { IsCache cache.new }
    ensures page_size { cache.new.page_size ≡ cache.old.page_size }
    ensures open { (B.failures blob.new).is_open ≡ true }
    ensures settings { (B.failures blob.new).settings ≡ (B.failures blob.old).settings }
    ensures raised { Raises (refusal_of result) (B.failures blob.old) (B.failures blob.new) }
    ensures left { B.left blob.new ≤ B.left blob.old }
    ensures names { cache.new.next_id ≡ cache.old.next_id }
    ensures grows { Grows (B.calls blob.old) (B.calls blob.new) }
{
    let Some(Live { ledger, writer }) = store.take() else {
        return Err(StoreError::Failed);
    };
    match grow_live(alloc, ledger, writer, blob, cache, batch, metadata) {
        Ok(live) => {
            let root = live.ledger.root();
            *store = Some(live);
            Ok(root)
        }
        Err((kept, error)) => {
            *store = kept;
            Err(error)
        }
    }
}

// Prunes what a ledger keeps up to a location, and answers how many chunks are pruned then. S7: the location stands
// past the floor. S4: out of memory. Refused, it stays as it was.
fn prune_ledger<F: Graftable, H: HashFunction, K: FixedKey, V: FixedValue, const N: usize>(
    ledger: &mut Ledger<F, H, K, V, N>,
    location: u64,
) -> Result<u64, StoreError>
    requires of { (log : List Operation) × IsLedgerOf (setting_of_width F.merge_rule H.hash_of N)
        (format_of (K.after tt) (V.after tt) K.SIZE V.SIZE) log ledger.old }
    ensures of { let format = format_of (K.after tt) (V.after tt) K.SIZE V.SIZE in
        let setting = setting_of_width F.merge_rule H.hash_of N in
        (log : List Operation) → IsLedgerOf setting format log ledger.old
        → IfOk result (λ chunks. IsLedgerOf setting format log ledger.new × (location ≤ floor_of (history_of log))
        × IsPrunedUpTo setting (history_of log) ledger.old.kept.bits.pruned location chunks) }
    ensures pruned { IfOk result (λ chunks. ledger.new.kept.bits.pruned ≡ chunks) }
    ensures refused { let format = format_of (K.after tt) (V.after tt) K.SIZE V.SIZE in
        (log : List Operation) → IsLedgerOf (setting_of_width F.merge_rule H.hash_of N) format log ledger.old
        → IfErr result (λ e. ((e ≡ StoreError.PastFloor) × (floor_of (history_of log) < location))
        ⊎ ((e ≡ StoreError.Memory) × (location ≤ floor_of (history_of log)))) }
    ensures unchanged { OnErr result (ledger.new ≡ ledger.old) }
{
    if ledger.floor() < location {
        return Err(StoreError::PastFloor);
    }
    match ledger.prune(location) {
        Ok(chunks) => Ok(chunks),
        Err(error) => Err(StoreError::from(error)),
    }
}

/// Prunes the chunks that are settled and end by the location, and answers how many are pruned then: no fewer than
/// before. S7: the location stands past the floor. S4: out of memory. S6: the store has failed. Refused, it stays as it
/// was.
pub fn prune_live<F: Graftable, H: HashFunction, K: FixedKey, V: FixedValue, const N: usize>(
    store: &mut Option<Live<F, H, K, V, N>>,
    location: u64,
) -> Result<u64, StoreError>
    requires of { let format = format_of (K.after tt) (V.after tt) K.SIZE V.SIZE in
        IfSome store.old (λ was. (log : List Operation)
        × IsLedgerOf (setting_of_width F.merge_rule H.hash_of N) format log was.ledger) }
    ensures ok { let format = format_of (K.after tt) (V.after tt) K.SIZE V.SIZE in
        let setting = setting_of_width F.merge_rule H.hash_of N in
        IfSome store.old (λ was. (log : List Operation) → IsLedgerOf setting format log was.ledger
        → IfOk result (λ chunks. IsSomeAnd store.new (λ now. IsLedgerOf setting format log now.ledger)
        × (location ≤ floor_of (history_of log))
        × IsPrunedUpTo setting (history_of log) was.ledger.kept.bits.pruned location chunks)) }
    ensures pruned { IfOk result (λ chunks. IfSome store.new (λ now. now.ledger.kept.bits.pruned ≡ chunks)) }
    ensures writer { option_map (λ now. now.writer) store.new ≡ option_map (λ was. was.writer) store.old }
    ensures refused { let format = format_of (K.after tt) (V.after tt) K.SIZE V.SIZE in
        IfSome store.old (λ was. (log : List Operation)
        → IsLedgerOf (setting_of_width F.merge_rule H.hash_of N) format log was.ledger
        → IfErr result (λ e. ((e ≡ StoreError.PastFloor) × (floor_of (history_of log) < location))
        ⊎ ((e ≡ StoreError.Memory) × (location ≤ floor_of (history_of log))))) }
    ensures unchanged { OnErr result (store.new ≡ store.old) }
    ensures failed { store.old ≡ None → result ≡ Err StoreError.Failed }
{
    let Some(Live { mut ledger, writer }) = store.take() else {
        return Err(StoreError::Failed);
    };
    let chunks = prune_ledger(&mut ledger, location);
    *store = Some(Live { ledger, writer });
    chunks
}

/// The value of the key in the latest state, read from the log through the cache, or `None` where there is none. S1 to
/// S4 where a call of the blob, a count or memory is wanting; the log is then as it was.
pub fn get_live<B, F, H, K, V, const N: usize>(
    alloc: Global,
    live: &Live<F, H, K, V, N>,
    blob: &mut B,
    cache: &mut CacheRef,
    key: &K,
) -> Result<Option<V>, StoreError>
where
    B: Blob,
    F: Graftable,
    H: HashFunction,
    K: FixedKey,
    V: FixedValue,
    requires cache { IsCache cache.old }
    requires open { (B.failures blob.old).is_open ≡ true }
    requires live { let format = format_of (K.after tt) (V.after tt) K.SIZE V.SIZE in
        IsLiveOn (setting_of_width F.merge_rule H.hash_of N) format (B.calls blob.old) cache.old live.now }
    ensures ok { let format = format_of (K.after tt) (V.after tt) K.SIZE V.SIZE in
        IfOk result (λ found. option_map V.encoding found
        ≡ value_at (latest_map (live_on format (B.calls blob.old) live.now).history) (K.encoding key.now)) }
    ensures live { let format = format_of (K.after tt) (V.after tt) K.SIZE V.SIZE in
        IsLiveOn (setting_of_width F.merge_rule H.hash_of N) format (B.calls blob.new) cache.new live.now }
    ensures cache { IsCache cache.new }
    ensures reads { LeavesRead (refusal_of result)
        (over (B.calls blob.old) (B.failures blob.old) (B.left blob.old) cache.old)
        (over (B.calls blob.new) (B.failures blob.new) (B.left blob.new) cache.new) }
    ensures refused { IfErr result (IsReadRefusal (B.failures blob.old) (B.failures blob.new)) }
{
    let Some(location) = live.ledger.location(key) else {
        return Ok(None);
    };
    let mut log = LogReader::<F, K, V, B> {
        alloc,
        writer: &live.writer,
        blob,
        cache,
        of: PhantomData,
    };
    Ok(Some(log.value_at(location as usize)?))
}

/// The value of the key, or that it is absent, with the honest bytes that prove it under the root of this moment. S1 to
/// S4 where a call of the blob, a count or memory is wanting; the log is then as it was.
pub fn prove_key_live<B, F, H, K, V, const N: usize>(
    alloc: Global,
    live: &Live<F, H, K, V, N>,
    blob: &mut B,
    cache: &mut CacheRef,
    key: &K,
) -> Result<KeyProof<V>, StoreError>
where
    B: Blob,
    F: Graftable + PendingOf<H::Digest>,
    H: HashFunction,
    K: FixedKey,
    V: FixedValue,
    requires cache { IsCache cache.old }
    requires open { (B.failures blob.old).is_open ≡ true }
    requires live { let format = format_of (K.after tt) (V.after tt) K.SIZE V.SIZE in
        IsLiveOn (setting_of_width F.merge_rule H.hash_of N) format (B.calls blob.old) cache.old live.now }
    ensures proof { let format = format_of (K.after tt) (V.after tt) K.SIZE V.SIZE in
        let setting = setting_of_width F.merge_rule H.hash_of N in
        let history = (live_on format (B.calls blob.old) live.now).history in
        IfOk result (λ found. key_answer_of V.encoding found
        ≡ honest_answer F.pending_encoding setting K.SIZE V.SIZE history (K.encoding key.now)) }
    ensures shown { let format = format_of (K.after tt) (V.after tt) K.SIZE V.SIZE in
        let history = (live_on format (B.calls blob.old) live.now).history in
        let terms = terms F.merge_rule H.hash_of N H.Digest.SIZE F.is_pending F.pending_encoding
        (K.after tt) (V.after tt) K.SIZE V.SIZE in
        let root = root_of_history (setting_of_width F.merge_rule H.hash_of N) K.SIZE V.SIZE history in
        IfOk result (λ proved. IsAccepted terms root (K.encoding key.now) (key_answer_of V.encoding proved)) }
    ensures live { let format = format_of (K.after tt) (V.after tt) K.SIZE V.SIZE in
        IsLiveOn (setting_of_width F.merge_rule H.hash_of N) format (B.calls blob.new) cache.new live.now }
    ensures cache { IsCache cache.new }
    ensures reads { LeavesRead (refusal_of result)
        (over (B.calls blob.old) (B.failures blob.old) (B.left blob.old) cache.old)
        (over (B.calls blob.new) (B.failures blob.new) (B.left blob.new) cache.new) }
    ensures refused { IfErr result (IsReadRefusal (B.failures blob.old) (B.failures blob.new)) }
{
    let (ledger, writer) = parts_to_read(live, &*blob, &*cache);
    let mut log = LogReader {
        alloc,
        writer,
        blob,
        cache,
        of: PhantomData,
    };
    key_proof(ledger, &mut log, key)
}

/// The operation at a location, with the honest bytes that prove it active under the root of this moment. S8 to S10:
/// there is no proof. S1 to S4 as of a key.
pub fn prove_operation_live<B, F, H, K, V, const N: usize>(
    alloc: Global,
    live: &Live<F, H, K, V, N>,
    blob: &mut B,
    cache: &mut CacheRef,
    location: u64,
) -> Result<ProvedOperation<F, K, V>, StoreError>
where
    B: Blob,
    F: Graftable + PendingOf<H::Digest>,
    H: HashFunction,
    K: FixedKey,
    V: FixedValue,
    requires cache { IsCache cache.old }
    requires open { (B.failures blob.old).is_open ≡ true }
    requires live { let format = format_of (K.after tt) (V.after tt) K.SIZE V.SIZE in
        IsLiveOn (setting_of_width F.merge_rule H.hash_of N) format (B.calls blob.old) cache.old live.now }
    ensures proof { let format = format_of (K.after tt) (V.after tt) K.SIZE V.SIZE in
        let setting = setting_of_width F.merge_rule H.hash_of N in
        let history = (live_on format (B.calls blob.old) live.now).history in
        let pruned = live.now.ledger.kept.bits.pruned in
        IfOk result (λ proved. answer_of_operation F.pending_encoding setting K.SIZE V.SIZE history pruned location
        ≡ Ok (operation_answer_of K.encoding V.encoding proved)) }
    ensures shown { let format = format_of (K.after tt) (V.after tt) K.SIZE V.SIZE in
        let history = (live_on format (B.calls blob.old) live.now).history in
        let terms = terms F.merge_rule H.hash_of N H.Digest.SIZE F.is_pending F.pending_encoding
        (K.after tt) (V.after tt) K.SIZE V.SIZE in
        let root = root_of_history (setting_of_width F.merge_rule H.hash_of N) K.SIZE V.SIZE history in
        IfOk result (λ proved. IsAcceptedOperation terms root location (operation_answer_of K.encoding V.encoding
        proved)) }
    ensures live { let format = format_of (K.after tt) (V.after tt) K.SIZE V.SIZE in
        IsLiveOn (setting_of_width F.merge_rule H.hash_of N) format (B.calls blob.new) cache.new live.now }
    ensures cache { IsCache cache.new }
    ensures reads { LeavesRead (refusal_of result)
        (over (B.calls blob.old) (B.failures blob.old) (B.left blob.old) cache.old)
        (over (B.calls blob.new) (B.failures blob.new) (B.left blob.new) cache.new) }
    ensures refused { let format = format_of (K.after tt) (V.after tt) K.SIZE V.SIZE in
        let setting = setting_of_width F.merge_rule H.hash_of N in
        let history = (live_on format (B.calls blob.old) live.now).history in
        let pruned = live.now.ledger.kept.bits.pruned in
        IfErr result (IsProofRefusal (B.failures blob.old) (B.failures blob.new)
        (answer_of_operation F.pending_encoding setting K.SIZE V.SIZE history pruned location)) }
{
    let (ledger, writer) = parts_to_read(live, &*blob, &*cache);
    let mut log = LogReader {
        alloc,
        writer,
        blob,
        cache,
        of: PhantomData,
    };
    operation_proof(ledger, &mut log, location)
}

/// The operations from `start` up to `stop` and their activity bits, with the honest bytes that prove both under the
/// root of this moment. S9 to S11: there is no proof. S1 to S4 as of a key.
pub fn prove_range_live<B, F, H, K, V, const N: usize>(
    alloc: Global,
    live: &Live<F, H, K, V, N>,
    blob: &mut B,
    cache: &mut CacheRef,
    start: u64,
    stop: u64,
) -> Result<ProvedRange<F, K, V>, StoreError>
where
    B: Blob,
    F: Graftable + PendingOf<H::Digest>,
    H: HashFunction,
    K: FixedKey,
    V: FixedValue,
    requires cache { IsCache cache.old }
    requires open { (B.failures blob.old).is_open ≡ true }
    requires live { let format = format_of (K.after tt) (V.after tt) K.SIZE V.SIZE in
        IsLiveOn (setting_of_width F.merge_rule H.hash_of N) format (B.calls blob.old) cache.old live.now }
    ensures proof { let format = format_of (K.after tt) (V.after tt) K.SIZE V.SIZE in
        let setting = setting_of_width F.merge_rule H.hash_of N in
        let history = (live_on format (B.calls blob.old) live.now).history in
        let pruned = live.now.ledger.kept.bits.pruned in
        IfOk result (λ proved. answer_of_range F.pending_encoding setting K.SIZE V.SIZE history pruned start stop
        ≡ Ok (range_answer_of K.encoding V.encoding proved)) }
    ensures shown { let format = format_of (K.after tt) (V.after tt) K.SIZE V.SIZE in
        let history = (live_on format (B.calls blob.old) live.now).history in
        let terms = terms F.merge_rule H.hash_of N H.Digest.SIZE F.is_pending F.pending_encoding
        (K.after tt) (V.after tt) K.SIZE V.SIZE in
        let root = root_of_history (setting_of_width F.merge_rule H.hash_of N) K.SIZE V.SIZE history in
        IfOk result (λ proved. IsAcceptedRange terms root start (range_answer_of K.encoding V.encoding proved)) }
    ensures live { let format = format_of (K.after tt) (V.after tt) K.SIZE V.SIZE in
        IsLiveOn (setting_of_width F.merge_rule H.hash_of N) format (B.calls blob.new) cache.new live.now }
    ensures cache { IsCache cache.new }
    ensures reads { LeavesRead (refusal_of result)
        (over (B.calls blob.old) (B.failures blob.old) (B.left blob.old) cache.old)
        (over (B.calls blob.new) (B.failures blob.new) (B.left blob.new) cache.new) }
    ensures refused { let format = format_of (K.after tt) (V.after tt) K.SIZE V.SIZE in
        let setting = setting_of_width F.merge_rule H.hash_of N in
        let history = (live_on format (B.calls blob.old) live.now).history in
        let pruned = live.now.ledger.kept.bits.pruned in
        IfErr result (IsProofRefusal (B.failures blob.old) (B.failures blob.new)
        (answer_of_range F.pending_encoding setting K.SIZE V.SIZE history pruned start stop)) }
{
    let (ledger, writer) = parts_to_read(live, &*blob, &*cache);
    let mut log = LogReader {
        alloc,
        writer,
        blob,
        cache,
        of: PhantomData,
    };
    range_proof(ledger, &mut log, start, stop)
}

/// The operations from `start` up to `stop`, with the honest bytes that prove under the root of this moment that the
/// log has them. It is refused as a range is.
pub fn prove_log_live<B, F, H, K, V, const N: usize>(
    alloc: Global,
    live: &Live<F, H, K, V, N>,
    blob: &mut B,
    cache: &mut CacheRef,
    start: u64,
    stop: u64,
) -> Result<ProvedSlice<F, K, V>, StoreError>
where
    B: Blob,
    F: Graftable + PendingOf<H::Digest>,
    H: HashFunction,
    K: FixedKey,
    V: FixedValue,
    requires cache { IsCache cache.old }
    requires open { (B.failures blob.old).is_open ≡ true }
    requires live { let format = format_of (K.after tt) (V.after tt) K.SIZE V.SIZE in
        IsLiveOn (setting_of_width F.merge_rule H.hash_of N) format (B.calls blob.old) cache.old live.now }
    ensures proof { let format = format_of (K.after tt) (V.after tt) K.SIZE V.SIZE in
        let setting = setting_of_width F.merge_rule H.hash_of N in
        let history = (live_on format (B.calls blob.old) live.now).history in
        let pruned = live.now.ledger.kept.bits.pruned in
        IfOk result (λ proved. answer_of_slice F.pending_encoding setting K.SIZE V.SIZE history pruned start stop
        ≡ Ok (slice_answer_of K.encoding V.encoding proved)) }
    ensures shown { let format = format_of (K.after tt) (V.after tt) K.SIZE V.SIZE in
        let history = (live_on format (B.calls blob.old) live.now).history in
        let terms = terms F.merge_rule H.hash_of N H.Digest.SIZE F.is_pending F.pending_encoding
        (K.after tt) (V.after tt) K.SIZE V.SIZE in
        let root = root_of_history (setting_of_width F.merge_rule H.hash_of N) K.SIZE V.SIZE history in
        IfOk result (λ proved. IsAcceptedSlice terms root start (slice_answer_of K.encoding V.encoding proved)) }
    ensures live { let format = format_of (K.after tt) (V.after tt) K.SIZE V.SIZE in
        IsLiveOn (setting_of_width F.merge_rule H.hash_of N) format (B.calls blob.new) cache.new live.now }
    ensures cache { IsCache cache.new }
    ensures reads { LeavesRead (refusal_of result)
        (over (B.calls blob.old) (B.failures blob.old) (B.left blob.old) cache.old)
        (over (B.calls blob.new) (B.failures blob.new) (B.left blob.new) cache.new) }
    ensures refused { let format = format_of (K.after tt) (V.after tt) K.SIZE V.SIZE in
        let setting = setting_of_width F.merge_rule H.hash_of N in
        let history = (live_on format (B.calls blob.old) live.now).history in
        let pruned = live.now.ledger.kept.bits.pruned in
        IfErr result (IsProofRefusal (B.failures blob.old) (B.failures blob.new)
        (answer_of_slice F.pending_encoding setting K.SIZE V.SIZE history pruned start stop)) }
{
    let (ledger, writer) = parts_to_read(live, &*blob, &*cache);
    let mut log = LogReader {
        alloc,
        writer,
        blob,
        cache,
        of: PhantomData,
    };
    slice_proof(ledger, &mut log, start, stop)
}
