//! A log that is recovered of a blob.
//!
//! What is recovered of the blob ends where its pages do: between two batches, or in the midst of a batch or of an
//! operation. It is cut behind its last commit, durably; where there is none, all of it is, and the log begins with the
//! commit of the empty history:
//!
//! ```text
//!     recovered    commit  update a  commit  update a  update c  comm
//!     the log      commit  update a  commit
//! ```

ghost use Rattle.std.specs.Prelude.{◌≡◌, ◌+◌, ◌<◌, ◌≤◌, [], max, take, length, IsFalse, IfOk, IfErr, OnOk};
ghost use Rattle.paged_format.specs.Footers.{IsPageSize};
ghost use Rattle.paged_format.specs.Pages.{recovered};
ghost use Rattle.paged_blob_parts.specs.Calls.{content, file_of};
ghost use Rattle.paged_blob_parts.specs.Moments.{Through};
ghost use Rattle.paged_blob_parts.specs.Answers.{failures_after};
ghost use Rattle.paged_blob_parts.specs.Shrinks.{IsCut};
ghost use Rattle.paged_blob_parts.specs.Writers.{written, IsWriter, Keeps};
ghost use Rattle.paged_blob_parts.specs.CachedContent.{HoldsPagesOf};
ghost use Rattle.auth_store_log.specs.Causes.{IsLogCause, AreNamed, log_reach};
ghost use Rattle.auth_store_log.specs.Records.{format_of, begun, history_bytes, recovered_log};
ghost use Rattle.auth_store_log.specs.Shown.{IsKeptThrough};

use crate::append::append_batch;
use crate::records::committed_len;
use fault_storage::Checksum;
use merkle_forest::{Family, Location};
use paged_blob::laws::{each_image_keeps_what_is_durable, what_is_shown_withstands};
use paged_blob::{Blob, CacheRef, Error, Recovery, Writer};
use state_ops::ordered::encode;
use state_ops::{FixedKey, FixedValue, Operation, OrderedOperation};
use std::alloc::Global;

// Recovers the list of bytes of a blob of so many bytes, and cuts the blob behind it.
fn settle<B: Blob, C: Checksum>(
    alloc: Global,
    blob: &mut B,
    cache: &mut CacheRef,
    blob_size: u64,
    capacity: usize,
) -> Result<Recovery<C>, Error>
    requires size { IsPageSize (cache.old.page_size + 12) }
    requires sound { IsFalse (file_of (B.calls blob.old)).failed }
    requires settled { (file_of (B.calls blob.old)).changes ≡ [] }
    requires known { blob_size ≡ length (content (B.calls blob.old)) }
    ensures writer { IfOk result (λ w. IsWriter C.checksum_of (B.calls blob.new) w) }
    ensures content { IfOk result (λ w. written C.checksum_of (B.calls blob.new) w
        ≡ recovered C.checksum_of (cache.old.page_size + 12) (content (B.calls blob.old))) }
    ensures synced { IfOk result (λ w. w.synced
        ≡ length (recovered C.checksum_of (cache.old.page_size + 12) (content (B.calls blob.old)))) }
    ensures again { OnOk result (IsCut C.checksum_of (cache.old.page_size + 12)
        (recovered C.checksum_of (cache.old.page_size + 12) (content (B.calls blob.old))) (B.calls blob.new)) }
    ensures page_size { IfOk result (λ w. w.page_size ≡ cache.old.page_size + 12) }
    ensures capacity { IfOk result (λ w. w.tip.capacity ≡ max capacity (cache.old.page_size + 12)) }
    ensures name { IfOk result (λ w. w.blob_id + 1 ≡ cache.new.next_id) }
    ensures cache { OnOk result (cache.new ≡ record cache.old { next_id = cache.old.next_id + 2 }) }
    ensures pages { cache.new.pages ≡ cache.old.pages }
    // Refused too, the cache has given names at most.
    ensures given { (cache.new ≡ record cache.old { next_id = cache.new.next_id })
        × (cache.old.next_id ≤ cache.new.next_id) }
    ensures most { cache.new.next_id ≤ cache.old.next_id + 2 }
    ensures cause { IfErr result (IsLogCause (B.failures blob.old) (cache.old.next_id + 2)
        (length (content (B.calls blob.old)))) }
    ensures any_moment { let list = recovered C.checksum_of (cache.old.page_size + 12) (content (B.calls blob.old)) in
        Through (Keeps C.checksum_of (cache.old.page_size + 12) list (length list))
        (B.calls blob.old) (B.calls blob.new) }
    ensures failures { B.failures blob.new ≡ failures_after result (B.failures blob.old) }
    ensures left { B.left blob.new ≤ B.left blob.old }
{
    what_is_shown_withstands();
    let recovery = Recovery::<C>::open(alloc, blob, cache, blob_size, capacity)?;
    let size = recovery.size();
    recovery.truncate(blob, cache, size)
}

// Cuts the list, all of which is durable, to its first so many bytes.
fn cut_behind<B: Blob, C: Checksum>(
    recovery: Recovery<C>,
    blob: &mut B,
    cache: &mut CacheRef,
    count: u64,
) -> Result<Recovery<C>, Error>
    requires writer { IsWriter C.checksum_of (B.calls blob.old) recovery }
    requires cut { IsCut C.checksum_of recovery.page_size (written C.checksum_of (B.calls blob.old) recovery)
        (B.calls blob.old) }
    requires synced { recovery.synced ≡ length (written C.checksum_of (B.calls blob.old) recovery) }
    requires within { count ≤ length (written C.checksum_of (B.calls blob.old) recovery) }
    ensures writer { IfOk result (λ w. IsWriter C.checksum_of (B.calls blob.new) w) }
    ensures content { IfOk result (λ w. written C.checksum_of (B.calls blob.new) w
        ≡ take count (written C.checksum_of (B.calls blob.old) recovery)) }
    ensures synced { IfOk result (λ w. w.synced ≡ count) }
    ensures page_size { IfOk result (λ w. w.page_size ≡ recovery.page_size) }
    ensures capacity { IfOk result (λ w. w.tip.capacity ≡ recovery.tip.capacity) }
    ensures name { IfOk result (λ w. (cache.old.next_id ≤ w.blob_id) × (w.blob_id < cache.new.next_id)) }
    ensures pages { cache.new.pages ≡ cache.old.pages }
    ensures given { (cache.new ≡ record cache.old { next_id = cache.new.next_id })
        × (cache.old.next_id ≤ cache.new.next_id) }
    ensures most { cache.new.next_id ≤ cache.old.next_id + 1 }
    ensures cause { IfErr result (IsLogCause (B.failures blob.old) (cache.old.next_id + 1)
        (length (content (B.calls blob.old)))) }
    ensures any_moment { Through (Keeps C.checksum_of recovery.page_size
        (written C.checksum_of (B.calls blob.old) recovery) count) (B.calls blob.old) (B.calls blob.new) }
    ensures failures { B.failures blob.new ≡ failures_after result (B.failures blob.old) }
    ensures left { B.left blob.new ≤ B.left blob.old }
{
    what_is_shown_withstands();
    recovery.truncate(blob, cache, count)
}

// The list, all of which is durable, up to its first so many bytes: it is cut where there are more.
fn keep_front<B: Blob, C: Checksum>(
    recovery: Recovery<C>,
    blob: &mut B,
    cache: &mut CacheRef,
    count: u64,
) -> Result<Recovery<C>, Error>
    requires writer { IsWriter C.checksum_of (B.calls blob.old) recovery }
    requires cut { IsCut C.checksum_of recovery.page_size (written C.checksum_of (B.calls blob.old) recovery)
        (B.calls blob.old) }
    requires synced { recovery.synced ≡ length (written C.checksum_of (B.calls blob.old) recovery) }
    requires within { count ≤ length (written C.checksum_of (B.calls blob.old) recovery) }
    requires name { recovery.blob_id < cache.old.next_id }
    requires named { AreNamed cache.old }
    requires cached { HoldsPagesOf (written C.checksum_of (B.calls blob.old) recovery) cache.old recovery.blob_id }
    ensures writer { IfOk result (λ w. IsWriter C.checksum_of (B.calls blob.new) w) }
    ensures content { IfOk result (λ w. written C.checksum_of (B.calls blob.new) w
        ≡ take count (written C.checksum_of (B.calls blob.old) recovery)) }
    ensures synced { IfOk result (λ w. w.synced ≡ count) }
    ensures page_size { IfOk result (λ w. w.page_size ≡ recovery.page_size) }
    ensures capacity { IfOk result (λ w. w.tip.capacity ≡ recovery.tip.capacity) }
    ensures name { IfOk result (λ w. (recovery.blob_id ≤ w.blob_id) × (w.blob_id < cache.new.next_id)) }
    ensures named { AreNamed cache.new }
    ensures given { (cache.new ≡ record cache.old { next_id = cache.new.next_id })
        × (cache.old.next_id ≤ cache.new.next_id) }
    ensures most { cache.new.next_id ≤ cache.old.next_id + 1 }
    ensures cached { IfOk result (λ w. HoldsPagesOf (take count (written C.checksum_of (B.calls blob.old) recovery))
        cache.new w.blob_id) }
    ensures cause { IfErr result (IsLogCause (B.failures blob.old) (cache.old.next_id + 1)
        (length (content (B.calls blob.old)))) }
    ensures any_moment { Through (Keeps C.checksum_of recovery.page_size
        (written C.checksum_of (B.calls blob.old) recovery) count) (B.calls blob.old) (B.calls blob.new) }
    ensures failures { B.failures blob.new ≡ failures_after result (B.failures blob.old) }
    ensures left { B.left blob.new ≤ B.left blob.old }
{
    each_image_keeps_what_is_durable();
    if count == recovery.size() {
        return Ok(recovery);
    }
    cut_behind(recovery, blob, cache, count)
}

// Recovers the log of a blob of so many bytes up to its last commit, and cuts the blob there.
fn recover_committed<F, K, V, B, C>(
    alloc: Global,
    blob: &mut B,
    cache: &mut CacheRef,
    blob_size: u64,
    capacity: usize,
) -> Result<(Recovery<C>, Vec<u8>), Error>
where
    F: Family,
    K: FixedKey,
    V: FixedValue,
    B: Blob,
    C: Checksum,
    requires size { IsPageSize (cache.old.page_size + 12) }
    requires sound { IsFalse (file_of (B.calls blob.old)).failed }
    requires settled { (file_of (B.calls blob.old)).changes ≡ [] }
    requires known { blob_size ≡ length (content (B.calls blob.old)) }
    requires named { AreNamed cache.old }
    ensures writer { IfOk result (λ r. IsWriter C.checksum_of (B.calls blob.new) r.0) }
    ensures content { IfOk result (λ r. written C.checksum_of (B.calls blob.new) r.0
        ≡ recovered_log (format_of (K.after tt) (V.after tt) K.SIZE V.SIZE) C.checksum_of (cache.old.page_size + 12)
        (content (B.calls blob.old))) }
    ensures bytes { IfOk result (λ r. r.1.items
        ≡ recovered_log (format_of (K.after tt) (V.after tt) K.SIZE V.SIZE) C.checksum_of (cache.old.page_size + 12)
        (content (B.calls blob.old))) }
    ensures synced { IfOk result (λ r. r.0.synced ≡ length r.1.items) }
    ensures page_size { IfOk result (λ r. r.0.page_size ≡ cache.old.page_size + 12) }
    ensures capacity { IfOk result (λ r. r.0.tip.capacity ≡ max capacity (cache.old.page_size + 12)) }
    ensures name { IfOk result (λ r. (cache.old.next_id ≤ r.0.blob_id) × (r.0.blob_id < cache.new.next_id)) }
    ensures named { AreNamed cache.new }
    ensures same { cache.new ≡ record cache.old { next_id = cache.new.next_id; pages = cache.new.pages } }
    ensures names { cache.old.next_id ≤ cache.new.next_id }
    ensures most { cache.new.next_id ≤ cache.old.next_id + 3 }
    ensures cached { IfOk result (λ r. HoldsPagesOf r.1.items cache.new r.0.blob_id) }
    ensures cause { IfErr result (IsLogCause (B.failures blob.old) (cache.old.next_id + 3)
        (length (content (B.calls blob.old)))) }
    ensures any_moment { Through (IsKeptThrough (format_of (K.after tt) (V.after tt) K.SIZE V.SIZE) C.checksum_of
        (cache.old.page_size + 12) (recovered_log (format_of (K.after tt) (V.after tt) K.SIZE V.SIZE) C.checksum_of
        (cache.old.page_size + 12) (content (B.calls blob.old)))) (B.calls blob.old) (B.calls blob.new) }
    ensures failures { B.failures blob.new ≡ failures_after result (B.failures blob.old) }
    ensures left { B.left blob.new ≤ B.left blob.old }
{
    let recovery = settle::<B, C>(alloc, blob, cache, blob_size, capacity)?;
    let size = recovery.size() as usize;
    let mut bytes = recovery.read_at(blob, cache, 0, size)?;
    let count = committed_len::<F, K, V>(alloc, &bytes)?;
    let kept = keep_front(recovery, blob, cache, count as u64)?;
    bytes.truncate(count);
    Ok((kept, bytes))
}

// The bytes of the log of the empty history. It fails only when out of memory.
fn first_bytes<F: Family, K: FixedKey, V: FixedValue>(alloc: Global) -> Result<Vec<u8>, Error>
    ensures exact { IfOk result (λ bytes. bytes.items
        ≡ history_bytes (format_of (K.after tt) (V.after tt) K.SIZE V.SIZE) []) }
    ensures err { IfErr result (λ e. e ≡ Error.Memory) }
{
    let first: OrderedOperation<F, K, V> = Operation::CommitFloor(None, Location::new(0));
    Ok(encode(alloc, &first)?)
}

/// Recovers the log of a blob of so many bytes: it is cut behind the last commit, whatever stands there, and where
/// there is no commit it begins with that of nothing. Answers the writer that goes on behind it, and its bytes, all
/// durable. It is refused where a call of the blob, of its writer or of the cache is, never because the blob is too
/// short or does not verify. At each moment what a crash shows is the log that was recovered, or where there was none,
/// none or the empty one. The writer's buffer has so many bytes, `capacity`, and a page's at least. That the blob was
/// opened and nothing was done since, that it has so many bytes, and that the cache gave each name of its pages before
/// is on the caller.
pub fn recover<F, K, V, B, C>(
    alloc: Global,
    blob: &mut B,
    cache: &mut CacheRef,
    blob_size: u64,
    capacity: usize,
) -> Result<(Writer<C>, Vec<u8>), Error>
where
    F: Family,
    K: FixedKey,
    V: FixedValue,
    B: Blob,
    C: Checksum,
    requires size { IsPageSize (cache.old.page_size + 12) }
    requires sound { IsFalse (file_of (B.calls blob.old)).failed }
    requires settled { (file_of (B.calls blob.old)).changes ≡ [] }
    requires known { blob_size ≡ length (content (B.calls blob.old)) }
    requires named { AreNamed cache.old }
    ensures writer { IfOk result (λ r. IsWriter C.checksum_of (B.calls blob.new) r.0) }
    ensures content { IfOk result (λ r. written C.checksum_of (B.calls blob.new) r.0 ≡ r.1.items) }
    ensures bytes { IfOk result (λ r. r.1.items ≡ begun (format_of (K.after tt) (V.after tt) K.SIZE V.SIZE)
        (recovered_log (format_of (K.after tt) (V.after tt) K.SIZE V.SIZE) C.checksum_of (cache.old.page_size + 12)
        (content (B.calls blob.old)))) }
    ensures synced { IfOk result (λ r. r.0.synced ≡ length r.1.items) }
    ensures page_size { IfOk result (λ r. r.0.page_size ≡ cache.old.page_size + 12) }
    ensures capacity { IfOk result (λ r. r.0.tip.capacity ≡ max capacity (cache.old.page_size + 12)) }
    ensures cause { IfErr result (IsLogCause (B.failures blob.old) (cache.old.next_id + 3)
        (log_reach (format_of (K.after tt) (V.after tt) K.SIZE V.SIZE) (cache.old.page_size + 12)
        (content (B.calls blob.old)))) }
    // The writer has a new name; the pages that are kept under it are those of the log, and all have names.
    ensures name { IfOk result (λ r. (cache.old.next_id ≤ r.0.blob_id) × (r.0.blob_id < cache.new.next_id)) }
    ensures cached { IfOk result (λ r. HoldsPagesOf r.1.items cache.new r.0.blob_id) }
    ensures named { AreNamed cache.new }
    ensures same { cache.new ≡ record cache.old { next_id = cache.new.next_id; pages = cache.new.pages } }
    ensures names { cache.old.next_id ≤ cache.new.next_id }
    ensures most { cache.new.next_id ≤ cache.old.next_id + 3 }
    ensures any_moment { Through (IsKeptThrough (format_of (K.after tt) (V.after tt) K.SIZE V.SIZE) C.checksum_of
        (cache.old.page_size + 12) (recovered_log (format_of (K.after tt) (V.after tt) K.SIZE V.SIZE) C.checksum_of
        (cache.old.page_size + 12) (content (B.calls blob.old)))) (B.calls blob.old) (B.calls blob.new) }
    ensures failures { B.failures blob.new ≡ failures_after result (B.failures blob.old) }
    ensures left { B.left blob.new ≤ B.left blob.old }
{
    let (recovery, bytes) = recover_committed::<F, K, V, B, C>(
        alloc, blob, cache, blob_size, capacity,
    )?;
    let writer: Writer<C> = Writer::from(recovery);
    if !bytes.is_empty() {
        return Ok((writer, bytes));
    }
    let first = first_bytes::<F, K, V>(alloc)?;
    let begun = append_batch(writer, blob, cache, &first)?;
    Ok((begun, first))
}
