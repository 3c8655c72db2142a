//! Bytes that are appended and made durable in one.

ghost use Rattle.std.specs.Prelude.{◌≡◌, ◌≤◌, ◌⊎◌, ◌+◌, ◌<◌, ◌++◌, length, IfOk, IfErr, OnOk, OnErr};
ghost use Rattle.paged_format.specs.Footers.{content_size};
ghost use Rattle.paged_blob_parts.specs.Moments.{Through};
ghost use Rattle.paged_blob_parts.specs.Answers.{failures_after, IsCause, IsPowerOff};
ghost use Rattle.paged_blob_parts.specs.Flushes.{physical_size};
ghost use Rattle.paged_blob_parts.specs.Writers.{written, IsWriter, Keeps};
ghost use Rattle.paged_blob_parts.specs.CachedContent.{HoldsPagesOf, KeepsOthers};
ghost use Rattle.paged_blob_parts.specs.declared.error.CallKind.{CallKind};
ghost use Rattle.paged_blob.specs.Completed.{completed_syncs};
ghost use Rattle.auth_store_log.specs.Causes.{AreNamed};

use fault_storage::Checksum;
use paged_blob::{Blob, CacheRef, Error, Writer};

/// Appends bytes and makes them durable, and all before them: the list has them after the answer, whatever a crash
/// leaves. Refused where a call of the blob is, or where a number of the list would end: F8; the writer is given up,
/// and what a crash then shows is the list with some of the bytes, and what was durable stays.
pub fn append_batch<B: Blob, C: Checksum>(
    writer: Writer<C>,
    blob: &mut B,
    cache: &mut CacheRef,
    bytes: &[u8],
) -> Result<Writer<C>, Error>
    requires writer { IsWriter C.checksum_of (B.calls blob.old) writer }
    requires pages { cache.old.page_size ≡ content_size writer.page_size }
    ensures writer { IfOk result (λ w. IsWriter C.checksum_of (B.calls blob.new) w) }
    ensures content { IfOk result (λ w. written C.checksum_of (B.calls blob.new) w
        ≡ written C.checksum_of (B.calls blob.old) writer ++ bytes.now) }
    ensures synced { IfOk result (λ w. w.synced
        ≡ length (written C.checksum_of (B.calls blob.old) writer) + length bytes.now) }
    ensures same { IfOk result (λ w. (w.page_size ≡ writer.page_size) × (w.blob_id ≡ writer.blob_id)
        × (w.tip.capacity ≡ writer.tip.capacity)) }
    // Whatever a crash leaves at any moment of the call keeps what was durable, and has nothing but these bytes behind.
    ensures any_moment { Through (Keeps C.checksum_of writer.page_size
        (written C.checksum_of (B.calls blob.old) writer ++ bytes.now) writer.synced)
        (B.calls blob.old) (B.calls blob.new) }
    ensures cause { IfErr result (λ e. IsCause (B.failures blob.old) CallKind.Write (physical_size writer.page_size
        (length (written C.checksum_of (B.calls blob.old) writer) + length bytes.now)) e
        ⊎ IsCause (B.failures blob.old) CallKind.Sync 0 e) }
    ensures failures { B.failures blob.new ≡ failures_after result (B.failures blob.old) }
    ensures left { B.left blob.new ≤ B.left blob.old }
    // Refused, no sync was completed.
    ensures unsynced { OnErr result (completed_syncs (B.calls blob.new) ≡ completed_syncs (B.calls blob.old)) }
    // Under a cut of the power no bytes are appended.
    ensures powered { OnOk result (0 < length bytes.now → IsPowerOff (B.failures blob.old) (B.left blob.old) → ⊥) }
    ensures cache { cache.new ≡ record cache.old { pages = cache.new.pages } }
    ensures cached { HoldsPagesOf (written C.checksum_of (B.calls blob.old) writer) cache.old writer.blob_id
        → HoldsPagesOf (written C.checksum_of (B.calls blob.old) writer ++ bytes.now) cache.new writer.blob_id }
    ensures others { KeepsOthers cache.old cache.new writer.blob_id }
    ensures named { AreNamed cache.old → writer.blob_id < cache.old.next_id → AreNamed cache.new }
{
    let (appended, _) = writer.append(blob, cache, bytes)?;
    appended.sync(blob, cache)
}
