//! The reads of a writer of many slices at once, and those that make no call of its blob.

ghost use Rattle.std.specs.Prelude.{◌≡◌, ◌⊎◌, ◌+◌, ◌*◌, ◌≤◌, ◌↔◌, List, length, take, drop};
ghost use Rattle.std.specs.Prelude.{IsTrue, IsFalse, IfOk, IfErr, OnOk, IsErr};
ghost use Rattle.paged_format.specs.Footers.{content_size};
ghost use Rattle.paged_blob_parts.specs.Calls.{Call};
ghost use Rattle.paged_blob_parts.specs.Answers.{failures_after};
ghost use Rattle.paged_blob_parts.specs.CachedContent.{HoldsPagesOf, KeepsOthers};
ghost use Rattle.paged_blob_parts.specs.Writers.{written, IsWriter};
ghost use Rattle.paged_blob_parts.specs.Stands.{pages_of};
ghost use Rattle.paged_blob_parts.specs.Served.{slices, total, items_of, are_within, IsRangesCause};
ghost use Rattle.paged_blob_parts.specs.Served.{IsServed, AreServed};

use super::Writer;
use fault_storage::Checksum;
use paged_blob_parts::{Blob, CacheRef, Error};

impl<C: Checksum, Phase> Writer<C, Phase> {
    /// Reads the slices of ranges, each an offset and a length, one behind the other into `out`, and answers a
    /// number of them that were served without the disk. Where the list ends before one of them: F7, and nothing
    /// is touched; else it is refused only where a read of the blob is, and what `out` has then is open. That
    /// `out` has as many bytes as they have is on the caller. In the Rust: `paged::Writer::read_ranges_into`.
    pub fn read_ranges_into<B: Blob>(
        &self,
        blob: &mut B,
        cache: &mut CacheRef,
        out: &mut [u8],
        ranges: &[(u64, usize)],
    ) -> Result<usize, Error>
        requires writer { IsWriter C.checksum_of (B.calls blob.old) self.now }
        requires pages { cache.old.page_size ≡ content_size self.now.page_size }
        requires cached { HoldsPagesOf (written C.checksum_of (B.calls blob.old) self.now) cache.old
            self.now.blob_id }
        requires room { length out.old ≡ total ranges.now }
        ensures bytes { OnOk result (out.new ≡ slices (written C.checksum_of (B.calls blob.old) self.now)
            ranges.now) }
        ensures served { IfOk result (λ served. served ≤ length ranges.now) }
        ensures past { IsFalse (are_within (self.now.tip.offset + length self.now.tip.bytes)
            ranges.now)
            → (result ≡ Err Error.BlobInsufficientLength) × (out.new ≡ out.old) × (cache.new ≡ cache.old) }
        ensures cause { IfErr result (IsRangesCause (B.failures blob.old) self.now.page_size self.now.tip.offset
            (self.now.tip.offset + length self.now.tip.bytes)
            ranges.now) }
        ensures cached { HoldsPagesOf (written C.checksum_of (B.calls blob.old) self.now) cache.new self.now.blob_id }
        ensures same { cache.new ≡ record cache.old { pages = cache.new.pages } }
        ensures others { KeepsOthers cache.old cache.new self.now.blob_id }
        ensures calls { B.calls blob.new ≡ B.calls blob.old }
        ensures failures { B.failures blob.new ≡ failures_after result (B.failures blob.old) }
        ensures left { B.left blob.new ≤ B.left blob.old }
    {
        self.view().read_ranges_into(blob, cache, out, ranges)
    }

    /// Reads as many bytes from each of these offsets on, `item_size`, one behind the other into `out`, as
    /// `read_ranges_into` does, and is refused where that is, and out of memory. In the Rust:
    /// `paged::Writer::read_many_into`.
    pub fn read_many_into<B: Blob>(
        &self,
        blob: &mut B,
        cache: &mut CacheRef,
        out: &mut [u8],
        offsets: &[u64],
        item_size: usize,
    ) -> Result<usize, Error>
        requires writer { IsWriter C.checksum_of (B.calls blob.old) self.now }
        requires pages { cache.old.page_size ≡ content_size self.now.page_size }
        requires cached { HoldsPagesOf (written C.checksum_of (B.calls blob.old) self.now) cache.old
            self.now.blob_id }
        requires room { length out.old ≡ length offsets.now * item_size }
        ensures bytes { OnOk result (out.new ≡ slices (written C.checksum_of (B.calls blob.old) self.now)
            (items_of item_size offsets.now)) }
        ensures served { IfOk result (λ served. served ≤ length (items_of item_size offsets.now)) }
        ensures past { IsFalse (are_within (self.now.tip.offset + length self.now.tip.bytes)
            (items_of item_size offsets.now))
            → IsErr result × (out.new ≡ out.old) × (cache.new ≡ cache.old) }
        ensures cause { IfErr result (IsRangesCause (B.failures blob.old) self.now.page_size self.now.tip.offset
            (self.now.tip.offset + length self.now.tip.bytes)
            (items_of item_size offsets.now)) }
        ensures cached { HoldsPagesOf (written C.checksum_of (B.calls blob.old) self.now) cache.new self.now.blob_id }
        ensures same { cache.new ≡ record cache.old { pages = cache.new.pages } }
        ensures others { KeepsOthers cache.old cache.new self.now.blob_id }
        ensures calls { B.calls blob.new ≡ B.calls blob.old }
        ensures failures { B.failures blob.new ≡ failures_after result (B.failures blob.old) }
        ensures left { B.left blob.new ≤ B.left blob.old }
    {
        self.view()
            .read_many_into(blob, cache, out, offsets, item_size)
    }

    /// Whether a slice of the list is in memory, in pages that are kept and in what stands behind all pages: then
    /// `out` has it, and else what `out` has is open. Past the end it is false. It takes no memory and is never
    /// refused. In the Rust: `paged::Writer::try_read_sync_into`.
    pub fn try_read_sync_into(&self, cache: &CacheRef, out: &mut [u8], offset: u64) -> bool
        // Over whatever calls this is a writer, where the pages that are kept are those of its list:
        ensures served { (calls : List Call) → IsWriter C.checksum_of calls self.now
            → cache.now.page_size ≡ content_size self.now.page_size
            → HoldsPagesOf (written C.checksum_of calls self.now) cache.now self.now.blob_id → (IsTrue result
            ↔ IsServed cache.now (pages_of self.now) (self.now.tip.offset + length self.now.tip.bytes)
            offset (length out.old)) }
        ensures bytes { (calls : List Call) → IsWriter C.checksum_of calls self.now
            → cache.now.page_size ≡ content_size self.now.page_size
            → HoldsPagesOf (written C.checksum_of calls self.now) cache.now self.now.blob_id → IsTrue result
            → out.new ≡ take (length out.old) (drop offset (written C.checksum_of calls self.now)) }
    {
        self.view().try_read_sync_into(cache, out, offset)
    }

    /// Reads those of the ranges that are in memory, each into its place of `out`, and answers the indexes of the
    /// others, whose places are open then. Where the list ends before one of them: F7, and nothing is touched. Out
    /// of memory: F9. That `out` has as many bytes as the ranges is on the caller. In the Rust:
    /// `paged::Writer::try_read_ranges_sync_into`.
    pub fn try_read_ranges_sync_into(
        &self,
        cache: &CacheRef,
        out: &mut [u8],
        ranges: &[(u64, usize)],
    ) -> Result<Vec<usize>, Error>
        requires room { length out.old ≡ total ranges.now }
        // Over whatever calls this is a writer, where the pages that are kept are those of its list:
        ensures served { (calls : List Call) → IsWriter C.checksum_of calls self.now
            → cache.now.page_size ≡ content_size self.now.page_size
            → HoldsPagesOf (written C.checksum_of calls self.now) cache.now self.now.blob_id → IfOk result
            (λ missing. AreServed cache.now (pages_of self.now) (written C.checksum_of calls self.now) 0
            ranges.now out.new missing.items) }
        ensures past { IsFalse (are_within (self.now.tip.offset + length self.now.tip.bytes)
            ranges.now)
            → (result ≡ Err Error.BlobInsufficientLength) × (out.new ≡ out.old) }
        ensures cause { IfErr result (λ e. (e ≡ Error.Memory) ⊎ ((e ≡ Error.BlobInsufficientLength)
            × IsFalse (are_within (self.now.tip.offset + length self.now.tip.bytes)
            ranges.now))) }
    {
        self.view().try_read_ranges_sync_into(cache, out, ranges)
    }

    /// Reads as many bytes from each of these offsets on, `item_size`, as `try_read_ranges_sync_into` does, and is
    /// refused where that is. In the Rust: `paged::Writer::try_read_many_sync_into`.
    pub fn try_read_many_sync_into(
        &self,
        cache: &CacheRef,
        out: &mut [u8],
        offsets: &[u64],
        item_size: usize,
    ) -> Result<Vec<usize>, Error>
        requires room { length out.old ≡ length offsets.now * item_size }
        // Over whatever calls this is a writer, where the pages that are kept are those of its list:
        ensures served { (calls : List Call) → IsWriter C.checksum_of calls self.now
            → cache.now.page_size ≡ content_size self.now.page_size
            → HoldsPagesOf (written C.checksum_of calls self.now) cache.now self.now.blob_id → IfOk result
            (λ missing. AreServed cache.now (pages_of self.now) (written C.checksum_of calls self.now) 0
            (items_of item_size offsets.now) out.new missing.items) }
        ensures past { IsFalse (are_within (self.now.tip.offset + length self.now.tip.bytes)
            (items_of item_size offsets.now))
            → IsErr result × (out.new ≡ out.old) }
        ensures cause { IfErr result (λ e. (e ≡ Error.Memory) ⊎ ((e ≡ Error.BlobInsufficientLength)
            × IsFalse (are_within (self.now.tip.offset + length self.now.tip.bytes)
            (items_of item_size offsets.now)))) }
    {
        self.view()
            .try_read_many_sync_into(cache, out, offsets, item_size)
    }
}
