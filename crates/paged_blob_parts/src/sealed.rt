//! A list that takes no more bytes.

ghost use Rattle.std.specs.Prelude.{◌≡◌, ◌⊎◌, ◌+◌, ◌*◌, ◌<◌, ◌≤◌, ◌^◌, ◌++◌, ◌↔◌, ℕ, List};
ghost use Rattle.std.specs.Prelude.{length, take, drop, IsTrue, IsFalse, IfOk, IfErr, OnOk, IsErr};
ghost use Rattle.paged_format.specs.Footers.{IsPageSize, content_size};
ghost use Rattle.paged_blob_parts.specs.Calls.{Call};
ghost use Rattle.paged_blob_parts.specs.Moments.{Through};
ghost use Rattle.paged_blob_parts.specs.Answers.{failures_after};
ghost use Rattle.paged_blob_parts.specs.CachedContent.{KeepsOthers};
ghost use Rattle.paged_blob_parts.specs.Reads.{ServesPages, StaysKept, IsReadingCause};
ghost use Rattle.paged_blob_parts.specs.Writers.{Keeps};
ghost use Rattle.paged_blob_parts.specs.Stands.{Stand, on_blob, listed, IsSealed};
ghost use Rattle.paged_blob_parts.specs.Served.{slices, total, items_of, are_within, IsRangesCause};
ghost use Rattle.paged_blob_parts.specs.Served.{IsServed, Serves, AreServed};
ghost use Rattle.paged_blob_parts.specs.declared.read.FlushedPages.{FlushedPages};

use crate::blob::Blob;
use crate::cache::CacheRef;
use crate::error::Error;
use crate::read::FlushedPages;
use crate::view::View;
use fault_storage::Checksum;
use std::alloc::{AllocError, Global};
use std::marker::PhantomData;

/// A list of bytes over a blob that takes no more of them: its whole pages stand on the blob, durable, and it has a
/// copy of what stands behind them. The writer that it came from may go on: it keeps its size and its bytes.
/// In the Rust: `paged::Sealed`, which owns the blob.
#[derive(Drop)]
pub struct Sealed<C: Checksum> {
    /// What its reads take their memory from.
    pub alloc: Global,
    /// Its whole pages.
    pub pages: FlushedPages,
    /// What stands behind them.
    pub tail: Vec<u8>,
    /// The checksum by which the pages verify.
    pub checksum: PhantomData<C>,
    ghost page: { IsPageSize pages.physical_page_size },
    ghost ends: { pages.len + length tail.items < 2 ^ 64 },
}

/// A sealed list stays that list through the calls of a writer that goes on from it: whatever they answered, also where
/// they failed, as long as what its pages have is durable.
pub fn a_sealed_list_stays()
    ensures { (sum : List ℕ → ℕ) (old new : List Call) (list more : List ℕ) (synced : ℕ) (pages : FlushedPages)
        (tail : List ℕ) → IsSealed sum old list pages tail → pages.len ≤ synced
        → Through (Keeps sum pages.physical_page_size (list ++ more) synced) old new
        → IsSealed sum new list pages tail }
{}

impl<C: Checksum> Sealed<C> {
    /// How many bytes the list has. In the Rust: `paged::Sealed::size`.
    pub fn size(&self) -> u64
        ensures { result ≡ self.now.pages.len + length self.now.tail.items }
    {
        self.pages.len + self.tail.len() as u64
    }

    /// The list, lent to be read (own).
    pub fn view(&self) -> View<'_, C>
        ensures pages { result.pages ≡ self.now.pages }
        ensures tail { result.tail.now ≡ self.now.tail.items }
    {
        View {
            alloc: self.alloc,
            pages: self.pages,
            tail: self.tail.as_slice(),
            checksum: PhantomData,
        }
    }

    /// Another of the same list. It fails only when out of memory. In the Rust: `paged::Sealed::clone`.
    pub fn try_copy(&self) -> Result<Sealed<C>, AllocError>
        ensures pages { IfOk result (λ copy. copy.pages ≡ self.now.pages) }
        ensures tail { IfOk result (λ copy. copy.tail.items ≡ self.now.tail.items) }
    {
        let tail = self.tail.to_vec(self.alloc)?;
        Ok(Sealed {
            alloc: self.alloc,
            pages: self.pages,
            tail,
            checksum: PhantomData,
        })
    }

    /// Reads a slice of the list into `out`. Where the list ends before it: F7, and nothing is touched; else it is
    /// refused only where a read of the blob is. In the Rust: `paged::Sealed::read_into`.
    pub fn read_into<B: Blob>(
        &self,
        blob: &mut B,
        cache: &mut CacheRef,
        out: &mut [u8],
        offset: u64,
    ) -> Result<(), Error>
        requires stand { Stand C.checksum_of (B.calls blob.old) self.now.pages }
        requires pages { cache.old.page_size ≡ content_size self.now.pages.physical_page_size }
        requires cached { ServesPages (on_blob C.checksum_of (B.calls blob.old) self.now.pages) cache.old
            self.now.pages.blob_id }
        ensures bytes { OnOk result (out.new ≡ take (length out.old) (drop offset
            (listed C.checksum_of (B.calls blob.old) self.now.pages self.now.tail.items))) }
        ensures past { self.now.pages.len + length self.now.tail.items < offset + length out.old
            → (result ≡ Err Error.BlobInsufficientLength) × (out.new ≡ out.old) × (cache.new ≡ cache.old) }
        ensures cause { IfErr result (IsReadingCause (B.failures blob.old) self.now.pages.physical_page_size
            self.now.pages.len (self.now.pages.len + length self.now.tail.items)
            (offset + length out.old)) }
        // Whatever content goes on from that of the pages, where its pages were kept they still are.
        ensures cached { StaysKept (on_blob C.checksum_of (B.calls blob.old) self.now.pages) cache.old cache.new
            self.now.pages.blob_id }
        ensures serves { ServesPages (on_blob C.checksum_of (B.calls blob.new) self.now.pages) cache.new
            self.now.pages.blob_id }
        ensures same { cache.new ≡ record cache.old { pages = cache.new.pages } }
        ensures others { KeepsOthers cache.old cache.new self.now.pages.blob_id }
        ensures calls { B.calls blob.new ≡ B.calls blob.old }
        ensures failures { B.failures blob.new ≡ failures_after result (B.failures blob.old) }
        ensures left { B.left blob.new ≤ B.left blob.old }
    {
        self.view().read_into(blob, cache, out, offset)
    }

    /// So many bytes of the list from an offset on. Where it ends before them: F7. In the Rust:
    /// `paged::Sealed::read_at`.
    pub fn read_at<B: Blob>(
        &self,
        blob: &mut B,
        cache: &mut CacheRef,
        offset: u64,
        len: usize,
    ) -> Result<Vec<u8>, Error>
        requires stand { Stand C.checksum_of (B.calls blob.old) self.now.pages }
        requires pages { cache.old.page_size ≡ content_size self.now.pages.physical_page_size }
        requires cached { ServesPages (on_blob C.checksum_of (B.calls blob.old) self.now.pages) cache.old
            self.now.pages.blob_id }
        ensures bytes { IfOk result (λ bytes. bytes.items ≡ take len (drop offset
            (listed C.checksum_of (B.calls blob.old) self.now.pages self.now.tail.items))) }
        ensures past { self.now.pages.len + length self.now.tail.items < offset + len
            → (result ≡ Err Error.BlobInsufficientLength) × (cache.new ≡ cache.old) }
        ensures cause { IfErr result (IsReadingCause (B.failures blob.old) self.now.pages.physical_page_size
            self.now.pages.len (self.now.pages.len + length self.now.tail.items)
            (offset + len)) }
        // Whatever content goes on from that of the pages, where its pages were kept they still are.
        ensures cached { StaysKept (on_blob C.checksum_of (B.calls blob.old) self.now.pages) cache.old cache.new
            self.now.pages.blob_id }
        ensures serves { ServesPages (on_blob C.checksum_of (B.calls blob.new) self.now.pages) cache.new
            self.now.pages.blob_id }
        ensures same { cache.new ≡ record cache.old { pages = cache.new.pages } }
        ensures others { KeepsOthers cache.old cache.new self.now.pages.blob_id }
        ensures calls { B.calls blob.new ≡ B.calls blob.old }
        ensures failures { B.failures blob.new ≡ failures_after result (B.failures blob.old) }
        ensures left { B.left blob.new ≤ B.left blob.old }
    {
        self.view().read_at(blob, cache, offset, len)
    }

    /// At most so many bytes of the list from an offset on, and as many as are left. Where it ends before the
    /// offset: F7. In the Rust: `paged::Sealed::read_up_to`.
    pub fn read_up_to<B: Blob>(
        &self,
        blob: &mut B,
        cache: &mut CacheRef,
        offset: u64,
        len: usize,
    ) -> Result<Vec<u8>, Error>
        requires stand { Stand C.checksum_of (B.calls blob.old) self.now.pages }
        requires pages { cache.old.page_size ≡ content_size self.now.pages.physical_page_size }
        requires cached { ServesPages (on_blob C.checksum_of (B.calls blob.old) self.now.pages) cache.old
            self.now.pages.blob_id }
        ensures bytes { IfOk result (λ bytes. bytes.items ≡ take len (drop offset
            (listed C.checksum_of (B.calls blob.old) self.now.pages self.now.tail.items))) }
        ensures past { self.now.pages.len + length self.now.tail.items < offset
            → (result ≡ Err Error.BlobInsufficientLength) × (cache.new ≡ cache.old) }
        ensures cause { IfErr result (IsReadingCause (B.failures blob.old) self.now.pages.physical_page_size
            self.now.pages.len (self.now.pages.len + length self.now.tail.items)
            offset) }
        // Whatever content goes on from that of the pages, where its pages were kept they still are.
        ensures cached { StaysKept (on_blob C.checksum_of (B.calls blob.old) self.now.pages) cache.old cache.new
            self.now.pages.blob_id }
        ensures serves { ServesPages (on_blob C.checksum_of (B.calls blob.new) self.now.pages) cache.new
            self.now.pages.blob_id }
        ensures same { cache.new ≡ record cache.old { pages = cache.new.pages } }
        ensures others { KeepsOthers cache.old cache.new self.now.pages.blob_id }
        ensures calls { B.calls blob.new ≡ B.calls blob.old }
        ensures failures { B.failures blob.new ≡ failures_after result (B.failures blob.old) }
        ensures left { B.left blob.new ≤ B.left blob.old }
    {
        self.view().read_up_to(blob, cache, offset, len)
    }

    /// Reads the slices of ranges, each an offset and a length, one behind the other into `out`, and answers a
    /// number of them that were served without the disk. Where the list ends before one of them: F7, and nothing
    /// is touched; else it is refused only where a read of the blob is, and what `out` has then is open. That
    /// `out` has as many bytes as they have is on the caller. In the Rust: `paged::Sealed::read_ranges_into`.
    pub fn read_ranges_into<B: Blob>(
        &self,
        blob: &mut B,
        cache: &mut CacheRef,
        out: &mut [u8],
        ranges: &[(u64, usize)],
    ) -> Result<usize, Error>
        requires stand { Stand C.checksum_of (B.calls blob.old) self.now.pages }
        requires pages { cache.old.page_size ≡ content_size self.now.pages.physical_page_size }
        requires cached { ServesPages (on_blob C.checksum_of (B.calls blob.old) self.now.pages) cache.old
            self.now.pages.blob_id }
        requires room { length out.old ≡ total ranges.now }
        ensures bytes { OnOk result (out.new
            ≡ slices (listed C.checksum_of (B.calls blob.old) self.now.pages self.now.tail.items)
            ranges.now) }
        ensures served { IfOk result (λ served. served ≤ length ranges.now) }
        ensures past { IsFalse (are_within (self.now.pages.len + length self.now.tail.items)
            ranges.now)
            → (result ≡ Err Error.BlobInsufficientLength) × (out.new ≡ out.old) × (cache.new ≡ cache.old) }
        ensures cause { IfErr result (IsRangesCause (B.failures blob.old) self.now.pages.physical_page_size
            self.now.pages.len (self.now.pages.len + length self.now.tail.items)
            ranges.now) }
        // Whatever content goes on from that of the pages, where its pages were kept they still are.
        ensures cached { StaysKept (on_blob C.checksum_of (B.calls blob.old) self.now.pages) cache.old cache.new
            self.now.pages.blob_id }
        ensures serves { ServesPages (on_blob C.checksum_of (B.calls blob.new) self.now.pages) cache.new
            self.now.pages.blob_id }
        ensures same { cache.new ≡ record cache.old { pages = cache.new.pages } }
        ensures others { KeepsOthers cache.old cache.new self.now.pages.blob_id }
        ensures calls { B.calls blob.new ≡ B.calls blob.old }
        ensures failures { B.failures blob.new ≡ failures_after result (B.failures blob.old) }
        ensures left { B.left blob.new ≤ B.left blob.old }
    {
        self.view().read_ranges_into(blob, cache, out, ranges)
    }

    /// Reads as many bytes from each of these offsets on, `item_size`, one behind the other into `out`, as
    /// `read_ranges_into` does, and is refused where that is, and out of memory. In the Rust:
    /// `paged::Sealed::read_many_into`.
    pub fn read_many_into<B: Blob>(
        &self,
        blob: &mut B,
        cache: &mut CacheRef,
        out: &mut [u8],
        offsets: &[u64],
        item_size: usize,
    ) -> Result<usize, Error>
        requires stand { Stand C.checksum_of (B.calls blob.old) self.now.pages }
        requires pages { cache.old.page_size ≡ content_size self.now.pages.physical_page_size }
        requires cached { ServesPages (on_blob C.checksum_of (B.calls blob.old) self.now.pages) cache.old
            self.now.pages.blob_id }
        requires room { length out.old ≡ length offsets.now * item_size }
        ensures bytes { OnOk result (out.new
            ≡ slices (listed C.checksum_of (B.calls blob.old) self.now.pages self.now.tail.items)
            (items_of item_size offsets.now)) }
        ensures served { IfOk result (λ served. served ≤ length (items_of item_size offsets.now)) }
        ensures past { IsFalse (are_within (self.now.pages.len + length self.now.tail.items)
            (items_of item_size offsets.now))
            → IsErr result × (out.new ≡ out.old) × (cache.new ≡ cache.old) }
        ensures cause { IfErr result (IsRangesCause (B.failures blob.old) self.now.pages.physical_page_size
            self.now.pages.len (self.now.pages.len + length self.now.tail.items)
            (items_of item_size offsets.now)) }
        // Whatever content goes on from that of the pages, where its pages were kept they still are.
        ensures cached { StaysKept (on_blob C.checksum_of (B.calls blob.old) self.now.pages) cache.old cache.new
            self.now.pages.blob_id }
        ensures serves { ServesPages (on_blob C.checksum_of (B.calls blob.new) self.now.pages) cache.new
            self.now.pages.blob_id }
        ensures same { cache.new ≡ record cache.old { pages = cache.new.pages } }
        ensures others { KeepsOthers cache.old cache.new self.now.pages.blob_id }
        ensures calls { B.calls blob.new ≡ B.calls blob.old }
        ensures failures { B.failures blob.new ≡ failures_after result (B.failures blob.old) }
        ensures left { B.left blob.new ≤ B.left blob.old }
    {
        self.view()
            .read_many_into(blob, cache, out, offsets, item_size)
    }

    /// Whether a slice of the list is in memory, in pages that are kept and in what stands behind all pages: then
    /// `out` has it, and else what `out` has is open. Past the end it is false. It takes no memory and is never
    /// refused. In the Rust: `paged::Sealed::try_read_sync_into`.
    pub fn try_read_sync_into(&self, cache: &CacheRef, out: &mut [u8], offset: u64) -> bool
        // Whatever these pages' content is, where those that are kept are pages of it:
        ensures served { (front : List ℕ) → Serves front cache.now self.now.pages → (IsTrue result
            ↔ IsServed cache.now self.now.pages (self.now.pages.len + length self.now.tail.items)
            offset (length out.old)) }
        ensures bytes { (front : List ℕ) → Serves front cache.now self.now.pages → IsTrue result
            → out.new ≡ take (length out.old) (drop offset (front ++ self.now.tail.items)) }
    {
        self.view().try_read_sync_into(cache, out, offset)
    }

    /// Reads those of the ranges that are in memory, each into its place of `out`, and answers the indexes of the
    /// others, whose places are open then. Where the list ends before one of them: F7, and nothing is touched. Out
    /// of memory: F9. That `out` has as many bytes as the ranges is on the caller. In the Rust:
    /// `paged::Sealed::try_read_ranges_sync_into`.
    pub fn try_read_ranges_sync_into(
        &self,
        cache: &CacheRef,
        out: &mut [u8],
        ranges: &[(u64, usize)],
    ) -> Result<Vec<usize>, Error>
        requires room { length out.old ≡ total ranges.now }
        // Whatever these pages' content is, where those that are kept are pages of it:
        ensures served { (front : List ℕ) → Serves front cache.now self.now.pages → IfOk result
            (λ missing. AreServed cache.now self.now.pages (front ++ self.now.tail.items) 0
            ranges.now out.new missing.items) }
        ensures past { IsFalse (are_within (self.now.pages.len + length self.now.tail.items)
            ranges.now)
            → (result ≡ Err Error.BlobInsufficientLength) × (out.new ≡ out.old) }
        ensures cause { IfErr result (λ e. (e ≡ Error.Memory) ⊎ ((e ≡ Error.BlobInsufficientLength)
            × IsFalse (are_within (self.now.pages.len + length self.now.tail.items)
            ranges.now))) }
    {
        self.view().try_read_ranges_sync_into(cache, out, ranges)
    }

    /// Reads as many bytes from each of these offsets on, `item_size`, as `try_read_ranges_sync_into` does, and is
    /// refused where that is. In the Rust: `paged::Sealed::try_read_many_sync_into`.
    pub fn try_read_many_sync_into(
        &self,
        cache: &CacheRef,
        out: &mut [u8],
        offsets: &[u64],
        item_size: usize,
    ) -> Result<Vec<usize>, Error>
        requires room { length out.old ≡ length offsets.now * item_size }
        // Whatever these pages' content is, where those that are kept are pages of it:
        ensures served { (front : List ℕ) → Serves front cache.now self.now.pages → IfOk result
            (λ missing. AreServed cache.now self.now.pages (front ++ self.now.tail.items) 0
            (items_of item_size offsets.now) out.new missing.items) }
        ensures past { IsFalse (are_within (self.now.pages.len + length self.now.tail.items)
            (items_of item_size offsets.now))
            → IsErr result × (out.new ≡ out.old) }
        ensures cause { IfErr result (λ e. (e ≡ Error.Memory) ⊎ ((e ≡ Error.BlobInsufficientLength)
            × IsFalse (are_within (self.now.pages.len + length self.now.tail.items)
            (items_of item_size offsets.now)))) }
    {
        self.view()
            .try_read_many_sync_into(cache, out, offsets, item_size)
    }
}
