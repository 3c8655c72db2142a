//! A list that is read: whole pages that stand on a blob, and what stands behind them in memory.

ghost use Rattle.std.specs.Prelude.{◌≡◌, ◌⊎◌, ◌+◌, ◌*◌, ◌<◌, ◌≤◌};
ghost use Rattle.std.specs.Prelude.{◌^◌, ◌++◌, ◌∷◌, ◌↔◌, [], ℕ, List, if◌then◌else◌};
ghost use Rattle.std.specs.Prelude.{nat_le, length, take, drop, Contains, IsTrue, IsFalse};
ghost use Rattle.std.specs.Prelude.{IfOk, IfErr, OnOk, IsErr};
ghost use Rattle.paged_format.specs.Footers.{IsPageSize, content_size};
ghost use Rattle.paged_blob_parts.specs.Answers.{failures_after};
ghost use Rattle.paged_blob_parts.specs.Caches.{Page, IsElsewhere};
ghost use Rattle.paged_blob_parts.specs.CachedContent.{KeepsOthers};
ghost use Rattle.paged_blob_parts.specs.Reads.{ServesPages, StaysKept, IsReadingCause};
ghost use Rattle.paged_blob_parts.specs.Stands.{Stand, on_blob, listed};
ghost use Rattle.paged_blob_parts.specs.Served.{slices, total, items_of, are_within, IsRangesCause};
ghost use Rattle.paged_blob_parts.specs.Served.{AreKept, IsServed, Serves, AreServed};

use crate::blob::Blob;
use crate::cache::CacheRef;
use crate::error::Error;
use crate::read::{FlushedPages, read_slice};
use fault_storage::Checksum;
use std::alloc::{AllocError, Global};
use std::marker::PhantomData;

/// A list that is lent to be read: whole pages of a blob, and behind them bytes in memory. It keeps its size and its
/// bytes as long as the pages stand. In the Rust: `paged::View`.
pub struct View<'a, C: Checksum> {
    /// What its reads take their memory from.
    pub alloc: Global,
    /// Its whole pages.
    pub pages: FlushedPages,
    /// What stands behind them.
    pub tail: &'a [u8],
    /// The checksum by which the pages verify.
    pub checksum: PhantomData<C>,
    ghost page: { IsPageSize pages.physical_page_size },
    ghost ends: { pages.len + length tail.now < 2 ^ 64 },
}

impl<'a, C: Checksum> Clone for View<'a, C> {
    ghost is_clone = { λ x y. y ≡ x };

    ghost is_infallible = { λ _. Unit {0} };

    fn clone(&self) -> Result<View<'a, C>, AllocError> {
        Ok(*self)
    }
}

impl<'a, C: Checksum> Copy for View<'a, C> {}

// Whether so many bytes from an offset on end within a list of so many.
fn ends_within(size: u64, offset: u64, len: usize) -> bool
    ensures is { result ≡ nat_le (offset + len) size }
    ensures fits { IsTrue result ↔ (offset + len ≤ size) }
{
    match offset.checked_add(len as u64) {
        Some(end) => end <= size,
        None => false,
    }
}

// Whether each range does.
fn are_within(size: u64, ranges: &[(u64, usize)]) -> bool
    ensures { result ≡ are_within size ranges.now }
{
    ranges
        .iter()
        .all(|range| ends_within(size, range.0, range.1))
}

// The ranges of as many bytes from each of these offsets on.
fn ranges_of(
    alloc: Global,
    offsets: &[u64],
    item_size: usize,
) -> Result<Vec<(u64, usize)>, AllocError>
    ensures { IfOk result (λ ranges. ranges.items ≡ items_of item_size offsets.now) }
{
    let mut ranges = Vec::new(alloc);
    for offset in offsets {
        ranges.push((*offset, item_size))?;
    }
    Ok(ranges)
}

// Names an index, unless its range was served.
fn name_unless(missing: &mut Vec<usize>, is_served: bool, index: usize) -> Result<(), AllocError>
    ensures { OnOk result (missing.new.items
        ≡ missing.old.items ++ (if is_served then [] else index ∷ [])) }
{
    if is_served {
        return Ok(());
    }
    missing.push(index)?;
    Ok(())
}

// One more, if it was served.
fn counted(served: usize, is_served: bool) -> usize
    requires { served + 1 < 2 ^ 64 }
    ensures { result ≤ served + 1 }
{
    if is_served { served + 1 } else { served }
}

// Copies a piece of a page, if the page is kept and reaches so far, and answers whether it is.
fn copy_page(cache: &CacheRef, blob_id: u64, number: u64, from: usize, out: &mut [u8]) -> bool
    requires { from + length out.old < 2 ^ 64 }
    ensures some { IsTrue result → (bytes : List ℕ) × Contains cache.now.pages
        (record { blob_id = blob_id; number = number; bytes = bytes })
        × (out.new ≡ take (length out.old) (drop from bytes)) }
    ensures none { IsFalse result → ((page : Page) → Contains cache.now.pages page → IsElsewhere blob_id number page)
        ⊎ ((bytes : List ℕ) × Contains cache.now.pages
        (record { blob_id = blob_id; number = number; bytes = bytes }) × (length bytes < from + length out.old)) }
{
    let Some(bytes) = cache.page(blob_id, number) else {
        return false;
    };
    if bytes.len() < from + out.len() {
        return false;
    }
    out.copy_from_slice(&bytes[from..from + out.len()]);
    true
}

// Copies a slice of the content of pages from those that are kept, if all that it needs are.
fn copy_flushed(cache: &CacheRef, pages: FlushedPages, out: &mut [u8], offset: u64) -> bool
    requires page { IsPageSize pages.physical_page_size }
    requires within { offset + length out.old ≤ pages.len }
    ensures served { (front : List ℕ) → Serves front cache.now pages
        → (IsTrue result ↔ AreKept cache.now pages offset (length out.old)) }
    ensures bytes { (front : List ℕ) → Serves front cache.now pages → IsTrue result
        → out.new ≡ take (length out.old) (drop offset front) }
{
    let room = u64::from(pages.physical_page_size) - 12;
    let mut done = 0;
    while done < out.len() {
        let at = offset + done as u64;
        let from = (at % room) as usize;
        let count = (room as usize - from).min(out.len() - done);
        let piece = &mut out[done..done + count];
        if !copy_page(cache, pages.blob_id, at / room, from, piece) {
            return false;
        }
        done += count;
    }
    true
}

impl<'a, C: Checksum> View<'a, C> {
    /// How many bytes the list has (own).
    pub fn size(&self) -> u64
        ensures { result ≡ self.now.pages.len + length self.now.tail.now }
    {
        self.pages.len + self.tail.len() as u64
    }

    // Reads a slice into `out`, and answers whether it was served without the disk.
    fn serve<B: Blob>(
        &self,
        blob: &mut B,
        cache: &mut CacheRef,
        out: &mut [u8],
        offset: u64,
    ) -> Result<bool, Error>
        requires stand { Stand C.checksum_of (B.calls blob.old) self.now.pages }
        requires pages { cache.old.page_size ≡ content_size self.now.pages.physical_page_size }
        requires cached { ServesPages (on_blob C.checksum_of (B.calls blob.old) self.now.pages) cache.old
            self.now.pages.blob_id }
        ensures bytes { OnOk result (out.new ≡ take (length out.old) (drop offset
            (listed C.checksum_of (B.calls blob.old) self.now.pages self.now.tail.now))) }
        ensures cause { IfErr result (IsReadingCause (B.failures blob.old) self.now.pages.physical_page_size
            self.now.pages.len (self.now.pages.len + length self.now.tail.now)
            (offset + length out.old)) }
        // Whatever content goes on from that of the pages, where its pages were kept they still are.
        ensures cached { StaysKept (on_blob C.checksum_of (B.calls blob.old) self.now.pages) cache.old cache.new
            self.now.pages.blob_id }
        ensures serves { ServesPages (on_blob C.checksum_of (B.calls blob.new) self.now.pages) cache.new
            self.now.pages.blob_id }
        ensures same { cache.new ≡ record cache.old { pages = cache.new.pages } }
        ensures others { KeepsOthers cache.old cache.new self.now.pages.blob_id }
        ensures calls { B.calls blob.new ≡ B.calls blob.old }
        ensures failures { B.failures blob.new ≡ failures_after result (B.failures blob.old) }
        ensures left { B.left blob.new ≤ B.left blob.old }
    {
        if self.try_read_sync_into(cache, out, offset) {
            return Ok(true);
        }
        self.read_into(blob, cache, out, offset)?;
        Ok(false)
    }

    /// Reads a slice of the list into `out`. Where the list ends before it: F7, and nothing is touched; else it is
    /// refused only where a read of the blob is. In the Rust: `paged::View::read_into`.
    pub fn read_into<B: Blob>(
        &self,
        blob: &mut B,
        cache: &mut CacheRef,
        out: &mut [u8],
        offset: u64,
    ) -> Result<(), Error>
        requires stand { Stand C.checksum_of (B.calls blob.old) self.now.pages }
        requires pages { cache.old.page_size ≡ content_size self.now.pages.physical_page_size }
        requires cached { ServesPages (on_blob C.checksum_of (B.calls blob.old) self.now.pages) cache.old
            self.now.pages.blob_id }
        ensures bytes { OnOk result (out.new ≡ take (length out.old) (drop offset
            (listed C.checksum_of (B.calls blob.old) self.now.pages self.now.tail.now))) }
        ensures past { self.now.pages.len + length self.now.tail.now < offset + length out.old
            → (result ≡ Err Error.BlobInsufficientLength) × (out.new ≡ out.old) × (cache.new ≡ cache.old) }
        ensures cause { IfErr result (IsReadingCause (B.failures blob.old) self.now.pages.physical_page_size
            self.now.pages.len (self.now.pages.len + length self.now.tail.now)
            (offset + length out.old)) }
        // Whatever content goes on from that of the pages, where its pages were kept they still are.
        ensures cached { StaysKept (on_blob C.checksum_of (B.calls blob.old) self.now.pages) cache.old cache.new
            self.now.pages.blob_id }
        ensures serves { ServesPages (on_blob C.checksum_of (B.calls blob.new) self.now.pages) cache.new
            self.now.pages.blob_id }
        ensures same { cache.new ≡ record cache.old { pages = cache.new.pages } }
        ensures others { KeepsOthers cache.old cache.new self.now.pages.blob_id }
        ensures calls { B.calls blob.new ≡ B.calls blob.old }
        ensures failures { B.failures blob.new ≡ failures_after result (B.failures blob.old) }
        ensures left { B.left blob.new ≤ B.left blob.old }
    {
        read_slice::<B, C>(self.alloc, blob, cache, self.pages, self.tail, out, offset)
    }

    /// So many bytes of the list from an offset on. Where it ends before them: F7. In the Rust:
    /// `paged::View::read_at`.
    pub fn read_at<B: Blob>(
        &self,
        blob: &mut B,
        cache: &mut CacheRef,
        offset: u64,
        len: usize,
    ) -> Result<Vec<u8>, Error>
        requires stand { Stand C.checksum_of (B.calls blob.old) self.now.pages }
        requires pages { cache.old.page_size ≡ content_size self.now.pages.physical_page_size }
        requires cached { ServesPages (on_blob C.checksum_of (B.calls blob.old) self.now.pages) cache.old
            self.now.pages.blob_id }
        ensures bytes { IfOk result (λ bytes. bytes.items ≡ take len (drop offset
            (listed C.checksum_of (B.calls blob.old) self.now.pages self.now.tail.now))) }
        ensures past { self.now.pages.len + length self.now.tail.now < offset + len
            → (result ≡ Err Error.BlobInsufficientLength) × (cache.new ≡ cache.old) }
        ensures cause { IfErr result (IsReadingCause (B.failures blob.old) self.now.pages.physical_page_size
            self.now.pages.len (self.now.pages.len + length self.now.tail.now)
            (offset + len)) }
        // Whatever content goes on from that of the pages, where its pages were kept they still are.
        ensures cached { StaysKept (on_blob C.checksum_of (B.calls blob.old) self.now.pages) cache.old cache.new
            self.now.pages.blob_id }
        ensures serves { ServesPages (on_blob C.checksum_of (B.calls blob.new) self.now.pages) cache.new
            self.now.pages.blob_id }
        ensures same { cache.new ≡ record cache.old { pages = cache.new.pages } }
        ensures others { KeepsOthers cache.old cache.new self.now.pages.blob_id }
        ensures calls { B.calls blob.new ≡ B.calls blob.old }
        ensures failures { B.failures blob.new ≡ failures_after result (B.failures blob.old) }
        ensures left { B.left blob.new ≤ B.left blob.old }
    {
        let size = self.size();
        if offset > size || len as u64 > size - offset {
            return Err(Error::BlobInsufficientLength);
        }
        let mut bytes = Vec::new(self.alloc);
        bytes.resize(len, 0)?;
        self.read_into(blob, cache, &mut bytes, offset)?;
        Ok(bytes)
    }

    /// At most so many bytes of the list from an offset on, and as many as are left. Where it ends before the
    /// offset: F7. In the Rust: `paged::View::read_up_to`.
    pub fn read_up_to<B: Blob>(
        &self,
        blob: &mut B,
        cache: &mut CacheRef,
        offset: u64,
        len: usize,
    ) -> Result<Vec<u8>, Error>
        requires stand { Stand C.checksum_of (B.calls blob.old) self.now.pages }
        requires pages { cache.old.page_size ≡ content_size self.now.pages.physical_page_size }
        requires cached { ServesPages (on_blob C.checksum_of (B.calls blob.old) self.now.pages) cache.old
            self.now.pages.blob_id }
        ensures bytes { IfOk result (λ bytes. bytes.items ≡ take len (drop offset
            (listed C.checksum_of (B.calls blob.old) self.now.pages self.now.tail.now))) }
        ensures past { self.now.pages.len + length self.now.tail.now < offset
            → (result ≡ Err Error.BlobInsufficientLength) × (cache.new ≡ cache.old) }
        ensures cause { IfErr result (IsReadingCause (B.failures blob.old) self.now.pages.physical_page_size
            self.now.pages.len (self.now.pages.len + length self.now.tail.now)
            offset) }
        // Whatever content goes on from that of the pages, where its pages were kept they still are.
        ensures cached { StaysKept (on_blob C.checksum_of (B.calls blob.old) self.now.pages) cache.old cache.new
            self.now.pages.blob_id }
        ensures serves { ServesPages (on_blob C.checksum_of (B.calls blob.new) self.now.pages) cache.new
            self.now.pages.blob_id }
        ensures same { cache.new ≡ record cache.old { pages = cache.new.pages } }
        ensures others { KeepsOthers cache.old cache.new self.now.pages.blob_id }
        ensures calls { B.calls blob.new ≡ B.calls blob.old }
        ensures failures { B.failures blob.new ≡ failures_after result (B.failures blob.old) }
        ensures left { B.left blob.new ≤ B.left blob.old }
    {
        let size = self.size();
        let Some(left) = size.checked_sub(offset) else {
            return Err(Error::BlobInsufficientLength);
        };
        let count = left.min(len as u64) as usize;
        self.read_at(blob, cache, offset, count)
    }

    /// Reads the slices of ranges, each an offset and a length, one behind the other into `out`, and answers a
    /// number of them that were served without the disk. Where the list ends before one of them: F7, and nothing
    /// is touched; else it is refused only where a read of the blob is, and what `out` has then is open. That
    /// `out` has as many bytes as they have is on the caller. In the Rust: `paged::View::read_ranges_into`.
    pub fn read_ranges_into<B: Blob>(
        &self,
        blob: &mut B,
        cache: &mut CacheRef,
        out: &mut [u8],
        ranges: &[(u64, usize)],
    ) -> Result<usize, Error>
        requires stand { Stand C.checksum_of (B.calls blob.old) self.now.pages }
        requires pages { cache.old.page_size ≡ content_size self.now.pages.physical_page_size }
        requires cached { ServesPages (on_blob C.checksum_of (B.calls blob.old) self.now.pages) cache.old
            self.now.pages.blob_id }
        requires room { length out.old ≡ total ranges.now }
        ensures bytes { OnOk result (out.new
            ≡ slices (listed C.checksum_of (B.calls blob.old) self.now.pages self.now.tail.now)
            ranges.now) }
        ensures served { IfOk result (λ served. served ≤ length ranges.now) }
        ensures past { IsFalse (are_within (self.now.pages.len + length self.now.tail.now)
            ranges.now)
            → (result ≡ Err Error.BlobInsufficientLength) × (out.new ≡ out.old) × (cache.new ≡ cache.old) }
        ensures cause { IfErr result (IsRangesCause (B.failures blob.old) self.now.pages.physical_page_size
            self.now.pages.len (self.now.pages.len + length self.now.tail.now)
            ranges.now) }
        // Whatever content goes on from that of the pages, where its pages were kept they still are.
        ensures cached { StaysKept (on_blob C.checksum_of (B.calls blob.old) self.now.pages) cache.old cache.new
            self.now.pages.blob_id }
        ensures serves { ServesPages (on_blob C.checksum_of (B.calls blob.new) self.now.pages) cache.new
            self.now.pages.blob_id }
        ensures same { cache.new ≡ record cache.old { pages = cache.new.pages } }
        ensures others { KeepsOthers cache.old cache.new self.now.pages.blob_id }
        ensures calls { B.calls blob.new ≡ B.calls blob.old }
        ensures failures { B.failures blob.new ≡ failures_after result (B.failures blob.old) }
        ensures left { B.left blob.new ≤ B.left blob.old }
    {
        if !are_within(self.size(), ranges) {
            return Err(Error::BlobInsufficientLength);
        }
        let mut served = 0;
        let mut done = 0;
        for (offset, len) in ranges {
            let piece = &mut out[done..done + *len];
            let is_served = self.serve(blob, cache, piece, *offset)?;
            served = counted(served, is_served);
            done += *len;
        }
        Ok(served)
    }

    /// Reads as many bytes from each of these offsets on, `item_size`, one behind the other into `out`, as
    /// `read_ranges_into` does, and is refused where that is, and out of memory. In the Rust:
    /// `paged::View::read_many_into`.
    pub fn read_many_into<B: Blob>(
        &self,
        blob: &mut B,
        cache: &mut CacheRef,
        out: &mut [u8],
        offsets: &[u64],
        item_size: usize,
    ) -> Result<usize, Error>
        requires stand { Stand C.checksum_of (B.calls blob.old) self.now.pages }
        requires pages { cache.old.page_size ≡ content_size self.now.pages.physical_page_size }
        requires cached { ServesPages (on_blob C.checksum_of (B.calls blob.old) self.now.pages) cache.old
            self.now.pages.blob_id }
        requires room { length out.old ≡ length offsets.now * item_size }
        ensures bytes { OnOk result (out.new
            ≡ slices (listed C.checksum_of (B.calls blob.old) self.now.pages self.now.tail.now)
            (items_of item_size offsets.now)) }
        ensures served { IfOk result (λ served. served ≤ length (items_of item_size offsets.now)) }
        ensures past { IsFalse (are_within (self.now.pages.len + length self.now.tail.now)
            (items_of item_size offsets.now))
            → IsErr result × (out.new ≡ out.old) × (cache.new ≡ cache.old) }
        ensures cause { IfErr result (IsRangesCause (B.failures blob.old) self.now.pages.physical_page_size
            self.now.pages.len (self.now.pages.len + length self.now.tail.now)
            (items_of item_size offsets.now)) }
        // Whatever content goes on from that of the pages, where its pages were kept they still are.
        ensures cached { StaysKept (on_blob C.checksum_of (B.calls blob.old) self.now.pages) cache.old cache.new
            self.now.pages.blob_id }
        ensures serves { ServesPages (on_blob C.checksum_of (B.calls blob.new) self.now.pages) cache.new
            self.now.pages.blob_id }
        ensures same { cache.new ≡ record cache.old { pages = cache.new.pages } }
        ensures others { KeepsOthers cache.old cache.new self.now.pages.blob_id }
        ensures calls { B.calls blob.new ≡ B.calls blob.old }
        ensures failures { B.failures blob.new ≡ failures_after result (B.failures blob.old) }
        ensures left { B.left blob.new ≤ B.left blob.old }
    {
        let ranges = ranges_of(self.alloc, offsets, item_size)?;
        self.read_ranges_into(blob, cache, out, &ranges)
    }

    /// Whether a slice of the list is in memory, in pages that are kept and in what stands behind all pages: then
    /// `out` has it, and else what `out` has is open. Past the end it is false. It takes no memory and is never
    /// refused. In the Rust: `paged::View::try_read_sync_into`.
    pub fn try_read_sync_into(&self, cache: &CacheRef, out: &mut [u8], offset: u64) -> bool
        // Whatever these pages' content is, where those that are kept are pages of it:
        ensures served { (front : List ℕ) → Serves front cache.now self.now.pages → (IsTrue result
            ↔ IsServed cache.now self.now.pages (self.now.pages.len + length self.now.tail.now)
            offset (length out.old)) }
        ensures bytes { (front : List ℕ) → Serves front cache.now self.now.pages → IsTrue result
            → out.new ≡ take (length out.old) (drop offset (front ++ self.now.tail.now)) }
    {
        if !ends_within(self.size(), offset, out.len()) {
            return false;
        }
        let on_blob = self.pages.len.saturating_sub(offset).min(out.len() as u64) as usize;
        let start = offset.min(self.pages.len);
        if !copy_flushed(cache, self.pages, &mut out[..on_blob], start) {
            return false;
        }
        let from = offset.saturating_sub(self.pages.len) as usize;
        let rest = &mut out[on_blob..];
        rest.copy_from_slice(&self.tail[from..from + rest.len()]);
        true
    }

    /// Reads those of the ranges that are in memory, each into its place of `out`, and answers the indexes of the
    /// others, whose places are open then. Where the list ends before one of them: F7, and nothing is touched. Out
    /// of memory: F9. That `out` has as many bytes as the ranges is on the caller. In the Rust:
    /// `paged::View::try_read_ranges_sync_into`.
    pub fn try_read_ranges_sync_into(
        &self,
        cache: &CacheRef,
        out: &mut [u8],
        ranges: &[(u64, usize)],
    ) -> Result<Vec<usize>, Error>
        requires room { length out.old ≡ total ranges.now }
        // Whatever these pages' content is, where those that are kept are pages of it:
        ensures served { (front : List ℕ) → Serves front cache.now self.now.pages → IfOk result
            (λ missing. AreServed cache.now self.now.pages (front ++ self.now.tail.now) 0
            ranges.now out.new missing.items) }
        ensures past { IsFalse (are_within (self.now.pages.len + length self.now.tail.now)
            ranges.now)
            → (result ≡ Err Error.BlobInsufficientLength) × (out.new ≡ out.old) }
        ensures cause { IfErr result (λ e. (e ≡ Error.Memory) ⊎ ((e ≡ Error.BlobInsufficientLength)
            × IsFalse (are_within (self.now.pages.len + length self.now.tail.now)
            ranges.now))) }
    {
        if !are_within(self.size(), ranges) {
            return Err(Error::BlobInsufficientLength);
        }
        let mut missing = Vec::new(self.alloc);
        let mut index = 0;
        let mut done = 0;
        for (offset, len) in ranges {
            let piece = &mut out[done..done + *len];
            let is_served = self.try_read_sync_into(cache, piece, *offset);
            name_unless(&mut missing, is_served, index)?;
            index += 1;
            done += *len;
        }
        Ok(missing)
    }

    /// Reads as many bytes from each of these offsets on, `item_size`, as `try_read_ranges_sync_into` does, and is
    /// refused where that is. In the Rust: `paged::View::try_read_many_sync_into`.
    pub fn try_read_many_sync_into(
        &self,
        cache: &CacheRef,
        out: &mut [u8],
        offsets: &[u64],
        item_size: usize,
    ) -> Result<Vec<usize>, Error>
        requires room { length out.old ≡ length offsets.now * item_size }
        // Whatever these pages' content is, where those that are kept are pages of it:
        ensures served { (front : List ℕ) → Serves front cache.now self.now.pages → IfOk result
            (λ missing. AreServed cache.now self.now.pages (front ++ self.now.tail.now) 0
            (items_of item_size offsets.now) out.new missing.items) }
        ensures past { IsFalse (are_within (self.now.pages.len + length self.now.tail.now)
            (items_of item_size offsets.now))
            → IsErr result × (out.new ≡ out.old) }
        ensures cause { IfErr result (λ e. (e ≡ Error.Memory) ⊎ ((e ≡ Error.BlobInsufficientLength)
            × IsFalse (are_within (self.now.pages.len + length self.now.tail.now)
            (items_of item_size offsets.now)))) }
    {
        let ranges = ranges_of(self.alloc, offsets, item_size)?;
        self.try_read_ranges_sync_into(cache, out, &ranges)
    }
}
