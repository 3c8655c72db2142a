//! Reading a slice of a content: from memory, from pages that are kept, and from the blob.

ghost use Rattle.std.specs.Prelude.{◌≡◌, ◌+◌, ◌*◌, ◌/◌, ◌%◌, ◌<◌, ◌≤◌, ◌^◌, ℕ, List, length, take, drop};
ghost use Rattle.std.specs.Prelude.{IsTrue, IsFalse, Contains};
ghost use Rattle.std.specs.Prelude.{OnOk, IfOk, IfErr, IsOk};
ghost use Rattle.paged_format.specs.Footers.{IsPageSize, content_size};
ghost use Rattle.paged_format.specs.Pages.{recovered};
ghost use Rattle.paged_blob_parts.specs.Calls.{content, file_of};
ghost use Rattle.paged_blob_parts.specs.Chance.{page_at};
ghost use Rattle.paged_blob_parts.specs.Caches.{Page};
ghost use Rattle.paged_blob_parts.specs.CachedContent.{HoldsPagesOf, KeepsOthers};
ghost use Rattle.paged_blob_parts.specs.Answers.{failures_after, IsCause};
ghost use Rattle.paged_blob_parts.specs.Reads.{flushed, readable, ServesPages, StaysKept, IsReadingCause};
ghost use Rattle.paged_blob_parts.specs.Stands.{Stand, on_blob, listed};
ghost use Rattle.paged_blob_parts.specs.declared.error.CallKind.TheVariants.{Read};

use crate::blob::Blob;
use crate::cache::CacheRef;
use crate::error::Error;
use fault_storage::Checksum;
use paged_format::prefix_len;
use std::alloc::Global;

/// The pages of a writer that are on its blob (own).
#[derive(Clone, Copy, Debug, PartialEq, Eq)]
pub struct FlushedPages {
    /// How many bytes a page has there, a power of two from 16 to 65536.
    pub physical_page_size: u32,
    /// The name under which the pages are kept in memory.
    pub blob_id: u64,
    /// How many bytes of content they have, up to the one that is in memory only.
    pub len: u64,
}

// The content of a page that stands, from the blob. Where it does not verify: F12.
pub(crate) fn read_page<B: Blob, C: Checksum>(
    alloc: Global,
    blob: &mut B,
    pages: FlushedPages,
    page: u64,
) -> Result<Vec<u8>, Error>
    requires page { IsPageSize pages.physical_page_size }
    requires stand { Stand C.checksum_of (B.calls blob.old) pages }
    requires whole { (page + 1) * content_size pages.physical_page_size ≤ pages.len }
    ensures bytes { IfOk result (λ bytes. bytes.items ≡ page_at (content_size pages.physical_page_size) page
        (on_blob C.checksum_of (B.calls blob.old) pages)) }
    ensures cause { IfErr result (IsCause (B.failures blob.old) Read
        (pages.len / content_size pages.physical_page_size * pages.physical_page_size)) }
    ensures calls { B.calls blob.new ≡ B.calls blob.old }
    ensures failures { B.failures blob.new ≡ failures_after result (B.failures blob.old) }
    ensures left { B.left blob.new ≤ B.left blob.old }
{
    let size = u64::from(pages.physical_page_size);
    let mut bytes = blob.read_at(alloc, page * size, pages.physical_page_size as usize)?;
    let room = pages.physical_page_size as usize - 12;
    if prefix_len::<C>(&bytes, pages.physical_page_size) < room as u64 {
        return Err(Error::ChecksumMismatch);
    }
    bytes.truncate(room);
    Ok(bytes)
}

// Copies a piece of a page, if the page is kept, and answers whether it is.
fn copy_kept(cache: &CacheRef, blob_id: u64, page: u64, from: usize, out: &mut [u8]) -> bool
    requires long { (kept : Page) → Contains cache.now.pages kept → kept.blob_id ≡ blob_id
        → kept.number ≡ page → from + length out.old ≤ length kept.bytes }
    ensures { IsTrue result → (bytes : List ℕ) × Contains cache.now.pages
        (record { blob_id = blob_id; number = page; bytes = bytes })
        × (out.new ≡ take (length out.old) (drop from bytes)) }
{
    let Some(bytes) = cache.page(blob_id, page) else {
        return false;
    };
    out.copy_from_slice(&bytes[from..from + out.len()]);
    true
}

// Copies a piece of a whole page, from memory or from the blob, and keeps the page.
fn page_into<B: Blob, C: Checksum>(
    alloc: Global,
    blob: &mut B,
    cache: &mut CacheRef,
    pages: FlushedPages,
    page: u64,
    from: usize,
    out: &mut [u8],
) -> Result<(), Error>
    requires page { IsPageSize pages.physical_page_size }
    requires stand { Stand C.checksum_of (B.calls blob.old) pages }
    requires whole { (page + 1) * content_size pages.physical_page_size ≤ pages.len }
    requires within { from + length out.old ≤ content_size pages.physical_page_size }
    requires sizes { cache.old.page_size ≡ content_size pages.physical_page_size }
    requires kept { ServesPages
        (flushed C.checksum_of pages.physical_page_size (B.calls blob.old) pages.len) cache.old pages.blob_id }
    ensures bytes { let all = flushed C.checksum_of pages.physical_page_size (B.calls blob.old) pages.len in
        OnOk result (out.new ≡ take (length out.old)
        (drop (page * content_size pages.physical_page_size + from) all)) }
    ensures kept { StaysKept (flushed C.checksum_of pages.physical_page_size (B.calls blob.old) pages.len)
        cache.old cache.new pages.blob_id }
    ensures same { cache.new ≡ record cache.old { pages = cache.new.pages } }
    ensures others { KeepsOthers cache.old cache.new pages.blob_id }
    ensures cause { IfErr result (IsCause (B.failures blob.old) Read
        (pages.len / content_size pages.physical_page_size * pages.physical_page_size)) }
    ensures calls { B.calls blob.new ≡ B.calls blob.old }
    ensures failures { B.failures blob.new ≡ failures_after result (B.failures blob.old) }
    ensures left { B.left blob.new ≤ B.left blob.old }
{
    if copy_kept(cache, pages.blob_id, page, from, out) {
        return Ok(());
    }
    let bytes = read_page::<B, C>(alloc, blob, pages, page)?;
    cache.cache(pages.blob_id, &bytes, page * u64::from(cache.page_size()));
    out.copy_from_slice(&bytes[from..from + out.len()]);
    Ok(())
}

// Copies a slice of the content that is on the blob.
fn read_flushed<B: Blob, C: Checksum>(
    alloc: Global,
    blob: &mut B,
    cache: &mut CacheRef,
    pages: FlushedPages,
    out: &mut [u8],
    offset: u64,
) -> Result<(), Error>
    requires page { IsPageSize pages.physical_page_size }
    requires stand { Stand C.checksum_of (B.calls blob.old) pages }
    requires within { offset + length out.old ≤ pages.len }
    requires sizes { cache.old.page_size ≡ content_size pages.physical_page_size }
    requires kept { ServesPages
        (flushed C.checksum_of pages.physical_page_size (B.calls blob.old) pages.len) cache.old pages.blob_id }
    ensures bytes { OnOk result (out.new ≡ take (length out.old)
        (drop offset (flushed C.checksum_of pages.physical_page_size (B.calls blob.old) pages.len))) }
    ensures kept { StaysKept (flushed C.checksum_of pages.physical_page_size (B.calls blob.old) pages.len)
        cache.old cache.new pages.blob_id }
    ensures same { cache.new ≡ record cache.old { pages = cache.new.pages } }
    ensures others { KeepsOthers cache.old cache.new pages.blob_id }
    ensures cause { IfErr result (IsCause (B.failures blob.old) Read
        (pages.len / content_size pages.physical_page_size * pages.physical_page_size)) }
    ensures calls { B.calls blob.new ≡ B.calls blob.old }
    ensures failures { B.failures blob.new ≡ failures_after result (B.failures blob.old) }
    ensures left { B.left blob.new ≤ B.left blob.old }
{
    let room = u64::from(pages.physical_page_size) - 12;
    let mut done = 0;
    while done < out.len() {
        let at = offset + done as u64;
        let from = (at % room) as usize;
        let count = (room as usize - from).min(out.len() - done);
        let piece = &mut out[done..done + count];
        page_into::<B, C>(alloc, blob, cache, pages, at / room, from, piece)?;
        done += count;
    }
    Ok(())
}

// Reads a slice of the content into `out`, as `read_into` does, where the pages stand.
pub(crate) fn read_slice<B: Blob, C: Checksum>(
    alloc: Global,
    blob: &mut B,
    cache: &mut CacheRef,
    pages: FlushedPages,
    tip: &[u8],
    out: &mut [u8],
    offset: u64,
) -> Result<(), Error>
    requires page { IsPageSize pages.physical_page_size }
    requires stand { Stand C.checksum_of (B.calls blob.old) pages }
    requires ends { pages.len + length tip.now < 2 ^ 64 }
    requires sizes { cache.old.page_size ≡ content_size pages.physical_page_size }
    requires kept { ServesPages (on_blob C.checksum_of (B.calls blob.old) pages) cache.old pages.blob_id }
    ensures bytes { OnOk result (out.new ≡ take (length out.old) (drop offset
        (listed C.checksum_of (B.calls blob.old) pages tip.now))) }
    ensures within { OnOk result (offset + length out.old ≤ pages.len + length tip.now) }
    ensures past { pages.len + length tip.now < offset + length out.old
        → (result ≡ Err Error.BlobInsufficientLength) × (out.new ≡ out.old) × (cache.new ≡ cache.old) }
    ensures cause { IfErr result (IsReadingCause (B.failures blob.old) pages.physical_page_size pages.len
        (pages.len + length tip.now) (offset + length out.old)) }
    ensures kept { StaysKept (on_blob C.checksum_of (B.calls blob.old) pages) cache.old cache.new pages.blob_id }
    ensures same { cache.new ≡ record cache.old { pages = cache.new.pages } }
    ensures others { KeepsOthers cache.old cache.new pages.blob_id }
    ensures calls { B.calls blob.new ≡ B.calls blob.old }
    ensures failures { B.failures blob.new ≡ failures_after result (B.failures blob.old) }
    ensures left { B.left blob.new ≤ B.left blob.old }
{
    let Some(end) = offset.checked_add(out.len() as u64) else {
        return Err(Error::BlobInsufficientLength);
    };
    if end > pages.len + tip.len() as u64 {
        return Err(Error::BlobInsufficientLength);
    }
    let on_blob = pages.len.saturating_sub(offset).min(out.len() as u64) as usize;
    let start = offset.min(pages.len);
    read_flushed::<B, C>(alloc, blob, cache, pages, &mut out[..on_blob], start)?;
    let from = offset.saturating_sub(pages.len) as usize;
    let rest = &mut out[on_blob..];
    rest.copy_from_slice(&tip[from..from + rest.len()]);
    Ok(())
}

/// Reads a slice of the content into `out`: from the tip, which is in memory, from pages that are kept, and from the
/// blob, whose pages are kept then. Where the content ends before it: F7, and nothing is touched; else it is refused
/// only where a read of the blob is. That the pages hold the content, and that the cache holds no other under their
/// name, is on the caller. In the Rust: `paged::Writer::read_into`.
pub fn read_into<B: Blob, C: Checksum>(
    alloc: Global,
    blob: &mut B,
    cache: &mut CacheRef,
    pages: FlushedPages,
    tip: &[u8],
    out: &mut [u8],
    offset: u64,
) -> Result<(), Error>
    requires page { IsPageSize pages.physical_page_size }
    requires sound { IsFalse (file_of (B.calls blob.old)).failed }
    requires shown { pages.len
        ≤ length (recovered C.checksum_of pages.physical_page_size (content (B.calls blob.old))) }
    requires whole { pages.len % content_size pages.physical_page_size ≡ 0 }
    requires numbers { pages.len / content_size pages.physical_page_size * pages.physical_page_size < 2 ^ 64 }
    requires ends { pages.len + length tip.now < 2 ^ 64 }
    requires sizes { cache.old.page_size ≡ content_size pages.physical_page_size }
    requires kept { HoldsPagesOf
        (readable C.checksum_of pages.physical_page_size (B.calls blob.old) pages.len tip.now) cache.old pages.blob_id }
    ensures bytes { OnOk result (out.new ≡ take (length out.old) (drop offset
        (readable C.checksum_of pages.physical_page_size (B.calls blob.old) pages.len tip.now))) }
    ensures within { OnOk result (offset + length out.old ≤ pages.len + length tip.now) }
    ensures past { pages.len + length tip.now < offset + length out.old
        → (result ≡ Err Error.BlobInsufficientLength) × (out.new ≡ out.old) × (cache.new ≡ cache.old) }
    ensures cause { IfErr result (IsReadingCause (B.failures blob.old) pages.physical_page_size pages.len
        (pages.len + length tip.now) (offset + length out.old)) }
    ensures kept { HoldsPagesOf
        (readable C.checksum_of pages.physical_page_size (B.calls blob.old) pages.len tip.now) cache.new pages.blob_id }
    ensures same { cache.new ≡ record cache.old { pages = cache.new.pages } }
    ensures others { KeepsOthers cache.old cache.new pages.blob_id }
    ensures calls { B.calls blob.new ≡ B.calls blob.old }
    ensures failures { B.failures blob.new ≡ failures_after result (B.failures blob.old) }
    ensures left { B.left blob.new ≤ B.left blob.old }
{
    read_slice::<B, C>(alloc, blob, cache, pages, tip, out, offset)
}

/// So many bytes of the content from an offset on, as `read_into` gives them. Where the content ends before them: F7.
/// In the Rust: `paged::Writer::read_at`.
pub fn read_at<B: Blob, C: Checksum>(
    alloc: Global,
    blob: &mut B,
    cache: &mut CacheRef,
    pages: FlushedPages,
    tip: &[u8],
    offset: u64,
    len: usize,
) -> Result<Vec<u8>, Error>
    requires page { IsPageSize pages.physical_page_size }
    requires sound { IsFalse (file_of (B.calls blob.old)).failed }
    requires shown { pages.len
        ≤ length (recovered C.checksum_of pages.physical_page_size (content (B.calls blob.old))) }
    requires whole { pages.len % content_size pages.physical_page_size ≡ 0 }
    requires numbers { pages.len / content_size pages.physical_page_size * pages.physical_page_size < 2 ^ 64 }
    requires ends { pages.len + length tip.now < 2 ^ 64 }
    requires sizes { cache.old.page_size ≡ content_size pages.physical_page_size }
    requires kept { HoldsPagesOf
        (readable C.checksum_of pages.physical_page_size (B.calls blob.old) pages.len tip.now) cache.old pages.blob_id }
    ensures bytes { IfOk result (λ bytes. bytes.items ≡ take len (drop offset
        (readable C.checksum_of pages.physical_page_size (B.calls blob.old) pages.len tip.now))) }
    ensures within { IsOk result → offset + len ≤ pages.len + length tip.now }
    ensures past { pages.len + length tip.now < offset + len
        → (result ≡ Err Error.BlobInsufficientLength) × (cache.new ≡ cache.old) }
    ensures cause { IfErr result (IsReadingCause (B.failures blob.old) pages.physical_page_size pages.len
        (pages.len + length tip.now) (offset + len)) }
    ensures kept { HoldsPagesOf
        (readable C.checksum_of pages.physical_page_size (B.calls blob.old) pages.len tip.now) cache.new pages.blob_id }
    ensures same { cache.new ≡ record cache.old { pages = cache.new.pages } }
    ensures others { KeepsOthers cache.old cache.new pages.blob_id }
    ensures calls { B.calls blob.new ≡ B.calls blob.old }
    ensures failures { B.failures blob.new ≡ failures_after result (B.failures blob.old) }
    ensures left { B.left blob.new ≤ B.left blob.old }
{
    let size = pages.len + tip.len() as u64;
    if offset > size || len as u64 > size - offset {
        return Err(Error::BlobInsufficientLength);
    }
    let mut bytes = Vec::new(alloc);
    bytes.resize(len, 0)?;
    read_into::<B, C>(alloc, blob, cache, pages, tip, &mut bytes, offset)?;
    Ok(bytes)
}

/// At most so many bytes of the content from an offset on, and as many as are left. Where the content ends before the
/// offset: F7. In the Rust: `paged::Writer::read_up_to`.
pub fn read_up_to<B: Blob, C: Checksum>(
    alloc: Global,
    blob: &mut B,
    cache: &mut CacheRef,
    pages: FlushedPages,
    tip: &[u8],
    offset: u64,
    len: usize,
) -> Result<Vec<u8>, Error>
    requires page { IsPageSize pages.physical_page_size }
    requires sound { IsFalse (file_of (B.calls blob.old)).failed }
    requires shown { pages.len
        ≤ length (recovered C.checksum_of pages.physical_page_size (content (B.calls blob.old))) }
    requires whole { pages.len % content_size pages.physical_page_size ≡ 0 }
    requires numbers { pages.len / content_size pages.physical_page_size * pages.physical_page_size < 2 ^ 64 }
    requires ends { pages.len + length tip.now < 2 ^ 64 }
    requires sizes { cache.old.page_size ≡ content_size pages.physical_page_size }
    requires kept { HoldsPagesOf
        (readable C.checksum_of pages.physical_page_size (B.calls blob.old) pages.len tip.now) cache.old pages.blob_id }
    ensures bytes { IfOk result (λ bytes. bytes.items ≡ take len (drop offset
        (readable C.checksum_of pages.physical_page_size (B.calls blob.old) pages.len tip.now))) }
    ensures within { IsOk result → offset ≤ pages.len + length tip.now }
    ensures past { pages.len + length tip.now < offset
        → (result ≡ Err Error.BlobInsufficientLength) × (cache.new ≡ cache.old) }
    ensures cause { IfErr result (IsReadingCause (B.failures blob.old) pages.physical_page_size pages.len
        (pages.len + length tip.now) offset) }
    ensures kept { HoldsPagesOf
        (readable C.checksum_of pages.physical_page_size (B.calls blob.old) pages.len tip.now) cache.new pages.blob_id }
    ensures same { cache.new ≡ record cache.old { pages = cache.new.pages } }
    ensures others { KeepsOthers cache.old cache.new pages.blob_id }
    ensures calls { B.calls blob.new ≡ B.calls blob.old }
    ensures failures { B.failures blob.new ≡ failures_after result (B.failures blob.old) }
    ensures left { B.left blob.new ≤ B.left blob.old }
{
    let size = pages.len + tip.len() as u64;
    let Some(left) = size.checked_sub(offset) else {
        return Err(Error::BlobInsufficientLength);
    };
    let count = left.min(len as u64) as usize;
    read_at::<B, C>(alloc, blob, cache, pages, tip, offset, count)
}
