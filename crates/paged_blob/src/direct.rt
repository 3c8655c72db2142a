//! What is recovered of a blob, read with no writer and past the cache.

ghost use Rattle.std.specs.Prelude.{◌≡◌, ◌+◌, ◌-◌, ◌*◌, ◌/◌, ◌<◌, ◌≤◌, length, take, drop, IsFalse, IfOk, IfErr};
ghost use Rattle.paged_format.specs.Footers.{IsPageSize, content_size};
ghost use Rattle.paged_format.specs.Pages.{recovered};
ghost use Rattle.paged_blob_parts.specs.Answers.{failures_after, IsCause};
ghost use Rattle.paged_blob_parts.specs.Calls.{content, file_of};
ghost use Rattle.paged_blob_parts.specs.Chance.{page_at};
ghost use Rattle.paged_blob_parts.specs.Flushes.{physical_size};
ghost use Rattle.paged_blob_parts.specs.declared.error.CallKind.TheVariants.{Read};

use crate::writer::Writer;
use fault_storage::Checksum;
use paged_blob_parts::{Blob, Error};
use paged_format::prefix_len;
use std::alloc::Global;

// The content of a page into which what is recovered reaches.
fn shown_page<B: Blob, C: Checksum>(
    alloc: Global,
    blob: &mut B,
    physical_page_size: u32,
    page: u64,
) -> Result<Vec<u8>, Error>
    requires page { IsPageSize physical_page_size }
    requires sound { IsFalse (file_of (B.calls blob.old)).failed }
    requires reached { page * content_size physical_page_size
        < length (recovered C.checksum_of physical_page_size (content (B.calls blob.old))) }
    ensures bytes { IfOk result (λ bytes. bytes.items ≡ page_at (content_size physical_page_size) page
        (recovered C.checksum_of physical_page_size (content (B.calls blob.old)))) }
    ensures cause { IfErr result (IsCause (B.failures blob.old) Read ((page + 1) * physical_page_size)) }
    ensures calls { B.calls blob.new ≡ B.calls blob.old }
    ensures failures { B.failures blob.new ≡ failures_after result (B.failures blob.old) }
    ensures left { B.left blob.new ≤ B.left blob.old }
{
    let size = u64::from(physical_page_size);
    let Some(place) = page.checked_mul(size) else {
        return Err(Error::NumberEnded);
    };
    let mut bytes = blob.read_at(alloc, place, physical_page_size as usize)?;
    let shown = prefix_len::<C>(&bytes, physical_page_size);
    bytes.truncate(shown as usize);
    Ok(bytes)
}

impl<C: Checksum> Writer<C> {
    /// So many bytes of what is recovered of a blob from an offset on, with no writer and past the cache. It is refused
    /// only where a read of the blob is, or a number ends: F8. That so many bytes are recovered of it, and that no call
    /// of it has failed, is on the caller. In the Rust: `paged::Writer::read_range`.
    pub fn read_range<B: Blob>(
        alloc: Global,
        blob: &mut B,
        physical_page_size: u32,
        offset: u64,
        len: usize,
    ) -> Result<Vec<u8>, Error>
        requires page { IsPageSize physical_page_size }
        requires sound { IsFalse (file_of (B.calls blob.old)).failed }
        requires within { offset + len
            ≤ length (recovered C.checksum_of physical_page_size (content (B.calls blob.old))) }
        ensures bytes { IfOk result (λ bytes. bytes.items ≡ take len (drop offset
            (recovered C.checksum_of physical_page_size (content (B.calls blob.old))))) }
        ensures cause { IfErr result (IsCause (B.failures blob.old) Read
            (physical_size physical_page_size (offset + len))) }
        ensures calls { B.calls blob.new ≡ B.calls blob.old }
        ensures failures { B.failures blob.new ≡ failures_after result (B.failures blob.old) }
        ensures left { B.left blob.new ≤ B.left blob.old }
    {
        let Some(end) = offset.checked_add(len as u64) else {
            return Err(Error::NumberEnded);
        };
        let room = u64::from(physical_page_size) - 12;
        let mut bytes = Vec::new(alloc);
        let mut at = offset;
        while at < end {
            let from = (at % room) as usize;
            let page = shown_page::<B, C>(alloc, blob, physical_page_size, at / room)?;
            let count = (room as usize - from).min((end - at) as usize);
            bytes.extend_from_slice(&page[from..from + count])?;
            at += count as u64;
        }
        Ok(bytes)
    }

    /// How many bytes are recovered of a blob of so many bytes, `blob_size`, and the last of them, at most so many: it
    /// reads the last page, and those in which they stand. It is refused only where a read of the blob is, or a number
    /// ends: F8. That what is recovered reaches into the last page, and that no call of the blob has failed, is on the
    /// caller. In the Rust: `paged::Writer::read_tail`.
    pub fn read_tail<B: Blob>(
        alloc: Global,
        blob: &mut B,
        blob_size: u64,
        physical_page_size: u32,
        len: usize,
    ) -> Result<(u64, Vec<u8>), Error>
        requires page { IsPageSize physical_page_size }
        requires sound { IsFalse (file_of (B.calls blob.old)).failed }
        requires whole { blob_size ≡ length (content (B.calls blob.old)) }
        requires reached { blob_size / physical_page_size * content_size physical_page_size
            < length (recovered C.checksum_of physical_page_size (content (B.calls blob.old)))
            + content_size physical_page_size }
        ensures size { IfOk result (λ r. r.0
            ≡ length (recovered C.checksum_of physical_page_size (content (B.calls blob.old)))) }
        ensures bytes { let all = recovered C.checksum_of physical_page_size (content (B.calls blob.old)) in
            IfOk result (λ r. r.1.items ≡ drop (length all - len) all) }
        ensures cause { IfErr result (IsCause (B.failures blob.old) Read blob_size) }
        ensures calls { B.calls blob.new ≡ B.calls blob.old }
        ensures failures { B.failures blob.new ≡ failures_after result (B.failures blob.old) }
        ensures left { B.left blob.new ≤ B.left blob.old }
    {
        let size = u64::from(physical_page_size);
        let Some(last) = (blob_size / size).checked_sub(1) else {
            return Ok((0, Vec::new(alloc)));
        };
        let page = shown_page::<B, C>(alloc, blob, physical_page_size, last)?;
        let all = last * (size - 12) + page.len() as u64;
        let count = all.min(len as u64);
        let bytes = Self::read_range(alloc, blob, physical_page_size, all - count, count as usize)?;
        Ok((all, bytes))
    }
}
