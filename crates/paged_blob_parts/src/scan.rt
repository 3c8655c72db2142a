//! The prefix that is recovered of a blob, found page by page.

ghost use Rattle.std.specs.Prelude.{◌≡◌, ◌≤◌, min, IsFalse, IfOk, IfErr};
ghost use Rattle.paged_format.specs.Footers.{IsPageSize};
ghost use Rattle.paged_blob_parts.specs.Calls.{file_of};
ghost use Rattle.paged_blob_parts.specs.Answers.{failures_after, IsReadCause};
ghost use Rattle.paged_blob_parts.specs.Scans.{recoverable, AreProven};

use crate::blob::Blob;
use crate::error::Error;
use fault_storage::Checksum;
use paged_format::prefix_len;
use std::alloc::Global;

/// How many bytes of content are recovered of the first `blob_size` bytes of a blob, as `prefix_len` says. It reads as
/// many whole pages at once as a buffer of so many bytes has room for, one at least. It is refused where a read is.
/// That so many bytes of content, `proven`, are among them is on the caller: their whole pages are not read again.
/// In the Rust: `paged::Writer::recoverable_prefix_len`.
pub fn prefix_of_blob<B: Blob, C: Checksum>(
    alloc: Global,
    blob: &mut B,
    physical_page_size: u32,
    blob_size: u64,
    proven: u64,
    buffer_size: usize,
) -> Result<u64, Error>
    requires page { IsPageSize physical_page_size }
    requires proven { AreProven C.checksum_of physical_page_size (B.calls blob.old) blob_size proven }
    ensures exact { IsFalse (file_of (B.calls blob.old)).failed
        → IfOk result (λ len. len ≡ recoverable C.checksum_of physical_page_size (B.calls blob.old) blob_size) }
    ensures cause { IfErr result (IsReadCause (B.failures blob.old) (file_of (B.calls blob.old)) 0 blob_size) }
    ensures calls { B.calls blob.new ≡ B.calls blob.old }
    ensures failures { B.failures blob.new ≡ failures_after result (B.failures blob.old) }
    ensures left { B.left blob.new ≤ B.left blob.old }
{
    prefix_of_blob_at_most::<B, C>(
        alloc,
        blob,
        physical_page_size,
        blob_size,
        proven,
        u64::MAX,
        buffer_size,
    )
}

/// The same, or `max_size` where that is less: it stops once it has found so many.
/// In the Rust: `paged::Writer::recoverable_prefix_len_at_most`.
pub fn prefix_of_blob_at_most<B: Blob, C: Checksum>(
    alloc: Global,
    blob: &mut B,
    physical_page_size: u32,
    blob_size: u64,
    proven: u64,
    max_size: u64,
    buffer_size: usize,
) -> Result<u64, Error>
    requires page { IsPageSize physical_page_size }
    requires proven { AreProven C.checksum_of physical_page_size (B.calls blob.old) blob_size proven }
    ensures exact { IsFalse (file_of (B.calls blob.old)).failed
        → IfOk result (λ len. len
        ≡ min max_size (recoverable C.checksum_of physical_page_size (B.calls blob.old) blob_size)) }
    ensures cause { IfErr result (IsReadCause (B.failures blob.old) (file_of (B.calls blob.old)) 0 blob_size) }
    ensures calls { B.calls blob.new ≡ B.calls blob.old }
    ensures failures { B.failures blob.new ≡ failures_after result (B.failures blob.old) }
    ensures left { B.left blob.new ≤ B.left blob.old }
{
    let size = u64::from(physical_page_size);
    let room = size - 12;
    let batch = (buffer_size as u64 / size).max(1);
    let pages = blob_size / size;
    let mut page = (proven / room).min(pages);
    while page < pages && page * room < max_size {
        let count = batch.min(pages - page);
        let bytes = blob.read_at(alloc, page * size, (count * size) as usize)?;
        let shown = prefix_len::<C>(&bytes, physical_page_size);
        if shown < count * room {
            return Ok((page * room + shown).min(max_size));
        }
        page += count;
    }
    Ok((page * room).min(max_size))
}
