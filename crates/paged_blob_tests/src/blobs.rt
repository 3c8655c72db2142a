//! Reads of pages and a tip, and crashes at each moment of writers.

ghost use Rattle.std.specs.Prelude.{◌≡◌, ◌+◌, [], IfOk};
ghost use Rattle.paged_format.specs.Footers.{IsPageSize, content_size};
ghost use Rattle.paged_blob_parts.specs.CachedContent.{HoldsPagesOf};
ghost use Rattle.paged_blob_parts.specs.Writers.{IsWriter, written};

mod explorer;

use fault_storage::{Checksum, Crc32};
use merkle_forest::codec::Encode;
use paged_blob::bench::MemoryDisk;
use paged_blob::blob::Blob;
use paged_blob::cache::CacheRef;
use paged_blob::error::Error;
use paged_blob::read::{FlushedPages, read_at, read_up_to};
use paged_blob::scan::prefix_of_blob;
use paged_blob::writer::Writer;
use paged_format::Footer;
use std::alloc::Global;
use std::test::Fail;

// A writer over a blob of which no call was made, and a cache that has no pages, with a buffer of so many bytes.
fn started<B: Blob, C: Checksum>(
    alloc: Global,
    blob: &mut B,
    cache: &mut CacheRef,
    capacity: usize,
) -> Result<Writer<C>, Error>
    requires page { IsPageSize (cache.old.page_size + 12) }
    requires none { B.calls blob.old ≡ [] }
    requires empty { cache.old.pages ≡ [] }
    ensures writer { IfOk result (λ w. IsWriter C.checksum_of (B.calls blob.new) w) }
    ensures pages { IfOk result (λ w. cache.new.page_size ≡ content_size w.page_size) }
    ensures cached { IfOk result (λ w. HoldsPagesOf (written C.checksum_of (B.calls blob.new) w) cache.new w.blob_id) }
{
    Writer::<C>::new(alloc, blob, cache, 0, capacity)
}

// A page of 64 bytes whose slots say these lengths, each with its checksum; 0 stands for a slot of zeros.
fn page_of(alloc: Global, first: u16, second: u16) -> Result<Vec<u8>, Fail> {
    let mut page = Vec::new(alloc);
    for k in 0..52 {
        page.push(k)?;
    }
    let footer = Footer {
        len1: first,
        crc1: sum_of(&page, first),
        len2: second,
        crc2: sum_of(&page, second),
    };
    page.extend_from_slice(&footer.encode(alloc)?)?;
    Ok(page)
}

fn sum_of(page: &[u8], len: u16) -> u32 {
    if len == 0 {
        return 0;
    }
    Crc32::checksum(page.get(..len as usize).unwrap_or(page))
}

// Pages one after the other.
fn pages_of(alloc: Global, slots: &[(u16, u16)]) -> Result<Vec<u8>, Fail> {
    let mut bytes = Vec::new(alloc);
    for (first, second) in slots {
        bytes.extend_from_slice(&page_of(alloc, *first, *second)?)?;
    }
    Ok(bytes)
}

// What is read of a page that is on the disk and of a tip behind it: past the end, up to it, over both, and of a page
// that is kept by then.
fn read_of_both(alloc: Global) -> Result<bool, Fail> {
    let mut disk = MemoryDisk::showing(alloc, pages_of(alloc, &[(52, 0)])?)?;
    let mut cache = CacheRef::new(alloc, 52, 2);
    let blob_id = cache.next_id()?;
    let size = disk.as_bytes().len() as u64;
    let len = prefix_of_blob::<MemoryDisk, Crc32>(alloc, &mut disk, 64, size, 0, 64)?;
    if len != 52 {
        return Ok(false);
    }
    let pages = FlushedPages {
        physical_page_size: 64,
        blob_id,
        len,
    };
    let tip = [52, 53, 54, 55, 56, 57, 58, 59];
    let past = read_at::<MemoryDisk, Crc32>(alloc, &mut disk, &mut cache, pages, &tip, 60, 1);
    let last = read_up_to::<MemoryDisk, Crc32>(alloc, &mut disk, &mut cache, pages, &tip, 56, 10)?;
    let both = read_at::<MemoryDisk, Crc32>(alloc, &mut disk, &mut cache, pages, &tip, 50, 4)?;
    let kept = read_at::<MemoryDisk, Crc32>(alloc, &mut disk, &mut cache, pages, &tip, 7, 2)?;
    Ok(
        past.err() == Some(Error::BlobInsufficientLength)
            && last.as_slice() == [56, 57, 58, 59].as_slice()
            && both.as_slice() == [50, 51, 52, 53].as_slice()
            && cache.page(blob_id, 0).map(|page| page.len()) == Some(52)
            && kept.as_slice() == [7, 8].as_slice(),
    )
}

#[test]
fn reads_pages_and_the_tip_behind_them(rt: HostRuntime) -> Result<(), Fail> {
    assert!(rt; read_of_both(rt.alloc())?);
    Ok(())
}
