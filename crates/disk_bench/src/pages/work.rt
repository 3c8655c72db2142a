//! What is measured, once. Each answers a number that depends on what was computed, 0 where it was refused.

ghost use Rattle.std.specs.Prelude.{◌≡◌, IfOk};
ghost use Rattle.paged_format.specs.Footers.{content_size};
ghost use Rattle.paged_blob_parts.specs.CachedContent.{HoldsPagesOf};
ghost use Rattle.paged_blob_parts.specs.Writers.{IsWriter, written};

use fault_storage::{Checksum, Crc32};
use paged_blob::{Blob, CacheRef, Error, Writer};
use std::alloc::Global;
use undo_disk::UndoDisk;

// How many bytes of content a page of 4096 bytes has.
const ROOM: usize = 4084;

// After how many pieces of 100 bytes there is a sync: about a MiB.
const PIECES: usize = 10_486;

// Appends a piece, and syncs where that is asked for.
fn append_one<B: Blob, C: Checksum>(
    writer: Writer<C>,
    disk: &mut B,
    cache: &mut CacheRef,
    piece: &[u8],
    is_last: bool,
) -> Result<Writer<C>, Error>
    requires writer { IsWriter C.checksum_of (B.calls disk.old) writer }
    requires pages { cache.old.page_size ≡ content_size writer.page_size }
    requires cached { HoldsPagesOf (written C.checksum_of (B.calls disk.old) writer) cache.old writer.blob_id }
    ensures writer { IfOk result (λ w. IsWriter C.checksum_of (B.calls disk.new) w) }
    ensures pages { IfOk result (λ w. cache.new.page_size ≡ content_size w.page_size) }
    ensures cached { IfOk result (λ w. HoldsPagesOf (written C.checksum_of (B.calls disk.new) w) cache.new w.blob_id) }
{
    let (writer, _) = writer.append(disk, cache, piece)?;
    if !is_last {
        return Ok(writer);
    }
    writer.sync(disk, cache)
}

/// Appends so many pieces, with a sync after each MiB.
pub fn append_pieces<B: Blob, C: Checksum>(
    writer: Writer<C>,
    disk: &mut B,
    cache: &mut CacheRef,
    count: usize,
) -> Result<Writer<C>, Error>
    requires writer { IsWriter C.checksum_of (B.calls disk.old) writer }
    requires pages { cache.old.page_size ≡ content_size writer.page_size }
    requires cached { HoldsPagesOf (written C.checksum_of (B.calls disk.old) writer) cache.old writer.blob_id }
    ensures writer { IfOk result (λ w. IsWriter C.checksum_of (B.calls disk.new) w) }
    ensures pages { IfOk result (λ w. cache.new.page_size ≡ content_size w.page_size) }
    ensures cached { IfOk result (λ w. HoldsPagesOf (written C.checksum_of (B.calls disk.new) w) cache.new w.blob_id) }
{
    let piece = [7; 100];
    let mut writer = writer;
    for k in 0..count {
        writer = append_one(writer, disk, cache, &piece, k % PIECES == PIECES - 1)?;
    }
    writer.sync(disk, cache)
}

// So many bytes, appended and synced on a new disk, which has room for them.
fn try_append(alloc: Global, size: usize) -> Result<u64, Error> {
    let mut disk = UndoDisk::with_capacity(alloc, size.saturating_add(size >> 7))?;
    let mut cache = CacheRef::new(alloc, 4084, 16);
    let writer = Writer::<Crc32>::new(alloc, &mut disk, &mut cache, 0, 1 << 16)?;
    let writer = append_pieces(writer, &mut disk, &mut cache, size / 100)?;
    Ok(writer.size())
}

/// So many bytes, appended in pieces of 100 and synced each MiB: how many there are.
pub fn appended(alloc: Global, size: usize) -> u64 {
    try_append(alloc, size).unwrap_or(0)
}

/// The checksums of the pages of so many bytes, no two of which are equal, and one copy of these.
pub fn summed_and_copied(alloc: Global, size: usize, round: u64) -> u64 {
    let Ok(mut copied) = Vec::with_capacity(alloc, size) else {
        return 0;
    };
    let mut page = [7; ROOM];
    let mut sum = round;
    for k in 0..size / ROOM {
        page[0] = (k % 256) as u8;
        page[1] = (sum % 256) as u8;
        sum = sum.rotate_left(1) ^ u64::from(Crc32::checksum(&page));
        let _ = copied.extend_from_slice(&page);
    }
    sum ^ copied.len() as u64
}

/// Reads so many times 25 bytes of the last page but one.
pub fn read_often<B: Blob, C: Checksum>(
    writer: &Writer<C>,
    disk: &mut B,
    cache: &mut CacheRef,
    count: u64,
) -> u64
    requires writer { IsWriter C.checksum_of (B.calls disk.old) writer.now }
    requires pages { cache.old.page_size ≡ content_size writer.now.page_size }
    requires cached { HoldsPagesOf (written C.checksum_of (B.calls disk.old) writer.now) cache.old writer.now.blob_id }
{
    let mut buffer = [0; 25];
    let offset = writer.size().saturating_sub(8000);
    let mut sum = 0u64;
    for _ in 0..count {
        if writer.read_into(disk, cache, &mut buffer, offset).is_ok() {
            sum = sum.rotate_left(1) ^ u64::from(buffer[0]);
        }
    }
    sum
}

// So many bytes on a new disk, of which 25 are read so many times.
fn try_read(alloc: Global, size: usize, count: u64) -> Result<u64, Error> {
    let mut disk = UndoDisk::with_capacity(alloc, size.saturating_add(size >> 7))?;
    let mut cache = CacheRef::new(alloc, 4084, 16);
    let writer = Writer::<Crc32>::new(alloc, &mut disk, &mut cache, 0, 1 << 16)?;
    let writer = append_pieces(writer, &mut disk, &mut cache, size / 100)?;
    Ok(read_often(&writer, &mut disk, &mut cache, count))
}

/// So many bytes on a new disk, of which 25 are read so many times.
pub fn read(alloc: Global, size: usize, count: u64) -> u64 {
    try_read(alloc, size, count).unwrap_or(0)
}
