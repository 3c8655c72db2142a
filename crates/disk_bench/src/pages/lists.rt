//! What is measured of lists that are lent, sealed and replayed. Each answers a number that depends on what was
//! computed, 0 where it was refused.

ghost use Rattle.std.specs.Prelude.{◌≡◌};
ghost use Rattle.paged_format.specs.Footers.{content_size};
ghost use Rattle.paged_blob_parts.specs.CachedContent.{HoldsPagesOf};
ghost use Rattle.paged_blob_parts.specs.Reads.{ServesPages};
ghost use Rattle.paged_blob_parts.specs.Stands.{Stand, on_blob};
ghost use Rattle.paged_blob_parts.specs.Writers.{IsWriter, written};

use crate::pages::work::{append_pieces, read_often};
use fault_storage::{Checksum, Crc32};
use paged_blob::{Blob, CacheRef, Error, Replay, Sealed, View, Writer};
use paged_format::prefix_len;
use std::alloc::Global;
use undo_disk::UndoDisk;

// How many bytes a replay reads at once.
const BUFFER: usize = 1 << 20;

// Takes all that a replay reads, and sums the first bytes of its pieces and how long they are.
fn replay_all<B: Blob, C: Checksum>(replay: Replay<C>, disk: &mut B, most: usize) -> u64
    requires { Stand C.checksum_of (B.calls disk.old) replay.sealed.pages }
    ensures { B.calls disk.new ≡ B.calls disk.old }
{
    let mut replay = replay;
    let mut sum = 0u64;
    for _ in 0..most {
        if !replay.ensure(disk, 1).unwrap_or(false) {
            return sum;
        }
        let count = replay.remaining();
        if let [first, ..] = replay.chunk() {
            sum = sum.rotate_left(1) ^ u64::from(*first) ^ count as u64;
        }
        replay.advance(count);
    }
    sum
}

// Replays a list so many times.
fn replay_often<B: Blob, C: Checksum>(
    sealed: &Sealed<C>,
    disk: &mut B,
    most: usize,
    times: u64,
) -> Result<u64, Error>
    requires { Stand C.checksum_of (B.calls disk.old) sealed.now.pages }
{
    let mut sum = 0u64;
    for _ in 0..times {
        let replay = sealed.replay(BUFFER)?;
        sum = sum.rotate_left(1) ^ replay_all(replay, disk, most);
    }
    Ok(sum)
}

// Reads so many pages, and checks each: how many bytes of content they have.
fn check_all<B: Blob, C: Checksum>(alloc: Global, disk: &mut B, pages: u64) -> u64 {
    let mut sum = 0u64;
    for page in 0..pages {
        if let Ok(bytes) = disk.read_at(alloc, page.saturating_mul(4096), 4096) {
            sum = sum.wrapping_add(prefix_len::<C>(&bytes, 4096));
        }
    }
    sum
}

// So many bytes on a new disk, replayed so many times.
fn try_replay(alloc: Global, size: usize, times: u64) -> Result<u64, Error> {
    let mut disk = UndoDisk::with_capacity(alloc, size.saturating_add(size >> 7))?;
    let mut cache = CacheRef::new(alloc, 4084, 16);
    let writer = Writer::<Crc32>::new(alloc, &mut disk, &mut cache, 0, 1 << 16)?;
    let writer = append_pieces(writer, &mut disk, &mut cache, size / 100)?;
    let sealed = writer.seal(&mut disk, &mut cache)?;
    replay_often(&sealed, &mut disk, size, times)
}

/// So many bytes on a new disk, replayed so many times.
pub fn replayed(alloc: Global, size: usize, times: u64) -> u64 {
    try_replay(alloc, size, times).unwrap_or(0)
}

// So many bytes on a new disk, whose pages are read and checked so many times.
fn try_check(alloc: Global, size: usize, times: u64) -> Result<u64, Error> {
    let mut disk = UndoDisk::with_capacity(alloc, size.saturating_add(size >> 7))?;
    let mut cache = CacheRef::new(alloc, 4084, 16);
    let writer = Writer::<Crc32>::new(alloc, &mut disk, &mut cache, 0, 1 << 16)?;
    let _writer = append_pieces(writer, &mut disk, &mut cache, size / 100)?;
    let mut sum = 0u64;
    for _ in 0..times {
        sum = sum.wrapping_add(check_all::<UndoDisk, Crc32>(
            alloc,
            &mut disk,
            (size / 4084) as u64,
        ));
    }
    Ok(sum)
}

/// So many bytes on a new disk, whose pages are read and checked so many times.
pub fn checked(alloc: Global, size: usize, times: u64) -> u64 {
    try_check(alloc, size, times).unwrap_or(0)
}

// Reads so many times 25 bytes of the last page but one of a list.
fn view_often<B: Blob, C: Checksum>(
    view: View<'_, C>,
    disk: &mut B,
    cache: &mut CacheRef,
    count: u64,
) -> u64
    requires stand { Stand C.checksum_of (B.calls disk.old) view.pages }
    requires pages { cache.old.page_size ≡ content_size view.pages.physical_page_size }
    requires cached { ServesPages (on_blob C.checksum_of (B.calls disk.old) view.pages) cache.old view.pages.blob_id }
{
    let mut buffer = [0; 25];
    let offset = view.size().saturating_sub(8000);
    let mut sum = 0u64;
    for _ in 0..count {
        if view.read_into(disk, cache, &mut buffer, offset).is_ok() {
            sum = sum.rotate_left(1) ^ u64::from(buffer[0]);
        }
    }
    sum
}

// So it does of the list of a writer, which is lent.
fn view_writer<B: Blob, C: Checksum>(
    writer: &Writer<C>,
    disk: &mut B,
    cache: &mut CacheRef,
    count: u64,
) -> u64
    requires writer { IsWriter C.checksum_of (B.calls disk.old) writer.now }
    requires pages { cache.old.page_size ≡ content_size writer.now.page_size }
    requires cached { HoldsPagesOf (written C.checksum_of (B.calls disk.old) writer.now) cache.old writer.now.blob_id }
{
    let _size = writer.size();
    view_often(writer.view(), disk, cache, count)
}

// So many bytes on a new disk, of which 25 are read so many times, by the writer or by a view of its list.
fn try_view(alloc: Global, size: usize, count: u64, is_view: bool) -> Result<u64, Error> {
    let mut disk = UndoDisk::with_capacity(alloc, size.saturating_add(size >> 7))?;
    let mut cache = CacheRef::new(alloc, 4084, 16);
    let writer = Writer::<Crc32>::new(alloc, &mut disk, &mut cache, 0, 1 << 16)?;
    let writer = append_pieces(writer, &mut disk, &mut cache, size / 100)?;
    if is_view {
        return Ok(view_writer(&writer, &mut disk, &mut cache, count));
    }
    Ok(read_often(&writer, &mut disk, &mut cache, count))
}

/// So many bytes on a new disk, of which 25 are read so many times, by the writer or by a view of its list.
pub fn viewed(alloc: Global, size: usize, count: u64, is_view: bool) -> u64 {
    try_view(alloc, size, count, is_view).unwrap_or(0)
}

// So many bytes on a new disk, of which so many snapshots are taken.
fn try_snap(alloc: Global, size: usize, count: u64) -> Result<u64, Error> {
    let mut disk = UndoDisk::with_capacity(alloc, size.saturating_add(size >> 7))?;
    let mut cache = CacheRef::new(alloc, 4084, 16);
    let writer = Writer::<Crc32>::new(alloc, &mut disk, &mut cache, 0, 1 << 16)?;
    let writer = append_pieces(writer, &mut disk, &mut cache, size / 100)?;
    let mut sum = 0u64;
    for _ in 0..count {
        if let Some(sealed) = writer.try_snapshot()? {
            sum = sum.wrapping_add(sealed.size());
        }
    }
    Ok(sum)
}

/// So many bytes on a new disk, of which so many snapshots are taken.
pub fn snapped(alloc: Global, size: usize, count: u64) -> u64 {
    try_snap(alloc, size, count).unwrap_or(0)
}

/// A page of content, copied so many times.
pub fn copied(alloc: Global, count: u64) -> u64 {
    let page = [7; 4084];
    let mut sum = 0u64;
    for _ in 0..count {
        if let Ok(copy) = page.to_vec(alloc) {
            sum = sum.rotate_left(1) ^ copy.len() as u64;
        }
    }
    sum
}
