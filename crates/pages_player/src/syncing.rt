//! Syncs of a writer that are started, and the calls of a line that are made while one is under way.

ghost use Rattle.std.specs.Prelude.{◌≡◌, ◌+◌, [], length, IfOk, IsFalse};
ghost use Rattle.paged_format.specs.Footers.{IsPageSize, content_size};
ghost use Rattle.paged_blob_parts.specs.CachedContent.{HoldsPagesOf};
ghost use Rattle.paged_blob_parts.specs.Calls.{content, file_of};
ghost use Rattle.paged_blob_parts.specs.Stands.{Stand, pages_of};
ghost use Rattle.paged_blob.specs.Syncs.{IsUnderWay};
ghost use Rattle.paged_blob_parts.specs.Writers.{IsWriter, written};

use crate::told::Told;
use crate::writers::{self, End};
use case_lines::{Unanswered, bytes};
use fault_storage::{Checksum, Crc32};
use paged_blob::{Blob, CacheRef, Writer, WriterSync};
use std::alloc::Global;

// Waits for the sync.
fn wait<B: Blob, C: Checksum>(
    writer: Writer<C>,
    sync: WriterSync,
    blob: &B,
    cache: &mut CacheRef,
    told: &mut Told,
) -> Result<Writer<C>, End>
    requires under_way { IsUnderWay C.checksum_of (B.calls blob.now) writer sync }
    requires pages { cache.old.page_size ≡ content_size writer.page_size }
    requires cached { HoldsPagesOf (written C.checksum_of (B.calls blob.now) writer) cache.old writer.blob_id }
    ensures writer { IfOk result (λ w. IsWriter C.checksum_of (B.calls blob.now) w) }
    ensures pages { IfOk result (λ w. cache.new.page_size ≡ content_size w.page_size) }
    ensures cached { IfOk result (λ w. HoldsPagesOf (written C.checksum_of (B.calls blob.now) w) cache.new w.blob_id) }
{
    let writer = writer.wait_for_sync(blob, cache, sync)?;
    told.push("ok")?;
    Ok(writer)
}

// Takes bytes into the writer's buffer, if there is room.
fn take<B: Blob, C: Checksum>(
    alloc: Global,
    writer: Writer<C>,
    _sync: &WriterSync,
    _blob: &B,
    _cache: &CacheRef,
    text: &str,
    told: &mut Told,
) -> Result<Writer<C>, Unanswered>
    requires under_way { IsUnderWay C.checksum_of (B.calls _blob.now) writer _sync.now }
    requires cached { HoldsPagesOf (written C.checksum_of (B.calls _blob.now) writer) _cache.now writer.blob_id }
    ensures under_way { IfOk result (λ w. IsUnderWay C.checksum_of (B.calls _blob.now) w _sync.now) }
    ensures cached { IfOk result (λ w. HoldsPagesOf (written C.checksum_of (B.calls _blob.now) w) _cache.now
        w.blob_id) }
    ensures size { IfOk result (λ w. w.page_size ≡ writer.page_size) }
{
    let mut writer = writer;
    let piece = bytes(alloc, text)?;
    told.push_option(alloc, writer.try_append(&piece))?;
    Ok(writer)
}

// Reads so many bytes of the list, which is lent.
fn view<B: Blob, C: Checksum>(
    alloc: Global,
    writer: &Writer<C>,
    blob: &mut B,
    cache: &mut CacheRef,
    offset: u64,
    count: usize,
    told: &mut Told,
) -> Result<(), Unanswered>
    requires stand { Stand C.checksum_of (B.calls blob.old) (pages_of writer.now) }
    requires pages { cache.old.page_size ≡ content_size writer.now.page_size }
    requires cached { HoldsPagesOf (written C.checksum_of (B.calls blob.old) writer.now) cache.old writer.now.blob_id }
    ensures calls { B.calls blob.new ≡ B.calls blob.old }
    ensures pages { cache.new.page_size ≡ cache.old.page_size }
    ensures cached { HoldsPagesOf (written C.checksum_of (B.calls blob.old) writer.now) cache.new writer.now.blob_id }
{
    told.push_bytes(alloc, writer.view().read_at(blob, cache, offset, count))
}

// Makes the calls of a line while a sync is under way, and after it is waited for those of a writer.
fn play<B: Blob, C: Checksum>(
    alloc: Global,
    writer: Writer<C>,
    sync: WriterSync,
    blob: &mut B,
    cache: &mut CacheRef,
    words: &[&str],
    told: &mut Told,
) -> Result<(), End>
    requires under_way { IsUnderWay C.checksum_of (B.calls blob.old) writer sync }
    requires pages { cache.old.page_size ≡ content_size writer.page_size }
    requires cached { HoldsPagesOf (written C.checksum_of (B.calls blob.old) writer) cache.old writer.blob_id }
{
    match words {
        [] => Ok(()),
        ["wait", rest @ ..] => {
            let writer = wait(writer, sync, blob, cache, told)?;
            writers::play(alloc, writer, blob, cache, rest, told)
        }
        ["covered", rest @ ..] => {
            told.push_number(alloc, sync.size())?;
            play(alloc, writer, sync, blob, cache, rest, told)
        }
        ["try-append", text, rest @ ..] => {
            let writer = take(alloc, writer, &sync, blob, cache, text, told)?;
            play(alloc, writer, sync, blob, cache, rest, told)
        }
        ["view", offset, count, rest @ ..] => {
            let (offset, count) = (offset.parse()?, count.parse()?);
            view(alloc, &writer, blob, cache, offset, count, told)?;
            play(alloc, writer, sync, blob, cache, rest, told)
        }
        ["try", form, text, rest @ ..] => {
            writers::try_read(alloc, &writer, cache, form, text, told)?;
            play(alloc, writer, sync, blob, cache, rest, told)
        }
        ["kept", page, rest @ ..] => {
            writers::tell(alloc, &writer, cache, page, told)?;
            play(alloc, writer, sync, blob, cache, rest, told)
        }
        [word, rest @ ..] => {
            writers::tell(alloc, &writer, cache, word, told)?;
            play(alloc, writer, sync, blob, cache, rest, told)
        }
    }
}

/// Makes a writer over a blob of so many bytes, appends bytes, starts a sync, and makes the calls of a line.
pub fn start<B: Blob>(
    alloc: Global,
    blob: &mut B,
    cache: &mut CacheRef,
    size: u64,
    capacity: usize,
    first: &str,
    words: &[&str],
    told: &mut Told,
) -> Result<(), End>
    requires page { IsPageSize (cache.old.page_size + 12) }
    requires sound { IsFalse (file_of (B.calls blob.old)).failed }
    requires settled { (file_of (B.calls blob.old)).changes ≡ [] }
    requires whole { size ≡ length (content (B.calls blob.old)) }
    requires empty { cache.old.pages ≡ [] }
{
    let writer = writers::opened::<B, Crc32>(alloc, blob, cache, size, capacity)?;
    let writer = writers::append(alloc, writer, blob, cache, first, true, told)?;
    let (writer, sync) = writer.start_sync(blob)?;
    play(alloc, writer, sync, blob, cache, words, told)
}
