//! A writer over a blob, and the calls of a line that are made on it, one after the other.

ghost use Rattle.std.specs.Prelude.{◌≡◌, ◌+◌, ◌<◌, ◌^◌, [], length, IfOk, IsFalse};
ghost use Rattle.paged_format.specs.Footers.{IsPageSize, content_size};
ghost use Rattle.paged_format.specs.Pages.{recovered};
ghost use Rattle.paged_blob_parts.specs.Calls.{content, file_of};
ghost use Rattle.paged_blob_parts.specs.CachedContent.{HoldsPagesOf};
ghost use Rattle.paged_blob_parts.specs.Writers.{IsWriter, written};

use crate::many::{
    buffer_of_items, buffer_of_ranges, items, ranges, told_missing, told_read, told_tried,
};
use crate::told::{Told, number};
use case_lines::{Unanswered, bytes, digits};
use fault_storage::Checksum;
use paged_blob::{Blob, CacheRef, Error, Recovery, Writer};
use std::alloc::{AllocError, AllocFailed, Global};
use std::num::ParseIntError;

/// Why the calls of a line end before its last.
#[derive(Drop)]
pub enum End {
    /// The line has no answer.
    Unanswered(Unanswered),
    /// A call that would have changed the writer was refused.
    Refused(Error),
}

impl From<Unanswered> for End {
    fn from(unanswered: Unanswered) -> End {
        End::Unanswered(unanswered)
    }
}

impl From<Error> for End {
    fn from(error: Error) -> End {
        End::Refused(error)
    }
}

impl From<ParseIntError> for End {
    fn from(_error: ParseIntError) -> End {
        End::Unanswered(Unanswered::BadLine)
    }
}

impl From<AllocError> for End {
    fn from(_error: AllocError) -> End {
        End::Unanswered(Unanswered::Memory)
    }
}

impl<T: Drop> From<AllocFailed<T>> for End {
    fn from(_error: AllocFailed<T>) -> End {
        End::Unanswered(Unanswered::Memory)
    }
}

/// A writer over a blob of so many bytes, and a cache that has no pages.
pub fn opened<B: Blob, C: Checksum>(
    alloc: Global,
    blob: &mut B,
    cache: &mut CacheRef,
    size: u64,
    capacity: usize,
) -> Result<Writer<C>, Error>
    requires page { IsPageSize (cache.old.page_size + 12) }
    requires sound { IsFalse (file_of (B.calls blob.old)).failed }
    requires settled { (file_of (B.calls blob.old)).changes ≡ [] }
    requires whole { size ≡ length (content (B.calls blob.old)) }
    requires empty { cache.old.pages ≡ [] }
    ensures writer { IfOk result (λ w. IsWriter C.checksum_of (B.calls blob.new) w) }
    ensures pages { IfOk result (λ w. cache.new.page_size ≡ content_size w.page_size) }
    ensures cached { IfOk result (λ w. HoldsPagesOf (written C.checksum_of (B.calls blob.new) w) cache.new w.blob_id) }
{
    Writer::<C>::new(alloc, blob, cache, size, capacity)
}

/// A writer over what a recovery leaves of a blob that is cut to so many bytes, and a cache that has no pages.
pub fn cut<B: Blob, C: Checksum>(
    recovery: Recovery<C>,
    blob: &mut B,
    cache: &mut CacheRef,
    size: u64,
) -> Result<Writer<C>, Error>
    requires page { cache.old.page_size ≡ content_size recovery.page_size }
    requires sound { IsFalse (file_of (B.calls blob.old)).failed }
    requires settled { (file_of (B.calls blob.old)).changes ≡ [] }
    requires numbers { length (content (B.calls blob.old)) < 2 ^ 64 }
    requires known { recovery.tip.offset + length recovery.tip.bytes
        ≡ length (recovered C.checksum_of recovery.page_size (content (B.calls blob.old))) }
    requires empty { cache.old.pages ≡ [] }
    ensures writer { IfOk result (λ w. IsWriter C.checksum_of (B.calls blob.new) w) }
    ensures pages { IfOk result (λ w. cache.new.page_size ≡ content_size w.page_size) }
    ensures cached { IfOk result (λ w. HoldsPagesOf (written C.checksum_of (B.calls blob.new) w) cache.new w.blob_id) }
{
    let recovery = recovery.truncate(blob, cache, size)?;
    Ok(recovery.into())
}

// The most bytes that are read into a buffer.
const MOST_READ: usize = 1 << 20;

// Reads by one of the forms, which leave the writer as it is.
fn read<B: Blob, C: Checksum>(
    alloc: Global,
    writer: &Writer<C>,
    blob: &mut B,
    cache: &mut CacheRef,
    form: &str,
    offset: u64,
    count: usize,
    told: &mut Told,
) -> Result<(), Unanswered>
    requires writer { IsWriter C.checksum_of (B.calls blob.old) writer.now }
    requires pages { cache.old.page_size ≡ content_size writer.now.page_size }
    requires cached { HoldsPagesOf (written C.checksum_of (B.calls blob.old) writer.now) cache.old writer.now.blob_id }
    ensures calls { B.calls blob.new ≡ B.calls blob.old }
    ensures pages { cache.new.page_size ≡ cache.old.page_size }
    ensures cached { HoldsPagesOf (written C.checksum_of (B.calls blob.old) writer.now) cache.new writer.now.blob_id }
{
    match form {
        "at" => told.push_bytes(alloc, writer.read_at(blob, cache, offset, count)),
        "up-to" => told.push_bytes(alloc, writer.read_up_to(blob, cache, offset, count)),
        "into" if count <= MOST_READ => {
            let mut buffer = vec![in alloc; 0u8; count]?;
            match writer.read_into(blob, cache, &mut buffer, offset) {
                Ok(()) => told.push(digits(alloc, &buffer)?.as_str()),
                Err(error) => told.push(number(error)),
            }
        }
        _ => Err(Unanswered::BadLine),
    }
}

// Reads many slices by one of the forms, which leave the writer as it is.
fn read_many<B: Blob, C: Checksum>(
    alloc: Global,
    writer: &Writer<C>,
    blob: &mut B,
    cache: &mut CacheRef,
    form: &str,
    text: &str,
    told: &mut Told,
) -> Result<(), Unanswered>
    requires writer { IsWriter C.checksum_of (B.calls blob.old) writer.now }
    requires pages { cache.old.page_size ≡ content_size writer.now.page_size }
    requires cached { HoldsPagesOf (written C.checksum_of (B.calls blob.old) writer.now) cache.old writer.now.blob_id }
    ensures calls { B.calls blob.new ≡ B.calls blob.old }
    ensures pages { cache.new.page_size ≡ cache.old.page_size }
    ensures cached { HoldsPagesOf (written C.checksum_of (B.calls blob.old) writer.now) cache.new writer.now.blob_id }
{
    match form {
        "items" => {
            let (size, offsets) = items(alloc, text)?;
            let mut out = buffer_of_items(alloc, offsets.len(), size)?;
            let answer = writer.read_many_into(blob, cache, &mut out, &offsets, size);
            told_read(alloc, told, answer, &out)
        }
        "ranges" => {
            let ranges = ranges(alloc, text)?;
            let mut out = buffer_of_ranges(alloc, &ranges)?;
            let answer = writer.read_ranges_into(blob, cache, &mut out, &ranges);
            told_read(alloc, told, answer, &out)
        }
        _ => Err(Unanswered::BadLine),
    }
}

/// Reads by one of the forms that make no call of the blob.
pub fn try_read<C: Checksum>(
    alloc: Global,
    writer: &Writer<C>,
    cache: &CacheRef,
    form: &str,
    text: &str,
    told: &mut Told,
) -> Result<(), Unanswered> {
    if form == "items" {
        let (size, offsets) = items(alloc, text)?;
        let mut out = buffer_of_items(alloc, offsets.len(), size)?;
        let answer = writer.try_read_many_sync_into(cache, &mut out, &offsets, size);
        return told_missing(alloc, told, answer);
    }
    let ranges = ranges(alloc, text)?;
    if form == "ranges" {
        let mut out = buffer_of_ranges(alloc, &ranges)?;
        let answer = writer.try_read_ranges_sync_into(cache, &mut out, &ranges);
        return told_missing(alloc, told, answer);
    }
    let (Some((offset, count)), "one") = (ranges.first(), form) else {
        return Err(Unanswered::BadLine);
    };
    let mut out = buffer_of_items(alloc, *count, 1)?;
    let is_served = writer.try_read_sync_into(cache, &mut out, *offset);
    told_tried(alloc, told, is_served, &out)
}

/// Appends bytes, lent or given away.
pub fn append<B: Blob, C: Checksum>(
    alloc: Global,
    writer: Writer<C>,
    blob: &mut B,
    cache: &mut CacheRef,
    text: &str,
    is_lent: bool,
    told: &mut Told,
) -> Result<Writer<C>, End>
    requires writer { IsWriter C.checksum_of (B.calls blob.old) writer }
    requires pages { cache.old.page_size ≡ content_size writer.page_size }
    requires cached { HoldsPagesOf (written C.checksum_of (B.calls blob.old) writer) cache.old writer.blob_id }
    ensures writer { IfOk result (λ w. IsWriter C.checksum_of (B.calls blob.new) w) }
    ensures pages { IfOk result (λ w. cache.new.page_size ≡ content_size w.page_size) }
    ensures cached { IfOk result (λ w. HoldsPagesOf (written C.checksum_of (B.calls blob.new) w) cache.new w.blob_id) }
{
    let piece = bytes(alloc, text)?;
    if is_lent {
        let (writer, size) = writer.append(blob, cache, &piece)?;
        told.push_number(alloc, size)?;
        return Ok(writer);
    }
    let (writer, size) = writer.append_owned(blob, cache, piece)?;
    told.push_number(alloc, size)?;
    Ok(writer)
}

// Makes all durable.
fn sync<B: Blob, C: Checksum>(
    writer: Writer<C>,
    blob: &mut B,
    cache: &mut CacheRef,
    told: &mut Told,
) -> Result<Writer<C>, End>
    requires writer { IsWriter C.checksum_of (B.calls blob.old) writer }
    requires pages { cache.old.page_size ≡ content_size writer.page_size }
    requires cached { HoldsPagesOf (written C.checksum_of (B.calls blob.old) writer) cache.old writer.blob_id }
    ensures writer { IfOk result (λ w. IsWriter C.checksum_of (B.calls blob.new) w) }
    ensures pages { IfOk result (λ w. cache.new.page_size ≡ content_size w.page_size) }
    ensures cached { IfOk result (λ w. HoldsPagesOf (written C.checksum_of (B.calls blob.new) w) cache.new w.blob_id) }
{
    let writer = writer.sync(blob, cache)?;
    told.push("ok")?;
    Ok(writer)
}

/// Tells what takes no call of the blob.
pub fn tell<C: Checksum>(
    alloc: Global,
    writer: &Writer<C>,
    cache: &CacheRef,
    word: &str,
    told: &mut Told,
) -> Result<(), End> {
    match word {
        "size" => told.push_number(alloc, writer.size())?,
        "needs-sync" => told.push(if writer.needs_sync() { "true" } else { "false" })?,
        "try-snapshot" => match writer.try_snapshot() {
            Ok(Some(sealed)) => told.push_number(alloc, sealed.size())?,
            Ok(None) => told.push("none")?,
            Err(error) => told.push(number(error))?,
        },
        word => match cache.page(1, word.parse()?) {
            Some(page) => told.push(digits(alloc, page)?.as_str())?,
            None => told.push("none")?,
        },
    }
    Ok(())
}

/// Makes the calls of a line on a writer, until one that would have changed it is refused.
pub fn play<B: Blob, C: Checksum>(
    alloc: Global,
    writer: Writer<C>,
    blob: &mut B,
    cache: &mut CacheRef,
    words: &[&str],
    told: &mut Told,
) -> Result<(), End>
    requires writer { IsWriter C.checksum_of (B.calls blob.old) writer }
    requires pages { cache.old.page_size ≡ content_size writer.page_size }
    requires cached { HoldsPagesOf (written C.checksum_of (B.calls blob.old) writer) cache.old writer.blob_id }
{
    match words {
        [] => Ok(()),
        ["append", text, rest @ ..] => {
            let writer = append(alloc, writer, blob, cache, text, true, told)?;
            play(alloc, writer, blob, cache, rest, told)
        }
        ["append-owned", text, rest @ ..] => {
            let writer = append(alloc, writer, blob, cache, text, false, told)?;
            play(alloc, writer, blob, cache, rest, told)
        }
        ["sync", rest @ ..] => {
            let writer = sync(writer, blob, cache, told)?;
            play(alloc, writer, blob, cache, rest, told)
        }
        ["read", form, offset, count, rest @ ..] => {
            let (offset, count) = (offset.parse()?, count.parse()?);
            read(alloc, &writer, blob, cache, form, offset, count, told)?;
            play(alloc, writer, blob, cache, rest, told)
        }
        ["read-many", form, text, rest @ ..] => {
            read_many(alloc, &writer, blob, cache, form, text, told)?;
            play(alloc, writer, blob, cache, rest, told)
        }
        ["try", form, text, rest @ ..] => {
            try_read(alloc, &writer, cache, form, text, told)?;
            play(alloc, writer, blob, cache, rest, told)
        }
        ["kept", page, rest @ ..] => {
            tell(alloc, &writer, cache, page, told)?;
            play(alloc, writer, blob, cache, rest, told)
        }
        [word, rest @ ..] => {
            tell(alloc, &writer, cache, word, told)?;
            play(alloc, writer, blob, cache, rest, told)
        }
    }
}

/// Appends to a new writer's buffer alone, bytes and numbers by turns, as long as there is room.
pub fn try_appends<C: Checksum>(
    alloc: Global,
    writer: Writer<C>,
    words: &[&str],
    told: &mut Told,
) -> Result<Writer<C>, Unanswered> {
    let mut writer = writer;
    for pair in words.chunks(2) {
        match pair {
            ["bytes", text] => {
                let piece = bytes(alloc, text)?;
                told.push_option(alloc, writer.try_append(&piece))?;
            }
            ["value", value] => {
                let value: u64 = value.parse()?;
                told.push_option(alloc, writer.try_append_value(&value))?;
            }
            _ => return Err(Unanswered::BadLine),
        }
    }
    Ok(writer)
}
