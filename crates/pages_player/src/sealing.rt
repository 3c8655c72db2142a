//! Lists that are sealed, and replays of them.

ghost use Rattle.std.specs.Prelude.{◌≡◌, ◌+◌, ◌<◌, ◌^◌, [], length, IfOk, IsFalse};
ghost use Rattle.paged_format.specs.Footers.{content_size};
ghost use Rattle.paged_blob_parts.specs.CachedContent.{HoldsPagesOf};
ghost use Rattle.paged_blob_parts.specs.Calls.{content, file_of};
ghost use Rattle.paged_format.specs.Pages.{recovered};
ghost use Rattle.paged_blob_parts.specs.Reads.{ServesPages};
ghost use Rattle.paged_blob_parts.specs.Stands.{Stand, on_blob};
ghost use Rattle.paged_blob_parts.specs.Writers.{IsWriter, written};

use crate::many::{
    buffer_of_items, buffer_of_ranges, items, ranges, told_missing, told_read, told_tried,
};
use crate::told::{Told, number};
use case_lines::{Unanswered, digits};
use fault_storage::Checksum;
use paged_blob::sealed::a_sealed_list_stays;
use paged_blob::{Blob, CacheRef, Error, Recovery, Replay, Sealed, Writer};
use std::alloc::Global;

// Appends bytes and takes a snapshot, whose writer then goes on by more bytes and a sync, which may be refused.
fn snapshot<B: Blob, C: Checksum>(
    writer: Writer<C>,
    blob: &mut B,
    cache: &mut CacheRef,
    first: &[u8],
    more: &[u8],
) -> Result<Sealed<C>, Error>
    requires writer { IsWriter C.checksum_of (B.calls blob.old) writer }
    requires pages { cache.old.page_size ≡ content_size writer.page_size }
    requires cached { HoldsPagesOf (written C.checksum_of (B.calls blob.old) writer) cache.old writer.blob_id }
    ensures stand { IfOk result (λ s. Stand C.checksum_of (B.calls blob.new) s.pages) }
    ensures pages { IfOk result (λ s. cache.new.page_size ≡ content_size s.pages.physical_page_size) }
    ensures serves { IfOk result (λ s. ServesPages (on_blob C.checksum_of (B.calls blob.new) s.pages) cache.new
        s.pages.blob_id) }
{
    a_sealed_list_stays();
    let (begun, _size) = writer.append(blob, cache, first)?;
    let (going, sealed) = begun.snapshot(blob, cache)?;
    let (longer, _size) = going.append(blob, cache, more)?;
    let _synced = longer.sync(blob, cache);
    Ok(sealed)
}

// Appends bytes and seals the list.
fn sealed<B: Blob, C: Checksum>(
    writer: Writer<C>,
    blob: &mut B,
    cache: &mut CacheRef,
    first: &[u8],
) -> Result<Sealed<C>, Error>
    requires writer { IsWriter C.checksum_of (B.calls blob.old) writer }
    requires pages { cache.old.page_size ≡ content_size writer.page_size }
    requires cached { HoldsPagesOf (written C.checksum_of (B.calls blob.old) writer) cache.old writer.blob_id }
    ensures stand { IfOk result (λ s. Stand C.checksum_of (B.calls blob.new) s.pages) }
    ensures pages { IfOk result (λ s. cache.new.page_size ≡ content_size s.pages.physical_page_size) }
    ensures serves { IfOk result (λ s. ServesPages (on_blob C.checksum_of (B.calls blob.new) s.pages) cache.new
        s.pages.blob_id) }
{
    let (writer, _size) = writer.append(blob, cache, first)?;
    writer.seal(blob, cache)
}

/// What a writer's list is sealed as: a snapshot, where there are more bytes by which the writer goes on.
pub fn sealed_of<B: Blob, C: Checksum>(
    writer: Result<Writer<C>, Error>,
    blob: &mut B,
    cache: &mut CacheRef,
    first: &[u8],
    more: Option<&[u8]>,
) -> Result<Sealed<C>, Error>
    requires writer { IfOk writer (λ w. IsWriter C.checksum_of (B.calls blob.old) w) }
    requires pages { IfOk writer (λ w. cache.old.page_size ≡ content_size w.page_size) }
    requires cached { IfOk writer (λ w. HoldsPagesOf (written C.checksum_of (B.calls blob.old) w) cache.old w.blob_id) }
    ensures stand { IfOk result (λ s. Stand C.checksum_of (B.calls blob.new) s.pages) }
    ensures pages { IfOk result (λ s. cache.new.page_size ≡ content_size s.pages.physical_page_size) }
    ensures serves { IfOk result (λ s. ServesPages (on_blob C.checksum_of (B.calls blob.new) s.pages) cache.new
        s.pages.blob_id) }
{
    let writer = writer?;
    match more {
        Some(more) => snapshot(writer, blob, cache, first, more),
        None => sealed(writer, blob, cache, first),
    }
}

/// Appends bytes, and replays the list.
pub fn replayed<B: Blob, C: Checksum>(
    writer: Result<Writer<C>, Error>,
    blob: &mut B,
    cache: &mut CacheRef,
    first: &[u8],
    buffer_size: usize,
) -> Result<Replay<C>, Error>
    requires writer { IfOk writer (λ w. IsWriter C.checksum_of (B.calls blob.old) w) }
    requires pages { IfOk writer (λ w. cache.old.page_size ≡ content_size w.page_size) }
    ensures { IfOk result (λ r. Stand C.checksum_of (B.calls blob.new) r.sealed.pages) }
{
    let writer = writer?;
    let (writer, _size) = writer.append(blob, cache, first)?;
    let (_writer, replay) = writer.replay(blob, cache, buffer_size)?;
    Ok(replay)
}

/// Cuts a recovery to so many bytes, and replays what is left before it becomes a writer.
pub fn replayed_recovery<B: Blob, C: Checksum>(
    recovery: Recovery<C>,
    blob: &mut B,
    cache: &mut CacheRef,
    size: u64,
    buffer_size: usize,
) -> Result<Replay<C>, Error>
    requires page { cache.old.page_size ≡ content_size recovery.page_size }
    requires sound { IsFalse (file_of (B.calls blob.old)).failed }
    requires settled { (file_of (B.calls blob.old)).changes ≡ [] }
    requires numbers { length (content (B.calls blob.old)) < 2 ^ 64 }
    requires known { recovery.tip.offset + length recovery.tip.bytes
        ≡ length (recovered C.checksum_of recovery.page_size (content (B.calls blob.old))) }
    requires empty { cache.old.pages ≡ [] }
    ensures { IfOk result (λ r. Stand C.checksum_of (B.calls blob.new) r.sealed.pages) }
{
    let recovery = recovery.truncate(blob, cache, size)?;
    let (_recovery, replay) = recovery.replay(blob, cache, buffer_size)?;
    Ok(replay)
}

// Reads by one of the forms that may use the blob.
fn read<B: Blob, C: Checksum>(
    alloc: Global,
    sealed: &Sealed<C>,
    blob: &mut B,
    cache: &mut CacheRef,
    form: &str,
    text: &str,
    told: &mut Told,
) -> Result<(), Unanswered>
    requires stand { Stand C.checksum_of (B.calls blob.old) sealed.now.pages }
    requires pages { cache.old.page_size ≡ content_size sealed.now.pages.physical_page_size }
    requires serves { ServesPages (on_blob C.checksum_of (B.calls blob.old) sealed.now.pages) cache.old
        sealed.now.pages.blob_id }
    ensures calls { B.calls blob.new ≡ B.calls blob.old }
    ensures pages { cache.new.page_size ≡ cache.old.page_size }
    ensures serves { ServesPages (on_blob C.checksum_of (B.calls blob.new) sealed.now.pages) cache.new
        sealed.now.pages.blob_id }
{
    if form == "items" {
        let (size, offsets) = items(alloc, text)?;
        let mut out = buffer_of_items(alloc, offsets.len(), size)?;
        let answer = sealed.read_many_into(blob, cache, &mut out, &offsets, size);
        return told_read(alloc, told, answer, &out);
    }
    let ranges = ranges(alloc, text)?;
    if form == "ranges" {
        let mut out = buffer_of_ranges(alloc, &ranges)?;
        let answer = sealed.read_ranges_into(blob, cache, &mut out, &ranges);
        return told_read(alloc, told, answer, &out);
    }
    let [(offset, count)] = ranges.as_slice() else {
        return Err(Unanswered::BadLine);
    };
    match form {
        "at" => told.push_bytes(alloc, sealed.read_at(blob, cache, *offset, *count)),
        "up-to" => told.push_bytes(alloc, sealed.read_up_to(blob, cache, *offset, *count)),
        "into" => {
            let mut out = buffer_of_items(alloc, *count, 1)?;
            match sealed.read_into(blob, cache, &mut out, *offset) {
                Ok(()) => told.push(digits(alloc, &out)?.as_str()),
                Err(error) => told.push(number(error)),
            }
        }
        _ => Err(Unanswered::BadLine),
    }
}

// Reads by one of the forms that make no call of the blob.
fn try_read<C: Checksum>(
    alloc: Global,
    sealed: &Sealed<C>,
    cache: &CacheRef,
    form: &str,
    text: &str,
    told: &mut Told,
) -> Result<(), Unanswered> {
    if form == "items" {
        let (size, offsets) = items(alloc, text)?;
        let mut out = buffer_of_items(alloc, offsets.len(), size)?;
        let answer = sealed.try_read_many_sync_into(cache, &mut out, &offsets, size);
        return told_missing(alloc, told, answer);
    }
    let ranges = ranges(alloc, text)?;
    if form == "ranges" {
        let mut out = buffer_of_ranges(alloc, &ranges)?;
        let answer = sealed.try_read_ranges_sync_into(cache, &mut out, &ranges);
        return told_missing(alloc, told, answer);
    }
    let (Some((offset, count)), "one") = (ranges.first(), form) else {
        return Err(Unanswered::BadLine);
    };
    let mut out = buffer_of_items(alloc, *count, 1)?;
    let is_served = sealed.try_read_sync_into(cache, &mut out, *offset);
    told_tried(alloc, told, is_served, &out)
}

/// Makes the calls of a line on a sealed list.
pub fn play_sealed<B: Blob, C: Checksum>(
    alloc: Global,
    sealed: &Sealed<C>,
    blob: &mut B,
    cache: &mut CacheRef,
    words: &[&str],
    told: &mut Told,
) -> Result<(), Unanswered>
    requires stand { Stand C.checksum_of (B.calls blob.old) sealed.now.pages }
    requires pages { cache.old.page_size ≡ content_size sealed.now.pages.physical_page_size }
    requires serves { ServesPages (on_blob C.checksum_of (B.calls blob.old) sealed.now.pages) cache.old
        sealed.now.pages.blob_id }
{
    match words {
        [] => Ok(()),
        ["size", rest @ ..] => {
            told.push_number(alloc, sealed.size())?;
            play_sealed(alloc, sealed, blob, cache, rest, told)
        }
        ["copied", rest @ ..] => {
            let copy = sealed.try_copy()?;
            play_sealed(alloc, &copy, blob, cache, rest, told)
        }
        ["read", form, text, rest @ ..] => {
            read(alloc, sealed, blob, cache, form, text, told)?;
            play_sealed(alloc, sealed, blob, cache, rest, told)
        }
        ["try", form, text, rest @ ..] => {
            try_read(alloc, sealed, cache, form, text, told)?;
            play_sealed(alloc, sealed, blob, cache, rest, told)
        }
        _ => Err(Unanswered::BadLine),
    }
}

// Makes a call of a replay that a number goes with.
fn step<B: Blob, C: Checksum>(
    alloc: Global,
    replay: &mut Replay<C>,
    blob: &mut B,
    word: &str,
    count: usize,
    told: &mut Told,
) -> Result<(), Unanswered>
    requires { Stand C.checksum_of (B.calls blob.old) replay.old.sealed.pages }
    ensures calls { B.calls blob.new ≡ B.calls blob.old }
    ensures pages { replay.new.sealed.pages ≡ replay.old.sealed.pages }
{
    match word {
        "seek" => match replay.seek_to(count as u64) {
            Ok(()) => told.push("ok"),
            Err(error) => told.push(number(error)),
        },
        "ensure" => match replay.ensure(blob, count) {
            Ok(is_there) => told.push(if is_there { "true" } else { "false" }),
            Err(error) => told.push(number(error)),
        },
        "copy" => {
            let mut out = buffer_of_items(alloc, count, 1)?;
            match replay.try_copy_to_slice(&mut out) {
                Ok(()) => told.push(digits(alloc, &out)?.as_str()),
                Err(error) => told.push(number(error)),
            }
        }
        "take" if count <= replay.remaining() => {
            told.push_bytes(alloc, replay.copy_to_bytes(count))
        }
        "advance" if count <= replay.remaining() => {
            replay.advance(count);
            told.push("ok")
        }
        _ => Err(Unanswered::BadLine),
    }
}

/// Makes the calls of a line on a replay.
pub fn play_replay<B: Blob, C: Checksum>(
    alloc: Global,
    replay: &mut Replay<C>,
    blob: &mut B,
    words: &[&str],
    told: &mut Told,
) -> Result<(), Unanswered>
    requires { Stand C.checksum_of (B.calls blob.old) replay.old.sealed.pages }
{
    match words {
        [] => Ok(()),
        ["size", rest @ ..] => {
            told.push_number(alloc, replay.blob_size())?;
            play_replay(alloc, replay, blob, rest, told)
        }
        ["remaining", rest @ ..] => {
            told.push(replay.remaining().to_string(alloc)?.as_str())?;
            play_replay(alloc, replay, blob, rest, told)
        }
        ["exhausted", rest @ ..] => {
            told.push(if replay.is_exhausted() {
                "true"
            } else {
                "false"
            })?;
            play_replay(alloc, replay, blob, rest, told)
        }
        ["chunk", rest @ ..] => {
            told.push(digits(alloc, replay.chunk())?.as_str())?;
            play_replay(alloc, replay, blob, rest, told)
        }
        [word, count, rest @ ..] => {
            step(alloc, replay, blob, word, count.parse()?, told)?;
            play_replay(alloc, replay, blob, rest, told)
        }
        _ => Err(Unanswered::BadLine),
    }
}
