//! Calls of a store and of its blobs, which every store has.

use crate::told::{bytes as told_bytes, done, names, refused};
use case_lines::{Unanswered, bytes, digits};
use fault_storage::{Blob, Opened, StartedSync, Storage, Versions, WriteMode};
use std::alloc::Global;

// The mode of this name.
fn write_mode(word: &str) -> Result<WriteMode, Unanswered> {
    match word {
        "plain" => Ok(WriteMode::Plain),
        "sync" => Ok(WriteMode::Sync),
        _ => Err(Unanswered::BadLine),
    }
}

// A read into a buffer of so many bytes, which it says with the refusal too.
fn fill<S, B: Blob<S>>(
    alloc: Global,
    storage: &mut S,
    blob: &B,
    offset: u64,
    buffer: &str,
) -> Result<String, Unanswered> {
    let mut buffer = bytes(alloc, buffer)?;
    let answer = blob.read_at_buf(storage, offset, buffer.as_mut_slice());
    let told = done(alloc, answer)?;
    let buffer = digits(alloc, &buffer)?;
    Ok(format!(in alloc; "{told} {buffer}")?)
}

/// Makes a call of a blob. A sync that it starts comes behind the others.
pub fn of_blob<S, B: Blob<S>>(
    alloc: Global,
    storage: &mut S,
    blob: &mut B,
    started: &mut Vec<StartedSync>,
    words: &[&str],
) -> Result<String, Unanswered> {
    match words {
        ["read", offset, count] => {
            told_bytes(
                alloc,
                blob.read_at(storage, offset.parse()?, count.parse()?),
            )
        }
        ["fill", offset, buffer] => fill(alloc, storage, blob, offset.parse()?, buffer),
        ["write", offset, digits, mode] => {
            let written = bytes(alloc, digits)?;
            let answer = blob.write_at(storage, offset.parse()?, &written, write_mode(mode)?);
            done(alloc, answer)
        }
        ["resize", size] => done(alloc, blob.resize(storage, size.parse()?)),
        ["sync"] => done(alloc, blob.sync(storage)),
        ["start"] => {
            started.push(blob.start_sync(storage))?;
            Ok("started".to_string(alloc)?)
        }
        _ => Err(Unanswered::BadLine),
    }
}

/// Finishes the sync that was started last: its answer.
pub fn finish(alloc: Global, started: &mut Vec<StartedSync>) -> Result<String, Unanswered> {
    let sync = started.pop().ok_or(Unanswered::BadLine)?;
    done(alloc, sync.finish())
}

/// Makes a call of a store that gives no blob.
pub fn of_store<S: Storage>(
    alloc: Global,
    storage: &mut S,
    words: &[&str],
) -> Result<String, Unanswered> {
    match words {
        ["scan", partition] => names(alloc, storage.scan(partition_of(partition))),
        ["remove", partition] => done(alloc, storage.remove(partition_of(partition), None)),
        ["remove", partition, name] => {
            let name = bytes(alloc, name)?;
            done(alloc, storage.remove(partition_of(partition), Some(&name)))
        }
        _ => Err(Unanswered::BadLine),
    }
}

/// Opens a blob and puts it behind the others: its size and version, or the refusal.
pub fn open<S: Storage<Blob = B>, B: Drop>(
    alloc: Global,
    storage: &mut S,
    blobs: &mut Vec<B>,
    partition: &str,
    name: &[u8],
    versions: Versions,
) -> Result<String, Unanswered> {
    match storage.open_versioned(partition, name, versions) {
        Ok(
            Opened {
                blob,
                size,
                version,
            },
        ) => {
            blobs.push(blob)?;
            Ok(format!(in alloc; "{size} {version}")?)
        }
        Err(error) => refused(alloc, error),
    }
}

/// The partition of this name, of which `""` is the empty one.
pub fn partition_of<'a>(word: &'a str) -> &'a str {
    if word == "\"\"" { "" } else { word }
}

/// The blob of this number.
pub fn blob_of<'a, B>(blobs: &'a mut Vec<B>, number: &str) -> Result<&'a mut B, Unanswered> {
    let place: usize = number.parse()?;
    blobs.get_mut(place).ok_or(Unanswered::BadLine)
}
