//! Logs on a disk in memory, in pages of 64 bytes.

use crate::entries::{Entry, Name};
use crate::refusals;
use auth_store_log::{LogError, append_batch, read_operation, recover};
use case_lines::{Unanswered, bytes, digits};
use fault_storage::Crc32;
use merkle_forest::mmr;
use paged_blob::bench::MemoryDisk;
use paged_blob::{CacheRef, Error, Writer};
use std::alloc::Global;

/// The file of a log that grew by these bytes and then by those, each made durable.
pub fn file_of(alloc: Global, first: &[u8], second: &[u8]) -> Result<Vec<u8>, Error> {
    let mut disk = MemoryDisk::new(alloc);
    let mut cache = CacheRef::new(alloc, 52, 8);
    let writer = Writer::<Crc32>::new(alloc, &mut disk, &mut cache, 0, 128)?;
    let writer = append_batch(writer, &mut disk, &mut cache, first)?;
    let _writer = append_batch(writer, &mut disk, &mut cache, second)?;
    Ok(disk.as_bytes().to_vec(alloc)?)
}

// The operation at an index of a log of these bytes.
fn operation_at(alloc: Global, bytes: &[u8], index: u64) -> Result<Entry, LogError> {
    let mut disk = MemoryDisk::new(alloc);
    let mut cache = CacheRef::new(alloc, 52, 8);
    let writer = Writer::<Crc32>::new(alloc, &mut disk, &mut cache, 0, 128)?;
    let writer = append_batch(writer, &mut disk, &mut cache, bytes)?;
    read_operation(&writer, alloc, &mut disk, &mut cache, index)
}

// What is recovered of a file: the bytes of the log, and the file then.
fn recovered(alloc: Global, file: Vec<u8>) -> Result<(Vec<u8>, Vec<u8>), Error> {
    let mut disk = MemoryDisk::showing(alloc, file)?;
    let mut cache = CacheRef::new(alloc, 52, 8);
    let len = disk.as_bytes().len() as u64;
    let (_writer, log) = recover::<mmr::Family, Name, u64, MemoryDisk, Crc32>(
        alloc, &mut disk, &mut cache, len, 128,
    )?;
    Ok((log, disk.as_bytes().to_vec(alloc)?))
}

// The digits of bytes, where they were not refused.
fn digits_of(alloc: Global, answer: Result<Vec<u8>, Error>) -> Result<String, Unanswered> {
    match answer {
        Ok(bytes) => digits(alloc, &bytes),
        Err(error) => refusals::of_disk(alloc, error),
    }
}

// What is recovered of a file: the log's digits, and how many bytes the file has then.
fn recovery(alloc: Global, file: Vec<u8>) -> Result<String, Unanswered> {
    match recovered(alloc, file) {
        Ok((log, file)) => {
            let log = digits(alloc, &log)?;
            Ok(format!(in alloc; "{log} {}", file.len())?)
        }
        Err(error) => refusals::of_disk(alloc, error),
    }
}

/// What is answered of logs on a disk.
pub fn answer(alloc: Global, words: &[&str]) -> Result<String, Unanswered> {
    match words {
        ["file", first, second] => {
            let (first, second) = (bytes(alloc, first)?, bytes(alloc, second)?);
            digits_of(alloc, file_of(alloc, &first, &second))
        }
        ["recover", file] => recovery(alloc, bytes(alloc, file)?),
        ["recovered", file] => {
            let answer = recovered(alloc, bytes(alloc, file)?);
            digits_of(alloc, answer.map(|recovered| recovered.1))
        }
        ["at", log, index] => {
            match operation_at(alloc, &bytes(alloc, log)?, index.parse()?) {
                Ok(operation) => Ok(format!(in alloc; "{operation}")?),
                Err(error) => refusals::of_log(alloc, error),
            }
        }
        _ => Err(Unanswered::BadLine),
    }
}
