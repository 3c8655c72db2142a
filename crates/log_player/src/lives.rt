//! Stores that are live over a disk in memory.

use crate::disks::file_of;
use crate::entries::{Name, key};
use crate::refusals;
use auth_store_ledger::Batch;
use auth_store_live::{Live, commit_live, get_live, recover_live};
use auth_store_machine::StoreError;
use case_lines::{Unanswered, bytes};
use merkle_forest::digest::Digest;
use merkle_forest::{ByteHash, mmr};
use paged_blob::CacheRef;
use paged_blob::bench::MemoryDisk;
use std::alloc::Global;

type Small = Live<mmr::Family, ByteHash, Name, u64, 1>;

// A store that is recovered of a file: how many commits it has, its root, and how many bytes the file has then.
fn recovery(alloc: Global, file: Vec<u8>) -> Result<String, StoreError> {
    let mut disk = MemoryDisk::showing(alloc, file)?;
    let mut cache = CacheRef::new(alloc, 52, 8);
    let len = disk.as_bytes().len() as u64;
    let live: Small = recover_live(alloc, &mut disk, &mut cache, len, 128)?;
    let root = hex::encode(alloc, live.ledger.root().as_bytes())?;
    let commits = live.ledger.commits();
    Ok(format!(in alloc; "{commits} {root} {}", disk.as_bytes().len())?)
}

// What a store that is recovered of a file has at a key.
fn value(alloc: Global, file: Vec<u8>, key: &Name) -> Result<String, StoreError> {
    let mut disk = MemoryDisk::showing(alloc, file)?;
    let mut cache = CacheRef::new(alloc, 52, 8);
    let len = disk.as_bytes().len() as u64;
    let live: Small = recover_live(alloc, &mut disk, &mut cache, len, 128)?;
    match get_live(alloc, &live, &mut disk, &mut cache, key)? {
        Some(value) => Ok(format!(in alloc; "{value}")?),
        None => Ok("none".to_string(alloc)?),
    }
}

// What a store that is recovered of a file answers to a batch, and whether it stays live.
fn commit(alloc: Global, file: Vec<u8>, batch: Batch<Name, u64>) -> Result<String, Unanswered> {
    let mut disk = MemoryDisk::showing(alloc, file)?;
    let mut cache = CacheRef::new(alloc, 52, 8);
    let len = disk.as_bytes().len() as u64;
    let live: Small = match recover_live(alloc, &mut disk, &mut cache, len, 128) {
        Ok(live) => live,
        Err(error) => return refusals::of_store(alloc, error),
    };
    let mut store = Some(live);
    let told = match commit_live(alloc, &mut store, &mut disk, &mut cache, batch, None) {
        Ok(root) => hex::encode(alloc, root.as_bytes())?,
        Err(error) => refusals::of_store(alloc, error)?,
    };
    let state = if store.is_some() { "live" } else { "failed" };
    Ok(format!(in alloc; "{told} {state}")?)
}

// An answer, or the number of its refusal.
fn told(alloc: Global, answer: Result<String, StoreError>) -> Result<String, Unanswered> {
    match answer {
        Ok(told) => Ok(told),
        Err(error) => refusals::of_store(alloc, error),
    }
}

// The file of a log of these bytes.
fn file(alloc: Global, log: &str) -> Result<Vec<u8>, Unanswered> {
    match file_of(alloc, &bytes(alloc, log)?, &[]) {
        Ok(file) => Ok(file),
        Err(_) => Err(Unanswered::Memory),
    }
}

/// What is answered of live stores, each of which is recovered of the file of a log.
pub fn answer(alloc: Global, words: &[&str]) -> Result<String, Unanswered> {
    match words {
        ["recover", log] => told(alloc, recovery(alloc, file(alloc, log)?)),
        ["begin"] => told(alloc, recovery(alloc, Vec::new(alloc))),
        ["get", log, digits] => told(alloc, value(alloc, file(alloc, log)?, &key(digits)?)),
        ["commit", log] => commit(alloc, file(alloc, log)?, Batch::new(alloc)),
        ["commit", log, digits, value] => {
            let mut batch = Batch::new(alloc);
            batch.put(key(digits)?, value.parse()?)?;
            commit(alloc, file(alloc, log)?, batch)
        }
        _ => Err(Unanswered::BadLine),
    }
}
