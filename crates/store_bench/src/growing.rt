//! Stores that grow. They hash as stores do, on a disk that copies nothing at a sync.

use crate::open_store::OpenStore;
use crate::stores::{Key, key_of};
use auth_store_ledger::Batch;
use merkle_forest::{ByteHash, mmr};
use std::alloc::{AllocError, Global};
use undo_disk::UndoDisk;

/// A store that grows.
pub type Growing = OpenStore<UndoDisk, mmr::Family, ByteHash, Key, u64, 1>;

// A batch of so many new keys, from a number on. The value of each is its number.
fn batch_of(alloc: Global, from: u64, keys: u64) -> Result<Batch<Key, u64>, AllocError> {
    let mut batch = Batch::new(alloc);
    for number in from..from.saturating_add(keys) {
        batch.put(key_of(number), number)?;
    }
    Ok(batch)
}

/// Commits so many new keys, from a number on: 1, or 0 where that is refused.
pub fn commit_new(alloc: Global, store: &mut Growing, from: u64, keys: u64) -> u64 {
    match batch_of(alloc, from, keys) {
        Ok(batch) => u64::from(store.commit(batch).is_ok()),
        Err(_) => 0,
    }
}

/// How many bytes of a disk the log of so many keys takes, and what is measured.
pub fn room_for(keys: u64) -> usize {
    keys.saturating_add(100_000).saturating_mul(64) as usize
}

/// A store of so many keys, which came in one batch, and of so many more in one behind it. A list grows by doubling, so
/// the first commit behind a large batch copies what is there, which as many operations pay for as came before. The
/// batch behind takes that copy, so that none of it is in what is measured next.
pub fn filled(alloc: Global, keys: u64, more: u64) -> Option<Growing> {
    let Ok(disk) = UndoDisk::with_capacity(alloc, room_for(keys)) else {
        return None;
    };
    let Ok(mut store) = OpenStore::begin(alloc, disk) else {
        return None;
    };
    if commit_new(alloc, &mut store, 0, keys) == 0 {
        return None;
    }
    if commit_new(alloc, &mut store, keys, more) == 0 {
        return None;
    }
    Some(store)
}
