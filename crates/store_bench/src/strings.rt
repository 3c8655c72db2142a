//! The strings that have to be hashed for a commit of new keys. They are counted, and as many of their lengths are
//! hashed alone: a commit with a hash that costs nothing would not tell, since it reads no digest either.
//!
//! To a new key come two operations, its own update and that of the key before it, whose next key it is; and one to the
//! commit. To be hashed are a leaf for each operation, and each branch over the operations that is then complete; each
//! chunk of eight bits that is new, or of which a bit is cleared, with the digest under it, and each branch over these;
//! and what folds the peaks, for each of both roots.

use crate::stores::spread;
use merkle_forest::digest::Digest;
use merkle_forest::{ByteHash, HashFunction};
use std::alloc::{AllocError, Global};

// How many operations a chunk is over.
const CHUNK: u64 = 8;

/// How many strings a commit hashes.
#[derive(Clone, Copy, Debug)]
pub struct Strings {
    /// How many operations it appends.
    pub operations: u64,
    /// How many strings have 33 bytes: a leaf's position and operation, a chunk and the digest under it.
    pub short: u64,
    /// How many have 72: a branch's position and both digests under it.
    pub long: u64,
}

// The numbers without those that are equal to the one before.
fn distinct(alloc: Global, numbers: &[u64]) -> Result<Vec<u64>, AllocError> {
    let mut kept = Vec::new(alloc);
    let mut last = None;
    for number in numbers {
        if last != Some(*number) {
            kept.push(*number)?;
            last = Some(*number);
        }
    }
    Ok(kept)
}

// Where in the log of so many keys, which came in one batch, the updates stand of the keys before so many new ones, in
// ascending order, each once: the first operation is a commit, and then comes an update of each key in order.
fn places_before(alloc: Global, keys: u64, new: u64) -> Result<Vec<u64>, AllocError> {
    let mut sorted = Vec::new(alloc);
    for number in 0..keys {
        sorted.push(spread(number))?;
    }
    sorted.sort_unstable();
    let mut places = Vec::new(alloc);
    for number in keys..keys.saturating_add(new) {
        let key = spread(number);
        let below = sorted.partition_point(|other| *other < key) as u64;
        places.push(if below == 0 { keys } else { below })?;
    }
    places.sort_unstable();
    distinct(alloc, &places)
}

// The chunks over these places in a log of so many operations, each once, and those that more operations fill.
fn chunks_over(
    alloc: Global,
    places: &[u64],
    before: u64,
    after: u64,
) -> Result<Vec<u64>, AllocError> {
    let mut chunks = Vec::new(alloc);
    for place in places {
        let chunk = *place / CHUNK;
        if chunk < before / CHUNK {
            chunks.push(chunk)?;
        }
    }
    for chunk in before / CHUNK..after / CHUNK {
        chunks.push(chunk)?;
    }
    distinct(alloc, &chunks)
}

// How many branches stand over these leaves, of so many, which are in ascending order.
fn branches_over(alloc: Global, leaves: Vec<u64>, count: u64) -> Result<u64, AllocError> {
    let mut nodes = leaves;
    let mut branches = 0u64;
    for height in 1..64u32 {
        let mut above = Vec::new(alloc);
        for node in &nodes {
            let parent = *node / 2;
            if parent < count >> height {
                above.push(parent)?;
            }
        }
        nodes = distinct(alloc, &above)?;
        branches = branches.saturating_add(nodes.len() as u64);
    }
    Ok(branches)
}

// How many branches a tree of so many leaves has: its peaks are as many as the number has digits that are 1.
fn branches_of(leaves: u64) -> u64 {
    leaves.saturating_sub(u64::from(leaves.count_ones()))
}

/// The strings of a commit of so many new keys behind so many others, which came in one batch. It fails only when out
/// of memory.
pub fn strings_of(alloc: Global, keys: u64, new: u64) -> Result<Strings, AllocError> {
    let mut places = places_before(alloc, keys, new)?;
    let operations = new.saturating_add(places.len() as u64).saturating_add(1);
    let before = keys.saturating_add(2);
    let after = before.saturating_add(operations);
    places.push(keys.saturating_add(1))?;
    let chunks = chunks_over(alloc, &places, before, after)?;
    let changed = chunks.len() as u64;
    let grafted = branches_over(alloc, chunks, after / CHUNK)?;
    let complete = branches_of(after).saturating_sub(branches_of(before));
    let folds = u64::from(after.count_ones()).saturating_mul(2);
    Ok(Strings {
        operations,
        short: operations.saturating_add(changed),
        long: complete.saturating_add(grafted).saturating_add(folds),
    })
}

// The sum of the first bytes of the digests of so many strings, which differ in their first bytes.
fn hash_all(string: &mut [u8], round: u64, count: u64) -> u64 {
    let mut sum = 0u64;
    for number in 0..count {
        if let Some(first) = string.first_mut() {
            *first = (number.wrapping_add(round) % 251) as u8;
        }
        let digest = ByteHash::hash(&[&*string]);
        let first = digest.as_bytes().first();
        sum = sum.wrapping_add(u64::from(*first.unwrap_or(&0)));
    }
    sum
}

/// Hashes as many strings, others in each round. Answers a number that depends on each.
pub fn hash_strings(strings: Strings, round: u64) -> u64 {
    let mut short = [5; 33];
    let mut long = [6; 72];
    let sum = hash_all(&mut short, round, strings.short);
    sum.wrapping_add(hash_all(&mut long, round, strings.long))
}
