//! What is measured, once. Each answers a number that depends on all that was computed.

ghost use Rattle.std.specs.Prelude.{◌≤◌};

use merkle_core::building::element_proof;
use merkle_core::error::Error;
use merkle_core::{Mem, Proof};
use merkle_forest::codec::FixedBytes;
use merkle_forest::hasher::Standard;
use merkle_forest::{ByteHash, Location, mmr};
use sha2::{Digest, Sha256};
use std::alloc::Global;

pub type Hash = FixedBytes<32>;

pub type Tree = Mem<mmr::Family, Hash>;

// The element of a leaf: 32 bytes that begin with its location.
fn element(location: u64) -> [u8; 32] {
    let mut bytes = [7; 32];
    bytes[..8].copy_from_slice(&location.to_be_bytes());
    bytes
}

// The last byte of the digest of so many bytes, the first eight of which are the number's.
fn bare_hash<const N: usize>(bytes: &mut [u8; N], number: u64) -> u64
    requires { 8 ≤ N }
{
    bytes[..8].copy_from_slice(&number.to_be_bytes());
    let digest = Sha256::digest(&bytes[..]);
    u64::from(digest[31])
}

/// A location that another round is far from.
pub fn spread(round: u64, leaves: u64) -> u64 {
    round.wrapping_mul(0x9e37_79b9_7f4a_7c15) % leaves.max(1)
}

/// The bytes of a leaf's string, and of a branch's, hashed for each leaf.
pub fn bare_strings(leaves: u64) -> u64 {
    let mut leaf = [5; 40];
    let mut branch = [6; 72];
    let mut sum = 0u64;
    for location in 0..leaves {
        sum = sum.rotate_left(1)
            ^ bare_hash(&mut leaf, location)
            ^ bare_hash(&mut branch, location);
    }
    sum
}

/// The string of one leaf, and of each branch over it.
pub fn bare_path(leaves: u64, round: u64) -> u64 {
    let mut leaf = [5; 40];
    let mut branch = [6; 72];
    let mut sum = bare_hash(&mut leaf, round);
    for level in 0..leaves.max(1).ilog2() {
        sum = sum.rotate_left(1) ^ bare_hash(&mut branch, u64::from(level));
    }
    sum
}

/// The string of a root.
pub fn bare_root(round: u64) -> u64 {
    let mut root = [4; 41];
    bare_hash(&mut root, round)
}

// The tree with so many more leaves.
fn with_leaves(
    hasher: &Standard<ByteHash>,
    tree: &mut Tree,
    leaves: u64,
) -> Result<Hash, Error<mmr::Family>> {
    let mut batch = tree.new_batch()?;
    for location in 0..leaves {
        batch = batch.add(hasher, &element(location))?;
    }
    let batch = batch.merkleize(tree, hasher)?;
    tree.apply_batch(&batch)?;
    tree.root(hasher, 0)
}

/// Adds so many leaves. The answer is the last byte of the root, or 256 where that was refused.
pub fn add_leaves(hasher: &Standard<ByteHash>, tree: &mut Tree, leaves: u64) -> u64 {
    match with_leaves(hasher, tree, leaves) {
        Ok(root) => u64::from(root.bytes[31]),
        Err(_) => 256,
    }
}

// The tree with another element at a location.
fn with_update(
    hasher: &Standard<ByteHash>,
    tree: &mut Tree,
    location: u64,
) -> Result<Hash, Error<mmr::Family>> {
    let batch = tree.new_batch()?;
    let batch = batch.update_leaf(hasher, Location::new(location), &element(!location))?;
    let batch = batch.merkleize(tree, hasher)?;
    tree.apply_batch(&batch)?;
    tree.root(hasher, 0)
}

/// Updates the leaf at a location. The answer is the last byte of the root, or 256 where that was refused.
pub fn update_leaf(hasher: &Standard<ByteHash>, tree: &mut Tree, location: u64) -> u64 {
    match with_update(hasher, tree, location) {
        Ok(root) => u64::from(root.bytes[31]),
        Err(_) => 256,
    }
}

/// How many digests the proof of the element at a location has, or 256 where that was refused.
pub fn prove(alloc: Global, hasher: &Standard<ByteHash>, tree: &Tree, location: u64) -> u64 {
    match element_proof(alloc, hasher, tree, Location::new(location), 0) {
        Ok(proof) => proof.digests.len() as u64,
        Err(_) => 256,
    }
}

/// An element of the tree with its proof, its location and the root.
#[derive(Drop)]
pub struct Shown {
    proof: Proof<mmr::Family, Hash>,
    location: u64,
    element: [u8; 32],
    root: Hash,
}

// The first element of a tree of one leaf more.
fn try_shown(
    alloc: Global,
    hasher: &Standard<ByteHash>,
    tree: &Tree,
    leaves: u64,
) -> Result<Shown, Error<mmr::Family>> {
    let location = spread(0, leaves);
    Ok(Shown {
        proof: element_proof(alloc, hasher, tree, Location::new(location), 0)?,
        location,
        element: element(!location),
        root: tree.root(hasher, 0)?,
    })
}

/// An element of the tree that was updated, with its proof.
pub fn make_shown(
    alloc: Global,
    hasher: &Standard<ByteHash>,
    tree: &Tree,
    leaves: u64,
) -> Option<Shown> {
    try_shown(alloc, hasher, tree, leaves).ok()
}

/// Whether the proof shows the element: 1, or 0.
pub fn check(hasher: &Standard<ByteHash>, shown: &Option<Shown>, round: u64) -> u64 {
    match shown {
        Some(it) => {
            let at = Location::new(it.location);
            u64::from(
                it.proof
                    .verify_element_inclusion(hasher, &it.element, at, &it.root),
            ) ^ round
        }
        None => 256,
    }
}
