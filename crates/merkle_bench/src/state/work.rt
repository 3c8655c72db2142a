//! What is measured, once, and what it is measured beside. Each answers a number that depends on all that was computed.

ghost use Rattle.std.specs.Prelude.{◌≤◌};

use merkle_core::Mem;
use merkle_core::error::Error as TreeError;
use merkle_forest::codec::FixedBytes;
use merkle_forest::hasher::Standard;
use merkle_forest::{Bagging, ByteHash, Location, mmr};
use sha2::{Digest, Sha256};
use state_proofs::canonical::canonical_root;
use state_proofs::snapshot::building::honest_proof;
use state_proofs::{BitList, ChunkSize, Error, RangeProof, Snapshot, operation};
use std::alloc::{AllocError, Global};

pub type Hash = FixedBytes<32>;

/// How many operations the state has.
pub const OPERATIONS: u64 = 1024;

/// How many of them a range has.
pub const SHOWN: u64 = 1000;

/// The place of the operation that is proved.
pub const PLACE: u64 = 500;

/// An operation: 25 bytes that begin with its place.
pub fn operation_at(place: u64) -> [u8; 25] {
    let mut bytes = [7; 25];
    bytes[..8].copy_from_slice(&place.to_be_bytes());
    bytes
}

// The operations of the state, and a bit for each: all are active.
fn state(alloc: Global) -> Result<(Vec<Vec<u8>>, Vec<bool>), AllocError> {
    let mut operations = Vec::new(alloc);
    let mut bits = Vec::new(alloc);
    for place in 0..OPERATIONS {
        operations.push(operation_at(place).to_vec(alloc)?)?;
        bits.push(true)?;
    }
    Ok((operations, bits))
}

/// The proof of one operation, with chunks of 32 bytes, and the canonical root.
pub fn prove_one(alloc: Global) -> Result<(operation::Proof<mmr::Family, Hash>, Hash), AllocError> {
    let (operations, bits) = state(alloc)?;
    let Some(chunk_size) = ChunkSize::new(32) else {
        return Err(AllocError);
    };
    if operations.len() as u64 != OPERATIONS {
        return Err(AllocError);
    }
    let snapshot = Snapshot {
        operations: &operations,
        bits: &bits,
        floor: 0,
        chunk_size,
    };
    let proof = honest_proof::<mmr::Family, ByteHash>(alloc, &snapshot, PLACE)?;
    let root = canonical_root::<mmr::Family, ByteHash>(alloc, &snapshot)?;
    Ok((proof, root))
}

// The canonical root with chunks of 256 bytes, of which no one is full.
fn wide_root(alloc: Global, operations: &[Vec<u8>], bits: &[bool]) -> Result<Hash, AllocError> {
    let Some(chunk_size) = ChunkSize::new(256) else {
        return Err(AllocError);
    };
    if operations.len() as u64 != OPERATIONS {
        return Err(AllocError);
    }
    let snapshot = Snapshot {
        operations,
        bits,
        floor: 0,
        chunk_size,
    };
    canonical_root::<mmr::Family, ByteHash>(alloc, &snapshot)
}

// The tree of the operations, and its root.
fn tree_of(
    alloc: Global,
    operations: &[Vec<u8>],
) -> Result<(Mem<mmr::Family, Hash>, Hash), TreeError<mmr::Family>> {
    let hasher: Standard<ByteHash> = Standard::new(Bagging::BackwardFold);
    let mut tree = Mem::new(alloc);
    let mut batch = tree.new_batch()?;
    for operation in operations {
        batch = batch.add(&hasher, operation)?;
    }
    let batch = batch.merkleize(&tree, &hasher)?;
    tree.apply_batch(&batch)?;
    let root = tree.root(&hasher, 0)?;
    Ok((tree, root))
}

/// The proof over the first operations, with chunks of 256 bytes, and the canonical root.
pub fn prove_range(
    alloc: Global,
) -> Result<(RangeProof<mmr::Family, Hash>, Hash), Error<mmr::Family>> {
    let (operations, bits) = state(alloc)?;
    let (tree, ops_root) = tree_of(alloc, &operations)?;
    let proof = RangeProof::new::<ByteHash, _, _, 256>(
        alloc,
        &BitList { bits: &bits },
        &tree,
        Location::new(0),
        Location::new(0)..Location::new(SHOWN),
        ops_root,
    )?;
    let root = wide_root(alloc, &operations, &bits)?;
    Ok((proof, root))
}

/// The chunk of 256 bytes over all operations.
pub fn wide_chunk() -> [u8; 256] {
    let mut chunk = [0; 256];
    chunk[..128].copy_from_slice(&[0xff; 128]);
    chunk
}

// The last byte of the digest of so many bytes, the first eight of which are the number's.
fn bare_hash<const N: usize>(bytes: &mut [u8; N], number: u64) -> u64
    requires { 8 ≤ N }
{
    bytes[..8].copy_from_slice(&number.to_be_bytes());
    let digest = Sha256::digest(&bytes[..]);
    u64::from(digest[31])
}

/// The strings of one operation's proof: of a leaf, ten branches, a chunk joined in, and two roots.
pub fn bare_one(round: u64) -> u64 {
    let mut sum = bare_hash(&mut [5; 33], round);
    let mut branch = [6; 72];
    for level in 0..10 {
        sum = sum.rotate_left(1) ^ bare_hash(&mut branch, level);
    }
    sum ^ bare_hash(&mut [7; 64], round)
        ^ bare_hash(&mut [8; 41], round)
        ^ bare_hash(&mut [9; 64], round)
}

/// The strings of the proof over the first operations: of their leaves, the branches over them, the chunk and two
/// roots.
pub fn bare_range(round: u64) -> u64 {
    let mut leaf = [5; 33];
    let mut branch = [6; 72];
    let mut sum = 0u64;
    for place in 0..SHOWN {
        sum = sum.rotate_left(1) ^ bare_hash(&mut leaf, place) ^ bare_hash(&mut branch, place);
    }
    sum = sum.rotate_left(1) ^ bare_hash(&mut branch, round);
    sum ^ bare_hash(&mut [7; 256], round)
        ^ bare_hash(&mut [8; 41], round)
        ^ bare_hash(&mut [9; 104], round)
}
