//! What is measured, once. Each answers a number that depends on all that was computed.

ghost use Rattle.std.specs.Prelude.{◌≤◌};
ghost use Rattle.state_theory.specs.Bits.{IsChunkWidth};

use merkle_forest::bagging::Bagging;
use merkle_forest::codec::FixedBytes;
use merkle_forest::hasher::{ByteHash, Standard};
use sha2::{Digest, Sha256};
use state_proofs::bitmap_error::Error;
use state_proofs::{MerkleizedBitMap, UnmerkleizedBitMap};
use std::alloc::{AllocError, Global};

/// How many bits a map has.
pub const BITS: u64 = 1_000_000;

type Bytes = FixedBytes<32>;

type Hashing = Standard<ByteHash>;

// The last byte of the digest of bytes, the first of which are the number's.
fn hashed_bytes(bytes: &mut [u8], number: u64) -> u64 {
    if let Some(front) = bytes.first_chunk_mut::<8>() {
        *front = number.to_be_bytes();
    }
    let digest = Sha256::digest(&*bytes);
    u64::from(digest[31])
}

/// The digests of so many chunks of at most 64 bytes with their positions, and of as many branches.
pub fn hashed(width: usize, chunks: u64, round: u64) -> u64
    requires { width ≤ 64 }
{
    let mut leaf = [3; 72];
    let mut branch = [5; 72];
    let mut sum = round;
    for i in 0..chunks {
        sum = sum.rotate_left(1) ^ hashed_bytes(&mut leaf[..8 + width], i);
        sum = sum.rotate_left(1) ^ hashed_bytes(&mut branch, i);
    }
    sum
}

/// The digests of so many leaves, of chunks of one byte, each with 17 branches.
pub fn hashed_paths(paths: u64, round: u64) -> u64 {
    let mut leaf = [3; 9];
    let mut branch = [5; 72];
    let mut sum = round;
    for i in 0..paths {
        sum = sum.rotate_left(1) ^ hashed_bytes(&mut leaf, i);
        for height in 0..17 {
            sum = sum.rotate_left(1) ^ hashed_bytes(&mut branch, height);
        }
    }
    sum
}

// The map with bits more up to a million, of which some every third one is set.
fn with_bits<const N: usize>(
    map: UnmerkleizedBitMap<Bytes, N>,
    round: u64,
) -> Result<UnmerkleizedBitMap<Bytes, N>, AllocError> {
    let mut map = map;
    let mut pattern = 0x9249_2492_4924_9249u64 ^ round;
    for _ in 0..BITS {
        if map.len() < BITS {
            map.push(pattern % 2 == 1)?;
        }
        pattern = pattern.rotate_right(1);
    }
    Ok(map)
}

// A map of a million bits.
fn filled<const N: usize>(
    alloc: Global,
    hasher: &Hashing,
    round: u64,
) -> Result<MerkleizedBitMap<Bytes, N>, Error>
    requires { IsChunkWidth N }
{
    let map = MerkleizedBitMap::<Bytes, N>::new(alloc, hasher);
    with_bits(map.into_dirty(), round)?.merkleize(hasher)
}

// The map with 40 bytes more at a time, up to a million bits, of which some every third one is set.
fn with_bytes<const N: usize>(
    map: UnmerkleizedBitMap<Bytes, N>,
    round: u64,
) -> Result<UnmerkleizedBitMap<Bytes, N>, AllocError> {
    let mut map = map;
    let mut part = [0x92; 40];
    part[0] ^= round.to_le_bytes()[0];
    for _ in 0..BITS / 320 {
        if map.len() % 8 == 0 && map.len() < BITS {
            map.push_bytes(&part)?;
        }
    }
    Ok(map)
}

// A map of a million bits, pushed as bytes.
fn filled_by_bytes<const N: usize>(
    alloc: Global,
    hasher: &Hashing,
    round: u64,
) -> Result<MerkleizedBitMap<Bytes, N>, Error>
    requires { IsChunkWidth N }
{
    let map = MerkleizedBitMap::<Bytes, N>::new(alloc, hasher);
    with_bytes(map.into_dirty(), round)?.merkleize(hasher)
}

// The last byte of the root of a map, or 0 when out of memory.
fn told<const N: usize>(map: Result<MerkleizedBitMap<Bytes, N>, Error>) -> u64 {
    match map {
        Ok(map) => u64::from(map.root().bytes[31]),
        Err(_) => 0,
    }
}

// The last byte of its root, or 0 when out of memory.
fn pushed<const N: usize>(alloc: Global, round: u64) -> u64
    requires { IsChunkWidth N }
{
    let hasher = Hashing::new(Bagging::BackwardFold);
    told(filled::<N>(alloc, &hasher, round))
}

/// The last byte of the root of a million bits that are pushed as bytes, in chunks of 32 bytes, or 0 when out of
/// memory.
pub fn pushed_parts(alloc: Global, round: u64) -> u64 {
    let hasher = Hashing::new(Bagging::BackwardFold);
    told(filled_by_bytes::<32>(alloc, &hasher, round))
}

/// The last byte of the root of a million bits in chunks of one byte, or 0 when out of memory.
pub fn pushed_bytes(alloc: Global, round: u64) -> u64 {
    pushed::<1>(alloc, round)
}

/// The last byte of the root of a million bits in chunks of 32 bytes, or 0 when out of memory.
pub fn pushed_words(alloc: Global, round: u64) -> u64 {
    pushed::<32>(alloc, round)
}

// The map with one bit set or cleared, if it has it.
fn with_set(
    map: MerkleizedBitMap<Bytes, 1>,
    hasher: &Hashing,
    bit: u64,
    value: bool,
) -> Result<MerkleizedBitMap<Bytes, 1>, Error> {
    let mut map = map.into_dirty();
    if bit < map.len() && bit >= map.pruned_bits() {
        map.set_bit(bit, value)?;
    }
    map.merkleize(hasher)
}

fn set_often(alloc: Global, times: u64) -> Result<u64, Error> {
    let hasher = Hashing::new(Bagging::BackwardFold);
    let mut map = filled::<1>(alloc, &hasher, 0)?;
    for i in 0..times {
        map = with_set(map, &hasher, i.wrapping_mul(7919) % BITS, i % 2 == 0)?;
    }
    Ok(u64::from(map.root().bytes[31]))
}

/// The last byte of the root of a million bits in chunks of one byte after one of them was set so many times, each
/// time with the root made again; 0 when out of memory.
pub fn set(alloc: Global, times: u64) -> u64 {
    set_often(alloc, times).unwrap_or(0)
}
