//! What is measured, once. Each answers a number that depends on all that was computed.

ghost use Rattle.std.specs.Prelude.{◌≤◌, ◌^◌};

use merkle_forest::codec::{Cursor, FixedBytes, read_number, write_number};
use merkle_forest::family::Family;
use merkle_forest::hasher::{Hasher, Standard};
use merkle_forest::{ByteHash, Location, Position, mmr};
use sha2::{Digest, Sha256};

/// The last byte of the digest of these bytes, the first eight of which are the number's.
pub fn bare_hash(bytes: &mut [u8; 72], number: u64) -> u64 {
    bytes[..8].copy_from_slice(&number.to_be_bytes());
    let digest = Sha256::digest(&bytes[..]);
    u64::from(digest[31])
}

/// The last byte of the digest of the branch at a position.
pub fn branch_digest(
    hasher: &Standard<ByteHash>,
    position: Position<mmr::Family>,
    left: &FixedBytes<32>,
    right: &FixedBytes<32>,
) -> u64 {
    let digest = hasher.node_digest(position, left, right);
    u64::from(digest.bytes[31])
}

// A leaf count at the base or up to 1023 above it. Over a power of two its forest has at most eleven peaks.
fn leaves_near(base: u64, number: u64) -> Location<mmr::Family>
    requires { base ≤ 2 ^ 61 }
    ensures { result ≤ 2 ^ 62 }
{
    Location::new(base + number % 1024)
}

/// The position of a leaf at the base or a little above it.
pub fn position(base: u64, number: u64) -> u64
    requires { base ≤ 2 ^ 61 }
{
    mmr::Family::location_to_position(leaves_near(base, number)).as_u64()
}

/// The positions and the heights of the peaks of the base's number of leaves or a little more, folded into one number.
pub fn peaks(base: u64, number: u64) -> u64
    requires { base ≤ 2 ^ 61 }
{
    let size = mmr::Family::location_to_position(leaves_near(base, number));
    let mut sum = 0u64;
    for (position, height) in mmr::Family::peaks(size) {
        sum = sum.rotate_left(1) ^ position.as_u64() ^ u64::from(height);
    }
    sum
}

/// The last byte of the varint of a number a little above the least one, or 0 when out of memory.
pub fn write_varint(out: &mut Vec<u8>, least: u64, number: u64) -> u64 {
    out.clear();
    match write_number(out, least | number % 128) {
        Ok(()) => out.last().map_or(0, |byte| u64::from(*byte)),
        Err(_) => 0,
    }
}

/// The number whose varint begins the bytes, or 0 where there is none.
pub fn read_varint(bytes: &[u8]) -> u64 {
    read_number(&mut Cursor::new(bytes)).unwrap_or(0)
}
