//! Bits in chunks.
//!
//! Bit i of a state stands in chunk i / (8 width), and in it in byte i / 8, as bit i mod 8 from the least: with
//! chunks of one byte the bits `1 0 0 0 0 0 0 0  1 1 0` are the chunks `01` and `03`, and the second one is partial:
//! zeros stand for what is not there.

ghost use Rattle.std.specs.Prelude.{◌≡◌, ◌<◌, ◌≤◌, ◌+◌, ◌*◌, ◌^◌, ◌++◌, [], ◌∷◌, ℕ, List, map, take, drop, length};
ghost use Rattle.std.specs.Prelude.{IfOk, OnOk};
ghost use Rattle.state_theory.specs.Bits.{byte_of, chunk_of, chunks_of};
ghost use Rattle.state_theory.specs.SetBits.{is_zero};

use crate::chunk_size::ChunkSize;
use std::alloc::{AllocError, Global};

// The byte of up to eight bits, the least first.
fn byte_from(bits: &[bool]) -> u8
    requires { length bits.now ≤ 8 }
    ensures { result ≡ byte_of bits.now }
{
    match bits {
        [] => 0,
        [bit, rest @ ..] => (if *bit { 1 } else { 0 }) + 2 * byte_from(rest),
    }
}

// The first `count` bits, or all where there are fewer, and the bits after them.
fn split_front(bits: &[bool], count: usize) -> (&[bool], &[bool])
    ensures front { result.0.now ≡ take count bits.now }
    ensures back { result.1.now ≡ drop count bits.now }
{
    if bits.len() < count {
        bits.split_at(bits.len())
    } else {
        bits.split_at(count)
    }
}

/// A chunk of `width` bytes from the first bits: zeros where there are no more bits (own). It fails only when out of
/// memory.
pub fn chunk_from(alloc: Global, width: usize, bits: &[bool]) -> Result<Vec<u8>, AllocError>
    ensures { IfOk result (λ chunk. chunk.items ≡ chunk_of width bits.now) }
{
    let mut chunk = Vec::new(alloc);
    let mut rest = bits;
    for _ in 0..width {
        let (byte, later) = split_front(rest, 8);
        chunk.push(byte_from(byte))?;
        rest = later;
    }
    Ok(chunk)
}

// A chunk of N bytes from the first bits: zeros where there are no more bits. It takes no memory.
pub(crate) fn chunk_array<const N: usize>(bits: &[bool]) -> [u8; N]
    ensures { result ≡ chunk_of N bits.now }
{
    let mut chunk = [0; N];
    let mut rest = bits;
    for index in 0..N {
        let (eight, later) = split_front(rest, 8);
        chunk[index] = byte_from(eight);
        rest = later;
    }
    chunk
}

/// The first `count` chunks (own). It fails only when out of memory.
pub fn chunks_from(
    alloc: Global,
    chunk_size: ChunkSize,
    count: usize,
    bits: &[bool],
) -> Result<Vec<Vec<u8>>, AllocError>
    ensures { IfOk result (λ chunks. map (λ chunk. chunk.items) chunks.items
        ≡ chunks_of chunk_size.width count bits.now) }
{
    let mut chunks = Vec::new(alloc);
    let mut rest = bits;
    for _ in 0..count {
        chunks.push(chunk_from(alloc, chunk_size.width, rest)?)?;
        let (_, later) = split_front(rest, chunk_size.bits() as usize);
        rest = later;
    }
    Ok(chunks)
}

/// Whether no bit of the chunk is set (own).
pub fn is_zero_chunk(chunk: &[u8]) -> bool
    ensures { result ≡ is_zero chunk.now }
{
    chunk.iter().all(|byte| *byte == 0)
}
