//! What a map answers whether it knows its root or not.

ghost use Rattle.state_theory.specs.Bits.{IsChunkWidth};

use crate::arguments::{Answer, Hash, Line, array_digits, bit_told, chunk_told, number, truth};
use case_lines::Unanswered;
use state_proofs::BitMap;
use state_proofs::authenticated::State;
use std::alloc::Global;

// Whether a bit that is kept is set.
fn bit_at<const N: usize, M: State<Hash>>(map: &BitMap<Hash, N, M>, at: u64) -> Option<bool> {
    if at < map.pruned_bits() || at >= map.len() {
        return None;
    }
    Some(map.get_bit(at))
}

// The chunk with a bit that is kept.
fn chunk_with<const N: usize, M: State<Hash>>(
    map: &BitMap<Hash, N, M>,
    at: u64,
) -> Option<[u8; N]> {
    if at < map.pruned_bits() || at >= map.len() {
        return None;
    }
    Some(map.get_chunk_containing(at))
}

// The last chunk, and how many of its bits there are.
fn last_chunk<const N: usize, M: State<Hash>>(alloc: Global, map: &BitMap<Hash, N, M>) -> Answer
    requires { IsChunkWidth N }
{
    let (chunk, count) = map.last_chunk();
    let mut line = Line::new(alloc);
    line.say(array_digits(alloc, chunk));
    line.number(count);
    line.text()
}

/// A question that a map answers in both states.
pub(crate) fn told<const N: usize, M: State<Hash>>(
    alloc: Global,
    map: &BitMap<Hash, N, M>,
    name: &str,
) -> Answer
    requires { IsChunkWidth N }
{
    match name {
        "size" => number(alloc, map.size().as_u64()),
        "len" => number(alloc, map.len()),
        "is_empty" => truth(alloc, map.is_empty()),
        "pruned_bits" => number(alloc, map.pruned_bits()),
        "last_chunk" => last_chunk(alloc, map),
        _ => Err(Unanswered::BadLine),
    }
}

/// A question about a bit that a map answers in both states.
pub(crate) fn told_at<const N: usize, M: State<Hash>>(
    alloc: Global,
    map: &BitMap<Hash, N, M>,
    name: &str,
    at: u64,
) -> Answer
    requires { IsChunkWidth N }
{
    match name {
        "get_bit" => bit_told(alloc, bit_at(map, at)),
        "get_chunk_containing" => chunk_told(alloc, chunk_with(map, at)),
        _ => Err(Unanswered::BadLine),
    }
}
