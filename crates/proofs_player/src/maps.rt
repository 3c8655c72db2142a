//! Bits with a root over them: `map NEW | CHANGE | QUESTION`.

ghost use Rattle.state_theory.specs.Bits.{IsChunkWidth};

use crate::arguments::{
    Answer, Hash, Line, bagging, bit, bits, digest_list, digest_or_none, digest_told, digests,
    done, done_if, number, shown,
};
use crate::map_proofs;
use crate::map_told::{told, told_at};
use case_lines::{Unanswered, bytes};
use merkle_forest::hasher::Standard;
use merkle_forest::{Bagging, ByteHash, Position};
use state_proofs::bitmap_error::Error;
use state_proofs::{MerkleizedBitMap, UnmerkleizedBitMap};
use std::alloc::Global;
use std::mem;

// The most bits that a case may have, and the most that a line may add.
const MOST: u64 = 1 << 40;

/// A map that knows its root, or one that has changed since.
#[derive(Drop)]
enum Stage<const N: usize> {
    Merkleized(MerkleizedBitMap<Hash, N>),
    Changed(UnmerkleizedBitMap<Hash, N>),
    GivenUp,
}

/// A map in chunks of one size, and the hasher that it is handed.
#[derive(Drop)]
struct Hashed<const N: usize> {
    hasher: Standard<ByteHash>,
    stage: Stage<N>,
}

/// A map, in chunks of one of these sizes.
#[derive(Drop)]
enum AnyWidth {
    One(Hashed<1>),
    ThirtyTwo(Hashed<32>),
    SixtyFour(Hashed<64>),
}

/// The map of a case, once it has one.
#[derive(Drop)]
pub(crate) struct Map {
    of_width: Option<AnyWidth>,
}

/// The answer to the refusal of a call.
pub(crate) fn refused(alloc: Global, error: Error) -> Answer {
    match error {
        Error::InvalidPinnedNodes => shown(alloc, "M12"),
        Error::DataCorrupted => shown(alloc, "M21"),
        Error::BitOutOfBounds(bit, length) => out_of_bounds(alloc, bit, length),
        Error::Memory => shown(alloc, "M23"),
    }
}

// The answer to the refusal of a bit that is past the end.
fn out_of_bounds(alloc: Global, bit: u64, length: u64) -> Answer {
    Ok(format!(in alloc; "M22 {bit} {length}")?)
}

// The answer of a call that has nothing to answer, or its refusal.
fn changed(alloc: Global, changed: Result<(), Error>) -> Answer {
    match changed {
        Ok(()) => done(alloc),
        Err(error) => refused(alloc, error),
    }
}

// A map without bits, with this hasher.
fn empty<const N: usize>(alloc: Global, hasher: Standard<ByteHash>) -> Hashed<N>
    requires { IsChunkWidth N }
{
    let stage = Stage::Merkleized(MerkleizedBitMap::new(alloc, &hasher));
    Hashed { hasher, stage }
}

impl<const N: usize> Hashed<N> {
    // Takes from the map the knowledge of its root.
    fn into_dirty(&mut self, alloc: Global) -> Answer {
        match mem::replace(&mut self.stage, Stage::GivenUp) {
            Stage::Merkleized(map) => {
                self.stage = Stage::Changed(map.into_dirty());
                done(alloc)
            }
            stage => {
                self.stage = stage;
                Err(Unanswered::BadLine)
            }
        }
    }

    // Leads to a map that knows its root.
    fn merkleize(&mut self, alloc: Global) -> Answer
        requires { IsChunkWidth N }
    {
        match mem::replace(&mut self.stage, Stage::GivenUp) {
            Stage::Changed(map) => {
                let made = map.merkleize(&self.hasher);
                self.put(alloc, made)
            }
            stage => {
                self.stage = stage;
                Err(Unanswered::BadLine)
            }
        }
    }

    // Makes the map of pruned parts, which stands in this one's place.
    fn from_parts(&mut self, alloc: Global, chunks: u64, list: &str) -> Answer
        requires { IsChunkWidth N }
    {
        let digests = digests(alloc, list)?;
        match MerkleizedBitMap::from_pruned(alloc, &self.hasher, chunks, &digests) {
            Ok(map) => self.put(alloc, Ok(map)),
            Err(error) => refused(alloc, error),
        }
    }

    // Puts a map in this one's place, if it could be made.
    fn put(&mut self, alloc: Global, made: Result<MerkleizedBitMap<Hash, N>, Error>) -> Answer {
        match made {
            Ok(map) => {
                self.stage = Stage::Merkleized(map);
                done(alloc)
            }
            Err(error) => refused(alloc, error),
        }
    }

    // The answer to a line about the map.
    fn answer(&mut self, alloc: Global, words: &[&str]) -> Answer
        requires { IsChunkWidth N }
    {
        match words {
            [name] => self.answer_alone(alloc, name, words),
            ["from_pruned", chunks, list] => self.from_parts(alloc, chunks.parse()?, list),
            words => self.answer_in_stage(alloc, words),
        }
    }

    // The answer to a line of one word.
    fn answer_alone(&mut self, alloc: Global, name: &str, words: &[&str]) -> Answer
        requires { IsChunkWidth N }
    {
        match name {
            "chunk_size_bits" => number(alloc, MerkleizedBitMap::<Hash, N>::chunk_size_bits()),
            "into_dirty" => self.into_dirty(alloc),
            "merkleize" => self.merkleize(alloc),
            _ => self.of_stage(alloc, words),
        }
    }

    // The answer to a line that asks the map, or changes what it holds.
    fn answer_in_stage(&mut self, alloc: Global, words: &[&str]) -> Answer
        requires { IsChunkWidth N }
    {
        match words {
            ["bit_from_chunk", chunk, bit] => map_proofs::bit_from_chunk::<N>(alloc, chunk, bit),
            ["shows" | "leads", ..] => map_proofs::of_proof::<N>(alloc, &self.hasher, words),
            words => self.of_stage(alloc, words),
        }
    }

    // The answer to a line that asks the map, or changes its bits.
    fn of_stage(&mut self, alloc: Global, words: &[&str]) -> Answer
        requires { IsChunkWidth N }
    {
        match &mut self.stage {
            Stage::Merkleized(map) => of_merkleized(alloc, &self.hasher, map, words),
            Stage::Changed(map) => of_changed(alloc, map, words),
            Stage::GivenUp => Err(Unanswered::BadLine),
        }
    }
}

// How many chunks are pruned, and the digests that stay of them.
fn pruned_parts<const N: usize>(alloc: Global, map: &MerkleizedBitMap<Hash, N>) -> Answer {
    let (chunks, digests) = map.pruned_parts()?;
    let mut line = Line::new(alloc);
    line.number(chunks);
    line.say(digest_list(alloc, &digests));
    line.text()
}

// Prunes the full chunks before that of a bit, which the bits reach.
fn prune_to_bit<const N: usize>(
    alloc: Global,
    map: &mut MerkleizedBitMap<Hash, N>,
    bit: u64,
) -> Answer {
    if bit > map.len() {
        return Err(Unanswered::BadLine);
    }
    changed(alloc, map.prune_to_bit(bit))
}

// A call on a map that knows its root.
fn of_merkleized<const N: usize>(
    alloc: Global,
    hasher: &Standard<ByteHash>,
    map: &mut MerkleizedBitMap<Hash, N>,
    words: &[&str],
) -> Answer
    requires { IsChunkWidth N }
{
    match words {
        [name] => of_merkleized_alone(alloc, map, name),
        [name, at] => of_merkleized_at(alloc, hasher, map, name, at.parse()?),
        words => map_proofs::of_map(alloc, hasher, map, words),
    }
}

// A question with nothing behind its name to a map that knows its root.
fn of_merkleized_alone<const N: usize>(
    alloc: Global,
    map: &MerkleizedBitMap<Hash, N>,
    name: &str,
) -> Answer
    requires { IsChunkWidth N }
{
    match name {
        "root" => digest_told(alloc, &map.root()),
        "pruned_parts" => pruned_parts(alloc, map),
        name => told(alloc, map, name),
    }
}

// A call with a number on a map that knows its root.
fn of_merkleized_at<const N: usize>(
    alloc: Global,
    hasher: &Standard<ByteHash>,
    map: &mut MerkleizedBitMap<Hash, N>,
    name: &str,
    at: u64,
) -> Answer
    requires { IsChunkWidth N }
{
    match name {
        "get_node" => digest_or_none(alloc, map.get_node(Position::new(at))),
        "prune_to_bit" => prune_to_bit(alloc, map, at),
        "proof" => map_proofs::proof(alloc, hasher, map, at),
        name => told_at(alloc, map, name, at),
    }
}

// Appends so many bits, which repeat those of a word.
fn push<const N: usize>(
    alloc: Global,
    map: &mut UnmerkleizedBitMap<Hash, N>,
    pattern: &str,
    count: usize,
) -> Result<(), Unanswered> {
    push_all(map, &bits(alloc, pattern, count)?)
}

// Appends bits.
fn push_all<const N: usize>(
    map: &mut UnmerkleizedBitMap<Hash, N>,
    bits: &[bool],
) -> Result<(), Unanswered> {
    for bit in bits {
        if map.len() >= MOST {
            return Err(Unanswered::BadLine);
        }
        map.push(*bit)?;
    }
    Ok(())
}

// Appends the bits of the bytes of these digits, where those that are there fill theirs.
fn push_bytes<const N: usize>(
    alloc: Global,
    map: &mut UnmerkleizedBitMap<Hash, N>,
    digits: &str,
) -> Result<(), Unanswered> {
    let bytes = bytes(alloc, digits)?;
    if map.len() % 8 != 0 || map.len() >= MOST || bytes.len() as u64 >= MOST {
        return Err(Unanswered::BadLine);
    }
    Ok(map.push_bytes(&bytes)?)
}

// Sets or clears a bit that is kept.
fn set_bit<const N: usize>(
    map: &mut UnmerkleizedBitMap<Hash, N>,
    at: u64,
    value: bool,
) -> Result<(), Unanswered> {
    if at < map.pruned_bits() || at >= map.len() {
        return Err(Unanswered::BadLine);
    }
    Ok(map.set_bit(at, value)?)
}

// A call on a map that may have changed since its root was made.
fn of_changed<const N: usize>(
    alloc: Global,
    map: &mut UnmerkleizedBitMap<Hash, N>,
    words: &[&str],
) -> Answer
    requires { IsChunkWidth N }
{
    match words {
        [name] => told(alloc, map, name),
        [name, word] => of_changed_with(alloc, map, name, word),
        [name, word, more] => done_if(alloc, changed_by_two(alloc, map, name, word, more)),
        _ => Err(Unanswered::BadLine),
    }
}

// A change of such a map with two words behind its name.
fn changed_by_two<const N: usize>(
    alloc: Global,
    map: &mut UnmerkleizedBitMap<Hash, N>,
    name: &str,
    word: &str,
    more: &str,
) -> Result<(), Unanswered> {
    match name {
        "push" => push(alloc, map, word, more.parse()?),
        "set_bit" => set_bit(map, word.parse()?, bit(more)?),
        _ => Err(Unanswered::BadLine),
    }
}

// A call with one word behind its name on such a map.
fn of_changed_with<const N: usize>(
    alloc: Global,
    map: &mut UnmerkleizedBitMap<Hash, N>,
    name: &str,
    word: &str,
) -> Answer
    requires { IsChunkWidth N }
{
    match name {
        "push" => done_if(alloc, push(alloc, map, word, word.len())),
        "push_bytes" => done_if(alloc, push_bytes(alloc, map, word)),
        name => told_at(alloc, map, name, word.parse()?),
    }
}

impl Map {
    /// No map.
    pub(crate) fn none() -> Map {
        Map { of_width: None }
    }

    // The map without bits of chunks of so many bytes.
    fn begun(&mut self, alloc: Global, width: &str, fold: Bagging) -> Answer {
        let hasher = Standard::new(fold);
        self.of_width = match width {
            "1" => Some(AnyWidth::One(empty(alloc, hasher))),
            "32" => Some(AnyWidth::ThirtyTwo(empty(alloc, hasher))),
            "64" => Some(AnyWidth::SixtyFour(empty(alloc, hasher))),
            _ => return Err(Unanswered::BadLine),
        };
        done(alloc)
    }

    /// The answer to a line about a map.
    pub(crate) fn answer(&mut self, alloc: Global, words: &[&str]) -> Answer {
        match words {
            ["new", width, fold] => self.begun(alloc, width, bagging(fold)?),
            words => self.answer_of_width(alloc, words),
        }
    }

    // The answer of the map, whatever the size of its chunks.
    fn answer_of_width(&mut self, alloc: Global, words: &[&str]) -> Answer {
        match &mut self.of_width {
            Some(AnyWidth::One(map)) => map.answer(alloc, words),
            Some(AnyWidth::ThirtyTwo(map)) => map.answer(alloc, words),
            Some(AnyWidth::SixtyFour(map)) => map.answer(alloc, words),
            None => Err(Unanswered::BadLine),
        }
    }
}
