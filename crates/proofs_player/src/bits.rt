//! Lists of bits in chunks, of which chunks are pruned from the front: `bits NEW | CHANGE | QUESTION`, and changes that
//! are laid over one (`overlays`).

ghost use Rattle.state_theory.specs.Bits.{IsChunkWidth};

use crate::arguments::{
    Answer, Line, array_digits, bit, bit_told, bits, chunk_told, done, done_if, number, truth,
};
use crate::overlays::{overlay, stage};
use case_lines::{Unanswered, bytes, digits};
use state_proofs::Prunable;
use std::alloc::Global;

/// The most bits that a case may have, and the most that a line may add.
pub(crate) const MOST: u64 = 1 << 40;

/// A list of bits, in chunks of one of these sizes.
#[derive(Drop)]
pub(crate) enum Bits {
    /// In chunks of one byte.
    One(Prunable<1>),
    /// In chunks of two bytes.
    Two(Prunable<2>),
    /// In chunks of four bytes.
    Four(Prunable<4>),
}

// No bits behind so many chunks that are pruned.
fn begun<const N: usize>(alloc: Global, chunks: u64) -> Result<Prunable<N>, Unanswered>
    requires { IsChunkWidth N }
{
    if chunks > MOST {
        return Err(Unanswered::BadLine);
    }
    match Prunable::<N>::chunk_size_bits().checked_mul(chunks) {
        Some(_) => Ok(Prunable::new_with_pruned_chunks(alloc, chunks)),
        None => Err(Unanswered::BadLine),
    }
}

impl Bits {
    /// No bits, in chunks of one byte.
    pub(crate) fn none(alloc: Global) -> Bits {
        Bits::One(Prunable::new(alloc))
    }

    /// The list of which these are the words for the size of its chunks and how many are pruned.
    fn of_words(alloc: Global, width: &str, chunks: u64) -> Result<Bits, Unanswered> {
        match width {
            "1" => Ok(Bits::One(begun(alloc, chunks)?)),
            "2" => Ok(Bits::Two(begun(alloc, chunks)?)),
            "4" => Ok(Bits::Four(begun(alloc, chunks)?)),
            _ => Err(Unanswered::BadLine),
        }
    }

    /// The answer to a line about a list of bits.
    pub(crate) fn answer(&mut self, alloc: Global, words: &[&str]) -> Answer {
        match words {
            ["new", width, chunks] => self.begin(alloc, width, chunks.parse()?),
            words => self.of_width(alloc, words),
        }
    }

    // Begins anew.
    fn begin(&mut self, alloc: Global, width: &str, chunks: u64) -> Answer {
        *self = Bits::of_words(alloc, width, chunks)?;
        done(alloc)
    }

    // The answer of the list, whatever the size of its chunks.
    fn of_width(&mut self, alloc: Global, words: &[&str]) -> Answer {
        match self {
            Bits::One(list) => of_list(alloc, list, words),
            Bits::Two(list) => of_list(alloc, list, words),
            Bits::Four(list) => of_list(alloc, list, words),
        }
    }
}

fn of_list<const N: usize>(alloc: Global, list: &mut Prunable<N>, words: &[&str]) -> Answer
    requires { IsChunkWidth N }
{
    match words {
        ["overlay", end, steps @ ..] => overlay(alloc, list, end, steps),
        ["stage", end, more, places] => stage(alloc, list, end, more, places),
        words => of_call(alloc, list, words),
    }
}

// A call of the list itself.
fn of_call<const N: usize>(alloc: Global, list: &mut Prunable<N>, words: &[&str]) -> Answer
    requires { IsChunkWidth N }
{
    match words {
        [name] => told(alloc, list, name),
        [name, word] => with_word(alloc, list, name, word),
        [name, word, more] => done_if(alloc, changed_by_two(alloc, list, name, word, more)),
        _ => Err(Unanswered::BadLine),
    }
}

// A call with one word behind its name.
fn with_word<const N: usize>(
    alloc: Global,
    list: &mut Prunable<N>,
    name: &str,
    word: &str,
) -> Answer
    requires { IsChunkWidth N }
{
    match name {
        "push" => done_if(alloc, push(alloc, list, word, word.len())),
        "bytes" => done_if(alloc, push_bytes(alloc, list, word)),
        name => with_number(alloc, list, name, word.parse()?),
    }
}

// A call with one number behind its name.
fn with_number<const N: usize>(
    alloc: Global,
    list: &mut Prunable<N>,
    name: &str,
    number: u64,
) -> Answer
    requires { IsChunkWidth N }
{
    match name {
        "prune" => done_if(alloc, prune(list, number)),
        "get" => bit_told(alloc, bit_at(list, number)),
        "chunk" => bytes_told(alloc, full_chunk(list, number)),
        "chunk_with" => chunk_told(alloc, chunk_with(list, number)),
        _ => Err(Unanswered::BadLine),
    }
}

// A change with two words behind its name.
fn changed_by_two<const N: usize>(
    alloc: Global,
    list: &mut Prunable<N>,
    name: &str,
    word: &str,
    more: &str,
) -> Result<(), Unanswered> {
    match name {
        "push" => push(alloc, list, word, more.parse()?),
        "set" => set(list, word.parse()?, bit(more)?),
        _ => Err(Unanswered::BadLine),
    }
}

// Appends so many bits, which repeat those of a word.
fn push<const N: usize>(
    alloc: Global,
    list: &mut Prunable<N>,
    pattern: &str,
    count: usize,
) -> Result<(), Unanswered> {
    push_all(list, &bits(alloc, pattern, count)?)
}

// Appends bits.
fn push_all<const N: usize>(list: &mut Prunable<N>, bits: &[bool]) -> Result<(), Unanswered> {
    for bit in bits {
        if list.len() >= MOST {
            return Err(Unanswered::BadLine);
        }
        list.push(*bit)?;
    }
    Ok(())
}

// Appends the bits of the bytes of these digits, where those that are there fill theirs.
fn push_bytes<const N: usize>(
    alloc: Global,
    list: &mut Prunable<N>,
    digits: &str,
) -> Result<(), Unanswered> {
    let bytes = bytes(alloc, digits)?;
    if list.len() % 8 != 0 || list.len() >= MOST || bytes.len() as u64 >= MOST {
        return Err(Unanswered::BadLine);
    }
    Ok(list.push_bytes(&bytes)?)
}

// Sets or clears a bit that is kept.
fn set<const N: usize>(list: &mut Prunable<N>, at: u64, value: bool) -> Result<(), Unanswered> {
    if at < list.pruned_bits() || at >= list.len() {
        return Err(Unanswered::BadLine);
    }
    list.set_bit(at, value);
    Ok(())
}

// Prunes the chunks before one, which the full ones reach.
fn prune<const N: usize>(list: &mut Prunable<N>, chunk: u64) -> Result<(), Unanswered> {
    if chunk < list.pruned_chunks() || chunk > list.complete_chunks() {
        return Err(Unanswered::BadLine);
    }
    list.prune_to_chunk(chunk);
    Ok(())
}

// Whether a bit that is kept is set.
fn bit_at<const N: usize>(list: &Prunable<N>, at: u64) -> Option<bool> {
    if at < list.pruned_bits() || at >= list.len() {
        return None;
    }
    Some(list.get_bit(at))
}

// The chunk with a bit that is kept.
fn chunk_with<const N: usize>(list: &Prunable<N>, at: u64) -> Option<[u8; N]> {
    if at < list.pruned_bits() || at >= list.len() {
        return None;
    }
    Some(list.get_chunk_containing(at))
}

// A full chunk that is kept.
fn full_chunk<const N: usize>(list: &Prunable<N>, chunk: u64) -> Option<&[u8]> {
    if chunk < list.pruned_chunks() || chunk >= list.complete_chunks() {
        return None;
    }
    Some(list.get_chunk(chunk))
}

// The bytes of a chunk, if it is there.
fn bytes_told(alloc: Global, chunk: Option<&[u8]>) -> Answer {
    match chunk {
        Some(chunk) => digits(alloc, chunk),
        None => Err(Unanswered::BadLine),
    }
}

// The last chunk, and how many of its bits there are.
fn last_chunk<const N: usize>(alloc: Global, list: &Prunable<N>) -> Answer
    requires { IsChunkWidth N }
{
    let (chunk, count) = list.last_chunk();
    let mut line = Line::new(alloc);
    line.say(array_digits(alloc, chunk));
    line.number(count);
    line.text()
}

// A question about the whole list.
fn told<const N: usize>(alloc: Global, list: &Prunable<N>, name: &str) -> Answer
    requires { IsChunkWidth N }
{
    match name {
        "len" => number(alloc, list.len()),
        "is_empty" => truth(alloc, list.is_empty()),
        "is_chunk_aligned" => truth(alloc, list.is_chunk_aligned()),
        "last_chunk" => last_chunk(alloc, list),
        name => counted(alloc, list, name),
    }
}

// A count of the whole list.
fn counted<const N: usize>(alloc: Global, list: &Prunable<N>, name: &str) -> Answer
    requires { IsChunkWidth N }
{
    match name {
        "chunk_size_bits" => number(alloc, Prunable::<N>::chunk_size_bits()),
        "complete_chunks" => number(alloc, list.complete_chunks()),
        "pruned_chunks" => number(alloc, list.pruned_chunks()),
        "pruned_bits" => number(alloc, list.pruned_bits()),
        _ => Err(Unanswered::BadLine),
    }
}
