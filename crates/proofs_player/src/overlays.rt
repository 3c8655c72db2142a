//! Changes laid over a list of bits, and kept or given up at the end of their line: `bits overlay END STEP..`, and
//! `bits stage END BITS PLACES`.

ghost use Rattle.std.specs.Prelude.{◌≡◌, ◌≤◌, ◌<◌, ◌+◌, ◌-◌, ◌*◌, ◌&&◌, nat_le, nat_lt, IfSome};
ghost use Rattle.std.specs.List.{list_all};
ghost use Rattle.state_theory.specs.Bits.{IsChunkWidth};

use crate::arguments::{Answer, Line, array_digits, bit, bits, number, numbers, truth};
use crate::bits::MOST;
use case_lines::{Unanswered, digits};
use state_proofs::{BitOverlay, BitmapReadable, Prunable, stage_bits};
use std::alloc::Global;
use std::mem;

// Whether the changes are kept at the end of their line.
fn is_kept(end: &str) -> Result<bool, Unanswered> {
    match end {
        "apply" => Ok(true),
        "cancel" => Ok(false),
        _ => Err(Unanswered::BadLine),
    }
}

// The list with the changes, or as it was before them.
fn ended<const N: usize>(overlay: BitOverlay<N>, is_kept: bool) -> Prunable<N> {
    if is_kept {
        overlay.apply()
    } else {
        overlay.cancel()
    }
}

/// Lays changes over the list, one a step, and tells what the steps ask on the way.
pub(crate) fn overlay<const N: usize>(
    alloc: Global,
    list: &mut Prunable<N>,
    end: &str,
    steps: &[&str],
) -> Answer
    requires { IsChunkWidth N }
{
    let is_kept = is_kept(end)?;
    let mut overlay = BitOverlay::new(mem::replace(list, Prunable::new(alloc)));
    let told = walked(alloc, &mut overlay, steps);
    *list = ended(overlay, is_kept && told.is_ok());
    told
}

// What the steps ask, of which each sees the changes of those before it.
fn walked<const N: usize>(alloc: Global, overlay: &mut BitOverlay<N>, steps: &[&str]) -> Answer
    requires { IsChunkWidth N }
{
    let mut line = Line::new(alloc);
    for step in steps {
        take_step(alloc, overlay, &mut line, step)?;
    }
    line.text_or_none()
}

// A step: a change, or a question, whose answer comes to the line.
fn take_step<const N: usize>(
    alloc: Global,
    overlay: &mut BitOverlay<N>,
    line: &mut Line,
    step: &str,
) -> Result<(), Unanswered>
    requires { IsChunkWidth N }
{
    match step.split_once('=') {
        Some(("push", word)) => push(overlay, bit(word)?),
        Some(("clear", word)) => clear(overlay, word.parse()?),
        Some(("reserve", word)) => Ok(overlay.reserve(word.parse()?)?),
        Some((name, word)) => ask(line, asked_at(alloc, overlay, name, word.parse()?)),
        None => ask(line, asked(alloc, overlay, step)),
    }
}

// Puts an answer on the line.
fn ask(line: &mut Line, answer: Answer) -> Result<(), Unanswered> {
    line.say(answer);
    Ok(())
}

// Appends a bit.
fn push<const N: usize>(overlay: &mut BitOverlay<N>, bit: bool) -> Result<(), Unanswered> {
    if overlay.len() >= MOST {
        return Err(Unanswered::BadLine);
    }
    Ok(overlay.push(bit)?)
}

// Clears a bit that is there.
fn clear<const N: usize>(overlay: &mut BitOverlay<N>, at: u64) -> Result<(), Unanswered> {
    if at < overlay.pruned_bits() || at >= overlay.len() {
        return Err(Unanswered::BadLine);
    }
    Ok(overlay.clear(at)?)
}

// A question about a place.
fn asked_at<const N: usize>(
    alloc: Global,
    overlay: &BitOverlay<N>,
    name: &str,
    place: u64,
) -> Answer
    requires { IsChunkWidth N }
{
    match name {
        "get" => bit_told(alloc, overlay, place),
        "chunk" => chunk_told(alloc, overlay, place),
        "read" => chunk_read(alloc, overlay, place),
        _ => Err(Unanswered::BadLine),
    }
}

// Whether a bit that is there is set.
fn bit_told<const N: usize>(alloc: Global, overlay: &BitOverlay<N>, at: u64) -> Answer {
    if at < overlay.pruned_bits() || at >= overlay.len() {
        return Err(Unanswered::BadLine);
    }
    truth(alloc, overlay.get_bit(at))
}

// How many of the bits that are not pruned stand before a chunk, which is not pruned either.
fn first_kept<const N: usize>(overlay: &BitOverlay<N>, chunk: u64) -> Option<u64>
    requires { IsChunkWidth N }
    ensures { IfSome result (λ first. (overlay.now.after.pruned ≤ chunk)
        × (first ≡ 8 * N * (chunk - overlay.now.after.pruned))) }
{
    let behind = chunk.checked_sub(BitmapReadable::<N>::pruned_chunks(overlay))?;
    let first = Prunable::<N>::chunk_size_bits().checked_mul(behind)?;
    Some(first)
}

// The bytes of a chunk that has bits.
fn chunk_told<const N: usize>(alloc: Global, overlay: &BitOverlay<N>, chunk: u64) -> Answer
    requires { IsChunkWidth N }
{
    match first_kept(overlay, chunk) {
        Some(first) if first < overlay.len() - overlay.pruned_bits() => {
            digits(alloc, overlay.chunk_bytes(chunk))
        }
        _ => Err(Unanswered::BadLine),
    }
}

// The same bytes, as a proof's builder reads them.
fn chunk_read<const N: usize>(alloc: Global, overlay: &BitOverlay<N>, chunk: u64) -> Answer
    requires { IsChunkWidth N }
{
    let Some(first) = chunk.checked_mul(Prunable::<N>::chunk_size_bits()) else {
        return Err(Unanswered::BadLine);
    };
    let pruned = BitmapReadable::<N>::pruned_chunks(overlay);
    if chunk < pruned || first >= BitmapReadable::<N>::len(overlay) {
        return Err(Unanswered::BadLine);
    }
    array_digits(alloc, BitmapReadable::<N>::get_chunk(overlay, chunk))
}

// A question about the whole.
fn asked<const N: usize>(alloc: Global, overlay: &BitOverlay<N>, name: &str) -> Answer {
    match name {
        "len" => number(alloc, overlay.len()),
        "added" => number(alloc, overlay.added()),
        "cleared" => number(alloc, overlay.cleared() as u64),
        "pruned_bits" => number(alloc, overlay.pruned_bits()),
        name => read(alloc, overlay, name),
    }
}

// A question as a proof's builder asks it.
fn read<const N: usize>(alloc: Global, overlay: &BitOverlay<N>, name: &str) -> Answer {
    match name {
        "read_len" => number(alloc, BitmapReadable::<N>::len(overlay)),
        "pruned_chunks" => number(alloc, BitmapReadable::<N>::pruned_chunks(overlay)),
        _ => Err(Unanswered::BadLine),
    }
}

// Whether these places are from one on, and before another.
fn are_between(places: &[u64], first: u64, end: u64) -> bool
    ensures { result ≡ list_all (λ at. nat_le first at && nat_lt at end) places.now }
{
    places.iter().all(|at| first <= *at && *at < end)
}

// The bits of a word, or none.
fn new_bits(alloc: Global, word: &str) -> Result<Vec<bool>, Unanswered> {
    match word {
        "none" => Ok(Vec::new(alloc)),
        word => bits(alloc, word, word.len()),
    }
}

/// Appends bits to the list and clears those at these places, and tells how many were appended and how many cleared.
pub(crate) fn stage<const N: usize>(
    alloc: Global,
    list: &mut Prunable<N>,
    end: &str,
    word: &str,
    places: &str,
) -> Answer
    requires { IsChunkWidth N }
{
    let is_kept = is_kept(end)?;
    let (more, places) = (new_bits(alloc, word)?, numbers(alloc, places)?);
    let len = list.len();
    if len >= MOST || more.len() as u64 >= MOST {
        return Err(Unanswered::BadLine);
    }
    if !are_between(&places, list.pruned_bits(), len + more.len() as u64) {
        return Err(Unanswered::BadLine);
    }
    match stage_bits(mem::replace(list, Prunable::new(alloc)), &more, &places) {
        Ok(overlay) => {
            let told = told(alloc, &overlay);
            *list = ended(overlay, is_kept);
            told
        }
        Err(back) => {
            *list = back;
            Err(Unanswered::Memory)
        }
    }
}

// How many bits are appended, and how many are cleared.
fn told<const N: usize>(alloc: Global, overlay: &BitOverlay<N>) -> Answer {
    let mut line = Line::new(alloc);
    line.number(overlay.added());
    line.number(overlay.cleared() as u64);
    line.text()
}
