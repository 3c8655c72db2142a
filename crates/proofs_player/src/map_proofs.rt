//! Proofs of bits: made by a map, shown as they are, and shown with other leaves.

ghost use Rattle.state_theory.specs.Bits.{IsChunkWidth};

use crate::arguments::{
    Answer, Hash, Line, all_numbers, array, array_digits, digest, digest_list, digest_or_none,
    digests, truth, truth_if,
};
use crate::maps::refused;
use case_lines::Unanswered;
use merkle_core::Proof;
use merkle_forest::hasher::Standard;
use merkle_forest::mmr::Family;
use merkle_forest::{ByteHash, Location};
use state_proofs::MerkleizedBitMap;
use state_proofs::inclusion::root_of_bit;
use std::alloc::{AllocError, Global};

/// A proof of a bit, and the chunk with it.
type Proven<const N: usize> = (Proof<Family, Hash>, [u8; N]);

/// Whether a bit is set, read off its chunk: `bit_from_chunk CHUNK BIT`.
pub(crate) fn bit_from_chunk<const N: usize>(alloc: Global, chunk: &str, bit: &str) -> Answer
    requires { IsChunkWidth N }
{
    let chunk: [u8; N] = array(chunk)?;
    truth(
        alloc,
        MerkleizedBitMap::<Hash, N>::get_bit_from_chunk(&chunk, bit.parse()?),
    )
}

// The proof of these words: leaves, inactive peaks and digests.
fn proof_of_words(
    alloc: Global,
    leaves: &str,
    inactive: &str,
    list: &str,
) -> Result<Proof<Family, Hash>, Unanswered> {
    Ok(Proof {
        leaves: Location::new(leaves.parse()?),
        inactive_peaks: inactive.parse()?,
        digests: digests(alloc, list)?,
    })
}

/// What a proof that is spelled shows: `shows LEAVES INACTIVE DIGESTS CHUNK BIT ROOT`, or the root that it leads to:
/// `leads LEAVES INACTIVE DIGESTS CHUNK BIT`.
pub(crate) fn of_proof<const N: usize>(
    alloc: Global,
    hasher: &Standard<ByteHash>,
    words: &[&str],
) -> Answer
    requires { IsChunkWidth N }
{
    match words {
        [name, leaves, inactive, list, chunk, bit, root @ ..] => {
            let proven: Proven<N> = (
                proof_of_words(alloc, leaves, inactive, list)?,
                array(chunk)?,
            );
            of_proven(alloc, hasher, &proven, bit.parse()?, name, root)
        }
        _ => Err(Unanswered::BadLine),
    }
}

// Whether the proof shows a bit under a root, or the root that it leads to.
fn of_proven<const N: usize>(
    alloc: Global,
    hasher: &Standard<ByteHash>,
    proven: &Proven<N>,
    bit: u64,
    name: &str,
    root: &[&str],
) -> Answer
    requires { IsChunkWidth N }
{
    match root {
        [root] if name == "shows" => truth_if(
            alloc,
            shows(alloc, hasher, proven, bit, &digest(root)?),
        ),
        [] if name == "leads" => led_to(alloc, hasher, proven, bit),
        _ => Err(Unanswered::BadLine),
    }
}

// The root that the proof leads to.
fn led_to<const N: usize>(
    alloc: Global,
    hasher: &Standard<ByteHash>,
    proven: &Proven<N>,
    bit: u64,
) -> Answer
    requires { IsChunkWidth N }
{
    let (proof, chunk) = proven;
    digest_or_none(alloc, root_of_bit(alloc, hasher, proof, chunk, bit)?)
}

// Whether the proof shows that its chunk is that of a bit.
fn shows<const N: usize>(
    alloc: Global,
    hasher: &Standard<ByteHash>,
    proven: &Proven<N>,
    bit: u64,
    root: &Hash,
) -> Result<bool, AllocError>
    requires { IsChunkWidth N }
{
    let (proof, chunk) = proven;
    MerkleizedBitMap::<Hash, N>::verify_bit_inclusion(alloc, hasher, proof, chunk, bit, root)
}

/// Lines about proofs that a map makes, with other leaves: `tails BIT TAIL COUNT..`, `lengths STEP MOST OTHER..`.
pub(crate) fn of_map<const N: usize>(
    alloc: Global,
    hasher: &Standard<ByteHash>,
    map: &MerkleizedBitMap<Hash, N>,
    words: &[&str],
) -> Answer
    requires { IsChunkWidth N }
{
    match words {
        [name, words @ ..] => of_map_by(alloc, hasher, map, name, &all_numbers(alloc, words)?),
        [] => Err(Unanswered::BadLine),
    }
}

// The line of this name about such proofs.
fn of_map_by<const N: usize>(
    alloc: Global,
    hasher: &Standard<ByteHash>,
    map: &MerkleizedBitMap<Hash, N>,
    name: &str,
    numbers: &[u64],
) -> Answer
    requires { IsChunkWidth N }
{
    match numbers {
        [bit, tail, counts @ ..] if name == "tails" => {
            tails(alloc, hasher, map, *bit, *tail, counts)
        }
        [step, most, others @ ..] if name == "lengths" => {
            lengths(alloc, hasher, map, *step, *most, others)
        }
        _ => Err(Unanswered::BadLine),
    }
}

// A proof in words: leaves, inactive peaks, digests and chunk.
fn spelled<const N: usize>(alloc: Global, proven: &Proven<N>) -> Answer {
    let (proof, chunk) = proven;
    let mut line = Line::new(alloc);
    line.number(proof.leaves.as_u64());
    line.number(proof.inactive_peaks);
    line.say(digest_list(alloc, &proof.digests));
    line.say(array_digits(alloc, *chunk));
    line.text()
}

/// The proof of a bit in words.
pub(crate) fn proof<const N: usize>(
    alloc: Global,
    hasher: &Standard<ByteHash>,
    map: &MerkleizedBitMap<Hash, N>,
    bit: u64,
) -> Answer
    requires { IsChunkWidth N }
{
    if bit < map.pruned_bits() {
        return Err(Unanswered::BadLine);
    }
    match map.proof(hasher, bit) {
        Ok(proven) => spelled(alloc, &proven),
        Err(error) => refused(alloc, error),
    }
}

// The proof of a bit that is there and kept.
fn kept_proof<const N: usize>(
    hasher: &Standard<ByteHash>,
    map: &MerkleizedBitMap<Hash, N>,
    bit: u64,
) -> Result<Proven<N>, Unanswered> {
    if bit < map.pruned_bits() {
        return Err(Unanswered::BadLine);
    }
    match map.proof(hasher, bit) {
        Ok(proven) => Ok(proven),
        Err(_) => Err(Unanswered::BadLine),
    }
}

// The bits that the proof shows with these leaves, where they end in a tail after so many full chunks: of the tail's
// chunk all are tried, and of each chunk before it the first.
fn shown_in_tail<const N: usize>(
    alloc: Global,
    hasher: &Standard<ByteHash>,
    proven: &Proven<N>,
    full: u64,
    root: &Hash,
) -> Answer
    requires { IsChunkWidth N }
{
    let size = MerkleizedBitMap::<Hash, N>::chunk_size_bits();
    let start = full.wrapping_mul(size);
    let mut line = Line::new(alloc);
    for chunk in 0..full {
        let bit = chunk.wrapping_mul(size);
        line.number_if(bit, shows(alloc, hasher, proven, bit, root));
    }
    for bit in start..start.wrapping_add(size) {
        line.number_if(bit, shows(alloc, hasher, proven, bit, root));
    }
    line.text()
}

// What is shown of something, in brackets behind it.
fn bracketed(alloc: Global, of: u64, shown: Answer) -> Answer {
    let shown = shown?;
    Ok(format!(in alloc; "{of}:({shown})")?)
}

// The proof of a bit with its leaves put to a tail of so many bits after each of these counts of full chunks, and for
// each the bits that it then shows.
fn tails<const N: usize>(
    alloc: Global,
    hasher: &Standard<ByteHash>,
    map: &MerkleizedBitMap<Hash, N>,
    bit: u64,
    tail: u64,
    counts: &[u64],
) -> Answer
    requires { IsChunkWidth N }
{
    let mut proven = kept_proof(hasher, map, bit)?;
    let mut line = Line::new(alloc);
    for full in counts {
        let start = full.wrapping_mul(MerkleizedBitMap::<Hash, N>::chunk_size_bits());
        proven.0.leaves = Location::new(start.wrapping_add(tail));
        let shown = shown_in_tail(alloc, hasher, &proven, *full, &map.root());
        line.say(bracketed(alloc, *full, shown));
    }
    line.text()
}

// The leaves with which the proof of a bit shows it: of the lengths up to the most, and of these others.
fn shown_lengths<const N: usize>(
    alloc: Global,
    hasher: &Standard<ByteHash>,
    map: &MerkleizedBitMap<Hash, N>,
    bit: u64,
    most: u64,
    others: &[u64],
) -> Answer
    requires { IsChunkWidth N }
{
    let mut proven = kept_proof(hasher, map, bit)?;
    let mut line = Line::new(alloc);
    for leaves in 0..most {
        proven.0.leaves = Location::new(leaves);
        line.number_if(leaves, shows(alloc, hasher, &proven, bit, &map.root()));
    }
    for leaves in others {
        proven.0.leaves = Location::new(*leaves);
        line.number_if(*leaves, shows(alloc, hasher, &proven, bit, &map.root()));
    }
    line.text()
}

// For the first bit of every so many: the leaves with which its proof shows it, of those below the most and of others.
fn lengths<const N: usize>(
    alloc: Global,
    hasher: &Standard<ByteHash>,
    map: &MerkleizedBitMap<Hash, N>,
    step: u64,
    most: u64,
    others: &[u64],
) -> Answer
    requires { IsChunkWidth N }
{
    let mut line = Line::new(alloc);
    for count in 0..map.len() {
        let bit = count.wrapping_mul(step);
        if bit >= map.pruned_bits() && bit < map.len() {
            let shown = shown_lengths(alloc, hasher, map, bit, most, others);
            line.say(bracketed(alloc, bit, shown));
        }
    }
    line.text()
}
