//! Sizes of chunks, counts of chunks and peaks, positions in both trees, and chunks joined in: words of no state.

use crate::arguments::{
    Answer, Hash, bits, bytes_list, digest, digest_told, number, numbers_told, refused, shown,
    truth, two_digests,
};
use crate::refusals::{of_proof, of_tree};
use case_lines::{Unanswered, bytes, digits};
use merkle_forest::{ByteHash, Graftable, Location, MAX_LEAVES, Position};
use state_proofs::ChunkSize;
use state_proofs::bits::{chunk_from, chunks_from, is_zero_chunk};
use state_proofs::grafting::{
    chunk_aligned_inactive_peaks, graft, graftable_chunks, graftable_chunks_of, grafted_to_ops_pos,
    height, ops_to_grafted_pos,
};
use state_proofs::required::required_chunks_of;
use state_proofs::seal::seal;
use std::alloc::Global;

// The size of a chunk of so many bytes.
fn size_of_words(width: &str) -> Result<ChunkSize, Unanswered> {
    match ChunkSize::new(width.parse()?) {
        Some(size) => Ok(size),
        None => Err(Unanswered::BadLine),
    }
}

// What is told of a size: the grafting height and the bits of a chunk.
fn size_told(alloc: Global, size: Option<ChunkSize>) -> Answer {
    match size {
        Some(size) => two_told(alloc, u64::from(size.grafting_height), size.bits()),
        None => shown(alloc, "none"),
    }
}

// Two numbers.
fn two_told(alloc: Global, one: u64, other: u64) -> Answer {
    Ok(format!(in alloc; "{one} {other}")?)
}

// What is told of a location: how many chunks are full before it, the index of its chunk, and its bit there.
fn told_at(alloc: Global, size: ChunkSize, location: u64) -> Answer {
    let (full, index) = (size.full_chunks(location), size.index_of(location));
    let bit = size.bit_of(location);
    Ok(format!(in alloc; "{full} {index} {bit}")?)
}

// The height of a node over as many operations as a chunk of so many bytes has bits.
fn heights(alloc: Global, width: &str) -> Answer {
    match width {
        "1" => shown(alloc, height::<1>()),
        "32" => shown(alloc, height::<32>()),
        "64" => shown(alloc, height::<64>()),
        _ => Err(Unanswered::BadLine),
    }
}

/// Lines about the size of chunks: `size WIDTH`, `size_of CHUNK`, `size_at WIDTH LOCATION`, `height WIDTH`.
pub(crate) fn of_sizes(alloc: Global, words: &[&str]) -> Answer {
    match words {
        [name, word] => of_size(alloc, name, word),
        ["size_at", width, location] => told_at(alloc, size_of_words(width)?, location.parse()?),
        _ => Err(Unanswered::BadLine),
    }
}

// The same of those of one word.
fn of_size(alloc: Global, name: &str, word: &str) -> Answer {
    match name {
        "size" => size_told(alloc, ChunkSize::new(word.parse()?)),
        "size_of" => size_told(alloc, ChunkSize::of(&bytes(alloc, word)?)),
        "height" => heights(alloc, word),
        _ => Err(Unanswered::BadLine),
    }
}

// Bits as a chunk of so many bytes.
fn chunk(alloc: Global, width: usize, pattern: &str) -> Answer {
    let bits = bits(alloc, pattern, pattern.len())?;
    digits(alloc, &chunk_from(alloc, width, &bits)?)
}

// Bits as so many chunks.
fn chunks(alloc: Global, size: ChunkSize, count: usize, pattern: &str) -> Answer {
    let bits = bits(alloc, pattern, pattern.len())?;
    bytes_list(alloc, &chunks_from(alloc, size, count, &bits)?)
}

// A chunk joined in over a node.
fn grafted(alloc: Global, chunk: &str, node: &Hash) -> Answer {
    let chunk = bytes(alloc, chunk)?;
    digest_told(alloc, &graft::<ByteHash>(&chunk, node))
}

// The root over these parts: the root of the operations and of the grafted tree, the digest of the pending chunk, and
// behind the number of bits in it that of the partial one.
fn sealed(
    alloc: Global,
    roots: (Hash, Hash),
    pending: Option<Hash>,
    next: u64,
    partial: Option<Hash>,
) -> Answer {
    let (operations, grafted) = roots;
    let root = seal::<ByteHash>(&operations, &grafted, &pending, next, &partial);
    digest_told(alloc, &root)
}

// The root over the parts that these words tell.
fn sealed_of_words(alloc: Global, roots: (Hash, Hash), words: [&str; 3]) -> Answer {
    let [pending, next, partial] = words;
    let (pending, partial) = (optional_digest(pending)?, optional_digest(partial)?);
    sealed(alloc, roots, pending, next.parse()?, partial)
}

/// Lines about bits in chunks: `chunk WIDTH BITS`, `chunks WIDTH COUNT BITS`, `is_zero CHUNK`, `graft CHUNK DIGEST`,
/// `seal OPERATIONS GRAFTED PENDING NEXT PARTIAL`.
pub(crate) fn of_chunks(alloc: Global, words: &[&str]) -> Answer {
    match words {
        ["chunk", width, pattern] => chunk(alloc, width.parse()?, pattern),
        ["is_zero", chunk] => truth(alloc, is_zero_chunk(&bytes(alloc, chunk)?)),
        ["graft", chunk, node] => grafted(alloc, chunk, &digest(node)?),
        words => of_more_chunks(alloc, words),
    }
}

// The same of those with more words.
fn of_more_chunks(alloc: Global, words: &[&str]) -> Answer {
    match words {
        ["chunks", width, count, pattern] => {
            chunks(alloc, size_of_words(width)?, count.parse()?, pattern)
        }
        ["seal", operations, grafted, pending, next, partial] => {
            let roots = two_digests(operations, grafted)?;
            sealed_of_words(alloc, roots, [*pending, *next, *partial])
        }
        _ => Err(Unanswered::BadLine),
    }
}

// A digest, or `none`.
fn optional_digest(word: &str) -> Result<Option<Hash>, Unanswered> {
    match word {
        "none" => Ok(None),
        word => Ok(Some(digest(word)?)),
    }
}

// How many chunks have their node.
fn graftable<F: Graftable>(alloc: Global, leaves: u64, height: u32) -> Answer {
    if leaves > MAX_LEAVES || height == 0 || height > 62 {
        return Err(Unanswered::BadLine);
    }
    number(alloc, graftable_chunks::<F>(Location::new(leaves), height))
}

// How many chunks of this size have their node.
fn graftable_of<F: Graftable>(alloc: Global, leaves: u64, size: ChunkSize) -> Answer {
    if leaves > MAX_LEAVES {
        return Err(Unanswered::BadLine);
    }
    number(alloc, graftable_chunks_of::<F>(leaves, size))
}

// How many first peaks are inactive and end at the border of a chunk.
fn aligned<F: Graftable>(alloc: Global, leaves: &str, floor: &str, height: &str) -> Answer {
    let (leaves, floor): (u64, u64) = (leaves.parse()?, floor.parse()?);
    aligned_at::<F>(
        alloc,
        Location::new(leaves),
        Location::new(floor),
        height.parse()?,
    )
}

// The same, where the nodes over chunks have this height.
fn aligned_at<F: Graftable>(
    alloc: Global,
    leaves: Location<F>,
    floor: Location<F>,
    height: u32,
) -> Answer {
    if height >= 64 {
        return Err(Unanswered::BadLine);
    }
    match chunk_aligned_inactive_peaks::<F>(leaves, floor, height) {
        Ok(count) => shown(alloc, count),
        Err(error) => refused(alloc, of_tree(error)),
    }
}

// The position in the tree of the chunks, and the one that leads back from there.
fn positions<F: Graftable>(alloc: Global, position: u64, grafting_height: u32) -> Answer {
    if position >= F::leaf_position(MAX_LEAVES) {
        return Err(Unanswered::BadLine);
    }
    let node: Position<F> = Position::new(position);
    if F::pos_to_height(node) < grafting_height {
        return Err(Unanswered::BadLine);
    }
    let grafted = ops_to_grafted_pos(node, grafting_height);
    let again = grafted_to_ops_pos(grafted, grafting_height);
    Ok(format!(in alloc; "{grafted} {again}")?)
}

// A location, or `none`.
fn optional_location<F: Graftable>(word: &str) -> Result<Option<Location<F>>, Unanswered> {
    match word {
        "none" => Ok(None),
        word => Ok(Some(Location::new(word.parse()?))),
    }
}

// The chunks that a proof needs.
fn required<F: Graftable>(
    alloc: Global,
    size: ChunkSize,
    leaves: u64,
    bits: u64,
    pruned: u64,
    location: Option<Location<F>>,
) -> Answer {
    if leaves > MAX_LEAVES {
        return Err(Unanswered::BadLine);
    }
    match required_chunks_of(size, Location::new(leaves), bits, pruned, location) {
        Ok(chunks) => {
            let found: Vec<u64> = chunks.collect(alloc)?;
            numbers_told(alloc, &found)
        }
        Err(error) => refused(alloc, of_proof(error)),
    }
}

// The chunks that a proof needs of bits of which so many chunks are pruned.
fn required_of_words<F: Graftable>(
    alloc: Global,
    size: ChunkSize,
    counts: [&str; 3],
    location: &str,
) -> Answer {
    let [leaves, bits, pruned] = counts;
    let location = optional_location::<F>(location)?;
    let (leaves, bits, pruned) = (leaves.parse()?, bits.parse()?, pruned.parse()?);
    required(alloc, size, leaves, bits, pruned, location)
}

/// Lines about counts and positions of a family: `graftable LEAVES HEIGHT`, `graftable_of LEAVES WIDTH`,
/// `aligned LEAVES FLOOR HEIGHT`, `positions POSITION HEIGHT`, `required WIDTH LEAVES BITS PRUNED LOCATION`.
pub(crate) fn of_family<F: Graftable>(alloc: Global, words: &[&str]) -> Answer {
    match words {
        [name, number, more] => of_two::<F>(alloc, name, number.parse()?, more),
        ["aligned", leaves, floor, height] => aligned::<F>(alloc, leaves, floor, height),
        ["required", width, leaves, bits, pruned, location] => {
            let size = size_of_words(width)?;
            required_of_words::<F>(alloc, size, [*leaves, *bits, *pruned], location)
        }
        _ => Err(Unanswered::BadLine),
    }
}

// The same of those with a number and another word.
fn of_two<F: Graftable>(alloc: Global, name: &str, number: u64, more: &str) -> Answer {
    match name {
        "graftable" => graftable::<F>(alloc, number, more.parse()?),
        "graftable_of" => graftable_of::<F>(alloc, number, size_of_words(more)?),
        "positions" => positions::<F>(alloc, number, more.parse()?),
        _ => Err(Unanswered::BadLine),
    }
}
