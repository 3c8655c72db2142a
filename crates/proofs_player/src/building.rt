//! Proofs that are built out of trees and bits.

ghost use Rattle.state_theory.specs.Bits.{IsChunkWidth};

use crate::arguments::{Answer, Hash, Line, array_digits, encoded, numbers, numbers_told, refused};
use crate::grafted::both;
use crate::kept_bits::{KeptBits, Numbers};
use crate::refusals::{of_proof, of_tree};
use crate::state::State;
use case_lines::Unanswered;
use merkle_core::{ElementPlan, RangePlan, Readable};
use merkle_forest::codec::Encode;
use merkle_forest::{ByteHash, Graftable, Location, PendingOf};
use state_proofs::{Error, RangeProof, RangeProofSpec, operation};
use std::alloc::Global;
use std::num::NonZeroU64;

/// What proofs are built out of, apart from nodes.
#[derive(Drop)]
struct Source<'a, const N: usize> {
    bits: KeptBits<'a, N>,
    log: &'a [u64],
    floor: u64,
    root: Hash,
}

// The encoding of a proof, or its refusal.
fn told<F: Graftable, P: Encode>(alloc: Global, proof: Result<P, Error<F>>) -> Answer {
    match proof {
        Ok(proof) => encoded(alloc, &proof),
        Err(error) => refused(alloc, of_proof(error)),
    }
}

// The proof over a range, from a plan and from the nodes that are not withheld.
fn build_range<F: Graftable + PendingOf<Hash>, S: Readable<F, Digest = Hash>, const N: usize>(
    alloc: Global,
    source: &Source<'_, N>,
    nodes: &S,
    start: u64,
    stop: u64,
    withheld: &[u64],
) -> Answer
    requires { IsChunkWidth N }
{
    let leaves = Location::new(nodes.leaf_count());
    let plan = match RangePlan::<F>::new(alloc, leaves, Location::new(start)..Location::new(stop)) {
        Ok(plan) => plan,
        Err(error) => return refused(alloc, of_tree(error)),
    };
    let proof = RangeProof::build::<ByteHash, _, _, N>(
        &source.bits,
        &plan,
        &|position| given(nodes, withheld, position),
        Location::new(source.floor),
        source.root,
    );
    told(alloc, proof)
}

// The digest of a node, unless it is withheld.
fn given<F: Graftable, S: Readable<F, Digest = Hash>>(
    nodes: &S,
    withheld: &[u64],
    position: u64,
) -> Option<Hash> {
    if withheld.contains(&position) {
        return None;
    }
    nodes.node_digest(position)
}

// The proof of one operation, from a plan and from the nodes that are not withheld.
fn build_one<F: Graftable + PendingOf<Hash>, S: Readable<F, Digest = Hash>, const N: usize>(
    alloc: Global,
    source: &Source<'_, N>,
    nodes: &S,
    location: u64,
    withheld: &[u64],
) -> Answer
    requires { IsChunkWidth N }
{
    let leaves = Location::new(nodes.leaf_count());
    let plan = match ElementPlan::<F>::new(alloc, leaves, Location::new(location)) {
        Ok(plan) => plan,
        Err(error) => return refused(alloc, of_tree(error)),
    };
    let proof = operation::Proof::<F, Hash>::build::<ByteHash, _, _, N>(
        alloc,
        &source.bits,
        plan,
        &|position| given(nodes, withheld, position),
        Location::new(source.floor),
        source.root,
    );
    told(alloc, proof)
}

// At most so many operations from a location on, with their proof and their chunks.
fn ask<F: Graftable + PendingOf<Hash>, S: Readable<F, Digest = Hash>, const N: usize>(
    alloc: Global,
    source: &Source<'_, N>,
    nodes: &S,
    start: u64,
    most: NonZeroU64,
) -> Answer
    requires { IsChunkWidth N }
{
    let request = RangeProofSpec {
        start_loc: Location::new(start),
        max_ops: most,
        inactivity_floor: Location::new(source.floor),
        ops_root: source.root,
    };
    let log = Numbers {
        numbers: source.log,
    };
    let answered = RangeProof::new_with_ops::<ByteHash, _, _, _, N>(
        alloc,
        &source.bits,
        nodes,
        &log,
        request,
    );
    match answered {
        Ok((proof, operations, chunks)) => asked(alloc, &proof, &operations, &chunks),
        Err(error) => refused(alloc, of_proof(error)),
    }
}

// Operations with their proof and their chunks.
fn asked<P: Encode, const N: usize>(
    alloc: Global,
    proof: &P,
    operations: &[u64],
    chunks: &[[u8; N]],
) -> Answer {
    let mut line = Line::new(alloc);
    line.say(encoded(alloc, proof));
    line.say(numbers_told(alloc, operations));
    for chunk in chunks {
        line.say(array_digits(alloc, *chunk));
    }
    line.text()
}

// The proof over a range of a tree.
fn new_range<F: Graftable + PendingOf<Hash>, S: Readable<F, Digest = Hash>, const N: usize>(
    alloc: Global,
    source: &Source<'_, N>,
    nodes: &S,
    start: u64,
    stop: u64,
) -> Answer
    requires { IsChunkWidth N }
{
    let proof = RangeProof::new::<ByteHash, _, _, N>(
        alloc,
        &source.bits,
        nodes,
        Location::new(source.floor),
        Location::new(start)..Location::new(stop),
        source.root,
    );
    told(alloc, proof)
}

// The proof of one operation of a tree.
fn new_one<F: Graftable + PendingOf<Hash>, S: Readable<F, Digest = Hash>, const N: usize>(
    alloc: Global,
    source: &Source<'_, N>,
    nodes: &S,
    location: u64,
) -> Answer
    requires { IsChunkWidth N }
{
    let proof = operation::Proof::<F, Hash>::new::<ByteHash, _, _, N>(
        alloc,
        &source.bits,
        nodes,
        Location::new(source.floor),
        Location::new(location),
        source.root,
    );
    told(alloc, proof)
}

// A line about proofs, over a tree.
fn over<F: Graftable + PendingOf<Hash>, S: Readable<F, Digest = Hash>, const N: usize>(
    alloc: Global,
    source: &Source<'_, N>,
    nodes: &S,
    words: &[&str],
) -> Answer
    requires { IsChunkWidth N }
{
    match words {
        ["one", location] => new_one(alloc, source, nodes, location.parse()?),
        [name, number, word] => over_by(alloc, source, nodes, name, number.parse()?, word),
        ["build_range", start, stop, list] => {
            let withheld = numbers(alloc, list)?;
            build_range(
                alloc,
                source,
                nodes,
                start.parse()?,
                stop.parse()?,
                &withheld,
            )
        }
        _ => Err(Unanswered::BadLine),
    }
}

// A line of this name about proofs, of a number and another word.
fn over_by<F: Graftable + PendingOf<Hash>, S: Readable<F, Digest = Hash>, const N: usize>(
    alloc: Global,
    source: &Source<'_, N>,
    nodes: &S,
    name: &str,
    number: u64,
    word: &str,
) -> Answer
    requires { IsChunkWidth N }
{
    match name {
        "range" => new_range(alloc, source, nodes, number, word.parse()?),
        "ask" => ask(alloc, source, nodes, number, word.parse()?),
        "build_one" => build_one(alloc, source, nodes, number, &numbers(alloc, word)?),
        _ => Err(Unanswered::BadLine),
    }
}

// A line about proofs, with chunks of N bytes: over both trees where there is one of the chunks.
fn of_width<F: Graftable + PendingOf<Hash>, const N: usize>(
    alloc: Global,
    state: &State<F>,
    root: Hash,
    words: &[&str],
) -> Answer
    requires { IsChunkWidth N }
{
    let Some(bits) = KeptBits::<N>::new(&state.bits, state.pruned) else {
        return Err(Unanswered::BadLine);
    };
    let source = Source {
        bits,
        log: &state.log,
        floor: state.floor,
        root,
    };
    match &state.chunks {
        Some(chunks) => over(alloc, &source, &both(&state.tree, chunks), words),
        None => over(alloc, &source, &state.tree, words),
    }
}

/// Lines that build proofs: `range START STOP`, `one LOCATION`, `ask START MOST`, `build_range START STOP WITHHELD`,
/// `build_one LOCATION WITHHELD`.
pub(crate) fn of_state<F: Graftable + PendingOf<Hash>>(
    alloc: Global,
    state: &State<F>,
    root: Hash,
    words: &[&str],
) -> Answer {
    match state.chunk_size.width {
        1 => of_width::<F, 1>(alloc, state, root, words),
        32 => of_width::<F, 32>(alloc, state, root, words),
        _ => Err(Unanswered::BadLine),
    }
}
