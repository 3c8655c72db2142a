//! The roots of a state, and its honest proofs, by the plain program of their definition.

use crate::arguments::{Answer, Hash, Line, bytes_list, digest_or_none, digest_told, encoded};
use crate::state::State;
use case_lines::Unanswered;
use merkle_forest::forest::grow;
use merkle_forest::trees::locate;
use merkle_forest::{ByteHash, Graftable, PendingOf};
use state_proofs::Snapshot;
use state_proofs::canonical::{
    canonical_root, chunks_of_state, partial_digest_of, pending_digest_of, root_of_grafted,
    root_of_operations,
};
use state_proofs::grafting::{aligned_count_of, graftable_count};
use state_proofs::snapshot::building::honest_proof;
use std::alloc::{AllocError, Global};

/// The roots and digests that the canonical root is made of.
#[derive(Drop)]
struct Parts {
    operations: Hash,
    grafted: Hash,
    pending: Option<Hash>,
    partial: Option<Hash>,
}

// The parts of the canonical root of a state.
fn parts_of<F: Graftable + PendingOf<Hash>>(
    alloc: Global,
    snapshot: &Snapshot<'_>,
) -> Result<Parts, AllocError> {
    let trees = grow::<F>(alloc, snapshot.operations.len() as u64)?;
    let chunks = chunks_of_state(alloc, snapshot)?;
    Ok(Parts {
        operations: root_of_operations::<F, ByteHash>(alloc, snapshot, &trees)?,
        grafted: root_of_grafted::<F, ByteHash>(alloc, snapshot, &chunks, &trees)?,
        pending: pending_digest_of::<F, ByteHash>(snapshot, &chunks, &trees),
        partial: partial_digest_of::<F, ByteHash>(snapshot, &chunks),
    })
}

// How many chunks are graftable, and how many first peaks are inactive and end at the border of a chunk.
fn counts_told<F: Graftable>(alloc: Global, snapshot: &Snapshot<'_>) -> Answer {
    let trees = grow::<F>(alloc, snapshot.operations.len() as u64)?;
    let peaks = locate(alloc, &trees)?;
    let graftable = graftable_count(snapshot.chunk_size, &trees);
    let inactive = aligned_count_of(snapshot.chunk_size, snapshot.floor, &peaks);
    Ok(format!(in alloc; "{graftable} {inactive}")?)
}

// The parts in words.
fn parts_told(alloc: Global, parts: &Parts) -> Answer {
    let mut line = Line::new(alloc);
    line.say(digest_told(alloc, &parts.operations));
    line.say(digest_told(alloc, &parts.grafted));
    line.say(digest_or_none(alloc, parts.pending));
    line.say(digest_or_none(alloc, parts.partial));
    line.text()
}

// The honest proof of an operation.
fn honest<F: Graftable + PendingOf<Hash>>(
    alloc: Global,
    snapshot: &Snapshot<'_>,
    location: u64,
) -> Answer {
    if location >= snapshot.operations.len() as u64 {
        return Err(Unanswered::BadLine);
    }
    encoded(
        alloc,
        &honest_proof::<F, ByteHash>(alloc, snapshot, location)?,
    )
}

/// Lines about the whole state: `canonical_root`, `parts`, `counts`, `chunks`, `honest LOCATION`.
pub(crate) fn told<F: Graftable + PendingOf<Hash>>(
    alloc: Global,
    state: &State<F>,
    words: &[&str],
) -> Answer {
    if state.operations.len() as u64 > 1 << 62 {
        return Err(Unanswered::BadLine);
    }
    let snapshot = Snapshot {
        operations: &state.operations,
        bits: &state.bits,
        floor: state.floor,
        chunk_size: state.chunk_size,
    };
    match words {
        [name] => told_of::<F>(alloc, &snapshot, name),
        ["honest", location] => honest::<F>(alloc, &snapshot, location.parse()?),
        _ => Err(Unanswered::BadLine),
    }
}

// What is told of a state by its definition.
fn told_of<F: Graftable + PendingOf<Hash>>(
    alloc: Global,
    snapshot: &Snapshot<'_>,
    name: &str,
) -> Answer {
    match name {
        "canonical_root" => digest_told(alloc, &canonical_root::<F, ByteHash>(alloc, snapshot)?),
        "parts" => parts_told(alloc, &parts_of::<F>(alloc, snapshot)?),
        "counts" => counts_told::<F>(alloc, snapshot),
        "chunks" => bytes_list(alloc, &chunks_of_state(alloc, snapshot)?),
        _ => Err(Unanswered::BadLine),
    }
}
