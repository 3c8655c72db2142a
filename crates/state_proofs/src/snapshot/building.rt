//! Honest proofs: the plain program of the definition (own).

ghost use Rattle.std.specs.Prelude.{◌≡◌, ◌<◌, ◌≤◌, ◌+◌, ℕ, map, take, drop, length, IfOk, IfSome, IsSome, ◌↔◌};
ghost use Rattle.std.specs.Prelude.{option_map};
ghost use Rattle.merkle_forest.specs.Forest.{leaves, forest_of};
ghost use Rattle.merkle_forest.specs.Shape.{shape};
ghost use Rattle.merkle_forest.specs.Trees.{Within};
ghost use Rattle.merkle_forest.specs.TreesCode.{shapes};
ghost use Rattle.state_theory.specs.Canonical.{chunks as all_chunks, grafted_inactive, pending_digest};
ghost use Rattle.state_theory.specs.Honest.{grafted_range, honest_range as range_of, honest_parts};
ghost use Rattle.state_proofs.specs.ProofsCode.{range_parts_of, parts_of};
ghost use Rattle.state_proofs_parts.specs.Snapshot.{state_of, setting_of};

use crate::operation;
use crate::proof::RangeProof;
use merkle_core::Proof;
use merkle_core::building::plain::range_digests_of;
use merkle_forest::bagging::Bagging;
use merkle_forest::forest::{Tree, grow};
use merkle_forest::hasher::{HashFunction, Standard};
use merkle_forest::trees::locate;
use merkle_forest::{Graftable, Location, PendingOf};
use state_proofs_parts::canonical::{
    chunks_of_state, grafted_trees, partial_digest_of, pending_digest_of, root_of_operations,
};
use state_proofs_parts::grafting::{Grafted, aligned_count_of, chunk_over};
use state_proofs_parts::snapshot::Snapshot;
use std::alloc::{AllocError, Global};

// The inactive peaks and the active ones after them.
fn split_peaks<'a, 'b>(
    peaks: &'a [(usize, &'b Tree)],
    inactive: usize,
) -> (&'a [(usize, &'b Tree)], &'a [(usize, &'b Tree)])
    requires { inactive ≤ length peaks.now }
    ensures front { shapes result.0.now ≡ take inactive (shapes peaks.now) }
    ensures back { shapes result.1.now ≡ drop inactive (shapes peaks.now) }
    ensures within_front { (count : ℕ) → Within count (shapes peaks.now) → Within count (shapes result.0.now) }
    ensures within_back { (count : ℕ) → Within count (shapes peaks.now) → Within count (shapes result.1.now) }
{
    peaks.split_at(inactive)
}

// The proof in the grafted tree of the operations from `start` up to `stop`.
fn grafted_proof<F: PendingOf<H::Digest>, H: HashFunction>(
    alloc: Global,
    snapshot: &Snapshot<'_>,
    chunks: &[Vec<u8>],
    trees: &[Tree],
    start: u64,
    stop: u64,
) -> Result<Proof<F, H::Digest>, AllocError>
    requires grown { map shape trees.now ≡ forest_of F.merge_rule (length snapshot.now.operations.now) }
    requires counted { leaves (map shape trees.now) ≡ length snapshot.now.operations.now }
    requires chunked { map (λ chunk. chunk.items) chunks.now
        ≡ all_chunks (setting_of F.merge_rule H.hash_of snapshot.now) (state_of snapshot.now) }
    ensures leaves { IfOk result (λ proof. proof.leaves ≡ length snapshot.now.operations.now) }
    ensures inactive { IfOk result (λ proof. proof.inactive_peaks
        ≡ grafted_inactive (setting_of F.merge_rule H.hash_of snapshot.now) (state_of snapshot.now)) }
    ensures digests { IfOk result (λ proof. map H.Digest.encoding proof.digests.items
        ≡ grafted_range (setting_of F.merge_rule H.hash_of snapshot.now) (state_of snapshot.now) start stop) }
{
    let peaks = locate(alloc, trees)?;
    let inactive = aligned_count_of(snapshot.chunk_size, snapshot.floor, &peaks);
    let grafted: Grafted<'_, H> = grafted_trees(snapshot, chunks);
    let hasher: Standard<H> = Standard::new(Bagging::BackwardFold);
    let (front, back) = split_peaks(&peaks, inactive);
    let digests = range_digests_of::<F, Standard<H>, Grafted<'_, H>>(
        alloc, &hasher, &grafted, start, stop, front, back,
    )?;
    Ok(Proof {
        leaves: Location::new(snapshot.operations.len() as u64),
        inactive_peaks: inactive as u64,
        digests,
    })
}

// What a proof holds of the digest of the chunk that is full and not yet graftable.
fn held_pending<F: Graftable + PendingOf<H::Digest>, H: HashFunction>(
    snapshot: &Snapshot<'_>,
    chunks: &[Vec<u8>],
    trees: &[Tree],
) -> F::Pending
    requires grown { map shape trees.now ≡ forest_of F.merge_rule (length snapshot.now.operations.now) }
    requires counted { leaves (map shape trees.now) ≡ length snapshot.now.operations.now }
    requires chunked { map (λ chunk. chunk.items) chunks.now
        ≡ all_chunks (setting_of F.merge_rule H.hash_of snapshot.now) (state_of snapshot.now) }
    ensures { F.held result ≡ pending_digest (setting_of F.merge_rule H.hash_of snapshot.now) (state_of snapshot.now) }
{
    let digest = pending_digest_of::<F, H>(snapshot, chunks, trees);
    F::hold(digest).unwrap()
}

// The honest proof over the operations from `start` up to `stop`. It fails only when out of memory.
fn honest_range<F: Graftable + PendingOf<H::Digest>, H: HashFunction>(
    alloc: Global,
    snapshot: &Snapshot<'_>,
    chunks: &[Vec<u8>],
    trees: &[Tree],
    start: u64,
    stop: u64,
) -> Result<RangeProof<F, H::Digest>, AllocError>
    requires grown { map shape trees.now ≡ forest_of F.merge_rule (length snapshot.now.operations.now) }
    requires counted { leaves (map shape trees.now) ≡ length snapshot.now.operations.now }
    requires chunked { map (λ chunk. chunk.items) chunks.now
        ≡ all_chunks (setting_of F.merge_rule H.hash_of snapshot.now) (state_of snapshot.now) }
    ensures { IfOk result (λ proof. range_parts_of H.Digest.encoding F.held proof
        ≡ range_of (setting_of F.merge_rule H.hash_of snapshot.now) (state_of snapshot.now) start stop) }
{
    let proof = grafted_proof::<F, H>(alloc, snapshot, chunks, trees, start, stop)?;
    let ops_root = root_of_operations::<F, H>(alloc, snapshot, trees)?;
    let pending_chunk_digest = held_pending::<F, H>(snapshot, chunks, trees);
    let partial_chunk_digest = partial_digest_of::<F, H>(snapshot, chunks);
    Ok(RangeProof {
        proof,
        pending_chunk_digest,
        partial_chunk_digest,
        ops_root,
    })
}

/// The honest proof of the operation at a location. It fails only when out of memory.
/// In the Rust: `qmdb::current::proof::operation::Proof::new`.
pub fn honest_proof<F: Graftable + PendingOf<H::Digest>, H: HashFunction>(
    alloc: Global,
    snapshot: &Snapshot<'_>,
    location: u64,
) -> Result<operation::Proof<F, H::Digest>, AllocError>
    requires { location < length snapshot.now.operations.now }
    ensures { IfOk result (λ proof. parts_of H.Digest.encoding F.held proof
        ≡ honest_parts (setting_of F.merge_rule H.hash_of snapshot.now) (state_of snapshot.now) location) }
{
    let trees = grow::<F>(alloc, snapshot.operations.len() as u64)?;
    let chunks = chunks_of_state(alloc, snapshot)?;
    let stop = location + 1;
    let range_proof = honest_range::<F, H>(alloc, snapshot, &chunks, &trees, location, stop)?;
    Ok(operation::Proof {
        loc: Location::new(location),
        chunk: chunk_over(&chunks, snapshot.chunk_size, location).to_vec(alloc)?,
        range_proof,
    })
}
