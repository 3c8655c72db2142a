//! The nodes that a proof over a range of operations tells.

ghost use Rattle.std.specs.Prelude.{◌≡◌, ◌≤◌, ◌^◌, ◌*◌, ℕ, map, IfOk, IfErr, OnOk};
ghost use Rattle.merkle_proofs.specs.Extracted.{AreExtracted};
ghost use Rattle.merkle_theory.specs.Ranges.{Digests};
ghost use Rattle.state_proofs.specs.ProofsCode.{range_parts_of};
ghost use Rattle.state_proofs.specs.RangeExtracted.{IsRefusalToTell, ShowsDigests, shown_with, told_by};
ghost use Rattle.state_theory.specs.Verified.{IsShaped, VerifiesRange};
ghost use Rattle.state_proofs.specs.ShownCode.{shown_of};

use crate::proof::RangeProof;
use crate::proof::verifying::{Shown, led_root, shown_hasher};
use crate::verify::{encodings, lent};
use merkle_core::ExtractionError;
use merkle_core::extraction::extract;
use merkle_core::verifying::peaks::Reader;
use merkle_forest::codec::Encode;
use merkle_forest::{Graftable, HashFunction, Location, PendingOf, Position};
use state_proofs_parts::chunk_size::ChunkSize;
use state_proofs_parts::grafting::graftable_chunks_of;
use std::alloc::{AllocError, Global};
use std::marker::PhantomData;

// The bytes of each chunk, lent.
fn lent_chunks<'a, const N: usize>(
    alloc: Global,
    chunks: &'a [[u8; N]],
) -> Result<Vec<&'a [u8]>, AllocError>
    ensures { IfOk result (λ found. map (λ chunk. chunk.now) found.items ≡ chunks.now) }
{
    let mut found: Vec<&'a [u8]> = Vec::new(alloc);
    let mut rest = chunks;
    while let [chunk, later @ ..] = rest {
        found.push(chunk.as_slice())?;
        rest = later;
    }
    Ok(found)
}

// The nodes that the proof tells of what is shown, each with its digest, in ascending position.
fn told_nodes<F: Graftable + PendingOf<H::Digest>, H: HashFunction>(
    alloc: Global,
    proof: &RangeProof<F, H::Digest>,
    shown: &Shown<'_>,
) -> Result<Vec<(Position<F>, H::Digest)>, AllocError>
    requires few { proof.now.proof.leaves ≤ 2 ^ 62 }
    requires shaped { IsShaped proof.now.proof.leaves (shown_of shown.now) }
    ensures { (digest : Digests) → ShowsDigests F.merge_rule H.hash_of shown.now.chunk_size.grafting_height
        (range_parts_of H.Digest.encoding F.held proof.now) (shown_of shown.now) digest
        → IfOk result (λ found. AreExtracted H.Digest.encoding digest
        (told_by F.merge_rule (range_parts_of H.Digest.encoding F.held proof.now) (shown_of shown.now)) found.items) }
{
    let leaves = proof.proof.leaves.as_u64();
    let graftable = graftable_chunks_of::<F>(leaves, shown.chunk_size);
    let verifier = shown_hasher::<F, H, _>(shown, graftable);
    let reader = Reader {
        hasher: &verifier,
        leaves,
        start: shown.start,
        elements: shown.operations,
        family: PhantomData,
    };
    extract(
        alloc,
        &reader,
        proof.proof.inactive_peaks,
        &proof.proof.digests,
    )
}

// The nodes that the proof tells of these encoded operations and chunks, where it leads from there to this root.
fn extract_encoded<F: Graftable + PendingOf<H::Digest>, H: HashFunction>(
    alloc: Global,
    proof: &RangeProof<F, H::Digest>,
    start: u64,
    operations: &[&[u8]],
    chunks: &[&[u8]],
    chunk_size: ChunkSize,
    root: &H::Digest,
) -> Result<Vec<(Position<F>, H::Digest)>, ExtractionError>
    ensures shown { OnOk result (VerifiesRange F.merge_rule H.hash_of (H.Digest.encoding root.now)
        (range_parts_of H.Digest.encoding F.held proof.now) (shown_with start (map (λ e. e.now) operations.now)
        (map (λ chunk. chunk.now) chunks.now) chunk_size.width)) }
    ensures told { (digest : Digests) → ShowsDigests F.merge_rule H.hash_of chunk_size.grafting_height
        (range_parts_of H.Digest.encoding F.held proof.now) (shown_with start (map (λ e. e.now) operations.now)
        (map (λ chunk. chunk.now) chunks.now) chunk_size.width) digest
        → IfOk result (λ found. AreExtracted H.Digest.encoding digest
        (told_by F.merge_rule (range_parts_of H.Digest.encoding F.held proof.now) (shown_with start
        (map (λ e. e.now) operations.now) (map (λ chunk. chunk.now) chunks.now) chunk_size.width)) found.items) }
    ensures refused { IfErr result (IsRefusalToTell F.merge_rule H.hash_of (H.Digest.encoding root.now)
        (range_parts_of H.Digest.encoding F.held proof.now) (shown_with start (map (λ e. e.now) operations.now)
        (map (λ chunk. chunk.now) chunks.now) chunk_size.width)) }
{
    let shown = Shown {
        start,
        operations,
        chunks,
        chunk_size,
    };
    let Some(led) = led_root::<F, H, _>(proof, &shown) else {
        return Err(ExtractionError::InvalidProof);
    };
    if led != *root {
        return Err(ExtractionError::RootMismatch);
    }
    Ok(told_nodes::<F, H>(alloc, proof, &shown)?)
}

/// The nodes of the grafted tree that the proof tells, each with its position and its digest, in ascending position,
/// where it shows that these operations stand in the state of this root from a location on, and that the chunks over
/// them are these: the peaks that it gives singly, and in the peaks that meet the range each node that it gives or that
/// is made of others. Where the proof leads to no root, for the size of chunks, the shape of what is shown, the digest
/// of a chunk, or too few digests or too many: M15; to another root: M17; out of memory: M23.
/// In the Rust: `qmdb::current::proof::verify_proof_and_extract_digests`, which takes no allocator.
pub fn verify_proof_and_extract_digests<
    F: Graftable + PendingOf<H::Digest>,
    H: HashFunction,
    O: Encode,
    const N: usize,
>(
    alloc: Global,
    proof: &RangeProof<F, H::Digest>,
    start_loc: Location<F>,
    operations: &[O],
    chunks: &[[u8; N]],
    target_root: &H::Digest,
) -> Result<Vec<(Position<F>, H::Digest)>, ExtractionError>
    ensures shown { OnOk result (VerifiesRange F.merge_rule H.hash_of (H.Digest.encoding target_root.now)
        (range_parts_of H.Digest.encoding F.held proof.now)
        (shown_with start_loc (map O.encoding operations.now) chunks.now N)) }
    ensures told { (grafting_height : ℕ) (digest : Digests) → 8 * N ≡ 2 ^ grafting_height
        → ShowsDigests F.merge_rule H.hash_of grafting_height (range_parts_of H.Digest.encoding F.held proof.now)
        (shown_with start_loc (map O.encoding operations.now) chunks.now N) digest
        → IfOk result (λ found. AreExtracted H.Digest.encoding digest
        (told_by F.merge_rule (range_parts_of H.Digest.encoding F.held proof.now)
        (shown_with start_loc (map O.encoding operations.now) chunks.now N)) found.items) }
    ensures refused { IfErr result (IsRefusalToTell F.merge_rule H.hash_of (H.Digest.encoding target_root.now)
        (range_parts_of H.Digest.encoding F.held proof.now)
        (shown_with start_loc (map O.encoding operations.now) chunks.now N)) }
{
    let Some(chunk_size) = ChunkSize::new(N) else {
        return Err(ExtractionError::InvalidProof);
    };
    let encoded = encodings(alloc, operations)?;
    let elements = lent(alloc, &encoded)?;
    let shown_chunks = lent_chunks(alloc, chunks)?;
    extract_encoded::<F, H>(
        alloc,
        proof,
        start_loc.as_u64(),
        &elements,
        &shown_chunks,
        chunk_size,
        target_root,
    )
}
