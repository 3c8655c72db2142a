//! Roots rebuilt from a proof of a range of elements.

ghost use Rattle.std.specs.Prelude.{◌≡◌, ◌<◌, ◌≤◌, ◌+◌, ◌^◌, ◌↔◌, [], ℕ, IsTrue, map, length, take, drop, option_map};
ghost use Rattle.std.specs.Prelude.{IfErr, OnOk};
ghost use Rattle.std.specs.Result.{result_ok};
ghost use Rattle.merkle_forest.specs.declared.bagging.Bagging.{Bagging};
ghost use Rattle.merkle_forest.specs.Made.{value};
ghost use Rattle.merkle_theory.specs.RangeCounts.{range_outer};
ghost use Rattle.merkle_theory.specs.MadeRoots.{Naming, from_left, peaks_of, read_root};
ghost use Rattle.merkle_theory.specs.MadeTrees.{Over, from};
ghost use Rattle.merkle_proofs.specs.Reconstruction.{HasRange, IsRefusalToReconstruct};
ghost use Rattle.merkle_theory.specs.Reads.{HashesAs, range_root};

pub mod counts;
pub mod error;
pub mod peaks;
pub mod tree;

use crate::proof::Proof;
use crate::subtree::peaks_from;
use crate::verifying::counts::count_outer;
use crate::verifying::error::ReconstructionError;
use crate::verifying::peaks::{Reader, read_peaks};
use merkle_forest::bagging::Bagging;
use merkle_forest::family::{Family, MAX_LEAVES};
use merkle_forest::hasher::Hasher;
use merkle_forest::location::Location;
use merkle_forest::root::root_over_item;
use std::marker::PhantomData;

// How many peaks are folded singly from the left: by ForwardFold all.
pub(crate) fn folded_singly(bagging: Bagging, inactive: u64, peaks: u64) -> u64
    ensures { result ≡ from_left bagging inactive peaks }
{
    match bagging {
        Bagging::ForwardFold => peaks,
        Bagging::BackwardFold => inactive,
    }
}

// The first digests, so many or all that there are, and the others.
pub(crate) fn split_digests<D>(digests: &[D], count: usize) -> (&[D], &[D])
    ensures { (result.0.now ≡ take count digests.now) × (result.1.now ≡ drop count digests.now) }
{
    if count > digests.len() {
        return (digests, &[]);
    }
    digests.split_at(count)
}

// Whether no digest is left.
fn is_used_up<D>(outer: &[D], inner: &[D]) -> bool
    ensures { IsTrue result ↔ ((outer.now ≡ []) × (inner.now ≡ [])) }
{
    outer.is_empty() && inner.is_empty()
}

// The root, from the digests of the proof.
fn root_over<F: Family, H: Hasher<F>>(
    reader: &Reader<'_, F, H>,
    inactive: u64,
    digests: &[H::Digest],
) -> Result<H::Digest, ReconstructionError>
    requires few { reader.now.leaves ≤ MAX_LEAVES }
    requires some { 0 < length reader.now.elements.now }
    requires within { reader.now.start + length reader.now.elements.now ≤ reader.now.leaves }
    ensures root { (names : Naming) (over : Over)
        → HashesAs F.merge_rule H.hash_of (H.leaf_of reader.now.hasher.now) (H.node_of reader.now.hasher.now) over
        → let stop : ℕ = reader.now.start + length reader.now.elements.now in
        let bagging : Bagging = H.bagging_of reader.now.hasher.now in
        option_map H.Digest.encoding (result_ok result)
        ≡ option_map (value H.hash_of) (read_root names over bagging F.merge_rule reader.now.leaves inactive
        reader.now.start stop (from reader.now.start (map (λ e. e.now) reader.now.elements.now))
        (range_outer bagging reader.now.start stop inactive (peaks_of F.merge_rule reader.now.leaves))
        (map H.Digest.encoding digests.now)) }
    ensures refused { (over : Over)
        → HashesAs F.merge_rule H.hash_of (H.leaf_of reader.now.hasher.now) (H.node_of reader.now.hasher.now) over
        → IfErr result (λ e. IsRefusalToReconstruct (H.bagging_of reader.now.hasher.now) F.merge_rule (record {
          leaves = reader.now.leaves;
          inactive = inactive;
          start = reader.now.start;
          count = length reader.now.elements.now;
          digests = length digests.now;
        }) e) }
{
    let stop = reader.start + reader.elements.len() as u64;
    let peaks = peaks_from::<F>(reader.leaves, 0);
    if inactive > peaks {
        return Err(ReconstructionError::InvalidProof);
    }
    let bagging = reader.hasher.root_bagging();
    let outer_count = count_outer::<F>(
        bagging,
        reader.leaves,
        peaks,
        inactive,
        reader.start,
        stop,
    ) as usize;
    let (outer, inner) = split_digests(digests, outer_count);
    let singly = folded_singly(bagging, inactive, peaks);
    let Some(bag) = read_peaks(reader, singly, outer, inner) else {
        return Err(ReconstructionError::MissingDigests);
    };
    if !is_used_up(bag.1, bag.2) {
        return Err(ReconstructionError::ExtraDigests);
    }
    Ok(root_over_item(reader.hasher, reader.leaves, inactive, &bag.0))
}

/// The root of the tree, rebuilt from the proof of the elements that stand in it from a location on. Where no element
/// is shown: `MissingElements`; the tree is too large: `InvalidSize`; the range begins past its leaves:
/// `InvalidStartLoc`, or ends past them: `InvalidEndLoc`; the tree has fewer peaks than are inactive: `InvalidProof`;
/// there are fewer digests than the proof of the range has: `MissingDigests`, or more: `ExtraDigests`, each in this
/// order. It takes no memory.
/// In the Rust: `merkle::proof::Proof::reconstruct_root`, which is here too.
pub fn reconstruct_range<F: Family, H: Hasher<F>>(
    hasher: &H,
    proof: &Proof<F, H::Digest>,
    start: Location<F>,
    elements: &[&[u8]],
) -> Result<H::Digest, ReconstructionError>
    ensures root { (names : Naming) (over : Over)
        → HashesAs F.merge_rule H.hash_of (H.leaf_of hasher.now) (H.node_of hasher.now) over
        → option_map H.Digest.encoding (result_ok result)
        ≡ option_map (value H.hash_of) (range_root names over (H.bagging_of hasher.now) F.merge_rule proof.now.leaves
        proof.now.inactive_peaks start (map (λ e. e.now) elements.now)
        (map H.Digest.encoding proof.now.digests.items)) }
    ensures within { OnOk result (HasRange (record {
      leaves = proof.now.leaves;
      inactive = proof.now.inactive_peaks;
      start = start;
      count = length elements.now;
      digests = length proof.now.digests.items;
    })) }
    ensures refused { (over : Over)
        → HashesAs F.merge_rule H.hash_of (H.leaf_of hasher.now) (H.node_of hasher.now) over
        → IfErr result (λ e. IsRefusalToReconstruct (H.bagging_of hasher.now) F.merge_rule (record {
          leaves = proof.now.leaves;
          inactive = proof.now.inactive_peaks;
          start = start;
          count = length elements.now;
          digests = length proof.now.digests.items;
        }) e) }
{
    let count = elements.len() as u64;
    if count == 0 {
        return Err(ReconstructionError::MissingElements);
    }
    let leaves = proof.leaves.as_u64();
    if leaves > MAX_LEAVES {
        return Err(ReconstructionError::InvalidSize);
    }
    let first = start.as_u64();
    if first >= leaves {
        return Err(ReconstructionError::InvalidStartLoc);
    }
    if count > leaves - first {
        return Err(ReconstructionError::InvalidEndLoc);
    }
    let reader = Reader {
        hasher,
        leaves,
        start: first,
        elements,
        family: PhantomData,
    };
    root_over(&reader, proof.inactive_peaks, &proof.digests)
}
