//! Proofs that are built out of the nodes of a tree.

ghost use Rattle.std.specs.Prelude.{◌≡◌, ◌<◌, ◌≤◌, ◌+◌, ◌^◌, ℕ, List, None, map, take, length, IfOk, IfErr, OnOk};
ghost use Rattle.merkle_core_parts.specs.Mem.{NodeHash, tree_digest};
ghost use Rattle.merkle_theory.specs.MadeRoots.{peaks_of};
ghost use Rattle.merkle_theory.specs.Plans.{Asked, looked_up, first_missing, range_positions, honest_digests};
ghost use Rattle.merkle_theory.specs.Plans.{IsLookupOf, IsProvable};
ghost use Rattle.merkle_theory.specs.Multi.{AreMultiDigests, first_bad, IsRefusalToProveMany};
ghost use Rattle.merkle_theory.specs.Plans.{IsRefusalToBuild, IsRefusalToProve, IsRefusalToProveNow};
ghost use Rattle.merkle_theory.specs.Plans.{IsRefusalToProveElement};

pub mod plain;

use crate::multi::multi_proof_positions;
use crate::plan::digests::look_up;
use crate::plan::{ElementPlan, RangePlan};
use crate::proof::Proof;
use crate::subtree::peaks_from;
use merkle_core_parts::{Error, Readable};
use merkle_forest::family::Family;
use merkle_forest::hasher::Hasher;
use merkle_forest::{Digest, Location};
use std::alloc::Global;
use std::ops::Range;

// The planned proof, from the nodes that are there.
fn build_from<F: Family, D: Digest, H: Hasher<F, Digest = D>, R: Readable<F, Digest = D>>(
    plan: &RangePlan<F>,
    hasher: &H,
    nodes: &R,
    inactive_peaks: usize,
) -> Result<Proof<F, D>, Error<F>>
    ensures leaves { IfOk result (λ proof. proof.leaves ≡ plan.now.leaves) }
    ensures inactive { IfOk result (λ proof. proof.inactive_peaks ≡ inactive_peaks) }
    ensures enough { OnOk result (inactive_peaks ≤ length (peaks_of F.merge_rule plan.now.leaves)) }
    ensures digests { IfOk result (λ proof. map D.encoding proof.digests.items
        ≡ honest_digests H.hash_of (looked_up (R.digest_at nodes.now)) (H.bagging_of hasher.now) F.merge_rule
        plan.now.leaves inactive_peaks plan.now.start plan.now.stop) }
    ensures known { OnOk result (first_missing (R.digest_at nodes.now)
        (range_positions F.merge_rule plan.now.leaves plan.now.start plan.now.stop) ≡ None) }
    ensures refused { IfErr result (λ e.
        IsRefusalToBuild F.merge_rule plan.now inactive_peaks (R.digest_at nodes.now) e) }
{
    plan.build(
        hasher,
        inactive_peaks,
        &|position| nodes.node_digest(position),
    )
}

/// The proof of a range in the tree as it was when it had so many leaves, of whose peaks so many are inactive. Where
/// the tree has fewer leaves now: M5 with the leaves; where the range is empty: M4; where it ends past the leaves: M5
/// with its end; where there are fewer peaks: M16; where a node that the proof is made of is not there: M10 with the
/// first such position, each in this order; out of memory: M23.
/// In the Rust: `merkle::verification::historical_range_proof`.
pub fn historical_range_proof<
    F: Family,
    D: Digest,
    H: Hasher<F, Digest = D>,
    R: Readable<F, Digest = D>,
>(
    alloc: Global,
    hasher: &H,
    nodes: &R,
    leaves: Location<F>,
    range: Range<Location<F>>,
    inactive_peaks: usize,
) -> Result<Proof<F, D>, Error<F>>
    ensures leaves { IfOk result (λ proof. proof.leaves ≡ leaves) }
    ensures inactive { IfOk result (λ proof. proof.inactive_peaks ≡ inactive_peaks) }
    ensures provable { OnOk result (IsProvable F.merge_rule (R.leaf_total nodes.now)
        (record { leaves = leaves; start = range.start; stop = range.end }) inactive_peaks (R.digest_at nodes.now)) }
    ensures digests { IfOk result (λ proof. map D.encoding proof.digests.items
        ≡ honest_digests H.hash_of (looked_up (R.digest_at nodes.now)) (H.bagging_of hasher.now) F.merge_rule leaves
        inactive_peaks range.start range.end) }
    ensures of_list { (node : NodeHash) (leaf_digests : List (List ℕ)) → R.leaf_total nodes.now ≡ length leaf_digests
        → IsLookupOf node F.merge_rule leaf_digests (R.digest_at nodes.now)
        → IfOk result (λ proof. map D.encoding proof.digests.items
        ≡ honest_digests H.hash_of (tree_digest node (take leaves leaf_digests)) (H.bagging_of hasher.now) F.merge_rule
        leaves inactive_peaks range.start range.end) }
    ensures refused { IfErr result (λ e. IsRefusalToProve F.merge_rule (R.leaf_total nodes.now)
        (record { leaves = leaves; start = range.start; stop = range.end }) inactive_peaks (R.digest_at nodes.now) e) }
{
    if leaves.as_u64() > nodes.leaf_count() {
        return Err(Error::RangeOutOfBounds(leaves));
    }
    let plan = RangePlan::new(alloc, leaves, range)?;
    build_from(&plan, hasher, nodes, inactive_peaks)
}

/// The proof of a range in the tree, of whose peaks so many are inactive. Where the range is empty: M4; where it ends
/// past the leaves: M5 with its end; where there are fewer peaks: M16; where a node that the proof is made of is not
/// there: M10 with the first such position, each in this order; out of memory: M23.
/// In the Rust: `merkle::verification::range_proof`, and the method of `Mem` and of `MerkleizedBatch`.
pub fn range_proof<F: Family, D: Digest, H: Hasher<F, Digest = D>, R: Readable<F, Digest = D>>(
    alloc: Global,
    hasher: &H,
    nodes: &R,
    range: Range<Location<F>>,
    inactive_peaks: usize,
) -> Result<Proof<F, D>, Error<F>>
    ensures leaves { IfOk result (λ proof. proof.leaves ≡ R.leaf_total nodes.now) }
    ensures inactive { IfOk result (λ proof. proof.inactive_peaks ≡ inactive_peaks) }
    ensures provable { OnOk result (IsProvable F.merge_rule (R.leaf_total nodes.now)
        (record { leaves = R.leaf_total nodes.now; start = range.start; stop = range.end }) inactive_peaks
        (R.digest_at nodes.now)) }
    ensures digests { IfOk result (λ proof. map D.encoding proof.digests.items
        ≡ honest_digests H.hash_of (looked_up (R.digest_at nodes.now)) (H.bagging_of hasher.now) F.merge_rule
        (R.leaf_total nodes.now) inactive_peaks range.start range.end) }
    ensures of_list { (node : NodeHash) (leaf_digests : List (List ℕ)) → R.leaf_total nodes.now ≡ length leaf_digests
        → IsLookupOf node F.merge_rule leaf_digests (R.digest_at nodes.now)
        → IfOk result (λ proof. map D.encoding proof.digests.items
        ≡ honest_digests H.hash_of (tree_digest node leaf_digests) (H.bagging_of hasher.now) F.merge_rule
        (length leaf_digests) inactive_peaks range.start range.end) }
    ensures refused { IfErr result (λ e. IsRefusalToProveNow F.merge_rule
        (record { leaves = R.leaf_total nodes.now; start = range.start; stop = range.end }) inactive_peaks
        (R.digest_at nodes.now) e) }
{
    let plan = RangePlan::new(alloc, Location::new(nodes.leaf_count()), range)?;
    build_from(&plan, hasher, nodes, inactive_peaks)
}

/// The proof of the element at a location in the tree, of whose peaks so many are inactive. Where no leaf stands there:
/// M7 with the location; where there are fewer peaks: M16; where a node that the proof is made of is not there: M10
/// with the first such position, each in this order; out of memory: M23.
/// In the Rust: the method `proof` of `merkle::mem::Mem` and of `merkle::batch::MerkleizedBatch`.
pub fn element_proof<F: Family, D: Digest, H: Hasher<F, Digest = D>, R: Readable<F, Digest = D>>(
    alloc: Global,
    hasher: &H,
    nodes: &R,
    location: Location<F>,
    inactive_peaks: usize,
) -> Result<Proof<F, D>, Error<F>>
    ensures leaves { IfOk result (λ proof. proof.leaves ≡ R.leaf_total nodes.now) }
    ensures inactive { IfOk result (λ proof. proof.inactive_peaks ≡ inactive_peaks) }
    ensures provable { OnOk result (IsProvable F.merge_rule (R.leaf_total nodes.now)
        (record { leaves = R.leaf_total nodes.now; start = location; stop = location + 1 }) inactive_peaks
        (R.digest_at nodes.now)) }
    ensures digests { IfOk result (λ proof. map D.encoding proof.digests.items
        ≡ honest_digests H.hash_of (looked_up (R.digest_at nodes.now)) (H.bagging_of hasher.now) F.merge_rule
        (R.leaf_total nodes.now) inactive_peaks location (location + 1)) }
    ensures of_list { (node : NodeHash) (leaf_digests : List (List ℕ)) → R.leaf_total nodes.now ≡ length leaf_digests
        → IsLookupOf node F.merge_rule leaf_digests (R.digest_at nodes.now)
        → IfOk result (λ proof. map D.encoding proof.digests.items
        ≡ honest_digests H.hash_of (tree_digest node leaf_digests) (H.bagging_of hasher.now) F.merge_rule
        (length leaf_digests) inactive_peaks location (location + 1)) }
    ensures refused { IfErr result (λ e. IsRefusalToProveElement F.merge_rule (R.leaf_total nodes.now) location
        inactive_peaks (R.digest_at nodes.now) e) }
{
    let plan = ElementPlan::new(alloc, Location::new(nodes.leaf_count()), location)?;
    build_from(&RangePlan::from(plan), hasher, nodes, inactive_peaks)
}

/// The proof of the elements at these locations in the tree, of whose peaks so many are inactive: the digests of the
/// nodes at the positions of `multi_proof_positions`, in their order. Where there is no location: M4; else the first
/// one that is refused: M8 where it comes again, M9 where it is less than the one before it, M7 where no leaf stands
/// there, with that location; where there are fewer peaks: M16; where a node that the proof is made of is not there:
/// M10 with the first such position, each in this order; out of memory: M23.
/// In the Rust: `merkle::verification::multi_proof`.
pub fn multi_proof<F: Family, D: Digest, R: Readable<F, Digest = D>>(
    alloc: Global,
    nodes: &R,
    locations: &[Location<F>],
    inactive_peaks: usize,
) -> Result<Proof<F, D>, Error<F>>
    ensures leaves { IfOk result (λ proof. proof.leaves ≡ R.leaf_total nodes.now) }
    ensures inactive { IfOk result (λ proof. proof.inactive_peaks ≡ inactive_peaks) }
    ensures enough { OnOk result (inactive_peaks ≤ length (peaks_of F.merge_rule (R.leaf_total nodes.now))) }
    ensures good { OnOk result (first_bad (R.leaf_total nodes.now) 0 locations.now ≡ None) }
    ensures digests { IfOk result (λ proof. AreMultiDigests F.merge_rule (R.leaf_total nodes.now) locations.now
        (R.digest_at nodes.now) (map D.encoding proof.digests.items)) }
    ensures refused { IfErr result (λ e. IsRefusalToProveMany F.merge_rule (R.leaf_total nodes.now) locations.now
        inactive_peaks (R.digest_at nodes.now) e) }
{
    let leaves = Location::new(nodes.leaf_count());
    let positions = multi_proof_positions(alloc, leaves, locations)?;
    let inactive = inactive_peaks as u64;
    if inactive > peaks_from::<F>(leaves.as_u64(), 0) {
        return Err(Error::InvalidInactivePeaks);
    }
    let digests = look_up(alloc, &positions, &|position| nodes.node_digest(position))?;
    Ok(Proof {
        leaves,
        inactive_peaks: inactive,
        digests,
    })
}
