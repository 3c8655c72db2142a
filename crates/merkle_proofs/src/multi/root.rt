//! A root rebuilt from a proof of some elements.

ghost use Rattle.std.specs.Prelude.{◌≡◌, ◌<◌, ◌≤◌, None, false, [], ℕ, List, map, length, IfOk, MatchOption};
ghost use Rattle.std.specs.Prelude.{option_map};
ghost use Rattle.std.specs.List.Sorted.{IsNonDecreasingBy, IsPermutation};
ghost use Rattle.merkle_forest.specs.Forest.{forest_of};
ghost use Rattle.merkle_forest.specs.Made.{value};
ghost use Rattle.merkle_forest.specs.Nodes.{HasPeak};
ghost use Rattle.merkle_forest.specs.Peaks.{located_from};
ghost use Rattle.merkle_theory.specs.MadeRoots.{Naming};
ghost use Rattle.merkle_theory.specs.MadeTrees.{Over};
ghost use Rattle.merkle_theory.specs.Multi.{IsRefusalOfLocations};
ghost use Rattle.merkle_theory.specs.MultiReads.{Shown, shown_at, shown_from, locations_of, ranked, read_peaks};
ghost use Rattle.merkle_theory.specs.MultiReads.{shown_root};
ghost use Rattle.merkle_theory.specs.MultiReads.{can_be_shown, multi_root, ArePeaksRead, AreNeeded};
ghost use Rattle.merkle_theory.specs.Reads.{HashesAs};

use crate::multi::multi_proof_positions;
use crate::multi::tree::{Known, shown_digest, split_before};
use crate::proof::Proof;
use crate::subtree::peak_at;
use merkle_core_parts::Error;
use merkle_forest::family::{Family, MAX_LEAVES};
use merkle_forest::hasher::Hasher;
use merkle_forest::{Location, Position};
use std::alloc::{AllocError, Global};

// Appends the digests of the peaks from the one that begins at `first` on, from the elements that are shown there and
// the known digests. False: a digest is missing.
fn append_peaks<F: Family, H: Hasher<F>>(
    found: &mut Vec<H::Digest>,
    hasher: &H,
    known: &Known<'_, F, H::Digest>,
    leaves: u64,
    first: u64,
    elements: &[(&[u8], Location<F>)],
) -> Result<bool, AllocError>
    requires few { leaves ≤ MAX_LEAVES }
    requires begins { first < leaves → HasPeak (forest_of F.merge_rule leaves) first }
    requires positions { IsNonDecreasingBy (λ p. p) known.now.positions.now }
    requires elements { IsNonDecreasingBy (λ e. e.1) elements.now }
    ensures { (over : Over) (shown : Shown) (needed : List ℕ) → IsPermutation needed known.now.positions.now
        → HashesAs F.merge_rule H.hash_of (H.leaf_of hasher.now) (H.node_of hasher.now) over
        → map (λ e. (e.0.now, e.1)) elements.now ≡ shown_from first shown
        → IfOk result (ArePeaksRead H.hash_of (read_peaks over (shown_at shown) (locations_of shown)
        (ranked needed (map H.Digest.encoding known.now.digests.now))
        (located_from first (forest_of F.merge_rule leaves))) (map H.Digest.encoding found.old.items)
        (map H.Digest.encoding found.new.items)) }
{
    if first >= leaves {
        return Ok(true);
    }
    let (peak, next) = peak_at::<F>(leaves, first);
    let (own, others) = split_before(elements, next);
    let Some(digest) = shown_digest(hasher, known, peak, own) else {
        return Ok(false);
    };
    found.push(digest)?;
    append_peaks(found, hasher, known, leaves, next, others)
}

// The root that the proof leads to, from the elements and the positions of the nodes that it is made of. None: there
// are fewer peaks than inactive ones, or a digest is missing.
fn root_from<F: Family, H: Hasher<F>>(
    alloc: Global,
    hasher: &H,
    proof: &Proof<F, H::Digest>,
    positions: &[Position<F>],
    elements: &[(&[u8], Location<F>)],
) -> Result<Option<H::Digest>, AllocError>
    requires few { proof.now.leaves ≤ MAX_LEAVES }
    requires positions { IsNonDecreasingBy (λ p. p) positions.now }
    requires elements { IsNonDecreasingBy (λ e. e.1) elements.now }
    ensures { (names : Naming) (over : Over) (needed : List ℕ) → IsPermutation needed positions.now
        → HashesAs F.merge_rule H.hash_of (H.leaf_of hasher.now) (H.node_of hasher.now) over
        → IfOk result (λ root. option_map H.Digest.encoding root ≡ option_map (value H.hash_of)
        (shown_root names over (H.bagging_of hasher.now) F.merge_rule proof.now.leaves proof.now.inactive_peaks
        (map (λ e. (e.0.now, e.1)) elements.now) (ranked needed (map H.Digest.encoding proof.now.digests.items)))) }
{
    let known = Known {
        positions,
        digests: &proof.digests,
    };
    let mut peaks = Vec::new(alloc);
    if !append_peaks(
        &mut peaks,
        hasher,
        &known,
        proof.leaves.as_u64(),
        0,
        elements,
    )? {
        return Ok(None);
    }
    match hasher.root(proof.leaves, proof.inactive_peaks as usize, &peaks) {
        Ok(root) => Ok(Some(root)),
        Err(_) => Ok(None),
    }
}

// Where locations are refused, for another reason than want of memory, there are no positions.
fn none_if_refused<F: Family>(error: Error<F>) -> Result<Option<Vec<Position<F>>>, AllocError>
    ensures { (leaves : ℕ) (locations : List ℕ) → 0 < length locations → IsRefusalOfLocations leaves locations error
        → IfOk result (λ found. (found ≡ None) × (can_be_shown leaves locations ≡ false)) }
{
    match error {
        Error::Memory => Err(AllocError),
        _ => Ok(None),
    }
}

// The positions of the nodes that the proof of no element is made of: of a tree without leaves there are none. None:
// there are leaves.
fn no_nodes<F: Family>(alloc: Global, leaves: Location<F>) -> Option<Vec<Position<F>>>
    ensures { MatchOption result (can_be_shown leaves [] ≡ false)
        (λ positions. AreNeeded F.merge_rule leaves [] positions.items) }
{
    if leaves.as_u64() != 0 {
        return None;
    }
    Some(Vec::new(alloc))
}

// The positions of the nodes that the proof of the elements is made of, in ascending order. None: they cannot be shown
// where they are said to stand.
fn needed_nodes<F: Family>(
    alloc: Global,
    leaves: Location<F>,
    elements: &[(&[u8], Location<F>)],
) -> Result<Option<Vec<Position<F>>>, AllocError>
    ensures { IfOk result (λ found. MatchOption found (can_be_shown leaves (map (λ e. e.1) elements.now) ≡ false)
        (λ positions. AreNeeded F.merge_rule leaves (map (λ e. e.1) elements.now) positions.items)) }
{
    if elements.is_empty() {
        return Ok(no_nodes(alloc, leaves));
    }
    let mut locations = Vec::new(alloc);
    for (_, location) in elements {
        locations.push(*location)?;
    }
    match multi_proof_positions(alloc, leaves, &locations) {
        Ok(positions) => Ok(Some(positions)),
        Err(error) => none_if_refused(error),
    }
}

/// The root of the tree, rebuilt from the proof of these elements, each with its location (own). None: there is no
/// element and there are leaves; the locations do not ascend strictly, or a leaf does not stand at each; the tree is
/// too large; it has fewer peaks than are inactive; or a digest is missing or left over. It fails only when out of
/// memory.
pub fn reconstruct_shown<F: Family, H: Hasher<F>>(
    alloc: Global,
    hasher: &H,
    proof: &Proof<F, H::Digest>,
    elements: &[(&[u8], Location<F>)],
) -> Result<Option<H::Digest>, AllocError>
    ensures { (names : Naming) (over : Over)
        → HashesAs F.merge_rule H.hash_of (H.leaf_of hasher.now) (H.node_of hasher.now) over
        → IfOk result (λ root. option_map H.Digest.encoding root ≡ option_map (value H.hash_of)
        (multi_root names over (H.bagging_of hasher.now) F.merge_rule proof.now.leaves proof.now.inactive_peaks
        (map (λ e. (e.0.now, e.1)) elements.now) (map H.Digest.encoding proof.now.digests.items))) }
{
    let Some(positions) = needed_nodes(alloc, proof.leaves, elements)? else {
        return Ok(None);
    };
    if proof.digests.len() != positions.len() {
        return Ok(None);
    }
    root_from(alloc, hasher, proof, &positions, elements)
}
