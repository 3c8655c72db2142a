//! The peaks of a tree folded into its root, from left to right or from right to left, without a list of them.

ghost use Rattle.std.specs.Prelude.{◌≡◌, ◌<◌, ◌≤◌, ◌+◌, ◌↔◌, ◌++◌, ◌∷◌, [], ℕ, List, true, map, take, drop};
ghost use Rattle.std.specs.Prelude.{length, Option, IsTrue, IsOk, IfOk, IfErr, OnOk};
ghost use Rattle.merkle_forest.specs.Forest.{forest_of};
ghost use Rattle.merkle_forest.specs.declared.bagging.Bagging.TheVariants.{ForwardFold, BackwardFold};
ghost use Rattle.merkle_forest.specs.Hashing.{folded_onto, folded_backward, items, bagged, root_of};
ghost use Rattle.merkle_forest.specs.Peaks.{is_cut};
ghost use Rattle.merkle_core_parts.specs.Mem.{digests_from, node_at, encoded, pinned_digests};

use crate::mem::Mem;
use merkle_core_parts::Error;
use merkle_forest::bagging::Bagging;
use merkle_forest::family::{Family, MAX_LEAVES};
use merkle_forest::hasher::Hasher;
use merkle_forest::peaks::inactive_count;
use merkle_forest::root::root_over_item;
use merkle_forest::{Digest, Location};
use std::alloc::{AllocError, Global};

// The digest of the peak that begins at `first`, and the location after its last leaf.
fn peak_at<F: Family, D: Digest>(leaves: u64, tree: &Mem<F, D>, first: u64) -> (D, u64)
    requires few { leaves ≤ MAX_LEAVES }
    requires kept { tree.now.boundary ≤ leaves }
    requires counted { leaves ≤ tree.now.leaves }
    requires cut { is_cut first (forest_of F.merge_rule leaves) ≡ true }
    requires before { first < leaves }
    ensures digest { digests_from F.merge_rule leaves (node_at F.merge_rule tree.now) first
        ≡ D.encoding result.0 ∷ digests_from F.merge_rule leaves (node_at F.merge_rule tree.now) result.1 }
    ensures cut { is_cut result.1 (forest_of F.merge_rule leaves) ≡ true }
    ensures further { first < result.1 }
    ensures within { result.1 ≤ leaves }
{
    let (position, height) = F::peak_from(leaves, first);
    (tree.peak_digest(leaves, position), first + (1u64 << height))
}

// So many peaks from `first` on folded from the left onto a digest, and the location after their last leaf.
fn fold_onto_peaks<F: Family, H: Hasher<F>>(
    hasher: &H,
    leaves: u64,
    tree: &Mem<F, H::Digest>,
    first: u64,
    count: usize,
    folded: H::Digest,
) -> (H::Digest, u64)
    requires few { leaves ≤ MAX_LEAVES }
    requires kept { tree.now.boundary ≤ leaves }
    requires counted { leaves ≤ tree.now.leaves }
    requires cut { is_cut first (forest_of F.merge_rule leaves) ≡ true }
    requires within { first ≤ leaves }
    requires enough { count ≤ length (digests_from F.merge_rule leaves (node_at F.merge_rule tree.now) first) }
    ensures folded { H.Digest.encoding result.0 ≡ folded_onto H.hash_of (H.Digest.encoding folded)
        (take count (digests_from F.merge_rule leaves (node_at F.merge_rule tree.now) first)) }
    ensures rest { digests_from F.merge_rule leaves (node_at F.merge_rule tree.now) result.1
        ≡ drop count (digests_from F.merge_rule leaves (node_at F.merge_rule tree.now) first) }
    ensures cut { is_cut result.1 (forest_of F.merge_rule leaves) ≡ true }
    ensures within { result.1 ≤ leaves }
{
    if count == 0 {
        return (folded, first);
    }
    let (digest, next) = peak_at::<F, H::Digest>(leaves, tree, first);
    let folded = hasher.fold(&folded, &digest);
    fold_onto_peaks(hasher, leaves, tree, next, count - 1, folded)
}

// The peaks from `first` on folded from the right.
fn fold_peaks_backward<F: Family, H: Hasher<F>>(
    hasher: &H,
    leaves: u64,
    tree: &Mem<F, H::Digest>,
    first: u64,
) -> H::Digest
    requires few { leaves ≤ MAX_LEAVES }
    requires kept { tree.now.boundary ≤ leaves }
    requires counted { leaves ≤ tree.now.leaves }
    requires cut { is_cut first (forest_of F.merge_rule leaves) ≡ true }
    requires before { first < leaves }
    ensures { H.Digest.encoding result ≡ folded_backward H.hash_of
        (digests_from F.merge_rule leaves (node_at F.merge_rule tree.now) first) }
{
    let (digest, next) = peak_at::<F, H::Digest>(leaves, tree, first);
    if next >= leaves {
        return digest;
    }
    let rest = fold_peaks_backward(hasher, leaves, tree, next);
    hasher.fold(&digest, &rest)
}

// The digest into which the peaks are bagged from the left, of which there are so many, at least one.
fn bag_forward<F: Family, H: Hasher<F>>(
    hasher: &H,
    leaves: u64,
    tree: &Mem<F, H::Digest>,
    count: usize,
) -> H::Digest
    requires few { leaves ≤ MAX_LEAVES }
    requires kept { tree.now.boundary ≤ leaves }
    requires counted { leaves ≤ tree.now.leaves }
    requires some { 0 < leaves }
    requires all { count ≡ length (digests_from F.merge_rule leaves (node_at F.merge_rule tree.now) 0) }
    ensures { (inactive : ℕ) → H.Digest.encoding result ≡ bagged H.hash_of ForwardFold (items H.hash_of inactive
        (digests_from F.merge_rule leaves (node_at F.merge_rule tree.now) 0)) }
{
    let (first, next) = peak_at::<F, H::Digest>(leaves, tree, 0);
    let (folded, _) = fold_onto_peaks(hasher, leaves, tree, next, count - 1, first);
    folded
}

// The digest into which the peaks are bagged from the right, of which so many are inactive.
fn bag_backward<F: Family, H: Hasher<F>>(
    hasher: &H,
    leaves: u64,
    tree: &Mem<F, H::Digest>,
    inactive: usize,
) -> H::Digest
    requires few { leaves ≤ MAX_LEAVES }
    requires kept { tree.now.boundary ≤ leaves }
    requires counted { leaves ≤ tree.now.leaves }
    requires some { 0 < leaves }
    requires within { inactive ≤ length (digests_from F.merge_rule leaves (node_at F.merge_rule tree.now) 0) }
    ensures { H.Digest.encoding result ≡ bagged H.hash_of BackwardFold (items H.hash_of inactive
        (digests_from F.merge_rule leaves (node_at F.merge_rule tree.now) 0)) }
{
    let (first, next) = peak_at::<F, H::Digest>(leaves, tree, 0);
    let more = inactive.saturating_sub(1);
    let (folded, next) = fold_onto_peaks(hasher, leaves, tree, next, more, first);
    if next >= leaves {
        return folded;
    }
    let rest = fold_peaks_backward(hasher, leaves, tree, next);
    hasher.fold(&folded, &rest)
}

// The digest into which the peaks are bagged, at least one, of which so many are inactive.
fn bag_peaks<F: Family, H: Hasher<F>>(
    hasher: &H,
    leaves: u64,
    tree: &Mem<F, H::Digest>,
    inactive: usize,
    count: usize,
) -> H::Digest
    requires few { leaves ≤ MAX_LEAVES }
    requires kept { tree.now.boundary ≤ leaves }
    requires counted { leaves ≤ tree.now.leaves }
    requires some { 0 < leaves }
    requires all { count ≡ length (digests_from F.merge_rule leaves (node_at F.merge_rule tree.now) 0) }
    requires within { inactive ≤ count }
    ensures { H.Digest.encoding result ≡ bagged H.hash_of (H.bagging_of hasher.now) (items H.hash_of inactive
        (digests_from F.merge_rule leaves (node_at F.merge_rule tree.now) 0)) }
{
    match hasher.root_bagging() {
        Bagging::ForwardFold => bag_forward(hasher, leaves, tree, count),
        Bagging::BackwardFold => bag_backward(hasher, leaves, tree, inactive),
    }
}

// How many peaks there are.
pub(crate) fn count_peaks<F: Family>(leaves: u64) -> usize
    requires { leaves ≤ MAX_LEAVES }
    ensures { (digest_of : ℕ → Option (List ℕ)) → result ≡ length (digests_from F.merge_rule leaves digest_of 0) }
{
    inactive_count::<F>(leaves, leaves)
}

// The root of a tree of no leaves.
fn root_of_nothing<F: Family, H: Hasher<F>>(hasher: &H) -> Result<H::Digest, Error<F>>
    ensures answered { IsOk result }
    ensures root { IfOk result (λ root. H.Digest.encoding root ≡ root_of H.hash_of (H.bagging_of hasher.now) 0 0 []) }
{
    match hasher.root(Location::new(0), 0, &[]) {
        Ok(root) => Ok(root),
        Err(_) => Err(Error::InvalidInactivePeaks),
    }
}

// The root of the tree, of whose peaks so many come first as inactive ones. Where there are
// fewer: M16.
#[tactic(auto, unfolding(merkle_forest::specs::Hashing::root_of))]
pub(crate) fn root_of_tree<F: Family, H: Hasher<F>>(
    hasher: &H,
    leaves: u64,
    tree: &Mem<F, H::Digest>,
    inactive: usize,
) -> Result<H::Digest, Error<F>>
    requires few { leaves ≤ MAX_LEAVES }
    requires kept { tree.now.boundary ≤ leaves }
    requires counted { leaves ≤ tree.now.leaves }
    ensures answered { IsOk result
        ↔ (inactive ≤ length (digests_from F.merge_rule leaves (node_at F.merge_rule tree.now) 0)) }
    ensures root { IfOk result (λ root. H.Digest.encoding root ≡ root_of H.hash_of (H.bagging_of hasher.now) leaves
        inactive (digests_from F.merge_rule leaves (node_at F.merge_rule tree.now) 0)) }
    ensures refused { IfErr result (λ e. e ≡ Error.InvalidInactivePeaks) }
{
    let count = count_peaks::<F>(leaves);
    if inactive > count {
        return Err(Error::InvalidInactivePeaks);
    }
    if leaves == 0 {
        return root_of_nothing(hasher);
    }
    let item = bag_peaks(hasher, leaves, tree, inactive, count);
    Ok(root_over_item(hasher, leaves, inactive as u64, &item))
}

// Appends the digests of the peaks that begin at `first` or after it, from left to right.
fn append_peaks<F: Family, D: Digest>(
    found: &mut Vec<D>,
    leaves: u64,
    tree: &Mem<F, D>,
    first: u64,
) -> Result<(), AllocError>
    requires few { leaves ≤ MAX_LEAVES }
    requires kept { tree.now.boundary ≤ leaves }
    requires counted { leaves ≤ tree.now.leaves }
    requires cut { is_cut first (forest_of F.merge_rule leaves) ≡ true }
    requires within { first ≤ leaves }
    ensures { OnOk result (map D.encoding found.new.items ≡ map D.encoding found.old.items
        ++ digests_from F.merge_rule leaves (node_at F.merge_rule tree.now) first) }
{
    if first >= leaves {
        return Ok(());
    }
    let (digest, next) = peak_at::<F, D>(leaves, tree, first);
    found.push(digest)?;
    append_peaks::<F, D>(found, leaves, tree, next)
}

// The digests of the peaks, from left to right.
pub(crate) fn peaks_of<F: Family, D: Digest>(
    alloc: Global,
    leaves: u64,
    tree: &Mem<F, D>,
) -> Result<Vec<D>, AllocError>
    requires few { leaves ≤ MAX_LEAVES }
    requires kept { tree.now.boundary ≤ leaves }
    requires counted { leaves ≤ tree.now.leaves }
    ensures { IfOk result (λ found. map D.encoding found.items
        ≡ digests_from F.merge_rule leaves (node_at F.merge_rule tree.now) 0) }
{
    let mut found = Vec::new(alloc);
    append_peaks::<F, D>(&mut found, leaves, tree, 0)?;
    Ok(found)
}

// The positions and the digests of the peaks, from left to right.
pub(crate) fn pinned_of<F: Family, D: Digest>(
    alloc: Global,
    leaves: u64,
    tree: &Mem<F, D>,
) -> Result<Vec<(u64, D)>, AllocError>
    requires few { leaves ≤ MAX_LEAVES }
    requires kept { tree.now.boundary ≤ leaves }
    requires counted { leaves ≤ tree.now.leaves }
    ensures { IfOk result (λ found. encoded D.encoding found.items ≡ pinned_digests F.merge_rule tree.now leaves) }
{
    let mut found = Vec::new(alloc);
    let mut first = 0;
    while first < leaves {
        let (position, height) = F::peak_from(leaves, first);
        found.push((position, tree.peak_digest(leaves, position)))?;
        first += 1u64 << height;
    }
    Ok(found)
}

// Whether the peaks that begin at `first` or after it have these digests, from left to right.
fn have_peaks<F: Family, D: Digest>(leaves: u64, tree: &Mem<F, D>, first: u64, peaks: &[D]) -> bool
    requires few { leaves ≤ MAX_LEAVES }
    requires kept { tree.now.boundary ≤ leaves }
    requires counted { leaves ≤ tree.now.leaves }
    requires cut { is_cut first (forest_of F.merge_rule leaves) ≡ true }
    requires within { first ≤ leaves }
    ensures { IsTrue result ↔ (map D.encoding peaks.now
        ≡ digests_from F.merge_rule leaves (node_at F.merge_rule tree.now) first) }
{
    match peaks {
        [] => {
            if first < leaves {
                return false;
            }
            true
        }
        [own, rest @ ..] => {
            if first >= leaves {
                return false;
            }
            let (digest, next) = peak_at::<F, D>(leaves, tree, first);
            if own.as_bytes() != digest.as_bytes() {
                return false;
            }
            have_peaks::<F, D>(leaves, tree, next, rest)
        }
    }
}

// Whether the peaks have these digests, from left to right.
pub(crate) fn have_all_peaks<F: Family, D: Digest>(
    leaves: u64,
    tree: &Mem<F, D>,
    peaks: &[D],
) -> bool
    requires few { leaves ≤ MAX_LEAVES }
    requires kept { tree.now.boundary ≤ leaves }
    requires counted { leaves ≤ tree.now.leaves }
    ensures { IsTrue result ↔ (map D.encoding peaks.now
        ≡ digests_from F.merge_rule leaves (node_at F.merge_rule tree.now) 0) }
{
    have_peaks::<F, D>(leaves, tree, 0, peaks)
}
