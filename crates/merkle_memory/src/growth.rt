//! The nodes that leaves add to a tree: a leaf, and the branches that the family's merges make with it.
//!
//! A branch is made from its two children. They are nodes that were made since, or peaks of the base: so no other node
//! of the base is read, and a leaf costs one hash for each node that it adds.

ghost use Rattle.std.specs.Prelude.{◌≡◌, ◌<◌, ◌≤◌, ◌+◌, ◌^◌, ℕ, suc, List, Some, map, length, slice_get};
ghost use Rattle.std.specs.Prelude.{option_map, find, ◌==◌, IsSome, IfOk, OnOk};
ghost use Rattle.merkle_forest.specs.Forest.{leaf};
ghost use Rattle.merkle_core_parts.specs.Mem.{node_count, digests_from, encoded, known_over};
ghost use Rattle.merkle_core_parts.specs.Laws.Growth.{IsParent};
ghost use Rattle.merkle_core_parts.specs.Laws.Made.{HavePeaks, IsHashed, AreMade};
ghost use Rattle.merkle_core_parts.specs.Laws.Rebuilt.{Digests};

use merkle_forest::Digest;
use merkle_forest::family::{Family, MAX_LEAVES};
use merkle_forest::hasher::Hasher;
use std::alloc::{AllocError, Global};

// The digest of the peak at a position.
fn peak_digest<D: Digest>(peaks: &[(u64, D)], position: u64) -> Option<D>
    ensures { result ≡ option_map (λ peak. peak.1) (find (λ peak. peak.0 == position) peaks.now) }
{
    peaks
        .iter()
        .find(|peak| peak.0 == position)
        .map(|peak| peak.1)
}

// The digest at an index. Past the list it is None.
fn digest_of<D: Digest>(digests: &[D], index: u64) -> Option<D>
    ensures { option_map D.encoding result ≡ slice_get (map D.encoding digests.now) index }
{
    digests.get(index as usize).copied()
}

// The digest of a peak of the base, or of a node that was added to it.
pub(crate) fn known_digest<D: Digest>(
    peaks: &[(u64, D)],
    base_size: u64,
    added: &[D],
    position: u64,
) -> Option<D>
    ensures { option_map D.encoding result
        ≡ known_over base_size (encoded D.encoding peaks.now) (map D.encoding added.now) position }
{
    if position < base_size {
        return peak_digest(peaks, position);
    }
    digest_of(added, position - base_size)
}

// The digest of a node that is known.
fn digest_there<D: Digest>(peaks: &[(u64, D)], base_size: u64, added: &[D], position: u64) -> D
    requires { IsSome (known_over base_size (encoded D.encoding peaks.now) (map D.encoding added.now) position) }
    ensures { known_over base_size (encoded D.encoding peaks.now) (map D.encoding added.now) position
        ≡ Some (D.encoding result) }
{
    match known_digest(peaks, base_size, added, position) {
        Some(digest) => digest,
        None => unreachable!(),
    }
}

// Appends the parent that is born next with the leaf after so many.
fn push_parent<F: Family, H: Hasher<F>>(
    hasher: &H,
    base: u64,
    base_size: u64,
    peaks: &[(u64, H::Digest)],
    added: &mut Vec<H::Digest>,
    leaves: u64,
    height: u32,
) -> Result<(), AllocError>
    requires few { leaves < MAX_LEAVES }
    requires small { base_size + length added.old.items < 2 ^ 64 }
    requires over { base ≤ leaves }
    requires sized { base_size ≡ node_count F.merge_rule base }
    requires peaks { HavePeaks F.merge_rule base (encoded H.Digest.encoding peaks.now) }
    requires parent { IsParent F.merge_rule leaves (base_size + length added.old.items) height }
    ensures counted { OnOk result (length added.new.items ≡ length added.old.items + 1) }
    ensures made { OnOk result ((after : Digests) → IsHashed F.merge_rule (H.node_of hasher.now) base after
        → AreMade F.merge_rule after base (suc leaves) (base_size + length added.old.items)
        (known_over base_size (encoded H.Digest.encoding peaks.now) (map H.Digest.encoding added.old.items))
        → AreMade F.merge_rule after base (suc leaves) (suc (base_size + length added.old.items))
        (known_over base_size (encoded H.Digest.encoding peaks.now) (map H.Digest.encoding added.new.items))) }
{
    let position = base_size + added.len() as u64;
    let (left, right) = F::child_positions(position, height);
    let left = digest_there(peaks, base_size, added, left);
    let right = digest_there(peaks, base_size, added, right);
    added.push(hasher.digest_of_branch(position, &left, &right))?;
    Ok(())
}

// Appends the leaf after so many, with this digest, and the parents that are born with it.
fn push_leaf<F: Family, H: Hasher<F>>(
    hasher: &H,
    base: u64,
    base_size: u64,
    peaks: &[(u64, H::Digest)],
    added: &mut Vec<H::Digest>,
    leaves: u64,
    digest: H::Digest,
) -> Result<(), AllocError>
    requires few { leaves < MAX_LEAVES }
    requires counted { base_size + length added.old.items ≡ node_count F.merge_rule leaves }
    requires over { base ≤ leaves }
    requires sized { base_size ≡ node_count F.merge_rule base }
    requires peaks { HavePeaks F.merge_rule base (encoded H.Digest.encoding peaks.now) }
    ensures counted { OnOk result (base_size + length added.new.items ≡ node_count F.merge_rule (suc leaves)) }
    ensures made { OnOk result ((after : Digests) → IsHashed F.merge_rule (H.node_of hasher.now) base after
        → after leaves (leaf (node_count F.merge_rule leaves)) ≡ H.Digest.encoding digest
        → AreMade F.merge_rule after base leaves (node_count F.merge_rule leaves)
        (known_over base_size (encoded H.Digest.encoding peaks.now) (map H.Digest.encoding added.old.items))
        → AreMade F.merge_rule after base (suc leaves) (node_count F.merge_rule (suc leaves))
        (known_over base_size (encoded H.Digest.encoding peaks.now) (map H.Digest.encoding added.new.items))) }
{
    let (first, count) = F::parent_range(leaves);
    added.push(digest)?;
    for index in 0..count {
        push_parent::<F, H>(hasher, base, base_size, peaks, added, leaves, first + index)?;
    }
    Ok(())
}

// Appends leaves with these digests after so many, and the parents that are born with them.
pub(crate) fn push_leaves<F: Family, H: Hasher<F>>(
    hasher: &H,
    base: u64,
    base_size: u64,
    peaks: &[(u64, H::Digest)],
    added: &mut Vec<H::Digest>,
    digests: &[H::Digest],
) -> Result<(), AllocError>
    requires few { base + length digests.now ≤ MAX_LEAVES }
    requires none { length added.old.items ≡ 0 }
    requires sized { base_size ≡ node_count F.merge_rule base }
    requires peaks { HavePeaks F.merge_rule base (encoded H.Digest.encoding peaks.now) }
    ensures counted { OnOk result (base_size + length added.new.items
        ≡ node_count F.merge_rule (base + length digests.now)) }
    ensures made { OnOk result ((after : Digests) → IsHashed F.merge_rule (H.node_of hasher.now) base after
        → ((k : ℕ) (d : List ℕ) → slice_get (map H.Digest.encoding digests.now) k ≡ Some d
        → after (base + k) (leaf (node_count F.merge_rule (base + k))) ≡ d)
        → AreMade F.merge_rule after base base (node_count F.merge_rule base)
        (known_over base_size (encoded H.Digest.encoding peaks.now) (map H.Digest.encoding added.old.items))
        → AreMade F.merge_rule after base (base + length digests.now)
        (node_count F.merge_rule (base + length digests.now))
        (known_over base_size (encoded H.Digest.encoding peaks.now) (map H.Digest.encoding added.new.items))) }
{
    let mut leaves = base;
    for digest in digests {
        push_leaf::<F, H>(hasher, base, base_size, peaks, added, leaves, *digest)?;
        leaves += 1;
    }
    Ok(())
}

// The digests of the peaks of the forest of so many leaves, from left to right, of which those of a base are known, and
// the nodes that were added to it.
pub(crate) fn grown_peaks<F: Family, D: Digest>(
    alloc: Global,
    base: u64,
    base_size: u64,
    leaves: u64,
    peaks: &[(u64, D)],
    added: &[D],
) -> Result<Vec<D>, AllocError>
    requires few { leaves ≤ MAX_LEAVES }
    requires over { base ≤ leaves }
    requires sized { base_size ≡ node_count F.merge_rule base }
    requires peaks { HavePeaks F.merge_rule base (encoded D.encoding peaks.now) }
    requires counted { base_size + length added.now ≡ node_count F.merge_rule leaves }
    ensures { IfOk result (λ found. map D.encoding found.items ≡ digests_from F.merge_rule leaves
        (known_over base_size (encoded D.encoding peaks.now) (map D.encoding added.now)) 0) }
{
    let mut found = Vec::new(alloc);
    let mut first = 0;
    while first < leaves {
        let (position, height) = F::peak_from(leaves, first);
        found.push(digest_there(peaks, base_size, added, position))?;
        first += 1u64 << height;
    }
    Ok(found)
}
