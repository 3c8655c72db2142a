//! The peaks of a tree as one digest, from the elements of a range and the digests of its proof.

ghost use Rattle.std.specs.Prelude.{◌≡◌, ◌<◌, ◌≤◌, ◌+◌, ◌^◌, ◌∷◌, ℕ, List, map, length, option_map};
ghost use Rattle.merkle_forest.specs.Forest.{Tree, forest_of};
ghost use Rattle.merkle_forest.specs.Made.{Made, value};
ghost use Rattle.merkle_forest.specs.Nodes.{HasPeak};
ghost use Rattle.merkle_forest.specs.Peaks.{located_from};
ghost use Rattle.merkle_forest.specs.Trees.{Located};
ghost use Rattle.merkle_theory.specs.MadeRoots.{Naming, read_peak, read_back, read_onto, read_group};
ghost use Rattle.merkle_theory.specs.MadeRoots.{read_bag, peaks_of};
ghost use Rattle.merkle_theory.specs.MadeTrees.{Over, from};
ghost use Rattle.merkle_theory.specs.Reads.{HashesAs, valued};
ghost use Rattle.merkle_theory.specs.Subtrees.{IsTreeAt, HasTree};

use crate::subtree::{Subtree, peak_at};
use crate::verifying::tree::{meets_range, subtree_digest};
use merkle_forest::family::{Family, MAX_LEAVES};
use merkle_forest::hasher::Hasher;
use std::marker::PhantomData;

/// What a proof of a range is read with: a hasher, the leaf count of the tree, and the elements of the range (own).
#[derive(Drop)]
pub struct Reader<'a, F: Family, H> {
    /// The hasher.
    pub hasher: &'a H,
    /// How many leaves the tree has.
    pub leaves: u64,
    /// The location of the first element.
    pub start: u64,
    /// The elements, which follow one another.
    pub elements: &'a [&'a [u8]],
    /// The family of the tree.
    pub family: PhantomData<F>,
}

// The digest of a peak: rebuilt where it meets the range, else the first outer one. None: a digest is missing.
fn read_one<'d, F: Family, H: Hasher<F>>(
    reader: &Reader<'_, F, H>,
    peak: Subtree,
    outer: &'d [H::Digest],
    inner: &'d [H::Digest],
) -> Option<(H::Digest, &'d [H::Digest], &'d [H::Digest])>
    requires stands { HasTree F.merge_rule peak.first peak.position peak.height }
    requires small { reader.now.start + length reader.now.elements.now < 2 ^ 64 }
    ensures { (node : Tree) (over : Over) → IsTreeAt F.merge_rule peak.first peak.position peak.height node
        → HashesAs F.merge_rule H.hash_of (H.leaf_of reader.now.hasher.now) (H.node_of reader.now.hasher.now) over
        → option_map (λ x. (
          H.Digest.encoding x.0,
          (map H.Digest.encoding x.1.now, map H.Digest.encoding x.2.now),
        )) result
        ≡ valued H.hash_of (read_peak over
        (from reader.now.start (map (λ e. e.now) reader.now.elements.now)) reader.now.start
        (reader.now.start + length reader.now.elements.now) (peak.first, node)
        (map H.Digest.encoding outer.now, map H.Digest.encoding inner.now)) }
{
    let stop = reader.start + reader.elements.len() as u64;
    if !meets_range::<F>(peak, reader.start, stop) {
        let (given, rest) = outer.split_first()?;
        return Some((*given, rest, inner));
    }
    let (digest, rest) = subtree_digest(reader.hasher, peak, reader.start, reader.elements, inner)?;
    Some((digest, outer, rest))
}

// The peaks from the one that begins at `first` up to the last one, folded from the right. Where all stand after the
// range their digest is the first outer one.
fn read_back_from<'d, F: Family, H: Hasher<F>>(
    reader: &Reader<'_, F, H>,
    first: u64,
    outer: &'d [H::Digest],
    inner: &'d [H::Digest],
) -> Option<(H::Digest, &'d [H::Digest], &'d [H::Digest])>
    requires few { reader.now.leaves ≤ MAX_LEAVES }
    requires small { reader.now.start + length reader.now.elements.now < 2 ^ 64 }
    requires begins { HasPeak (forest_of F.merge_rule reader.now.leaves) first }
    ensures { (peak : Located) (peaks : List Located) (names : Naming) (last n : ℕ) (over : Over)
        → located_from first (forest_of F.merge_rule reader.now.leaves) ≡ peak ∷ peaks
        → HashesAs F.merge_rule H.hash_of (H.leaf_of reader.now.hasher.now) (H.node_of reader.now.hasher.now) over
        → option_map (λ x. (
          H.Digest.encoding x.0,
          (map H.Digest.encoding x.1.now, map H.Digest.encoding x.2.now),
        )) result
        ≡ valued H.hash_of (read_back names over
        (from reader.now.start (map (λ e. e.now) reader.now.elements.now)) reader.now.start
        (reader.now.start + length reader.now.elements.now) last n peak peaks
        (map H.Digest.encoding outer.now, map H.Digest.encoding inner.now)) }
{
    let (peak, next) = peak_at::<F>(reader.leaves, first);
    if next >= reader.leaves {
        return read_one(reader, peak, outer, inner);
    }
    if reader.start + reader.elements.len() as u64 <= first {
        let (given, rest) = outer.split_first()?;
        return Some((*given, rest, inner));
    }
    let (own, outer, inner) = read_one(reader, peak, outer, inner)?;
    let (others, outer, inner) = read_back_from(reader, next, outer, inner)?;
    Some((reader.hasher.fold(&own, &others), outer, inner))
}

// The peaks from the one that begins at `first` on, folded onto what is folded so far: so many singly from the left,
// the others from the right as one.
fn read_onto_from<'d, F: Family, H: Hasher<F>>(
    reader: &Reader<'_, F, H>,
    first: u64,
    singly: u64,
    so_far: H::Digest,
    outer: &'d [H::Digest],
    inner: &'d [H::Digest],
) -> Option<(H::Digest, &'d [H::Digest], &'d [H::Digest])>
    requires few { reader.now.leaves ≤ MAX_LEAVES }
    requires small { reader.now.start + length reader.now.elements.now < 2 ^ 64 }
    requires begins { first < reader.now.leaves → HasPeak (forest_of F.merge_rule reader.now.leaves) first }
    ensures { (made : Made) (names : Naming) (last n : ℕ) (over : Over)
        → value H.hash_of made ≡ H.Digest.encoding so_far
        → HashesAs F.merge_rule H.hash_of (H.leaf_of reader.now.hasher.now) (H.node_of reader.now.hasher.now) over
        → option_map (λ x. (
          H.Digest.encoding x.0,
          (map H.Digest.encoding x.1.now, map H.Digest.encoding x.2.now),
        )) result
        ≡ valued H.hash_of (read_onto names over
        (from reader.now.start (map (λ e. e.now) reader.now.elements.now)) reader.now.start
        (reader.now.start + length reader.now.elements.now) last singly n made
        (located_from first (forest_of F.merge_rule reader.now.leaves))
        (map H.Digest.encoding outer.now, map H.Digest.encoding inner.now)) }
{
    if first >= reader.leaves {
        return Some((so_far, outer, inner));
    }
    if singly == 0 {
        let (others, outer, inner) = read_back_from(reader, first, outer, inner)?;
        return Some((reader.hasher.fold(&so_far, &others), outer, inner));
    }
    let (peak, next) = peak_at::<F>(reader.leaves, first);
    let (own, outer, inner) = read_one(reader, peak, outer, inner)?;
    let so_far = reader.hasher.fold(&so_far, &own);
    read_onto_from(reader, next, singly - 1, so_far, outer, inner)
}

// The same, where what is folded so far is given for all peaks before the range that are folded singly.
fn read_group_from<'d, F: Family, H: Hasher<F>>(
    reader: &Reader<'_, F, H>,
    first: u64,
    singly: u64,
    so_far: H::Digest,
    outer: &'d [H::Digest],
    inner: &'d [H::Digest],
) -> Option<(H::Digest, &'d [H::Digest], &'d [H::Digest])>
    requires few { reader.now.leaves ≤ MAX_LEAVES }
    requires small { reader.now.start + length reader.now.elements.now < 2 ^ 64 }
    requires begins { first < reader.now.leaves → HasPeak (forest_of F.merge_rule reader.now.leaves) first }
    ensures { (made : Made) (names : Naming) (last n : ℕ) (over : Over)
        → value H.hash_of made ≡ H.Digest.encoding so_far
        → HashesAs F.merge_rule H.hash_of (H.leaf_of reader.now.hasher.now) (H.node_of reader.now.hasher.now) over
        → option_map (λ x. (
          H.Digest.encoding x.0,
          (map H.Digest.encoding x.1.now, map H.Digest.encoding x.2.now),
        )) result
        ≡ valued H.hash_of (read_group names over
        (from reader.now.start (map (λ e. e.now) reader.now.elements.now)) reader.now.start
        (reader.now.start + length reader.now.elements.now) last singly n made
        (located_from first (forest_of F.merge_rule reader.now.leaves))
        (map H.Digest.encoding outer.now, map H.Digest.encoding inner.now)) }
{
    if first >= reader.leaves {
        return Some((so_far, outer, inner));
    }
    if singly == 0 {
        return read_onto_from(reader, first, 0, so_far, outer, inner);
    }
    let (_, next) = peak_at::<F>(reader.leaves, first);
    if next > reader.start {
        return read_onto_from(reader, first, singly, so_far, outer, inner);
    }
    read_group_from(reader, next, singly - 1, so_far, outer, inner)
}

/// All peaks as one digest, of which so many are folded singly from the left, and the digests that are left (own).
/// None: there is no peak, or a digest is missing.
pub fn read_peaks<'d, F: Family, H: Hasher<F>>(
    reader: &Reader<'_, F, H>,
    singly: u64,
    outer: &'d [H::Digest],
    inner: &'d [H::Digest],
) -> Option<(H::Digest, &'d [H::Digest], &'d [H::Digest])>
    requires few { reader.now.leaves ≤ MAX_LEAVES }
    requires small { reader.now.start + length reader.now.elements.now < 2 ^ 64 }
    ensures { (names : Naming) (last : ℕ) (over : Over)
        → HashesAs F.merge_rule H.hash_of (H.leaf_of reader.now.hasher.now) (H.node_of reader.now.hasher.now) over
        → option_map (λ x. (
          H.Digest.encoding x.0,
          (map H.Digest.encoding x.1.now, map H.Digest.encoding x.2.now),
        )) result
        ≡ valued H.hash_of (read_bag names over
        (from reader.now.start (map (λ e. e.now) reader.now.elements.now)) reader.now.start
        (reader.now.start + length reader.now.elements.now) last singly
        (peaks_of F.merge_rule reader.now.leaves)
        (map H.Digest.encoding outer.now, map H.Digest.encoding inner.now)) }
{
    if reader.leaves == 0 {
        return None;
    }
    if singly == 0 {
        return read_back_from(reader, 0, outer, inner);
    }
    let (peak, next) = peak_at::<F>(reader.leaves, 0);
    if next <= reader.start {
        let (given, rest) = outer.split_first()?;
        return read_group_from(reader, next, singly - 1, *given, rest, inner);
    }
    let (own, outer, inner) = read_one(reader, peak, outer, inner)?;
    read_onto_from(reader, next, singly - 1, own, outer, inner)
}
