//! A tree's digest rebuilt from the elements of a range.

ghost use Rattle.std.specs.Prelude.{◌≡◌, ◌<◌, ◌≤◌, ◌+◌, ◌^◌, ◌||◌, ℕ, List, map, length, not, nat_le, option_map};
ghost use Rattle.merkle_forest.specs.Forest.{Tree, branch};
ghost use Rattle.merkle_theory.specs.MadeTrees.{Over, from, read_tree};
ghost use Rattle.merkle_theory.specs.Ranges.{meets};
ghost use Rattle.merkle_theory.specs.Reads.{HashesAs, AreChildTrees, valued};
ghost use Rattle.merkle_theory.specs.Subtrees.{IsTreeAt, HasTree};

use crate::subtree::Subtree;
use merkle_forest::family::Family;
use merkle_forest::hasher::Hasher;

// Whether leaves from `first` up to `end` stand in the range from `start` up to `stop`.
fn overlap(first: u64, end: u64, start: u64, stop: u64) -> bool
    ensures { result ≡ not (nat_le end start || nat_le stop first) }
{
    !(end <= start || stop <= first)
}

// Whether a leaf of the tree at the subtree stands in the range.
pub(crate) fn meets_range<F: Family>(subtree: Subtree, start: u64, stop: u64) -> bool
    requires stands { HasTree F.merge_rule subtree.first subtree.position subtree.height }
    ensures { (node : Tree) → IsTreeAt F.merge_rule subtree.first subtree.position subtree.height node
        → result ≡ meets start stop (subtree.first, node) }
{
    let end = subtree.first + (1u64 << subtree.height);
    overlap(subtree.first, end, start, stop)
}

// The subtrees of the two children of the branch.
pub(crate) fn children_of<F: Family>(subtree: Subtree) -> (Subtree, Subtree)
    requires stands { HasTree F.merge_rule subtree.first subtree.position subtree.height }
    requires branch { 0 < subtree.height }
    ensures children { (p : ℕ) (left right : Tree)
        → IsTreeAt F.merge_rule subtree.first subtree.position subtree.height (branch p left right)
        → AreChildTrees F.merge_rule subtree.first left right result.0.first result.0.position result.0.height
        result.1.first result.1.position result.1.height }
    ensures left { HasTree F.merge_rule result.0.first result.0.position result.0.height }
    ensures right { HasTree F.merge_rule result.1.first result.1.position result.1.height }
    ensures lower { (result.0.height + 1 ≡ subtree.height) × (result.1.height + 1 ≡ subtree.height) }
{
    let (left, right) = F::child_positions(subtree.position, subtree.height);
    let height = subtree.height - 1;
    let middle = subtree.first + (1u64 << height);
    let first = Subtree {
        first: subtree.first,
        position: left,
        height,
    };
    let second = Subtree {
        first: middle,
        position: right,
        height,
    };
    (first, second)
}

/// The digest of the tree at the subtree, from those elements of the range that stand in it and the digests of the
/// maximal nodes that hold none of them, from left to right; and the digests that are left (own). None: a digest is
/// missing.
pub fn subtree_digest<'d, F: Family, H: Hasher<F>>(
    hasher: &H,
    subtree: Subtree,
    start: u64,
    elements: &[&[u8]],
    digests: &'d [H::Digest],
) -> Option<(H::Digest, &'d [H::Digest])>
    requires stands { HasTree F.merge_rule subtree.first subtree.position subtree.height }
    requires small { start + length elements.now < 2 ^ 64 }
    ensures { (node : Tree) (over : Over) → IsTreeAt F.merge_rule subtree.first subtree.position subtree.height node
        → HashesAs F.merge_rule H.hash_of (H.leaf_of hasher.now) (H.node_of hasher.now) over
        → option_map (λ x. (H.Digest.encoding x.0, map H.Digest.encoding x.1.now)) result
        ≡ valued H.hash_of (read_tree over (from start (map (λ e. e.now) elements.now)) start
        (start + length elements.now) subtree.first node (map H.Digest.encoding digests.now)) }
{
    let stop = start + elements.len() as u64;
    if !meets_range::<F>(subtree, start, stop) {
        let (given, rest) = digests.split_first()?;
        return Some((*given, rest));
    }
    if subtree.height == 0 {
        let element = elements[(subtree.first - start) as usize];
        return Some((hasher.digest_of_leaf(subtree.position, element), digests));
    }
    let (left, right) = children_of::<F>(subtree);
    let (left_digest, rest) = subtree_digest(hasher, left, start, elements, digests)?;
    let (right_digest, rest) = subtree_digest(hasher, right, start, elements, rest)?;
    let digest = hasher.digest_of_branch(subtree.position, &left_digest, &right_digest);
    Some((digest, rest))
}
