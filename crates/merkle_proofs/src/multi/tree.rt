//! A tree's digest rebuilt from some elements.

ghost use Rattle.std.specs.Prelude.{◌≡◌, ◌<◌, ℕ, List, map, filter, not, nat_lt, option_map};
ghost use Rattle.std.specs.List.Sorted.{IsNonDecreasingBy, IsPermutation};
ghost use Rattle.merkle_forest.specs.Forest.{Tree};
ghost use Rattle.merkle_forest.specs.Made.{value};
ghost use Rattle.merkle_theory.specs.MadeTrees.{Over};
ghost use Rattle.merkle_theory.specs.MultiReads.{Shown, shown_at, locations_of, shown_in, ranked, read_shown};
ghost use Rattle.merkle_theory.specs.Reads.{HashesAs};
ghost use Rattle.merkle_theory.specs.Subtrees.{IsTreeAt, HasTree};

use crate::subtree::Subtree;
use crate::verifying::tree::children_of;
use merkle_forest::family::Family;
use merkle_forest::hasher::Hasher;
use merkle_forest::{Digest, Location, Position};

// Digests of nodes in the order of their positions, which ascend.
#[derive(Clone, Copy)]
pub(crate) struct Known<'a, F: Family, D> {
    pub(crate) positions: &'a [Position<F>],
    pub(crate) digests: &'a [D],
}

// The digest of the node at a position. None: there are too few.
fn known_digest<F: Family, D: Digest>(known: &Known<'_, F, D>, position: u64) -> Option<D>
    requires { IsNonDecreasingBy (λ p. p) known.now.positions.now }
    ensures { (needed : List ℕ) → IsPermutation needed known.now.positions.now
        → option_map D.encoding result ≡ ranked needed (map D.encoding known.now.digests.now) position }
{
    let rank = known
        .positions
        .partition_point(|other| other.as_u64() < position);
    if rank >= known.digests.len() {
        return None;
    }
    Some(known.digests[rank])
}

// The elements before a location, and the others.
pub(crate) fn split_before<'s, 'e, F: Family>(
    elements: &'s [(&'e [u8], Location<F>)],
    location: u64,
) -> (&'s [(&'e [u8], Location<F>)], &'s [(&'e [u8], Location<F>)])
    requires { IsNonDecreasingBy (λ e. e.1) elements.now }
    ensures before { result.0.now ≡ filter (λ e. nat_lt e.1 location) elements.now }
    ensures after { result.1.now ≡ filter (λ e. not (nat_lt e.1 location)) elements.now }
    ensures ascend { IsNonDecreasingBy (λ e. e.1) result.0.now × IsNonDecreasingBy (λ e. e.1) result.1.now }
{
    let count = elements.partition_point(|element| element.1.as_u64() < location);
    elements.split_at(count)
}

// The digest of the tree at the subtree, from the elements that are shown in it and the known digests of the maximal
// nodes that hold none of them. None: a digest is missing.
pub(crate) fn shown_digest<F: Family, H: Hasher<F>>(
    hasher: &H,
    known: &Known<'_, F, H::Digest>,
    subtree: Subtree,
    elements: &[(&[u8], Location<F>)],
) -> Option<H::Digest>
    requires stands { HasTree F.merge_rule subtree.first subtree.position subtree.height }
    requires positions { IsNonDecreasingBy (λ p. p) known.now.positions.now }
    requires elements { IsNonDecreasingBy (λ e. e.1) elements.now }
    ensures { (node : Tree) (over : Over) (shown : Shown) (needed : List ℕ)
        → IsPermutation needed known.now.positions.now
        → IsTreeAt F.merge_rule subtree.first subtree.position subtree.height node
        → HashesAs F.merge_rule H.hash_of (H.leaf_of hasher.now) (H.node_of hasher.now) over
        → map (λ e. (e.0.now, e.1)) elements.now ≡ shown_in (subtree.first, node) shown
        → option_map H.Digest.encoding result
        ≡ option_map (value H.hash_of) (read_shown over (shown_at shown) (locations_of shown)
        (ranked needed (map H.Digest.encoding known.now.digests.now)) subtree.first node) }
{
    let [(element, _), ..] = elements else {
        return known_digest(known, subtree.position);
    };
    if subtree.height == 0 {
        return Some(hasher.digest_of_leaf(subtree.position, element));
    }
    let (left, right) = children_of::<F>(subtree);
    let (before, after) = split_before(elements, right.first);
    let left_digest = shown_digest(hasher, known, left, before)?;
    let right_digest = shown_digest(hasher, known, right, after)?;
    Some(hasher.digest_of_branch(subtree.position, &left_digest, &right_digest))
}
