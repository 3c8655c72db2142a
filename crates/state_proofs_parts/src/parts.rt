//! The parts of a map whose chunks are pruned: the digests that stay pinned in its tree, and the tree that is made of
//! them again.

ghost use Rattle.std.specs.Prelude.{◌≡◌, ◌<◌, ◌≤◌, ◌*◌, ◌^◌, ◌↔◌, ℕ, map, length, IsTrue, IfOk, IfErr, OnOk};
ghost use Rattle.merkle_forest.specs.Forest.{mmr_rule};
ghost use Rattle.merkle_core_parts.specs.Mem.{pinned_positions};
ghost use Rattle.state_theory.specs.Bits.{IsChunkWidth};
ghost use Rattle.state_proofs_parts.specs.Errors.{CanBePruned, IsRefusalOfPinned};
ghost use Rattle.state_theory.specs.Parts.{ArePinned, pruned_tree};

use crate::bitmap_error::Error;
use crate::prunable::Prunable;
use merkle_core::Mem;
use merkle_forest::family::{Family as _, MAX_LEAVES};
use merkle_forest::mmr::Family;
use merkle_forest::{Digest, Location};
use std::alloc::{AllocError, Global};

// Whether a map may have so many pruned chunks: a tree has as many leaves, and the bits have numbers.
pub(crate) fn can_be_pruned<const N: usize>(chunks: u64) -> bool
    requires { IsChunkWidth N }
    ensures { IsTrue result ↔ CanBePruned N chunks }
{
    if chunks > MAX_LEAVES {
        return false;
    }
    Prunable::<N>::chunk_size_bits()
        .checked_mul(chunks)
        .is_some()
}

// The digests that stay pinned in a tree, from left to right.
pub(crate) fn pinned_digests<D: Digest>(
    alloc: Global,
    tree: &Mem<Family, D>,
) -> Result<Vec<D>, AllocError>
    ensures { IfOk result (λ found. ArePinned tree.now tree.now.boundary (map D.encoding found.items)) }
{
    let mut found = Vec::new(alloc);
    let _leaves = tree.leaves();
    for position in Family::nodes_to_pin(tree.pruning_boundary()) {
        match tree.get_node(position) {
            Some(digest) => found.push(digest)?,
            None => unreachable!(),
        }
    }
    Ok(found)
}

// The tree of so many leaves, all pruned, with these digests at its peaks.
pub(crate) fn tree_of_pinned<D: Digest>(
    alloc: Global,
    leaves: u64,
    digests: &[D],
) -> Result<Mem<Family, D>, Error>
    requires { leaves ≤ 2 ^ 62 }
    ensures tree { IfOk result (λ tree. tree ≡ pruned_tree leaves (map D.encoding digests.now)) }
    ensures counted { OnOk result (length digests.now ≡ length (pinned_positions mmr_rule leaves)) }
    ensures refused { IfErr result (IsRefusalOfPinned leaves (length digests.now)) }
{
    match Mem::from_components(alloc, Vec::new(alloc), Location::new(leaves), digests) {
        Ok(tree) => Ok(tree),
        Err(merkle_core_parts::Error::InvalidPinnedNodes) => Err(Error::InvalidPinnedNodes),
        Err(merkle_core_parts::Error::Memory) => Err(Error::Memory),
        Err(_) => unreachable!(),
    }
}
