//! The parts that a tree is made from, where it does not begin with no leaves.

ghost use Rattle.std.specs.Prelude.{◌≡◌, ◌≤◌, ◌+◌, ◌↔◌, map, length, IsSome, IfSome, IfOk};
ghost use Rattle.merkle_forest.specs.Nodes.{IsSize};
ghost use Rattle.merkle_core_parts.specs.Mem.{node_count, pinned_positions, placed, encoded};

use merkle_forest::family::{Family, MAX_LEAVES};
use merkle_forest::{Digest, Location, Position};
use std::alloc::{AllocError, Global};

// How many leaves the tree has that has so many nodes before a boundary and so many from it on. Where no tree has as
// many it is None.
pub(crate) fn leaves_of<F: Family>(before: u64, from: u64) -> Option<Location<F>>
    ensures some { IfSome result (λ leaves. (leaves ≤ MAX_LEAVES)
        × (node_count F.merge_rule leaves ≡ before + from)) }
    ensures found { IsSome result ↔ IsSize F.merge_rule (before + from) }
{
    match before.checked_add(from) {
        Some(size) => F::position_to_location(Position::new(size)),
        None => None,
    }
}

// These digests, each with the position of a peak of the forest of so many leaves, from left to right.
pub(crate) fn placed_at_peaks<F: Family, D: Digest>(
    alloc: Global,
    leaves: u64,
    digests: &[D],
) -> Result<Vec<(u64, D)>, AllocError>
    requires few { leaves ≤ MAX_LEAVES }
    requires counted { length digests.now ≡ length (pinned_positions F.merge_rule leaves) }
    ensures { IfOk result (λ found. encoded D.encoding found.items
        ≡ placed (pinned_positions F.merge_rule leaves) (map D.encoding digests.now)) }
{
    let mut found = Vec::new(alloc);
    let mut first = 0;
    while first < leaves {
        let (position, height) = F::peak_from(leaves, first);
        found.push((position, digests[found.len()]))?;
        first += 1u64 << height;
    }
    Ok(found)
}
