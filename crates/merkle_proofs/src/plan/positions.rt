//! The positions of the nodes that the proof of a range is made of, by closed formulas.

ghost use Rattle.std.specs.Prelude.{◌≡◌, ◌<◌, ◌≤◌, ◌+◌, ◌^◌, ◌++◌, ◌&&◌, filter, nat_le, OnOk};
ghost use Rattle.merkle_forest.specs.Forest.{Tree, leaf_count, forest_of};
ghost use Rattle.merkle_forest.specs.Nodes.{HasPeak};
ghost use Rattle.merkle_forest.specs.Peaks.{located_from};
ghost use Rattle.merkle_theory.specs.Plans.{sibling_nodes, inner_nodes, positions_of};
ghost use Rattle.merkle_proofs.specs.RangesCode.{stands};
ghost use Rattle.merkle_theory.specs.Subtrees.{IsTreeAt, HasTree};

use crate::building::plain::Side;
use crate::subtree::{Subtree, peak_at};
use crate::verifying::tree::{children_of, meets_range};
use merkle_forest::Position;
use merkle_forest::family::{Family, MAX_LEAVES};
use std::alloc::AllocError;

// Whether the leaves from `first` up to `end` all stand on that side.
pub(crate) fn is_on_side(side: Side, first: u64, end: u64) -> bool
    ensures { (node : Tree) → end ≡ first + leaf_count node → result ≡ stands side (first, node) }
{
    match side {
        Side::Before(start) => end <= start,
        Side::After(stop) => stop <= first,
    }
}

// Appends the positions of the peaks on that side, from the one that begins at `first` on.
pub(crate) fn append_side<F: Family>(
    found: &mut Vec<Position<F>>,
    leaves: u64,
    first: u64,
    side: Side,
) -> Result<(), AllocError>
    requires few { leaves ≤ MAX_LEAVES }
    requires begins { first < leaves → HasPeak (forest_of F.merge_rule leaves) first }
    ensures { OnOk result (found.new.items ≡ found.old.items
        ++ positions_of (filter (stands side) (located_from first (forest_of F.merge_rule leaves)))) }
{
    if first >= leaves {
        return Ok(());
    }
    let (peak, next) = peak_at::<F>(leaves, first);
    if is_on_side(side, peak.first, next) {
        found.push(Position::new(peak.position))?;
    }
    append_side(found, leaves, next, side)
}

// Whether the tree at the subtree has no leaf before the range and none after it.
fn is_inside<F: Family>(subtree: Subtree, start: u64, stop: u64) -> bool
    requires stands { HasTree F.merge_rule subtree.first subtree.position subtree.height }
    ensures { (node : Tree) → IsTreeAt F.merge_rule subtree.first subtree.position subtree.height node
        → result ≡ nat_le start subtree.first && nat_le (subtree.first + leaf_count node) stop }
{
    let end = subtree.first + (1u64 << subtree.height);
    start <= subtree.first && end <= stop
}

// Appends the positions of the maximal nodes of the tree at the subtree that hold no leaf of the range, from left to
// right. Where the tree stands in the range there are none, and no node of it is visited.
fn append_siblings<F: Family>(
    found: &mut Vec<Position<F>>,
    subtree: Subtree,
    start: u64,
    stop: u64,
) -> Result<(), AllocError>
    requires stands { HasTree F.merge_rule subtree.first subtree.position subtree.height }
    ensures { (node : Tree) → IsTreeAt F.merge_rule subtree.first subtree.position subtree.height node
        → OnOk result (found.new.items ≡ found.old.items
        ++ positions_of (sibling_nodes start stop subtree.first node)) }
{
    if !meets_range::<F>(subtree, start, stop) {
        return Ok(found.push(Position::new(subtree.position))?);
    }
    if is_inside::<F>(subtree, start, stop) {
        return Ok(());
    }
    if subtree.height == 0 {
        return Ok(());
    }
    let (left, right) = children_of::<F>(subtree);
    append_siblings::<F>(found, left, start, stop)?;
    append_siblings::<F>(found, right, start, stop)
}

// Appends those of the peaks that meet the range, from the one that begins at `first` on.
pub(crate) fn append_inner<F: Family>(
    found: &mut Vec<Position<F>>,
    leaves: u64,
    first: u64,
    start: u64,
    stop: u64,
) -> Result<(), AllocError>
    requires few { leaves ≤ MAX_LEAVES }
    requires begins { first < leaves → HasPeak (forest_of F.merge_rule leaves) first }
    ensures { OnOk result (found.new.items ≡ found.old.items
        ++ positions_of (inner_nodes start stop (located_from first (forest_of F.merge_rule leaves)))) }
{
    if first >= leaves {
        return Ok(());
    }
    let (peak, next) = peak_at::<F>(leaves, first);
    if meets_range::<F>(peak, start, stop) {
        append_siblings::<F>(found, peak, start, stop)?;
    }
    append_inner(found, leaves, next, start, stop)
}
