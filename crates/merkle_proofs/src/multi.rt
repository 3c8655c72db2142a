//! The positions of the nodes that the proof of some elements is made of.

ghost use Rattle.std.specs.Prelude.{◌≡◌, ◌<◌, ◌≤◌, ◌+◌, ◌^◌, ◌++◌, ℕ, List, None, Some, drop, IfOk, IfErr, OnOk};
ghost use Rattle.merkle_forest.specs.Forest.{Tree, leaf_count, forest_of};
ghost use Rattle.merkle_forest.specs.Nodes.{HasPeak};
ghost use Rattle.merkle_forest.specs.Peaks.{located_from};
ghost use Rattle.merkle_theory.specs.Multi.{multi_nodes, AreMultiPositions, AscendFrom, is_next, AreFound};
ghost use Rattle.merkle_theory.specs.Multi.{first_bad, IsRefusalOfLocations};
ghost use Rattle.merkle_theory.specs.Plans.{positions_of};
ghost use Rattle.merkle_theory.specs.Subtrees.{IsTreeAt, HasTree};

pub mod root;
pub(crate) mod tree;

use crate::subtree::{Subtree, peak_at};
use crate::verifying::tree::children_of;
use merkle_core_parts::Error;
use merkle_forest::family::{Family, MAX_LEAVES};
use merkle_forest::{Location, Position};
use std::alloc::{AllocError, Global};

// Whether the first of the locations stands before `end`.
fn is_next_before<F: Family>(locations: &[Location<F>], end: u64) -> bool
    ensures { result ≡ is_next end locations.now }
{
    match locations {
        [] => false,
        [next, ..] => next.as_u64() < end,
    }
}

// The locations after the first one.
fn after_first<F: Family>(locations: &[Location<F>]) -> &[Location<F>]
    ensures { result.now ≡ drop 1 locations.now }
{
    match locations {
        [] => locations,
        [_, later @ ..] => later,
    }
}

// The location after the last leaf of the tree at the subtree.
fn end_of<F: Family>(subtree: Subtree) -> u64
    requires stands { HasTree F.merge_rule subtree.first subtree.position subtree.height }
    ensures { (node : Tree) → IsTreeAt F.merge_rule subtree.first subtree.position subtree.height node
        → result ≡ subtree.first + leaf_count node }
{
    subtree.first + (1u64 << subtree.height)
}

// Appends the positions of the maximal nodes of the tree at the subtree that hold no leaf at one of the ascending
// locations, none of which stands before the tree. The answer is the locations after the tree.
fn append_unnamed<'l, F: Family>(
    found: &mut Vec<Position<F>>,
    subtree: Subtree,
    locations: &'l [Location<F>],
) -> Result<&'l [Location<F>], AllocError>
    requires stands { HasTree F.merge_rule subtree.first subtree.position subtree.height }
    requires ascend { AscendFrom subtree.first locations.now }
    ensures { (node : Tree) → IsTreeAt F.merge_rule subtree.first subtree.position subtree.height node
        → IfOk result (λ after. AreFound locations.now after.now found.old.items found.new.items subtree.first node) }
{
    if !is_next_before(locations, end_of::<F>(subtree)) {
        found.push(Position::new(subtree.position))?;
        return Ok(locations);
    }
    if subtree.height == 0 {
        return Ok(after_first(locations));
    }
    let (left, right) = children_of::<F>(subtree);
    let rest = append_unnamed(found, left, locations)?;
    append_unnamed(found, right, rest)
}

// Appends those of the peaks from the one that begins at `first` on.
fn append_unnamed_peaks<F: Family>(
    found: &mut Vec<Position<F>>,
    leaves: u64,
    first: u64,
    locations: &[Location<F>],
) -> Result<(), AllocError>
    requires few { leaves ≤ MAX_LEAVES }
    requires begins { first < leaves → HasPeak (forest_of F.merge_rule leaves) first }
    requires ascend { AscendFrom first locations.now }
    ensures { OnOk result (found.new.items ≡ found.old.items
        ++ positions_of (multi_nodes locations.now (located_from first (forest_of F.merge_rule leaves)))) }
{
    if first >= leaves {
        return Ok(());
    }
    let (peak, next) = peak_at::<F>(leaves, first);
    let rest = append_unnamed(found, peak, locations)?;
    append_unnamed_peaks(found, leaves, next, rest)
}

// Why a location that is less than `low` is refused: it comes again, or after a greater one.
fn not_after<F: Family>(location: Location<F>, low: u64) -> Error<F>
    requires { location < low }
    ensures { (leaves : ℕ) (locations : List ℕ) → first_bad leaves 0 locations ≡ Some (low, location)
        → IsRefusalOfLocations leaves locations result }
{
    if location.as_u64() + 1 == low {
        return Error::DuplicateLocation(location);
    }
    Error::UnsortedLocation(location)
}

// Whether the locations ascend strictly, and a leaf stands at each.
fn check_ascending<F: Family>(leaves: u64, locations: &[Location<F>]) -> Result<(), Error<F>>
    ensures good { OnOk result (first_bad leaves 0 locations.now ≡ None) }
    ensures refused { IfErr result (λ e. IsRefusalOfLocations leaves locations.now e) }
{
    let mut low = 0;
    let mut rest = locations;
    while let Some((location, later)) = rest.split_first() {
        let at = location.as_u64();
        if at < low {
            return Err(not_after(*location, low));
        }
        if at >= leaves {
            return Err(Error::LeafOutOfBounds(*location));
        }
        low = at + 1;
        rest = later;
    }
    Ok(())
}

// Whether the proof of elements at these locations can be planned in a tree of so many leaves.
fn check_locations<F: Family>(
    leaves: Location<F>,
    locations: &[Location<F>],
) -> Result<(), Error<F>>
    ensures good { OnOk result (first_bad leaves 0 locations.now ≡ None) }
    ensures few { OnOk result (leaves ≤ MAX_LEAVES) }
    ensures refused { IfErr result (λ e. IsRefusalOfLocations leaves locations.now e) }
{
    if locations.is_empty() {
        return Err(Error::Empty);
    }
    check_ascending(leaves.as_u64(), locations)?;
    if leaves.as_u64() > MAX_LEAVES {
        return Err(Error::LocationOverflow(leaves));
    }
    Ok(())
}

/// The positions, in ascending order, of the nodes that the proof of the elements at these locations is made of, in the
/// tree of so many leaves: the peaks without such a location, and in the others the maximal nodes without one. Where
/// there is no location: M4; else the first one that is refused: M8 where it comes again, M9 where it is less than the
/// one before it, M7 where no leaf stands there, with that location; where the leaves are past `MAX_LEAVES`: M3 with
/// their count; out of memory: M23.
/// In the Rust: `merkle::proof::multi_proof_positions`.
pub fn multi_proof_positions<F: Family>(
    alloc: Global,
    leaves: Location<F>,
    locations: &[Location<F>],
) -> Result<Vec<Position<F>>, Error<F>>
    ensures positions { IfOk result (λ found. AreMultiPositions F.merge_rule leaves locations.now found.items) }
    ensures good { OnOk result (first_bad leaves 0 locations.now ≡ None) }
    ensures few { OnOk result (leaves ≤ MAX_LEAVES) }
    ensures refused { IfErr result (λ e. IsRefusalOfLocations leaves locations.now e) }
{
    check_locations(leaves, locations)?;
    let mut found = Vec::new(alloc);
    append_unnamed_peaks(&mut found, leaves.as_u64(), 0, locations)?;
    found.sort_by_key(|position| position.as_u64())?;
    Ok(found)
}
