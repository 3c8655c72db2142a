//! Families of Merkle forests.

ghost use Rattle.std.specs.Prelude.{◌≡◌, ◌≤◌, ◌<◌, ◌+◌, ◌↔◌, ◌^◌, ℕ, List, Option, IfSome, IsSome, IsTrue, map, length};
ghost use Rattle.std.specs.List.{range_with_len};
ghost use Rattle.merkle_forest.specs.Forest.{IsPairOfEquals, size, forest_of};
ghost use Rattle.merkle_forest.specs.Nodes.{HasPeak, IsPositionOfPeak, HasBranch, AreChildren, IsSize, StandsAt};
ghost use Rattle.merkle_forest.specs.Nodes.{IsHeightAt, AreParents};
ghost use Rattle.merkle_forest.specs.Peaks.{peak_positions, ArePeaksOf, IsInactiveCount};

use crate::location::Location;
use crate::parent_heights::ParentHeights;
use crate::peaks::{PeakPositions, Peaks, inactive_count};
use crate::position::Position;
use crate::sizes::greatest_leaf_count;
use std::fmt::Debug;

/// The greatest leaf count, 2^62. In the Rust: `merkle::Family::MAX_LEAVES`, a location of each family.
pub const MAX_LEAVES: u64 = 0x4000_0000_0000_0000;

/// The greatest node count, 2^63 - 1. In the Rust: `merkle::Family::MAX_NODES`, a constant of each family.
pub const MAX_NODES: u64 = 0x7fff_ffff_ffff_ffff;

/// The greatest count of peaks, which are the nodes that stay pinned where a tree is pruned: 62.
/// In the Rust: `merkle::MAX_PINNED_NODES`.
pub const MAX_PINNED_NODES: usize = 62;

/// A family of forests, told by the rule by which appended leaves merge into trees. In the Rust: `merkle::Family`.
pub trait Family: Copy + Debug + Drop {
    /// From the number of merges since the last leaf was appended, and the heights of the peaks from right to left:
    /// the index of the two neighbours that merge next.
    ghost merge_rule: { ℕ → List ℕ → Option ℕ };

    /// The index of the two neighbours that merge next, after `merges` merges since the last leaf was appended (own).
    /// It is the index of the right one, counted from the right; `heights` are those of the peaks from right to left.
    fn merge_index(merges: usize, heights: &[u64]) -> Option<usize>
        ensures { result ≡ merge_rule merges heights.now };

    /// How many nodes the forest of this many leaves has, which is the position of the next leaf (own).
    fn leaf_position(leaves: u64) -> u64
        requires { leaves ≤ MAX_LEAVES }
        ensures { result ≡ size (forest_of merge_rule leaves) };

    /// The position and the height of the peak that begins at a location, in the forest of this many leaves (own).
    fn peak_from(leaves: u64, first: u64) -> (u64, u32)
        requires few { leaves ≤ MAX_LEAVES }
        requires begins { HasPeak (forest_of merge_rule leaves) first }
        ensures { IsPositionOfPeak (forest_of merge_rule leaves) first result.0 result.1 };

    /// The positions of the left and the right child of the branch at a position, of this height (own).
    fn child_positions(branch: u64, height: u32) -> (u64, u64)
        requires { HasBranch merge_rule branch height }
        ensures { AreChildren merge_rule branch height result.0 result.1 };

    /// The height of the first parent that is born with the leaf after this many, and how many parents are: each is one
    /// higher than the one before (own).
    fn parent_range(leaves: u64) -> (u32, u32)
        requires { leaves < MAX_LEAVES }
        ensures parents { AreParents merge_rule leaves (range_with_len result.0 result.1) }
        ensures low { result.0 + result.1 ≤ 64 };

    ghost merges_equals: { (merges : ℕ) (heights : List ℕ)
        → IfSome (merge_rule merges heights) (IsPairOfEquals heights) };

    /// A forest of up to `MAX_LEAVES` leaves has at most `MAX_PINNED_NODES` peaks.
    ghost peaks_bounded: { (leaves : ℕ) → leaves ≤ 2 ^ 62 → length (forest_of merge_rule leaves) ≤ 62 };

    /// The position of the leaf at a location, which is how many nodes the forest of the leaves before it has.
    /// In the Rust: `merkle::Family::location_to_position`.
    final fn location_to_position(location: Location<Self>) -> Position<Self>
        requires { location ≤ MAX_LEAVES }
        ensures { result ≡ size (forest_of merge_rule location) }
    {
        Position::new(Self::leaf_position(location.as_u64()))
    }

    /// The positions of the left and the right child of the branch at a position, of this height.
    /// In the Rust: `merkle::Family::children`.
    final fn children(position: Position<Self>, height: u32) -> (Position<Self>, Position<Self>)
        requires { HasBranch merge_rule position height }
        ensures { AreChildren merge_rule position height result.0 result.1 }
    {
        let (left, right) = Self::child_positions(position.as_u64(), height);
        (Position::new(left), Position::new(right))
    }

    /// The heights of the parents that are born with the next leaf, where there are this many leaves, in order of
    /// birth.
    /// In the Rust: `merkle::Family::parent_heights`, with an unnamed iterator.
    final fn parent_heights(leaves: Location<Self>) -> ParentHeights
        requires { leaves < MAX_LEAVES }
        ensures { AreParents merge_rule leaves result }
    {
        let (first, count) = Self::parent_range(leaves.as_u64());
        ParentHeights::new(first, count)
    }

    /// The height of the node at a position: 0 for a leaf. In the Rust: `merkle::Family::pos_to_height`.
    final fn pos_to_height(position: Position<Self>) -> u32
        requires { position < size (forest_of merge_rule MAX_LEAVES) }
        ensures there { StandsAt merge_rule position result }
        ensures all { IsHeightAt merge_rule position result }
    {
        let leaves = greatest_leaf_count::<Self>(position.as_u64());
        let nodes_after = position.as_u64() - Self::leaf_position(leaves);
        if nodes_after == 0 {
            return 0;
        }
        let (first, _) = Self::parent_range(leaves);
        first + (nodes_after - 1) as u32
    }

    /// The location of the leaf at a position. Where no leaf up to `MAX_LEAVES` stands there it is None.
    /// In the Rust: `merkle::Family::position_to_location`.
    final fn position_to_location(position: Position<Self>) -> Option<Location<Self>>
        ensures some { IfSome result (λ location. (location ≤ MAX_LEAVES)
            × (size (forest_of merge_rule location) ≡ position)) }
        ensures found { IsSome result ↔ IsSize merge_rule position }
    {
        let leaves = greatest_leaf_count::<Self>(position.as_u64());
        if Self::leaf_position(leaves) == position.as_u64() {
            Some(Location::new(leaves))
        } else {
            None
        }
    }

    /// Whether a forest of up to `MAX_LEAVES` leaves has this many nodes. In the Rust: `merkle::Family::is_valid_size`.
    final fn is_valid_size(size: Position<Self>) -> bool
        ensures { IsTrue result ↔ IsSize merge_rule size }
    {
        Self::position_to_location(size).is_some()
    }

    /// The greatest node count up to this one that a forest of up to `MAX_LEAVES` leaves has.
    /// In the Rust: `merkle::Family::to_nearest_size`.
    final fn to_nearest_size(size: Position<Self>) -> Position<Self>
        ensures valid { IsSize merge_rule result }
        ensures within { result ≤ size }
        ensures nearest { (s : ℕ) → IsSize merge_rule s → s ≤ size → s ≤ result }
    {
        Position::new(Self::leaf_position(greatest_leaf_count::<Self>(size.as_u64())))
    }

    /// The peaks of the forest that has this many nodes, from left to right: the position and the height of each.
    /// In the Rust: `merkle::Family::peaks`, with an unnamed iterator.
    final fn peaks(size: Position<Self>) -> Peaks<Self>
        requires { IsSize merge_rule size }
        ensures { ArePeaksOf merge_rule size result }
    {
        Peaks::new(size)
    }

    /// The positions of the peaks of the forest of this many leaves, from left to right.
    /// In the Rust: `merkle::Family::nodes_to_pin`, with an unnamed iterator.
    final fn nodes_to_pin(leaves: Location<Self>) -> PeakPositions<Self>
        requires { leaves ≤ MAX_LEAVES }
        ensures { result ≡ map (λ index. index.0) (peak_positions (forest_of merge_rule leaves)) }
    {
        PeakPositions::new(Peaks::of_leaves(leaves))
    }

    /// How many peaks of the forest that has this many nodes come first whose leaves all stand before the floor, a
    /// location.
    /// In the Rust: `merkle::Family::inactive_peaks`.
    final fn inactive_peaks(size: Position<Self>, floor: Location<Self>) -> usize
        requires { IsSize merge_rule size }
        ensures { IsInactiveCount merge_rule size floor result }
    {
        inactive_count::<Self>(greatest_leaf_count::<Self>(size.as_u64()), floor.as_u64())
    }
}
