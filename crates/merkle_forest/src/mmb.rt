//! Merkle Mountain Belts.
//!
//! The belt of 11 leaves, each node at its position, with the locations of the leaves below:
//!
//! ```text
//! height 3                 18
//!                      /       \
//!        2         7               14
//!                /   \           /   \
//!        1     2       5       9       12      16
//!             / \     / \     / \     / \     / \
//!        0   0   1   3   4   6   8   10  11  13  15  17
//! leaf       0   1   2   3   4   5   6   7   8   9   10
//! ```
//!
//! Nodes are numbered in order of birth. With a leaf comes at most one branch: the rightmost two peaks of one height
//! merge. So a branch stands right after a leaf that is not below it: 7, over the leaves 0 to 3, comes with leaf 4,
//! which stands at 6. A node over 2^h leaves, where h is at least 1, is born when there are 3 * 2^(h - 1) - 1 leaves
//! from its first one on, which is why at most one full chunk of leaves waits for its node.
//!
//! The peaks are told by the binary digits of one more than the number of leaves: for each digit but the highest there
//! is one, as high as the digit's index, and one higher where the digit is 1. Above, 11 + 1 is 1100 in binary, and the
//! peaks 17, 16 and 18 have the heights 0, 1 and 3. A leaf turns the ones at the end of that number to zeros, and the
//! zero before them to a one: at that index, t, two peaks of height t merge. Where the number is all ones, none do, and
//! there is one peak more. So n leaves have floor(log2(n + 1)) peaks, and as many nodes less than 2n: there the next
//! leaf stands.

ghost use Rattle.std.specs.Prelude.{◌≡◌, ◌≤◌, ◌<◌, ◌+◌, ◌*◌, ◌-◌};
ghost use Rattle.std.specs.Prelude.{◌/◌, ◌%◌, ◌^◌, ◌∷◌, [], ℕ, length, map, slice_get};
ghost use Rattle.std.specs.Prelude.{Some};
ghost use Rattle.merkle_forest.specs.Forest.{leaf, branch, height, size, mmb_rule, forest_of};
ghost use Rattle.merkle_forest.specs.Nodes.{IsSize, StandsAt, IsFirstLeaf};
ghost use Rattle.merkle_forest.specs.Laws.Rules.{mmb_merges_equals};
ghost use Rattle.merkle_forest.specs.Mmb.{birth, leaf_position, root_position};
ghost use Rattle.merkle_forest.specs.Laws.MmbNodes.{aligned-mmb, apart-mmb, birth-mmb, node_position-mmb};
ghost use Rattle.merkle_forest.specs.Laws.MmbCounts.{counted-mmb, soon-mmb, few-mmb, peaks-mmb};

use crate::family::MAX_LEAVES;
use crate::graftable::Graftable;
use crate::hasher::Standard;
use crate::peaks::Peaks;
use crate::{error, family, location, position};

// The position of the leaf at a location.
fn position_of(location: u64) -> u64
    requires { location ≤ MAX_LEAVES }
    ensures { result ≡ leaf_position location }
{
    2 * location - (location + 1).ilog2() as u64
}

// The location of the leaf at a position.
fn location_of(position: u64) -> u64
    requires { IsSize mmb_rule position }
    ensures { leaf_position result ≡ position }
{
    (position + (position / 2 + 1).ilog2() as u64 + 1) / 2
}

// How many leaves there are when the node of this height over the leaves from a location on is born.
fn birth(first: u64, height: u32) -> u64
    requires start { first ≤ MAX_LEAVES }
    requires low { height ≤ 62 }
    ensures { result ≡ birth first height }
{
    if height == 0 {
        return first + 1;
    }
    first + ((3u64 << (height - 1)) - 1)
}

// The position of that node: right after the last leaf before its birth.
fn root_position(first: u64, height: u32) -> u64
    requires { birth first height ≤ MAX_LEAVES }
    ensures { result ≡ root_position first height }
{
    if height == 0 {
        return position_of(first);
    }
    position_of(first + ((3u64 << (height - 1)) - 2)) + 1
}

// The location of the first leaf below the node of this height at a position.
fn first_leaf(position: u64, height: u32) -> u64
    requires { StandsAt mmb_rule position height }
    ensures { IsFirstLeaf mmb_rule position height result }
{
    if height == 0 {
        return location_of(position);
    }
    location_of(position - 1) - ((3u64 << (height - 1)) - 2)
}

/// The family of Merkle Mountain Belts: once for each leaf, the rightmost two peaks of one height merge.
/// In the Rust: `merkle::mmb::Family`.
#[derive(Clone, Copy, Debug, Default, PartialEq, Eq)]
pub struct Family;

impl family::Family for Family {
    ghost merge_rule = { mmb_rule };

    fn merge_index(merges: usize, heights: &[u64]) -> Option<usize> {
        if merges > 0 {
            return None;
        }
        for index in 1..heights.len() {
            if heights[index - 1] == heights[index] {
                return Some(index - 1);
            }
        }
        None
    }

    fn leaf_position(leaves: u64) -> u64 {
        position_of(leaves)
    }

    fn peak_from(leaves: u64, first: u64) -> (u64, u32) {
        let rest = leaves - first + 1;
        let index = rest.ilog2() - 1;
        let height = index + ((rest >> index) % 2) as u32;
        (root_position(first, height), height)
    }

    fn child_positions(branch: u64, height: u32) -> (u64, u64) {
        let first = first_leaf(branch, height);
        let below = height - 1;
        let middle = first + (1u64 << below);
        (root_position(first, below), root_position(middle, below))
    }

    fn parent_range(leaves: u64) -> (u32, u32) {
        let height = (leaves + 1).trailing_ones() + 1;
        let count = if (leaves + 2).is_power_of_two() { 0 } else { 1 };
        (height, count)
    }

    ghost merges_equals = { mmb_merges_equals };

    ghost peaks_bounded = { peaks-mmb };
}

impl Graftable for Family {
    ghost birth_of = { birth };

    ghost root_of = { root_position };

    fn birth(first: u64, height: u32) -> u64 {
        birth(first, height)
    }

    fn subtree_root(first: u64, height: u32) -> u64 {
        root_position(first, height)
    }

    fn first_leaf(position: u64, height: u32) -> u64 {
        first_leaf(position, height)
    }

    ghost aligned = { aligned-mmb };

    ghost roots = { node_position-mmb };

    ghost births = { birth-mmb };

    ghost births_apart = { apart-mmb };

    ghost births_soon = { soon-mmb };

    ghost few_peaks = { few-mmb };

    ghost births_counted = { counted-mmb };
}

/// The position of the leaf after n leaves is 2n less the floor of log2(n + 1).
pub fn position_of_a_leaf()
    ensures { (n k : ℕ) → n ≤ 2 ^ 62 → 2 ^ k ≤ n + 1 → n + 1 < 2 ^ (k + 1)
        → size (forest_of mmb_rule n) ≡ 2 * n - k }
{}

/// The forest of `MAX_LEAVES` leaves has 2^63 - 62 nodes.
pub fn greatest_node_count()
    ensures { size (forest_of mmb_rule MAX_LEAVES) ≡ 2 ^ 63 - 62 }
{}

/// The forest of n leaves has floor(log2(n + 1)) peaks. The one at an index, counted from the right, is as high as the
/// index, or one higher where n + 1 has a 1 there in binary.
pub fn heights_of_the_peaks()
    ensures count { (n k : ℕ) → 2 ^ k ≤ n + 1 → n + 1 < 2 ^ (k + 1) → length (forest_of mmb_rule n) ≡ k }
    ensures heights { (n index h : ℕ) → slice_get (map height (forest_of mmb_rule n)) index ≡ Some h
        → h ≡ index + (n + 1) / 2 ^ index % 2 }
{}

/// The forest of five leaves is a leaf at 6 beside the branch at 7 over the other four.
pub fn belt_of_five_leaves()
    ensures { forest_of mmb_rule 5
        ≡ leaf 6 ∷ branch 7 (branch 2 (leaf 0) (leaf 1)) (branch 5 (leaf 3) (leaf 4)) ∷ [] }
{}

/// The peaks of a Merkle Mountain Belt from left to right: the position and the height of each.
/// In the Rust: `merkle::mmb::iterator::PeakIterator`.
pub type PeakIterator = Peaks<Family>;

/// The location of a leaf of a Merkle Mountain Belt. In the Rust: `merkle::mmb::Location`.
pub type Location = location::Location<Family>;

/// The position of a node of a Merkle Mountain Belt. In the Rust: `merkle::mmb::Position`.
pub type Position = position::Position<Family>;

/// What a call over a Merkle Mountain Belt refuses. In the Rust: `merkle::mmb::Error`.
pub type Error = error::Error<Family>;

/// The hasher of plain trees. In the Rust: `merkle::mmb::StandardHasher`.
pub type StandardHasher<H> = Standard<H>;
