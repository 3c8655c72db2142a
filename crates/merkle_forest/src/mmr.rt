//! Merkle Mountain Ranges.
//!
//! The range of 11 leaves, each node at its position, with the locations of the leaves below:
//!
//! ```text
//! height 3                 14
//!                      /       \
//!        2         6               13
//!                /   \           /   \
//!        1     2       5       9       12      17
//!             / \     / \     / \     / \     / \
//!        0   0   1   3   4   7   8   10  11  15  16  18
//! leaf       0   1   2   3   4   5   6   7   8   9   10
//! ```
//!
//! Nodes are numbered in order of birth. With a leaf come the branches whose leaves are then all there: with leaf 7, at
//! position 11, these are 12, 13 and 14, one for each trailing one of 7 in binary. So a branch stands right after its
//! right child, and its left child 2^height before it. The peaks are 14, 17 and 18, as 11 = 8 + 2 + 1. A peak over 2^h
//! leaves has 2^(h + 1) - 1 nodes, so n leaves have 2n nodes, less one for each one of n in binary: there the next leaf
//! stands. A node over 2^h leaves is born with the last of them, which is why no full chunk of leaves ever waits for
//! its node.

ghost use Rattle.std.specs.Prelude.{◌≡◌, ◌≤◌, ◌+◌, ◌*◌, ◌-◌, ◌^◌, ℕ, count_ones};
ghost use Rattle.merkle_forest.specs.Forest.{mmr_rule, size, forest_of};
ghost use Rattle.merkle_forest.specs.Laws.Rules.{mmr_merges_equals};
ghost use Rattle.merkle_forest.specs.Mmr.{root_position};
ghost use Rattle.merkle_forest.specs.Laws.MmrNodes.{node_position-mmr};
ghost use Rattle.merkle_forest.specs.Laws.MmrBirths.{aligned-mmr, birth-chunk_mmr, apart-mmr};
ghost use Rattle.merkle_forest.specs.Laws.MmrCounts.{counted-mmr, soon-mmr, few-mmr, peaks-mmr};

use crate::family::{MAX_LEAVES, MAX_NODES};
use crate::graftable::Graftable;
use crate::hasher::Standard;
use crate::peaks::Peaks;
use crate::sizes::greatest_leaf_count;
use crate::{error, family, location, position};

// The position of the root over 2^height leaves of which the first has this location, a multiple of 2^height.
fn root_position(first: u64, height: u32) -> u64
    requires { first + 2 ^ height ≤ 2 ^ 62 }
    ensures { result ≡ root_position first height }
{
    let leaf = 2 * first - first.count_ones() as u64;
    let nodes_after = (2u64 << height) - 2;
    leaf + nodes_after
}

/// The family of Merkle Mountain Ranges: the last two peaks merge while their heights are equal.
/// In the Rust: `merkle::mmr::Family`.
#[derive(Clone, Copy, Debug, Default, PartialEq, Eq)]
pub struct Family;

impl family::Family for Family {
    ghost merge_rule = { mmr_rule };

    fn merge_index(_merges: usize, heights: &[u64]) -> Option<usize> {
        match heights {
            [last, before, ..] if last == before => Some(0),
            _ => None,
        }
    }

    fn leaf_position(leaves: u64) -> u64 {
        2 * leaves - leaves.count_ones() as u64
    }

    fn peak_from(leaves: u64, first: u64) -> (u64, u32) {
        let height = (leaves - first).ilog2();
        (root_position(first, height), height)
    }

    fn child_positions(branch: u64, height: u32) -> (u64, u64) {
        (branch - (1u64 << height), branch - 1)
    }

    fn parent_range(leaves: u64) -> (u32, u32) {
        (1, leaves.trailing_ones())
    }

    ghost merges_equals = { mmr_merges_equals };

    ghost peaks_bounded = { peaks-mmr };
}

impl Graftable for Family {
    ghost birth_of = { λ first height. first + 2 ^ height };

    ghost root_of = { root_position };

    fn birth(first: u64, height: u32) -> u64 {
        first + (1u64 << height)
    }

    fn subtree_root(first: u64, height: u32) -> u64 {
        root_position(first, height)
    }

    fn first_leaf(position: u64, height: u32) -> u64 {
        let nodes_after = (2u64 << height) - 2;
        greatest_leaf_count::<Family>(position - nodes_after)
    }

    ghost aligned = { aligned-mmr };

    ghost roots = { node_position-mmr };

    ghost births = { birth-chunk_mmr };

    ghost births_apart = { apart-mmr };

    ghost births_soon = { soon-mmr };

    ghost few_peaks = { few-mmr };

    ghost births_counted = { counted-mmr };
}

/// The position of the leaf after n leaves is 2n less the number of ones among n's binary digits.
pub fn position_of_a_leaf()
    ensures { (n : ℕ) → n ≤ 2 ^ 62 → size (forest_of mmr_rule n) ≡ 2 * n - count_ones n }
{}

/// The forest of `MAX_LEAVES` leaves has `MAX_NODES` nodes.
pub fn greatest_node_count()
    ensures { size (forest_of mmr_rule MAX_LEAVES) ≡ MAX_NODES }
{}

/// The peaks of a Merkle Mountain Range from left to right: the position and the height of each.
/// In the Rust: `merkle::mmr::iterator::PeakIterator`.
pub type PeakIterator = Peaks<Family>;

/// The location of a leaf of a Merkle Mountain Range. In the Rust: `merkle::mmr::Location`.
pub type Location = location::Location<Family>;

/// The position of a node of a Merkle Mountain Range. In the Rust: `merkle::mmr::Position`.
pub type Position = position::Position<Family>;

/// What a call over a Merkle Mountain Range refuses. In the Rust: `merkle::mmr::Error`.
pub type Error = error::Error<Family>;

/// The hasher of plain trees. In the Rust: `merkle::mmr::StandardHasher`.
pub type StandardHasher<H> = Standard<H>;
