//! The maximal nodes over a chunk of leaves, for every family that tells when its nodes are born.
//!
//! They are found by a walk from left to right: at a location the highest node that begins there and has no leaf past
//! the chunk or past the last leaf, then the location after its leaves. In the range of 11 leaves that is drawn in
//! `mmr`, chunks of four leaves have the maximal nodes 6, then 13, then 17 and 18.

ghost use Rattle.std.specs.Prelude.{◌≡◌, ◌↔◌, ◌≤◌, ◌<◌, ◌+◌, ◌*◌, ◌^◌, ℕ, IsTrue};
ghost use Rattle.std.specs.Iterator.{YieldsFirst, item_count};
ghost use Rattle.merkle_forest.specs.Forest.{forest_of};
ghost use Rattle.merkle_forest.specs.Maximal.{maximal_positions};
ghost use Rattle.merkle_forest.specs.Nodes.{HasNode};

use crate::family::MAX_LEAVES;
use crate::graftable::Graftable;
use crate::position::Position;
use std::marker::{Model, PhantomData};

/// Whether the forest of this many leaves has a node of this height whose first leaf has this location (own).
pub fn has_node<F: Graftable>(leaves: u64, first: u64, height: u32) -> bool
    requires few { leaves ≤ MAX_LEAVES }
    requires start { first ≤ MAX_LEAVES }
    requires low { height ≤ 62 }
    ensures { IsTrue result ↔ HasNode (forest_of F.merge_rule leaves) first height }
{
    first % (1u64 << height) == 0 && F::birth(first, height) <= leaves
}

// The height of the highest node that begins at a location and has no leaf at the end or after it.
fn highest_before<F: Graftable>(leaves: u64, first: u64, end: u64) -> u32
    requires few { leaves ≤ MAX_LEAVES }
    requires some { first < end }
    requires within { end ≤ leaves }
    ensures there { HasNode (forest_of F.merge_rule leaves) first result }
    ensures fits { first + 2 ^ result ≤ end }
    ensures highest { (h : ℕ) → HasNode (forest_of F.merge_rule leaves) first h → first + 2 ^ h ≤ end → h ≤ result }
{
    let mut height = (end - first).ilog2();
    while !has_node::<F>(leaves, first, height) {
        height -= 1;
    }
    height
}

/// The maximal nodes over a range of leaves, from left to right: the position and the height of each. Contracts see
/// those that are left.
/// In the Rust: the unnamed iterator of `merkle::Graftable::chunk_peaks`.
#[derive(Drop)]
pub struct ChunkPeaks<F: Graftable> {
    leaves: u64,
    next: u64,
    end: u64,
    family: PhantomData<F>,
}

impl<F: Graftable> Model for ChunkPeaks<F> {
    ghost use Rattle.std.specs.Prelude.{◌≤◌, ◌^◌, ℕ, List};
    ghost use Rattle.merkle_forest.specs.Forest.{forest_of};
    ghost use Rattle.merkle_forest.specs.Maximal.{maximal_positions};

    ghost Value = { List (ℕ × ℕ) };

    ghost view = { λ a. maximal_positions a.next a.end (forest_of F.merge_rule a.leaves) };

    ghost invariant = { λ a. a.leaves ≤ 2 ^ 62 };
}

impl<F: Graftable> ChunkPeaks<F> {
    /// The maximal nodes over the chunk of that number, of 2^height leaves, in the forest of this many leaves (own).
    pub fn new(leaves: u64, chunk: u64, height: u32) -> ChunkPeaks<F>
        requires few { leaves ≤ MAX_LEAVES }
        requires low { height ≤ 62 }
        ensures { result ≡ maximal_positions (chunk * 2 ^ height) (chunk * 2 ^ height + 2 ^ height)
            (forest_of F.merge_rule leaves) }
    {
        let width = 1u64 << height;
        let next = chunk.saturating_mul(width);
        ChunkPeaks {
            leaves,
            next,
            end: next.saturating_add(width),
            family: PhantomData,
        }
    }
}

impl<F: Graftable> Iterator for ChunkPeaks<F> {
    type Item = (Position<F>, u32);

    ghost next_gives = { YieldsFirst (λ s. s) };

    ghost remaining = { item_count (λ s. s) };

    fn next(&mut self) -> Option<(Position<F>, u32)> {
        let end = self.end.min(self.leaves);
        if self.next >= end {
            return None;
        }
        let height = highest_before::<F>(self.leaves, self.next, end);
        let position = F::subtree_root(self.next, height);
        self.next += 1u64 << height;
        Some((Position::new(position), height))
    }
}
