//! The way from a peak down to a leaf.
//!
//! In the range of 11 leaves that is drawn in `mmr`, from peak 14 down to leaf 3: 14 with its child 13 beside the way,
//! then 6 with 2, then 5 with 3.

ghost use Rattle.std.specs.Prelude.{◌≡◌, ◌≤◌, ◌<◌, ◌+◌, ◌^◌, ℕ};
ghost use Rattle.std.specs.Iterator.{YieldsFirst, item_count};
ghost use Rattle.merkle_forest.specs.Nodes.{IsSubtree};
ghost use Rattle.merkle_forest.specs.Paths.{path_by, IsPathDown};

use crate::graftable::Graftable;
use crate::location::Location;
use crate::position::Position;
use std::marker::{Model, PhantomData};

/// The branches on the way from a peak down to a leaf, from the top: the position of each, that of its child beside the
/// way, and its height. Contracts see those that are left.
/// In the Rust: `merkle::path::Iterator`, for every `Family`.
#[derive(Drop)]
pub struct Iterator<F: Graftable> {
    position: u64,
    height: u32,
    first: u64,
    target: u64,
    family: PhantomData<F>,
}

impl<F: Graftable> Model for Iterator<F> {
    ghost use Rattle.std.specs.Prelude.{◌≡◌, ℕ, List};
    ghost use Rattle.merkle_forest.specs.Nodes.{IsSubtree};
    ghost use Rattle.merkle_forest.specs.Paths.{path_by};

    ghost Value = { List (ℕ × ℕ × ℕ) };

    ghost view = { λ a. path_by F.root_of a.target a.first a.height };

    ghost invariant = { λ a. IsSubtree F.merge_rule a.first a.height × (a.position ≡ F.root_of a.first a.height) };
}

impl<F: Graftable> Iterator<F> {
    /// The way from the node at a position, of this height and over the leaves from `first_leaf_loc` on, down to the
    /// leaf at `target_loc`, which is one of these: from a node that is a leaf there is no branch on it.
    /// In the Rust: `merkle::path::Iterator::new`.
    pub fn new(
        peak_pos: Position<F>,
        height: u32,
        first_leaf_loc: Location<F>,
        target_loc: Location<F>,
    ) -> Iterator<F>
        requires stands { IsSubtree F.merge_rule first_leaf_loc height }
        requires peak { peak_pos ≡ F.root_of first_leaf_loc height }
        requires after { first_leaf_loc ≤ target_loc }
        requires within { target_loc < first_leaf_loc + 2 ^ height }
        ensures path { result ≡ path_by F.root_of target_loc first_leaf_loc height }
        ensures down { IsPathDown F.merge_rule target_loc first_leaf_loc height result }
    {
        Iterator {
            position: peak_pos.as_u64(),
            height,
            first: first_leaf_loc.as_u64(),
            target: target_loc.as_u64(),
            family: PhantomData,
        }
    }
}

impl<F: Graftable> std::iter::Iterator for Iterator<F> {
    type Item = (Position<F>, Position<F>, u32);

    ghost next_gives = { YieldsFirst (λ s. s) };

    ghost remaining = { item_count (λ s. s) };

    fn next(&mut self) -> Option<(Position<F>, Position<F>, u32)> {
        if self.height == 0 {
            return None;
        }
        let parent = Position::new(self.position);
        let height = self.height;
        self.height -= 1;
        let middle = self.first + (1u64 << self.height);
        let left = F::subtree_root(self.first, self.height);
        let right = F::subtree_root(middle, self.height);
        if self.target < middle {
            self.position = left;
            return Some((parent, Position::new(right), height));
        }
        self.first = middle;
        self.position = right;
        Some((parent, Position::new(left), height))
    }
}
