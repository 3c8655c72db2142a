//! Positions of one node in two trees: in that of the operations, and in that whose leaves are chunks.
//!
//! In a range of eight operations, with chunks of four (the least real chunk has eight), the nodes over whole chunks
//! are those of a tree of two leaves:
//!
//! ```text
//!    operations:       14                      chunks:    2
//!                   /      \                            /   \
//!                  6       13     height 2             0     1
//!                /   \    /   \
//!               2     5  9    12
//!              0 1   3 4 7 8 10 11
//! ```

ghost use Rattle.std.specs.Prelude.{◌≡◌, ◌≤◌, ◌<◌, ℕ};
ghost use Rattle.merkle_forest.specs.Forest.{size, forest_of};
ghost use Rattle.merkle_forest.specs.Nodes.{StandsAt};
ghost use Rattle.state_theory.specs.SameNodes.{IsSameNode};

use merkle_forest::{Graftable, Location, MAX_LEAVES, Position};

/// The position, in the tree of the chunks, of the node at a position of the tree of the operations, which is at the
/// grafting height or above it.
/// In the Rust: `qmdb::current::grafting::ops_to_grafted_pos`, which panics below the grafting height.
pub fn ops_to_grafted_pos<F: Graftable>(ops_pos: Position<F>, grafting_height: u32) -> Position<F>
    requires there { ops_pos < size (forest_of F.merge_rule MAX_LEAVES) }
    requires high { (height : ℕ) → StandsAt F.merge_rule ops_pos height → grafting_height ≤ height }
    ensures { IsSameNode F.merge_rule grafting_height ops_pos result }
{
    let height = F::pos_to_height(ops_pos);
    let first = F::leftmost_leaf(ops_pos, height);
    let chunk = first.as_u64() >> grafting_height;
    F::subtree_root_position(Location::new(chunk), height - grafting_height)
}

/// The position, in the tree of the operations, of the node at a position of the tree of the chunks, where a tree of up
/// to `MAX_LEAVES` operations has that node.
/// In the Rust: `qmdb::current::grafting::grafted_to_ops_pos`.
pub fn grafted_to_ops_pos<F: Graftable>(
    grafted_pos: Position<F>,
    grafting_height: u32,
) -> Position<F>
    requires { (ops : ℕ) × IsSameNode F.merge_rule grafting_height ops grafted_pos }
    ensures { IsSameNode F.merge_rule grafting_height result grafted_pos }
{
    let height = F::pos_to_height(grafted_pos);
    let chunk = F::leftmost_leaf(grafted_pos, height);
    let first = chunk.as_u64() * (1u64 << grafting_height);
    F::subtree_root_position(Location::new(first), height + grafting_height)
}
