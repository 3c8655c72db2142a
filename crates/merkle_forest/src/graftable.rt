//! Where the nodes of a forest stand, and when they are born.

ghost use Rattle.std.specs.Prelude.{◌≡◌, ◌↔◌, ◌≤◌, ◌<◌, ◌+◌, ◌-◌};
ghost use Rattle.std.specs.Prelude.{◌*◌, ◌/◌, ◌^◌, ℕ, nat_lt, if◌then◌else◌, length};
ghost use Rattle.merkle_forest.specs.Forest.{Tree, position, height, forest_of};
ghost use Rattle.merkle_forest.specs.Maximal.{AreChunkPeaks};
ghost use Rattle.merkle_forest.specs.Laws.Nodes.{stands-counted};
ghost use Rattle.merkle_forest.specs.Nodes.{IsNodeAt, IsPeakAt, HasNode, IsSize, IsSubtree, StandsAt, IsBirth};
ghost use Rattle.merkle_forest.specs.Nodes.{IsBirthAt, IsPositionOfNode, IsFirstLeaf, nodes_of_height};

use crate::chunk_peaks::ChunkPeaks;
use crate::family::{Family, MAX_LEAVES};
use crate::location::Location;
use crate::position::Position;
use crate::sizes::greatest_leaf_count;

/// A family whose nodes begin at multiples of their leaf counts, at positions and with births that the first leaf and
/// the height determine.
/// In the Rust: `merkle::Graftable`.
pub trait Graftable: Family {
    /// From the first leaf's location and the height: the leaf count at which the node is born.
    ghost birth_of: { ℕ → ℕ → ℕ };

    /// From the first leaf's location and the height: the position of the node.
    ghost root_of: { ℕ → ℕ → ℕ };

    /// The leaf count at which the node of this height over the leaves from `first` on is born (own).
    fn birth(first: u64, height: u32) -> u64
        requires start { first ≤ MAX_LEAVES }
        requires low { height ≤ 62 }
        ensures { result ≡ birth_of first height };

    /// The position of the node of this height over the leaves from `first` on (own).
    fn subtree_root(first: u64, height: u32) -> u64
        requires { IsSubtree Self.merge_rule first height }
        ensures { result ≡ root_of first height };

    /// The location of the first leaf below the node of this height at a position (own).
    fn first_leaf(position: u64, height: u32) -> u64
        requires { StandsAt Self.merge_rule position height }
        ensures { IsFirstLeaf Self.merge_rule position height result };

    /// A node begins at a multiple of its leaf count.
    ghost aligned: { (n first : ℕ) (node : Tree) → IsNodeAt first node (forest_of Self.merge_rule n)
        → (chunk : ℕ) × (first ≡ chunk * 2 ^ height node) };

    /// The position of every node is that of its first leaf and its height.
    ghost roots: { (n first : ℕ) (node : Tree) → IsNodeAt first node (forest_of Self.merge_rule n)
        → position node ≡ root_of first (height node) };

    /// A forest has the node over a chunk of 2^height leaves exactly from its birth on.
    ghost births: { (chunk height : ℕ)
        → IsBirth Self.merge_rule (chunk * 2 ^ height) height (birth_of (chunk * 2 ^ height) height) };

    /// A node is born as long after its first leaf as the first node of its height is after the start.
    ghost births_apart: { (first height : ℕ) → birth_of first height ≡ first + birth_of 0 height };

    /// The first node of a height is born by the time that as many leaves again as its own are there: so at most one
    /// full chunk of leaves has no node yet.
    ghost births_soon: { (height : ℕ) → birth_of 0 height ≤ 2 * 2 ^ height };

    /// A peak's height and the other peaks are at most 122.
    ghost few_peaks: { (leaves first : ℕ) (node : Tree) → leaves ≤ 2 ^ 62
        → IsPeakAt first node (forest_of Self.merge_rule leaves)
        → length (forest_of Self.merge_rule leaves) + height node ≤ 123 };

    /// How many nodes of a height a forest has.
    ghost births_counted: { (leaves height : ℕ) → leaves ≤ 2 ^ 62 → 0 < height → height ≤ 62
        → nodes_of_height height (forest_of Self.merge_rule leaves)
        ≡ (if nat_lt leaves (birth_of 0 height) then 0 else (leaves - birth_of 0 height) / 2 ^ height + 1) };

    /// Of the chunks of 2^height leaves those before that count have their node, and no others.
    ghost chunks_counted: { (leaves chunk height : ℕ) → leaves ≤ 2 ^ 62 → 0 < height → height ≤ 62
        → HasNode (forest_of Self.merge_rule leaves) (chunk * 2 ^ height) height
        ↔ (chunk < nodes_of_height height (forest_of Self.merge_rule leaves)) } = { λ leaves chunk height few some low.
            stands-counted Self.merge_rule birth_of leaves height chunk
            (births chunk height) (births_apart (chunk * 2 ^ height) height)
            (births_counted leaves height few some low) };

    /// The leaf count at which the node of this height at a position is born.
    /// In the Rust: `merkle::Graftable::peak_birth_size`.
    final fn peak_birth_size(position: Position<Self>, height: u32) -> u64
        requires { StandsAt Self.merge_rule position height }
        ensures { IsBirthAt Self.merge_rule position height result }
    {
        Self::birth(Self::first_leaf(position.as_u64(), height), height)
    }

    /// The position of the node of this height over the leaves from a location on.
    /// In the Rust: `merkle::Graftable::subtree_root_position`.
    final fn subtree_root_position(location: Location<Self>, height: u32) -> Position<Self>
        requires { IsSubtree Self.merge_rule location height }
        ensures { IsPositionOfNode Self.merge_rule location height result }
    {
        Position::new(Self::subtree_root(location.as_u64(), height))
    }

    /// The location of the first leaf below the node of this height at a position.
    /// In the Rust: `merkle::Graftable::leftmost_leaf`.
    final fn leftmost_leaf(position: Position<Self>, height: u32) -> Location<Self>
        requires { StandsAt Self.merge_rule position height }
        ensures { IsFirstLeaf Self.merge_rule position height result }
    {
        Location::new(Self::first_leaf(position.as_u64(), height))
    }

    /// The maximal nodes over the chunk of that number, of 2^grafting_height leaves, in the forest that has this many
    /// nodes, from left to right: the position and the height of each.
    /// In the Rust: `merkle::Graftable::chunk_peaks`, with an unnamed iterator.
    final fn chunk_peaks(size: Position<Self>, chunk: u64, grafting_height: u32) -> ChunkPeaks<Self>
        requires valid { IsSize Self.merge_rule size }
        requires low { grafting_height ≤ 62 }
        ensures { AreChunkPeaks Self.merge_rule size chunk grafting_height result }
    {
        ChunkPeaks::new(
            greatest_leaf_count::<Self>(size.as_u64()),
            chunk,
            grafting_height,
        )
    }
}
