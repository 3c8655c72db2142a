//! What holds of the tree of the chunks and of the grafted tree.

ghost use Rattle.std.specs.Prelude.{◌≡◌, ◌<◌, ◌≤◌, ◌*◌, ◌^◌, ℕ, List, length, IsSome, Some};
ghost use Rattle.merkle_forest.specs.Forest.{Tree, height, position};
ghost use Rattle.merkle_forest.specs.Hashing.{Hash};
ghost use Rattle.merkle_forest.specs.Nodes.{IsNodeAt, nodes_of_height};
ghost use Rattle.merkle_core_parts.specs.Mem.{AreNodesOf, Nodes, node_at, node_count};
ghost use Rattle.merkle_theory.specs.Plans.{Lookup};
ghost use Rattle.state_theory.specs.Sources.{IsSourceOf, Source};
ghost use Rattle.state_theory.specs.Canonical.{State, forest, grafted_digests, setting_with};
ghost use Rattle.state_theory.specs.GraftedNodes.{AreGraftedLeaves, IsLookupOfChunks, IsLookupOfOperations};
ghost use Rattle.state_theory.specs.GraftedNodes.{TwoTrees, chunks_node, grafted_lookup, operations_position};
ghost use Rattle.state_theory.specs.SameNodes.{IsSameNode};

use crate::grafting::hasher::GraftedHasher;
use merkle_forest::Graftable;
use merkle_forest::hasher::{HashFunction, Hasher, Standard};

/// A node over whole chunks has one position in the tree of the operations and one in the tree of the chunks: so the
/// two conversions of positions undo each other.
pub fn a_node_has_one_position_in_each_tree<F: Graftable>()
    ensures chunks { (grafting_height ops grafted other : ℕ) → IsSameNode F.merge_rule grafting_height ops grafted
        → IsSameNode F.merge_rule grafting_height ops other → grafted ≡ other }
    ensures operations { (grafting_height ops other grafted : ℕ) → IsSameNode F.merge_rule grafting_height ops grafted
        → IsSameNode F.merge_rule grafting_height other grafted → ops ≡ other }
{}

/// A branch of the tree of the chunks is hashed at the position of the operations' branch over the same chunks; at its
/// own where no tree of operations has such a branch.
pub fn branches_are_hashed_at_the_positions_of_the_operations<F: Graftable>()
    ensures same { (grafting_height ops grafted : ℕ) → IsSameNode F.merge_rule grafting_height ops grafted
        → operations_position F.merge_rule grafting_height grafted ≡ ops }
    ensures alone { (grafting_height grafted : ℕ)
        → ((ops : ℕ) → IsSameNode F.merge_rule grafting_height ops grafted → ⊥)
        → operations_position F.merge_rule grafting_height grafted ≡ grafted }
{}

/// Over a plain hasher, the hasher of the tree of the chunks makes the branches that the laws below speak of.
pub fn branches_over_a_plain_hasher_are_those_of_the_chunks<F: Graftable, H: HashFunction>(
    hasher: &GraftedHasher<F, Standard<H>>,
)
    ensures { ⟦<GraftedHasher<F, Standard<H>> as Hasher<F>>⟧.node_of hasher.now
        ≡ chunks_node H.hash_of F.merge_rule hasher.now.grafting_height }
{}

/// Where what is known of the tree of a state's operations and of the tree of its chunks is theirs, the nodes that are
/// read of both are those of the grafted tree of the state. So what `RangeProof::new` reads of them is a source of the
/// state, and the proof that it builds is the honest one.
pub fn what_is_read_of_both_trees_is_of_the_state<F: Graftable>()
    ensures nodes { (hash : Hash) (width grafting_height : ℕ) (state : State) (operations chunks : Lookup)
        → 8 * width ≡ 2 ^ grafting_height → length state.operations ≤ 2 ^ 62
        → let setting = setting_with F.merge_rule hash width grafting_height in
        let trees : TwoTrees = record {
          grafting_height = grafting_height;
          operations = operations;
          chunks = chunks;
        } in
        IsLookupOfOperations setting state operations → IsLookupOfChunks setting state chunks
        → (first : ℕ) (tree : Tree) (digest : List ℕ) → IsNodeAt first tree (forest setting state)
        → grafted_lookup F.merge_rule hash trees (position tree) ≡ Some digest
        → digest ≡ grafted_digests setting state first tree }
    ensures source { (hash : Hash) (width grafting_height : ℕ) (state : State) (source : Source)
        (operations chunks : Lookup)
        → 8 * width ≡ 2 ^ grafting_height → length state.operations ≤ 2 ^ 62
        → let setting = setting_with F.merge_rule hash width grafting_height in
        let trees : TwoTrees = record {
          grafting_height = grafting_height;
          operations = operations;
          chunks = chunks;
        } in
        IsLookupOfOperations setting state operations → IsLookupOfChunks setting state chunks
        → source.span.leaves ≡ length state.operations → source.bits ≡ state.bits
        → source.known ≡ grafted_lookup F.merge_rule hash trees → IsSourceOf setting state source }
{}

/// What is known of a tree in memory over the grafted leaves of a state, made with the hasher of the tree of the chunks
/// and pruned or not, is of the state's chunks.
pub fn a_tree_of_grafted_leaves_is_of_the_chunks<F: Graftable>()
    ensures { (hash : Hash) (width grafting_height : ℕ) (state : State) (leaf_digests : List (List ℕ)) (nodes : Nodes)
        → 8 * width ≡ 2 ^ grafting_height → length state.operations ≤ 2 ^ 62
        → let setting = setting_with F.merge_rule hash width grafting_height in
        AreGraftedLeaves setting state leaf_digests
        → AreNodesOf (chunks_node hash F.merge_rule grafting_height) F.merge_rule leaf_digests nodes
        → IsLookupOfChunks setting state (node_at F.merge_rule nodes) }
{}

/// Each node of a state's grafted tree is read of both trees, where the tree of its operations lacks no node below the
/// grafting height and the tree of its chunks lacks no leaf. So `RangeProof::new` then lacks no node.
pub fn nodes_over_known_leaves_are_there<F: Graftable>()
    ensures { (hash : Hash) (width grafting_height : ℕ) (state : State) (operations chunks : Lookup)
        → 8 * width ≡ 2 ^ grafting_height → grafting_height ≤ 62 → length state.operations ≤ 2 ^ 62
        → let setting = setting_with F.merge_rule hash width grafting_height in
        let trees : TwoTrees = record {
          grafting_height = grafting_height;
          operations = operations;
          chunks = chunks;
        } in
        ((first : ℕ) (tree : Tree) → IsNodeAt first tree (forest setting state) → height tree < grafting_height
        → IsSome (operations (position tree)))
        → ((chunk : ℕ) → chunk < nodes_of_height grafting_height (forest setting state)
        → IsSome (chunks (node_count F.merge_rule chunk)))
        → (first : ℕ) (tree : Tree) → IsNodeAt first tree (forest setting state)
        → IsSome (grafted_lookup F.merge_rule hash trees (position tree)) }
{}
