//! What holds of the tree of the chunks, and of settled chunks, as a state grows.

ghost use Rattle.std.specs.Prelude.{◌≡◌, ◌≤◌, ◌*◌, ◌^◌, ◌++◌, ℕ, List, length, Some};
ghost use Rattle.merkle_forest.specs.Forest.{Tree, height, position, forest_of};
ghost use Rattle.merkle_forest.specs.Hashing.{Hash};
ghost use Rattle.merkle_forest.specs.Nodes.{IsNodeAt, IsPeakAt};
ghost use Rattle.merkle_core_parts.specs.Mem.{AreNodesOf, Nodes, Replacement, node_at, plain_leaf_digests, plain_node};
ghost use Rattle.merkle_core_parts.specs.Mem.{replaced};
ghost use Rattle.state_theory.specs.Canonical.{State, forest, grafted_digests, setting_with};
ghost use Rattle.state_theory.specs.GraftedNodes.{AreGraftedLeaves, TwoTrees, chunks_node, grafted_lookup};
ghost use Rattle.state_current.specs.Growth.{Change, grown, AreBrought};
ghost use Rattle.state_current.specs.Settled.{IsAbove, IsSettled};

use merkle_forest::{Family, Graftable};

/// As a state grows, only those leaves of the tree of its chunks change that stand over a cleared place, and leaves are
/// added for the chunks that have their nodes since.
pub fn leaves_grow_with_the_state<F: Graftable>()
    ensures { (hash : Hash) (width grafting_height : ℕ) (state : State) (change : Change)
        (leaf_digests added : List (List ℕ)) (updates : List Replacement)
        → 8 * width ≡ 2 ^ grafting_height → grafting_height ≤ 62
        → length state.bits ≡ length state.operations
        → length (state.operations ++ change.operations) ≤ 2 ^ 62
        → let setting = setting_with F.merge_rule hash width grafting_height in
        AreBrought setting state (grown state change) change.cleared added updates
        → AreGraftedLeaves setting state leaf_digests
        → AreGraftedLeaves setting (grown state change) (replaced (leaf_digests ++ added) updates) }
{}

/// A peak of the operations' tree stands above the peaks of chunks that are settled.
pub fn peaks_stand_above_settled_chunks<F: Graftable>()
    ensures { (operations chunks grafting_height : ℕ) → IsSettled F.merge_rule grafting_height operations chunks
        → (first : ℕ) (tree : Tree) → IsPeakAt first tree (forest_of F.merge_rule operations)
        → IsAbove F.merge_rule grafting_height chunks first (height tree) }
{}

/// A node of a state's grafted tree that stands above the pruned peaks is read of both trees, as it is in the state.
pub fn nodes_above_pruned_peaks_are_read<F: Graftable>()
    ensures { (hash : Hash) (width grafting_height : ℕ) (state : State) (leaf_digests : List (List ℕ))
        (operations chunks : Nodes)
        → 8 * width ≡ 2 ^ grafting_height → grafting_height ≤ 62 → length state.operations ≤ 2 ^ 62
        → let setting = setting_with F.merge_rule hash width grafting_height in
        let trees : TwoTrees = record {
          grafting_height = grafting_height;
          operations = node_at F.merge_rule operations;
          chunks = node_at F.merge_rule chunks;
        } in
        AreNodesOf (plain_node hash) F.merge_rule (plain_leaf_digests hash F.merge_rule 0 state.operations) operations
        → AreGraftedLeaves setting state leaf_digests
        → AreNodesOf (chunks_node hash F.merge_rule grafting_height) F.merge_rule leaf_digests chunks
        → operations.boundary ≤ chunks.boundary * 2 ^ grafting_height
        → (first : ℕ) (tree : Tree) → IsNodeAt first tree (forest setting state)
        → IsAbove F.merge_rule grafting_height chunks.boundary first (height tree)
        → grafted_lookup F.merge_rule hash trees (position tree) ≡ Some (grafted_digests setting state first tree) }
{}

/// Chunks that are settled stay so as operations are added, and no chunks at all are settled.
pub fn settled_chunks_stay_settled<F: Family>()
    ensures stay { (grafting_height operations more chunks : ℕ) → operations ≤ more
        → IsSettled F.merge_rule grafting_height operations chunks
        → IsSettled F.merge_rule grafting_height more chunks }
    ensures none { (grafting_height operations : ℕ) → IsSettled F.merge_rule grafting_height operations 0 }
{}
