//! What the definitions say, beyond what the code needs of them.

ghost use Rattle.std.specs.Prelude.{◌≡◌, ◌≤◌, ◌++◌, ◌∷◌, [], ℕ, List, Some, length, map, take, slice_get, slice_set};
ghost use Rattle.merkle_forest.specs.declared.bagging.Bagging.{Bagging};
ghost use Rattle.merkle_forest.specs.Hashing.{Hash};
ghost use Rattle.merkle_forest.specs.Trees.{tree_root};
ghost use Rattle.merkle_core_parts.specs.Layers.{IsLed, AreLed, with_layers};
ghost use Rattle.merkle_core_parts.specs.Mem.{placed, pinned_positions, Base, Layer, own_layer, base_of, list_peaks};
ghost use Rattle.merkle_core_parts.specs.Mem.{Nodes, Additions, Growth, NodeHash, AreNodesOf, with_leaves, with_batch};
ghost use Rattle.merkle_core_parts.specs.Mem.{AreKeptNodes, pruned_before, plain_leaf_digests, plain_node, list_root};

use merkle_forest::Family;

/// Where leaves and branches are hashed plainly, the root of the list of leaf digests is that of the tree over the
/// elements.
pub fn plain_roots_are_tree_roots<F: Family>()
    ensures { (hash : Hash) (bagging : Bagging) (elements : List (List ℕ)) (inactive : ℕ)
        → list_root hash (plain_node hash) bagging F.merge_rule (plain_leaf_digests hash F.merge_rule 0 elements)
        inactive ≡ tree_root hash bagging F.merge_rule elements inactive }
{}

/// A batch's nodes, made over one tree of a list of leaf digests, make of each tree of that list that is pruned as far
/// or further one of the list that the batch makes of it.
pub fn nodes_fit_each_tree_of_the_list<F: Family>()
    ensures { (node : NodeHash) (some list : List (List ℕ)) (one other : Nodes) (batch : Growth)
        → length some ≤ length list → one.boundary ≤ other.boundary
        → AreNodesOf node F.merge_rule some one → AreNodesOf node F.merge_rule some other
        → AreNodesOf node F.merge_rule list (with_batch F.merge_rule one batch)
        → AreNodesOf node F.merge_rule list (with_batch F.merge_rule other batch) }
{}

/// A batch's nodes that lead from one list of leaf digests to another make of each tree of the one a tree of the other.
pub fn a_batch_makes_the_nodes_of_its_list<F: Family>()
    ensures { (node : NodeHash) (before after : List (List ℕ)) (nodes : Nodes) (batch : Growth)
        → IsLed node F.merge_rule (own_layer batch) before after → AreNodesOf node F.merge_rule before nodes
        → AreNodesOf node F.merge_rule after (with_batch F.merge_rule nodes batch) }
{}

/// The layers below a batch that follow a tree, which is one of a list that one of them leads from, make of it a tree
/// of the list that the newest one leads to.
pub fn what_follows_a_tree_makes_the_nodes_of_the_list<F: Family>()
    ensures { (node : NodeHash) (below : List Layer) (earlier : List (List (List ℕ))) (list stage : List (List ℕ))
        (count : ℕ) (nodes : Nodes) → AreLed node F.merge_rule below earlier list
        → slice_get (list ∷ earlier) count ≡ Some stage → AreNodesOf node F.merge_rule stage nodes
        → AreNodesOf node F.merge_rule list (with_layers F.merge_rule nodes (take count below)) }
{}

/// A tree of a list is the base that a batch knows which has the list's length and the digests of its peaks.
pub fn a_tree_of_a_list_is_its_base<F: Family>()
    ensures { (node : NodeHash) (list : List (List ℕ)) (nodes : Nodes) (base : Base)
        → AreNodesOf node F.merge_rule list nodes → base.leaves ≡ length list
        → base.peaks ≡ list_peaks node F.merge_rule list → base_of F.merge_rule nodes ≡ base }
{}

/// A leaf that a batch gives a digest has it in the list that the batch makes, and no other leaf changes.
pub fn an_update_replaces_one_leaf<F: Family>()
    ensures { (leaf_digests : List (List ℕ)) (batch : Additions) (location : ℕ) (digest : List ℕ)
        → with_leaves leaf_digests (record batch { updates = batch.updates ++ (location, digest) ∷ [] })
        ≡ slice_set (with_leaves leaf_digests batch) location digest }
{}

/// The tree of no leaves has the nodes of the empty list.
pub fn no_leaves_have_no_nodes<F: Family>()
    ensures { (node : NodeHash) → AreNodesOf node F.merge_rule []
        (record { leaves = 0; boundary = 0; pinned = []; digests = [] }) }
{}

/// A tree that is pruned before a batch is applied to it is the one that is pruned after it. That it accepts the same
/// batches is a clause of `Mem::prune`, that its base stays.
pub fn pruning_and_applying_commute<F: Family>()
    ensures { (nodes : Nodes) (batch : Growth) (location : ℕ)
        → AreKeptNodes F.merge_rule nodes → location ≤ nodes.leaves
        → with_batch F.merge_rule (pruned_before F.merge_rule nodes location) batch
        ≡ pruned_before F.merge_rule (with_batch F.merge_rule nodes batch) location }
{}

/// A tree that is made of the parts of another is that one.
pub fn a_tree_is_made_again_from_its_parts<F: Family>()
    ensures { (nodes made : Nodes) → AreKeptNodes F.merge_rule nodes → AreKeptNodes F.merge_rule made
        → made.boundary ≡ nodes.boundary
        → made.pinned ≡ placed (pinned_positions F.merge_rule nodes.boundary) (map (λ one. one.1) nodes.pinned)
        → made.digests ≡ nodes.digests → made ≡ nodes }
{}
