//! What the definitions say, beyond what the code needs of them.

ghost use Rattle.std.specs.Prelude.{◌≡◌, ◌≤◌, ◌↔◌, ℕ, List, Contains, length};
ghost use Rattle.std.specs.List.{All};
ghost use Rattle.merkle_forest.specs.declared.bagging.Bagging.{Bagging};
ghost use Rattle.merkle_forest.specs.Forest.{Tree, position, forest_of};
ghost use Rattle.merkle_forest.specs.Maximal.{maximal_nodes, IsMaximalNode};
ghost use Rattle.merkle_forest.specs.Hashing.{Hash, items, bagged, root_string};
ghost use Rattle.merkle_forest.specs.Nodes.{IsNodeAt};
ghost use Rattle.merkle_forest.specs.Hashing.{IsRootLength};

use crate::family::Family;

/// In all forests of a family each position is that of one node at most.
pub fn one_node_a_position<F: Family>()
    ensures { (n m first other : ℕ) (a b : Tree) → IsNodeAt first a (forest_of F.merge_rule n)
        → IsNodeAt other b (forest_of F.merge_rule m) → position a ≡ position b → (first ≡ other) × (a ≡ b) }
{}

/// The list of the maximal nodes over a range of leaves has those nodes and no others.
pub fn maximal_nodes_are_maximal()
    ensures { (from to first : ℕ) (node : Tree) (peaks : List Tree)
        → Contains (maximal_nodes from to peaks) (first, node) ↔ IsMaximalNode from to peaks first node }
{}

/// With digests of 32 bytes a root's string has 9, 41 or 49 bytes: never the 72 of a branch's.
pub fn root_strings_have_three_lengths()
    ensures { (hash : Hash) (bagging : Bagging) (leaves inactive : ℕ) (peaks : List (List ℕ))
        → ((bytes : List ℕ) → length (hash bytes) ≡ 32) → All (λ digest. length digest ≡ 32) peaks
        → inactive ≤ length peaks
        → IsRootLength (length (root_string bagging leaves inactive
        (bagged hash bagging (items hash inactive peaks)))) }
{}
