//! What is said of trees of lists is said of trees that are begun from pinned digests, too.
//!
//! Nobody may have the leaves before the boundary, nor a list whose hashes the pinned digests are. But there is one for
//! another hash, which gives each pinned node its digest and hashes every other as before: below, `*` is pinned, and a
//! leaf that is gone stands as nothing.
//!
//! ```text
//!       *           14              hash' of 6 is the pinned digest, whatever its children are
//!       6     13       ...          hash' of 13 and 14 is the hash of their children
//!     . . . . 7 8 10 11
//! ```

ghost use Rattle.merkle_core_parts.specs.Mem.{AreKeptNodes, AreNodesOf, Nodes, NodeHash};
ghost use Rattle.merkle_memory.specs.Begun.{AreAlikeFrom, IsHashedFrom, leaves_left, pinned_hash};

use merkle_forest::Family;

/// A tree whose branches from the boundary on are hashed from their children has the nodes of a list of leaf digests,
/// by a hash that is another one before the boundary alone. So what is said of each list and each hash of branches is
/// said of it: what a batch over it makes (`UnmerkleizedBatch::merkleize`, clause `of_begun`) and leads to, what
/// pruning leaves, its roots and its proofs.
pub fn pinned_digests_stand_for_what_is_pruned<F: Family>()
    ensures nodes { (node : NodeHash) (nodes : Nodes) → AreKeptNodes F.merge_rule nodes
        → IsHashedFrom node F.merge_rule nodes → AreNodesOf (pinned_hash nodes.pinned node) F.merge_rule
        (leaves_left F.merge_rule nodes 0 nodes.leaves) nodes }
    ensures alike { (node : NodeHash) (nodes : Nodes) → AreKeptNodes F.merge_rule nodes
        → AreAlikeFrom F.merge_rule nodes.boundary (pinned_hash nodes.pinned node) node }
{}
