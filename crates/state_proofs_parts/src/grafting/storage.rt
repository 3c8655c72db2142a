//! The grafted tree, read from the tree of the operations and the tree of the chunks.

ghost use Rattle.std.specs.Prelude.{◌≡◌, ℕ, option_map};
ghost use Rattle.merkle_forest.specs.Forest.{Tree};
ghost use Rattle.merkle_forest.specs.Nodes.{StandsAt};
ghost use Rattle.merkle_theory.specs.Subtrees.{IsTreeAt};
ghost use Rattle.state_theory.specs.GraftedNodes.{chunks_node, grafted_lookup, known_or_made};

use crate::grafting::hasher::GraftedHasher;
use crate::grafting::ops_to_grafted_pos;
use merkle_core::Readable;
use merkle_forest::hasher::{HashFunction, Hasher, Standard};
use merkle_forest::{Bagging, Digest, Graftable, MAX_LEAVES, Position};

/// The grafted tree over a tree of operations and the tree of their chunks, of which either may be pruned. It has the
/// leaves and the positions of the operations' tree. A node below the grafting height is read from that tree, one at
/// that height or above it from the tree of the chunks; where it is not there, it is made again of its children, and
/// these in the same way. None: a leaf of the chunks would be needed that is not there, or an operations' node is not.
/// In the Rust: `qmdb::current::grafting::Storage`.
#[derive(Drop)]
pub struct Storage<'a, F: Graftable, H, G, S> {
    grafted_tree: &'a G,
    ops_tree: &'a S,
    hasher: GraftedHasher<F, Standard<H>>,
}

impl<
    'a,
    F: Graftable,
    H: HashFunction,
    G: Readable<F, Digest = H::Digest>,
    S: Readable<F, Digest = H::Digest>,
> Storage<'a, F, H, G, S> {
    /// The grafted tree over the tree of the chunks, each of 2^grafting_height bits, and the tree of the operations.
    /// In the Rust: `qmdb::current::grafting::Storage::new`.
    pub fn new(
        grafted_tree: &'a G,
        grafting_height: u32,
        ops_tree: &'a S,
    ) -> Storage<'a, F, H, G, S>
        ensures leaves { ⟦<Storage<'a, F, H, G, S> as Readable<F>>⟧.leaf_total result ≡ S.leaf_total ops_tree.now }
        ensures nodes { ⟦<Storage<'a, F, H, G, S> as Readable<F>>⟧.digest_at result
            ≡ grafted_lookup F.merge_rule H.hash_of (record {
              grafting_height = grafting_height;
              operations = S.digest_at ops_tree.now;
              chunks = G.digest_at grafted_tree.now;
            }) }
    {
        Storage {
            grafted_tree,
            ops_tree,
            hasher: GraftedHasher::new(Standard::new(Bagging::BackwardFold), grafting_height),
        }
    }

    // The digest of the node at a position of the tree of the chunks, of this height: as it is there, or else made of
    // those of its two children. None: a leaf below it is not there that it would be made of.
    fn reconstruct_grafted_node(&self, position: Position<F>, height: u32) -> Option<H::Digest>
        requires { StandsAt F.merge_rule position height }
        ensures { (first : ℕ) (node : Tree) → IsTreeAt F.merge_rule first position height node
            → option_map H.Digest.encoding result
            ≡ known_or_made (chunks_node H.hash_of F.merge_rule self.now.hasher.grafting_height)
            (G.digest_at self.now.grafted_tree.now) node }
    {
        if let Some(digest) = self.grafted_tree.get_node(position) {
            return Some(digest);
        }
        if height == 0 {
            return None;
        }
        let (left, right) = F::children(position, height);
        let left_digest = self.reconstruct_grafted_node(left, height - 1)?;
        let right_digest = self.reconstruct_grafted_node(right, height - 1)?;
        Some(
            self.hasher
                .node_digest(position, &left_digest, &right_digest),
        )
    }
}

impl<
    F: Graftable,
    H: HashFunction,
    G: Readable<F, Digest = H::Digest>,
    S: Readable<F, Digest = H::Digest>,
> Readable<F> for Storage<'_, F, H, G, S> {
    type Digest = H::Digest;

    ghost leaf_total = { λ storage. S.leaf_total storage.ops_tree.now };

    ghost digest_at = { λ storage. grafted_lookup F.merge_rule H.hash_of (record {
      grafting_height = storage.hasher.grafting_height;
      operations = S.digest_at storage.ops_tree.now;
      chunks = G.digest_at storage.grafted_tree.now;
    }) };

    fn leaf_count(&self) -> u64 {
        self.ops_tree.leaf_count()
    }

    fn node_digest(&self, position: u64) -> Option<H::Digest> {
        if position >= F::leaf_position(MAX_LEAVES) {
            return None;
        }
        let node: Position<F> = Position::new(position);
        let height = F::pos_to_height(node);
        let grafting_height = self.hasher.grafting_height();
        if height < grafting_height {
            return self.ops_tree.node_digest(position);
        }
        let grafted = ops_to_grafted_pos(node, grafting_height);
        self.reconstruct_grafted_node(grafted, height - grafting_height)
    }
}
