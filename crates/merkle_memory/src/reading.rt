//! Trees and batches as what nodes are read from.

ghost use Rattle.merkle_core_parts.specs.Layers.{made_by};
ghost use Rattle.merkle_core_parts.specs.Mem.{node_at};

use crate::batch::MerkleizedBatch;
use crate::mem::Mem;
use merkle_core_parts::Readable;
use merkle_forest::family::Family;
use merkle_forest::{Digest, Position};

/// A tree in memory.
impl<F: Family, D: Digest> Readable<F> for Mem<F, D> {
    type Digest = D;

    ghost leaf_total = { λ tree. tree.leaves };

    ghost digest_at = { λ tree. node_at F.merge_rule tree };

    fn leaf_count(&self) -> u64 {
        self.leaves().as_u64()
    }

    fn node_digest(&self, position: u64) -> Option<D> {
        Mem::get_node(self, Position::new(position))
    }
}

/// The tree with a batch, of which only the nodes are there that the batch makes, or one below it: those that are
/// added, and those that change.
impl<F: Family, D: Digest> Readable<F> for MerkleizedBatch<F, D> {
    type Digest = D;

    ghost leaf_total = { λ batch. batch.leaves };

    ghost digest_at = { λ batch. made_by F.merge_rule batch };

    fn leaf_count(&self) -> u64 {
        self.leaves().as_u64()
    }

    fn node_digest(&self, position: u64) -> Option<D> {
        MerkleizedBatch::get_node(self, Position::new(position))
    }
}
