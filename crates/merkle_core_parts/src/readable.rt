//! What the nodes of a tree are read from.

ghost use Rattle.std.specs.Prelude.{◌≡◌, ◌≤◌, ◌^◌, ℕ, List, Option, option_map};
ghost use Rattle.merkle_core_parts.specs.Mem.{node_count};

use merkle_forest::family::{Family, MAX_LEAVES};
use merkle_forest::{Digest, Location, Position};

/// What the nodes of a tree are read from. Of a node that is there the digest is given; which nodes are there is open.
/// In the Rust: `merkle::Readable`, whose family is an associated type.
pub trait Readable<F: Family>: Drop {
    /// The digests of the nodes. In the Rust: `merkle::Readable::Digest`.
    type Digest: Digest;

    /// How many leaves the tree has.
    ghost leaf_total: { Self → ℕ };

    /// The digest of the node at a position, where it is there.
    ghost digest_at: { Self → ℕ → Option (List ℕ) };

    /// How many leaves the tree has (own).
    fn leaf_count(&self) -> u64
        ensures count { result ≡ leaf_total self.now }
        ensures few { leaf_total self.now ≤ MAX_LEAVES };

    /// The digest of the node at a position, where it is there (own).
    fn node_digest(&self, position: u64) -> Option<Self::Digest>
        ensures { option_map Self.Digest.encoding result ≡ digest_at self.now position };

    /// How many nodes the tree has. In the Rust: `merkle::Readable::size`.
    final fn size(&self) -> Position<F>
    where
        Self: Sized,
        ensures { result ≡ node_count F.merge_rule (leaf_total self.now) }
    {
        F::location_to_position(Location::new(self.leaf_count()))
    }

    /// The digest of the node at a position, where it is there. In the Rust: `merkle::Readable::get_node`.
    final fn get_node(&self, position: Position<F>) -> Option<Self::Digest>
    where
        Self: Sized,
        ensures { option_map Self.Digest.encoding result ≡ digest_at self.now position }
    {
        self.node_digest(position.as_u64())
    }
}
