//! The hasher of the tree of the chunks.

ghost use Rattle.std.specs.Prelude.{◌≡◌, ◌+◌, ◌*◌, ◌^◌, option_map};
ghost use Rattle.merkle_forest.specs.Forest.{position};
ghost use Rattle.merkle_forest.specs.Nodes.{IsSubtree};
ghost use Rattle.state_theory.specs.GraftedNodes.{node_over, operations_position};

use merkle_forest::hasher::Hasher;
use merkle_forest::{Bagging, Digest, Graftable, MAX_LEAVES, Position};
use std::marker::PhantomData;

// The position of the operations' node over 2^height chunks from one on. None: no tree of up to `MAX_LEAVES`
// operations has it.
fn position_over<F: Graftable>(chunk: u64, height: u32, grafting_height: u32) -> Option<u64>
    requires { IsSubtree F.merge_rule chunk height }
    ensures { result ≡ option_map position
        (node_over F.merge_rule (chunk * 2 ^ grafting_height) (height + grafting_height)) }
{
    if grafting_height > 62 - height {
        return None;
    }
    if chunk > MAX_LEAVES >> grafting_height {
        return None;
    }
    let first = chunk * (1u64 << grafting_height);
    let high = height + grafting_height;
    if F::birth(first, high) > MAX_LEAVES {
        return None;
    }
    Some(F::subtree_root(first, high))
}

/// A hasher of the tree of the chunks, whose leaves have chunks joined in. A branch is hashed as the inner hasher
/// hashes the operations' branch over the same chunks, at that one's position; all else as the inner one hashes it.
/// Where no tree of up to `MAX_LEAVES` operations has such a branch, it is hashed at its own position.
/// In the Rust: `qmdb::current::grafting::GraftedHasher`.
#[derive(Drop)]
pub struct GraftedHasher<F: Graftable, H> {
    inner: H,
    grafting_height: u32,
    family: PhantomData<F>,
}

impl<F: Graftable, H> GraftedHasher<F, H> {
    /// The hasher over an inner one, of chunks with 2^grafting_height bits.
    /// In the Rust: `qmdb::current::grafting::GraftedHasher::new`.
    pub fn new(inner: H, grafting_height: u32) -> GraftedHasher<F, H>
        ensures inner { result.inner ≡ inner }
        ensures height { result.grafting_height ≡ grafting_height }
    {
        GraftedHasher {
            inner,
            grafting_height,
            family: PhantomData,
        }
    }

    /// The inner hasher (own).
    pub fn inner(&self) -> &H
        ensures { result.now ≡ self.now.inner }
    {
        &self.inner
    }

    /// The height of a node over as many operations as a chunk has bits (own).
    pub fn grafting_height(&self) -> u32
        ensures { result ≡ self.now.grafting_height }
    {
        self.grafting_height
    }

    // The position at which the branch at a position of the tree of the chunks is hashed.
    fn position_of(&self, position: u64) -> u64
        ensures { result ≡ operations_position F.merge_rule self.now.grafting_height position }
    {
        if position >= F::leaf_position(MAX_LEAVES) {
            return position;
        }
        let node: Position<F> = Position::new(position);
        let height = F::pos_to_height(node);
        let chunk = F::leftmost_leaf(node, height).as_u64();
        match position_over::<F>(chunk, height, self.grafting_height) {
            Some(found) => found,
            None => position,
        }
    }
}

impl<F: Graftable, H: Hasher<F>> Hasher<F> for GraftedHasher<F, H> {
    type Digest = H::Digest;

    ghost hash_of = { H.hash_of };

    ghost leaf_of = { λ hasher. H.leaf_of hasher.inner };

    ghost node_of = { λ hasher position.
        H.node_of hasher.inner (operations_position F.merge_rule hasher.grafting_height position) };

    ghost bagging_of = { λ hasher. H.bagging_of hasher.inner };

    fn hash(&self, parts: &[&[u8]]) -> H::Digest {
        self.inner.hash(parts)
    }

    fn root_bagging(&self) -> Bagging {
        self.inner.root_bagging()
    }

    fn digest_of_leaf(&self, position: u64, element: &[u8]) -> H::Digest {
        self.inner.digest_of_leaf(position, element)
    }

    fn digest_of_branch(&self, position: u64, left: &H::Digest, right: &H::Digest) -> H::Digest {
        self.inner
            .digest_of_branch(self.position_of(position), left, right)
    }
}
