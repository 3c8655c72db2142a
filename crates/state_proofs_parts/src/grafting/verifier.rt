//! The hasher of the grafted tree over a range of operations.

ghost use Rattle.std.specs.Prelude.{◌≡◌, ◌-◌, [], map, slice_index_or};
ghost use Rattle.merkle_forest.specs.declared.bagging.Bagging.TheVariants.{BackwardFold};
ghost use Rattle.merkle_forest.specs.Hashing.{leaf_string};
ghost use Rattle.state_theory.specs.Verifier.{node_at, joined_chunk, grafted_node};
ghost use Rattle.state_proofs_parts.specs.VerifierCode.{form_given_of};

use crate::grafting::graft;
use merkle_forest::hasher::{HashFunction, Hasher, hash_leaf, hash_node};
use merkle_forest::{Bagging, Graftable, MAX_LEAVES, Position};
use std::convert::AsSlice;
use std::marker::PhantomData;

/// The chunk with this index, of those from a first one on. Where it is none of them it is open which is answered
/// (own).
pub fn covering_chunk<'a, C: AsSlice<u8>>(chunks: &'a [C], first: u64, index: u64) -> &'a [u8]
    ensures { result.now ≡ slice_index_or (map C.items chunks.now) (index - first) [] }
{
    match chunks.get(index.saturating_sub(first) as usize) {
        Some(chunk) => chunk.as_slice(),
        None => &[],
    }
}

/// A hasher of the grafted tree over a range of operations. Below and above the grafting height a branch is hashed as
/// in the operations' tree; at that height the chunk over it is joined in, where it is graftable and is one of those
/// given.
/// In the Rust: `qmdb::current::grafting::Verifier`, which owns the list of chunks.
#[derive(Drop)]
pub struct Verifier<'a, F: Graftable, H, C = &'a [u8]> {
    grafting_height: u32,
    start_chunk_index: u64,
    chunks: &'a [C],
    graftable_chunks: u64,
    marker: PhantomData<(F, H)>,
}

impl<'a, F: Graftable, H, C: AsSlice<u8>> Verifier<'a, F, H, C> {
    /// The hasher with these chunks, of which the first has this index; so many chunks of the tree are graftable.
    /// In the Rust: `qmdb::current::grafting::Verifier::new`.
    pub fn new(
        grafting_height: u32,
        start_chunk_index: u64,
        chunks: &'a [C],
        graftable_chunks: u64,
    ) -> Verifier<'a, F, H, C>
        ensures { form_given_of C.items result ≡ record {
          grafting_height = grafting_height;
          first = start_chunk_index;
          chunks = map C.items chunks.now;
          graftable = graftable_chunks;
        } }
    {
        Verifier {
            grafting_height,
            start_chunk_index,
            chunks,
            graftable_chunks,
            marker: PhantomData,
        }
    }

    // The chunk that is joined in at a position: no byte where none is.
    fn chunk_joined_at(&self, position: u64) -> &'a [u8]
        ensures { result.now ≡ joined_chunk (form_given_of C.items self.now) (node_at F.merge_rule position) }
    {
        if position >= F::leaf_position(MAX_LEAVES) {
            return &[];
        }
        let node: Position<F> = Position::new(position);
        let height = F::pos_to_height(node);
        if height != self.grafting_height {
            return &[];
        }
        let index = F::leftmost_leaf(node, height).as_u64() >> height;
        if index >= self.graftable_chunks || index < self.start_chunk_index {
            return &[];
        }
        covering_chunk(self.chunks, self.start_chunk_index, index)
    }
}

impl<F: Graftable, H: HashFunction, C: AsSlice<u8>> Hasher<F> for Verifier<'_, F, H, C> {
    type Digest = H::Digest;

    ghost hash_of = { H.hash_of };

    ghost leaf_of = { λ _ position element. H.hash_of (leaf_string position element) };

    ghost node_of = { λ verifier position left right.
        grafted_node F.merge_rule H.hash_of (form_given_of C.items verifier) position left right };

    ghost bagging_of = { λ _. BackwardFold };

    fn hash(&self, parts: &[&[u8]]) -> H::Digest {
        H::hash(parts)
    }

    fn root_bagging(&self) -> Bagging {
        Bagging::BackwardFold
    }

    fn digest_of_leaf(&self, position: u64, element: &[u8]) -> H::Digest {
        hash_leaf::<H>(position, element)
    }

    fn digest_of_branch(&self, position: u64, left: &H::Digest, right: &H::Digest) -> H::Digest {
        let own = hash_node::<H>(position, left, right);
        graft::<H>(self.chunk_joined_at(position), &own)
    }
}
