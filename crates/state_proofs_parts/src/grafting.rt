//! Chunks grafted onto the tree of the operations.
//!
//! With chunks of one byte the grafting height is 3: over each chunk's 8 operations one node of that height stands,
//! once it is born. Its digest is joined with the chunk, and so the root shows each bit beside its operation, for one
//! more hash a chunk. In a range (MMR) of 19 operations both full chunks have their nodes:
//!
//! ```text
//!                  o                                height 4: its string has the joined digests of both children
//!            /           \
//!          G0             G1                        height 3: own digest joined with chunk 0, with chunk 1
//!       ...  ...       ...  ...           o
//!     op 0 .. op 7   op 8 .. op 15   16, 17 .. 18   chunk 2 is partial, with 3 bits
//! ```
//!
//! In a belt (MMB) of 17 operations the node over operations 8 to 15 is not born yet, and comes with the 19th: chunk 1
//! is full and pending.
//!
//! ```text
//!          G0             o       o                 height 3: own digest joined with chunk 0
//!       ...  ...        /   \   /   \
//!     op 0 .. op 7   8 .. 11   12 .. 15   16        chunk 1 is pending, chunk 2 is partial, with 1 bit
//! ```
//!
//! A family whose nodes are born at once has no pending chunk. The digest of the pending chunk and of the partial one
//! stand in the canonical string.

ghost use Rattle.std.specs.Prelude.{◌≡◌, ◌<◌, ◌≤◌, ◌+◌, ◌*◌, ◌/◌};
ghost use Rattle.std.specs.Prelude.{◌^◌, ◌++◌, [], ◌∷◌, ℕ, List, map, length, IfOk, OnOk};
ghost use Rattle.std.specs.Prelude.{slice_index_or};
ghost use Rattle.merkle_forest.specs.Forest.{leaf_count, leaves};
ghost use Rattle.merkle_forest.specs.Nodes.{nodes_at, nodes_of_height};
ghost use Rattle.merkle_forest.specs.Shape.{shape};
ghost use Rattle.merkle_forest.specs.Trees.{Within};
ghost use Rattle.merkle_forest.specs.TreesCode.{shapes};
ghost use Rattle.state_theory.specs.Grafting.{grafted, grafted_digest};
ghost use Rattle.state_theory.specs.Grafting.{chunk_aligned_inactive_peaks as aligned_peaks};

pub mod counts;
pub mod hasher;
pub mod laws;
pub mod positions;
pub mod storage;
pub mod verifier;

use crate::bits::is_zero_chunk;
use crate::chunk_size::ChunkSize;
pub use counts::{chunk_aligned_inactive_peaks, graftable_chunks, graftable_chunks_of, height};
pub use hasher::GraftedHasher;
use merkle_forest::Digest;
use merkle_forest::forest::{Tree, height_of, leaf_count_of};
use merkle_forest::hasher::{HashFunction, hash_leaf, hash_node};
use merkle_forest::trees::TreeDigests;
pub use positions::{grafted_to_ops_pos, ops_to_grafted_pos};
use std::marker::PhantomData;
pub use storage::Storage;
pub use verifier::Verifier;

/// The digest of a subtree of the grafting height with its chunk: a chunk without a set bit leaves it as it is.
/// In the Rust: `qmdb::current::grafting::graft_chunk_digests`, over a list of chunks.
pub fn graft<H: HashFunction>(chunk: &[u8], digest: &H::Digest) -> H::Digest
    ensures { H.Digest.encoding result ≡ grafted H.hash_of chunk.now (H.Digest.encoding digest.now) }
{
    if is_zero_chunk(chunk) {
        return *digest;
    }
    H::hash(&[chunk, digest.as_bytes()])
}

/// The digests of the grafted tree: at the grafting height a chunk is joined in (own).
#[derive(Drop)]
pub struct Grafted<'a, H> {
    /// The encoded operations.
    pub elements: &'a [Vec<u8>],
    /// The chunks of activity bits.
    pub chunks: &'a [Vec<u8>],
    /// How many bits a chunk has.
    pub chunk_size: ChunkSize,
    /// The hash function.
    pub function: PhantomData<H>,
}

/// The bytes of the chunk that stands over the leaf at `start`, or no byte where there is none (own).
pub fn chunk_over<'a>(chunks: &'a [Vec<u8>], chunk_size: ChunkSize, start: u64) -> &'a [u8]
    ensures { result.now ≡ slice_index_or (map (λ chunk. chunk.items) chunks.now) (start / (8 * chunk_size.width)) [] }
{
    match chunks.get(chunk_size.index_of(start) as usize) {
        Some(chunk) => chunk,
        None => &[],
    }
}

// The digest of a tree of the grafted tree.
fn digest_of<H: HashFunction>(grafted: &Grafted<'_, H>, start: usize, tree: &Tree) -> H::Digest
    requires { start + leaf_count (shape tree.now) ≤ length grafted.now.elements.now }
    ensures { H.Digest.encoding result ≡ grafted_digest H.hash_of grafted.now.chunk_size.grafting_height
        (8 * grafted.now.chunk_size.width)
        (map (λ chunk. chunk.items) grafted.now.chunks.now) (map (λ e. e.items) grafted.now.elements.now) start
        (shape tree.now) }
{
    match tree {
        Tree::Leaf(position) => hash_leaf::<H>(*position, &grafted.elements[start]),
        Tree::Branch(position, left, right) => {
            let left_digest = digest_of(grafted, start, left);
            let right_digest = digest_of(grafted, start + leaf_count_of(left), right);
            let own = hash_node::<H>(*position, &left_digest, &right_digest);
            if height_of(tree) == u64::from(grafted.chunk_size.grafting_height) {
                graft::<H>(
                    chunk_over(grafted.chunks, grafted.chunk_size, start as u64),
                    &own,
                )
            } else {
                own
            }
        }
    }
}

impl<H: HashFunction> TreeDigests<H::Digest> for Grafted<'_, H> {
    ghost digest_at = { λ g. grafted_digest H.hash_of g.chunk_size.grafting_height (8 * g.chunk_size.width)
        (map (λ chunk. chunk.items) g.chunks.now) (map (λ e. e.items) g.elements.now) };

    ghost element_count = { λ g. length g.elements.now };

    fn digest(&self, start: usize, tree: &Tree) -> H::Digest {
        digest_of(self, start, tree)
    }
}

// How many nodes of that height the tree has.
fn nodes_of_height(level: u64, tree: &Tree) -> usize
    requires { leaf_count (shape tree.now) < 2 ^ 64 }
    ensures count { result ≡ nodes_at level (shape tree.now) }
    ensures few { result ≤ leaf_count (shape tree.now) }
{
    match tree {
        Tree::Leaf(_) => if level == 0 { 1 } else { 0 },
        Tree::Branch(_, left, right) => {
            if height_of(tree) == level {
                1
            } else {
                nodes_of_height(level, left) + nodes_of_height(level, right)
            }
        }
    }
}

/// How many chunks are graftable, counted in the peaks: each node of the grafting height is over one (own).
pub fn graftable_count(chunk_size: ChunkSize, peaks: &[Tree]) -> usize
    requires { leaves (map shape peaks.now) < 2 ^ 64 }
    ensures count { result ≡ nodes_of_height chunk_size.grafting_height (map shape peaks.now) }
    ensures few { result ≤ leaves (map shape peaks.now) }
{
    match peaks {
        [] => 0,
        [peak, rest @ ..] => {
            nodes_of_height(u64::from(chunk_size.grafting_height), peak)
                + graftable_count(chunk_size, rest)
        }
    }
}

/// The greatest number of first peaks whose leaves all stand before the floor and of which the last one ends at a
/// chunk's border; 0 where there is none.
/// In the Rust: `qmdb::current::grafting::chunk_aligned_inactive_peaks`, from leaf count and height.
pub fn aligned_count_of(chunk_size: ChunkSize, floor: u64, peaks: &[(usize, &Tree)]) -> usize
    requires { Within usize.MAX (shapes peaks.now) }
    ensures count { result ≡ aligned_peaks (8 * chunk_size.width) floor (shapes peaks.now) }
    ensures within { result ≤ length peaks.now }
{
    match peaks {
        [] => 0,
        [(start, tree), rest @ ..] => {
            let end = (*start + leaf_count_of(tree)) as u64;
            if end > floor {
                return 0;
            }
            match aligned_count_of(chunk_size, floor, rest) {
                0 => if chunk_size.bit_of(end) == 0 { 1 } else { 0 },
                later => later + 1,
            }
        }
    }
}
