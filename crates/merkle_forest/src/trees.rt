//! Digests of trees by recursion over the forest: the plain programs of the definitions (own).

ghost use Rattle.std.specs.Prelude.{◌≡◌, ◌<◌, ◌≤◌, ◌+◌, ◌^◌, ◌++◌, ◌∷◌, [], ℕ, List, map, length, IfOk, OnOk};
ghost use Rattle.merkle_forest.specs.Forest.{Tree, leaf_count, leaves, forest_of};
ghost use Rattle.merkle_forest.specs.Shape.{shape};
ghost use Rattle.merkle_forest.specs.Trees.{located, plain_digest, peak_digests, inactive_peaks, tree_root, Within};
ghost use Rattle.merkle_forest.specs.TreesCode.{shapes};

use crate::digest::Digest;
use crate::family::Family;
use crate::forest::{Tree, grow, leaf_count_of};
use crate::hasher::{HashFunction, hash_leaf, hash_node};
use crate::root;
use std::alloc::{AllocError, Global};
use std::marker::PhantomData;

/// The digest of a tree over the elements from `start` on.
pub fn digest_of<H: HashFunction>(elements: &[Vec<u8>], start: usize, tree: &Tree) -> H::Digest
    requires { start + leaf_count (shape tree.now) ≤ length elements.now }
    ensures { H.Digest.encoding result ≡ plain_digest H.hash_of (map (λ e. e.items) elements.now) start
        (shape tree.now) }
{
    match tree {
        Tree::Leaf(position) => hash_leaf::<H>(*position, &elements[start]),
        Tree::Branch(position, left, right) => {
            let left_digest = digest_of::<H>(elements, start, left);
            let right_digest = digest_of::<H>(elements, start + leaf_count_of(left), right);
            hash_node::<H>(*position, &left_digest, &right_digest)
        }
    }
}

/// The digests of the trees over a list of elements (own).
pub trait TreeDigests<D: Digest> {
    /// The digest of a tree whose first leaf stands at a location.
    ghost digest_at: { Self → ℕ → Tree → List ℕ };

    /// How many elements there are.
    ghost element_count: { Self → ℕ };

    /// The digest of a tree whose first leaf stands at `start`.
    fn digest(&self, start: usize, tree: &Tree) -> D
        requires { start + leaf_count (shape tree.now) ≤ element_count self.now }
        ensures { D.encoding result ≡ digest_at self.now start (shape tree.now) };
}

/// The plain digests over these elements.
#[derive(Drop)]
pub struct Plain<'a, H> {
    elements: &'a [Vec<u8>],
    function: PhantomData<H>,
}

impl<'a, H> Plain<'a, H> {
    /// The plain digests over these elements.
    pub fn new(elements: &'a [Vec<u8>]) -> Plain<'a, H>
        ensures { result.elements.now ≡ elements.now }
    {
        Plain {
            elements,
            function: PhantomData,
        }
    }
}

impl<H: HashFunction> TreeDigests<H::Digest> for Plain<'_, H> {
    ghost digest_at = { λ plain. plain_digest H.hash_of (map (λ e. e.items) plain.elements.now) };

    ghost element_count = { λ plain. length plain.elements.now };

    fn digest(&self, start: usize, tree: &Tree) -> H::Digest {
        digest_of::<H>(self.elements, start, tree)
    }
}

/// The digests of the peaks, from left to right. It fails only when out of memory.
pub fn digests_of_peaks<D: Digest, T: TreeDigests<D>>(
    alloc: Global,
    digests: &T,
    peaks: &[Tree],
) -> Result<Vec<D>, AllocError>
    requires small { leaves (map shape peaks.now) < 2 ^ 64 }
    requires within { leaves (map shape peaks.now) ≤ T.element_count digests.now }
    ensures digests { IfOk result (λ found. map D.encoding found.items
        ≡ peak_digests (T.digest_at digests.now) (map shape peaks.now)) }
    ensures counted { IfOk result (λ found. length found.items ≡ length peaks.now) }
{
    let mut found = Vec::new(alloc);
    let mut start = 0;
    for index in (0..peaks.len()).rev() {
        let tree = &peaks[index];
        found.push(digests.digest(start, tree))?;
        start += leaf_count_of(tree);
    }
    Ok(found)
}

/// How many of these peaks come first whose leaves all stand before the floor.
pub fn inactive_count_of(floor: u64, peaks: &[(usize, &Tree)]) -> usize
    requires { Within usize.MAX (shapes peaks.now) }
    ensures count { result ≡ inactive_peaks floor (shapes peaks.now) }
    ensures within { result ≤ length peaks.now }
{
    let mut count = 0;
    for (start, tree) in peaks {
        if (*start + leaf_count_of(tree)) as u64 > floor {
            return count;
        }
        count += 1;
    }
    count
}

/// The peaks from left to right, each with the location of its first leaf. It fails only when out of memory.
#[tactic(auto, using(crate::specs::Laws::Trees::located_within))]
pub fn locate<'a>(alloc: Global, peaks: &'a [Tree]) -> Result<Vec<(usize, &'a Tree)>, AllocError>
    requires { leaves (map shape peaks.now) < 2 ^ 64 }
    ensures located { IfOk result (λ found. shapes found.items ≡ located (map shape peaks.now)) }
    ensures within { IfOk result (λ found. Within (leaves (map shape peaks.now)) (shapes found.items)) }
    ensures counted { IfOk result (λ found. length found.items ≡ length peaks.now) }
{
    let mut found = Vec::new(alloc);
    let mut start = 0;
    for index in (0..peaks.len()).rev() {
        let tree = &peaks[index];
        found.push((start, tree))?;
        start += leaf_count_of(tree);
    }
    Ok(found)
}
