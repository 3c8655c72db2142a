//! The digests of a range proof: the plain program of the definition (own).
//!
//! A Merkle Mountain Range of 11 leaves has three peaks, at the positions 14, 17 and 18:
//!
//! ```text
//!               14
//!        6             13
//!     2     5       9      12      17
//!    0 1   3 4     7 8   10  11   15 16   18      positions
//!    0 1   2 3     4 5    6   7    8  9   10      leaves
//! ```
//!
//! The proof of leaf 2 has, in this order: nothing for the peaks before 14, since there is none; one digest for the
//! peaks after it, 17 and 18 folded from the right (by `ForwardFold` one for each); and the maximal nodes in 14 that
//! do not hold the leaf, from left to right: 2, 4, 13. What lies outside the peak comes first, so that a reader knows
//! by counts alone where the path begins.

ghost use Rattle.std.specs.Prelude.{◌≡◌, ◌<◌, ◌≤◌, ◌+◌, ◌^◌, ◌++◌, [], ◌∷◌, ℕ, List, map, filter, take, drop, length};
ghost use Rattle.std.specs.Prelude.{IfOk, OnOk, IsTrue, ◌↔◌, true, Bool};
ghost use Rattle.std.specs.List.{AllByRecursion};
ghost use Rattle.merkle_forest.specs.Forest.{Tree, leaf_count};
ghost use Rattle.merkle_forest.specs.Shape.{shape};
ghost use Rattle.merkle_forest.specs.Trees.{Within};
ghost use Rattle.merkle_forest.specs.TreesCode.{shapes};
ghost use Rattle.merkle_theory.specs.Ranges.{siblings, is_before, is_after, meets, singly, inner_digests, as_one};
ghost use Rattle.merkle_theory.specs.Ranges.{before_digests, after_digests, range_digests};
ghost use Rattle.merkle_proofs.specs.RangesCode.{stands};
ghost use Rattle.merkle_forest.specs.Hashing.{folded_forward, folded_backward};

use merkle_forest::Digest;
use merkle_forest::bagging::Bagging;
use merkle_forest::family::Family;
use merkle_forest::forest::{Tree, leaf_count_of};
use merkle_forest::hasher::Hasher;
use merkle_forest::root::{fold_backward, fold_onto};
use merkle_forest::trees::TreeDigests;
use std::alloc::{AllocError, Global};

// Whether some leaf of the tree stands in the range.
fn tree_meets(start: u64, stop: u64, at: usize, tree: &Tree) -> bool
    requires { at + leaf_count (shape tree.now) < 2 ^ 64 }
    ensures { result ≡ meets start stop (at, shape tree.now) }
{
    let end = at + leaf_count_of(tree);
    !(end as u64 <= start || stop <= at as u64)
}

// Appends the maximal nodes of the tree that hold no leaf of the range, from left to right.
fn append_siblings<D: Digest, T: TreeDigests<D>>(
    found: &mut Vec<D>,
    digests: &T,
    start: u64,
    stop: u64,
    at: usize,
    tree: &Tree,
) -> Result<(), AllocError>
    requires small { at + leaf_count (shape tree.now) < 2 ^ 64 }
    requires within { at + leaf_count (shape tree.now) ≤ T.element_count digests.now }
    ensures { OnOk result (map D.encoding found.new.items
        ≡ map D.encoding found.old.items ++ siblings (T.digest_at digests.now) start stop at (shape tree.now)) }
{
    let meets = tree_meets(start, stop, at, tree);
    match tree {
        Tree::Branch(_, left, right) if meets => {
            append_siblings(found, digests, start, stop, at, left)?;
            append_siblings(found, digests, start, stop, at + leaf_count_of(left), right)
        }
        Tree::Leaf(_) if meets => Ok(()),
        _ => Ok(found.push(digests.digest(at, tree))?),
    }
}

/// A side of a range of leaves (own).
#[derive(Clone, Copy, Debug, PartialEq, Eq)]
pub enum Side {
    /// Before this first leaf of the range.
    Before(u64),
    /// After the range, which ends before this leaf.
    After(u64),
}

// Whether all leaves of the tree stand on that side.
fn stands_on(side: Side, at: usize, tree: &Tree) -> bool
    requires { at + leaf_count (shape tree.now) < 2 ^ 64 }
    ensures { result ≡ stands side (at, shape tree.now) }
{
    match side {
        Side::Before(start) => (at + leaf_count_of(tree)) as u64 <= start,
        Side::After(stop) => stop <= at as u64,
    }
}

// The digests of the peaks on that side, singly.
fn append_side<D: Digest, T: TreeDigests<D>>(
    found: &mut Vec<D>,
    digests: &T,
    side: Side,
    peaks: &[(usize, &Tree)],
) -> Result<(), AllocError>
    requires small { T.element_count digests.now < 2 ^ 64 }
    requires within { Within (T.element_count digests.now) (shapes peaks.now) }
    ensures { OnOk result (map D.encoding found.new.items
        ≡ map D.encoding found.old.items ++ singly (T.digest_at digests.now)
        (filter (stands side) (shapes peaks.now))) }
{
    match peaks {
        [] => Ok(()),
        [(at, tree), rest @ ..] => {
            if stands_on(side, *at, tree) {
                found.push(digests.digest(*at, tree))?;
            }
            append_side(found, digests, side, rest)
        }
    }
}

// The siblings in the peaks that meet the range.
fn append_inner<D: Digest, T: TreeDigests<D>>(
    found: &mut Vec<D>,
    digests: &T,
    start: u64,
    stop: u64,
    peaks: &[(usize, &Tree)],
) -> Result<(), AllocError>
    requires small { T.element_count digests.now < 2 ^ 64 }
    requires within { Within (T.element_count digests.now) (shapes peaks.now) }
    ensures { OnOk result (map D.encoding found.new.items
        ≡ map D.encoding found.old.items ++ inner_digests (T.digest_at digests.now) start stop (shapes peaks.now)) }
{
    match peaks {
        [] => Ok(()),
        [(at, tree), rest @ ..] => {
            if tree_meets(start, stop, *at, tree) {
                append_siblings(found, digests, start, stop, *at, tree)?;
            }
            append_inner(found, digests, start, stop, rest)
        }
    }
}

// The digests folded from the left, where there is any.
pub(crate) fn append_folded_forward<F: Family, H: Hasher<F>>(
    found: &mut Vec<H::Digest>,
    hasher: &H,
    digests: &[H::Digest],
) -> Result<(), AllocError>
    ensures { OnOk result (map H.Digest.encoding found.new.items
        ≡ map H.Digest.encoding found.old.items ++ as_one (folded_forward H.hash_of)
        (map H.Digest.encoding digests.now)) }
{
    match digests {
        [] => Ok(()),
        [first, rest @ ..] => Ok(found.push(fold_onto(hasher, *first, rest))?),
    }
}

// The digests folded from the right, where there is any.
pub(crate) fn append_folded_backward<F: Family, H: Hasher<F>>(
    found: &mut Vec<H::Digest>,
    hasher: &H,
    digests: &[H::Digest],
) -> Result<(), AllocError>
    ensures { OnOk result (map H.Digest.encoding found.new.items
        ≡ map H.Digest.encoding found.old.items ++ as_one (folded_backward H.hash_of)
        (map H.Digest.encoding digests.now)) }
{
    match digests {
        [] => Ok(()),
        [first, rest @ ..] => Ok(found.push(fold_backward(hasher, first, rest))?),
    }
}

// The digests of the peaks on that side, in a vector of their own.
fn side_digests<D: Digest, T: TreeDigests<D>>(
    alloc: Global,
    digests: &T,
    side: Side,
    peaks: &[(usize, &Tree)],
) -> Result<Vec<D>, AllocError>
    requires small { T.element_count digests.now < 2 ^ 64 }
    requires within { Within (T.element_count digests.now) (shapes peaks.now) }
    ensures { IfOk result (λ found. map D.encoding found.items
        ≡ singly (T.digest_at digests.now) (filter (stands side) (shapes peaks.now))) }
{
    let mut found = Vec::new(alloc);
    append_side(&mut found, digests, side, peaks)?;
    Ok(found)
}

// The digests of the peaks before the range.
fn append_before<F: Family, H: Hasher<F>, T: TreeDigests<H::Digest>>(
    alloc: Global,
    found: &mut Vec<H::Digest>,
    hasher: &H,
    digests: &T,
    start: u64,
    inactive: &[(usize, &Tree)],
    active: &[(usize, &Tree)],
) -> Result<(), AllocError>
    requires small { T.element_count digests.now < 2 ^ 64 }
    requires within_inactive { Within (T.element_count digests.now) (shapes inactive.now) }
    requires within_active { Within (T.element_count digests.now) (shapes active.now) }
    ensures { OnOk result (map H.Digest.encoding found.new.items ≡ map H.Digest.encoding found.old.items
        ++ before_digests H.hash_of (T.digest_at digests.now) (H.bagging_of hasher.now) start (shapes inactive.now)
        (shapes active.now)) }
{
    let side = Side::Before(start);
    let mut first = side_digests(alloc, digests, side, inactive)?;
    match hasher.root_bagging() {
        Bagging::ForwardFold => {
            append_side(&mut first, digests, side, active)?;
            append_folded_forward(found, hasher, &first)
        }
        Bagging::BackwardFold => {
            append_folded_forward(found, hasher, &first)?;
            append_side(found, digests, side, active)
        }
    }
}

// The digests of the peaks after the range.
fn append_after<F: Family, H: Hasher<F>, T: TreeDigests<H::Digest>>(
    alloc: Global,
    found: &mut Vec<H::Digest>,
    hasher: &H,
    digests: &T,
    stop: u64,
    inactive: &[(usize, &Tree)],
    active: &[(usize, &Tree)],
) -> Result<(), AllocError>
    requires small { T.element_count digests.now < 2 ^ 64 }
    requires within_inactive { Within (T.element_count digests.now) (shapes inactive.now) }
    requires within_active { Within (T.element_count digests.now) (shapes active.now) }
    ensures { OnOk result (map H.Digest.encoding found.new.items ≡ map H.Digest.encoding found.old.items
        ++ after_digests H.hash_of (T.digest_at digests.now) (H.bagging_of hasher.now) stop (shapes inactive.now)
        (shapes active.now)) }
{
    let side = Side::After(stop);
    append_side(found, digests, side, inactive)?;
    match hasher.root_bagging() {
        Bagging::ForwardFold => append_side(found, digests, side, active),
        Bagging::BackwardFold => {
            let last = side_digests(alloc, digests, side, active)?;
            append_folded_backward(found, hasher, &last)
        }
    }
}

/// The digests of the proof of the leaves from `start` up to `stop`, in their order. It fails only when out of memory.
/// `inactive` and `active` are the peaks from left to right, each with the location of its first leaf.
/// In the Rust: `merkle::RangePlan::build`, which asks for nodes; here every digest is computed from the leaves.
pub fn range_digests_of<F: Family, H: Hasher<F>, T: TreeDigests<H::Digest>>(
    alloc: Global,
    hasher: &H,
    digests: &T,
    start: u64,
    stop: u64,
    inactive: &[(usize, &Tree)],
    active: &[(usize, &Tree)],
) -> Result<Vec<H::Digest>, AllocError>
    requires small { T.element_count digests.now < 2 ^ 64 }
    requires within_inactive { Within (T.element_count digests.now) (shapes inactive.now) }
    requires within_active { Within (T.element_count digests.now) (shapes active.now) }
    ensures { IfOk result (λ found. map H.Digest.encoding found.items
        ≡ range_digests H.hash_of (T.digest_at digests.now) (H.bagging_of hasher.now) start stop (shapes inactive.now)
        (shapes active.now)) }
{
    let mut found = Vec::new(alloc);
    append_before(alloc, &mut found, hasher, digests, start, inactive, active)?;
    append_after(alloc, &mut found, hasher, digests, stop, inactive, active)?;
    append_inner(&mut found, digests, start, stop, inactive)?;
    append_inner(&mut found, digests, start, stop, active)?;
    Ok(found)
}
