//! The forest grown leaf by leaf: the plain program of the definition (own).
//!
//! Peaks are kept from right to left, since a forest grows at its right end. A family's rule sees the peaks' heights
//! and names two neighbours that merge next; it is asked until it names none. So leaf 7 joins a Merkle Mountain Range:
//!
//! ```text
//! peaks at     heights
//! 11 10 9 6    0 0 1 2    10 and 11 merge under 12
//! 12 9 6       1 1 2      9 and 12 merge under 13
//! 13 6         2 2        6 and 13 merge under 14
//! 14           3          no neighbours have one height
//! ```

ghost use Rattle.std.specs.Prelude.{◌*◌, ◌++◌, ◌≡◌, ◌<◌, ◌≤◌, ◌+◌, ◌^◌, ℕ, suc, length, map, vec_len, IfOk, OnOk};
ghost use Rattle.std.specs.Prelude.{IfSome, slice_get};
ghost use Rattle.merkle_forest.specs.Forest.{height, leaf_count, node_count, merged, size, leaves, peaks_after_merges};
ghost use Rattle.merkle_forest.specs.Forest.{with_leaf, forest_of};
ghost use Rattle.merkle_forest.specs.Shape.{shape};

use crate::family::Family;
use std::alloc::{AllocError, Global};

/// A tree of a forest: a leaf at its position, or a branch at its position over two trees.
#[derive(Debug, Drop)]
pub enum Tree {
    /// A leaf at its position.
    Leaf(u64),
    /// A branch at its position, over the left and the right tree.
    Branch(u64, Box<Tree>, Box<Tree>),
}

/// The tree's height: 0 for a leaf.
pub fn height_of(tree: &Tree) -> u64
    requires { leaf_count (shape tree.now) < 2 ^ 64 }
    ensures { result ≡ height (shape tree.now) }
{
    match tree {
        Tree::Leaf(_) => 0,
        Tree::Branch(_, left, _) => height_of(left) + 1,
    }
}

/// How many leaves the tree has.
pub fn leaf_count_of(tree: &Tree) -> usize
    requires { leaf_count (shape tree.now) < 2 ^ 64 }
    ensures { result ≡ leaf_count (shape tree.now) }
{
    match tree {
        Tree::Leaf(_) => 1,
        Tree::Branch(_, left, right) => leaf_count_of(left) + leaf_count_of(right),
    }
}

// Two neighbours under a new node.
fn merge(
    alloc: Global,
    peaks: &mut Vec<Tree>,
    position: u64,
    index: usize,
) -> Result<(), AllocError>
    requires { index + 1 < vec_len peaks.old }
    ensures with_parent { OnOk result (map shape peaks.new.items ≡ merged position index (map shape peaks.old.items)) }
    ensures kept { OnOk result (leaves (map shape peaks.new.items) ≡ leaves (map shape peaks.old.items)) }
    ensures grown { OnOk result (size (map shape peaks.new.items) ≡ size (map shape peaks.old.items) + 1) }
{
    let right = peaks.remove(index);
    let left = peaks.remove(index);
    let left = Box::new(alloc, left)?;
    let right = Box::new(alloc, right)?;
    peaks.insert(index, Tree::Branch(position, left, right))?;
    Ok(())
}

fn heights_of(alloc: Global, peaks: &[Tree]) -> Result<Vec<u64>, AllocError>
    requires { leaves (map shape peaks.now) < 2 ^ 64 }
    ensures { IfOk result (λ heights. heights.items ≡ map height (map shape peaks.now)) }
{
    let mut heights = Vec::new(alloc);
    for peak in peaks {
        heights.push(height_of(peak))?;
    }
    Ok(heights)
}

// The index of the two peaks that merge next.
fn next_merge<F: Family>(
    alloc: Global,
    peaks: &[Tree],
    merges: usize,
) -> Result<Option<usize>, AllocError>
    requires { leaves (map shape peaks.now) < 2 ^ 64 }
    ensures index { IfOk result (λ index. index ≡ F.merge_rule merges (map height (map shape peaks.now))) }
    ensures within { IfOk result (λ index. IfSome index (λ i. i + 1 < length peaks.now)) }
{
    let heights = heights_of(alloc, peaks)?;
    Ok(F::merge_index(merges, &heights))
}

// Merges peaks as the family's rule asks, at most `room` times. `size_before` is how many nodes there are; the answer
// is how many there are then.
fn merge_all<F: Family>(
    alloc: Global,
    peaks: &mut Vec<Tree>,
    size_before: u64,
    room: usize,
) -> Result<u64, AllocError>
    requires sized { size_before ≡ size (map shape peaks.old.items) }
    requires few { leaves (map shape peaks.old.items) ≤ 2 ^ 62 }
    ensures merges_all { OnOk result (map shape peaks.new.items
        ≡ peaks_after_merges F.merge_rule room 0 (map shape peaks.old.items)) }
    ensures sizes { IfOk result (λ after. after ≡ size (map shape peaks.new.items)) }
    ensures kept { OnOk result (leaves (map shape peaks.new.items) ≡ leaves (map shape peaks.old.items)) }
{
    let mut nodes = size_before;
    for merges in 0..room {
        let Some(index) = next_merge::<F>(alloc, peaks, merges)? else {
            return Ok(nodes);
        };
        merge(alloc, peaks, nodes, index)?;
        nodes += 1;
    }
    Ok(nodes)
}

// Appends a leaf. `nodes` is how many nodes there are; the answer is how many there are then.
fn append_leaf<F: Family>(
    alloc: Global,
    peaks: &mut Vec<Tree>,
    nodes: u64,
) -> Result<u64, AllocError>
    requires sized { nodes ≡ size (map shape peaks.old.items) }
    requires few { leaves (map shape peaks.old.items) < 2 ^ 62 }
    ensures grown { OnOk result (map shape peaks.new.items ≡ with_leaf F.merge_rule (map shape peaks.old.items)) }
    ensures sizes { IfOk result (λ after. after ≡ size (map shape peaks.new.items)) }
    ensures counted { OnOk result (leaves (map shape peaks.new.items) ≡ leaves (map shape peaks.old.items) + 1) }
{
    let room = peaks.len();
    peaks.insert(0, Tree::Leaf(nodes))?;
    merge_all::<F>(alloc, peaks, nodes + 1, room)
}

/// The forest of `leaf_count` leaves: its peaks from right to left. It fails only when out of memory.
pub fn grow<F: Family>(alloc: Global, leaf_count: u64) -> Result<Vec<Tree>, AllocError>
    requires { leaf_count ≤ 2 ^ 62 }
    ensures grown { IfOk result (λ peaks. map shape peaks.items ≡ forest_of F.merge_rule leaf_count) }
    ensures counted { IfOk result (λ peaks. leaves (map shape peaks.items) ≡ leaf_count) }
{
    let mut peaks = Vec::new(alloc);
    let mut nodes = 0;
    for _ in 0..leaf_count {
        nodes = append_leaf::<F>(alloc, &mut peaks, nodes)?;
    }
    Ok(peaks)
}
