//! Nodes of the forest of a family: positions, peaks, heights, children, chunks and ways down.

ghost use Rattle.std.specs.Prelude.{◌≤◌, ◌<◌, ◌^◌};

use crate::told::{Words, numbers, or_none, shown};
use case_lines::Unanswered;
use merkle_forest::chunk_peaks::has_node;
use merkle_forest::forest::{Tree, grow};
use merkle_forest::peaks::Peaks;
use merkle_forest::trees::{inactive_count_of, locate};
use merkle_forest::{Family, Graftable, Location, MAX_LEAVES, Position, path};
use std::alloc::Global;

// The most leaves that are grown one by one.
const MOST_GROWN: u64 = 1 << 12;

// A node, by its position: its height, its first leaf, the leaf count at which it is born, and its position again.
fn node<F: Graftable>(alloc: Global, position: u64) -> Result<String, Unanswered> {
    let end = F::location_to_position(Location::new(MAX_LEAVES)).as_u64();
    if position >= end {
        return Err(Unanswered::BadLine);
    }
    let at = Position::new(position);
    let height = F::pos_to_height(at);
    let first = F::leftmost_leaf(at, height);
    let birth = F::peak_birth_size(at, height);
    let again = F::subtree_root_position(first, height);
    Ok(format!(in alloc; "{height} {first} {birth} {again}")?)
}

// The children of a branch; `none` of a leaf.
fn children<F: Graftable>(alloc: Global, position: u64) -> Result<String, Unanswered> {
    let end = F::location_to_position(Location::new(MAX_LEAVES)).as_u64();
    if position >= end {
        return Err(Unanswered::BadLine);
    }
    let at = Position::new(position);
    let height = F::pos_to_height(at);
    if height == 0 {
        return Ok("none".to_string(alloc)?);
    }
    let (left, right) = F::children(at, height);
    Ok(format!(in alloc; "{left} {right}")?)
}

// The peaks of so many leaves, each with its height.
fn peaks<F: Graftable>(alloc: Global, leaves: u64) -> Result<String, Unanswered> {
    if leaves > MAX_LEAVES {
        return Err(Unanswered::BadLine);
    }
    let mut words = Words::new(alloc);
    for (position, height) in F::peaks(F::location_to_position(Location::new(leaves))) {
        words.push_node(alloc, position.as_u64(), height)?;
    }
    words.finish(alloc)
}

// The greatest size up to this one that a forest has, and the leaves of that forest, as the way over its peaks tells
// them at its beginning and behind the first peak.
fn peaks_within<F: Graftable>(alloc: Global, size: u64) -> Result<String, Unanswered> {
    let nearest = Peaks::<F>::to_nearest_size(Position::new(size));
    let mut peaks = Peaks::<F>::new(nearest);
    let leaves = peaks.leaves();
    let _first = peaks.next();
    let again = peaks.leaves();
    Ok(format!(in alloc; "{nearest} {leaves} {again}")?)
}

// The peaks that are pinned where so many leaves are pruned.
fn pins<F: Graftable>(alloc: Global, leaves: u64) -> Result<String, Unanswered> {
    if leaves > MAX_LEAVES {
        return Err(Unanswered::BadLine);
    }
    let mut words = Words::new(alloc);
    for position in F::nodes_to_pin(Location::new(leaves)) {
        words.push_number(alloc, position.as_u64())?;
    }
    words.finish(alloc)
}

// The heights of the parents that come with the leaf after so many.
fn parents<F: Graftable>(alloc: Global, leaves: u64) -> Result<String, Unanswered> {
    if leaves >= MAX_LEAVES {
        return Err(Unanswered::BadLine);
    }
    let mut words = Words::new(alloc);
    for height in F::parent_heights(Location::new(leaves)) {
        words.push_number(alloc, u64::from(height))?;
    }
    words.finish(alloc)
}

// How many peaks are inactive at a floor.
fn inactive<F: Graftable>(alloc: Global, leaves: u64, floor: u64) -> Result<String, Unanswered> {
    if leaves > MAX_LEAVES {
        return Err(Unanswered::BadLine);
    }
    let size = F::location_to_position(Location::new(leaves));
    shown(alloc, F::inactive_peaks(size, Location::new(floor)))
}

// The maximal nodes over a chunk of 2^height leaves.
fn chunk<F: Graftable>(
    alloc: Global,
    leaves: u64,
    chunk: u64,
    height: u64,
) -> Result<String, Unanswered> {
    if leaves > MAX_LEAVES || height > 62 {
        return Err(Unanswered::BadLine);
    }
    let size = F::location_to_position(Location::new(leaves));
    let mut words = Words::new(alloc);
    for (position, height) in F::chunk_peaks(size, chunk, height as u32) {
        words.push_node(alloc, position.as_u64(), height)?;
    }
    words.finish(alloc)
}

// Whether the node over the 2^height leaves from a location on stands in the forest of so many.
fn has<F: Graftable>(
    alloc: Global,
    leaves: u64,
    first: u64,
    height: u64,
) -> Result<String, Unanswered> {
    if leaves > MAX_LEAVES || first > MAX_LEAVES || height > 62 {
        return Err(Unanswered::BadLine);
    }
    shown(alloc, has_node::<F>(leaves, first, height as u32))
}

// The way from the node over the first 2^height of so many leaves down to a leaf.
fn way<F: Graftable>(
    alloc: Global,
    leaves: u64,
    height: u64,
    target: u64,
) -> Result<String, Unanswered> {
    if leaves > MAX_LEAVES || height > 62 || target >= 1 << height {
        return Err(Unanswered::BadLine);
    }
    let height = height as u32;
    if !has_node::<F>(leaves, 0, height) {
        return Err(Unanswered::BadLine);
    }
    let peak = Position::new(F::subtree_root(0, height));
    let first = Location::new(0);
    let target = Location::new(target);
    let mut words = Words::new(alloc);
    for (branch, beside, high) in path::Iterator::<F>::new(peak, height, first, target) {
        let word = format!(in alloc; "{branch}:{beside}:{high}")?;
        words.push(word.as_str())?;
    }
    words.finish(alloc)
}

// Adds the positions of a tree's nodes, those of the children before that of the branch.
fn push_positions(alloc: Global, words: &mut Words, tree: &Tree) -> Result<(), Unanswered> {
    match tree {
        Tree::Leaf(position) => words.push_number(alloc, *position),
        Tree::Branch(position, left, right) => {
            push_positions(alloc, words, left)?;
            push_positions(alloc, words, right)?;
            words.push_number(alloc, *position)
        }
    }
}

// The positions of the forest that is grown of so many leaves, tree by tree from the left.
fn grown<F: Graftable>(alloc: Global, leaves: u64) -> Result<String, Unanswered> {
    if leaves > MOST_GROWN {
        return Err(Unanswered::BadLine);
    }
    let mut words = Words::new(alloc);
    for peak in grow::<F>(alloc, leaves)?.iter().rev() {
        push_positions(alloc, &mut words, peak)?;
    }
    words.finish(alloc)
}

// The first leaf of each peak of the grown forest, from the left.
fn located<F: Graftable>(alloc: Global, leaves: u64) -> Result<String, Unanswered> {
    if leaves > MOST_GROWN {
        return Err(Unanswered::BadLine);
    }
    let mut words = Words::new(alloc);
    for (start, _) in &locate(alloc, &grow::<F>(alloc, leaves)?)? {
        words.push_number(alloc, *start as u64)?;
    }
    words.finish(alloc)
}

// How many peaks of so many single leaves side by side, at most three, end at the floor or before it.
fn counted(alloc: Global, leaves: u64, floor: u64) -> Result<String, Unanswered> {
    let leaf = Tree::Leaf(0);
    let peaks = [(0, &leaf), (1, &leaf), (2, &leaf)];
    let count = match leaves {
        0 => inactive_count_of(floor, &[]),
        3 => inactive_count_of(floor, &peaks),
        _ => return Err(Unanswered::BadLine),
    };
    shown(alloc, count)
}

// Which peaks merge next, of these heights from the right.
fn merge<F: Family>(alloc: Global, numbers: &[u64]) -> Result<String, Unanswered> {
    match numbers {
        [merges, heights @ ..] => or_none(alloc, F::merge_index(*merges as usize, heights)),
        [] => Err(Unanswered::BadLine),
    }
}

// The position of the leaf at a location.
fn position<F: Family>(alloc: Global, location: u64) -> Result<String, Unanswered> {
    if location > MAX_LEAVES {
        return Err(Unanswered::BadLine);
    }
    shown(alloc, F::location_to_position(Location::new(location)))
}

// The answer about the forest of so many leaves.
fn of_leaves<F: Graftable>(alloc: Global, name: &str, leaves: u64) -> Result<String, Unanswered> {
    match name {
        "peaks" => peaks::<F>(alloc, leaves),
        "pins" => pins::<F>(alloc, leaves),
        "parents" => parents::<F>(alloc, leaves),
        "grown" => grown::<F>(alloc, leaves),
        "located" => located::<F>(alloc, leaves),
        "position-of" => position::<F>(alloc, leaves),
        _ => Err(Unanswered::BadLine),
    }
}

// The answer about a position, or about a number of leaves.
fn of_one<F: Graftable>(alloc: Global, name: &str, number: u64) -> Result<String, Unanswered> {
    match name {
        "location-of" => or_none(alloc, F::position_to_location(Position::new(number))),
        "nearest-size" => shown(alloc, F::to_nearest_size(Position::new(number))),
        "peaks-within" => peaks_within::<F>(alloc, number),
        "node" => node::<F>(alloc, number),
        "children" => children::<F>(alloc, number),
        name => of_leaves::<F>(alloc, name, number),
    }
}

// The answer about the forest of so many leaves and a floor.
fn of_floor<F: Graftable>(
    alloc: Global,
    name: &str,
    leaves: u64,
    floor: u64,
) -> Result<String, Unanswered> {
    match name {
        "inactive" => inactive::<F>(alloc, leaves, floor),
        "counted" => counted(alloc, leaves, floor),
        _ => Err(Unanswered::BadLine),
    }
}

// The answer about the forest of so many leaves and a node in it.
fn of_node<F: Graftable>(
    alloc: Global,
    name: &str,
    leaves: u64,
    one: u64,
    other: u64,
) -> Result<String, Unanswered> {
    match name {
        "chunk" => chunk::<F>(alloc, leaves, one, other),
        "has" => has::<F>(alloc, leaves, one, other),
        "way" => way::<F>(alloc, leaves, one, other),
        _ => Err(Unanswered::BadLine),
    }
}

/// The answer to a question about the nodes of a family's forests: its name, and the numbers behind it.
pub fn answer<F: Graftable>(
    alloc: Global,
    name: &str,
    words: &[&str],
) -> Result<String, Unanswered> {
    let numbers = numbers(alloc, words)?;
    match numbers.as_slice() {
        numbers if name == "merge" => merge::<F>(alloc, numbers),
        [number] => of_one::<F>(alloc, name, *number),
        [leaves, floor] => of_floor::<F>(alloc, name, *leaves, *floor),
        [leaves, one, other] => of_node::<F>(alloc, name, *leaves, *one, *other),
        _ => Err(Unanswered::BadLine),
    }
}
