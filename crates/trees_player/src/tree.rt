//! Calls of a tree.

use crate::batch::with_elements;
use crate::reading::read;
use crate::shelves::{Shelves, named, named_mut, put, put_made};
use crate::stop::{Answer, Stop, bad_line, or_stop};
use crate::told::{self, Line};
use crate::words::{self, Hash};
use merkle_core::Mem;
use merkle_core::batch::MerkleizedBatch;
use merkle_core::error::Error;
use merkle_core::mem::Config;
use merkle_forest::hasher::Standard;
use merkle_forest::{ByteHash, Family, Location, Position};
use std::alloc::Global;

impl<F: Family> Shelves<F> {
    /// Makes or changes the tree of a name, or asks it.
    pub fn call_tree(&mut self, alloc: Global, name: &str, call: &[&str]) -> Answer {
        match call {
            ["grow", elements @ ..] => self.grow(alloc, name, elements),
            ["wait", made, end, steps @ ..] => self.wait(alloc, name, made, end, steps),
            [what] => self.call_tree_alone(alloc, name, what),
            [what, word] => self.call_tree_with(alloc, name, what, word),
            [what, boundary, parts @ ..] => self.make_tree(alloc, name, what, boundary, parts),
            [] => bad_line(),
        }
    }

    // Makes the tree of a boundary and parts.
    fn make_tree(
        &mut self,
        alloc: Global,
        name: &str,
        what: &str,
        boundary: &str,
        parts: &[&str],
    ) -> Answer {
        let tree = of_parts(alloc, what, boundary, parts);
        put_made(alloc, &mut self.trees, name, tree)
    }

    // A call of the tree with nothing behind what it is.
    fn call_tree_alone(&mut self, alloc: Global, name: &str, what: &str) -> Answer {
        match what {
            "new" => put(alloc, &mut self.trees, name, Mem::new(alloc)),
            what => alone(alloc, named_mut(&mut self.trees, name)?, what),
        }
    }

    // A call of the tree with one word behind what it is.
    fn call_tree_with(&mut self, alloc: Global, name: &str, what: &str, word: &str) -> Answer {
        match what {
            "copy" => self.copy_tree(alloc, name, word),
            "apply" => self.apply(alloc, name, word),
            what => self.call_tree_at(alloc, name, what, word.parse()?),
        }
    }

    // A call of the tree with a number behind what it is.
    fn call_tree_at(&mut self, alloc: Global, name: &str, what: &str, number: u64) -> Answer {
        let tree = named_mut(&mut self.trees, name)?;
        match what {
            "prune" => told::done(alloc, tree.prune(Location::new(number))),
            "node" => told::some_digest(alloc, tree.get_node(Position::new(number))),
            "read" => read(alloc, tree, number),
            "root" => told::root(alloc, tree.root(&self.hasher, number as usize)),
            _ => bad_line(),
        }
    }

    // Gives the name to a copy of another tree.
    fn copy_tree(&mut self, alloc: Global, name: &str, other: &str) -> Answer {
        let copy = named(&self.trees, other)?.try_copy();
        put_made(alloc, &mut self.trees, name, or_stop(copy))
    }

    // Adds the nodes that a batch has made to the tree.
    fn apply(&mut self, alloc: Global, name: &str, made: &str) -> Answer {
        applied(
            alloc,
            named_mut(&mut self.trees, name)?,
            named(&self.made, made)?,
        )
    }

    // Adds the elements to the tree, by one batch.
    fn grow(&mut self, alloc: Global, name: &str, elements: &[&str]) -> Answer {
        let elements = words::elements(alloc, elements)?;
        let tree = named_mut(&mut self.trees, name)?;
        told::done(alloc, grow_tree(&self.hasher, tree, &elements))
    }
}

// Adds the nodes that a batch has made to a tree.
fn applied<F: Family>(
    alloc: Global,
    tree: &mut Mem<F, Hash>,
    made: &MerkleizedBatch<F, Hash>,
) -> Answer {
    told::done(alloc, tree.apply_batch(made))
}

// Adds elements to a tree, by one batch.
fn grow_tree<F: Family>(
    hasher: &Standard<ByteHash>,
    tree: &mut Mem<F, Hash>,
    elements: &[Vec<u8>],
) -> Result<(), Error<F>> {
    let batch = with_elements(hasher, tree.new_batch()?, elements)?;
    let batch = batch.merkleize(tree, hasher)?;
    tree.apply_batch(&batch)
}

// The tree of these nodes and, after a `/`, pinned ones.
fn of_parts<F: Family>(
    alloc: Global,
    what: &str,
    boundary: &str,
    parts: &[&str],
) -> Result<Mem<F, Hash>, Stop> {
    let config = settings(alloc, words::location(boundary)?, parts)?;
    match what {
        "init" => or_stop(Mem::init(alloc, config)),
        "components" => or_stop(composed(alloc, config)),
        _ => bad_line(),
    }
}

// The settings of a tree of these nodes and, after a `/`, pinned ones.
fn settings<F: Family>(
    alloc: Global,
    pruning_boundary: Location<F>,
    parts: &[&str],
) -> Result<Config<F, Hash>, Stop> {
    let (nodes, pinned) = words::two_lists(parts)?;
    Ok(Config {
        nodes: words::digests(alloc, nodes)?,
        pruning_boundary,
        pinned_nodes: words::digests(alloc, pinned)?,
    })
}

// The tree of settings, by way of its components.
fn composed<F: Family>(alloc: Global, config: Config<F, Hash>) -> Result<Mem<F, Hash>, Error<F>> {
    let boundary = config.pruning_boundary;
    Mem::from_components(alloc, config.nodes, boundary, &config.pinned_nodes)
}

// A call of a tree with nothing behind what it is.
fn alone<F: Family>(alloc: Global, tree: &mut Mem<F, Hash>, what: &str) -> Answer {
    match what {
        "prune-all" => told::done(alloc, tree.prune_all()),
        "leaves" => told::shown(alloc, tree.leaves()),
        "size" => told::shown(alloc, tree.size()),
        "boundary" => told::shown(alloc, tree.pruning_boundary()),
        what => listed(alloc, tree, what),
    }
}

// What a tree tells that is a list.
fn listed<F: Family>(alloc: Global, tree: &Mem<F, Hash>, what: &str) -> Answer {
    match what {
        "bounds" => bounds(alloc, tree),
        "peaks" => peaks(alloc, tree),
        "kept" => there(alloc, tree, 0, tree.size().as_u64()),
        "pinned" => there(alloc, tree, 0, list_start(tree)),
        "listed" => there(alloc, tree, list_start(tree), tree.size().as_u64()),
        _ => bad_line(),
    }
}

// The first and the last boundary of the leaves that are there.
fn bounds<F: Family>(alloc: Global, tree: &Mem<F, Hash>) -> Answer {
    let bounds = tree.bounds();
    let mut line = Line::new(alloc);
    line.number(bounds.start.as_u64());
    line.number(bounds.end.as_u64());
    line.text()
}

// The position and the height of each peak.
fn peaks<F: Family>(alloc: Global, tree: &Mem<F, Hash>) -> Answer {
    let mut line = Line::new(alloc);
    for (position, height) in tree.peak_iterator() {
        line.number(position.as_u64());
        line.number(height as u64);
    }
    line.text()
}

// The position of the first leaf that is not pruned, from which on no node is missing: those before it are pinned.
fn list_start<F: Family>(tree: &Mem<F, Hash>) -> u64 {
    let _leaves = tree.leaves();
    F::location_to_position(tree.pruning_boundary()).as_u64()
}

// The positions of the nodes that are there, of those from one position on and before another.
fn there<F: Family>(alloc: Global, tree: &Mem<F, Hash>, from: u64, to: u64) -> Answer {
    let mut line = Line::new(alloc);
    for position in from..to {
        if tree.get_node(Position::new(position)).is_some() {
            line.number(position);
        }
    }
    line.text()
}
