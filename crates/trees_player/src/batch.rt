//! Calls of a batch that is put together, and of one whose nodes are made. A call that is refused gives the batch up.

use crate::reading::read;
use crate::shelves::{Shelves, named, put_made, taken};
use crate::stop::{Answer, Stop, bad_line, or_stop};
use crate::told;
use crate::words::{self, Hash};
use merkle_core::batch::{MerkleizedBatch, UnmerkleizedBatch};
use merkle_core::error::Error;
use merkle_forest::hasher::Standard;
use merkle_forest::{ByteHash, Family, Location, Position};
use std::alloc::Global;

/// A batch that is put together, or the stop of the call that was to lead to it.
type Batch<F> = Result<UnmerkleizedBatch<F, Hash>, Stop>;

impl<F: Family> Shelves<F> {
    /// Begins the batch of a name, or goes on with it, or asks how many leaves there are with it.
    pub fn call_batch(&mut self, alloc: Global, name: &str, call: &[&str]) -> Answer {
        match call {
            ["leaves"] => told::shown(alloc, named(&self.batches, name)?.leaves()),
            call => {
                let batch = self.batch_after(alloc, name, call);
                put_made(alloc, &mut self.batches, name, batch)
            }
        }
    }

    // The batch to which a call leads.
    fn batch_after(&mut self, alloc: Global, name: &str, call: &[&str]) -> Batch<F> {
        match call {
            ["over", "tree", tree] => self.over_tree(tree),
            ["over", "made", made] => self.over_made(made),
            ["new", made] => self.new_over(made),
            [what, words @ ..] => {
                let batch = taken(&mut self.batches, name)?;
                changed(alloc, &self.hasher, batch, what, words)
            }
            [] => bad_line(),
        }
    }

    fn over_tree(&self, tree: &str) -> Batch<F> {
        or_stop(named(&self.trees, tree)?.new_batch())
    }

    fn over_made(&self, made: &str) -> Batch<F> {
        or_stop(named(&self.made, made)?.new_batch())
    }

    fn new_over(&self, made: &str) -> Batch<F> {
        or_stop(UnmerkleizedBatch::new(named(&self.made, made)?))
    }

    /// Makes the nodes of the batch of a name, or asks one whose nodes are made.
    pub fn call_made(&mut self, alloc: Global, name: &str, call: &[&str]) -> Answer {
        match call {
            ["of", batch, tree] => self.make(alloc, name, batch, tree),
            ["from", tree] => self.make_none(alloc, name, tree),
            [what] => alone(alloc, named(&self.made, name)?, what),
            [what, number] => self.call_made_at(alloc, name, what, number.parse()?),
            _ => bad_line(),
        }
    }

    // Makes the nodes of a batch over a tree.
    fn make(&mut self, alloc: Global, name: &str, batch: &str, tree: &str) -> Answer {
        let batch = taken(&mut self.batches, batch)?;
        let made = batch.merkleize(named(&self.trees, tree)?, &self.hasher);
        put_made(alloc, &mut self.made, name, or_stop(made))
    }

    // Makes a batch of no nodes over a tree.
    fn make_none(&mut self, alloc: Global, name: &str, tree: &str) -> Answer {
        let made = MerkleizedBatch::from_mem(named(&self.trees, tree)?);
        put_made(alloc, &mut self.made, name, or_stop(made))
    }

    // What a batch tells whose nodes are made, with a number behind what it is.
    fn call_made_at(&self, alloc: Global, name: &str, what: &str, number: u64) -> Answer {
        let made = named(&self.made, name)?;
        match what {
            "node" => told::some_digest(alloc, made.get_node(Position::new(number))),
            "read" => read(alloc, made, number),
            "root" => told::root(alloc, made.root(&self.hasher, number as usize)),
            _ => bad_line(),
        }
    }
}

// The batch with what a call adds or changes.
fn changed<F: Family>(
    alloc: Global,
    hasher: &Standard<ByteHash>,
    batch: UnmerkleizedBatch<F, Hash>,
    what: &str,
    words: &[&str],
) -> Batch<F> {
    match what {
        "add" => added(alloc, hasher, batch, words),
        "add-digests" => with_digests(alloc, batch, words),
        "update-digests" => updated(alloc, batch, words),
        what => changed_once(alloc, hasher, batch, what, words),
    }
}

// The batch with one thing added, changed or forgotten.
fn changed_once<F: Family>(
    alloc: Global,
    hasher: &Standard<ByteHash>,
    batch: UnmerkleizedBatch<F, Hash>,
    what: &str,
    words: &[&str],
) -> Batch<F> {
    match words {
        [] => forgotten(batch, what),
        [digest] => with_digest(batch, what, words::digest(digest)?),
        [location, word] => {
            updated_at(alloc, hasher, batch, what, words::location(location)?, word)
        }
        _ => bad_line(),
    }
}

// The batch without the batches below it.
fn forgotten<F: Family>(batch: UnmerkleizedBatch<F, Hash>, what: &str) -> Batch<F> {
    match what {
        "forget" => Ok(batch.forget_ancestors()),
        _ => bad_line(),
    }
}

// The batch with elements added.
fn added<F: Family>(
    alloc: Global,
    hasher: &Standard<ByteHash>,
    batch: UnmerkleizedBatch<F, Hash>,
    elements: &[&str],
) -> Batch<F> {
    let elements = words::elements(alloc, elements)?;
    or_stop(with_elements(hasher, batch, &elements))
}

/// The batch with elements added.
pub fn with_elements<F: Family>(
    hasher: &Standard<ByteHash>,
    batch: UnmerkleizedBatch<F, Hash>,
    elements: &[Vec<u8>],
) -> Result<UnmerkleizedBatch<F, Hash>, Error<F>> {
    let mut batch = batch;
    for element in elements {
        batch = batch.add(hasher, element)?;
    }
    Ok(batch)
}

// The batch with a digest added.
fn with_digest<F: Family>(batch: UnmerkleizedBatch<F, Hash>, what: &str, digest: Hash) -> Batch<F> {
    match what {
        "add-digest" => or_stop(batch.add_leaf_digest(digest)),
        _ => bad_line(),
    }
}

// The batch with digests added.
fn with_digests<F: Family>(
    alloc: Global,
    batch: UnmerkleizedBatch<F, Hash>,
    digests: &[&str],
) -> Batch<F> {
    let digests = words::digests(alloc, digests)?;
    or_stop(batch.add_leaf_digests(&digests))
}

// The batch with one leaf changed.
fn updated_at<F: Family>(
    alloc: Global,
    hasher: &Standard<ByteHash>,
    batch: UnmerkleizedBatch<F, Hash>,
    what: &str,
    location: Location<F>,
    word: &str,
) -> Batch<F> {
    match what {
        "update" => with_element(alloc, hasher, batch, location, word),
        "update-digest" => or_stop(batch.update_leaf_digest(location, words::digest(word)?)),
        _ => bad_line(),
    }
}

// The batch with this element in place of a leaf.
fn with_element<F: Family>(
    alloc: Global,
    hasher: &Standard<ByteHash>,
    batch: UnmerkleizedBatch<F, Hash>,
    location: Location<F>,
    element: &str,
) -> Batch<F> {
    let element = case_lines::bytes(alloc, element)?;
    or_stop(batch.update_leaf(hasher, location, &element))
}

// The batch with leaves changed: locations, each with a digest behind it.
fn updated<F: Family>(
    alloc: Global,
    batch: UnmerkleizedBatch<F, Hash>,
    updates: &[&str],
) -> Batch<F> {
    let updates = placed(alloc, updates)?;
    or_stop(batch.update_leaf_batched(&updates))
}

// Digests, each at a location.
fn placed<F: Family>(alloc: Global, words: &[&str]) -> Result<Vec<(Location<F>, Hash)>, Stop> {
    let mut found = Vec::new(alloc);
    for pair in words.chunks(2) {
        found.push(placed_digest(pair)?)?;
    }
    Ok(found)
}

// A digest at a location.
fn placed_digest<F: Family>(words: &[&str]) -> Result<(Location<F>, Hash), Stop> {
    match words {
        [location, digest] => Ok((words::location(location)?, words::digest(digest)?)),
        _ => bad_line(),
    }
}

// What a batch tells whose nodes are made.
fn alone<F: Family>(alloc: Global, made: &MerkleizedBatch<F, Hash>, what: &str) -> Answer {
    match what {
        "leaves" => told::shown(alloc, made.leaves()),
        "size" => told::shown(alloc, made.size()),
        "base-size" => told::shown(alloc, made.base_size()),
        "boundary" => told::shown(alloc, made.pruning_boundary()),
        _ => bad_line(),
    }
}
