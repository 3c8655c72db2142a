//! Batches that wait for a tree: `tree T wait M END STEP..`, where the end says whether the tree takes the batch.

use crate::shelves::{Shelves, named_mut, taken};
use crate::stop::{Answer, Stop, bad_line};
use crate::told::{self, Line};
use crate::words::{self, Hash};
use merkle_core::batch::MerkleizedBatch;
use merkle_core::{Mem, Reserved};
use merkle_forest::Family;
use std::alloc::Global;
use std::mem;

// Whether the batch is applied at the end of its line.
fn is_applied(end: &str) -> Result<bool, Stop> {
    match end {
        "apply" => Ok(true),
        "cancel" => Ok(false),
        _ => bad_line(),
    }
}

impl<F: Family> Shelves<F> {
    /// Finds room in the tree for the batch of a name, which is taken away; tells what the steps ask of both, and then
    /// applies the batch or gives it up.
    pub fn wait(
        &mut self,
        alloc: Global,
        name: &str,
        made: &str,
        end: &str,
        steps: &[&str],
    ) -> Answer {
        let is_applied = is_applied(end)?;
        let made = taken(&mut self.made, made)?;
        let tree = named_mut(&mut self.trees, name)?;
        let before = mem::replace(tree, Mem::new(alloc));
        let (after, told) = waited(alloc, before, made, is_applied, steps);
        *tree = after;
        told
    }
}

// The tree after a batch waited for it, and what was told on the way.
fn waited<F: Family>(
    alloc: Global,
    tree: Mem<F, Hash>,
    made: MerkleizedBatch<F, Hash>,
    is_applied: bool,
    steps: &[&str],
) -> (Mem<F, Hash>, Answer) {
    match tree.reserve_for(made) {
        Ok(waiting) => {
            let told = asked(alloc, &waiting, steps);
            (ended(waiting, is_applied && told.is_ok()), told)
        }
        Err(back) => (back.tree, Err(Stop::from(back.error))),
    }
}

// The tree with the batch, or as it was.
fn ended<F: Family>(waiting: Reserved<F, Hash>, is_applied: bool) -> Mem<F, Hash> {
    if is_applied {
        waiting.apply_batch()
    } else {
        waiting.cancel()
    }
}

// What the steps ask.
fn asked<F: Family>(alloc: Global, waiting: &Reserved<F, Hash>, steps: &[&str]) -> Answer {
    let mut line = Line::new(alloc);
    for step in steps {
        line.word(&answer(alloc, waiting, step)?);
    }
    line.text()
}

// The answer to a step: a number, or the digest of the node at a position.
fn answer<F: Family>(alloc: Global, waiting: &Reserved<F, Hash>, step: &str) -> Answer {
    match step {
        "leaves" => told::shown(alloc, waiting.leaves()),
        "boundary" => told::shown(alloc, waiting.pruning_boundary()),
        position => told::some_digest(alloc, waiting.get_node(words::position(position)?)),
    }
}
