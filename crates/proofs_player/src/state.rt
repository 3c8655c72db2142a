//! A state: operations, whether each is active, and a floor; its trees, its roots, and what is read of them.

use crate::arguments::{
    Answer, Hash, bits, byte_lists, digest_or_none, digest_told, done, keep, numbers as numbers_of,
    refused, shown,
};
use crate::grafted::{Chunks, pruned};
use crate::refusals::of_tree;
use case_lines::Unanswered;
use merkle_core::Mem;
use merkle_core::error::Error as TreeError;
use merkle_forest::hasher::Standard;
use merkle_forest::{Bagging, ByteHash, Graftable, Location, PendingOf, Position};
use state_proofs::ChunkSize;
use std::alloc::Global;

/// A state, its trees, and the numbers of a log that requests read.
#[derive(Drop)]
pub(crate) struct State<F: Graftable + PendingOf<Hash>> {
    /// How many bits a chunk has.
    pub(crate) chunk_size: ChunkSize,
    /// The encoded operations.
    pub(crate) operations: Vec<Vec<u8>>,
    /// Whether each operation is active.
    pub(crate) bits: Vec<bool>,
    /// How many chunks of those bits are pruned.
    pub(crate) pruned: u64,
    /// The location of the least active update.
    pub(crate) floor: u64,
    /// The tree of the operations.
    pub(crate) tree: Mem<F, Hash>,
    /// The tree of the chunks, once there is one.
    pub(crate) chunks: Option<Chunks<F>>,
    /// The numbers of a log.
    pub(crate) log: Vec<u64>,
}

/// The tree with these elements behind its own.
fn with_leaves<F: Graftable + PendingOf<Hash>>(
    tree: &mut Mem<F, Hash>,
    elements: &[Vec<u8>],
) -> Result<(), TreeError<F>> {
    let hasher: Standard<ByteHash> = Standard::new(Bagging::BackwardFold);
    let mut batch = tree.new_batch()?;
    for element in elements {
        batch = batch.add(&hasher, element)?;
    }
    let batch = batch.merkleize(tree, &hasher)?;
    tree.apply_batch(&batch)
}

impl<F: Graftable + PendingOf<Hash>> State<F> {
    /// A state without operations, with chunks of this size.
    pub(crate) fn empty(alloc: Global, chunk_size: ChunkSize) -> State<F> {
        State {
            chunk_size,
            operations: Vec::new(alloc),
            bits: Vec::new(alloc),
            pruned: 0,
            floor: 0,
            tree: Mem::new(alloc),
            chunks: None,
            log: Vec::new(alloc),
        }
    }

    // Appends operations to the list and to the tree.
    fn add(&mut self, alloc: Global, list: Vec<Vec<u8>>) -> Answer {
        if let Err(error) = with_leaves(&mut self.tree, &list) {
            return refused(alloc, of_tree(error));
        }
        self.operations.extend(list)?;
        done(alloc)
    }

    // Takes so many bits, which repeat those of a word.
    fn set_bits(&mut self, alloc: Global, pattern: &str, count: usize) -> Answer {
        self.bits = bits(alloc, pattern, count)?;
        done(alloc)
    }

    // Takes the numbers of a log.
    fn set_log(&mut self, alloc: Global, list: &str) -> Answer {
        self.log = numbers_of(alloc, list)?;
        done(alloc)
    }

    /// Lines that make a state: `add OPERATIONS`, `numbers FIRST LAST`, `bits PATTERN [COUNT]`, `floor LOCATION`,
    /// `pruned CHUNKS`, `log NUMBERS`, `prune LOCATION`.
    pub(crate) fn made(&mut self, alloc: Global, words: &[&str]) -> Answer {
        match words {
            [name, word] => self.made_of(alloc, name, word),
            ["bits", pattern, count] => self.set_bits(alloc, pattern, count.parse()?),
            ["numbers", first, last] => {
                let list = encoded_numbers(alloc, first.parse()?, last.parse()?)?;
                self.add(alloc, list)
            }
            _ => Err(Unanswered::BadLine),
        }
    }

    // A line that makes a state, of one word.
    fn made_of(&mut self, alloc: Global, name: &str, word: &str) -> Answer {
        match name {
            "add" => self.add(alloc, byte_lists(alloc, word)?),
            "bits" => self.set_bits(alloc, word, word.len()),
            "log" => self.set_log(alloc, word),
            name => self.put(alloc, name, word.parse()?),
        }
    }

    // A line that makes a state, of one number.
    fn put(&mut self, alloc: Global, name: &str, number: u64) -> Answer {
        match name {
            "floor" => self.floor = number,
            "pruned" => self.pruned = number,
            "prune" => return pruned(alloc, self.tree.prune(Location::new(number))),
            _ => return Err(Unanswered::BadLine),
        }
        done(alloc)
    }

    /// Lines about the tree of the operations: `leaves`, `node POSITION`, `operations_root INACTIVE`.
    pub(crate) fn tree_told(&self, alloc: Global, words: &[&str]) -> Answer {
        match words {
            ["leaves"] => shown(alloc, self.tree.leaves()),
            ["node", position] => {
                digest_or_none(alloc, self.tree.get_node(Position::new(position.parse()?)))
            }
            ["operations_root", inactive] => self.operations_root(alloc, inactive.parse()?),
            _ => Err(Unanswered::BadLine),
        }
    }

    // The root of the tree of the operations.
    fn operations_root(&self, alloc: Global, inactive: usize) -> Answer {
        let hasher: Standard<ByteHash> = Standard::new(Bagging::BackwardFold);
        match self.tree.root(&hasher, inactive) {
            Ok(root) => digest_told(alloc, &root),
            Err(error) => refused(alloc, of_tree(error)),
        }
    }
}

// The numbers from one to another, each in eight bytes.
fn encoded_numbers(alloc: Global, first: u64, last: u64) -> Result<Vec<Vec<u8>>, Unanswered> {
    let mut list = Vec::new(alloc);
    for number in first..=last {
        keep(&mut list, number.to_be_bytes().to_vec(alloc)?)?;
    }
    Ok(list)
}
