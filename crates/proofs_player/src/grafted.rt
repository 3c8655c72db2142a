//! The tree of the chunks, and the grafted tree that is read from it and from the tree of the operations.

use crate::arguments::{
    Answer, Hash, byte_lists, digest_or_none, digest_told, done, keep, lent, refused, shown,
    two_digests,
};
use crate::refusals::of_tree;
use case_lines::{Unanswered, bytes};
use merkle_core::error::Error as TreeError;
use merkle_core::{Mem, Readable};
use merkle_forest::hasher::{Hasher, Standard};
use merkle_forest::{Bagging, ByteHash, Graftable, Location, PendingOf, Position};
use state_proofs::grafting::graft;
use state_proofs::grafting::hasher::GraftedHasher;
use state_proofs::grafting::storage::Storage;
use state_proofs::grafting::verifier::Verifier;
use std::alloc::Global;

/// The tree of the chunks.
#[derive(Drop)]
pub(crate) struct Chunks<F: Graftable> {
    /// The height of a node over as many operations as a chunk has bits.
    pub(crate) grafting_height: u32,
    /// Its nodes.
    pub(crate) tree: Mem<F, Hash>,
}

// A chunk, and the position of the operations' node below it.
#[derive(Drop)]
struct Leaf {
    position: u64,
    chunk: Vec<u8>,
}

// The leaves that are spelled as pairs of a position and a chunk with a colon between them.
fn leaves(alloc: Global, words: &[&str]) -> Result<Vec<Leaf>, Unanswered> {
    let mut found = Vec::new(alloc);
    for word in words {
        let Some((position, chunk)) = word.split_once(':') else {
            return Err(Unanswered::BadLine);
        };
        let leaf = Leaf {
            position: position.parse()?,
            chunk: bytes(alloc, chunk)?,
        };
        keep(&mut found, leaf)?;
    }
    Ok(found)
}

// The tree of chunks, each over the operations' node at its position.
fn tree_of<F: Graftable + PendingOf<Hash>>(
    alloc: Global,
    operations: &Mem<F, Hash>,
    grafting_height: u32,
    leaves: &[Leaf],
) -> Result<Mem<F, Hash>, TreeError<F>> {
    let inner: Standard<ByteHash> = Standard::new(Bagging::BackwardFold);
    let hasher = GraftedHasher::new(inner, grafting_height);
    let mut tree = Mem::new(alloc);
    let mut batch = tree.new_batch()?;
    for leaf in leaves {
        let position = Position::new(leaf.position);
        let Some(node) = operations.get_node(position) else {
            return Err(TreeError::ElementPruned(position));
        };
        batch = batch.add_leaf_digest(graft::<ByteHash>(&leaf.chunk, &node))?;
    }
    let batch = batch.merkleize(&tree, &hasher)?;
    tree.apply_batch(&batch)?;
    Ok(tree)
}

/// Makes the tree of the chunks: `chunks HEIGHT` and `POSITION:CHUNK` for each leaf.
pub(crate) fn make<F: Graftable + PendingOf<Hash>>(
    alloc: Global,
    operations: &Mem<F, Hash>,
    kept: &mut Option<Chunks<F>>,
    words: &[&str],
) -> Answer {
    let [height, words @ ..] = words else {
        return Err(Unanswered::BadLine);
    };
    let grafting_height: u32 = height.parse()?;
    match tree_of(alloc, operations, grafting_height, &leaves(alloc, words)?) {
        Ok(tree) => {
            *kept = Some(Chunks {
                grafting_height,
                tree,
            });
            done(alloc)
        }
        Err(error) => refused(alloc, of_tree(error)),
    }
}

/// Lines about both trees: `size`, `node POSITION`, `prune LEAVES`, `prune_all`.
pub(crate) fn of_both<F: Graftable + PendingOf<Hash>>(
    alloc: Global,
    operations: &Mem<F, Hash>,
    chunks: &mut Chunks<F>,
    words: &[&str],
) -> Answer {
    match words {
        ["prune_all"] => pruned(alloc, chunks.tree.prune_all()),
        ["prune", leaves] => pruned(alloc, chunks.tree.prune(Location::new(leaves.parse()?))),
        words => read(alloc, &both(operations, chunks), words),
    }
}

/// What is told after a pruning.
pub(crate) fn pruned<F: Graftable>(alloc: Global, answer: Result<(), TreeError<F>>) -> Answer {
    match answer {
        Ok(()) => done(alloc),
        Err(error) => refused(alloc, of_tree(error)),
    }
}

/// Both trees, to be read.
pub(crate) type Both<'a, F> = Storage<'a, F, ByteHash, Mem<F, Hash>, Mem<F, Hash>>;

/// The tree of the chunks over that of the operations.
pub(crate) fn both<'a, F: Graftable + PendingOf<Hash>>(
    operations: &'a Mem<F, Hash>,
    chunks: &'a Chunks<F>,
) -> Both<'a, F> {
    Storage::new(&chunks.tree, chunks.grafting_height, operations)
}

// What is read of both trees.
fn read<F: Graftable + PendingOf<Hash>>(
    alloc: Global,
    storage: &Both<'_, F>,
    words: &[&str],
) -> Answer {
    match words {
        ["size"] => shown(alloc, storage.size()),
        ["node", position] => {
            digest_or_none(alloc, storage.get_node(Position::new(position.parse()?)))
        }
        _ => Err(Unanswered::BadLine),
    }
}

/// Hashes a branch: `branch HEIGHT POSITION LEFT RIGHT` as the tree of the chunks does, and
/// `joined HEIGHT FIRST GRAFTABLE CHUNKS POSITION LEFT RIGHT` as the check of a range does.
pub(crate) fn hashed<F: Graftable + PendingOf<Hash>>(alloc: Global, words: &[&str]) -> Answer {
    match words {
        ["branch", height, words @ ..] => {
            let inner: Standard<ByteHash> = Standard::new(Bagging::BackwardFold);
            let hasher: OfChunks<F> = GraftedHasher::new(inner, height.parse()?);
            hashed_by::<F, OfChunks<F>>(alloc, &hasher, words)
        }
        ["joined", height, first, graftable, list, words @ ..] => {
            let chunks = byte_lists(alloc, list)?;
            joined::<F>(alloc, [*height, *first, *graftable], &chunks, words)
        }
        _ => Err(Unanswered::BadLine),
    }
}

/// How the tree of the chunks hashes.
type OfChunks<F> = GraftedHasher<F, Standard<ByteHash>>;

// The branch of these words, as the check of a range with these chunks hashes it.
fn joined<F: Graftable + PendingOf<Hash>>(
    alloc: Global,
    numbers: [&str; 3],
    chunks: &[Vec<u8>],
    words: &[&str],
) -> Answer {
    let [height, first, graftable] = numbers;
    let chunks = lent(alloc, chunks)?;
    let verifier: Verifier<'_, F, ByteHash> = Verifier::new(
        height.parse()?,
        first.parse()?,
        &chunks,
        graftable.parse()?,
    );
    hashed_by::<F, Verifier<'_, F, ByteHash>>(alloc, &verifier, words)
}

// The branch of these words: its position, and both nodes.
fn hashed_by<F: Graftable, H: Hasher<F, Digest = Hash>>(
    alloc: Global,
    hasher: &H,
    words: &[&str],
) -> Answer {
    match words {
        [position, left, right] => {
            let (left, right) = two_digests(left, right)?;
            digest_told(
                alloc,
                &hasher.digest_of_branch(position.parse()?, &left, &right),
            )
        }
        _ => Err(Unanswered::BadLine),
    }
}
