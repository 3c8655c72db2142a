//! Trees, and the nodes that batches make, as something whose nodes are read.

use crate::stop::Answer;
use crate::told::{self, Line};
use crate::words::Hash;
use merkle_core::Readable;
use merkle_forest::{Family, Position};
use std::alloc::Global;

/// What a tree, or the nodes that batches make, are as something to be read: its leaves, its size, and a node.
pub fn read<F: Family, R: Readable<F, Digest = Hash>>(
    alloc: Global,
    nodes: &R,
    position: u64,
) -> Answer {
    let node = told::some_digest(alloc, nodes.get_node(Position::new(position)))?;
    let mut line = Line::new(alloc);
    line.number(nodes.leaf_count());
    line.number(nodes.size().as_u64());
    line.word(&node);
    line.text()
}
