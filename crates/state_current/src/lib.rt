//! A state that is kept in step as it grows and is pruned: the tree of its operations, the tree of its chunks, its bits
//! and its floor. Root and proofs are read of what is kept, and are those of the state that it stands for.
//!
//! ```text
//!    operations   o o o o o o o o   o o o o o o o o   o o o       a leaf each, in a tree
//!    bits         1 0 1 1 0 0 0 0   0 1 0 0 0 0 0 0   1 1 .       in chunks, here of one byte
//!    chunks            o                 o                        a leaf for each chunk whose node is there
//! ```
//!
//! Chunks are pruned from the front, of both trees and of the bits, as far as they are settled: then each peak of the
//! pruned chunks is a node of the tree of operations, and a pinned digest stands for all below it.
#![tactic(auto)]

pub mod current;
mod growth;
pub mod laws;
mod peaks;
mod pruning;
mod roots;
pub mod settled;
mod trees;

pub use current::Current;
pub use settled::{greatest_settled, is_settled};
