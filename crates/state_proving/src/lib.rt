//! Proofs of a state that is kept: builders that read its trees and its bits, whatever is pruned of them, and make what
//! a client checks: proofs under the canonical root or under that of the operations' tree, and what leads from one to
//! the other.
#![tactic(auto)]

mod proving;
mod root_witness;

pub use proving::{log_proof, operation_proof, range_proof};
pub use root_witness::witness;
