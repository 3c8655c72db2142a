//! Proofs that a store answers under the root of this moment: of a key's value or absence, of an operation that is
//! active, of operations with their bits, and of those alone. They are made of what a ledger keeps and of operations
//! that are read of its log; the light client that checks them is `auth_store_client`.
#![tactic(auto)]

mod absence;
mod between;
pub mod error;
pub mod key;
pub mod laws;
mod logged;
pub mod ranges;

pub use error::{ProofError, Unprovable};
pub use key::{KeyProof, prove_key};
pub use ranges::{
    ProvedOperation, ProvedRange, ProvedSlice, prove_log, prove_operation, prove_range,
};
