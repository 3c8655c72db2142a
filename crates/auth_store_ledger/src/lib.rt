//! What a store knows of its history beside the operations, which it reads of its log: places, counts and root, and how
//! far its trees may be pruned. Proofs are made of it in `auth_store_proving`.
#![tactic(auto)]

pub mod error;
pub mod ledger;
pub mod logged;

pub use auth_store_index::{LoggedValues, ReadError};
pub use auth_store_parts::{Batch, Word, batch, history, state};
pub use error::{CommitError, LedgerError};
pub use ledger::Ledger;
pub use logged::LoggedOperations;
