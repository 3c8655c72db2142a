//! What an authenticated store stands on: states, batches, histories with their logs, and the texts of its script.
#![tactic(auto)]

pub mod batch;
pub mod history;
pub mod script;
pub mod state;

pub use batch::{Batch, Word};
