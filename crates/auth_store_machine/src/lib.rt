//! What the store's answers are held to: the machine with three states, closed, live or failed, what a device and a
//! blob stand for, which refusals come of which causes (`StoreError`); and what follows. Definitions and lemmas, and
//! the one enum that they speak of.
#![tactic(auto)]

pub mod error;

pub use error::StoreError;
