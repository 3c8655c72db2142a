//! Lines of cases of a store: the steps that words ask for, its answers as words, and what a client says of a proof.
#![tactic(auto)]

pub mod asked;
pub mod clients;
pub mod refusals;
pub mod told;
pub mod words;
