//! An open store over a blob of any make: a history is recovered of its log, grown by batches and read through a cache.
#![tactic(auto)]

pub mod live;
mod proving;
mod reader;

pub use live::{Live, commit_live, get_live, recover_live};
