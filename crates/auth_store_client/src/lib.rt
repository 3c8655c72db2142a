//! The light client of a store: it checks claims about a state against the state's root. It stands on no log, page,
//! file or device, so that a bridge takes it alone.
#![tactic(auto)]

pub mod checking;
pub mod claim;
mod encoded;
pub mod laws;
mod range;
mod reading;
mod slice;
pub mod width;

pub use checking::check;
pub use claim::Claim;
pub use width::is_chunk_width;
