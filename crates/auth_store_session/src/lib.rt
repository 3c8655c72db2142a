//! The store on a device that fails, and sessions of it: a history is recovered of the device's log, grown by batches
//! and read through a cache, and each step of a session is one of a machine with three states.
#![tactic(auto)]

mod asking;
pub mod laws;
pub mod session;
pub mod sizes;
pub mod store;

pub use auth_store_live::{Live, commit_live, get_live, live, recover_live};
pub use auth_store_machine::{StoreError, error};
pub use session::{Answer, Session, Step};
pub use sizes::Sizes;
pub use store::{NotOpened, Store};
