//! What a store keeps of its log without the operations: which of its bits a commit clears, where its floor stands, and
//! what a batch appends, told from the places of keys and from values that are read where they stand.
#![tactic(auto)]

mod changes;
mod fields;
pub mod floor;
pub mod laws;
pub mod near;
pub mod taken;
pub mod values;

pub use floor::{ListedBits, ReadableBits, first_set_from};
pub use near::changes_near;
pub use taken::taken_places;
pub use values::{LoggedValues, ReadError};
