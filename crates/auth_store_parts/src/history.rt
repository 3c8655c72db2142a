//! Histories of a state, and the logs that stand for them.

pub mod activity;
pub mod chain;
pub mod changes;
mod fronts;
pub mod laws;
pub mod places;
pub mod ranked;
pub mod replay;

pub use activity::{activity_bits, inactivity_floor, inactivity_floor_by, inactivity_floor_from};
pub use chain::{first_after, is_batch_behind};
pub use changes::{batch_operations, changes_of};
pub use places::Places;
pub use ranked::RankedPlaces;
pub use replay::latest_map_of;
