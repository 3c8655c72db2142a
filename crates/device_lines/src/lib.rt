//! Lines of cases of a device that no store has: its calls, its openings, its settings, and what it refuses.
#![tactic(auto)]

pub mod calls;
pub mod openings;
pub mod refusals;
pub mod settings;
