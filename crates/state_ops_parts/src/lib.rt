//! The operations of a log of changes to a state, and their encodings.
#![tactic(auto)]

pub mod codec;
pub mod copy;
pub mod display;
pub mod fixed;
pub mod hexadecimal;
pub mod key;
pub mod laws;
pub mod operation;
pub mod traits;
pub mod update;
pub mod value;
pub mod variable;
