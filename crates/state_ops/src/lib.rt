//! The operations of a log of changes to a state, and their encodings; the store's are ordered ones of one size. The
//! crate ports `qmdb::any::operation` of commonware-storage 2026.10.0; `In the Rust` names what an item is there.
//! Operations of all kinds stand in `state_ops_parts`, which it re-exports.
#![tactic(auto)]

pub mod ordered;
pub mod spans;

pub use ordered::{OrderedOperation, OrderedUpdate};
pub use state_ops_parts::codec::OperationCodec;
pub use state_ops_parts::key::{FixedKey, Key};
pub use state_ops_parts::operation::{COMMIT_CONTEXT, DELETE_CONTEXT, Operation, UPDATE_CONTEXT};
pub use state_ops_parts::traits::{Committable, Floored};
pub use state_ops_parts::update::{Parts, Update};
pub use state_ops_parts::value::{
    FixedEncoding, FixedValue, ValueEncoding, VariableEncoding, VariableValue,
};
pub use state_ops_parts::{
    codec, copy, display, fixed, hexadecimal, key, laws, operation, traits, update, value, variable,
};
