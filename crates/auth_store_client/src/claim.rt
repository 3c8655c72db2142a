//! What may be said of a state.

use merkle_forest::Family;
use state_ops::{FixedKey, FixedValue, OrderedOperation};

/// What is said of a state and its log. Locations count operations (own).
#[derive(Debug, PartialEq, Drop)]
pub enum Claim<F: Family, K: FixedKey, V: FixedValue> {
    /// The key has this value.
    Value {
        key: K,
        value: V,
    },
    /// The key is not there.
    Absent {
        key: K,
    },
    /// The operation stands at the location and is active.
    Active {
        location: u64,
        operation: OrderedOperation<F, K, V>,
    },
    /// The operations stand from the location on, at least one, and each is active as its bit says.
    Range {
        start: u64,
        operations: Vec<OrderedOperation<F, K, V>>,
        active: Vec<bool>,
    },
    /// The operations stand from the location on, at least one.
    Slice {
        start: u64,
        operations: Vec<OrderedOperation<F, K, V>>,
    },
}
