//! Values of a state, and whether their encoding has a fixed size.

use merkle_forest::codec::{EncodeSize, Faithful, FixedBytes, FixedSize, Read};
use std::marker::PhantomData;

/// A value whose encoding has a fixed size.
/// In the Rust: `qmdb::any::value::FixedValue`, which every such type is by itself.
pub trait FixedValue: Read<Cfg = ()> + FixedSize + Faithful {
    /// Each value may be read.
    ghost within: { (v : Self) → Self.is_within tt v };
}

impl<const M: usize> FixedValue for FixedBytes<M> {
    ghost within = { λ _. tt };
}

impl FixedValue for u64 {
    ghost within = { λ _. tt };
}

/// A value of any size. In the Rust: `qmdb::any::value::VariableValue`.
pub trait VariableValue: Read + EncodeSize + Faithful {}

impl<T: Read + EncodeSize + Faithful> VariableValue for T {}

/// Whether a value's encoding has a fixed size. In the Rust: `qmdb::any::value::ValueEncoding`.
pub trait ValueEncoding: Drop {
    /// The value. In the Rust: `qmdb::any::value::ValueEncoding::Value`.
    type Value: Read + Faithful;
}

/// Values of a fixed size. In the Rust: `qmdb::any::value::FixedEncoding`.
#[derive(Clone, Copy, Debug, PartialEq, Eq)]
pub struct FixedEncoding<V>(PhantomData<V>);

impl<V: FixedValue> ValueEncoding for FixedEncoding<V> {
    type Value = V;
}

/// Values of any size. In the Rust: `qmdb::any::value::VariableEncoding`.
#[derive(Clone, Copy, Debug, PartialEq, Eq)]
pub struct VariableEncoding<V>(PhantomData<V>);

impl<V: VariableValue> ValueEncoding for VariableEncoding<V> {
    type Value = V;
}
