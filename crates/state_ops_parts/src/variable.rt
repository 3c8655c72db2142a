//! The variable encoding of operations: each is as long as its fields.

ghost use Rattle.std.specs.Prelude.{◌≡◌, ◌<◌, ◌^◌, ◌++◌, length, OnOk, OnErr};
ghost use Rattle.merkle_forest.specs.Codec.{Extends};
ghost use Rattle.state_ops_parts.specs.Operation as spec;

pub mod reading;

use crate::key::Key;
use crate::operation::{COMMIT_CONTEXT, DELETE_CONTEXT, Operation, UPDATE_CONTEXT};
use crate::update::{Ordered, Unordered, Update};
use crate::value::{VariableEncoding, VariableValue};
use merkle_forest::Family;
use merkle_forest::codec::{EncodeSize, Write, or_undo};
pub use reading::read_operation;
use std::alloc::AllocError;

// Appends the operation. Out of memory, some of its bytes may have been appended.
fn write_parts<F, K, V, S>(operation: &Operation<F, S>, out: &mut Vec<u8>) -> Result<(), AllocError>
where
    F: Family,
    K: Key,
    V: VariableValue,
    S: Update<Key = K, Value = V>,
    ensures ok { OnOk result (out.new.items ≡ out.old.items
        ++ spec.variable_encoding (λ bytes. bytes) (spec.meaning_of K.encoding V.encoding S.encoding operation.now)) }
    ensures err { OnErr result (Extends out.old.items out.new.items) }
    ensures value { OnOk result (spec.IsValue K.is_value V.is_value S.is_value operation.now) }
{
    match operation {
        Operation::Delete(key) => {
            out.push(DELETE_CONTEXT)?;
            key.write(out)
        }
        Operation::Update(update) => {
            out.push(UPDATE_CONTEXT)?;
            update.write(out)
        }
        Operation::CommitFloor(metadata, floor) => {
            out.push(COMMIT_CONTEXT)?;
            metadata.write(out)?;
            floor.write(out)
        }
    }
}

/// Appends the operation's variable encoding. It fails only when out of memory, and `out` is then as it was.
/// In the Rust: `qmdb::any::operation::OperationCodec::write_operation` of `VariableEncoding`, which never fails.
pub fn write_operation<F, K, V, S>(
    operation: &Operation<F, S>,
    out: &mut Vec<u8>,
) -> Result<(), AllocError>
where
    F: Family,
    K: Key,
    V: VariableValue,
    S: Update<Key = K, Value = V>,
    ensures ok { OnOk result (out.new.items ≡ out.old.items
        ++ spec.variable_encoding (λ bytes. bytes) (spec.meaning_of K.encoding V.encoding S.encoding operation.now)) }
    ensures err { OnErr result (out.new.items ≡ out.old.items) }
    ensures value { OnOk result (spec.IsValue K.is_value V.is_value S.is_value operation.now) }
{
    let start = out.len();
    or_undo(write_parts(operation, out), out, start)
}

/// The length in bytes of the operation's variable encoding.
/// In the Rust: `commonware_codec::EncodeSize::encode_size` of an operation with `VariableEncoding`.
pub fn operation_size<F, K, V, S>(operation: &Operation<F, S>) -> usize
where
    F: Family,
    K: Key + EncodeSize,
    V: VariableValue,
    S: Update<Key = K, Value = V> + EncodeSize,
    requires { length (spec.variable_encoding (λ bytes. bytes)
        (spec.meaning_of K.encoding V.encoding S.encoding operation.now)) < 2 ^ 64 }
    ensures { result ≡ length (spec.variable_encoding (λ bytes. bytes)
        (spec.meaning_of K.encoding V.encoding S.encoding operation.now)) }
{
    1 + match operation {
        Operation::Delete(key) => key.encode_size(),
        Operation::Update(update) => update.encode_size(),
        Operation::CommitFloor(metadata, floor) => metadata.encode_size() + floor.encode_size(),
    }
}

/// The length of an ordered operation's variable encoding, by `operation_size`.
/// In the Rust: `EncodeSize` of `qmdb::any::operation::Operation`, one impl for all updates.
impl<F: Family, K: Key + EncodeSize, V: VariableValue> EncodeSize
    for Operation<F, Ordered<K, VariableEncoding<V>>> {
    fn encode_size(&self) -> usize {
        operation_size::<F, K, V, Ordered<K, VariableEncoding<V>>>(self)
    }
}

/// The length of an unordered operation's variable encoding, by `operation_size`.
/// In the Rust: `EncodeSize` of `qmdb::any::operation::Operation`, one impl for all updates.
impl<F: Family, K: Key + EncodeSize, V: VariableValue> EncodeSize
    for Operation<F, Unordered<K, VariableEncoding<V>>> {
    fn encode_size(&self) -> usize {
        operation_size::<F, K, V, Unordered<K, VariableEncoding<V>>>(self)
    }
}
