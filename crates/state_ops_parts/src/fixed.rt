//! The fixed encoding of operations: all have one size.

ghost use Rattle.std.specs.Prelude.{◌≡◌, ◌++◌, replicate, option_map, OnOk, OnErr, IfSome};
ghost use Rattle.merkle_forest.specs.Codec.{Extends};
ghost use Rattle.state_ops_parts.specs.Operation as spec;

pub mod reading;

use crate::key::FixedKey;
use crate::operation::{COMMIT_CONTEXT, DELETE_CONTEXT, Operation, UPDATE_CONTEXT};
use crate::update::FixedUpdate;
use crate::value::FixedValue;
use merkle_forest::Family;
use merkle_forest::codec::{FixedSize, Write, or_undo};
pub use reading::read_operation;
use std::alloc::AllocError;

/// The size in bytes of every operation with keys `K`, values `V` and updates `S`. It is wide enough for keys and
/// values of any size.
/// In the Rust: `commonware_codec::FixedSize::SIZE` of an operation with `FixedEncoding`, a usize.
pub fn fixed_size<K: FixedKey, V: FixedValue, S: FixedUpdate>() -> u128
    ensures { result ≡ spec.fixed_size K.SIZE V.SIZE S.UPDATE_SIZE }
{
    let update = 1 + S::update_size();
    let commit = 1 + 1 + V::SIZE as u128 + 8;
    let delete = 1 + K::SIZE as u128;
    update.max(commit.max(delete))
}

// Appends `count` zeros. Out of memory, some of them may have been appended.
fn write_zeros(count: u128, out: &mut Vec<u8>) -> Result<(), AllocError>
    ensures ok { OnOk result (out.new.items ≡ out.old.items ++ replicate count 0) }
    ensures err { OnErr result (Extends out.old.items out.new.items) }
{
    for _ in 0..count {
        out.push(0)?;
    }
    Ok(())
}

// Appends the metadata of a commit. Out of memory, some of its bytes may have been appended.
fn write_metadata<V: FixedValue>(metadata: &Option<V>, out: &mut Vec<u8>) -> Result<(), AllocError>
    ensures ok { OnOk result (out.new.items ≡ out.old.items ++ spec.fixed_metadata V.SIZE
        (option_map V.encoding metadata.now)) }
    ensures err { OnErr result (Extends out.old.items out.new.items) }
    ensures value { OnOk result (IfSome metadata.now V.is_value) }
{
    match metadata {
        None => {
            out.push(0)?;
            write_zeros(V::SIZE as u128, out)
        }
        Some(value) => {
            out.push(1)?;
            value.write(out)
        }
    }
}

// Appends the operation without its padding. Out of memory, some of its bytes may have been appended.
fn write_unpadded<F, K, V, S>(
    operation: &Operation<F, S>,
    out: &mut Vec<u8>,
) -> Result<(), AllocError>
where
    F: Family,
    K: FixedKey,
    V: FixedValue,
    S: FixedUpdate<Key = K, Value = V>,
    ensures ok { OnOk result (out.new.items ≡ out.old.items
        ++ spec.unpadded (λ bytes. bytes) V.SIZE (spec.meaning_of K.encoding V.encoding S.encoding operation.now)) }
    ensures err { OnErr result (Extends out.old.items out.new.items) }
    ensures value { OnOk result (spec.IsValue K.is_value V.is_value S.is_value operation.now) }
{
    match operation {
        Operation::Delete(key) => {
            out.push(DELETE_CONTEXT)?;
            key.write(out)
        }
        Operation::Update(update) => {
            out.push(UPDATE_CONTEXT)?;
            update.write(out)
        }
        Operation::CommitFloor(metadata, floor) => {
            out.push(COMMIT_CONTEXT)?;
            write_metadata(metadata, out)?;
            floor.as_u64().write(out)
        }
    }
}

// Appends the operation and its padding. Out of memory, some of the bytes may have been appended.
fn write_padded<F, K, V, S>(
    operation: &Operation<F, S>,
    out: &mut Vec<u8>,
) -> Result<(), AllocError>
where
    F: Family,
    K: FixedKey,
    V: FixedValue,
    S: FixedUpdate<Key = K, Value = V>,
    ensures ok { OnOk result (out.new.items ≡ out.old.items
        ++ spec.fixed_encoding (λ bytes. bytes) K.SIZE V.SIZE S.UPDATE_SIZE
        (spec.meaning_of K.encoding V.encoding S.encoding operation.now)) }
    ensures err { OnErr result (Extends out.old.items out.new.items) }
    ensures value { OnOk result (spec.IsValue K.is_value V.is_value S.is_value operation.now) }
{
    let start = out.len();
    write_unpadded(operation, out)?;
    let written = (out.len() - start) as u128;
    write_zeros(fixed_size::<K, V, S>().saturating_sub(written), out)
}

/// Appends the operation's fixed encoding. It fails only when out of memory, and `out` is then as it was.
/// In the Rust: `qmdb::any::operation::OperationCodec::write_operation` of `FixedEncoding`, which never fails.
pub fn write_operation<F, K, V, S>(
    operation: &Operation<F, S>,
    out: &mut Vec<u8>,
) -> Result<(), AllocError>
where
    F: Family,
    K: FixedKey,
    V: FixedValue,
    S: FixedUpdate<Key = K, Value = V>,
    ensures ok { OnOk result (out.new.items ≡ out.old.items
        ++ spec.fixed_encoding (λ bytes. bytes) K.SIZE V.SIZE S.UPDATE_SIZE
        (spec.meaning_of K.encoding V.encoding S.encoding operation.now)) }
    ensures err { OnErr result (out.new.items ≡ out.old.items) }
    ensures value { OnOk result (spec.IsValue K.is_value V.is_value S.is_value operation.now) }
{
    let start = out.len();
    or_undo(write_padded(operation, out), out, start)
}
