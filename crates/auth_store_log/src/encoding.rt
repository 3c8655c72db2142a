//! The records of operations, as bytes.

ghost use Rattle.std.specs.Prelude.{◌≡◌, IfOk, OnOk};
ghost use Rattle.state_ops.specs.Operation.{meaning_of};
ghost use Rattle.auth_store_parts.specs.History.{meanings};
ghost use Rattle.auth_store_log.specs.Records.{format_of, record_of, log_bytes, FloorFits, FloorsFit, IsRecorded};
ghost use Rattle.auth_store_log.specs.Records.{AreRecorded};

use merkle_forest::Family;
use state_ops::{FixedKey, FixedValue, OrderedOperation, OrderedUpdate};
use state_ops_parts::fixed::write_operation;
use std::alloc::{AllocError, Global};

/// The record of an operation, of which it is read again where its floor, if it is a commit, is at most the greatest
/// number of operations. It fails only when out of memory.
pub fn record_bytes<F: Family, K: FixedKey, V: FixedValue>(
    alloc: Global,
    operation: &OrderedOperation<F, K, V>,
) -> Result<Vec<u8>, AllocError>
    ensures bytes { IfOk result (λ bytes. bytes.items ≡ record_of (format_of (K.after tt) (V.after tt) K.SIZE V.SIZE)
        (meaning_of K.encoding V.encoding operation.now)) }
    ensures recorded { OnOk result (FloorFits (meaning_of K.encoding V.encoding operation.now)
        → IsRecorded (format_of (K.after tt) (V.after tt) K.SIZE V.SIZE)
        (meaning_of K.encoding V.encoding operation.now)) }
{
    let mut bytes = Vec::new(alloc);
    write_operation::<F, K, V, OrderedUpdate<K, V>>(operation, &mut bytes)?;
    Ok(bytes)
}

/// The records of operations, one behind the other, of which they are read again where the floors of their commits are
/// at most the greatest number of operations. It fails only when out of memory.
pub fn bytes_of<F: Family, K: FixedKey, V: FixedValue>(
    alloc: Global,
    operations: &[OrderedOperation<F, K, V>],
) -> Result<Vec<u8>, AllocError>
    ensures bytes { IfOk result (λ bytes. bytes.items
        ≡ log_bytes K.SIZE V.SIZE (meanings K.encoding V.encoding operations.now)) }
    ensures recorded { OnOk result (FloorsFit (meanings K.encoding V.encoding operations.now)
        → AreRecorded (format_of (K.after tt) (V.after tt) K.SIZE V.SIZE)
        (meanings K.encoding V.encoding operations.now)) }
{
    let mut bytes = Vec::new(alloc);
    for operation in operations {
        let record = record_bytes(alloc, operation)?;
        bytes.extend_from_slice(&record)?;
    }
    Ok(bytes)
}
