//! The operations of a log, read one by one or one after the other.

ghost use Rattle.std.specs.Prelude.{◌≡◌, ◌<◌, ◌≤◌, ◌++◌, ◌∷◌, [], None, Some, length, slice_get, IfOk, IfErr, OnOk};
ghost use Rattle.auth_store_index.specs.Refusals.{IfLog};
ghost use Rattle.auth_store_ledger.specs.History.{meanings, update_fields};
ghost use Rattle.auth_store_proving.specs.Proving.{between};
ghost use Rattle.state_ops.specs.Operation.{meaning_of};

use auth_store_index::ReadError;
use auth_store_ledger::LoggedOperations;
use merkle_forest::Family;
use state_ops::{FixedKey, FixedValue, Operation, OrderedOperation, OrderedUpdate};
use std::alloc::{AllocError, Global};

/// The operation at a location of the log.
pub(crate) fn read_operation<F, K, V, L>(
    log: &mut L,
    location: u64,
) -> Result<OrderedOperation<F, K, V>, ReadError<L::Error>>
where
    F: Family,
    K: FixedKey,
    V: FixedValue,
    L: LoggedOperations<F, K, V>,
    requires may { L.readable log.old }
    requires within { location < length (L.log log.old) }
    ensures operation { IfOk result (λ operation. slice_get (L.log log.old) location
        ≡ Some (meaning_of K.encoding V.encoding operation)) }
    ensures same { L.log log.new ≡ L.log log.old }
    ensures leads { OnOk result (L.leads log.old log.new) }
    ensures refused { IfErr result (IfLog (L.leads log.old log.new) (L.refuses log.old log.new)) }
{
    match log.operation_at(location) {
        Ok(operation) => Ok(operation),
        Err(error) => Err(ReadError::Log(error)),
    }
}

/// The update at a location of the log, where one stands.
pub(crate) fn update_at<F, K, V, L>(
    log: &mut L,
    location: u64,
) -> Result<OrderedUpdate<K, V>, ReadError<L::Error>>
where
    F: Family,
    K: FixedKey,
    V: FixedValue,
    L: LoggedOperations<F, K, V>,
    requires may { L.readable log.old }
    requires stands { update_fields (slice_get (L.log log.old) location) ≡ None → ⊥ }
    ensures update { IfOk result (λ update. update_fields (slice_get (L.log log.old) location)
        ≡ Some (V.encoding update.value, K.encoding update.next_key)) }
    ensures same { L.log log.new ≡ L.log log.old }
    ensures leads { OnOk result (L.leads log.old log.new) }
    ensures refused { IfErr result (IfLog (L.leads log.old log.new) (L.refuses log.old log.new)) }
{
    let operation: OrderedOperation<F, K, V> = read_operation(log, location)?;
    match operation {
        Operation::Update(update) => Ok(update),
        Operation::Delete(_) => unreachable!(),
        Operation::CommitFloor(_, _) => unreachable!(),
    }
}

/// Appends an operation. It fails only when out of memory.
fn push<F: Family, K: FixedKey, V: FixedValue>(
    operations: &mut Vec<OrderedOperation<F, K, V>>,
    operation: OrderedOperation<F, K, V>,
) -> Result<(), AllocError>
    ensures { OnOk result (operations.new.items ≡ operations.old.items ++ operation ∷ []) }
{
    Ok(operations.push(operation)?)
}

/// The operations from `start` up to `stop`, read one after the other.
pub(crate) fn operations_between<F, K, V, L>(
    alloc: Global,
    log: &mut L,
    start: u64,
    stop: u64,
) -> Result<Vec<OrderedOperation<F, K, V>>, ReadError<L::Error>>
where
    F: Family,
    K: FixedKey,
    V: FixedValue,
    L: LoggedOperations<F, K, V>,
    requires may { L.readable log.old }
    requires ordered { start ≤ stop }
    requires within { stop ≤ length (L.log log.old) }
    ensures operations { IfOk result (λ operations. meanings K.encoding V.encoding operations.items
        ≡ between start stop (L.log log.old)) }
    ensures same { L.log log.new ≡ L.log log.old }
    ensures leads { OnOk result (L.leads log.old log.new) }
    ensures refused { IfErr result (IfLog (L.leads log.old log.new) (L.refuses log.old log.new)) }
{
    let mut operations = Vec::new(alloc);
    for location in start..stop {
        let operation = read_operation(log, location)?;
        push(&mut operations, operation)?;
    }
    Ok(operations)
}
