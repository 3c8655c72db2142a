//! The state that a log leads to.

ghost use Rattle.std.specs.Prelude.{◌≡◌, [], IfOk, OnOk, OnErr};
ghost use Rattle.state_ops.specs.Operation.{meaning_of};
ghost use Rattle.auth_store_parts.specs.Map.{state_of};
ghost use Rattle.auth_store_parts.specs.History as spec;

use crate::state;
use merkle_forest::Family;
use state_ops::{FixedKey, FixedValue, Operation, OrderedOperation};
use std::alloc::{AllocError, Global};
use std::collections::BTreeMap;

/// Applies one operation to the state. It fails only when out of memory, and the state then stays as it was.
pub fn apply_operation<F: Family, K: FixedKey, V: FixedValue>(
    state: &mut BTreeMap<K, V>,
    operation: &OrderedOperation<F, K, V>,
) -> Result<(), AllocError>
    ensures ok { OnOk result (state_of K.encoding V.encoding state.new.entries
        ≡ spec.after_operation (meaning_of K.encoding V.encoding operation.now)
        (state_of K.encoding V.encoding state.old.entries)) }
    ensures err { OnErr result (state.new.entries ≡ state.old.entries) }
{
    match operation {
        Operation::Delete(key) => {
            state::remove(state, key);
            Ok(())
        }
        Operation::Update(update) => state::put(state, &update.key, &update.value),
        Operation::CommitFloor(_, _) => Ok(()),
    }
}

/// Applies operations to the state, one after the other. It fails only when out of memory; the state is then that after
/// some of them.
fn apply_operations<F: Family, K: FixedKey, V: FixedValue>(
    state: &mut BTreeMap<K, V>,
    operations: &[OrderedOperation<F, K, V>],
) -> Result<(), AllocError>
    ensures { OnOk result (state_of K.encoding V.encoding state.new.entries
        ≡ spec.replayed (state_of K.encoding V.encoding state.old.entries)
        (spec.meanings K.encoding V.encoding operations.now)) }
{
    for operation in operations {
        apply_operation(state, operation)?;
    }
    Ok(())
}

/// The state after all operations of a log. It fails only when out of memory.
pub fn latest_map_of<F: Family, K: FixedKey, V: FixedValue>(
    alloc: Global,
    operations: &[OrderedOperation<F, K, V>],
) -> Result<BTreeMap<K, V>, AllocError>
    ensures { IfOk result (λ state. state_of K.encoding V.encoding state.entries
        ≡ spec.replayed [] (spec.meanings K.encoding V.encoding operations.now)) }
{
    let mut state = BTreeMap::new(alloc);
    apply_operations(&mut state, operations)?;
    Ok(state)
}
