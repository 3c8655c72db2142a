//! Which places of a log operations take out that are appended to it.

ghost use Rattle.std.specs.Prelude.{◌≡◌, ◌++◌, ◌∷◌, [], IfOk, OnOk};
ghost use Rattle.state_ops.specs.Operation.{meaning_of};
ghost use Rattle.auth_store_parts.specs.History as spec;
ghost use Rattle.auth_store_index.specs.Growth.{place_at, taken_by, taken};

use auth_store_parts::history::Places;
use merkle_forest::Family;
use state_ops::{FixedKey, FixedValue, Operation, OrderedOperation};
use std::alloc::{AllocError, Global};

/// Appends the place of the key, where it has one. It fails only when out of memory.
fn push_place<K: FixedKey>(
    places: &Places<K>,
    key: &K,
    out: &mut Vec<usize>,
) -> Result<(), AllocError>
    ensures { OnOk result (out.new.items ≡ out.old.items ++ place_at places.now (K.encoding key.now)) }
{
    match places.get(key) {
        Some(place) => Ok(out.push(place)?),
        None => Ok(()),
    }
}

/// Appends the place that an operation takes out, where it takes out one; a commit takes out the last one. It fails
/// only when out of memory.
fn push_taken<F: Family, K: FixedKey, V: FixedValue>(
    places: &Places<K>,
    last: usize,
    operation: &OrderedOperation<F, K, V>,
    out: &mut Vec<usize>,
) -> Result<(), AllocError>
    ensures { OnOk result (out.new.items ≡ out.old.items
        ++ taken_by places.now last (meaning_of K.encoding V.encoding operation.now)) }
{
    match operation {
        Operation::Delete(key) => push_place(places, key, out),
        Operation::Update(update) => push_place(places, &update.key, out),
        Operation::CommitFloor(_, _) => Ok(out.push(last)?),
    }
}

/// The places that operations take out of a log with these places and its last commit here. It fails only when out of
/// memory.
pub fn taken_places<F: Family, K: FixedKey, V: FixedValue>(
    alloc: Global,
    places: &Places<K>,
    last: usize,
    operations: &[OrderedOperation<F, K, V>],
) -> Result<Vec<usize>, AllocError>
    ensures { IfOk result (λ out. out.items
        ≡ taken places.now last (spec.meanings K.encoding V.encoding operations.now)) }
{
    let mut out = Vec::new(alloc);
    for operation in operations {
        push_taken(places, last, operation, &mut out)?;
    }
    Ok(out)
}
