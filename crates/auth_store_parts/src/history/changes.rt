//! The operations that lead from one state to another.

ghost use Rattle.std.specs.Prelude.{◌≡◌, ◌++◌, ◌<◌, [], length, IfOk, OnOk};
ghost use Rattle.std.specs.Str.{bytes_eq};
ghost use Rattle.auth_store_parts.specs.Batch as words;
ghost use Rattle.auth_store_parts.specs.Batch.{map_after};
ghost use Rattle.auth_store_parts.specs.Map.{state_of, next_key};
ghost use Rattle.auth_store_parts.specs.History as spec;

use super::replay::latest_map_of;
use crate::batch::{Batch, apply_batch};
use crate::state;
use merkle_forest::Family;
use merkle_forest::codec::Write;
use state_ops::update::Ordered;
use state_ops::{FixedKey, FixedValue, Operation, OrderedOperation};
use std::alloc::{AllocError, Global};
use std::collections::BTreeMap;

/// Whether two values have one encoding. They are written into `room`, whose bytes are of no use before or after. It
/// fails only when out of memory.
pub fn is_same_value<V: FixedValue>(
    room: &mut Vec<u8>,
    value: &V,
    other: &V,
) -> Result<bool, AllocError>
    ensures { IfOk result (λ same. same ≡ bytes_eq (V.encoding value.now) (V.encoding other.now)) }
{
    room.clear();
    value.write(room)?;
    let middle = room.len();
    other.write(room)?;
    let (left, right) = room.split_at(middle);
    Ok(left == right)
}

/// The least key above the key, or the least of all where none is above.
fn next_of<'a, K: FixedKey, V: FixedValue>(state: &'a BTreeMap<K, V>, key: &K) -> &'a K
    requires { 0 < length state.now.entries }
    ensures { K.encoding result.now ≡ next_key (state_of K.encoding V.encoding state.now.entries) (K.encoding key.now) }
{
    state::next_key(state, key).unwrap()
}

/// Whether the key has this next key in the state.
fn is_next<K: FixedKey, V: FixedValue>(state: &BTreeMap<K, V>, key: &K, next: &K) -> bool
    requires { 0 < length state.now.entries }
    ensures { result ≡ bytes_eq (next_key (state_of K.encoding V.encoding state.now.entries) (K.encoding key.now))
        (K.encoding next.now) }
{
    next_of(state, key).cmp(next).is_eq()
}

/// Whether the state has the key with this value and this next key. It fails only when out of memory.
fn has_fields<K: FixedKey, V: FixedValue>(
    room: &mut Vec<u8>,
    state: &BTreeMap<K, V>,
    key: &K,
    value: &V,
    next: &K,
) -> Result<bool, AllocError>
    ensures { IfOk result (λ has. has ≡ spec.has_fields (state_of K.encoding V.encoding state.now.entries)
        (K.encoding key.now) (V.encoding value.now) (K.encoding next.now)) }
{
    match state::get(state, key) {
        None => Ok(false),
        Some(before) => Ok(is_same_value(room, before, value)? && is_next(state, key, next)),
    }
}

/// Appends a delete where the new state lacks the key. It fails only when out of memory.
fn push_delete<F: Family, K: FixedKey, V: FixedValue>(
    new: &BTreeMap<K, V>,
    key: &K,
    out: &mut Vec<OrderedOperation<F, K, V>>,
) -> Result<(), AllocError>
    ensures { OnOk result (spec.meanings K.encoding V.encoding out.new.items ≡ spec.meanings K.encoding V.encoding
        out.old.items
        ++ spec.delete_of (state_of K.encoding V.encoding new.now.entries) (K.encoding key.now)) }
{
    if state::get(new, key).is_some() {
        return Ok(());
    }
    Ok(out.push(Operation::Delete(key.clone()?))?)
}

/// Appends an update of the key to this value and this next key, where the old state does not have it so. It fails only
/// when out of memory.
fn push_update<F: Family, K: FixedKey, V: FixedValue>(
    room: &mut Vec<u8>,
    old: &BTreeMap<K, V>,
    key: &K,
    value: &V,
    next: &K,
    out: &mut Vec<OrderedOperation<F, K, V>>,
) -> Result<(), AllocError>
    ensures { OnOk result (spec.meanings K.encoding V.encoding out.new.items ≡ spec.meanings K.encoding V.encoding
        out.old.items
        ++ spec.update_to (state_of K.encoding V.encoding old.now.entries)
        (K.encoding key.now) (V.encoding value.now) (K.encoding next.now)) }
{
    if has_fields(room, old, key, value, next)? {
        return Ok(());
    }
    let update = Ordered {
        key: key.clone()?,
        value: value.clone()?,
        next_key: next.clone()?,
    };
    Ok(out.push(Operation::Update(update))?)
}

/// Appends a delete for each key of the old state that the new one lacks. It fails only when out of memory.
fn push_deletes<F: Family, K: FixedKey, V: FixedValue>(
    old: &BTreeMap<K, V>,
    new: &BTreeMap<K, V>,
    out: &mut Vec<OrderedOperation<F, K, V>>,
) -> Result<(), AllocError>
    ensures { OnOk result (spec.meanings K.encoding V.encoding out.new.items ≡ spec.meanings K.encoding V.encoding
        out.old.items
        ++ spec.deletes (state_of K.encoding V.encoding old.now.entries)
        (state_of K.encoding V.encoding new.now.entries)) }
{
    for (key, _) in old {
        push_delete(new, key, out)?;
    }
    Ok(())
}

/// Appends an update for each key of the new state that isn't kept. Each key's next one is that of the entry behind it,
/// and the first one behind the last. It fails only when out of memory.
fn push_updates<F: Family, K: FixedKey, V: FixedValue>(
    alloc: Global,
    old: &BTreeMap<K, V>,
    new: &BTreeMap<K, V>,
    out: &mut Vec<OrderedOperation<F, K, V>>,
) -> Result<(), AllocError>
    ensures { let next = state_of K.encoding V.encoding new.now.entries in
        OnOk result (spec.meanings K.encoding V.encoding out.new.items ≡ spec.meanings K.encoding V.encoding
        out.old.items
        ++ spec.updates next (state_of K.encoding V.encoding old.now.entries) next) }
{
    let mut entries = new.iter();
    let Some((first, mut value)) = entries.next() else {
        return Ok(());
    };
    let mut key = first;
    let mut room = Vec::new(alloc);
    for (next, later) in entries {
        push_update(&mut room, old, key, value, next, out)?;
        key = next;
        value = later;
    }
    push_update(&mut room, old, key, value, first, out)
}

/// The operations that lead from the old state to the new one, without the commit. It fails only when out of memory.
pub fn batch_operations<F: Family, K: FixedKey, V: FixedValue>(
    alloc: Global,
    old: &BTreeMap<K, V>,
    new: &BTreeMap<K, V>,
) -> Result<Vec<OrderedOperation<F, K, V>>, AllocError>
    ensures { IfOk result (λ operations. spec.meanings K.encoding V.encoding operations.items
        ≡ spec.batch_operations (state_of K.encoding V.encoding old.now.entries)
        (state_of K.encoding V.encoding new.now.entries)) }
{
    let mut out = Vec::new(alloc);
    push_deletes(old, new, &mut out)?;
    push_updates(alloc, old, new, &mut out)?;
    Ok(out)
}

/// The operations that a batch adds to a log, without the commit. It fails only when out of memory.
pub fn changes_of<F: Family, K: FixedKey, V: FixedValue>(
    alloc: Global,
    log: &[OrderedOperation<F, K, V>],
    batch: &Batch<K, V>,
) -> Result<Vec<OrderedOperation<F, K, V>>, AllocError>
    ensures { let state = spec.replayed [] (spec.meanings K.encoding V.encoding log.now) in
        let said = words.meanings K.encoding V.encoding batch.now.words.items in
        IfOk result (λ added. spec.meanings K.encoding V.encoding added.items ≡ spec.batch_operations state
        (map_after said state)) }
{
    let old = latest_map_of(alloc, log)?;
    let new = apply_batch(state::copy_of(&old)?, batch)?;
    batch_operations(alloc, &old, &new)
}
