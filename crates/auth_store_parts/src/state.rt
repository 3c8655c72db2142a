//! States: maps from keys to values.

ghost use Rattle.std.specs.Prelude.{◌≡◌, [], IfOk, OnOk, OnErr, option_map, MatchOption};
ghost use Rattle.auth_store_parts.specs.Map.{state_of, with_entry, without_key, value_at, next_key};

use state_ops::{FixedKey, FixedValue};
use std::alloc::AllocError;
use std::collections::BTreeMap;
use std::ops::Bound;

/// A state with copies of the keys and of the values. It fails only when out of memory.
pub fn copy_of<K: FixedKey, V: FixedValue>(
    state: &BTreeMap<K, V>,
) -> Result<BTreeMap<K, V>, AllocError>
    ensures { IfOk result (λ copy. state_of K.encoding V.encoding copy.entries
        ≡ state_of K.encoding V.encoding state.now.entries) }
{
    state.clone()
}

/// Gives the key a copy of the value. It fails only when out of memory, and the state then stays as it was.
pub fn put<K: FixedKey, V: FixedValue>(
    state: &mut BTreeMap<K, V>,
    key: &K,
    value: &V,
) -> Result<(), AllocError>
    ensures ok { OnOk result (state_of K.encoding V.encoding state.new.entries
        ≡ with_entry (state_of K.encoding V.encoding state.old.entries) (K.encoding key.now) (V.encoding value.now)) }
    ensures err { OnErr result (state.new.entries ≡ state.old.entries) }
{
    let key = key.clone()?;
    let value = value.clone()?;
    state.insert(key, value)?;
    Ok(())
}

/// Takes the key out.
pub fn remove<K: FixedKey, V: FixedValue>(state: &mut BTreeMap<K, V>, key: &K)
    ensures { state_of K.encoding V.encoding state.new.entries
        ≡ without_key (state_of K.encoding V.encoding state.old.entries) (K.encoding key.now) }
{
    state.remove(key);
}

/// The value at the key, or `None` where there is none.
pub fn get<'a, K: FixedKey, V: FixedValue>(state: &'a BTreeMap<K, V>, key: &K) -> Option<&'a V>
    ensures { option_map (λ v. V.encoding v.now) result
        ≡ value_at (state_of K.encoding V.encoding state.now.entries) (K.encoding key.now) }
{
    state.get(key)
}

/// The least key above the key, or the least of all where none is above. `None` in the empty state.
pub fn next_key<'a, K: FixedKey, V: FixedValue>(state: &'a BTreeMap<K, V>, key: &K) -> Option<&'a K>
    ensures { MatchOption result (state.now.entries ≡ []) (λ next. K.encoding next.now
        ≡ next_key (state_of K.encoding V.encoding state.now.entries) (K.encoding key.now)) }
{
    let mut above = state.range((Bound::Excluded(key), Bound::Unbounded));
    match above.next() {
        Some((next, _)) => Some(next),
        None => match state.first_key_value() {
            Some((least, _)) => Some(least),
            None => None,
        },
    }
}
