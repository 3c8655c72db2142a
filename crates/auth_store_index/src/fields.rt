//! Which keys of a batch are as they were, and the operations of those that are not.

ghost use Rattle.std.specs.Prelude.{◌≡◌, ◌+◌, ◌-◌, ◌≤◌, ◌++◌, ◌∷◌, ◌<◌, ℕ, List, [], length, is_some, IfOk, IfErr};
ghost use Rattle.std.specs.Prelude.{OnOk, MatchOption};
ghost use Rattle.std.specs.Str.{bytes_eq};
ghost use Rattle.auth_store_parts.specs.Map.{state_of, value_at, next_key};
ghost use Rattle.auth_store_parts.specs.History as spec;
ghost use Rattle.auth_store_parts.specs.Places.{places_of};
ghost use Rattle.auth_store_index.specs.Refusals.{IfLog};
ghost use Rattle.auth_store_index.specs.Sources.{IsOwn, reads_for, source_value, value_there};

use crate::values::{LoggedValues, ReadError, Source, has_value, value_from};
use merkle_forest::Family;
use state_ops::update::Ordered;
use state_ops::{FixedKey, FixedValue, Operation, OrderedOperation};
use std::alloc::AllocError;
use std::collections::BTreeMap;
use std::ops::Bound;

/// Whether the key is there.
pub(crate) fn is_there<K: FixedKey, X>(state: &BTreeMap<K, X>, key: &K) -> bool
    ensures { (value : X → List ℕ) → result
        ≡ is_some (value_at (state_of K.encoding value state.now.entries) (K.encoding key.now)) }
{
    state.get(key).is_some()
}

/// The least key above the key, or the least of all where none is above. `None` in the empty state.
fn next_key<'a, K: FixedKey, X>(state: &'a BTreeMap<K, X>, key: &K) -> Option<&'a K>
    ensures { MatchOption result (state.now.entries ≡ []) (λ next. (value : X → List ℕ) → K.encoding next.now
        ≡ next_key (state_of K.encoding value state.now.entries) (K.encoding key.now)) }
{
    let mut above = state.range((Bound::Excluded(key), Bound::Unbounded));
    match above.next() {
        Some((next, _)) => Some(next),
        None => match state.first_key_value() {
            Some((least, _)) => Some(least),
            None => None,
        },
    }
}

/// Whether the key has this next key.
fn is_next<K: FixedKey, X>(state: &BTreeMap<K, X>, key: &K, next: &K) -> bool
    requires { 0 < length state.now.entries }
    ensures { (value : X → List ℕ) → result ≡ bytes_eq
        (next_key (state_of K.encoding value state.now.entries) (K.encoding key.now)) (K.encoding next.now) }
{
    let least = next_key(state, key).unwrap();
    least.cmp(next).is_eq()
}

/// Whether the key has a place where the value of this source stands, and this next key. Where it has another next key,
/// it reads nothing.
fn has_fields<K: FixedKey, V: FixedValue, L: LoggedValues<V>>(
    room: &mut Vec<u8>,
    log: &mut L,
    old: &BTreeMap<K, usize>,
    key: &K,
    source: &Source<V>,
    next: &K,
) -> Result<bool, ReadError<L::Error>>
    requires may { L.readable log.old }
    requires places { state_of K.encoding (λ place. place ∷ []) old.now.entries ≡ places_of (L.log log.old) }
    requires own { IsOwn (places_of (L.log log.old)) (K.encoding key.now) source.now }
    ensures what { IfOk result (λ has. has ≡ spec.has_fields
        (state_of K.encoding (value_there (L.log log.old)) old.now.entries)
        (K.encoding key.now) (source_value V.encoding (L.log log.old) source.now) (K.encoding next.now)) }
    ensures same { L.log log.new ≡ L.log log.old }
    ensures few { L.reads log.new ≤ L.reads log.old + (1 - reads_for source.now) }
    ensures leads { OnOk result (L.leads log.old log.new) }
    ensures refused { IfErr result (IfLog (L.leads log.old log.new) (L.refuses log.old log.new)) }
{
    match old.get(key) {
        None => Ok(false),
        Some(place) => {
            if !is_next(old, key, next) {
                return Ok(false);
            }
            has_value(room, log, *place, source)
        }
    }
}

/// Appends an element. It fails only when out of memory.
pub(crate) fn push<T: Drop>(out: &mut Vec<T>, element: T) -> Result<(), AllocError>
    ensures { OnOk result (out.new.items ≡ out.old.items ++ element ∷ []) }
{
    Ok(out.push(element)?)
}

/// Appends an update of the key to the value of this source and this next key, where it does not have them so. It fails
/// when out of memory, and where the log isn't read.
pub(crate) fn push_update<F: Family, K: FixedKey, V: FixedValue, L: LoggedValues<V>>(
    room: &mut Vec<u8>,
    log: &mut L,
    old: &BTreeMap<K, usize>,
    key: &K,
    source: &Source<V>,
    next: &K,
    out: &mut Vec<OrderedOperation<F, K, V>>,
) -> Result<(), ReadError<L::Error>>
    requires may { L.readable log.old }
    requires places { state_of K.encoding (λ place. place ∷ []) old.now.entries ≡ places_of (L.log log.old) }
    requires own { IsOwn (places_of (L.log log.old)) (K.encoding key.now) source.now }
    ensures what { OnOk result (spec.meanings K.encoding V.encoding out.new.items ≡ spec.meanings K.encoding V.encoding
        out.old.items
        ++ spec.update_to (state_of K.encoding (value_there (L.log log.old)) old.now.entries)
        (K.encoding key.now) (source_value V.encoding (L.log log.old) source.now) (K.encoding next.now)) }
    ensures same { L.log log.new ≡ L.log log.old }
    ensures few { L.reads log.new ≤ L.reads log.old + 1 }
    ensures leads { OnOk result (L.leads log.old log.new) }
    ensures refused { IfErr result (IfLog (L.leads log.old log.new) (L.refuses log.old log.new)) }
{
    if has_fields(room, log, old, key, source, next)? {
        return Ok(());
    }
    let update = Ordered {
        key: key.clone()?,
        value: value_from(log, source)?,
        next_key: next.clone()?,
    };
    Ok(push(out, Operation::Update(update))?)
}
