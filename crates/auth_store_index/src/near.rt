//! The operations of a batch, from the places of keys and the values that are read at them, by the keys near those that
//! the words name.
//!
//! A key that no word names is updated only where its next key changes. Then the next key that it had goes, or the one
//! that it gets comes, so that it is the key before one that a word names. For m words in an index of n keys some
//! 2m keys are looked at, in m log n steps.
//!
//!     index   a ─▶ c ─▶ e ─▶ g ─▶ a        words: delete c, put d, put g
//!     gone    c                            deleted
//!     near    a, d, e, g                   updated where they are not as they were: a and d, and g with another value

ghost use Rattle.std.specs.Prelude.{◌≡◌, ◌+◌, ◌*◌, ◌≤◌, ◌++◌, ◌∷◌, ℕ, List, [], Some, length, map, option_map, IfOk};
ghost use Rattle.std.specs.Prelude.{IfErr, OnOk, MatchOption};
ghost use Rattle.std.specs.BTreeMap.Range.{IsLtBy};
ghost use Rattle.state_ops.specs.Operation as meaning;
ghost use Rattle.auth_store_parts.specs.Batch as words;
ghost use Rattle.auth_store_parts.specs.Batch.{map_after};
ghost use Rattle.auth_store_parts.specs.Chains.{first_of};
ghost use Rattle.auth_store_parts.specs.Map.{Map, above, state_of, value_at};
ghost use Rattle.auth_store_parts.specs.Places.{places_of};
ghost use Rattle.auth_store_parts.specs.History as spec;
ghost use Rattle.auth_store_index.specs.Near.{IsTold, below, between, gone_after, key_of, near_after, next_near};
ghost use Rattle.auth_store_index.specs.Near.{next_round, prev_key, staying, with_gone, with_kept};
ghost use Rattle.auth_store_index.specs.Refusals.{IfLog};
ghost use Rattle.auth_store_index.specs.Sources.{AreOwn, source_value, value_there};

use crate::changes::apply_batch;
use crate::fields::{is_there, push, push_update};
use crate::values::{LoggedValues, ReadError, Source};
use auth_store_parts::history::Places;
use auth_store_parts::{Batch, Word};
use merkle_forest::Family;
use state_ops::{FixedKey, FixedValue, Operation, OrderedOperation};
use std::alloc::{AllocError, Global};
use std::collections::BTreeMap;
use std::collections::btree_map::Range;
use std::ops::Bound;

/// The key that a word names.
fn named_key<K: FixedKey, V: FixedValue>(word: &Word<K, V>) -> &K
    ensures { K.encoding result.now ≡ key_of (words.meaning_of K.encoding V.encoding word.now) }
{
    match word {
        Word::Put(key, _) => key,
        Word::Delete(key) => key,
    }
}

/// The greatest key below the key with its value, or the greatest of all where none is below. `None` in the empty
/// state.
pub fn entry_before<'a, K: FixedKey, X>(
    state: &'a BTreeMap<K, X>,
    key: &K,
) -> Option<(&'a K, &'a X)>
    ensures { MatchOption result (state.now.entries ≡ []) (λ found. (value : X → List ℕ)
        → let seen = state_of K.encoding value state.now.entries in
        (K.encoding found.0.now ≡ prev_key seen (K.encoding key.now))
        × (value_at seen (K.encoding found.0.now) ≡ Some (value found.1.now))) }
{
    let mut below = state.range((Bound::Unbounded, Bound::Excluded(key)));
    match below.next_back() {
        Some((before, value)) => Some((before, value)),
        None => match state.last_key_value() {
            Some((last, value)) => Some((last, value)),
            None => None,
        },
    }
}

/// Takes a key to those that go, where it was there and nothing is put at it. It fails only when out of memory.
fn add_gone<K: FixedKey, V: FixedValue>(
    index: &BTreeMap<K, usize>,
    puts: &BTreeMap<K, Source<V>>,
    gone: &mut BTreeMap<K, usize>,
    key: &K,
) -> Result<(), AllocError>
    ensures { OnOk result ((log : List meaning.Operation)
        → state_of K.encoding (value_there log) gone.new.entries
        ≡ with_gone (state_of K.encoding (value_there log) index.now.entries)
        (state_of K.encoding (source_value V.encoding log) puts.now.entries)
        (state_of K.encoding (value_there log) gone.old.entries) (K.encoding key.now)) }
{
    if is_there(puts, key) {
        return Ok(());
    }
    match index.get(key) {
        None => Ok(()),
        Some(place) => {
            let key = key.clone()?;
            gone.insert(key, *place)?;
            Ok(())
        }
    }
}

/// The keys that go by a batch which puts these values, with the places that they had. It fails only when out of
/// memory.
fn gone_by<K: FixedKey, V: FixedValue>(
    alloc: Global,
    index: &BTreeMap<K, usize>,
    puts: &BTreeMap<K, Source<V>>,
    batch: &Batch<K, V>,
) -> Result<BTreeMap<K, usize>, AllocError>
    ensures { IfOk result (λ gone. (log : List meaning.Operation)
        → state_of K.encoding (value_there log) gone.entries
        ≡ gone_after (state_of K.encoding (value_there log) index.now.entries)
        (state_of K.encoding (source_value V.encoding log) puts.now.entries) []
        (words.meanings K.encoding V.encoding batch.now.words.items)) }
{
    let mut gone = BTreeMap::new(alloc);
    for word in &batch.words {
        add_gone(index, puts, &mut gone, named_key(word))?;
    }
    Ok(gone)
}

/// Takes a key to those that are near, with its place in the log, where it neither goes nor is among them. It fails
/// only when out of memory.
fn add_kept<K: FixedKey, V: FixedValue>(
    gone: &BTreeMap<K, usize>,
    near: &mut BTreeMap<K, Source<V>>,
    key: &K,
    place: usize,
) -> Result<(), AllocError>
    ensures near { OnOk result ((log : List meaning.Operation) (old : Map)
        → value_at old (K.encoding key.now) ≡ Some (value_there log place)
        → state_of K.encoding (source_value V.encoding log) near.new.entries
        ≡ with_kept old (state_of K.encoding (value_there log) gone.now.entries)
        (state_of K.encoding (source_value V.encoding log) near.old.entries) (K.encoding key.now)) }
    ensures own { OnOk result ((places : Map) → AreOwn K.encoding places near.old.entries
        → value_at places (K.encoding key.now) ≡ Some (place ∷ []) → AreOwn K.encoding places near.new.entries) }
    ensures few { OnOk result (length near.new.entries ≤ length near.old.entries + 1) }
{
    if is_there(gone, key) || is_there(near, key) {
        return Ok(());
    }
    let key = key.clone()?;
    near.insert(key, Source::Logged(place))?;
    Ok(())
}

/// Takes to those that are near the key before this one. It fails only when out of memory.
fn add_before<K: FixedKey, V: FixedValue>(
    index: &BTreeMap<K, usize>,
    gone: &BTreeMap<K, usize>,
    near: &mut BTreeMap<K, Source<V>>,
    key: &K,
) -> Result<(), AllocError>
    ensures near { OnOk result ((log : List meaning.Operation)
        → let old = state_of K.encoding (value_there log) index.now.entries in
        state_of K.encoding (source_value V.encoding log) near.new.entries
        ≡ with_kept old (state_of K.encoding (value_there log) gone.now.entries)
        (state_of K.encoding (source_value V.encoding log) near.old.entries) (prev_key old (K.encoding key.now))) }
    ensures own { let places = state_of K.encoding (λ place. place ∷ []) index.now.entries in
        OnOk result (AreOwn K.encoding places near.old.entries → AreOwn K.encoding places near.new.entries) }
    ensures few { OnOk result (length near.new.entries ≤ length near.old.entries + 1) }
{
    match entry_before(index, key) {
        None => Ok(()),
        Some((before, place)) => add_kept(gone, near, before, *place),
    }
}

/// Takes to those that are near the keys before all that a batch names. It fails only when out of memory.
fn add_all_before<K: FixedKey, V: FixedValue>(
    index: &BTreeMap<K, usize>,
    gone: &BTreeMap<K, usize>,
    near: &mut BTreeMap<K, Source<V>>,
    batch: &Batch<K, V>,
) -> Result<(), AllocError>
    ensures near { OnOk result ((log : List meaning.Operation)
        → state_of K.encoding (source_value V.encoding log) near.new.entries
        ≡ near_after (state_of K.encoding (value_there log) index.now.entries)
        (state_of K.encoding (value_there log) gone.now.entries)
        (state_of K.encoding (source_value V.encoding log) near.old.entries)
        (words.meanings K.encoding V.encoding batch.now.words.items)) }
    ensures own { let places = state_of K.encoding (λ place. place ∷ []) index.now.entries in
        OnOk result (AreOwn K.encoding places near.old.entries → AreOwn K.encoding places near.new.entries) }
    ensures few { OnOk result (length near.new.entries
        ≤ length near.old.entries + length batch.now.words.items) }
{
    for word in &batch.words {
        add_before(index, gone, near, named_key(word))?;
    }
    Ok(())
}

/// The first of some entries whose key doesn't go.
fn first_staying<'a, K: FixedKey>(
    entries: Range<'a, K, usize>,
    gone: &BTreeMap<K, usize>,
) -> Option<&'a K>
    ensures { (value : ℕ → List ℕ) → option_map (λ k. K.encoding k.now) result
        ≡ first_of (staying (state_of K.encoding value gone.now.entries) (state_of K.encoding value entries.entry)) }
{
    for (key, _) in entries {
        if !is_there(gone, key) {
            return Some(key);
        }
    }
    None
}

/// The first key between two keys that doesn't go.
fn staying_between<'a, K: FixedKey>(
    index: &'a BTreeMap<K, usize>,
    gone: &BTreeMap<K, usize>,
    low: &K,
    high: &K,
) -> Option<&'a K>
    requires { IsLtBy K.cmp low.now high.now }
    ensures { (value : ℕ → List ℕ) → option_map (λ k. K.encoding k.now) result
        ≡ first_of (staying (state_of K.encoding value gone.now.entries)
        (between (state_of K.encoding value index.now.entries) (K.encoding low.now) (K.encoding high.now))) }
{
    let between = index.range((Bound::Excluded(low), Bound::Excluded(high)));
    first_staying(between, gone)
}

/// The next key of a key, behind which `end` is the first that is near.
fn next_before<'a, K: FixedKey>(
    index: &'a BTreeMap<K, usize>,
    gone: &BTreeMap<K, usize>,
    key: &K,
    end: &'a K,
) -> &'a K
    requires { IsLtBy K.cmp key.now end.now }
    ensures { (value : ℕ → List ℕ) → K.encoding result.now
        ≡ next_near (state_of K.encoding value index.now.entries) (state_of K.encoding value gone.now.entries)
        (K.encoding key.now) (K.encoding end.now) }
{
    match staying_between(index, gone, key, end) {
        Some(next) => next,
        None => end,
    }
}

/// The first key above this one that doesn't go.
fn staying_above<'a, K: FixedKey>(
    index: &'a BTreeMap<K, usize>,
    gone: &BTreeMap<K, usize>,
    key: &K,
) -> Option<&'a K>
    ensures { (value : ℕ → List ℕ) → option_map (λ k. K.encoding k.now) result
        ≡ first_of (staying (state_of K.encoding value gone.now.entries)
        (above (state_of K.encoding value index.now.entries) (K.encoding key.now))) }
{
    let above = index.range((Bound::Excluded(key), Bound::Unbounded));
    first_staying(above, gone)
}

/// The first key below this one that doesn't go.
fn staying_below<'a, K: FixedKey>(
    index: &'a BTreeMap<K, usize>,
    gone: &BTreeMap<K, usize>,
    key: &K,
) -> Option<&'a K>
    ensures { (value : ℕ → List ℕ) → option_map (λ k. K.encoding k.now) result
        ≡ first_of (staying (state_of K.encoding value gone.now.entries)
        (below (state_of K.encoding value index.now.entries) (K.encoding key.now))) }
{
    let below = index.range((Bound::Unbounded, Bound::Excluded(key)));
    first_staying(below, gone)
}

/// The next key of the last key that is near, of which `least` is the first.
fn next_around<'a, K: FixedKey>(
    index: &'a BTreeMap<K, usize>,
    gone: &BTreeMap<K, usize>,
    key: &K,
    least: &'a K,
) -> &'a K
    ensures { (value : ℕ → List ℕ) → K.encoding result.now
        ≡ next_round (state_of K.encoding value index.now.entries) (state_of K.encoding value gone.now.entries)
        (K.encoding key.now) (K.encoding least.now) }
{
    match staying_above(index, gone, key) {
        Some(next) => next,
        None => match staying_below(index, gone, least) {
            Some(next) => next,
            None => least,
        },
    }
}

/// Appends a delete for each key that goes. It fails only when out of memory.
fn push_gone<F: Family, K: FixedKey, V: FixedValue>(
    gone: &BTreeMap<K, usize>,
    out: &mut Vec<OrderedOperation<F, K, V>>,
) -> Result<(), AllocError>
    ensures { OnOk result ((value : ℕ → List ℕ) → spec.meanings K.encoding V.encoding out.new.items
        ≡ spec.meanings K.encoding V.encoding out.old.items
        ++ map (λ e. meaning.delete e.0) (state_of K.encoding value gone.now.entries)) }
{
    for (key, _) in gone {
        let key = key.clone()?;
        push(out, Operation::Delete(key))?;
    }
    Ok(())
}

/// Appends an update for each key that is near and isn't kept. It fails when out of memory, and where the log isn't
/// read.
fn push_near<F: Family, K: FixedKey, V: FixedValue, L: LoggedValues<V>>(
    alloc: Global,
    log: &mut L,
    index: &BTreeMap<K, usize>,
    gone: &BTreeMap<K, usize>,
    near: &BTreeMap<K, Source<V>>,
    out: &mut Vec<OrderedOperation<F, K, V>>,
) -> Result<(), ReadError<L::Error>>
    requires may { L.readable log.old }
    requires places { state_of K.encoding (λ place. place ∷ []) index.now.entries ≡ places_of (L.log log.old) }
    requires own { AreOwn K.encoding (places_of (L.log log.old)) near.now.entries }
    ensures what { let old = state_of K.encoding (value_there (L.log log.old)) index.now.entries in
        let going = state_of K.encoding (value_there (L.log log.old)) gone.now.entries in
        let some = state_of K.encoding (source_value V.encoding (L.log log.old)) near.now.entries in
        (new : Map) → IsTold old going some new
        → OnOk result (spec.meanings K.encoding V.encoding out.new.items
        ≡ spec.meanings K.encoding V.encoding out.old.items ++ spec.updates some old new) }
    ensures same { L.log log.new ≡ L.log log.old }
    ensures few { L.reads log.new ≤ L.reads log.old + length near.now.entries }
    ensures leads { OnOk result (L.leads log.old log.new) }
    ensures refused { IfErr result (IfLog (L.leads log.old log.new) (L.refuses log.old log.new)) }
{
    let mut entries = near.iter();
    let Some((first, mut source)) = entries.next() else {
        return Ok(());
    };
    let mut key = first;
    let mut room = Vec::new(alloc);
    for (end, later) in entries {
        let next = next_before(index, gone, key, end);
        push_update(&mut room, log, index, key, source, next, out)?;
        key = end;
        source = later;
    }
    let next = next_around(index, gone, key, first);
    push_update(&mut room, log, index, key, source, next, out)
}

/// The operations that a batch adds to a log, without the commit, given where the updates of its keys stand. It fails
/// when out of memory, and where the log isn't read. It reads the value of each key that is there and gets one, where
/// its next key stays, and of each other key whose next key changes: of two keys a word at most (own).
pub fn changes_near<F: Family, K: FixedKey, V: FixedValue, L: LoggedValues<V>>(
    alloc: Global,
    log: &mut L,
    places: &Places<K>,
    batch: &Batch<K, V>,
) -> Result<Vec<OrderedOperation<F, K, V>>, ReadError<L::Error>>
    requires may { L.readable log.old }
    requires places { places.now ≡ places_of (L.log log.old) }
    ensures what { let state = spec.replayed [] (L.log log.old) in
        let said = words.meanings K.encoding V.encoding batch.now.words.items in
        IfOk result (λ added. spec.meanings K.encoding V.encoding added.items
        ≡ spec.batch_operations state (map_after said state)) }
    ensures same { L.log log.new ≡ L.log log.old }
    ensures few { L.reads log.new ≤ L.reads log.old + 2 * length batch.now.words.items }
    ensures leads { OnOk result (L.leads log.old log.new) }
    ensures refused { IfErr result (IfLog (L.leads log.old log.new) (L.refuses log.old log.new)) }
{
    let index = places.locations();
    let mut near = apply_batch(BTreeMap::new(alloc), batch)?;
    let gone = gone_by(alloc, index, &near, batch)?;
    add_all_before(index, &gone, &mut near, batch)?;
    let mut out = Vec::new(alloc);
    push_gone(&gone, &mut out)?;
    push_near(alloc, log, index, &gone, &near, &mut out)?;
    Ok(out)
}
