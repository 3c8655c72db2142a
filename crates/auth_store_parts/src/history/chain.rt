//! Whether operations are the batch that goes on behind a log, told by the places of its keys and by its first key.
//!
//! Each update names its next key, so that the updates that count are a chain. A batch takes links out of it and puts
//! others in. Its keys are walked over in ascending order, with a pointer on the old chain and one on the new: where a
//! key goes, the old one stands at it; where one comes, the new one does; and where the fields of a key change, both
//! have come to one key, so that nothing lies between that one of them alone has passed.
//!
//!     old   a ─▶ c ─▶ e ─▶ g ─▶ a        deletes c, puts d
//!     new   a ─▶ d ─▶ e ─▶ g ─▶ a        delete c, update a ─▶ d, update d ─▶ e
//!
//!     a changes    old ─▶ c   new ─▶ d
//!     c goes       old ─▶ e   new ─▶ d
//!     d comes      old ─▶ e   new ─▶ e   both stand at e: the rest is as it was
//!
//! So no key is looked at that the batch does not name, and no map is made.

ghost use Rattle.std.specs.Prelude.{◌≡◌, ◌+◌, ◌-◌, ◌<◌, ◌≤◌, ◌^◌, ◌&&◌, ℕ, List, Some, false, length, option_map};
ghost use Rattle.std.specs.Prelude.{slice_get};
ghost use Rattle.std.specs.Prelude.{IfOk, IfSome, MatchOption};
ghost use Rattle.std.specs.Bool.{Decides};
ghost use Rattle.std.specs.Str.{bytes_eq};
ghost use Rattle.auth_store_parts.specs.Chains as chains;
ghost use Rattle.auth_store_parts.specs.Chains.{Pointer, first_of};
ghost use Rattle.auth_store_parts.specs.History as spec;
ghost use Rattle.auth_store_parts.specs.Places.{places_of};
ghost use Rattle.auth_store_parts.specs.Ranked.{AreNamed};

use super::changes::is_same_value;
use super::fronts::compare;
use super::ranked::RankedPlaces;
use merkle_forest::Family;
use state_ops::{FixedKey, FixedValue, Operation, OrderedOperation, OrderedUpdate};
use std::alloc::{AllocError, Global};

/// The first keys that were not passed yet: of the old chain, and of the new one.
type Pointers<'a, K> = (Option<&'a K>, Option<&'a K>);

/// The next key of a key, where it stands behind it.
fn behind<'a, K: FixedKey>(key: &K, next: &'a K) -> Option<&'a K>
    ensures { chains.pointer K.encoding result ≡ chains.behind (K.encoding key.now) (K.encoding next.now) }
{
    if compare(key, next).is_lt() {
        return Some(next);
    }
    None
}

/// Whether two keys are one.
fn is_same_key<K: FixedKey>(key: &K, other: &K) -> bool
    ensures { result ≡ bytes_eq (K.encoding key.now) (K.encoding other.now) }
{
    compare(key, other).is_eq()
}

/// Whether the pointer stands at the key.
fn is_at<K: FixedKey>(pointer: Option<&K>, key: &K) -> bool
    ensures { result ≡ chains.is_at_key (chains.pointer K.encoding pointer.entry) (K.encoding key.now) }
{
    match pointer {
        None => false,
        Some(at) => is_same_key(at, key),
    }
}

/// Whether the pointer has passed the key.
fn is_past<K: FixedKey>(pointer: Option<&K>, key: &K) -> bool
    ensures { result ≡ chains.is_past (chains.pointer K.encoding pointer.entry) (K.encoding key.now) }
{
    match pointer {
        None => true,
        Some(at) => compare(key, at).is_lt(),
    }
}

/// Whether two pointers stand at one key, or both behind the last one.
fn is_one<K: FixedKey>(pointer: Option<&K>, other: Option<&K>) -> bool
    ensures { result ≡ chains.is_one (chains.pointer K.encoding pointer.entry)
        (chains.pointer K.encoding other.entry) }
{
    match other {
        None => pointer.is_none(),
        Some(key) => is_at(pointer, key),
    }
}

/// Whether both chains end the same way.
fn is_end<K: FixedKey>(
    first_old: Option<&K>,
    first_new: Option<&K>,
    pointers: Pointers<'_, K>,
) -> bool
    ensures { result ≡ chains.ends (chains.pointer K.encoding first_old.entry)
        (chains.pointer K.encoding first_new.entry) (chains.pointer K.encoding pointers.entry.0)
        (chains.pointer K.encoding pointers.entry.1) }
{
    let (old, new) = pointers;
    is_one(old, new) && (old.is_none() || is_one(first_new, first_old))
}

/// Whether an update has this value and this next key. It fails only when out of memory.
fn says_the_same<K: FixedKey, V: FixedValue>(
    room: &mut Vec<u8>,
    update: &OrderedUpdate<K, V>,
    other: &OrderedUpdate<K, V>,
) -> Result<bool, AllocError>
    ensures { IfOk result (λ same. same ≡ (bytes_eq (V.encoding update.now.value) (V.encoding other.now.value)
        && bytes_eq (K.encoding update.now.next_key) (K.encoding other.now.next_key))) }
{
    if !is_same_key(&update.next_key, &other.next_key) {
        return Ok(false);
    }
    is_same_value(room, &update.value, &other.value)
}

/// The pointers behind a key that goes, of which this was the update. `None`: it may not go.
fn over_delete<'a, K: FixedKey, V: FixedValue>(
    pointers: Pointers<'a, K>,
    before: Option<&'a OrderedUpdate<K, V>>,
    key: &K,
) -> Option<Pointers<'a, K>>
    ensures { let fields = option_map (λ u. (V.encoding u.now.value, K.encoding u.now.next_key)) before.entry in
        chains.LeadsTo K.encoding (λ go. chains.over_delete fields (K.encoding key.now) go
        (chains.pointer K.encoding pointers.entry.0) (chains.pointer K.encoding pointers.entry.1)) result }
{
    let (old, new) = pointers;
    let before = before?;
    if !is_at(old, key) || !is_past(new, key) {
        return None;
    }
    Some((behind(key, &before.next_key), new))
}

/// The pointers behind an update whose key had this one before, where it had any. `None`: it may not be so. It fails
/// only when out of memory.
fn over_update<'a, K: FixedKey, V: FixedValue>(
    room: &mut Vec<u8>,
    first_new: Option<&K>,
    pointers: Pointers<'a, K>,
    before: Option<&'a OrderedUpdate<K, V>>,
    update: &'a OrderedUpdate<K, V>,
) -> Result<Option<Pointers<'a, K>>, AllocError>
    ensures { let fields = option_map (λ u. (V.encoding u.now.value, K.encoding u.now.next_key)) before.entry in
        let first = chains.pointer K.encoding first_new.entry in
        IfOk result (λ found. chains.LeadsTo K.encoding (λ go. chains.over_update first fields
        (K.encoding update.now.key) (V.encoding update.now.value) (K.encoding update.now.next_key) go
        (chains.pointer K.encoding pointers.entry.0) (chains.pointer K.encoding pointers.entry.1)) found) }
{
    let (old, new) = pointers;
    let next = behind(&update.key, &update.next_key);
    if next.is_none() && !is_at(first_new, &update.next_key) {
        return Ok(None);
    }
    let Some(before) = before else {
        if !is_at(new, &update.key) || !is_past(old, &update.key) {
            return Ok(None);
        }
        return Ok(Some((old, next)));
    };
    if !is_one(old, new) || is_past(old, &update.key) || says_the_same(room, before, update)? {
        return Ok(None);
    }
    Ok(Some((behind(&update.key, &before.next_key), next)))
}

/// The update that counts in a log of the key that an operation at this location names. None: the key isn't there.
fn update_of<'a, F: Family, K: FixedKey, V: FixedValue>(
    log: &'a [OrderedOperation<F, K, V>],
    ranked: &RankedPlaces<K>,
    location: usize,
) -> Option<&'a OrderedUpdate<K, V>>
    requires { ranked.now.places ≡ places_of (spec.meanings K.encoding V.encoding log.now) }
    ensures { (key : List ℕ) → slice_get ranked.now.names location ≡ Some (Some key)
        → option_map (λ u. (V.encoding u.now.value, K.encoding u.now.next_key)) result
        ≡ spec.active_update key (spec.meanings K.encoding V.encoding log.now) }
{
    let place = ranked.get(location)?;
    match log.get(place)? {
        Operation::Delete(_) => None,
        Operation::Update(update) => Some(update),
        Operation::CommitFloor(_, _) => None,
    }
}

/// The first key after a batch, told by the first key before it and by its last operation where the batch is one.
pub fn first_after<'a, F: Family, K: FixedKey, V: FixedValue>(
    first: Option<&'a K>,
    batch: &'a [OrderedOperation<F, K, V>],
) -> Option<&'a K>
    ensures { chains.pointer K.encoding result ≡ chains.first_after (chains.pointer K.encoding first.entry)
        (spec.meanings K.encoding V.encoding batch.now) }
{
    match batch.last() {
        None => first,
        Some(Operation::Delete(_)) => None,
        Some(Operation::Update(last)) => {
            if behind(&last.key, &last.next_key).is_some() {
                return first;
            }
            Some(&last.next_key)
        }
        Some(Operation::CommitFloor(_, _)) => None,
    }
}

/// How many of the operations stand before the first that is no delete.
fn deletes_in_front<F: Family, K: FixedKey, V: FixedValue>(
    operations: &[OrderedOperation<F, K, V>],
) -> usize
    ensures { result ≡ chains.deletes_in_front (spec.meanings K.encoding V.encoding operations.now) }
{
    let mut count = 0;
    for operation in operations {
        if !matches!(operation, Operation::Delete(_)) {
            break;
        }
        count += 1;
    }
    count
}

/// The pointers behind the deletes of keys below this one, and the deletes that are left; the first of all stands at
/// `start`. `None`: one may not be so.
fn over_deletes_below<'a, F: Family, K: FixedKey, V: FixedValue>(
    log: &'a [OrderedOperation<F, K, V>],
    ranked: &RankedPlaces<K>,
    start: usize,
    from: Pointers<'a, K>,
    all: &'a [OrderedOperation<F, K, V>],
    key: &K,
) -> Option<(Pointers<'a, K>, &'a [OrderedOperation<F, K, V>])>
    requires whole { let said = spec.meanings K.encoding V.encoding log.now in
        said ≡ spec.log_of (spec.history_of said) }
    requires places { ranked.now.places ≡ places_of (spec.meanings K.encoding V.encoding log.now) }
    requires room { start + length all.now < 2 ^ 64 }
    requires named { AreNamed ranked.now.names start (spec.meanings K.encoding V.encoding all.now) }
    ensures up { let old = spec.latest_map (spec.history_of (spec.meanings K.encoding V.encoding log.now)) in
        chains.LeadsUp K.encoding (spec.meanings K.encoding V.encoding) old (K.encoding key.now)
        (spec.meanings K.encoding V.encoding all.now) (chains.pointer K.encoding from.entry.0)
        (chains.pointer K.encoding from.entry.1) result }
    ensures left { IfSome result (λ passed. (length passed.1.now ≤ length all.now)
        × AreNamed ranked.now.names (start + length all.now - length passed.1.now)
        (spec.meanings K.encoding V.encoding passed.1.now)) }
{
    let mut pointers = from;
    for (at, operation) in all.iter().enumerate() {
        let Operation::Delete(gone) = operation else {
            return None;
        };
        if !compare(gone, key).is_lt() {
            return Some((pointers, &all[at..]));
        }
        let Some(passed) = over_delete(pointers, update_of(log, ranked, start + at), gone) else {
            return None;
        };
        pointers = passed;
    }
    Some((pointers, &all[all.len()..]))
}

/// The pointers behind deletes of keys, the first of which stands at `start`. `None`: one may not be so.
fn over_deletes<'a, F: Family, K: FixedKey, V: FixedValue>(
    log: &'a [OrderedOperation<F, K, V>],
    ranked: &RankedPlaces<K>,
    start: usize,
    from: Pointers<'a, K>,
    deletes: &'a [OrderedOperation<F, K, V>],
) -> Option<Pointers<'a, K>>
    requires whole { let said = spec.meanings K.encoding V.encoding log.now in
        said ≡ spec.log_of (spec.history_of said) }
    requires places { ranked.now.places ≡ places_of (spec.meanings K.encoding V.encoding log.now) }
    requires room { start + length deletes.now < 2 ^ 64 }
    requires named { AreNamed ranked.now.names start (spec.meanings K.encoding V.encoding deletes.now) }
    ensures { let old = spec.latest_map (spec.history_of (spec.meanings K.encoding V.encoding log.now)) in
        let said = spec.meanings K.encoding V.encoding deletes.now in
        let p = chains.pointer K.encoding from.entry.0 in
        let q = chains.pointer K.encoding from.entry.1 in
        MatchOption result ((first_old first_new : Pointer)
        → chains.over_deletes old first_old first_new said p q ≡ false)
        (λ passed. (first_old first_new : Pointer) → chains.over_deletes old first_old first_new said p q
        ≡ chains.ends first_old first_new (chains.pointer K.encoding passed.0) (chains.pointer K.encoding passed.1)) }
{
    let mut pointers = from;
    for (at, operation) in deletes.iter().enumerate() {
        let Operation::Delete(gone) = operation else {
            return None;
        };
        let Some(passed) = over_delete(pointers, update_of(log, ranked, start + at), gone) else {
            return None;
        };
        pointers = passed;
    }
    Some(pointers)
}

/// Whether operations are the batch behind a log, as `is_batch_behind` says it. Values are compared in this room.
fn is_behind<F: Family, K: FixedKey, V: FixedValue>(
    room: &mut Vec<u8>,
    log: &[OrderedOperation<F, K, V>],
    first: Option<&K>,
    ranked: &RankedPlaces<K>,
    batch: &[OrderedOperation<F, K, V>],
) -> Result<bool, AllocError>
    requires whole { let said = spec.meanings K.encoding V.encoding log.now in
        said ≡ spec.log_of (spec.history_of said) }
    requires first { chains.pointer K.encoding first
        ≡ first_of (places_of (spec.meanings K.encoding V.encoding log.now)) }
    requires places { ranked.now.places ≡ places_of (spec.meanings K.encoding V.encoding log.now) }
    requires room { length log.now + length batch.now < 2 ^ 64 }
    requires named { AreNamed ranked.now.names (length log.now) (spec.meanings K.encoding V.encoding batch.now) }
    ensures { let old = spec.latest_map (spec.history_of (spec.meanings K.encoding V.encoding log.now)) in
        let said = spec.meanings K.encoding V.encoding batch.now in
        IfOk result (λ is. Decides is (said ≡ spec.batch_operations old (spec.replayed old said))) }
{
    let first_new = first_after(first, batch);
    let (mut deletes, updates) = batch.split_at(deletes_in_front(batch));
    let behind_deletes = log.len() + deletes.len();
    let mut pointers = (first, first_new);
    for (at, operation) in updates.iter().enumerate() {
        let Operation::Update(update) = operation else {
            return Ok(false);
        };
        let start = behind_deletes - deletes.len();
        let Some((below, left)) = over_deletes_below(
            log,
            ranked,
            start,
            pointers,
            deletes,
            &update.key,
        ) else {
            return Ok(false);
        };
        let before = update_of(log, ranked, behind_deletes + at);
        let Some(passed) = over_update(room, first_new, below, before, update)? else {
            return Ok(false);
        };
        pointers = passed;
        deletes = left;
    }
    let start = behind_deletes - deletes.len();
    match over_deletes(log, ranked, start, pointers, deletes) {
        None => Ok(false),
        Some(passed) => Ok(is_end(first, first_new, passed)),
    }
}

/// Whether operations are the batch that leads from the state of a log, with these places and this first key, to the
/// state that they lead to: deletes and updates in ascending order, of each key that changes or whose next key does,
/// and of no other. They stand right behind the log. It fails only when out of memory.
pub fn is_batch_behind<F: Family, K: FixedKey, V: FixedValue>(
    alloc: Global,
    log: &[OrderedOperation<F, K, V>],
    first: Option<&K>,
    ranked: &RankedPlaces<K>,
    batch: &[OrderedOperation<F, K, V>],
) -> Result<bool, AllocError>
    requires whole { let said = spec.meanings K.encoding V.encoding log.now in
        said ≡ spec.log_of (spec.history_of said) }
    requires first { chains.pointer K.encoding first
        ≡ first_of (places_of (spec.meanings K.encoding V.encoding log.now)) }
    requires places { ranked.now.places ≡ places_of (spec.meanings K.encoding V.encoding log.now) }
    requires room { length log.now + length batch.now < 2 ^ 64 }
    requires named { AreNamed ranked.now.names (length log.now) (spec.meanings K.encoding V.encoding batch.now) }
    ensures { let old = spec.latest_map (spec.history_of (spec.meanings K.encoding V.encoding log.now)) in
        let said = spec.meanings K.encoding V.encoding batch.now in
        IfOk result (λ is. Decides is (said ≡ spec.batch_operations old (spec.replayed old said))) }
{
    let mut room = Vec::new(alloc);
    is_behind(&mut room, log, first, ranked, batch)
}
