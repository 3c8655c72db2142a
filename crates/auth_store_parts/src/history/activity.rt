//! Which operations of a log still count.

ghost use Rattle.std.specs.Prelude.{◌≡◌, ◌+◌, ◌<◌, ◌≤◌, length, drop, slice_get, Some, IfOk};
ghost use Rattle.std.specs.List.{list_any};
ghost use Rattle.state_ops.specs.Operation as meaning;
ghost use Rattle.state_ops.specs.Operation.{meaning_of};
ghost use Rattle.auth_store_parts.specs.History as spec;
ghost use Rattle.auth_store_parts.specs.Places.{places_of};
ghost use Rattle.auth_store_parts.specs.Ranked.{AreNamed};

use super::places::Places;
use super::ranked::RankedPlaces;
use merkle_forest::Family;
use state_ops::{FixedKey, FixedValue, Operation, OrderedOperation};
use std::alloc::{AllocError, Global};

/// Whether the operation is about the key.
fn has_key<F: Family, K: FixedKey, V: FixedValue>(
    key: &K,
    operation: &OrderedOperation<F, K, V>,
) -> bool
    ensures { result ≡ spec.has_key (K.encoding key.now) (meaning_of K.encoding V.encoding operation.now) }
{
    match operation {
        Operation::Delete(other) => key.cmp(other).is_eq(),
        Operation::Update(update) => key.cmp(&update.key).is_eq(),
        Operation::CommitFloor(_, _) => false,
    }
}

/// Whether one of the operations is about the key.
fn any_has_key<F: Family, K: FixedKey, V: FixedValue>(
    key: &K,
    operations: &[OrderedOperation<F, K, V>],
) -> bool
    ensures { result ≡ list_any (λ operation. spec.has_key (K.encoding key.now)
        (meaning_of K.encoding V.encoding operation))
        operations.now }
{
    operations.iter().any(|operation| has_key(key, operation))
}

/// Whether one of the operations is a commit.
fn any_is_commit<F: Family, K: FixedKey, V: FixedValue>(
    operations: &[OrderedOperation<F, K, V>],
) -> bool
    ensures { result ≡ list_any (λ operation. spec.is_commit (meaning_of K.encoding V.encoding operation))
        operations.now }
{
    operations.iter().any(|operation| matches!(operation, Operation::CommitFloor(_, _)))
}

/// Whether the operation still counts, given the operations after it: an update whose key no later one has, or the last
/// commit.
#[tactic(auto, using(crate::proofs::Mapped::any_map))]
pub fn is_active<F: Family, K: FixedKey, V: FixedValue>(
    operation: &OrderedOperation<F, K, V>,
    later: &[OrderedOperation<F, K, V>],
) -> bool
    ensures { result ≡ spec.is_active (meaning_of K.encoding V.encoding operation.now)
        (spec.meanings K.encoding V.encoding later.now) }
{
    match operation {
        Operation::Delete(_) => false,
        Operation::Update(update) => !any_has_key(&update.key, later),
        Operation::CommitFloor(_, _) => !any_is_commit(later),
    }
}

/// Whether the operation is an update that still counts, given the operations after it.
fn is_active_update<F: Family, K: FixedKey, V: FixedValue>(
    operation: &OrderedOperation<F, K, V>,
    later: &[OrderedOperation<F, K, V>],
) -> bool
    ensures { result ≡ spec.is_active_update (meaning_of K.encoding V.encoding operation.now)
        (spec.meanings K.encoding V.encoding later.now) }
{
    match operation {
        Operation::Update(_) => is_active(operation, later),
        _ => false,
    }
}

/// Whether the operation at a location of a log still counts, given the places of the log.
fn counts_at<F: Family, K: FixedKey, V: FixedValue>(
    log: &[OrderedOperation<F, K, V>],
    location: usize,
    places: &Places<K>,
) -> bool
    requires within { location < length log.now }
    requires places { places.now ≡ places_of (spec.meanings K.encoding V.encoding log.now) }
    ensures { slice_get (spec.activity_bits (spec.meanings K.encoding V.encoding log.now)) location ≡ Some result }
{
    match &log[location] {
        Operation::Delete(_) => false,
        Operation::Update(update) => match places.get(&update.key) {
            Some(place) => place == location,
            None => false,
        },
        Operation::CommitFloor(_, _) => !any_is_commit(&log[location + 1..]),
    }
}

/// For each operation of the log whether it still counts, given the places of the log. It fails only when out of
/// memory.
pub fn activity_bits<F: Family, K: FixedKey, V: FixedValue>(
    alloc: Global,
    log: &[OrderedOperation<F, K, V>],
    places: &Places<K>,
) -> Result<Vec<bool>, AllocError>
    requires { places.now ≡ places_of (spec.meanings K.encoding V.encoding log.now) }
    ensures { IfOk result (λ bits. bits.items ≡ spec.activity_bits (spec.meanings K.encoding V.encoding log.now)) }
{
    let mut bits = Vec::new(alloc);
    for location in 0..log.len() {
        bits.push(counts_at(log, location, places))?;
    }
    Ok(bits)
}

/// Whether the operation at a location of a log is an update that still counts, given the places of the log.
fn is_active_update_at<F: Family, K: FixedKey, V: FixedValue>(
    log: &[OrderedOperation<F, K, V>],
    location: usize,
    ranked: &RankedPlaces<K>,
) -> bool
    requires within { location < length log.now }
    requires places { ranked.now.places ≡ places_of (spec.meanings K.encoding V.encoding log.now) }
    requires named { AreNamed ranked.now.names 0 (spec.meanings K.encoding V.encoding log.now) }
    ensures { let said = spec.meanings K.encoding V.encoding log.now in
        (operation : meaning.Operation) → slice_get said location ≡ Some operation
        → result ≡ spec.is_active_update operation (drop (location + 1) said) }
{
    match &log[location] {
        Operation::Delete(_) => false,
        Operation::Update(_) => match ranked.get(location) {
            Some(at) => at == location,
            None => false,
        },
        Operation::CommitFloor(_, _) => false,
    }
}

/// The floor that a commit at the end of a log records, given the places of the log, where it is `start` or greater:
/// the location of the first update that still counts, or the number of operations where none does. It looks at none
/// before `start` and at none behind the floor.
pub fn inactivity_floor_by<F: Family, K: FixedKey, V: FixedValue>(
    log: &[OrderedOperation<F, K, V>],
    ranked: &RankedPlaces<K>,
    start: u64,
) -> u64
    requires start { start ≤ spec.inactivity_floor (spec.meanings K.encoding V.encoding log.now) }
    requires places { ranked.now.places ≡ places_of (spec.meanings K.encoding V.encoding log.now) }
    requires named { AreNamed ranked.now.names 0 (spec.meanings K.encoding V.encoding log.now) }
    ensures { result ≡ spec.inactivity_floor (spec.meanings K.encoding V.encoding log.now) }
{
    let mut location = start as usize;
    while location < log.len() && !is_active_update_at(log, location, ranked) {
        location += 1;
    }
    location as u64
}

/// The floor that a commit at the end of these operations records, where it is `start` or greater: the location of
/// their first update that still counts, or their number where none does. It looks at none before `start`.
pub fn inactivity_floor_from<F: Family, K: FixedKey, V: FixedValue>(
    operations: &[OrderedOperation<F, K, V>],
    start: u64,
) -> u64
    requires { start ≤ spec.inactivity_floor (spec.meanings K.encoding V.encoding operations.now) }
    ensures { result ≡ spec.inactivity_floor (spec.meanings K.encoding V.encoding operations.now) }
{
    let mut rest = &operations[start as usize..];
    while let [operation, later @ ..] = rest {
        if is_active_update(operation, later) {
            break;
        }
        rest = later;
    }
    (operations.len() - rest.len()) as u64
}

/// The floor that a commit at the end of these operations records: the location of their first update that still
/// counts, or their number where none does.
pub fn inactivity_floor<F: Family, K: FixedKey, V: FixedValue>(
    operations: &[OrderedOperation<F, K, V>],
) -> u64
    ensures { result ≡ spec.inactivity_floor (spec.meanings K.encoding V.encoding operations.now) }
{
    inactivity_floor_from(operations, 0)
}
