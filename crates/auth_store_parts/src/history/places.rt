//! Where the updates stand in a log that give keys their values, so that a key is found without a walk over the log.
//!
//!     log       0 commit  1 update a  2 update c  3 commit  4 update a  5 commit
//!     places    a ↦ 4, c ↦ 2
//!
//! Updates that follow one another, with no delete and no commit between them, are a run. The updates of a short run
//! are put into the map one by one, each where its key belongs. The keys of a long run are sorted, which takes one walk
//! where they ascend already, as those of a batch do; a map is made of them at once, and appended to the one that is
//! there.

ghost use Rattle.std.specs.Prelude.{◌≡◌, ◌+◌, ◌<◌, ◌≤◌, ◌^◌, ◌∷◌, ◌++◌, [], take, length, option_map, IfOk, OnOk};
ghost use Rattle.std.specs.Prelude.{OnErr};
ghost use Rattle.std.specs.BTreeMap.{IsFromIterResult};
ghost use Rattle.state_ops.specs.Operation.{meaning_of};
ghost use Rattle.auth_store_parts.specs.History as spec;
ghost use Rattle.auth_store_parts.specs.Map.{state_of, value_at};
ghost use Rattle.auth_store_parts.specs.Places.{after_place, placed, places_of, updates_in_front, located_key};
ghost use Rattle.auth_store_parts.specs.Places.{located_keys};

mod staged;

use merkle_forest::Family;
use state_ops::{FixedKey, FixedValue, Operation, OrderedOperation};
use std::alloc::{AllocError, Global};
use std::collections::BTreeMap;
use std::marker::Model;

/// The updates of a run that has fewer are put into the map one by one: a map of their own costs as much.
const LONG_RUN: usize = 16;

/// The updates of a run are put into the map one by one where it has more than so many entries for each of them: a walk
/// over all entries costs more, and the library walks over at most four for each.
const ENTRIES_FOR_ONE: usize = 3;

/// How many of the operations stand before the first that is no update.
fn updates_in_front<F: Family, K: FixedKey, V: FixedValue>(
    operations: &[OrderedOperation<F, K, V>],
) -> usize
    ensures { result ≡ updates_in_front (spec.meanings K.encoding V.encoding operations.now) }
{
    let mut count = 0;
    for operation in operations {
        if !matches!(operation, Operation::Update(_)) {
            break;
        }
        count += 1;
    }
    count
}

/// Appends the key that an operation at this location names, with the location; for a commit nothing. It fails only
/// when out of memory.
fn push_located_key<F: Family, K: FixedKey, V: FixedValue>(
    location: usize,
    operation: &OrderedOperation<F, K, V>,
    keys: &mut Vec<(K, usize)>,
) -> Result<(), AllocError>
    ensures { OnOk result (state_of K.encoding (λ location. location ∷ []) keys.new.items
        ≡ state_of K.encoding (λ location. location ∷ []) keys.old.items
        ++ located_key location (meaning_of K.encoding V.encoding operation.now)) }
{
    match operation {
        Operation::Delete(key) => Ok(keys.push((key.clone()?, location))?),
        Operation::Update(update) => Ok(keys.push((update.key.clone()?, location))?),
        Operation::CommitFloor(_, _) => Ok(()),
    }
}

/// The key that each of these operations names with its location, where the first operation stands at `start`. It fails
/// only when out of memory.
pub(super) fn located_keys<F: Family, K: FixedKey, V: FixedValue>(
    alloc: Global,
    start: usize,
    operations: &[OrderedOperation<F, K, V>],
) -> Result<Vec<(K, usize)>, AllocError>
    requires { start + length operations.now < 2 ^ 64 }
    ensures { IfOk result (λ keys. state_of K.encoding (λ location. location ∷ []) keys.items
        ≡ located_keys start (spec.meanings K.encoding V.encoding operations.now)) }
{
    let mut keys = Vec::with_capacity(alloc, operations.len())?;
    for (index, operation) in operations.iter().enumerate() {
        push_located_key(start + index, operation, &mut keys)?;
    }
    Ok(keys)
}

/// A map of keys with their locations. Of those with one key the last one counts. It fails only when out of memory.
fn map_of<K: FixedKey>(
    alloc: Global,
    keys: Vec<(K, usize)>,
) -> Result<BTreeMap<K, usize>, AllocError>
    ensures { IfOk result (λ locations. IsFromIterResult K.cmp keys.items locations) }
{
    keys.into_iter().collect(alloc)
}

/// For each key that is there the location of the update that gives it its value (own).
#[derive(Drop)]
pub struct Places<K: FixedKey> {
    alloc: Global,
    locations: BTreeMap<K, usize>,
}

impl<K: FixedKey> Model for Places<K> {
    ghost use Rattle.std.specs.Prelude.{◌∷◌, []};
    ghost use Rattle.auth_store_parts.specs.Map.{Map, state_of};

    ghost Value = { Map };

    ghost view = { λ places. state_of K.encoding (λ location. location ∷ []) places.locations.entries };
}

impl<K: FixedKey> Places<K> {
    /// No key has a place.
    pub fn new(alloc: Global) -> Places<K>
        ensures { result ≡ [] }
    {
        Places {
            alloc,
            locations: BTreeMap::new(alloc),
        }
    }

    /// The places that are listed, in ascending order of keys. It fails only when out of memory.
    pub(super) fn of_located(
        alloc: Global,
        located: Vec<(K, usize)>,
    ) -> Result<Places<K>, AllocError>
        requires { spec.IsState (state_of K.encoding (λ location. location ∷ []) located.items) }
        ensures { IfOk result (λ places. places
            ≡ state_of K.encoding (λ location. location ∷ []) located.items) }
    {
        let locations = map_of(alloc, located)?;
        Ok(Places { alloc, locations })
    }

    /// The same places. It fails only when out of memory.
    pub fn try_copy(&self) -> Result<Places<K>, AllocError>
        ensures { IfOk result (λ copy. copy ≡ self.now) }
    {
        let locations = self.locations.clone()?;
        Ok(Places {
            alloc: self.alloc,
            locations,
        })
    }

    /// Takes an operation that stands at this location. It fails only when out of memory, and the places then stay as
    /// they were.
    pub fn follow<F: Family, V: FixedValue>(
        &mut self,
        location: usize,
        operation: &OrderedOperation<F, K, V>,
    ) -> Result<(), AllocError>
        ensures ok { OnOk result
            (self.new ≡ after_place location (meaning_of K.encoding V.encoding operation.now) self.old) }
        ensures err { OnErr result (self.new ≡ self.old) }
    {
        match operation {
            Operation::Delete(key) => {
                self.locations.remove(key);
                Ok(())
            }
            Operation::Update(update) => {
                let key = update.key.clone()?;
                self.locations.insert(key, location)?;
                Ok(())
            }
            Operation::CommitFloor(_, _) => Ok(()),
        }
    }

    /// Takes operations one by one, the first of which stands at `start`. It fails only when out of memory; the places
    /// are then those after some of them.
    fn follow_each<F: Family, V: FixedValue>(
        &mut self,
        start: usize,
        operations: &[OrderedOperation<F, K, V>],
    ) -> Result<(), AllocError>
        requires { start + length operations.now < 2 ^ 64 }
        ensures { OnOk result
            (self.new ≡ placed start self.old (spec.meanings K.encoding V.encoding operations.now)) }
    {
        let mut location = start;
        for operation in operations {
            self.follow(location, operation)?;
            location += 1;
        }
        Ok(())
    }

    /// Takes the run of updates in front of these operations, or the first of them where it is no update, and says how
    /// many it took. The first operation stands at `start`. It fails only when out of memory; the places are then those
    /// after some of the updates.
    fn follow_front<F: Family, V: FixedValue>(
        &mut self,
        start: usize,
        operations: &[OrderedOperation<F, K, V>],
    ) -> Result<usize, AllocError>
        requires some { 0 < length operations.now }
        requires room { start + length operations.now < 2 ^ 64 }
        ensures taken { IfOk result (λ taken. (0 < taken) × (taken ≤ length operations.now)) }
        ensures placed { IfOk result (λ taken. self.new ≡ placed start self.old
            (spec.meanings K.encoding V.encoding (take taken operations.now))) }
    {
        let run = updates_in_front(operations);
        if run < LONG_RUN.max(self.locations.len() / ENTRIES_FOR_ONE) {
            let taken = run.max(1);
            self.follow_each(start, &operations[..taken])?;
            return Ok(taken);
        }
        let keys = located_keys(self.alloc, start, &operations[..run])?;
        let mut latest = map_of(self.alloc, keys)?;
        self.locations.append(&mut latest)?;
        Ok(run)
    }

    /// Takes operations, the first of which stands at `start`. It fails only when out of memory; the places are then
    /// those after some of them.
    pub fn follow_all<F: Family, V: FixedValue>(
        &mut self,
        start: usize,
        operations: &[OrderedOperation<F, K, V>],
    ) -> Result<(), AllocError>
        requires { start + length operations.now < 2 ^ 64 }
        ensures { OnOk result
            (self.new ≡ placed start self.old (spec.meanings K.encoding V.encoding operations.now)) }
    {
        let mut location = start;
        let mut rest = operations;
        while !rest.is_empty() {
            let taken = self.follow_front(location, rest)?;
            location += taken;
            rest = &rest[taken..];
        }
        Ok(())
    }

    /// The places of a log. It fails only when out of memory.
    pub fn of<F: Family, V: FixedValue>(
        alloc: Global,
        log: &[OrderedOperation<F, K, V>],
    ) -> Result<Places<K>, AllocError>
        ensures { IfOk result (λ places. places ≡ places_of (spec.meanings K.encoding V.encoding log.now)) }
    {
        let mut places = Places::new(alloc);
        places.follow_all(0, log)?;
        Ok(places)
    }

    /// Where the update stands that gives the key its value. None: the key isn't there.
    pub fn get(&self, key: &K) -> Option<usize>
        ensures { option_map (λ location. location ∷ []) result ≡ value_at self.now (K.encoding key.now) }
    {
        self.locations.get(key).copied()
    }

    /// The map of the keys that are there, each with the location of the update that gives it its value (own).
    pub fn locations(&self) -> &BTreeMap<K, usize>
        ensures { state_of K.encoding (λ location. location ∷ []) result.now.entries ≡ self.now }
    {
        &self.locations
    }
}
