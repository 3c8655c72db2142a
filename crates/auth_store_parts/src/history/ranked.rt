//! The keys of a whole log, ranked, with the places of those that have one: so a key is found by the rank that its
//! operation has, with no search.
//!
//!     log       0 commit  1 update c  2 update e  3 commit  4 update a  5 delete c  6 commit
//!     ranks                 1           2                     0           1
//!     keys      a      c      e
//!     slots     4      none   2
//!
//! All keys are put in order once, in the beginning, and none is moved after that.

ghost use Rattle.std.specs.Prelude.{◌≡◌, ◌+◌, ◌<◌, ◌^◌, ◌++◌, ◌∷◌, [], false, ℕ, List, Option, None, Some, length, map};
ghost use Rattle.std.specs.Prelude.{option_map, slice_get, IfOk, OnOk, IsPermutation};
ghost use Rattle.std.specs.List.{All};
ghost use Rattle.std.specs.List.Sorted.{IsSortedBy};
ghost use Rattle.std.specs.Ordering.{is_lt};
ghost use Rattle.state_ops.specs.Operation.{meaning_of};
ghost use Rattle.auth_store_parts.specs.History as spec;
ghost use Rattle.auth_store_parts.specs.Map.{key_order, state_of, value_at};
ghost use Rattle.auth_store_parts.specs.Places.{after_place, placed};
ghost use Rattle.auth_store_parts.specs.Ranked.{AreAscending, AreNamed, last_key, names_at, place_at, places_at};
ghost use Rattle.auth_store_parts.specs.Ranked.{with_place};

use super::fronts::compare;
use super::places::{Places, located_keys};
use merkle_forest::Family;
use state_ops::{FixedKey, FixedValue, Operation, OrderedOperation};
use std::alloc::{AllocError, Global};
use std::marker::Model;

/// Keys with their locations in ascending order of keys. The library's stable sort keeps the runs in which they ascend
/// already, as those of each batch do, and merges them. It fails only when out of memory.
fn in_order<K: FixedKey>(keys: Vec<(K, usize)>) -> Result<Vec<(K, usize)>, AllocError>
    ensures same { IfOk result (λ sorted. IsPermutation keys.items sorted.items) }
    ensures ascending { IfOk result (λ sorted. IsSortedBy (λ one other. is_lt (key_order (K.encoding one.0)
        (K.encoding other.0))) sorted.items) }
{
    let mut sorted = keys;
    sorted.sort_by(|one, other| compare(&one.0, &other.0))?;
    Ok(sorted)
}

/// Appends the key to ascending keys, none of which is above it, where it is not among them. It fails only when out of
/// memory.
fn push_new_key<K: FixedKey>(keys: &mut Vec<K>, key: K) -> Result<(), AllocError>
    requires ascending { AreAscending (map K.encoding keys.old.items) }
    requires order { (last : List ℕ) → last_key (map K.encoding keys.old.items) ≡ Some last
        → is_lt (key_order (K.encoding key) last) ≡ false }
    ensures ascending { OnOk result (AreAscending (map K.encoding keys.new.items)) }
    ensures last { OnOk result (last_key (map K.encoding keys.new.items) ≡ Some (K.encoding key)) }
    ensures kept { OnOk result ((rank : ℕ) (other : List ℕ) → slice_get (map K.encoding keys.old.items) rank
        ≡ Some other
        → slice_get (map K.encoding keys.new.items) rank ≡ Some other) }
{
    match keys.last() {
        Some(last) if !compare(last, &key).is_lt() => Ok(()),
        _ => Ok(keys.push(key)?),
    }
}

/// The keys of a list in ascending order, each once, and for each of `count` locations the rank of the key that the
/// list has there. It fails only when out of memory.
fn rank_keys<K: FixedKey>(
    alloc: Global,
    sorted: Vec<(K, usize)>,
    count: usize,
) -> Result<(Vec<K>, Vec<usize>), AllocError>
    requires ascending { IsSortedBy (λ one other. is_lt (key_order (K.encoding one.0) (K.encoding other.0)))
        sorted.items }
    requires named { (names : List (Option (List ℕ))) × (length names ≡ count)
        × All (λ entry. slice_get names entry.1 ≡ Some (Some (K.encoding entry.0))) sorted.items }
    ensures ascending { IfOk result (λ made. AreAscending (map K.encoding made.0.items)) }
    ensures named { IfOk result (λ made. All (λ entry. slice_get
        (names_at (map K.encoding made.0.items) made.1.items) entry.1 ≡ Some (Some (K.encoding entry.0)))
        sorted.items) }
{
    let mut keys = Vec::with_capacity(alloc, sorted.len())?;
    let mut ranks = Vec::from_elem(alloc, 0usize, count)?;
    for (key, location) in sorted {
        push_new_key(&mut keys, key)?;
        ranks[location] = keys.len() - 1;
    }
    Ok((keys, ranks))
}

/// Appends the key with its place, where it has one. It fails only when out of memory.
fn push_place<K: FixedKey>(
    key: K,
    slot: Option<usize>,
    located: &mut Vec<(K, usize)>,
) -> Result<(), AllocError>
    ensures { OnOk result (state_of K.encoding (λ place. place ∷ []) located.new.items
        ≡ state_of K.encoding (λ place. place ∷ []) located.old.items ++ place_at (K.encoding key) slot) }
{
    match slot {
        None => Ok(()),
        Some(place) => Ok(located.push((key, place))?),
    }
}

/// The keys that have a place, each with it. It fails only when out of memory.
fn located_places<K: FixedKey>(
    alloc: Global,
    keys: Vec<K>,
    slots: Vec<Option<usize>>,
) -> Result<Vec<(K, usize)>, AllocError>
    ensures { IfOk result (λ located. state_of K.encoding (λ place. place ∷ []) located.items
        ≡ places_at (map K.encoding keys.items) slots.items) }
{
    let mut located = Vec::with_capacity(alloc, keys.len())?;
    for (key, slot) in keys.into_iter().zip(slots) {
        push_place(key, slot, &mut located)?;
    }
    Ok(located)
}

/// The keys of a log, each with its place where it has one, and for each operation the rank of the key that it names
/// (own).
#[derive(Drop)]
pub struct RankedPlaces<K: FixedKey> {
    alloc: Global,
    // The keys, each once, in ascending order.
    keys: Vec<K>,
    // For each of them its place, where it has one.
    slots: Vec<Option<usize>>,
    // For each operation the rank of the key that it names; of a commit it says nothing.
    ranks: Vec<usize>,
}

impl<K: FixedKey> Model for RankedPlaces<K> {
    ghost use Rattle.std.specs.Prelude.{◌≡◌, length, map};
    ghost use Rattle.auth_store_parts.specs.Ranked.{AreAscending, Ranked, places_at, names_at};

    ghost Value = { Ranked };

    ghost view = { λ ranked. record {
      names = names_at (map K.encoding ranked.keys.items) ranked.ranks.items;
      places = places_at (map K.encoding ranked.keys.items) ranked.slots.items;
    } };

    ghost invariant = { λ ranked. AreAscending (map K.encoding ranked.keys.items)
        × (length ranked.slots.items ≡ length ranked.keys.items) };
}

impl<K: FixedKey> RankedPlaces<K> {
    /// The keys of the operations, none of which has a place. It fails only when out of memory.
    pub fn of<F: Family, V: FixedValue>(
        alloc: Global,
        operations: &[OrderedOperation<F, K, V>],
    ) -> Result<RankedPlaces<K>, AllocError>
        ensures named { IfOk result (λ ranked. AreNamed ranked.names 0
            (spec.meanings K.encoding V.encoding operations.now)) }
        ensures none { IfOk result (λ ranked. ranked.places ≡ []) }
    {
        let sorted = in_order(located_keys(alloc, 0, operations)?)?;
        let (keys, ranks) = rank_keys(alloc, sorted, operations.len())?;
        let slots = Vec::from_elem(alloc, None, keys.len())?;
        Ok(RankedPlaces {
            alloc,
            keys,
            slots,
            ranks,
        })
    }

    /// Where the update stands that gives the key of the operation at this location its value. None: that key isn't
    /// there.
    pub fn get(&self, location: usize) -> Option<usize>
        ensures { (key : List ℕ) → slice_get self.now.names location ≡ Some (Some key)
            → option_map (λ place. place ∷ []) result ≡ value_at self.now.places key }
    {
        let rank = *self.ranks.get(location)?;
        *self.slots.get(rank)?
    }

    /// Gives the key of the operation at this location a place, or none.
    fn put(&mut self, location: usize, place: Option<usize>)
        requires { (key : List ℕ) × (slice_get self.old.names location ≡ Some (Some key)) }
        ensures { (key : List ℕ) → slice_get self.old.names location ≡ Some (Some key)
            → self.new ≡ record self.old { places = with_place self.old.places key place } }
    {
        let rank = self.ranks[location];
        self.slots[rank] = place;
    }

    /// Takes an operation that stands at this location.
    pub fn follow<F: Family, V: FixedValue>(
        &mut self,
        location: usize,
        operation: &OrderedOperation<F, K, V>,
    )
        requires { AreNamed self.old.names location (meaning_of K.encoding V.encoding operation.now ∷ []) }
        ensures { self.new ≡ record self.old {
          places = after_place location (meaning_of K.encoding V.encoding operation.now) self.old.places;
        } }
    {
        match operation {
            Operation::Delete(_) => self.put(location, None),
            Operation::Update(_) => self.put(location, Some(location)),
            Operation::CommitFloor(_, _) => {}
        }
    }

    /// Takes operations, the first of which stands at `start`.
    pub fn follow_all<F: Family, V: FixedValue>(
        &mut self,
        start: usize,
        operations: &[OrderedOperation<F, K, V>],
    )
        requires room { start + length operations.now < 2 ^ 64 }
        requires named { AreNamed self.old.names start (spec.meanings K.encoding V.encoding operations.now) }
        ensures { self.new ≡ record self.old {
          places = placed start self.old.places (spec.meanings K.encoding V.encoding operations.now);
        } }
    {
        for (index, operation) in operations.iter().enumerate() {
            self.follow(start + index, operation);
        }
    }

    /// The places alone. It fails only when out of memory.
    pub fn into_places(self) -> Result<Places<K>, AllocError>
        ensures { IfOk result (λ places. places ≡ self.places) }
    {
        let RankedPlaces {
            alloc,
            keys,
            slots,
            ranks: _,
        } = self;
        let located = located_places(alloc, keys, slots)?;
        Places::of_located(alloc, located)
    }
}
