//! The one place where a commit is made: what it appends to a log, and what is then kept, before anything is appended.

ghost use Rattle.std.specs.Prelude.{◌≡◌, ◌+◌, ◌-◌, ◌*◌, ◌<◌, ◌≤◌, ◌^◌, ◌++◌, ◌∷◌, [], true, map, drop, length};
ghost use Rattle.std.specs.Prelude.{option_map, IfOk, OnOk, OnErr};
ghost use Rattle.auth_store_index.specs.Growth.{cleared, first_set, taken};
ghost use Rattle.auth_store_index.specs.Touched.{is_no_delete};
ghost use Rattle.auth_store_ledger.specs.Commits.{AreFound, CanGrow};
ghost use Rattle.auth_store_ledger.specs.History.{meanings};
ghost use Rattle.auth_store_ledger.specs.Store.{setting_of_width};
ghost use Rattle.auth_store_parts.specs.Staged.{told, taken_back, CanTakeBack};
ghost use Rattle.state_current.specs.Growth.{grown};
ghost use Rattle.state_current.specs.Kept.{StandsFor};
ghost use Rattle.state_theory.specs.Bits.{all_bits};
ghost use Rattle.state_theory.specs.Canonical.{State};
ghost use Rattle.state_ops.specs.Operation.{meaning_of};

use super::kept::grow_by;
use crate::history::Places;
use auth_store_index::{ReadableBits, first_set_from, taken_places};
use merkle_forest::{Family, Graftable, HashFunction, Location};
use state_current::Current;
use state_ops::{FixedKey, FixedValue, Operation, OrderedOperation};
use std::alloc::{AllocError, Global};

/// What the changes of a batch lead to in a log, with the commit behind them.
#[derive(Drop)]
pub(super) struct Found<F: Family, K: FixedKey, V: FixedValue> {
    /// The operations that are appended.
    pub operations: Vec<OrderedOperation<F, K, V>>,
    /// A bit for each of them.
    pub bits: Vec<bool>,
    /// The locations whose operations they take out.
    pub places: Vec<u64>,
    /// The floor that the commit records.
    pub floor: u64,
}

// Whether the operation counts in its batch: it is no delete.
fn counts<F: Family, K: FixedKey, V: FixedValue>(operation: &OrderedOperation<F, K, V>) -> bool
    ensures { result ≡ is_no_delete (meaning_of K.encoding V.encoding operation.now) }
{
    match operation {
        Operation::Delete(_) => false,
        Operation::Update(_) => true,
        Operation::CommitFloor(_, _) => true,
    }
}

// A bit for each of the changes and for the commit behind them, set but for deletes. It fails only when out of memory.
fn bits_of<F: Family, K: FixedKey, V: FixedValue>(
    alloc: Global,
    changes: &[OrderedOperation<F, K, V>],
) -> Result<Vec<bool>, AllocError>
    ensures { IfOk result (λ bits. bits.items
        ≡ map is_no_delete (meanings K.encoding V.encoding changes.now) ++ true ∷ []) }
{
    let mut bits = Vec::new(alloc);
    for operation in changes {
        bits.push(counts(operation))?;
    }
    bits.push(true)?;
    Ok(bits)
}

// The places of a log with these places and its last commit here, whose operations the changes and the commit behind
// them take out. It fails only when out of memory.
fn places_taken<F: Family, K: FixedKey, V: FixedValue>(
    alloc: Global,
    index: &Places<K>,
    last: usize,
    changes: &[OrderedOperation<F, K, V>],
) -> Result<Vec<usize>, AllocError>
    ensures { IfOk result (λ places. places.items
        ≡ taken index.now last (meanings K.encoding V.encoding changes.now) ++ last ∷ []) }
{
    let mut places = taken_places(alloc, index, last, changes)?;
    places.push(last)?;
    Ok(places)
}

// The bits that are kept of a log, by the locations of its operations.
#[derive(Drop)]
struct KeptBits<'a, F: Graftable + 'a, H: HashFunction + 'a, const N: usize> {
    current: &'a Current<F, H, N>,
}

impl<'a, F: Graftable + 'a, H: HashFunction + 'a, const N: usize> ReadableBits
    for KeptBits<'a, F, H, N> {
    ghost bits = { λ kept. all_bits N kept.current.now.bits };

    ghost kept_from = { λ kept. 8 * N * kept.current.now.bits.pruned };

    fn len(&self) -> u64 {
        self.current.leaves().as_u64()
    }

    fn bit(&self, at: u64) -> bool {
        let _leaves = self.current.leaves();
        self.current.bit(at)
    }
}

// The floor that the commit records behind the log with these bits, of which those at the places are cleared. It is
// looked for from the floor before on. It fails only when out of memory.
fn next_floor<F: Graftable, H: HashFunction, const N: usize>(
    alloc: Global,
    current: &Current<F, H, N>,
    more: &[bool],
    places: &[usize],
) -> Result<u64, AllocError>
    requires few { current.now.operations.leaves + length more.now ≤ 2 ^ 62 }
    requires behind { 8 * N * current.now.bits.pruned ≤ current.now.floor }
    ensures { IfOk result (λ next. next ≡ current.now.floor
        + first_set (drop current.now.floor (cleared (all_bits N current.now.bits ++ more.now) places.now))) }
{
    let _leaves = current.leaves();
    let floor = current.floor().as_u64();
    first_set_from(alloc, &KeptBits { current }, more, places, floor)
}

// Places as numbers of the log's length. It fails only when out of memory.
fn as_locations(alloc: Global, places: &[usize]) -> Result<Vec<u64>, AllocError>
    ensures { IfOk result (λ locations. locations.items ≡ places.now) }
{
    let mut locations = Vec::new(alloc);
    for place in places {
        locations.push(*place as u64)?;
    }
    Ok(locations)
}

/// What the changes of a batch lead to in a log with these places, of which this is kept, with the commit behind them.
/// It fails only when out of memory.
pub(super) fn found_of<F, H, K, V, const N: usize>(
    alloc: Global,
    index: &Places<K>,
    current: &Current<F, H, N>,
    changes: Vec<OrderedOperation<F, K, V>>,
    metadata: Option<V>,
) -> Result<Found<F, K, V>, AllocError>
where
    F: Graftable,
    H: HashFunction,
    K: FixedKey,
    V: FixedValue,
    requires some { 0 < current.now.operations.leaves }
    requires few { current.now.operations.leaves + length changes.items < 2 ^ 62 }
    requires behind { 8 * N * current.now.bits.pruned ≤ current.now.floor }
    ensures { IfOk result (λ found. AreFound index.now (current.now.operations.leaves - 1)
        (meanings K.encoding V.encoding changes.items) (option_map V.encoding metadata) (all_bits N current.now.bits)
        current.now.floor (meanings K.encoding V.encoding found.operations.items) found.bits.items
        found.places.items found.floor) }
{
    let bits = bits_of(alloc, &changes)?;
    let last = current.leaves().as_u64() as usize - 1;
    let taken = places_taken(alloc, index, last, &changes)?;
    let floor = next_floor(alloc, current, &bits, &taken)?;
    let places = as_locations(alloc, &taken)?;
    let mut operations = changes;
    operations.push(Operation::CommitFloor(metadata, Location::new(floor)))?;
    Ok(Found {
        operations,
        bits,
        places,
        floor,
    })
}

/// More comes to what is kept, as `grow_by` says. It fails only when out of memory: what is kept then stays as it was,
/// and the places are given back what they had before.
pub(super) fn grow_or_back<F: Graftable, H: HashFunction, K: FixedKey, const N: usize>(
    index: &mut Places<K>,
    earlier: Vec<(K, Option<usize>)>,
    current: &mut Current<F, H, N>,
    operations: &[Vec<u8>],
    bits: &[bool],
    cleared: &[u64],
    floor: u64,
) -> Result<(), AllocError>
    requires can { CanTakeBack index.old (told K.encoding earlier.items) }
    requires room { CanGrow N current.old (length operations.now) bits.now cleared.now }
    ensures kept { OnOk result (index.new ≡ index.old) }
    ensures leaves { OnOk result (current.new.operations.leaves
        ≡ current.old.operations.leaves + length operations.now) }
    ensures pruned { current.new.bits.pruned ≡ current.old.bits.pruned }
    ensures stands { (state : State) → let setting = setting_of_width F.merge_rule H.hash_of N in
        StandsFor setting state current.old → OnOk result (StandsFor setting (grown state (record {
          operations = map (λ e. e.items) operations.now;
          bits = bits.now;
          cleared = cleared.now;
          floor = floor;
        })) current.new) }
    ensures back { OnErr result (index.new ≡ taken_back index.old (told K.encoding earlier.items)) }
    ensures unchanged { OnErr result (current.new ≡ current.old) }
{
    match grow_by(current, operations, bits, cleared, floor) {
        Ok(()) => Ok(()),
        Err(e) => {
            index.take_back(earlier);
            Err(e)
        }
    }
}
