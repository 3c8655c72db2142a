//! Stores that are filled, opened and read. Each answers a number that depends on what was computed, 0 where it was
//! refused.

ghost use Rattle.std.specs.Prelude.{◌≡◌, None, IfOk};
ghost use Rattle.auth_store_machine.specs.Stores.{IsCache};

use crate::plain_hash::PlainHash;
use auth_store_device::Device;
use auth_store_ledger::Batch;
use auth_store_log::operations::next_operation;
use auth_store_log::{PlacedLog, operations_of, recover};
use auth_store_parts::history::Places;
use auth_store_session::{Sizes, Store, StoreError};
use fault_storage::Crc32;
use merkle_forest::codec::{Cursor, FixedBytes};
use merkle_forest::mmr;
use paged_blob::CacheRef;
use rand_core::SeedableRng;
use rand_pcg::Pcg32;
use state_ops::{Operation, OrderedOperation};
use std::alloc::Global;

/// Keys of eight bytes.
pub type Key = FixedBytes<8>;

/// The stores that are measured.
pub type Measured = Store<Pcg32, mmr::Family, PlainHash, Key, u64, 1>;

/// Another number, that of the next is far from.
pub fn spread(number: u64) -> u64 {
    number.wrapping_mul(0x9e37_79b9_7f4a_7c15)
}

/// A key for each number.
pub fn key_of(number: u64) -> Key {
    FixedBytes::new(spread(number).to_be_bytes())
}

/// What a store is filled with: so many keys, in batches of so many, and all of them so many times, each time with
/// other values.
#[derive(Clone, Copy, Debug)]
pub struct Filling {
    pub keys: u64,
    pub batch: u64,
    pub times: u64,
}

impl Filling {
    /// So many keys, in batches of so many, once.
    pub fn once(keys: u64, batch: u64) -> Filling {
        Filling {
            keys,
            batch,
            times: 1,
        }
    }
}

// Commits as many keys as the batch has, from a number on. The value of each is its number and what is added.
fn commit_keys(
    alloc: Global,
    store: &mut Measured,
    from: u64,
    keys: u64,
    added: u64,
) -> Result<(), StoreError> {
    let mut batch = Batch::new(alloc);
    for number in from..from.saturating_add(keys) {
        batch.put(key_of(number), number.wrapping_add(added))?;
    }
    store.commit(batch, None)?;
    Ok(())
}

// A device with a store that is filled so. The first time the value of a key is its number, and each time one more.
fn filled(alloc: Global, filling: Filling) -> Result<(Device<Pcg32>, CacheRef), StoreError>
    ensures closed { IfOk result (λ r. r.0.log ≡ None) }
    ensures cache { IfOk result (λ r. IsCache r.1) }
{
    let Filling { keys, batch, times } = filling;
    let device = Device::empty(alloc, Pcg32::seed_from_u64(0))?;
    let cache = CacheRef::new(alloc, 4084, 1024);
    let mut store: Measured = match Store::open(alloc, device, cache, Sizes::default()) {
        Ok(store) => store,
        Err(refused) => return Err(refused.error),
    };
    for time in 0..times {
        for number in 0..keys / batch.max(1) {
            commit_keys(alloc, &mut store, number.saturating_mul(batch), batch, time)?;
        }
    }
    Ok(store.into_parts())
}

// How many operations a store has that is opened so many times.
fn open_often(alloc: Global, device: Device<Pcg32>, cache: CacheRef, count: u64) -> u64
    requires closed { device.log ≡ None }
    requires cache { IsCache cache }
{
    let mut device = device;
    let mut cache = cache;
    let mut operations = 0u64;
    for _ in 0..count {
        let store: Measured = match Store::open(alloc, device, cache, Sizes::default()) {
            Ok(store) => store,
            Err(_) => return 0,
        };
        operations = operations.wrapping_add(store.len().unwrap_or(0));
        (device, cache) = store.into_parts();
    }
    operations
}

/// The device of a store that is filled so.
pub fn device_of(alloc: Global, filling: Filling) -> Option<Device<Pcg32>> {
    let (device, _cache) = filled(alloc, filling).ok()?;
    Some(device)
}

/// The store of a device, which is taken, opened so many times, with a cache that holds nothing at first.
pub fn opened(alloc: Global, device: &mut Option<Device<Pcg32>>, count: u64) -> u64 {
    let Some(mut device) = device.take() else {
        return 0;
    };
    device.close();
    let cache = CacheRef::new(alloc, 4084, 1024);
    open_often(alloc, device, cache, count)
}

// How many operations some bytes have.
fn decode_all(alloc: Global, bytes: &[u8]) -> u64 {
    let mut cursor = Cursor::new(bytes);
    let mut operations = 0u64;
    for _ in 0..bytes.len() {
        if cursor.is_empty() {
            break;
        }
        if next_operation::<mmr::Family, Key, u64>(alloc, &mut cursor).is_err() {
            return 0;
        }
        operations = operations.wrapping_add(1);
    }
    operations
}

// So many operations, and one more where the first key has a place.
fn placed(operations: usize, places: &Places<Key>) -> u64 {
    (operations as u64).wrapping_add(u64::from(places.get(&key_of(0)).is_some()))
}

// The same of the operations of some bytes.
fn index_all(alloc: Global, bytes: &[u8]) -> u64 {
    let mut cursor = Cursor::new(bytes);
    let mut operations = Vec::new(alloc);
    for _ in 0..bytes.len() {
        if cursor.is_empty() {
            break;
        }
        let Ok(operation) = next_operation::<mmr::Family, Key, u64>(alloc, &mut cursor) else {
            return 0;
        };
        if operations.push(operation).is_err() {
            return 0;
        }
    }
    match Places::of(alloc, &operations) {
        Ok(places) => placed(operations.len(), &places),
        Err(_) => 0,
    }
}

// The same, where the operations are those of a history.
fn index_checked(alloc: Global, bytes: &[u8]) -> u64 {
    match operations_of::<mmr::Family, Key, u64>(alloc, bytes) {
        Ok(log) => placed(log.operations.len(), &log.places),
        Err(_) => 0,
    }
}

// How many commits operations have behind the first one.
fn commits_in(operations: &[OrderedOperation<mmr::Family, Key, u64>]) -> u64 {
    let [_, later @ ..] = operations else {
        return 0;
    };
    let mut commits = 0u64;
    for operation in later {
        if matches!(operation, Operation::CommitFloor(_, _)) {
            commits = commits.wrapping_add(1);
        }
    }
    commits
}

// The floor that the last commit of operations records.
fn floor_in(operations: &[OrderedOperation<mmr::Family, Key, u64>]) -> u64 {
    let mut floor = 0u64;
    for operation in operations {
        if let Operation::CommitFloor(_, recorded) = operation {
            floor = recorded.as_u64();
        }
    }
    floor
}

// The sum of the operations, the commits and the floor of the history that some bytes are the log of. All is made that
// a ledger is made of but trees and bits. Its own counts of commits and floor are private, so what stands here does the
// same work.
fn take_all(alloc: Global, bytes: &[u8]) -> u64 {
    let Ok(placed) = operations_of::<mmr::Family, Key, u64>(alloc, bytes) else {
        return 0;
    };
    let PlacedLog {
        operations,
        places: _,
    } = placed;
    let commits = commits_in(&operations);
    let floor = floor_in(&operations);
    (operations.len() as u64)
        .wrapping_add(commits)
        .wrapping_add(floor)
}

/// What is made of a log that is read.
#[derive(Clone, Copy, Debug)]
pub enum Use {
    /// Its operations are decoded, and counted.
    Decoded,
    /// They are kept, and a place is found for each key.
    Indexed,
    /// So, and it is checked that they are those of a history.
    Checked,
    /// So, with the commits and the floor: all that an opening does but for the root.
    Taken,
}

// How many operations the log of a device has that is read so many times, with what is made of it each time.
fn read_often(alloc: Global, device: Device<Pcg32>, cache: CacheRef, count: u64, used: Use) -> u64
    requires closed { device.log ≡ None }
    requires cache { IsCache cache }
{
    let mut device = device;
    let mut cache = cache;
    let mut operations = 0u64;
    for _ in 0..count {
        let Ok(size) = device.open() else {
            return 0;
        };
        let Ok((_, bytes)) = recover::<mmr::Family, Key, u64, Device<Pcg32>, Crc32>(
            alloc,
            &mut device,
            &mut cache,
            size,
            Sizes::default().write_buffer,
        ) else {
            return 0;
        };
        let made = match used {
            Use::Decoded => decode_all(alloc, &bytes),
            Use::Indexed => index_all(alloc, &bytes),
            Use::Checked => index_checked(alloc, &bytes),
            Use::Taken => take_all(alloc, &bytes),
        };
        operations = operations.wrapping_add(made);
        device.close();
    }
    operations
}

/// The log of a device, which is taken, read so many times, with a cache that holds nothing at first, and with what is
/// made of the log each time.
pub fn used(alloc: Global, device: &mut Option<Device<Pcg32>>, count: u64, used: Use) -> u64 {
    let Some(mut device) = device.take() else {
        return 0;
    };
    device.close();
    let cache = CacheRef::new(alloc, 4084, 1024);
    read_often(alloc, device, cache, count, used)
}

/// A store that is filled so, closed and opened again.
pub fn made(alloc: Global, filling: Filling) -> Option<Measured> {
    let (device, cache) = filled(alloc, filling).ok()?;
    Store::open(alloc, device, cache, Sizes::default()).ok()
}

/// Opens the log of a device anew.
pub fn open_log(device: &mut Option<Device<Pcg32>>) {
    if let Some(device) = device {
        device.close();
        let _ = device.open();
    }
}

/// The store of a device, which is taken, opened anew.
pub fn reopened(alloc: Global, device: &mut Option<Device<Pcg32>>) -> Option<Measured> {
    let Some(mut device) = device.take() else {
        return None;
    };
    device.close();
    let cache = CacheRef::new(alloc, 4084, 1024);
    Store::open(alloc, device, cache, Sizes::default()).ok()
}

/// How many operations a store has, 0 where there is none.
pub fn operations_in(store: &Option<Measured>) -> u64 {
    match store {
        Some(store) => store.len().unwrap_or(0),
        None => 0,
    }
}

/// The sum of so many values that are read, one key after the other.
pub fn read(store: &mut Measured, keys: u64, count: u64) -> u64 {
    let mut sum = 0u64;
    for number in 0..count {
        if let Ok(Some(value)) = store.get(&key_of(number % keys.max(1))) {
            sum = sum.wrapping_add(value);
        }
    }
    sum
}

// The places of the keys in the log of a device.
fn read_places(alloc: Global, device: Device<Pcg32>, cache: CacheRef) -> Option<Places<Key>>
    requires closed { device.log ≡ None }
    requires cache { IsCache cache }
{
    let mut device = device;
    let mut cache = cache;
    let Ok(size) = device.open() else {
        return None;
    };
    let Ok((_, bytes)) = recover::<mmr::Family, Key, u64, Device<Pcg32>, Crc32>(
        alloc,
        &mut device,
        &mut cache,
        size,
        Sizes::default().write_buffer,
    ) else {
        return None;
    };
    match operations_of::<mmr::Family, Key, u64>(alloc, &bytes) {
        Ok(log) => Some(log.places),
        Err(_) => None,
    }
}

/// The places of the keys in the log of a store that is filled so.
pub fn index_of(alloc: Global, filling: Filling) -> Option<Places<Key>> {
    match filled(alloc, filling) {
        Ok((device, cache)) => read_places(alloc, device, cache),
        Err(_) => None,
    }
}

/// The sum of so many places that are looked up, one key after the other.
pub fn look_up(places: &Places<Key>, keys: u64, count: u64) -> u64 {
    let mut sum = 0u64;
    for number in 0..count {
        if let Some(place) = places.get(&key_of(number % keys.max(1))) {
            sum = sum.wrapping_add(place as u64);
        }
    }
    sum
}
