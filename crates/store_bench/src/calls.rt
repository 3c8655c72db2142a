//! Calls of the device, and of the faulty store under it. Each answers how many were made.

use auth_store_device::Device;
use fault_storage::{Blob, Config, Error, Storage, Versions, WriteMode, faulty, memory};
use rand_core::SeedableRng;
use rand_pcg::Pcg32;
use std::alloc::Global;

// The versions that the blob is opened with.
const VERSIONS: Versions = Versions {
    least: 0,
    greatest: 0,
};

// What a call of this number writes: other bytes than the one before.
fn written(number: u64) -> [u8; 64] {
    [(number % 251) as u8; 64]
}

/// A kind of calls of a log.
#[derive(Clone, Copy, Debug)]
pub enum Kind {
    /// Reads of 64 bytes at the beginning.
    Read,
    /// Writes of 64 bytes at the beginning, which the next sync makes durable.
    PlainWrite,
    /// Writes of 64 bytes at the beginning, which are durable at once.
    SyncedWrite,
    /// Resizes that take off the last 64 bytes, and put them back as zeros.
    Resize,
    /// Syncs of all bytes, between which nothing is written.
    Sync,
    /// Plain writes of 64 bytes at the beginning, each with a sync.
    WriteAndSync,
    /// Openings, each of which ends the one before. The device admits what it shows, and the store does not.
    Opening,
    /// Openings of which the store too admits what it shows.
    AdmittedOpening,
    /// Such openings, before each of which 64 bytes are written durably.
    WriteAndOpening,
}

impl Kind {
    /// What they are called.
    pub fn name(self) -> &'static str {
        match self {
            Kind::Read => "reads of 64 bytes",
            Kind::PlainWrite => "plain writes of 64 bytes",
            Kind::SyncedWrite => "synced writes of 64 bytes",
            Kind::Resize => "resizes by 64 bytes",
            Kind::Sync => "syncs",
            Kind::WriteAndSync => "plain writes of 64 bytes, each with a sync",
            Kind::Opening => "openings",
            Kind::AdmittedOpening => "openings that are admitted",
            Kind::WriteAndOpening =>
                "synced writes of 64 bytes, each with an opening that is admitted",
        }
    }
}

/// So many calls of a kind, of a log that has so many bytes.
#[derive(Clone, Copy, Debug)]
pub struct Calls {
    pub kind: Kind,
    pub size: u64,
    pub count: u64,
}

// The length that a resize asks for: by turns 64 bytes less, and all.
fn resized(size: u64, number: u64) -> u64 {
    if number % 2 == 0 {
        return size.saturating_sub(64);
    }
    size
}

/// A faulty store by which nothing fails, and its log, which is open.
#[derive(Drop)]
pub struct Below {
    storage: faulty::Storage<memory::Storage, Pcg32>,
    log: faulty::Blob<memory::Blob>,
}

/// A store whose log has so many bytes, all durable.
pub fn below_of(alloc: Global, size: u64) -> Result<Below, Error> {
    let below = memory::Storage::new(alloc);
    let mut storage = faulty::Storage::new(below, Pcg32::seed_from_u64(0), Config::default());
    let mut log = storage.open_versioned("store", b"log", VERSIONS)?.blob;
    log.resize(&mut storage, size)?;
    log.sync(&mut storage)?;
    Ok(Below { storage, log })
}

// Opens the log of the store anew.
fn open_below(below: &mut Below) -> Result<(), Error> {
    below.log = below
        .storage
        .open_versioned("store", b"log", VERSIONS)?
        .blob;
    Ok(())
}

// Opens it, and admits what it shows.
fn admit_below(below: &mut Below) -> Result<(), Error> {
    open_below(below)?;
    below.storage.admit("store", b"log")
}

// Writes 64 bytes at its beginning.
fn write_below(below: &mut Below, number: u64, mode: WriteMode) -> Result<(), Error> {
    let Below { storage, log } = below;
    log.write_at(storage, 0, &written(number), mode)
}

// The call of this number of the store.
fn call_below(below: &mut Below, kind: Kind, size: u64, number: u64) -> Result<(), Error> {
    match kind {
        Kind::Read => {
            below.log.read_at(&mut below.storage, 0, 64)?;
            Ok(())
        }
        Kind::PlainWrite => write_below(below, number, WriteMode::Plain),
        Kind::SyncedWrite => write_below(below, number, WriteMode::Sync),
        Kind::Resize => below.log.resize(&mut below.storage, size),
        Kind::Sync => below.log.sync(&mut below.storage),
        Kind::WriteAndSync => {
            write_below(below, number, WriteMode::Plain)?;
            below.log.sync(&mut below.storage)
        }
        Kind::Opening => open_below(below),
        Kind::AdmittedOpening => admit_below(below),
        Kind::WriteAndOpening => {
            write_below(below, number, WriteMode::Sync)?;
            admit_below(below)
        }
    }
}

/// The calls of the store.
pub fn made_below(below: &mut Below, calls: Calls) -> u64 {
    let mut made = 0u64;
    for number in 0..calls.count {
        let size = resized(calls.size, number);
        if call_below(below, calls.kind, size, number).is_ok() {
            made = made.wrapping_add(1);
        }
    }
    made
}

/// A device by which nothing fails, whose log is open and has so many bytes, all durable.
pub fn device_of(alloc: Global, size: u64) -> Option<Device<Pcg32>> {
    let Ok(mut device) = Device::empty(alloc, Pcg32::seed_from_u64(0)) else {
        return None;
    };
    if device.open().is_err() {
        return None;
    }
    paged_blob::Blob::resize(&mut device, size).ok()?;
    paged_blob::Blob::sync(&mut device).ok()?;
    Some(device)
}

// Opens the log of the device anew: whether that succeeds.
fn is_opened(device: &mut Device<Pcg32>) -> bool {
    device.close();
    device.open().is_ok()
}

// Writes 64 bytes at its beginning: whether that succeeds.
fn is_written(device: &mut Device<Pcg32>, number: u64, mode: paged_blob::WriteMode) -> bool {
    paged_blob::Blob::write_at(device, 0, &written(number), mode).is_ok()
}

// The call of this number of the device: whether it was made.
fn is_made(alloc: Global, device: &mut Device<Pcg32>, kind: Kind, size: u64, number: u64) -> bool {
    match kind {
        Kind::Read => paged_blob::Blob::read_at(device, alloc, 0, 64).is_ok(),
        Kind::PlainWrite => is_written(device, number, paged_blob::WriteMode::Plain),
        Kind::SyncedWrite => is_written(device, number, paged_blob::WriteMode::Sync),
        Kind::Resize => paged_blob::Blob::resize(device, size).is_ok(),
        Kind::Sync => paged_blob::Blob::sync(device).is_ok(),
        Kind::WriteAndSync => {
            is_written(device, number, paged_blob::WriteMode::Plain)
                && paged_blob::Blob::sync(device).is_ok()
        }
        Kind::Opening | Kind::AdmittedOpening => is_opened(device),
        Kind::WriteAndOpening => {
            is_written(device, number, paged_blob::WriteMode::Sync) && is_opened(device)
        }
    }
}

/// The calls of the device.
pub fn made(alloc: Global, device: &mut Device<Pcg32>, calls: Calls) -> u64 {
    let mut made = 0u64;
    for number in 0..calls.count {
        let size = resized(calls.size, number);
        if is_made(alloc, device, calls.kind, size, number) {
            made = made.wrapping_add(1);
        }
    }
    made
}
