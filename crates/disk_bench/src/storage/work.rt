//! What is measured, once. Each answers a number that depends on what was computed.

use fault_storage::memory::{self, Storage};
use fault_storage::{Blob, Checksum, Crc32, Error, Versions, WriteMode};
use std::alloc::Global;

// The versions that the blobs are opened with.
const VERSIONS: Versions = Versions {
    least: 0,
    greatest: 0,
};

/// The checksum of a page, the first byte of which is the number's lowest.
pub fn checksum(page: &mut [u8; 4096], number: u64) -> u64 {
    page[0] = (number % 256) as u8;
    u64::from(Crc32::checksum(page))
}

/// A blob of so many bytes, which are durable.
pub fn blob_of(storage: &mut Storage, name: &[u8], size: u64) -> Result<memory::Blob, Error> {
    let mut blob = fault_storage::Storage::open_versioned(storage, "p", name, VERSIONS)?.blob;
    blob.resize(storage, size)?;
    blob.sync(storage)?;
    Ok(blob)
}

/// A plain write of 64 bytes at the beginning: 1 where it was made.
pub fn write(blob: &mut memory::Blob, storage: &mut Storage, bytes: &[u8; 64]) -> u64 {
    u64::from(blob.write_at(storage, 0, bytes, WriteMode::Plain).is_ok())
}

/// A sync of the live bytes: 1 where it was made.
pub fn sync(blob: &memory::Blob, storage: &mut Storage) -> u64 {
    u64::from(blob.sync(storage).is_ok())
}

/// A copy of the bytes: its length.
pub fn copy(alloc: Global, bytes: &[u8]) -> u64 {
    match bytes.to_vec(alloc) {
        Ok(copied) => copied.len() as u64,
        Err(_) => 0,
    }
}
