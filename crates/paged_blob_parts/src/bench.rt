//! What tests and measurements stand on.

ghost use Rattle.std.specs.Prelude.{◌≡◌, ◌<◌, ◌≤◌, ◌^◌, ◌+◌, ◌++◌, ◌∷◌, [], length, take, drop};
ghost use Rattle.std.specs.Prelude.{true, false, None, IfOk, OnOk, OnErr};
ghost use Rattle.paged_blob_parts.specs.Calls.{opened, content, resized, with_bytes};
ghost use Rattle.paged_blob_parts.specs.Recorded.{calls_of};

use crate::blob::{Blob, WriteMode, place_of};
use crate::error::Error;
use crate::record::Recorded;
use std::alloc::{AllocError, Global};

/// A blob in memory that never fails, and keeps a record of all its calls (own).
#[derive(Debug, Drop)]
pub struct MemoryDisk {
    alloc: Global,
    record_kept: Vec<Recorded>,
    bytes: Vec<u8>,
    ghost live: { bytes.items ≡ content (calls_of record_kept.items) },
}

// Lays the bytes over others, which reach as far.
fn overwrite(file: &mut [u8], offset: usize, bytes: &[u8])
    requires { offset + length bytes.now ≤ length file.old }
    ensures { file.new ≡ take offset file.old ++ (bytes.now ++ drop (offset + length bytes.now) file.old) }
{
    file[offset..offset + bytes.len()].copy_from_slice(bytes);
}

/// Lays the bytes over the file, with zeros in a gap before them. Out of memory, the file stays (own).
pub fn put_bytes(file: &mut Vec<u8>, offset: usize, bytes: &[u8]) -> Result<(), AllocError>
    requires { offset + length bytes.now < 2 ^ 64 }
    ensures ok { OnOk result (file.new.items ≡ with_bytes offset bytes.now file.old.items) }
    ensures err { OnErr result (file.new.items ≡ file.old.items) }
{
    if offset == file.len() {
        file.extend_from_slice(bytes)?;
        return Ok(());
    }
    let end = offset + bytes.len();
    if file.len() >= end {
        overwrite(file, offset, bytes);
        return Ok(());
    }
    set_length(file, end)?;
    overwrite(file, offset, bytes);
    Ok(())
}

#[tactic(auto, unfolding(crate::specs::Calls::resized))]
/// Cuts the file to a length, or grows it by zeros. Out of memory, it stays (own).
pub fn set_length(file: &mut Vec<u8>, len: usize) -> Result<(), AllocError>
    ensures ok { OnOk result (file.new.items ≡ resized len file.old.items) }
    ensures err { OnErr result (file.new.items ≡ file.old.items) }
{
    file.resize(len, 0)
}

impl MemoryDisk {
    ghost use Rattle.paged_blob_parts.specs.MemoryDisks.{calls_in};

    /// An empty blob.
    pub fn new(alloc: Global) -> MemoryDisk
        ensures { calls_in result ≡ [] }
    {
        MemoryDisk {
            alloc,
            record_kept: Vec::new(alloc),
            bytes: Vec::new(alloc),
        }
    }

    /// A blob that shows these bytes, all of them durable. It fails only when out of memory.
    pub fn showing(alloc: Global, bytes: Vec<u8>) -> Result<MemoryDisk, AllocError>
        ensures { IfOk result (λ disk. calls_in disk ≡ opened bytes.items ∷ []) }
    {
        let shown = bytes.to_vec(alloc)?;
        let mut record_kept = Vec::new(alloc);
        record_kept.push(Recorded::Opened(shown))?;
        Ok(MemoryDisk {
            alloc,
            record_kept,
            bytes,
        })
    }

    /// Its calls, the oldest first.
    pub fn record(&self) -> &[Recorded]
        ensures { calls_of result.now ≡ calls_in self.now }
    {
        &self.record_kept
    }

    /// The bytes that it has.
    pub fn as_bytes(&self) -> &[u8]
        ensures { result.now ≡ content (calls_in self.now) }
    {
        &self.bytes
    }
}

impl Blob for MemoryDisk {
    ghost calls = { λ d. calls_of d.record_kept.items };

    ghost failures = { λ _. record {
      injected = 0;
      refused = 0;
      is_open = true;
      is_asked = false;
      settings = None;
      files = 0;
    } };

    ghost left = { λ _. 0 };

    fn read_at(&mut self, alloc: Global, offset: u64, len: usize) -> Result<Vec<u8>, Error> {
        let Some(end) = (offset as usize).checked_add(len) else {
            return Err(Error::NumberEnded);
        };
        if end > self.bytes.len() {
            return Err(Error::BlobInsufficientLength);
        }
        Ok(self.bytes[offset as usize..end].to_vec(alloc)?)
    }

    fn write_at(&mut self, offset: u64, bytes: &[u8], mode: WriteMode) -> Result<(), Error> {
        if offset.checked_add(bytes.len() as u64).is_none() {
            return Err(Error::NumberEnded);
        }
        let copy = bytes.to_vec(self.alloc)?;
        let place = place_of(mode, offset, bytes);
        let is_sync = mode == WriteMode::Sync;
        self.record_kept
            .push(Recorded::Wrote(place, copy, is_sync, true))?;
        if put_bytes(&mut self.bytes, place as usize, bytes).is_err() {
            self.record_kept.pop();
            return Err(Error::Memory);
        }
        Ok(())
    }

    fn resize(&mut self, len: u64) -> Result<(), Error> {
        self.record_kept.push(Recorded::ResizedTo(len, true))?;
        if set_length(&mut self.bytes, len as usize).is_err() {
            self.record_kept.pop();
            return Err(Error::Memory);
        }
        Ok(())
    }

    fn sync(&mut self) -> Result<(), Error> {
        let synced = self.bytes.to_vec(self.alloc)?;
        self.record_kept.push(Recorded::Synced(synced, true))?;
        Ok(())
    }
}
