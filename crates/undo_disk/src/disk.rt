//! A blob in memory that keeps no byte twice. A record of calls has the bytes of each write and of each sync; here they
//! stand in the file alone, and of each call the record has what it took away. The calls are read off both, the
//! newest first:
//!
//!     file    abcdXYgh     the write had the two bytes that stand at 4
//!     step    4, 2, ef     these stood there before
//!     before  abcdefgh     and so on with the steps before it

ghost use Rattle.std.specs.Prelude.{◌≡◌, [], true, false, None, take, drop, reverse, IfOk};
ghost use Rattle.paged_blob_parts.specs.Calls.{content};
ghost use Rattle.undo_disk.specs.Undone.{calls_from};

use crate::step::Step;
use paged_blob_parts::bench::{put_bytes, set_length};
use paged_blob_parts::blob::place_of;
use paged_blob_parts::{Blob, Error, WriteMode};
use std::alloc::{AllocError, Global};

/// A blob in memory that never fails, and records its calls by what it takes to undo them.
#[derive(Debug, Drop)]
pub struct UndoDisk {
    alloc: Global,
    steps: Vec<Step>,
    bytes: Vec<u8>,
    ghost live: { bytes.items ≡ content (calls_from (reverse steps.items) bytes.items) },
}

// What a file has from an offset on.
fn behind(file: &[u8], offset: usize) -> &[u8]
    ensures { result.now ≡ drop offset file.now }
{
    &file[offset.min(file.len())..]
}

// What it has in a place of so many bytes.
fn there(file: &[u8], offset: usize, len: usize) -> &[u8]
    ensures { result.now ≡ take len (drop offset file.now) }
{
    let rest = behind(file, offset);
    &rest[..len.min(rest.len())]
}

impl UndoDisk {
    /// An empty blob, whose file has room for so many bytes. It fails only when out of memory.
    pub fn with_capacity(alloc: Global, capacity: usize) -> Result<UndoDisk, AllocError>
        ensures { IfOk result (λ disk. calls_from (reverse disk.steps.items) disk.bytes.items ≡ []) }
    {
        let bytes = Vec::with_capacity(alloc, capacity)?;
        Ok(UndoDisk {
            alloc,
            steps: Vec::new(alloc),
            bytes,
        })
    }
}

impl Blob for UndoDisk {
    ghost calls = { λ d. calls_from (reverse d.steps.items) d.bytes.items };

    ghost failures = { λ _. record {
      injected = 0;
      refused = 0;
      is_open = true;
      is_asked = false;
      settings = None;
      files = 0;
    } };

    ghost left = { λ _. 0 };

    fn read_at(&mut self, alloc: Global, offset: u64, len: usize) -> Result<Vec<u8>, Error> {
        let Some(end) = (offset as usize).checked_add(len) else {
            return Err(Error::NumberEnded);
        };
        if end > self.bytes.len() {
            return Err(Error::BlobInsufficientLength);
        }
        Ok(self.bytes[offset as usize..end].to_vec(alloc)?)
    }

    fn write_at(&mut self, offset: u64, bytes: &[u8], mode: WriteMode) -> Result<(), Error> {
        if offset.checked_add(bytes.len() as u64).is_none() {
            return Err(Error::NumberEnded);
        }
        let size = self.bytes.len();
        let place = place_of(mode, offset, bytes);
        let lost = there(&self.bytes, place as usize, bytes.len()).to_vec(self.alloc)?;
        let is_sync = mode == WriteMode::Sync;
        let step = Step::Wrote(place, bytes.len(), is_sync, size, lost);
        self.steps.push(step)?;
        if put_bytes(&mut self.bytes, place as usize, bytes).is_err() {
            self.steps.pop();
            return Err(Error::Memory);
        }
        Ok(())
    }

    fn resize(&mut self, len: u64) -> Result<(), Error> {
        let size = self.bytes.len();
        let lost = behind(&self.bytes, len as usize).to_vec(self.alloc)?;
        self.steps.push(Step::Resized(len, size, lost))?;
        if set_length(&mut self.bytes, len as usize).is_err() {
            self.steps.pop();
            return Err(Error::Memory);
        }
        Ok(())
    }

    fn sync(&mut self) -> Result<(), Error> {
        self.steps.push(Step::Synced)?;
        Ok(())
    }
}
