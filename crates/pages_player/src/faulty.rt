//! A blob in memory of which a sync is refused by a fault.

ghost use Rattle.std.specs.Prelude.{◌≡◌, ◌∷◌, [], true, false, None, IfOk};
ghost use Rattle.paged_blob_parts.specs.Calls.{opened};
ghost use Rattle.paged_blob_parts.specs.MemoryDisks.{calls_in};
ghost use Rattle.pages_player.specs.Faulty.{calls_then, faults};

use paged_blob::bench::MemoryDisk;
use paged_blob::{Blob, CallKind, Error, WriteMode};
use std::alloc::{AllocError, Global};

/// A blob in memory that spares so many syncs. The next is refused by a fault, and after that it is read as before, and
/// each other call refused for want of memory.
#[derive(Drop)]
pub struct FaultyDisk {
    disk: MemoryDisk,
    spared: u64,
    has_failed: bool,
}

impl FaultyDisk {
    /// A blob that shows these bytes, all of them durable. It fails only when out of memory.
    pub fn showing(alloc: Global, bytes: Vec<u8>, spared: u64) -> Result<FaultyDisk, AllocError>
        ensures calls { IfOk result (λ d. calls_then d.has_failed (calls_in d.disk) ≡ opened bytes.items ∷ []) }
    {
        Ok(FaultyDisk {
            disk: MemoryDisk::showing(alloc, bytes)?,
            spared,
            has_failed: false,
        })
    }

    /// Whether a sync was refused.
    pub fn has_failed(&self) -> bool {
        self.has_failed
    }

    /// The blob in memory that is under it.
    pub fn disk(&self) -> &MemoryDisk {
        &self.disk
    }
}

impl Blob for FaultyDisk {
    ghost calls = { λ d. calls_then d.has_failed (calls_in d.disk) };

    ghost failures = { λ d. record {
      injected = faults d.has_failed;
      refused = 0;
      is_open = true;
      is_asked = false;
      settings = None;
      files = 0;
    } };

    ghost left = { λ _. 0 };

    fn read_at(&mut self, alloc: Global, offset: u64, len: usize) -> Result<Vec<u8>, Error> {
        self.disk.read_at(alloc, offset, len)
    }

    fn write_at(&mut self, offset: u64, bytes: &[u8], mode: WriteMode) -> Result<(), Error> {
        if self.has_failed {
            return Err(Error::Memory);
        }
        self.disk.write_at(offset, bytes, mode)
    }

    fn resize(&mut self, len: u64) -> Result<(), Error> {
        if self.has_failed {
            return Err(Error::Memory);
        }
        self.disk.resize(len)
    }

    fn sync(&mut self) -> Result<(), Error> {
        if self.has_failed {
            return Err(Error::Memory);
        }
        if self.spared > 0 {
            self.spared -= 1;
            return self.disk.sync();
        }
        self.has_failed = true;
        Err(Error::Injected(CallKind::Sync))
    }
}
