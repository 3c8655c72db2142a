//! What every store of blobs does, told by what each call may give.

ghost use Rattle.std.specs.Prelude.{◌≡◌, ℕ, List, Option, Result, option_map};
ghost use Rattle.std.specs.declared.alloc.Global.{Global};
ghost use Rattle.std.specs.declared.vec.Vec.{Vec};
ghost use Rattle.fault_storage_parts.specs.declared.error.Error.{Error};
ghost use Rattle.fault_storage_parts.specs.declared.header.Versions.{Versions};
ghost use Rattle.fault_storage.specs.declared.storage.Opened.{Opened};
ghost use Rattle.fault_storage.specs.declared.storage.WriteMode.{WriteMode};

use crate::error::Error;
use crate::header::Versions;
use crate::started::StartedSync;

/// A blob that was opened.
#[derive(Debug, Drop)]
pub struct Opened<B> {
    /// The blob.
    pub blob: B,
    /// How many bytes it has.
    pub size: u64,
    /// Its blob version.
    pub version: u16,
}

/// Whether a write is durable at once. In the Rust: `commonware_runtime::WriteMode`.
#[derive(Clone, Copy, Debug, PartialEq, Eq)]
pub enum WriteMode {
    /// It is durable after the next sync.
    Plain,
    /// It is durable at once, and it alone.
    Sync,
}

/// A store of blobs by partition and name. In the Rust: `commonware_runtime::Storage`.
pub trait Storage {
    /// Its blobs.
    type Blob;

    /// What an opening may give: from a store, a partition, a name and versions to an answer and a store.
    ghost opens: { Self → List ℕ → List ℕ → Versions → Result (Opened Self.Blob) Error → Self → Type 0 };

    /// What a listing may give.
    ghost scans: { Self → List ℕ → Result (Vec (Vec ℕ Global) Global) Error → Self → Type 0 };

    /// What a removal may give.
    ghost removes: { Self → List ℕ → Option (List ℕ) → Result Unit Error → Self → Type 0 };

    /// Opens the blob of this name, which it creates where there is none, in the greatest of the versions.
    fn open_versioned(
        &mut self,
        partition: &str,
        name: &[u8],
        versions: Versions,
    ) -> Result<Opened<Self::Blob>, Error>
        ensures { opens self.old partition.now name.now versions result self.new };

    /// The names of the partition's blobs in byte order.
    fn scan(&mut self, partition: &str) -> Result<Vec<Vec<u8>>, Error>
        ensures { scans self.old partition.now result self.new };

    /// Removes the blob of this name, or without a name the partition with all its blobs.
    fn remove(&mut self, partition: &str, name: Option<&[u8]>) -> Result<(), Error>
        ensures { removes self.old partition.now (option_map (λ x. x.now) name.entry) result self.new };
}

/// A blob of a store, which is lent to each call. In the Rust: `commonware_runtime::Blob`.
pub trait Blob<S> {
    /// What a read may give: from a blob, an offset, a count and a store to an answer and a store.
    ghost reads: { Self → ℕ → ℕ → S → Result (Vec ℕ Global) Error → S → Type 0 };

    /// What a read into a buffer may make of it.
    ghost fills: { Self → ℕ → List ℕ → List ℕ → S → Result Unit Error → S → Type 0 };

    /// What a write may give, and the blob after it.
    ghost writes: { Self → ℕ → List ℕ → WriteMode → S → Result Unit Error → Self → S → Type 0 };

    /// What a resize may give, and the blob after it.
    ghost resizes: { Self → ℕ → S → Result Unit Error → Self → S → Type 0 };

    /// What a sync may give.
    ghost syncs: { Self → S → Result Unit Error → S → Type 0 };

    /// So many bytes from an offset on.
    fn read_at(&self, storage: &mut S, offset: u64, count: usize) -> Result<Vec<u8>, Error>
        ensures { reads self.now offset count storage.old result storage.new };

    /// Reads into the buffer from an offset on, and fills it; refused, it stays as it is.
    fn read_at_buf(&self, storage: &mut S, offset: u64, buffer: &mut [u8]) -> Result<(), Error>
        ensures { fills self.now offset buffer.old buffer.new storage.old result storage.new };

    /// Writes the bytes at an offset, with zeros in a gap before them.
    fn write_at(
        &mut self,
        storage: &mut S,
        offset: u64,
        bytes: &[u8],
        mode: WriteMode,
    ) -> Result<(), Error>
        ensures { writes self.old offset bytes.now mode storage.old result self.new storage.new };

    /// Cuts the blob to a length, or grows it to that by zeros.
    fn resize(&mut self, storage: &mut S, size: u64) -> Result<(), Error>
        ensures { resizes self.old size storage.old result self.new storage.new };

    /// Makes the live bytes durable.
    fn sync(&self, storage: &mut S) -> Result<(), Error>
        ensures { syncs self.now storage.old result storage.new };

    /// Starts a sync of the bytes that are live now, and gives its answer as a value to be finished: a refusal is told
    /// of then. It is made at once, so that what a crash leaves from now on is what one leaves after it.
    /// In the Rust: `commonware_runtime::Blob::start_sync`.
    fn start_sync(&self, storage: &mut S) -> StartedSync
        ensures { syncs self.now storage.old result.answer storage.new }
    {
        StartedSync::new(self.sync(storage))
    }
}
