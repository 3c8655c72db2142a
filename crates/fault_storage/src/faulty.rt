//! The store that fails as its settings say, over the store in memory.
//!
//! ```text
//!   a call    count full: F8 -> room for all that it may do: F9 -> draw: F6 -> the store in memory answers
//! ```
//!
//! A call that answers F8 or F9 has taken no word and changed nothing. The draw comes before every other check of the
//! store.

ghost use Rattle.std.specs.Prelude.{◌≡◌, ◌+◌, ◌-◌, ◌^◌, ◌<◌, ◌⊎◌, Err, Ok, IfErr, OnOk, OnErr, length, if◌then◌else◌};
ghost use Rattle.fault_storage_parts.specs.Draws.{sample};
ghost use Rattle.fault_storage_parts.specs.DrawsCode.{rate_of};
ghost use Rattle.fault_storage.specs.Stores.{resizing, without_retired, published, crashed_store};
ghost use Rattle.fault_storage.specs.Directory.{admitted, HasFile, LacksName, MemoryRemoves, MemoryScans, MemoryReads};
ghost use Rattle.fault_storage.specs.Directory.{MemoryFills, MemorySyncs};
ghost use Rattle.fault_storage_parts.specs.declared.error.Call.TheVariants.{Open, Read, Write, Sync, Resize, Remove};
ghost use Rattle.fault_storage_parts.specs.declared.error.Call.TheVariants.{Scan};
ghost use Rattle.fault_storage.specs.Changes.{FaultyWrites, FaultyResizes, is_injected};
ghost use Rattle.fault_storage.specs.Faults.{IsFaultyCall, FaultyOpens, unwrapped};

pub use crate::config::{Config, ResizeConfig, WriteConfig};
pub use crate::draws::PartialWriteMode;
use crate::error::{Call, Error};
use crate::header::Versions;
use crate::memory;
pub use crate::probability::Probability;
use crate::storage::{Blob as _, Opened, Storage as _, WriteMode};
use rand_core::Rng;

/// A store that fails. In the Rust: `commonware_runtime::storage::faulty::Storage`.
#[derive(Debug, Drop)]
pub struct Storage<S, R> {
    inner: S,
    rng: R,
    config: Config,
    injections: u64,
}

impl<S: Drop, R: Drop> Storage<S, R> {
    /// A store over another, with these words and settings.
    pub fn new(inner: S, rng: R, config: Config) -> Storage<S, R>
        ensures { result ≡ record { inner = inner; rng = rng; config = config; injections = 0 } }
    {
        Storage {
            inner,
            rng,
            config,
            injections: 0,
        }
    }

    /// The store below.
    pub fn inner(&self) -> &S
        ensures { result.now ≡ self.now.inner }
    {
        &self.inner
    }

    /// The store below, taken out.
    pub fn into_inner(self) -> S
        ensures { result ≡ self.inner }
    {
        self.inner
    }

    /// The settings.
    pub fn config(&self) -> Config
        ensures { result ≡ self.now.config }
    {
        self.config
    }

    /// Other settings from now on (in the Rust a reference for writing).
    pub fn set_config(&mut self, config: Config)
        ensures { self.new ≡ record self.old { config = config } }
    {
        self.config = config;
    }

    /// How many faults were injected (own).
    pub fn injections(&self) -> u64
        ensures { result ≡ self.now.injections }
    {
        self.injections
    }
}

impl<R: Rng> Storage<memory::Storage, R> {
    // Whether a fault is injected into a call: a draw by the rate, and where it is, the count rises.
    fn injects(&mut self, rate: Probability) -> bool
        requires { self.old.injections < 2 ^ 64 - 1 }
        ensures drawn { (result, R.stream self.new.rng) ≡ sample (rate_of rate) (R.stream self.old.rng) }
        ensures count { self.new.injections ≡ (if result then self.old.injections + 1 else self.old.injections) }
        ensures rest { (self.new.inner ≡ self.old.inner) × (self.new.config ≡ self.old.config) }
    {
        let is_injected = rate.sample(&mut self.rng);
        if is_injected {
            self.count_fault();
        }
        is_injected
    }

    // One more fault was injected.
    fn count_fault(&mut self)
        requires { self.old.injections < 2 ^ 64 - 1 }
        ensures { self.new ≡ record self.old { injections = self.old.injections + 1 } }
    {
        self.injections += 1;
    }

    /// A crash: of what is not durable it leaves what is drawn, in the order of issue. It takes no memory.
    /// In the Rust: `commonware_runtime::storage::faulty::Storage::crash`.
    pub fn crash(&mut self)
        ensures store { (self.new.inner, R.stream self.new.rng) ≡ crashed_store self.old.inner (R.stream self.old.rng) }
        ensures rest { (self.new.injections ≡ self.old.injections) × (self.new.config ≡ self.old.config) }
    {
        self.inner.settle_all(&mut self.rng);
    }

    /// Forgets what is kept of files that are gone: their turns at a crash, which they no longer take.
    /// In the Rust: `commonware_runtime::storage::faulty::Storage::remove_retired`.
    pub fn remove_retired(&mut self)
        ensures { self.new ≡ record self.old { inner = without_retired self.old.inner } }
    {
        self.inner.remove_retired();
    }

    /// Makes what is durable of the file the base, and forgets its other mutations: what an opening showed stays. F3,
    /// F2, F1, F9; no word is taken. In the Rust: `commonware_runtime::storage::faulty::Storage::admit`.
    pub fn admit(&mut self, partition: &str, name: &[u8]) -> Result<(), Error>
        ensures ok { OnOk result (HasFile partition.now name.now self.old.inner
            × (self.new.inner ≡ admitted partition.now name.now self.old.inner)) }
        ensures err { IfErr result (λ e. (self.new.inner ≡ self.old.inner)
            × (LacksName partition.now name.now self.old.inner e
            ⊎ ((e ≡ Error.Memory) × HasFile partition.now name.now self.old.inner))) }
        ensures rest { (R.stream self.new.rng ≡ R.stream self.old.rng) × (self.new.injections ≡ self.old.injections)
            × (self.new.config ≡ self.old.config) }
    {
        self.inner.admit(partition, name)
    }
}

impl<R: Rng> Storage<memory::Storage, R> {
    /// Makes these bytes, the header first, the base of the blob's file, and forgets its mutations: as `admit` does, of
    /// a blob that is open, with bytes for which there was room. No word is taken (own).
    pub fn admit_shown(&mut self, blob: &Blob<memory::Blob>, bytes: Vec<u8>)
        ensures { self.new ≡ record self.old { inner = published blob.now.inner.number bytes.items self.old.inner } }
    {
        blob.inner.publish(&mut self.inner, bytes);
    }
}

impl<R: Rng> crate::storage::Storage for Storage<memory::Storage, R> {
    type Blob = Blob<memory::Blob>;

    ghost opens = { λ old partition name versions result new. IsFaultyCall (R.stream) Open old.config.«open»
        (FaultyOpens partition name versions) old result new };

    ghost scans = { λ old partition result new. IsFaultyCall (R.stream) Scan old.config.scan
        (MemoryScans partition) old result new };

    ghost removes = { λ old partition name result new. IsFaultyCall (R.stream) Remove old.config.remove
        (λ below. MemoryRemoves below partition name) old result new };

    /// Opens the blob of this name, which it creates in the greatest of the versions where there is none, or none with
    /// a header. F8: the count of faults has ended, or numbers where one would be given; F9; F6; F3; F5: its header is
    /// refused. In the Rust: `commonware_runtime::Storage::open_versioned`.
    fn open_versioned(
        &mut self,
        partition: &str,
        name: &[u8],
        versions: Versions,
    ) -> Result<Opened<Blob<memory::Blob>>, Error> {
        if self.injections == u64::MAX {
            return Err(Error::NumberEnded);
        }
        let opened = self
            .inner
            .open_unless(&mut self.rng, self.config.open, partition, name, versions);
        match opened {
            Ok(opened) => Ok(wrap(opened)),
            Err(Error::Injected(call)) => {
                self.count_fault();
                Err(Error::Injected(call))
            }
            Err(e) => Err(e),
        }
    }

    /// The names of the partition's blobs in byte order. F8: the count of faults has ended; F9; F6; F3, F2.
    /// In the Rust: `commonware_runtime::Storage::scan`.
    fn scan(&mut self, partition: &str) -> Result<Vec<Vec<u8>>, Error> {
        if self.injections == u64::MAX {
            return Err(Error::NumberEnded);
        }
        let names = self.inner.scan(partition);
        if matches!(names, Err(Error::Memory)) {
            return Err(Error::Memory);
        }
        if self.injects(self.config.scan) {
            return Err(Error::Injected(Call::Scan));
        }
        names
    }

    /// Removes the blob of this name, or without a name the partition with all its blobs. F8: the count of faults has
    /// ended; F6; F3, F2 (there is no such partition), F1 (there is no such blob).
    /// In the Rust: `commonware_runtime::Storage::remove`.
    fn remove(&mut self, partition: &str, name: Option<&[u8]>) -> Result<(), Error> {
        if self.injections == u64::MAX {
            return Err(Error::NumberEnded);
        }
        if self.injects(self.config.remove) {
            return Err(Error::Injected(Call::Remove));
        }
        self.inner.remove(partition, name)
    }
}

// Whether a fault was injected.
fn is_injected(answer: &Result<(), Error>) -> bool
    ensures { result ≡ is_injected answer.now }
{
    matches!(answer, Err(Error::Injected(_)))
}

// The blob of the store below as one of the store that fails.
fn wrap(opened: Opened<memory::Blob>) -> Opened<Blob<memory::Blob>>
    ensures { unwrapped result ≡ opened }
{
    let Opened {
        blob,
        size,
        version,
    } = opened;
    Opened {
        blob: Blob::new(blob),
        size,
        version,
    }
}

/// A blob of a store that fails. In the Rust: `commonware_runtime::storage::faulty::Blob`.
#[derive(Debug, Drop)]
pub struct Blob<B> {
    inner: B,
}

impl<B> Blob<B> {
    /// A blob of the store below, under the settings of the store that fails (own).
    pub fn new(inner: B) -> Blob<B>
        ensures { result ≡ record { inner = inner } }
    {
        Blob { inner }
    }

    /// The blob of the store below.
    pub fn inner(&self) -> &B
        ensures { result.now ≡ self.now.inner }
    {
        &self.inner
    }
}

impl<R: Rng> crate::storage::Blob<Storage<memory::Storage, R>> for Blob<memory::Blob> {
    ghost reads = { λ blob offset count old result new. IsFaultyCall (R.stream) Read old.config.read
        (MemoryReads blob.inner offset count) old result new };

    ghost fills = { λ blob offset buffer filled old result new.
        IsFaultyCall (R.stream) Read old.config.read (MemoryFills blob.inner offset buffer filled) old result new
        × OnErr result (filled ≡ buffer) };

    ghost writes = { FaultyWrites (R.stream) };

    ghost resizes = { FaultyResizes (R.stream) };

    ghost syncs = { λ blob old result new. IsFaultyCall (R.stream) Sync old.config.sync
        (MemorySyncs blob.inner) old result new };

    /// So many bytes from an offset on. F8: the count of faults has ended; F9; F6; F7: they are not all there.
    fn read_at(
        &self,
        storage: &mut Storage<memory::Storage, R>,
        offset: u64,
        count: usize,
    ) -> Result<Vec<u8>, Error> {
        if storage.injections == u64::MAX {
            return Err(Error::NumberEnded);
        }
        let bytes = self.inner.read_at(&mut storage.inner, offset, count);
        if matches!(bytes, Err(Error::Memory)) {
            return Err(Error::Memory);
        }
        if storage.injects(storage.config.read) {
            return Err(Error::Injected(Call::Read));
        }
        bytes
    }

    /// Reads into the buffer from an offset on, and fills it; refused, it stays as it is. F8: the count of faults has
    /// ended; F6; F7: the bytes are not all there.
    fn read_at_buf(
        &self,
        storage: &mut Storage<memory::Storage, R>,
        offset: u64,
        buffer: &mut [u8],
    ) -> Result<(), Error> {
        if storage.injections == u64::MAX {
            return Err(Error::NumberEnded);
        }
        if storage.injects(storage.config.read) {
            return Err(Error::Injected(Call::Read));
        }
        self.inner.read_at_buf(&mut storage.inner, offset, buffer)
    }

    /// Writes the bytes at an offset, with zeros in a gap before them. F8: the count of faults has ended, or their end
    /// would pass a u64; F9; F6: the bytes that are drawn are durable at once, and live. A crash keeps bytes of a plain
    /// write by the settings of now.
    fn write_at(
        &mut self,
        storage: &mut Storage<memory::Storage, R>,
        offset: u64,
        bytes: &[u8],
        mode: WriteMode,
    ) -> Result<(), Error> {
        if storage.injections == u64::MAX {
            return Err(Error::NumberEnded);
        }
        let written = self.inner.write_unless(
            &mut storage.inner,
            &mut storage.rng,
            storage.config.write,
            offset,
            bytes,
            mode,
        );
        if is_injected(&written) {
            storage.count_fault();
        }
        written
    }

    /// Cuts the blob to a length, or grows it to that by zeros. F8: the count of faults has ended, or its end would
    /// pass a u64; F9; F6: it goes a part of the way, or nowhere, as is drawn. A crash keeps it by the settings of now.
    fn resize(
        &mut self,
        storage: &mut Storage<memory::Storage, R>,
        size: u64,
    ) -> Result<(), Error> {
        if storage.injections == u64::MAX {
            return Err(Error::NumberEnded);
        }
        let resized = self.inner.resize_unless(
            &mut storage.inner,
            &mut storage.rng,
            storage.config.resize,
            size,
        );
        if is_injected(&resized) {
            storage.count_fault();
        }
        resized
    }

    /// Makes the live bytes durable. F8: the count of faults has ended; F9; F6, and nothing is published; F1: the blob
    /// is gone.
    fn sync(&self, storage: &mut Storage<memory::Storage, R>) -> Result<(), Error> {
        if storage.injections == u64::MAX {
            return Err(Error::NumberEnded);
        }
        let live = self.inner.copy_live(&storage.inner)?;
        if storage.injects(storage.config.sync) {
            return Err(Error::Injected(Call::Sync));
        }
        let Some(bytes) = live else {
            return Err(Error::BlobMissing);
        };
        self.inner.publish(&mut storage.inner, bytes);
        Ok(())
    }
}
