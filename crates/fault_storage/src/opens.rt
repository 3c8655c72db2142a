//! Which names are open: a name is opened once at a time, and neither removed nor replaced while it is open.

ghost use Rattle.std.specs.Prelude.{◌≡◌, ℕ, ◌++◌, ◌∷◌, [], true, false, List, Err, Ok, IfOk, IfErr, MatchResult, ◌⊎◌};
ghost use Rattle.std.specs.Prelude.{option_map};
ghost use Rattle.std.specs.Borrow.{sem, Lends};
ghost use Rattle.std.specs.Str.{bytes_eq};
ghost use Rattle.fault_storage.specs.Opens.{Name, is_before, is_name, is_open, is_held, closed};

use crate::error::Error;
use crate::header::Versions;
use crate::storage::{Opened, Storage};
use std::alloc::{AllocError, Global};
use std::marker::Model;

/// The name of a blob.
#[derive(Debug, Drop)]
pub struct BlobName {
    partition: String,
    name: Vec<u8>,
}

impl Model for BlobName {
    ghost Value = { List ℕ × List ℕ };

    ghost view = { λ it. (it.partition.bytes.items, it.name.items) };
}

impl BlobName {
    /// A copy of the name. It fails only when out of memory.
    pub fn new(alloc: Global, partition: &str, name: &[u8]) -> Result<BlobName, AllocError>
        ensures { IfOk result (λ made. made ≡ (partition.now, name.now)) }
    {
        Ok(BlobName {
            partition: String::from_str(alloc, partition)?,
            name: name.to_vec(alloc)?,
        })
    }

    /// A copy of it. It fails only when out of memory.
    pub fn try_copy(&self, alloc: Global) -> Result<BlobName, AllocError>
        ensures { IfOk result (λ made. made ≡ self.now) }
    {
        BlobName::new(alloc, self.partition.as_str(), self.name.as_slice())
    }

    /// The name of the partition.
    pub fn partition(&self) -> &str
        ensures { result.now ≡ self.now.0 }
    {
        self.partition.as_str()
    }

    /// The name in the partition.
    pub fn name(&self) -> &[u8]
        ensures { result.now ≡ self.now.1 }
    {
        self.name.as_slice()
    }

    /// Whether it is a name of the partition.
    pub fn is_in(&self, partition: &str) -> bool
        ensures { result ≡ bytes_eq self.now.0 partition.now }
    {
        self.partition.as_str() == partition
    }

    /// Whether it is this name.
    pub fn is(&self, partition: &str, name: &[u8]) -> bool
        ensures { result ≡ is_name partition.now name.now self.now }
    {
        self.partition.as_str() == partition && self.name.as_slice() == name
    }

    /// A copy of the name without its partition. It fails only when out of memory.
    pub fn copy_name(&self, alloc: Global) -> Result<Vec<u8>, AllocError>
        ensures { IfOk result (λ name. name.items ≡ self.now.1) }
    {
        self.name.to_vec(alloc)
    }

    /// Whether it stands before the other in byte order, partitions first.
    pub fn is_before(&self, other: &BlobName) -> bool
        ensures { result ≡ is_before self.now other.now }
    {
        self.partition
            .cmp(&other.partition)
            .then(self.name.cmp(&other.name))
            .is_lt()
    }

    // Whether it is the other name.
    pub(crate) fn is_same(&self, other: &BlobName) -> bool
        ensures { result ≡ is_name other.now.0 other.now.1 self.now }
    {
        self.is(other.partition.as_str(), other.name.as_slice())
    }
}

/// A blob that was opened through [`Opens`], under its name. It has to be closed.
#[derive(Debug)]
pub struct OpenBlob<B> {
    opened: Opened<B>,
    name: BlobName,
}

impl<B> OpenBlob<B> {
    ghost use Rattle.fault_storage.specs.contracts.opens.OpenBlob.{the_row};

    /// The blob, with the size and the version that its opening showed.
    pub fn opened(&self) -> &Opened<B>
        ensures { result.now ≡ self.now.opened }
    {
        &self.opened
    }

    /// The blob, lent for a call that changes it.
    pub fn blob_mut(&mut self) -> &mut B
        ensures blob { result.now ≡ self.old.opened.blob }
        ensures* writes_back { sem 𝓛 (Lends (the_row B.row) B.row self.entry result
            (λ w. record self.old { opened = record self.old.opened { blob = w } })) }
    {
        let opened = &mut self.opened;
        &mut opened.blob
    }

    /// The name under which it is open.
    pub fn name(&self) -> &BlobName
        ensures { result.now ≡ self.now.name }
    {
        &self.name
    }
}

/// The names that are open. In the Rust: `commonware_runtime::storage::Opens`.
#[derive(Debug, Drop)]
pub struct Opens {
    alloc: Global,
    names: Vec<BlobName>,
}

impl Model for Opens {
    ghost Value = { List (List ℕ × List ℕ) };

    ghost view = { λ it. it.names.items };
}

impl Opens {
    /// No name is open.
    pub fn new(alloc: Global) -> Opens
        ensures { result ≡ [] }
    {
        Opens {
            alloc,
            names: Vec::new(alloc),
        }
    }

    // Whether the name is open.
    fn is_open(&self, partition: &str, name: &[u8]) -> bool
        ensures { result ≡ is_open partition.now name.now self.now }
    {
        self.names.iter().any(|other| other.is(partition, name))
    }

    // Whether a name of the partition is open.
    fn has_open(&self, partition: &str) -> bool
        ensures { result ≡ is_held partition.now None self.now }
    {
        self.names.iter().any(|other| other.is_in(partition))
    }

    // Takes the name from those that are open.
    fn forget(&mut self, name: &BlobName)
        ensures { self.new ≡ closed name.now self.old }
    {
        self.names.retain(|other| !other.is_same(name));
    }

    /// Opens the blob of this name in the store. F4, and nothing is changed, where the name is open; else the store's
    /// refusals, or F9 with nothing changed. In the Rust: `commonware_runtime::storage::Opens::open`.
    pub fn open<S: Storage>(
        &mut self,
        storage: &mut S,
        partition: &str,
        name: &[u8],
        versions: Versions,
    ) -> Result<OpenBlob<S::Blob>, Error>
        ensures open { is_open partition.now name.now self.old ≡ true → (result ≡ Err Error.AlreadyOpen)
            × (self.new ≡ self.old) × (storage.new ≡ storage.old) }
        ensures ok { IfOk result (λ made. (made.name ≡ (partition.now, name.now))
            × (self.new ≡ self.old ++ (partition.now, name.now) ∷ [])
            × S.opens storage.old partition.now name.now versions (Ok made.opened) storage.new) }
        ensures err { IfErr result (λ error. self.new ≡ self.old) }
        ensures refused { is_open partition.now name.now self.old ≡ false
            → IfErr result (λ error. S.opens storage.old partition.now name.now versions (Err error) storage.new
            ⊎ ((error ≡ Error.Memory) × (storage.new ≡ storage.old))) }
    {
        if self.is_open(partition, name) {
            return Err(Error::AlreadyOpen);
        }
        let noted = BlobName::new(self.alloc, partition, name)?;
        let known = BlobName::new(self.alloc, partition, name)?;
        self.names.reserve(1)?;
        let opened = storage.open_versioned(partition, name, versions)?;
        let _ = self.names.push(noted);
        Ok(OpenBlob {
            opened,
            name: known,
        })
    }

    /// Removes the blob of this name from the store, or without a name the partition. F4, and nothing is changed, where
    /// one of them is open. In the Rust: `commonware_runtime::storage::Opens::remove`.
    pub fn remove<S: Storage>(
        &self,
        storage: &mut S,
        partition: &str,
        name: Option<&[u8]>,
    ) -> Result<(), Error>
        ensures open { is_held partition.now (option_map (λ x. x.now) name.entry) self.now ≡ true
            → (result ≡ Err Error.AlreadyOpen)
            × (storage.new ≡ storage.old) }
        ensures closed { is_held partition.now (option_map (λ x. x.now) name.entry) self.now ≡ false
            → S.removes storage.old partition.now (option_map (λ x. x.now) name.entry) result storage.new }
    {
        let is_held = match name {
            Some(name) => self.is_open(partition, name),
            None => self.has_open(partition),
        };
        if is_held {
            return Err(Error::AlreadyOpen);
        }
        storage.remove(partition, name)
    }

    /// Runs the closure where the name is closed. F4, and the closure is not run, where it is open.
    /// In the Rust: `commonware_runtime::storage::Opens::replace`.
    pub fn replace<T, F: FnOnce() -> Result<T, Error> + Drop>(
        &self,
        partition: &str,
        name: &[u8],
        run: F,
    ) -> Result<T, Error>
        requires { F.pre run }
        ensures open { is_open partition.now name.now self.now ≡ true → result ≡ Err Error.AlreadyOpen }
        ensures closed { is_open partition.now name.now self.now ≡ false → F.post run result }
    {
        if self.is_open(partition, name) {
            return Err(Error::AlreadyOpen);
        }
        run()
    }

    /// Closes the blob: its name may be opened again. In the Rust its handle is dropped.
    pub fn close<B: Drop>(&mut self, spent: OpenBlob<B>)
        ensures { self.new ≡ closed spent.name self.old }
    {
        let OpenBlob { opened, name } = spent;
        let Opened {
            blob,
            size,
            version,
        } = opened;
        self.forget(&name);
    }
}
