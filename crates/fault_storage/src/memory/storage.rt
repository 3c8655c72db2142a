//! The store in memory.

ghost use Rattle.std.specs.Prelude.{◌≡◌, MatchResult, Ok, ◌-◌, ◌^◌, ◌⊎◌, ◌↔◌, [], false, true, Err, IfOk, IfErr};
ghost use Rattle.std.specs.Prelude.{IfNone, IfSome, None, Some, OnOk, OnErr};
ghost use Rattle.std.specs.List.{list_any};
ghost use Rattle.fault_storage_parts.specs.FilesCode.{mutation_of};
ghost use Rattle.fault_storage_parts.specs.Names.{is_partition_name};
ghost use Rattle.fault_storage_parts.specs.declared.error.HeaderError.{HeaderError};
ghost use Rattle.fault_storage_parts.specs.declared.header.Layout.TheVariants.{V0};
ghost use Rattle.fault_storage_parts.specs.Headers.{created};
ghost use Rattle.fault_storage.specs.Faults.{IsDrawnCall};
ghost use Rattle.fault_storage.specs.Audits.{audit_of};
ghost use Rattle.fault_storage.specs.Contents.{ShowsContent};
ghost use Rattle.fault_storage.specs.Snapshots.{Rebuilds, snapshot_of, emptied};
ghost use Rattle.fault_storage.specs.Directory.{durable_in, MemoryOpens, MemoryPlaces, MemoryRemoves, MemoryScans};
ghost use Rattle.fault_storage.specs.Directory.{IsMissing, fault_in, handle_in, shown_in, new_handle, has_name};
ghost use Rattle.fault_storage.specs.Directory.{has_partition, placed, admitted, removed, removed_partition, HasFile};
ghost use Rattle.fault_storage.specs.Directory.{HasPartition, IsMade, LacksName, LacksPartition};
ghost use Rattle.fault_storage_parts.specs.Revisions.{kept_of, shortened};
ghost use Rattle.fault_storage.specs.Stores.{revised, withdrawn, Store, is_there, without_retired, issued, published};
ghost use Rattle.fault_storage.specs.Stores.{crashed_store};

use crate::blob_file::BlobFile;
use crate::checksum::{Checksum as _, Crc32};
use crate::directory::{
    PartitionName, durable_of, has_partition, names_in, place_of_name, publish_name, remove_files,
    remove_name, remove_partition,
};
use crate::error::{Call, Error};
use crate::file::Mutation;
use crate::header::{Header, Layout, Layouts, Versions, resolve};
use crate::memory::audit::files_told;
use crate::memory::blob::Blob;
use crate::memory::files::{
    fix_in, forget_turns, has_file, issue_in, keep_turns, note_partition, publish_in, replace_file,
    settle_turns, shorten_in, take_number, withdraw_in, withdraw_turn,
};
use crate::memory::snapshot::Snapshot;
use crate::opens::BlobName;
use crate::partition::validate_partition_name;
use crate::probability::Probability;
use crate::storage::Opened;
use crate::stored::StoredFile;
use rand_core::Rng;
use std::alloc::{AllocError, Global};
use std::marker::Model;

/// A store in memory. In the Rust: `commonware_runtime::storage::memory::Storage`.
#[derive(Debug, Drop)]
pub struct Storage {
    alloc: Global,
    partitions: Vec<PartitionName>,
    files: Vec<StoredFile>,
    order: Vec<u64>,
    next: u64,
}

impl Model for Storage {
    ghost Value = { Store };

    ghost view = { λ it. record {
      partitions = it.partitions.items;
      files = it.files.items;
      order = it.order.items;
      next = it.next;
    } };
}

impl Storage {
    /// A store with no partition.
    pub fn new(alloc: Global) -> Storage
        ensures { result ≡ record { partitions = []; files = []; order = []; next = 0 } }
    {
        Storage {
            alloc,
            partitions: Vec::new(alloc),
            files: Vec::new(alloc),
            order: Vec::new(alloc),
            next: 0,
        }
    }

    // Issues the mutation of the file with this number, where it is there. It fails only when out of memory, and then
    // nothing is changed.
    pub(crate) fn issue(&mut self, number: u64, mutation: Mutation) -> Result<(), AllocError>
        ensures ok { OnOk result (self.new ≡ issued number (mutation_of mutation) self.old) }
        ensures err { OnErr result (self.new ≡ self.old) }
    {
        if !self.has(number) {
            return Ok(());
        }
        self.order.reserve(1)?;
        issue_in(&mut self.files, number, mutation)?;
        let _ = self.order.push(number);
        Ok(())
    }

    // Makes these bytes of the write that was issued last durable at once, of the file with this number.
    pub(crate) fn fix_last(&mut self, number: u64, kept: Vec<bool>)
        ensures { self.new ≡ revised number (kept_of kept.items) self.old }
    {
        fix_in(&mut self.files, number, kept);
    }

    // Lets the resize that was issued last go to this length, where it went further, of the file with this number.
    pub(crate) fn shorten_last(&mut self, number: u64, size: usize)
        ensures { self.new ≡ revised number (shortened size) self.old }
    {
        shorten_in(&mut self.files, number, size);
    }

    // Takes back the mutation that was issued last, of the file with this number, where it is there.
    pub(crate) fn withdraw(&mut self, number: u64)
        ensures { self.new ≡ withdrawn number self.old }
    {
        if self.has(number) {
            withdraw_in(&mut self.files, number);
            withdraw_turn(&mut self.order);
        }
    }

    // Whether there is a file with this number.
    pub(crate) fn has(&self, number: u64) -> bool
        ensures { result ≡ is_there number self.now }
    {
        has_file(&self.files, number)
    }

    // Publishes the bytes of the file with this number.
    pub(crate) fn publish(&mut self, number: u64, bytes: Vec<u8>)
        ensures { self.new ≡ published number bytes.items self.old }
    {
        forget_turns(&mut self.order, number);
        publish_in(&mut self.files, number, bytes);
    }

    // What is allocated for the store's blobs.
    pub(crate) fn allocator(&self) -> Global {
        self.alloc
    }

    /// Forgets what is kept of files that are gone: their turns at a crash, which they no longer take.
    /// In the Rust: `commonware_runtime::storage::faulty::Storage::remove_retired`.
    pub fn remove_retired(&mut self)
        ensures { self.new ≡ without_retired self.old }
    {
        keep_turns(&mut self.order, &self.files);
    }

    // Whether the partition is there: F3, F2.
    fn find_partition(&self, partition: &str) -> Result<(), Error>
        ensures ok { OnOk result (HasPartition partition.now self.now) }
        ensures err { IfErr result (LacksPartition partition.now self.now) }
    {
        validate_partition_name(partition)?;
        if !has_partition(&self.partitions, partition) {
            return Err(Error::PartitionMissing);
        }
        Ok(())
    }

    /// Removes the blob of this name. F3, F2, F1 (there is no such blob). In the Rust:
    /// `commonware_runtime::Storage::remove`.
    pub fn remove_blob(&mut self, partition: &str, name: &[u8]) -> Result<(), Error>
        ensures ok { OnOk result ((self.new ≡ removed partition.now name.now self.old)
            × HasFile partition.now name.now self.old) }
        ensures err { IfErr result (λ e. (self.new ≡ self.old) × LacksName partition.now name.now self.old e) }
    {
        self.find_partition(partition)?;
        if place_of_name(&self.files, partition, name).is_none() {
            return Err(Error::BlobMissing);
        }
        remove_name(&mut self.files, partition, name);
        Ok(())
    }

    /// Removes the partition with all its blobs. F3, F2. In the Rust: `commonware_runtime::Storage::remove`.
    pub fn remove_all(&mut self, partition: &str) -> Result<(), Error>
        ensures ok { OnOk result ((self.new ≡ removed_partition partition.now self.old)
            × HasPartition partition.now self.old) }
        ensures err { IfErr result (λ e. (self.new ≡ self.old) × LacksPartition partition.now self.old e) }
    {
        self.find_partition(partition)?;
        remove_partition(&mut self.partitions, partition);
        remove_files(&mut self.files, partition);
        Ok(())
    }

    // Makes a file anew under the name, with the next number. F8, F9.
    fn place_file(&mut self, partition: &str, name: &[u8], base: Vec<u8>) -> Result<u64, Error>
        ensures { MemoryPlaces partition.now name.now base.items self.old result self.new }
    {
        if self.next == u64::MAX {
            return Err(Error::NumberEnded);
        }
        let noted = BlobName::new(self.alloc, partition, name)?;
        let noted_partition = PartitionName::new(self.alloc, partition)?;
        self.files.reserve(1)?;
        self.partitions.reserve(1)?;
        let stored = StoredFile {
            name: noted,
            number: self.next,
            file: BlobFile::new(self.alloc, base),
        };
        replace_file(&mut self.files, partition, name, stored);
        note_partition(&mut self.partitions, partition, noted_partition);
        Ok(take_number(&mut self.next))
    }

    // Makes a file anew as `place_file` does, where one draw does not come true: it comes after room was found. F8, F9,
    // F6.
    fn place_file_unless<R: Rng>(
        &mut self,
        rng: &mut R,
        rate: Probability,
        partition: &str,
        name: &[u8],
        base: Vec<u8>,
    ) -> Result<u64, Error>
        ensures { IsDrawnCall (R.stream) Call.Open rate (MemoryPlaces partition.now name.now base.items) self.old
            rng.old result self.new rng.new }
    {
        if self.next == u64::MAX {
            return Err(Error::NumberEnded);
        }
        let noted = BlobName::new(self.alloc, partition, name)?;
        let noted_partition = PartitionName::new(self.alloc, partition)?;
        self.files.reserve(1)?;
        self.partitions.reserve(1)?;
        if rate.sample(rng) {
            return Err(Error::Injected(Call::Open));
        }
        let stored = StoredFile {
            name: noted,
            number: self.next,
            file: BlobFile::new(self.alloc, base),
        };
        replace_file(&mut self.files, partition, name, stored);
        note_partition(&mut self.partitions, partition, noted_partition);
        Ok(take_number(&mut self.next))
    }

    /// Makes the bytes the durable file of this name, in place of one that had it: values of that one are of a blob
    /// that is gone. F3, F8, F9. In the Rust: `commonware_runtime::storage::memory::Storage::set_raw_blob`.
    pub fn set_raw_blob(
        &mut self,
        partition: &str,
        name: &[u8],
        bytes: Vec<u8>,
    ) -> Result<(), Error>
        ensures ok { OnOk result ((is_partition_name partition.now ≡ true)
            × (self.new ≡ placed partition.now name.now bytes.items self.old)) }
        ensures err { OnErr result (self.new ≡ self.old) }
        ensures invalid { (result ≡ Err Error.PartitionNameInvalid) ↔ (is_partition_name partition.now ≡ false) }
        ensures refused { IfErr result (λ e. (e ≡ Error.PartitionNameInvalid)
            ⊎ ((e ≡ Error.NumberEnded) × (self.old.next ≡ 2 ^ 64 - 1)) ⊎ (e ≡ Error.Memory)) }
    {
        validate_partition_name(partition)?;
        self.place_file(partition, name, bytes)?;
        Ok(())
    }

    /// Makes what is durable of the file the base, and forgets its other mutations: what an opening showed stays. F3,
    /// F2, F1, F9.
    /// In the Rust: `commonware_runtime::storage::faulty::Storage::admit`.
    pub fn admit(&mut self, partition: &str, name: &[u8]) -> Result<(), Error>
        ensures ok { OnOk result (HasFile partition.now name.now self.old
            × (self.new ≡ admitted partition.now name.now self.old)) }
        ensures err { IfErr result (λ e. (self.new ≡ self.old)
            × (LacksName partition.now name.now self.old e
            ⊎ ((e ≡ Error.Memory) × HasFile partition.now name.now self.old))) }
    {
        self.find_partition(partition)?;
        let Some(durable) = durable_of(self.alloc, &self.files, partition, name)? else {
            return Err(Error::BlobMissing);
        };
        forget_turns(&mut self.order, durable.number);
        publish_name(&mut self.files, partition, name, durable.bytes);
        Ok(())
    }

    /// What is durable of the file of this name, its header first. F3, F2, F1, F9.
    /// In the Rust: `commonware_runtime::storage::memory::Storage::raw_blob`.
    pub fn raw_blob(&self, partition: &str, name: &[u8]) -> Result<Vec<u8>, Error>
        ensures ok { IfOk result (λ bytes. HasFile partition.now name.now self.now
            × (bytes.items ≡ durable_in partition.now name.now self.now.files)) }
        ensures err { IfErr result (λ e. LacksName partition.now name.now self.now e
            ⊎ ((e ≡ Error.Memory) × HasFile partition.now name.now self.now)) }
    {
        self.find_partition(partition)?;
        match durable_of(self.alloc, &self.files, partition, name)? {
            Some(durable) => Ok(durable.bytes),
            None => Err(Error::BlobMissing),
        }
    }

    /// What follows the header in what is durable of the file of this name. F3, F2; F1: there is no such blob, or none
    /// with a header; F5, but not for its version; F9. In the Rust:
    /// `commonware_runtime::storage::memory::Storage::logical_blob`.
    pub fn logical_blob(&self, partition: &str, name: &[u8]) -> Result<Vec<u8>, Error>
        ensures { ShowsContent partition.now name.now self.now result }
    {
        self.find_partition(partition)?;
        let versions = Versions {
            least: 0,
            greatest: u16::MAX,
        };
        match self.find_blob(partition, name, versions)? {
            Some(opened) => {
                let bytes = opened.blob.behind_header().to_vec(self.alloc)?;
                Ok(bytes)
            }
            None => Err(Error::BlobMissing),
        }
    }

    /// A checksum of what is durable of all files, in byte order of partition and then name: of each its partition, its
    /// name and its raw bytes, each behind its length in eight bytes. F9. In the Rust:
    /// `commonware_runtime::storage::memory::Storage::audit`.
    pub fn audit(&self) -> Result<[u8; 4], Error>
        ensures ok { IfOk result (λ sum. sum ≡ audit_of self.now) }
        ensures err { IfErr result (λ e. e ≡ Error.Memory) }
    {
        let told = files_told(self.alloc, &self.files)?;
        Ok(Crc32::checksum(&told).to_be_bytes())
    }

    /// Takes what is durable out of the store, which has no partition after it: a value of a blob that was opened is
    /// then one of a blob that is gone, here and in a store that is made of the snapshot. F9, and nothing is changed.
    /// In the Rust: `commonware_runtime::storage::memory::Storage::take_snapshot`.
    pub fn take_snapshot(&mut self) -> Result<Snapshot, Error>
        ensures ok { IfOk result (λ snapshot. (snapshot ≡ snapshot_of self.old) × (self.new ≡ emptied self.old)) }
        ensures err { IfErr result (λ e. (e ≡ Error.Memory) × (self.new ≡ self.old)) }
    {
        let snapshot = Snapshot::of(self.alloc, &self.partitions, &self.files, self.next)?;
        self.partitions.clear();
        self.files.clear();
        self.order.clear();
        Ok(snapshot)
    }

    /// A store with what the snapshot has, which is used up, so that no other store is made of it: its files have
    /// numbers that none had before. F8: these would pass their end; F9; the snapshot is gone then too.
    /// In the Rust: `commonware_runtime::storage::memory::Storage::from_snapshot`.
    pub fn from_snapshot(alloc: Global, snapshot: Snapshot) -> Result<Storage, Error>
        ensures { Rebuilds snapshot result }
    {
        let Some(next) = snapshot.next_number() else {
            return Err(Error::NumberEnded);
        };
        let (partitions, files) = snapshot.into_files(alloc)?;
        Ok(Storage {
            alloc,
            partitions,
            files,
            order: Vec::new(alloc),
            next,
        })
    }

    // The blob of this name, or None where it has no header yet. F3, F5, F9.
    fn look_up(
        &self,
        partition: &str,
        name: &[u8],
        versions: Versions,
    ) -> Result<Option<Opened<Blob>>, Error>
        ensures none { IfOk result (λ found. (is_partition_name partition.now ≡ true)
            × IfNone found (IsMissing partition.now name.now self.now.files)) }
        ensures some { IfOk result
            (λ found. IfSome found (λ opened. MemoryOpens self.now partition.now name.now versions
            (Ok opened) self.now)) }
        ensures err { IfErr result (λ e. MemoryOpens self.now partition.now name.now versions (Err e) self.now
            × ((e ≡ Error.NumberEnded) → ⊥)) }
    {
        validate_partition_name(partition)?;
        self.find_blob(partition, name, versions)
    }

    // The blob of this name, or None where it has no header yet. F5, F9.
    fn find_blob(
        &self,
        partition: &str,
        name: &[u8],
        versions: Versions,
    ) -> Result<Option<Opened<Blob>>, Error>
        ensures none { IfOk result (λ found. IfNone found (IsMissing partition.now name.now self.now.files)) }
        ensures some { IfOk result (λ found. IfSome found (λ opened. IsMade partition.now name.now self.now.files
            × (fault_in partition.now name.now versions self.now.files ≡ None)
            × (opened.blob ≡ handle_in partition.now name.now self.now.files)
            × (opened.size ≡ (shown_in partition.now name.now self.now.files).size)
            × (opened.version ≡ (shown_in partition.now name.now self.now.files).version))) }
        ensures err { IfErr result (λ e. ((fault : HeaderError) × IsMade partition.now name.now self.now.files
            × (e ≡ Error.Header fault)
            × (fault_in partition.now name.now versions self.now.files ≡ Some fault))
            ⊎ ((e ≡ Error.Memory) × (list_any (has_name partition.now name.now) self.now.files ≡ true))) }
    {
        let Some(durable) = durable_of(self.alloc, &self.files, partition, name)? else {
            return Ok(None);
        };
        let size = durable.bytes.len() as u64;
        let front = &durable.bytes[..Header::resolve_len(size) as usize];
        let layouts = Layouts {
            least: Layout::V0,
            greatest: Layout::V1,
        };
        match resolve(front, size, layouts, versions) {
            Err(fault) => Err(fault.into_error()),
            Ok(None) => Ok(None),
            Ok(Some(shown)) => Ok(Some(Opened {
                blob: Blob::new(durable.number, shown.data_offset as usize, durable.bytes),
                size: shown.size,
                version: shown.version,
            })),
        }
    }

    // Creates the blob of this name in the greatest version. F8, F9.
    fn create_blob(
        &mut self,
        partition: &str,
        name: &[u8],
        versions: Versions,
    ) -> Result<Opened<Blob>, Error>
        ensures ok { IfOk result (λ opened. (opened.blob ≡ new_handle self.old.next versions) × (opened.size ≡ 0)
            × (opened.version ≡ versions.greatest)
            × (self.new ≡ placed partition.now name.now (created V0 versions.greatest) self.old)) }
        ensures err { IfErr result (λ e. (self.new ≡ self.old)
            × (((e ≡ Error.NumberEnded) × (self.old.next ≡ 2 ^ 64 - 1)) ⊎ (e ≡ Error.Memory))) }
    {
        let layouts = Layouts {
            least: Layout::V0,
            greatest: Layout::V0,
        };
        let (region, version) = Header::create(self.alloc, layouts, versions)?;
        let live = region.to_vec(self.alloc)?;
        let number = self.place_file(partition, name, region)?;
        Ok(Opened {
            blob: Blob::new(number, 8, live),
            size: 0,
            version,
        })
    }

    // Creates the blob as `create_blob` does, where one draw does not come true. F8, F9, F6.
    fn create_blob_unless<R: Rng>(
        &mut self,
        rng: &mut R,
        rate: Probability,
        partition: &str,
        name: &[u8],
        versions: Versions,
    ) -> Result<Opened<Blob>, Error>
        ensures { IsDrawnCall (R.stream) Call.Open rate (λ below result after. MatchResult result
            (λ opened. (opened ≡ record {
              blob = new_handle below.next versions;
              size = 0;
              version = versions.greatest;
            })
            × (after ≡ placed partition.now name.now (created V0 versions.greatest) below))
            (λ e. (after ≡ below) × (((e ≡ Error.NumberEnded) × (below.next ≡ 2 ^ 64 - 1)) ⊎ (e ≡ Error.Memory))))
            self.old rng.old result self.new rng.new }
    {
        let layouts = Layouts {
            least: Layout::V0,
            greatest: Layout::V0,
        };
        let (region, version) = Header::create(self.alloc, layouts, versions)?;
        let live = region.to_vec(self.alloc)?;
        let number = self.place_file_unless(rng, rate, partition, name, region)?;
        Ok(Opened {
            blob: Blob::new(number, 8, live),
            size: 0,
            version,
        })
    }

    /// Opens the blob of this name as `open_versioned` does, where one draw does not come true: it comes after room was
    /// found for all. F8, F9; F6; F3, F5.
    pub fn open_unless<R: Rng>(
        &mut self,
        rng: &mut R,
        rate: Probability,
        partition: &str,
        name: &[u8],
        versions: Versions,
    ) -> Result<Opened<Blob>, Error>
        ensures { IsDrawnCall (R.stream) Call.Open rate (λ below. MemoryOpens below partition.now name.now versions)
            self.old rng.old result self.new rng.new }
    {
        let found = match self.look_up(partition, name, versions) {
            Ok(None) => {
                return self.create_blob_unless(rng, rate, partition, name, versions);
            }
            Err(Error::Memory) => return Err(Error::Memory),
            Ok(Some(opened)) => Ok(opened),
            Err(e) => Err(e),
        };
        if rate.sample(rng) {
            return Err(Error::Injected(Call::Open));
        }
        found
    }

    /// Settles all mutations, as a crash does, in the order of issue.
    pub fn settle_all<R: Rng>(&mut self, rng: &mut R)
        ensures { (self.new, R.stream rng.new) ≡ crashed_store self.old (R.stream rng.old) }
    {
        settle_turns(&mut self.files, &self.order, rng);
        self.order.clear();
    }
}

impl crate::storage::Storage for Storage {
    type Blob = Blob;

    ghost opens = { MemoryOpens };

    ghost scans = { λ old partition result new. MemoryScans partition old result new };

    ghost removes = { MemoryRemoves };

    /// Opens the blob of this name, which it creates in the greatest of the versions where there is none, or none with
    /// a header. F3; F5: its header is refused; F8: numbers have ended where one would be given; F9. Refused, nothing
    /// is changed. In the Rust: `commonware_runtime::Storage::open_versioned`.
    fn open_versioned(
        &mut self,
        partition: &str,
        name: &[u8],
        versions: Versions,
    ) -> Result<Opened<Blob>, Error> {
        if let Some(opened) = self.look_up(partition, name, versions)? {
            return Ok(opened);
        }
        self.create_blob(partition, name, versions)
    }

    /// The names of the partition's blobs in byte order. F3, F2 (there is no such partition), F9.
    /// In the Rust: `commonware_runtime::Storage::scan`.
    fn scan(&mut self, partition: &str) -> Result<Vec<Vec<u8>>, Error> {
        self.find_partition(partition)?;
        let names = names_in(self.alloc, &self.files, partition)?;
        Ok(names)
    }

    /// Removes the blob of this name, or without a name the partition with all its blobs. F3, F2 (there is no such
    /// partition), F1 (there is no such blob). In the Rust: `commonware_runtime::Storage::remove`.
    fn remove(&mut self, partition: &str, name: Option<&[u8]>) -> Result<(), Error> {
        match name {
            Some(name) => self.remove_blob(partition, name),
            None => self.remove_all(partition),
        }
    }
}
