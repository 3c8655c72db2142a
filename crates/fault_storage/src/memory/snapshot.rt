//! Snapshots of the store in memory.

ghost use Rattle.std.specs.Prelude.{◌≡◌, ◌+◌, ◌^◌, ◌<◌, ◌≤◌, IfOk, MatchOption, length, vec_len};
ghost use Rattle.fault_storage_parts.specs.Files.{durable_bytes};
ghost use Rattle.fault_storage.specs.Stores.{settled_at};
ghost use Rattle.fault_storage.specs.Snapshots.{durable_map, numbered};

use crate::blob_file::BlobFile;
use crate::directory::PartitionName;
use crate::opens::BlobName;
use crate::stored::StoredFile;
use std::alloc::{AllocError, Global};
use std::marker::Model;

// What was durable under a name.
#[derive(Debug, Drop)]
pub(crate) struct DurableFile {
    name: BlobName,
    bytes: Vec<u8>,
}

impl Model for DurableFile {
    ghost use Rattle.fault_storage.specs.Snapshots.{Durable};

    ghost Value = { Durable };

    ghost view = { λ it. (it.name, it.bytes.items) };
}

impl DurableFile {
    // What is durable of the file, under its name. It fails only when out of memory.
    fn of(alloc: Global, stored: &StoredFile) -> Result<DurableFile, AllocError>
        ensures { IfOk result (λ made. made ≡
            (stored.now.name, durable_bytes stored.now.file.base stored.now.file.log)) }
    {
        Ok(DurableFile {
            name: stored.name.try_copy(alloc)?,
            bytes: stored.file.durable(alloc)?,
        })
    }

    // The file of this number that has these bytes as its base.
    fn into_stored(self, alloc: Global, number: u64) -> StoredFile
        ensures { result ≡ record { name = self.0; number = number; file = settled_at self.1 } }
    {
        StoredFile {
            name: self.name,
            number,
            file: BlobFile::new(alloc, self.bytes),
        }
    }
}

/// What is durable of a store: its partitions, its files under their names, and the next number. One store is made of
/// it, which numbers its files anew. In the Rust: `commonware_runtime::storage::memory::Snapshot`.
#[derive(Debug, Drop)]
pub struct Snapshot {
    partitions: Vec<PartitionName>,
    files: Vec<DurableFile>,
    next: u64,
}

impl Model for Snapshot {
    ghost use Rattle.fault_storage.specs.Snapshots.{Kept};

    ghost Value = { Kept };

    ghost view = { λ it. record { partitions = it.partitions.items; files = it.files.items; next = it.next } };
}

// Copies of the names. It fails only when out of memory.
fn copied_names(alloc: Global, names: &[PartitionName]) -> Result<Vec<PartitionName>, AllocError>
    ensures { IfOk result (λ copies. copies.items ≡ names.now) }
{
    let mut copies = Vec::new(alloc);
    for name in names {
        copies.push(name.try_copy(alloc)?)?;
    }
    Ok(copies)
}

// What is durable of the files, under their names. It fails only when out of memory.
fn durable_files(alloc: Global, files: &[StoredFile]) -> Result<Vec<DurableFile>, AllocError>
    ensures { IfOk result (λ kept. kept.items ≡ durable_map files.now) }
{
    let mut kept = Vec::new(alloc);
    for stored in files {
        kept.push(DurableFile::of(alloc, stored)?)?;
    }
    Ok(kept)
}

// Files with these bases, numbered from a number on. It fails only when out of memory.
fn numbered_files(
    alloc: Global,
    kept: Vec<DurableFile>,
    from: u64,
) -> Result<Vec<StoredFile>, AllocError>
    requires { from + vec_len kept < 2 ^ 64 }
    ensures { IfOk result (λ files. files.items ≡ numbered from kept.items) }
{
    let mut files = Vec::new(alloc);
    let mut number = from;
    for durable in kept {
        files.push(durable.into_stored(alloc, number))?;
        number += 1;
    }
    Ok(files)
}

impl Snapshot {
    // A snapshot of these partitions and files, where the next number is given. It fails only when out of memory.
    pub(crate) fn of(
        alloc: Global,
        partitions: &[PartitionName],
        files: &[StoredFile],
        next: u64,
    ) -> Result<Snapshot, AllocError>
        ensures { IfOk result (λ made. made ≡
            record { partitions = partitions.now; files = durable_map files.now; next = next }) }
    {
        let partitions = copied_names(alloc, partitions)?;
        let files = durable_files(alloc, files)?;
        Ok(Snapshot {
            partitions,
            files,
            next,
        })
    }

    // The number behind those of its files, or None where that would pass a u64.
    pub(crate) fn next_number(&self) -> Option<u64>
        ensures { MatchOption result (2 ^ 64 ≤ self.now.next + length self.now.files)
            (λ next. (next < 2 ^ 64) × (next ≡ self.now.next + length self.now.files)) }
    {
        self.next.checked_add(self.files.len() as u64)
    }

    // Its partitions, and its files, numbered anew. It fails only when out of memory.
    pub(crate) fn into_files(
        self,
        alloc: Global,
    ) -> Result<(Vec<PartitionName>, Vec<StoredFile>), AllocError>
        requires { self.next + length self.files < 2 ^ 64 }
        ensures { IfOk result (λ made. (made.0.items ≡ self.partitions)
            × (made.1.items ≡ numbered self.next self.files)) }
    {
        let files = numbered_files(alloc, self.files, self.next)?;
        Ok((self.partitions, files))
    }
}
