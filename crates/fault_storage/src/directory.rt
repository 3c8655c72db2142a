//! The names of a store's files.

ghost use Rattle.std.specs.Prelude.{◌≡◌, ℕ, ◌<◌, ◌≤◌, ◌++◌, ◌∷◌, length, take, drop, [], true, false, not, filter, map};
ghost use Rattle.std.specs.Prelude.{IfOk, IfNone, IfSome, OnOk, OnErr, MatchOption, List, IsTrue};
ghost use Rattle.std.specs.List.{list_any};
ghost use Rattle.std.specs.Str.{bytes_eq};
ghost use Rattle.std.specs.Vec.{vec_len, vec_capacity};
ghost use Rattle.fault_storage.specs.declared.stored.StoredFile.{StoredFile};
ghost use Rattle.fault_storage.specs.Stores.{IsPlace, number_with, changed, settled_at};
ghost use Rattle.fault_storage.specs.Directory.{has_name, is_in, has_partition, in_order, names_in, durable_in};

use crate::opens::BlobName;
use crate::stored::StoredFile;
use std::alloc::{AllocError, Global};
use std::marker::Model;

/// The name of a partition.
#[derive(Debug, Drop)]
pub struct PartitionName {
    name: String,
}

impl Model for PartitionName {
    ghost Value = { List ℕ };

    ghost view = { λ it. it.name.bytes.items };
}

impl PartitionName {
    /// A copy of the name. It fails only when out of memory.
    pub fn new(alloc: Global, name: &str) -> Result<PartitionName, AllocError>
        ensures { IfOk result (λ made. made ≡ name.now) }
    {
        Ok(PartitionName {
            name: String::from_str(alloc, name)?,
        })
    }

    /// A copy of it. It fails only when out of memory.
    pub fn try_copy(&self, alloc: Global) -> Result<PartitionName, AllocError>
        ensures { IfOk result (λ made. made ≡ self.now) }
    {
        PartitionName::new(alloc, self.name.as_str())
    }

    /// Whether it is this name.
    pub fn is(&self, name: &str) -> bool
        ensures { result ≡ bytes_eq self.now name.now }
    {
        self.name.as_str() == name
    }
}

/// Whether the partition is there.
pub fn has_partition(partitions: &[PartitionName], partition: &str) -> bool
    ensures { result ≡ has_partition partition.now partitions.now }
{
    partitions.iter().any(|other| other.is(partition))
}

/// The place of the file of this name, or None where there is none.
pub fn place_of_name(files: &[StoredFile], partition: &str, name: &[u8]) -> Option<usize>
    ensures { MatchOption result (list_any (has_name partition.now name.now) files.now
        ≡ false) (IsPlace (has_name partition.now name.now) files.now) }
{
    for (place, stored) in files.iter().enumerate() {
        if stored.name.is(partition, name) {
            return Some(place);
        }
    }
    None
}

/// Takes the file of this name away.
pub fn remove_name(files: &mut Vec<StoredFile>, partition: &str, name: &[u8])
    ensures files { files.new.items ≡ filter (λ stored. not (has_name partition.now name.now stored)) files.old.items }
    ensures room { vec_len files.old < vec_capacity files.old → vec_len files.new < vec_capacity files.new }
{
    files.retain(|stored| !stored.name.is(partition, name));
}

/// Takes the files of the partition away.
pub fn remove_files(files: &mut Vec<StoredFile>, partition: &str)
    ensures { files.new.items ≡ filter (λ stored. not (is_in partition.now stored)) files.old.items }
{
    files.retain(|stored| !stored.name.is_in(partition));
}

/// Takes the partition away.
pub fn remove_partition(partitions: &mut Vec<PartitionName>, partition: &str)
    ensures { partitions.new.items ≡ filter (λ other. not (bytes_eq other partition.now)) partitions.old.items }
{
    partitions.retain(|other| !other.is(partition));
}

/// The names of the partition's files, in order. It fails only when out of memory.
pub fn names_in(
    alloc: Global,
    files: &[StoredFile],
    partition: &str,
) -> Result<Vec<Vec<u8>>, AllocError>
    ensures { IfOk result (λ names. map (λ name. name.items) names.items ≡ names_in partition.now files.now) }
{
    let mut names = Vec::new(alloc);
    for stored in files {
        if stored.name.is_in(partition) {
            names.push(stored.name.copy_name(alloc)?)?;
        }
    }
    Ok(names)
}

// The place that a file of this name has in order.
fn place_for(files: &[StoredFile], name: &BlobName) -> usize
    ensures within { result ≤ length files.now }
    ensures is { (added : StoredFile) → added.name ≡ name.now → in_order added files.now ≡ take result files.now
        ++ (added ∷ drop result files.now) }
{
    for (place, stored) in files.iter().enumerate() {
        if name.is_before(&stored.name) {
            return place;
        }
    }
    files.len()
}

/// Puts the file in its place in order. There is room for it.
pub fn put_in_order(files: &mut Vec<StoredFile>, added: StoredFile)
    requires { vec_len files.old < vec_capacity files.old }
    ensures { files.new.items ≡ in_order added files.old.items }
{
    let place = place_for(files, &added.name);
    let _ = files.insert(place, added);
}

/// What is durable of a file, and its number.
#[derive(Debug, Drop)]
pub struct Durable {
    /// The number.
    pub number: u64,
    /// The bytes.
    pub bytes: Vec<u8>,
}

/// What is durable of the file of this name, or None where there is none. It fails only when out of memory.
pub fn durable_of(
    alloc: Global,
    files: &[StoredFile],
    partition: &str,
    name: &[u8],
) -> Result<Option<Durable>, AllocError>
    ensures none { IfOk result (λ found. IfNone found (list_any (has_name partition.now name.now) files.now ≡ false)) }
    ensures some { IfOk result
        (λ found. IfSome found (λ it. (list_any (has_name partition.now name.now) files.now ≡ true)
        × (it.number ≡ number_with (has_name partition.now name.now) files.now)
        × (it.bytes.items ≡ durable_in partition.now name.now files.now))) }
    ensures err { OnErr result (list_any (has_name partition.now name.now) files.now ≡ true) }
{
    let Some(place) = place_of_name(files, partition, name) else {
        return Ok(None);
    };
    let stored = &files[place];
    let bytes = stored.file.durable(alloc)?;
    Ok(Some(Durable {
        number: stored.number,
        bytes,
    }))
}

/// Makes the bytes the base of the file of this name, where it is there, and empties its log.
pub fn publish_name(files: &mut Vec<StoredFile>, partition: &str, name: &[u8], bytes: Vec<u8>)
    ensures { files.new.items
        ≡ changed (has_name partition.now name.now) (λ _. settled_at bytes.items) files.old.items }
{
    if let Some(place) = place_of_name(files, partition, name) {
        files[place].file.publish(bytes);
    }
}
