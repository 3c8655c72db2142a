//! The files of the store in memory, each found by its number.

ghost use Rattle.std.specs.Prelude.{◌≡◌, not, ◌+◌, ◌-◌, ◌^◌, ◌<◌, false, OnOk, OnErr, MatchOption, filter};
ghost use Rattle.std.specs.List.{list_any};
ghost use Rattle.std.specs.Vec.{vec_len, vec_capacity};
ghost use Rattle.fault_storage_parts.specs.FilesCode.{mutation_of};
ghost use Rattle.fault_storage.specs.Directory.{in_order, with_partition, has_name};
ghost use Rattle.fault_storage_parts.specs.Revisions.{kept_of, shortened, without_last, file_recast, file_without_last};
ghost use Rattle.fault_storage.specs.Stores.{IsPlace, has_number, without, changed, with_issued, settled_at};
ghost use Rattle.fault_storage.specs.Stores.{settled_in, crashed_files};

use crate::directory::{PartitionName, has_partition, put_in_order, remove_name};
use crate::file::Mutation;
use crate::stored::StoredFile;
use rand_core::Rng;
use std::alloc::AllocError;

// The place of the file with this number, or None where there is none.
fn place_of(files: &[StoredFile], number: u64) -> Option<usize>
    ensures { MatchOption result (list_any (has_number number) files.now
        ≡ false) (IsPlace (has_number number) files.now) }
{
    for (place, stored) in files.iter().enumerate() {
        if stored.number == number {
            return Some(place);
        }
    }
    None
}

// Issues the mutation of the file with this number, where it is there. It fails only when out of memory, and then
// nothing is changed.
pub(crate) fn issue_in(
    files: &mut Vec<StoredFile>,
    number: u64,
    mutation: Mutation,
) -> Result<(), AllocError>
    ensures ok { OnOk result (files.new.items
        ≡ changed (has_number number) (with_issued (mutation_of mutation)) files.old.items) }
    ensures err { OnErr result (files.new.items ≡ files.old.items) }
{
    if let Some(place) = place_of(files, number) {
        files[place].file.issue(mutation)?;
    }
    Ok(())
}

// Makes these bytes of the write that was issued last durable at once, of the file with this number.
pub(crate) fn fix_in(files: &mut Vec<StoredFile>, number: u64, kept: Vec<bool>)
    ensures { files.new.items ≡ changed (has_number number) (file_recast (kept_of kept.items)) files.old.items }
{
    if let Some(place) = place_of(files, number) {
        files[place].file.fix_last(kept);
    }
}

// Lets the resize that was issued last go to this length, where it went further, of the file with this number.
pub(crate) fn shorten_in(files: &mut Vec<StoredFile>, number: u64, size: usize)
    ensures { files.new.items ≡ changed (has_number number) (file_recast (shortened size)) files.old.items }
{
    if let Some(place) = place_of(files, number) {
        files[place].file.shorten_last(size);
    }
}

// Takes back the mutation that was issued last, of the file with this number.
pub(crate) fn withdraw_in(files: &mut Vec<StoredFile>, number: u64)
    ensures { files.new.items ≡ changed (has_number number) file_without_last files.old.items }
{
    if let Some(place) = place_of(files, number) {
        files[place].file.withdraw_last();
    }
}

// Takes the last turn away.
pub(crate) fn withdraw_turn(order: &mut Vec<u64>)
    ensures { order.new.items ≡ without_last order.old.items }
{
    let _ = order.pop();
}

// Publishes the bytes of the file with this number, where it is there.
pub(crate) fn publish_in(files: &mut Vec<StoredFile>, number: u64, bytes: Vec<u8>)
    ensures { files.new.items ≡ changed (has_number number) (λ _. settled_at bytes.items) files.old.items }
{
    if let Some(place) = place_of(files, number) {
        files[place].file.publish(bytes);
    }
}

// Takes away the turns of the file with this number.
pub(crate) fn forget_turns(order: &mut Vec<u64>, number: u64)
    ensures { order.new.items ≡ without number order.old.items }
{
    order.retain(|other| *other != number);
}

// Settles the first mutation of the file with this number, where it is there.
fn settle_in<R: Rng>(files: &mut Vec<StoredFile>, number: u64, rng: &mut R)
    ensures { (files.new.items, R.stream rng.new) ≡ settled_in number files.old.items (R.stream rng.old) }
{
    if let Some(place) = place_of(files, number) {
        files[place].file.settle_next(rng);
    }
}

// Settles a mutation for each turn, of the file with its number.
pub(crate) fn settle_turns<R: Rng>(files: &mut Vec<StoredFile>, order: &[u64], rng: &mut R)
    ensures { (files.new.items, R.stream rng.new) ≡ crashed_files files.old.items order.now (R.stream rng.old) }
{
    for number in order {
        settle_in(files, *number, rng);
    }
}

// Keeps the turns of files that are there.
pub(crate) fn keep_turns(order: &mut Vec<u64>, files: &[StoredFile])
    ensures { order.new.items ≡ filter (λ number. list_any (has_number number) files.now) order.old.items }
{
    order.retain(|number| has_file(files, *number));
}

// Puts the file in its place in order, and takes those away that have the name. There is room for it.
pub(crate) fn replace_file(
    files: &mut Vec<StoredFile>,
    partition: &str,
    name: &[u8],
    stored: StoredFile,
)
    requires { vec_len files.old < vec_capacity files.old }
    ensures { files.new.items
        ≡ in_order stored (filter (λ other. not (has_name partition.now name.now other)) files.old.items) }
{
    remove_name(files, partition, name);
    put_in_order(files, stored);
}

// Notes the partition where it is not there. There is room for it.
pub(crate) fn note_partition(
    partitions: &mut Vec<PartitionName>,
    partition: &str,
    noted: PartitionName,
)
    requires room { vec_len partitions.old < vec_capacity partitions.old }
    requires name { noted ≡ partition.now }
    ensures { partitions.new.items ≡ with_partition partition.now partitions.old.items }
{
    if !has_partition(partitions, partition) {
        let _ = partitions.push(noted);
    }
}

// The next number, which is given once.
pub(crate) fn take_number(next: &mut u64) -> u64
    requires { next.old < 2 ^ 64 - 1 }
    ensures { (result ≡ next.old) × (next.new ≡ next.old + 1) }
{
    let number = *next;
    *next += 1;
    number
}

// Whether there is a file with this number.
pub(crate) fn has_file(files: &[StoredFile], number: u64) -> bool
    ensures { result ≡ list_any (has_number number) files.now }
{
    place_of(files, number).is_some()
}
