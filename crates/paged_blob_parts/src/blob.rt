//! What a blob is: the list of the calls that were made of it.

ghost use Rattle.std.specs.Prelude.{◌≡◌, ◌+◌, ◌-◌, ◌≤◌, ℕ, List, Bool, map, length, IfOk, IfErr};
ghost use Rattle.paged_blob_parts.specs.Calls.{Call, wrote, resized_to, file_of};
ghost use Rattle.paged_blob_parts.specs.Answers.{Records, RecordsSync, Failures, failures_after, IsCause, IsSlice};
ghost use Rattle.paged_blob_parts.specs.Answers.{IsReadCause, used_up, MeetsCut};
ghost use Rattle.paged_blob_parts.specs.Answers.{AreSlices, IsManyCause, UsesUpInTurn, MeetsCutInTurn};
ghost use Rattle.paged_blob_parts.specs.WriteModes.{is_sync, place_of};
ghost use Rattle.paged_blob_parts.specs.declared.error.CallKind.TheVariants.{Write, Resize, Sync};

use crate::error::Error;
use crate::started::{StartedReads, StartedSync};
use std::alloc::Global;

/// Whether a write is durable at once. In the Rust: `commonware_runtime::WriteMode`.
#[derive(Clone, Copy, Debug, PartialEq, Eq)]
pub enum WriteMode {
    /// It is durable after the next sync.
    Plain,
    /// It is durable at once, and it alone.
    Sync,
}

/// Where a write counts as laid: at its offset, but at the beginning where it has no bytes and is durable at once,
/// since it then makes no gap (own).
pub fn place_of(mode: WriteMode, offset: u64, bytes: &[u8]) -> u64
    ensures is { result ≡ place_of mode offset bytes.now }
    ensures within { result ≤ offset }
{
    match mode {
        WriteMode::Plain => offset,
        WriteMode::Sync => match bytes {
            [] => 0,
            [_, ..] => offset,
        },
    }
}

/// A blob: bytes that are read, written, resized and made durable. All that is known of it is the list of the calls so
/// far: what a read finds, what a crash may leave now and at each moment since, and what stood before an opening are
/// definitions over that list. In the Rust: `commonware_runtime::Blob`.
pub trait Blob {
    /// Each call so far that may have changed the bytes, the newest first.
    ghost calls: { Self → List Call };

    /// What has refused its calls so far: how many faults were injected, how many calls a cut of the power refused, and
    /// whether an opening stands.
    ghost failures: { Self → Failures };

    /// How many more calls are let through until the power is cut, where a cut was asked for.
    ghost left: { Self → ℕ };

    /// So many bytes from an offset on. Where the blob ends before them: F7. While no write or resize has failed they
    /// are a slice of the content; after one has, of some bytes that a crash may leave.
    /// In the Rust: `commonware_runtime::Blob::read_at`, without an allocator.
    fn read_at(&mut self, alloc: Global, offset: u64, len: usize) -> Result<Vec<u8>, Error>
        ensures slice { IfOk result (λ bytes. IsSlice (file_of (calls self.old)) offset len bytes.items) }
        ensures cause { IfErr result (IsReadCause (failures self.old) (file_of (calls self.old)) offset len) }
        ensures calls { calls self.new ≡ calls self.old }
        ensures failures { failures self.new ≡ failures_after result (failures self.old) }
        ensures left { left self.new ≡ left self.old - used_up result }
        ensures cut { MeetsCut result (failures self.old) (left self.old) };

    /// Writes bytes at an offset, also past the end; a gap is filled by zeros. Until the next sync that succeeds a
    /// crash may leave any of them, unless the mode says that they are durable at once. No bytes past the end grow the
    /// blob in mode `Plain`, and leave it in mode `Sync`. F1, F8, F9, F10: no byte is changed; F6: it is recorded as
    /// failed. In the Rust: `commonware_runtime::Blob::write_at`.
    fn write_at(&mut self, offset: u64, bytes: &[u8], mode: WriteMode) -> Result<(), Error>
        ensures calls { Records result (wrote (place_of mode offset bytes.now) bytes.now (is_sync mode))
            (calls self.old) (calls self.new) }
        ensures cause { IfErr result (IsCause (failures self.old) Write (offset + length bytes.now)) }
        ensures failures { failures self.new ≡ failures_after result (failures self.old) }
        ensures left { left self.new ≡ left self.old - used_up result }
        ensures cut { MeetsCut result (failures self.old) (left self.old) };

    /// Cuts the blob to a length, or grows it to that by zeros. F1, F8, F9, F10: no byte is changed; F6: it is recorded
    /// as failed. In the Rust: `commonware_runtime::Blob::resize`.
    fn resize(&mut self, len: u64) -> Result<(), Error>
        ensures calls { Records result (resized_to len) (calls self.old) (calls self.new) }
        ensures cause { IfErr result (IsCause (failures self.old) Resize len) }
        ensures failures { failures self.new ≡ failures_after result (failures self.old) }
        ensures left { left self.new ≡ left self.old - used_up result }
        ensures cut { MeetsCut result (failures self.old) (left self.old) };

    /// Makes durable what was written. F1, F8, F9, F10: nothing is made durable; F6: it is recorded as failed.
    /// In the Rust: `commonware_runtime::Blob::sync`.
    fn sync(&mut self) -> Result<(), Error>
        ensures calls { RecordsSync result (calls self.old) (calls self.new) }
        ensures cause { IfErr result (IsCause (failures self.old) Sync 0) }
        ensures failures { failures self.new ≡ failures_after result (failures self.old) }
        ensures left { left self.new ≡ left self.old - used_up result }
        ensures cut { MeetsCut result (failures self.old) (left self.old) };

    /// The bytes of each range, an offset and a length: single reads in turn, the first refusal ending them.
    /// In the Rust: `commonware_runtime::Blob::read_many`.
    fn read_many(&mut self, alloc: Global, ranges: &[(u64, usize)]) -> Result<Vec<Vec<u8>>, Error>
        ensures slices { IfOk result (λ all. AreSlices (file_of (calls self.old)) ranges.now
            (map (λ bytes. bytes.items) all.items)) }
        ensures cause { IfErr result (IsManyCause (failures self.old) (file_of (calls self.old)) ranges.now) }
        ensures calls { calls self.new ≡ calls self.old }
        ensures failures { failures self.new ≡ failures_after result (failures self.old) }
        ensures left { UsesUpInTurn result (length ranges.now) (left self.old) (left self.new) }
        ensures cut { MeetsCutInTurn result (failures self.old) (left self.old) (length ranges.now) }
    {
        let mut all = Vec::new(alloc);
        for (offset, len) in ranges {
            let bytes = self.read_at(alloc, *offset, *len)?;
            all.push(bytes)?;
        }
        Ok(all)
    }

    /// Starts the reads of `read_many`, and gives their answer as a value to be finished: a refusal is told of then.
    /// They are of what is there now, whatever is called before they are finished.
    /// In the Rust: `commonware_runtime::Blob::start_read_many`.
    fn start_read_many(&mut self, alloc: Global, ranges: &[(u64, usize)]) -> StartedReads
        ensures slices { IfOk result.answer (λ all. AreSlices (file_of (calls self.old)) ranges.now
            (map (λ bytes. bytes.items) all.items)) }
        ensures cause { IfErr result.answer (IsManyCause (failures self.old) (file_of (calls self.old)) ranges.now) }
        ensures calls { calls self.new ≡ calls self.old }
        ensures failures { failures self.new ≡ failures_after result.answer (failures self.old) }
        ensures left { UsesUpInTurn result.answer (length ranges.now) (left self.old) (left self.new) }
        ensures cut { MeetsCutInTurn result.answer (failures self.old) (left self.old) (length ranges.now) }
    {
        StartedReads::new(self.read_many(alloc, ranges))
    }

    /// Starts a sync of the calls so far, and gives its answer as a value to be finished: a refusal is told of then. It
    /// is made at once, so that what a crash leaves from now on is what one leaves after it, which one might have left
    /// before it too. What is written from now on is not made durable by it.
    /// In the Rust: `commonware_runtime::Blob::start_sync`.
    fn start_sync(&mut self) -> StartedSync
        ensures calls { RecordsSync result.answer (calls self.old) (calls self.new) }
        ensures cause { IfErr result.answer (IsCause (failures self.old) Sync 0) }
        ensures failures { failures self.new ≡ failures_after result.answer (failures self.old) }
        ensures left { left self.new ≡ left self.old - used_up result.answer }
        ensures cut { MeetsCut result.answer (failures self.old) (left self.old) }
    {
        StartedSync::new(self.sync())
    }
}
