//! The calls of the open log, each of which is recorded.

ghost use Rattle.std.specs.Prelude.{◌≡◌, ◌+◌, ◌-◌, ◌<◌, ◌^◌, ℕ, Bool, List, IfOk, IfErr, length};
ghost use Rattle.fault_storage_parts.specs.declared.error.Call.TheVariants.{Read, Sync};
ghost use Rattle.fault_storage.specs.Changes.{FaultyWrites, FaultyResizes};
ghost use Rattle.fault_storage.specs.Directory.{MemoryReads, MemorySyncs};
ghost use Rattle.fault_storage.specs.Faults.{IsFaultyCall};
ghost use Rattle.paged_blob_parts.specs.Answers.{Records, RecordsSync, Failures, failures_after};
ghost use Rattle.paged_blob_parts.specs.Answers.{IsCause, IsReadCause, IsSlice};
ghost use Rattle.paged_blob_parts.specs.Calls.{File, wrote, resized_to, file_of};
ghost use Rattle.paged_blob_parts.specs.WriteModes.{is_sync, place_of};
ghost use Rattle.paged_blob_parts.specs.declared.error.CallKind.{CallKind};
ghost use Rattle.auth_store_device.specs.Devices.{Passes, failures_in, mode_below, refusal_of};
ghost use Rattle.auth_store_device.specs.Logs.{IsOpenLog};
ghost use Rattle.auth_store_device.specs.Records.{calls_of};

use crate::opening::behind_header;
use crate::record::Record;
use fault_storage::storage::Blob as _;
use fault_storage::{Error as StorageError, WriteMode as StorageMode, faulty, memory};
use paged_blob_parts::blob::place_of;
use paged_blob_parts::{CallKind, Error, WriteMode};
use rand_core::Rng;

/// What the store answered a change of the log, or a sync of it.
#[derive(Clone, Copy, Debug, PartialEq, Eq)]
pub enum Told {
    /// It was made.
    Made,
    /// A fault was injected.
    Failed,
    /// It counts as not made: a number would pass its type.
    Ended,
    /// It counts as not made for another reason.
    Unmade,
}

impl Told {
    ghost use Rattle.auth_store_device.specs.Devices.{told_of};

    // What the answer says.
    fn of(answer: Result<(), StorageError>) -> Told
        ensures { result ≡ told_of answer }
    {
        match answer {
            Ok(()) => Told::Made,
            Err(StorageError::Injected(_)) => Told::Failed,
            Err(StorageError::NumberEnded) => Told::Ended,
            Err(_) => Told::Unmade,
        }
    }
}

// The store's refusal as one of a call of this kind.
fn refusal_of(kind: CallKind, error: StorageError) -> Error
    ensures { result ≡ refusal_of kind error }
{
    match error {
        StorageError::Injected(_) => Error::Injected(kind),
        StorageError::NumberEnded => Error::NumberEnded,
        StorageError::Memory => Error::Memory,
        StorageError::BlobInsufficientLength => Error::BlobInsufficientLength,
        _ => Error::BlobMissing,
    }
}

// The mode in which a write reaches the store.
fn mode_below(mode: WriteMode) -> StorageMode
    ensures { result ≡ mode_below mode }
{
    match mode {
        WriteMode::Plain => StorageMode::Plain,
        WriteMode::Sync => StorageMode::Sync,
    }
}

/// Writes bytes of the log, behind its header. There is room for the record before the store is asked.
pub(crate) fn write_log<R: Rng>(
    storage: &mut faulty::Storage<memory::Storage, R>,
    log: &mut faulty::Blob<memory::Blob>,
    record_kept: &mut Record,
    offset: u64,
    bytes: &[u8],
    mode: WriteMode,
) -> Result<(), Error>
    requires room { storage.old.injections < 2 ^ 64 - 1 }
    requires stands { IsOpenLog storage.old.inner (file_of (calls_of record_kept.old)) log.old.inner }
    ensures passes { Passes CallKind.Write (λ blob below answer changed left.
        FaultyWrites (R.stream) blob offset bytes.now (mode_below mode) below answer changed left)
        log.old storage.old result log.new storage.new }
    ensures calls { Records result (wrote (place_of mode offset bytes.now) bytes.now (is_sync mode))
        (calls_of record_kept.old) (calls_of record_kept.new) }
    ensures cause { (failures : Failures) → IfErr result (IsCause failures CallKind.Write (offset + length bytes.now)) }
    ensures count { (refused : ℕ) (is_open is_asked : Bool) → failures_in storage.new refused is_open is_asked
        ≡ failures_after result (failures_in storage.old refused is_open is_asked) }
    ensures uncut { result ≡ Err Error.PowerCut → ⊥ }
    ensures stands { IsOpenLog storage.new.inner (file_of (calls_of record_kept.new)) log.new.inner }
{
    record_kept.make_room(bytes.len())?;
    let place = place_of(mode, offset, bytes);
    let is_sync = mode == WriteMode::Sync;
    match Told::of(log.write_at(storage, offset, bytes, mode_below(mode))) {
        Told::Made => {
            record_kept.note_write(place, bytes, is_sync, true);
            Ok(())
        }
        Told::Failed => {
            record_kept.note_write(place, bytes, is_sync, false);
            Err(Error::Injected(CallKind::Write))
        }
        Told::Ended => Err(Error::NumberEnded),
        Told::Unmade => Err(Error::Memory),
    }
}

/// Cuts the log behind its header to a length, or grows it to that. There is room for the record before the store is
/// asked.
pub(crate) fn resize_log<R: Rng>(
    storage: &mut faulty::Storage<memory::Storage, R>,
    log: &mut faulty::Blob<memory::Blob>,
    record_kept: &mut Record,
    len: u64,
) -> Result<(), Error>
    requires room { storage.old.injections < 2 ^ 64 - 1 }
    requires stands { IsOpenLog storage.old.inner (file_of (calls_of record_kept.old)) log.old.inner }
    ensures passes { Passes CallKind.Resize (λ blob below answer changed left.
        FaultyResizes (R.stream) blob len below answer changed left) log.old storage.old result log.new storage.new }
    ensures calls { Records result (resized_to len) (calls_of record_kept.old) (calls_of record_kept.new) }
    ensures cause { (failures : Failures) → IfErr result (IsCause failures CallKind.Resize len) }
    ensures count { (refused : ℕ) (is_open is_asked : Bool) → failures_in storage.new refused is_open is_asked
        ≡ failures_after result (failures_in storage.old refused is_open is_asked) }
    ensures uncut { result ≡ Err Error.PowerCut → ⊥ }
    ensures stands { IsOpenLog storage.new.inner (file_of (calls_of record_kept.new)) log.new.inner }
{
    record_kept.make_room(0)?;
    match Told::of(log.resize(storage, len)) {
        Told::Made => {
            record_kept.note_resize(len, true);
            Ok(())
        }
        Told::Failed => {
            record_kept.note_resize(len, false);
            Err(Error::Injected(CallKind::Resize))
        }
        Told::Ended => Err(Error::NumberEnded),
        Told::Unmade => Err(Error::Memory),
    }
}

/// So many bytes of the log, from an offset behind its header on.
pub(crate) fn read_log<R: Rng>(
    storage: &mut faulty::Storage<memory::Storage, R>,
    log: &faulty::Blob<memory::Blob>,
    offset: u64,
    len: usize,
) -> Result<Vec<u8>, Error>
    requires room { storage.old.injections < 2 ^ 64 - 1 }
    ensures passes { Passes CallKind.Read (λ blob below answer changed left. (changed ≡ blob)
        × IsFaultyCall (R.stream) Read below.config.read (MemoryReads blob.inner offset len) below answer left)
        log.now storage.old result log.now storage.new }
    ensures slice { (file : File) → IsOpenLog storage.old.inner file log.now.inner
        → IfOk result (λ bytes. IsSlice file offset len bytes.items) }
    ensures cause { (file : File) (failures : Failures) → IsOpenLog storage.old.inner file log.now.inner
        → IfErr result (IsReadCause failures file offset len) }
    ensures count { (refused : ℕ) (is_open is_asked : Bool) → failures_in storage.new refused is_open is_asked
        ≡ failures_after result (failures_in storage.old refused is_open is_asked) }
    ensures uncut { result ≡ Err Error.PowerCut → ⊥ }
    ensures store { storage.new.inner ≡ storage.old.inner }
{
    match log.read_at(storage, offset, len) {
        Ok(bytes) => Ok(bytes),
        Err(e) => Err(refusal_of(CallKind::Read, e)),
    }
}

/// Makes the log durable. The record is ready before the store is asked.
pub(crate) fn sync_log<R: Rng + Drop>(
    storage: &mut faulty::Storage<memory::Storage, R>,
    log: &faulty::Blob<memory::Blob>,
    record_kept: &mut Record,
) -> Result<(), Error>
    requires room { storage.old.injections < 2 ^ 64 - 1 }
    requires stands { IsOpenLog storage.old.inner (file_of (calls_of record_kept.old)) log.now.inner }
    ensures passes { Passes CallKind.Sync (λ blob below answer changed left. (changed ≡ blob)
        × IsFaultyCall (R.stream) Sync below.config.sync (MemorySyncs blob.inner) below answer left)
        log.now storage.old result log.now storage.new }
    ensures calls { RecordsSync result (calls_of record_kept.old) (calls_of record_kept.new) }
    ensures cause { (failures : Failures) → IfErr result (IsCause failures CallKind.Sync 0) }
    ensures count { (refused : ℕ) (is_open is_asked : Bool) → failures_in storage.new refused is_open is_asked
        ≡ failures_after result (failures_in storage.old refused is_open is_asked) }
    ensures uncut { result ≡ Err Error.PowerCut → ⊥ }
    ensures stands { IsOpenLog storage.new.inner (file_of (calls_of record_kept.new)) log.now.inner }
{
    record_kept.make_ready_to_sync(behind_header(log.inner().live()))?;
    match Told::of(log.sync(storage)) {
        Told::Made => {
            record_kept.note_sync();
            Ok(())
        }
        Told::Failed => {
            record_kept.note_failed_sync();
            Err(Error::Injected(CallKind::Sync))
        }
        Told::Ended => Err(Error::NumberEnded),
        Told::Unmade => Err(Error::Memory),
    }
}
