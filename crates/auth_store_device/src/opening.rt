//! The opening of the log, which admits what it shows.

ghost use Rattle.std.specs.Prelude.{◌≡◌, ◌-◌, ◌<◌, ◌^◌, [], true, false, length, None, Some, Result, Err};
ghost use Rattle.std.specs.Prelude.{IfOk, IfErr, IfNone, IfSome, OnOk, OnErr};
ghost use Rattle.fault_storage_parts.specs.declared.error.Call.{Call};
ghost use Rattle.fault_storage_parts.specs.declared.error.Error.{Error};
ghost use Rattle.fault_storage_parts.specs.declared.error.HeaderError.{HeaderError};
ghost use Rattle.fault_storage.specs.declared.faulty.Blob.{Blob};
ghost use Rattle.fault_storage.specs.declared.faulty.Storage.{Storage};
ghost use Rattle.fault_storage.specs.declared.storage.Opened.{Opened};
ghost use Rattle.fault_storage.specs.Stores.{Store, Handle};
ghost use Rattle.fault_storage.specs.Directory.{has_partition};
ghost use Rattle.fault_storage.specs.Faults.{IsFaultyCall, FaultyOpens};
ghost use Rattle.auth_store_device.specs.Logs.{log_partition, log_name, has_log, log_of, behind_header, durable_log};
ghost use Rattle.auth_store_device.specs.Logs.{log_versions, IsOrderly, IsOpenLog};
ghost use Rattle.auth_store_device.specs.Devices.{opening_refusal, opening_answer, injected_after};
ghost use Rattle.auth_store_device.specs.Devices.{shown_file, log_fault, after_admission, HasNoNumber};
ghost use Rattle.auth_store_device.specs.Records.{calls_of};
ghost use Rattle.paged_blob_parts.specs.Calls.{file_of};
ghost use Rattle.paged_blob_parts.specs.Images.{IsImage};

use crate::error::OpenError;
use crate::record::Record;
use fault_storage::storage::Storage as _;
use fault_storage::{Error as StorageError, Versions, faulty, memory};
use rand_core::Rng;
use std::alloc::{AllocError, Global};

// The partition of the log.
const PARTITION: &str = "store";

// The name of the log.
const NAME: &[u8] = b"log";

/// Those of the bytes that stand behind a header of eight.
pub(crate) fn behind_header(bytes: &[u8]) -> &[u8]
    ensures { result.now ≡ behind_header bytes.now }
{
    &bytes[bytes.len().min(8)..]
}

// What is durable of the log, its header first. None: there is none. It fails only when out of memory.
fn copy_durable(storage: &memory::Storage) -> Result<Option<Vec<u8>>, AllocError>
    requires { has_log storage.now ≡ true → has_partition log_partition storage.now.partitions ≡ true }
    ensures none { IfOk result (λ found. IfNone found (has_log storage.now ≡ false)) }
    ensures some { IfOk result (λ found. IfSome found (λ bytes. (has_log storage.now ≡ true)
        × (bytes.items ≡ durable_log storage.now))) }
{
    match storage.raw_blob(PARTITION, NAME) {
        Ok(bytes) => Ok(Some(bytes)),
        Err(StorageError::Memory) => Err(AllocError),
        Err(_) => Ok(None),
    }
}

// Those of the copied bytes that stand behind the header; nothing where there is no log.
fn shown_of(copied: &Option<Vec<u8>>) -> &[u8]
    ensures none { IfNone copied.now (result.now ≡ []) }
    ensures some { IfSome copied.now (λ bytes. result.now ≡ behind_header bytes.items) }
{
    match copied {
        Some(bytes) => behind_header(bytes),
        None => &[],
    }
}

/// Copies what is durable of the log, its header first, and makes the record ready for an opening that shows it. None:
/// there is no log, and an opening shows nothing. It fails only when out of memory.
pub(crate) fn make_ready(
    storage: &memory::Storage,
    record_kept: &mut Record,
) -> Result<Option<Vec<u8>>, AllocError>
    requires listed { has_log storage.now ≡ true → has_partition log_partition storage.now.partitions ≡ true }
    requires image { IsImage (file_of (calls_of record_kept.old)) (behind_header (durable_log storage.now)) }
    ensures none { IfOk result (λ found. IfNone found (has_log storage.now ≡ false)) }
    ensures some { IfOk result (λ found. IfSome found (λ bytes. (has_log storage.now ≡ true)
        × (bytes.items ≡ durable_log storage.now))) }
    ensures calls { calls_of record_kept.new ≡ calls_of record_kept.old }
    ensures place { OnOk result (record_kept.new.has_place ≡ true) }
    ensures base { OnOk result (record_kept.new.has_base ≡ true) }
    ensures ready { OnOk result (record_kept.new.ready ≡ behind_header (durable_log storage.now)) }
{
    let copied = copy_durable(storage)?;
    record_kept.make_ready_to_open(shown_of(&copied))?;
    Ok(copied)
}

/// A copy of what is durable of the log behind its header; nothing where there is no log. It fails only when out of
/// memory.
pub(crate) fn copy_log(alloc: Global, storage: &memory::Storage) -> Result<Vec<u8>, AllocError>
    requires { has_log storage.now ≡ true → has_partition log_partition storage.now.partitions ≡ true }
    ensures { IfOk result (λ bytes. bytes.items ≡ behind_header (durable_log storage.now)) }
{
    match copy_durable(storage)? {
        Some(bytes) => behind_header(&bytes).to_vec(alloc),
        None => Ok(Vec::new(alloc)),
    }
}

// The store's refusal as one of an opening.
fn opening_refusal(error: StorageError) -> OpenError
    ensures is { result ≡ opening_refusal error }
    ensures power { result ≡ OpenError.PowerCut → ⊥ }
{
    match error {
        StorageError::Header(fault) => OpenError::Header(fault),
        StorageError::Injected(_) => OpenError::Injected,
        StorageError::NumberEnded => OpenError::NumberEnded,
        // Out of memory. The refusals beside it are none of an opening of a name that is valid.
        _ => OpenError::Memory,
    }
}

/// Opens the log of which these are the durable bytes, or makes it where there is none, and admits what it shows.
pub(crate) fn open_log<R: Rng + Drop>(
    storage: &mut faulty::Storage<memory::Storage, R>,
    copied: Option<Vec<u8>>,
) -> Result<faulty::Blob<memory::Blob>, OpenError>
    requires room { storage.old.injections < 2 ^ 64 - 1 }
    requires orderly { IsOrderly storage.old.inner }
    requires none { IfNone copied (has_log storage.old.inner ≡ false) }
    requires some { IfSome copied (λ bytes. (has_log storage.old.inner ≡ true)
        × (bytes.items ≡ durable_log storage.old.inner)) }
    ensures opens { (answer : Result (Opened (Blob Handle)) Error) × (left : Storage Store R)
        × IsFaultyCall (R.stream) Call.Open storage.old.config.«open»
        (FaultyOpens log_partition log_name log_versions) storage.old answer left
        × (result ≡ opening_answer answer)
        × (storage.new ≡ record left { inner = after_admission storage.old.inner answer left.inner }) }
    ensures header { (fault : HeaderError) → result ≡ Err (OpenError.Header fault)
        → (has_log storage.old.inner ≡ true) × (log_fault storage.old.inner ≡ Some fault) }
    ensures fine { OnOk result (has_log storage.old.inner ≡ true → log_fault storage.old.inner ≡ None) }
    ensures shows { IfOk result (λ log. IsOpenLog storage.new.inner
        (shown_file (behind_header (durable_log storage.old.inner))) log.inner) }
    ensures admitted { OnOk result ((log_of storage.new.inner).log ≡ []) }
    ensures count { storage.new.injections ≡ injected_after result storage.old.injections }
    ensures settings { storage.new.config ≡ storage.old.config }
    ensures power { result ≡ Err OpenError.PowerCut → ⊥ }
    ensures numbers { result ≡ Err OpenError.NumberEnded → HasNoNumber storage.old.inner }
    ensures refused { OnErr result (storage.new.inner ≡ storage.old.inner) }
{
    let versions = Versions {
        least: 0,
        greatest: 0,
    };
    match storage.open_versioned(PARTITION, NAME, versions) {
        Ok(opened) => match copied {
            Some(bytes) => {
                storage.admit_shown(&opened.blob, bytes);
                Ok(opened.blob)
            }
            None => Ok(opened.blob),
        },
        Err(e) => Err(opening_refusal(e)),
    }
}
