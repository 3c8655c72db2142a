//! The device.

ghost use Rattle.std.specs.Prelude.{◌≡◌, ◌⊎◌, ◌+◌, ◌-◌, ◌<◌, ◌^◌, ◌∷◌, [], ℕ, List, length};
ghost use Rattle.std.specs.Prelude.{true, is_some, is_none};
ghost use Rattle.std.specs.Prelude.{Err, None, Some, IfOk, IfErr, OnOk, OnErr};
ghost use Rattle.rand_core.specs.Stream.{Stream};
ghost use Rattle.fault_storage.specs.Stores.{crashed_store};
ghost use Rattle.fault_storage_parts.specs.declared.error.Call.{Call};
ghost use Rattle.fault_storage_parts.specs.declared.error.HeaderError.{HeaderError};
ghost use Rattle.fault_storage_parts.specs.Files.{IsLeftOf};
ghost use Rattle.fault_storage.specs.Changes.{FaultyWrites, FaultyResizes};
ghost use Rattle.fault_storage.specs.Directory.{MemoryReads, MemorySyncs};
ghost use Rattle.fault_storage.specs.Faults.{IsFaultyCall};
ghost use Rattle.paged_blob_parts.specs.Answers.{Records, RecordsSync, RecordsOpening};
ghost use Rattle.paged_blob_parts.specs.Answers.{failures_after, used_up, MeetsCut};
ghost use Rattle.paged_blob_parts.specs.Answers.{IsCause, IsReadCause, IsSlice};
ghost use Rattle.paged_blob_parts.specs.Images.{IsImage};
ghost use Rattle.paged_blob_parts.specs.Calls.{opened, content, synced, wrote, resized_to, file_of};
ghost use Rattle.paged_blob_parts.specs.WriteModes.{is_sync, place_of};
ghost use Rattle.paged_blob_parts.specs.declared.error.CallKind.{CallKind};
ghost use Rattle.auth_store_device.specs.Devices.{calls_left, left_after, left_after_opening, stopped_opening, is_cut};
ghost use Rattle.auth_store_device.specs.Devices.{log_fault};
ghost use Rattle.auth_store_device.specs.Openings.{openings_of};
ghost use Rattle.auth_store_device.specs.Settings.{AreFirst};
ghost use Rattle.auth_store_device.specs.Logs.{has_log, log_of, behind_header, durable_log, HasOwnHeader};
ghost use Rattle.auth_store_device.specs.Records.{calls_of};

use crate::error::OpenError;
use crate::log::{read_log, resize_log, sync_log, write_log};
use crate::opening::{behind_header, copy_log, make_ready, open_log};
use crate::openings::Openings;
use crate::record::Record;
use fault_storage::{
    Config, PartialWriteMode, Probability, ResizeConfig, WriteConfig, faulty, memory,
};
use paged_blob_parts::{Blob, Error, StartedSync, WriteMode};
use rand_core::Rng;
use std::alloc::{AllocError, Global};
use std::marker::Model;

/// A blob over a store that fails, in memory: the blob `log` of its partition `store`, of blob version 0. It is open or
/// closed, keeps a record of its openings, syncs and changes, and its power may be cut after so many calls (own).
#[derive(Debug, Drop)]
pub struct Device<R: Rng> {
    storage: faulty::Storage<memory::Storage, R>,
    log: Option<faulty::Blob<memory::Blob>>,
    record_kept: Record,
    left: Option<u64>,
    refused: u64,
}

impl<R: Rng> Model for Device<R> {
    ghost use Rattle.auth_store_device.specs.Devices.{DeviceState, IsDevice};
    ghost use Rattle.auth_store_device.specs.Records.{calls_of};

    ghost Value = { DeviceState R };

    ghost view = { λ it. record {
      storage = it.storage;
      log = it.log;
      calls = calls_of it.record_kept;
      left = it.left;
      refused = it.refused;
    } };

    ghost invariant = { λ it. IsDevice (record {
      storage = it.storage;
      log = it.log;
      calls = calls_of it.record_kept;
      left = it.left;
      refused = it.refused;
    }) };
}

// The settings of a device that is made of no file.
fn first_settings() -> Config
    ensures { AreFirst result }
{
    let half = Probability {
        numerator: 1,
        denominator: 2,
    };
    Config::default()
        .write(WriteConfig {
            rate: Probability::ZERO,
            retention: half,
            mode: PartialWriteMode::Subset,
        })
        .resize(ResizeConfig {
            rate: Probability::ZERO,
            retention: half,
        })
}

impl<R: Rng + Drop> Device<R> {
    ghost use Rattle.auth_store_device.specs.Devices.{IsSettled, after_asking};
    ghost use Rattle.auth_store_device.specs.Settings.{IsNew};
    ghost use Rattle.auth_store_device.specs.Logs.{behind_header, durable_log};

    /// A closed device over a store; the durable bytes of its log, where there is one, are what its record begins with.
    /// The caller answers for it that no mutation of the log is pending, and that its header is of the layout with
    /// eight bytes, or one that each opening refuses. F9: out of memory; the store is then gone.
    pub fn new(
        alloc: Global,
        storage: faulty::Storage<memory::Storage, R>,
    ) -> Result<Device<R>, AllocError>
        requires { IsSettled storage.inner }
        ensures { IfOk result (λ device. device ≡ record {
          storage = storage;
          log = None;
          calls = synced (behind_header (durable_log storage.inner)) true ∷ [];
          left = None;
          refused = 0;
        }) }
    {
        let durable = copy_log(alloc, storage.inner())?;
        let record_kept = Record::of(alloc, durable)?;
        Ok(Device {
            storage,
            log: None,
            record_kept,
            left: None,
            refused: 0,
        })
    }

    /// A closed device over a store in memory that has no file yet, whose faults and choices are drawn of these words:
    /// nothing fails, and of what is not durable a crash keeps each byte, and each resize, one time in two. F9.
    pub fn empty(alloc: Global, rng: R) -> Result<Device<R>, AllocError>
        ensures new { IfOk result (IsNew rng) }
        ensures own { IfOk result (λ device. HasOwnHeader device.storage.inner) }
    {
        let below = memory::Storage::new(alloc);
        Device::new(alloc, faulty::Storage::new(below, rng, first_settings()))
    }

    /// The settings by which the store fails.
    pub fn config(&self) -> Config
        ensures { result ≡ self.now.storage.config }
    {
        self.storage.config()
    }

    /// Its openings so far, the oldest first: what each showed, and what stood before it. It takes no memory.
    pub fn openings(&self) -> Openings<'_>
        ensures { result ≡ openings_of self.now.calls }
    {
        Openings::of(&self.record_kept)
    }

    /// How many faults were injected into its calls so far.
    pub fn injections(&self) -> u64
        ensures { result ≡ self.now.storage.injections }
    {
        self.storage.injections()
    }

    /// Whether a cut of the power stands, under which each call is refused.
    pub fn is_cut(&self) -> bool
        ensures { result ≡ is_cut self.now.left }
    {
        self.left == Some(0)
    }

    /// Whether no opening stands.
    pub fn is_closed(&self) -> bool
        ensures { result ≡ is_none self.now.log }
    {
        self.log.is_none()
    }

    /// A crash of the store: of what is not durable it leaves what is drawn, in the order of issue. It ends a cut, and
    /// the count of refused calls. It takes no memory, so it always succeeds.
    pub fn crash(&mut self)
        requires { self.old.log ≡ None }
        ensures store { (self.new.storage.inner, R.stream self.new.storage.rng)
            ≡ crashed_store self.old.storage.inner (R.stream self.old.storage.rng) }
        ensures rest { (self.new.storage.injections ≡ self.old.storage.injections)
            × (self.new.storage.config ≡ self.old.storage.config) }
        ensures header { HasOwnHeader self.old.storage.inner → HasOwnHeader self.new.storage.inner }
        ensures device { (self.new.log ≡ None) × (self.new.calls ≡ self.old.calls) × (self.new.left ≡ None)
            × (self.new.refused ≡ 0) }
    {
        self.storage.crash();
        self.left = None;
        self.refused = 0;
    }

    /// Ends the opening that stands, where one does.
    pub fn close(&mut self)
        ensures { self.new ≡ record self.old { log = None } }
    {
        self.log = None;
    }

    /// The law that a device has refused calls by a cut since the last crash only where a cut stands (own).
    pub fn refuses_only_under_a_cut(&self)
        ensures { 0 < self.now.refused → self.now.left ≡ Some 0 }
    {
        let _ = &self.left;
    }

    /// The law that each outcome of a crash of the log is an image of the calls (own).
    pub fn crash_leaves_an_image(&self)
        ensures { let log = log_of self.now.storage.inner in
            (left : List ℕ) → IsLeftOf log.base log.log left []
            → IsImage (file_of self.now.calls) (behind_header left) }
    {
        let _ = &self.record_kept;
    }

    /// The law that a log that is open begins with the header of one that the device made (own).
    pub fn open_log_has_own_header(&self)
        ensures { is_some self.now.log ≡ true → HasOwnHeader self.now.storage.inner }
    {
        let _ = &self.log;
    }

    /// Other settings from now on.
    pub fn set_config(&mut self, config: Config)
        ensures { self.new ≡ record self.old { storage = record self.old.storage { config = config } } }
    {
        self.storage.set_config(config);
    }

    /// Lets so many calls through, and cuts the power then. Under a cut it changes nothing.
    pub fn cut_after(&mut self, calls: u64)
        ensures { self.new ≡ record self.old { left = after_asking calls self.old.left } }
    {
        if self.left == Some(0) {
            return;
        }
        self.left = Some(calls);
    }
}

// How many calls are left after one that was let through. One that counts as not made uses none up.
fn left_after<T>(answer: &Result<T, Error>, left: Option<u64>) -> Option<u64>
    ensures left { result ≡ left_after answer.now left }
    ensures used { calls_left result ≡ calls_left left - used_up answer.now }
    ensures asked { is_some result ≡ is_some left }
{
    match answer {
        Err(Error::PowerCut) => left,
        Err(Error::NumberEnded) => left,
        Err(Error::Memory) => left,
        Err(Error::BlobMissing) => left,
        _ => left.map(|calls| calls.saturating_sub(1)),
    }
}

// Why an opening is refused before it reaches the store.
fn stopped_opening(error: Error) -> OpenError
    ensures { result ≡ stopped_opening error }
{
    match error {
        Error::NumberEnded => OpenError::NumberEnded,
        Error::PowerCut => OpenError::PowerCut,
        _ => OpenError::Memory,
    }
}

// How many calls are left after an opening. One that counts as not made, or that a cut refused, uses none up.
fn left_after_opening<T>(answer: &Result<T, OpenError>, left: Option<u64>) -> Option<u64>
    ensures left { result ≡ left_after_opening answer.now left }
    ensures asked { is_some result ≡ is_some left }
{
    match answer {
        Err(OpenError::NumberEnded) => left,
        Err(OpenError::Memory) => left,
        Err(OpenError::PowerCut) => left,
        _ => left.map(|calls| calls.saturating_sub(1)),
    }
}

impl<R: Rng + Drop> Device<R> {
    ghost use Rattle.auth_store_device.specs.Devices.{HasEnded, IsStopped, IsOpeningCall, failures_of};
    ghost use Rattle.auth_store_device.specs.Devices.{injected_after, refused_after, HasNoNumber};

    /// Opens the log, or makes it where there is none, admits what it shows, and answers how many bytes that is. It
    /// asks for a closed device. F8: a count has ended, or the numbers of files; F10: a cut of the power stands; F9:
    /// out of memory; F6: a fault was injected; F5: its header is refused. After a refusal the device is closed, with
    /// files and record as they were.
    pub fn open(&mut self) -> Result<u64, OpenError>
        requires { self.old.log ≡ None }
        ensures shows { OnOk result (self.new.calls
            ≡ opened (behind_header (durable_log self.old.storage.inner)) ∷ self.old.calls) }
        ensures records { OnOk result (RecordsOpening self.old.calls self.new.calls) }
        ensures length { IfOk result (λ count. count ≡ length (content self.new.calls)) }
        ensures admitted { OnOk result ((log_of self.new.storage.inner).log ≡ []) }
        ensures is_open { OnOk result (is_some self.new.log ≡ true) }
        ensures refused { OnErr result ((self.new.calls ≡ self.old.calls) × (self.new.log ≡ None)
            × (self.new.storage.inner ≡ self.old.storage.inner)) }
        ensures count { self.new.storage.injections ≡ injected_after result self.old.storage.injections }
        ensures settings { self.new.storage.config ≡ self.old.storage.config }
        ensures ended { HasEnded self.old → result ≡ Err OpenError.NumberEnded }
        ensures numbers { result ≡ Err OpenError.NumberEnded
            → HasEnded self.old ⊎ HasNoNumber self.old.storage.inner }
        ensures cut { self.old.left ≡ Some 0 → HasEnded self.old ⊎ (result ≡ Err OpenError.PowerCut) }
        ensures power { result ≡ Err OpenError.PowerCut → self.old.left ≡ Some 0 }
        ensures header { (fault : HeaderError) → result ≡ Err (OpenError.Header fault)
            → log_fault self.old.storage.inner ≡ Some fault }
        ensures fine { OnOk result (has_log self.old.storage.inner ≡ true → log_fault self.old.storage.inner ≡ None) }
        ensures own { (fault : HeaderError) → HasOwnHeader self.old.storage.inner
            → result ≡ Err (OpenError.Header fault) → ⊥ }
        ensures draw { IsOpeningCall (R.stream) self.old result self.new }
        ensures refusals { self.new.refused ≡ refused_after result self.old.refused }
        ensures left { self.new.left ≡ left_after_opening result self.old.left }
        ensures asked { is_some self.new.left ≡ is_some self.old.left }
    {
        if let Err(error) = self.stop() {
            return Err(stopped_opening(error));
        }
        let durable = make_ready(self.storage.inner(), &mut self.record_kept)?;
        let answer = open_log(&mut self.storage, durable);
        self.left = left_after_opening(&answer, self.left);
        let log = answer?;
        let count = behind_header(log.inner().live()).len() as u64;
        self.record_kept.note_opening();
        self.log = Some(log);
        Ok(count)
    }

    // Refuses a call where a count has ended or the power is cut.
    fn stop(&mut self) -> Result<(), Error>
        ensures ok { OnOk result ((self.new ≡ self.old) × (self.old.storage.injections < 2 ^ 64 - 1)
            × (self.old.refused < 2 ^ 64 - 1) × (self.old.left ≡ Some 0 → ⊥)) }
        ensures err { OnErr result (IsStopped self.old result self.new) }
        ensures left { OnErr result (calls_left self.new.left ≡ calls_left self.old.left - used_up result) }
        ensures cut { OnErr result (MeetsCut result (failures_of self.old) (calls_left self.old.left)) }
    {
        if self.storage.injections() == u64::MAX {
            return Err(Error::NumberEnded);
        }
        if self.refused == u64::MAX {
            return Err(Error::NumberEnded);
        }
        if self.left == Some(0) {
            self.refused += 1;
            return Err(Error::PowerCut);
        }
        Ok(())
    }
}

impl<R: Rng + Drop> Blob for Device<R> {
    ghost use Rattle.auth_store_device.specs.Devices.{IsDeviceCall, mode_below, failures_of};

    ghost calls = { λ d. d.calls };

    ghost failures = { failures_of };

    ghost left = { λ d. calls_left d.left };

    /// So many bytes from an offset on. F8: a count has ended; F10: a cut of the power stands; F1: no opening stands;
    /// F9: out of memory; F6: a fault was injected; F7: they are not all there. After a refusal the log is as it was.
    fn read_at(&mut self, _alloc: Global, offset: u64, len: usize) -> Result<Vec<u8>, Error>
        ensures slice { IfOk result (λ bytes. IsSlice (file_of self.old.calls) offset len bytes.items) }
        ensures cause { IfErr result (IsReadCause (failures_of self.old) (file_of self.old.calls) offset len) }
        ensures calls { self.new.calls ≡ self.old.calls }
        ensures failures { failures_of self.new ≡ failures_after result (failures_of self.old) }
        ensures left { calls_left self.new.left ≡ calls_left self.old.left - used_up result }
        ensures cut { MeetsCut result (failures_of self.old) (calls_left self.old.left) }
        ensures device { IsDeviceCall CallKind.Read (λ blob below answer changed left. (changed ≡ blob)
            × IsFaultyCall (R.stream) Call.Read below.config.read (MemoryReads blob.inner offset len) below answer left)
            self.old result self.new }
    {
        self.stop()?;
        let Some(log) = &self.log else {
            return Err(Error::BlobMissing);
        };
        let answer = read_log(&mut self.storage, log, offset, len);
        self.left = left_after(&answer, self.left);
        answer
    }

    /// Makes the log durable. F8: a count has ended; F10: a cut of the power stands; F1: no opening stands; F9: out of
    /// memory; the log is then as it was. F6: a fault was injected; all that was pending is so still.
    fn sync(&mut self) -> Result<(), Error>
        ensures calls { RecordsSync result self.old.calls self.new.calls }
        ensures cause { IfErr result (IsCause (failures_of self.old) CallKind.Sync 0) }
        ensures failures { failures_of self.new ≡ failures_after result (failures_of self.old) }
        ensures left { calls_left self.new.left ≡ calls_left self.old.left - used_up result }
        ensures cut { MeetsCut result (failures_of self.old) (calls_left self.old.left) }
        ensures device { IsDeviceCall CallKind.Sync (λ blob below answer changed left. (changed ≡ blob)
            × IsFaultyCall (R.stream) Call.Sync below.config.sync (MemorySyncs blob.inner) below answer left)
            self.old result self.new }
    {
        self.stop()?;
        let Some(log) = &self.log else {
            return Err(Error::BlobMissing);
        };
        let answer = sync_log(&mut self.storage, log, &mut self.record_kept);
        self.left = left_after(&answer, self.left);
        answer
    }

    /// Starts a sync, which is made at once and uses up a call as `sync` does, and gives its answer as a value to be
    /// finished: what `sync` answers.
    fn start_sync(&mut self) -> StartedSync
        ensures calls { RecordsSync result.answer self.old.calls self.new.calls }
        ensures cause { IfErr result.answer (IsCause (failures_of self.old) CallKind.Sync 0) }
        ensures failures { failures_of self.new ≡ failures_after result.answer (failures_of self.old) }
        ensures left { calls_left self.new.left ≡ calls_left self.old.left - used_up result.answer }
        ensures cut { MeetsCut result.answer (failures_of self.old) (calls_left self.old.left) }
        ensures device { IsDeviceCall CallKind.Sync (λ blob below answer changed left. (changed ≡ blob)
            × IsFaultyCall (R.stream) Call.Sync below.config.sync (MemorySyncs blob.inner) below answer left)
            self.old result.answer self.new }
    {
        StartedSync::new(self.sync())
    }

    /// Writes bytes at an offset, with zeros in a gap before them. F8: a count has ended, or their end would pass a
    /// u64; F10: a cut of the power stands; F1: no opening stands; F9: out of memory; the log is then as it was. F6: a
    /// fault was injected; any part of the bytes may then be there.
    fn write_at(&mut self, offset: u64, bytes: &[u8], mode: WriteMode) -> Result<(), Error>
        ensures calls { Records result (wrote (place_of mode offset bytes.now) bytes.now (is_sync mode))
            self.old.calls self.new.calls }
        ensures cause { IfErr result (IsCause (failures_of self.old) CallKind.Write (offset + length bytes.now)) }
        ensures failures { failures_of self.new ≡ failures_after result (failures_of self.old) }
        ensures left { calls_left self.new.left ≡ calls_left self.old.left - used_up result }
        ensures cut { MeetsCut result (failures_of self.old) (calls_left self.old.left) }
        ensures device { IsDeviceCall CallKind.Write (λ blob below answer changed left.
            FaultyWrites (R.stream) blob offset bytes.now (mode_below mode) below answer changed left)
            self.old result self.new }
    {
        self.stop()?;
        let Some(log) = &mut self.log else {
            return Err(Error::BlobMissing);
        };
        let answer = write_log(
            &mut self.storage,
            log,
            &mut self.record_kept,
            offset,
            bytes,
            mode,
        );
        self.left = left_after(&answer, self.left);
        answer
    }

    /// Cuts the log to a length, or grows it to that by zeros. F8: a count has ended, or its end would pass a u64; F10:
    /// a cut of the power stands; F1: no opening stands; F9: out of memory; the log is then as it was. F6: a fault was
    /// injected; it may then have another length.
    fn resize(&mut self, len: u64) -> Result<(), Error>
        ensures calls { Records result (resized_to len) self.old.calls self.new.calls }
        ensures cause { IfErr result (IsCause (failures_of self.old) CallKind.Resize len) }
        ensures failures { failures_of self.new ≡ failures_after result (failures_of self.old) }
        ensures left { calls_left self.new.left ≡ calls_left self.old.left - used_up result }
        ensures cut { MeetsCut result (failures_of self.old) (calls_left self.old.left) }
        ensures device { IsDeviceCall CallKind.Resize (λ blob below answer changed left.
            FaultyResizes (R.stream) blob len below answer changed left) self.old result self.new }
    {
        self.stop()?;
        let Some(log) = &mut self.log else {
            return Err(Error::BlobMissing);
        };
        let answer = resize_log(&mut self.storage, log, &mut self.record_kept, len);
        self.left = left_after(&answer, self.left);
        answer
    }
}
