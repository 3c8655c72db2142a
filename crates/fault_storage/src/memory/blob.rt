//! A blob of the store in memory.

ghost use Rattle.std.specs.Prelude.{◌≡◌, ◌+◌, ◌-◌, ◌^◌, ◌<◌, ◌≤◌, ◌⊎◌, ◌↔◌, false, true, Err, IfOk, IfErr, IfSome};
ghost use Rattle.std.specs.Prelude.{OnOk, OnErr, MatchOption, length, drop, max, replicate};
ghost use Rattle.std.specs.Vec.{vec_capacity};
ghost use Rattle.fault_storage_parts.specs.DrawsCode.{rate_of, mode_of};
ghost use Rattle.fault_storage_parts.specs.Files.{written, fixed, resized_to, with_bytes, with_kept, resized};
ghost use Rattle.fault_storage_parts.specs.FilesCode.{mutation_of};
ghost use Rattle.fault_storage.specs.Changes.{IsDrawnChange, made_write, failed_write, mutation_for, shown_after};
ghost use Rattle.fault_storage.specs.Changes.{failed_length, failed_resize};
ghost use Rattle.fault_storage.specs.Directory.{MemoryReads, MemoryFills, MemoryWrites, MemoryResizes, MemorySyncs};
ghost use Rattle.fault_storage_parts.specs.Draws.{kept_bytes};
ghost use Rattle.fault_storage.specs.Stores.{Handle, fixed_write, resizing, showing, is_there, issued, published};

use crate::config::{ResizeConfig, WriteConfig};
use crate::draws::{PartialWriteMode, draw_length_between, note_kept_bytes};
use crate::error::{Call, Error};
use crate::file::{Mutation, Written};
use crate::memory::storage::Storage;
use crate::overlay::{put_bytes, put_kept, resize};
use crate::probability::Probability;
use crate::storage::WriteMode;
use rand_core::Rng;
use std::alloc::{AllocError, Global};
use std::marker::Model;

/// A blob of the store that is open. Its live bytes are its own: the store learns of them by a sync, and of each write
/// and resize when it is issued. In the Rust: `commonware_runtime::storage::memory::Blob`.
#[derive(Debug, Drop)]
pub struct Blob {
    number: u64,
    offset: usize,
    live: Vec<u8>,
}

impl Model for Blob {
    ghost Value = { Handle };

    ghost view = { λ it. record { number = it.number; offset = it.offset; live = it.live.items } };
}

// The place behind so many bytes from an offset on, where the data begin at `start`. None: it would pass a u64.
fn end_of(start: usize, offset: u64, count: usize) -> Option<usize>
    ensures { MatchOption result (2 ^ 64 ≤ start + offset + count) (λ end. end ≡ start + offset + count) }
{
    start.checked_add(offset as usize)?.checked_add(count)
}

// What a write issues: a plain one by these settings, one that is synced as a whole. It fails only when out of memory.
fn mutation_for(
    alloc: Global,
    settings: WriteConfig,
    mode: WriteMode,
    at: usize,
    bytes: &[u8],
) -> Result<Mutation, AllocError>
    requires { at + length bytes.now < 2 ^ 64 }
    ensures { IfOk result (λ mutation. mutation_of mutation ≡ mutation_for settings mode at bytes.now) }
{
    let copy = bytes.to_vec(alloc)?;
    let written = Written {
        offset: at,
        bytes: copy,
    };
    match mode {
        WriteMode::Plain => Ok(Mutation::Plain(written, settings.mode, settings.retention)),
        WriteMode::Sync => {
            let all = vec![in alloc; true; bytes.len()]?;
            Ok(Mutation::Fixed(written, all))
        }
    }
}

// Lays the bytes of a write that was made over the live ones. There is room for them.
fn show_write(live: &mut Vec<u8>, mode: WriteMode, at: usize, bytes: &[u8], all: &[bool])
    requires fits { at + length bytes.now < 2 ^ 64 }
    requires room { at + length bytes.now ≤ vec_capacity live.old }
    requires all { all.now ≡ replicate (length bytes.now) true }
    ensures { live.new.items ≡ shown_after mode at bytes.now live.old.items }
{
    match mode {
        WriteMode::Plain => put_bytes(live, at, bytes),
        WriteMode::Sync => put_kept(live, at, bytes, all),
    }
}

// Which bytes of a write are kept that fails, by these settings. There is room for the choice.
fn draw_kept<R: Rng>(kept: &mut Vec<bool>, settings: WriteConfig, count: usize, rng: &mut R)
    requires { count ≤ vec_capacity kept.old }
    ensures { (kept.new.items, R.stream rng.new)
        ≡ kept_bytes (mode_of settings.mode) (rate_of settings.retention) count (R.stream rng.old) }
{
    kept.clear();
    note_kept_bytes(kept, settings.mode, settings.retention, count, rng);
}

// How far a resize goes that fails, or None where it changes nothing.
fn draw_length<R: Rng>(
    old: usize,
    asked: usize,
    retention: Probability,
    rng: &mut R,
) -> Option<usize>
    ensures drawn { (result, R.stream rng.new) ≡ failed_length (rate_of retention) old asked (R.stream rng.old) }
    ensures below { IfSome result (λ size. size < max old asked) }
{
    if !retention.sample(rng) {
        return None;
    }
    let low = old.min(asked);
    let high = old.max(asked);
    if high - low <= 1 {
        return None;
    }
    Some(draw_length_between(low as u64, high as u64, rng) as usize)
}

impl Blob {
    // An open value of the file with this number, whose data begin at an offset.
    pub(crate) fn new(number: u64, offset: usize, live: Vec<u8>) -> Blob
        ensures { result ≡ record { number = number; offset = offset; live = live.items } }
    {
        Blob {
            number,
            offset,
            live,
        }
    }

    /// Writes as `write_at` does where one draw does not come true, and a crash keeps bytes of a plain write by these
    /// settings; else the bytes that are drawn are durable at once, and live. The draw comes after room was found for
    /// all. F8, F9; F6.
    pub fn write_unless<R: Rng>(
        &mut self,
        storage: &mut Storage,
        rng: &mut R,
        settings: WriteConfig,
        offset: u64,
        bytes: &[u8],
        mode: WriteMode,
    ) -> Result<(), Error>
        ensures { IsDrawnChange (R.stream) Call.Write settings.rate (self.old.offset + offset
            + length bytes.now) (failed_write settings offset bytes.now)
            (made_write settings mode offset bytes.now) self.old storage.old rng.old result
            self.new storage.new rng.new }
    {
        let Some(end) = end_of(self.offset, offset, bytes.len()) else {
            return Err(Error::NumberEnded);
        };
        let at = end - bytes.len();
        let mutation = mutation_for(storage.allocator(), settings, mode, at, bytes)?;
        let mut kept = vec![in storage.allocator(); true; bytes.len()]?;
        self.live.reserve(end.saturating_sub(self.live.len()))?;
        storage.issue(self.number, mutation)?;
        if settings.rate.sample(rng) {
            draw_kept(&mut kept, settings, bytes.len(), rng);
            put_kept(&mut self.live, at, bytes, &kept);
            storage.fix_last(self.number, kept);
            return Err(Error::Injected(Call::Write));
        }
        show_write(&mut self.live, mode, at, bytes, &kept);
        Ok(())
    }

    /// Resizes as `resize` does where one draw does not come true, and a crash keeps it by these settings; else it goes
    /// a part of the way, or nowhere, as is drawn. The draw comes after room was found for all. F8, F9; F6.
    pub fn resize_unless<R: Rng>(
        &mut self,
        storage: &mut Storage,
        rng: &mut R,
        settings: ResizeConfig,
        size: u64,
    ) -> Result<(), Error>
        ensures { IsDrawnChange (R.stream) Call.Resize settings.rate (self.old.offset
            + size) (failed_resize settings size)
            (resizing size (rate_of settings.retention)) self.old storage.old rng.old result
            self.new storage.new rng.new }
    {
        let Some(all) = end_of(self.offset, size, 0) else {
            return Err(Error::NumberEnded);
        };
        let old = self.live.len();
        self.live.reserve(all.saturating_sub(old))?;
        let furthest = Mutation::ResizedTo(all.max(old), settings.retention);
        storage.issue(self.number, furthest)?;
        if !settings.rate.sample(rng) {
            storage.shorten_last(self.number, all);
            resize(&mut self.live, all);
            return Ok(());
        }
        let Some(reached) = draw_length(old, all, settings.retention, rng) else {
            storage.withdraw(self.number);
            return Err(Error::Injected(Call::Resize));
        };
        storage.shorten_last(self.number, reached);
        resize(&mut self.live, reached);
        Err(Error::Injected(Call::Resize))
    }

    /// What a write leaves that failed: of its bytes those that are kept are durable at once, and live. F8, F9.
    /// In the Rust: `commonware_runtime::storage::memory::Blob::retain_crash_write`.
    pub fn retain_crash_write(
        &mut self,
        storage: &mut Storage,
        offset: u64,
        bytes: &[u8],
        kept: &[bool],
    ) -> Result<(), Error>
        ensures ok { OnOk result ((self.new, storage.new)
            ≡ fixed_write offset bytes.now kept.now self.old storage.old) }
        ensures err { OnErr result ((self.new ≡ self.old) × (storage.new ≡ storage.old)) }
        ensures ended { (result ≡ Err Error.NumberEnded) ↔ (2 ^ 64 ≤ self.old.offset + offset + length bytes.now) }
        ensures refused { IfErr result (λ e. (e ≡ Error.NumberEnded) ⊎ (e ≡ Error.Memory)) }
    {
        let Some(end) = end_of(self.offset, offset, bytes.len()) else {
            return Err(Error::NumberEnded);
        };
        self.write_fixed(storage, end, bytes, kept)?;
        Ok(())
    }

    /// What a resize leaves that failed half way: it is live, and a crash keeps it by this rate. F8, F9.
    /// In the Rust: `commonware_runtime::storage::memory::Blob::retain_crash_resize`.
    pub fn retain_crash_resize(
        &mut self,
        storage: &mut Storage,
        size: u64,
        retention: Probability,
    ) -> Result<(), Error>
        ensures ok { OnOk result ((self.new, storage.new) ≡ resizing size (rate_of retention) self.old storage.old) }
        ensures err { OnErr result ((self.new ≡ self.old) × (storage.new ≡ storage.old)) }
        ensures ended { (result ≡ Err Error.NumberEnded) ↔ (2 ^ 64 ≤ self.old.offset + size) }
        ensures refused { IfErr result (λ e. (e ≡ Error.NumberEnded) ⊎ (e ≡ Error.Memory)) }
    {
        let Some(all) = end_of(self.offset, size, 0) else {
            return Err(Error::NumberEnded);
        };
        self.resize_all(storage, all, retention)?;
        Ok(())
    }

    // A plain write, of which a crash keeps bytes by this mode and rate.
    fn write_plain(
        &mut self,
        storage: &mut Storage,
        end: usize,
        bytes: &[u8],
        mode: PartialWriteMode,
        retention: Probability,
    ) -> Result<(), AllocError>
        requires { length bytes.now ≤ end }
        ensures ok { OnOk result ((self.new
            ≡ showing (with_bytes (end - length bytes.now) bytes.now self.old.live) self.old)
            × (storage.new ≡ issued self.old.number (written (end - length bytes.now) bytes.now (mode_of mode)
            (rate_of retention)) storage.old)) }
        ensures err { OnErr result ((self.new ≡ self.old) × (storage.new ≡ storage.old)) }
    {
        let at = end - bytes.len();
        let copy = bytes.to_vec(storage.allocator())?;
        self.live.reserve(end.saturating_sub(self.live.len()))?;
        let written = Written {
            offset: at,
            bytes: copy,
        };
        storage.issue(self.number, Mutation::Plain(written, mode, retention))?;
        put_bytes(&mut self.live, at, bytes);
        Ok(())
    }

    // A write of which these bytes are durable at once.
    fn write_fixed(
        &mut self,
        storage: &mut Storage,
        end: usize,
        bytes: &[u8],
        kept: &[bool],
    ) -> Result<(), AllocError>
        requires { length bytes.now ≤ end }
        ensures ok { OnOk result ((self.new
            ≡ showing (with_kept (end - length bytes.now) bytes.now kept.now self.old.live) self.old)
            × (storage.new ≡ issued self.old.number (fixed (end - length bytes.now) bytes.now kept.now) storage.old)) }
        ensures err { OnErr result ((self.new ≡ self.old) × (storage.new ≡ storage.old)) }
    {
        let at = end - bytes.len();
        let copy = bytes.to_vec(storage.allocator())?;
        let choice = kept.to_vec(storage.allocator())?;
        self.live.reserve(end.saturating_sub(self.live.len()))?;
        let written = Written {
            offset: at,
            bytes: copy,
        };
        storage.issue(self.number, Mutation::Fixed(written, choice))?;
        put_kept(&mut self.live, at, bytes, kept);
        Ok(())
    }

    // A resize of the whole file, which a crash keeps by this rate.
    fn resize_all(
        &mut self,
        storage: &mut Storage,
        size: usize,
        retention: Probability,
    ) -> Result<(), AllocError>
        ensures ok { OnOk result ((self.new ≡ showing (resized size self.old.live) self.old)
            × (storage.new ≡ issued self.old.number (resized_to size (rate_of retention)) storage.old)) }
        ensures err { OnErr result ((self.new ≡ self.old) × (storage.new ≡ storage.old)) }
    {
        self.live.reserve(size.saturating_sub(self.live.len()))?;
        storage.issue(self.number, Mutation::ResizedTo(size, retention))?;
        resize(&mut self.live, size);
        Ok(())
    }

    /// The live bytes, those of the header first (own).
    pub fn live(&self) -> &[u8]
        ensures { result.now ≡ self.now.live }
    {
        &self.live
    }

    // The live bytes behind those of the header.
    pub(crate) fn behind_header(&self) -> &[u8]
        ensures { result.now ≡ drop self.now.offset self.now.live }
    {
        match self.live.get(self.offset..) {
            Some(bytes) => bytes,
            None => &[],
        }
    }

    /// A copy of the live bytes, those of the header first. None: the blob is gone. It fails only when out of memory.
    pub fn copy_live(&self, storage: &Storage) -> Result<Option<Vec<u8>>, AllocError>
        ensures ok { IfOk result (λ live. MatchOption live (is_there self.now.number storage.now ≡ false)
            (λ bytes. (is_there self.now.number storage.now ≡ true) × (bytes.items ≡ self.now.live))) }
        ensures err { OnErr result (is_there self.now.number storage.now ≡ true) }
    {
        if !storage.has(self.number) {
            return Ok(None);
        }
        let bytes = self.live.to_vec(storage.allocator())?;
        Ok(Some(bytes))
    }

    /// Makes the bytes of the blob's file durable.
    pub fn publish(&self, storage: &mut Storage, bytes: Vec<u8>)
        ensures { storage.new ≡ published self.now.number bytes.items storage.old }
    {
        storage.publish(self.number, bytes);
    }
}

impl crate::storage::Blob<Storage> for Blob {
    ghost reads = { MemoryReads };

    ghost fills = { MemoryFills };

    ghost writes = { MemoryWrites };

    ghost resizes = { MemoryResizes };

    ghost syncs = { MemorySyncs };

    /// So many bytes from an offset on. F7: they are not all there; F9. In the Rust:
    /// `commonware_runtime::Blob::read_at`.
    fn read_at(&self, storage: &mut Storage, offset: u64, count: usize) -> Result<Vec<u8>, Error> {
        let Some(end) = end_of(self.offset, offset, count) else {
            return Err(Error::BlobInsufficientLength);
        };
        if end > self.live.len() {
            return Err(Error::BlobInsufficientLength);
        }
        let bytes = self.live[end - count..end].to_vec(storage.allocator())?;
        Ok(bytes)
    }

    /// Reads into the buffer from an offset on, and fills it. F7, and it stays as it is: not all bytes are there.
    /// In the Rust: `commonware_runtime::Blob::read_at_buf`.
    fn read_at_buf(
        &self,
        _storage: &mut Storage,
        offset: u64,
        buffer: &mut [u8],
    ) -> Result<(), Error> {
        let Some(end) = end_of(self.offset, offset, buffer.len()) else {
            return Err(Error::BlobInsufficientLength);
        };
        if end > self.live.len() {
            return Err(Error::BlobInsufficientLength);
        }
        buffer.copy_from_slice(&self.live[end - buffer.len()..end]);
        Ok(())
    }

    /// Writes the bytes at an offset, with zeros in a gap before them. F8: their end would pass a u64; F9. A crash
    /// keeps none of a plain write but a beginning. In the Rust: `commonware_runtime::Blob::write_at`.
    fn write_at(
        &mut self,
        storage: &mut Storage,
        offset: u64,
        bytes: &[u8],
        mode: WriteMode,
    ) -> Result<(), Error> {
        let Some(end) = end_of(self.offset, offset, bytes.len()) else {
            return Err(Error::NumberEnded);
        };
        match mode {
            WriteMode::Plain => {
                self.write_plain(
                    storage,
                    end,
                    bytes,
                    PartialWriteMode::Prefix,
                    Probability::ZERO,
                )?;
            }
            WriteMode::Sync => {
                let all = vec![in storage.allocator(); true; bytes.len()]?;
                self.write_fixed(storage, end, bytes, &all)?;
            }
        }
        Ok(())
    }

    /// Cuts the blob to a length, or grows it to that by zeros. F8: its end would pass a u64; F9. A crash keeps it not.
    /// In the Rust: `commonware_runtime::Blob::resize`.
    fn resize(&mut self, storage: &mut Storage, size: u64) -> Result<(), Error> {
        let Some(all) = end_of(self.offset, size, 0) else {
            return Err(Error::NumberEnded);
        };
        self.resize_all(storage, all, Probability::ZERO)?;
        Ok(())
    }

    /// Makes the live bytes durable. F1: the blob is gone; F9. In the Rust: `commonware_runtime::Blob::sync`.
    fn sync(&self, storage: &mut Storage) -> Result<(), Error> {
        let Some(bytes) = self.copy_live(storage)? else {
            return Err(Error::BlobMissing);
        };
        storage.publish(self.number, bytes);
        Ok(())
    }
}
