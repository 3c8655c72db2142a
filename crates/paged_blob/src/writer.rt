//! A writer: one list of bytes over a blob.

ghost use Rattle.std.specs.Prelude.{◌≡◌, ◌⊎◌, ◌+◌, ◌-◌, ◌*◌, ◌/◌, ◌%◌, ◌<◌, ◌≤◌, ◌^◌, ◌++◌, ◌↔◌};
ghost use Rattle.std.specs.Prelude.{take, drop, length};
ghost use Rattle.std.specs.Prelude.{false, None, List, Ok, IsTrue, IfOk, IfErr, OnOk, OnErr, IfSome, OnSome, IsNone};
ghost use Rattle.paged_format.specs.Footers.{IsPageSize, content_size};
ghost use Rattle.paged_blob_parts.specs.Calls.{Call};
ghost use Rattle.paged_blob_parts.specs.Moments.{Through};
ghost use Rattle.paged_blob_parts.specs.Answers.{failures_after, HaveEnded, IsCause, IsPastNumbers, IsPowerOff};
ghost use Rattle.paged_blob_parts.specs.Flushes.{physical_size, last_slot};
ghost use Rattle.paged_blob_parts.specs.Writers.{WriterState, written, IsWriter, IsFlushed, Keeps, IsTaken};
ghost use Rattle.paged_blob.specs.WritersCode.{IsTakingCause};
ghost use Rattle.paged_blob_parts.specs.Reads.{IsReadingCause};
ghost use Rattle.paged_blob_parts.specs.Caches.{AreGiven, Cache};
ghost use Rattle.paged_blob_parts.specs.CachedContent.{HoldsPagesOf, KeepsOthers};
ghost use Rattle.paged_blob.specs.Completed.{completed_syncs};
ghost use Rattle.paged_blob.specs.Syncs.{IsUnderWay};
ghost use Rattle.paged_blob.specs.declared.writer.syncing.WriterSync.{WriterSync};
ghost use Rattle.paged_blob_parts.specs.declared.error.CallKind.{CallKind};

pub mod reading;
pub mod recovery;
pub mod sealing;
pub mod syncing;

use fault_storage::Checksum;
use merkle_forest::codec::{Encode, EncodeSize};
use paged_blob_parts::flush::{flush, last_slot};
use paged_blob_parts::read::{FlushedPages, read_at, read_into, read_up_to};
use paged_blob_parts::{Blob, CacheRef, DurableSlot, Error};
use paged_format::TipBuffer;
use std::alloc::Global;
use std::marker::{Model, PhantomData};

/// A writer that appends. In the Rust: `paged::Append`.
#[derive(Clone, Copy, Debug, PartialEq, Eq)]
pub struct Append;

/// One list of bytes over a blob, which is lent to each call: its first bytes are on the disk in whole pages, the
/// others in memory until there are more of them than a buffer holds, or until they are synced.
/// In the Rust: `paged::Writer`, which owns the blob.
#[derive(Drop)]
pub struct Writer<C: Checksum, Phase = Append> {
    alloc: Global,
    page_size: usize,
    blob_id: u64,
    synced: u64,
    slot: Option<DurableSlot>,
    tip: TipBuffer,
    checksum: PhantomData<C>,
    phase: PhantomData<Phase>,
}

impl<C: Checksum, Phase> Model for Writer<C, Phase> {
    ghost Value = { WriterState };

    ghost view = { λ w. record {
      page_size = w.page_size;
      blob_id = w.blob_id;
      synced = w.synced;
      slot = w.slot;
      tip = w.tip;
    } };

    ghost invariant = { λ w. IsPageSize w.page_size × (w.page_size ≤ w.tip.capacity) };
}

// Whether a list of so many bytes and so many more has, in pages, no number that ends.
fn is_within_numbers(page_size: usize, len: u64, more: usize) -> bool
    requires { IsPageSize page_size }
    ensures { IsTrue result ↔ (physical_size page_size (len + more) + 4096 < 2 ^ 64) }
{
    let room = page_size as u64 - 12;
    let Some(end) = len.checked_add(more as u64) else {
        return false;
    };
    let Some(rounded) = end.checked_add(room - 1) else {
        return false;
    };
    match (rounded / room).checked_mul(page_size as u64) {
        Some(physical) => physical < u64::MAX - 4095,
        None => false,
    }
}

impl<C: Checksum, Phase> Writer<C, Phase> {
    /// How many bytes the list has. In the Rust: `paged::Writer::size`.
    pub fn size(&self) -> u64
        ensures { result ≡ self.now.tip.offset + length self.now.tip.bytes }
    {
        self.tip.end()
    }

    /// Whether some of them are not durable yet. In the Rust: `paged::Writer::needs_sync`.
    pub fn needs_sync(&self) -> bool
        ensures { IsTrue result ↔ (self.now.synced < self.now.tip.offset + length self.now.tip.bytes) }
    {
        self.synced < self.size()
    }

    // Flushes the whole pages of the tip, which then begins behind them.
    fn flush_pages<B: Blob>(&mut self, blob: &mut B, cache: &mut CacheRef) -> Result<(), Error>
        requires writer { IsWriter C.checksum_of (B.calls blob.old) self.old }
        requires some { content_size self.old.page_size ≤ length self.old.tip.bytes }
        requires pages { cache.old.page_size ≡ content_size self.old.page_size }
        ensures writer { OnOk result (IsWriter C.checksum_of (B.calls blob.new) self.new) }
        ensures content { OnOk result (written C.checksum_of (B.calls blob.new) self.new
            ≡ written C.checksum_of (B.calls blob.old) self.old) }
        ensures synced { self.new.synced ≡ self.old.synced }
        ensures fewer { OnOk result (length self.new.tip.bytes < length self.old.tip.bytes) }
        ensures same { (self.new.page_size ≡ self.old.page_size) × (self.new.blob_id ≡ self.old.blob_id)
            × (self.new.tip.capacity ≡ self.old.tip.capacity) }
        ensures any_moment { Through (Keeps C.checksum_of self.old.page_size
            (written C.checksum_of (B.calls blob.old) self.old) self.old.synced) (B.calls blob.old) (B.calls blob.new) }
        ensures cause { IfErr result (IsCause (B.failures blob.old) CallKind.Write 0) }
        ensures failures { B.failures blob.new ≡ failures_after result (B.failures blob.old) }
        ensures left { B.left blob.new ≤ B.left blob.old }
        ensures syncs { completed_syncs (B.calls blob.new) ≡ completed_syncs (B.calls blob.old) }
        ensures cache { cache.new ≡ record cache.old { pages = cache.new.pages } }
        ensures cached { OnOk result
            (HoldsPagesOf (written C.checksum_of (B.calls blob.old) self.old) cache.old self.old.blob_id
            → HoldsPagesOf (written C.checksum_of (B.calls blob.new) self.new) cache.new self.old.blob_id) }
        ensures uncached { OnErr result (cache.new ≡ cache.old) }
        ensures others { KeepsOthers cache.old cache.new self.old.blob_id }
    {
        let room = self.page_size - 12;
        let bytes = self.tip.as_bytes();
        let (pages, _) = bytes.split_at(bytes.len() / room * room);
        let whole = pages.len();
        let offset = self.tip.offset();
        flush::<C, B>(
            self.alloc,
            blob,
            self.page_size,
            offset / room as u64,
            self.slot,
            pages,
        )?;
        let _ = cache.cache(self.blob_id, pages, offset);
        self.tip.drain(whole);
        self.slot = None;
        Ok(())
    }

    // Appends as many of the bytes as there is room for, flushes the whole pages, and answers how many these were.
    fn fill<B: Blob>(
        &mut self,
        blob: &mut B,
        cache: &mut CacheRef,
        bytes: &[u8],
    ) -> Result<usize, Error>
        requires writer { IsWriter C.checksum_of (B.calls blob.old) self.old }
        requires past { self.old.tip.capacity < length self.old.tip.bytes + length bytes.now }
        requires fits { physical_size self.old.page_size
            (self.old.tip.offset + length self.old.tip.bytes + length bytes.now) + 4096 < 2 ^ 64 }
        requires pages { cache.old.page_size ≡ content_size self.old.page_size }
        ensures writer { OnOk result (IsWriter C.checksum_of (B.calls blob.new) self.new) }
        ensures content { IfOk result (λ n. written C.checksum_of (B.calls blob.new) self.new
            ≡ written C.checksum_of (B.calls blob.old) self.old ++ take n bytes.now) }
        ensures within { IfOk result (λ n. n ≤ length bytes.now) }
        ensures fewer { IfOk result (λ n. length self.new.tip.bytes < length self.old.tip.bytes + n) }
        ensures synced { self.new.synced ≡ self.old.synced }
        ensures same { (self.new.page_size ≡ self.old.page_size) × (self.new.blob_id ≡ self.old.blob_id)
            × (self.new.tip.capacity ≡ self.old.tip.capacity) }
        ensures any_moment { Through (Keeps C.checksum_of self.old.page_size
            (written C.checksum_of (B.calls blob.old) self.old ++ bytes.now) self.old.synced)
            (B.calls blob.old) (B.calls blob.new) }
        ensures cause { IfErr result (IsCause (B.failures blob.old) CallKind.Write 0) }
        ensures failures { B.failures blob.new ≡ failures_after result (B.failures blob.old) }
        ensures left { B.left blob.new ≤ B.left blob.old }
        ensures syncs { completed_syncs (B.calls blob.new) ≡ completed_syncs (B.calls blob.old) }
        ensures cache { cache.new ≡ record cache.old { pages = cache.new.pages } }
        ensures cached { OnOk result
            (HoldsPagesOf (written C.checksum_of (B.calls blob.old) self.old) cache.old self.old.blob_id
            → HoldsPagesOf (written C.checksum_of (B.calls blob.new) self.new) cache.new self.old.blob_id) }
        ensures uncached { OnErr result (cache.new ≡ cache.old) }
        ensures others { KeepsOthers cache.old cache.new self.old.blob_id }
    {
        let count = self.tip.append(bytes)?;
        self.flush_pages(blob, cache)?;
        Ok(count)
    }

    // Appends these bytes, and flushes whole pages where the buffer is full.
    fn extend<B: Blob>(
        &mut self,
        blob: &mut B,
        cache: &mut CacheRef,
        bytes: &[u8],
    ) -> Result<(), Error>
        requires size { IsPageSize self.old.page_size }
        requires writer { IsWriter C.checksum_of (B.calls blob.old) self.old }
        requires fits { physical_size self.old.page_size
            (self.old.tip.offset + length self.old.tip.bytes + length bytes.now) + 4096 < 2 ^ 64 }
        requires pages { cache.old.page_size ≡ content_size self.old.page_size }
        ensures writer { OnOk result (IsWriter C.checksum_of (B.calls blob.new) self.new) }
        ensures content { OnOk result (written C.checksum_of (B.calls blob.new) self.new
            ≡ written C.checksum_of (B.calls blob.old) self.old ++ bytes.now) }
        ensures synced { self.new.synced ≡ self.old.synced }
        ensures same { (self.new.page_size ≡ self.old.page_size) × (self.new.blob_id ≡ self.old.blob_id)
            × (self.new.tip.capacity ≡ self.old.tip.capacity) }
        ensures any_moment { Through (Keeps C.checksum_of self.old.page_size
            (written C.checksum_of (B.calls blob.old) self.old ++ bytes.now) self.old.synced)
            (B.calls blob.old) (B.calls blob.new) }
        ensures cause { IfErr result (IsCause (B.failures blob.old) CallKind.Write 0) }
        ensures failures { B.failures blob.new ≡ failures_after result (B.failures blob.old) }
        ensures left { B.left blob.new ≤ B.left blob.old }
        ensures syncs { completed_syncs (B.calls blob.new) ≡ completed_syncs (B.calls blob.old) }
        ensures cache { cache.new ≡ record cache.old { pages = cache.new.pages } }
        ensures cached { HoldsPagesOf (written C.checksum_of (B.calls blob.old) self.old) cache.old self.old.blob_id
            → HoldsPagesOf (written C.checksum_of (B.calls blob.old) self.old ++ bytes.now) cache.new self.old.blob_id }
        ensures others { KeepsOthers cache.old cache.new self.old.blob_id }
    {
        let mut rest = bytes;
        while self.tip.room() < rest.len() {
            let count = self.fill(blob, cache, rest)?;
            let (_, left) = rest.split_at(count);
            rest = left;
        }
        let _ = self.tip.append(rest)?;
        Ok(())
    }

    /// Appends bytes, and answers how many the list had before. They are durable after the next sync. Where a number of
    /// the list would end: F8, and nothing changes; refused otherwise, also where a count of the blob's failures has
    /// ended, the writer is given up.
    /// In the Rust: `paged::Writer::append`.
    pub fn append<B: Blob>(
        mut self,
        blob: &mut B,
        cache: &mut CacheRef,
        bytes: &[u8],
    ) -> Result<(Self, u64), Error>
        requires writer { IsWriter C.checksum_of (B.calls blob.old) self }
        requires pages { cache.old.page_size ≡ content_size self.page_size }
        ensures writer { IfOk result (λ r. IsWriter C.checksum_of (B.calls blob.new) r.0) }
        ensures content { IfOk result (λ r. written C.checksum_of (B.calls blob.new) r.0
            ≡ written C.checksum_of (B.calls blob.old) self ++ bytes.now) }
        ensures old_size { IfOk result (λ r. r.1 ≡ length (written C.checksum_of (B.calls blob.old) self)) }
        ensures synced { IfOk result (λ r. r.0.synced ≡ self.synced) }
        ensures same { IfOk result (λ r. (r.0.page_size ≡ self.page_size) × (r.0.blob_id ≡ self.blob_id)
            × (r.0.tip.capacity ≡ self.tip.capacity)) }
        // Whatever a crash leaves at any moment of the call keeps what was synced.
        ensures any_moment { Through (Keeps C.checksum_of self.page_size
            (written C.checksum_of (B.calls blob.old) self ++ bytes.now) self.synced)
            (B.calls blob.old) (B.calls blob.new) }
        ensures cause { IfErr result (IsCause (B.failures blob.old) CallKind.Write
            (physical_size self.page_size
            (length (written C.checksum_of (B.calls blob.old) self) + length bytes.now))) }
        ensures ended { IfErr result (λ e. e ≡ Error.NumberEnded
            → (B.calls blob.new ≡ B.calls blob.old) ⊎ HaveEnded (B.failures blob.old)) }
        ensures failures { B.failures blob.new ≡ failures_after result (B.failures blob.old) }
        ensures left { B.left blob.new ≤ B.left blob.old }
        ensures syncs { completed_syncs (B.calls blob.new) ≡ completed_syncs (B.calls blob.old) }
        ensures cache { cache.new ≡ record cache.old { pages = cache.new.pages } }
        // The pages that are kept under the writer's name stay those of its content.
        ensures cached { HoldsPagesOf (written C.checksum_of (B.calls blob.old) self) cache.old self.blob_id
            → HoldsPagesOf (written C.checksum_of (B.calls blob.old) self ++ bytes.now) cache.new self.blob_id }
        ensures others { KeepsOthers cache.old cache.new self.blob_id }
    {
        let size = self.size();
        if !is_within_numbers(self.page_size, size, bytes.len()) {
            return Err(Error::NumberEnded);
        }
        self.extend(blob, cache, bytes)?;
        Ok((self, size))
    }

    /// Appends the bytes of a vector, as `append` does. In the Rust: `paged::Writer::append_owned`, of an `IoBuf`.
    pub fn append_owned<B: Blob>(
        self,
        blob: &mut B,
        cache: &mut CacheRef,
        bytes: Vec<u8>,
    ) -> Result<(Self, u64), Error>
        requires writer { IsWriter C.checksum_of (B.calls blob.old) self }
        requires pages { cache.old.page_size ≡ content_size self.page_size }
        ensures writer { IfOk result (λ r. IsWriter C.checksum_of (B.calls blob.new) r.0) }
        ensures content { IfOk result (λ r. written C.checksum_of (B.calls blob.new) r.0
            ≡ written C.checksum_of (B.calls blob.old) self ++ bytes.items) }
        ensures old_size { IfOk result (λ r. r.1 ≡ length (written C.checksum_of (B.calls blob.old) self)) }
        ensures synced { IfOk result (λ r. r.0.synced ≡ self.synced) }
        ensures same { IfOk result (λ r. (r.0.page_size ≡ self.page_size) × (r.0.blob_id ≡ self.blob_id)
            × (r.0.tip.capacity ≡ self.tip.capacity)) }
        ensures any_moment { Through (Keeps C.checksum_of self.page_size
            (written C.checksum_of (B.calls blob.old) self ++ bytes.items) self.synced)
            (B.calls blob.old) (B.calls blob.new) }
        ensures cause { IfErr result (IsCause (B.failures blob.old) CallKind.Write
            (physical_size self.page_size
            (length (written C.checksum_of (B.calls blob.old) self) + length bytes.items))) }
        ensures ended { IfErr result (λ e. e ≡ Error.NumberEnded
            → (B.calls blob.new ≡ B.calls blob.old) ⊎ HaveEnded (B.failures blob.old)) }
        ensures failures { B.failures blob.new ≡ failures_after result (B.failures blob.old) }
        ensures left { B.left blob.new ≤ B.left blob.old }
        ensures syncs { completed_syncs (B.calls blob.new) ≡ completed_syncs (B.calls blob.old) }
        ensures cache { cache.new ≡ record cache.old { pages = cache.new.pages } }
        // The pages that are kept under the writer's name stay those of its content.
        ensures cached { HoldsPagesOf (written C.checksum_of (B.calls blob.old) self) cache.old self.blob_id
            → HoldsPagesOf (written C.checksum_of (B.calls blob.old) self ++ bytes.items) cache.new self.blob_id }
        ensures others { KeepsOthers cache.old cache.new self.blob_id }
    {
        self.append(blob, cache, &bytes)
    }

    /// Appends bytes where the buffer has room for all of them, and answers how many the list had before; None where it
    /// has not, and nothing changes. Where a number of the list would end: F8. Refused, nothing changes.
    /// In the Rust: `paged::Writer::try_append`, which is never refused.
    pub fn try_append(&mut self, bytes: &[u8]) -> Result<Option<u64>, Error>
        ensures some { IfOk result (λ o. IfSome o (λ size. IsTaken self.old self.new size bytes.now)) }
        ensures none { IfOk result (λ o. IsNone o → self.new ≡ self.old) }
        ensures full { IfOk result (λ o. IsNone o
            ↔ (self.old.tip.capacity - length self.old.tip.bytes < length bytes.now)) }
        ensures err { OnErr result (self.new ≡ self.old) }
        ensures cause { IfErr result (IsTakingCause self.old (length bytes.now)) }
        ensures writer { (calls : List Call) → IsWriter C.checksum_of calls self.old
            → IsWriter C.checksum_of calls self.new }
        ensures content { (calls : List Call) → IsWriter C.checksum_of calls self.old → IfOk result (λ o. OnSome o
            (written C.checksum_of calls self.new ≡ written C.checksum_of calls self.old ++ bytes.now)) }
        // The pages that are kept under the writer's name stay those of its content.
        ensures cached { (calls : List Call) (cache : Cache) → IsWriter C.checksum_of calls self.old
            → HoldsPagesOf (written C.checksum_of calls self.old) cache self.old.blob_id
            → HoldsPagesOf (written C.checksum_of calls self.new) cache self.new.blob_id }
        // So it takes bytes while a sync is under way, which does not cover them.
        ensures under_way { (calls : List Call) (started : WriterSync) → IsUnderWay C.checksum_of calls self.old started
            → IsUnderWay C.checksum_of calls self.new started }
        // Over whatever calls the list is longer by them, and the pages of it that are kept stay so.
        ensures list { (calls : List Call) → IfOk result (λ o. OnSome o (written C.checksum_of calls self.new
            ≡ written C.checksum_of calls self.old ++ bytes.now)) }
        ensures pages { (calls : List Call) (cache : Cache)
            → HoldsPagesOf (written C.checksum_of calls self.old) cache self.old.blob_id
            → HoldsPagesOf (written C.checksum_of calls self.new) cache self.new.blob_id }
    {
        let size = self.size();
        if !is_within_numbers(self.page_size, size, bytes.len()) {
            return Err(Error::NumberEnded);
        }
        if self.tip.room() < bytes.len() {
            return Ok(None);
        }
        let _ = self.tip.append(bytes)?;
        Ok(Some(size))
    }

    /// Appends the encoding of a value, as `try_append` does. In the Rust: `paged::Writer::try_append_value`, which is
    /// never refused.
    pub fn try_append_value<T: EncodeSize>(&mut self, value: &T) -> Result<Option<u64>, Error>
        ensures some { IfOk result (λ o. IfSome o (λ size. IsTaken self.old self.new size (T.encoding value.now))) }
        ensures none { IfOk result (λ o. IsNone o → self.new ≡ self.old) }
        ensures full { IfOk result (λ o. IsNone o
            ↔ (self.old.tip.capacity - length self.old.tip.bytes < length (T.encoding value.now))) }
        ensures err { OnErr result (self.new ≡ self.old) }
        ensures cause { IfErr result (IsTakingCause self.old (length (T.encoding value.now))) }
        ensures writer { (calls : List Call) → IsWriter C.checksum_of calls self.old
            → IsWriter C.checksum_of calls self.new }
        ensures content { (calls : List Call) → IsWriter C.checksum_of calls self.old → IfOk result (λ o. OnSome o
            (written C.checksum_of calls self.new ≡ written C.checksum_of calls self.old ++ T.encoding value.now)) }
        // The pages that are kept under the writer's name stay those of its content.
        ensures cached { (calls : List Call) (cache : Cache) → IsWriter C.checksum_of calls self.old
            → HoldsPagesOf (written C.checksum_of calls self.old) cache self.old.blob_id
            → HoldsPagesOf (written C.checksum_of calls self.new) cache self.new.blob_id }
        // So it takes bytes while a sync is under way, which does not cover them.
        ensures under_way { (calls : List Call) (started : WriterSync) → IsUnderWay C.checksum_of calls self.old started
            → IsUnderWay C.checksum_of calls self.new started }
        // Over whatever calls the list is longer by them, and the pages of it that are kept stay so.
        ensures list { (calls : List Call) → IfOk result (λ o. OnSome o (written C.checksum_of calls self.new
            ≡ written C.checksum_of calls self.old ++ T.encoding value.now)) }
        ensures pages { (calls : List Call) (cache : Cache)
            → HoldsPagesOf (written C.checksum_of calls self.old) cache self.old.blob_id
            → HoldsPagesOf (written C.checksum_of calls self.new) cache self.new.blob_id }
    {
        let bytes = value.encode(self.alloc)?;
        self.try_append(&bytes)
    }

    // Writes the tip, all of it.
    fn flush_tip<B: Blob>(&self, blob: &mut B) -> Result<(), Error>
        requires { IsWriter C.checksum_of (B.calls blob.old) self.now }
        ensures flushed { OnOk result (IsFlushed C.checksum_of self.now.page_size (B.calls blob.new)
            (written C.checksum_of (B.calls blob.old) self.now) self.now.synced
            (self.now.tip.offset / content_size self.now.page_size
            + length self.now.tip.bytes / content_size self.now.page_size)
            (last_slot C.checksum_of self.now.page_size self.now.slot self.now.tip.bytes)) }
        ensures any_moment { Through (Keeps C.checksum_of self.now.page_size
            (written C.checksum_of (B.calls blob.old) self.now) self.now.synced) (B.calls blob.old) (B.calls blob.new) }
        ensures cause { IfErr result (IsCause (B.failures blob.old) CallKind.Write 0) }
        ensures failures { B.failures blob.new ≡ failures_after result (B.failures blob.old) }
        ensures left { B.left blob.new ≤ B.left blob.old }
        ensures syncs { completed_syncs (B.calls blob.new) ≡ completed_syncs (B.calls blob.old) }
    {
        if self.tip.is_empty() {
            return Ok(());
        }
        let first = self.tip.offset() / (self.page_size - 12) as u64;
        flush::<C, B>(
            self.alloc,
            blob,
            self.page_size,
            first,
            self.slot,
            self.tip.as_bytes(),
        )
    }

    // After a sync: all is durable, and the tip begins behind its whole pages.
    fn settle(&mut self, cache: &mut CacheRef)
        requires pages { cache.old.page_size ≡ content_size self.old.page_size }
        requires begins { self.old.tip.offset % content_size self.old.page_size ≡ 0 }
        ensures synced { self.new.synced ≡ self.old.tip.offset + length self.old.tip.bytes }
        ensures slot { self.new.slot ≡ last_slot C.checksum_of self.old.page_size self.old.slot self.old.tip.bytes }
        ensures tip { let room = content_size self.old.page_size in
            let whole = length self.old.tip.bytes / room * room in
            self.new.tip ≡ record self.old.tip {
              offset = self.old.tip.offset + whole;
              bytes = drop whole self.old.tip.bytes;
            } }
        ensures same { (self.new.page_size ≡ self.old.page_size) × (self.new.blob_id ≡ self.old.blob_id) }
        ensures cache { cache.new ≡ record cache.old { pages = cache.new.pages } }
        ensures given { AreGiven cache.old.pages cache.new.pages self.old.blob_id
            (self.old.tip.offset / cache.old.page_size) cache.old.page_size self.old.tip.bytes
            (length self.old.tip.bytes / cache.old.page_size) }
    {
        let end = self.tip.end();
        self.settle_first(cache, end);
    }

    /// Makes durable what was appended. Where all is, no call of the blob is made. Refused, the writer is given up.
    /// In the Rust: `paged::Writer::sync`.
    pub fn sync<B: Blob>(mut self, blob: &mut B, cache: &mut CacheRef) -> Result<Self, Error>
        requires writer { IsWriter C.checksum_of (B.calls blob.old) self }
        requires pages { cache.old.page_size ≡ content_size self.page_size }
        ensures writer { IfOk result (λ w. IsWriter C.checksum_of (B.calls blob.new) w) }
        ensures content { IfOk result (λ w. written C.checksum_of (B.calls blob.new) w
            ≡ written C.checksum_of (B.calls blob.old) self) }
        ensures synced { IfOk result (λ w. w.synced ≡ length (written C.checksum_of (B.calls blob.old) self)) }
        ensures same { IfOk result (λ w. (w.page_size ≡ self.page_size) × (w.blob_id ≡ self.blob_id)
            × (w.tip.capacity ≡ self.tip.capacity)) }
        // Whatever a crash leaves at any moment of the call keeps what was synced before.
        ensures any_moment { Through (Keeps C.checksum_of self.page_size
            (written C.checksum_of (B.calls blob.old) self) self.synced) (B.calls blob.old) (B.calls blob.new) }
        ensures cause { IfErr result (λ e. IsCause (B.failures blob.old) CallKind.Write 0 e
            ⊎ IsCause (B.failures blob.old) CallKind.Sync 0 e) }
        ensures failures { B.failures blob.new ≡ failures_after result (B.failures blob.old) }
        ensures left { B.left blob.new ≤ B.left blob.old }
        // No call is made where all is durable, and none goes through under a cut.
        ensures idle { self.tip.offset + length self.tip.bytes ≤ self.synced
            → (result ≡ Ok self) × (blob.new ≡ blob.old) × (cache.new ≡ cache.old) }
        ensures powered { OnOk result (self.synced < self.tip.offset + length self.tip.bytes
            → IsPowerOff (B.failures blob.old) (B.left blob.old) → ⊥) }
        // Refused, no sync was completed.
        ensures unsynced { OnErr result (completed_syncs (B.calls blob.new) ≡ completed_syncs (B.calls blob.old)) }
        ensures cache { cache.new ≡ record cache.old { pages = cache.new.pages } }
        // The pages that are kept under the writer's name stay those of its content.
        ensures cached { HoldsPagesOf (written C.checksum_of (B.calls blob.old) self) cache.old self.blob_id
            → HoldsPagesOf (written C.checksum_of (B.calls blob.old) self) cache.new self.blob_id }
        ensures others { KeepsOthers cache.old cache.new self.blob_id }
    {
        if !self.needs_sync() {
            return Ok(self);
        }
        self.flush_tip(blob)?;
        blob.sync()?;
        self.settle(cache);
        Ok(self)
    }

    // Its pages on the blob.
    fn flushed_pages(&self) -> FlushedPages
        ensures { result ≡ record {
          physical_page_size = self.now.page_size;
          blob_id = self.now.blob_id;
          len = self.now.tip.offset;
        } }
    {
        FlushedPages {
            physical_page_size: self.page_size as u32,
            blob_id: self.blob_id,
            len: self.tip.offset(),
        }
    }

    /// Reads a slice of the list into `out`. Where the list ends before it: F7, and nothing is touched; else it is
    /// refused only where a read of the blob is. In the Rust: `paged::Writer::read_into`.
    pub fn read_into<B: Blob>(
        &self,
        blob: &mut B,
        cache: &mut CacheRef,
        out: &mut [u8],
        offset: u64,
    ) -> Result<(), Error>
        requires writer { IsWriter C.checksum_of (B.calls blob.old) self.now }
        requires pages { cache.old.page_size ≡ content_size self.now.page_size }
        requires cached { HoldsPagesOf (written C.checksum_of (B.calls blob.old) self.now) cache.old
            self.now.blob_id }
        ensures bytes { OnOk result (out.new ≡ take (length out.old)
            (drop offset (written C.checksum_of (B.calls blob.old) self.now))) }
        ensures past { self.now.tip.offset + length self.now.tip.bytes < offset + length out.old
            → (result ≡ Err Error.BlobInsufficientLength) × (out.new ≡ out.old) × (cache.new ≡ cache.old) }
        ensures cause { IfErr result (IsReadingCause (B.failures blob.old) self.now.page_size self.now.tip.offset
            (self.now.tip.offset + length self.now.tip.bytes) (offset + length out.old)) }
        ensures cached { HoldsPagesOf (written C.checksum_of (B.calls blob.old) self.now) cache.new self.now.blob_id }
        ensures same { cache.new ≡ record cache.old { pages = cache.new.pages } }
        ensures others { KeepsOthers cache.old cache.new self.now.blob_id }
        ensures calls { B.calls blob.new ≡ B.calls blob.old }
        ensures failures { B.failures blob.new ≡ failures_after result (B.failures blob.old) }
        ensures left { B.left blob.new ≤ B.left blob.old }
    {
        let pages = self.flushed_pages();
        read_into::<B, C>(
            self.alloc,
            blob,
            cache,
            pages,
            self.tip.as_bytes(),
            out,
            offset,
        )
    }

    /// So many bytes of the list from an offset on. Where it ends before them: F7.
    /// In the Rust: `paged::Writer::read_at`.
    pub fn read_at<B: Blob>(
        &self,
        blob: &mut B,
        cache: &mut CacheRef,
        offset: u64,
        len: usize,
    ) -> Result<Vec<u8>, Error>
        requires writer { IsWriter C.checksum_of (B.calls blob.old) self.now }
        requires pages { cache.old.page_size ≡ content_size self.now.page_size }
        requires cached { HoldsPagesOf (written C.checksum_of (B.calls blob.old) self.now) cache.old
            self.now.blob_id }
        ensures bytes { IfOk result (λ bytes. bytes.items ≡ take len
            (drop offset (written C.checksum_of (B.calls blob.old) self.now))) }
        ensures past { self.now.tip.offset + length self.now.tip.bytes < offset + len
            → (result ≡ Err Error.BlobInsufficientLength) × (cache.new ≡ cache.old) }
        ensures cause { IfErr result (IsReadingCause (B.failures blob.old) self.now.page_size self.now.tip.offset
            (self.now.tip.offset + length self.now.tip.bytes) (offset + len)) }
        ensures cached { HoldsPagesOf (written C.checksum_of (B.calls blob.old) self.now) cache.new self.now.blob_id }
        ensures same { cache.new ≡ record cache.old { pages = cache.new.pages } }
        ensures others { KeepsOthers cache.old cache.new self.now.blob_id }
        ensures calls { B.calls blob.new ≡ B.calls blob.old }
        ensures failures { B.failures blob.new ≡ failures_after result (B.failures blob.old) }
        ensures left { B.left blob.new ≤ B.left blob.old }
    {
        let pages = self.flushed_pages();
        read_at::<B, C>(
            self.alloc,
            blob,
            cache,
            pages,
            self.tip.as_bytes(),
            offset,
            len,
        )
    }

    /// At most so many bytes of the list from an offset on, and as many as are left. Where it ends before the offset:
    /// F7. In the Rust: `paged::Writer::read_up_to`.
    pub fn read_up_to<B: Blob>(
        &self,
        blob: &mut B,
        cache: &mut CacheRef,
        offset: u64,
        len: usize,
    ) -> Result<Vec<u8>, Error>
        requires writer { IsWriter C.checksum_of (B.calls blob.old) self.now }
        requires pages { cache.old.page_size ≡ content_size self.now.page_size }
        requires cached { HoldsPagesOf (written C.checksum_of (B.calls blob.old) self.now) cache.old
            self.now.blob_id }
        ensures bytes { IfOk result (λ bytes. bytes.items ≡ take len
            (drop offset (written C.checksum_of (B.calls blob.old) self.now))) }
        ensures past { self.now.tip.offset + length self.now.tip.bytes < offset
            → (result ≡ Err Error.BlobInsufficientLength) × (cache.new ≡ cache.old) }
        ensures cause { IfErr result (IsReadingCause (B.failures blob.old) self.now.page_size self.now.tip.offset
            (self.now.tip.offset + length self.now.tip.bytes) offset) }
        ensures cached { HoldsPagesOf (written C.checksum_of (B.calls blob.old) self.now) cache.new self.now.blob_id }
        ensures same { cache.new ≡ record cache.old { pages = cache.new.pages } }
        ensures others { KeepsOthers cache.old cache.new self.now.blob_id }
        ensures calls { B.calls blob.new ≡ B.calls blob.old }
        ensures failures { B.failures blob.new ≡ failures_after result (B.failures blob.old) }
        ensures left { B.left blob.new ≤ B.left blob.old }
    {
        let pages = self.flushed_pages();
        read_up_to::<B, C>(
            self.alloc,
            blob,
            cache,
            pages,
            self.tip.as_bytes(),
            offset,
            len,
        )
    }
}
