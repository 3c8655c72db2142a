//! A list that is recovered of a blob, until it is cut where it ends and a writer goes on.
//!
//! ```text
//!     pages        abcdefgh   ijk.....   mnopqrst   (torn)         as a crash left them
//!     open         abcdefgh   ijk                                  up to the first that is not whole; nothing changes
//!     truncate     abcdefgh   ijk                                  the pages behind are taken off, one slot is left
//!     append       abcdefgh   ijkl....                             a writer goes on where the list ends
//! ```

ghost use Rattle.std.specs.Prelude.{◌≡◌, ◌⊎◌, ◌+◌, ◌*◌, ◌/◌, ◌<◌, ◌≤◌, ◌^◌, [], ℕ, max, min, take, length};
ghost use Rattle.std.specs.Prelude.{None, Some, Option, IsFalse, IfOk, IfErr, OnOk, OnErr, IfSome};
ghost use Rattle.paged_format.specs.Footers.{IsPageSize, content_size};
ghost use Rattle.paged_format.specs.Pages.{recovered};
ghost use Rattle.paged_blob_parts.specs.Calls.{content, file_of};
ghost use Rattle.paged_blob_parts.specs.Moments.{Through};
ghost use Rattle.paged_blob_parts.specs.Answers.{failures_after, IsReadCause};
ghost use Rattle.paged_blob_parts.specs.Flushes.{physical_size};
ghost use Rattle.paged_blob_parts.specs.Scans.{recoverable, AreProven};
ghost use Rattle.paged_blob_parts.specs.Shrinks.{Withstands, IsCut, IsCutCause, EndsWithSync};
ghost use Rattle.paged_blob.specs.ShrinksCode.{slot_of, bytes_of};
ghost use Rattle.paged_blob_parts.specs.Writers.{written, IsWriter, Keeps};

use super::{Append, Writer, is_within_numbers};
use crate::shrink::{LastPage, cut_blob};
use fault_storage::Checksum;
use paged_blob_parts::{
    Blob, CacheRef, DurableSlot, Error, prefix_of_blob, prefix_of_blob_at_most,
};
use paged_format::TipBuffer;
use std::alloc::Global;
use std::marker::PhantomData;

/// A writer that recovers what is on its blob. In the Rust: `paged::Recovering`.
#[derive(Clone, Copy, Debug, PartialEq, Eq)]
pub struct Recovering;

/// What is recovered of a blob, before it is cut. In the Rust: `paged::Recovery`.
pub type Recovery<C> = Writer<C, Recovering>;

impl<C: Checksum> Writer<C, Recovering> {
    /// Finds how many bytes of content are recovered of a blob of so many bytes, and takes a new name in the cache,
    /// whose pages tell how large the blob's are. Nothing on the blob changes. It is refused where a read of the blob
    /// is, and where no name is left: F8. That the cache's pages and twelve bytes are a power of two from 16 to 65536
    /// is on the caller. In the Rust: `paged::Recovery::open`.
    pub fn open<B: Blob>(
        alloc: Global,
        blob: &mut B,
        cache: &mut CacheRef,
        blob_size: u64,
        capacity: usize,
    ) -> Result<Self, Error>
        requires size { IsPageSize (cache.old.page_size + 12) }
        ensures found { IsFalse (file_of (B.calls blob.old)).failed → IfOk result (λ w. w.tip ≡ record {
          offset = recoverable C.checksum_of (cache.old.page_size + 12) (B.calls blob.old) blob_size;
          bytes = [];
          capacity = max capacity (cache.old.page_size + 12);
        }) }
        // Where all of the blob is asked for, so many bytes are recovered of it: what `truncate` asks.
        ensures known { IsFalse (file_of (B.calls blob.old)).failed → blob_size ≡ length (content (B.calls blob.old))
            → IfOk result (λ w. w.tip.offset + length w.tip.bytes
            ≡ length (recovered C.checksum_of w.page_size (content (B.calls blob.old)))) }
        ensures page_size { IfOk result (λ w. w.page_size ≡ cache.old.page_size + 12) }
        ensures blob_id { IfOk result (λ w. w.blob_id ≡ cache.old.next_id) }
        ensures cache { OnOk result (cache.new ≡ record cache.old { next_id = cache.old.next_id + 1 }) }
        ensures refused { OnErr result (cache.new ≡ cache.old) }
        ensures cause { IfErr result (λ e. IsReadCause (B.failures blob.old) (file_of (B.calls blob.old)) 0 blob_size e
            ⊎ ((e ≡ Error.NumberEnded) × (cache.old.next_id + 1 ≡ 2 ^ 64))) }
        ensures calls { B.calls blob.new ≡ B.calls blob.old }
        ensures failures { B.failures blob.new ≡ failures_after result (B.failures blob.old) }
        ensures left { B.left blob.new ≤ B.left blob.old }
    {
        let page_size = cache.page_size() as usize + 12;
        let len = prefix_of_blob::<B, C>(alloc, blob, page_size as u32, blob_size, 0, capacity)?;
        let blob_id = cache.next_id()?;
        Ok(Writer {
            alloc,
            page_size,
            blob_id,
            synced: 0,
            slot: None,
            tip: TipBuffer::new(alloc, len, capacity.max(page_size)),
            checksum: PhantomData,
            phase: PhantomData,
        })
    }

    // Goes on after so many bytes, all durable, of which those of the last page are these.
    fn go_on_at(&mut self, kept: u64, last: Option<LastPage>) -> Result<(), Error>
        requires numbers { kept + 65536 < 2 ^ 64 }
        requires fits { IfSome last (λ page. length page.bytes.items ≤ content_size self.old.page_size) }
        ensures tip { OnOk result (self.new.tip ≡ record {
          offset = kept / content_size self.old.page_size * content_size self.old.page_size;
          bytes = bytes_of last;
          capacity = self.old.tip.capacity;
        }) }
        ensures slot { OnOk result (self.new.slot ≡ slot_of last) }
        ensures synced { OnOk result (self.new.synced ≡ kept) }
        ensures same { (self.new.page_size ≡ self.old.page_size) × (self.new.blob_id ≡ self.old.blob_id) }
        ensures err { IfErr result (λ e. e ≡ Error.Memory) }
    {
        let room = self.page_size as u64 - 12;
        self.synced = kept;
        self.slot = None;
        self.tip.restart(kept / room * room);
        if let Some(page) = last {
            let _ = self.tip.append(&page.bytes)?;
            self.slot = Some(DurableSlot {
                slot: page.slot,
                len: page.bytes.len() as u16,
                crc: page.crc,
            });
        }
        Ok(())
    }

    /// Cuts the list to its first so many bytes, `size`, or leaves it whole where it has fewer, and makes it durable;
    /// the blob then has its pages and nothing else, its last call is a sync that succeeded, the writer goes on from
    /// there, and it has a new name in the cache. Where no name is left, or a number of the list would end: F8, and
    /// nothing changes. Refused otherwise the recovery is given up; what a crash then shows is a beginning of the list
    /// with what was durable of these bytes. That so many bytes are recovered of the blob, no call of it has failed and
    /// all of it is durable is on the caller: so it is after `open` and after `truncate`. In the Rust:
    /// `paged::Recovery::truncate`.
    pub fn truncate<B: Blob>(
        mut self,
        blob: &mut B,
        cache: &mut CacheRef,
        size: u64,
    ) -> Result<Self, Error>
        requires sound { IsFalse (file_of (B.calls blob.old)).failed }
        requires settled { (file_of (B.calls blob.old)).changes ≡ [] }
        requires numbers { length (content (B.calls blob.old)) < 2 ^ 64 }
        requires known { self.tip.offset + length self.tip.bytes
            ≡ length (recovered C.checksum_of self.page_size (content (B.calls blob.old))) }
        ensures writer { IfOk result (λ w. IsWriter C.checksum_of (B.calls blob.new) w) }
        ensures content { IfOk result (λ w. written C.checksum_of (B.calls blob.new) w
            ≡ take size (recovered C.checksum_of self.page_size (content (B.calls blob.old)))) }
        ensures synced { IfOk result (λ w. w.synced ≡ min size (self.tip.offset + length self.tip.bytes)) }
        ensures again { OnOk result (IsCut C.checksum_of self.page_size
            (take size (recovered C.checksum_of self.page_size (content (B.calls blob.old)))) (B.calls blob.new)) }
        ensures ends { OnOk result (EndsWithSync (B.calls blob.new)) }
        ensures same { IfOk result (λ w. (w.page_size ≡ self.page_size) × (w.tip.capacity ≡ self.tip.capacity)) }
        ensures name { IfOk result (λ w. w.blob_id ≡ cache.old.next_id) }
        ensures cache { OnOk result (cache.new ≡ record cache.old { next_id = cache.old.next_id + 1 }) }
        ensures pages { cache.new.pages ≡ cache.old.pages }
        // Refused too, the cache has given one name at most.
        ensures given { (cache.new ≡ record cache.old { next_id = cache.new.next_id })
            × (cache.old.next_id ≤ cache.new.next_id) }
        ensures names { cache.new.next_id ≤ cache.old.next_id + 1 }
        // Whatever a crash leaves at any moment of the call keeps what was durable of these bytes.
        ensures any_moment { let old = recovered C.checksum_of self.page_size (content (B.calls blob.old)) in
            (synced : ℕ) → Withstands C.checksum_of self.page_size old synced (file_of (B.calls blob.old))
            → Through (Keeps C.checksum_of self.page_size old (min size synced)) (B.calls blob.old) (B.calls blob.new) }
        ensures cause { IfErr result (λ e. IsCutCause (B.failures blob.old) (length (content (B.calls blob.old))) e
            ⊎ ((e ≡ Error.NumberEnded) × ((cache.old.next_id + 1 ≡ 2 ^ 64)
            ⊎ (2 ^ 64 ≤ physical_size self.page_size (min size (self.tip.offset + length self.tip.bytes)) + 4096)))) }
        ensures failures { B.failures blob.new ≡ failures_after result (B.failures blob.old) }
        ensures left { B.left blob.new ≤ B.left blob.old }
    {
        let len = self.size();
        let kept = size.min(len);
        if !is_within_numbers(self.page_size, kept, 0) {
            return Err(Error::NumberEnded);
        }
        let name = cache.next_id()?;
        self.blob_id = name;
        let page_size = self.page_size as u32;
        let last = cut_blob::<B, C>(self.alloc, blob, page_size, false, len, size)?;
        self.go_on_at(kept, last)?;
        Ok(self)
    }
}

impl<C: Checksum> From<Writer<C, Recovering>> for Writer<C, Append> {
    ghost from_gives = { λ recovery w. w ≡ recovery };

    /// The writer that goes on from where the list was cut. In the Rust: `Writer::from`.
    fn from(recovery: Writer<C, Recovering>) -> Writer<C, Append> {
        Writer {
            alloc: recovery.alloc,
            page_size: recovery.page_size,
            blob_id: recovery.blob_id,
            synced: recovery.synced,
            slot: recovery.slot,
            tip: recovery.tip,
            checksum: PhantomData,
            phase: PhantomData,
        }
    }
}

impl<C: Checksum> Writer<C> {
    /// A writer of what is recovered of a blob of so many bytes, `blob_size`, all of it durable, with a buffer of so
    /// many bytes, at least a page's: a `Recovery::open`, and a `truncate` to all that it found. The blob then has the
    /// pages of that list and nothing else; of an empty blob it is a writer of nothing. Each image of each moment of
    /// the call recovers to the same list, unless it is there by chance, and keeps every byte of it. The cache keeps
    /// its pages and gives two names, of which the writer has the second. It is refused where one of these two calls
    /// is, also where a name is wanting: F8. That this is the blob's length, that no call of it has failed and all of
    /// it is durable is on the caller: so it is after an opening.
    /// In the Rust: `paged::Writer::new`, which takes one name.
    pub fn new<B: Blob>(
        alloc: Global,
        blob: &mut B,
        cache: &mut CacheRef,
        blob_size: u64,
        capacity: usize,
    ) -> Result<Self, Error>
        requires page { IsPageSize (cache.old.page_size + 12) }
        requires sound { IsFalse (file_of (B.calls blob.old)).failed }
        requires settled { (file_of (B.calls blob.old)).changes ≡ [] }
        requires whole { blob_size ≡ length (content (B.calls blob.old)) }
        ensures writer { IfOk result (λ w. IsWriter C.checksum_of (B.calls blob.new) w) }
        ensures content { IfOk result (λ w. written C.checksum_of (B.calls blob.new) w
            ≡ recovered C.checksum_of (cache.old.page_size + 12) (content (B.calls blob.old))) }
        ensures synced { IfOk result (λ w. w.synced
            ≡ length (recovered C.checksum_of (cache.old.page_size + 12) (content (B.calls blob.old)))) }
        ensures cut { OnOk result (IsCut C.checksum_of (cache.old.page_size + 12)
            (recovered C.checksum_of (cache.old.page_size + 12) (content (B.calls blob.old))) (B.calls blob.new)) }
        ensures ends { OnOk result (EndsWithSync (B.calls blob.new)) }
        ensures page_size { IfOk result (λ w. w.page_size ≡ cache.old.page_size + 12) }
        ensures capacity { IfOk result (λ w. w.tip.capacity ≡ max capacity (cache.old.page_size + 12)) }
        ensures name { IfOk result (λ w. w.blob_id ≡ cache.old.next_id + 1) }
        ensures cache { OnOk result (cache.new ≡ record cache.old { next_id = cache.old.next_id + 2 }) }
        // Refused too, the cache has its pages, and has given two names at most.
        ensures given { (cache.new ≡ record cache.old { next_id = cache.new.next_id })
            × (cache.old.next_id ≤ cache.new.next_id) }
        ensures names { cache.new.next_id ≤ cache.old.next_id + 2 }
        // Whatever a crash leaves at any moment of the call keeps all of the list.
        ensures any_moment { let old = recovered C.checksum_of (cache.old.page_size
            + 12) (content (B.calls blob.old)) in
            Through (Keeps C.checksum_of (cache.old.page_size + 12) old (length old)) (B.calls blob.old)
            (B.calls blob.new) }
        ensures cause { let old = recovered C.checksum_of (cache.old.page_size + 12) (content (B.calls blob.old)) in
            IfErr result (λ e. IsCutCause (B.failures blob.old) (length (content (B.calls blob.old))) e
            ⊎ ((e ≡ Error.NumberEnded) × ((2 ^ 64 ≤ cache.old.next_id + 2)
            ⊎ (2 ^ 64 ≤ physical_size (cache.old.page_size + 12) (length old) + 4096)))) }
        ensures failures { B.failures blob.new ≡ failures_after result (B.failures blob.old) }
        ensures left { B.left blob.new ≤ B.left blob.old }
    {
        let recovery = Recovery::<C>::open(alloc, blob, cache, blob_size, capacity)?;
        let size = recovery.size();
        let cut = recovery.truncate(blob, cache, size)?;
        Ok(Writer::from(cut))
    }
}

impl<C: Checksum, Phase> Writer<C, Phase> {
    /// How many bytes of content are recovered of the first `blob_size` bytes of the blob. It is refused where a read
    /// of the blob is. That so many bytes of content, `proven`, are among them is on the caller.
    /// In the Rust: `paged::Writer::recoverable_prefix_len`.
    pub fn recoverable_prefix_len<B: Blob>(
        &self,
        blob: &mut B,
        blob_size: u64,
        proven: u64,
        buffer_size: usize,
    ) -> Result<u64, Error>
        requires { AreProven C.checksum_of self.now.page_size (B.calls blob.old) blob_size proven }
        ensures exact { IsFalse (file_of (B.calls blob.old)).failed
            → IfOk result (λ len. len ≡ recoverable C.checksum_of self.now.page_size (B.calls blob.old) blob_size) }
        ensures cause { IfErr result (IsReadCause (B.failures blob.old) (file_of (B.calls blob.old)) 0 blob_size) }
        ensures calls { B.calls blob.new ≡ B.calls blob.old }
        ensures failures { B.failures blob.new ≡ failures_after result (B.failures blob.old) }
        ensures left { B.left blob.new ≤ B.left blob.old }
    {
        let page_size = self.page_size as u32;
        prefix_of_blob::<B, C>(self.alloc, blob, page_size, blob_size, proven, buffer_size)
    }

    /// The same, or `max_size` where that is less. In the Rust: `paged::Writer::recoverable_prefix_len_at_most`.
    pub fn recoverable_prefix_len_at_most<B: Blob>(
        &self,
        blob: &mut B,
        blob_size: u64,
        proven: u64,
        max_size: u64,
        buffer_size: usize,
    ) -> Result<u64, Error>
        requires { AreProven C.checksum_of self.now.page_size (B.calls blob.old) blob_size proven }
        ensures exact { IsFalse (file_of (B.calls blob.old)).failed → IfOk result (λ len. len
            ≡ min max_size (recoverable C.checksum_of self.now.page_size (B.calls blob.old) blob_size)) }
        ensures cause { IfErr result (IsReadCause (B.failures blob.old) (file_of (B.calls blob.old)) 0 blob_size) }
        ensures calls { B.calls blob.new ≡ B.calls blob.old }
        ensures failures { B.failures blob.new ≡ failures_after result (B.failures blob.old) }
        ensures left { B.left blob.new ≤ B.left blob.old }
    {
        let page_size = self.page_size as u32;
        let alloc = self.alloc;
        prefix_of_blob_at_most::<B, C>(
            alloc,
            blob,
            page_size,
            blob_size,
            proven,
            max_size,
            buffer_size,
        )
    }
}
