//! A list that is read from its beginning, or from a place on, to its end.

ghost use Rattle.std.specs.Prelude.{◌≡◌, ◌+◌, ◌++◌, ◌-◌, ◌*◌, ◌/◌};
ghost use Rattle.std.specs.Prelude.{◌<◌, ◌≤◌, ◌^◌, ◌↔◌, [], max, length, take, drop};
ghost use Rattle.std.specs.Prelude.{IsTrue, IsFalse, IfOk, IfErr, OnOk, OnErr, IsErr};
ghost use Rattle.paged_format.specs.Footers.{IsPageSize, content_size};
ghost use Rattle.paged_blob_parts.specs.Answers.{failures_after, IsCause};
ghost use Rattle.paged_blob_parts.specs.Stands.{Stand, on_blob, listed};
ghost use Rattle.paged_blob_parts.specs.Replays.{ReadsOn};
ghost use Rattle.paged_blob_parts.specs.declared.error.CallKind.TheVariants.{Read};

use crate::blob::Blob;
use crate::error::Error;
use crate::read::{FlushedPages, read_page};
use crate::sealed::Sealed;
use fault_storage::Checksum;
use std::alloc::{AllocError, Global};

/// A sealed list that is read piece by piece: bytes that were read and not taken yet, and the place up to which the
/// list was read. In the Rust: `paged::Replay`, which owns the blob.
#[derive(Drop)]
pub struct Replay<C: Checksum> {
    sealed: Sealed<C>,
    batch: u64,
    next: u64,
    held: Vec<u8>,
    taken: usize,
    ghost some: { 1 ≤ batch },
    ghost few: { batch * sealed.pages.physical_page_size < 2 ^ 64 },
    ghost within: { taken ≤ length held.items },
    ghost behind: { length held.items - taken ≤ next },
    ghost ends: { next ≤ sealed.pages.len + length sealed.tail.items },
}

// Appends the content of whole pages that stand, one behind the other. Where one does not verify: F12, and what was
// there stays in front.
fn append_pages<B: Blob, C: Checksum>(
    held: &mut Vec<u8>,
    alloc: Global,
    blob: &mut B,
    pages: FlushedPages,
    page: u64,
    count: u64,
) -> Result<(), Error>
    requires page { IsPageSize pages.physical_page_size }
    requires stand { Stand C.checksum_of (B.calls blob.old) pages }
    requires whole { (page + count) * content_size pages.physical_page_size ≤ pages.len }
    ensures bytes { OnOk result (held.new.items ≡ held.old.items
        ++ take (count * content_size pages.physical_page_size)
        (drop (page * content_size pages.physical_page_size) (on_blob C.checksum_of (B.calls blob.old) pages))) }
    ensures kept { take (length held.old.items) held.new.items ≡ held.old.items }
    ensures cause { IfErr result (IsCause (B.failures blob.old) Read
        (pages.len / content_size pages.physical_page_size * pages.physical_page_size)) }
    ensures calls { B.calls blob.new ≡ B.calls blob.old }
    ensures failures { B.failures blob.new ≡ failures_after result (B.failures blob.old) }
    ensures left { B.left blob.new ≤ B.left blob.old }
{
    for k in 0..count {
        let piece = read_page::<B, C>(alloc, blob, pages, page + k)?;
        held.extend_from_slice(&piece)?;
    }
    Ok(())
}

// Takes out so many bytes behind the first ones.
fn take_out(held: &mut Vec<u8>, at: usize, count: usize)
    requires { at + count ≤ length held.old.items }
    ensures { held.new.items ≡ take at held.old.items ++ drop (at + count) held.old.items }
{
    if count > 0 {
        let left = held.len() - count;
        held.copy_within(at + count.., at);
        held.truncate(left);
    }
}

// Appends what stands behind so many bytes of whole pages. Where one does not verify: F12, and nothing is appended.
fn append_behind<B: Blob, C: Checksum>(
    held: &mut Vec<u8>,
    alloc: Global,
    blob: &mut B,
    pages: FlushedPages,
    page: u64,
    count: u64,
    skipped: usize,
) -> Result<(), Error>
    requires page { IsPageSize pages.physical_page_size }
    requires stand { Stand C.checksum_of (B.calls blob.old) pages }
    requires whole { (page + count) * content_size pages.physical_page_size ≤ pages.len }
    requires skipped { skipped ≤ count * content_size pages.physical_page_size }
    ensures bytes { OnOk result (held.new.items ≡ held.old.items
        ++ drop skipped (take (count * content_size pages.physical_page_size)
        (drop (page * content_size pages.physical_page_size) (on_blob C.checksum_of (B.calls blob.old) pages)))) }
    ensures err { OnErr result (held.new.items ≡ held.old.items) }
    ensures cause { IfErr result (IsCause (B.failures blob.old) Read
        (pages.len / content_size pages.physical_page_size * pages.physical_page_size)) }
    ensures calls { B.calls blob.new ≡ B.calls blob.old }
    ensures failures { B.failures blob.new ≡ failures_after result (B.failures blob.old) }
    ensures left { B.left blob.new ≤ B.left blob.old }
{
    let before = held.len();
    match append_pages::<B, C>(held, alloc, blob, pages, page, count) {
        Ok(()) => {
            take_out(held, before, skipped);
            Ok(())
        }
        Err(error) => {
            held.truncate(before);
            Err(error)
        }
    }
}

impl<C: Checksum> Replay<C> {
    /// A replay of a list from its beginning, which reads so many bytes at once, a page at least (own).
    pub fn over(sealed: Sealed<C>, alloc: Global, buffer_size: usize) -> Replay<C>
        ensures sealed { result.sealed ≡ sealed }
        ensures batch { result.batch * sealed.pages.physical_page_size
            ≤ max buffer_size sealed.pages.physical_page_size }
        ensures start { (result.next ≡ 0) × (drop result.taken result.held.items ≡ []) }
    {
        let batch = (buffer_size as u64 / u64::from(sealed.pages.physical_page_size)).max(1);
        Replay {
            sealed,
            batch,
            next: 0,
            held: Vec::new(alloc),
            taken: 0,
        }
    }

    /// How many bytes the list has. In the Rust: `paged::Replay::blob_size`.
    pub fn blob_size(&self) -> u64
        ensures { result ≡ self.now.sealed.pages.len + length self.now.sealed.tail.items }
    {
        self.sealed.size()
    }

    /// Whether the list was read to its end; some of it may not be taken yet.
    /// In the Rust: `paged::Replay::is_exhausted`.
    pub fn is_exhausted(&self) -> bool
        ensures { IsTrue result ↔ (self.now.next ≡ self.now.sealed.pages.len + length self.now.sealed.tail.items) }
    {
        self.next == self.blob_size()
    }

    /// How many bytes were read and are not taken yet. In the Rust: `Buf::remaining` of it.
    pub fn remaining(&self) -> usize
        ensures { result ≡ length (drop self.now.taken self.now.held.items) }
    {
        self.held.len() - self.taken
    }

    /// These bytes. In the Rust: `Buf::chunk` of it, which may give some of them.
    pub fn chunk(&self) -> &[u8]
        ensures { result.now ≡ drop self.now.taken self.now.held.items }
    {
        &self.held[self.taken..]
    }

    /// Takes so many bytes. That as many were read and are not taken yet is on the caller.
    /// In the Rust: `Buf::advance` of it.
    pub fn advance(&mut self, count: usize)
        requires { count ≤ length (drop self.old.taken self.old.held.items) }
        ensures taken { drop self.new.taken self.new.held.items
            ≡ drop count (drop self.old.taken self.old.held.items) }
        ensures same { (self.new.sealed.pages ≡ self.old.sealed.pages)
            × (self.new.sealed.tail.items ≡ self.old.sealed.tail.items) × (self.new.batch ≡ self.old.batch)
            × (self.new.next ≡ self.old.next) }
    {
        self.taken += count;
    }

    /// Takes so many bytes and answers them. Out of memory: F9, and none is taken. That as many were read and are not
    /// taken yet is on the caller. In the Rust: `Buf::copy_to_bytes` of it.
    pub fn copy_to_bytes(&mut self, count: usize) -> Result<Vec<u8>, Error>
        requires { count ≤ length (drop self.old.taken self.old.held.items) }
        ensures bytes { IfOk result (λ bytes. bytes.items
            ≡ take count (drop self.old.taken self.old.held.items)) }
        ensures taken { OnOk result (drop self.new.taken self.new.held.items
            ≡ drop count (drop self.old.taken self.old.held.items)) }
        ensures same { (self.new.sealed.pages ≡ self.old.sealed.pages)
            × (self.new.sealed.tail.items ≡ self.old.sealed.tail.items) × (self.new.batch ≡ self.old.batch)
            × (self.new.next ≡ self.old.next) }
        ensures err { IfErr result (λ e. (e ≡ Error.Memory) × (self.new ≡ self.old)) }
    {
        let bytes = self.held[self.taken..self.taken + count].to_vec(self.sealed.alloc)?;
        self.taken += count;
        Ok(bytes)
    }

    /// Takes as many bytes as `out` has, into it. Where fewer were read and are not taken yet: F7, and none is taken.
    /// In the Rust: `Buf::try_copy_to_slice` of it.
    pub fn try_copy_to_slice(&mut self, out: &mut [u8]) -> Result<(), Error>
        ensures bytes { OnOk result (out.new ≡ take (length out.old) (drop self.old.taken self.old.held.items)) }
        ensures taken { OnOk result (drop self.new.taken self.new.held.items
            ≡ drop (length out.old) (drop self.old.taken self.old.held.items)) }
        ensures same { (self.new.sealed.pages ≡ self.old.sealed.pages)
            × (self.new.sealed.tail.items ≡ self.old.sealed.tail.items) × (self.new.batch ≡ self.old.batch)
            × (self.new.next ≡ self.old.next) }
        ensures err { IfErr result (λ e. (e ≡ Error.BlobInsufficientLength) × (self.new ≡ self.old)
            × (out.new ≡ out.old)) }
        ensures short { IsErr result ↔ (length (drop self.old.taken self.old.held.items) < length out.old) }
    {
        if self.remaining() < out.len() {
            return Err(Error::BlobInsufficientLength);
        }
        out.copy_from_slice(&self.held[self.taken..self.taken + out.len()]);
        self.taken += out.len();
        Ok(())
    }

    /// Goes on at a place of the list: nothing that was read before is left. Where the list ends before it: F7, and
    /// nothing changes. In the Rust: `paged::Replay::seek_to`.
    pub fn seek_to(&mut self, offset: u64) -> Result<(), Error>
        ensures next { OnOk result (self.new.next ≡ offset) }
        ensures none { OnOk result (drop self.new.taken self.new.held.items ≡ []) }
        ensures same { (self.new.sealed.pages ≡ self.old.sealed.pages)
            × (self.new.sealed.tail.items ≡ self.old.sealed.tail.items) × (self.new.batch ≡ self.old.batch) }
        ensures err { IfErr result (λ e. (e ≡ Error.BlobInsufficientLength) × (self.new ≡ self.old)) }
        ensures past { IsErr result
            ↔ (self.old.sealed.pages.len + length self.old.sealed.tail.items < offset) }
    {
        if offset > self.blob_size() {
            return Err(Error::BlobInsufficientLength);
        }
        self.next = offset;
        self.taken = self.held.len();
        Ok(())
    }

    // Gives up what was taken.
    fn settle(&mut self)
        ensures held { self.new.held.items ≡ drop self.old.taken self.old.held.items }
        ensures taken { self.new.taken ≡ 0 }
        ensures same { (self.new.sealed.pages ≡ self.old.sealed.pages)
            × (self.new.sealed.tail.items ≡ self.old.sealed.tail.items) × (self.new.batch ≡ self.old.batch)
            × (self.new.next ≡ self.old.next) }
    {
        let left = self.held.len() - self.taken;
        self.held.copy_within(self.taken.., 0);
        self.held.truncate(left);
        self.taken = 0;
    }

    // Reads on: as many pages as are read at once, or as much of what stands behind all pages. Refused, it stays.
    fn fetch<B: Blob>(&mut self, blob: &mut B) -> Result<(), Error>
        requires stand { Stand C.checksum_of (B.calls blob.old) self.old.sealed.pages }
        requires more { self.old.next < self.old.sealed.pages.len + length self.old.sealed.tail.items }
        ensures reads { ReadsOn
            (listed C.checksum_of (B.calls blob.old) self.old.sealed.pages self.old.sealed.tail.items)
            self.old.next (drop self.old.taken self.old.held.items)
            self.new.next (drop self.new.taken self.new.held.items) }
        ensures further { OnOk result (self.old.next < self.new.next) }
        ensures most { self.new.next ≤ self.old.next
            + self.old.batch * content_size self.old.sealed.pages.physical_page_size }
        ensures same { (self.new.sealed.pages ≡ self.old.sealed.pages)
            × (self.new.sealed.tail.items ≡ self.old.sealed.tail.items) × (self.new.batch ≡ self.old.batch)
            × (self.new.taken ≡ self.old.taken) }
        ensures err { OnErr result (self.new.next ≡ self.old.next) }
        ensures cause { let pages = self.old.sealed.pages in IfErr result (IsCause (B.failures blob.old) Read
            (pages.len / content_size pages.physical_page_size * pages.physical_page_size)) }
        ensures calls { B.calls blob.new ≡ B.calls blob.old }
        ensures failures { B.failures blob.new ≡ failures_after result (B.failures blob.old) }
        ensures left { B.left blob.new ≤ B.left blob.old }
    {
        let pages = self.sealed.pages;
        let room = u64::from(pages.physical_page_size) - 12;
        if self.next >= pages.len {
            let from = (self.next - pages.len) as usize;
            let most = (self.batch * room) as usize;
            let count = most.min(self.sealed.tail.len() - from);
            self.held
                .extend_from_slice(&self.sealed.tail[from..from + count])?;
            self.next += count as u64;
            return Ok(());
        }
        let page = self.next / room;
        let skipped = (self.next % room) as usize;
        let count = self.batch.min(pages.len / room - page);
        let alloc = self.sealed.alloc;
        append_behind::<B, C>(&mut self.held, alloc, blob, pages, page, count, skipped)?;
        self.next = (page + count) * room;
        Ok(())
    }

    // Whether fewer bytes than so many are there, and more to be read.
    fn wants(&self, count: usize) -> bool
        ensures { IsTrue result ↔ ((length self.now.held.items < count)
            × (self.now.next < self.now.sealed.pages.len + length self.now.sealed.tail.items)) }
    {
        self.held.len() < count && self.next < self.blob_size()
    }

    /// Reads on until so many bytes are there that are not taken yet, and answers whether they are: false only where
    /// fewer are left of the list, all of which are there then. It reads at most one buffer further than it has to.
    /// Where a read of the blob is refused, it is: what was there stays, and what was read behind it goes on from it.
    /// That the pages stand is on the caller. In the Rust: `paged::Replay::ensure`.
    pub fn ensure<B: Blob>(&mut self, blob: &mut B, count: usize) -> Result<bool, Error>
        requires stand { Stand C.checksum_of (B.calls blob.old) self.old.sealed.pages }
        ensures enough { IfOk result (λ enough. IsTrue enough
            ↔ (count ≤ length (drop self.old.taken self.old.held.items)
            + (self.old.sealed.pages.len + length self.old.sealed.tail.items - self.old.next))) }
        ensures there { IfOk result (λ enough. IsTrue enough
            → count ≤ length (drop self.new.taken self.new.held.items)) }
        ensures all { IfOk result (λ enough. IsFalse enough
            → self.new.next ≡ self.old.sealed.pages.len + length self.old.sealed.tail.items) }
        // Refused or not, what was there stays in front, and the next bytes of the list stand behind it.
        ensures reads { ReadsOn
            (listed C.checksum_of (B.calls blob.old) self.old.sealed.pages self.old.sealed.tail.items)
            self.old.next (drop self.old.taken self.old.held.items)
            self.new.next (drop self.new.taken self.new.held.items) }
        ensures most { length (drop self.new.taken self.new.held.items)
            ≤ max (length (drop self.old.taken self.old.held.items))
            (count + self.old.batch * content_size self.old.sealed.pages.physical_page_size) }
        ensures same { (self.new.sealed.pages ≡ self.old.sealed.pages)
            × (self.new.sealed.tail.items ≡ self.old.sealed.tail.items) × (self.new.batch ≡ self.old.batch) }
        ensures cause { let pages = self.old.sealed.pages in IfErr result (IsCause (B.failures blob.old) Read
            (pages.len / content_size pages.physical_page_size * pages.physical_page_size)) }
        ensures calls { B.calls blob.new ≡ B.calls blob.old }
        ensures failures { B.failures blob.new ≡ failures_after result (B.failures blob.old) }
        ensures left { B.left blob.new ≤ B.left blob.old }
    {
        self.settle();
        while self.wants(count) {
            self.fetch(blob)?;
        }
        Ok(self.held.len() >= count)
    }
}

impl<C: Checksum> Sealed<C> {
    /// A replay of the list from its beginning, which reads so many bytes at once, a page at least. It fails only when
    /// out of memory. In the Rust: `paged::Sealed::replay`.
    pub fn replay(&self, buffer_size: usize) -> Result<Replay<C>, AllocError>
        ensures pages { IfOk result (λ r. r.sealed.pages ≡ self.now.pages) }
        ensures tail { IfOk result (λ r. r.sealed.tail.items ≡ self.now.tail.items) }
        ensures start { IfOk result (λ r. (r.next ≡ 0) × (drop r.taken r.held.items ≡ [])) }
        ensures batch { IfOk result (λ r. r.batch * self.now.pages.physical_page_size
            ≤ max buffer_size self.now.pages.physical_page_size) }
    {
        let copy = self.try_copy()?;
        Ok(Replay::over(copy, self.alloc, buffer_size))
    }
}
