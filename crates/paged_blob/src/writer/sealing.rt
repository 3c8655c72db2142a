//! A writer's list as it stands: lent to be read, and sealed.

ghost use Rattle.std.specs.Prelude.{◌≡◌, ◌⊎◌, ◌+◌, ◌*◌, ◌<◌, ◌≤◌, ◌↔◌, [], List, max, length, drop};
ghost use Rattle.std.specs.Prelude.{IsNone, IfSome, IfOk, IfErr, OnOk};
ghost use Rattle.paged_format.specs.Footers.{content_size};
ghost use Rattle.paged_blob_parts.specs.Calls.{Call};
ghost use Rattle.paged_blob_parts.specs.Moments.{Through};
ghost use Rattle.paged_blob_parts.specs.Answers.{failures_after, IsCause};
ghost use Rattle.paged_blob_parts.specs.CachedContent.{HoldsPagesOf, KeepsOthers};
ghost use Rattle.paged_blob_parts.specs.Writers.{written, IsWriter, Keeps};
ghost use Rattle.paged_blob_parts.specs.Stands.{IsSealed, pages_of};
ghost use Rattle.paged_blob_parts.specs.declared.error.CallKind.{CallKind};

use super::Writer;
use fault_storage::Checksum;
use paged_blob_parts::{Blob, CacheRef, Error, Replay, Sealed, View};
use std::alloc::AllocError;
use std::marker::PhantomData;

impl<C: Checksum, Phase> Writer<C, Phase> {
    /// Its list as it stands, lent to be read, also while a sync of it is under way (own).
    pub fn view(&self) -> View<'_, C>
        ensures pages { result.pages ≡ pages_of self.now }
        ensures tail { result.tail.now ≡ self.now.tip.bytes }
    {
        let _end = self.tip.end();
        View {
            alloc: self.alloc,
            pages: self.flushed_pages(),
            tail: self.tip.as_bytes(),
            checksum: PhantomData,
        }
    }

    // Its pages, and a copy of what stands behind them.
    fn sealed(&self) -> Result<Sealed<C>, AllocError>
        ensures pages { IfOk result (λ s. s.pages ≡ pages_of self.now) }
        ensures tail { IfOk result (λ s. s.tail.items ≡ self.now.tip.bytes) }
    {
        let _end = self.tip.end();
        let tail = self.tip.as_bytes().to_vec(self.alloc)?;
        Ok(Sealed {
            alloc: self.alloc,
            pages: self.flushed_pages(),
            tail,
            checksum: PhantomData,
        })
    }

    /// Makes durable what was appended, as `sync` does, and seals the list as it stands, while the writer goes on: the
    /// sealed list keeps its size and its bytes through all later calls of the writer, also where they fail. It copies
    /// what the buffer holds then. Refused where the sync is, and out of memory, the writer is given up.
    /// In the Rust: `paged::Writer::snapshot`.
    pub fn snapshot<B: Blob>(
        self,
        blob: &mut B,
        cache: &mut CacheRef,
    ) -> Result<(Self, Sealed<C>), Error>
        requires writer { IsWriter C.checksum_of (B.calls blob.old) self }
        requires pages { cache.old.page_size ≡ content_size self.page_size }
        ensures writer { IfOk result (λ r. IsWriter C.checksum_of (B.calls blob.new) r.0) }
        ensures content { IfOk result (λ r. written C.checksum_of (B.calls blob.new) r.0
            ≡ written C.checksum_of (B.calls blob.old) self) }
        ensures synced { IfOk result (λ r. r.0.synced ≡ length (written C.checksum_of (B.calls blob.old) self)) }
        ensures same { IfOk result (λ r. (r.0.page_size ≡ self.page_size) × (r.0.blob_id ≡ self.blob_id)
            × (r.0.tip.capacity ≡ self.tip.capacity)) }
        ensures sealed { IfOk result (λ r. IsSealed C.checksum_of (B.calls blob.new)
            (written C.checksum_of (B.calls blob.old) self) r.1.pages r.1.tail.items) }
        // Its pages are durable, and those that are kept of them have the writer's name.
        ensures durable { IfOk result (λ r. r.1.pages.len ≤ r.0.synced) }
        ensures named { IfOk result (λ r. (r.1.pages.physical_page_size ≡ self.page_size)
            × (r.1.pages.blob_id ≡ self.blob_id)) }
        // Whatever a crash leaves at any moment of the call keeps what was synced before.
        ensures any_moment { Through (Keeps C.checksum_of self.page_size
            (written C.checksum_of (B.calls blob.old) self) self.synced) (B.calls blob.old) (B.calls blob.new) }
        ensures cause { IfErr result (λ e. IsCause (B.failures blob.old) CallKind.Write 0 e
            ⊎ IsCause (B.failures blob.old) CallKind.Sync 0 e) }
        ensures failures { B.failures blob.new ≡ failures_after result (B.failures blob.old) }
        ensures left { B.left blob.new ≤ B.left blob.old }
        ensures cache { cache.new ≡ record cache.old { pages = cache.new.pages } }
        // The pages that are kept under the writer's name stay those of its content.
        ensures cached { HoldsPagesOf (written C.checksum_of (B.calls blob.old) self) cache.old self.blob_id
            → HoldsPagesOf (written C.checksum_of (B.calls blob.old) self) cache.new self.blob_id }
        ensures others { KeepsOthers cache.old cache.new self.blob_id }
    {
        let writer = self.sync(blob, cache)?;
        let sealed = writer.sealed()?;
        Ok((writer, sealed))
    }

    /// A replay of the list as it stands, which reads so many bytes at once, a page at least, while the writer goes on:
    /// one of a `snapshot`. It is refused where that is. In the Rust: `paged::Writer::replay`.
    pub fn replay<B: Blob>(
        self,
        blob: &mut B,
        cache: &mut CacheRef,
        buffer_size: usize,
    ) -> Result<(Self, Replay<C>), Error>
        requires writer { IsWriter C.checksum_of (B.calls blob.old) self }
        requires pages { cache.old.page_size ≡ content_size self.page_size }
        ensures writer { IfOk result (λ r. IsWriter C.checksum_of (B.calls blob.new) r.0) }
        ensures content { IfOk result (λ r. written C.checksum_of (B.calls blob.new) r.0
            ≡ written C.checksum_of (B.calls blob.old) self) }
        ensures synced { IfOk result (λ r. r.0.synced ≡ length (written C.checksum_of (B.calls blob.old) self)) }
        ensures same { IfOk result (λ r. (r.0.page_size ≡ self.page_size) × (r.0.blob_id ≡ self.blob_id)
            × (r.0.tip.capacity ≡ self.tip.capacity)) }
        ensures sealed { IfOk result (λ r. IsSealed C.checksum_of (B.calls blob.new)
            (written C.checksum_of (B.calls blob.old) self) r.1.sealed.pages r.1.sealed.tail.items) }
        // Its pages are durable, and those that are kept of them have the writer's name.
        ensures durable { IfOk result (λ r. r.1.sealed.pages.len ≤ r.0.synced) }
        ensures start { IfOk result (λ r. (r.1.next ≡ 0) × (drop r.1.taken r.1.held.items ≡ [])) }
        ensures batch { IfOk result (λ r. r.1.batch * self.page_size ≤ max buffer_size self.page_size) }
        ensures named { IfOk result (λ r. (r.1.sealed.pages.physical_page_size ≡ self.page_size)
            × (r.1.sealed.pages.blob_id ≡ self.blob_id)) }
        // Whatever a crash leaves at any moment of the call keeps what was synced before.
        ensures any_moment { Through (Keeps C.checksum_of self.page_size
            (written C.checksum_of (B.calls blob.old) self) self.synced) (B.calls blob.old) (B.calls blob.new) }
        ensures cause { IfErr result (λ e. IsCause (B.failures blob.old) CallKind.Write 0 e
            ⊎ IsCause (B.failures blob.old) CallKind.Sync 0 e) }
        ensures failures { B.failures blob.new ≡ failures_after result (B.failures blob.old) }
        ensures left { B.left blob.new ≤ B.left blob.old }
        ensures cache { cache.new ≡ record cache.old { pages = cache.new.pages } }
        // The pages that are kept under the writer's name stay those of its content.
        ensures cached { HoldsPagesOf (written C.checksum_of (B.calls blob.old) self) cache.old self.blob_id
            → HoldsPagesOf (written C.checksum_of (B.calls blob.old) self) cache.new self.blob_id }
        ensures others { KeepsOthers cache.old cache.new self.blob_id }
    {
        let alloc = self.alloc;
        let (writer, sealed) = self.snapshot(blob, cache)?;
        Ok((writer, Replay::over(sealed, alloc, buffer_size)))
    }
}

impl<C: Checksum> Writer<C> {
    /// Seals the list as it stands where all of it is durable; None where some of it is not. No call of the blob is
    /// made. It fails only when out of memory. In the Rust: `paged::Writer::try_snapshot`.
    pub fn try_snapshot(&self) -> Result<Option<Sealed<C>>, Error>
        ensures none { IfOk result (λ o. IsNone o
            ↔ (self.now.synced < self.now.tip.offset + length self.now.tip.bytes)) }
        ensures sealed { (calls : List Call) → IsWriter C.checksum_of calls self.now → IfOk result (λ o. IfSome o
            (λ s. IsSealed C.checksum_of calls (written C.checksum_of calls self.now) s.pages s.tail.items)) }
        ensures durable { IfOk result (λ o. IfSome o (λ s. s.pages.len ≤ self.now.synced)) }
        ensures named { IfOk result (λ o. IfSome o (λ s. (s.pages.physical_page_size ≡ self.now.page_size)
            × (s.pages.blob_id ≡ self.now.blob_id))) }
        ensures cause { IfErr result (λ e. e ≡ Error.Memory) }
    {
        if self.needs_sync() {
            return Ok(None);
        }
        let sealed = self.sealed()?;
        Ok(Some(sealed))
    }

    /// Makes durable what was appended, as `sync` does, and seals the list: no more bytes come to it. Refused where the
    /// sync is, and out of memory, the writer is given up.
    /// In the Rust: `paged::Writer::seal`, which answers a handle beside it.
    pub fn seal<B: Blob>(self, blob: &mut B, cache: &mut CacheRef) -> Result<Sealed<C>, Error>
        requires writer { IsWriter C.checksum_of (B.calls blob.old) self }
        requires pages { cache.old.page_size ≡ content_size self.page_size }
        ensures sealed { IfOk result (λ s. IsSealed C.checksum_of (B.calls blob.new)
            (written C.checksum_of (B.calls blob.old) self) s.pages s.tail.items) }
        ensures named { IfOk result (λ s. (s.pages.physical_page_size ≡ self.page_size)
            × (s.pages.blob_id ≡ self.blob_id)) }
        // Whatever a crash leaves then keeps all of the list.
        ensures durable { OnOk result (Keeps C.checksum_of self.page_size
            (written C.checksum_of (B.calls blob.old) self)
            (length (written C.checksum_of (B.calls blob.old) self)) (B.calls blob.new)) }
        // Whatever a crash leaves at any moment of the call keeps what was synced before.
        ensures any_moment { Through (Keeps C.checksum_of self.page_size
            (written C.checksum_of (B.calls blob.old) self) self.synced) (B.calls blob.old) (B.calls blob.new) }
        ensures cause { IfErr result (λ e. IsCause (B.failures blob.old) CallKind.Write 0 e
            ⊎ IsCause (B.failures blob.old) CallKind.Sync 0 e) }
        ensures failures { B.failures blob.new ≡ failures_after result (B.failures blob.old) }
        ensures left { B.left blob.new ≤ B.left blob.old }
        ensures cache { cache.new ≡ record cache.old { pages = cache.new.pages } }
        // The pages that are kept under the writer's name stay those of its content.
        ensures cached { HoldsPagesOf (written C.checksum_of (B.calls blob.old) self) cache.old self.blob_id
            → HoldsPagesOf (written C.checksum_of (B.calls blob.old) self) cache.new self.blob_id }
        ensures others { KeepsOthers cache.old cache.new self.blob_id }
    {
        let (_writer, sealed) = self.snapshot(blob, cache)?;
        Ok(sealed)
    }
}
