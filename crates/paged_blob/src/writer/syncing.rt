//! A writer's syncs that are started and waited for.

ghost use Rattle.std.specs.Prelude.{◌≡◌, ◌+◌, ◌-◌, ◌/◌, ◌%◌, ◌<◌, ◌≤◌, ◌↔◌, List, Ok, Err, length, take};
ghost use Rattle.std.specs.Prelude.{IsTrue, IfOk, IfErr, OnOk, OnErr};
ghost use Rattle.paged_format.specs.Footers.{content_size};
ghost use Rattle.paged_blob_parts.specs.Calls.{Call};
ghost use Rattle.paged_blob_parts.specs.Moments.{Through};
ghost use Rattle.paged_blob_parts.specs.Answers.{failures_after, IsCause, IsPowerOff, RecordsSync};
ghost use Rattle.paged_blob_parts.specs.Caches.{AreGiven};
ghost use Rattle.paged_blob_parts.specs.CachedContent.{HoldsPagesOf, KeepsOthers};
ghost use Rattle.paged_blob_parts.specs.Writers.{written, IsWriter, Keeps};
ghost use Rattle.paged_blob.specs.Syncs.{IsUnderWay, outcome, settled_tip, settled_slot};
ghost use Rattle.paged_blob_parts.specs.declared.error.CallKind.{CallKind};

use super::Writer;
use fault_storage::Checksum;
use paged_blob_parts::flush::last_slot;
use paged_blob_parts::{Blob, CacheRef, Error, StartedSync};

/// A sync of a writer that was started: how many bytes of its list it makes durable, and the blob's sync, which keeps
/// its answer until it is waited for. In the Rust a handle of a task that runs.
#[derive(Debug, Drop)]
pub struct WriterSync {
    size: u64,
    sync: StartedSync,
}

impl WriterSync {
    /// How many bytes of the list it makes durable: as many as there were when it was started (own).
    pub fn size(&self) -> u64
        ensures { result ≡ self.now.size }
    {
        self.size
    }
}

impl<C: Checksum, Phase> Writer<C, Phase> {
    // Whether so many bytes of the list are durable.
    fn has_synced(&self, size: u64) -> bool
        ensures { IsTrue result ↔ (size ≤ self.now.synced) }
    {
        size <= self.synced
    }

    // After a sync of so many bytes of the list: they are durable, and the tip begins behind their whole pages.
    pub(crate) fn settle_first(&mut self, cache: &mut CacheRef, size: u64)
        requires pages { cache.old.page_size ≡ content_size self.old.page_size }
        requires begins { self.old.tip.offset % content_size self.old.page_size ≡ 0 }
        requires some { self.old.tip.offset ≤ size }
        requires within { size ≤ self.old.tip.offset + length self.old.tip.bytes }
        ensures synced { self.new.synced ≡ size }
        ensures slot { self.new.slot ≡ settled_slot C.checksum_of self.old (size - self.old.tip.offset) }
        ensures tip { self.new.tip ≡ settled_tip self.old.page_size (size - self.old.tip.offset) self.old.tip }
        ensures same { (self.new.page_size ≡ self.old.page_size) × (self.new.blob_id ≡ self.old.blob_id) }
        ensures cache { cache.new ≡ record cache.old { pages = cache.new.pages } }
        ensures given { let bytes = take (size - self.old.tip.offset) self.old.tip.bytes in
            AreGiven cache.old.pages cache.new.pages self.old.blob_id (self.old.tip.offset / cache.old.page_size)
            cache.old.page_size bytes (length bytes / cache.old.page_size) }
    {
        let _end = self.tip.end();
        let room = self.page_size - 12;
        let offset = self.tip.offset();
        let count = (size - offset) as usize;
        let (bytes, _) = self.tip.as_bytes().split_at(count);
        let slot = last_slot::<C>(self.page_size, self.slot, bytes);
        let _ = cache.cache(self.blob_id, bytes, offset);
        self.synced = size;
        self.slot = slot;
        self.tip.drain(count / room * room);
    }

    /// Starts a sync of what was appended so far, and gives it beside the writer: it covers these bytes and no later
    /// ones, and its answer is told of when it is waited for (`wait_for_sync`). Until then nothing more counts as
    /// durable (`needs_sync`), the list takes bytes into memory alone (`try_append`), since a flush might write the
    /// slot that the sync makes durable, and it is read by its `view`. Where all is durable, no call of the blob is
    /// made. Refused where a write is, the writer is given up. In the Rust: `paged::Writer::start_sync`.
    pub fn start_sync<B: Blob>(self, blob: &mut B) -> Result<(Self, WriterSync), Error>
        requires writer { IsWriter C.checksum_of (B.calls blob.old) self }
        ensures same { IfOk result (λ r. r.0 ≡ self) }
        ensures size { IfOk result (λ r. r.1.size ≡ length (written C.checksum_of (B.calls blob.old) self)) }
        ensures under_way { IfOk result (λ r. IsUnderWay C.checksum_of (B.calls blob.new) r.0 r.1) }
        ensures content { IfOk result (λ r. written C.checksum_of (B.calls blob.new) r.0
            ≡ written C.checksum_of (B.calls blob.old) self) }
        // It is a sync of the blob after the calls that flush the list.
        ensures recorded { IfOk result (λ r. self.synced < self.tip.offset + length self.tip.bytes
            → (flushed : List Call) × RecordsSync r.1.sync.answer flushed (B.calls blob.new)) }
        // Whatever a crash leaves at any moment of the call, and until it is waited for, keeps what was synced before.
        ensures any_moment { Through (Keeps C.checksum_of self.page_size
            (written C.checksum_of (B.calls blob.old) self) self.synced) (B.calls blob.old) (B.calls blob.new) }
        ensures cause { IfErr result (IsCause (B.failures blob.old) CallKind.Write 0) }
        ensures refused { IfOk result (λ r. IfErr r.1.sync.answer (IsCause (B.failures blob.old) CallKind.Sync 0)) }
        ensures failures { B.failures blob.new ≡ failures_after (outcome result) (B.failures blob.old) }
        ensures left { B.left blob.new ≤ B.left blob.old }
        // No call is made where all is durable, and none goes through under a cut.
        ensures idle { self.tip.offset + length self.tip.bytes ≤ self.synced
            → (outcome result ≡ Ok tt) × (blob.new ≡ blob.old) }
        ensures powered { OnOk (outcome result) (self.synced < self.tip.offset + length self.tip.bytes
            → IsPowerOff (B.failures blob.old) (B.left blob.old) → ⊥) }
    {
        let size = self.size();
        if !self.needs_sync() {
            let sync = StartedSync::new(Ok(()));
            return Ok((self, WriterSync { size, sync }));
        }
        self.flush_tip(blob)?;
        let sync = blob.start_sync();
        Ok((self, WriterSync { size, sync }))
    }

    /// Waits for a sync that was started: what it covers is durable then, and what came into memory since is not. It
    /// makes no call of the blob. Refused where the sync was, the writer is given up, as after a `sync` that is
    /// refused.
    /// In the Rust: `paged::Writer::wait_for_sync`.
    pub fn wait_for_sync<B: Blob>(
        mut self,
        _blob: &B,
        cache: &mut CacheRef,
        started: WriterSync,
    ) -> Result<Self, Error>
        requires under_way { IsUnderWay C.checksum_of (B.calls _blob.now) self started }
        requires pages { cache.old.page_size ≡ content_size self.page_size }
        ensures waited { OnOk result (started.sync.answer ≡ Ok tt) }
        ensures refused { IfErr result (λ e. started.sync.answer ≡ Err e) }
        ensures writer { IfOk result (λ w. IsWriter C.checksum_of (B.calls _blob.now) w) }
        ensures content { IfOk result (λ w. written C.checksum_of (B.calls _blob.now) w
            ≡ written C.checksum_of (B.calls _blob.now) self) }
        ensures synced { IfOk result (λ w. w.synced ≡ started.size) }
        ensures same { IfOk result (λ w. (w.page_size ≡ self.page_size) × (w.blob_id ≡ self.blob_id)
            × (w.tip.capacity ≡ self.tip.capacity)) }
        ensures cache { cache.new ≡ record cache.old { pages = cache.new.pages } }
        ensures uncached { OnErr result (cache.new ≡ cache.old) }
        // The pages that are kept under the writer's name stay those of its content.
        ensures cached { HoldsPagesOf (written C.checksum_of (B.calls _blob.now) self) cache.old self.blob_id
            → HoldsPagesOf (written C.checksum_of (B.calls _blob.now) self) cache.new self.blob_id }
        ensures others { KeepsOthers cache.old cache.new self.blob_id }
    {
        let WriterSync { size, sync } = started;
        sync.finish()?;
        if self.has_synced(size) {
            return Ok(self);
        }
        self.settle_first(cache, size);
        Ok(self)
    }
}
