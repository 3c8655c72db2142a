//! The record of the calls of a device.
//!
//! Of a write all bytes are kept. An opening is kept with two images, that with which the file began before it and that
//! which it showed, which may be one; of a sync an image is kept only where a call failed, since else it makes durable
//! what the calls before it make of the file:
//!
//! ```text
//!   calls     a sync     a write    an opening          a write    a sync    an opening
//!   bytes                block 0                        block 0
//!   images    image 0               image 0, image 1                         image 2, twice
//! ```

ghost use Rattle.std.specs.Prelude.{◌≡◌, ◌+◌, ◌-◌, ◌<◌, ◌≤◌, ◌∷◌, [], true, false, reverse};
ghost use Rattle.std.specs.Prelude.{ℕ, List, length, take, drop, get_or, IfOk, OnOk};
ghost use Rattle.paged_blob_parts.specs.Calls.{Call, opened, wrote, resized_to, synced, content, file_of};
ghost use Rattle.paged_blob_parts.specs.Images.{IsImage};

use crate::base::Base;
use crate::blocks::Blocks;
use crate::kept::{Entry, Kept, entry_of};
use crate::list::CallList;
use crate::touched::Touched;
use std::alloc::{AllocError, Global};
use std::marker::Model;

/// A record of calls, which has room for the next one before that is made (own).
#[derive(Debug, Drop)]
pub(crate) struct Record {
    calls: CallList,
    blocks: Blocks,
    base: Base,
    /// The image that was made ready last.
    ready: usize,
}

impl Model for Record {
    ghost use Rattle.std.specs.Prelude.{◌<◌, [], ◌==◌, length, get_or};
    ghost use Rattle.auth_store_device.specs.Records.{Recording};
    ghost use Rattle.auth_store_device.specs.RecordsCode.{calls_in, AreWithin, IsBase};

    ghost Value = { Recording };

    ghost view = { λ it. record {
      in_order = calls_in it.blocks [] it.calls.items;
      has_place = it.calls.has_place;
      room = it.blocks.room;
      has_base = it.base.image_at == it.base.base_at;
      ready = get_or it.blocks.images it.ready [];
    } };

    ghost invariant = { λ it. AreWithin it.blocks [] it.calls.items
        × IsBase it.blocks (calls_in it.blocks [] it.calls.items) it.base
        × (it.ready < length it.blocks.images) };
}

impl Record {
    ghost use Rattle.auth_store_device.specs.Records.{HasRoom, calls_of};
    ghost use Rattle.auth_store_device.specs.RecordsCode.{call_of, HasBase};

    /// A record of one sync, which made these bytes durable. It fails only when out of memory.
    pub(crate) fn of(alloc: Global, bytes: Vec<u8>) -> Result<Record, AllocError>
        ensures { IfOk result (λ record_kept. calls_of record_kept ≡ synced bytes.items true ∷ []) }
    {
        let blocks = Blocks::of(alloc, bytes)?;
        let mut calls = CallList::new(alloc);
        calls.make_place()?;
        calls.push(Kept::SyncedAs(0));
        Ok(Record {
            calls,
            blocks,
            base: Base {
                image: 0,
                image_at: 1,
                base_at: 1,
                file: Vec::new(alloc),
                file_at: 0,
                has_failed: false,
                touched: Touched::none(),
            },
            ready: 0,
        })
    }

    /// Makes room for one more call, and for so many bytes of it. It fails only when out of memory.
    pub(crate) fn make_room(&mut self, count: usize) -> Result<(), AllocError>
        ensures calls { self.new.in_order ≡ self.old.in_order }
        ensures room { OnOk result (HasRoom count self.new) }
    {
        self.calls.make_place()?;
        self.blocks.make_room(count)
    }

    /// Makes ready for a sync of these bytes: there is then a place for it, and where a call failed since the base the
    /// bytes are an image. It fails only when out of memory.
    pub(crate) fn make_ready_to_sync(&mut self, bytes: &[u8]) -> Result<(), AllocError>
        ensures calls { self.new.in_order ≡ self.old.in_order }
        ensures place { OnOk result (self.new.has_place ≡ true) }
        ensures ready { OnOk result ((file_of (calls_of self.old)).failed ≡ true → self.new.ready ≡ bytes.now) }
    {
        self.calls.make_place()?;
        self.base.bring_file(&self.calls, &self.blocks)?;
        if self.base.has_failed {
            self.ready = self
                .blocks
                .put_image(bytes, self.ready, self.base.image, Touched::all())?;
        }
        Ok(())
    }

    // Makes an image of the base. It fails only when out of memory.
    fn put_base(&mut self) -> Result<(), AllocError>
        ensures calls { self.new.in_order ≡ self.old.in_order }
        ensures place { self.new.has_place ≡ self.old.has_place }
        ensures base { OnOk result (self.new.has_base ≡ true) }
    {
        if self.base.image_at == self.base.base_at {
            return Ok(());
        }
        self.base.bring_file(&self.calls, &self.blocks)?;
        self.base.image = self.blocks.put_image(
            &self.base.file,
            self.base.image,
            self.base.image,
            self.base.touched,
        )?;
        self.base.image_at = self.base.base_at;
        Ok(())
    }

    /// Makes ready for an opening that shows these bytes, which a crash may leave: there is then a place for it, and
    /// they and the base are images. It fails only when out of memory.
    pub(crate) fn make_ready_to_open(&mut self, shown: &[u8]) -> Result<(), AllocError>
        requires { IsImage (file_of (calls_of self.old)) shown.now }
        ensures calls { self.new.in_order ≡ self.old.in_order }
        ensures place { OnOk result (self.new.has_place ≡ true) }
        ensures base { OnOk result (self.new.has_base ≡ true) }
        ensures ready { OnOk result (self.new.ready ≡ shown.now) }
    {
        self.calls.make_place()?;
        self.put_base()?;
        if self.base.base_at == self.calls.len() {
            self.ready = self.base.image;
            return Ok(());
        }
        self.ready = self
            .blocks
            .put_image(shown, self.ready, self.base.image, self.base.touched)?;
        Ok(())
    }

    /// Notes an opening, which showed the image that was made ready. There is a place for it.
    pub(crate) fn note_opening(&mut self)
        requires place { self.old.has_place ≡ true }
        requires base { self.old.has_base ≡ true }
        ensures { calls_of self.new ≡ opened self.old.ready ∷ calls_of self.old }
    {
        self.calls.push(Kept::Opened(self.base.image, self.ready));
        self.base.begin(self.ready, self.calls.len());
    }

    /// Notes a write. There is room for it.
    pub(crate) fn note_write(&mut self, offset: u64, bytes: &[u8], is_sync: bool, is_made: bool)
        requires { HasRoom (length bytes.now) self.old }
        ensures { calls_of self.new ≡ wrote offset bytes.now is_sync is_made ∷ calls_of self.old }
    {
        let part = self.blocks.put(bytes);
        self.calls.push(Kept::Wrote(offset, part, is_sync, is_made));
        let end = offset.saturating_add(bytes.len() as u64);
        self.base.change(offset, end, is_made);
    }

    /// Notes a resize. There is a place for it.
    pub(crate) fn note_resize(&mut self, len: u64, is_made: bool)
        requires { self.old.has_place ≡ true }
        ensures { calls_of self.new ≡ resized_to len is_made ∷ calls_of self.old }
    {
        self.calls.push(Kept::ResizedTo(len, is_made));
        self.base.change(len, u64::MAX, is_made);
    }

    /// Notes a sync, which made durable what the calls make of the file, or where one failed since the base the image
    /// that was made ready. There is a place for it.
    pub(crate) fn note_sync(&mut self)
        requires { self.old.has_place ≡ true }
        ensures whole { (file_of (calls_of self.old)).failed ≡ false
            → calls_of self.new ≡ synced (content (calls_of self.old)) true ∷ calls_of self.old }
        ensures failed { (file_of (calls_of self.old)).failed ≡ true
            → calls_of self.new ≡ synced self.old.ready true ∷ calls_of self.old }
    {
        if self.base.has_failed {
            self.calls.push(Kept::SyncedAs(self.ready));
            self.base.begin(self.ready, self.calls.len());
        } else {
            self.calls.push(Kept::SyncedWhole);
            self.base.base_at = self.calls.len();
        }
    }

    /// Notes a sync that failed. There is a place for it.
    pub(crate) fn note_failed_sync(&mut self)
        requires { self.old.has_place ≡ true }
        ensures { calls_of self.new ≡ synced [] false ∷ calls_of self.old }
    {
        self.calls.push(Kept::SyncFailed);
    }

    /// How many calls it has.
    pub(crate) fn len(&self) -> usize
        ensures { result ≡ length self.now.in_order }
    {
        self.calls.len()
    }

    /// The call at a place, of which the oldest comes first.
    pub(crate) fn entry(&self, place: usize) -> Entry<'_>
        requires { place < length self.now.in_order }
        ensures call { (d : Call) → (bytes : List ℕ) × (call_of bytes result ≡ get_or self.now.in_order place d) }
        ensures base { HasBase (reverse (take place self.now.in_order)) result }
    {
        entry_of(&self.blocks, self.calls.get(place))
    }

    /// So many of the first calls.
    pub(crate) fn first(&self, count: usize) -> Calls<'_>
        requires { count ≤ length self.now.in_order }
        ensures { result ≡ take count self.now.in_order }
    {
        Calls {
            record_kept: self,
            from: 0,
            to: count,
        }
    }
}

/// Calls of a record, one behind the other, the oldest first (own).
#[derive(Debug, Drop)]
pub(crate) struct Calls<'a> {
    record_kept: &'a Record,
    from: usize,
    to: usize,
}

impl<'a> Model for Calls<'a> {
    ghost use Rattle.std.specs.Prelude.{◌≤◌, ◌-◌, List, length, take, drop};
    ghost use Rattle.paged_blob_parts.specs.Calls.{Call};

    ghost Value = { List Call };

    ghost view = { λ it. take (it.to - it.from) (drop it.from it.record_kept.now.in_order) };

    ghost invariant = { λ it. (it.from ≤ it.to) × (it.to ≤ length it.record_kept.now.in_order) };
}

impl<'a> Calls<'a> {
    ghost use Rattle.auth_store_device.specs.RecordsCode.{call_of};

    /// How many there are.
    pub(crate) fn len(&self) -> usize
        ensures { result ≡ length self.now }
    {
        self.to - self.from
    }

    /// The one at a place.
    pub(crate) fn entry(&self, place: usize) -> Entry<'a>
        requires { place < length self.now }
        ensures { (d : Call) → (bytes : List ℕ) × (call_of bytes result ≡ get_or self.now place d) }
    {
        prove!(place < self.to - self.from);
        self.record_kept.entry(self.from + place)
    }

    /// Those behind so many of the first.
    pub(crate) fn behind(&self, count: usize) -> Calls<'a>
        requires { count ≤ length self.now }
        ensures { result ≡ drop count self.now }
    {
        Calls {
            record_kept: self.record_kept,
            from: self.from + count,
            to: self.to,
        }
    }
}
