//! The bytes with which the file of a record began last: its base.
//!
//! They are not copied for each sync. Where nothing failed, a sync makes durable what the calls before it make of the
//! file, so that it is enough to know after how many calls the file began:
//!
//! ```text
//!   calls    0 ........ image_at ......... file_at ......... base_at ......... all
//!                       the last of them   a file to which   here the file
//!                       that is an image   calls are made,   began last
//!                                          up to here
//! ```

ghost use Rattle.std.specs.Prelude.{◌≡◌, ◌⊎◌, ◌-◌, ◌<◌, ◌≤◌, ◌^◌, ◌||◌, not, [], false, ℕ, OnOk};
ghost use Rattle.auth_store_device.specs.Touches.{IsOutside};
ghost use Rattle.auth_store_device.specs.RecordsCode.{calls_in, AreWithin, IsBase};

use crate::blocks::Blocks;
use crate::kept::make_call;
use crate::list::CallList;
use crate::touched::Touched;
use std::alloc::AllocError;

/// What is known of the base of a record's calls.
#[derive(Debug, Drop)]
pub(crate) struct Base {
    /// The last base that is an image.
    pub(crate) image: usize,
    /// Of how many calls it is the base.
    pub(crate) image_at: usize,
    /// Of how many calls the base of all is the base.
    pub(crate) base_at: usize,
    /// What some of the first calls make of the file, whole.
    pub(crate) file: Vec<u8>,
    /// How many these are.
    pub(crate) file_at: usize,
    /// Whether a write or a resize has failed since the base.
    pub(crate) has_failed: bool,
    /// Where bytes may be others than those of the image.
    pub(crate) touched: Touched,
}

impl Base {
    /// The base of so many calls, the last of which began the file with this image.
    pub(crate) fn begin(&mut self, image: usize, count: usize)
        ensures base { self.new ≡ record self.old {
          image = image;
          image_at = count;
          base_at = count;
          has_failed = false;
          touched = self.new.touched;
        } }
        ensures touched { (i : ℕ) → IsOutside self.new.touched i }
    {
        self.image = image;
        self.image_at = count;
        self.base_at = count;
        self.has_failed = false;
        self.touched = Touched::none();
    }

    /// The base where a call comes behind the others that may change the bytes from a place on, up to another.
    pub(crate) fn change(&mut self, from: u64, to: u64, is_made: bool)
        ensures base { self.new ≡ record self.old {
          has_failed = self.old.has_failed || not is_made;
          touched = self.new.touched;
        } }
        ensures touched { (i : ℕ) → IsOutside self.new.touched i → IsOutside self.old.touched i
            × ((i < from) ⊎ ((to ≤ i) × (to < 2 ^ 64 - 1))) }
    {
        self.has_failed |= !is_made;
        self.touched.widen(from, to);
    }

    /// Makes the base of its file, by these calls. It fails only when out of memory; the file is then that of fewer
    /// calls.
    pub(crate) fn bring_file(&mut self, calls: &CallList, blocks: &Blocks) -> Result<(), AllocError>
        requires within { AreWithin blocks.now [] calls.now.items }
        requires base { IsBase blocks.now (calls_in blocks.now [] calls.now.items) self.old }
        ensures base { IsBase blocks.now (calls_in blocks.now [] calls.now.items) self.new }
        ensures brought { OnOk result (self.new.file_at ≡ self.new.base_at) }
        ensures same { self.new ≡ record self.old { file = self.new.file; file_at = self.new.file_at } }
    {
        if self.file_at < self.image_at {
            self.file = blocks.copy(self.image)?;
            self.file_at = self.image_at;
        }
        while self.file_at < self.base_at {
            make_call(&mut self.file, blocks, calls.get(self.file_at))?;
            self.file_at += 1;
        }
        Ok(())
    }
}
