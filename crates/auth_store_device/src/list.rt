//! A list of calls, in blocks of a fixed room: those that are full, and behind them the one to which the next call
//! comes.

ghost use Rattle.std.specs.Prelude.{◌≡◌, ◌<◌, ◌≤◌, ◌++◌, ◌∷◌, [], true, length, get_or, OnOk, OnErr};
ghost use Rattle.std.specs.Vec.{vec_capacity};
ghost use Rattle.auth_store_device.specs.Listings.{block_calls};

use crate::kept::Kept;
use std::alloc::{AllocError, Global};
use std::marker::Model;
use std::mem;

// How many calls a block has room for.
const BLOCK_CALLS: usize = 512;

/// A list of calls: they lie in blocks, to the last of which the next ones come. A block keeps the room that it was
/// made with, so that no call is moved once it is in the list (own).
#[derive(Debug, Drop)]
pub(crate) struct CallList {
    alloc: Global,
    full: Vec<Vec<Kept>>,
    last: Vec<Kept>,
    count: usize,
}

impl Model for CallList {
    ghost use Rattle.std.specs.Prelude.{◌≡◌, ◌≤◌, ◌&&◌, nat_lt, length};
    ghost use Rattle.std.specs.Vec.{vec_len, vec_capacity};
    ghost use Rattle.auth_store_device.specs.Listings.{Listing, AreFull, block_calls, calls_in, most_calls};

    ghost Value = { Listing };

    ghost view = { λ it. record {
      items = calls_in it.full.items it.last.items;
      has_place = nat_lt (vec_len it.last) block_calls && (nat_lt (vec_len it.last) (vec_capacity it.last)
          && nat_lt it.count most_calls);
    } };

    ghost invariant = { λ it. AreFull it.full.items × (length it.last.items ≤ block_calls)
        × (it.count ≡ length (calls_in it.full.items it.last.items)) };
}

// Puts the last block behind the full ones, and begins one. It fails only when out of memory, and then nothing is
// changed.
fn begin_block(
    alloc: Global,
    full: &mut Vec<Vec<Kept>>,
    last: &mut Vec<Kept>,
) -> Result<(), AllocError>
    ensures ok { OnOk result ((full.new.items ≡ full.old.items ++ last.old ∷ []) × (last.new.items ≡ [])
        × (block_calls ≤ vec_capacity last.new)) }
    ensures err { OnErr result ((full.new.items ≡ full.old.items) × (last.new ≡ last.old)) }
{
    full.reserve(1)?;
    let block = Vec::with_capacity(alloc, BLOCK_CALLS)?;
    let _ = full.push(mem::replace(last, block));
    Ok(())
}

impl CallList {
    /// A list of no calls.
    pub(crate) fn new(alloc: Global) -> CallList
        ensures { result.items ≡ [] }
    {
        CallList {
            alloc,
            full: Vec::new(alloc),
            last: Vec::new(alloc),
            count: 0,
        }
    }

    /// Makes room for one more call. It fails only when out of memory, as where a number could not tell how many calls
    /// there are: no memory has room for so many.
    pub(crate) fn make_place(&mut self) -> Result<(), AllocError>
        ensures items { self.new.items ≡ self.old.items }
        ensures place { OnOk result (self.new.has_place ≡ true) }
    {
        if self.count == usize::MAX {
            return Err(AllocError);
        }
        if self.last.len() == BLOCK_CALLS {
            return begin_block(self.alloc, &mut self.full, &mut self.last);
        }
        // Only the first block ever has less room than all its calls need, and that before it has a call.
        self.last.reserve(BLOCK_CALLS - self.last.len())
    }

    /// Puts a call behind the others. There is room for it.
    pub(crate) fn push(&mut self, kept: Kept)
        requires { self.old.has_place ≡ true }
        ensures { self.new.items ≡ self.old.items ++ kept ∷ [] }
    {
        let _ = self.last.push(kept);
        self.count += 1;
    }

    /// How many calls it has.
    pub(crate) fn len(&self) -> usize
        ensures { result ≡ length self.now.items }
    {
        self.count
    }

    /// The call at a place, of which the oldest comes first.
    pub(crate) fn get(&self, place: usize) -> Kept
        requires { place < length self.now.items }
        ensures { (d : Kept) → result ≡ get_or self.now.items place d }
    {
        let block = place / BLOCK_CALLS;
        if block < self.full.len() {
            self.full[block][place % BLOCK_CALLS]
        } else {
            self.last[place % BLOCK_CALLS]
        }
    }
}
