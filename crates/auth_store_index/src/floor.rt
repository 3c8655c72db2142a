//! The floor of the next commit, told by the bits that are kept and by those that come, some of them cleared: none is
//! changed before the floor is known, since the commit records it.
//!
//!     bits      0 0 1 1 0 1 . .        from the old floor on, 2
//!     more                  1 1
//!     cleared       2 3   5
//!     left      0 0 0 0 0 0 1 1        the floor is 6

ghost use Rattle.std.specs.Prelude.{◌≡◌, ◌+◌, ◌<◌, ◌≤◌, ◌^◌, ◌++◌, ℕ, Bool, List, Some, drop, length, slice_get, IfOk};
ghost use Rattle.auth_store_index.specs.Growth.{cleared, first_set};
ghost use Rattle.auth_store_index.specs.PlacesCode.{IsSetOf};

use std::alloc::{AllocError, Global};
use std::collections::BTreeSet;

/// Bits that are read by their places; the first of them may not be kept any more (own).
pub trait ReadableBits {
    /// All bits, those that aren't kept too.
    ghost bits: { Self → List Bool };

    /// The place from which on they are kept.
    ghost kept_from: { Self → ℕ };

    /// How many bits there are, with those that aren't kept.
    fn len(&self) -> u64
        ensures { result ≡ length (bits self.now) };

    /// Whether the bit at a place is set, which is there and kept.
    fn bit(&self, at: u64) -> bool
        requires kept { kept_from self.now ≤ at }
        requires there { at < length (bits self.now) }
        ensures { slice_get (bits self.now) at ≡ Some result };
}

/// Bits of which all are kept, as a list (own).
#[derive(Clone, Copy, Debug)]
pub struct ListedBits<'a> {
    /// The bits, the first one first.
    pub bits: &'a [bool],
}

impl<'a> ReadableBits for ListedBits<'a> {
    ghost bits = { λ list. list.bits.now };

    ghost kept_from = { λ list. 0 };

    fn len(&self) -> u64 {
        self.bits.len() as u64
    }

    fn bit(&self, at: u64) -> bool {
        self.bits[at as usize]
    }
}

/// The places, each once. It fails only when out of memory.
fn set_of(alloc: Global, places: &[usize]) -> Result<BTreeSet<usize>, AllocError>
    ensures { IfOk result (λ set. IsSetOf set places.now) }
{
    let mut set = BTreeSet::new(alloc);
    for place in places {
        set.insert(*place)?;
    }
    Ok(set)
}

/// Whether the bit at a place is set, of bits or of those that come behind them.
fn is_set<B: ReadableBits>(bits: &B, more: &[bool], at: u64) -> bool
    requires kept { B.kept_from bits.now ≤ at }
    requires there { at < length (B.bits bits.now) + length more.now }
    ensures { slice_get (B.bits bits.now ++ more.now) at ≡ Some result }
{
    let count = bits.len();
    if at < count {
        return bits.bit(at);
    }
    more[(at - count) as usize]
}

/// Whether the bit at a place is set after those at the places of a set are cleared.
fn is_left<B: ReadableBits>(bits: &B, more: &[bool], set: &BTreeSet<usize>, at: u64) -> bool
    requires kept { B.kept_from bits.now ≤ at }
    requires there { at < length (B.bits bits.now) + length more.now }
    ensures { (places : List ℕ) → IsSetOf set.now places
        → slice_get (cleared (B.bits bits.now ++ more.now) places) at ≡ Some result }
{
    is_set(bits, more, at) && !set.contains(&(at as usize))
}

/// The place of the first bit that is set, from `start` on, of bits with those that come behind them, where those at
/// the places are cleared; where none is set, the number of all of them, or `start` where that is greater. It looks at
/// none before `start`, and at none behind the one that it finds. It fails only when out of memory (own).
pub fn first_set_from<B: ReadableBits>(
    alloc: Global,
    bits: &B,
    more: &[bool],
    places: &[usize],
    start: u64,
) -> Result<u64, AllocError>
    requires few { length (B.bits bits.now) + length more.now < 2 ^ 64 }
    requires kept { B.kept_from bits.now ≤ start }
    ensures { IfOk result (λ floor. floor
        ≡ start + first_set (drop start (cleared (B.bits bits.now ++ more.now) places.now))) }
{
    let set = set_of(alloc, places)?;
    let count = bits.len() + more.len() as u64;
    let mut at = start;
    while at < count {
        if is_left(bits, more, &set, at) {
            return Ok(at);
        }
        at += 1;
    }
    Ok(at)
}
