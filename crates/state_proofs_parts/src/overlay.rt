//! Changes laid over a list of bits, which are kept or given up as one.
//!
//! The list itself is changed, so that none is copied, and what it takes to have it back is remembered: how many of the
//! bits are the list's, since new ones stand behind them, and which of those were set and are cleared. Of the list
//! 000111, with the new bits 0 1 1, after 3, 4 and 5 are cleared:
//!
//! ```text
//!    place          0 1 2   3 4 5   6 7 8
//!    the list       0 0 0   1 1 1
//!    as changed     0 0 0   0 0 0   0 1 1
//!    remembered             3 4 5             and that 6 bits are the list's
//! ```
//!
//! To keep the changes is to forget what is remembered; to give them up is to take the last three bits away, and to set
//! the bits at 3, 4 and 5 again. Neither takes memory.

ghost use Rattle.std.specs.Prelude.{◌≡◌, ◌<◌, ◌≤◌, ◌+◌, ◌-◌, ◌*◌, ◌^◌, ◌++◌, [], ◌∷◌, false, length};
ghost use Rattle.std.specs.Prelude.{slice_set, slice_index_or, take, if◌then◌else◌, IfOk, IfErr, OnOk, OnErr};
ghost use Rattle.std.specs.List.{AllByRecursion};
ghost use Rattle.state_theory.specs.Bits.{all_bits, bit_count, chunk_at, cleared};
ghost use Rattle.state_theory.specs.Overlay.{remembered, set_again, unchanged};

use crate::bitmap::BitmapReadable;
use crate::prunable::Prunable;
use std::alloc::AllocError;
use std::marker::Model;

// Takes so many of the last bits away.
fn pop_bits<const N: usize>(bits: &mut Prunable<N>, count: u64)
    requires { count ≤ length bits.old.kept }
    ensures { bits.new ≡ record bits.old { kept = take (length bits.old.kept - count) bits.old.kept } }
{
    for _ in 0..count {
        bits.pop();
    }
}

// Sets the bits at these places.
fn set_bits<const N: usize>(bits: &mut Prunable<N>, places: &[u64])
    requires { AllByRecursion (λ at. (8 * N * bits.old.pruned ≤ at) × (at < bit_count N bits.old)) places.now }
    ensures { bits.new ≡ record bits.old { kept = set_again (8 * N * bits.old.pruned) bits.old.kept places.now } }
{
    for place in places {
        bits.set_bit(*place, true);
    }
}

// Remembers a place whose bit is cleared, where it is one of the list.
fn remember(places: &mut Vec<u64>, bit: u64, is_listed: bool) -> Result<(), AllocError>
    ensures items { OnOk result (places.new.items
        ≡ (if is_listed then places.old.items ++ bit ∷ [] else places.old.items)) }
    ensures unchanged { OnErr result (places.new.items ≡ places.old.items) }
{
    if is_listed {
        places.push(bit)?;
    }
    Ok(())
}

/// Changes laid over a list of bits: bits appended behind it, and bits of it cleared. They are kept or given up as one,
/// which takes no memory. Contracts see the list as it was, the list as changed, and the places of the bits of it that
/// were set and are cleared (own).
#[derive(Debug, Drop)]
pub struct BitOverlay<const N: usize> {
    bits: Prunable<N>,
    listed: u64,
    cleared: Vec<u64>,
}

impl<const N: usize> Model for BitOverlay<N> {
    ghost use Rattle.state_theory.specs.Overlay.{Overlay, IsLaid, base_of};

    ghost Value = { Overlay };

    ghost view = { λ o. record {
      base = base_of N o.bits o.listed o.cleared.items;
      after = o.bits;
      cleared = o.cleared.items;
    } };

    ghost invariant = { λ o. IsLaid N o.bits o.listed o.cleared.items };
}

impl<const N: usize> BitOverlay<N> {
    /// No changes of this list yet, for which it takes no memory (own).
    pub fn new(bits: Prunable<N>) -> BitOverlay<N>
        ensures { result ≡ unchanged bits.entry }
    {
        BitOverlay {
            listed: bits.kept_bits(),
            cleared: Vec::new(bits.allocator()),
            bits,
        }
    }

    /// How many bits there are after the changes, with those that are pruned (own).
    pub fn len(&self) -> u64
        ensures { result ≡ bit_count N self.now.after }
    {
        self.bits.len()
    }

    /// How many bits are pruned: of the list, and after the changes (own).
    pub fn pruned_bits(&self) -> u64
        ensures pruned { result ≡ 8 * N * self.now.after.pruned }
        ensures of_list { self.now.base.pruned ≡ self.now.after.pruned }
        ensures within { result ≤ bit_count N self.now.base }
    {
        self.bits.pruned_bits()
    }

    /// Whether a bit that is there after the changes, and not pruned, is set then (own).
    pub fn get_bit(&self, bit: u64) -> bool
        requires kept { 8 * N * self.now.after.pruned ≤ bit }
        requires there { bit < bit_count N self.now.after }
        ensures { result ≡ slice_index_or self.now.after.kept (bit - 8 * N * self.now.after.pruned) false }
    {
        self.bits.get_bit(bit)
    }

    /// How many bits are appended to the list (own).
    pub fn added(&self) -> u64
        ensures added { result ≡ length self.now.after.kept - length self.now.base.kept }
        ensures all { bit_count N self.now.base + result ≡ bit_count N self.now.after }
    {
        self.bits.kept_bits() - self.listed
    }

    /// How many bits of the list were set and are cleared (own).
    pub fn cleared(&self) -> usize
        ensures { result ≡ length self.now.cleared }
    {
        self.cleared.len()
    }

    /// The bytes of a chunk after the changes, of which there are bits, and that is not pruned: zeros stand for the
    /// bits that are not there (own).
    pub fn chunk_bytes(&self, chunk: u64) -> &[u8]
        requires kept { self.now.after.pruned ≤ chunk }
        requires there { 8 * N * (chunk - self.now.after.pruned) < length self.now.after.kept }
        ensures { result.now ≡ chunk_at N self.now.after.kept (chunk - self.now.after.pruned) }
    {
        self.bits.get_chunk(chunk)
    }

    /// Finds room for so many more bits, and fails only when out of memory. The changes stay as they were; that a push
    /// then takes no memory, contracts do not say, since they do not see what room there is (own).
    pub fn reserve(&mut self, bits: usize) -> Result<(), AllocError>
        ensures { self.new ≡ self.old }
    {
        self.bits.reserve(bits)
    }

    /// Appends a bit. It fails only when out of memory; the changes then stay as they were (own).
    pub fn push(&mut self, bit: bool) -> Result<(), AllocError>
        requires { bit_count N self.old.after < 2 ^ 62 }
        ensures pushed { OnOk result (self.new ≡ record self.old {
          after = record self.old.after { kept = self.old.after.kept ++ bit ∷ [] };
        }) }
        ensures unchanged { OnErr result (self.new ≡ self.old) }
    {
        self.bits.push(bit)
    }

    /// Clears a bit that is there after the changes, and not pruned. One of the list that is set is remembered, any
    /// other is not. It fails only when out of memory; the changes then stay as they were (own).
    pub fn clear(&mut self, bit: u64) -> Result<(), AllocError>
        requires kept { 8 * N * self.old.after.pruned ≤ bit }
        requires there { bit < bit_count N self.old.after }
        ensures base { self.new.base ≡ self.old.base }
        ensures after { OnOk result (self.new.after ≡ record self.old.after {
          kept = slice_set self.old.after.kept (bit - 8 * N * self.old.after.pruned) false;
        }) }
        ensures cleared { OnOk result (self.new.cleared ≡ remembered N self.old bit) }
        ensures unchanged { OnErr result (self.new ≡ self.old) }
    {
        if !self.bits.get_bit(bit) {
            return Ok(());
        }
        let is_listed = bit - self.bits.pruned_bits() < self.listed;
        remember(&mut self.cleared, bit, is_listed)?;
        self.bits.set_bit(bit, false);
        Ok(())
    }

    /// The list as changed: the changes are kept (own).
    pub fn apply(self) -> Prunable<N>
        ensures { result ≡ self.entry.after }
    {
        let BitOverlay { bits, .. } = self;
        bits
    }

    /// The list as it was: the changes are given up (own).
    pub fn cancel(self) -> Prunable<N>
        ensures { result ≡ self.entry.base }
    {
        let added = self.bits.kept_bits() - self.listed;
        let mut bits = self.bits;
        pop_bits(&mut bits, added);
        set_bits(&mut bits, &self.cleared);
        bits
    }
}

/// The bits after the changes, of which those that are pruned are said to be clear.
impl<const N: usize> BitmapReadable<N> for BitOverlay<N> {
    ghost use Rattle.state_theory.specs.Bits.{all_bits};
    ghost use Rattle.state_theory.specs.Laws.Bits.{pruned_in_all};

    ghost bits = { λ overlay. all_bits N overlay.after };

    ghost pruned = { λ overlay. overlay.after.pruned };

    fn len(&self) -> u64 {
        BitmapReadable::len(&self.bits)
    }

    fn pruned_chunks(&self) -> u64 {
        BitmapReadable::pruned_chunks(&self.bits)
    }

    fn get_chunk(&self, index: u64) -> [u8; N] {
        BitmapReadable::get_chunk(&self.bits, index)
    }

    ghost pruned_within = { λ overlay. pruned_in_all N overlay.after };
}

// Appends bits.
fn push_bits<const N: usize>(overlay: &mut BitOverlay<N>, more: &[bool]) -> Result<(), AllocError>
    requires { bit_count N overlay.old.after + length more.now ≤ 2 ^ 62 }
    ensures base { overlay.new.base ≡ overlay.old.base }
    ensures pushed { OnOk result (overlay.new ≡ record overlay.old {
      after = record overlay.old.after { kept = overlay.old.after.kept ++ more.now };
    }) }
{
    overlay.reserve(more.len())?;
    for bit in more {
        overlay.push(*bit)?;
    }
    Ok(())
}

// Clears the bits at these places, one after the other.
fn clear_bits<const N: usize>(overlay: &mut BitOverlay<N>, places: &[u64]) -> Result<(), AllocError>
    requires { AllByRecursion (λ at. (8 * N * overlay.old.after.pruned ≤ at)
        × (at < bit_count N overlay.old.after)) places.now }
    ensures base { overlay.new.base ≡ overlay.old.base }
    ensures pruned { OnOk result (overlay.new.after.pruned ≡ overlay.old.after.pruned) }
    ensures all { OnOk result (all_bits N overlay.new.after ≡ cleared (all_bits N overlay.old.after) places.now) }
    ensures count { OnOk result (length overlay.new.after.kept ≡ length overlay.old.after.kept) }
    ensures few { OnOk result (length overlay.new.cleared ≤ length overlay.old.cleared + length places.now) }
{
    for place in places {
        overlay.clear(*place)?;
    }
    Ok(())
}

// Appends bits, and clears those at these places after.
fn change<const N: usize>(
    overlay: &mut BitOverlay<N>,
    more: &[bool],
    places: &[u64],
) -> Result<(), AllocError>
    requires few { bit_count N overlay.old.after + length more.now ≤ 2 ^ 62 }
    requires there { AllByRecursion (λ at. (8 * N * overlay.old.after.pruned ≤ at)
        × (at < bit_count N overlay.old.after + length more.now)) places.now }
    ensures base { overlay.new.base ≡ overlay.old.base }
    ensures pruned { OnOk result (overlay.new.after.pruned ≡ overlay.old.after.pruned) }
    ensures all { OnOk result (all_bits N overlay.new.after
        ≡ cleared (all_bits N overlay.old.after ++ more.now) places.now) }
    ensures added { OnOk result (length overlay.new.after.kept
        ≡ length overlay.old.after.kept + length more.now) }
    ensures few_cleared { OnOk result (length overlay.new.cleared ≤ length overlay.old.cleared + length places.now) }
{
    push_bits(overlay, more)?;
    clear_bits(overlay, places)?;
    Ok(())
}

/// The changes of a list to which bits are appended, and of which those at these places are then cleared. It fails only
/// when out of memory, and gives the list back as it was (own).
pub fn stage_bits<const N: usize>(
    bits: Prunable<N>,
    new_bits: &[bool],
    replaced: &[u64],
) -> Result<BitOverlay<N>, Prunable<N>>
    requires few { bit_count N bits + length new_bits.now ≤ 2 ^ 62 }
    requires there { AllByRecursion (λ at. (8 * N * bits.pruned ≤ at)
        × (at < bit_count N bits + length new_bits.now)) replaced.now }
    ensures base { IfOk result (λ overlay. overlay.base ≡ bits.entry) }
    ensures pruned { IfOk result (λ overlay. overlay.after.pruned ≡ bits.entry.pruned) }
    ensures all { IfOk result (λ overlay. all_bits N overlay.after
        ≡ cleared (all_bits N bits.entry ++ new_bits.now) replaced.now) }
    ensures added { IfOk result (λ overlay. length overlay.after.kept ≡ length bits.entry.kept + length new_bits.now) }
    ensures few_cleared { IfOk result (λ overlay. length overlay.cleared ≤ length replaced.now) }
    ensures refused { IfErr result (λ back. back ≡ bits.entry) }
{
    let mut overlay = BitOverlay::new(bits);
    match change(&mut overlay, new_bits, replaced) {
        Ok(()) => Ok(overlay),
        Err(_e) => Err(overlay.cancel()),
    }
}
