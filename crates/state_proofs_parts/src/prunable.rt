//! Bits in chunks, of which whole chunks may be pruned from the front.
//!
//! The bytes of all kept chunks stand one after the other. The last chunk is filled up with zeros, so that its bytes
//! are there before its last bit is: of chunks of one byte, after the pruning of one,
//!
//! ```text
//!    pruned   kept: 18 bits
//!    ########  1 0 1 1 0 0 0 0   0 1 0 0 0 0 0 0   1 1 . . . . . .
//!      1 chunk       0d                02                03           bytes
//! ```

ghost use Rattle.std.specs.Prelude.{◌≡◌, ◌<◌, ◌≤◌, ◌+◌, ◌-◌, ◌*◌, ◌/◌};
ghost use Rattle.std.specs.Prelude.{◌%◌, ◌^◌, ◌++◌, [], ◌∷◌, ◌↔◌, false, ℕ, List};
ghost use Rattle.std.specs.Prelude.{length, replicate, slice_set, slice_index_or, take, drop, IsTrue};
ghost use Rattle.std.specs.Prelude.{IfOk, OnOk, OnErr};
ghost use Rattle.state_theory.specs.Bits.{Bits, IsChunkWidth, bits_of, bits_in, chunk_at, bit_count, last_chunk};
ghost use Rattle.state_theory.specs.Bits.{pruned_to};

use std::alloc::{AllocError, Global};
use std::marker::Model;

// Whether the bit at a place in the bytes is set.
pub(crate) fn bit_in(bytes: &[u8], at: u64) -> bool
    requires { at < 8 * length bytes.now }
    ensures { result ≡ slice_index_or (bits_in bytes.now) at false }
{
    (bytes[(at / 8) as usize] >> (at % 8)) % 2 == 1
}

// The byte with one of its bits, below eight, set or cleared.
fn with_bit(byte: u8, at: u64, bit: bool) -> u8
    requires { at < 8 }
    ensures { bits_of 8 result ≡ slice_set (bits_of 8 byte) at bit }
{
    let mask = 1u8 << at;
    if bit { byte | mask } else { byte & !mask }
}

// Sets or clears the bit at a place in the bytes.
fn put_bit(bytes: &mut Vec<u8>, at: u64, bit: bool)
    requires { at < 8 * length bytes.old.items }
    ensures bits { bits_in bytes.new.items ≡ slice_set (bits_in bytes.old.items) at bit }
    ensures length { length bytes.new.items ≡ length bytes.old.items }
{
    let index = (at / 8) as usize;
    bytes[index] = with_bit(bytes[index], at % 8, bit);
}

// Sets the bit at a place in the bytes where none is set; one that is not to be set is there already.
fn fill_bit(bytes: &mut Vec<u8>, at: u64, bit: bool)
    requires there { at < 8 * length bytes.old.items }
    requires zero { slice_index_or (bits_in bytes.old.items) at false ≡ false }
    ensures bits { bits_in bytes.new.items ≡ slice_set (bits_in bytes.old.items) at bit }
    ensures length { length bytes.new.items ≡ length bytes.old.items }
{
    if bit {
        put_bit(bytes, at, true);
    }
}

// Lays bytes over others, which reach as far.
fn overwrite(bytes: &mut [u8], first: usize, part: &[u8])
    requires { first + length part.now ≤ length bytes.old }
    ensures { bytes.new ≡ take first bytes.old ++ (part.now ++ drop (first + length part.now) bytes.old) }
{
    bytes[first..first + part.len()].copy_from_slice(part);
}

// So many bytes from a place on.
fn part(bytes: &[u8], first: usize, count: usize) -> &[u8]
    requires { first + count ≤ length bytes.now }
    ensures part { result.now ≡ take count (drop first bytes.now) }
    ensures small { (k : ℕ) → k < length bytes.now → slice_index_or bytes.now k 0 < 256 }
{
    &bytes[first..first + count]
}

// Appends a chunk of zeros, but for its first bit.
fn append_chunk<const N: usize>(bytes: &mut Vec<u8>, bit: bool) -> Result<(), AllocError>
    requires some { 1 ≤ N }
    requires few { 8 * length bytes.old.items + 8 * N < 2 ^ 63 }
    ensures bits { OnOk result (bits_in bytes.new.items
        ≡ bits_in bytes.old.items ++ bit ∷ replicate (8 * N - 1) false) }
    ensures length { OnOk result (length bytes.new.items ≡ length bytes.old.items + N) }
    ensures unchanged { OnErr result (bytes.new.items ≡ bytes.old.items) }
{
    let at = 8 * bytes.len() as u64;
    bytes.extend_from_slice(&[0; N])?;
    put_bit(bytes, at, bit);
    Ok(())
}

/// Bits in chunks of N bytes, of which whole chunks may be pruned from the front. Contracts see how many chunks are
/// pruned, and the bits after those. In the Rust: `commonware_utils::bitmap::Prunable`.
#[derive(Debug, Drop)]
pub struct Prunable<const N: usize> {
    alloc: Global,
    pruned: u64,
    kept: u64,
    bytes: Vec<u8>,
}

impl<const N: usize> Model for Prunable<N> {
    ghost use Rattle.std.specs.Prelude.{take};
    ghost use Rattle.state_theory.specs.Bits.{Bits, bits_in, IsHeld};

    ghost Value = { Bits };

    ghost view = { λ b. record { pruned = b.pruned; kept = take b.kept (bits_in b.bytes.items) } };

    ghost invariant = { λ b. IsHeld N b.pruned b.kept b.bytes.items };
}

impl<const N: usize> Prunable<N> {
    /// No bits. It takes no memory yet. In the Rust: `commonware_utils::bitmap::Prunable::new`.
    pub fn new(alloc: Global) -> Prunable<N>
        requires { IsChunkWidth N }
        ensures { result ≡ record { pruned = 0; kept = [] } }
    {
        Prunable {
            alloc,
            pruned: 0,
            kept: 0,
            bytes: Vec::new(alloc),
        }
    }

    /// Bits that are equal to these. It fails only when out of memory (own). In the Rust: `Clone::clone`.
    pub fn try_copy(&self) -> Result<Prunable<N>, AllocError>
        ensures { IfOk result (λ copy. copy ≡ self.now) }
    {
        let bytes = Vec::from_slice(self.alloc, &self.bytes)?;
        Ok(Prunable {
            alloc: self.alloc,
            pruned: self.pruned,
            kept: self.kept,
            bytes,
        })
    }

    /// So many chunks that are pruned, of fewer than 2^64 bits, and no other bits. It takes no memory yet.
    /// In the Rust: `commonware_utils::bitmap::Prunable::new_with_pruned_chunks`, which refuses too many chunks.
    pub fn new_with_pruned_chunks(alloc: Global, chunks: u64) -> Prunable<N>
        requires wide { IsChunkWidth N }
        requires few { chunks ≤ 2 ^ 62 }
        requires within { 8 * N * chunks < 2 ^ 64 }
        ensures { result ≡ record { pruned = chunks; kept = [] } }
    {
        Prunable {
            alloc,
            pruned: chunks,
            kept: 0,
            bytes: Vec::new(alloc),
        }
    }

    /// How many bits a chunk has. In the Rust: the constant `commonware_utils::bitmap::Prunable::CHUNK_SIZE_BITS`.
    pub fn chunk_size_bits() -> u64
        requires { IsChunkWidth N }
        ensures bits { result ≡ 8 * N }
        ensures some { 8 ≤ result }
        ensures few { result ≤ 2 ^ 62 }
    {
        8 * N as u64
    }

    /// How many bits there are, with those that are pruned. In the Rust: `commonware_utils::bitmap::Prunable::len`.
    pub fn len(&self) -> u64
        ensures length { result ≡ bit_count N self.now }
    {
        self.kept + self.pruned * self.chunk_bits()
    }

    /// How many bits are pruned. In the Rust: `commonware_utils::bitmap::Prunable::pruned_bits`.
    pub fn pruned_bits(&self) -> u64
        ensures pruned { result ≡ 8 * N * self.now.pruned }
        ensures within { result ≤ bit_count N self.now }
    {
        self.pruned * self.chunk_bits()
    }

    /// How many chunks are pruned. In the Rust: `commonware_utils::bitmap::Prunable::pruned_chunks`.
    pub fn pruned_chunks(&self) -> u64
        ensures pruned { result ≡ self.now.pruned }
        ensures few { result ≤ 2 ^ 62 }
    {
        self.pruned
    }

    // How many bits are kept.
    pub(crate) fn kept_bits(&self) -> u64
        ensures { result ≡ length self.now.kept }
    {
        self.kept
    }

    // The allocator of the bits.
    pub(crate) fn allocator(&self) -> Global {
        self.alloc
    }

    /// Whether a bit that is there, and not pruned, is set. In the Rust: `commonware_utils::bitmap::Prunable::get_bit`.
    pub fn get_bit(&self, bit: u64) -> bool
        requires kept { 8 * N * self.now.pruned ≤ bit }
        requires there { bit < bit_count N self.now }
        ensures { result ≡ slice_index_or self.now.kept (bit - 8 * N * self.now.pruned) false }
    {
        bit_in(&self.bytes, bit - self.pruned_bits())
    }

    // How many bits a chunk has, where there are bits of such chunks.
    pub(crate) fn chunk_bits(&self) -> u64
        ensures bits { result ≡ 8 * N }
        ensures some { 8 ≤ result }
        ensures few { result ≤ 2 ^ 62 }
    {
        let _pruned = self.pruned;
        Self::chunk_size_bits()
    }

    // The index of the chunk with a bit that is there, and not pruned.
    fn chunk_index(&self, bit: u64) -> u64
        requires kept { 8 * N * self.now.pruned ≤ bit }
        requires there { bit < bit_count N self.now }
        ensures index { result ≡ bit / (8 * N) }
        ensures kept { self.now.pruned ≤ result }
        ensures there { 8 * N * (result - self.now.pruned) < length self.now.kept }
    {
        bit / self.chunk_bits()
    }

    /// Whether there is no bit. In the Rust: `commonware_utils::bitmap::Prunable::is_empty`.
    pub fn is_empty(&self) -> bool
        ensures { IsTrue result ↔ (bit_count N self.now ≡ 0) }
    {
        self.len() == 0
    }

    /// Whether the bits fill their chunks. In the Rust: `commonware_utils::bitmap::Prunable::is_chunk_aligned`.
    pub fn is_chunk_aligned(&self) -> bool
        ensures { IsTrue result ↔ (length self.now.kept % (8 * N) ≡ 0) }
    {
        self.kept % self.chunk_bits() == 0
    }

    /// How many chunks the bits fill, with those that are pruned.
    /// In the Rust: `commonware_utils::bitmap::Prunable::complete_chunks`.
    pub fn complete_chunks(&self) -> u64
        ensures chunks { result ≡ self.now.pruned + length self.now.kept / (8 * N) }
        ensures few { result < 2 ^ 61 }
    {
        self.pruned + self.kept / self.chunk_bits()
    }

    /// The bytes of a chunk, of which there are bits, and that is not pruned: zeros stand for the bits that are not
    /// there. In the Rust: `commonware_utils::bitmap::Prunable::get_chunk`, which gives an array.
    pub fn get_chunk(&self, chunk: u64) -> &[u8]
        requires kept { self.now.pruned ≤ chunk }
        requires there { 8 * N * (chunk - self.now.pruned) < length self.now.kept }
        ensures { result.now ≡ chunk_at N self.now.kept (chunk - self.now.pruned) }
    {
        let first = (chunk - self.pruned) as usize * N;
        part(&self.bytes, first, N)
    }

    /// The chunk with a bit that is there, and not pruned.
    /// In the Rust: `commonware_utils::bitmap::Prunable::get_chunk_containing`, by reference.
    pub fn get_chunk_containing(&self, bit: u64) -> [u8; N]
        requires kept { 8 * N * self.now.pruned ≤ bit }
        requires there { bit < bit_count N self.now }
        ensures { result ≡ chunk_at N self.now.kept (bit / (8 * N) - self.now.pruned) }
    {
        let mut chunk = [0; N];
        chunk.copy_from_slice(self.get_chunk(self.chunk_index(bit)));
        chunk
    }

    /// The last chunk, and how many of its bits there are. Where no bit is kept it is zeros, and has none.
    /// In the Rust: `commonware_utils::bitmap::Prunable::last_chunk`, by reference.
    pub fn last_chunk(&self) -> ([u8; N], u64)
        ensures { result ≡ last_chunk N self.now.kept }
    {
        let mut chunk = [0; N];
        if self.kept == 0 {
            return (chunk, 0);
        }
        let first = self.bytes.len() - N;
        chunk.copy_from_slice(part(&self.bytes, first, N));
        (chunk, self.kept - 8 * first as u64)
    }

    /// Appends a bit. It fails only when out of memory; the bits then stay as they were.
    /// In the Rust: `commonware_utils::bitmap::Prunable::push`.
    pub fn push(&mut self, bit: bool) -> Result<(), AllocError>
        requires { bit_count N self.old < 2 ^ 62 }
        ensures pushed { OnOk result (self.new ≡ record self.old { kept = self.old.kept ++ bit ∷ [] }) }
        ensures unchanged { OnErr result (self.new ≡ self.old) }
    {
        if self.kept == 8 * self.bytes.len() as u64 {
            append_chunk::<N>(&mut self.bytes, bit)?;
            self.kept += 1;
            return Ok(());
        }
        fill_bit(&mut self.bytes, self.kept, bit);
        self.kept += 1;
        Ok(())
    }

    // Takes the last bit away.
    pub(crate) fn pop(&mut self)
        requires { 0 < length self.old.kept }
        ensures { self.new ≡ record self.old { kept = take (length self.old.kept - 1) self.old.kept } }
    {
        let at = self.kept - 1;
        let left = self.bytes.len() - N;
        self.kept = at;
        if at == 8 * left as u64 {
            self.bytes.truncate(left);
            return;
        }
        put_bit(&mut self.bytes, at, false);
    }

    // Finds room for so many more bits. It fails only when out of memory. The bits stay as they were, and what room
    // there is, contracts do not see.
    pub(crate) fn reserve(&mut self, bits: usize) -> Result<(), AllocError>
        ensures { self.new ≡ self.old }
    {
        let chunk = (self.chunk_bits() / 8) as usize;
        self.bytes.reserve(bits / 8 + chunk)
    }

    /// Appends the bits of these bytes, the least of each byte first. That the bits there fill their bytes is on the
    /// caller. It fails only when out of memory; the bits then stay as they were.
    /// In the Rust: `commonware_utils::bitmap::Prunable::{push_byte, push_chunk}`, for one byte and for one chunk.
    pub fn push_bytes(&mut self, bytes: &[u8]) -> Result<(), AllocError>
        requires aligned { bit_count N self.old % 8 ≡ 0 }
        requires few { bit_count N self.old + 8 * length bytes.now ≤ 2 ^ 62 }
        ensures pushed { OnOk result (self.new ≡ record self.old { kept = self.old.kept ++ bits_in bytes.now }) }
        ensures unchanged { OnErr result (self.new ≡ self.old) }
    {
        let first = (self.kept / 8) as usize;
        let end = first + bytes.len();
        self.bytes.resize(end.div_ceil(N) * N, 0)?;
        overwrite(&mut self.bytes, first, bytes);
        self.kept += 8 * bytes.len() as u64;
        Ok(())
    }

    /// Sets or clears a bit that is there, and not pruned.
    /// In the Rust: `commonware_utils::bitmap::Prunable::set_bit`.
    pub fn set_bit(&mut self, bit: u64, value: bool)
        requires kept { 8 * N * self.old.pruned ≤ bit }
        requires there { bit < bit_count N self.old }
        ensures { self.new ≡ record self.old {
          kept = slice_set self.old.kept (bit - 8 * N * self.old.pruned) value;
        } }
    {
        let at = bit - self.pruned_bits();
        put_bit(&mut self.bytes, at, value);
    }

    /// Prunes the chunks before one, which the bits reach.
    /// In the Rust: `commonware_utils::bitmap::Prunable::prune_to_bit`, which takes a bit.
    pub fn prune_to_chunk(&mut self, chunk: u64)
        requires kept { self.old.pruned ≤ chunk }
        requires there { 8 * N * (chunk - self.old.pruned) ≤ length self.old.kept }
        ensures { self.new ≡ pruned_to N self.old chunk }
    {
        let dropped = (chunk - self.pruned) as usize * N;
        let left = self.bytes.len() - dropped;
        self.bytes.rotate_left(dropped);
        self.bytes.truncate(left);
        self.kept -= 8 * dropped as u64;
        self.pruned = chunk;
    }
}
