//! Bits of a state that may be read by chunks.

ghost use Rattle.std.specs.Prelude.{◌≡◌, ◌<◌, ◌≤◌, ◌+◌, ◌*◌, ◌^◌, List, Bool, ℕ, length, drop};
ghost use Rattle.state_theory.specs.Bits.{chunk_of};

use crate::bits::chunk_array;
use crate::prunable::Prunable;

/// Bits in chunks of N bytes, of which chunks may be pruned from the front.
/// In the Rust: `commonware_utils::bitmap::Readable`.
pub trait BitmapReadable<const N: usize> {
    /// All bits, those that are pruned too.
    ghost bits: { Self → List Bool };

    /// How many chunks are pruned.
    ghost pruned: { Self → ℕ };

    /// How many bits there are, with those that are pruned. In the Rust: `commonware_utils::bitmap::Readable::len`.
    fn len(&self) -> u64
        ensures { result ≡ length (bits self.now) };

    /// How many chunks are pruned. In the Rust: `commonware_utils::bitmap::Readable::pruned_chunks`, a usize.
    fn pruned_chunks(&self) -> u64
        ensures { result ≡ pruned self.now };

    /// The chunk at an index, which is not pruned and has a bit: where it is partial zeros stand after its last bit.
    /// In the Rust: `commonware_utils::bitmap::Readable::get_chunk`, which panics past the end.
    fn get_chunk(&self, index: u64) -> [u8; N]
        requires kept { pruned self.now ≤ index }
        requires within { 8 * N * index < length (bits self.now) }
        ensures { result ≡ chunk_of N (drop (8 * N * index) (bits self.now)) };

    /// Chunks are pruned whole.
    ghost pruned_within: { (b : Self) → 8 * N * pruned b ≤ length (bits b) };
}

/// Bits of which none is pruned, as a list (own).
#[derive(Clone, Copy, Debug)]
pub struct BitList<'a> {
    /// All bits, the first one first.
    pub bits: &'a [bool],
}

impl<'a, const N: usize> BitmapReadable<N> for BitList<'a> {
    ghost use Rattle.state_theory.specs.Laws.Bits.{none_pruned};

    ghost bits = { λ list. list.bits.now };

    ghost pruned = { λ list. 0 };

    fn len(&self) -> u64 {
        self.bits.len() as u64
    }

    fn pruned_chunks(&self) -> u64 {
        0
    }

    fn get_chunk(&self, index: u64) -> [u8; N] {
        let (_, bits) = self.bits.split_at(N * index as usize * 8);
        chunk_array(bits)
    }

    ghost pruned_within = { λ list. none_pruned N (length list.bits.now) };
}

/// Bits of which those that are pruned are said to be clear: which they were is not kept.
impl<const N: usize> BitmapReadable<N> for Prunable<N> {
    ghost use Rattle.state_theory.specs.Bits.{all_bits};
    ghost use Rattle.state_theory.specs.Laws.Bits.{pruned_in_all};

    ghost bits = { λ bits. all_bits N bits };

    ghost pruned = { λ bits. bits.pruned };

    fn len(&self) -> u64 {
        Prunable::len(self)
    }

    fn pruned_chunks(&self) -> u64 {
        Prunable::pruned_chunks(self)
    }

    fn get_chunk(&self, index: u64) -> [u8; N] {
        let mut chunk = [0; N];
        chunk.copy_from_slice(Prunable::get_chunk(self, index));
        chunk
    }

    ghost pruned_within = { λ bits. pruned_in_all N bits };
}
