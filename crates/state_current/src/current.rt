//! The state that is kept.

ghost use Rattle.std.specs.Prelude.{◌≡◌, ◌<◌, ◌≤◌, ◌*◌, ◌^◌, [], ℕ, Some, slice_get};
ghost use Rattle.state_theory.specs.Bits.{IsChunkWidth, all_bits, bit_count};
ghost use Rattle.state_theory.specs.Canonical.{State, chunk, setting_with};
ghost use Rattle.state_current.specs.Kept.{AreTogether, StandsFor};

use merkle_core::Mem;
use merkle_forest::hasher::HashFunction;
use merkle_forest::{Graftable, Location};
use state_proofs_parts::{ChunkSize, Prunable};
use std::alloc::Global;
use std::marker::Model;

/// A state, kept as the tree of its operations, the tree of its chunks, its bits and its floor, of which whole chunks
/// may be pruned from the front. Contracts see what is kept; which state it stands for is known to the caller.
/// Own: in the Rust `qmdb::current::db::Db` keeps these beside its log.
#[derive(Drop)]
pub struct Current<F: Graftable, H: HashFunction, const N: usize> {
    pub(crate) alloc: Global,
    pub(crate) operations: Mem<F, H::Digest>,
    pub(crate) chunks: Mem<F, H::Digest>,
    pub(crate) bits: Prunable<N>,
    pub(crate) floor: u64,
}

impl<F: Graftable, H: HashFunction, const N: usize> Model for Current<F, H, N> {
    ghost use Rattle.state_current.specs.Kept.{Kept, AreTogether};

    ghost Value = { Kept };

    ghost view = { λ c. record { operations = c.operations; chunks = c.chunks; bits = c.bits; floor = c.floor } };

    ghost invariant = { λ c. AreTogether F.merge_rule N (record {
      operations = c.operations;
      chunks = c.chunks;
      bits = c.bits;
      floor = c.floor;
    }) };
}

impl<F: Graftable, H: HashFunction, const N: usize> Current<F, H, N> {
    /// The state of no operations. It takes no memory yet (own).
    pub fn new(alloc: Global) -> Current<F, H, N>
        requires { IsChunkWidth N }
        ensures { (height : ℕ) → 8 * N ≡ 2 ^ height
            → StandsFor (setting_with F.merge_rule H.hash_of N height)
            (record { operations = []; bits = []; floor = 0 }) result }
    {
        Current {
            alloc,
            operations: Mem::new(alloc),
            chunks: Mem::new(alloc),
            bits: Prunable::new(alloc),
            floor: 0,
        }
    }

    /// How many operations there are, with those that are pruned (own).
    pub fn leaves(&self) -> Location<F>
        ensures leaves { result ≡ self.now.operations.leaves }
        ensures bits { result ≡ bit_count N self.now.bits }
        ensures few { result ≤ 2 ^ 62 }
    {
        self.operations.leaves()
    }

    /// How many chunks are pruned (own).
    pub fn pruned_chunks(&self) -> u64
        ensures pruned { result ≡ self.now.bits.pruned }
        ensures few { result ≤ 2 ^ 62 }
    {
        self.bits.pruned_chunks()
    }

    /// The location of the first operation whose chunk is not pruned, or that of the next one (own).
    pub fn kept_from(&self) -> Location<F>
        ensures { result ≡ 8 * N * self.now.bits.pruned }
    {
        let _floor = self.floor;
        Location::new(self.bits.pruned_bits())
    }

    /// The location before which no operation is active (own).
    pub fn floor(&self) -> Location<F>
        ensures { result ≡ self.now.floor }
    {
        Location::new(self.floor)
    }

    /// Whether the operation at a location is active, whose chunk is not pruned (own).
    pub fn bit(&self, location: u64) -> bool
        requires kept { 8 * N * self.now.bits.pruned ≤ location }
        requires there { location < self.now.operations.leaves }
        ensures { slice_get (all_bits N self.now.bits) location ≡ Some result }
    {
        let _floor = self.floor;
        self.bits.get_bit(location)
    }

    /// The bytes of a chunk, of which there are bits, and that is not pruned: zeros stand for the bits that are not
    /// there (own).
    pub fn chunk(&self, index: u64) -> &[u8]
        requires kept { self.now.bits.pruned ≤ index }
        requires there { 8 * N * index < self.now.operations.leaves }
        ensures { (height : ℕ) (state : State) → let setting = setting_with F.merge_rule H.hash_of N height in
            StandsFor setting state self.now → result.now ≡ chunk setting state index }
    {
        let _leaves = self.operations.leaves();
        self.bits.get_chunk(index)
    }

    /// How many bits a chunk has (own).
    pub fn chunk_size(&self) -> ChunkSize
        ensures { result.width ≡ N }
    {
        let _floor = self.floor;
        ChunkSize::of_bytes::<N>()
    }

    /// The tree of the operations, which proofs are read from. All that is kept fits together (own).
    pub fn operations(&self) -> &Mem<F, H::Digest>
        ensures same { result.now ≡ self.now.operations }
        ensures together { AreTogether F.merge_rule N self.now }
    {
        &self.operations
    }

    /// The tree of the chunks that have a node in that of the operations, which proofs are read from (own).
    pub fn chunks(&self) -> &Mem<F, H::Digest>
        ensures { result.now ≡ self.now.chunks }
    {
        &self.chunks
    }

    /// The bits, which proofs are read from: one for each operation (own).
    pub fn bits(&self) -> &Prunable<N>
        ensures { result.now ≡ self.now.bits }
    {
        &self.bits
    }
}
