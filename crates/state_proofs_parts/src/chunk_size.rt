//! How many bits a chunk has.

ghost use Rattle.std.specs.Prelude.{◌≡◌, ◌<◌, ◌≤◌, ◌*◌, ◌/◌, ◌%◌, ◌^◌, ℕ, length, IfSome, IfNone};
ghost use Rattle.state_theory.specs.Bits.{IsChunkWidth};

/// How many bytes a chunk has, and the height of a tree over as many operations as it has bits (own). So the bits are a
/// power of two, 2^62 at most: over each chunk of such a tree one node stands.
#[derive(Clone, Copy, Debug, PartialEq, Eq)]
pub struct ChunkSize {
    /// How many bytes a chunk has.
    pub width: usize,
    /// The height of a tree over as many operations as a chunk has bits.
    pub grafting_height: u32,
    pub ghost whole: { 8 * width ≡ 2 ^ grafting_height },
    pub ghost some: { 0 < grafting_height },
    pub ghost low: { grafting_height ≤ 62 },
}

impl ChunkSize {
    /// The size of a chunk of so many bytes. None: its bits are no power of two, or more than 2^62.
    /// In the Rust: `qmdb::current::proof::chunk_bits`, which answers the bits alone.
    pub fn new(width: usize) -> Option<ChunkSize>
        ensures some { IfSome result (λ size. size.width ≡ width) }
        ensures none { IfNone result ((height : ℕ) → 8 * width ≡ 2 ^ height → height ≤ 62 → ⊥) }
    {
        let bytes = width as u64;
        if bytes == 0 {
            return None;
        }
        let height = bytes.ilog2();
        if height > 59 || bytes != 1u64 << height {
            return None;
        }
        Some(ChunkSize {
            width,
            grafting_height: height + 3,
        })
    }

    /// The size of a chunk of N bytes (own).
    pub fn of_bytes<const N: usize>() -> ChunkSize
        requires { IsChunkWidth N }
        ensures { result.width ≡ N }
    {
        ChunkSize::new(N).unwrap()
    }

    /// The size of this chunk. None: its bits are no power of two, or more than 2^62 (own).
    pub fn of(chunk: &[u8]) -> Option<ChunkSize>
        ensures some { IfSome result (λ size. size.width ≡ length chunk.now) }
        ensures none { IfNone result ((height : ℕ) → 8 * length chunk.now ≡ 2 ^ height → height ≤ 62 → ⊥) }
    {
        ChunkSize::new(chunk.len())
    }

    /// How many bits a chunk has.
    pub fn bits(self) -> u64
        ensures bits { result ≡ 8 * self.width }
        ensures some { 0 < result }
    {
        8 * self.width as u64
    }

    /// How many chunks so many bits fill.
    pub fn full_chunks(self, count: u64) -> u64
        ensures { result ≡ count / (8 * self.width) }
    {
        count / self.bits()
    }

    /// The index of the chunk with the bit of the operation at the location.
    pub fn index_of(self, location: u64) -> u64
        ensures { result ≡ location / (8 * self.width) }
    {
        location / self.bits()
    }

    /// At which bit of its chunk the bit of the operation at the location stands.
    pub fn bit_of(self, location: u64) -> u64
        ensures bit { result ≡ location % (8 * self.width) }
        ensures within { result < 8 * self.width }
    {
        location % self.bits()
    }
}
