//! What is asked of a chunk that is shown beside a proof.

ghost use Rattle.std.specs.Prelude.{◌≡◌, ◌↔◌, ◌/◌, IsTrue, option_map, slice_get};
ghost use Rattle.state_theory.specs.SetBits.{is_set};
ghost use Rattle.state_theory.specs.ShownChunks.{FitsChunk};

use merkle_forest::hasher::HashFunction;

/// Whether this bit of the chunk is set: no, where the chunk has no such bit (own).
pub fn is_bit_set(chunk: &[u8], bit: u64) -> bool
    ensures { result ≡ is_set (slice_get chunk.now (bit / 8)) bit }
{
    match chunk.get((bit / 8) as usize) {
        Some(byte) => (*byte >> (bit % 8)) % 2 == 1,
        None => false,
    }
}

/// Whether a digest is held exactly if the chunk is there, and it is that of this chunk if this is the covered one
/// (own).
pub fn fits_chunk<H: HashFunction>(
    digest: &Option<H::Digest>,
    is_there: bool,
    is_covered: bool,
    chunk: &[u8],
) -> bool
    ensures { IsTrue result ↔ FitsChunk H.hash_of chunk.now (IsTrue is_there) (IsTrue is_covered)
        (option_map H.Digest.encoding digest.now) }
{
    match digest {
        None => !is_there,
        Some(digest) => is_there && (!is_covered || *digest == H::hash(&[chunk])),
    }
}
