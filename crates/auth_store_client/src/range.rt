//! Operations with their activity bits: what the bytes hold that show them, and whether they do.

ghost use Rattle.std.specs.Prelude.{◌≡◌, ◌↔◌, ◌<◌, ◌≤◌, ◌+◌, ◌^◌, ◌++◌, ℕ, List, map, length, IsTrue, IfOk};
ghost use Rattle.std.specs.Prelude.{MatchOption};
ghost use Rattle.std.specs.List.{AllByRecursion, flat_map};
ghost use Rattle.state_ops.specs.Operation.{meaning_of};
ghost use Rattle.state_ops.specs.Reading.{IsField, IsOfFields};
ghost use Rattle.state_theory.specs.Encoded.{FitsRange, range_proof_encoding};
ghost use Rattle.state_proofs.specs.ProofsCode.{range_parts_of};
ghost use Rattle.state_theory.specs.Verified.{RangeParts, VerifiesRange};
ghost use Rattle.auth_store_client.specs.Claims.{bit_over, bits_over, range_encoding, terms, ShowsRange};

use crate::encoded::{encodings, lent};
use crate::reading::unread;
use merkle_core::MAX_PROOF_DIGESTS_PER_ELEMENT;
use merkle_forest::codec::{Cursor, Read};
use merkle_forest::{Digest, Graftable, HashFunction, Location, PendingOf};
use state_ops::{FixedKey, FixedValue, OrderedOperation};
use state_proofs::{ChunkSize, RangeProof};
use state_proofs_parts::shown_chunk::is_bit_set;
use std::alloc::{AllocError, Global};

/// How many digests the proof over several operations may have: twice as many as that of one.
pub(crate) const MOST_DIGESTS: usize = 2 * MAX_PROOF_DIGESTS_PER_ELEMENT;

// The proof over a range, within the limits, with which the bytes begin, and the bytes after it. None: they begin with
// none. It fails only when out of memory.
fn read_proof<'a, F: PendingOf<D>, D: Digest>(
    alloc: Global,
    bytes: &'a [u8],
) -> Result<Option<(RangeProof<F, D>, &'a [u8])>, AllocError>
    ensures { IfOk result (λ found. MatchOption found
        ((proof : RangeParts) (rest : List ℕ) → FitsRange F.is_pending D.SIZE 244 proof
        → bytes.now ≡ range_proof_encoding F.pending_encoding proof ++ rest → ⊥)
        (λ it. let parts = range_parts_of D.encoding F.held it.0 in FitsRange F.is_pending D.SIZE 244 parts
        × (bytes.now ≡ range_proof_encoding F.pending_encoding parts ++ it.1.now))) }
{
    let mut cursor = Cursor::new(bytes);
    match RangeProof::read_cfg(alloc, &mut cursor, &MOST_DIGESTS) {
        Ok(proof) => {
            let rest = &bytes[bytes.len() - cursor.remaining()..];
            Ok(Some((proof, rest)))
        }
        Err(e) => {
            unread(e)?;
            Ok(None)
        }
    }
}

// The chunks of so many bytes that the bytes are, one after the other. None: they are not a whole number of them. It
// fails only when out of memory.
fn split_chunks<'a>(
    alloc: Global,
    width: usize,
    bytes: &'a [u8],
) -> Result<Option<Vec<&'a [u8]>>, AllocError>
    requires { 0 < width }
    ensures { IfOk result (λ found. MatchOption found
        ((chunks : List (List ℕ)) → AllByRecursion (λ chunk. length chunk ≡ width) chunks
        → bytes.now ≡ flat_map (λ chunk. chunk) chunks → ⊥)
        (λ chunks. AllByRecursion (λ chunk. length chunk ≡ width) (map (λ chunk. chunk.now) chunks.items)
        × (bytes.now ≡ flat_map (λ chunk. chunk) (map (λ chunk. chunk.now) chunks.items)))) }
{
    let mut chunks: Vec<&'a [u8]> = Vec::new(alloc);
    let mut rest = bytes;
    while !rest.is_empty() {
        if rest.len() < width {
            return Ok(None);
        }
        let (chunk, later) = rest.split_at(width);
        chunks.push(chunk)?;
        rest = later;
    }
    Ok(Some(chunks))
}

// What bytes hold that show operations with their bits: the proof over them, and the chunks over them.
#[derive(Drop)]
struct Range<'a, F: PendingOf<D>, D: Digest> {
    proof: RangeProof<F, D>,
    chunks: Vec<&'a [u8]>,
}

// The proof within the limits and the chunks of so many bytes whose encoding the bytes are. None: they are none. It
// fails only when out of memory.
fn read_range<'a, F: PendingOf<D>, D: Digest>(
    alloc: Global,
    width: usize,
    bytes: &'a [u8],
) -> Result<Option<Range<'a, F, D>>, AllocError>
    requires { 0 < width }
    ensures { IfOk result (λ found. MatchOption found
        ((proof : RangeParts) (chunks : List (List ℕ)) → FitsRange F.is_pending D.SIZE 244 proof
        → AllByRecursion (λ chunk. length chunk ≡ width) chunks
        → bytes.now ≡ range_encoding F.pending_encoding proof chunks → ⊥)
        (λ range. let parts = range_parts_of D.encoding F.held range.proof in
        let chunks = map (λ chunk. chunk.now) range.chunks.items in FitsRange F.is_pending D.SIZE 244 parts
        × AllByRecursion (λ chunk. length chunk ≡ width) chunks
        × (bytes.now ≡ range_encoding F.pending_encoding parts chunks))) }
{
    let Some((proof, rest)) = read_proof(alloc, bytes)? else {
        return Ok(None);
    };
    let Some(chunks) = split_chunks(alloc, width, rest)? else {
        return Ok(None);
    };
    Ok(Some(Range { proof, chunks }))
}

// Whether the bit of a location is set, in the chunks over the locations from one on.
fn is_active(chunk_size: ChunkSize, start: u64, chunks: &[&[u8]], location: u64) -> bool
    requires { start ≤ location }
    ensures { result ≡ bit_over chunk_size.width start (map (λ chunk. chunk.now) chunks.now) location }
{
    let index = chunk_size.index_of(location) - chunk_size.index_of(start);
    match chunks.get(index as usize) {
        Some(chunk) => is_bit_set(chunk, chunk_size.bit_of(location)),
        None => false,
    }
}

// Whether the bits of the locations from one on are these, in the chunks over them.
fn are_bits(chunk_size: ChunkSize, start: u64, chunks: &[&[u8]], bits: &[bool]) -> bool
    requires { start + length bits.now < 2 ^ 64 }
    ensures { IsTrue result ↔ (bits.now
        ≡ bits_over chunk_size.width start (map (λ chunk. chunk.now) chunks.now) (length bits.now)) }
{
    let mut location = start;
    let mut rest = bits;
    while let [bit, later @ ..] = rest {
        if is_active(chunk_size, start, chunks, location) != *bit {
            return false;
        }
        location += 1;
        rest = later;
    }
    true
}

// Whether the proof shows the encoded operations from a location on under the root, and the chunks have these bits.
fn verifies<F: Graftable + PendingOf<H::Digest>, H: HashFunction>(
    range: &Range<'_, F, H::Digest>,
    chunk_size: ChunkSize,
    root: &H::Digest,
    start: u64,
    operations: &[&[u8]],
    active: &[bool],
) -> bool
    ensures { let chunks = map (λ chunk. chunk.now) range.now.chunks.items in
        IsTrue result ↔ (VerifiesRange F.merge_rule H.hash_of (H.Digest.encoding root.now)
        (range_parts_of H.Digest.encoding F.held range.now.proof)
        (record {
          start = start;
          operations = map (λ operation. operation.now) operations.now;
          chunks = chunks;
          width = chunk_size.width;
        })
        × (active.now ≡ bits_over chunk_size.width start chunks (length operations.now))) }
{
    if active.len() != operations.len() {
        return false;
    }
    let first = Location::new(start);
    let width = chunk_size.width;
    if !range
        .proof
        .verify_with_chunk_size::<H>(first, operations, &range.chunks, width, root)
    {
        return false;
    }
    are_bits(chunk_size, start, &range.chunks, active)
}

// Whether the bytes are those of a proof that the operations stand from this location of the log of this root on, and
// are active as these bits say. Where it says yes, their keys and values have their sizes and are read again. It fails
// only when out of memory.
pub(crate) fn shows_range<F, H, K, V>(
    alloc: Global,
    width: usize,
    root: &H::Digest,
    start: u64,
    operations: &[OrderedOperation<F, K, V>],
    active: &[bool],
    bytes: &[u8],
) -> Result<bool, AllocError>
where
    F: Graftable + PendingOf<H::Digest>,
    H: HashFunction,
    K: FixedKey,
    V: FixedValue,
    ensures exact { let terms = terms F.merge_rule H.hash_of width H.Digest.SIZE F.is_pending F.pending_encoding
        (K.after tt) (V.after tt) K.SIZE V.SIZE in
        IfOk result (λ yes. IsTrue yes ↔ ShowsRange terms (H.Digest.encoding root.now) start
        (map (meaning_of K.encoding V.encoding) operations.now) active.now bytes.now) }
    ensures fields { IfOk result (λ yes. IsTrue yes → AllByRecursion (IsOfFields (IsField (K.after tt) K.SIZE)
        (IsField (V.after tt) V.SIZE)) (map (meaning_of K.encoding V.encoding) operations.now)) }
{
    let Some(chunk_size) = ChunkSize::new(width) else {
        return Ok(false);
    };
    let Some(range) = read_range::<F, H::Digest>(alloc, width, bytes)? else {
        return Ok(false);
    };
    let encoded = encodings(alloc, operations)?;
    let elements = lent(alloc, &encoded)?;
    Ok(verifies::<F, H>(&range, chunk_size, root, start, &elements, active))
}
