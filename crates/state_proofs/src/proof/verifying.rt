//! The check of a proof over a range of operations.

ghost use Rattle.std.specs.Prelude.{◌≡◌, ◌↔◌, ◌<◌, ◌≤◌, ◌+◌, ◌-◌};
ghost use Rattle.std.specs.Prelude.{◌*◌, ◌/◌, ◌^◌, ℕ, List, [], IsTrue, MatchOption, map};
ghost use Rattle.std.specs.Prelude.{length, option_map, slice_index_or};
ghost use Rattle.std.specs.List.{AllByRecursion};
ghost use Rattle.merkle_forest.specs.Made.{value};
ghost use Rattle.state_theory.specs.Canonical.{canonical_string};
ghost use Rattle.state_proofs.specs.ProofsCode.{range_parts_of};
ghost use Rattle.state_proofs.specs.RangeExtracted.{LeadsNowhere};
ghost use Rattle.state_theory.specs.Verified.{Covers, covering, FitsShown, IsShaped, VerifiesRange, given_by};
ghost use Rattle.state_theory.specs.Verified.{graftable_shown, shown_grafted};
ghost use Rattle.state_proofs.specs.ShownCode.{form_shown_of};
ghost use Rattle.state_theory.specs.ShownChunks.{FitsChunk};
ghost use Rattle.state_proofs_parts.specs.VerifierCode.{form_given_of};

use crate::proof::RangeProof;
use merkle_core::verifying::reconstruct_range;
use merkle_forest::{Digest, Graftable, HashFunction, Location, MAX_LEAVES, PendingOf};
use state_proofs_parts::chunk_size::ChunkSize;
use state_proofs_parts::grafting::graftable_chunks_of;
use state_proofs_parts::grafting::verifier::{Verifier, covering_chunk};
use state_proofs_parts::seal::seal;
use state_proofs_parts::shown_chunk::fits_chunk;
use std::convert::AsSlice;

/// What is shown with a proof over a range: encoded operations from a location on, and the chunks over them, slices or
/// arrays (own).
#[derive_where(Clone, Copy)]
pub struct Shown<'a, C = &'a [u8]> {
    /// The location of the first operation.
    pub start: u64,
    /// The encoded operations.
    pub operations: &'a [&'a [u8]],
    /// The chunks with their activity bits.
    pub chunks: &'a [C],
    /// How many bits a chunk has.
    pub chunk_size: ChunkSize,
}

// Whether a chunk with this index is among so many from a first one on.
fn is_covered(first: u64, count: usize, index: u64) -> bool
    ensures { IsTrue result ↔ ((first ≤ index) × (index < first + count)) }
{
    first <= index && index - first < count as u64
}

// Whether the digest of the chunk with this index is held exactly if the chunk is there, and is that of the chunk that
// is shown if this is covered.
fn fits_index<H: HashFunction, C: AsSlice<u8>>(
    shown: &Shown<'_, C>,
    digest: &Option<H::Digest>,
    is_there: bool,
    index: u64,
) -> bool
    ensures { IsTrue result ↔ FitsChunk H.hash_of (covering (form_shown_of C.items shown.now) index) (IsTrue is_there)
        (Covers (form_shown_of C.items shown.now) index) (option_map H.Digest.encoding digest.now) }
{
    let first = shown.chunk_size.index_of(shown.start);
    let chunk = covering_chunk(shown.chunks, first, index);
    fits_chunk::<H>(
        digest,
        is_there,
        is_covered(first, shown.chunks.len(), index),
        chunk,
    )
}

// Whether the digests of the pending and of the partial chunk fit the number of operations and the chunks that are
// shown.
fn fits_shown<F: Graftable + PendingOf<H::Digest>, H: HashFunction, C: AsSlice<u8>>(
    proof: &RangeProof<F, H::Digest>,
    shown: &Shown<'_, C>,
    graftable: u64,
) -> bool
    ensures { IsTrue result ↔ FitsShown H.hash_of graftable (range_parts_of H.Digest.encoding F.held proof.now)
        (form_shown_of C.items shown.now) }
{
    let leaves = proof.proof.leaves.as_u64();
    let full = shown.chunk_size.full_chunks(leaves);
    let left = shown.chunk_size.bit_of(leaves);
    let pending = F::digest_of(&proof.pending_chunk_digest);
    full.saturating_sub(graftable) <= 1
        && fits_index::<H, C>(shown, &pending, graftable < full, graftable)
        && fits_index::<H, C>(shown, &proof.partial_chunk_digest, left > 0, full)
}

// Whether all chunks have this width.
fn are_wide<C: AsSlice<u8>>(chunks: &[C], width: usize) -> bool
    ensures { IsTrue result ↔ AllByRecursion (λ chunk. length chunk ≡ width) (map C.items chunks.now) }
{
    match chunks {
        [] => true,
        [chunk, rest @ ..] => chunk.as_slice().len() == width && are_wide(rest, width),
    }
}

// Whether there is an operation, all are within a tree of so many, and the chunks are those over them.
fn is_shaped<C: AsSlice<u8>>(shown: &Shown<'_, C>, leaves: u64) -> bool
    ensures { IsTrue result ↔ IsShaped leaves (form_shown_of C.items shown.now) }
{
    let count = shown.operations.len() as u64;
    if count == 0 {
        return false;
    }
    if shown.start > leaves || leaves - shown.start < count {
        return false;
    }
    let first = shown.chunk_size.index_of(shown.start);
    let last = shown.chunk_size.index_of(shown.start + count - 1);
    last - first + 1 == shown.chunks.len() as u64 && are_wide(shown.chunks, shown.chunk_size.width)
}

// The hasher of the grafted tree with the chunks that are shown, of which so many first ones of the state are
// graftable.
pub(crate) fn shown_hasher<'a, F: Graftable, H: HashFunction, C: AsSlice<u8>>(
    shown: &Shown<'a, C>,
    graftable: u64,
) -> Verifier<'a, F, H, C>
    ensures { form_given_of C.items result
        ≡ given_by shown.now.chunk_size.grafting_height graftable (form_shown_of C.items shown.now) }
{
    Verifier::new(
        shown.chunk_size.grafting_height,
        shown.chunk_size.index_of(shown.start),
        shown.chunks,
        graftable,
    )
}

// The root of the grafted tree that the proof leads to from what is shown.
fn shown_root<F: Graftable + PendingOf<H::Digest>, H: HashFunction, C: AsSlice<u8>>(
    proof: &RangeProof<F, H::Digest>,
    shown: &Shown<'_, C>,
    graftable: u64,
) -> Option<H::Digest>
    requires { graftable ≡ graftable_shown F.merge_rule shown.now.chunk_size.grafting_height
        (range_parts_of H.Digest.encoding F.held proof.now) }
    ensures { option_map H.Digest.encoding result
        ≡ option_map (value H.hash_of) (shown_grafted F.merge_rule shown.now.chunk_size.grafting_height
        (range_parts_of H.Digest.encoding F.held proof.now) (form_shown_of C.items shown.now)) }
{
    let verifier = shown_hasher::<F, H, C>(shown, graftable);
    reconstruct_range(
        &verifier,
        &proof.proof,
        Location::new(shown.start),
        shown.operations,
    )
    .ok()
}

// The digest of the canonical string of the proof's parts, over this root of the grafted tree.
fn sealed_root<F: PendingOf<H::Digest>, H: HashFunction>(
    proof: &RangeProof<F, H::Digest>,
    grafted: &H::Digest,
    next: u64,
) -> H::Digest
    ensures { let parts = range_parts_of H.Digest.encoding F.held proof.now in
        H.Digest.encoding result
        ≡ H.hash_of (canonical_string parts.operations_root
        (H.Digest.encoding grafted.now) parts.pending next parts.partial) }
{
    let pending = F::digest_of(&proof.pending_chunk_digest);
    seal::<H>(
        &proof.ops_root,
        grafted,
        &pending,
        next,
        &proof.partial_chunk_digest,
    )
}

// The canonical root that the proof leads to from what is shown. None: it leads to none.
pub(crate) fn led_root<F: Graftable + PendingOf<H::Digest>, H: HashFunction, C: AsSlice<u8>>(
    proof: &RangeProof<F, H::Digest>,
    shown: &Shown<'_, C>,
) -> Option<H::Digest>
    ensures { MatchOption result
        (LeadsNowhere F.merge_rule H.hash_of (range_parts_of H.Digest.encoding F.held proof.now)
        (form_shown_of C.items shown.now))
        (λ root. VerifiesRange F.merge_rule H.hash_of (H.Digest.encoding root)
        (range_parts_of H.Digest.encoding F.held proof.now) (form_shown_of C.items shown.now)) }
{
    let leaves = proof.proof.leaves.as_u64();
    if leaves > MAX_LEAVES {
        return None;
    }
    if !is_shaped(shown, leaves) {
        return None;
    }
    let graftable = graftable_chunks_of::<F>(leaves, shown.chunk_size);
    if !fits_shown::<F, H, C>(proof, shown, graftable) {
        return None;
    }
    let Some(grafted) = shown_root::<F, H, C>(proof, shown, graftable) else {
        return None;
    };
    let next = shown.chunk_size.bit_of(leaves);
    Some(sealed_root::<F, H>(proof, &grafted, next))
}

// Whether the proof shows it.
fn verifies_shown<F: Graftable + PendingOf<H::Digest>, H: HashFunction, C: AsSlice<u8>>(
    proof: &RangeProof<F, H::Digest>,
    shown: &Shown<'_, C>,
    root: &H::Digest,
) -> bool
    ensures { IsTrue result ↔ VerifiesRange F.merge_rule H.hash_of (H.Digest.encoding root.now)
        (range_parts_of H.Digest.encoding F.held proof.now) (form_shown_of C.items shown.now) }
{
    match led_root::<F, H, C>(proof, shown) {
        None => false,
        Some(led) => led == *root,
    }
}

// Whether the proof shows these encoded operations from a location on, with these chunks over them of so many bytes
// each.
fn verifies_chunks<F: Graftable + PendingOf<H::Digest>, H: HashFunction, C: AsSlice<u8>>(
    proof: &RangeProof<F, H::Digest>,
    start: u64,
    operations: &[&[u8]],
    chunks: &[C],
    width: usize,
    root: &H::Digest,
) -> bool
    ensures { IsTrue result ↔ VerifiesRange F.merge_rule H.hash_of (H.Digest.encoding root.now)
        (range_parts_of H.Digest.encoding F.held proof.now)
        (record {
          start = start;
          operations = map (λ operation. operation.now) operations.now;
          chunks = map C.items chunks.now;
          width = width;
        }) }
{
    let Some(chunk_size) = ChunkSize::new(width) else {
        return false;
    };
    let shown = Shown {
        start,
        operations,
        chunks,
        chunk_size,
    };
    verifies_shown::<F, H, C>(proof, &shown, root)
}

impl<F: Graftable + PendingOf<D>, D: Digest> RangeProof<F, D> {
    /// Whether the proof shows that these encoded operations stand in the state of this root from a location on, and
    /// that the chunks over them, of so many bytes each, are these. It does not where there is no operation, one stands
    /// past the leaves, the chunks are not as many or not as wide, or their bits are no power of two or more than 2^62;
    /// nor where more than one full chunk has no node, or the digest of the pending or of the partial chunk is missing,
    /// is held without its chunk, or is not that of the chunk that is shown.
    /// In the Rust: `qmdb::current::proof::RangeProof::verify_with_chunk_size`, which encodes the operations itself.
    pub fn verify_with_chunk_size<H: HashFunction<Digest = D>>(
        &self,
        start_loc: Location<F>,
        operations: &[&[u8]],
        chunks: &[&[u8]],
        chunk_size: usize,
        root: &D,
    ) -> bool
        ensures { IsTrue result ↔ VerifiesRange F.merge_rule H.hash_of (D.encoding root.now)
            (range_parts_of D.encoding F.held self.now)
            (record {
              start = start_loc;
              operations = map (λ operation. operation.now) operations.now;
              chunks = map (λ chunk. chunk.now) chunks.now;
              width = chunk_size;
            }) }
    {
        let start = start_loc.as_u64();
        verifies_chunks::<F, H, _>(self, start, operations, chunks, chunk_size, root)
    }

    /// Whether the proof shows that these encoded operations stand in the state of this root from a location on, and
    /// that the chunks over them, of N bytes each, are these. It does not where `verify_with_chunk_size` says no. It
    /// takes no memory. In the Rust: `qmdb::current::proof::RangeProof::verify`, which encodes the operations itself.
    pub fn verify<H: HashFunction<Digest = D>, const N: usize>(
        &self,
        start_loc: Location<F>,
        operations: &[&[u8]],
        chunks: &[[u8; N]],
        root: &D,
    ) -> bool
        ensures { IsTrue result ↔ VerifiesRange F.merge_rule H.hash_of (D.encoding root.now)
            (range_parts_of D.encoding F.held self.now)
            (record {
              start = start_loc;
              operations = map (λ operation. operation.now) operations.now;
              chunks = chunks.now;
              width = N;
            }) }
    {
        let start = start_loc.as_u64();
        verifies_chunks::<F, H, _>(self, start, operations, chunks, N, root)
    }
}
