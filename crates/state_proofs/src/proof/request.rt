//! Proofs over as many operations as are asked for, with these and their chunks.

ghost use Rattle.std.specs.Prelude.{◌≡◌, ◌<◌, ◌≤◌, ◌⊎◌, ◌+◌, ◌-◌, ◌*◌, ◌/◌, ◌^◌, ℕ, length, take, drop, map, IfOk};
ghost use Rattle.std.specs.Prelude.{IfErr, OnOk};
ghost use Rattle.std.specs.List.{range_with_len};
ghost use Rattle.std.specs.NonZero.{non_zero_u64_get};
ghost use Rattle.state_proofs.specs.declared.error.Error.TheVariants.{Memory};
ghost use Rattle.state_theory.specs.Bits.{IsChunkWidth, chunks_of};
ghost use Rattle.state_proofs.specs.Built.{IsBuildable};
ghost use Rattle.state_theory.specs.Sources.{IsSourceOf};
ghost use Rattle.state_proofs.specs.BuiltCode.{measures_with, source_of, span_of};
ghost use Rattle.state_theory.specs.Canonical.{State, operations_root, setting_with};
ghost use Rattle.state_theory.specs.Honest.{honest_range};
ghost use Rattle.state_proofs.specs.ProofsCode.{range_parts_of};
ghost use Rattle.state_proofs.specs.Requests.{HasStart, IsRefusalOfRequest, chunks_between, end_of};

use crate::error::Error;
use crate::log_read::LogRead;
use crate::proof::RangeProof;
use merkle_core::{Readable, error};
use merkle_forest::hasher::HashFunction;
use merkle_forest::{Digest, Graftable, Location, PendingOf};
use state_proofs_parts::bitmap::BitmapReadable;
use state_proofs_parts::chunk_size::ChunkSize;
use std::alloc::{AllocError, Global};
use std::num::NonZeroU64;

/// What is asked for: at most so many operations from a location on, with a proof over them, of a state with this floor
/// and this root of its operations' tree. In the Rust: `qmdb::current::proof::RangeProofSpec`.
#[derive_where(Clone, Copy, Debug, PartialEq, Eq)]
pub struct RangeProofSpec<F: Graftable, D: Digest> {
    /// The location of the first operation.
    pub start_loc: Location<F>,
    /// How many operations are wanted at most.
    pub max_ops: NonZeroU64,
    /// The state's floor.
    pub inactivity_floor: Location<F>,
    /// The root of the operations' tree.
    pub ops_root: D,
}

// So many chunks from one on.
fn chunks_from<B: BitmapReadable<N>, const N: usize>(
    alloc: Global,
    status: &B,
    first: u64,
    count: u64,
) -> Result<Vec<[u8; N]>, AllocError>
    requires width { IsChunkWidth N }
    requires kept { B.pruned status.now ≤ first }
    requires within { (index : ℕ) → index < first + count → 8 * N * index < length (B.bits status.now) }
    requires few { first + count < 2 ^ 64 }
    ensures { IfOk result (λ chunks. chunks.items
        ≡ chunks_of N count (drop (8 * N * first) (B.bits status.now))) }
{
    let mut chunks = Vec::new(alloc);
    for index in first..first + count {
        chunks.push(status.get_chunk(index))?;
    }
    Ok(chunks)
}

// The places from one up to another.
fn places_between(alloc: Global, start: u64, stop: u64) -> Result<Vec<u64>, AllocError>
    ensures { IfOk result (λ places. places.items ≡ range_with_len start (stop - start)) }
{
    let mut places = Vec::new(alloc);
    for place in start..stop {
        places.push(place)?;
    }
    Ok(places)
}

// The operations of a log from one place up to another.
fn operations_between<F: Graftable, L: LogRead<F>>(
    alloc: Global,
    log: &L,
    start: u64,
    stop: u64,
) -> Result<Vec<L::Operation>, Error<F>>
    requires { start < stop }
    ensures found { IfOk result (λ found. map L.Operation.encoding found.items
        ≡ take (stop - start) (drop start (L.operations log.now))) }
    ensures there { OnOk result (stop ≤ length (L.operations log.now)) }
    ensures refused { IfErr result (λ e. (e ≡ Memory) ⊎ L.refuses log.now e) }
{
    let places = places_between(alloc, start, stop)?;
    log.read_many(alloc, &places)
}

// The chunks with the bits from one location up to another.
fn chunks_between_locations<B: BitmapReadable<N>, const N: usize>(
    alloc: Global,
    status: &B,
    start: u64,
    stop: u64,
) -> Result<Vec<[u8; N]>, AllocError>
    requires width { IsChunkWidth N }
    requires some { start < stop }
    requires within { stop ≤ length (B.bits status.now) }
    requires kept { B.pruned status.now ≤ start / (8 * N) }
    ensures { IfOk result (λ chunks. chunks.items ≡ chunks_between N start stop (B.bits status.now)) }
{
    let chunk_size = ChunkSize::of_bytes::<N>();
    let first = chunk_size.index_of(start);
    let last = chunk_size.index_of(stop - 1);
    chunks_from(alloc, status, first, last + 1 - first)
}

impl<F: Graftable + PendingOf<D>, D: Digest> RangeProof<F, D> {
    /// At most so many operations from a location on, up to the last bit, with the proof over them and the chunks with
    /// their bits. The proof is the honest one where tree, bits, floor and root are of one state. Where the first
    /// operation has no bit: Q3 with M5 and its location; where its chunk is pruned: Q2; then it is refused as `new`
    /// refuses, then as the log does; out of memory: Q4.
    /// In the Rust: `qmdb::current::proof::RangeProof::new_with_ops`.
    pub fn new_with_ops<
        H: HashFunction<Digest = D>,
        B: BitmapReadable<N>,
        S: Readable<F, Digest = D>,
        L: LogRead<F>,
        const N: usize,
    >(
        alloc: Global,
        status: &B,
        storage: &S,
        log: &L,
        request: RangeProofSpec<F, D>,
    ) -> Result<(RangeProof<F, D>, Vec<L::Operation>, Vec<[u8; N]>), Error<F>>
        requires width { IsChunkWidth N }
        ensures honest { (height : ℕ) (state : State) → 8 * N ≡ 2 ^ height
            → let setting = setting_with F.merge_rule H.hash_of N height in
            let stop = end_of request.start_loc (non_zero_u64_get request.max_ops) (length (B.bits status.now)) in
            let span = span_of (S.leaf_total storage.now) request.start_loc stop in
            IsSourceOf setting state
            (source_of span (B.bits status.now) (B.pruned status.now) (S.digest_at storage.now))
            → state.floor ≡ request.inactivity_floor → operations_root setting state ≡ D.encoding request.ops_root
            → IfOk result (λ it. range_parts_of D.encoding F.held it.0
            ≡ honest_range setting state request.start_loc stop) }
        ensures operations { let stop = end_of request.start_loc (non_zero_u64_get request.max_ops)
            (length (B.bits status.now)) in
            IfOk result (λ it. map L.Operation.encoding it.1.items
            ≡ take (stop - request.start_loc) (drop request.start_loc (L.operations log.now))) }
        ensures there { let stop = end_of request.start_loc (non_zero_u64_get request.max_ops)
            (length (B.bits status.now)) in
            OnOk result (stop ≤ length (L.operations log.now)) }
        ensures chunks { let stop = end_of request.start_loc (non_zero_u64_get request.max_ops)
            (length (B.bits status.now)) in
            IfOk result (λ it. it.2.items
            ≡ chunks_between N request.start_loc stop (B.bits status.now)) }
        ensures begun { (height : ℕ) → 8 * N ≡ 2 ^ height
            → let stop = end_of request.start_loc (non_zero_u64_get request.max_ops) (length (B.bits status.now)) in
            let span = span_of (S.leaf_total storage.now) request.start_loc stop in
            OnOk result (HasStart (measures_with F.merge_rule N height)
            (source_of span (B.bits status.now) (B.pruned status.now) (S.digest_at storage.now))) }
        ensures buildable { (height : ℕ) → 8 * N ≡ 2 ^ height
            → let stop = end_of request.start_loc (non_zero_u64_get request.max_ops) (length (B.bits status.now)) in
            let span = span_of (S.leaf_total storage.now) request.start_loc stop in
            OnOk result (IsBuildable (measures_with F.merge_rule N height)
            (source_of span (B.bits status.now) (B.pruned status.now) (S.digest_at storage.now))) }
        ensures refused { (height : ℕ) → 8 * N ≡ 2 ^ height
            → let stop = end_of request.start_loc (non_zero_u64_get request.max_ops) (length (B.bits status.now)) in
            let span = span_of (S.leaf_total storage.now) request.start_loc stop in
            IfErr result (IsRefusalOfRequest (measures_with F.merge_rule N height)
            (source_of span (B.bits status.now) (B.pruned status.now) (S.digest_at storage.now))
            (L.refuses log.now)) }
    {
        let count = status.len();
        let start = request.start_loc.as_u64();
        if start >= count {
            let error = error::Error::RangeOutOfBounds(request.start_loc);
            return Err(Error::Merkle(error));
        }
        if ChunkSize::of_bytes::<N>().index_of(start) < status.pruned_chunks() {
            return Err(Error::OperationPruned(request.start_loc));
        }
        let stop = start.saturating_add(request.max_ops.get()).min(count);
        let proof = RangeProof::new::<H, B, S, N>(
            alloc,
            status,
            storage,
            request.inactivity_floor,
            request.start_loc..Location::new(stop),
            request.ops_root,
        )?;
        let operations = operations_between(alloc, log, start, stop)?;
        let chunks = chunks_between_locations(alloc, status, start, stop)?;
        Ok((proof, operations, chunks))
    }
}
