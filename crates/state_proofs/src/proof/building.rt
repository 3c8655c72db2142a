//! Proofs over a range of operations that are built out of known nodes and the bits of a bitmap.

ghost use Rattle.std.specs.Prelude.{◌≡◌, ◌<◌, ◌≤◌, ◌*◌, ◌/◌, ◌%◌, ◌^◌, ◌==◌, ℕ, Some, None, map, length, drop, min};
ghost use Rattle.std.specs.Prelude.{nat_lt, if◌then◌else◌, IfOk, IfErr, OnOk, option_map};
ghost use Rattle.merkle_theory.specs.MadeRoots.{peaks_of};
ghost use Rattle.merkle_theory.specs.Plans.{Lookup, AnswersAs, IsWithinTree, first_missing, honest_digests, looked_up};
ghost use Rattle.merkle_theory.specs.Plans.{range_positions};
ghost use Rattle.merkle_forest.specs.declared.bagging.Bagging.TheVariants.{BackwardFold};
ghost use Rattle.merkle_forest.specs.Forest.{forest_of};
ghost use Rattle.merkle_forest.specs.Nodes.{nodes_of_height};
ghost use Rattle.state_proofs.specs.declared.error.Error.TheVariants.{DataCorrupted};
ghost use Rattle.state_theory.specs.Bits.{IsChunkWidth, chunk_of};
ghost use Rattle.state_proofs.specs.Built.{AreApart, IsBuildable, IsRefusalOfNodes, IsRefusalOfPlanned};
ghost use Rattle.state_proofs.specs.Built.{IsRefusalOfSource, lifted};
ghost use Rattle.state_theory.specs.Sources.{IsSourceOf};
ghost use Rattle.state_proofs.specs.BuiltCode.{measures_with, source_of, span_of};
ghost use Rattle.state_theory.specs.Canonical.{State, operations_root, partial_digest as partial_of};
ghost use Rattle.state_theory.specs.Canonical.{pending_digest as pending_of, setting_with};
ghost use Rattle.state_theory.specs.Grafting.{chunk_aligned_inactive_peaks as aligned_peaks};
ghost use Rattle.state_theory.specs.Honest.{honest_range};
ghost use Rattle.state_proofs.specs.ProofsCode.{range_parts_of};
ghost use Rattle.state_proofs.specs.Required.{IsCorrupted};
ghost use Rattle.state_proofs.specs.RequiredCode.{measures_of, asked_of};

use crate::error::Error;
use crate::proof::RangeProof;
use crate::required::graftable_window;
use merkle_core::{Proof, RangePlan, Readable, error};
use merkle_forest::bagging::Bagging;
use merkle_forest::hasher::{HashFunction, Standard};
use merkle_forest::{Digest, Graftable, Location, MAX_LEAVES, PendingOf};
use state_proofs_parts::bitmap::BitmapReadable;
use state_proofs_parts::chunk_size::ChunkSize;
use state_proofs_parts::grafting::chunk_aligned_inactive_peaks;
use std::alloc::Global;
use std::ops::Range;

// An error of the Merkle layer as one of this crate.
pub(crate) fn lift<F: Graftable>(e: error::Error<F>) -> Error<F>
    ensures { result ≡ lifted e }
{
    match e {
        error::Error::Memory => Error::Memory,
        other => Error::Merkle(other),
    }
}

// The digest of the chunk that the last bits fill in part, if any.
fn partial_digest<B: BitmapReadable<N>, H: HashFunction, const N: usize>(
    status: &B,
    chunk_size: ChunkSize,
) -> Option<H::Digest>
    requires { chunk_size.width ≡ N }
    ensures { let bits = B.bits status.now in let count : ℕ = length bits in
        option_map H.Digest.encoding result ≡ (if count % (8 * N) == 0 then None
        else Some (H.hash_of (chunk_of N (drop (8 * N * (count / (8 * N))) bits)))) }
{
    let count = status.len();
    if chunk_size.bit_of(count) == 0 {
        return None;
    }
    let chunk = status.get_chunk(chunk_size.full_chunks(count));
    Some(H::hash(&[&chunk]))
}

// The digest of the chunk that is full and has no node yet, if any. Where more than one is, or a pruned one has none:
// Q1.
fn pending_digest<F: Graftable, B: BitmapReadable<N>, H: HashFunction, const N: usize>(
    status: &B,
    chunk_size: ChunkSize,
    leaves: Location<F>,
) -> Result<Option<H::Digest>, Error<F>>
    requires width { chunk_size.width ≡ N }
    requires few { leaves ≤ MAX_LEAVES }
    ensures digest { let bits = B.bits status.now in
        let full : ℕ = length bits / (8 * N) in
        let graftable = min (nodes_of_height chunk_size.grafting_height (forest_of F.merge_rule leaves)) full in
        IfOk result (λ digest. option_map H.Digest.encoding digest ≡ (if nat_lt graftable full
        then Some (H.hash_of (chunk_of N (drop (8 * N * graftable) bits))) else None)) }
    ensures sound { OnOk result (IsCorrupted (measures_of F.merge_rule chunk_size)
        (asked_of leaves (length (B.bits status.now)) (B.pruned status.now) None) → ⊥) }
    ensures refused { IfErr result (λ e. (e ≡ DataCorrupted) × IsCorrupted (measures_of F.merge_rule chunk_size)
        (asked_of leaves (length (B.bits status.now)) (B.pruned status.now) None)) }
{
    let complete = chunk_size.full_chunks(status.len());
    let pruned = status.pruned_chunks();
    let Some(graftable) = graftable_window::<F>(chunk_size, leaves, complete, pruned) else {
        return Err(Error::DataCorrupted);
    };
    if graftable >= complete {
        return Ok(None);
    }
    let chunk = status.get_chunk(graftable);
    Ok(Some(H::hash(&[&chunk])))
}

// The proof in the grafted tree, of which the first peaks that end at a chunk's border before the floor are inactive.
fn grafted_proof<F: Graftable, H: HashFunction, G: Fn(u64) -> Option<H::Digest>>(
    plan: &RangePlan<F>,
    chunk_size: ChunkSize,
    get_node: &G,
    floor: Location<F>,
) -> Result<Proof<F, H::Digest>, Error<F>>
    requires { G.IsAlwaysCallable get_node.now }
    ensures leaves { IfOk result (λ proof. proof.leaves ≡ plan.now.leaves) }
    ensures few { OnOk result (plan.now.leaves ≤ MAX_LEAVES) }
    ensures inactive { IfOk result (λ proof. proof.inactive_peaks
        ≡ aligned_peaks (2 ^ chunk_size.grafting_height) floor (peaks_of F.merge_rule plan.now.leaves)) }
    ensures digests { (known : Lookup) → AnswersAs (G.post get_node.now) H.Digest.encoding known
        → IfOk result (λ proof. map H.Digest.encoding proof.digests.items
        ≡ honest_digests H.hash_of (looked_up known) BackwardFold F.merge_rule plan.now.leaves
        (aligned_peaks (2 ^ chunk_size.grafting_height) floor (peaks_of F.merge_rule plan.now.leaves))
        plan.now.start plan.now.stop) }
    ensures known { (known : Lookup) → AnswersAs (G.post get_node.now) H.Digest.encoding known
        → OnOk result (first_missing known (range_positions F.merge_rule plan.now.leaves plan.now.start plan.now.stop)
        ≡ None) }
    ensures refused { (known : Lookup) → AnswersAs (G.post get_node.now) H.Digest.encoding known
        → IfErr result (IsRefusalOfNodes F.merge_rule plan.now known) }
{
    let inactive = match chunk_aligned_inactive_peaks::<F>(
        plan.leaves(),
        floor,
        chunk_size.grafting_height,
    ) {
        Ok(inactive) => inactive,
        Err(e) => return Err(lift(e)),
    };
    let hasher: Standard<H> = Standard::new(Bagging::BackwardFold);
    match plan.build(&hasher, inactive, get_node) {
        Ok(proof) => Ok(proof),
        Err(e) => Err(lift(e)),
    }
}

// What a proof holds of the chunks that are not joined in: of the pending one and of the partial one. Where the bits
// are not as many as the operations, more than one chunk is pending, or a pruned one has no node: Q1.
fn held_digests<
    F: Graftable + PendingOf<H::Digest>,
    B: BitmapReadable<N>,
    H: HashFunction,
    const N: usize,
>(
    status: &B,
    chunk_size: ChunkSize,
    leaves: Location<F>,
) -> Result<(F::Pending, Option<H::Digest>), Error<F>>
    requires width { chunk_size.width ≡ N }
    requires few { leaves ≤ MAX_LEAVES }
    ensures honest { (state : State) → length state.operations ≡ leaves → B.bits status.now ≡ state.bits
        → let setting = setting_with F.merge_rule H.hash_of chunk_size.width chunk_size.grafting_height in
        IfOk result (λ held. (F.held held.0 ≡ pending_of setting state)
        × (option_map H.Digest.encoding held.1 ≡ partial_of setting state)) }
    ensures counted { OnOk result (length (B.bits status.now) ≡ leaves) }
    ensures together { OnOk result (AreApart (measures_of F.merge_rule chunk_size)
        (asked_of leaves (length (B.bits status.now)) (B.pruned status.now) None) → ⊥) }
    ensures refused { IfErr result (λ e. (e ≡ DataCorrupted) × AreApart (measures_of F.merge_rule chunk_size)
        (asked_of leaves (length (B.bits status.now)) (B.pruned status.now) None)) }
{
    if status.len() != leaves.as_u64() {
        return Err(Error::DataCorrupted);
    }
    let pending = pending_digest::<F, B, H, N>(status, chunk_size, leaves)?;
    let partial = partial_digest::<B, H, N>(status, chunk_size);
    Ok((F::hold(pending).unwrap(), partial))
}

impl<F: Graftable + PendingOf<D>, D: Digest> RangeProof<F, D> {
    /// The proof over a planned range, from the digests of nodes that a function gives, the state's bits and floor and
    /// the root of its operations' tree. It is the honest one where all these are of one state. Where the function
    /// gives no digest for a node that the proof is made of: Q3 with M10 and the first such position; where the bits
    /// are not as many as the operations, more than one full chunk has no node, or a pruned one has none: Q1, in this
    /// order; out of memory: Q4.
    /// In the Rust: `qmdb::current::proof::RangeProof::build`, which takes the plan.
    pub fn build<
        H: HashFunction<Digest = D>,
        B: BitmapReadable<N>,
        G: Fn(u64) -> Option<D>,
        const N: usize,
    >(
        status: &B,
        plan: &RangePlan<F>,
        get_node: &G,
        inactivity_floor: Location<F>,
        ops_root: D,
    ) -> Result<RangeProof<F, D>, Error<F>>
        requires width { IsChunkWidth N }
        requires callable { G.IsAlwaysCallable get_node.now }
        ensures honest { (height : ℕ) (known : Lookup) (state : State) → 8 * N ≡ 2 ^ height
            → AnswersAs (G.post get_node.now) D.encoding known
            → let setting = setting_with F.merge_rule H.hash_of N height in
            IsSourceOf setting state (source_of plan.now (B.bits status.now) (B.pruned status.now) known)
            → state.floor ≡ inactivity_floor → operations_root setting state ≡ D.encoding ops_root
            → IfOk result (λ proof. range_parts_of D.encoding F.held proof
            ≡ honest_range setting state plan.now.start plan.now.stop) }
        ensures counted { OnOk result (length (B.bits status.now) ≡ plan.now.leaves) }
        ensures buildable { (height : ℕ) (known : Lookup) → 8 * N ≡ 2 ^ height
            → AnswersAs (G.post get_node.now) D.encoding known
            → OnOk result (IsBuildable (measures_with F.merge_rule N height)
            (source_of plan.now (B.bits status.now) (B.pruned status.now) known)) }
        ensures refused { (height : ℕ) (known : Lookup) → 8 * N ≡ 2 ^ height
            → AnswersAs (G.post get_node.now) D.encoding known
            → IfErr result (IsRefusalOfSource (measures_with F.merge_rule N height)
            (source_of plan.now (B.bits status.now) (B.pruned status.now) known)) }
    {
        let chunk_size = ChunkSize::of_bytes::<N>();
        let leaves = plan.leaves();
        let proof = grafted_proof::<F, H, G>(plan, chunk_size, get_node, inactivity_floor)?;
        let Ok((pending_chunk_digest, partial_chunk_digest)) = held_digests::<F, B, H, N>(
            status, chunk_size, leaves,
        ) else {
            return Err(Error::DataCorrupted);
        };
        Ok(RangeProof {
            proof,
            pending_chunk_digest,
            partial_chunk_digest,
            ops_root,
        })
    }

    /// The proof over a range of the operations of a tree, whose nodes are read, with the state's bits and floor and
    /// the root of its operations' tree. It is the honest one where all these are of one state. Where the range is
    /// empty: Q3 with M4; where it ends past the operations: Q3 with M5 and its end; then it is refused as `build`
    /// refuses.
    /// In the Rust: `qmdb::current::proof::RangeProof::new`.
    pub fn new<
        H: HashFunction<Digest = D>,
        B: BitmapReadable<N>,
        S: Readable<F, Digest = D>,
        const N: usize,
    >(
        alloc: Global,
        status: &B,
        storage: &S,
        inactivity_floor: Location<F>,
        range: Range<Location<F>>,
        ops_root: D,
    ) -> Result<RangeProof<F, D>, Error<F>>
        requires { IsChunkWidth N }
        ensures honest { (height : ℕ) (state : State) → 8 * N ≡ 2 ^ height
            → let setting = setting_with F.merge_rule H.hash_of N height in
            let span = span_of (S.leaf_total storage.now) range.start range.end in
            IsSourceOf setting state
            (source_of span (B.bits status.now) (B.pruned status.now) (S.digest_at storage.now))
            → state.floor ≡ inactivity_floor → operations_root setting state ≡ D.encoding ops_root
            → IfOk result (λ proof. range_parts_of D.encoding F.held proof
            ≡ honest_range setting state range.start range.end) }
        ensures counted { OnOk result (length (B.bits status.now) ≡ S.leaf_total storage.now) }
        ensures within { OnOk result (IsWithinTree
            (span_of (S.leaf_total storage.now) range.start range.end)) }
        ensures buildable { (height : ℕ) → 8 * N ≡ 2 ^ height
            → let span = span_of (S.leaf_total storage.now) range.start range.end in
            OnOk result (IsBuildable (measures_with F.merge_rule N height)
            (source_of span (B.bits status.now) (B.pruned status.now) (S.digest_at storage.now))) }
        ensures refused { (height : ℕ) → 8 * N ≡ 2 ^ height
            → let span = span_of (S.leaf_total storage.now) range.start range.end in
            IfErr result (IsRefusalOfPlanned (measures_with F.merge_rule N height)
            (source_of span (B.bits status.now) (B.pruned status.now) (S.digest_at storage.now))) }
    {
        let leaves = Location::new(storage.leaf_count());
        let plan = match RangePlan::new(alloc, leaves, range) {
            Ok(plan) => plan,
            Err(e) => return Err(lift(e)),
        };
        RangeProof::build::<H, B, _, N>(
            status,
            &plan,
            &|position| storage.node_digest(position),
            inactivity_floor,
            ops_root,
        )
    }
}
