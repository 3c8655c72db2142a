//! Proofs of what is kept.

ghost use Rattle.std.specs.Prelude.{◌≡◌, ◌<◌, ◌≤◌, ◌+◌, ◌*◌, ◌/◌, ◌^◌, ℕ, map, length, IfOk, IfErr};
ghost use Rattle.merkle_forest.specs.declared.bagging.Bagging.TheVariants.{BackwardFold};
ghost use Rattle.merkle_forest.specs.Trees.{inactive_peaks};
ghost use Rattle.merkle_theory.specs.MadeRoots.{peaks_of};
ghost use Rattle.merkle_theory.specs.Plans.{IsRefusalToProveNow, honest_digests};
ghost use Rattle.merkle_core_parts.specs.Mem.{node_at, plain_leaf_digests, plain_node, tree_digest};
ghost use Rattle.merkle_core_parts.specs.declared.error.Error.TheVariants.{Memory as NoMemory};
ghost use Rattle.state_theory.specs.Bits.{all_bits};
ghost use Rattle.state_proofs.specs.Built.{IsRefusalOfLocated, IsRefusalOfPlanned};
ghost use Rattle.state_proofs.specs.BuiltCode.{measures_with, source_of, span_of};
ghost use Rattle.state_theory.specs.Canonical.{State, setting_with};
ghost use Rattle.state_theory.specs.Honest.{honest_parts, honest_range};
ghost use Rattle.state_proofs.specs.ProofsCode.{parts_of, range_parts_of};
ghost use Rattle.state_current.specs.Kept.{StandsFor, read_of};

use merkle_core::proof::Proof as LogProof;
use merkle_core::{Mem, building, error};
use merkle_forest::hasher::{HashFunction, Hasher, Standard};
use merkle_forest::peaks::inactive_count;
use merkle_forest::{Bagging, Graftable, Location, PendingOf};
use state_current::Current;
use state_proofs::operation::Proof;
use state_proofs::{Error, RangeProof};
use state_proofs_parts::Prunable;
use state_proofs_parts::grafting::storage::Storage;
use std::alloc::Global;
use std::ops::Range;

/// The proof over a range of operations. It is the honest one of the state, whatever is pruned. Where the range is
/// empty: Q3 with M4; where it ends past the operations: Q3 with M5 and its end; where it begins before the pruned
/// chunks, and a node that the proof is made of is gone: Q3 with M10 and the first such position; out of memory: Q4
/// (own).
pub fn range_proof<F: Graftable + PendingOf<H::Digest>, H: HashFunction, const N: usize>(
    alloc: Global,
    current: &Current<F, H, N>,
    range: Range<Location<F>>,
) -> Result<RangeProof<F, H::Digest>, Error<F>>
    ensures honest { (height : ℕ) (state : State) → let setting = setting_with F.merge_rule H.hash_of N height in
        StandsFor setting state current.now → IfOk result (λ proof. range_parts_of H.Digest.encoding F.held proof
        ≡ honest_range setting state range.start range.end) }
    ensures refused { (height : ℕ) → 8 * N ≡ 2 ^ height
        → IfErr result (IsRefusalOfPlanned (measures_with F.merge_rule N height)
        (source_of (span_of current.now.operations.leaves range.start range.end) (all_bits N current.now.bits)
        current.now.bits.pruned (read_of F.merge_rule H.hash_of height current.now))) }
    ensures there { 8 * N * current.now.bits.pruned ≤ range.start → range.start < range.end
        → range.end ≤ current.now.operations.leaves → IfErr result (λ e. e ≡ Error.Memory) }
{
    let height = current.chunk_size().grafting_height;
    let operations = current.operations();
    let chunks = current.chunks();
    let _leaves = operations.leaves();
    let _boundary = operations.pruning_boundary();
    let _chunks = chunks.pruning_boundary();
    let tree: Storage<'_, F, H, Mem<F, H::Digest>, Mem<F, H::Digest>> = Storage::new(
        chunks, height, operations,
    );
    RangeProof::new::<H, Prunable<N>, _, N>(
        alloc,
        current.bits(),
        &tree,
        current.floor(),
        range,
        current.root_of_operations(),
    )
}

/// The proof of the operation at a location. It is the honest one of the state, whatever is pruned. Where its chunk
/// is pruned: Q2; where there is no such operation: Q3 with M7 and the location; out of memory: Q4 (own).
pub fn operation_proof<F: Graftable + PendingOf<H::Digest>, H: HashFunction, const N: usize>(
    alloc: Global,
    current: &Current<F, H, N>,
    location: Location<F>,
) -> Result<Proof<F, H::Digest>, Error<F>>
    ensures honest { (height : ℕ) (state : State) → let setting = setting_with F.merge_rule H.hash_of N height in
        StandsFor setting state current.now → IfOk result (λ proof. parts_of H.Digest.encoding F.held proof
        ≡ honest_parts setting state location) }
    ensures refused { (height : ℕ) → 8 * N ≡ 2 ^ height
        → IfErr result (IsRefusalOfLocated (measures_with F.merge_rule N height)
        (source_of (span_of current.now.operations.leaves location (location + 1)) (all_bits N current.now.bits)
        current.now.bits.pruned (read_of F.merge_rule H.hash_of height current.now)) location) }
    ensures there { 8 * N * current.now.bits.pruned ≤ location → location < current.now.operations.leaves
        → IfErr result (λ e. e ≡ Error.Memory) }
{
    let height = current.chunk_size().grafting_height;
    let operations = current.operations();
    let chunks = current.chunks();
    let _leaves = operations.leaves();
    let _boundary = operations.pruning_boundary();
    let _chunks = chunks.pruning_boundary();
    let tree: Storage<'_, F, H, Mem<F, H::Digest>, Mem<F, H::Digest>> = Storage::new(
        chunks, height, operations,
    );
    Proof::new::<H, Prunable<N>, _, N>(
        alloc,
        current.bits(),
        &tree,
        current.floor(),
        location,
        current.root_of_operations(),
    )
}

/// The proof over a range of operations under the root of their tree alone. Its digests are those of the state's
/// tree, whatever is pruned. Where the range is empty: M4; where it ends past the operations: M5 with its end;
/// where it begins before the pruned operations, and a node that the proof is made of is gone: M10 with the first
/// such position; out of memory: M23 (own).
pub fn log_proof<F: Graftable, H: HashFunction, const N: usize>(
    alloc: Global,
    current: &Current<F, H, N>,
    range: Range<Location<F>>,
) -> Result<LogProof<F, H::Digest>, error::Error<F>>
    ensures leaves { IfOk result (λ proof. proof.leaves ≡ current.now.operations.leaves) }
    ensures inactive { IfOk result (λ proof. proof.inactive_peaks
        ≡ inactive_peaks current.now.floor (peaks_of F.merge_rule current.now.operations.leaves)) }
    ensures honest { (height : ℕ) (state : State) → let setting = setting_with F.merge_rule H.hash_of N height in
        StandsFor setting state current.now → IfOk result (λ proof. map H.Digest.encoding proof.digests.items
        ≡ honest_digests H.hash_of (tree_digest (plain_node H.hash_of)
        (plain_leaf_digests H.hash_of F.merge_rule 0 state.operations)) BackwardFold F.merge_rule
        (length state.operations) (inactive_peaks state.floor (peaks_of F.merge_rule (length state.operations)))
        range.start range.end) }
    ensures refused { IfErr result (IsRefusalToProveNow F.merge_rule
        (span_of current.now.operations.leaves range.start range.end)
        (inactive_peaks current.now.floor (peaks_of F.merge_rule current.now.operations.leaves))
        (node_at F.merge_rule current.now.operations)) }
    ensures there { 8 * N * current.now.bits.pruned ≤ range.start → range.start < range.end
        → range.end ≤ current.now.operations.leaves → IfErr result (λ e. e ≡ NoMemory) }
{
    let hasher: Standard<H> = Standard::new(Bagging::BackwardFold);
    let operations = current.operations();
    let leaves = operations.leaves().as_u64();
    let _boundary = operations.pruning_boundary();
    let inactive = inactive_count::<F>(leaves, current.floor().as_u64());
    building::range_proof(alloc, &hasher, operations, range, inactive)
}
