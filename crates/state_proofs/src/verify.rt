//! Proofs against the root of the operations' tree alone: their elements are the encodings of operations, and the peaks
//! are folded backward. In the Rust: `qmdb::verify`.

ghost use Rattle.std.specs.Prelude.{◌≡◌, ◌+◌, ◌≤◌, ◌↔◌, ℕ, List, map, length, replicate, Some, None, IsTrue, IfOk};
ghost use Rattle.std.specs.Prelude.{IfErr, OnOk};
ghost use Rattle.merkle_forest.specs.declared.bagging.Bagging.TheVariants.{BackwardFold};
ghost use Rattle.merkle_proofs.specs.Extracted.{AreMadeOf, AreGiven, AreExtracted, extracted_nodes, IsRefusalToExtract};
ghost use Rattle.merkle_theory.specs.MadeRoots.{from_left, peaks_of};
ghost use Rattle.merkle_theory.specs.MadeTrees.{from};
ghost use Rattle.merkle_theory.specs.Multi.{AreMultiDigests, first_bad};
ghost use Rattle.merkle_theory.specs.Pinned.{ArePinned};
ghost use Rattle.merkle_theory.specs.Plans.{honest_digests};
ghost use Rattle.merkle_proofs.specs.ProofStores.{AreFoldsOf, known_with, suffix_positions, IsRefusalToBuildOf};
ghost use Rattle.merkle_theory.specs.RangeCounts.{range_outer};
ghost use Rattle.merkle_theory.specs.Ranges.{Digests};
ghost use Rattle.state_theory.specs.LogProofs.{log_root, many_root, placed, leaf_hash, branch_hash};

use merkle_core::{ExtractionError, Proof, ProofStore, StoreError};
use merkle_forest::codec::Encode;
use merkle_forest::hasher::{HashFunction, Standard};
use merkle_forest::{Bagging, Digest, Family, Location, Position};
use std::alloc::{AllocError, Global};

/// Nodes of a tree, each with its position and its digest.
/// In the Rust: `qmdb::verify::ExtractedDigests`.
pub type ExtractedDigests<F, H> = Vec<(Position<F>, <H as HashFunction>::Digest)>;

// The hasher of the operations' tree.
fn log_hasher<H: HashFunction>() -> Standard<H>
    ensures { result.bagging ≡ BackwardFold }
{
    Standard::new(Bagging::BackwardFold)
}

// The encodings of operations.
pub(crate) fn encodings<O: Encode>(
    alloc: Global,
    operations: &[O],
) -> Result<Vec<Vec<u8>>, AllocError>
    ensures { IfOk result (λ found. map (λ e. e.items) found.items ≡ map O.encoding operations.now) }
{
    let mut found = Vec::new(alloc);
    let mut rest = operations;
    while let [operation, later @ ..] = rest {
        found.push(operation.encode(alloc)?)?;
        rest = later;
    }
    Ok(found)
}

// The bytes of each, lent.
pub(crate) fn lent<'a>(alloc: Global, encodings: &'a [Vec<u8>]) -> Result<Vec<&'a [u8]>, AllocError>
    ensures { IfOk result (λ found. map (λ e. e.now) found.items ≡ map (λ e. e.items) encodings.now) }
{
    let mut found: Vec<&'a [u8]> = Vec::new(alloc);
    let mut rest = encodings;
    while let [encoding, later @ ..] = rest {
        found.push(encoding)?;
        rest = later;
    }
    Ok(found)
}

/// Whether the proof shows that these operations stand in the operations' tree of this root, from a location on. It
/// fails only when out of memory.
/// In the Rust: `qmdb::verify::verify_proof`, which takes no allocator.
pub fn verify_proof<F: Family, H: HashFunction, O: Encode>(
    alloc: Global,
    proof: &Proof<F, H::Digest>,
    start_loc: Location<F>,
    operations: &[O],
    target_root: &H::Digest,
) -> Result<bool, AllocError>
    ensures { IfOk result (λ yes. IsTrue yes ↔ (log_root F.merge_rule H.hash_of proof.now.leaves
        proof.now.inactive_peaks start_loc (map O.encoding operations.now)
        (map H.Digest.encoding proof.now.digests.items) ≡ Some (H.Digest.encoding target_root.now))) }
{
    let encoded = encodings(alloc, operations)?;
    let elements = lent(alloc, &encoded)?;
    let hasher = log_hasher::<H>();
    Ok(proof.verify_range_inclusion(&hasher, &elements, start_loc, target_root))
}

/// Whether the proof shows that these operations stand in the operations' tree of this root, from a location on, and
/// each of its digests that stands for operations before it is made of these digests, those of the nodes to pin there,
/// from left to right. It fails only when out of memory.
/// In the Rust: `qmdb::verify::verify_proof_and_pinned_nodes`, which takes no allocator.
pub fn verify_proof_and_pinned_nodes<F: Family, H: HashFunction, O: Encode>(
    alloc: Global,
    proof: &Proof<F, H::Digest>,
    start_loc: Location<F>,
    operations: &[O],
    pinned_nodes: &[H::Digest],
    target_root: &H::Digest,
) -> Result<bool, AllocError>
    ensures { let peaks = peaks_of F.merge_rule proof.now.leaves in
        let stop : ℕ = start_loc + length operations.now in
        let digests = map H.Digest.encoding proof.now.digests.items in
        let inactive = proof.now.inactive_peaks in
        IfOk result (λ yes. IsTrue yes ↔ ((log_root F.merge_rule H.hash_of proof.now.leaves inactive start_loc
        (map O.encoding operations.now) digests ≡ Some (H.Digest.encoding target_root.now))
        × ArePinned H.hash_of (branch_hash H.hash_of) (replicate H.Digest.SIZE 0) F.merge_rule proof.now.leaves
        (from_left BackwardFold inactive (length peaks)) start_loc stop
        (range_outer BackwardFold start_loc stop inactive peaks) digests
        (map H.Digest.encoding pinned_nodes.now))) }
{
    let encoded = encodings(alloc, operations)?;
    let elements = lent(alloc, &encoded)?;
    let hasher = log_hasher::<H>();
    proof.verify_proof_and_pinned_nodes(
        alloc,
        &hasher,
        &elements,
        start_loc,
        pinned_nodes,
        target_root,
    )
}

/// The nodes that the proof tells, each with its position and its digest, in ascending position, where it shows that
/// these operations stand in the operations' tree of this root, from a location on. Where the proof leads to no root:
/// M15; to another one: M17; out of memory: M23.
/// In the Rust: `qmdb::verify::verify_proof_and_extract_digests`, which takes no allocator.
pub fn verify_proof_and_extract_digests<F: Family, H: HashFunction, O: Encode>(
    alloc: Global,
    proof: &Proof<F, H::Digest>,
    start_loc: Location<F>,
    operations: &[O],
    target_root: &H::Digest,
) -> Result<ExtractedDigests<F, H>, ExtractionError>
    ensures shown { OnOk result (log_root F.merge_rule H.hash_of proof.now.leaves proof.now.inactive_peaks start_loc
        (map O.encoding operations.now) (map H.Digest.encoding proof.now.digests.items)
        ≡ Some (H.Digest.encoding target_root.now)) }
    ensures told { (digest : Digests) → let stop : ℕ = start_loc + length operations.now in
        AreMadeOf (leaf_hash H.hash_of) (branch_hash H.hash_of) (from start_loc (map O.encoding operations.now))
        start_loc stop digest
        → let peaks = peaks_of F.merge_rule proof.now.leaves in
        let singles = from_left BackwardFold proof.now.inactive_peaks (length peaks) in
        AreGiven singles start_loc stop peaks digest (map H.Digest.encoding proof.now.digests.items)
        → IfOk result (λ found. AreExtracted H.Digest.encoding digest (extracted_nodes singles start_loc stop peaks)
        found.items) }
    ensures refused { IfErr result (λ e. IsRefusalToExtract (log_root F.merge_rule H.hash_of proof.now.leaves
        proof.now.inactive_peaks start_loc (map O.encoding operations.now)
        (map H.Digest.encoding proof.now.digests.items)) (H.Digest.encoding target_root.now) e) }
{
    let encoded = encodings(alloc, operations)?;
    let elements = lent(alloc, &encoded)?;
    let hasher = log_hasher::<H>();
    proof.verify_range_inclusion_and_extract_digests(
        alloc,
        &hasher,
        &elements,
        start_loc,
        target_root,
    )
}

/// What is kept of a proof that shows that these operations stand in the operations' tree of this root, from a location
/// on. Where the proof leads to no root: M15; to another one: M17; out of memory: M23.
/// In the Rust: `qmdb::verify::create_proof_store`, which takes no allocator.
pub fn create_proof_store<F: Family, H: HashFunction, O: Encode>(
    alloc: Global,
    proof: &Proof<F, H::Digest>,
    start_loc: Location<F>,
    operations: &[O],
    root: &H::Digest,
) -> Result<ProofStore<F, H::Digest>, ExtractionError>
    ensures leaves { IfOk result (λ store. store.leaves ≡ proof.now.leaves) }
    ensures inactive { IfOk result (λ store. store.inactive ≡ proof.now.inactive_peaks) }
    ensures singles { IfOk result (λ store. store.singles
        ≡ from_left BackwardFold proof.now.inactive_peaks (length (peaks_of F.merge_rule proof.now.leaves))) }
    ensures range { IfOk result (λ store. (store.start ≡ start_loc)
        × (store.stop ≡ start_loc + length operations.now)) }
    ensures shown { OnOk result (log_root F.merge_rule H.hash_of proof.now.leaves proof.now.inactive_peaks start_loc
        (map O.encoding operations.now) (map H.Digest.encoding proof.now.digests.items)
        ≡ Some (H.Digest.encoding root.now)) }
    ensures told { (digest : Digests) → let stop : ℕ = start_loc + length operations.now in
        AreMadeOf (leaf_hash H.hash_of) (branch_hash H.hash_of) (from start_loc (map O.encoding operations.now))
        start_loc stop digest
        → let peaks = peaks_of F.merge_rule proof.now.leaves in
        let singles = from_left BackwardFold proof.now.inactive_peaks (length peaks) in
        AreGiven singles start_loc stop peaks digest (map H.Digest.encoding proof.now.digests.items)
        → IfOk result (λ store. AreExtracted H.Digest.encoding digest (extracted_nodes singles start_loc stop peaks)
        store.nodes) }
    ensures folds { (digest : Digests) → map H.Digest.encoding proof.now.digests.items
        ≡ honest_digests H.hash_of digest BackwardFold F.merge_rule proof.now.leaves proof.now.inactive_peaks
        start_loc (start_loc + length operations.now)
        → IfOk result (AreFoldsOf H.Digest.encoding H.hash_of F.merge_rule digest) }
    ensures refused { IfErr result (λ e. IsRefusalToExtract (log_root F.merge_rule H.hash_of proof.now.leaves
        proof.now.inactive_peaks start_loc (map O.encoding operations.now)
        (map H.Digest.encoding proof.now.digests.items)) (H.Digest.encoding root.now) e) }
{
    let encoded = encodings(alloc, operations)?;
    let elements = lent(alloc, &encoded)?;
    let hasher = log_hasher::<H>();
    ProofStore::new(alloc, &hasher, proof, &elements, start_loc, root)
}

/// The proof of the operations at these locations, out of what is kept of a checked proof and of peaks that are
/// supplied, each with its position. It is refused as `ProofStore::multi_proof` refuses.
/// In the Rust: `qmdb::verify::create_multi_proof`, which takes no allocator.
pub fn create_multi_proof<F: Family, D: Digest>(
    alloc: Global,
    proof_store: &ProofStore<F, D>,
    locations: &[Location<F>],
    peaks: &[(Position<F>, D)],
) -> Result<Proof<F, D>, StoreError<F>>
    ensures leaves { IfOk result (λ proof. proof.leaves ≡ proof_store.now.leaves) }
    ensures inactive { IfOk result (λ proof. proof.inactive_peaks ≡ proof_store.now.inactive) }
    ensures enough { OnOk result
        (proof_store.now.inactive ≤ length (peaks_of F.merge_rule proof_store.now.leaves)) }
    ensures good { OnOk result (first_bad proof_store.now.leaves 0 locations.now ≡ None) }
    ensures digests { IfOk result (λ proof. AreMultiDigests F.merge_rule proof_store.now.leaves locations.now
        (known_with D.encoding proof_store.now.nodes peaks.now) (map D.encoding proof.digests.items)) }
    ensures refused { IfErr result (λ e. IsRefusalToBuildOf F.merge_rule proof_store.now.leaves locations.now
        proof_store.now.inactive (known_with D.encoding proof_store.now.nodes peaks.now)
        (suffix_positions F.merge_rule proof_store.now) e) }
{
    proof_store.multi_proof(alloc, locations, peaks)
}

// The encodings of operations, each with its location.
fn located_encodings<F: Family, O: Encode>(
    alloc: Global,
    operations: &[(Location<F>, O)],
) -> Result<Vec<(Vec<u8>, Location<F>)>, AllocError>
    ensures { IfOk result (λ found. map (λ e. placed e.0.items e.1) found.items
        ≡ map (λ o. placed (O.encoding o.1) o.0) operations.now) }
{
    let mut found = Vec::new(alloc);
    let mut rest = operations;
    while let [(location, operation), later @ ..] = rest {
        found.push((operation.encode(alloc)?, *location))?;
        rest = later;
    }
    Ok(found)
}

// The bytes of each, lent, with its location.
fn lent_with_locations<'a, F: Family>(
    alloc: Global,
    encodings: &'a [(Vec<u8>, Location<F>)],
) -> Result<Vec<(&'a [u8], Location<F>)>, AllocError>
    ensures { IfOk result (λ found. map (λ e. placed e.0.now e.1) found.items
        ≡ map (λ e. placed e.0.items e.1) encodings.now) }
{
    encodings
        .iter()
        .map(|element| (element.0.as_slice(), element.1))
        .collect(alloc)
}

/// Whether the proof shows that these operations, each with its location, stand in the operations' tree of this root.
/// It fails only when out of memory. Where the locations do not ascend strictly, or no operation stands at one, it does
/// not.
/// In the Rust: `qmdb::verify::verify_multi_proof`, which takes no allocator.
pub fn verify_multi_proof<F: Family, H: HashFunction, O: Encode>(
    alloc: Global,
    proof: &Proof<F, H::Digest>,
    operations: &[(Location<F>, O)],
    target_root: &H::Digest,
) -> Result<bool, AllocError>
    ensures { IfOk result (λ yes. IsTrue yes ↔ (many_root F.merge_rule H.hash_of proof.now.leaves
        proof.now.inactive_peaks (map (λ o. placed (O.encoding o.1) o.0) operations.now)
        (map H.Digest.encoding proof.now.digests.items) ≡ Some (H.Digest.encoding target_root.now))) }
{
    let encoded = located_encodings(alloc, operations)?;
    let elements = lent_with_locations(alloc, &encoded)?;
    let hasher = log_hasher::<H>();
    proof.verify_multi_inclusion(alloc, &hasher, &elements, target_root)
}
