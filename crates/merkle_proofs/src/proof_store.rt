//! What is kept of a verified proof of a range: proofs of elements are built out of it.

ghost use Rattle.std.specs.Prelude.{◌≡◌, ◌<◌, ◌≤◌, ◌+◌, ◌^◌, ◌↔◌, ℕ, List, Some, None, true, map, length, take, drop};
ghost use Rattle.std.specs.Prelude.{min, option_map, Contains, IfOk, IfErr, OnOk};
ghost use Rattle.merkle_forest.specs.Made.{value};
ghost use Rattle.merkle_proofs.specs.Extracted.{AreMadeOf, AreGiven, AreExtracted, extracted_nodes, IsRefusalToExtract};
ghost use Rattle.merkle_theory.specs.MadeRoots.{Naming, from_left, peaks_of};
ghost use Rattle.merkle_theory.specs.MadeTrees.{Over, from};
ghost use Rattle.merkle_theory.specs.Multi.{AreMultiDigests, first_bad, IsRefusalToProveMany};
ghost use Rattle.merkle_theory.specs.Plans.{Lookup, honest_digests};
ghost use Rattle.merkle_proofs.specs.ProofStores.{Kept, AreFoldsOf, digest_among, known_with, IsKnownOf};
ghost use Rattle.merkle_proofs.specs.ProofStores.{suffix_positions, IsMissedApart, IsRefusalToBuildOf};
ghost use Rattle.merkle_theory.specs.RangeCounts.{passing};
ghost use Rattle.merkle_theory.specs.Ranges.{Digests, is_before, is_after};
ghost use Rattle.merkle_theory.specs.Reads.{HashesAs, range_root};

mod part;

use crate::building::multi_proof;
use crate::building::plain::Side;
use crate::extraction::ExtractionError;
use crate::plan::positions::append_side;
use crate::proof::Proof;
use crate::subtree::peaks_from;
use crate::verifying::counts::sides_of;
use crate::verifying::{folded_singly, split_digests};
use merkle_core_parts::{Error, Readable};
use merkle_forest::family::{Family, MAX_LEAVES};
use merkle_forest::hasher::Hasher;
use merkle_forest::{Digest, Location, Position};
use std::alloc::{AllocError, Global};
use std::fmt;
use std::marker::{Model, PhantomData};

/// Why no proof is built out of a store.
#[derive_where(Clone, Copy, Debug, PartialEq, Eq)]
pub enum StoreError<F: Family> {
    /// What is asked is refused, or a node is neither kept nor supplied (own).
    Refused(Error<F>),
    /// M11: the peak at this position stands in the verified proof as one digest with others, and is not supplied. In
    /// the Rust: `merkle::Error::CompressedDigest`.
    CompressedDigest(Position<F>),
}

/// An error is printed by its number and what it means.
impl<F: Family> fmt::Display for StoreError<F> {
    ghost use Rattle.std.specs.Prelude.{Some};
    ghost use Rattle.merkle_proofs.specs.ProofStores.{store_text};

    ghost output = { λ e. Some (store_text e) };

    fn fmt<W: fmt::Write>(&self, f: &mut fmt::Formatter<W>) -> fmt::Result {
        match self {
            StoreError::Refused(error) => write!(f, "{error}"),
            StoreError::CompressedDigest(position) => {
                write!(f, "M11: node {position} stands in one digest with others")
            }
        }
    }
}

impl<F: Family> std::error::Error for StoreError<F> {}

/// What is kept of a verified proof of a range: the nodes that it tells. Contracts see how many leaves the tree has,
/// how many peaks are inactive and how many are folded singly, the range, the nodes, and the digests that stand for
/// several peaks: one before the range and one after it, where there are such peaks.
/// In the Rust: `merkle::verification::ProofStore`.
#[derive(Debug, Drop)]
pub struct ProofStore<F: Family, D: Digest> {
    leaves: u64,
    inactive_peaks: u64,
    singles: u64,
    start: u64,
    stop: u64,
    nodes: Vec<(Position<F>, D)>,
    front: Vec<D>,
    back: Vec<D>,
}

impl<F: Family, D: Digest> Model for ProofStore<F, D> {
    ghost use Rattle.std.specs.Prelude.{◌≤◌, ◌^◌};
    ghost use Rattle.merkle_proofs.specs.ProofStores.{Kept};

    ghost Value = { Kept D };

    ghost view = { λ s. record {
      leaves = s.leaves;
      inactive = s.inactive_peaks;
      singles = s.singles;
      start = s.start;
      stop = s.stop;
      nodes = s.nodes.items;
      front = s.front.items;
      back = s.back.items;
    } };

    ghost invariant = { λ s. s.leaves ≤ 2 ^ 62 };
}

// The digest of the first of these nodes that stands at a position.
fn digest_at<F: Family, D: Digest>(nodes: &[(Position<F>, D)], position: u64) -> Option<D>
    ensures { option_map D.encoding result ≡ digest_among D.encoding nodes.now position }
{
    nodes
        .iter()
        .find(|node| node.0.as_u64() == position)
        .map(|node| node.1)
}

// Whether the position is one of these.
fn is_among<F: Family>(positions: &[Position<F>], position: Position<F>) -> bool
    ensures { result ≡ true ↔ Contains positions.now position }
{
    positions.contains(&position)
}

// Of the digests of a proof those that stand for several peaks: for those before the range that are folded from the
// left, and for those after it that are folded from the right.
fn folds_of<F: Family, D: Digest>(
    alloc: Global,
    leaves: u64,
    peaks: u64,
    singles: u64,
    start: u64,
    stop: u64,
    digests: &[D],
) -> Result<(Vec<D>, Vec<D>), AllocError>
    requires few { leaves ≤ MAX_LEAVES }
    requires counted { peaks ≡ length (peaks_of F.merge_rule leaves) }
    ensures front { IfOk result (λ folds. folds.0.items
        ≡ take (min 1 (passing (is_before start) (take singles (peaks_of F.merge_rule leaves)))) digests.now) }
    ensures back { let first = take singles (peaks_of F.merge_rule leaves) in
        let others = drop singles (peaks_of F.merge_rule leaves) in
        IfOk result (λ folds. folds.1.items ≡ take (min 1 (passing (is_after stop) others))
        (drop (min 1 (passing (is_before start) first) + passing (is_after stop) first
        + passing (is_before start) others) digests.now)) }
{
    let first = sides_of::<F>(leaves, 0, singles, start, stop);
    let others = sides_of::<F>(leaves, first.next, peaks, start, stop);
    let (one, _) = split_digests(digests, first.before.min(1) as usize);
    let at = first.before.min(1) + first.after + others.before;
    let (_, rest) = split_digests(digests, at as usize);
    let (other, _) = split_digests(rest, others.after.min(1) as usize);
    let mut front = Vec::new(alloc);
    front.extend_from_slice(one)?;
    let mut back = Vec::new(alloc);
    back.extend_from_slice(other)?;
    Ok((front, back))
}

impl<F: Family, D: Digest> ProofStore<F, D> {
    /// What is kept of a proof that shows that these elements stand in the tree of this root, from a location on. Where
    /// the proof leads to no root: M15; to another one: M17; out of memory: M23.
    /// In the Rust: `merkle::verification::ProofStore::new`, which takes no allocator.
    pub fn new<H: Hasher<F, Digest = D>>(
        alloc: Global,
        hasher: &H,
        proof: &Proof<F, D>,
        elements: &[&[u8]],
        start: Location<F>,
        root: &D,
    ) -> Result<ProofStore<F, D>, ExtractionError>
        ensures leaves { IfOk result (λ store. store.leaves ≡ proof.now.leaves) }
        ensures inactive { IfOk result (λ store. store.inactive ≡ proof.now.inactive_peaks) }
        ensures singles { IfOk result (λ store. store.singles ≡ from_left (H.bagging_of hasher.now)
            proof.now.inactive_peaks (length (peaks_of F.merge_rule proof.now.leaves))) }
        ensures range { IfOk result (λ store. (store.start ≡ start) × (store.stop ≡ start + length elements.now)) }
        ensures shown { (names : Naming) (over : Over)
            → HashesAs F.merge_rule H.hash_of (H.leaf_of hasher.now) (H.node_of hasher.now) over
            → OnOk result (option_map (value H.hash_of) (range_root names over (H.bagging_of hasher.now) F.merge_rule
            proof.now.leaves proof.now.inactive_peaks start (map (λ e. e.now) elements.now)
            (map D.encoding proof.now.digests.items)) ≡ Some (D.encoding root.now)) }
        ensures told { (digest : Digests) → AreMadeOf (H.leaf_of hasher.now) (H.node_of hasher.now)
            (from start (map (λ e. e.now) elements.now)) start (start + length elements.now) digest
            → let peaks = peaks_of F.merge_rule proof.now.leaves in
            let singles = from_left (H.bagging_of hasher.now) proof.now.inactive_peaks (length peaks) in
            AreGiven singles start (start + length elements.now) peaks digest (map D.encoding proof.now.digests.items)
            → IfOk result (λ store. AreExtracted D.encoding digest
            (extracted_nodes singles start (start + length elements.now) peaks) store.nodes) }
        ensures folds { (digest : Digests) → map D.encoding proof.now.digests.items
            ≡ honest_digests H.hash_of digest (H.bagging_of hasher.now) F.merge_rule proof.now.leaves
            proof.now.inactive_peaks start (start + length elements.now)
            → IfOk result (AreFoldsOf D.encoding H.hash_of F.merge_rule digest) }
        ensures refused { (names : Naming) (over : Over)
            → HashesAs F.merge_rule H.hash_of (H.leaf_of hasher.now) (H.node_of hasher.now) over
            → IfErr result (λ e. IsRefusalToExtract (option_map (value H.hash_of) (range_root names over
            (H.bagging_of hasher.now) F.merge_rule proof.now.leaves proof.now.inactive_peaks start
            (map (λ e. e.now) elements.now) (map D.encoding proof.now.digests.items))) (D.encoding root.now) e) }
    {
        let told = proof.verify_range_inclusion_and_extract_digests(
            alloc, hasher, elements, start, root,
        );
        let nodes = match told {
            Ok(nodes) => nodes,
            Err(error) => return Err(error),
        };
        let leaves = proof.leaves.as_u64();
        let peaks = peaks_from::<F>(leaves, 0);
        let singles = folded_singly(hasher.root_bagging(), proof.inactive_peaks, peaks);
        let stop = start.as_u64() + elements.len() as u64;
        let (front, back) = match folds_of::<F, D>(
            alloc,
            leaves,
            peaks,
            singles,
            start.as_u64(),
            stop,
            &proof.digests,
        ) {
            Ok(folds) => folds,
            Err(_) => return Err(ExtractionError::Memory),
        };
        Ok(ProofStore {
            leaves,
            inactive_peaks: proof.inactive_peaks,
            singles,
            start: start.as_u64(),
            stop,
            nodes,
            front,
            back,
        })
    }

    /// The positions, from left to right, of the peaks after the range that stand in the proof as one digest: by
    /// BackwardFold the active ones. A proof of elements needs those of them supplied that hold none. It fails only
    /// when out of memory.
    /// In the Rust: `merkle::verification::ProofStore::suffix_peak_positions`.
    pub fn suffix_peak_positions(&self, alloc: Global) -> Result<Vec<Position<F>>, AllocError>
        ensures { IfOk result (λ found. found.items ≡ suffix_positions F.merge_rule self.now) }
    {
        let first = sides_of::<F>(self.leaves, 0, self.singles, self.start, self.stop);
        let mut found = Vec::new(alloc);
        append_side(&mut found, self.leaves, first.next, Side::After(self.stop))?;
        Ok(found)
    }

    // A refusal to build a proof, where the node that is missing is told apart.
    fn refusal(&self, alloc: Global, error: Error<F>) -> StoreError<F>
        ensures { (locations : List ℕ) (known : Lookup)
            → IsRefusalToProveMany F.merge_rule self.now.leaves locations self.now.inactive known error
            → IsRefusalToBuildOf F.merge_rule self.now.leaves locations self.now.inactive known
            (suffix_positions F.merge_rule self.now) result }
    {
        let Error::ElementPruned(position) = error else {
            return StoreError::Refused(error);
        };
        let Ok(suffix) = self.suffix_peak_positions(alloc) else {
            return StoreError::Refused(Error::Memory);
        };
        if is_among(&suffix, position) {
            return StoreError::CompressedDigest(position);
        }
        StoreError::Refused(error)
    }

    /// The proof of the elements at these locations, out of the nodes that are kept and of peaks that are supplied,
    /// each with its position: the digests of the nodes at the positions of `multi_proof_positions`, in their order.
    /// Where there is no location: M4; else the first one that is refused: M8 where it comes again, M9 where it is less
    /// than the one before it, M7 where no leaf stands there, with that location; where there are fewer peaks than
    /// inactive ones: M16; where a node that the proof is made of is neither kept nor supplied: M11 with the first such
    /// position where it is one of `suffix_peak_positions`, else M10, each in this order; out of memory: M23.
    /// In the Rust: `merkle::verification::ProofStore::multi_proof`, which takes no allocator.
    pub fn multi_proof(
        &self,
        alloc: Global,
        locations: &[Location<F>],
        peaks: &[(Position<F>, D)],
    ) -> Result<Proof<F, D>, StoreError<F>>
        ensures leaves { IfOk result (λ proof. proof.leaves ≡ self.now.leaves) }
        ensures inactive { IfOk result (λ proof. proof.inactive_peaks ≡ self.now.inactive) }
        ensures enough { OnOk result (self.now.inactive ≤ length (peaks_of F.merge_rule self.now.leaves)) }
        ensures good { OnOk result (first_bad self.now.leaves 0 locations.now ≡ None) }
        ensures digests { IfOk result (λ proof. AreMultiDigests F.merge_rule self.now.leaves locations.now
            (known_with D.encoding self.now.nodes peaks.now) (map D.encoding proof.digests.items)) }
        ensures refused { IfErr result (λ e. IsRefusalToBuildOf F.merge_rule self.now.leaves locations.now
            self.now.inactive (known_with D.encoding self.now.nodes peaks.now) (suffix_positions F.merge_rule self.now)
            e) }
    {
        let nodes = Supplied { store: self, peaks };
        match multi_proof(alloc, &nodes, locations, self.inactive_peaks as usize) {
            Ok(proof) => Ok(proof),
            Err(error) => Err(self.refusal(alloc, error)),
        }
    }
}

/// The nodes that are kept, and peaks that are supplied, each at its position (own).
#[derive(Drop)]
pub struct Supplied<'a, F: Family, D: Digest> {
    /// What is kept.
    pub store: &'a ProofStore<F, D>,
    /// Peaks of the same tree.
    pub peaks: &'a [(Position<F>, D)],
}

/// A node that is both kept and supplied is as it is kept.
impl<'a, F: Family, D: Digest> Readable<F> for Supplied<'a, F, D> {
    type Digest = D;

    ghost leaf_total = { λ nodes. nodes.store.now.leaves };

    ghost digest_at = { λ nodes. known_with D.encoding nodes.store.now.nodes nodes.peaks.now };

    fn leaf_count(&self) -> u64 {
        let store = self.store;
        store.leaves
    }

    fn node_digest(&self, position: u64) -> Option<D> {
        let store = self.store;
        match digest_at(&store.nodes, position) {
            Some(digest) => Some(digest),
            None => digest_at(self.peaks, position),
        }
    }
}
