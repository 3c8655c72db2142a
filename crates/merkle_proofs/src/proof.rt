//! Merkle proofs and how they are written and read.

ghost use Rattle.std.specs.Prelude.{◌≡◌, ◌<◌, ◌≤◌, ◌+◌, ◌^◌, ◌++◌, ◌↔◌, [], ◌∷◌, ℕ, List, map, length, option_map};
ghost use Rattle.std.specs.Prelude.{Some, IsSome, IfSome, IsTrue, Ok, IfOk, IfErr, OnOk, OnErr, replicate};
ghost use Rattle.std.specs.List.{All};
ghost use Rattle.std.specs.Result.{result_ok};
ghost use Rattle.merkle_forest.specs.Forest.{forest_of};
ghost use Rattle.merkle_forest.specs.Trees.{located, inactive_peaks};
ghost use Rattle.merkle_forest.specs.Codec.{Extends};
ghost use Rattle.merkle_forest.specs.Lists.{AreItems};
ghost use Rattle.merkle_forest.specs.Made.{value};
ghost use Rattle.merkle_proofs.specs.Extracted.{AreMadeOf, AreGiven, AreExtracted, extracted_nodes, IsRefusalToExtract};
ghost use Rattle.merkle_theory.specs.MadeRoots.{Naming, from_left, peaks_of};
ghost use Rattle.merkle_theory.specs.MadeTrees.{Over, from};
ghost use Rattle.merkle_theory.specs.MultiReads.{multi_root};
ghost use Rattle.merkle_theory.specs.Pinned.{ArePinned};
ghost use Rattle.merkle_theory.specs.RangeCounts.{range_outer};
ghost use Rattle.merkle_theory.specs.Ranges.{Digests};
ghost use Rattle.merkle_theory.specs.Reads.{HashesAs, range_root};
ghost use Rattle.merkle_proofs.specs.Reconstruction.{HasRange, IsRefusalToReconstruct};
ghost use Rattle.merkle_theory.specs.Proofs.{proof_encoding, greatest_length, after_proof, ProofLacks};

use crate::extraction::{ExtractionError, extract};
use crate::multi::root::reconstruct_shown;
use crate::pinned::{Pins, are_pinned};
use crate::verifying::error::ReconstructionError;
use crate::verifying::peaks::Reader;
use crate::verifying::reconstruct_range;
use merkle_forest::Digest;
use merkle_forest::codec::{
    Cursor, EncodeSize, Error, RangeCfg, Read, Write, number_size, or_undo, read_number,
    write_number,
};
use merkle_forest::family::{Family, MAX_LEAVES};
use merkle_forest::hasher::Hasher;
use merkle_forest::location::Location;
use merkle_forest::peaks::inactive_count;
use merkle_forest::position::Position;
use std::alloc::{AllocError, Global};
use std::marker::PhantomData;

/// The greatest count of digests in the proof of one element. In the Rust: `merkle::MAX_PROOF_DIGESTS_PER_ELEMENT`.
pub const MAX_PROOF_DIGESTS_PER_ELEMENT: usize = 122;

/// A proof against a root: the leaf count, the count of inactive peaks, and digests of nodes. Its encoding is these in
/// order. Reading takes the greatest count of digests; more are C6, and a leaf count past 2^62 is C7.
/// In the Rust: `merkle::proof::Proof`, whose count of peaks is a usize.
#[derive(Debug, PartialEq, Eq, Drop)]
pub struct Proof<F: Family, D: Digest> {
    /// How many leaves the tree has.
    pub leaves: Location<F>,
    /// How many peaks are inactive.
    pub inactive_peaks: u64,
    /// The digests, in the order of the range proof.
    pub digests: Vec<D>,
}

// Whether a root was found, and it is this one.
fn is_root<D: Digest>(found: Option<D>, root: &D) -> bool
    ensures { IsTrue result ↔ (option_map D.encoding found ≡ Some (D.encoding root.now)) }
{
    match found {
        Some(found) => found == *root,
        None => false,
    }
}

impl<F: Family, D: Digest> Proof<F, D> {
    /// The proof without digests, of a tree of no leaves (own). It takes no memory. In the Rust: `Default::default`.
    pub fn empty(alloc: Global) -> Proof<F, D>
        ensures leaves { result.leaves ≡ 0 }
        ensures inactive { result.inactive_peaks ≡ 0 }
        ensures digests { result.digests.items ≡ [] }
    {
        Proof {
            leaves: Location::new(0),
            inactive_peaks: 0,
            digests: Vec::new(alloc),
        }
    }

    /// A proof that is equal to this one. It fails only when out of memory (own). In the Rust: `Clone::clone`.
    pub fn try_copy(&self) -> Result<Proof<F, D>, AllocError>
        ensures leaves { IfOk result (λ copy. copy.leaves ≡ self.now.leaves) }
        ensures inactive { IfOk result (λ copy. copy.inactive_peaks ≡ self.now.inactive_peaks) }
        ensures digests { IfOk result (λ copy. copy.digests.items ≡ self.now.digests.items) }
    {
        let digests = Vec::from_slice(*self.digests.allocator(), &self.digests)?;
        Ok(Proof {
            leaves: self.leaves,
            inactive_peaks: self.inactive_peaks,
            digests,
        })
    }

    /// The greatest length in bytes of the encoding of a proof of at most `MAX_LEAVES` leaves with at most so many
    /// digests. A proof of `MAX_LEAVES` leaves, with the greatest count of inactive peaks and so many digests, reaches
    /// it. Where it does not fit it is None. In the Rust: `merkle::proof::Proof::max_encode_size`, a usize.
    pub fn max_encode_size(max_digests: usize) -> Option<usize>
        ensures fits { IsSome result ↔ (greatest_length D.SIZE max_digests < 2 ^ 64) }
        ensures value { IfSome result (λ most. most ≡ greatest_length D.SIZE max_digests) }
        ensures enough { (leaves inactive : ℕ) (digests : List D) → leaves ≤ MAX_LEAVES → inactive < 2 ^ 64
            → length digests ≤ max_digests → All D.is_value digests
            → IfSome result (λ most. length (proof_encoding leaves inactive (map D.encoding digests)) ≤ most) }
        ensures reached { IfSome result (λ most. length (proof_encoding MAX_LEAVES u64.MAX
            (replicate max_digests (replicate D.SIZE 0))) ≡ most) }
    {
        let numbers = number_size(MAX_LEAVES)
            + number_size(u64::MAX)
            + number_size(max_digests as u64);
        max_digests.checked_mul(D::SIZE)?.checked_add(numbers)
    }

    /// Whether the proof's count of inactive peaks is that of the peaks before a floor, a location, in a tree of its
    /// leaves. Where these are past `MAX_LEAVES` it is not.
    /// In the Rust: `merkle::proof::Proof::matches_canonical_inactive_peaks`.
    pub fn matches_canonical_inactive_peaks(&self, floor: Location<F>) -> bool
        ensures { IsTrue result ↔ ((self.now.leaves ≤ MAX_LEAVES)
            × (self.now.inactive_peaks ≡ inactive_peaks floor (located (forest_of F.merge_rule self.now.leaves)))) }
    {
        if self.leaves.as_u64() > MAX_LEAVES {
            return false;
        }
        inactive_count::<F>(self.leaves.as_u64(), floor.as_u64()) as u64 == self.inactive_peaks
    }

    /// The root of the tree, rebuilt from the proof of the elements that stand in it from a location on. Where no
    /// element is shown: `MissingElements`; the tree is too large: `InvalidSize`; the range begins past its leaves:
    /// `InvalidStartLoc`, or ends past them: `InvalidEndLoc`; the tree has fewer peaks than are inactive:
    /// `InvalidProof`; there are fewer digests than the proof of the range has: `MissingDigests`, or more:
    /// `ExtraDigests`, each in this order. It takes no memory.
    /// In the Rust: `merkle::proof::Proof::reconstruct_root`.
    pub fn reconstruct_root<H: Hasher<F, Digest = D>>(
        &self,
        hasher: &H,
        elements: &[&[u8]],
        start: Location<F>,
    ) -> Result<D, ReconstructionError>
        ensures root { (names : Naming) (over : Over)
            → HashesAs F.merge_rule H.hash_of (H.leaf_of hasher.now) (H.node_of hasher.now) over
            → option_map D.encoding (result_ok result)
            ≡ option_map (value H.hash_of) (range_root names over (H.bagging_of hasher.now) F.merge_rule
            self.now.leaves self.now.inactive_peaks start (map (λ e. e.now) elements.now)
            (map D.encoding self.now.digests.items)) }
        ensures within { OnOk result (HasRange (record {
          leaves = self.now.leaves;
          inactive = self.now.inactive_peaks;
          start = start;
          count = length elements.now;
          digests = length self.now.digests.items;
        })) }
        ensures refused { (over : Over)
            → HashesAs F.merge_rule H.hash_of (H.leaf_of hasher.now) (H.node_of hasher.now) over
            → IfErr result (λ e. IsRefusalToReconstruct (H.bagging_of hasher.now) F.merge_rule (record {
              leaves = self.now.leaves;
              inactive = self.now.inactive_peaks;
              start = start;
              count = length elements.now;
              digests = length self.now.digests.items;
            }) e) }
    {
        reconstruct_range(hasher, self, start, elements)
    }

    /// Whether the proof shows that these elements stand in the tree of this root, from a location on.
    /// In the Rust: `merkle::proof::Proof::verify_range_inclusion`.
    pub fn verify_range_inclusion<H: Hasher<F, Digest = D>>(
        &self,
        hasher: &H,
        elements: &[&[u8]],
        start: Location<F>,
        root: &D,
    ) -> bool
        ensures { (names : Naming) (over : Over)
            → HashesAs F.merge_rule H.hash_of (H.leaf_of hasher.now) (H.node_of hasher.now) over
            → IsTrue result ↔ (option_map (value H.hash_of) (range_root names over (H.bagging_of hasher.now)
            F.merge_rule self.now.leaves self.now.inactive_peaks start (map (λ e. e.now) elements.now)
            (map D.encoding self.now.digests.items)) ≡ Some (D.encoding root.now)) }
    {
        match self.reconstruct_root(hasher, elements, start) {
            Ok(found) => found == *root,
            Err(_) => false,
        }
    }

    /// Whether the proof shows that this element stands in the tree of this root, at a location.
    /// In the Rust: `merkle::proof::Proof::verify_element_inclusion`.
    pub fn verify_element_inclusion<H: Hasher<F, Digest = D>>(
        &self,
        hasher: &H,
        element: &[u8],
        location: Location<F>,
        root: &D,
    ) -> bool
        ensures { (names : Naming) (over : Over)
            → HashesAs F.merge_rule H.hash_of (H.leaf_of hasher.now) (H.node_of hasher.now) over
            → IsTrue result ↔ (option_map (value H.hash_of) (range_root names over (H.bagging_of hasher.now)
            F.merge_rule self.now.leaves self.now.inactive_peaks location (element.now ∷ [])
            (map D.encoding self.now.digests.items)) ≡ Some (D.encoding root.now)) }
    {
        self.verify_range_inclusion(hasher, &[element], location, root)
    }

    /// The nodes that the proof tells, each with its digest, in ascending position, where it shows that these elements
    /// stand in the tree of this root, from a location on: the peaks that it gives singly, and in the peaks that meet
    /// the range each node that it gives or that is made of others. Where the proof leads to no root: M15; to another
    /// one: M17; out of memory: M23.
    /// In the Rust: `merkle::proof::Proof::verify_range_inclusion_and_extract_digests`, which takes no allocator.
    pub fn verify_range_inclusion_and_extract_digests<H: Hasher<F, Digest = D>>(
        &self,
        alloc: Global,
        hasher: &H,
        elements: &[&[u8]],
        start: Location<F>,
        root: &D,
    ) -> Result<Vec<(Position<F>, D)>, ExtractionError>
        ensures shown { (names : Naming) (over : Over)
            → HashesAs F.merge_rule H.hash_of (H.leaf_of hasher.now) (H.node_of hasher.now) over
            → OnOk result (option_map (value H.hash_of) (range_root names over (H.bagging_of hasher.now) F.merge_rule
            self.now.leaves self.now.inactive_peaks start (map (λ e. e.now) elements.now)
            (map D.encoding self.now.digests.items)) ≡ Some (D.encoding root.now)) }
        ensures told { (digest : Digests) → AreMadeOf (H.leaf_of hasher.now) (H.node_of hasher.now)
            (from start (map (λ e. e.now) elements.now)) start (start + length elements.now) digest
            → let peaks = peaks_of F.merge_rule self.now.leaves in
            let singles = from_left (H.bagging_of hasher.now) self.now.inactive_peaks (length peaks) in
            AreGiven singles start (start + length elements.now) peaks digest (map D.encoding self.now.digests.items)
            → IfOk result (λ found. AreExtracted D.encoding digest
            (extracted_nodes singles start (start + length elements.now) peaks) found.items) }
        ensures within { OnOk result (HasRange (record {
          leaves = self.now.leaves;
          inactive = self.now.inactive_peaks;
          start = start;
          count = length elements.now;
          digests = length self.now.digests.items;
        })) }
        ensures refused { (names : Naming) (over : Over)
            → HashesAs F.merge_rule H.hash_of (H.leaf_of hasher.now) (H.node_of hasher.now) over
            → IfErr result (λ e. IsRefusalToExtract (option_map (value H.hash_of) (range_root names over
            (H.bagging_of hasher.now) F.merge_rule self.now.leaves self.now.inactive_peaks start
            (map (λ e. e.now) elements.now) (map D.encoding self.now.digests.items))) (D.encoding root.now) e) }
    {
        let Ok(found) = self.reconstruct_root(hasher, elements, start) else {
            return Err(ExtractionError::InvalidProof);
        };
        if found != *root {
            return Err(ExtractionError::RootMismatch);
        }
        let reader = Reader {
            hasher,
            leaves: self.leaves.as_u64(),
            start: start.as_u64(),
            elements,
            family: PhantomData,
        };
        Ok(extract(alloc, &reader, self.inactive_peaks, &self.digests)?)
    }

    /// Whether the proof shows that these elements stand in the tree of this root, from a location on, and each of its
    /// digests that stands for leaves before it is made of these digests, those of the nodes to pin there, from left to
    /// right. Where there are more of them or fewer, it does not. It fails only when out of memory.
    /// In the Rust: `merkle::proof::Proof::verify_proof_and_pinned_nodes`, which takes no allocator.
    pub fn verify_proof_and_pinned_nodes<H: Hasher<F, Digest = D>>(
        &self,
        alloc: Global,
        hasher: &H,
        elements: &[&[u8]],
        start: Location<F>,
        pinned_nodes: &[D],
        root: &D,
    ) -> Result<bool, AllocError>
        ensures { (names : Naming) (over : Over)
            → HashesAs F.merge_rule H.hash_of (H.leaf_of hasher.now) (H.node_of hasher.now) over
            → let peaks = peaks_of F.merge_rule self.now.leaves in
            let bagging = H.bagging_of hasher.now in
            let stop : ℕ = start + length elements.now in
            let digests = map D.encoding self.now.digests.items in
            IfOk result (λ yes. IsTrue yes ↔ ((option_map (value H.hash_of) (range_root names over bagging F.merge_rule
            self.now.leaves self.now.inactive_peaks start (map (λ e. e.now) elements.now) digests)
            ≡ Some (D.encoding root.now))
            × ArePinned H.hash_of (H.node_of hasher.now) (replicate D.SIZE 0) F.merge_rule self.now.leaves
            (from_left bagging self.now.inactive_peaks (length peaks)) start stop
            (range_outer bagging start stop self.now.inactive_peaks peaks) digests
            (map D.encoding pinned_nodes.now))) }
    {
        let Ok(found) = self.reconstruct_root(hasher, elements, start) else {
            return Ok(false);
        };
        if found != *root {
            return Ok(false);
        }
        let pins = Pins {
            hasher,
            start: start.as_u64(),
            digests: pinned_nodes,
            family: PhantomData,
        };
        let stop = start.as_u64() + elements.len() as u64;
        are_pinned(
            alloc,
            &pins,
            self.leaves.as_u64(),
            self.inactive_peaks,
            stop,
            &self.digests,
        )
    }

    /// Whether the proof shows that these elements, each with its location, stand in the tree of this root. It fails
    /// only when out of memory. Without elements it shows the tree without leaves. Where the locations do not ascend
    /// strictly, or no leaf stands at one, it does not.
    /// In the Rust: `merkle::proof::Proof::verify_multi_inclusion`, which takes no allocator.
    pub fn verify_multi_inclusion<H: Hasher<F, Digest = D>>(
        &self,
        alloc: Global,
        hasher: &H,
        elements: &[(&[u8], Location<F>)],
        root: &D,
    ) -> Result<bool, AllocError>
        ensures { (names : Naming) (over : Over)
            → HashesAs F.merge_rule H.hash_of (H.leaf_of hasher.now) (H.node_of hasher.now) over
            → IfOk result (λ yes. IsTrue yes ↔ (option_map (value H.hash_of) (multi_root names over
            (H.bagging_of hasher.now) F.merge_rule self.now.leaves self.now.inactive_peaks
            (map (λ e. (e.0.now, e.1)) elements.now) (map D.encoding self.now.digests.items))
            ≡ Some (D.encoding root.now))) }
    {
        let found = reconstruct_shown(alloc, hasher, self, elements)?;
        Ok(is_root(found, root))
    }
}

// Appends the encoding. Out of memory, some of its bytes may have been appended.
fn write_parts<F: Family, D: Digest>(
    proof: &Proof<F, D>,
    out: &mut Vec<u8>,
) -> Result<(), AllocError>
    ensures ok { OnOk result (out.new.items ≡ out.old.items
        ++ proof_encoding proof.now.leaves proof.now.inactive_peaks (map D.encoding proof.now.digests.items)) }
    ensures err { OnErr result (Extends out.old.items out.new.items) }
    ensures leaves { OnOk result (proof.now.leaves < 2 ^ 64) }
    ensures inactive { OnOk result (proof.now.inactive_peaks < 2 ^ 64) }
    ensures digests { OnOk result (AreItems D.is_value proof.now.digests.items) }
{
    proof.leaves.write(out)?;
    write_number(out, proof.inactive_peaks)?;
    proof.digests.write(out)
}

impl<F: Family, D: Digest> Write for Proof<F, D> {
    ghost encoding = { λ p. proof_encoding p.leaves p.inactive_peaks (map D.encoding p.digests.items) };

    ghost is_value = { λ p. (p.leaves < 2 ^ 64) × (p.inactive_peaks < 2 ^ 64) × AreItems D.is_value p.digests.items };

    fn write(&self, out: &mut Vec<u8>) -> Result<(), AllocError> {
        let start = out.len();
        or_undo(write_parts(self, out), out, start)
    }
}

impl<F: Family, D: Digest> EncodeSize for Proof<F, D> {
    fn encode_size(&self) -> usize {
        self.leaves.encode_size() + number_size(self.inactive_peaks) + self.digests.encode_size()
    }
}

impl<F: Family, D: Digest> Read for Proof<F, D> {
    ghost use Rattle.merkle_theory.specs.Laws.Proofs.{read_parts_again};

    type Cfg = usize;

    ghost after = { λ most bytes. after_proof (D.after tt) most bytes };

    ghost may_lack = { λ most bytes. ProofLacks most bytes };

    ghost is_within = { λ most p. (p.leaves ≤ 2 ^ 62) × (length p.digests.items ≤ most) };

    fn read_cfg(
        alloc: Global,
        cursor: &mut Cursor<'_>,
        most: &usize,
    ) -> Result<Proof<F, D>, Error> {
        let leaves = Location::read_cfg(alloc, cursor, &())?;
        let inactive_peaks = read_number(cursor)?;
        let digests = Vec::read_cfg(alloc, cursor, &RangeCfg::new(0, *most))?;
        Ok(Proof {
            leaves,
            inactive_peaks,
            digests,
        })
    }

    ghost read_again = { λ most p rest value within.
        read_parts_again D.encoding (D.after tt) D.is_value D.SIZE D.sized D.any_bytes most p.leaves p.inactive_peaks
        p.digests.items rest value.0 value.1 value.2 within.0 within.1 };
}
