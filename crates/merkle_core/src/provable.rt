//! Proofs as methods of what the nodes of a tree are read from.

ghost use Rattle.std.specs.Prelude.{◌≡◌, ◌+◌, ℕ, List, map, length, IfOk, IfErr, OnOk};
ghost use Rattle.merkle_core_parts.specs.Mem.{NodeHash, tree_digest};
ghost use Rattle.merkle_theory.specs.Plans.{looked_up, honest_digests, IsLookupOf, IsProvable};
ghost use Rattle.merkle_theory.specs.Plans.{IsRefusalToProveNow, IsRefusalToProveElement};

use merkle_core_parts::{Error, Readable};
use merkle_forest::family::Family;
use merkle_forest::hasher::Hasher;
use merkle_forest::{Digest, Location};
use merkle_memory::Mem;
use merkle_memory::batch::MerkleizedBatch;
use merkle_proofs::Proof;
use merkle_proofs::building::{element_proof, range_proof};
use std::alloc::Global;
use std::ops::Range;

/// What proofs are built out of (own). In the Rust its methods are those of `merkle::mem::Mem` and of
/// `merkle::batch::MerkleizedBatch`.
pub trait Provable<F: Family>: Readable<F> {
    /// The proof of the element at a location, as `building::element_proof` builds it, with its refusals. In the
    /// Rust: `proof`.
    final fn proof<H: Hasher<F, Digest = Self::Digest>>(
        &self,
        alloc: Global,
        hasher: &H,
        location: Location<F>,
        inactive_peaks: usize,
    ) -> Result<Proof<F, Self::Digest>, Error<F>>
    where
        Self: Sized,
        ensures leaves { IfOk result (λ proof. proof.leaves ≡ Self.leaf_total self.now) }
        ensures inactive { IfOk result (λ proof. proof.inactive_peaks ≡ inactive_peaks) }
        ensures provable { OnOk result (IsProvable F.merge_rule (Self.leaf_total self.now)
            (record { leaves = Self.leaf_total self.now; start = location; stop = location + 1 }) inactive_peaks
            (Self.digest_at self.now)) }
        ensures digests { IfOk result (λ proof. map Self.Digest.encoding proof.digests.items
            ≡ honest_digests H.hash_of (looked_up (Self.digest_at self.now)) (H.bagging_of hasher.now) F.merge_rule
            (Self.leaf_total self.now) inactive_peaks location (location + 1)) }
        ensures of_list { (node : NodeHash) (leaf_digests : List (List ℕ))
            → Self.leaf_total self.now ≡ length leaf_digests
            → IsLookupOf node F.merge_rule leaf_digests (Self.digest_at self.now)
            → IfOk result (λ proof. map Self.Digest.encoding proof.digests.items
            ≡ honest_digests H.hash_of (tree_digest node leaf_digests) (H.bagging_of hasher.now) F.merge_rule
            (length leaf_digests) inactive_peaks location (location + 1)) }
        ensures refused { IfErr result (λ e. IsRefusalToProveElement F.merge_rule (Self.leaf_total self.now) location
            inactive_peaks (Self.digest_at self.now) e) }
    {
        element_proof(alloc, hasher, self, location, inactive_peaks)
    }

    /// The proof of a range, as `building::range_proof` builds it, with its refusals. In the Rust: `range_proof`.
    final fn range_proof<H: Hasher<F, Digest = Self::Digest>>(
        &self,
        alloc: Global,
        hasher: &H,
        range: Range<Location<F>>,
        inactive_peaks: usize,
    ) -> Result<Proof<F, Self::Digest>, Error<F>>
    where
        Self: Sized,
        ensures leaves { IfOk result (λ proof. proof.leaves ≡ Self.leaf_total self.now) }
        ensures inactive { IfOk result (λ proof. proof.inactive_peaks ≡ inactive_peaks) }
        ensures provable { OnOk result (IsProvable F.merge_rule (Self.leaf_total self.now)
            (record { leaves = Self.leaf_total self.now; start = range.start; stop = range.end }) inactive_peaks
            (Self.digest_at self.now)) }
        ensures digests { IfOk result (λ proof. map Self.Digest.encoding proof.digests.items
            ≡ honest_digests H.hash_of (looked_up (Self.digest_at self.now)) (H.bagging_of hasher.now) F.merge_rule
            (Self.leaf_total self.now) inactive_peaks range.start range.end) }
        ensures of_list { (node : NodeHash) (leaf_digests : List (List ℕ))
            → Self.leaf_total self.now ≡ length leaf_digests
            → IsLookupOf node F.merge_rule leaf_digests (Self.digest_at self.now)
            → IfOk result (λ proof. map Self.Digest.encoding proof.digests.items
            ≡ honest_digests H.hash_of (tree_digest node leaf_digests) (H.bagging_of hasher.now) F.merge_rule
            (length leaf_digests) inactive_peaks range.start range.end) }
        ensures refused { IfErr result (λ e. IsRefusalToProveNow F.merge_rule
            (record { leaves = Self.leaf_total self.now; start = range.start; stop = range.end }) inactive_peaks
            (Self.digest_at self.now) e) }
    {
        range_proof(alloc, hasher, self, range, inactive_peaks)
    }
}

impl<F: Family, D: Digest> Provable<F> for Mem<F, D> {}

impl<F: Family, D: Digest> Provable<F> for MerkleizedBatch<F, D> {}
