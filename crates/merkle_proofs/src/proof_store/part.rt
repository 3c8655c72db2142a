//! Proofs of parts of a range, out of what is kept of its proof.

ghost use Rattle.std.specs.Prelude.{◌≡◌, ◌≤◌, ◌+◌, ◌-◌, ◌^◌, ◌++◌, map, take, drop, length, None, IfOk, IfErr, OnOk};
ghost use Rattle.merkle_theory.specs.Assembled.{assembled};
ghost use Rattle.merkle_theory.specs.MadeRoots.{from_left, peaks_of};
ghost use Rattle.merkle_theory.specs.Plans.{positions_of, honest_digests, first_missing};
ghost use Rattle.merkle_proofs.specs.ProofStores.{AreFoldsOf, IsKnownOf, IsPart, IsRefusalToBuildPart, digest_among};
ghost use Rattle.merkle_proofs.specs.ProofStores.{more_before, more_after, part_nodes, front_peaks};
ghost use Rattle.merkle_theory.specs.RangeCounts.{passing};
ghost use Rattle.merkle_theory.specs.Ranges.{Digests, is_before, is_after};

use super::{ProofStore, digest_at};
use crate::building::plain::Side;
use crate::plan::digests::{assemble, look_up};
use crate::plan::positions::{append_inner, append_side};
use crate::proof::Proof;
use crate::subtree::peaks_from;
use crate::verifying::counts::sides_of;
use crate::verifying::split_digests;
use merkle_core_parts::Error;
use merkle_forest::family::Family;
use merkle_forest::hasher::Hasher;
use merkle_forest::{Digest, Location, Position};
use std::alloc::{AllocError, Global};
use std::ops::Range;

// The positions of the single nodes that the proof of a part is made of: how many stand before the part, and how many
// of the others after it.
#[derive(Drop)]
struct PartPlan<F: Family> {
    positions: Vec<Position<F>>,
    before: usize,
    after: usize,
}

impl<F: Family, D: Digest> ProofStore<F, D> {
    // Whether the part is not empty and stands in the range.
    fn check_part(&self, start: Location<F>, stop: Location<F>) -> Result<(), Error<F>>
        ensures part { OnOk result (IsPart self.now start stop) }
        ensures refused { IfErr result (λ e. IsRefusalToBuildPart F.merge_rule D.encoding self.now start stop e) }
    {
        if start >= stop {
            return Err(Error::Empty);
        }
        if start.as_u64() < self.start || stop.as_u64() > self.stop {
            return Err(Error::RangeOutOfBounds(stop));
        }
        Ok(())
    }

    // The plan of the proof of a part.
    fn plan_part(&self, alloc: Global, start: u64, stop: u64) -> Result<PartPlan<F>, AllocError>
        ensures { IfOk result (λ plan.
            (plan.positions.items ≡ positions_of (part_nodes F.merge_rule self.now start stop))
            × (plan.before ≡ length (more_before F.merge_rule self.now start))
            × (plan.after ≡ length (more_after F.merge_rule self.now stop))) }
    {
        let leaves = self.leaves;
        let peaks = peaks_from::<F>(leaves, 0);
        let first = sides_of::<F>(leaves, 0, self.singles, self.start, self.stop);
        let others = sides_of::<F>(leaves, first.next, peaks, self.start, self.stop);
        let mut fronts = Vec::new(alloc);
        append_side(&mut fronts, leaves, 0, Side::Before(start))?;
        let mut backs = Vec::new(alloc);
        append_side(&mut backs, leaves, 0, Side::After(stop))?;
        let (_, before) = split_digests(&fronts, first.before as usize);
        let (after, _) = split_digests(&backs, backs.len().saturating_sub(others.after as usize));
        let mut positions = Vec::new(alloc);
        positions.extend_from_slice(before)?;
        positions.extend_from_slice(after)?;
        append_inner(&mut positions, leaves, 0, start, stop)?;
        Ok(PartPlan {
            positions,
            before: before.len(),
            after: after.len(),
        })
    }

    // The digests of the proof of a part, from those of its single nodes.
    fn fold_part<H: Hasher<F, Digest = D>>(
        &self,
        alloc: Global,
        hasher: &H,
        start: u64,
        stop: u64,
        before: &[D],
        after: &[D],
        inner: &[D],
    ) -> Result<Vec<D>, AllocError>
        requires begins { self.now.start ≤ start }
        requires ends { stop ≤ self.now.stop }
        requires before { length before.now ≡ length (more_before F.merge_rule self.now start) }
        requires after { length after.now ≡ length (more_after F.merge_rule self.now stop) }
        ensures { let peaks = peaks_of F.merge_rule self.now.leaves in
            let first = take self.now.singles peaks in
            IfOk result (λ found. map D.encoding found.items ≡ assembled H.hash_of (H.bagging_of hasher.now)
            (length self.now.front + (passing (is_before start) first - length (front_peaks F.merge_rule self.now)))
            (map D.encoding self.now.front ++ map D.encoding before.now) (passing (is_after stop) first)
            (map D.encoding after.now ++ map D.encoding self.now.back) (map D.encoding inner.now)) }
    {
        let folded = sides_of::<F>(self.leaves, 0, self.singles, self.start, self.stop);
        let asked = sides_of::<F>(self.leaves, 0, self.singles, start, stop);
        let mut fronts = Vec::new(alloc);
        fronts.extend_from_slice(&self.front)?;
        fronts.extend_from_slice(before)?;
        let mut backs = Vec::new(alloc);
        backs.extend_from_slice(after)?;
        backs.extend_from_slice(&self.back)?;
        let inactive = self.front.len() + (asked.before - folded.before) as usize;
        assemble(
            alloc,
            hasher,
            &fronts,
            inactive,
            &backs,
            asked.after as usize,
            inner,
        )
    }

    // The digests of the proof of a part.
    fn part_digests<H: Hasher<F, Digest = D>>(
        &self,
        alloc: Global,
        hasher: &H,
        start: u64,
        stop: u64,
    ) -> Result<Vec<D>, Error<F>>
        requires part { IsPart self.now start stop }
        ensures digests { (digest : Digests)
            → self.now.singles ≡ from_left (H.bagging_of hasher.now) self.now.inactive
            (length (peaks_of F.merge_rule self.now.leaves))
            → IsKnownOf F.merge_rule self.now.leaves digest (digest_among D.encoding self.now.nodes)
            → AreFoldsOf D.encoding H.hash_of F.merge_rule digest self.now
            → IfOk result (λ found. map D.encoding found.items ≡ honest_digests H.hash_of digest
            (H.bagging_of hasher.now) F.merge_rule self.now.leaves self.now.inactive start stop) }
        ensures known { OnOk result (first_missing (digest_among D.encoding self.now.nodes)
            (positions_of (part_nodes F.merge_rule self.now start stop)) ≡ None) }
        ensures refused { IfErr result (λ e. IsRefusalToBuildPart F.merge_rule D.encoding self.now start stop e) }
    {
        let plan = self.plan_part(alloc, start, stop)?;
        let nodes = look_up(
            alloc,
            &plan.positions,
            &|position| digest_at(&self.nodes, position),
        )?;
        let (before, rest) = split_digests(&nodes, plan.before);
        let (after, inner) = split_digests(rest, plan.after);
        Ok(self.fold_part(alloc, hasher, start, stop, before, after, inner)?)
    }

    /// The proof of a part of the range, out of the nodes that are kept and of what the verified proof gives for
    /// several peaks in one. With the hasher of that proof, and where its digests are those of a tree, it is the honest
    /// proof of the part. Where the part is empty: M4; where it does not stand in the range: M5 with its end; where the
    /// digest of a node that it is made of is not kept: M10 with the first such position; out of memory: M23.
    /// In the Rust: `merkle::verification::ProofStore::range_proof`, which takes no allocator.
    pub fn range_proof<H: Hasher<F, Digest = D>>(
        &self,
        alloc: Global,
        hasher: &H,
        range: Range<Location<F>>,
    ) -> Result<Proof<F, D>, Error<F>>
        ensures leaves { IfOk result (λ proof. proof.leaves ≡ self.now.leaves) }
        ensures inactive { IfOk result (λ proof. proof.inactive_peaks ≡ self.now.inactive) }
        ensures part { OnOk result (IsPart self.now range.start range.end) }
        ensures digests { (digest : Digests)
            → self.now.singles ≡ from_left (H.bagging_of hasher.now) self.now.inactive
            (length (peaks_of F.merge_rule self.now.leaves))
            → IsKnownOf F.merge_rule self.now.leaves digest (digest_among D.encoding self.now.nodes)
            → AreFoldsOf D.encoding H.hash_of F.merge_rule digest self.now
            → IfOk result (λ proof. map D.encoding proof.digests.items ≡ honest_digests H.hash_of digest
            (H.bagging_of hasher.now) F.merge_rule self.now.leaves self.now.inactive range.start range.end) }
        ensures known { OnOk result (first_missing (digest_among D.encoding self.now.nodes)
            (positions_of (part_nodes F.merge_rule self.now range.start range.end)) ≡ None) }
        ensures refused { IfErr result (λ e.
            IsRefusalToBuildPart F.merge_rule D.encoding self.now range.start range.end e) }
    {
        self.check_part(range.start, range.end)?;
        let (start, stop) = (range.start.as_u64(), range.end.as_u64());
        let digests = self.part_digests(alloc, hasher, start, stop)?;
        Ok(Proof {
            leaves: Location::new(self.leaves),
            inactive_peaks: self.inactive_peaks,
            digests,
        })
    }
}
