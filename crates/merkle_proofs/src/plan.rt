//! Plans of proofs: which nodes the proof of a range is made of, before their digests are looked up.

ghost use Rattle.std.specs.Prelude.{◌≡◌, ◌<◌, ◌≤◌, ◌+◌, ◌^◌, List, ℕ, Some, None, map, length, IfOk, IfErr, OnOk};
ghost use Rattle.merkle_theory.specs.MadeRoots.{peaks_of};
ghost use Rattle.merkle_theory.specs.Plans.{Asked, IsWithinTree, IsRefusalOfRange, IsRefusalOfElement};
ghost use Rattle.merkle_theory.specs.Plans.{IsRefusalToBuild, Lookup, AnswersAs, looked_up, first_missing};
ghost use Rattle.merkle_theory.specs.Plans.{range_positions, honest_digests};

pub(crate) mod digests;
pub(crate) mod positions;

use crate::building::plain::Side;
use crate::plan::digests::{assemble, look_up};
use crate::plan::positions::{append_inner, append_side};
use crate::proof::Proof;
use crate::subtree::peaks_from;
use crate::verifying::counts::sides_of;
use merkle_core_parts::Error;
use merkle_forest::family::{Family, MAX_LEAVES};
use merkle_forest::hasher::Hasher;
use merkle_forest::{Digest, Location, Position};
use std::alloc::{AllocError, Global};
use std::marker::Model;
use std::ops::Range;

/// Which nodes the proof of a range of leaves is made of. Contracts see how many leaves the tree has, and the range.
/// In the Rust: `merkle::RangePlan`.
#[derive(Debug, Drop)]
pub struct RangePlan<F: Family> {
    alloc: Global,
    leaves: u64,
    start: u64,
    stop: u64,
    before: usize,
    after: usize,
    positions: Vec<Position<F>>,
}

impl<F: Family> Model for RangePlan<F> {
    ghost use Rattle.std.specs.Prelude.{◌≡◌};
    ghost use Rattle.merkle_theory.specs.MadeRoots.{peaks_of};
    ghost use Rattle.merkle_theory.specs.Plans.{Asked, IsWithinTree, range_positions};
    ghost use Rattle.merkle_theory.specs.RangeCounts.{passing};
    ghost use Rattle.merkle_theory.specs.Ranges.{is_before, is_after};

    ghost Value = { Asked };

    ghost view = { λ p. record { leaves = p.leaves; start = p.start; stop = p.stop } };

    ghost invariant = { λ p. IsWithinTree (record { leaves = p.leaves; start = p.start; stop = p.stop })
        × (p.before ≡ passing (is_before p.start) (peaks_of F.merge_rule p.leaves))
        × (p.after ≡ passing (is_after p.stop) (peaks_of F.merge_rule p.leaves))
        × (p.positions.items ≡ range_positions F.merge_rule p.leaves p.start p.stop) };
}

// Whether the range stands in a tree of so many leaves.
fn check_range<F: Family>(
    leaves: Location<F>,
    start: Location<F>,
    stop: Location<F>,
) -> Result<(), Error<F>>
    ensures within { OnOk result (IsWithinTree (record { leaves = leaves; start = start; stop = stop })) }
    ensures refused { IfErr result (λ e. IsRefusalOfRange (record { leaves = leaves; start = start; stop = stop }) e) }
{
    if start >= stop {
        return Err(Error::Empty);
    }
    if stop > leaves {
        return Err(Error::RangeOutOfBounds(stop));
    }
    if leaves.as_u64() > MAX_LEAVES {
        return Err(Error::LocationOverflow(leaves));
    }
    Ok(())
}

impl<F: Family> RangePlan<F> {
    /// The plan of the proof of a range in the tree of so many leaves. Where the range is empty: M4; where it ends past
    /// the leaves: M5 with its end; where the leaves are past `MAX_LEAVES`: M3 with their count, each in this order;
    /// out of memory: M23.
    /// In the Rust: `merkle::RangePlan::new`.
    pub fn new(
        alloc: Global,
        leaves: Location<F>,
        range: Range<Location<F>>,
    ) -> Result<RangePlan<F>, Error<F>>
        ensures plan { IfOk result (λ plan. plan
            ≡ record { leaves = leaves; start = range.start; stop = range.end }) }
        ensures within { OnOk result
            (IsWithinTree (record { leaves = leaves; start = range.start; stop = range.end })) }
        ensures refused { IfErr result (λ e.
            IsRefusalOfRange (record { leaves = leaves; start = range.start; stop = range.end }) e) }
    {
        check_range(leaves, range.start, range.end)?;
        let (leaves, start, stop) = (leaves.as_u64(), range.start.as_u64(), range.end.as_u64());
        let mut positions = Vec::new(alloc);
        append_side(&mut positions, leaves, 0, Side::Before(start))?;
        let before = positions.len();
        append_side(&mut positions, leaves, 0, Side::After(stop))?;
        let after = positions.len() - before;
        append_inner(&mut positions, leaves, 0, start, stop)?;
        Ok(RangePlan {
            alloc,
            leaves,
            start,
            stop,
            before,
            after,
            positions,
        })
    }

    /// How many leaves the tree has. In the Rust: `merkle::RangePlan::leaves`.
    pub fn leaves(&self) -> Location<F>
        ensures { result ≡ self.now.leaves }
    {
        Location::new(self.leaves)
    }

    /// The positions of the nodes that the proof is made of: the peaks before the range, the peaks after it, and in the
    /// peaks that meet it the maximal nodes that hold no leaf of it, each from left to right.
    /// In the Rust: `merkle::RangePlan::positions`, which makes a vector.
    pub fn positions(&self) -> &[Position<F>]
        ensures { result.now ≡ range_positions F.merge_rule self.now.leaves self.now.start self.now.stop }
    {
        &self.positions
    }

    // The digests of the proof, from those of the nodes that it is made of.
    fn fold<H: Hasher<F>>(
        &self,
        hasher: &H,
        inactive: u64,
        nodes: &[H::Digest],
    ) -> Result<Vec<H::Digest>, AllocError>
        requires { length nodes.now
            ≡ length (range_positions F.merge_rule self.now.leaves self.now.start self.now.stop) }
        ensures { (known : Lookup) → map (λ d. Some d) (map H.Digest.encoding nodes.now)
            ≡ map known (range_positions F.merge_rule self.now.leaves self.now.start self.now.stop)
            → IfOk result (λ found. map H.Digest.encoding found.items
            ≡ honest_digests H.hash_of (looked_up known) (H.bagging_of hasher.now) F.merge_rule self.now.leaves inactive
            self.now.start self.now.stop) }
    {
        let sides = sides_of::<F>(self.leaves, 0, inactive, self.start, self.stop);
        let (before, rest) = nodes.split_at(self.before);
        let (after, inner) = rest.split_at(self.after);
        assemble(
            self.alloc,
            hasher,
            before,
            sides.before as usize,
            after,
            sides.after as usize,
            inner,
        )
    }

    /// The proof, of whose peaks so many are inactive, from the digests of nodes that the function gives. Where there
    /// are fewer peaks: M16; where it gives none for one of the positions: M10 with the first of them; out of memory:
    /// M23.
    /// In the Rust: `merkle::RangePlan::build`.
    pub fn build<D: Digest, H: Hasher<F, Digest = D>, G: Fn(u64) -> Option<D>>(
        &self,
        hasher: &H,
        inactive_peaks: usize,
        get_node: &G,
    ) -> Result<Proof<F, H::Digest>, Error<F>>
        requires { G.IsAlwaysCallable get_node.now }
        ensures leaves { IfOk result (λ proof. proof.leaves ≡ self.now.leaves) }
        ensures inactive { IfOk result (λ proof. proof.inactive_peaks ≡ inactive_peaks) }
        ensures enough { OnOk result (inactive_peaks ≤ length (peaks_of F.merge_rule self.now.leaves)) }
        ensures digests { (known : Lookup) → AnswersAs (G.post get_node.now) D.encoding known
            → IfOk result (λ proof. map D.encoding proof.digests.items
            ≡ honest_digests H.hash_of (looked_up known) (H.bagging_of hasher.now) F.merge_rule self.now.leaves
            inactive_peaks self.now.start self.now.stop) }
        ensures known { (known : Lookup) → AnswersAs (G.post get_node.now) D.encoding known
            → OnOk result (first_missing known (range_positions F.merge_rule self.now.leaves self.now.start
            self.now.stop) ≡ None) }
        ensures refused { (known : Lookup) → AnswersAs (G.post get_node.now) D.encoding known
            → IfErr result (λ e. IsRefusalToBuild F.merge_rule self.now inactive_peaks known e) }
    {
        let inactive = inactive_peaks as u64;
        if inactive > peaks_from::<F>(self.leaves, 0) {
            return Err(Error::InvalidInactivePeaks);
        }
        let nodes = look_up(self.alloc, &self.positions, get_node)?;
        let digests = self.fold(hasher, inactive, &nodes)?;
        Ok(Proof {
            leaves: Location::new(self.leaves),
            inactive_peaks: inactive,
            digests,
        })
    }
}

/// Which nodes the proof of one element is made of. Contracts see how many leaves the tree has, and the range of that
/// one location.
/// In the Rust: `merkle::ElementPlan`.
#[derive(Debug, Drop)]
pub struct ElementPlan<F: Family> {
    plan: RangePlan<F>,
}

impl<F: Family> Model for ElementPlan<F> {
    ghost use Rattle.std.specs.Prelude.{◌≡◌, ◌+◌};
    ghost use Rattle.merkle_theory.specs.Plans.{Asked};

    ghost Value = { Asked };

    ghost view = { λ p. p.plan };

    ghost invariant = { λ p. p.plan.stop ≡ p.plan.start + 1 };
}

impl<F: Family> ElementPlan<F> {
    /// The plan of the proof of the element at a location, in the tree of so many leaves. Where no leaf stands there:
    /// M7 with the location; where the leaves are past `MAX_LEAVES`: M3 with their count, in this order; out of memory:
    /// M23.
    /// In the Rust: `merkle::ElementPlan::new`.
    pub fn new(
        alloc: Global,
        leaves: Location<F>,
        location: Location<F>,
    ) -> Result<ElementPlan<F>, Error<F>>
        ensures plan { IfOk result (λ plan. plan
            ≡ record { leaves = leaves; start = location; stop = location + 1 }) }
        ensures within { OnOk result ((location < leaves) × (leaves ≤ MAX_LEAVES)) }
        ensures refused { IfErr result (λ e. IsRefusalOfElement leaves location e) }
    {
        if location >= leaves {
            return Err(Error::LeafOutOfBounds(location));
        }
        let end = location + 1;
        let plan = RangePlan::new(alloc, leaves, location..end)?;
        Ok(ElementPlan { plan })
    }

    /// The location of the element. In the Rust: `merkle::ElementPlan::location`.
    pub fn location(&self) -> Location<F>
        ensures { result ≡ self.now.start }
    {
        Location::new(self.plan.start)
    }

    /// The positions of the nodes that the proof is made of, in the order of a range of one location.
    /// In the Rust: `merkle::ElementPlan::positions`, which makes a vector.
    pub fn positions(&self) -> &[Position<F>]
        ensures { result.now ≡ range_positions F.merge_rule self.now.leaves self.now.start (self.now.start + 1) }
    {
        self.plan.positions()
    }
}

/// The plan of one element is that of the range of its one location.
impl<F: Family> From<ElementPlan<F>> for RangePlan<F> {
    ghost from_gives = { λ element range. range ≡ element };

    fn from(element: ElementPlan<F>) -> RangePlan<F> {
        element.plan
    }
}
