//! The peaks of a forest from left to right, for every family.

ghost use Rattle.std.specs.Prelude.{◌≡◌, ◌≤◌, ℕ, map};
ghost use Rattle.std.specs.Iterator.{YieldsFirst, item_count};
ghost use Rattle.merkle_forest.specs.Forest.{forest_of};
ghost use Rattle.merkle_forest.specs.Nodes.{IsSize};
ghost use Rattle.merkle_forest.specs.Trees.{located, inactive_peaks};
ghost use Rattle.merkle_forest.specs.Peaks.{ArePeaksOf, GivesFirstPeak, all_peaks};

use crate::family::{Family, MAX_LEAVES};
use crate::location::Location;
use crate::position::Position;
use crate::sizes::greatest_leaf_count;
use std::marker::{Model, PhantomData};

/// The peaks of a forest from left to right: the position and the height of each. Contracts see how many leaves the
/// forest has, and the peaks that are left.
/// In the Rust: the unnamed iterator of `merkle::Family::peaks`.
#[derive(Drop)]
pub struct Peaks<F: Family> {
    leaves: u64,
    next: u64,
    family: PhantomData<F>,
}

impl<F: Family> Model for Peaks<F> {
    ghost use Rattle.std.specs.Prelude.{◌≡◌, ◌≤◌, ◌^◌, true};
    ghost use Rattle.merkle_forest.specs.Forest.{forest_of};
    ghost use Rattle.merkle_forest.specs.Peaks.{PeaksLeft, positions_from, is_cut};

    ghost Value = { PeaksLeft };

    ghost view = { λ a. record {
      leaves = a.leaves;
      left = positions_from a.next (forest_of F.merge_rule a.leaves);
    } };

    ghost invariant = { λ a. (a.leaves ≤ 2 ^ 62) × (is_cut a.next (forest_of F.merge_rule a.leaves) ≡ true) };
}

impl<F: Family> Peaks<F> {
    /// The peaks of the forest that has this many nodes.
    /// In the Rust: `merkle::mmr::iterator::PeakIterator::new`; here it is for every family.
    pub fn new(nodes: Position<F>) -> Peaks<F>
        requires { IsSize F.merge_rule nodes }
        ensures { ArePeaksOf F.merge_rule nodes result }
    {
        Peaks::of_leaves(Location::new(greatest_leaf_count::<F>(nodes.as_u64())))
    }

    /// The peaks of the forest of this many leaves (own).
    pub fn of_leaves(leaves: Location<F>) -> Peaks<F>
        requires { leaves ≤ MAX_LEAVES }
        ensures { result ≡ all_peaks F.merge_rule leaves }
    {
        Peaks {
            leaves: leaves.as_u64(),
            next: 0,
            family: PhantomData,
        }
    }

    /// How many leaves the forest has, those of peaks that were taken among them.
    /// In the Rust: `merkle::mmr::iterator::PeakIterator::leaves`; here it is for every family.
    pub fn leaves(&self) -> Location<F>
        ensures leaves { result ≡ self.now.leaves }
        ensures few { result ≤ MAX_LEAVES }
    {
        Location::new(self.leaves)
    }

    /// The greatest node count up to this one that a forest of up to `MAX_LEAVES` leaves has.
    /// In the Rust: `merkle::mmr::iterator::PeakIterator::to_nearest_size`, which takes no size past `MAX_NODES`.
    pub fn to_nearest_size(size: Position<F>) -> Position<F>
        ensures valid { IsSize F.merge_rule result }
        ensures within { result ≤ size }
        ensures nearest { (s : ℕ) → IsSize F.merge_rule s → s ≤ size → s ≤ result }
    {
        F::to_nearest_size(size)
    }
}

impl<F: Family> Iterator for Peaks<F> {
    type Item = (Position<F>, u32);

    ghost next_gives = { GivesFirstPeak };

    ghost remaining = { item_count (λ s. s.left) };

    fn next(&mut self) -> Option<(Position<F>, u32)> {
        if self.next >= self.leaves {
            return None;
        }
        let (position, height) = F::peak_from(self.leaves, self.next);
        self.next += 1u64 << height;
        Some((Position::new(position), height))
    }
}

/// The positions of the peaks of a forest from left to right. Contracts see those that are left.
/// In the Rust: the unnamed iterator of `merkle::Family::nodes_to_pin`.
#[derive(Drop)]
pub struct PeakPositions<F: Family> {
    peaks: Peaks<F>,
}

impl<F: Family> Model for PeakPositions<F> {
    ghost use Rattle.std.specs.Prelude.{ℕ, List, map};

    ghost Value = { List ℕ };

    ghost view = { λ a. map (λ peak. peak.0) a.peaks.left };
}

impl<F: Family> PeakPositions<F> {
    /// The positions of these peaks (own).
    pub fn new(peaks: Peaks<F>) -> PeakPositions<F>
        ensures { result ≡ map (λ peak. peak.0) peaks.left }
    {
        PeakPositions { peaks }
    }
}

impl<F: Family> Iterator for PeakPositions<F> {
    type Item = Position<F>;

    ghost next_gives = { YieldsFirst (λ s. s) };

    ghost remaining = { item_count (λ s. s) };

    fn next(&mut self) -> Option<Position<F>> {
        let (position, _) = self.peaks.next()?;
        Some(position)
    }
}

/// How many peaks of the forest of this many leaves come first whose leaves all stand before the floor (own).
pub fn inactive_count<F: Family>(leaves: u64, floor: u64) -> usize
    requires { leaves ≤ MAX_LEAVES }
    ensures { result ≡ inactive_peaks floor (located (forest_of F.merge_rule leaves)) }
{
    let mut first = 0;
    let mut count = 0;
    while first < leaves {
        let (_, height) = F::peak_from(leaves, first);
        let end = first + (1u64 << height);
        if end > floor {
            return count;
        }
        first = end;
        count += 1;
    }
    count
}
