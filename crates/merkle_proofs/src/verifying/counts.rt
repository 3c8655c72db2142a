//! How many digests of a range proof stand for the peaks beside the range.

ghost use Rattle.std.specs.Prelude.{◌≡◌, ◌<◌, ◌≤◌, ◌+◌, ◌-◌, ◌^◌, if◌then◌else◌, length, take, drop};
ghost use Rattle.merkle_forest.specs.Forest.{forest_of};
ghost use Rattle.merkle_forest.specs.Nodes.{HasPeak};
ghost use Rattle.merkle_forest.specs.Peaks.{located_from};
ghost use Rattle.merkle_theory.specs.RangeCounts.{passing, digests_for_before, digests_for_after, range_outer};
ghost use Rattle.merkle_theory.specs.MadeRoots.{peaks_of};
ghost use Rattle.merkle_theory.specs.Ranges.{is_before, is_after};

use crate::subtree::peak_at;
use merkle_forest::bagging::Bagging;
use merkle_forest::family::{Family, MAX_LEAVES};

// Some peaks that follow one another: how many stand before a range and how many after it, and where the next begins.
#[derive(Clone, Copy, Debug)]
pub(crate) struct Sides {
    pub(crate) before: u64,
    pub(crate) after: u64,
    pub(crate) next: u64,
}

// One where it holds.
fn one_if(test: bool) -> u64
    ensures { result ≡ (if test then 1 else 0) }
{
    if test { 1 } else { 0 }
}

// The first `most` peaks from the one on that begins at `first`.
pub(crate) fn sides_of<F: Family>(
    leaves: u64,
    first: u64,
    most: u64,
    start: u64,
    stop: u64,
) -> Sides
    requires few { leaves ≤ MAX_LEAVES }
    requires begins { first < leaves → HasPeak (forest_of F.merge_rule leaves) first }
    ensures before { result.before
        ≡ passing (is_before start) (take most (located_from first (forest_of F.merge_rule leaves))) }
    ensures after { result.after
        ≡ passing (is_after stop) (take most (located_from first (forest_of F.merge_rule leaves))) }
    ensures next { located_from result.next (forest_of F.merge_rule leaves)
        ≡ drop most (located_from first (forest_of F.merge_rule leaves)) }
    ensures begins { result.next < leaves → HasPeak (forest_of F.merge_rule leaves) result.next }
    ensures few { (result.before ≤ leaves - first) × (result.after ≤ leaves - first) }
{
    let none = Sides {
        before: 0,
        after: 0,
        next: first,
    };
    if first >= leaves {
        return none;
    }
    if most == 0 {
        return none;
    }
    let (_, next) = peak_at::<F>(leaves, first);
    let rest = sides_of::<F>(leaves, next, most - 1, start, stop);
    Sides {
        before: one_if(next <= start) + rest.before,
        after: one_if(stop <= first) + rest.after,
        next: rest.next,
    }
}

// How many digests stand for so many inactive and so many active peaks before the range.
fn count_before(bagging: Bagging, inactive: u64, active: u64) -> u64
    requires { inactive + active < 2 ^ 64 }
    ensures count { result ≡ digests_for_before bagging inactive active }
    ensures few { result ≤ inactive + active }
{
    match bagging {
        Bagging::ForwardFold => (inactive + active).min(1),
        Bagging::BackwardFold => inactive.min(1) + active,
    }
}

// And after it.
fn count_after(bagging: Bagging, inactive: u64, active: u64) -> u64
    requires { inactive + active < 2 ^ 64 }
    ensures count { result ≡ digests_for_after bagging inactive active }
    ensures few { result ≤ inactive + active }
{
    match bagging {
        Bagging::ForwardFold => inactive + active,
        Bagging::BackwardFold => inactive + active.min(1),
    }
}

/// How many digests of the proof of a range stand for the peaks beside it, where there are `peaks` peaks and so many
/// first ones are inactive (own).
pub fn count_outer<F: Family>(
    bagging: Bagging,
    leaves: u64,
    peaks: u64,
    inactive: u64,
    start: u64,
    stop: u64,
) -> u64
    requires few { leaves ≤ MAX_LEAVES }
    requires peaks { peaks ≡ length (peaks_of F.merge_rule leaves) }
    ensures { result ≡ range_outer bagging start stop inactive (peaks_of F.merge_rule leaves) }
{
    let one = sides_of::<F>(leaves, 0, inactive, start, stop);
    let other = sides_of::<F>(leaves, one.next, peaks, start, stop);
    count_before(bagging, one.before, other.before) + count_after(bagging, one.after, other.after)
}
