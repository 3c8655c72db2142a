//! Nodes of a forest, and its peaks from left to right, by closed formulas.

ghost use Rattle.std.specs.Prelude.{◌≡◌, ◌<◌, ◌≤◌, ◌-◌, length};
ghost use Rattle.merkle_forest.specs.Forest.{forest_of};
ghost use Rattle.merkle_forest.specs.Nodes.{HasPeak};
ghost use Rattle.merkle_forest.specs.Peaks.{located_from};
ghost use Rattle.merkle_theory.specs.Subtrees.{IsPeakFrom};

use merkle_forest::family::{Family, MAX_LEAVES};

/// A node of a forest: the location of its first leaf, its position and its height (own).
#[derive(Clone, Copy, Debug, PartialEq, Eq)]
pub struct Subtree {
    /// The location of the first leaf below it.
    pub first: u64,
    /// Its position.
    pub position: u64,
    /// Its height.
    pub height: u32,
}

// The peak that begins at `first`, and the location after its last leaf.
pub(crate) fn peak_at<F: Family>(leaves: u64, first: u64) -> (Subtree, u64)
    requires few { leaves ≤ MAX_LEAVES }
    requires begins { HasPeak (forest_of F.merge_rule leaves) first }
    ensures peak { IsPeakFrom F.merge_rule leaves first result.0.first result.0.position result.0.height result.1 }
    ensures later { first < result.1 }
    ensures within { result.1 ≤ leaves }
    ensures next { result.1 < leaves → HasPeak (forest_of F.merge_rule leaves) result.1 }
{
    let (position, height) = F::peak_from(leaves, first);
    let subtree = Subtree {
        first,
        position,
        height,
    };
    (subtree, first + (1u64 << height))
}

// How many peaks begin at `first` or after it.
pub(crate) fn peaks_from<F: Family>(leaves: u64, first: u64) -> u64
    requires few { leaves ≤ MAX_LEAVES }
    requires begins { first < leaves → HasPeak (forest_of F.merge_rule leaves) first }
    ensures count { result ≡ length (located_from first (forest_of F.merge_rule leaves)) }
    ensures few { result ≤ leaves - first }
{
    if first >= leaves {
        return 0;
    }
    let (_, next) = peak_at::<F>(leaves, first);
    1 + peaks_from::<F>(leaves, next)
}
