//! Leaf counts of node counts, for every family.

ghost use Rattle.std.specs.Prelude.{◌≡◌, ◌≤◌, ℕ};
ghost use Rattle.merkle_forest.specs.Forest.{size, forest_of};

use crate::family::{Family, MAX_LEAVES};

/// The greatest leaf count whose forest has at most this many nodes (own).
pub fn greatest_leaf_count<F: Family>(nodes: u64) -> u64
    ensures valid { result ≤ MAX_LEAVES }
    ensures within { size (forest_of F.merge_rule result) ≤ nodes }
    ensures greatest { (n : ℕ) → n ≤ MAX_LEAVES → size (forest_of F.merge_rule n) ≤ nodes → n ≤ result }
{
    let mut low = 0;
    // A forest has at least as many nodes as leaves.
    let mut above = nodes.min(MAX_LEAVES) + 1;
    while above - low > 1 {
        let middle = low + (above - low) / 2;
        if F::leaf_position(middle) <= nodes {
            low = middle;
        } else {
            above = middle;
        }
    }
    low
}
