//! Which chunks are settled, by the leaf counts at which nodes are born.

ghost use Rattle.std.specs.Prelude.{◌≡◌, ◌<◌, ◌≤◌, ◌*◌, ◌^◌, ◌↔◌, ℕ, IsTrue};
ghost use Rattle.state_current.specs.Settled.{IsSettled, IsGreatestSettled};

use merkle_forest::{Graftable, MAX_LEAVES};

/// Whether each peak of so many chunks, raised by the grafting height, is a node of the tree of so many operations:
/// then the chunks may be pruned, and what is left still leads to each root (own).
pub fn is_settled<F: Graftable>(operations: u64, chunks: u64, height: u32) -> bool
    requires few { operations ≤ MAX_LEAVES }
    requires low { height ≤ 62 }
    ensures { IsTrue result ↔ IsSettled F.merge_rule height operations chunks }
{
    if chunks > operations >> height {
        return false;
    }
    let mut first = 0;
    while first < chunks {
        let (_, high) = F::peak_from(chunks, first);
        if F::birth(first * (1u64 << height), high + height) > operations {
            return false;
        }
        first += 1u64 << high;
    }
    true
}

/// The greatest number of chunks up to a limit that is settled, but no fewer than those that are pruned, where these
/// are settled (own).
pub fn greatest_settled<F: Graftable>(operations: u64, pruned: u64, limit: u64, height: u32) -> u64
    requires few { operations ≤ MAX_LEAVES }
    requires low { height ≤ 62 }
    ensures { IsSettled F.merge_rule height operations pruned
        → IsGreatestSettled F.merge_rule height operations pruned limit result }
{
    let mut chunks = limit.min(operations >> height);
    while pruned < chunks {
        if is_settled::<F>(operations, chunks, height) {
            return chunks;
        }
        chunks -= 1;
    }
    pruned
}
