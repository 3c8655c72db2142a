//! Whether operations are the log of a history.
//!
//! The log is gone over from commit to commit. The operations of a batch tell the state that they lead to; they are
//! those of a history only where they are what leads there from the state before, and where the commit records the
//! floor of the log with them. Both are told by the places of the keys that a batch names and by the first key, so that
//! no state is made. All keys of the log are ranked before, so that none is searched for.
//!
//!     commit ┊ update a  update c  commit ┊ delete a  update c  commit
//!            ┊  from [] to {a, c}  floor  ┊  from {a, c} to {c}  floor

ghost use Rattle.std.specs.Prelude.{◌≡◌, false, None, IfOk, MatchOption};
ghost use Rattle.std.specs.Bool.{Decides};
ghost use Rattle.std.specs.List.{list_any};
ghost use Rattle.state_ops.specs.Operation.{commit_floor, meaning_of};
ghost use Rattle.auth_store_parts.specs.History as spec;
ghost use Rattle.auth_store_parts.specs.Places.{places_of};
ghost use Rattle.auth_store_log.specs.Batches.{IsNextBatch};

use auth_store_parts::history::laws::{first_after_a_batch, one_commit_a_batch};
use auth_store_parts::history::{
    Places, RankedPlaces, first_after, inactivity_floor_by, is_batch_behind,
};
use merkle_forest::Family;
use state_ops::{FixedKey, FixedValue, Operation, OrderedOperation};
use std::alloc::{AllocError, Global};

// The operations of a batch, the floor that its commit records, and the operations behind that.
type NextBatch<'a, F, K, V> = (
    &'a [OrderedOperation<F, K, V>],
    u64,
    &'a [OrderedOperation<F, K, V>],
);

// The first batch of these operations. `None` where there is no commit.
fn next_batch<'a, F: Family, K: FixedKey, V: FixedValue>(
    operations: &'a [OrderedOperation<F, K, V>],
) -> Option<NextBatch<'a, F, K, V>>
    ensures { MatchOption result
        (list_any spec.is_commit (spec.meanings K.encoding V.encoding operations.now) ≡ false)
        (λ batch. IsNextBatch (spec.meanings K.encoding V.encoding batch.0.now) batch.1
        (spec.meanings K.encoding V.encoding batch.2.now) (spec.meanings K.encoding V.encoding operations.now)) }
{
    for (at, operation) in operations.iter().enumerate() {
        if let Operation::CommitFloor(_, floor) = operation {
            return Some((&operations[..at], floor.as_u64(), &operations[at + 1..]));
        }
    }
    None
}

// Whether the operation is the one that each log begins with: a commit of nothing.
fn is_beginning<F: Family, K: FixedKey, V: FixedValue>(
    operation: &OrderedOperation<F, K, V>,
) -> bool
    ensures { Decides result (meaning_of K.encoding V.encoding operation.now ≡ commit_floor None 0) }
{
    match operation {
        Operation::CommitFloor(None, floor) => floor.as_u64() == 0,
        _ => false,
    }
}

/// The places of the log of a history. None: the operations are the log of none. They can be the log of that history
/// alone which they stand for. It fails only when out of memory.
pub fn places_of_log<F: Family, K: FixedKey, V: FixedValue>(
    alloc: Global,
    operations: &[OrderedOperation<F, K, V>],
) -> Result<Option<Places<K>>, AllocError>
    ensures { let said = spec.meanings K.encoding V.encoding operations.now in
        IfOk result (λ found. MatchOption found (said ≡ spec.log_of (spec.history_of said) → ⊥)
        (λ places. (said ≡ spec.log_of (spec.history_of said)) × (places ≡ places_of said))) }
{
    one_commit_a_batch();
    first_after_a_batch();
    let [beginning, behind @ ..] = operations else {
        return Ok(None);
    };
    if !is_beginning(beginning) {
        return Ok(None);
    }
    let mut ranked = RankedPlaces::of(alloc, operations)?;
    let mut first: Option<&K> = None;
    let mut floor = 0u64;
    let mut rest = behind;
    while let Some((batch, recorded, later)) = next_batch(rest) {
        let start = operations.len() - rest.len();
        if !is_batch_behind(alloc, &operations[..start], first, &ranked, batch)? {
            return Ok(None);
        }
        first = first_after(first, batch);
        ranked.follow_all(start, batch);
        floor = inactivity_floor_by(&operations[..start + batch.len()], &ranked, floor);
        if floor != recorded {
            return Ok(None);
        }
        rest = later;
    }
    if rest.is_empty() {
        return Ok(Some(ranked.into_places()?));
    }
    Ok(None)
}
