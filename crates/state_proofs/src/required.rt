//! The chunks that a proof needs: the partial one, the pending one, and that of the location that is asked for.

ghost use Rattle.std.specs.Prelude.{◌≡◌, ◌↔◌, ◌<◌, ◌≤◌, ◌+◌, ◌*◌, ◌/◌, ◌^◌, ◌⊎◌, ℕ, Contains, IfOk, IfErr, OnOk};
ghost use Rattle.std.specs.Prelude.{MatchOption, MatchResult, min, if◌then◌else◌};
ghost use Rattle.std.specs.List.Sorted.{IsStrictlyIncreasing};
ghost use Rattle.std.specs.Iterator.{YieldsFirst, item_count};
ghost use Rattle.merkle_forest.specs.Forest.{forest_of};
ghost use Rattle.merkle_forest.specs.Nodes.{nodes_of_height};
ghost use Rattle.merkle_core_parts.specs.declared.error.Error.TheVariants.{RangeOutOfBounds};
ghost use Rattle.state_theory.specs.Bits.{IsChunkWidth};
ghost use Rattle.state_proofs.specs.declared.error.Error.TheVariants.{Merkle, OperationPruned};
ghost use Rattle.state_proofs.specs.BuiltCode.{measures_with};
ghost use Rattle.state_proofs.specs.Required.{IsGranted, IsRefusal, IsNeeded};
ghost use Rattle.state_proofs.specs.RequiredCode.{measures_of, asked_of, option_below};

use crate::error::Error;
use merkle_core::error;
use merkle_forest::{Graftable, Location, MAX_LEAVES};
use state_proofs_parts::chunk_size::ChunkSize;
use state_proofs_parts::grafting::graftable_chunks_of;
use std::marker::Model;

/// The chunks that a proof needs, by their indexes, ascending and each once. Contracts see those that are left.
/// In the Rust: the unnamed iterator of `qmdb::current::proof::required_chunks`.
#[derive(Debug, Drop)]
pub struct RequiredChunks {
    queried: Option<u64>,
    pending: Option<u64>,
    partial: Option<u64>,
}

impl Model for RequiredChunks {
    ghost use Rattle.std.specs.Prelude.{ℕ, List, ◌++◌};
    ghost use Rattle.state_proofs.specs.RequiredCode.{as_list};

    ghost Value = { List ℕ };

    ghost view = { λ r. as_list r.queried ++ (as_list r.pending ++ as_list r.partial) };
}

impl Iterator for RequiredChunks {
    type Item = u64;

    ghost next_gives = { YieldsFirst (λ s. s) };

    ghost remaining = { item_count (λ s. s) };

    fn next(&mut self) -> Option<u64> {
        if let Some(index) = self.queried {
            self.queried = None;
            return Some(index);
        }
        if let Some(index) = self.pending {
            self.pending = None;
            return Some(index);
        }
        let index = self.partial?;
        self.partial = None;
        Some(index)
    }
}

// How many full chunks have their node. None: more than one has none, or a pruned one has none.
pub(crate) fn graftable_window<F: Graftable>(
    chunk_size: ChunkSize,
    leaves: Location<F>,
    complete: u64,
    pruned: u64,
) -> Option<u64>
    requires { leaves ≤ MAX_LEAVES }
    ensures { let graftable =
        min (nodes_of_height chunk_size.grafting_height (forest_of F.merge_rule leaves)) complete in
        MatchOption result ((graftable + 1 < complete) ⊎ (graftable < pruned))
        (λ found. (found ≡ graftable) × ((complete ≤ graftable + 1) × (pruned ≤ graftable))) }
{
    let graftable = graftable_chunks_of::<F>(leaves.as_u64(), chunk_size).min(complete);
    if complete - graftable > 1 || pruned > graftable {
        return None;
    }
    Some(graftable)
}

// The chunk with the bit of the operation at a location. Where there is no such operation or bit: Q3 with M5; where the
// chunk is pruned: Q2.
fn queried_chunk<F: Graftable>(
    chunk_size: ChunkSize,
    leaves: Location<F>,
    bits: u64,
    pruned: u64,
    location: Location<F>,
) -> Result<u64, Error<F>>
    ensures { MatchResult result
        (λ index. (index ≡ location / (8 * chunk_size.width))
        × ((location < leaves) × ((location < bits) × (pruned ≤ index))))
        (λ e. ((e ≡ Merkle (RangeOutOfBounds location)) × ((leaves ≤ location) ⊎ (bits ≤ location)))
        ⊎ ((e ≡ OperationPruned location)
        × ((location < leaves) × ((location < bits) × (location / (8 * chunk_size.width) < pruned))))) }
{
    if location >= leaves || location.as_u64() >= bits {
        return Err(Error::Merkle(error::Error::RangeOutOfBounds(location)));
    }
    let index = chunk_size.index_of(location.as_u64());
    if index < pruned {
        return Err(Error::OperationPruned(location));
    }
    Ok(index)
}

// The chunk, where it is below a bound.
fn below(index: Option<u64>, bound: u64) -> Option<u64>
    ensures { result ≡ option_below index bound }
{
    match index {
        Some(index) if index < bound => Some(index),
        _ => None,
    }
}

// The number where it holds.
fn where_true(test: bool, index: u64) -> Option<u64>
    ensures { result ≡ (if test then Some index else None) }
{
    if test { Some(index) } else { None }
}

/// The chunks that are read for a proof of a state with so many operations and bits, of which so many chunks are
/// pruned: the partial chunk if the bits don't fill their chunks, the pending one if any, and that of the location if
/// one is given. Where more than one full chunk has no node yet, or a pruned one has none: Q1; where no operation or
/// bit is at the location: Q3 with M5; where its chunk is pruned: Q2 (own).
pub fn required_chunks_of<F: Graftable>(
    chunk_size: ChunkSize,
    ops_leaves: Location<F>,
    bitmap_len: u64,
    pruned_chunks: u64,
    location: Option<Location<F>>,
) -> Result<RequiredChunks, Error<F>>
    requires { ops_leaves ≤ MAX_LEAVES }
    ensures ascending { IfOk result (λ chunks. IsStrictlyIncreasing chunks) }
    ensures needed { IfOk result (λ chunks. (index : ℕ) → Contains chunks index
        ↔ IsNeeded (measures_of F.merge_rule chunk_size) (asked_of ops_leaves bitmap_len pruned_chunks
        location) index) }
    ensures granted { OnOk result
        (IsGranted (measures_of F.merge_rule chunk_size) (asked_of ops_leaves bitmap_len pruned_chunks location)) }
    ensures refused { IfErr result
        (IsRefusal (measures_of F.merge_rule chunk_size) (asked_of ops_leaves bitmap_len pruned_chunks location)) }
{
    let complete = chunk_size.full_chunks(bitmap_len);
    let Some(graftable) = graftable_window::<F>(chunk_size, ops_leaves, complete, pruned_chunks)
    else {
        return Err(Error::DataCorrupted);
    };
    let queried = match location {
        None => None,
        Some(location) => Some(queried_chunk(
            chunk_size,
            ops_leaves,
            bitmap_len,
            pruned_chunks,
            location,
        )?),
    };
    Ok(RequiredChunks {
        queried: below(queried, graftable),
        pending: where_true(graftable < complete, graftable),
        partial: where_true(chunk_size.bit_of(bitmap_len) > 0, complete),
    })
}

/// The chunks that are read for a proof of a state whose chunks have N bytes: as `required_chunks_of` answers and
/// refuses.
/// In the Rust: `qmdb::current::proof::required_chunks`.
pub fn required_chunks<F: Graftable, const N: usize>(
    ops_leaves: Location<F>,
    bitmap_len: u64,
    pruned_chunks: u64,
    location: Option<Location<F>>,
) -> Result<RequiredChunks, Error<F>>
    requires width { IsChunkWidth N }
    requires leaves { ops_leaves ≤ MAX_LEAVES }
    ensures ascending { IfOk result (λ chunks. IsStrictlyIncreasing chunks) }
    ensures needed { (height : ℕ) → 8 * N ≡ 2 ^ height → IfOk result (λ chunks. (index : ℕ) → Contains chunks index
        ↔ IsNeeded (measures_with F.merge_rule N height) (asked_of ops_leaves bitmap_len pruned_chunks
        location) index) }
    ensures granted { (height : ℕ) → 8 * N ≡ 2 ^ height → OnOk result
        (IsGranted (measures_with F.merge_rule N height) (asked_of ops_leaves bitmap_len pruned_chunks location)) }
    ensures refused { (height : ℕ) → 8 * N ≡ 2 ^ height → IfErr result
        (IsRefusal (measures_with F.merge_rule N height) (asked_of ops_leaves bitmap_len pruned_chunks location)) }
{
    let chunk_size = ChunkSize::of_bytes::<N>();
    required_chunks_of(chunk_size, ops_leaves, bitmap_len, pruned_chunks, location)
}
