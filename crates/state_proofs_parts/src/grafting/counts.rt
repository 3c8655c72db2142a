//! How many chunks have their node, and how many first peaks are inactive, by closed formulas.

ghost use Rattle.std.specs.Prelude.{◌≡◌, ◌≤◌, ◌<◌, ◌-◌, ◌*◌, ◌^◌, IfOk, IfErr, IsOk, ◌↔◌};
ghost use Rattle.merkle_forest.specs.Forest.{forest_of};
ghost use Rattle.merkle_forest.specs.Nodes.{nodes_of_height, HasPeak};
ghost use Rattle.merkle_forest.specs.Peaks.{located_from};
ghost use Rattle.merkle_forest.specs.Trees.{located};
ghost use Rattle.merkle_core_parts.specs.declared.error.Error.TheVariants.{LocationOverflow};
ghost use Rattle.state_theory.specs.Bits.{IsChunkWidth};
ghost use Rattle.state_theory.specs.Grafting.{chunk_aligned_inactive_peaks as aligned_peaks};
ghost use Rattle.state_theory.specs.PeakEnds.{IsPeakEnd};

use crate::chunk_size::ChunkSize;
use merkle_core::error::Error;
use merkle_forest::family::{Family, MAX_LEAVES};
use merkle_forest::{Graftable, Location};

/// The height of a tree over as many operations as a chunk of N bytes has bits.
/// In the Rust: `qmdb::current::grafting::height`.
pub fn height<const N: usize>() -> u32
    requires { IsChunkWidth N }
    ensures whole { 8 * N ≡ 2 ^ result }
    ensures some { 0 < result }
    ensures low { result ≤ 62 }
{
    ChunkSize::of_bytes::<N>().grafting_height
}

/// How many chunks of 2^grafting_height operations have their node in the tree of so many operations.
/// In the Rust: `qmdb::current::grafting::graftable_chunks`, which panics at height 0.
pub fn graftable_chunks<F: Graftable>(leaves: Location<F>, grafting_height: u32) -> u64
    requires few { leaves ≤ MAX_LEAVES }
    requires some { 0 < grafting_height }
    requires low { grafting_height ≤ 62 }
    ensures { result ≡ nodes_of_height grafting_height (forest_of F.merge_rule leaves) }
{
    let leaves = leaves.as_u64();
    let birth = F::birth(0, grafting_height);
    if leaves < birth {
        return 0;
    }
    ((leaves - birth) >> grafting_height) + 1
}

/// How many chunks of so many operations are graftable (own).
pub fn graftable_chunks_of<F: Graftable>(leaves: u64, chunk_size: ChunkSize) -> u64
    requires { leaves ≤ 2 ^ 62 }
    ensures { result ≡ nodes_of_height chunk_size.grafting_height (forest_of F.merge_rule leaves) }
{
    graftable_chunks::<F>(Location::new(leaves), chunk_size.grafting_height)
}

// The location after the last leaf of the peak that begins at `first`.
fn peak_end<F: Family>(leaves: u64, first: u64) -> u64
    requires few { leaves ≤ MAX_LEAVES }
    requires begins { HasPeak (forest_of F.merge_rule leaves) first }
    ensures peak { IsPeakEnd (forest_of F.merge_rule leaves) first result }
    ensures later { first < result }
    ensures within { result ≤ leaves }
    ensures next { result < leaves → HasPeak (forest_of F.merge_rule leaves) result }
{
    let (_, height) = F::peak_from(leaves, first);
    first + (1u64 << height)
}

// Of the peaks from the one on that begins at `first`: how many first ones stand before the floor, of which the last
// one ends at a chunk's border.
fn aligned_from<F: Family>(leaves: u64, first: u64, floor: u64, bits: u64) -> usize
    requires few { leaves ≤ MAX_LEAVES }
    requires some { 0 < bits }
    requires begins { first < leaves → HasPeak (forest_of F.merge_rule leaves) first }
    ensures count { result ≡ aligned_peaks bits floor (located_from first (forest_of F.merge_rule leaves)) }
    ensures few { result ≤ leaves - first }
{
    if first >= leaves {
        return 0;
    }
    let end = peak_end::<F>(leaves, first);
    if end > floor {
        return 0;
    }
    let later = aligned_from::<F>(leaves, end, floor, bits);
    if later > 0 {
        return later + 1;
    }
    if end % bits == 0 { 1 } else { 0 }
}

/// The greatest number of first peaks whose leaves all stand before the floor and of which the last one ends at the
/// border of a chunk of 2^grafting_height operations; 0 where there is none. Past `MAX_LEAVES` leaves: M3.
/// In the Rust: `qmdb::current::grafting::chunk_aligned_inactive_peaks`.
pub fn chunk_aligned_inactive_peaks<F: Family>(
    leaves: Location<F>,
    floor: Location<F>,
    grafting_height: u32,
) -> Result<usize, Error<F>>
    requires { grafting_height < 64 }
    ensures answered { IsOk result ↔ (leaves ≤ MAX_LEAVES) }
    ensures count { IfOk result (λ count. count
        ≡ aligned_peaks (2 ^ grafting_height) floor (located (forest_of F.merge_rule leaves))) }
    ensures refused { IfErr result (λ e. e ≡ LocationOverflow leaves) }
{
    if leaves.as_u64() > MAX_LEAVES {
        return Err(Error::LocationOverflow(leaves));
    }
    let bits = 1u64 << grafting_height;
    Ok(aligned_from::<F>(leaves.as_u64(), 0, floor.as_u64(), bits))
}
