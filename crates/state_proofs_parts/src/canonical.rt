//! The canonical root of a state: the plain program of the definition (own).

ghost use Rattle.std.specs.Prelude.{◌≡◌, ◌<◌, ◌≤◌, ◌+◌, ◌*◌, ◌^◌, ◌++◌, ◌↔◌, [], ◌∷◌, ℕ, List, map, length, IfOk};
ghost use Rattle.std.specs.Prelude.{IfSome, IsSome, option_map, slice_index_or};
ghost use Rattle.merkle_forest.specs.Forest.{leaves, forest_of};
ghost use Rattle.merkle_forest.specs.Shape.{shape};
ghost use Rattle.state_theory.specs.Canonical.{chunks as all_chunks, operations_root, grafted_root};
ghost use Rattle.state_theory.specs.Canonical.{pending_digest};
ghost use Rattle.state_theory.specs.Canonical.{partial_digest, canonical_root as root_of_state};
ghost use Rattle.state_proofs_parts.specs.Snapshot.{state_of, setting_of};

use crate::bits::chunks_from;
use crate::grafting::{Grafted, aligned_count_of, graftable_count};
use crate::seal::seal;
use crate::snapshot::Snapshot;
use merkle_forest::bagging::Bagging;
use merkle_forest::digest::Digest;
use merkle_forest::family::Family;
use merkle_forest::forest::{Tree, grow};
use merkle_forest::hasher::{HashFunction, Hasher, Standard};
use merkle_forest::location::Location;
use merkle_forest::trees::{Plain, digests_of_peaks, inactive_count_of, locate};
use std::alloc::{AllocError, Global};
use std::marker::PhantomData;

/// All chunks of the state, the partial one too. It fails only when out of memory.
#[tactic(auto, unfolding(state_theory::specs::Canonical::chunks))]
pub fn chunks_of_state(alloc: Global, snapshot: &Snapshot<'_>) -> Result<Vec<Vec<u8>>, AllocError>
    ensures { (rule : _) (hash : _)
        → IfOk result (λ found. map (λ chunk. chunk.items) found.items
        ≡ all_chunks (setting_of rule hash snapshot.now) (state_of snapshot.now)) }
{
    let operations = snapshot.operations.len() as u64;
    let full = snapshot.chunk_size.full_chunks(operations);
    let count = if snapshot.chunk_size.bit_of(operations) == 0 {
        full
    } else {
        full + 1
    };
    chunks_from(alloc, snapshot.chunk_size, count as usize, snapshot.bits)
}

/// The root of the operations' tree. It fails only when out of memory.
pub fn root_of_operations<F: Family, H: HashFunction>(
    alloc: Global,
    snapshot: &Snapshot<'_>,
    trees: &[Tree],
) -> Result<H::Digest, AllocError>
    requires grown { map shape trees.now ≡ forest_of F.merge_rule (length snapshot.now.operations.now) }
    requires counted { leaves (map shape trees.now) ≡ length snapshot.now.operations.now }
    ensures { IfOk result (λ root. H.Digest.encoding root
        ≡ operations_root (setting_of F.merge_rule H.hash_of snapshot.now) (state_of snapshot.now)) }
{
    let peaks = locate(alloc, trees)?;
    let inactive = inactive_count_of(snapshot.floor, &peaks);
    let plain: Plain<'_, H> = Plain::new(snapshot.operations);
    let digests: Vec<H::Digest> = digests_of_peaks(alloc, &plain, trees)?;
    let hasher: Standard<H> = Standard::new(Bagging::BackwardFold);
    let leaves: Location<F> = Location::new(snapshot.operations.len() as u64);
    Ok(hasher.root(leaves, inactive, &digests).unwrap())
}

/// The digests of the grafted tree of the state.
pub fn grafted_trees<'a, H>(snapshot: &Snapshot<'a>, chunks: &'a [Vec<u8>]) -> Grafted<'a, H>
    ensures elements { result.elements.now ≡ snapshot.now.operations.now }
    ensures chunks { result.chunks.now ≡ chunks.now }
    ensures size { result.chunk_size ≡ snapshot.now.chunk_size }
{
    Grafted {
        elements: snapshot.operations,
        chunks,
        chunk_size: snapshot.chunk_size,
        function: PhantomData,
    }
}

/// The root of the grafted tree. It fails only when out of memory.
pub fn root_of_grafted<F: Family, H: HashFunction>(
    alloc: Global,
    snapshot: &Snapshot<'_>,
    chunks: &[Vec<u8>],
    trees: &[Tree],
) -> Result<H::Digest, AllocError>
    requires grown { map shape trees.now ≡ forest_of F.merge_rule (length snapshot.now.operations.now) }
    requires counted { leaves (map shape trees.now) ≡ length snapshot.now.operations.now }
    requires chunked { map (λ chunk. chunk.items) chunks.now
        ≡ all_chunks (setting_of F.merge_rule H.hash_of snapshot.now) (state_of snapshot.now) }
    ensures { IfOk result (λ root. H.Digest.encoding root
        ≡ grafted_root (setting_of F.merge_rule H.hash_of snapshot.now) (state_of snapshot.now)) }
{
    let peaks = locate(alloc, trees)?;
    let inactive = aligned_count_of(snapshot.chunk_size, snapshot.floor, &peaks);
    let grafted: Grafted<'_, H> = grafted_trees(snapshot, chunks);
    let digests: Vec<H::Digest> = digests_of_peaks(alloc, &grafted, trees)?;
    let hasher: Standard<H> = Standard::new(Bagging::BackwardFold);
    let leaves: Location<F> = Location::new(snapshot.operations.len() as u64);
    Ok(hasher.root(leaves, inactive, &digests).unwrap())
}

// The digest of the chunk at an index, if it is there.
fn chunk_digest<H: HashFunction>(chunks: &[Vec<u8>], index: usize) -> Option<H::Digest>
    ensures there { IsSome result ↔ index < length chunks.now }
    ensures digest { IfSome result (λ d. H.Digest.encoding d
        ≡ H.hash_of (slice_index_or (map (λ chunk. chunk.items) chunks.now) index [])) }
{
    let chunk = chunks.get(index)?;
    Some(H::hash(&[chunk]))
}

/// The digest of the full chunk that isn't graftable yet. None where there is no such chunk.
#[tactic(auto, unfolding(state_theory::specs::Canonical::pending_digest))]
pub fn pending_digest_of<F: Family, H: HashFunction>(
    snapshot: &Snapshot<'_>,
    chunks: &[Vec<u8>],
    trees: &[Tree],
) -> Option<H::Digest>
    requires grown { map shape trees.now ≡ forest_of F.merge_rule (length snapshot.now.operations.now) }
    requires counted { leaves (map shape trees.now) ≡ length snapshot.now.operations.now }
    requires chunked { map (λ chunk. chunk.items) chunks.now
        ≡ all_chunks (setting_of F.merge_rule H.hash_of snapshot.now) (state_of snapshot.now) }
    ensures { option_map H.Digest.encoding result
        ≡ pending_digest (setting_of F.merge_rule H.hash_of snapshot.now) (state_of snapshot.now) }
{
    let full = snapshot
        .chunk_size
        .full_chunks(snapshot.operations.len() as u64);
    let graftable = graftable_count(snapshot.chunk_size, trees);
    if (graftable as u64) < full {
        chunk_digest::<H>(chunks, graftable)
    } else {
        None
    }
}

/// The digest of the partial chunk, whose bits don't fill it. None where there is no such chunk.
#[tactic(auto, unfolding(state_theory::specs::Canonical::partial_digest))]
pub fn partial_digest_of<F: Family, H: HashFunction>(
    snapshot: &Snapshot<'_>,
    chunks: &[Vec<u8>],
) -> Option<H::Digest>
    requires chunked { map (λ chunk. chunk.items) chunks.now
        ≡ all_chunks (setting_of F.merge_rule H.hash_of snapshot.now) (state_of snapshot.now) }
    ensures { option_map H.Digest.encoding result
        ≡ partial_digest (setting_of F.merge_rule H.hash_of snapshot.now) (state_of snapshot.now) }
{
    let operations = snapshot.operations.len() as u64;
    if snapshot.chunk_size.bit_of(operations) == 0 {
        return None;
    }
    let full = snapshot.chunk_size.full_chunks(operations);
    chunk_digest::<H>(chunks, full as usize)
}

/// The canonical root of the state. It fails only when out of memory.
#[tactic(auto, unfolding(state_theory::specs::Canonical::canonical_root))]
pub fn canonical_root<F: Family, H: HashFunction>(
    alloc: Global,
    snapshot: &Snapshot<'_>,
) -> Result<H::Digest, AllocError>
    ensures { IfOk result (λ root. H.Digest.encoding root
        ≡ root_of_state (setting_of F.merge_rule H.hash_of snapshot.now) (state_of snapshot.now)) }
{
    let trees = grow::<F>(alloc, snapshot.operations.len() as u64)?;
    let chunks = chunks_of_state(alloc, snapshot)?;
    let operations = root_of_operations::<F, H>(alloc, snapshot, &trees)?;
    let grafted = root_of_grafted::<F, H>(alloc, snapshot, &chunks, &trees)?;
    let pending = pending_digest_of::<F, H>(snapshot, &chunks, &trees);
    let partial = partial_digest_of::<F, H>(snapshot, &chunks);
    let next = snapshot.chunk_size.bit_of(snapshot.operations.len() as u64);
    Ok(seal::<H>(&operations, &grafted, &pending, next, &partial))
}
