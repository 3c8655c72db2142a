//! The tree over the full chunks of bits: how it is brought to bits that have changed, and the root over both.

ghost use Rattle.std.specs.Prelude.{◌≡◌, ◌<◌, ◌≤◌, ◌+◌, ◌-◌, ◌*◌, ◌/◌, ◌^◌, ◌++◌, [], Bool, ℕ, List, IfOk, IfErr};
ghost use Rattle.std.specs.List.{AllByRecursion};
ghost use Rattle.merkle_forest.specs.Forest.{mmr_rule};
ghost use Rattle.merkle_forest.specs.Hashing.{root_of};
ghost use Rattle.merkle_core_parts.specs.Mem.{NodeHash, peak_digests, AreNodesOf, list_root};
ghost use Rattle.state_theory.specs.Bits.{IsChunkWidth, AreBitsOf, bit_count, last_chunk};
ghost use Rattle.state_theory.specs.Maps.{LeafHash, Stage, changed, HasLeaves, AreLeavesOf, full_count, bitmap_string};
ghost use Rattle.state_theory.specs.Maps.{sealed_root, map_root};
ghost use Rattle.state_theory.specs.MapsCode.{leaves_from, leaves_at};
ghost use Rattle.state_proofs_parts.specs.Begun.{AreHashedAlike};

use crate::bitmap_error::{Error, out_of_memory};
use crate::prunable::Prunable;
use merkle_forest::hasher::Hasher;
use merkle_forest::mmr::Family;
use merkle_forest::{Digest, Location};
use merkle_memory::Mem;
use merkle_memory::batch::UnmerkleizedBatch;

// The batch with leaves of so many chunks from one on, which is the one after the leaves.
fn add_chunks<D: Digest, const N: usize, H: Hasher<Family, Digest = D>>(
    batch: UnmerkleizedBatch<Family, D>,
    hasher: &H,
    bits: &Prunable<N>,
    first: u64,
    end: u64,
) -> Result<UnmerkleizedBatch<Family, D>, Error>
    requires wide { IsChunkWidth N }
    requires next { batch.base.leaves ≡ first }
    requires none { batch.added ≡ [] }
    requires kept { bits.now.pruned ≤ first }
    requires ordered { first ≤ end }
    requires there { end ≤ full_count N bits.now }
    requires few { end ≤ 2 ^ 62 }
    ensures added { IfOk result (λ more. more ≡ record batch {
      added = leaves_from (H.leaf_of hasher.now) N bits.now first (end - first);
    }) }
    ensures refused { IfErr result (λ e. e ≡ Error.Memory) }
{
    let mut batch = batch;
    for chunk in first..end {
        batch = match batch.add(hasher, bits.get_chunk(chunk)) {
            Ok(more) => more,
            Err(e) => return Err(out_of_memory(e)),
        };
    }
    Ok(batch)
}

// The batch with new digests of the leaves of these chunks.
fn update_chunks<D: Digest, const N: usize, H: Hasher<Family, Digest = D>>(
    batch: UnmerkleizedBatch<Family, D>,
    hasher: &H,
    bits: &Prunable<N>,
    chunks: &[u64],
) -> Result<UnmerkleizedBatch<Family, D>, Error>
    requires wide { IsChunkWidth N }
    requires none { batch.updates ≡ [] }
    requires pruned { batch.boundary ≡ bits.now.pruned }
    requires there { batch.base.leaves ≤ full_count N bits.now }
    requires chunks { AllByRecursion (λ chunk. (bits.now.pruned ≤ chunk) × (chunk < batch.base.leaves)) chunks.now }
    ensures updated { IfOk result (λ more. more ≡ record batch {
      updates = leaves_at (H.leaf_of hasher.now) N bits.now chunks.now;
    }) }
    ensures refused { IfErr result (λ e. e ≡ Error.Memory) }
{
    let mut batch = batch;
    for chunk in chunks {
        let location = Location::new(*chunk);
        batch = match batch.update_leaf(hasher, location, bits.get_chunk(*chunk)) {
            Ok(more) => more,
            Err(e) => return Err(out_of_memory(e)),
        };
    }
    Ok(batch)
}

// The tree with a leaf of each full chunk, out of one in which leaves are missing, and those of these chunks may be
// others'.
pub(crate) fn tree_over<D: Digest, const N: usize, H: Hasher<Family, Digest = D>>(
    hasher: &H,
    bits: &Prunable<N>,
    tree: Mem<Family, D>,
    chunks: &[u64],
) -> Result<Mem<Family, D>, Error>
    requires wide { IsChunkWidth N }
    requires pruned { tree.boundary ≡ bits.now.pruned }
    requires leaves { HasLeaves N bits.now tree.leaves (changed chunks.now) }
    ensures boundary { IfOk result (λ after. after.boundary ≡ tree.boundary) }
    ensures leaves { IfOk result (λ after. after.leaves ≡ full_count N bits.now) }
    ensures of_begun { (leaf_of : LeafHash) (node_of : NodeHash) (all : List Bool)
        → AreHashedAlike bits.now.pruned leaf_of node_of (H.leaf_of hasher.now) (H.node_of hasher.now)
        → AreBitsOf N all bits.now → AreLeavesOf leaf_of node_of N all tree chunks.now
        → IfOk result (λ after. AreLeavesOf leaf_of node_of N all after []) }
    ensures of_list { (all : List Bool) → AreBitsOf N all bits.now
        → AreLeavesOf (H.leaf_of hasher.now) (H.node_of hasher.now) N all tree chunks.now
        → IfOk result (λ after. AreLeavesOf (H.leaf_of hasher.now) (H.node_of hasher.now) N all after []) }
    ensures refused { IfErr result (λ e. e ≡ Error.Memory) }
{
    let mut tree = tree;
    let batch = match tree.new_batch() {
        Ok(batch) => batch,
        Err(e) => return Err(out_of_memory(e)),
    };
    // From its boundary on the tree misses no node, so none is missing for a chunk that may be changed.
    let _boundary = tree.pruning_boundary();
    let end = tree.leaves().as_u64();
    let batch = add_chunks(batch, hasher, bits, end, bits.complete_chunks())?;
    let batch = update_chunks(batch, hasher, bits, chunks)?;
    let batch = match batch.merkleize(&tree, hasher) {
        Ok(batch) => batch,
        Err(e) => return Err(out_of_memory(e)),
    };
    if let Err(e) = tree.apply_batch(&batch) {
        return Err(out_of_memory(e));
    }
    Ok(tree)
}

// The root of the tree alone. It takes no memory.
pub(crate) fn tree_root<D: Digest, H: Hasher<Family, Digest = D>>(
    hasher: &H,
    tree: &Mem<Family, D>,
) -> D
    ensures root { D.encoding result ≡ root_of H.hash_of (H.bagging_of hasher.now) tree.now.leaves 0
        (peak_digests mmr_rule tree.now) }
    ensures of_list { (node_of : NodeHash) (digests : List (List ℕ)) → AreNodesOf node_of mmr_rule digests tree.now
        → D.encoding result ≡ list_root H.hash_of node_of (H.bagging_of hasher.now) mmr_rule digests 0 }
{
    match tree.root(hasher, 0) {
        Ok(root) => root,
        Err(_) => unreachable!(),
    }
}

// The digest of the string of a root where the last chunk is partial.
pub(crate) fn partial_digest<D: Digest, H: Hasher<Family, Digest = D>>(
    hasher: &H,
    tree_root: &D,
    bits: u64,
    last: &D,
) -> D
    ensures { D.encoding result ≡ H.hash_of (bitmap_string (D.encoding tree_root.now) bits (D.encoding last.now)) }
{
    hasher.hash(&[tree_root.as_bytes(), &bits.to_be_bytes(), last.as_bytes()])
}

// The root over bits, from that of the tree over their chunks.
fn seal<D: Digest, const N: usize, H: Hasher<Family, Digest = D>>(
    hasher: &H,
    tree_root: D,
    bits: &Prunable<N>,
) -> D
    requires { IsChunkWidth N }
    ensures { D.encoding result ≡ sealed_root H.hash_of N (D.encoding tree_root) (bit_count N bits.now)
        (last_chunk N bits.now.kept).0 }
{
    if bits.is_chunk_aligned() {
        return tree_root;
    }
    let (last, _) = bits.last_chunk();
    partial_digest(hasher, &tree_root, bits.len(), &hasher.digest(&last))
}

// The root over bits and the tree over their chunks. It takes no memory.
pub(crate) fn root_over<D: Digest, const N: usize, H: Hasher<Family, Digest = D>>(
    hasher: &H,
    bits: &Prunable<N>,
    tree: &Mem<Family, D>,
) -> D
    requires { IsChunkWidth N }
    ensures root { D.encoding result ≡ map_root H.hash_of (H.bagging_of hasher.now) N bits.now tree.now }
    ensures of_list { (node_of : NodeHash) (digests : List (List ℕ)) → AreNodesOf node_of mmr_rule digests tree.now
        → D.encoding result ≡ sealed_root H.hash_of N (list_root H.hash_of node_of (H.bagging_of hasher.now) mmr_rule
        digests 0) (bit_count N bits.now) (last_chunk N bits.now.kept).0 }
{
    seal(hasher, tree_root(hasher, tree), bits)
}
