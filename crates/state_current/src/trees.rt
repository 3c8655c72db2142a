//! Trees that are brought to a state that has grown.

ghost use Rattle.std.specs.Prelude.{◌≡◌, ◌<◌, ◌≤◌, ◌+◌, ◌-◌, ◌*◌, ◌/◌, ◌^◌, ◌++◌, [], ℕ, List, map, length, IfOk};
ghost use Rattle.std.specs.Prelude.{IfErr};
ghost use Rattle.merkle_forest.specs.Forest.{forest_of};
ghost use Rattle.merkle_forest.specs.Nodes.{nodes_of_height};
ghost use Rattle.state_theory.specs.GraftedNodes.{chunks_node};
ghost use Rattle.std.specs.List.{AllByRecursion};
ghost use Rattle.merkle_core_parts.specs.Mem.{AreNodesOf, base_of, plain_leaf_digests, plain_node, replaced};
ghost use Rattle.merkle_core_parts.specs.Mem.{with_batch, with_leaves};
ghost use Rattle.state_theory.specs.Bits.{IsChunkWidth};
ghost use Rattle.state_current.specs.ChunkLeaves.{IsReady, chunk_leaf, leaves_from, leaves_over};

use merkle_core::batch::{MerkleizedBatch, UnmerkleizedBatch};
use merkle_core::error::Error;
use merkle_core::{Mem, Reserved, Unreserved};
use merkle_forest::hasher::{HashFunction, Hasher, Standard};
use merkle_forest::{Bagging, Digest, Family, Graftable, Location, Position};
use state_proofs_parts::grafting::hasher::GraftedHasher;
use state_proofs_parts::grafting::{graft, graftable_chunks};
use state_proofs_parts::{BitOverlay, ChunkSize, Prunable};

// The batch, made over the tree that is its base.
fn made_over<F: Family, H: Hasher<F>>(
    tree: &Mem<F, H::Digest>,
    batch: UnmerkleizedBatch<F, H::Digest>,
    hasher: &H,
) -> Result<MerkleizedBatch<F, H::Digest>, Error<F>>
    requires base { batch.base ≡ base_of F.merge_rule tree.now }
    requires alone { batch.below ≡ [] }
    requires kept { AllByRecursion (λ one. tree.now.boundary ≤ one.0) batch.updates }
    ensures base { IfOk result (λ made. made.base ≡ base_of F.merge_rule tree.now) }
    ensures leaves { IfOk result (λ made. made.leaves ≡ tree.now.leaves + length batch.added) }
    ensures of_list { (leaf_digests : List (List ℕ)) → AreNodesOf
        (H.node_of hasher.now) F.merge_rule leaf_digests tree.now
        → IfOk result (λ made. AreNodesOf (H.node_of hasher.now) F.merge_rule (with_leaves leaf_digests batch)
        (with_batch F.merge_rule tree.now made)) }
    ensures refused { IfErr result (λ e. e ≡ Error.Memory) }
{
    let _boundary = tree.pruning_boundary();
    let made = batch.merkleize(tree, hasher)?;
    Ok(made)
}

// The tree with the room for a batch that is made over it, or as it was.
fn reserved<F: Family, D: Digest>(
    tree: Mem<F, D>,
    batch: MerkleizedBatch<F, D>,
) -> Result<Reserved<F, D>, Unreserved<F, D>>
    requires { batch.base ≡ base_of F.merge_rule tree }
    ensures before { IfOk result (λ waiting. waiting.before ≡ tree) }
    ensures after { IfOk result (λ waiting. waiting.after ≡ with_batch F.merge_rule tree batch) }
    ensures refused { IfErr result (λ back. back.error ≡ Error.Memory) }
    ensures unchanged { IfErr result (λ back. back.tree ≡ tree) }
{
    tree.reserve_for(batch)
}

// The batch with leaves of these operations.
fn add_operations<F: Family, H: HashFunction>(
    batch: UnmerkleizedBatch<F, H::Digest>,
    hasher: &Standard<H>,
    operations: &[Vec<u8>],
) -> Result<UnmerkleizedBatch<F, H::Digest>, Error<F>>
    requires none { batch.added ≡ [] }
    requires few { batch.base.leaves + length operations.now ≤ 2 ^ 62 }
    ensures added { IfOk result (λ more. more ≡ record batch {
      added = plain_leaf_digests H.hash_of F.merge_rule batch.base.leaves (map (λ e. e.items) operations.now);
    }) }
    ensures refused { IfErr result (λ e. e ≡ Error.Memory) }
{
    let mut batch = batch;
    for operation in operations {
        batch = batch.add(hasher, operation)?;
    }
    Ok(batch)
}

// The batch of more operations, made over their tree.
fn operations_over<F: Family, H: HashFunction>(
    tree: &Mem<F, H::Digest>,
    operations: &[Vec<u8>],
) -> Result<MerkleizedBatch<F, H::Digest>, Error<F>>
    requires few { tree.now.leaves + length operations.now ≤ 2 ^ 62 }
    ensures base { IfOk result (λ made. made.base ≡ base_of F.merge_rule tree.now) }
    ensures leaves { IfOk result (λ made. made.leaves ≡ tree.now.leaves + length operations.now) }
    ensures of_list { (elements : List (List ℕ))
        → AreNodesOf (plain_node H.hash_of) F.merge_rule (plain_leaf_digests H.hash_of F.merge_rule 0 elements) tree.now
        → IfOk result (λ made. AreNodesOf (plain_node H.hash_of) F.merge_rule
        (plain_leaf_digests H.hash_of F.merge_rule 0 (elements ++ map (λ e. e.items) operations.now))
        (with_batch F.merge_rule tree.now made)) }
    ensures refused { IfErr result (λ e. e ≡ Error.Memory) }
{
    let hasher: Standard<H> = Standard::new(Bagging::BackwardFold);
    let batch = add_operations::<F, H>(tree.new_batch()?, &hasher, operations)?;
    made_over(tree, batch, &hasher)
}

// The tree of the operations with the room for more of them, or as it was.
pub(crate) fn grow_operations<F: Family, H: HashFunction>(
    tree: Mem<F, H::Digest>,
    operations: &[Vec<u8>],
) -> Result<Reserved<F, H::Digest>, Unreserved<F, H::Digest>>
    requires few { tree.leaves + length operations.now ≤ 2 ^ 62 }
    ensures before { IfOk result (λ waiting. waiting.before ≡ tree) }
    ensures boundary { IfOk result (λ waiting. waiting.after.boundary ≡ tree.boundary) }
    ensures leaves { IfOk result (λ waiting. waiting.after.leaves ≡ tree.leaves + length operations.now) }
    ensures of_list { (elements : List (List ℕ))
        → AreNodesOf (plain_node H.hash_of) F.merge_rule (plain_leaf_digests H.hash_of F.merge_rule 0 elements) tree
        → IfOk result (λ waiting. AreNodesOf (plain_node H.hash_of) F.merge_rule
        (plain_leaf_digests H.hash_of F.merge_rule 0 (elements ++ map (λ e. e.items) operations.now)) waiting.after) }
    ensures refused { IfErr result (λ back. back.error ≡ Error.Memory) }
    ensures unchanged { IfErr result (λ back. back.tree ≡ tree) }
{
    match operations_over::<F, H>(&tree, operations) {
        Ok(batch) => reserved(tree, batch),
        Err(error) => Err(Unreserved { tree, error }),
    }
}

// The digest of the leaf of a chunk.
fn leaf_of_chunk<F: Graftable, H: HashFunction, const N: usize>(
    tree: &Reserved<F, H::Digest>,
    bits: &BitOverlay<N>,
    height: u32,
    chunk: u64,
) -> H::Digest
    requires low { height ≤ 62 }
    requires ready { IsReady F.merge_rule N height tree.now.after bits.now.after chunk }
    ensures { H.Digest.encoding result
        ≡ chunk_leaf F.merge_rule F.root_of H.hash_of N height tree.now.after bits.now.after chunk }
{
    let _leaves = tree.leaves();
    let _boundary = tree.pruning_boundary();
    let position = F::subtree_root(chunk * (1u64 << height), height);
    match tree.get_node(Position::new(position)) {
        Some(digest) => graft::<H>(bits.chunk_bytes(chunk), &digest),
        None => unreachable!(),
    }
}

// The batch with leaves of so many chunks from one on, which is the one after the leaves.
fn add_leaves<F: Graftable, H: HashFunction, const N: usize>(
    batch: UnmerkleizedBatch<F, H::Digest>,
    tree: &Reserved<F, H::Digest>,
    bits: &BitOverlay<N>,
    height: u32,
    first: u64,
    end: u64,
) -> Result<UnmerkleizedBatch<F, H::Digest>, Error<F>>
    requires low { height ≤ 62 }
    requires none { batch.added ≡ [] }
    requires ordered { first ≤ end }
    requires few { batch.base.leaves + (end - first) ≤ 2 ^ 62 }
    requires ready { (chunk : ℕ) → first ≤ chunk → chunk < end
        → IsReady F.merge_rule N height tree.now.after bits.now.after chunk }
    ensures added { IfOk result (λ more. more ≡ record batch {
      added = leaves_from (chunk_leaf F.merge_rule F.root_of H.hash_of N height tree.now.after bits.now.after) first
          (end - first);
    }) }
    ensures refused { IfErr result (λ e. e ≡ Error.Memory) }
{
    let mut batch = batch;
    for chunk in first..end {
        batch = batch.add_leaf_digest(leaf_of_chunk::<F, H, N>(tree, bits, height, chunk))?;
    }
    Ok(batch)
}

// The batch with new digests of the leaves over these places, of which there are so many.
fn update_leaves<F: Graftable, H: HashFunction, const N: usize>(
    batch: UnmerkleizedBatch<F, H::Digest>,
    tree: &Reserved<F, H::Digest>,
    bits: &BitOverlay<N>,
    height: u32,
    count: u64,
    places: &[u64],
) -> Result<UnmerkleizedBatch<F, H::Digest>, Error<F>>
    requires low { height ≤ 62 }
    requires wide { IsChunkWidth N }
    requires none { batch.updates ≡ [] }
    requires pruned { batch.boundary ≤ bits.now.after.pruned }
    requires within { count ≤ batch.base.leaves }
    requires ready { AllByRecursion (λ at. at / (8 * N) < count
        → IsReady F.merge_rule N height tree.now.after bits.now.after (at / (8 * N))) places.now }
    ensures updated { IfOk result (λ more. more ≡ record batch {
      updates = leaves_over (chunk_leaf F.merge_rule F.root_of H.hash_of N height tree.now.after bits.now.after) (8 * N)
          count places.now;
    }) }
    ensures refused { IfErr result (λ e. e ≡ Error.Memory) }
{
    let size = Prunable::<N>::chunk_size_bits();
    let mut batch = batch;
    for place in places {
        let chunk = *place / size;
        if chunk < count {
            let digest = leaf_of_chunk::<F, H, N>(tree, bits, height, chunk);
            batch = batch.update_leaf_digest(Location::new(chunk), digest)?;
        }
    }
    Ok(batch)
}

// The batch that brings the tree of the chunks to a tree of operations and bits that have grown, of which these places
// are cleared.
fn chunks_over<F: Graftable, H: HashFunction, const N: usize>(
    chunks: &Mem<F, H::Digest>,
    tree: &Reserved<F, H::Digest>,
    bits: &BitOverlay<N>,
    size: ChunkSize,
    places: &[u64],
) -> Result<MerkleizedBatch<F, H::Digest>, Error<F>>
    requires width { size.width ≡ N }
    requires pruned { chunks.now.boundary ≤ bits.now.after.pruned }
    requires more { chunks.now.leaves
        ≤ nodes_of_height size.grafting_height (forest_of F.merge_rule tree.now.after.leaves) }
    requires new { (chunk : ℕ) → chunks.now.leaves ≤ chunk
        → chunk < nodes_of_height size.grafting_height (forest_of F.merge_rule tree.now.after.leaves)
        → IsReady F.merge_rule N size.grafting_height tree.now.after bits.now.after chunk }
    requires old { AllByRecursion (λ at. at / (8 * N) < chunks.now.leaves
        → IsReady F.merge_rule N size.grafting_height tree.now.after bits.now.after (at / (8 * N))) places.now }
    ensures base { IfOk result (λ made. made.base ≡ base_of F.merge_rule chunks.now) }
    ensures leaves { IfOk result (λ made. made.leaves
        ≡ nodes_of_height size.grafting_height (forest_of F.merge_rule tree.now.after.leaves)) }
    ensures of_list { (leaf_digests : List (List ℕ))
        → AreNodesOf (chunks_node H.hash_of F.merge_rule size.grafting_height) F.merge_rule leaf_digests chunks.now
        → let leaf = chunk_leaf F.merge_rule F.root_of H.hash_of N size.grafting_height
        tree.now.after bits.now.after in
        let count = nodes_of_height size.grafting_height (forest_of F.merge_rule tree.now.after.leaves) in
        IfOk result (λ made. AreNodesOf (chunks_node H.hash_of F.merge_rule size.grafting_height) F.merge_rule
        (replaced (leaf_digests ++ leaves_from leaf chunks.now.leaves (count - chunks.now.leaves))
        (leaves_over leaf (8 * N) chunks.now.leaves places.now)) (with_batch F.merge_rule chunks.now made)) }
    ensures refused { IfErr result (λ e. e ≡ Error.Memory) }
{
    let hasher: GraftedHasher<F, Standard<H>> = GraftedHasher::new(
        Standard::new(Bagging::BackwardFold),
        size.grafting_height,
    );
    let first = chunks.leaves().as_u64();
    let end = graftable_chunks::<F>(tree.leaves(), size.grafting_height);
    let batch = add_leaves::<F, H, N>(
        chunks.new_batch()?,
        tree,
        bits,
        size.grafting_height,
        first,
        end,
    )?;
    let batch = update_leaves::<F, H, N>(batch, tree, bits, size.grafting_height, first, places)?;
    made_over(chunks, batch, &hasher)
}

// The tree of the chunks with the room for what brings it to a tree of operations and bits that have grown, of which
// these places are cleared, or as it was.
pub(crate) fn grow_chunks<F: Graftable, H: HashFunction, const N: usize>(
    chunks: Mem<F, H::Digest>,
    tree: &Reserved<F, H::Digest>,
    bits: &BitOverlay<N>,
    size: ChunkSize,
    places: &[u64],
) -> Result<Reserved<F, H::Digest>, Unreserved<F, H::Digest>>
    requires width { size.width ≡ N }
    requires pruned { chunks.boundary ≤ bits.now.after.pruned }
    requires more { chunks.leaves
        ≤ nodes_of_height size.grafting_height (forest_of F.merge_rule tree.now.after.leaves) }
    requires new { (chunk : ℕ) → chunks.leaves ≤ chunk
        → chunk < nodes_of_height size.grafting_height (forest_of F.merge_rule tree.now.after.leaves)
        → IsReady F.merge_rule N size.grafting_height tree.now.after bits.now.after chunk }
    requires old { AllByRecursion (λ at. at / (8 * N) < chunks.leaves
        → IsReady F.merge_rule N size.grafting_height tree.now.after bits.now.after (at / (8 * N))) places.now }
    ensures before { IfOk result (λ waiting. waiting.before ≡ chunks) }
    ensures boundary { IfOk result (λ waiting. waiting.after.boundary ≡ chunks.boundary) }
    ensures leaves { IfOk result (λ waiting. waiting.after.leaves
        ≡ nodes_of_height size.grafting_height (forest_of F.merge_rule tree.now.after.leaves)) }
    ensures of_list { (leaf_digests : List (List ℕ))
        → AreNodesOf (chunks_node H.hash_of F.merge_rule size.grafting_height) F.merge_rule leaf_digests chunks
        → let leaf = chunk_leaf F.merge_rule F.root_of H.hash_of N size.grafting_height
        tree.now.after bits.now.after in
        let count = nodes_of_height size.grafting_height (forest_of F.merge_rule tree.now.after.leaves) in
        IfOk result (λ waiting. AreNodesOf (chunks_node H.hash_of F.merge_rule size.grafting_height) F.merge_rule
        (replaced (leaf_digests ++ leaves_from leaf chunks.leaves (count - chunks.leaves))
        (leaves_over leaf (8 * N) chunks.leaves places.now)) waiting.after) }
    ensures refused { IfErr result (λ back. back.error ≡ Error.Memory) }
    ensures unchanged { IfErr result (λ back. back.tree ≡ chunks) }
{
    match chunks_over::<F, H, N>(&chunks, tree, bits, size, places) {
        Ok(batch) => reserved(chunks, batch),
        Err(error) => Err(Unreserved {
            tree: chunks,
            error,
        }),
    }
}
