//! Proofs of a bit: their digests, and the root that one leads to.

ghost use Rattle.std.specs.Prelude.{◌≡◌, ◌<◌, ◌≤◌, ◌+◌, ◌-◌, ◌*◌, ◌/◌};
ghost use Rattle.std.specs.Prelude.{◌%◌, ◌^◌, ◌++◌, ◌==◌, [], ◌∷◌, Bool, ℕ, List};
ghost use Rattle.std.specs.Prelude.{Some};
ghost use Rattle.std.specs.Prelude.{IfOk, IfErr, length, map, option_map, if◌then◌else◌};
ghost use Rattle.merkle_forest.specs.Forest.{mmr_rule};
ghost use Rattle.merkle_forest.specs.Made.{value};
ghost use Rattle.merkle_core_parts.specs.Mem.{NodeHash, AreNodesOf, tree_digest, list_root};
ghost use Rattle.merkle_theory.specs.MadeTrees.{Over};
ghost use Rattle.merkle_theory.specs.Plans.{honest_digests};
ghost use Rattle.merkle_theory.specs.Reads.{HashesAs, range_root};
ghost use Rattle.merkle_theory.specs.Soundness.{plain_names};
ghost use Rattle.state_theory.specs.Bits.{IsChunkWidth, bit_count, last_chunk};
ghost use Rattle.state_theory.specs.Inclusion.{bit_root, partial_read};
ghost use Rattle.state_theory.specs.InclusionCode.{proof_digests};

use crate::bitmap_error::{Error, out_of_memory};
use crate::prunable::Prunable;
use crate::tree::{partial_digest, tree_root};
use merkle_core::building::element_proof;
use merkle_core::verifying::reconstruct_range;
use merkle_core::{Mem, Proof};
use merkle_forest::hasher::Hasher;
use merkle_forest::mmr::Family;
use merkle_forest::{Digest, Location};
use std::alloc::{AllocError, Global};

// The digests of the proof of a chunk in the tree.
fn chunk_digests<D: Digest, H: Hasher<Family, Digest = D>>(
    alloc: Global,
    hasher: &H,
    tree: &Mem<Family, D>,
    chunk: u64,
) -> Result<Vec<D>, Error>
    requires kept { tree.now.boundary ≤ chunk }
    requires there { chunk < tree.now.leaves }
    ensures of_list { (node_of : NodeHash) (leaves : List (List ℕ)) → AreNodesOf node_of mmr_rule leaves tree.now
        → IfOk result (λ found. map D.encoding found.items ≡ honest_digests H.hash_of (tree_digest node_of leaves)
        (H.bagging_of hasher.now) mmr_rule (length leaves) 0 chunk (chunk + 1)) }
    ensures refused { IfErr result (λ e. e ≡ Error.Memory) }
{
    // From its boundary on the tree misses no node, so none is missing for a chunk from there on.
    let _boundary = tree.pruning_boundary();
    let proof = match element_proof(alloc, hasher, tree, Location::new(chunk), 0) {
        Ok(proof) => proof,
        Err(e) => return Err(out_of_memory(e)),
    };
    Ok(proof.digests)
}

// The digests of the proof of the bits of a chunk.
pub(crate) fn bit_digests<D: Digest, const N: usize, H: Hasher<Family, Digest = D>>(
    alloc: Global,
    hasher: &H,
    bits: &Prunable<N>,
    tree: &Mem<Family, D>,
    chunk: u64,
) -> Result<Vec<D>, Error>
    requires wide { IsChunkWidth N }
    requires kept { tree.now.boundary ≤ chunk }
    requires there { chunk ≤ tree.now.leaves }
    ensures of_list { (node_of : NodeHash) (leaves : List (List ℕ)) → AreNodesOf node_of mmr_rule leaves tree.now
        → IfOk result (λ found. map D.encoding found.items ≡ proof_digests H.hash_of node_of (H.bagging_of hasher.now)
        N leaves bits.now chunk) }
    ensures refused { IfErr result (λ e. e ≡ Error.Memory) }
{
    if chunk == tree.leaves().as_u64() {
        let mut digests = Vec::new(alloc);
        digests.push(tree_root(hasher, tree))?;
        return Ok(digests);
    }
    let mut digests = chunk_digests(alloc, hasher, tree, chunk)?;
    if bits.is_chunk_aligned() {
        return Ok(digests);
    }
    let (last, _) = bits.last_chunk();
    digests.push(hasher.digest(&last))?;
    Ok(digests)
}

// The root of the tree that a chunk leads to with these digests. It fails only when out of memory.
fn chunk_root<D: Digest, H: Hasher<Family, Digest = D>>(
    alloc: Global,
    hasher: &H,
    leaves: u64,
    location: u64,
    chunk: &[u8],
    digests: &[D],
) -> Result<Option<D>, AllocError>
    ensures { (over : Over)
        → HashesAs mmr_rule H.hash_of (H.leaf_of hasher.now) (H.node_of hasher.now) over
        → IfOk result (λ found. option_map D.encoding found ≡ option_map (value H.hash_of)
        (range_root plain_names over (H.bagging_of hasher.now) mmr_rule leaves 0 location (chunk.now ∷ [])
        (map D.encoding digests.now))) }
{
    let digests = Vec::from_slice(alloc, digests)?;
    let proof = Proof {
        leaves: Location::new(leaves),
        inactive_peaks: 0,
        digests,
    };
    Ok(reconstruct_range(hasher, &proof, Location::new(location), &[chunk]).ok())
}

// The root where the last chunk is partial, which the last digest is of, or is the tree's.
fn partial_root<D: Digest, const N: usize, H: Hasher<Family, Digest = D>>(
    alloc: Global,
    hasher: &H,
    bits: u64,
    bit: u64,
    chunk: &[u8; N],
    digests: &[D],
) -> Result<Option<D>, AllocError>
    requires { IsChunkWidth N }
    ensures { (over : Over)
        → HashesAs mmr_rule H.hash_of (H.leaf_of hasher.now) (H.node_of hasher.now) over
        → IfOk result (λ found. option_map D.encoding found ≡ option_map (value H.hash_of)
        (partial_read over (H.bagging_of hasher.now) N (record {
          bits = bits;
          inactive = 0;
          digests = map D.encoding digests.now;
          bit = bit;
          chunk = chunk.now;
        }))) }
{
    if digests.is_empty() {
        return Ok(None);
    }
    let size = Prunable::<N>::chunk_size_bits();
    let count = digests.len() - 1;
    let last = digests[count];
    if bits / size == bit / size {
        if count > 0 {
            return Ok(None);
        }
        return Ok(Some(partial_digest(hasher, &last, bits, &hasher.digest(chunk))));
    }
    let found = chunk_root(
        alloc,
        hasher,
        bits / size,
        bit / size,
        chunk,
        &digests[..count],
    )?;
    match found {
        Some(tree) => Ok(Some(partial_digest(hasher, &tree, bits, &last))),
        None => Ok(None),
    }
}

/// The root that the proof of a bit leads to, with the chunk of that bit. None: the bit is at or past the proof's
/// leaves, which are bits, peaks are inactive, or a digest is missing or left over. It fails only when out of memory
/// (own).
pub fn root_of_bit<D: Digest, const N: usize, H: Hasher<Family, Digest = D>>(
    alloc: Global,
    hasher: &H,
    proof: &Proof<Family, D>,
    chunk: &[u8; N],
    bit: u64,
) -> Result<Option<D>, AllocError>
    requires { IsChunkWidth N }
    ensures { (over : Over)
        → HashesAs mmr_rule H.hash_of (H.leaf_of hasher.now) (H.node_of hasher.now) over
        → IfOk result (λ found. option_map D.encoding found ≡ option_map (value H.hash_of)
        (bit_root over (H.bagging_of hasher.now) N (record {
          bits = proof.now.leaves;
          inactive = proof.now.inactive_peaks;
          digests = map D.encoding proof.now.digests.items;
          bit = bit;
          chunk = chunk.now;
        }))) }
{
    let bits = proof.leaves.as_u64();
    if bit >= bits {
        return Ok(None);
    }
    if proof.inactive_peaks > 0 {
        return Ok(None);
    }
    let size = Prunable::<N>::chunk_size_bits();
    if bits % size == 0 {
        return chunk_root(
            alloc,
            hasher,
            bits / size,
            bit / size,
            chunk,
            &proof.digests,
        );
    }
    partial_root(alloc, hasher, bits, bit, chunk, &proof.digests)
}
