//! Proofs over a range of operations.

ghost use Rattle.std.specs.Prelude.{◌≡◌, ◌<◌, ◌≤◌, ◌^◌, ◌++◌, length, Ok, OnOk, OnErr, IfOk, IfSome};
ghost use Rattle.merkle_forest.specs.Codec.{Extends, option_encoding};
ghost use Rattle.merkle_theory.specs.Proofs.{ProofLacks};
ghost use Rattle.state_theory.specs.Encoded.{range_proof_encoding, after_range_proof};
ghost use Rattle.state_proofs.specs.ProofsCode.{range_parts_of};

pub mod building;
pub mod extracting;
pub mod request;
pub mod verifying;

pub use extracting::verify_proof_and_extract_digests;
use merkle_core::Proof;
use merkle_forest::codec::{Cursor, EncodeSize, Error, Read, Write, or_undo};
use merkle_forest::{Digest, Family, PendingOf};
use std::alloc::{AllocError, Global};

/// A proof over a range of operations: the Merkle proof in the grafted tree, and the other parts of the canonical
/// string. Its encoding is these in order. Reading takes the greatest count of digests; more are C6.
/// In the Rust: `qmdb::current::proof::RangeProof`.
#[derive(Debug, PartialEq, Eq, Drop)]
pub struct RangeProof<F: PendingOf<D>, D: Digest> {
    /// The Merkle proof in the grafted tree.
    pub proof: Proof<F, D>,
    /// What is held of the digest of the full chunk that isn't graftable yet.
    pub pending_chunk_digest: F::Pending,
    /// The digest of the partial chunk.
    pub partial_chunk_digest: Option<D>,
    /// The root of the operations' tree.
    pub ops_root: D,
}

// A Merkle proof with the same fields. It fails only when out of memory.
fn copied_proof<F: Family, D: Digest>(proof: &Proof<F, D>) -> Result<Proof<F, D>, AllocError>
    ensures leaves { IfOk result (λ copy. copy.leaves ≡ proof.now.leaves) }
    ensures inactive { IfOk result (λ copy. copy.inactive_peaks ≡ proof.now.inactive_peaks) }
    ensures digests { IfOk result (λ copy. copy.digests.items ≡ proof.now.digests.items) }
{
    let digests = Vec::from_slice(*proof.digests.allocator(), &proof.digests)?;
    Ok(Proof {
        leaves: proof.leaves,
        inactive_peaks: proof.inactive_peaks,
        digests,
    })
}

impl<F: PendingOf<D>, D: Digest> RangeProof<F, D> {
    /// A proof that holds the same. It fails only when out of memory (own). In the Rust: `Clone::clone`.
    pub fn try_copy(&self) -> Result<RangeProof<F, D>, AllocError>
        ensures { IfOk result (λ copy. range_parts_of D.encoding F.held copy
            ≡ range_parts_of D.encoding F.held self.now) }
    {
        let proof = copied_proof(&self.proof)?;
        Ok(RangeProof {
            proof,
            pending_chunk_digest: self.pending_chunk_digest,
            partial_chunk_digest: self.partial_chunk_digest,
            ops_root: self.ops_root,
        })
    }
}

// Appends the encoding. Out of memory, some of its bytes may have been appended.
fn write_parts<F: PendingOf<D>, D: Digest>(
    proof: &RangeProof<F, D>,
    out: &mut Vec<u8>,
) -> Result<(), AllocError>
    ensures ok { OnOk result (out.new.items ≡ out.old.items
        ++ range_proof_encoding F.pending_encoding (range_parts_of D.encoding F.held proof.now)) }
    ensures err { OnErr result (Extends out.old.items out.new.items) }
    ensures proof { OnOk result (⟦<Proof<F, D> as Write>⟧.is_value proof.now.proof) }
    ensures pending { OnOk result (F.Pending.is_value proof.now.pending_chunk_digest) }
    ensures partial { OnOk result (IfSome proof.now.partial_chunk_digest D.is_value) }
    ensures root { OnOk result (D.is_value proof.now.ops_root) }
{
    proof.proof.write(out)?;
    proof.pending_chunk_digest.write(out)?;
    proof.partial_chunk_digest.write(out)?;
    proof.ops_root.write(out)
}

impl<F: PendingOf<D>, D: Digest> Write for RangeProof<F, D> {
    ghost encoding = { λ p. range_proof_encoding F.pending_encoding (range_parts_of D.encoding F.held p) };

    ghost is_value = { λ p. ⟦<Proof<F, D> as Write>⟧.is_value p.proof × F.Pending.is_value p.pending_chunk_digest
        × IfSome p.partial_chunk_digest D.is_value × D.is_value p.ops_root };

    fn write(&self, out: &mut Vec<u8>) -> Result<(), AllocError> {
        let start = out.len();
        or_undo(write_parts(self, out), out, start)
    }
}

// The length of a digest and its flag, or of the flag alone.
fn option_size<D: Digest>(digest: &Option<D>) -> usize
    requires { length (option_encoding D.encoding digest.now) < 2 ^ 64 }
    ensures { result ≡ length (option_encoding D.encoding digest.now) }
{
    match digest {
        None => 1,
        Some(digest) => 1 + digest.as_bytes().len(),
    }
}

impl<F: PendingOf<D>, D: Digest> EncodeSize for RangeProof<F, D> {
    fn encode_size(&self) -> usize {
        self.proof.encode_size()
            + self.pending_chunk_digest.encode_size()
            + option_size(&self.partial_chunk_digest)
            + self.ops_root.as_bytes().len()
    }
}

impl<F: PendingOf<D>, D: Digest> Read for RangeProof<F, D> {
    ghost use Rattle.state_proofs.specs.Laws.Reading.{read_range_again};

    type Cfg = usize;

    ghost after = { λ most bytes. after_range_proof (D.after tt) F.pending_after most bytes };

    ghost may_lack = { λ most bytes. ProofLacks most bytes };

    ghost is_within = { λ most p. ⟦<Proof<F, D> as Read>⟧.is_within most p.proof };

    fn read_cfg(
        alloc: Global,
        cursor: &mut Cursor<'_>,
        most: &usize,
    ) -> Result<RangeProof<F, D>, Error> {
        let proof = Proof::read_cfg(alloc, cursor, most)?;
        let pending_chunk_digest = F::Pending::read_cfg(alloc, cursor, &())?;
        let partial_chunk_digest = Option::read_cfg(alloc, cursor, &())?;
        let ops_root = D::read_cfg(alloc, cursor, &())?;
        Ok(RangeProof {
            proof,
            pending_chunk_digest,
            partial_chunk_digest,
            ops_root,
        })
    }

    ghost read_again = { λ most p rest value within.
        read_range_again D.encoding D.is_value D.SIZE D.sized F.held F.Pending.is_value
        F.is_pending F.pending_value (D.after tt) F.pending_after F.pending_encoding
        (record { any = D.any_bytes; again = F.pending_again; once = F.pending_once }) most p rest value within };
}
