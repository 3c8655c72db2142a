//! Proofs of one operation.

ghost use Rattle.std.specs.Prelude.{◌≡◌, ◌<◌, ◌≤◌, ◌^◌, ◌++◌, ◌↔◌, IsTrue, IfOk, length, Ok, OnOk, OnErr};
ghost use Rattle.merkle_forest.specs.Codec.{Extends, Reads};
ghost use Rattle.state_theory.specs.Encoded.{operation_proof_encoding};
ghost use Rattle.state_theory.specs.Forms.{after_form, FormLacks};
ghost use Rattle.state_proofs.specs.ProofsCode.{form_parts_of};

pub mod building;
pub mod verifying;

use crate::proof::RangeProof;
use merkle_forest::codec::{Cursor, EncodeSize, Error, Read, Write, or_undo};
use merkle_forest::{Digest, Location, PendingOf};
use state_proofs_parts::chunk_form::ChunkForm;
use std::alloc::{AllocError, Global};
use std::convert::AsSlice;

/// A proof that an operation is active in a state: its location, the chunk with its activity bit, and the proof over
/// it. Its encoding is these in order, the chunk without its length. Reading takes what the form of the chunk is told:
/// the greatest count of digests, more being C6, and, where the form leaves it open, how many bytes a chunk has, a bad
/// size being C7 before any byte for `Bytes`. A location past 2^62 is C7.
/// In the Rust: `qmdb::current::proof::operation::Proof`, which has no form that is a vector.
#[derive(Debug, PartialEq, Eq, Drop)]
pub struct Proof<F: PendingOf<D>, D: Digest, C = Vec<u8>> {
    /// The location of the operation.
    pub loc: Location<F>,
    /// The chunk with its activity bit.
    pub chunk: C,
    /// The proof over the operation.
    pub range_proof: RangeProof<F, D>,
}

impl<F: PendingOf<D>, D: Digest, C: ChunkForm> Proof<F, D, C> {
    /// A proof that holds the same. It fails only when out of memory (own). In the Rust: `Clone::clone`.
    pub fn try_copy(&self) -> Result<Proof<F, D, C>, AllocError>
        ensures { IfOk result (λ copy. form_parts_of C.items D.encoding F.held copy
            ≡ form_parts_of C.items D.encoding F.held self.now) }
    {
        let chunk = self.chunk.try_copy()?;
        let range_proof = self.range_proof.try_copy()?;
        Ok(Proof {
            loc: self.loc,
            chunk,
            range_proof,
        })
    }
}

// Appends the encoding. Out of memory, some of its bytes may have been appended.
fn write_parts<F: PendingOf<D>, D: Digest, C: AsSlice<u8>>(
    proof: &Proof<F, D, C>,
    out: &mut Vec<u8>,
) -> Result<(), AllocError>
    ensures ok { OnOk result (out.new.items ≡ out.old.items
        ++ operation_proof_encoding F.pending_encoding (form_parts_of C.items D.encoding F.held proof.now)) }
    ensures err { OnErr result (Extends out.old.items out.new.items) }
    ensures location { OnOk result (proof.now.loc < 2 ^ 64) }
    ensures range { OnOk result (⟦<RangeProof<F, D> as Write>⟧.is_value proof.now.range_proof) }
{
    proof.loc.write(out)?;
    out.extend_from_slice(proof.chunk.as_slice())?;
    proof.range_proof.write(out)
}

impl<F: PendingOf<D>, D: Digest, C: AsSlice<u8> + Drop> Write for Proof<F, D, C> {
    ghost encoding = { λ p. operation_proof_encoding F.pending_encoding
        (form_parts_of C.items D.encoding F.held p) };

    ghost is_value = { λ p. (p.loc < 2 ^ 64) × ⟦<RangeProof<F, D> as Write>⟧.is_value p.range_proof };

    fn write(&self, out: &mut Vec<u8>) -> Result<(), AllocError> {
        let start = out.len();
        or_undo(write_parts(self, out), out, start)
    }
}

impl<F: PendingOf<D>, D: Digest, C: AsSlice<u8> + Drop> EncodeSize for Proof<F, D, C> {
    fn encode_size(&self) -> usize {
        self.loc.encode_size() + self.chunk.as_slice().len() + self.range_proof.encode_size()
    }
}

impl<F: PendingOf<D>, D: Digest, C: ChunkForm> Read for Proof<F, D, C> {
    ghost use Rattle.state_proofs.specs.Laws.Reading.{read_form_again};

    type Cfg = C::Limits;

    ghost after = { λ cfg bytes. after_form (D.after tt) F.pending_after (C.told cfg) bytes };

    ghost may_lack = { λ cfg bytes. FormLacks (C.may_lack cfg) (C.told cfg) bytes };

    ghost is_within = { λ cfg p. (p.loc ≤ 2 ^ 62) × (length (C.items p.chunk) ≡ (C.told cfg).width)
        × ⟦<RangeProof<F, D> as Read>⟧.is_within (C.told cfg).most p.range_proof × IsTrue (C.told cfg).allowed };

    fn read_cfg(
        alloc: Global,
        cursor: &mut Cursor<'_>,
        cfg: &C::Limits,
    ) -> Result<Proof<F, D, C>, Error>
        ensures read { Reads ⟦<Proof<F, D, C> as Write>⟧.encoding cursor.old cursor.new
            (after_form (D.after tt) F.pending_after (C.told cfg.now) cursor.old)
            (FormLacks (C.may_lack cfg.now) (C.told cfg.now) cursor.old) result }
        ensures value { IfOk result ⟦<Proof<F, D, C> as Write>⟧.is_value }
        ensures chunk { IfOk result (λ proof. length (C.items proof.chunk) ≡ (C.told cfg.now).width) }
    {
        if !C::is_allowed(cfg) {
            return Err(Error::Invalid);
        }
        let loc = Location::read_cfg(alloc, cursor, &())?;
        let chunk = C::read_chunk(alloc, cursor, cfg)?;
        let most = C::most_digests(cfg);
        let range_proof = RangeProof::read_cfg(alloc, cursor, &most)?;
        Ok(Proof {
            loc,
            chunk,
            range_proof,
        })
    }

    ghost read_again = { λ cfg p rest value within.
        read_form_again D.encoding D.is_value D.SIZE D.sized F.held F.Pending.is_value
        F.is_pending F.pending_value (D.after tt) F.pending_after F.pending_encoding
        (record { any = D.any_bytes; again = F.pending_again; once = F.pending_once }) C.items (C.told cfg) p rest
        value within };
}
