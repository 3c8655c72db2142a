//! How proofs that a key is not in a state are written and read.

ghost use Rattle.std.specs.Prelude.{◌≡◌, ◌++◌, ◌∷◌, [], length, IfOk, IfErr, OnOk, OnErr};
ghost use Rattle.merkle_forest.specs.Codec.{Extends, Reads};
ghost use Rattle.state_ops_parts.specs.Grammar.{OrderedLacks, after_ordered};
ghost use Rattle.state_theory.specs.Encoded.{operation_proof_encoding};
ghost use Rattle.state_proofs.specs.Exclusion.{exclusion_encoding, after_both, after_absence, after_exclusion};
ghost use Rattle.state_proofs.specs.Exclusion.{BothLack, AbsenceLacks, ExclusionLacks};
ghost use Rattle.state_proofs.specs.ExclusionCode.{form_exclusion_of, IsExclusionValue, IsExclusionWithin};
ghost use Rattle.state_proofs.specs.ExclusionCode.{IsAbsenceWithin};
ghost use Rattle.state_theory.specs.Forms.{after_form, FormLacks};
ghost use Rattle.state_proofs.specs.ProofsCode.{form_parts_of};

use super::ExclusionProof;
use crate::operation::Proof;
use merkle_forest::codec::{Cursor, EncodeSize, Error, Read, Write, or_undo};
use merkle_forest::{Digest, PendingOf};
use state_ops::{
    FixedEncoding, FixedKey, FixedValue, Key, ValueEncoding, VariableEncoding, VariableValue,
};
use state_proofs_parts::chunk_form::ChunkForm;
use std::alloc::{AllocError, Global};
use std::convert::AsSlice;

/// The tag of a proof by an update, the first byte of its encoding.
/// In the Rust: `qmdb::current::ordered::KEY_VALUE_CONTEXT`.
pub const KEY_VALUE_CONTEXT: u8 = 1;

/// The tag of a proof by a commit. In the Rust: `qmdb::current::ordered::COMMIT_CONTEXT`.
pub const COMMIT_CONTEXT: u8 = 2;

// Appends the encoding. Out of memory, some of its bytes may have been appended.
fn write_parts<F: PendingOf<D>, K: Key, E: ValueEncoding, D: Digest, C: AsSlice<u8> + Drop>(
    proof: &ExclusionProof<F, K, E, D, C>,
    out: &mut Vec<u8>,
) -> Result<(), AllocError>
    ensures ok { OnOk result (out.new.items ≡ out.old.items ++ exclusion_encoding F.pending_encoding
        (form_exclusion_of C.items K.encoding E.Value.encoding D.encoding F.held proof.now)) }
    ensures err { OnErr result (Extends out.old.items out.new.items) }
    ensures value { OnOk result
        (IsExclusionValue ⟦<Proof<F, D, C> as Write>⟧.is_value K.is_value E.Value.is_value proof.now) }
{
    match proof {
        ExclusionProof::KeyValue(proof, update) => {
            out.push(KEY_VALUE_CONTEXT)?;
            proof.write(out)?;
            update.write(out)
        }
        ExclusionProof::Commit(proof, metadata) => {
            out.push(COMMIT_CONTEXT)?;
            proof.write(out)?;
            metadata.write(out)
        }
    }
}

/// Its encoding is a tag; the proof of the operation; and the update without its tag, or the metadata if any.
impl<F, K, E, D, C> Write for ExclusionProof<F, K, E, D, C>
where
    F: PendingOf<D>,
    K: Key,
    E: ValueEncoding,
    D: Digest,
    C: AsSlice<u8> + Drop,
{
    ghost encoding = { λ p. exclusion_encoding F.pending_encoding
        (form_exclusion_of C.items K.encoding E.Value.encoding D.encoding F.held p) };

    ghost is_value = { λ p. IsExclusionValue ⟦<Proof<F, D, C> as Write>⟧.is_value K.is_value E.Value.is_value p };

    fn write(&self, out: &mut Vec<u8>) -> Result<(), AllocError> {
        let start = out.len();
        or_undo(write_parts(self, out), out, start)
    }
}

impl<F, K, E, D, C> EncodeSize for ExclusionProof<F, K, E, D, C>
where
    F: PendingOf<D>,
    K: Key + EncodeSize,
    E: ValueEncoding,
    E::Value: EncodeSize,
    D: Digest,
    C: AsSlice<u8> + Drop,
{
    fn encode_size(&self) -> usize {
        match self {
            ExclusionProof::KeyValue(proof, update) => {
                1 + proof.encode_size()
                    + (update.key.encode_size()
                        + (update.value.encode_size() + update.next_key.encode_size()))
            }
            ExclusionProof::Commit(proof, metadata) => {
                1 + proof.encode_size() + metadata.encode_size()
            }
        }
    }
}

// The byte at the front. Where none is left: C1.
fn read_tag(cursor: &mut Cursor<'_>) -> Result<u8, Error>
    ensures ok { IfOk result (λ tag. cursor.old ≡ tag ∷ cursor.new) }
    ensures err { IfErr result (λ e. (e ≡ Error.EndOfBuffer) × (cursor.old ≡ [])) }
{
    let bytes = cursor.take(1)?;
    Ok(bytes[0])
}

// A proof at the front, and what stands behind it: an update, or the metadata if any.
fn read_behind<F: PendingOf<D>, T: Read, D: Digest, C: ChunkForm>(
    alloc: Global,
    cursor: &mut Cursor<'_>,
    limits: &C::Limits,
    cfg: &T::Cfg,
) -> Result<(Proof<F, D, C>, T), Error>
    ensures read { Reads (λ x. operation_proof_encoding F.pending_encoding (form_parts_of C.items D.encoding F.held x.0)
        ++ T.encoding x.1) cursor.old cursor.new
        (after_both (after_form (D.after tt) F.pending_after (C.told limits.now)) (T.after cfg.now) cursor.old)
        (BothLack (after_form (D.after tt) F.pending_after (C.told limits.now))
        (FormLacks (C.may_lack limits.now) (C.told limits.now)) (T.may_lack cfg.now) cursor.old) result }
    ensures proof { IfOk result (λ x. ⟦<Proof<F, D, C> as Write>⟧.is_value x.0) }
    ensures behind { IfOk result (λ x. T.is_value x.1) }
    ensures chunk { IfOk result (λ x. length (C.items x.0.chunk) ≡ (C.told limits.now).width) }
{
    let proof = Proof::read_cfg(alloc, cursor, limits)?;
    let behind = T::read_cfg(alloc, cursor, cfg)?;
    Ok((proof, behind))
}

/// Reading takes what the operation proof's reading takes, and nothing for an update and for a value, which have one
/// size. Another tag is C5.
impl<F, K, V, D, C> Read for ExclusionProof<F, K, FixedEncoding<V>, D, C>
where
    F: PendingOf<D>,
    K: FixedKey,
    V: FixedValue,
    D: Digest,
    C: ChunkForm,
{
    ghost use Rattle.state_proofs.specs.Laws.Exclusion.{exclusion_again};

    type Cfg = (C::Limits, (), ());

    ghost after = { λ cfg bytes. after_exclusion
        (after_form (D.after tt) F.pending_after (C.told cfg.0)) (K.after tt) (V.after tt) bytes };

    ghost may_lack = { λ cfg bytes. ExclusionLacks
        (after_form (D.after tt) F.pending_after (C.told cfg.0)) (K.after tt) (V.after tt)
        (FormLacks (C.may_lack cfg.0) (C.told cfg.0)) (K.may_lack tt) (V.may_lack tt) bytes };

    ghost is_within = { λ cfg p. IsExclusionWithin (⟦<Proof<F, D, C> as Read>⟧.is_within cfg.0) p };

    fn read_cfg(
        alloc: Global,
        cursor: &mut Cursor<'_>,
        cfg: &(C::Limits, (), ()),
    ) -> Result<ExclusionProof<F, K, FixedEncoding<V>, D, C>, Error>
        ensures read { Reads ⟦<ExclusionProof<F, K, FixedEncoding<V>, D, C> as Write>⟧.encoding cursor.old cursor.new
            (after_exclusion (after_form (D.after tt) F.pending_after (C.told cfg.now.0)) (K.after tt) (V.after tt)
            cursor.old)
            (ExclusionLacks (after_form (D.after tt) F.pending_after (C.told cfg.now.0)) (K.after tt) (V.after tt)
            (FormLacks (C.may_lack cfg.now.0) (C.told cfg.now.0)) (K.may_lack tt) (V.may_lack tt) cursor.old) result }
        ensures value { IfOk result ⟦<ExclusionProof<F, K, FixedEncoding<V>, D, C> as Write>⟧.is_value }
        ensures chunk { IfOk result
            (IsExclusionWithin (λ proof. length (C.items proof.chunk) ≡ (C.told cfg.now.0).width)) }
    {
        match read_tag(cursor)? {
            KEY_VALUE_CONTEXT => {
                let (proof, update) = read_behind(alloc, cursor, &cfg.0, &())?;
                Ok(ExclusionProof::KeyValue(proof, update))
            }
            COMMIT_CONTEXT => {
                let (proof, metadata) = read_behind(alloc, cursor, &cfg.0, &())?;
                Ok(ExclusionProof::Commit(proof, metadata))
            }
            tag => Err(Error::InvalidEnum(tag)),
        }
    }

    ghost read_again = { λ cfg p rest value within.
        exclusion_again D.encoding D.is_value D.SIZE D.sized F.held F.Pending.is_value
        F.is_pending F.pending_value (D.after tt) F.pending_after F.pending_encoding
        (record { any = D.any_bytes; again = F.pending_again; once = F.pending_once }) K.encoding V.encoding K.is_value
        V.is_value (K.after tt) (V.after tt)
        (λ k more is. K.read_again tt k more is (K.within k)) (λ v more is. V.read_again tt v more is (V.within v))
        C.items (C.told cfg.0) p rest value within };
}

/// Reading takes what the operation proof's reading, an update's and the metadata's take, with keys and values of any
/// size. Another tag is C5.
impl<F, K, V, D, C> Read for ExclusionProof<F, K, VariableEncoding<V>, D, C>
where
    F: PendingOf<D>,
    K: Key,
    V: VariableValue,
    D: Digest,
    C: ChunkForm,
{
    ghost use Rattle.state_proofs.specs.Laws.Exclusion.{absence_again};

    type Cfg = (C::Limits, (K::Cfg, V::Cfg), V::Cfg);

    ghost after = { λ cfg bytes. after_absence (after_form (D.after tt) F.pending_after (C.told cfg.0))
        (after_ordered (K.after cfg.1.0) (V.after cfg.1.1)) (V.after cfg.2) bytes };

    ghost may_lack = { λ cfg bytes. AbsenceLacks (after_form (D.after tt) F.pending_after (C.told cfg.0))
        (FormLacks (C.may_lack cfg.0) (C.told cfg.0))
        (OrderedLacks (K.after cfg.1.0) (V.after cfg.1.1) (K.may_lack cfg.1.0) (V.may_lack cfg.1.1))
        (V.may_lack cfg.2) bytes };

    ghost is_within = { λ cfg p. IsAbsenceWithin (⟦<Proof<F, D, C> as Read>⟧.is_within cfg.0)
        (K.is_within cfg.1.0) (V.is_within cfg.1.1) (V.is_within cfg.2) p };

    fn read_cfg(
        alloc: Global,
        cursor: &mut Cursor<'_>,
        cfg: &(C::Limits, (K::Cfg, V::Cfg), V::Cfg),
    ) -> Result<ExclusionProof<F, K, VariableEncoding<V>, D, C>, Error>
        ensures read { Reads ⟦<ExclusionProof<F, K, VariableEncoding<V>, D, C> as Write>⟧.encoding
            cursor.old cursor.new
            (after_absence (after_form (D.after tt) F.pending_after (C.told cfg.now.0))
            (after_ordered (K.after cfg.now.1.0) (V.after cfg.now.1.1)) (V.after cfg.now.2) cursor.old)
            (AbsenceLacks (after_form (D.after tt) F.pending_after (C.told cfg.now.0))
            (FormLacks (C.may_lack cfg.now.0) (C.told cfg.now.0))
            (OrderedLacks (K.after cfg.now.1.0) (V.after cfg.now.1.1) (K.may_lack cfg.now.1.0)
            (V.may_lack cfg.now.1.1)) (V.may_lack cfg.now.2) cursor.old) result }
        ensures value { IfOk result ⟦<ExclusionProof<F, K, VariableEncoding<V>, D, C> as Write>⟧.is_value }
        ensures chunk { IfOk result
            (IsExclusionWithin (λ proof. length (C.items proof.chunk) ≡ (C.told cfg.now.0).width)) }
    {
        match read_tag(cursor)? {
            KEY_VALUE_CONTEXT => {
                let (proof, update) = read_behind(alloc, cursor, &cfg.0, &cfg.1)?;
                Ok(ExclusionProof::KeyValue(proof, update))
            }
            COMMIT_CONTEXT => {
                let (proof, metadata) = read_behind(alloc, cursor, &cfg.0, &cfg.2)?;
                Ok(ExclusionProof::Commit(proof, metadata))
            }
            tag => Err(Error::InvalidEnum(tag)),
        }
    }

    ghost read_again = { λ cfg p rest value within.
        absence_again D.encoding D.is_value D.SIZE D.sized F.held F.Pending.is_value
        F.is_pending F.pending_value (D.after tt) F.pending_after F.pending_encoding
        (record { any = D.any_bytes; again = F.pending_again; once = F.pending_once }) K.encoding V.encoding K.is_value
        V.is_value (K.after cfg.1.0) (V.after cfg.1.1) (V.after cfg.2)
        (K.is_within cfg.1.0) (V.is_within cfg.1.1) (V.is_within cfg.2)
        (K.read_again cfg.1.0) (V.read_again cfg.1.1) (V.read_again cfg.2) C.items (C.told cfg.0) p rest value within };
}
