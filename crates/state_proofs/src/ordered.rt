//! Proofs of a key's value.

ghost use Rattle.std.specs.Prelude.{◌≡◌, ◌⊎◌, ◌↔◌, ◌++◌, ℕ, List, [], false, IsTrue, IsErr, IfOk, length, Ok, OnOk};
ghost use Rattle.std.specs.Prelude.{OnErr};
ghost use Rattle.merkle_forest.specs.Codec.{Extends, LacksAfter, Reads};
ghost use Rattle.state_ops.specs.Operation.{fixed_encoding, ordered, update};
ghost use Rattle.state_ops.specs.Reading.{IsField, IsOfFields};
ghost use Rattle.state_theory.specs.Encoded.{key_value_proof_encoding, format_of, ShowsUpdate};
ghost use Rattle.state_theory.specs.Forms.{after_form, after_key_value_form, FormLacks};
ghost use Rattle.state_proofs.specs.ProofsCode.{form_parts_of};
ghost use Rattle.state_theory.specs.Verified.{Verifies};

use crate::operation;
use merkle_core::MAX_PROOF_DIGESTS_PER_ELEMENT;
use merkle_forest::codec::{Cursor, Encode, EncodeSize, Error, Read, Write, or_undo};
use merkle_forest::{Digest, Family, Graftable, HashFunction, PendingOf};
use state_ops::ordered::encode;
use state_ops::update::Ordered;
use state_ops::{
    FixedKey, FixedValue, Key, Operation, OperationCodec, OrderedOperation, ValueEncoding,
};
use state_proofs_parts::chunk_form::ChunkForm;
use std::alloc::{AllocError, Global};
use std::convert::AsSlice;

/// A proof that a key has a value in a state: the proof of the key's active update, and the next key
/// that the update names. Its encoding is these in order. Reading takes what the proof's reading and a key's take.
/// In the Rust: `qmdb::current::ordered::proof::KeyValueProof`.
#[derive(Debug, PartialEq, Eq, Drop)]
pub struct KeyValueProof<F: PendingOf<D>, K: Key, D: Digest, C = Vec<u8>> {
    /// The proof of the key's update.
    pub proof: operation::Proof<F, D, C>,
    /// The next key that the update names.
    pub next_key: K,
}

impl<F: PendingOf<D>, K: Key, D: Digest, C: ChunkForm> KeyValueProof<F, K, D, C> {
    /// A proof that holds the same. It fails only when out of memory (own). In the Rust: `Clone::clone`.
    pub fn try_copy(&self) -> Result<KeyValueProof<F, K, D, C>, AllocError>
        ensures proof { IfOk result (λ copy. form_parts_of C.items D.encoding F.held copy.proof
            ≡ form_parts_of C.items D.encoding F.held self.now.proof) }
        ensures key { IfOk result (λ copy. K.encoding copy.next_key ≡ K.encoding self.now.next_key) }
    {
        let proof = self.proof.try_copy()?;
        let next_key = self.next_key.clone()?;
        Ok(KeyValueProof { proof, next_key })
    }
}

// Appends the encoding. Out of memory, some of its bytes may have been appended.
fn write_parts<F: PendingOf<D>, K: Key, D: Digest, C: AsSlice<u8> + Drop>(
    proof: &KeyValueProof<F, K, D, C>,
    out: &mut Vec<u8>,
) -> Result<(), AllocError>
    ensures ok { OnOk result (out.new.items ≡ out.old.items
        ++ key_value_proof_encoding F.pending_encoding (form_parts_of C.items D.encoding F.held proof.now.proof)
        (K.encoding proof.now.next_key)) }
    ensures err { OnErr result (Extends out.old.items out.new.items) }
    ensures proof { OnOk result (⟦<operation::Proof<F, D, C> as Write>⟧.is_value proof.now.proof) }
    ensures key { OnOk result (K.is_value proof.now.next_key) }
{
    proof.proof.write(out)?;
    proof.next_key.write(out)
}

impl<F: PendingOf<D>, K: Key, D: Digest, C: AsSlice<u8> + Drop> Write
    for KeyValueProof<F, K, D, C> {
    ghost encoding = { λ p. key_value_proof_encoding F.pending_encoding
        (form_parts_of C.items D.encoding F.held p.proof) (K.encoding p.next_key) };

    ghost is_value = { λ p. ⟦<operation::Proof<F, D, C> as Write>⟧.is_value p.proof × K.is_value p.next_key };

    fn write(&self, out: &mut Vec<u8>) -> Result<(), AllocError> {
        let start = out.len();
        or_undo(write_parts(self, out), out, start)
    }
}

impl<F: PendingOf<D>, K: Key + EncodeSize, D: Digest, C: AsSlice<u8> + Drop> EncodeSize
    for KeyValueProof<F, K, D, C> {
    fn encode_size(&self) -> usize {
        self.proof.encode_size() + self.next_key.encode_size()
    }
}

impl<F: PendingOf<D>, K: Key, D: Digest, C: ChunkForm> Read for KeyValueProof<F, K, D, C> {
    ghost use Rattle.state_proofs.specs.Laws.Reading.{read_key_value_again};

    type Cfg = (C::Limits, K::Cfg);

    ghost after = { λ cfg bytes.
        after_key_value_form (D.after tt) F.pending_after (K.after cfg.1) (C.told cfg.0) bytes };

    ghost may_lack = { λ cfg bytes. FormLacks (C.may_lack cfg.0) (C.told cfg.0) bytes
        ⊎ LacksAfter (after_form (D.after tt) F.pending_after (C.told cfg.0) bytes) (K.may_lack cfg.1) };

    ghost is_within = { λ cfg p. ⟦<operation::Proof<F, D, C> as Read>⟧.is_within cfg.0 p.proof
        × K.is_within cfg.1 p.next_key };

    fn read_cfg(
        alloc: Global,
        cursor: &mut Cursor<'_>,
        cfg: &(C::Limits, K::Cfg),
    ) -> Result<KeyValueProof<F, K, D, C>, Error>
        ensures read { Reads ⟦<KeyValueProof<F, K, D, C> as Write>⟧.encoding cursor.old cursor.new
            (after_key_value_form (D.after tt) F.pending_after (K.after cfg.now.1) (C.told cfg.now.0) cursor.old)
            (FormLacks (C.may_lack cfg.now.0) (C.told cfg.now.0) cursor.old
            ⊎ LacksAfter (after_form (D.after tt) F.pending_after (C.told cfg.now.0) cursor.old)
            (K.may_lack cfg.now.1)) result }
        ensures value { IfOk result ⟦<KeyValueProof<F, K, D, C> as Write>⟧.is_value }
        ensures chunk { IfOk result (λ proof. length (C.items proof.proof.chunk) ≡ (C.told cfg.now.0).width) }
    {
        let (limits, key_cfg) = cfg;
        let proof = operation::Proof::read_cfg(alloc, cursor, limits)?;
        let next_key = K::read_cfg(alloc, cursor, key_cfg)?;
        Ok(KeyValueProof { proof, next_key })
    }

    ghost read_again = { λ cfg p rest value within.
        read_key_value_again D.encoding D.is_value D.SIZE D.sized F.held F.Pending.is_value
        F.is_pending F.pending_value (D.after tt) F.pending_after F.pending_encoding
        (record { any = D.any_bytes; again = F.pending_again; once = F.pending_once }) C.items (C.told cfg.0)
        (K.after cfg.1) p.proof (K.encoding p.next_key) rest
        value.0 within.0 (K.read_again cfg.1 p.next_key rest value.1 within.1) };
}

// The encoded update that gives the key this value, before this next key: then these have their sizes and are read
// again. It fails only when out of memory.
pub(crate) fn encoded_update<F: Family, K: FixedKey, V: FixedValue>(
    alloc: Global,
    key: &K,
    value: &V,
    next_key: &K,
) -> Result<Vec<u8>, AllocError>
    ensures bytes { IfOk result (λ bytes. bytes.items
        ≡ fixed_encoding K.SIZE V.SIZE
        (update (ordered (K.encoding key.now) (V.encoding value.now) (K.encoding next_key.now)))) }
    ensures fields { OnOk result (IsOfFields (IsField (K.after tt) K.SIZE) (IsField (V.after tt) V.SIZE)
        (update (ordered (K.encoding key.now) (V.encoding value.now) (K.encoding next_key.now)))) }
{
    let copied_key = key.clone()?;
    let copied_value = value.clone()?;
    let copied_next = next_key.clone()?;
    let update: OrderedOperation<F, K, V> = Operation::Update(Ordered {
        key: copied_key,
        value: copied_value,
        next_key: copied_next,
    });
    encode(alloc, &update)
}

impl<F: Graftable + PendingOf<D>, K: FixedKey, D: Digest, C: AsSlice<u8>> KeyValueProof<
    F,
    K,
    D,
    C,
> {
    /// Whether the proof shows that the key has the value in the state of this root; where it answers, key and value
    /// have their sizes and are read again. It fails only when out of memory.
    /// In the Rust: `qmdb::current::ordered::proof::KeyValueProof::verify`, which never fails.
    pub fn verify<H: HashFunction<Digest = D>, V: FixedValue>(
        &self,
        alloc: Global,
        key: &K,
        value: &V,
        root: &D,
    ) -> Result<bool, AllocError>
        ensures exact { let operation = fixed_encoding K.SIZE V.SIZE
            (update (ordered (K.encoding key.now) (V.encoding value.now) (K.encoding self.now.next_key))) in
            IfOk result (λ yes. IsTrue yes ↔ Verifies F.merge_rule H.hash_of (D.encoding root.now)
            (form_parts_of C.items D.encoding F.held self.now.proof) operation) }
        ensures key { OnOk result (IsField (K.after tt) K.SIZE (K.encoding key.now)) }
        ensures value { OnOk result (IsField (V.after tt) V.SIZE (V.encoding value.now)) }
    {
        let operation = encoded_update::<F, K, V>(alloc, key, value, &self.next_key)?;
        Ok(self.proof.verify::<H>(&operation, root))
    }
}

// The operation that gives the key this value, before this next key, as `E` encodes it. It fails only when out of
// memory.
pub(crate) fn encoded_update_as<
    F: Family,
    K: Key,
    E: ValueEncoding + OperationCodec<F, Ordered<K, E>>,
>(alloc: Global, key: &K, value: &E::Value, next_key: &K) -> Result<Vec<u8>, AllocError>
    ensures { IfOk result (λ bytes. bytes.items ≡ E.spelled
        (update (K.encoding key.now ++ (E.Value.encoding value.now ++ K.encoding next_key.now)))) }
{
    let copied_key = key.clone()?;
    let copied_value = value.clone()?;
    let copied_next = next_key.clone()?;
    let update: Operation<F, Ordered<K, E>> = Operation::Update(Ordered {
        key: copied_key,
        value: copied_value,
        next_key: copied_next,
    });
    update.encode(alloc)
}

impl<F: Graftable + PendingOf<D>, K: Key, D: Digest, C: AsSlice<u8>> KeyValueProof<F, K, D, C> {
    /// Whether the proof shows that the key has the value in the state of this root, whose operations are encoded as
    /// `E` says, with keys and values of any size. It fails only when out of memory.
    /// In the Rust: `qmdb::current::ordered::proof::KeyValueProof::verify`, which never fails.
    pub fn verify_as<
        H: HashFunction<Digest = D>,
        E: ValueEncoding + OperationCodec<F, Ordered<K, E>>,
    >(&self, alloc: Global, key: &K, value: &E::Value, root: &D) -> Result<bool, AllocError>
        ensures { let operation = E.spelled
            (update (K.encoding key.now ++ (E.Value.encoding value.now ++ K.encoding self.now.next_key))) in
            IfOk result (λ yes. IsTrue yes ↔ Verifies F.merge_rule H.hash_of (D.encoding root.now)
            (form_parts_of C.items D.encoding F.held self.now.proof) operation) }
    {
        let operation = encoded_update_as::<F, K, E>(alloc, key, value, &self.next_key)?;
        Ok(self.proof.verify::<H>(&operation, root))
    }
}

// What a proof that could not be read shows: nothing. Out of memory it is not known.
fn refused(e: Error) -> Result<bool, AllocError>
    ensures ok { IfOk result (λ yes. (yes ≡ false) × (e ≡ Error.Memory → ⊥)) }
    ensures err { IsErr result ↔ (e ≡ Error.Memory) }
{
    match e {
        Error::Memory => Err(AllocError),
        Error::EndOfBuffer
        | Error::ExtraData
        | Error::InvalidVarint
        | Error::InvalidBool
        | Error::InvalidEnum(_)
        | Error::InvalidLength
        | Error::Invalid => Ok(false),
    }
}

/// Whether the bytes are those of a proof, of at most 122 digests and with a chunk of so many bytes, that shows that
/// the key has the value in the state of this root: what is no proof, or has bytes after it, shows nothing. Where it
/// says yes, key and value have their sizes and are read again. It fails only when out of memory (own).
pub fn shows_value<F, H, K, V>(
    alloc: Global,
    width: usize,
    root: &H::Digest,
    key: &K,
    value: &V,
    bytes: &[u8],
) -> Result<bool, AllocError>
where
    F: Graftable + PendingOf<H::Digest>,
    H: HashFunction,
    K: FixedKey,
    V: FixedValue,
    ensures exact { let is_key = IsField (K.after tt) K.SIZE in
        let format = format_of F.merge_rule H.hash_of width H.Digest.SIZE F.is_pending F.pending_encoding is_key in
        IfOk result (λ yes. IsTrue yes ↔ ShowsUpdate format (H.Digest.encoding root.now)
        (λ next_key. fixed_encoding K.SIZE V.SIZE
        (update (ordered (K.encoding key.now) (V.encoding value.now) next_key)))
        bytes.now) }
    ensures fields { IfOk result (λ yes. IsTrue yes → IsField (K.after tt) K.SIZE (K.encoding key.now)
        × IsField (V.after tt) V.SIZE (V.encoding value.now)) }
{
    let limits = ((width, MAX_PROOF_DIGESTS_PER_ELEMENT), ());
    let mut cursor = Cursor::new(bytes);
    match KeyValueProof::<F, K, H::Digest>::read_cfg(alloc, &mut cursor, &limits) {
        Err(e) => refused(e),
        Ok(proof) => {
            if !cursor.is_empty() {
                return Ok(false);
            }
            proof.verify::<H, V>(alloc, key, value, root)
        }
    }
}
