//! Proofs that a key is not in a state.

ghost use Rattle.std.specs.Prelude.{◌≡◌, ◌↔◌, IsTrue, IfOk, option_map};
ghost use Rattle.state_ops.specs.Operation.{fixed_encoding, commit_floor};
ghost use Rattle.state_proofs.specs.Exclusion.{Excludes};
ghost use Rattle.state_proofs.specs.ExclusionCode.{form_exclusion_of};

pub mod codec;
pub mod laws;
pub mod verifying;

use crate::operation::Proof;
use crate::ordered::encoded_update;
use merkle_forest::codec::Faithful;
use merkle_forest::{Digest, Family, Graftable, HashFunction, Location, PendingOf};
use state_ops::ordered::encode;
use state_ops::spans::leaves_out;
use state_ops::update::Ordered;
use state_ops::{
    FixedEncoding, FixedKey, FixedValue, Key, Operation, OrderedOperation, ValueEncoding,
};
use state_proofs_parts::chunk_form::ChunkForm;
use std::alloc::{AllocError, Global};
use std::convert::AsSlice;

/// A proof that a key is not in a state, whose operations `E` encodes.
/// In the Rust: `qmdb::current::ordered::proof::ExclusionProof`.
#[derive(Debug, PartialEq, Eq, Drop)]
pub enum ExclusionProof<F: PendingOf<D>, K: Key, E: ValueEncoding, D: Digest, C = Vec<u8>> {
    /// An update whose cyclic span, from its key up to its next key, holds the key, which is not its own.
    KeyValue(Proof<F, D, C>, Ordered<K, E>),
    /// The last commit of an empty map, with its metadata: its floor is its own place.
    Commit(Proof<F, D, C>, Option<E::Value>),
}

// An update with the same encodings. It fails only when out of memory.
fn copied_update<K: Key, E: ValueEncoding>(
    update: &Ordered<K, E>,
) -> Result<Ordered<K, E>, AllocError>
    ensures key { IfOk result (λ copy. K.encoding copy.key ≡ K.encoding update.now.key) }
    ensures value { IfOk result (λ copy. E.Value.encoding copy.value ≡ E.Value.encoding update.now.value) }
    ensures next { IfOk result (λ copy. K.encoding copy.next_key ≡ K.encoding update.now.next_key) }
{
    let key = update.key.clone()?;
    let value = update.value.clone()?;
    let next_key = update.next_key.clone()?;
    Ok(Ordered {
        key,
        value,
        next_key,
    })
}

// Metadata with the same encoding, or none. It fails only when out of memory.
fn copied_metadata<V: Faithful>(metadata: &Option<V>) -> Result<Option<V>, AllocError>
    ensures { IfOk result (λ copy. option_map V.encoding copy ≡ option_map V.encoding metadata.now) }
{
    match metadata {
        None => Ok(None),
        Some(value) => Ok(Some(value.clone()?)),
    }
}

impl<F, K, E, D, C> ExclusionProof<F, K, E, D, C>
where
    F: PendingOf<D>,
    K: Key,
    E: ValueEncoding,
    D: Digest,
    C: ChunkForm,
{
    /// A proof that holds the same. It fails only when out of memory (own). In the Rust: `Clone::clone`.
    pub fn try_copy(&self) -> Result<ExclusionProof<F, K, E, D, C>, AllocError>
        ensures { IfOk result (λ copy. form_exclusion_of C.items K.encoding E.Value.encoding D.encoding F.held copy
            ≡ form_exclusion_of C.items K.encoding E.Value.encoding D.encoding F.held self.now) }
    {
        match self {
            ExclusionProof::KeyValue(proof, update) => {
                let copy = proof.try_copy()?;
                let update = copied_update(update)?;
                Ok(ExclusionProof::KeyValue(copy, update))
            }
            ExclusionProof::Commit(proof, metadata) => {
                let copy = proof.try_copy()?;
                let metadata = copied_metadata(metadata)?;
                Ok(ExclusionProof::Commit(copy, metadata))
            }
        }
    }
}

// The encoded commit with this metadata and floor. It fails only when out of memory.
fn encoded_commit<F: Family, K: FixedKey, V: FixedValue>(
    alloc: Global,
    metadata: &Option<V>,
    floor: Location<F>,
) -> Result<Vec<u8>, AllocError>
    ensures { IfOk result (λ bytes. bytes.items
        ≡ fixed_encoding K.SIZE V.SIZE (commit_floor (option_map V.encoding metadata.now) floor)) }
{
    let metadata = match metadata {
        None => None,
        Some(value) => Some(value.clone()?),
    };
    let commit: OrderedOperation<F, K, V> = Operation::CommitFloor(metadata, floor);
    encode(alloc, &commit)
}

impl<F, K, V, D, C> ExclusionProof<F, K, FixedEncoding<V>, D, C>
where
    F: Graftable + PendingOf<D>,
    K: FixedKey,
    V: FixedValue,
    D: Digest,
    C: AsSlice<u8>,
{
    /// Whether the proof shows that the key is not in the state of this root. It fails only when out of memory.
    /// In the Rust: `qmdb::current::ordered::proof::ExclusionProof::verify`, which never fails.
    pub fn verify<H: HashFunction<Digest = D>>(
        &self,
        alloc: Global,
        key: &K,
        root: &D,
    ) -> Result<bool, AllocError>
        ensures { IfOk result (λ yes. IsTrue yes ↔ Excludes F.merge_rule H.hash_of K.SIZE V.SIZE (D.encoding root.now)
            (form_exclusion_of C.items K.encoding V.encoding D.encoding F.held self.now) (K.encoding key.now)) }
    {
        match self {
            ExclusionProof::KeyValue(proof, update) => {
                if !leaves_out(&update.key, &update.next_key, key) {
                    return Ok(false);
                }
                let operation = encoded_update::<F, K, V>(
                    alloc,
                    &update.key,
                    &update.value,
                    &update.next_key,
                )?;
                Ok(proof.verify::<H>(&operation, root))
            }
            ExclusionProof::Commit(proof, metadata) => {
                let operation = encoded_commit::<F, K, V>(alloc, metadata, proof.loc)?;
                Ok(proof.verify::<H>(&operation, root))
            }
        }
    }
}
