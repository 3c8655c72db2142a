//! The check of a proof that a key is not in a state, for any encoding of the state's operations.

ghost use Rattle.std.specs.Prelude.{◌≡◌, ◌↔◌, ℕ, IsTrue, IfOk, option_map};
ghost use Rattle.state_ops.specs.Operation.{commit_floor};
ghost use Rattle.state_ops.specs.Spans.{IsLeftOut, is_below, is_in_span};
ghost use Rattle.state_proofs.specs.Exclusion.{ExcludesAs};
ghost use Rattle.state_proofs.specs.ExclusionCode.{form_exclusion_of};

use super::{ExclusionProof, copied_metadata};
use crate::ordered::encoded_update_as;
use merkle_forest::codec::Encode;
use merkle_forest::{Digest, Family, Graftable, HashFunction, Location, PendingOf};
use state_ops::update::Ordered;
use state_ops::{Key, Operation, OperationCodec, ValueEncoding};
use std::alloc::{AllocError, Global};
use std::cmp::Ordering;
use std::convert::AsSlice;

// Whether a key stands before another.
fn is_key_below<K: Key>(one: &K, other: &K) -> bool
    ensures { result ≡ is_below (K.bytes one.now) (K.bytes other.now) }
{
    matches!(one.cmp(other), Ordering::Less)
}

// Whether the cyclic span from a key up to the next one holds a third.
fn span_holds_key<K: Key>(key: &K, next_key: &K, asked: &K) -> bool
    ensures { result ≡ is_in_span (K.bytes key.now) (K.bytes next_key.now) (K.bytes asked.now) }
{
    let is_from = !is_key_below(asked, key);
    let is_before = is_key_below(asked, next_key);
    match key.cmp(next_key) {
        Ordering::Less => is_from && is_before,
        Ordering::Equal => true,
        Ordering::Greater => is_from || is_before,
    }
}

// Whether it is the same key.
fn is_key<K: Key>(one: &K, other: &K) -> bool
    ensures { IsTrue result ↔ (K.bytes one.now ≡ K.bytes other.now) }
{
    matches!(one.cmp(other), Ordering::Equal)
}

// Whether an update leaves the asked key out: its cyclic span holds the asked one, which is not its own.
fn leaves_out<K: Key>(key: &K, next_key: &K, asked: &K) -> bool
    ensures { IsTrue result ↔ IsLeftOut (K.bytes key.now) (K.bytes next_key.now) (K.bytes asked.now) }
{
    if is_key(asked, key) {
        return false;
    }
    span_holds_key(key, next_key, asked)
}

// The commit with this metadata and floor, as `E` encodes it. It fails only when out of memory.
fn encoded_commit_as<F: Family, K: Key, E: ValueEncoding + OperationCodec<F, Ordered<K, E>>>(
    alloc: Global,
    metadata: &Option<E::Value>,
    floor: Location<F>,
) -> Result<Vec<u8>, AllocError>
    ensures { IfOk result (λ bytes. bytes.items
        ≡ E.spelled (commit_floor (option_map E.Value.encoding metadata.now) floor)) }
{
    let metadata = copied_metadata(metadata)?;
    let commit: Operation<F, Ordered<K, E>> = Operation::CommitFloor(metadata, floor);
    commit.encode(alloc)
}

impl<F, K, E, D, C> ExclusionProof<F, K, E, D, C>
where
    F: Graftable + PendingOf<D>,
    K: Key,
    E: ValueEncoding + OperationCodec<F, Ordered<K, E>>,
    D: Digest,
    C: AsSlice<u8>,
{
    /// Whether the proof shows that the key is not in the state of this root, with keys and values of any size, the
    /// keys in the order of their bytes. It fails only when out of memory.
    /// In the Rust: `qmdb::current::ordered::proof::ExclusionProof::verify`, which never fails.
    pub fn verify_as<H: HashFunction<Digest = D>>(
        &self,
        alloc: Global,
        key: &K,
        root: &D,
    ) -> Result<bool, AllocError>
        ensures { let proof = form_exclusion_of C.items K.encoding E.Value.encoding D.encoding F.held self.now in
            let span = form_exclusion_of C.items K.bytes E.Value.encoding D.encoding F.held self.now in
            IfOk result (λ yes. IsTrue yes ↔ ExcludesAs F.merge_rule H.hash_of E.spelled (D.encoding root.now)
            proof span (K.bytes key.now)) }
    {
        match self {
            ExclusionProof::KeyValue(proof, update) => {
                if !leaves_out(&update.key, &update.next_key, key) {
                    return Ok(false);
                }
                let operation = encoded_update_as::<F, K, E>(
                    alloc,
                    &update.key,
                    &update.value,
                    &update.next_key,
                )?;
                Ok(proof.verify::<H>(&operation, root))
            }
            ExclusionProof::Commit(proof, metadata) => {
                let operation = encoded_commit_as::<F, K, E>(alloc, metadata, proof.loc)?;
                Ok(proof.verify::<H>(&operation, root))
            }
        }
    }
}
