//! Operations without their bits: what the bytes hold that show them, and whether they do.

ghost use Rattle.std.specs.Prelude.{◌≡◌, ◌↔◌, ◌<◌, ◌^◌, ℕ, List, map, option_map, IsTrue, IfOk, MatchOption};
ghost use Rattle.std.specs.List.{AllByRecursion};
ghost use Rattle.merkle_forest.specs.Codec.{LacksAfter, Reads};
ghost use Rattle.merkle_theory.specs.Proofs.{ProofLacks};
ghost use Rattle.state_ops.specs.Operation.{meaning_of};
ghost use Rattle.state_ops.specs.Reading.{IsField, IsOfFields};
ghost use Rattle.state_theory.specs.LogProofs.{log_root};
ghost use Rattle.state_proofs.specs.Witness.{after_witness};
ghost use Rattle.auth_store_client.specs.Claims.{terms, ShowsSlice};
ghost use Rattle.auth_store_client.specs.Slices.{SliceParts, slice_encoding, after_slice, FitsSlice, VerifiesSlice};
ghost use Rattle.auth_store_client.specs.SlicesCode.{slice_of};

use crate::encoded::{encodings, lent};
use crate::range::MOST_DIGESTS;
use crate::reading::unread;
use merkle_core::Proof;
use merkle_core::verifying::reconstruct_range;
use merkle_forest::codec::{Cursor, Error, Read, Write};
use merkle_forest::hasher::Standard;
use merkle_forest::{Bagging, Digest, Family, Graftable, HashFunction, Location, PendingOf};
use state_ops::{FixedKey, FixedValue, OrderedOperation};
use state_proofs::OpsRootWitness;
use std::alloc::{AllocError, Global};

// What bytes hold that show operations: the witness of the root of the operations' tree, and the proof in this tree.
#[derive(Drop)]
struct Slice<F: PendingOf<D>, D: Digest> {
    witness: OpsRootWitness<F, D>,
    proof: Proof<F, D>,
}

// The witness and the proof at the front.
fn read_parts<F: PendingOf<D>, D: Digest>(
    alloc: Global,
    cursor: &mut Cursor<'_>,
) -> Result<Slice<F, D>, Error>
    ensures read { Reads (λ s. slice_encoding F.pending_encoding (slice_of D.encoding F.held s)) cursor.old cursor.new
        (after_slice (D.after tt) F.pending_after 244 cursor.old)
        (LacksAfter (after_witness (D.after tt) F.pending_after cursor.old) (ProofLacks 244)) result }
    ensures witness { IfOk result (λ s. ⟦<OpsRootWitness<F, D> as Write>⟧.is_value s.witness) }
    ensures proof { IfOk result (λ s. ⟦<Proof<F, D> as Write>⟧.is_value s.proof) }
{
    let witness = OpsRootWitness::read_cfg(alloc, cursor, &())?;
    let proof = Proof::read_cfg(alloc, cursor, &MOST_DIGESTS)?;
    Ok(Slice { witness, proof })
}

// The witness and the proof within the limits whose encoding the bytes are. None: they are none. It fails only when out
// of memory.
fn read_slice<F: PendingOf<D>, D: Digest>(
    alloc: Global,
    bytes: &[u8],
) -> Result<Option<Slice<F, D>>, AllocError>
    ensures { IfOk result (λ found. MatchOption found
        ((slice : SliceParts) → FitsSlice F.is_pending D.SIZE 244 slice
        → bytes.now ≡ slice_encoding F.pending_encoding slice → ⊥)
        (λ slice. let parts = slice_of D.encoding F.held slice in FitsSlice F.is_pending D.SIZE 244 parts
        × (bytes.now ≡ slice_encoding F.pending_encoding parts))) }
{
    let mut cursor = Cursor::new(bytes);
    match read_parts(alloc, &mut cursor) {
        Ok(slice) => {
            if cursor.is_empty() {
                return Ok(Some(slice));
            }
            Ok(None)
        }
        Err(e) => {
            unread(e)?;
            Ok(None)
        }
    }
}

// The root of the operations' tree to which the proof leads from encoded operations. None: it leads to none.
fn operations_root<F: Family, H: HashFunction>(
    proof: &Proof<F, H::Digest>,
    start: u64,
    operations: &[&[u8]],
) -> Option<H::Digest>
    ensures { option_map H.Digest.encoding result
        ≡ log_root F.merge_rule H.hash_of proof.now.leaves proof.now.inactive_peaks start
        (map (λ operation. operation.now) operations.now) (map H.Digest.encoding proof.now.digests.items) }
{
    let hasher: Standard<H> = Standard::new(Bagging::BackwardFold);
    reconstruct_range(&hasher, proof, Location::new(start), operations).ok()
}

// Whether the proof and the witness lead from encoded operations to the root.
fn verifies<F: PendingOf<H::Digest>, H: HashFunction>(
    slice: &Slice<F, H::Digest>,
    root: &H::Digest,
    start: u64,
    operations: &[&[u8]],
) -> bool
    ensures { IsTrue result ↔ VerifiesSlice F.merge_rule H.hash_of (H.Digest.encoding root.now)
        (slice_of H.Digest.encoding F.held slice.now) start (map (λ operation. operation.now) operations.now) }
{
    match operations_root::<F, H>(&slice.proof, start, operations) {
        None => false,
        Some(operations_root) => slice.witness.verify::<H>(&operations_root, root),
    }
}

// Whether the bytes are those of a proof that the operations stand from this location of the log of this root on. Where
// it says yes, their keys and values have their sizes and are read again. It fails only when out of memory.
pub(crate) fn shows_slice<F, H, K, V>(
    alloc: Global,
    width: usize,
    root: &H::Digest,
    start: u64,
    operations: &[OrderedOperation<F, K, V>],
    bytes: &[u8],
) -> Result<bool, AllocError>
where
    F: Graftable + PendingOf<H::Digest>,
    H: HashFunction,
    K: FixedKey,
    V: FixedValue,
    ensures exact { let terms = terms F.merge_rule H.hash_of width H.Digest.SIZE F.is_pending F.pending_encoding
        (K.after tt) (V.after tt) K.SIZE V.SIZE in
        IfOk result (λ yes. IsTrue yes ↔ ShowsSlice terms (H.Digest.encoding root.now) start
        (map (meaning_of K.encoding V.encoding) operations.now) bytes.now) }
    ensures fields { IfOk result (λ yes. IsTrue yes → AllByRecursion (IsOfFields (IsField (K.after tt) K.SIZE)
        (IsField (V.after tt) V.SIZE)) (map (meaning_of K.encoding V.encoding) operations.now)) }
{
    let Some(slice) = read_slice::<F, H::Digest>(alloc, bytes)? else {
        return Ok(false);
    };
    let encoded = encodings(alloc, operations)?;
    let elements = lent(alloc, &encoded)?;
    Ok(verifies::<F, H>(&slice, root, start, &elements))
}
