//! The parts of what is proved of a range of operations that are made of what is kept: their activity bits, and the
//! bytes of their proofs.

ghost use Rattle.std.specs.Prelude.{◌≡◌, ◌<◌, ◌≤◌, ◌*◌, ◌++◌, List, Some, slice_get, length, map, IfOk, OnOk};
ghost use Rattle.std.specs.List.{flat_map};
ghost use Rattle.state_ops.specs.Operation as meaning;
ghost use Rattle.auth_store_client.specs.Proving.{chunks_over, honest_operation, honest_range_bytes};
ghost use Rattle.auth_store_client.specs.Proving.{honest_slice_bytes, log_digests, log_inactive};
ghost use Rattle.auth_store_ledger.specs.History.{activity_bits, history_of};
ghost use Rattle.auth_store_proving.specs.Proving.{between};
ghost use Rattle.auth_store_ledger.specs.Store.{IsChunkWidth, IsLedgerOf, grafting_height, setting_of_width};
ghost use Rattle.auth_store_ledger.specs.Store.{state_of_history};
ghost use Rattle.auth_store_log.specs.Records.{format_of};
ghost use Rattle.state_theory.specs.Honest.{honest_range};
ghost use Rattle.state_proofs.specs.ProofsCode.{range_parts_of};

use crate::key::{self, operation_proof};
use auth_store_ledger::Ledger;
use auth_store_ledger::ledger::kept;
use merkle_core::proof::Proof as LogProof;
use merkle_forest::codec::Write;
use merkle_forest::{Graftable, HashFunction, Location, PendingOf};
use state_ops::{FixedKey, FixedValue};
use state_proofs::RangeProof;
use state_proofs::chunk_size::ChunkSize;
use state_proving::{log_proof, range_proof, witness};
use std::alloc::AllocError;

// How many bits a chunk of `N` bytes has.
fn chunk_size<const N: usize>() -> ChunkSize
    requires { IsChunkWidth N }
    ensures width { result.width ≡ N }
    ensures height { result.grafting_height ≡ grafting_height N }
{
    ChunkSize::new(N).unwrap()
}

// The location of the first operation whose chunk is not pruned, or that of the next one.
pub(crate) fn kept_from<F, H, K, V, const N: usize>(ledger: &Ledger<F, H, K, V, N>) -> u64
where
    F: Graftable,
    H: HashFunction,
    K: FixedKey,
    V: FixedValue,
    ensures { result ≡ 8 * N * ledger.now.kept.bits.pruned }
{
    let (_, current) = ledger.parts();
    current.kept_from().as_u64()
}

// Whether the operation at a location, whose chunk is not pruned, is active.
pub(crate) fn is_active<F, H, K, V, const N: usize>(
    ledger: &Ledger<F, H, K, V, N>,
    location: u64,
) -> bool
where
    F: Graftable,
    H: HashFunction,
    K: FixedKey,
    V: FixedValue,
    requires kept { 8 * N * ledger.now.kept.bits.pruned ≤ location }
    requires within { location < ledger.now.kept.operations.leaves }
    ensures { (log : List meaning.Operation) → IsLedgerOf (setting_of_width F.merge_rule H.hash_of N)
        (format_of (K.after tt) (V.after tt) K.SIZE V.SIZE) log ledger.now
        → slice_get (activity_bits log) location ≡ Some result }
{
    let (_, current) = ledger.parts();
    current.bit(location)
}

// Whether each of the operations from `start` up to `stop` is active. It fails only when out of memory.
pub(crate) fn bits_between<F, H, K, V, const N: usize>(
    ledger: &Ledger<F, H, K, V, N>,
    start: u64,
    stop: u64,
) -> Result<Vec<bool>, AllocError>
where
    F: Graftable,
    H: HashFunction,
    K: FixedKey,
    V: FixedValue,
    requires kept { 8 * N * ledger.now.kept.bits.pruned ≤ start }
    requires ordered { start ≤ stop }
    requires within { stop ≤ ledger.now.kept.operations.leaves }
    ensures { (log : List meaning.Operation) → IsLedgerOf (setting_of_width F.merge_rule H.hash_of N)
        (format_of (K.after tt) (V.after tt) K.SIZE V.SIZE) log ledger.now
        → IfOk result (λ bits. bits.items ≡ between start stop (activity_bits log)) }
{
    let mut bits = Vec::new(ledger.allocator());
    for location in start..stop {
        bits.push(is_active(ledger, location))?;
    }
    Ok(bits)
}

// Appends the chunks over the operations from `start` up to `stop`, of which there is one. It fails only when out
// of memory.
fn write_chunks<F, H, K, V, const N: usize>(
    ledger: &Ledger<F, H, K, V, N>,
    start: u64,
    stop: u64,
    out: &mut Vec<u8>,
) -> Result<(), AllocError>
where
    F: Graftable,
    H: HashFunction,
    K: FixedKey,
    V: FixedValue,
    requires kept { 8 * N * ledger.now.kept.bits.pruned ≤ start }
    requires some { start < stop }
    requires within { stop ≤ ledger.now.kept.operations.leaves }
    ensures { (log : List meaning.Operation) → let setting = setting_of_width F.merge_rule H.hash_of N in
        IsLedgerOf setting (format_of (K.after tt) (V.after tt) K.SIZE V.SIZE) log ledger.now
        → OnOk result (out.new.items ≡ out.old.items ++ flat_map (λ chunk. chunk)
        (chunks_over setting (state_of_history K.SIZE V.SIZE (history_of log)) start stop)) }
{
    ledger.holds_a_history();
    let (_, current) = ledger.parts();
    let size = chunk_size::<N>();
    let first = size.index_of(start);
    let end = size.index_of(stop - 1) + 1;
    for chunk in first..end {
        out.extend_from_slice(current.chunk(chunk))?;
    }
    Ok(())
}

// The honest bytes that prove the operation at a location active. It fails only when out of memory.
pub(crate) fn operation_bytes<F, H, K, V, const N: usize>(
    ledger: &Ledger<F, H, K, V, N>,
    location: u64,
) -> Result<Vec<u8>, AllocError>
where
    F: Graftable + PendingOf<H::Digest>,
    H: HashFunction,
    K: FixedKey,
    V: FixedValue,
    requires kept { 8 * N * ledger.now.kept.bits.pruned ≤ location }
    requires within { location < ledger.now.kept.operations.leaves }
    ensures { (log : List meaning.Operation) → let setting = setting_of_width F.merge_rule H.hash_of N in
        IsLedgerOf setting (format_of (K.after tt) (V.after tt) K.SIZE V.SIZE) log ledger.now
        → IfOk result (λ bytes. bytes.items
        ≡ honest_operation F.pending_encoding setting K.SIZE V.SIZE (history_of log) location) }
{
    let alloc = ledger.allocator();
    let (_, current) = ledger.parts();
    let proof = operation_proof(alloc, current, location as usize)?;
    let mut bytes = Vec::new(alloc);
    proof.write(&mut bytes)?;
    Ok(bytes)
}

// The honest proof over the operations from `start` up to `stop`. It fails only when out of memory.
fn proof_between<F, H, K, V, const N: usize>(
    ledger: &Ledger<F, H, K, V, N>,
    start: u64,
    stop: u64,
) -> Result<RangeProof<F, H::Digest>, AllocError>
where
    F: Graftable + PendingOf<H::Digest>,
    H: HashFunction,
    K: FixedKey,
    V: FixedValue,
    requires kept { 8 * N * ledger.now.kept.bits.pruned ≤ start }
    requires some { start < stop }
    requires within { stop ≤ ledger.now.kept.operations.leaves }
    ensures { (log : List meaning.Operation) → let setting = setting_of_width F.merge_rule H.hash_of N in
        IsLedgerOf setting (format_of (K.after tt) (V.after tt) K.SIZE V.SIZE) log ledger.now
        → IfOk result (λ proof. range_parts_of H.Digest.encoding F.held proof
        ≡ honest_range setting (state_of_history K.SIZE V.SIZE (history_of log)) start stop) }
{
    let (_, current) = ledger.parts();
    match range_proof(
        ledger.allocator(),
        current,
        Location::new(start)..Location::new(stop),
    ) {
        Ok(proof) => Ok(proof),
        Err(error) => Err(key::out_of_memory(error)),
    }
}

// The honest bytes that prove the operations from `start` up to `stop` and their activity bits. It fails only when
// out of memory.
pub(crate) fn range_bytes<F, H, K, V, const N: usize>(
    ledger: &Ledger<F, H, K, V, N>,
    start: u64,
    stop: u64,
) -> Result<Vec<u8>, AllocError>
where
    F: Graftable + PendingOf<H::Digest>,
    H: HashFunction,
    K: FixedKey,
    V: FixedValue,
    requires kept { 8 * N * ledger.now.kept.bits.pruned ≤ start }
    requires some { start < stop }
    requires within { stop ≤ ledger.now.kept.operations.leaves }
    ensures { (log : List meaning.Operation) → let setting = setting_of_width F.merge_rule H.hash_of N in
        IsLedgerOf setting (format_of (K.after tt) (V.after tt) K.SIZE V.SIZE) log ledger.now
        → IfOk result (λ bytes. bytes.items
        ≡ honest_range_bytes F.pending_encoding setting K.SIZE V.SIZE (history_of log) start stop) }
{
    let proof = proof_between(ledger, start, stop)?;
    let mut bytes = Vec::new(ledger.allocator());
    proof.write(&mut bytes)?;
    write_chunks(ledger, start, stop, &mut bytes)?;
    Ok(bytes)
}

// The proof over the operations from `start` up to `stop` in the tree of the operations. It fails only when out of
// memory.
fn log_proof_between<F, H, K, V, const N: usize>(
    ledger: &Ledger<F, H, K, V, N>,
    start: u64,
    stop: u64,
) -> Result<LogProof<F, H::Digest>, AllocError>
where
    F: Graftable + PendingOf<H::Digest>,
    H: HashFunction,
    K: FixedKey,
    V: FixedValue,
    requires kept { 8 * N * ledger.now.kept.bits.pruned ≤ start }
    requires some { start < stop }
    requires within { stop ≤ ledger.now.kept.operations.leaves }
    ensures { (log : List meaning.Operation) → let setting = setting_of_width F.merge_rule H.hash_of N in
        IsLedgerOf setting (format_of (K.after tt) (V.after tt) K.SIZE V.SIZE) log ledger.now
        → let state = state_of_history K.SIZE V.SIZE (history_of log) in IfOk result (λ proof.
        (proof.leaves ≡ length state.operations) × (proof.inactive_peaks ≡ log_inactive setting state)
        × (map H.Digest.encoding proof.digests.items ≡ log_digests setting state start stop)) }
{
    let (_, current) = ledger.parts();
    match log_proof(
        ledger.allocator(),
        current,
        Location::new(start)..Location::new(stop),
    ) {
        Ok(proof) => Ok(proof),
        Err(error) => Err(kept::out_of_memory(error)),
    }
}

// The honest bytes that prove that the operations from `start` up to `stop` stand in the log. It fails only when
// out of memory.
pub(crate) fn slice_bytes<F, H, K, V, const N: usize>(
    ledger: &Ledger<F, H, K, V, N>,
    start: u64,
    stop: u64,
) -> Result<Vec<u8>, AllocError>
where
    F: Graftable + PendingOf<H::Digest>,
    H: HashFunction,
    K: FixedKey,
    V: FixedValue,
    requires kept { 8 * N * ledger.now.kept.bits.pruned ≤ start }
    requires some { start < stop }
    requires within { stop ≤ ledger.now.kept.operations.leaves }
    ensures { (log : List meaning.Operation) → let setting = setting_of_width F.merge_rule H.hash_of N in
        IsLedgerOf setting (format_of (K.after tt) (V.after tt) K.SIZE V.SIZE) log ledger.now
        → IfOk result (λ bytes. bytes.items
        ≡ honest_slice_bytes F.pending_encoding setting K.SIZE V.SIZE (history_of log) start stop) }
{
    let proof = log_proof_between(ledger, start, stop)?;
    let mut bytes = Vec::new(ledger.allocator());
    let (_, current) = ledger.parts();
    witness(current).write(&mut bytes)?;
    proof.write(&mut bytes)?;
    Ok(bytes)
}
