//! Proofs of operations by their locations: of one that is active, of a range with its activity bits, and of a slice of
//! the log.

ghost use Rattle.std.specs.Prelude.{◌≡◌, ◌<◌, ◌≤◌, ◌*◌, true, List, None, Some, Ok, Err, IfOk, IfErr, IfSome, OnOk};
ghost use Rattle.std.specs.Prelude.{slice_get};
ghost use Rattle.auth_store_client.specs.Claims.{terms};
ghost use Rattle.auth_store_client.specs.Proving.{honest_operation};
ghost use Rattle.auth_store_index.specs.Refusals.{IfLog};
ghost use Rattle.auth_store_ledger.specs.History.{activity_bits, history_of};
ghost use Rattle.auth_store_proving.specs.Proving.{IsUnproved, answer_of_operation, answer_of_range, answer_of_slice};
ghost use Rattle.auth_store_proving.specs.Proving.{range_answer, range_refusal, slice_answer};
ghost use Rattle.auth_store_proving.specs.Proving.{IsAcceptedOperation, IsAcceptedRange, IsAcceptedSlice};
ghost use Rattle.auth_store_proving.specs.ProvingCode.{operation_answer_of, range_answer_of, slice_answer_of};
ghost use Rattle.auth_store_ledger.specs.Store.{IsLedgerOf, root_of_history, setting_of_width};
ghost use Rattle.auth_store_log.specs.Records.{format_of};
ghost use Rattle.state_ops.specs.Operation as meaning;
ghost use Rattle.state_ops.specs.Operation.{meaning_of};

use crate::between::{
    bits_between, is_active, kept_from, operation_bytes, range_bytes, slice_bytes,
};
use crate::error::{ProofError, Unprovable};
use crate::logged::{operations_between, read_operation};
use auth_store_client::laws::{
    honest_operations_are_shown, honest_ranges_are_shown, honest_slices_are_shown,
};
use auth_store_index::ReadError;
use auth_store_ledger::{Ledger, LoggedOperations};
use merkle_forest::{Family, Graftable, HashFunction, PendingOf};
use state_ops::{FixedKey, FixedValue, OrderedOperation};

/// An operation of the log, and the honest bytes of the proof that it is active.
#[derive(Debug, Drop)]
pub struct ProvedOperation<F: Family, K: FixedKey, V: FixedValue> {
    /// The operation.
    pub operation: OrderedOperation<F, K, V>,
    /// The bytes of its proof.
    pub bytes: Vec<u8>,
}

/// Operations of the log that follow each other, with a bit for each that says whether it is active, and the honest
/// bytes of the proof of both.
#[derive(Debug, Drop)]
pub struct ProvedRange<F: Family, K: FixedKey, V: FixedValue> {
    /// The operations, the first one first.
    pub operations: Vec<OrderedOperation<F, K, V>>,
    /// Which of them are active.
    pub active: Vec<bool>,
    /// The bytes of their proof.
    pub bytes: Vec<u8>,
}

/// Operations of the log that follow each other, and the honest bytes of the proof that the log has them.
#[derive(Debug, Drop)]
pub struct ProvedSlice<F: Family, K: FixedKey, V: FixedValue> {
    /// The operations, the first one first.
    pub operations: Vec<OrderedOperation<F, K, V>>,
    /// The bytes of their proof.
    pub bytes: Vec<u8>,
}

// Why the operation at a location is not looked at, or None where it is: the log has none there, or its chunk is
// pruned.
fn location_refusal<F, H, K, V, const N: usize>(
    ledger: &Ledger<F, H, K, V, N>,
    location: u64,
) -> Option<Unprovable>
where
    F: Graftable + PendingOf<H::Digest>,
    H: HashFunction,
    K: FixedKey,
    V: FixedValue,
    ensures refusal { (log : List meaning.Operation) → let setting = setting_of_width F.merge_rule H.hash_of N in
        IsLedgerOf setting (format_of (K.after tt) (V.after tt) K.SIZE V.SIZE) log ledger.now
        → IfSome result (λ why. answer_of_operation F.pending_encoding setting K.SIZE V.SIZE (history_of log)
        ledger.now.kept.bits.pruned location ≡ Err why) }
    ensures kept { result ≡ None → 8 * N * ledger.now.kept.bits.pruned ≤ location }
    ensures within { result ≡ None → location < ledger.now.kept.operations.leaves }
{
    if ledger.len() <= location {
        return Some(Unprovable::OutOfRange);
    }
    if location < kept_from(ledger) {
        return Some(Unprovable::Pruned);
    }
    None
}

// Why the operation at a location is not proved active, or None where it is: it is not looked at, or is not active.
fn operation_refusal<F, H, K, V, const N: usize>(
    ledger: &Ledger<F, H, K, V, N>,
    location: u64,
) -> Option<Unprovable>
where
    F: Graftable + PendingOf<H::Digest>,
    H: HashFunction,
    K: FixedKey,
    V: FixedValue,
    ensures refusal { (log : List meaning.Operation) → let setting = setting_of_width F.merge_rule H.hash_of N in
        IsLedgerOf setting (format_of (K.after tt) (V.after tt) K.SIZE V.SIZE) log ledger.now
        → IfSome result (λ why. answer_of_operation F.pending_encoding setting K.SIZE V.SIZE (history_of log)
        ledger.now.kept.bits.pruned location ≡ Err why) }
    ensures kept { result ≡ None → 8 * N * ledger.now.kept.bits.pruned ≤ location }
    ensures within { result ≡ None → location < ledger.now.kept.operations.leaves }
    ensures active { (log : List meaning.Operation) → IsLedgerOf (setting_of_width F.merge_rule H.hash_of N)
        (format_of (K.after tt) (V.after tt) K.SIZE V.SIZE) log ledger.now
        → result ≡ None → slice_get (activity_bits log) location ≡ Some true }
{
    if let Some(why) = location_refusal(ledger, location) {
        return Some(why);
    }
    if !is_active(ledger, location) {
        return Some(Unprovable::Inactive);
    }
    None
}

// The operation at a location with the honest bytes that prove it. It is refused out of memory or as the log is.
fn operation_with_proof<F, H, K, V, L, const N: usize>(
    ledger: &Ledger<F, H, K, V, N>,
    log: &mut L,
    location: u64,
) -> Result<ProvedOperation<F, K, V>, ReadError<L::Error>>
where
    F: Graftable + PendingOf<H::Digest>,
    H: HashFunction,
    K: FixedKey,
    V: FixedValue,
    L: LoggedOperations<F, K, V>,
    requires may { L.readable log.old }
    requires of { IsLedgerOf (setting_of_width F.merge_rule H.hash_of N)
        (format_of (K.after tt) (V.after tt) K.SIZE V.SIZE) (L.log log.old) ledger.now }
    requires kept { 8 * N * ledger.now.kept.bits.pruned ≤ location }
    requires within { location < ledger.now.kept.operations.leaves }
    ensures operation { IfOk result (λ proved. slice_get (L.log log.old) location
        ≡ Some (meaning_of K.encoding V.encoding proved.operation)) }
    ensures bytes { let setting = setting_of_width F.merge_rule H.hash_of N in
        IfOk result (λ proved. proved.bytes.items
        ≡ honest_operation F.pending_encoding setting K.SIZE V.SIZE (history_of (L.log log.old)) location) }
    ensures same { L.log log.new ≡ L.log log.old }
    ensures leads { OnOk result (L.leads log.old log.new) }
    ensures refused { IfErr result (IfLog (L.leads log.old log.new) (L.refuses log.old log.new)) }
{
    let operation = read_operation(log, location)?;
    let bytes = operation_bytes(ledger, location)?;
    Ok(ProvedOperation { operation, bytes })
}

// Why the operations from `start` up to `stop` are not proved, or None where they are.
fn range_refusal<F, H, K, V, const N: usize>(
    ledger: &Ledger<F, H, K, V, N>,
    start: u64,
    stop: u64,
) -> Option<Unprovable>
where
    F: Graftable + PendingOf<H::Digest>,
    H: HashFunction,
    K: FixedKey,
    V: FixedValue,
    ensures refusal { (log : List meaning.Operation) → let setting = setting_of_width F.merge_rule H.hash_of N in
        IsLedgerOf setting (format_of (K.after tt) (V.after tt) K.SIZE V.SIZE) log ledger.now
        → result ≡ range_refusal setting (history_of log) ledger.now.kept.bits.pruned start stop }
    ensures kept { result ≡ None → 8 * N * ledger.now.kept.bits.pruned ≤ start }
    ensures some { result ≡ None → start < stop }
    ensures within { result ≡ None → stop ≤ ledger.now.kept.operations.leaves }
{
    if stop <= start {
        return Some(Unprovable::EmptyRange);
    }
    if ledger.len() < stop {
        return Some(Unprovable::OutOfRange);
    }
    if start < kept_from(ledger) {
        return Some(Unprovable::Pruned);
    }
    None
}

// The operations from `start` up to `stop` with their activity bits and the proof of both.
fn range_between<F, H, K, V, L, const N: usize>(
    ledger: &Ledger<F, H, K, V, N>,
    log: &mut L,
    start: u64,
    stop: u64,
) -> Result<ProvedRange<F, K, V>, ReadError<L::Error>>
where
    F: Graftable + PendingOf<H::Digest>,
    H: HashFunction,
    K: FixedKey,
    V: FixedValue,
    L: LoggedOperations<F, K, V>,
    requires may { L.readable log.old }
    requires of { IsLedgerOf (setting_of_width F.merge_rule H.hash_of N)
        (format_of (K.after tt) (V.after tt) K.SIZE V.SIZE) (L.log log.old) ledger.now }
    requires kept { 8 * N * ledger.now.kept.bits.pruned ≤ start }
    requires some { start < stop }
    requires within { stop ≤ ledger.now.kept.operations.leaves }
    ensures range { let setting = setting_of_width F.merge_rule H.hash_of N in
        IfOk result (λ proved. range_answer_of K.encoding V.encoding proved
        ≡ range_answer F.pending_encoding setting K.SIZE V.SIZE (history_of (L.log log.old)) start stop) }
    ensures same { L.log log.new ≡ L.log log.old }
    ensures leads { OnOk result (L.leads log.old log.new) }
    ensures refused { IfErr result (IfLog (L.leads log.old log.new) (L.refuses log.old log.new)) }
{
    let operations = operations_between(ledger.allocator(), log, start, stop)?;
    let active = bits_between(ledger, start, stop)?;
    let bytes = range_bytes(ledger, start, stop)?;
    Ok(ProvedRange {
        operations,
        active,
        bytes,
    })
}

// The operations from `start` up to `stop` with the proof that the log has them.
fn slice_between<F, H, K, V, L, const N: usize>(
    ledger: &Ledger<F, H, K, V, N>,
    log: &mut L,
    start: u64,
    stop: u64,
) -> Result<ProvedSlice<F, K, V>, ReadError<L::Error>>
where
    F: Graftable + PendingOf<H::Digest>,
    H: HashFunction,
    K: FixedKey,
    V: FixedValue,
    L: LoggedOperations<F, K, V>,
    requires may { L.readable log.old }
    requires of { IsLedgerOf (setting_of_width F.merge_rule H.hash_of N)
        (format_of (K.after tt) (V.after tt) K.SIZE V.SIZE) (L.log log.old) ledger.now }
    requires kept { 8 * N * ledger.now.kept.bits.pruned ≤ start }
    requires some { start < stop }
    requires within { stop ≤ ledger.now.kept.operations.leaves }
    ensures slice { let setting = setting_of_width F.merge_rule H.hash_of N in
        IfOk result (λ proved. slice_answer_of K.encoding V.encoding proved
        ≡ slice_answer F.pending_encoding setting K.SIZE V.SIZE (history_of (L.log log.old)) start stop) }
    ensures same { L.log log.new ≡ L.log log.old }
    ensures leads { OnOk result (L.leads log.old log.new) }
    ensures refused { IfErr result (IfLog (L.leads log.old log.new) (L.refuses log.old log.new)) }
{
    let operations = operations_between(ledger.allocator(), log, start, stop)?;
    let bytes = slice_bytes(ledger, start, stop)?;
    Ok(ProvedSlice { operations, bytes })
}

/// The operation at a location with the proof that it is active: the client accepts it under the root of this
/// moment. It is refused where the log has no such operation, then where its chunk is pruned, then where it is not
/// active, before the log is read; or out of memory, or as the log is.
pub fn prove_operation<F, H, K, V, L, const N: usize>(
    ledger: &Ledger<F, H, K, V, N>,
    log: &mut L,
    location: u64,
) -> Result<ProvedOperation<F, K, V>, ProofError<L::Error>>
where
    F: Graftable + PendingOf<H::Digest>,
    H: HashFunction,
    K: FixedKey,
    V: FixedValue,
    L: LoggedOperations<F, K, V>,
    requires may { L.readable log.old }
    requires of { IsLedgerOf (setting_of_width F.merge_rule H.hash_of N)
        (format_of (K.after tt) (V.after tt) K.SIZE V.SIZE) (L.log log.old) ledger.now }
    ensures ok { let setting = setting_of_width F.merge_rule H.hash_of N in
        IfOk result (λ proved. Ok (operation_answer_of K.encoding V.encoding proved)
        ≡ answer_of_operation F.pending_encoding setting K.SIZE V.SIZE (history_of (L.log log.old))
        ledger.now.kept.bits.pruned location) }
    ensures shown { let terms = terms F.merge_rule H.hash_of N H.Digest.SIZE F.is_pending F.pending_encoding
        (K.after tt) (V.after tt) K.SIZE V.SIZE in
        let root = root_of_history (setting_of_width F.merge_rule H.hash_of N) K.SIZE V.SIZE
        (history_of (L.log log.old)) in
        IfOk result (λ proved. IsAcceptedOperation terms root location
        (operation_answer_of K.encoding V.encoding proved)) }
    ensures same { L.log log.new ≡ L.log log.old }
    ensures leads { OnOk result (L.leads log.old log.new) }
    ensures err { let setting = setting_of_width F.merge_rule H.hash_of N in
        IfErr result (IsUnproved (L.leads log.old log.new) (L.refuses log.old log.new)
        (answer_of_operation F.pending_encoding setting K.SIZE V.SIZE (history_of (L.log log.old))
        ledger.now.kept.bits.pruned location)) }
{
    honest_operations_are_shown::<F, H, K, V, N>();
    ledger.holds_a_history();
    if let Some(why) = operation_refusal(ledger, location) {
        return Err(ProofError::Unprovable(why));
    }
    Ok(operation_with_proof(ledger, log, location)?)
}

/// The operations from `start` up to `stop` with their activity bits and the proof of both: the client accepts it
/// under the root of this moment. It is refused where the range is empty, then where the log has not all of them,
/// then where the chunk over the first is pruned, before the log is read; or out of memory, or as the log is.
pub fn prove_range<F, H, K, V, L, const N: usize>(
    ledger: &Ledger<F, H, K, V, N>,
    log: &mut L,
    start: u64,
    stop: u64,
) -> Result<ProvedRange<F, K, V>, ProofError<L::Error>>
where
    F: Graftable + PendingOf<H::Digest>,
    H: HashFunction,
    K: FixedKey,
    V: FixedValue,
    L: LoggedOperations<F, K, V>,
    requires may { L.readable log.old }
    requires of { IsLedgerOf (setting_of_width F.merge_rule H.hash_of N)
        (format_of (K.after tt) (V.after tt) K.SIZE V.SIZE) (L.log log.old) ledger.now }
    ensures ok { let setting = setting_of_width F.merge_rule H.hash_of N in
        IfOk result (λ proved. Ok (range_answer_of K.encoding V.encoding proved)
        ≡ answer_of_range F.pending_encoding setting K.SIZE V.SIZE (history_of (L.log log.old))
        ledger.now.kept.bits.pruned start stop) }
    ensures shown { let terms = terms F.merge_rule H.hash_of N H.Digest.SIZE F.is_pending F.pending_encoding
        (K.after tt) (V.after tt) K.SIZE V.SIZE in
        let root = root_of_history (setting_of_width F.merge_rule H.hash_of N) K.SIZE V.SIZE
        (history_of (L.log log.old)) in
        IfOk result (λ proved. IsAcceptedRange terms root start
        (range_answer_of K.encoding V.encoding proved)) }
    ensures same { L.log log.new ≡ L.log log.old }
    ensures leads { OnOk result (L.leads log.old log.new) }
    ensures err { let setting = setting_of_width F.merge_rule H.hash_of N in
        IfErr result (IsUnproved (L.leads log.old log.new) (L.refuses log.old log.new)
        (answer_of_range F.pending_encoding setting K.SIZE V.SIZE (history_of (L.log log.old))
        ledger.now.kept.bits.pruned start stop)) }
{
    honest_ranges_are_shown::<F, H, K, V, N>();
    ledger.holds_a_history();
    if let Some(why) = range_refusal(ledger, start, stop) {
        return Err(ProofError::Unprovable(why));
    }
    Ok(range_between(ledger, log, start, stop)?)
}

/// The operations from `start` up to `stop` with the proof that the log has them: the client accepts it under the
/// root of this moment. It is refused as `prove_range` is.
pub fn prove_log<F, H, K, V, L, const N: usize>(
    ledger: &Ledger<F, H, K, V, N>,
    log: &mut L,
    start: u64,
    stop: u64,
) -> Result<ProvedSlice<F, K, V>, ProofError<L::Error>>
where
    F: Graftable + PendingOf<H::Digest>,
    H: HashFunction,
    K: FixedKey,
    V: FixedValue,
    L: LoggedOperations<F, K, V>,
    requires may { L.readable log.old }
    requires of { IsLedgerOf (setting_of_width F.merge_rule H.hash_of N)
        (format_of (K.after tt) (V.after tt) K.SIZE V.SIZE) (L.log log.old) ledger.now }
    ensures ok { let setting = setting_of_width F.merge_rule H.hash_of N in
        IfOk result (λ proved. Ok (slice_answer_of K.encoding V.encoding proved)
        ≡ answer_of_slice F.pending_encoding setting K.SIZE V.SIZE (history_of (L.log log.old))
        ledger.now.kept.bits.pruned start stop) }
    ensures shown { let terms = terms F.merge_rule H.hash_of N H.Digest.SIZE F.is_pending F.pending_encoding
        (K.after tt) (V.after tt) K.SIZE V.SIZE in
        let root = root_of_history (setting_of_width F.merge_rule H.hash_of N) K.SIZE V.SIZE
        (history_of (L.log log.old)) in
        IfOk result (λ proved. IsAcceptedSlice terms root start
        (slice_answer_of K.encoding V.encoding proved)) }
    ensures same { L.log log.new ≡ L.log log.old }
    ensures leads { OnOk result (L.leads log.old log.new) }
    ensures err { let setting = setting_of_width F.merge_rule H.hash_of N in
        IfErr result (IsUnproved (L.leads log.old log.new) (L.refuses log.old log.new)
        (answer_of_slice F.pending_encoding setting K.SIZE V.SIZE (history_of (L.log log.old))
        ledger.now.kept.bits.pruned start stop)) }
{
    honest_slices_are_shown::<F, H, K, V, N>();
    ledger.holds_a_history();
    if let Some(why) = range_refusal(ledger, start, stop) {
        return Err(ProofError::Unprovable(why));
    }
    Ok(slice_between(ledger, log, start, stop)?)
}
