//! The operations of a log, from its bytes.

ghost use Rattle.std.specs.Prelude.{◌≡◌, ◌+◌, ◌*◌, ◌<◌, ◌≤◌, ◌++◌, ◌⊎◌, ℕ, List, slice_get};
ghost use Rattle.std.specs.Prelude.{Some, Err, IfOk, IfErr, IfSome, OnSome, IfNone};
ghost use Rattle.paged_format.specs.Footers.{content_size};
ghost use Rattle.paged_blob_parts.specs.CachedContent.{HoldsPagesOf, KeepsOthers};
ghost use Rattle.paged_blob_parts.specs.Writers.{written, IsWriter};
ghost use Rattle.state_ops.specs.Operation.{Operation, meaning_of};
ghost use Rattle.state_ops.specs.Reading.{OperationLacks};
ghost use Rattle.auth_store_parts.specs.History as history;
ghost use Rattle.auth_store_parts.specs.Places.{places_of};
ghost use Rattle.auth_store_log.specs.Causes.{AreNamed, IsRecordCause, failures_after_reading};
ghost use Rattle.auth_store_log.specs.Records.{format_of, record_size, record_of, log_bytes, history_bytes};
ghost use Rattle.auth_store_log.specs.Records.{IsRecorded, AreRecorded, IsNoLog};

use crate::error::LogError;
use crate::records::{record_len, records_in};
use crate::replay::places_of_log;
use auth_store_parts::history::Places;
use fault_storage::Checksum;
use merkle_forest::Family;
use merkle_forest::codec::{Cursor, Error as Fault};
use paged_blob::{Blob, CacheRef, Error, Writer};
use state_ops::ordered::read;
use state_ops::{FixedKey, FixedValue, OrderedOperation};
use std::alloc::Global;

// What a fault of a record is to its log.
fn refusal_of(fault: Fault) -> LogError
    ensures corrupt { result ≡ LogError.Corrupt → fault ≡ Fault.Memory → ⊥ }
    ensures lacking { result ≡ LogError.Refused Error.Memory → fault ≡ Fault.Memory }
    ensures memory { (result ≡ LogError.Refused Error.Memory) ⊎ (result ≡ LogError.Corrupt) }
{
    match fault {
        Fault::Memory => LogError::Refused(Error::Memory),
        _ => LogError::Corrupt,
    }
}

/// The operation whose record stands at the front; the cursor is then behind it. Where none stands there: Corrupt. It
/// is out of memory only where a key or a value that stands there may take memory. After a refusal the cursor's
/// position is open.
pub fn next_operation<F: Family, K: FixedKey, V: FixedValue>(
    alloc: Global,
    cursor: &mut Cursor<'_>,
) -> Result<OrderedOperation<F, K, V>, LogError>
    ensures bytes { IfOk result (λ o. cursor.old ≡ record_of (format_of (K.after tt) (V.after tt) K.SIZE V.SIZE)
        (meaning_of K.encoding V.encoding o) ++ cursor.new) }
    ensures recorded { IfOk result (λ o. IsRecorded (format_of (K.after tt) (V.after tt) K.SIZE V.SIZE)
        (meaning_of K.encoding V.encoding o)) }
    ensures corrupt { IfErr result (λ e. e ≡ LogError.Corrupt → (operation : Operation) (rest : List ℕ)
        → IsRecorded (format_of (K.after tt) (V.after tt) K.SIZE V.SIZE) operation
        → cursor.old ≡ record_of (format_of (K.after tt) (V.after tt) K.SIZE V.SIZE) operation ++ rest → ⊥) }
    ensures lacking { IfErr result (λ e. e ≡ LogError.Refused Error.Memory → OperationLacks (K.after tt) (V.after tt)
        (K.may_lack tt) (V.may_lack tt) K.SIZE V.SIZE cursor.old) }
    ensures memory { IfErr result (λ e. (e ≡ LogError.Refused Error.Memory) ⊎ (e ≡ LogError.Corrupt)) }
{
    match read::<F, K, V>(alloc, cursor) {
        Ok(operation) => Ok(operation),
        Err(fault) => Err(refusal_of(fault)),
    }
}

// The operations whose records these bytes are, one behind the other.
fn read_all<F: Family, K: FixedKey, V: FixedValue>(
    alloc: Global,
    bytes: &[u8],
) -> Result<Vec<OrderedOperation<F, K, V>>, LogError>
    ensures bytes { IfOk result (λ log. log_bytes K.SIZE V.SIZE (history.meanings K.encoding V.encoding log.items)
        ≡ bytes.now) }
    ensures recorded { IfOk result (λ log. AreRecorded (format_of (K.after tt) (V.after tt) K.SIZE V.SIZE)
        (history.meanings K.encoding V.encoding log.items)) }
    ensures corrupt { IfErr result (λ e. e ≡ LogError.Corrupt
        → IsNoLog (format_of (K.after tt) (V.after tt) K.SIZE V.SIZE) bytes.now) }
    ensures memory { IfErr result (λ e. (e ≡ LogError.Refused Error.Memory) ⊎ (e ≡ LogError.Corrupt)) }
{
    let mut log = Vec::with_capacity(alloc, records_in::<K, V>(bytes.len()))?;
    let mut cursor = Cursor::new(bytes);
    while !cursor.is_empty() {
        let operation = next_operation(alloc, &mut cursor)?;
        log.push(operation)?;
    }
    Ok(log)
}

/// The operations of the log of a history, and where the updates stand among them that give keys their values (own).
#[derive(Drop)]
pub struct PlacedLog<F: Family, K: FixedKey, V: FixedValue> {
    /// The operations, the first of the log first.
    pub operations: Vec<OrderedOperation<F, K, V>>,
    /// The places of the keys that are there.
    pub places: Places<K>,
}

/// The operations of a log, from all of its bytes, with their places: they are the log of a history, which has states.
/// Where no history has a log of these bytes: Corrupt. Otherwise it fails only when out of memory.
pub fn operations_of<F: Family, K: FixedKey, V: FixedValue>(
    alloc: Global,
    bytes: &[u8],
) -> Result<PlacedLog<F, K, V>, LogError>
    ensures bytes { IfOk result (λ log. log_bytes K.SIZE V.SIZE
        (history.meanings K.encoding V.encoding log.operations.items) ≡ bytes.now) }
    ensures recorded { IfOk result (λ log. AreRecorded (format_of (K.after tt) (V.after tt) K.SIZE V.SIZE)
        (history.meanings K.encoding V.encoding log.operations.items)) }
    ensures whole { IfOk result (λ log. history.meanings K.encoding V.encoding log.operations.items
        ≡ history.log_of (history.history_of (history.meanings K.encoding V.encoding log.operations.items))) }
    ensures places { IfOk result (λ log. log.places
        ≡ places_of (history.meanings K.encoding V.encoding log.operations.items)) }
    ensures states { IfOk result (λ log. history.AreStates
        (history.history_of (history.meanings K.encoding V.encoding log.operations.items))) }
    ensures corrupt { IfErr result (λ e. e ≡ LogError.Corrupt → (past : history.History) → history.AreStates past
        → AreRecorded (format_of (K.after tt) (V.after tt) K.SIZE V.SIZE) (history.log_of past)
        → history_bytes (format_of (K.after tt) (V.after tt) K.SIZE V.SIZE) past ≡ bytes.now → ⊥) }
    ensures memory { IfErr result (λ e. (e ≡ LogError.Refused Error.Memory) ⊎ (e ≡ LogError.Corrupt)) }
{
    let operations = read_all(alloc, bytes)?;
    let Some(places) = places_of_log(alloc, &operations)? else {
        return Err(LogError::Corrupt);
    };
    Ok(PlacedLog { operations, places })
}

// Where the record at an index stands in a log of so many bytes, and how many bytes it has. None where the log ends
// before it does.
fn place_of<K: FixedKey, V: FixedValue>(index: u64, len: u64) -> Option<(u64, usize)>
    ensures some { IfSome result (λ place.
        (place.0 ≡ index * record_size (format_of (K.after tt) (V.after tt) K.SIZE V.SIZE))
        × (place.1 ≡ record_size (format_of (K.after tt) (V.after tt) K.SIZE V.SIZE))) }
    ensures within { OnSome result
        ((index + 1) * record_size (format_of (K.after tt) (V.after tt) K.SIZE V.SIZE) ≤ len) }
    ensures none { IfNone result
        (len < (index + 1) * record_size (format_of (K.after tt) (V.after tt) K.SIZE V.SIZE)) }
{
    let size = record_len::<K, V>();
    if size > len as u128 {
        return None;
    }
    let size = size as u64;
    let offset = index.checked_mul(size)?;
    if offset > len - size {
        return None;
    }
    Some((offset, size as usize))
}

/// The operation at an index of the log that a writer has, read through the cache. Where the log ends before it: F7.
/// Where no operation has the record that stands there: Corrupt, so that the bytes are no log. Else it is refused only
/// where a read of the blob is, or when out of memory. That the writer is that of the blob, that the cache's pages are
/// as large as its, and that those under its name are of its list is on the caller.
pub fn read_operation<F, K, V, B, C>(
    writer: &Writer<C>,
    alloc: Global,
    blob: &mut B,
    cache: &mut CacheRef,
    index: u64,
) -> Result<OrderedOperation<F, K, V>, LogError>
where
    F: Family,
    K: FixedKey,
    V: FixedValue,
    B: Blob,
    C: Checksum,
    requires writer { IsWriter C.checksum_of (B.calls blob.old) writer.now }
    requires pages { cache.old.page_size ≡ content_size writer.now.page_size }
    requires cached { HoldsPagesOf (written C.checksum_of (B.calls blob.old) writer.now) cache.old writer.now.blob_id }
    ensures operation { IfOk result (λ o. (log : List Operation)
        → AreRecorded (format_of (K.after tt) (V.after tt) K.SIZE V.SIZE) log
        → log_bytes K.SIZE V.SIZE log ≡ written C.checksum_of (B.calls blob.old) writer.now
        → slice_get log index ≡ Some (meaning_of K.encoding V.encoding o)) }
    ensures cause { IfErr result (IsRecordCause (format_of (K.after tt) (V.after tt) K.SIZE V.SIZE)
        (B.failures blob.old) writer.now.page_size writer.now.tip.offset
        (written C.checksum_of (B.calls blob.old) writer.now)
        ((index + 1) * record_size (format_of (K.after tt) (V.after tt) K.SIZE V.SIZE))) }
    ensures cached { HoldsPagesOf (written C.checksum_of (B.calls blob.old) writer.now) cache.new writer.now.blob_id }
    ensures same { cache.new ≡ record cache.old { pages = cache.new.pages } }
    ensures others { KeepsOthers cache.old cache.new writer.now.blob_id }
    ensures named { AreNamed cache.old → writer.now.blob_id < cache.old.next_id → AreNamed cache.new }
    ensures calls { B.calls blob.new ≡ B.calls blob.old }
    ensures failures { B.failures blob.new ≡ failures_after_reading result (B.failures blob.old) }
    ensures left { B.left blob.new ≤ B.left blob.old }
{
    let Some((offset, size)) = place_of::<K, V>(index, writer.size()) else {
        return Err(LogError::Refused(Error::BlobInsufficientLength));
    };
    let bytes = writer.read_at(blob, cache, offset, size)?;
    let mut cursor = Cursor::new(&bytes);
    next_operation(alloc, &mut cursor)
}
