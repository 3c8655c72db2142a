//! The records of a log: operations of one size.

ghost use Rattle.std.specs.Prelude.{◌≡◌, ◌+◌, ◌*◌, ◌<◌, ◌≤◌, false, length, take, drop, IfOk, IfErr};
ghost use Rattle.state_ops.specs.Operation.{meaning_of};
ghost use Rattle.auth_store_parts.specs.History.{is_commit};
ghost use Rattle.auth_store_log.specs.Records as spec;
ghost use Rattle.auth_store_log.specs.Records.{format_of, record_size, committed, up_to_last, pieces};

use merkle_forest::Family;
use merkle_forest::codec::{Cursor, Error as Fault};
use paged_blob::Error;
use state_ops::ordered::read;
use state_ops::{FixedKey, FixedValue, Operation, OrderedOperation, OrderedUpdate};
use state_ops_parts::fixed::fixed_size;
use std::alloc::Global;

/// How many bytes a record has, of keys `K` and values `V`.
pub fn record_len<K: FixedKey, V: FixedValue>() -> u128
    ensures { result ≡ record_size (format_of (K.after tt) (V.after tt) K.SIZE V.SIZE) }
{
    fixed_size::<K, V, OrderedUpdate<K, V>>()
}

/// How many records so many bytes have room for.
pub fn records_in<K: FixedKey, V: FixedValue>(len: usize) -> usize
    ensures within { result * record_size (format_of (K.after tt) (V.after tt) K.SIZE V.SIZE) ≤ len }
    ensures most { len < (result + 1) * record_size (format_of (K.after tt) (V.after tt) K.SIZE V.SIZE) }
{
    let size = record_len::<K, V>();
    if (len as u128) < size {
        return 0;
    }
    len / size as usize
}

/// Whether the operation is a commit, which ends a batch.
pub fn ends_batch<F: Family, K: FixedKey, V: FixedValue>(
    operation: &OrderedOperation<F, K, V>,
) -> bool
    ensures { result ≡ is_commit (meaning_of K.encoding V.encoding operation.now) }
{
    matches!(operation, Operation::CommitFloor(_, _))
}

// Whether the bytes were refused for want of memory.
fn lacks_memory(fault: Fault) -> bool
    ensures { result ≡ false → fault ≡ Fault.Memory → ⊥ }
{
    matches!(fault, Fault::Memory)
}

// Whether a record is a commit. It fails only when out of memory.
fn is_commit<F: Family, K: FixedKey, V: FixedValue>(
    alloc: Global,
    bytes: &[u8],
) -> Result<bool, Error>
    ensures exact { IfOk result (λ is. is ≡ spec.is_commit_record (format_of (K.after tt) (V.after tt) K.SIZE V.SIZE)
        bytes.now) }
    ensures err { IfErr result (λ e. e ≡ Error.Memory) }
{
    let mut cursor = Cursor::new(bytes);
    match read::<F, K, V>(alloc, &mut cursor) {
        Ok(operation) => Ok(ends_batch(&operation)),
        Err(fault) => {
            if lacks_memory(fault) {
                return Err(Error::Memory);
            }
            Ok(false)
        }
    }
}

// One of the records of some bytes.
fn record_at(bytes: &[u8], size: usize, index: usize) -> &[u8]
    requires { (index + 1) * size ≤ length bytes.now }
    ensures { result.now ≡ take size (drop (index * size) bytes.now) }
{
    let (_, rest) = bytes.split_at(index * size);
    let (record, _) = rest.split_at(size);
    record
}

// How many of the first so many records there are up to the last commit. It fails only when out of memory.
fn last_commit<F: Family, K: FixedKey, V: FixedValue>(
    alloc: Global,
    bytes: &[u8],
    size: usize,
    count: usize,
) -> Result<usize, Error>
    requires { count * size ≤ length bytes.now }
    ensures found { IfOk result (λ n. n ≡ up_to_last
        (spec.is_commit_record (format_of (K.after tt) (V.after tt) K.SIZE V.SIZE)) (pieces size count bytes.now)) }
    ensures err { IfErr result (λ e. e ≡ Error.Memory) }
{
    let mut left = count;
    while left > 0 {
        let record = record_at(bytes, size, left - 1);
        if is_commit::<F, K, V>(alloc, record)? {
            return Ok(left);
        }
        left -= 1;
    }
    Ok(0)
}

/// How many of these bytes are committed: those up to the last of their whole records that is a commit. It fails only
/// when out of memory.
pub fn committed_len<F: Family, K: FixedKey, V: FixedValue>(
    alloc: Global,
    bytes: &[u8],
) -> Result<usize, Error>
    ensures found { IfOk result (λ n. take n bytes.now
        ≡ committed (format_of (K.after tt) (V.after tt) K.SIZE V.SIZE) bytes.now) }
    ensures within { IfOk result (λ n. n ≤ length bytes.now) }
    ensures err { IfErr result (λ e. e ≡ Error.Memory) }
{
    let size = record_len::<K, V>();
    let len = bytes.len();
    if (len as u128) < size {
        return Ok(0);
    }
    let size = size as usize;
    let count = last_commit::<F, K, V>(alloc, bytes, size, len / size)?;
    Ok(count * size)
}
