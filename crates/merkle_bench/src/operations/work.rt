//! What is measured, once. Each answers a number that depends on all that was computed, or 0 when out of memory.

use merkle_forest::codec::{Cursor, Error, FixedBytes};
use merkle_forest::mmr::Family;
use state_ops::fixed::{read_operation, write_operation};
use state_ops::update::Ordered;
use state_ops::{Operation, OrderedOperation};
use std::alloc::{AllocError, Global};

/// An operation of 25 bytes.
type Change = OrderedOperation<Family, FixedBytes<8>, u64>;

fn change(key: [u8; 8], value: u64) -> Change {
    Operation::Update(Ordered {
        key: FixedBytes::new(key),
        value,
        next_key: FixedBytes::new(key),
    })
}

fn write_and_read(
    alloc: Global,
    out: &mut Vec<u8>,
    key: [u8; 8],
    value: u64,
) -> Result<u64, Error> {
    out.clear();
    write_operation(&change(key, value), out)?;
    let read: Change = read_operation(alloc, &mut Cursor::new(out))?;
    match read {
        Operation::Update(update) => Ok(update.value),
        Operation::Delete(_) | Operation::CommitFloor(_, _) => Ok(0),
    }
}

/// The value of an update that was encoded and decoded.
pub fn encode_and_decode(alloc: Global, out: &mut Vec<u8>, key: [u8; 8], value: u64) -> u64 {
    write_and_read(alloc, out, key, value).unwrap_or(0)
}

fn copy_in(out: &mut Vec<u8>, key: [u8; 8], value: u64) -> Result<(), AllocError> {
    out.clear();
    out.push(0xD2)?;
    out.extend_from_slice(&key)?;
    out.extend_from_slice(&value.to_be_bytes())?;
    out.extend_from_slice(&key)
}

fn copy_out(bytes: &[u8]) -> Option<u64> {
    let (tag, rest) = bytes.split_first_chunk::<1>()?;
    let (key, rest) = rest.split_first_chunk::<8>()?;
    let (value, rest) = rest.split_first_chunk::<8>()?;
    let (next_key, _) = rest.split_first_chunk::<8>()?;
    if tag[0] == 0xD2 && key == next_key {
        Some(u64::from_be_bytes(*value))
    } else {
        None
    }
}

/// The value of 25 bytes that were copied field by field, there and back.
pub fn copy_fields(out: &mut Vec<u8>, key: [u8; 8], value: u64) -> u64 {
    match copy_in(out, key, value) {
        Ok(()) => copy_out(out).unwrap_or(0),
        Err(_) => 0,
    }
}
