//! The store's own calls: operations of 25 bytes.

use crate::Long;
use crate::operations::{self, of_words, say};
use crate::spoken::{Answer, bytes_of, fault, with_left};
use case_lines::digits;
use merkle_forest::codec::Cursor;
use merkle_forest::mmr::Family;
use state_ops::{OrderedOperation, OrderedUpdate, ordered};
use std::alloc::Global;

// The encoding of an operation.
fn encoded(alloc: Global, operation: &OrderedOperation<Family, Long, u64>) -> Answer {
    digits(alloc, &ordered::encode(alloc, operation)?)
}

// The operation at the front of some bytes, and how many are left behind it.
fn decoded(alloc: Global, words: &[&str]) -> Answer {
    let bytes = bytes_of(alloc, words)?;
    let mut cursor = Cursor::new(&bytes);
    let read: Result<OrderedOperation<Family, Long, u64>, _> = ordered::read(alloc, &mut cursor);
    match read {
        Ok(operation) => with_left(alloc, say(alloc, &operation), cursor.remaining()),
        Err(error) => fault(alloc, error),
    }
}

/// The answer to a question about operations as the store reads and writes them.
pub fn answer(alloc: Global, words: &[&str]) -> Answer {
    match words {
        ["encode", words @ ..] => encoded(alloc, &of_words(alloc, words)?),
        ["decode", words @ ..] => decoded(alloc, words),
        words => operations::answer::<OrderedUpdate<Long, u64>>(alloc, &(), words),
    }
}
