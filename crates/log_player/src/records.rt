//! Logs as bytes.

use crate::entries::{Entry, Name, entry, texts};
use crate::refusals;
use auth_store_log::encoding::record_bytes;
use auth_store_log::operations_of;
use auth_store_log::records::{committed_len, record_len, records_in};
use case_lines::{Unanswered, bytes, digits};
use merkle_forest::mmr;
use std::alloc::Global;

// The operations that bytes are the log of.
fn read(alloc: Global, bytes: &[u8]) -> Result<String, Unanswered> {
    match operations_of::<mmr::Family, Name, u64>(alloc, bytes) {
        Ok(log) => Ok(texts(alloc, &log.operations)?),
        Err(error) => refusals::of_log(alloc, error),
    }
}

/// What is answered of bytes and of records.
pub fn answer(alloc: Global, words: &[&str]) -> Result<String, Unanswered> {
    match words {
        ["read", digits] => read(alloc, &bytes(alloc, digits)?),
        ["len"] => Ok(format!(in alloc; "{}", record_len::<Name, u64>())?),
        ["in", count] => {
            let count = records_in::<Name, u64>(count.parse()?);
            Ok(format!(in alloc; "{count}")?)
        }
        ["of", words @ ..] => {
            let entry: Entry = entry(words)?;
            digits(alloc, &record_bytes(alloc, &entry)?)
        }
        ["committed", digits] => {
            let bytes = bytes(alloc, digits)?;
            match committed_len::<mmr::Family, Name, u64>(alloc, &bytes) {
                Ok(count) => Ok(format!(in alloc; "{count}")?),
                Err(error) => refusals::of_disk(alloc, error),
            }
        }
        _ => Err(Unanswered::BadLine),
    }
}
