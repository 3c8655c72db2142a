//! Operations of a log, as words and as text.

use auth_store_parts::script::parse_key;
use case_lines::Unanswered;
use merkle_forest::codec::FixedBytes;
use merkle_forest::{Location, mmr};
use state_ops::update::Ordered;
use state_ops::{Operation, OrderedOperation};
use std::alloc::{AllocError, Global};

/// A key.
pub type Name = FixedBytes<8>;

/// An operation of a log.
pub type Entry = OrderedOperation<mmr::Family, Name, u64>;

/// The key of these digits.
pub fn key(digits: &str) -> Result<Name, Unanswered> {
    parse_key(digits.as_bytes()).ok_or(Unanswered::BadLine)
}

/// A commit without metadata that records this floor.
pub fn commit(floor: u64) -> Entry {
    Operation::CommitFloor(None, Location::new(floor))
}

/// The operation that these words name.
pub fn entry(words: &[&str]) -> Result<Entry, Unanswered> {
    match words {
        ["delete", digits] => Ok(Operation::Delete(key(digits)?)),
        ["update", digits, value, next] => Ok(Operation::Update(Ordered {
            key: key(digits)?,
            value: value.parse()?,
            next_key: key(next)?,
        })),
        ["commit", floor] => Ok(commit(floor.parse()?)),
        ["commit", floor, metadata] => {
            let metadata = Some(metadata.parse()?);
            Ok(Operation::CommitFloor(metadata, Location::new(floor.parse()?)))
        }
        _ => Err(Unanswered::BadLine),
    }
}

/// The texts of operations, with a space between; `none` of none.
pub fn texts(alloc: Global, entries: &[Entry]) -> Result<String, AllocError> {
    let mut line = String::new(alloc);
    for entry in entries {
        if !line.is_empty() {
            line.push_str(" ")?;
        }
        let text = format!(in alloc; "{entry}")?;
        line.push_str(text.as_str())?;
    }
    if line.is_empty() {
        line.push_str("none")?;
    }
    Ok(line)
}
