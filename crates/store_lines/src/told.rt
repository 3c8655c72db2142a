//! Answers of a session, as words.

use crate::refusals;
use crate::words::{Name, Root};
use auth_store_proving::{KeyProof, ProvedOperation, ProvedRange, ProvedSlice};
use auth_store_session::Answer;
use case_lines::Unanswered;
use merkle_forest::Family;
use merkle_forest::digest::Digest;
use state_ops::OrderedOperation;
use std::alloc::Global;

/// What a session, or a store, answers.
pub type Told<F> = Answer<F, Root, Name, u64>;

/// An answer as words.
pub fn told<F: Family>(alloc: Global, answer: &Told<F>) -> Result<String, Unanswered> {
    let word = match answer {
        Answer::Opened => "opened",
        Answer::Closed => "closed",
        Answer::Crashed => "crashed",
        Answer::Set => "set",
        Answer::NotOpen => "not open",
        Answer::StillOpen => "still open",
        Answer::Value(None) => "none",
        answer => return carrying(alloc, answer),
    };
    Ok(word.to_string(alloc)?)
}

// Operations one behind the other, `, ` between two of them.
fn operations<F: Family>(
    alloc: Global,
    operations: &[OrderedOperation<F, Name, u64>],
) -> Result<String, Unanswered> {
    let mut line = String::new(alloc);
    for operation in operations {
        if !line.is_empty() {
            line.push_str(", ")?;
        }
        let text = format!(in alloc; "{operation}")?;
        line.push_str(text.as_str())?;
    }
    Ok(line)
}

// Bits one behind the other.
fn bits(alloc: Global, bits: &[bool]) -> Result<String, Unanswered> {
    let mut line = String::new(alloc);
    for bit in bits {
        line.push_str(if *bit { "1" } else { "0" })?;
    }
    Ok(line)
}

// An operation and its proof.
fn operation<F: Family>(
    alloc: Global,
    proved: &ProvedOperation<F, Name, u64>,
) -> Result<String, Unanswered> {
    let digits = hex::encode(alloc, proved.bytes.as_slice())?;
    let operation = &proved.operation;
    Ok(format!(in alloc; "{operation}; {digits}")?)
}

// Operations, their activity bits and the proof of both.
fn range<F: Family>(
    alloc: Global,
    proved: &ProvedRange<F, Name, u64>,
) -> Result<String, Unanswered> {
    let operations = operations(alloc, &proved.operations)?;
    let bits = bits(alloc, &proved.active)?;
    let digits = hex::encode(alloc, proved.bytes.as_slice())?;
    Ok(format!(in alloc; "{operations}; {bits}; {digits}")?)
}

// Operations and the proof that the log has them.
fn slice<F: Family>(
    alloc: Global,
    proved: &ProvedSlice<F, Name, u64>,
) -> Result<String, Unanswered> {
    let operations = operations(alloc, &proved.operations)?;
    let digits = hex::encode(alloc, proved.bytes.as_slice())?;
    Ok(format!(in alloc; "{operations}; {digits}")?)
}

// An answer that carries something, as words.
fn carrying<F: Family>(alloc: Global, answer: &Told<F>) -> Result<String, Unanswered> {
    match answer {
        Answer::Committed(root) | Answer::Root(root) => Ok(hex::encode(alloc, root.as_bytes())?),
        Answer::Value(Some(number))
        | Answer::Commits(number)
        | Answer::Floor(number)
        | Answer::Len(number)
        | Answer::Pruned(number) => Ok(format!(in alloc; "{number}")?),
        Answer::Proof(KeyProof::Value(value, proof)) => {
            let digits = hex::encode(alloc, proof.as_slice())?;
            Ok(format!(in alloc; "{value} {digits}")?)
        }
        Answer::Proof(KeyProof::Absent(proof)) => {
            let digits = hex::encode(alloc, proof.as_slice())?;
            Ok(format!(in alloc; "absent {digits}")?)
        }
        Answer::Operation(proved) => operation(alloc, proved),
        Answer::Range(proved) => range(alloc, proved),
        Answer::Slice(proved) => slice(alloc, proved),
        Answer::Refused(error) => refusals::of_store(alloc, *error),
        _ => Err(Unanswered::BadLine),
    }
}

/// Answers one behind the other, `, ` between two of them.
pub fn all_told<F: Family>(alloc: Global, answers: &[Told<F>]) -> Result<String, Unanswered> {
    let mut line = String::new(alloc);
    for answer in answers {
        if !line.is_empty() {
            line.push_str(", ")?;
        }
        line.push_str(told(alloc, answer)?.as_str())?;
    }
    Ok(line)
}
