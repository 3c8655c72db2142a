//! Answers in words.

use crate::refusals::number;
use case_lines::{Unanswered, digits};
use fault_storage::Error;
use std::alloc::Global;

/// A refusal, by its number and what it carries.
pub fn refused(alloc: Global, error: Error) -> Result<String, Unanswered> {
    let (number, carried) = number(error);
    Ok(format!(in alloc; "{number}{carried}")?)
}

/// `ok`, or the refusal.
pub fn done(alloc: Global, answer: Result<(), Error>) -> Result<String, Unanswered> {
    match answer {
        Ok(()) => Ok("ok".to_string(alloc)?),
        Err(error) => refused(alloc, error),
    }
}

/// The bytes, or the refusal.
pub fn bytes(alloc: Global, answer: Result<Vec<u8>, Error>) -> Result<String, Unanswered> {
    match answer {
        Ok(bytes) => digits(alloc, &bytes),
        Err(error) => refused(alloc, error),
    }
}

/// The names, a space between two of them and `none` where there is none, or the refusal.
pub fn names(alloc: Global, answer: Result<Vec<Vec<u8>>, Error>) -> Result<String, Unanswered> {
    let names = match answer {
        Ok(names) => names,
        Err(error) => return refused(alloc, error),
    };
    if names.is_empty() {
        return Ok("none".to_string(alloc)?);
    }
    let mut text = String::new(alloc);
    for name in names.iter() {
        if !text.is_empty() {
            text.push_str(" ")?;
        }
        text.push_str(digits(alloc, name)?.as_str())?;
    }
    Ok(text)
}

/// The word of a truth value.
pub fn truth(alloc: Global, holds: bool) -> Result<String, Unanswered> {
    Ok(if holds { "true" } else { "false" }.to_string(alloc)?)
}
