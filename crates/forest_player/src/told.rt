//! Answers and refusals in words.

use case_lines::Unanswered;
use merkle_forest::codec::Error as CodecError;
use merkle_forest::{Error, Family};
use std::alloc::Global;
use std::fmt::Display;

// A refusal's number and what it carries.
fn numbered(alloc: Global, number: &str, carried: u64) -> Result<String, Unanswered> {
    Ok(format!(in alloc; "{number} {carried}")?)
}

/// A refusal to read, by its number and what it carries.
pub fn fault(alloc: Global, error: CodecError) -> Result<String, Unanswered> {
    let number = match error {
        CodecError::EndOfBuffer => "C1",
        CodecError::ExtraData => "C2",
        CodecError::InvalidVarint => "C3",
        CodecError::InvalidBool => "C4",
        CodecError::InvalidEnum(tag) => return numbered(alloc, "C5", u64::from(tag)),
        CodecError::InvalidLength => "C6",
        CodecError::Invalid => "C7",
        CodecError::Memory => "C8",
    };
    shown(alloc, number)
}

/// A refusal of a location, a position or a root, by its number and what it carries.
pub fn refused<F: Family>(alloc: Global, error: Error<F>) -> Result<String, Unanswered> {
    let (number, carried) = match error {
        Error::NonLeaf(position) => ("M1", position.as_u64()),
        Error::PositionOverflow(position) => ("M2", position.as_u64()),
        Error::LocationOverflow(location) => ("M3", location.as_u64()),
        Error::InvalidInactivePeaks => return shown(alloc, "M16"),
    };
    numbered(alloc, number, carried)
}

/// The value in words.
pub fn shown<T: Display + Drop>(alloc: Global, value: T) -> Result<String, Unanswered> {
    Ok(value.to_string(alloc)?)
}

/// The numbers of these words.
pub fn numbers(alloc: Global, words: &[&str]) -> Result<Vec<u64>, Unanswered> {
    let mut numbers = Vec::new(alloc);
    for word in words {
        numbers.push(word.parse()?)?;
    }
    Ok(numbers)
}

/// The value, or `none`.
pub fn or_none<T: Display + Drop>(alloc: Global, value: Option<T>) -> Result<String, Unanswered> {
    match value {
        Some(value) => shown(alloc, value),
        None => shown(alloc, "none"),
    }
}

/// The word of a truth value.
pub fn truth(alloc: Global, holds: bool) -> Result<String, Unanswered> {
    shown(alloc, holds)
}

/// Words with a space between two of them, and `none` where there is none.
#[derive(Drop)]
pub struct Words {
    text: String,
}

impl Words {
    /// No words.
    pub fn new(alloc: Global) -> Words {
        Words {
            text: String::new(alloc),
        }
    }

    /// Adds a word.
    pub fn push(&mut self, word: &str) -> Result<(), Unanswered> {
        if !self.text.is_empty() {
            self.text.push_str(" ")?;
        }
        self.text.push_str(word)?;
        Ok(())
    }

    /// Adds a number.
    pub fn push_number(&mut self, alloc: Global, number: u64) -> Result<(), Unanswered> {
        self.push(number.to_string(alloc)?.as_str())
    }

    /// Adds a node: its position and its height.
    pub fn push_node(
        &mut self,
        alloc: Global,
        position: u64,
        height: u32,
    ) -> Result<(), Unanswered> {
        self.push(format!(in alloc; "{position}:{height}")?.as_str())
    }

    /// All of them.
    pub fn finish(self, alloc: Global) -> Result<String, Unanswered> {
        if self.text.is_empty() {
            return Ok("none".to_string(alloc)?);
        }
        Ok(self.text)
    }
}
