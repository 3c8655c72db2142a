//! Answers in words.

use case_lines::{Unanswered, digits};
use paged_blob::{CallKind, Error};
use std::alloc::Global;

/// A refusal, by its number and what it carries.
pub fn number(error: Error) -> &'static str {
    match error {
        Error::BlobMissing => "F1",
        Error::Injected(CallKind::Read) => "F6 read",
        Error::Injected(CallKind::Write) => "F6 write",
        Error::Injected(CallKind::Sync) => "F6 sync",
        Error::Injected(CallKind::Resize) => "F6 resize",
        Error::BlobInsufficientLength => "F7",
        Error::NumberEnded => "F8",
        Error::Memory => "F9",
        Error::PowerCut => "F10",
        Error::ChecksumMismatch => "F12",
    }
}

/// Answers of one line, with a comma between two of them.
#[derive(Drop)]
pub struct Told {
    text: String,
}

impl Told {
    /// No answers yet.
    pub fn new(alloc: Global) -> Told {
        Told {
            text: String::new(alloc),
        }
    }

    /// Adds an answer.
    pub fn push(&mut self, word: &str) -> Result<(), Unanswered> {
        if !self.text.is_empty() {
            self.text.push_str(", ")?;
        }
        self.text.push_str(word)?;
        Ok(())
    }

    /// Adds a number.
    pub fn push_number(&mut self, alloc: Global, number: u64) -> Result<(), Unanswered> {
        self.push(number.to_string(alloc)?.as_str())
    }

    /// Adds bytes, or a refusal.
    pub fn push_bytes(
        &mut self,
        alloc: Global,
        answer: Result<Vec<u8>, Error>,
    ) -> Result<(), Unanswered> {
        match answer {
            Ok(bytes) => self.push(digits(alloc, &bytes)?.as_str()),
            Err(error) => self.push(number(error)),
        }
    }

    /// Adds a number that a call gave, `none` where it gave none, or a refusal.
    pub fn push_option(
        &mut self,
        alloc: Global,
        answer: Result<Option<u64>, Error>,
    ) -> Result<(), Unanswered> {
        match answer {
            Ok(Some(size)) => self.push_number(alloc, size),
            Ok(None) => self.push("none"),
            Err(error) => self.push(number(error)),
        }
    }

    /// All of them; `ok` where there is none.
    pub fn finish(self, alloc: Global) -> Result<String, Unanswered> {
        if self.text.is_empty() {
            return Ok("ok".to_string(alloc)?);
        }
        Ok(self.text)
    }
}
