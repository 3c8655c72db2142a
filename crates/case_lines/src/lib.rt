//! Cases as lines of text: what the players of the layers read, and how they answer.
//!
//! A case is a few lines that a person can read and write:
//!
//! ```text
//! case one leaf             a case begins: all that was made before is let go, and the line is printed again
//! add 01                    a call a line, its arguments as words, numbers and hex digits (`-`: no bytes)
//! # why                     a comment; neither it nor an empty line is answered
//! hop                       a line that asks for nothing known, which is answered `bad line`
//! ```
#![tactic(auto)]

use std::alloc::{AllocError, AllocFailed, Global};
use std::num::ParseIntError;

/// Why a line has no answer.
#[derive(Debug, Drop, thiserror::Error)]
pub enum Unanswered {
    /// It asks for nothing known, or a word of it is no number or no hex digits: `bad line` is printed.
    #[error("bad line")]
    BadLine,

    /// No memory is left for it, with which the program ends.
    #[error("out of memory")]
    Memory,
}

impl From<AllocError> for Unanswered {
    fn from(_error: AllocError) -> Unanswered {
        Unanswered::Memory
    }
}

impl<T: Drop> From<AllocFailed<T>> for Unanswered {
    fn from(_error: AllocFailed<T>) -> Unanswered {
        Unanswered::Memory
    }
}

impl From<ParseIntError> for Unanswered {
    fn from(_error: ParseIntError) -> Unanswered {
        Unanswered::BadLine
    }
}

impl From<hex::FromHexError> for Unanswered {
    fn from(error: hex::FromHexError) -> Unanswered {
        match error {
            hex::FromHexError::OutOfMemory => Unanswered::Memory,
            _ => Unanswered::BadLine,
        }
    }
}

/// What plays the cases of a layer.
pub trait Player: Drop + Sized {
    /// What a case begins with.
    fn begin(alloc: Global) -> Result<Self, Unanswered>;

    /// Makes the call that these words ask for, and gives its answer, a line. A refusal is its number, and then what it
    /// carries. It gives `Err` where the words ask for nothing known, or there is no memory for the answer.
    fn answer(&mut self, alloc: Global, words: &[&str]) -> Result<String, Unanswered>;
}

/// The bytes of these digits, or of none (`-`). `Err` where they are no hex digits, two a byte, or there is no memory.
pub fn bytes(alloc: Global, digits: &str) -> Result<Vec<u8>, Unanswered> {
    match digits {
        "-" => Ok(Vec::new(alloc)),
        _ => Ok(hex::decode(alloc, digits)?),
    }
}

/// The digits of these bytes, or `-` where there is none. `Err` where there is no memory.
pub fn digits(alloc: Global, bytes: &[u8]) -> Result<String, Unanswered> {
    match bytes {
        [] => Ok("-".to_string(alloc)?),
        _ => Ok(hex::encode(alloc, bytes)?),
    }
}

// Plays one line, and gives what is printed for it.
fn played<P: Player>(
    alloc: Global,
    player: &mut P,
    line: &str,
) -> Result<Option<String>, Unanswered> {
    let words: Vec<&str> = line.split_whitespace().collect(alloc)?;
    match words.as_slice() {
        [] => Ok(None),
        ["case", ..] => {
            *player = P::begin(alloc)?;
            Ok(Some(line.to_string(alloc)?))
        }
        [first, ..] if first.starts_with('#') => Ok(None),
        words => match player.answer(alloc, words) {
            Ok(told) => Ok(Some(told)),
            Err(Unanswered::BadLine) => Ok(Some("bad line".to_string(alloc)?)),
            Err(Unanswered::Memory) => Err(Unanswered::Memory),
        },
    }
}

/// Plays the cases that standard input holds, and prints their answers. `Err` where reading or printing fails, or no
/// memory is left.
pub fn play<P: Player>(rt: &HostRuntime) -> anyhow::Result<()> {
    let alloc = rt.alloc();
    let mut player = P::begin(alloc)?;
    for line in rt.lines(alloc) {
        let line = line?;
        if let Some(told) = played(alloc, &mut player, line.as_str())? {
            println!(rt; "{told}")?;
        }
    }
    Ok(())
}
