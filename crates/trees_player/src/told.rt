//! Values as the words of an answer.

use crate::stop::{Answer, Stop};
use crate::words::Hash;
use merkle_core::Proof;
use merkle_core::error::Error;
use merkle_forest::codec::Encode;
use merkle_forest::{Family, Position};
use std::alloc::{AllocError, Global};
use std::fmt::Display;

/// The answer of a call that has nothing to answer.
pub fn ok(alloc: Global) -> Answer {
    shown(alloc, "ok")
}

/// The answer of a call that has nothing to answer, or its refusal.
pub fn done<F: Family>(alloc: Global, done: Result<(), Error<F>>) -> Answer {
    match done {
        Ok(()) => ok(alloc),
        Err(error) => Err(Stop::from(error)),
    }
}

/// A value as it is printed.
pub fn shown<T: Display + Drop>(alloc: Global, value: T) -> Answer {
    Ok(value.to_string(alloc)?)
}

/// A digest.
pub fn digest(alloc: Global, digest: &Hash) -> Answer {
    Ok(hex::encode(alloc, digest.as_bytes())?)
}

/// A digest, if there is one.
pub fn some_digest(alloc: Global, found: Option<Hash>) -> Answer {
    match found {
        Some(found) => digest(alloc, &found),
        None => shown(alloc, "none"),
    }
}

/// A root, or the refusal to tell it.
pub fn root<F: Family>(alloc: Global, root: Result<Hash, Error<F>>) -> Answer {
    match root {
        Ok(root) => digest(alloc, &root),
        Err(error) => Err(Stop::from(error)),
    }
}

/// Words that are joined by spaces. Where there is no memory for one, the line has no text.
#[derive(Drop)]
pub struct Line {
    alloc: Global,
    text: String,
    is_cut: bool,
}

// Adds a word to the text, after a space where it is not the first.
fn append(text: &mut String, word: &str) -> Result<(), AllocError> {
    if !text.is_empty() {
        text.push_str(" ")?;
    }
    text.push_str(word)
}

impl Line {
    pub fn new(alloc: Global) -> Line {
        Line {
            alloc,
            text: String::new(alloc),
            is_cut: false,
        }
    }

    // Adds what is printed of a word, if there was memory for it.
    fn add(&mut self, word: Result<String, AllocError>) {
        match word {
            Ok(word) => self.word(&word),
            Err(_) => self.is_cut = true,
        }
    }

    pub fn word(&mut self, word: &str) {
        if append(&mut self.text, word).is_err() {
            self.is_cut = true;
        }
    }

    pub fn number(&mut self, number: u64) {
        self.add(number.to_string(self.alloc));
    }

    pub fn bytes(&mut self, bytes: &[u8]) {
        match hex::encode(self.alloc, bytes) {
            Ok(word) => self.word(&word),
            Err(_) => self.is_cut = true,
        }
    }

    pub fn encoding<T: Encode>(&mut self, value: &T) {
        match value.encode(self.alloc) {
            Ok(bytes) => self.bytes(&bytes),
            Err(_) => self.is_cut = true,
        }
    }

    pub fn positions<F: Family>(&mut self, positions: &[Position<F>]) {
        for position in positions {
            self.number(position.as_u64());
        }
    }

    pub fn digests(&mut self, digests: &[Hash]) {
        for digest in digests {
            self.bytes(digest.as_bytes());
        }
    }

    /// The words of the line, or `none` where it has none.
    pub fn text(self) -> Answer {
        if self.is_cut {
            return Err(Stop::Memory);
        }
        if self.text.is_empty() {
            return shown(self.alloc, "none");
        }
        Ok(self.text)
    }
}

/// Positions.
pub fn positions<F: Family>(alloc: Global, positions: &[Position<F>]) -> Answer {
    let mut line = Line::new(alloc);
    line.positions(positions);
    line.text()
}

/// A number, and then positions.
pub fn number_and_positions<F: Family>(
    alloc: Global,
    number: u64,
    positions: &[Position<F>],
) -> Answer {
    let mut line = Line::new(alloc);
    line.number(number);
    line.positions(positions);
    line.text()
}

/// Digests.
pub fn digests(alloc: Global, digests: &[Hash]) -> Answer {
    let mut line = Line::new(alloc);
    line.digests(digests);
    line.text()
}

/// Nodes, each as its position and its digest.
pub fn nodes<F: Family>(alloc: Global, nodes: &[(Position<F>, Hash)]) -> Answer {
    let mut line = Line::new(alloc);
    for (position, digest) in nodes {
        line.number(position.as_u64());
        line.bytes(digest.as_bytes());
    }
    line.text()
}

/// The leaves of a proof, its inactive peaks and its digests.
pub fn proof<F: Family>(alloc: Global, proof: &Proof<F, Hash>) -> Answer {
    let mut line = Line::new(alloc);
    line.number(proof.leaves.as_u64());
    line.number(proof.inactive_peaks);
    line.digests(&proof.digests);
    line.text()
}
