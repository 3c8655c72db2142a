//! What the words of a line stand for, and how answers are written.

use crate::refusals::Refusal;
use case_lines::{Unanswered, bytes, digits};
use merkle_forest::Bagging;
use merkle_forest::codec::{Encode, FixedBytes};
use std::alloc::{AllocError, Global};
use std::fmt::Display;

/// A digest of a tree.
pub(crate) type Hash = FixedBytes<32>;

/// The answer to a line.
pub(crate) type Answer = Result<String, Unanswered>;

/// A value as it is printed.
pub(crate) fn shown<T: Display + Drop>(alloc: Global, value: T) -> Answer {
    Ok(value.to_string(alloc)?)
}

/// The answer of a call with nothing to answer.
pub(crate) fn done(alloc: Global) -> Answer {
    shown(alloc, "ok")
}

/// The answer of a call with nothing to answer, if it could be made.
pub(crate) fn done_if(alloc: Global, made: Result<(), Unanswered>) -> Answer {
    match made {
        Ok(()) => done(alloc),
        Err(why) => Err(why),
    }
}

/// The answer of a call that was refused.
pub(crate) fn refused(alloc: Global, refusal: Refusal) -> Answer {
    match refusal.carried {
        Some(carried) => numbered(alloc, refusal.number, carried),
        None => shown(alloc, refusal.number),
    }
}

/// A refusal's number, and what it carries.
pub(crate) fn numbered(alloc: Global, number: &str, carried: u64) -> Answer {
    Ok(format!(in alloc; "{number} {carried}")?)
}

/// Whether something holds.
pub(crate) fn truth(alloc: Global, holds: bool) -> Answer {
    shown(alloc, holds)
}

/// Whether something holds, if that is known.
pub(crate) fn truth_if(alloc: Global, holds: Result<bool, AllocError>) -> Answer {
    truth(alloc, holds?)
}

/// Whether a bit is set, if it is there.
pub(crate) fn bit_told(alloc: Global, bit: Option<bool>) -> Answer {
    match bit {
        Some(bit) => truth(alloc, bit),
        None => Err(Unanswered::BadLine),
    }
}

/// A chunk, if it is there.
pub(crate) fn chunk_told<const N: usize>(alloc: Global, chunk: Option<[u8; N]>) -> Answer {
    match chunk {
        Some(chunk) => array_digits(alloc, chunk),
        None => Err(Unanswered::BadLine),
    }
}

/// A number.
pub(crate) fn number(alloc: Global, number: u64) -> Answer {
    shown(alloc, number)
}

/// A digest.
pub(crate) fn digest_told(alloc: Global, digest: &Hash) -> Answer {
    Ok(hex::encode(alloc, digest.as_bytes())?)
}

/// A digest, or its absence.
pub(crate) fn digest_or_none(alloc: Global, digest: Option<Hash>) -> Answer {
    match digest {
        Some(digest) => digest_told(alloc, &digest),
        None => shown(alloc, "none"),
    }
}

/// The encoding of a value.
pub(crate) fn encoded<T: Encode>(alloc: Global, value: &T) -> Answer {
    digits(alloc, &value.encode(alloc)?)
}

/// Puts an item behind a list.
pub(crate) fn keep<T: Drop>(list: &mut Vec<T>, item: T) -> Result<(), AllocError> {
    Ok(list.push(item)?)
}

/// Words with something between two of them. Where one of them is missing, so is the line.
#[derive(Drop)]
pub(crate) struct Line {
    alloc: Global,
    between: &'static str,
    text: String,
    missing: Option<Unanswered>,
}

// Puts a word behind those that a text has already.
fn append(text: &mut String, between: &str, word: &str) -> Result<(), AllocError> {
    if !text.is_empty() {
        text.push_str(between)?;
    }
    text.push_str(word)
}

impl Line {
    /// No words yet, which will have spaces between them.
    pub(crate) fn new(alloc: Global) -> Line {
        Line::with(alloc, " ")
    }

    /// No words yet, which will have this between them.
    pub(crate) fn with(alloc: Global, between: &'static str) -> Line {
        Line {
            alloc,
            between,
            text: String::new(alloc),
            missing: None,
        }
    }

    /// Adds what is said, if it could be.
    pub(crate) fn say(&mut self, said: Answer) {
        match said {
            Ok(word) => self.word(&word),
            Err(why) => self.miss(why),
        }
    }

    /// Adds a word.
    pub(crate) fn word(&mut self, word: &str) {
        if append(&mut self.text, self.between, word).is_err() {
            self.miss(Unanswered::Memory);
        }
    }

    /// Adds a number.
    pub(crate) fn number(&mut self, number: u64) {
        self.say(shown(self.alloc, number));
    }

    /// Adds a number, if something shows it.
    pub(crate) fn number_if(&mut self, number: u64, shows: Result<bool, AllocError>) {
        match shows {
            Ok(true) => self.number(number),
            Ok(false) => {}
            Err(_) => self.miss(Unanswered::Memory),
        }
    }

    // A word is missing, for this reason.
    fn miss(&mut self, why: Unanswered) {
        self.missing = Some(why);
    }

    /// All of them.
    pub(crate) fn text(self) -> Answer {
        match self.missing {
            Some(why) => Err(why),
            None => Ok(self.text),
        }
    }

    /// All of them, or `none`.
    pub(crate) fn text_or_none(self) -> Answer {
        let mut line = self;
        if line.text.is_empty() {
            line.word("none");
        }
        line.text()
    }
}

/// Digests, with commas between them, or `none`.
pub(crate) fn digest_list(alloc: Global, digests: &[Hash]) -> Answer {
    let mut line = Line::with(alloc, ",");
    for digest in digests {
        line.say(digest_told(alloc, digest));
    }
    line.text_or_none()
}

/// Bytes of each, with commas between them, or `none`.
pub(crate) fn bytes_list(alloc: Global, items: &[Vec<u8>]) -> Answer {
    let mut line = Line::with(alloc, ",");
    for item in items {
        line.say(digits(alloc, item));
    }
    line.text_or_none()
}

/// Numbers, with spaces between them, or `none`.
pub(crate) fn numbers_told(alloc: Global, numbers: &[u64]) -> Answer {
    let mut line = Line::new(alloc);
    for number in numbers {
        line.number(*number);
    }
    line.text_or_none()
}

/// The digits of an array, or `-` where it is empty.
pub(crate) fn array_digits<const N: usize>(alloc: Global, array: [u8; N]) -> Answer {
    digits(alloc, &Vec::from_array(alloc, array)?)
}

/// As many bytes as an array has.
pub(crate) fn array<const N: usize>(word: &str) -> Result<[u8; N], Unanswered> {
    let mut bytes = [0; N];
    hex::decode_to_slice(if word == "-" { "" } else { word }, &mut bytes)?;
    Ok(bytes)
}

/// A digest.
pub(crate) fn digest(word: &str) -> Result<Hash, Unanswered> {
    Ok(FixedBytes::new(array(word)?))
}

/// Two digests.
pub(crate) fn two_digests(one: &str, other: &str) -> Result<(Hash, Hash), Unanswered> {
    Ok((digest(one)?, digest(other)?))
}

/// The parts of a word between its commas; none of the word `none`.
pub(crate) fn parts<'a>(alloc: Global, word: &'a str) -> Result<Vec<&'a str>, Unanswered> {
    if word == "none" {
        return Ok(Vec::new(alloc));
    }
    Ok(word.split(',').collect(alloc)?)
}

/// Digests with commas between them.
pub(crate) fn digests(alloc: Global, word: &str) -> Result<Vec<Hash>, Unanswered> {
    let mut found = Vec::new(alloc);
    for part in parts(alloc, word)? {
        keep(&mut found, digest(part)?)?;
    }
    Ok(found)
}

/// Numbers with commas between them.
pub(crate) fn numbers(alloc: Global, word: &str) -> Result<Vec<u64>, Unanswered> {
    let mut found = Vec::new(alloc);
    for part in parts(alloc, word)? {
        keep(&mut found, part.parse()?)?;
    }
    Ok(found)
}

/// The number of each word.
pub(crate) fn all_numbers(alloc: Global, words: &[&str]) -> Result<Vec<u64>, Unanswered> {
    let mut found = Vec::new(alloc);
    for word in words {
        keep(&mut found, word.parse()?)?;
    }
    Ok(found)
}

/// Arrays of bytes with commas between them.
pub(crate) fn arrays<const N: usize>(
    alloc: Global,
    word: &str,
) -> Result<Vec<[u8; N]>, Unanswered> {
    let mut found = Vec::new(alloc);
    for part in parts(alloc, word)? {
        keep(&mut found, array(part)?)?;
    }
    Ok(found)
}

/// Lists of bytes with commas between them.
pub(crate) fn byte_lists(alloc: Global, word: &str) -> Result<Vec<Vec<u8>>, Unanswered> {
    let mut found = Vec::new(alloc);
    for part in parts(alloc, word)? {
        keep(&mut found, bytes(alloc, part)?)?;
    }
    Ok(found)
}

/// The bytes of each, lent.
pub(crate) fn lent<'a>(alloc: Global, items: &'a [Vec<u8>]) -> Result<Vec<&'a [u8]>, AllocError> {
    items.iter().map(|item| item.as_slice()).collect(alloc)
}

/// A bit, `0` or `1`.
pub(crate) fn bit(word: &str) -> Result<bool, Unanswered> {
    match word {
        "0" => Ok(false),
        "1" => Ok(true),
        _ => Err(Unanswered::BadLine),
    }
}

/// So many bits, which repeat those of a word.
pub(crate) fn bits(alloc: Global, word: &str, count: usize) -> Result<Vec<bool>, Unanswered> {
    let pattern = word.as_bytes();
    let length = pattern.len();
    let mut found = Vec::new(alloc);
    if length == 0 {
        return Err(Unanswered::BadLine);
    }
    for index in 0..count {
        match pattern.get(index % length).copied() {
            Some(b'0') => keep(&mut found, false)?,
            Some(b'1') => keep(&mut found, true)?,
            _ => return Err(Unanswered::BadLine),
        }
    }
    Ok(found)
}

/// How peaks are folded.
pub(crate) fn bagging(word: &str) -> Result<Bagging, Unanswered> {
    match word {
        "forward" => Ok(Bagging::ForwardFold),
        "backward" => Ok(Bagging::BackwardFold),
        _ => Err(Unanswered::BadLine),
    }
}
