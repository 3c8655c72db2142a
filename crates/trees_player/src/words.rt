//! The words of a line as values.

use crate::stop::Stop;
use merkle_forest::codec::FixedBytes;
use merkle_forest::{Family, Location, Position};
use std::alloc::Global;

/// The digests of the trees.
pub type Hash = FixedBytes<32>;

/// The digest of these digits.
pub fn digest(digits: &str) -> Result<Hash, Stop> {
    let mut bytes = [0; 32];
    hex::decode_to_slice(digits, &mut bytes)?;
    Ok(FixedBytes::new(bytes))
}

/// The digest of each word.
pub fn digests(alloc: Global, words: &[&str]) -> Result<Vec<Hash>, Stop> {
    let mut found = Vec::new(alloc);
    for word in words {
        found.push(digest(word)?)?;
    }
    Ok(found)
}

/// The number of each word.
pub fn numbers(alloc: Global, words: &[&str]) -> Result<Vec<u64>, Stop> {
    let mut found = Vec::new(alloc);
    for word in words {
        found.push(word.parse()?)?;
    }
    Ok(found)
}

/// The location of this number.
pub fn location<F: Family>(word: &str) -> Result<Location<F>, Stop> {
    Ok(Location::new(word.parse()?))
}

/// The location of each number.
pub fn locations<F: Family>(alloc: Global, numbers: &[u64]) -> Result<Vec<Location<F>>, Stop> {
    let mut found = Vec::new(alloc);
    for number in numbers {
        found.push(Location::new(*number))?;
    }
    Ok(found)
}

/// The position of this number.
pub fn position<F: Family>(word: &str) -> Result<Position<F>, Stop> {
    Ok(Position::new(word.parse()?))
}

/// The element of each word.
pub fn elements(alloc: Global, words: &[&str]) -> Result<Vec<Vec<u8>>, Stop> {
    let mut found = Vec::new(alloc);
    for word in words {
        found.push(case_lines::bytes(alloc, word)?)?;
    }
    Ok(found)
}

/// The bytes of each element.
pub fn slices<'a>(alloc: Global, elements: &'a [Vec<u8>]) -> Result<Vec<&'a [u8]>, Stop> {
    let mut found = Vec::new(alloc);
    for element in elements {
        found.push(element.as_slice())?;
    }
    Ok(found)
}

/// The words before the first `/`, and those after it.
pub fn two_lists<'a, 'b>(words: &'a [&'b str]) -> Result<(&'a [&'b str], &'a [&'b str]), Stop> {
    let place = words
        .iter()
        .position(|word| *word == "/")
        .ok_or(Stop::BadLine)?;
    let (before, rest) = words.split_at(place);
    match rest {
        [_, after @ ..] => Ok((before, after)),
        [] => Err(Stop::BadLine),
    }
}
