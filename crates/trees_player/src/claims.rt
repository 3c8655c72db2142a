//! What a proof is to show: elements from a location on, under a root.

use crate::stop::{Stop, bad_line};
use crate::words::{self, Hash};
use merkle_forest::{Family, Location};
use std::alloc::{AllocError, Global};

/// Elements from a location on, and the root of the tree in which they are to stand.
#[derive(Drop)]
pub struct Claim<F: Family> {
    pub root: Hash,
    pub start: Location<F>,
    pub elements: Vec<Vec<u8>>,
}

impl<F: Family> Claim<F> {
    /// The claim of these words: a root, a location and elements.
    pub fn of_words(alloc: Global, words: &[&str]) -> Result<Claim<F>, Stop> {
        match words {
            [root, start, elements @ ..] => {
                Ok(Claim {
                    root: words::digest(root)?,
                    start: words::location(start)?,
                    elements: words::elements(alloc, elements)?,
                })
            }
            _ => bad_line(),
        }
    }
}

/// Elements, each with its location: words two by two, the location before the element.
pub fn located<F: Family>(
    alloc: Global,
    words: &[&str],
) -> Result<Vec<(Vec<u8>, Location<F>)>, Stop> {
    let mut found = Vec::new(alloc);
    for pair in words.chunks(2) {
        found.push(located_element(alloc, pair)?)?;
    }
    Ok(found)
}

// An element at a location.
fn located_element<F: Family>(
    alloc: Global,
    words: &[&str],
) -> Result<(Vec<u8>, Location<F>), Stop> {
    match words {
        [location, element] => {
            let location = words::location(location)?;
            Ok((case_lines::bytes(alloc, element)?, location))
        }
        _ => bad_line(),
    }
}

/// Their bytes, each with its location.
pub fn pointed<'a, F: Family>(
    alloc: Global,
    elements: &'a [(Vec<u8>, Location<F>)],
) -> Result<Vec<(&'a [u8], Location<F>)>, AllocError> {
    elements
        .iter()
        .map(|element| (element.0.as_slice(), element.1))
        .collect(alloc)
}
