//! The openings that a device has had.

use auth_store_device::{Device, Image, Mutation, Opening};
use case_lines::{Unanswered, digits};
use paged_format::is_page_size;
use rand_pcg::Pcg32;
use std::alloc::Global;

// How many openings a device has had.
fn count(device: &Device<Pcg32>) -> u64 {
    let mut count = 0u64;
    for _opening in device.openings() {
        count = count.saturating_add(1);
    }
    count
}

// An opening by its number, the oldest's being 0.
fn opening<'a>(device: &'a Device<Pcg32>, number: &str) -> Result<Opening<'a>, Unanswered> {
    let mut before: u64 = number.parse()?;
    for opening in device.openings() {
        if before == 0 {
            return Ok(opening);
        }
        before -= 1;
    }
    Err(Unanswered::BadLine)
}

// The bytes of an image.
fn image(alloc: Global, image: &Image<'_>) -> Result<String, Unanswered> {
    digits(alloc, &image.to_vec(alloc)?)
}

// How long the pieces of an image are.
fn pieces(alloc: Global, image: &Image<'_>) -> Result<String, Unanswered> {
    let mut line = String::new(alloc);
    for piece in image.pieces() {
        if !line.is_empty() {
            line.push_str(" ")?;
        }
        line.push_str(format!(in alloc; "{}", piece.len())?.as_str())?;
    }
    if line.is_empty() {
        line.push_str("none")?;
    }
    Ok(line)
}

// A mutation as words.
fn mutation(alloc: Global, mutation: &Mutation<'_>) -> Result<String, Unanswered> {
    match mutation {
        Mutation::Write { offset, bytes } => {
            let written = digits(alloc, bytes)?;
            Ok(format!(in alloc; "write {offset} {written}")?)
        }
        Mutation::Resize { length } => Ok(format!(in alloc; "resize {length}")?),
    }
}

// The mutations before an opening.
fn mutations(alloc: Global, opening: &Opening<'_>) -> Result<String, Unanswered> {
    let mut line = String::new(alloc);
    for made in opening.mutations() {
        if !line.is_empty() {
            line.push_str(", ")?;
        }
        line.push_str(mutation(alloc, &made)?.as_str())?;
    }
    if line.is_empty() {
        line.push_str("none")?;
    }
    Ok(line)
}

// Whether an opening is by chance, in pages of so many bytes.
fn chance(alloc: Global, opening: &Opening<'_>, size: &str) -> Result<String, Unanswered> {
    let size: u32 = size.parse()?;
    if !is_page_size(size) {
        return Err(Unanswered::BadLine);
    }
    Ok(format!(in alloc; "{}", opening.by_chance(alloc, size)?)?)
}

// What is answered of an opening.
fn of_opening(alloc: Global, opening: &Opening<'_>, words: &[&str]) -> Result<String, Unanswered> {
    match words {
        ["base"] => image(alloc, &opening.base()),
        ["shown"] => image(alloc, &opening.shown()),
        ["pieces"] => pieces(alloc, &opening.shown()),
        ["mutations"] => mutations(alloc, opening),
        ["chance", size] => chance(alloc, opening, size),
        _ => Err(Unanswered::BadLine),
    }
}

/// What is answered of a device's openings.
pub fn answer(alloc: Global, device: &Device<Pcg32>, words: &[&str]) -> Result<String, Unanswered> {
    match words {
        ["openings"] => Ok(format!(in alloc; "{}", count(device))?),
        ["opening", number, words @ ..] => of_opening(alloc, &opening(device, number)?, words),
        _ => Err(Unanswered::BadLine),
    }
}
