//! Footers, slots, prefixes and the sizes of pages.

use case_lines::{Unanswered, bytes, digits};
use fault_storage::{Checksum, Crc32};
use merkle_forest::codec::{Decode, Encode, EncodeSize, Error};
use paged_format::{Footer, Slot, is_page_size, page_size, prefix_len};
use std::alloc::Global;

// The most bytes that the words of a line may spell.
const MOST_BYTES: usize = 1 << 20;

/// The bytes that words spell: hex digits, with `*` and a number where they are repeated.
pub fn spelled(alloc: Global, words: &[&str]) -> Result<Vec<u8>, Unanswered> {
    let mut all = Vec::new(alloc);
    for word in words {
        let (digits, times) = word.split_once("*").unwrap_or((*word, "1"));
        let piece = bytes(alloc, digits)?;
        for _ in 0..times.parse::<u32>()? {
            all.extend_from_slice(&piece)?;
            if all.len() > MOST_BYTES {
                return Err(Unanswered::BadLine);
            }
        }
    }
    Ok(all)
}

// Which slot of a page counts, and the length that it says.
fn slot(alloc: Global, page: &[u8]) -> Result<String, Unanswered> {
    if page.len() > 65536 || !is_page_size(page.len() as u32) {
        return Err(Unanswered::BadLine);
    }
    match Footer::valid_slot::<Crc32>(page) {
        Some((Slot::First, length)) => Ok(format!(in alloc; "first {length}")?),
        Some((Slot::Second, length)) => Ok(format!(in alloc; "second {length}")?),
        None => Ok("none".to_string(alloc)?),
    }
}

// The fields of a footer, or why it was refused.
fn footer(alloc: Global, bytes: &[u8]) -> Result<String, Unanswered> {
    match Footer::decode_cfg(alloc, bytes, &()) {
        Ok(footer) => {
            let Footer {
                len1,
                crc1,
                len2,
                crc2,
            } = footer;
            Ok(format!(in alloc; "{len1} {crc1} {len2} {crc2}")?)
        }
        Err(Error::EndOfBuffer) => Ok("C1".to_string(alloc)?),
        Err(Error::ExtraData) => Ok("C2".to_string(alloc)?),
        Err(_) => Ok("another refusal".to_string(alloc)?),
    }
}

/// How many bytes are recovered of a file in pages of this size.
pub fn prefix(file: &[u8], page_size: u32) -> Result<u64, Unanswered> {
    if !is_page_size(page_size) {
        return Err(Unanswered::BadLine);
    }
    Ok(prefix_len::<Crc32>(file, page_size))
}

// The checksum of the first bytes of a page; 0 of none.
fn sum(page: &[u8], length: u16) -> u32 {
    match length {
        0 => 0,
        _ => Crc32::checksum(page.get(..length as usize).unwrap_or(page)),
    }
}

/// A page of 64 bytes with the content 0, 1, 2 and so on, whose slots say these lengths, each with its checksum; 0
/// stands for a slot of zeros.
pub fn page(alloc: Global, first: u16, second: u16) -> Result<Vec<u8>, Unanswered> {
    let mut page = Vec::new(alloc);
    for byte in 0..52 {
        page.push(byte)?;
    }
    let footer = Footer {
        len1: first,
        crc1: sum(&page, first),
        len2: second,
        crc2: sum(&page, second),
    };
    page.extend_from_slice(&footer.encode(alloc)?)?;
    Ok(page)
}

/// The lengths that the two slots of a page say, the lesser first.
pub fn slot_lengths(page: &[u8]) -> (u16, u16) {
    let (_, footer) = page.split_at(page.len().saturating_sub(12));
    match footer {
        [a, b, _, _, _, _, c, d, ..] => {
            let first = u16::from_be_bytes([*a, *b]);
            let second = u16::from_be_bytes([*c, *d]);
            (first.min(second), first.max(second))
        }
        _ => (0, 0),
    }
}

/// The answer to a question about a format.
pub fn answer(alloc: Global, words: &[&str]) -> Result<String, Unanswered> {
    match words {
        ["footer", len1, crc1, len2, crc2] => {
            let footer = Footer {
                len1: len1.parse()?,
                crc1: crc1.parse()?,
                len2: len2.parse()?,
                crc2: crc2.parse()?,
            };
            let text = digits(alloc, &footer.encode(alloc)?)?;
            Ok(format!(in alloc; "{text} {}", footer.encode_size())?)
        }
        ["footer-of", text] => footer(alloc, &bytes(alloc, text)?),
        ["slot", words @ ..] => slot(alloc, &spelled(alloc, words)?),
        ["prefix", size, words @ ..] => {
            let length = prefix(&spelled(alloc, words)?, size.parse()?)?;
            Ok(length.to_string(alloc)?)
        }
        ["is-page-size", size] => Ok(is_page_size(size.parse()?).to_string(alloc)?),
        ["content-size", size] => {
            let size: u32 = size.parse()?;
            if !is_page_size(size) {
                return Err(Unanswered::BadLine);
            }
            Ok(page_size(size).to_string(alloc)?)
        }
        _ => Err(Unanswered::BadLine),
    }
}
