//! Slices that are read at once, in words: `4:0,10` is four bytes from 0 on and from 10 on, `0+4,10+2` are two ranges.

ghost use Rattle.std.specs.Prelude.{◌≡◌, ◌*◌, length, IfOk};
ghost use Rattle.paged_blob_parts.specs.Served.{total};

use crate::told::{Told, number};
use case_lines::{Unanswered, digits};
use paged_blob::Error;
use std::alloc::Global;

// The most bytes that are read into a buffer.
const MOST_READ: usize = 1 << 20;

/// Ranges.
pub fn ranges(alloc: Global, text: &str) -> Result<Vec<(u64, usize)>, Unanswered> {
    let mut ranges = Vec::new(alloc);
    for word in text.split(',') {
        let Some((offset, count)) = word.split_once('+') else {
            return Err(Unanswered::BadLine);
        };
        ranges.push((offset.parse()?, count.parse()?))?;
    }
    Ok(ranges)
}

/// A size, and offsets.
pub fn items(alloc: Global, text: &str) -> Result<(usize, Vec<u64>), Unanswered> {
    let Some((size, text)) = text.split_once(':') else {
        return Err(Unanswered::BadLine);
    };
    let mut offsets = Vec::new(alloc);
    for word in text.split(',') {
        offsets.push(word.parse()?)?;
    }
    Ok((size.parse()?, offsets))
}

// So many zeros.
fn zeros(alloc: Global, count: usize) -> Result<Vec<u8>, Unanswered>
    ensures { IfOk result (λ out. length out.items ≡ count) }
{
    if count > MOST_READ {
        return Err(Unanswered::BadLine);
    }
    let mut out = Vec::new(alloc);
    out.resize(count, 0)?;
    Ok(out)
}

/// A buffer for ranges.
pub fn buffer_of_ranges(alloc: Global, ranges: &[(u64, usize)]) -> Result<Vec<u8>, Unanswered>
    ensures { IfOk result (λ out. length out.items ≡ total ranges.now) }
{
    let mut count: usize = 0;
    for range in ranges {
        let Some(more) = count.checked_add(range.1) else {
            return Err(Unanswered::BadLine);
        };
        count = more;
    }
    zeros(alloc, count)
}

/// A buffer for so many items of a size.
pub fn buffer_of_items(alloc: Global, count: usize, size: usize) -> Result<Vec<u8>, Unanswered>
    ensures { IfOk result (λ out. length out.items ≡ count * size) }
{
    match count.checked_mul(size) {
        Some(all) => zeros(alloc, all),
        None => Err(Unanswered::BadLine),
    }
}

/// Tells what was read, or the refusal.
pub fn told_read(
    alloc: Global,
    told: &mut Told,
    answer: Result<usize, Error>,
    out: &[u8],
) -> Result<(), Unanswered> {
    match answer {
        Ok(_served) => told.push(digits(alloc, out)?.as_str()),
        Err(error) => told.push(number(error)),
    }
}

/// Tells which were not in memory: `all` were where none is named.
pub fn told_missing(
    alloc: Global,
    told: &mut Told,
    answer: Result<Vec<usize>, Error>,
) -> Result<(), Unanswered> {
    let missing = match answer {
        Ok(missing) => missing,
        Err(error) => return told.push(number(error)),
    };
    let mut text = String::new(alloc);
    for index in missing.iter() {
        if !text.is_empty() {
            text.push_str("+")?;
        }
        text.push_str(index.to_string(alloc)?.as_str())?;
    }
    told.push(if text.is_empty() {
        "all"
    } else {
        text.as_str()
    })
}

/// Tells what is in memory, or `false`.
pub fn told_tried(
    alloc: Global,
    told: &mut Told,
    is_served: bool,
    out: &[u8],
) -> Result<(), Unanswered> {
    if is_served {
        return told.push(digits(alloc, out)?.as_str());
    }
    told.push("false")
}
