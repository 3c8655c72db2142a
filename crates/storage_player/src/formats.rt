//! What is asked without a store: checksums, rates, draws, names of partitions and headers.

use crate::refusals::header_number;
use crate::settings::{mode, rate};
use crate::told::{done, truth};
use crate::words::Listed;
use case_lines::{Unanswered, bytes, digits};
use fault_storage::draws::{draw_kept_bytes, draw_length_between};
use fault_storage::header::created_region;
use fault_storage::{
    Checksum, Crc32, Header, HeaderError, Layout, Layouts, Resolved, Versions, resolve,
    validate_partition_name,
};
use std::alloc::Global;

/// The words of a generator.
pub fn listed(alloc: Global, words: &[&str]) -> Result<Listed, Unanswered> {
    let mut list = Vec::new(alloc);
    for word in words {
        list.push(word.parse::<u64>()?)?;
    }
    Ok(Listed::new(list))
}

// The layout of this name.
fn layout(word: &str) -> Result<Layout, Unanswered> {
    match word {
        "V0" => Ok(Layout::V0),
        "V1" => Ok(Layout::V1),
        _ => Err(Unanswered::BadLine),
    }
}

// From one layout to another.
fn layouts(least: &str, greatest: &str) -> Result<Layouts, Unanswered> {
    Ok(Layouts {
        least: layout(least)?,
        greatest: layout(greatest)?,
    })
}

/// From one version to another.
pub fn versions(least: &str, greatest: &str) -> Result<Versions, Unanswered> {
    Ok(Versions {
        least: least.parse()?,
        greatest: greatest.parse()?,
    })
}

// A file's size after its header, its version and where its data begin.
fn resolved(alloc: Global, shown: Resolved) -> Result<String, Unanswered> {
    let Resolved {
        size,
        version,
        data_offset,
    } = shown;
    Ok(format!(in alloc; "{size} {version} {data_offset}")?)
}

// These bytes, and zeros behind them up to a size, which is at most 2^20.
fn padded(alloc: Global, front: &str, size: usize) -> Result<Vec<u8>, Unanswered> {
    let mut file = bytes(alloc, front)?;
    if size > 1 << 20 {
        return Err(Unanswered::BadLine);
    }
    file.resize(size, 0)?;
    Ok(file)
}

// How many bytes a region has, and those up to the last that is not zero.
fn told_region(alloc: Global, region: &[u8]) -> Result<String, Unanswered> {
    let mut last = 0;
    for (place, byte) in region.iter().enumerate() {
        if *byte != 0 {
            last = place;
        }
    }
    let front = digits(alloc, region.get(..=last).unwrap_or(&[]))?;
    let length = region.len();
    Ok(format!(in alloc; "{length} {front}")?)
}

// What a file of these bytes shows.
fn parsed(
    alloc: Global,
    file: &[u8],
    layouts: Layouts,
    versions: Versions,
) -> Result<String, Unanswered> {
    if file.len() < 8 {
        return Err(Unanswered::BadLine);
    }
    match Header::parse(file, file.len() as u64, layouts, versions) {
        Ok(shown) => resolved(alloc, shown),
        Err(fault) => Ok(header_number(fault).to_string(alloc)?),
    }
}

// What a file of these bytes shows, or that it has no header yet.
fn resolved_file(
    alloc: Global,
    file: &[u8],
    layouts: Layouts,
    versions: Versions,
) -> Result<String, Unanswered> {
    let size = file.len() as u64;
    let Some(front) = file.get(..Header::resolve_len(size) as usize) else {
        return Err(Unanswered::BadLine);
    };
    match resolve(front, size, layouts, versions) {
        Ok(Some(shown)) => resolved(alloc, shown),
        Ok(None) => Ok("none".to_string(alloc)?),
        Err(fault) => Ok(header_number(fault).to_string(alloc)?),
    }
}

// Whether the first eight bytes pass.
fn validated(
    alloc: Global,
    front: &[u8],
    layouts: Layouts,
    versions: Versions,
) -> Result<String, Unanswered> {
    let [a, b, c, d, e, f, g, h] = front else {
        return Err(Unanswered::BadLine);
    };
    let header = Header {
        magic: [*a, *b, *c, *d],
        layout_version: u16::from_be_bytes([*e, *f]),
        blob_version: u16::from_be_bytes([*g, *h]),
    };
    match header.validate(layouts, versions) {
        Ok(()) => Ok("ok".to_string(alloc)?),
        Err(fault) => Ok(header_number(fault).to_string(alloc)?),
    }
}

// The fault of this number.
fn fault(word: &str) -> Result<HeaderError, Unanswered> {
    match word {
        "H1" => Ok(HeaderError::Magic),
        "H2" => Ok(HeaderError::LayoutNotAllowed),
        "H3" => Ok(HeaderError::Short),
        "H4" => Ok(HeaderError::LayoutVersion),
        "H5" => Ok(HeaderError::Checksum),
        "H6" => Ok(HeaderError::BlobVersion),
        _ => Err(Unanswered::BadLine),
    }
}

// Whether a fault comes by a rate, and how many words were taken for it.
fn sampled(alloc: Global, words: &[&str]) -> Result<String, Unanswered> {
    let [numerator, denominator, words @ ..] = words else {
        return Err(Unanswered::BadLine);
    };
    let mut words = listed(alloc, words)?;
    let comes = rate(numerator, denominator)?.sample(&mut words);
    Ok(format!(in alloc; "{comes} {}", words.taken())?)
}

// Which of so many bytes are kept of a torn write.
fn kept(alloc: Global, words: &[&str]) -> Result<String, Unanswered> {
    let [torn, numerator, denominator, count, words @ ..] = words else {
        return Err(Unanswered::BadLine);
    };
    let retention = rate(numerator, denominator)?;
    let mut words = listed(alloc, words)?;
    let choice = draw_kept_bytes(alloc, mode(torn)?, retention, count.parse()?, &mut words)?;
    let mut text = String::new(alloc);
    for is_kept in choice.iter() {
        text.push_str(if *is_kept { "1" } else { "0" })?;
    }
    Ok(text)
}

// A length strictly between two others.
fn between(alloc: Global, low: u64, high: u64, word: &str) -> Result<String, Unanswered> {
    if low >= high || high - low < 2 {
        return Err(Unanswered::BadLine);
    }
    let length = draw_length_between(low, high, &mut listed(alloc, &[word])?);
    Ok(format!(in alloc; "{length}")?)
}

// What is asked of headers.
fn header_answer(alloc: Global, words: &[&str]) -> Result<String, Unanswered> {
    match words {
        ["region", of, version] => {
            let region = created_region(alloc, layout(of)?, version.parse()?)?;
            told_region(alloc, &region)
        }
        ["create", least, greatest, from, to] => {
            let layouts = layouts(least, greatest)?;
            let (region, version) = Header::create(alloc, layouts, versions(from, to)?)?;
            let region = told_region(alloc, &region)?;
            Ok(format!(in alloc; "{version} {region}")?)
        }
        ["validate", front, least, greatest, from, to] => {
            let front = bytes(alloc, front)?;
            validated(
                alloc,
                &front,
                layouts(least, greatest)?,
                versions(from, to)?,
            )
        }
        ["parse", front, size, least, greatest, from, to] => {
            let file = padded(alloc, front, size.parse()?)?;
            parsed(alloc, &file, layouts(least, greatest)?, versions(from, to)?)
        }
        ["resolve", front, size, least, greatest, from, to] => {
            let file = padded(alloc, front, size.parse()?)?;
            resolved_file(alloc, &file, layouts(least, greatest)?, versions(from, to)?)
        }
        ["interrupted", of, front, size] => {
            let file = padded(alloc, front, size.parse()?)?;
            truth(alloc, layout(of)?.interrupted_creation(&file))
        }
        ["missing", size] => truth(alloc, Header::missing(size.parse()?)),
        ["resolve-length", size] => {
            let length = Header::resolve_len(size.parse()?);
            Ok(format!(in alloc; "{length}")?)
        }
        ["may-be-torn", number] => truth(alloc, fault(number)?.may_be_torn_creation()),
        _ => Err(Unanswered::BadLine),
    }
}

// What a layout has: its number, its magic bytes and where its data begin.
fn layout_answer(alloc: Global, of: Layout) -> Result<String, Unanswered> {
    let magic = digits(alloc, &of.magic())?;
    let (number, offset) = (of.layout_version(), of.data_offset());
    Ok(format!(in alloc; "{number} {magic} {offset}")?)
}

// The layout of these magic bytes.
fn layout_by_magic(alloc: Global, magic: &[u8]) -> Result<String, Unanswered> {
    let [a, b, c, d] = magic else {
        return Err(Unanswered::BadLine);
    };
    let name = match Layout::from_magic([*a, *b, *c, *d]) {
        Some(Layout::V0) => "V0",
        Some(Layout::V1) => "V1",
        None => "none",
    };
    Ok(name.to_string(alloc)?)
}

// Whether these bytes, as text, name a partition.
fn partition_answer(alloc: Global, name: &[u8]) -> Result<String, Unanswered> {
    let Ok(name) = std::str::from_utf8(name) else {
        return Err(Unanswered::BadLine);
    };
    done(alloc, validate_partition_name(name))
}

/// The answer to a question that needs no store.
pub fn answer(alloc: Global, words: &[&str]) -> Result<String, Unanswered> {
    match words {
        ["checksum", digits] => {
            let sum = Crc32::checksum(&bytes(alloc, digits)?);
            Ok(format!(in alloc; "{sum:08x}")?)
        }
        ["probability", n, d] => {
            let (numerator, denominator) = (n.parse()?, d.parse()?);
            truth(
                alloc,
                fault_storage::Probability::new(numerator, denominator).is_some(),
            )
        }
        ["zero", n, d] => truth(alloc, rate(n, d)?.is_zero()),
        ["sample", words @ ..] => sampled(alloc, words),
        ["kept", words @ ..] => kept(alloc, words),
        ["between", low, high, word] => between(alloc, low.parse()?, high.parse()?, word),
        ["partition", digits] => partition_answer(alloc, &bytes(alloc, digits)?),
        ["layout", of] => layout_answer(alloc, layout(of)?),
        ["magic", digits] => layout_by_magic(alloc, &bytes(alloc, digits)?),
        ["header", words @ ..] => header_answer(alloc, words),
        _ => Err(Unanswered::BadLine),
    }
}
