//! Locations and positions as numbers: their ends, their arithmetic, their order and their encodings.

use crate::told::{fault, or_none, refused, shown, truth};
use case_lines::{Unanswered, bytes, digits};
use merkle_forest::codec::{Decode, Encode, EncodeSize, MaxEncodeSize};
use merkle_forest::{Family, Location, LocationRangeExt, Position};
use std::alloc::Global;
use std::fmt::{Debug, Display};

// The bytes of a value.
fn encoded<T: EncodeSize>(alloc: Global, value: &T) -> Result<String, Unanswered> {
    digits(alloc, &value.encode(alloc)?)
}

// A value as it is shown to a user, and to a programmer.
fn shown_twice<T: Display + Debug + Drop>(alloc: Global, value: T) -> Result<String, Unanswered> {
    Ok(format!(in alloc; "{value} {value:?}")?)
}

// How many bytes a value says that its encoding has, and the most of its type; the bytes themselves where they are not
// so many.
fn size<T: EncodeSize + MaxEncodeSize>(alloc: Global, value: &T) -> Result<String, Unanswered> {
    let bytes = value.encode(alloc)?;
    let (size, most) = (value.encode_size(), T::MAX_SIZE);
    if bytes.len() != size {
        return digits(alloc, &bytes);
    }
    Ok(format!(in alloc; "{size} {most}")?)
}

// What a location and one more or less are, and how it stands to another.
fn location_sum<F: Family>(
    alloc: Global,
    location: Location<F>,
    name: &str,
    other: u64,
) -> Result<String, Unanswered> {
    match name {
        "checked-add" => or_none(alloc, location.checked_add(other)),
        "checked-sub" => or_none(alloc, location.checked_sub(other)),
        "saturating-add" => shown(alloc, location.saturating_add(other)),
        "saturating-sub" => shown(alloc, location.saturating_sub(other)),
        "less" => truth(alloc, location < Location::new(other)),
        "same" => truth(alloc, location == Location::new(other)),
        _ => Err(Unanswered::BadLine),
    }
}

// What a position and one more or less are, and how it stands to another.
fn position_sum<F: Family>(
    alloc: Global,
    position: Position<F>,
    name: &str,
    other: u64,
) -> Result<String, Unanswered> {
    match name {
        "checked-add" => or_none(alloc, position.checked_add(other)),
        "checked-sub" => or_none(alloc, position.checked_sub(other)),
        "saturating-add" => shown(alloc, position.saturating_add(other)),
        "saturating-sub" => shown(alloc, position.saturating_sub(other)),
        "less" => truth(alloc, position < Position::new(other)),
        "same" => truth(alloc, position == Position::new(other)),
        _ => Err(Unanswered::BadLine),
    }
}

// The sum of two locations by each form, where it fits.
fn location_sums<F: Family>(alloc: Global, one: u64, other: u64) -> Result<String, Unanswered> {
    if one.checked_add(other).is_none() {
        return Err(Unanswered::BadLine);
    }
    let left: Location<F> = Location::from(one);
    let mut grown = left;
    grown += other;
    Ok(format!(in alloc;
        "{} {} {grown:?}",
        left + Location::new(other),
        left + other
    )?)
}

// The difference of two locations by each form, where it fits.
fn location_differences<F: Family>(
    alloc: Global,
    one: u64,
    other: u64,
) -> Result<String, Unanswered> {
    if one < other {
        return Err(Unanswered::BadLine);
    }
    let left: Location<F> = Location::from(one);
    let mut shrunk = left;
    shrunk -= other;
    let number = u64::from(left - Location::new(other));
    Ok(format!(in alloc; "{number} {} {shrunk:?}", left - other)?)
}

// The sum of two positions by each form, where it fits.
fn position_sums<F: Family>(alloc: Global, one: u64, other: u64) -> Result<String, Unanswered> {
    if one.checked_add(other).is_none() {
        return Err(Unanswered::BadLine);
    }
    let left: Position<F> = Position::from(one);
    let mut grown = left;
    grown += other;
    Ok(format!(in alloc;
        "{} {} {grown:?}",
        left + Position::new(other),
        left + other
    )?)
}

// The difference of two positions by each form, where it fits.
fn position_differences<F: Family>(
    alloc: Global,
    one: u64,
    other: u64,
) -> Result<String, Unanswered> {
    if one < other {
        return Err(Unanswered::BadLine);
    }
    let left: Position<F> = Position::from(one);
    let mut shrunk = left;
    shrunk -= other;
    let number = u64::from(left - Position::new(other));
    Ok(format!(in alloc; "{number} {} {shrunk:?}", left - other)?)
}

// The range between two locations as one of indexes.
fn range<F: Family>(alloc: Global, start: u64, end: u64) -> Result<String, Unanswered> {
    let (start, end): (Location<F>, Location<F>) = (Location::new(start), Location::new(end));
    let range = (start..end).to_usize_range();
    Ok(format!(in alloc; "{} {}", range.start, range.end)?)
}

// A location as the other kind of number, or why it is none.
fn position_of<F: Family>(alloc: Global, location: Location<F>) -> Result<String, Unanswered> {
    match Position::try_from(location) {
        Ok(position) => shown(alloc, position),
        Err(error) => refused(alloc, error),
    }
}

// The answer about a location and another number.
fn location_and<F: Family>(
    alloc: Global,
    location: Location<F>,
    name: &str,
    other: u64,
) -> Result<String, Unanswered> {
    match name {
        "sums" => location_sums::<F>(alloc, location.as_u64(), other),
        "differences" => location_differences::<F>(alloc, location.as_u64(), other),
        "to" => range::<F>(alloc, location.as_u64(), other),
        name => location_sum(alloc, location, name, other),
    }
}

// The answer about how a location is written.
fn location_written<F: Family>(
    alloc: Global,
    location: Location<F>,
    name: &str,
) -> Result<String, Unanswered> {
    match name {
        "encode" => encoded(alloc, &location),
        "size" => size(alloc, &location),
        "show" => shown_twice(alloc, location),
        "from-usize" => shown(alloc, Location::<F>::from(location.as_u64() as usize)),
        "default" => shown(alloc, Location::<F>::default()),
        _ => Err(Unanswered::BadLine),
    }
}

// The answer about a location alone.
fn location_told<F: Family>(
    alloc: Global,
    location: Location<F>,
    name: &str,
) -> Result<String, Unanswered> {
    match name {
        "valid" => truth(alloc, location.is_valid()),
        "valid-index" => truth(alloc, location.is_valid_index()),
        "to-position" => position_of(alloc, location),
        name => location_written(alloc, location, name),
    }
}

// The answer to a question about a location: the question's name, and another number perhaps.
fn of_location<F: Family>(
    alloc: Global,
    location: Location<F>,
    words: &[&str],
) -> Result<String, Unanswered> {
    match words {
        [name] => location_told(alloc, location, name),
        [name, other] => location_and(alloc, location, name, other.parse()?),
        _ => Err(Unanswered::BadLine),
    }
}

/// The answer to a question about a location: its number, the question's name, and another number perhaps.
pub fn location_answer<F: Family>(alloc: Global, words: &[&str]) -> Result<String, Unanswered> {
    match words {
        [number, words @ ..] => of_location::<F>(alloc, Location::new(number.parse()?), words),
        [] => Err(Unanswered::BadLine),
    }
}

// A position as the other kind of number, or why it is none.
fn location_of<F: Family>(alloc: Global, position: Position<F>) -> Result<String, Unanswered> {
    match Location::try_from(position) {
        Ok(location) => shown(alloc, location),
        Err(error) => refused(alloc, error),
    }
}

// The answer about a position and another number.
fn position_and<F: Family>(
    alloc: Global,
    position: Position<F>,
    name: &str,
    other: u64,
) -> Result<String, Unanswered> {
    match name {
        "sums" => position_sums::<F>(alloc, position.as_u64(), other),
        "differences" => position_differences::<F>(alloc, position.as_u64(), other),
        name => position_sum(alloc, position, name, other),
    }
}

// The answer about how a position is written.
fn position_written<F: Family>(
    alloc: Global,
    position: Position<F>,
    name: &str,
) -> Result<String, Unanswered> {
    match name {
        "encode" => encoded(alloc, &position),
        "size" => size(alloc, &position),
        "show" => shown_twice(alloc, position),
        "from-usize" => shown(alloc, Position::<F>::from(position.as_u64() as usize)),
        "default" => shown(alloc, Position::<F>::default()),
        _ => Err(Unanswered::BadLine),
    }
}

// The answer about a position alone.
fn position_told<F: Family>(
    alloc: Global,
    position: Position<F>,
    name: &str,
) -> Result<String, Unanswered> {
    match name {
        "valid" => truth(alloc, position.is_valid()),
        "valid-index" => truth(alloc, position.is_valid_index()),
        "valid-size" => truth(alloc, position.is_valid_size()),
        "to-location" => location_of(alloc, position),
        name => position_written(alloc, position, name),
    }
}

// The answer to a question about a position: the question's name, and another number perhaps.
fn of_position<F: Family>(
    alloc: Global,
    position: Position<F>,
    words: &[&str],
) -> Result<String, Unanswered> {
    match words {
        [name] => position_told(alloc, position, name),
        [name, other] => position_and(alloc, position, name, other.parse()?),
        _ => Err(Unanswered::BadLine),
    }
}

/// The answer to a question about a position: its number, the question's name, and another number perhaps.
pub fn position_answer<F: Family>(alloc: Global, words: &[&str]) -> Result<String, Unanswered> {
    match words {
        [number, words @ ..] => of_position::<F>(alloc, Position::new(number.parse()?), words),
        [] => Err(Unanswered::BadLine),
    }
}

// A location that is read.
fn decoded_location<F: Family>(alloc: Global, text: &[u8]) -> Result<String, Unanswered> {
    match Location::<F>::decode_cfg(alloc, text, &()) {
        Ok(location) => shown(alloc, location),
        Err(error) => fault(alloc, error),
    }
}

// A position that is read.
fn decoded_position<F: Family>(alloc: Global, text: &[u8]) -> Result<String, Unanswered> {
    match Position::<F>::decode_cfg(alloc, text, &()) {
        Ok(position) => shown(alloc, position),
        Err(error) => fault(alloc, error),
    }
}

// A number of this kind that is read.
fn decoded_kind<F: Family>(alloc: Global, kind: &str, text: &[u8]) -> Result<String, Unanswered> {
    match kind {
        "location" => decoded_location::<F>(alloc, text),
        "position" => decoded_position::<F>(alloc, text),
        _ => Err(Unanswered::BadLine),
    }
}

/// A location or a position that is read.
pub fn decoded<F: Family>(alloc: Global, words: &[&str]) -> Result<String, Unanswered> {
    match words {
        [kind, text] => decoded_kind::<F>(alloc, kind, &bytes(alloc, text)?),
        _ => Err(Unanswered::BadLine),
    }
}
