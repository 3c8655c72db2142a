//! Encodings of numbers, options, arrays, bytes and lists of digests.

use crate::told::{fault, shown};
use case_lines::{Unanswered, bytes, digits};
use merkle_forest::codec::{
    Cursor, Decode, Encode, EncodeSize, Error, FixedBytes, MaxEncodeSize, RangeCfg, UInt,
    read_number,
};
use std::alloc::Global;
use std::num::ParseIntError;
use std::str::FromStr;

// The bytes that a value is encoded as, and how many it says that there are.
fn encoded<T: EncodeSize>(alloc: Global, value: &T) -> Result<String, Unanswered> {
    let bytes = value.encode(alloc)?;
    let size = value.encode_size();
    let text = digits(alloc, &bytes)?;
    Ok(format!(in alloc; "{text} {size}")?)
}

// What was read, encoded again, or the fault for which it was refused.
fn read<T: Encode>(alloc: Global, read: Result<T, Error>) -> Result<String, Unanswered> {
    match read {
        Ok(value) => digits(alloc, &value.encode(alloc)?),
        Err(error) => fault(alloc, error),
    }
}

// The limits of a count.
fn range(least: &str, greatest: &str) -> Result<RangeCfg, Unanswered> {
    let (least, greatest) = (least.parse::<usize>()?, greatest.parse::<usize>()?);
    if least > greatest {
        return Err(Unanswered::BadLine);
    }
    Ok(RangeCfg::new(least, greatest))
}

// A varint at the front, and how many bytes are left behind it.
fn front(alloc: Global, bytes: &[u8]) -> Result<String, Unanswered> {
    let mut cursor = Cursor::new(bytes);
    match read_number(&mut cursor) {
        Ok(number) => Ok(format!(in alloc; "{number}, {} left", cursor.remaining())?),
        Err(error) => fault(alloc, error),
    }
}

// Reads a value of a type that takes no limits.
fn decoded(alloc: Global, kind: &str, bytes: &[u8]) -> Result<String, Unanswered> {
    match kind {
        "uint" => read(alloc, UInt::decode_cfg(alloc, bytes, &())),
        "bool" => read(alloc, bool::decode_cfg(alloc, bytes, &())),
        "u8" => read(alloc, u8::decode_cfg(alloc, bytes, &())),
        "u16" => read(alloc, u16::decode_cfg(alloc, bytes, &())),
        "u32" => read(alloc, u32::decode_cfg(alloc, bytes, &())),
        "u64" => read(alloc, u64::decode_cfg(alloc, bytes, &())),
        "array" => read(alloc, <[u8; 4]>::decode_cfg(alloc, bytes, &())),
        "digest" => read(alloc, FixedBytes::<2>::decode_cfg(alloc, bytes, &())),
        "option" => read(alloc, Option::<UInt>::decode_cfg(alloc, bytes, &())),
        _ => Err(Unanswered::BadLine),
    }
}

// A number of one of Rust's types, encoded.
fn encoded_word<T: EncodeSize + FromStr<Err = ParseIntError>>(
    alloc: Global,
    number: &str,
) -> Result<String, Unanswered> {
    encoded(alloc, &number.parse::<T>()?)
}

// A number encoded as a varint.
fn encoded_varint(alloc: Global, number: &str) -> Result<String, Unanswered> {
    encoded(alloc, &UInt(number.parse()?))
}

// A number, or none, encoded as an option.
fn encoded_option(alloc: Global, number: &str) -> Result<String, Unanswered> {
    match number {
        "none" => encoded(alloc, &None::<UInt>),
        _ => encoded(alloc, &Some(UInt(number.parse()?))),
    }
}

// Bytes, encoded.
fn encoded_bytes(alloc: Global, text: &str) -> Result<String, Unanswered> {
    encoded(alloc, &bytes(alloc, text)?)
}

// Encodes a number as this type.
fn encoded_number(alloc: Global, kind: &str, number: &str) -> Result<String, Unanswered> {
    match kind {
        "uint" => encoded_varint(alloc, number),
        "bool" => encoded(alloc, &(number == "true")),
        "u8" => encoded_word::<u8>(alloc, number),
        "u16" => encoded_word::<u16>(alloc, number),
        "u32" => encoded_word::<u32>(alloc, number),
        "u64" => encoded_word::<u64>(alloc, number),
        "option" => encoded_option(alloc, number),
        "bytes" => encoded_bytes(alloc, number),
        _ => Err(Unanswered::BadLine),
    }
}

// The greatest number of bytes of a type.
fn greatest_size(alloc: Global, kind: &str) -> Result<String, Unanswered> {
    match kind {
        "uint" => shown(alloc, UInt::MAX_SIZE),
        "bool" => shown(alloc, bool::MAX_SIZE),
        "u8" => shown(alloc, u8::MAX_SIZE),
        "u16" => shown(alloc, u16::MAX_SIZE),
        "u32" => shown(alloc, u32::MAX_SIZE),
        "u64" => shown(alloc, u64::MAX_SIZE),
        "array" => shown(alloc, <[u8; 4]>::MAX_SIZE),
        "digest" => shown(alloc, FixedBytes::<2>::MAX_SIZE),
        _ => Err(Unanswered::BadLine),
    }
}

// A list of digests of two bytes each, encoded.
fn encoded_list(alloc: Global, words: &[&str]) -> Result<String, Unanswered> {
    let mut list = Vec::new(alloc);
    for word in words {
        let mut digest = [0; 2];
        hex::decode_to_slice(*word, &mut digest)?;
        list.push(FixedBytes::new(digest))?;
    }
    encoded(alloc, &list)
}

// The fault of a tag, in the codec's own words.
fn fault_text(alloc: Global, tag: &str) -> Result<String, Unanswered> {
    shown(alloc, Error::InvalidEnum(tag.parse()?))
}

// A value, encoded.
fn encode(alloc: Global, words: &[&str]) -> Result<String, Unanswered> {
    match words {
        ["list", words @ ..] => encoded_list(alloc, words),
        [kind, number] => encoded_number(alloc, kind, number),
        _ => Err(Unanswered::BadLine),
    }
}

// Reads bytes or a list of digests, of at least so many and at most so many.
fn limited(alloc: Global, kind: &str, range: RangeCfg, text: &[u8]) -> Result<String, Unanswered> {
    match kind {
        "bytes" => read(alloc, Vec::<u8>::decode_cfg(alloc, text, &range)),
        "list" => read(alloc, Vec::<FixedBytes<2>>::decode_cfg(alloc, text, &range)),
        _ => Err(Unanswered::BadLine),
    }
}

// A value that is read.
fn decode(alloc: Global, words: &[&str]) -> Result<String, Unanswered> {
    match words {
        [kind, text] => decoded(alloc, kind, &bytes(alloc, text)?),
        [kind, least, greatest, text] => {
            limited(alloc, kind, range(least, greatest)?, &bytes(alloc, text)?)
        }
        _ => Err(Unanswered::BadLine),
    }
}

// The answer to a question with one word behind its name.
fn told(alloc: Global, name: &str, word: &str) -> Result<String, Unanswered> {
    match name {
        "front" => front(alloc, &bytes(alloc, word)?),
        "greatest" => greatest_size(alloc, word),
        "fault" => fault_text(alloc, word),
        _ => Err(Unanswered::BadLine),
    }
}

/// The answer to a question about encodings.
pub fn answer(alloc: Global, words: &[&str]) -> Result<String, Unanswered> {
    match words {
        ["encode", words @ ..] => encode(alloc, words),
        ["decode", words @ ..] => decode(alloc, words),
        [name, word] => told(alloc, name, word),
        _ => Err(Unanswered::BadLine),
    }
}
