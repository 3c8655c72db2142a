//! Keys, roots, kinds of stores and sizes of buffers, as words.

use auth_store_parts::script::parse_key;
use auth_store_session::Sizes;
use case_lines::Unanswered;
use merkle_forest::codec::FixedBytes;

/// A key.
pub type Name = FixedBytes<8>;

/// A root.
pub type Root = FixedBytes<32>;

/// A family with a width of chunks.
#[derive(Clone, Copy)]
pub enum Kind {
    /// A Merkle Mountain Range, with chunks of one byte.
    Range,
    /// A Range, with chunks of 32 bytes.
    WideRange,
    /// A Merkle Mountain Belt, with chunks of one byte.
    Belt,
    /// A Belt, with chunks of 32 bytes.
    WideBelt,
}

/// The key of these digits.
pub fn key(digits: &str) -> Result<Name, Unanswered> {
    parse_key(digits.as_bytes()).ok_or(Unanswered::BadLine)
}

/// The sizes of buffers of so many bytes.
pub fn sizes(write: &str, replay: &str) -> Result<Sizes, Unanswered> {
    Ok(Sizes {
        write_buffer: write.parse()?,
        replay_buffer: replay.parse()?,
    })
}

/// The sizes where none are said.
pub fn small_sizes() -> Sizes {
    Sizes {
        write_buffer: 128,
        replay_buffer: 128,
    }
}

/// The kind of a family and a width; the sizes of its buffers where a store is asked for.
pub fn asked_for(words: &[&str]) -> Result<(Kind, Option<Sizes>), Unanswered> {
    match words {
        ["session", family, width] => Ok((kind_of(family, width)?, None)),
        ["store", family, width] => Ok((kind_of(family, width)?, Some(small_sizes()))),
        ["store", family, width, write, replay] => {
            Ok((kind_of(family, width)?, Some(sizes(write, replay)?)))
        }
        _ => Err(Unanswered::BadLine),
    }
}

/// The kind of a family and a width.
pub fn kind_of(family: &str, width: &str) -> Result<Kind, Unanswered> {
    match (family, width) {
        ("mmr", "1") => Ok(Kind::Range),
        ("mmr", "32") => Ok(Kind::WideRange),
        ("mmb", "1") => Ok(Kind::Belt),
        ("mmb", "32") => Ok(Kind::WideBelt),
        _ => Err(Unanswered::BadLine),
    }
}
