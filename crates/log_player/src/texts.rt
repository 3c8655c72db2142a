//! The texts of the script's lines, and those of refusals.
//!
//! A text is one word. In it `~` stands for a space, `!` for a carriage return and `^` for a tab; `-` alone is the
//! empty text.

use auth_store_client::is_chunk_width;
use auth_store_machine::StoreError;
use auth_store_parts::script::{
    FaultKind, InputError, Line, TornMode, TreeFamily, parse_key, parse_line, parse_number,
};
use case_lines::Unanswered;
use merkle_forest::codec::FixedBytes;
use merkle_forest::digest::Digest;
use std::alloc::{AllocError, Global};

/// The bytes of a text.
pub fn text_bytes(alloc: Global, text: &str) -> Result<Vec<u8>, AllocError> {
    let mut bytes = Vec::new(alloc);
    if text == "-" {
        return Ok(bytes);
    }
    for byte in text.as_bytes() {
        bytes.push(match *byte {
            b'~' => b' ',
            b'!' => b'\r',
            b'^' => b'\t',
            other => other,
        })?;
    }
    Ok(bytes)
}

// A line about a key: its word, the key's digits and what stands behind them.
fn of_key(
    alloc: Global,
    word: &str,
    key: FixedBytes<8>,
    behind: Option<u64>,
) -> Result<String, AllocError> {
    let digits = hex::encode(alloc, key.as_bytes())?;
    match behind {
        Some(number) => format!(in alloc; "{word} {digits} {number}"),
        None => format!(in alloc; "{word} {digits}"),
    }
}

// The word for a family of trees.
fn of_family(family: TreeFamily) -> &'static str {
    match family {
        TreeFamily::Mmr => "mmr",
        TreeFamily::Mmb => "mmb",
    }
}

// The word for what is kept of a torn write.
fn of_mode(mode: TornMode) -> &'static str {
    match mode {
        TornMode::Prefix => "prefix",
        TornMode::Subset => "subset",
    }
}

// The word for a kind of calls.
fn of_kind(kind: FaultKind) -> &'static str {
    match kind {
        FaultKind::Open => "open",
        FaultKind::Read => "read",
        FaultKind::Write => "write",
        FaultKind::Sync => "sync",
        FaultKind::Resize => "resize",
    }
}

// What a line asks for.
fn of_line(alloc: Global, line: Line) -> Result<String, AllocError> {
    match line {
        Line::Empty => "empty".to_string(alloc),
        Line::New { family, seed } => {
            let word = of_family(family);
            format!(in alloc; "new {word} {seed}")
        }
        Line::Open => "open".to_string(alloc),
        Line::Put { key, value } => of_key(alloc, "put", key, Some(value)),
        Line::Delete { key } => of_key(alloc, "del", key, None),
        Line::Commit { metadata: None } => "commit".to_string(alloc),
        Line::Commit {
            metadata: Some(metadata),
        } => format!(in alloc; "commit {metadata}"),
        Line::Get { key } => of_key(alloc, "get", key, None),
        Line::Root => "root".to_string(alloc),
        Line::Floor => "floor".to_string(alloc),
        Line::Len => "len".to_string(alloc),
        Line::Prune { location } => format!(in alloc; "prune {location}"),
        Line::Prove { key } => of_key(alloc, "prove", key, None),
        Line::Proof => "proof".to_string(alloc),
        Line::CheckValue { key, value } => of_key(alloc, "check value", key, Some(value)),
        Line::CheckAbsent { key } => of_key(alloc, "check absent", key, None),
        Line::Cut { calls } => format!(in alloc; "cut {calls}"),
        Line::Mode { mode } => {
            let word = of_mode(mode);
            format!(in alloc; "mode {word}")
        }
        Line::Fault {
            kind,
            numerator,
            denominator,
        } => {
            let word = of_kind(kind);
            format!(in alloc; "fault {word} {numerator} {denominator}")
        }
        Line::Close => "close".to_string(alloc),
        Line::Crash => "crash".to_string(alloc),
    }
}

// The refusal of a store of this number, of those that name nothing else.
fn refusal(number: &str) -> Result<StoreError, Unanswered> {
    match number {
        "S6" => Ok(StoreError::Failed),
        "S7" => Ok(StoreError::PastFloor),
        "S8" => Ok(StoreError::Inactive),
        "S9" => Ok(StoreError::OutOfRange),
        "S10" => Ok(StoreError::Pruned),
        "S11" => Ok(StoreError::EmptyRange),
        _ => Err(Unanswered::BadLine),
    }
}

// The text of a refusal of this name.
fn of_refusal(alloc: Global, name: &str) -> Result<String, Unanswered> {
    match name {
        "memory" => Ok(format!(in alloc; "{}", InputError::Memory)?),
        "read" => Ok(format!(in alloc; "{}", InputError::Read)?),
        name => Ok(format!(in alloc; "{}", refusal(name)?)?),
    }
}

/// What is answered of texts.
pub fn answer(alloc: Global, words: &[&str]) -> Result<String, Unanswered> {
    match words {
        ["key", text] => match parse_key(&text_bytes(alloc, text)?) {
            Some(key) => Ok(hex::encode(alloc, key.as_bytes())?),
            None => Ok("none".to_string(alloc)?),
        },
        ["number", text] => match parse_number(&text_bytes(alloc, text)?) {
            Some(number) => Ok(format!(in alloc; "{number}")?),
            None => Ok("none".to_string(alloc)?),
        },
        ["line", text] => match parse_line(&text_bytes(alloc, text)?) {
            Some(line) => Ok(of_line(alloc, line)?),
            None => Ok("none".to_string(alloc)?),
        },
        ["of", name] => of_refusal(alloc, name),
        ["width", width] => Ok(format!(in alloc; "{}", is_chunk_width(width.parse()?))?),
        _ => Err(Unanswered::BadLine),
    }
}
