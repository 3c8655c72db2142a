//! The lines of a script.

ghost use Rattle.std.specs.Prelude.{◌≡◌, ◌==◌, MatchOption, IfSome, position};
ghost use Rattle.auth_store_parts.specs.Line.{line_of, line_with_words, proof_line, device_line, after, first_word};
ghost use Rattle.auth_store_parts.specs.Line.{key_and_number, two_numbers, kind_of, fault_of, mode_of};
ghost use Rattle.auth_store_parts.specs.Spelling.{Spells};
ghost use Rattle.auth_store_parts.specs.declared.script.line.Line.{Line};

use super::key::parse_key;
use super::number::parse_number;
use super::words::{FaultKind, TornMode, TreeFamily};
use merkle_forest::codec::FixedBytes;

/// What a line asks for.
#[derive(Clone, Copy, Debug, PartialEq, Eq)]
pub enum Line {
    /// An empty line, which is skipped.
    Empty,
    /// `new mmr SEED` or `new mmb SEED`: a new store over trees of this family, on a device of this seed.
    New {
        family: TreeFamily,
        seed: u64,
    },
    /// `open`: opens the store again.
    Open,
    /// `put KEY VALUE`: sets the value of a key.
    Put {
        key: FixedBytes<8>,
        value: u64,
    },
    /// `del KEY`: removes a key.
    Delete {
        key: FixedBytes<8>,
    },
    /// `commit` or `commit METADATA`: ends a batch.
    Commit {
        metadata: Option<u64>,
    },
    /// `get KEY`: the value of a key.
    Get {
        key: FixedBytes<8>,
    },
    /// `root`: the store's root.
    Root,
    /// `floor`: the place of the last floor.
    Floor,
    /// `len`: how many operations there are.
    Len,
    /// `prune LOC`: gives up what stands before a place, as far as it is settled.
    Prune {
        location: u64,
    },
    /// `prove KEY`: makes a proof of a key's value, or that it is absent.
    Prove {
        key: FixedBytes<8>,
    },
    /// `proof`: the bytes of the proof.
    Proof,
    /// `check value KEY V`: whether the proof shows that the key has this value.
    CheckValue {
        key: FixedBytes<8>,
        value: u64,
    },
    /// `check absent KEY`: whether the proof shows that the key is absent.
    CheckAbsent {
        key: FixedBytes<8>,
    },
    /// `cut N`: lets so many calls of the device through, and cuts its power then.
    Cut {
        calls: u64,
    },
    /// `mode prefix` or `mode subset`: what is kept of a torn write.
    Mode {
        mode: TornMode,
    },
    /// `fault KIND NUM DEN`: how often a call of this kind fails, as a fraction.
    Fault {
        kind: FaultKind,
        numerator: u64,
        denominator: u64,
    },
    /// `close`: closes the store.
    Close,
    /// `crash`: crashes the device.
    Crash,
}

/// The line that these bytes spell, without the newline. A bad line: `None`.
pub fn parse_line(line: &[u8]) -> Option<Line>
    ensures exact { result ≡ line_of line.now }
    ensures spelled { IfSome result (λ asked. Spells asked line.now) }
    ensures only { (asked : Line) → Spells asked line.now → result ≡ Some asked }
{
    parse_word(line).or_else(|| parse_words(line))
}

/// An empty line or a line of one word. Another line: `None`.
fn parse_word(line: &[u8]) -> Option<Line>
    ensures { MatchOption result (line_of line.now ≡ line_with_words line.now)
        (λ asked. line_of line.now ≡ Some asked) }
{
    match line {
        b"" => Some(Line::Empty),
        b"open" => Some(Line::Open),
        b"commit" => Some(Line::Commit { metadata: None }),
        b"root" => Some(Line::Root),
        b"floor" => Some(Line::Floor),
        b"len" => Some(Line::Len),
        b"proof" => Some(Line::Proof),
        b"close" => Some(Line::Close),
        b"crash" => Some(Line::Crash),
        _ => None,
    }
}

/// A line of more than one word.
#[tactic(auto, using(crate::proofs::Lines::number_some, crate::proofs::Lines::number_none, crate::proofs::Lines::key_some, crate::proofs::Lines::key_none))]
fn parse_words(line: &[u8]) -> Option<Line>
    ensures { result ≡ line_with_words line.now }
{
    if let Some(seed) = strip_words(line, b"new mmr ") {
        let seed = parse_number(seed)?;
        Some(Line::New {
            family: TreeFamily::Mmr,
            seed,
        })
    } else if let Some(seed) = strip_words(line, b"new mmb ") {
        let seed = parse_number(seed)?;
        Some(Line::New {
            family: TreeFamily::Mmb,
            seed,
        })
    } else if let Some(words) = strip_words(line, b"put ") {
        let (key, value) = parse_key_and_number(words)?;
        Some(Line::Put { key, value })
    } else if let Some(key) = strip_words(line, b"del ") {
        let key = parse_key(key)?;
        Some(Line::Delete { key })
    } else if let Some(metadata) = strip_words(line, b"commit ") {
        let metadata = parse_number(metadata)?;
        Some(Line::Commit {
            metadata: Some(metadata),
        })
    } else if let Some(key) = strip_words(line, b"get ") {
        let key = parse_key(key)?;
        Some(Line::Get { key })
    } else if let Some(location) = strip_words(line, b"prune ") {
        let location = parse_number(location)?;
        Some(Line::Prune { location })
    } else {
        parse_proof_line(line)
    }
}

/// A line of more than one word that makes a proof or checks it, or is for the device.
#[tactic(auto, using(crate::proofs::Lines::key_some, crate::proofs::Lines::key_none))]
fn parse_proof_line(line: &[u8]) -> Option<Line>
    ensures { result ≡ proof_line line.now }
{
    if let Some(key) = strip_words(line, b"prove ") {
        let key = parse_key(key)?;
        Some(Line::Prove { key })
    } else if let Some(words) = strip_words(line, b"check value ") {
        let (key, value) = parse_key_and_number(words)?;
        Some(Line::CheckValue { key, value })
    } else if let Some(key) = strip_words(line, b"check absent ") {
        let key = parse_key(key)?;
        Some(Line::CheckAbsent { key })
    } else {
        parse_device_line(line)
    }
}

/// A line of more than one word that is for the device.
#[tactic(auto, using(crate::proofs::Lines::number_some, crate::proofs::Lines::number_none))]
fn parse_device_line(line: &[u8]) -> Option<Line>
    ensures { result ≡ device_line line.now }
{
    if let Some(calls) = strip_words(line, b"cut ") {
        let calls = parse_number(calls)?;
        Some(Line::Cut { calls })
    } else if let Some(mode) = strip_words(line, b"mode ") {
        let mode = parse_mode(mode)?;
        Some(Line::Mode { mode })
    } else if let Some(words) = strip_words(line, b"fault ") {
        let (kind, (numerator, denominator)) = parse_fault(words)?;
        Some(Line::Fault {
            kind,
            numerator,
            denominator,
        })
    } else {
        None
    }
}

/// A key, a space and a number.
#[tactic(auto, using(crate::proofs::Lines::number_some, crate::proofs::Lines::number_none, crate::proofs::Lines::key_some, crate::proofs::Lines::key_none), unfolding(crate::specs::Line::key_and_number))]
fn parse_key_and_number(words: &[u8]) -> Option<(FixedBytes<8>, u64)>
    ensures { result ≡ key_and_number words.now }
{
    if words.len() < 16 {
        return None;
    }
    let (key, rest) = words.split_at(16);
    let number = strip_words(rest, b" ")?;
    let key = parse_key(key)?;
    let number = parse_number(number)?;
    Some((key, number))
}

/// A kind of calls, a space and two numbers.
#[tactic(auto, unfolding(crate::specs::Line::fault_of))]
fn parse_fault(words: &[u8]) -> Option<(FaultKind, (u64, u64))>
    ensures { result ≡ fault_of words.now }
{
    let (kind, rate) = split_word(words)?;
    let kind = parse_kind(kind)?;
    let rate = parse_two_numbers(rate)?;
    Some((kind, rate))
}

/// The kind of calls that a word names. Another word: `None`.
fn parse_kind(word: &[u8]) -> Option<FaultKind>
    ensures { result ≡ kind_of word.now }
{
    match word {
        b"open" => Some(FaultKind::Open),
        b"read" => Some(FaultKind::Read),
        b"write" => Some(FaultKind::Write),
        b"sync" => Some(FaultKind::Sync),
        b"resize" => Some(FaultKind::Resize),
        _ => None,
    }
}

/// What is kept of a torn write, as a word names it. Another word: `None`.
fn parse_mode(word: &[u8]) -> Option<TornMode>
    ensures { result ≡ mode_of word.now }
{
    match word {
        b"prefix" => Some(TornMode::Prefix),
        b"subset" => Some(TornMode::Subset),
        _ => None,
    }
}

/// Two numbers with a space between.
#[tactic(auto, using(crate::proofs::Lines::number_some, crate::proofs::Lines::number_none), unfolding(crate::specs::Line::two_numbers))]
fn parse_two_numbers(words: &[u8]) -> Option<(u64, u64)>
    ensures { result ≡ two_numbers words.now }
{
    let (first, second) = split_word(words)?;
    let first = parse_number(first)?;
    let second = parse_number(second)?;
    Some((first, second))
}

/// The first word of a text that goes on, and what stands after its space. A text without a space: `None`.
#[tactic(auto, unfolding(crate::specs::Line::first_word))]
fn split_word(text: &[u8]) -> Option<(&[u8], &[u8])>
    ensures { MatchOption result (first_word text.now ≡ None)
        (λ parts. first_word text.now ≡ Some (parts.0.now, parts.1.now)) }
{
    let end = space(text)?;
    Some((&text[..end], &text[end + 1..]))
}

/// Where the first space stands.
fn space(text: &[u8]) -> Option<usize>
    ensures { result ≡ position (λ byte. byte == 32) text.now }
{
    text.iter().position(|byte| *byte == b' ')
}

/// What stands after these words at the front of a line. Another line: `None`.
fn strip_words<'a>(line: &'a [u8], words: &[u8]) -> Option<&'a [u8]>
    ensures { MatchOption result (after words.now line.now ≡ None) (λ rest. after words.now line.now ≡ Some rest.now) }
{
    line.strip_prefix(words)
}
