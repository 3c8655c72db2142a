//! Operations: their words, their encodings and what is asked of them.

use crate::spoken::{
    Answer, Spoken, Word, behind, bytes_of, fault, joined, said_or_none, shown, with_left, written,
};
use case_lines::Unanswered;
use merkle_forest::Location;
use merkle_forest::codec::{Cursor, Decode, Read};
use merkle_forest::mmr::Family;
use state_ops::Operation;
use state_ops::codec::OperationCodec;
use state_ops::hexadecimal::HexEncoding;
use state_ops::traits::{Committable, Floored, Operation as _};
use state_ops::update::Update;
use std::alloc::Global;
use std::fmt::Display;

/// How operations over these updates are read.
pub type Cfg<S> = <<S as Update>::ValueEncoding as OperationCodec<Family, S>>::ReadCfg;

/// An operation that was read from words, or why none was.
type OfWords<S> = Result<Operation<Family, S>, Unanswered>;

/// The operation of these words.
pub fn of_words<S: Update + Spoken>(alloc: Global, words: &[&str]) -> OfWords<S>
where
    S::Key: Word,
    S::Value: Word,
{
    match words {
        [kind, words @ ..] => of_kind(alloc, kind, words),
        [] => Err(Unanswered::BadLine),
    }
}

// The operation of this kind that these words tell.
fn of_kind<S: Update + Spoken>(alloc: Global, kind: &str, words: &[&str]) -> OfWords<S>
where
    S::Key: Word,
    S::Value: Word,
{
    match kind {
        "update" => update(alloc, words),
        "delete" => delete(alloc, words),
        "commit" => commit(alloc, words),
        _ => Err(Unanswered::BadLine),
    }
}

// The update of these words.
fn update<S: Update + Spoken>(alloc: Global, words: &[&str]) -> OfWords<S> {
    Ok(Operation::Update(S::of_words(alloc, words)?))
}

// The delete of a key.
fn delete<S: Update>(alloc: Global, words: &[&str]) -> OfWords<S>
where
    S::Key: Word,
{
    match words {
        [key] => Ok(Operation::Delete(<S::Key as Word>::of_word(alloc, key)?)),
        _ => Err(Unanswered::BadLine),
    }
}

// The commit of a value and a floor.
fn commit<S: Update>(alloc: Global, words: &[&str]) -> OfWords<S>
where
    S::Value: Word,
{
    match words {
        [value, floor] => commit_of(alloc, value, floor.parse()?),
        _ => Err(Unanswered::BadLine),
    }
}

// The commit of this value, or of `none`.
fn commit_of<S: Update>(alloc: Global, value: &str, floor: u64) -> OfWords<S>
where
    S::Value: Word,
{
    let value = match value {
        "none" => None,
        value => Some(<S::Value as Word>::of_word(alloc, value)?),
    };
    Ok(Operation::CommitFloor(value, Location::new(floor)))
}

/// The words of the operation.
pub fn say<S: Update + Spoken>(alloc: Global, operation: &Operation<Family, S>) -> Answer
where
    S::Key: Word,
    S::Value: Word,
{
    match operation {
        Operation::Delete(key) => behind(alloc, "delete", key.say(alloc)),
        Operation::Update(update) => behind(alloc, "update", update.say(alloc)),
        Operation::CommitFloor(None, floor) => behind(alloc, "commit none", shown(alloc, *floor)),
        Operation::CommitFloor(Some(value), floor) => say_commit(alloc, value, floor.as_u64()),
    }
}

// The words of the commit of a value.
fn say_commit<V: Word>(alloc: Global, value: &V, floor: u64) -> Answer {
    let value = behind(alloc, "commit", value.say(alloc));
    joined(alloc, value, shown(alloc, floor))
}

// What kind of operation it is, its key and its floor.
fn kind<S: Update + Spoken>(alloc: Global, operation: &Operation<Family, S>) -> Answer
where
    S::Key: Word,
    S::Value: Word,
{
    let kind = joined(alloc, truths(alloc, operation), key(alloc, operation));
    joined(alloc, kind, floor(alloc, operation))
}

// Whether it is a delete, an update, or a commit.
fn truths<S: Update>(alloc: Global, operation: &Operation<Family, S>) -> Answer {
    let is_delete = operation.is_delete();
    let is_update = operation.is_update();
    let is_commit = operation.is_commit();
    Ok(format!(in alloc; "{is_delete} {is_update} {is_commit}")?)
}

// The key of an operation, or `none`.
fn key<S: Update>(alloc: Global, operation: &Operation<Family, S>) -> Answer
where
    S::Key: Word,
{
    match operation.key() {
        Some(key) => key.say(alloc),
        None => shown(alloc, "none"),
    }
}

// The floor of an operation, or `none`.
fn floor<S: Update>(alloc: Global, operation: &Operation<Family, S>) -> Answer {
    match operation.has_floor() {
        Some(floor) => shown(alloc, floor),
        None => shown(alloc, "none"),
    }
}

// The operation at the front of some bytes, and how many are left behind it.
fn front<S: Update + Spoken>(alloc: Global, words: &[&str], cfg: &Cfg<S>) -> Answer
where
    S::Key: Word,
    S::Value: Word,
    S::ValueEncoding: OperationCodec<Family, S>,
{
    let bytes = bytes_of(alloc, words)?;
    let mut cursor = Cursor::new(&bytes);
    let read: Result<Operation<Family, S>, _> = Operation::read_cfg(alloc, &mut cursor, cfg);
    match read {
        Ok(operation) => with_left(alloc, say(alloc, &operation), cursor.remaining()),
        Err(error) => fault(alloc, error),
    }
}

// The operation that some bytes encode.
fn whole<S: Update + Spoken>(alloc: Global, words: &[&str], cfg: &Cfg<S>) -> Answer
where
    S::Key: Word,
    S::Value: Word,
    S::ValueEncoding: OperationCodec<Family, S>,
{
    let bytes = bytes_of(alloc, words)?;
    let read: Result<Operation<Family, S>, _> = Operation::decode_cfg(alloc, &bytes, cfg);
    match read {
        Ok(operation) => say(alloc, &operation),
        Err(error) => fault(alloc, error),
    }
}

// A copy of an operation.
fn copied<S: Update + Spoken>(alloc: Global, operation: &Operation<Family, S>) -> Answer
where
    S::Key: Word,
    S::Value: Word,
{
    say(alloc, &operation.try_copy()?)
}

// What is asked of an operation.
fn asked<S: Update + Spoken + Display>(
    alloc: Global,
    name: &str,
    operation: &Operation<Family, S>,
) -> Answer
where
    S::Key: Word,
    S::Value: Word + HexEncoding,
    S::ValueEncoding: OperationCodec<Family, S>,
{
    match name {
        "write" => written(alloc, operation),
        "show" => shown_as_text(alloc, operation),
        "kind" => kind(alloc, operation),
        "copy" => copied(alloc, operation),
        _ => Err(Unanswered::BadLine),
    }
}

// The text of an operation.
fn shown_as_text<S: Update + Display>(alloc: Global, operation: &Operation<Family, S>) -> Answer
where
    S::Value: HexEncoding,
{
    Ok(format!(in alloc; "{operation}")?)
}

// What is asked of an operation, if there is one.
fn of_operation<S: Update + Spoken + Display>(
    alloc: Global,
    name: &str,
    operation: OfWords<S>,
) -> Answer
where
    S::Key: Word,
    S::Value: Word + HexEncoding,
    S::ValueEncoding: OperationCodec<Family, S>,
{
    let operation = operation?;
    match name {
        "into-key" => said_or_none(alloc, operation.into_key()),
        name => asked(alloc, name, &operation),
    }
}

// The answer to a question of this name.
fn named<S: Update + Spoken + Display + PartialEq>(
    alloc: Global,
    cfg: &Cfg<S>,
    name: &str,
    words: &[&str],
) -> Answer
where
    S::Key: Word,
    S::Value: Word + HexEncoding,
    S::ValueEncoding: OperationCodec<Family, S>,
{
    match name {
        "read" => whole::<S>(alloc, words, cfg),
        "front" => front::<S>(alloc, words, cfg),
        name => of_operation::<S>(alloc, name, of_words(alloc, words)),
    }
}

/// The answer to a question about operations over these updates.
pub fn answer<S: Update + Spoken + Display + PartialEq>(
    alloc: Global,
    cfg: &Cfg<S>,
    words: &[&str],
) -> Answer
where
    S::Key: Word,
    S::Value: Word + HexEncoding,
    S::ValueEncoding: OperationCodec<Family, S>,
{
    match words {
        [name, words @ ..] => named::<S>(alloc, cfg, name, words),
        [] => Err(Unanswered::BadLine),
    }
}
