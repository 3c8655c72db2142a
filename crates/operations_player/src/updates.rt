//! Updates by themselves.

use crate::spoken::{Answer, Spoken, Word, bytes_of, fault, joined, shown, written};
use case_lines::{Unanswered, digits};
use merkle_forest::codec::Decode;
use state_ops::Key;
use state_ops::update::{Parts, Update, cached};
use std::alloc::Global;

// How often an update is asked for by what it lends to the next, and the update with what was lent put back.
fn lent<S: Update + Spoken + Parts>(alloc: Global, update: S) -> Answer
where
    S::Cached: Drop,
{
    let mut calls = 0;
    let lent = cached(|| {
        calls = 1;
        &update
    })?;
    let own = update.cache()?;
    drop(own);
    let update = with_cached(update, lent);
    joined(alloc, shown(alloc, calls), update.say(alloc))
}

// The update with this kept beside its key and its value.
fn with_cached<S: Update + Parts>(update: S, cached: S::Cached) -> S
where
    S::Cached: Drop,
{
    let (key, value, old) = update.into_parts();
    drop(old);
    S::from_parts(key, value, cached)
}

// An update that is taken apart, and put together again.
fn again<S: Update + Spoken + Parts>(alloc: Global, update: S) -> Answer {
    let (key, value, cached) = update.into_parts();
    S::from_parts(key, value, cached).say(alloc)
}

// A copy of an update.
fn copied<S: Update + Spoken>(alloc: Global, update: &S) -> Answer {
    update.try_copy()?.say(alloc)
}

// The update that some bytes encode.
fn whole<S: Spoken + Decode>(alloc: Global, words: &[&str], cfg: &S::Cfg) -> Answer {
    match S::decode_cfg(alloc, &bytes_of(alloc, words)?, cfg) {
        Ok(update) => update.say(alloc),
        Err(error) => fault(alloc, error),
    }
}

// What is asked of an update that is lent.
fn asked<S: Update + Spoken>(alloc: Global, name: &str, update: &S) -> Answer
where
    S::Value: Word,
{
    match name {
        "write" => written(alloc, update),
        "key" => digits(alloc, update.key().as_bytes()),
        "value" => update.value().say(alloc),
        "copy" => copied(alloc, update),
        _ => Err(Unanswered::BadLine),
    }
}

// What is asked of an update.
fn of_update<S: Update + Spoken + Parts>(alloc: Global, name: &str, update: S) -> Answer
where
    S::Value: Word,
    S::Key: Word,
    S::Cached: Drop,
{
    match name {
        "into-key" => update.into_key().say(alloc),
        "into-value" => update.into_value().say(alloc),
        "lent" => lent(alloc, update),
        "parts" => again(alloc, update),
        name => asked(alloc, name, &update),
    }
}

// The answer to a question of this name.
fn named<S: Update + Spoken + Decode + Parts>(
    alloc: Global,
    cfg: &S::Cfg,
    name: &str,
    words: &[&str],
) -> Answer
where
    S::Value: Word,
    S::Key: Word,
    S::Cached: Drop,
{
    match name {
        "read" => whole::<S>(alloc, words, cfg),
        name => of_update(alloc, name, S::of_words(alloc, words)?),
    }
}

/// The answer to a question about an update.
pub fn answer<S: Update + Spoken + Decode + Parts>(
    alloc: Global,
    cfg: &S::Cfg,
    words: &[&str],
) -> Answer
where
    S::Value: Word,
    S::Key: Word,
    S::Cached: Drop,
{
    match words {
        [name, words @ ..] => named::<S>(alloc, cfg, name, words),
        [] => Err(Unanswered::BadLine),
    }
}
