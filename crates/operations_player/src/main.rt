//! Plays cases of operations and their encodings. README.md has its words.
#![tactic(auto)]

mod operations;
mod spoken;
mod store;
mod updates;

use case_lines::{Player, Unanswered, play};
use merkle_forest::codec::{FixedBytes, RangeCfg};
use merkle_forest::mmr::Family;
use spoken::{Answer, Word, joined, shown};
use state_ops::Operation;
use state_ops::fixed::fixed_size;
use state_ops::update::{FixedUpdate, Ordered, Unordered};
use state_ops::value::{FixedEncoding, VariableEncoding};
use state_ops::variable::operation_size;
use std::alloc::Global;

/// Keys of four bytes.
type Short = FixedBytes<4>;

/// Keys of eight bytes.
type Long = FixedBytes<8>;

type Bytes = VariableEncoding<Vec<u8>>;

type Number = FixedEncoding<u64>;

/// How keys, and values of no fixed size, are read.
type Limits = ((), RangeCfg);

/// How many bytes a value of no fixed size may have.
const GREATEST_VALUE: usize = 16;

// How many bytes an operation has that is of one size, and an update.
fn sizes<S: FixedUpdate>(alloc: Global) -> Answer {
    let operation = fixed_size::<Short, u64, S>();
    joined(
        alloc,
        shown(alloc, operation),
        shown(alloc, S::update_size()),
    )
}

// How many bytes a delete has that is of no fixed size.
fn delete_size(alloc: Global, key: &str) -> Answer {
    let key = Short::of_word(alloc, key)?;
    let delete: Operation<Family, Ordered<Short, Bytes>> = Operation::Delete(key);
    shown(alloc, operation_size(&delete))
}

// The answer about ordered operations with numbers for values.
fn ordered_fixed(alloc: Global, words: &[&str]) -> Answer {
    match words {
        ["size"] => sizes::<Ordered<Short, Number>>(alloc),
        ["alone", words @ ..] => updates::answer::<Ordered<Short, Number>>(alloc, &(), words),
        words => operations::answer::<Ordered<Short, Number>>(alloc, &(), words),
    }
}

// The answer about unordered operations with numbers for values.
fn unordered_fixed(alloc: Global, words: &[&str]) -> Answer {
    match words {
        ["size"] => sizes::<Unordered<Short, Number>>(alloc),
        ["alone", words @ ..] => updates::answer::<Unordered<Short, Number>>(alloc, &(), words),
        words => operations::answer::<Unordered<Short, Number>>(alloc, &(), words),
    }
}

// The answer about ordered operations with bytes for values.
fn ordered_variable(alloc: Global, limits: &Limits, words: &[&str]) -> Answer {
    match words {
        ["size", "delete", key] => delete_size(alloc, key),
        ["alone", words @ ..] => updates::answer::<Ordered<Short, Bytes>>(alloc, limits, words),
        words => operations::answer::<Ordered<Short, Bytes>>(alloc, limits, words),
    }
}

// The answer about unordered operations with bytes for values.
fn unordered_variable(alloc: Global, limits: &Limits, words: &[&str]) -> Answer {
    match words {
        ["alone", words @ ..] => updates::answer::<Unordered<Short, Bytes>>(alloc, limits, words),
        words => operations::answer::<Unordered<Short, Bytes>>(alloc, limits, words),
    }
}

// The answer about operations with bytes for values.
fn variable(alloc: Global, order: &str, words: &[&str]) -> Answer {
    let limits = ((), RangeCfg::new(0, GREATEST_VALUE));
    match order {
        "ordered" => ordered_variable(alloc, &limits, words),
        "unordered" => unordered_variable(alloc, &limits, words),
        _ => Err(Unanswered::BadLine),
    }
}

// The answer about operations with numbers for values.
fn fixed(alloc: Global, order: &str, words: &[&str]) -> Answer {
    match order {
        "ordered" => ordered_fixed(alloc, words),
        "unordered" => unordered_fixed(alloc, words),
        _ => Err(Unanswered::BadLine),
    }
}

/// Plays the cases of operations. It keeps nothing from one line to the next.
#[derive(Drop)]
struct OperationsPlayer;

impl Player for OperationsPlayer {
    fn begin(_alloc: Global) -> Result<Self, Unanswered> {
        Ok(OperationsPlayer)
    }

    fn answer(&mut self, alloc: Global, words: &[&str]) -> Result<String, Unanswered> {
        match words {
            ["store", words @ ..] => store::answer(alloc, words),
            [order, "fixed", words @ ..] => fixed(alloc, order, words),
            [order, "variable", words @ ..] => variable(alloc, order, words),
            _ => Err(Unanswered::BadLine),
        }
    }
}

fn main(rt: HostRuntime) -> anyhow::Result<()> {
    play::<OperationsPlayer>(&rt)
}
