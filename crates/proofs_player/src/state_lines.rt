//! Cases of a state in one family of trees.

use crate::arguments::{Answer, Hash, array, truth_if};
use crate::reading::Shown;
use crate::state::State;
use crate::{building, canonical, counts, grafted, log_proofs, reading, strings};
use bytes::Bytes;
use case_lines::Unanswered;
use merkle_forest::codec::FixedBytes;
use merkle_forest::{ByteHash, Graftable, PendingOf};
use state_proofs::ordered::shows_value;
use std::alloc::Global;

impl<F: Graftable + PendingOf<Hash>> State<F> {
    /// The answer to a line about a state, or about a proof under a root.
    pub(crate) fn answer(&mut self, alloc: Global, shown: Shown<'_>, words: &[&str]) -> Answer {
        match words {
            [subject, words @ ..] => self.answer_about(alloc, shown, subject, words),
            [] => Err(Unanswered::BadLine),
        }
    }

    // The answer to a line about this.
    fn answer_about(
        &mut self,
        alloc: Global,
        shown: Shown<'_>,
        subject: &str,
        words: &[&str],
    ) -> Answer {
        match subject {
            "state" => self.made(alloc, words),
            "tree" => self.tree_told(alloc, words),
            "chunks" => grafted::make(alloc, &self.tree, &mut self.chunks, words),
            "both" => self.of_both(alloc, words),
            subject => self.answer_apart(alloc, shown, subject, words),
        }
    }

    // The answer to a line that changes nothing.
    fn answer_apart(
        &self,
        alloc: Global,
        shown: Shown<'_>,
        subject: &str,
        words: &[&str],
    ) -> Answer {
        match subject {
            "log_proof" => log_proofs::proved(alloc, &self.tree, words),
            "whole" => canonical::told(alloc, self, words),
            "prove" => building::of_state(alloc, self, *shown.root, words),
            "count" => counts::of_family::<F>(alloc, words),
            "hash" => grafted::hashed::<F>(alloc, words),
            subject => of_bytes::<F>(alloc, shown, subject, words),
        }
    }

    // The answer to a line about both trees.
    fn of_both(&mut self, alloc: Global, words: &[&str]) -> Answer {
        match &mut self.chunks {
            Some(chunks) => grafted::of_both(alloc, &self.tree, chunks, words),
            None => Err(Unanswered::BadLine),
        }
    }
}

// Whether the kept bytes are a proof that a key has a value.
fn value_shown<F: Graftable + PendingOf<Hash>>(
    alloc: Global,
    shown: Shown<'_>,
    width: usize,
    key: [u8; 8],
    value: u64,
) -> Answer {
    let key = FixedBytes::new(key);
    truth_if(
        alloc,
        shows_value::<F, ByteHash, FixedBytes<8>, u64>(
            alloc,
            width,
            shown.root,
            &key,
            &value,
            shown.bytes,
        ),
    )
}

// A line about the kept bytes.
fn of_bytes<F: Graftable + PendingOf<Hash>>(
    alloc: Global,
    shown: Shown<'_>,
    kind: &str,
    words: &[&str],
) -> Answer {
    match words {
        words if kind == "witness" => reading::witness::<F>(alloc, shown, words),
        [width, key, value] if kind == "shows_value" => {
            value_shown::<F>(alloc, shown, width.parse()?, array(key)?, value.parse()?)
        }
        [first, words @ ..] => of_proof::<F>(alloc, shown, kind, first, words),
        [] => Err(Unanswered::BadLine),
    }
}

// A line about a proof without a chunk, behind which most digests it has, or with a chunk, behind its form.
fn of_proof<F: Graftable + PendingOf<Hash>>(
    alloc: Global,
    shown: Shown<'_>,
    kind: &str,
    first: &str,
    words: &[&str],
) -> Answer {
    match kind {
        "range" => reading::range::<F>(alloc, shown, first.parse()?, words),
        "log" => log_proofs::of_log::<F>(alloc, shown, first.parse()?, words),
        "strings" => strings::told::<F>(alloc, shown, first, words),
        kind => of_form::<F>(alloc, shown, kind, first, words),
    }
}

/// The bytes of a chunk, and the greatest count of digests of a proof.
#[derive(Clone, Copy)]
struct Limits {
    width: usize,
    most: usize,
}

// A line about a proof with a chunk, in one of the forms that hold chunks.
fn of_form<F: Graftable + PendingOf<Hash>>(
    alloc: Global,
    shown: Shown<'_>,
    kind: &str,
    form: &str,
    words: &[&str],
) -> Answer {
    match words {
        [width, most, words @ ..] => {
            let (width, most) = (width.parse()?, most.parse()?);
            of_kind::<F>(alloc, shown, kind, form, Limits { width, most }, words)
        }
        _ => Err(Unanswered::BadLine),
    }
}

// A line about a proof of this kind.
fn of_kind<F: Graftable + PendingOf<Hash>>(
    alloc: Global,
    shown: Shown<'_>,
    kind: &str,
    form: &str,
    limits: Limits,
    words: &[&str],
) -> Answer {
    match kind {
        "operation" => of_operation::<F>(alloc, shown, form, limits, words),
        "value" => of_value::<F>(alloc, shown, form, limits, words),
        "absence" => of_absence::<F>(alloc, shown, form, limits, words),
        _ => Err(Unanswered::BadLine),
    }
}

// A line about a proof of an operation.
fn of_operation<F: Graftable + PendingOf<Hash>>(
    alloc: Global,
    shown: Shown<'_>,
    form: &str,
    limits: Limits,
    words: &[&str],
) -> Answer {
    let Limits { width, most } = limits;
    match (form, width) {
        ("array", 1) => reading::operation::<F, [u8; 1]>(alloc, shown, &most, words),
        ("array", 32) => reading::operation::<F, [u8; 32]>(alloc, shown, &most, words),
        ("bytes", _) => reading::operation::<F, Bytes>(alloc, shown, &(width, most), words),
        ("vector", _) => reading::operation::<F, Vec<u8>>(alloc, shown, &(width, most), words),
        _ => Err(Unanswered::BadLine),
    }
}

// A line about a proof of a value.
fn of_value<F: Graftable + PendingOf<Hash>>(
    alloc: Global,
    shown: Shown<'_>,
    form: &str,
    limits: Limits,
    words: &[&str],
) -> Answer {
    let Limits { width, most } = limits;
    match (form, width) {
        ("array", 1) => reading::value::<F, [u8; 1]>(alloc, shown, &(most, ()), words),
        ("array", 32) => reading::value::<F, [u8; 32]>(alloc, shown, &(most, ()), words),
        ("bytes", _) => reading::value::<F, Bytes>(alloc, shown, &((width, most), ()), words),
        ("vector", _) => reading::value::<F, Vec<u8>>(alloc, shown, &((width, most), ()), words),
        _ => Err(Unanswered::BadLine),
    }
}

// A line about a proof of absence.
fn of_absence<F: Graftable + PendingOf<Hash>>(
    alloc: Global,
    shown: Shown<'_>,
    form: &str,
    limits: Limits,
    words: &[&str],
) -> Answer {
    let Limits { width, most } = limits;
    let chunk = (width, most);
    match (form, width) {
        ("array", 1) => reading::absence::<F, [u8; 1]>(alloc, shown, &(most, (), ()), words),
        ("array", 32) => reading::absence::<F, [u8; 32]>(alloc, shown, &(most, (), ()), words),
        ("bytes", _) => reading::absence::<F, Bytes>(alloc, shown, &(chunk, (), ()), words),
        ("vector", _) => reading::absence::<F, Vec<u8>>(alloc, shown, &(chunk, (), ()), words),
        _ => Err(Unanswered::BadLine),
    }
}
