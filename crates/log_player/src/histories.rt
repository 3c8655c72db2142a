//! A log of operations: what batches add to it, which of its operations are active, and its state.

use crate::entries::{Entry, Name, commit, entry, key, texts};
use auth_store_log::{bytes_of, places_of_log};
use auth_store_parts::batch::{Batch, apply_batch};
use auth_store_parts::history::activity::is_active;
use auth_store_parts::history::{
    Places, RankedPlaces, activity_bits, changes_of, inactivity_floor, inactivity_floor_by,
    inactivity_floor_from, latest_map_of,
};
use auth_store_parts::state;
use case_lines::{Unanswered, digits};
use merkle_forest::Location;
use state_ops::Operation;
use std::alloc::{AllocError, Global};
use std::collections::BTreeMap;
use std::mem;

/// A log, and the batch that is put together.
#[derive(Drop)]
pub struct History {
    alloc: Global,
    log: Vec<Entry>,
    batch: Batch<Name, u64>,
}

// A state in words: `KEY=VALUE` of each key; `none` of the empty one.
fn state_text(alloc: Global, state: &BTreeMap<Name, u64>) -> Result<String, AllocError> {
    let mut line = String::new(alloc);
    for (key, value) in state {
        if !line.is_empty() {
            line.push_str(" ")?;
        }
        let digits = hex::encode(alloc, key.as_bytes())?;
        let text = format!(in alloc; "{digits}={value}")?;
        line.push_str(text.as_str())?;
    }
    if line.is_empty() {
        line.push_str("none")?;
    }
    Ok(line)
}

// A number, or `none`.
fn number_text(alloc: Global, number: Option<usize>) -> Result<String, AllocError> {
    match number {
        Some(number) => format!(in alloc; "{number}"),
        None => "none".to_string(alloc),
    }
}

impl History {
    /// The log of the empty history: a commit of nothing.
    pub fn new(alloc: Global) -> Result<History, AllocError> {
        let mut log = Vec::new(alloc);
        log.push(commit(0))?;
        Ok(History {
            alloc,
            log,
            batch: Batch::new(alloc),
        })
    }

    // Appends the batch with its commit, and tells what was appended.
    fn commit(&mut self, metadata: Option<u64>) -> Result<String, AllocError> {
        let batch = mem::replace(&mut self.batch, Batch::new(self.alloc));
        let before = self.log.len();
        for operation in changes_of(self.alloc, &self.log, &batch)? {
            self.log.push(operation)?;
        }
        let floor = inactivity_floor(&self.log);
        self.log
            .push(Operation::CommitFloor(metadata, Location::new(floor)))?;
        let appended = self.log.get(before..).unwrap_or(&[]);
        texts(self.alloc, appended)
    }

    // Which of the operations are active, each as a digit.
    fn bits(&self) -> Result<String, AllocError> {
        let places = Places::of(self.alloc, &self.log)?;
        let mut line = String::new(self.alloc);
        for bit in activity_bits(self.alloc, &self.log, &places)? {
            line.push_str(if bit { "1" } else { "0" })?;
        }
        Ok(line)
    }

    // Whether an operation is active, given those behind it.
    fn is_active(&self, index: usize) -> Result<bool, Unanswered> {
        match self.log.get(index..) {
            Some([operation, later @ ..]) => Ok(is_active(operation, later)),
            _ => Err(Unanswered::BadLine),
        }
    }

    // The floor, looked for from a place on that is none behind it: one by one, or by the places of all keys.
    fn floor_from(&self, start: u64, is_by_places: bool) -> Result<u64, Unanswered> {
        let log = self.log.as_slice();
        if start > inactivity_floor(log) {
            return Err(Unanswered::BadLine);
        }
        if is_by_places {
            let mut ranked = RankedPlaces::of(self.alloc, log)?;
            ranked.follow_all(0, log);
            return Ok(inactivity_floor_by(log, &ranked, start));
        }
        Ok(inactivity_floor_from(log, start))
    }

    // Where the update stands that gives the key of an operation its value. A commit has no key.
    fn ranked_place(&self, index: usize) -> Result<Option<usize>, Unanswered> {
        let log = self.log.as_slice();
        match log.get(index) {
            Some(Operation::CommitFloor(_, _)) | None => Err(Unanswered::BadLine),
            Some(_) => {
                let mut ranked = RankedPlaces::of(self.alloc, log)?;
                ranked.follow_all(0, log);
                Ok(ranked.get(index))
            }
        }
    }

    // What is asked of the state.
    fn of_state(&self, words: &[&str]) -> Result<String, Unanswered> {
        let alloc = self.alloc;
        let now = latest_map_of(alloc, &self.log)?;
        match words {
            ["state"] => Ok(state_text(alloc, &now)?),
            ["apply"] => Ok(state_text(alloc, &apply_batch(now, &self.batch)?)?),
            ["value", digits] => match state::get(&now, &key(digits)?) {
                Some(value) => Ok(format!(in alloc; "{value}")?),
                None => Ok("none".to_string(alloc)?),
            },
            ["next", digits] => match state::next_key(&now, &key(digits)?) {
                Some(next) => Ok(hex::encode(alloc, next.as_bytes())?),
                None => Ok("none".to_string(alloc)?),
            },
            _ => Err(Unanswered::BadLine),
        }
    }

    // What is asked of the places of keys.
    fn of_places(&self, words: &[&str]) -> Result<String, Unanswered> {
        let alloc = self.alloc;
        match words {
            ["place", digits] => {
                let places = Places::of(alloc, &self.log)?;
                Ok(number_text(alloc, places.get(&key(digits)?))?)
            }
            ["ranked", index] => Ok(number_text(alloc, self.ranked_place(index.parse()?)?)?),
            ["is", "log"] => {
                let is_log = places_of_log(alloc, &self.log)?.is_some();
                Ok(format!(in alloc; "{is_log}")?)
            }
            words => self.of_state(words),
        }
    }

    // What is asked of the log's operations.
    fn of_log(&self, words: &[&str]) -> Result<String, Unanswered> {
        let alloc = self.alloc;
        match words {
            ["log"] => Ok(texts(alloc, &self.log)?),
            ["len"] => Ok(format!(in alloc; "{}", self.log.len())?),
            ["bytes"] => digits(alloc, &bytes_of(alloc, &self.log)?),
            ["changes"] => Ok(texts(alloc, &changes_of(alloc, &self.log, &self.batch)?)?),
            ["bits"] => Ok(self.bits()?),
            ["active", index] => Ok(format!(in alloc; "{}", self.is_active(index.parse()?)?)?),
            ["floor"] => Ok(format!(in alloc; "{}", inactivity_floor(&self.log))?),
            ["floor", "from", start] => {
                let floor = self.floor_from(start.parse()?, false)?;
                Ok(format!(in alloc; "{floor}")?)
            }
            ["floor", "by", start] => {
                let floor = self.floor_from(start.parse()?, true)?;
                Ok(format!(in alloc; "{floor}")?)
            }
            words => self.of_places(words),
        }
    }

    /// What is answered of the log and of the batch.
    pub fn answer(&mut self, alloc: Global, words: &[&str]) -> Result<String, Unanswered> {
        match words {
            ["put", digits, value] => self.batch.put(key(digits)?, value.parse()?)?,
            ["del", digits] => self.batch.delete(key(digits)?)?,
            ["push", words @ ..] => push(&mut self.log, entry(words)?)?,
            ["commit"] => return Ok(self.commit(None)?),
            ["commit", metadata] => {
                let metadata = metadata.parse()?;
                return Ok(self.commit(Some(metadata))?);
            }
            words => return self.of_log(words),
        }
        Ok("ok".to_string(alloc)?)
    }
}

// Appends an operation.
fn push(log: &mut Vec<Entry>, entry: Entry) -> Result<(), AllocError> {
    Ok(log.push(entry)?)
}
