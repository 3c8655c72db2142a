//! What is asked next: the batch that is put together, the settings that were said last, and the steps that wait.

use crate::words::{Name, key, sizes, small_sizes};
use auth_store_ledger::Batch;
use auth_store_session::Step;
use case_lines::Unanswered;
use device_lines::settings::{changed, first_settings};
use fault_storage::Config;
use std::alloc::Global;
use std::mem;

/// A step of a session.
pub type Asking = Step<Name, u64>;

/// What was said for the steps that come.
#[derive(Drop)]
pub struct Asked {
    batch: Batch<Name, u64>,
    settings: Config,
    waiting: Vec<Asking>,
}

// The step that asks for a proof: of a key, of the operation at a location, or of those from a location up to another.
fn proof(words: &[&str]) -> Result<Asking, Unanswered> {
    match words {
        [digits] => Ok(Step::ProveKey(key(digits)?)),
        ["operation", location] => Ok(Step::ProveOperation(location.parse()?)),
        ["range", start, stop] => Ok(Step::ProveRange(start.parse()?, stop.parse()?)),
        ["log", start, stop] => Ok(Step::ProveLog(start.parse()?, stop.parse()?)),
        _ => Err(Unanswered::BadLine),
    }
}

impl Asked {
    /// Nothing yet.
    pub fn nothing(alloc: Global) -> Asked {
        Asked {
            batch: Batch::new(alloc),
            settings: first_settings(),
            waiting: Vec::new(alloc),
        }
    }

    /// The settings that were said last.
    pub fn settings(&self) -> Config {
        self.settings
    }

    /// Forgets the settings that were said: a new device has its first ones.
    pub fn begin_settings(&mut self) {
        self.settings = first_settings();
    }

    /// Changes the settings by these words, and gives them.
    pub fn changed_settings(&mut self, words: &[&str]) -> Result<Config, Unanswered> {
        self.settings = changed(self.settings, words)?;
        Ok(self.settings)
    }

    /// Puts a key to a value, in the batch.
    pub fn put(&mut self, alloc: Global, digits: &str, value: &str) -> Result<String, Unanswered> {
        self.batch.put(key(digits)?, value.parse()?)?;
        Ok("ok".to_string(alloc)?)
    }

    /// Deletes a key, in the batch.
    pub fn delete(&mut self, alloc: Global, digits: &str) -> Result<String, Unanswered> {
        self.batch.delete(key(digits)?)?;
        Ok("ok".to_string(alloc)?)
    }

    // A commit of the batch, which begins anew.
    fn commit(&mut self, alloc: Global, metadata: Option<u64>) -> Asking {
        Step::Commit(mem::replace(&mut self.batch, Batch::new(alloc)), metadata)
    }

    /// The step of a session that these words ask for.
    pub fn step(&mut self, alloc: Global, words: &[&str]) -> Result<Asking, Unanswered> {
        match words {
            ["open"] => Ok(Step::Open(small_sizes())),
            ["open", write, replay] => Ok(Step::Open(sizes(write, replay)?)),
            ["commit"] => Ok(self.commit(alloc, None)),
            ["commit", metadata] => {
                let metadata = metadata.parse()?;
                Ok(self.commit(alloc, Some(metadata)))
            }
            ["get", digits] => Ok(Step::Get(key(digits)?)),
            ["prune", location] => Ok(Step::Prune(location.parse()?)),
            ["prove", rest @ ..] => proof(rest),
            ["root"] => Ok(Step::Root),
            ["commits"] => Ok(Step::Commits),
            ["floor"] => Ok(Step::Floor),
            ["len"] => Ok(Step::Len),
            ["close"] => Ok(Step::Close),
            ["crash"] => Ok(Step::Crash),
            ["cut", calls] => Ok(Step::CutAfter(calls.parse()?)),
            words => Ok(Step::Config(self.changed_settings(words)?)),
        }
    }

    /// Puts a step behind those that wait.
    pub fn wait(&mut self, alloc: Global, words: &[&str]) -> Result<String, Unanswered> {
        let step = self.step(alloc, words)?;
        self.waiting.push(step)?;
        Ok("ok".to_string(alloc)?)
    }

    /// The steps that wait, of which there is none then.
    pub fn take_waiting(&mut self, alloc: Global) -> Vec<Asking> {
        mem::replace(&mut self.waiting, Vec::new(alloc))
    }
}
