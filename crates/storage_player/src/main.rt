//! Plays cases of the fault storage: its formats, a store in memory, and one that fails over it. README.md has its
//! words.
#![tactic(auto)]

mod calls;
mod debts;
mod formats;
mod names;
mod refusals;
mod settings;
mod stores;
mod told;
mod words;

use case_lines::{Player, Unanswered, play};
use debts::Debts;
use std::alloc::Global;
use stores::{Failing, Plain};

/// The store of a case.
#[derive(Drop)]
enum Stored {
    Plain(Plain),
    Failing(Failing),
}

impl Stored {
    // The store under one that fails by these words.
    fn failing(self, alloc: Global, words: &[&str]) -> Result<Stored, Unanswered> {
        let plain = match self {
            Stored::Plain(plain) => plain,
            Stored::Failing(failing) => failing.plain(alloc),
        };
        Ok(Stored::Failing(plain.failing(alloc, words)?))
    }

    // The store that never fails, below.
    fn plain(self, alloc: Global) -> Stored {
        match self {
            Stored::Plain(plain) => Stored::Plain(plain),
            Stored::Failing(failing) => Stored::Plain(failing.plain(alloc)),
        }
    }

    // Makes a call of the store.
    fn answer(&mut self, alloc: Global, words: &[&str]) -> Result<String, Unanswered> {
        match self {
            Stored::Plain(plain) => plain.answer(alloc, words),
            Stored::Failing(failing) => failing.answer(alloc, words),
        }
    }
}

/// Plays the cases of the fault storage.
#[derive(Drop)]
struct StoragePlayer {
    stored: Stored,
    debts: Debts,
}

impl StoragePlayer {
    // Takes the store out, and leaves an empty one.
    fn take(&mut self, alloc: Global) -> Stored {
        std::mem::replace(&mut self.stored, Stored::Plain(Plain::new(alloc)))
    }
}

impl Player for StoragePlayer {
    fn begin(alloc: Global) -> Result<Self, Unanswered> {
        Ok(StoragePlayer {
            stored: Stored::Plain(Plain::new(alloc)),
            debts: Debts::new(alloc),
        })
    }

    fn answer(&mut self, alloc: Global, words: &[&str]) -> Result<String, Unanswered> {
        match words {
            ["failing", words @ ..] => self.stored = self.take(alloc).failing(alloc, words)?,
            ["plain"] => self.stored = self.take(alloc).plain(alloc),
            ["format", words @ ..] => return formats::answer(alloc, words),
            ["pending", words @ ..] => return self.debts.answer(alloc, words),
            words => return self.stored.answer(alloc, words),
        }
        Ok("ok".to_string(alloc)?)
    }
}

fn main(rt: HostRuntime) -> anyhow::Result<()> {
    play::<StoragePlayer>(&rt)
}
