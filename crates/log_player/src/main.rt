//! Plays cases of logs: histories as operations and as bytes, what a writer leaves of them on a disk and what is
//! recovered of that, and the texts of the script.
#![tactic(auto)]

mod disks;
mod drips;
mod entries;
mod histories;
mod lives;
mod records;
mod refusals;
mod reports;
mod texts;

use case_lines::{Player, Unanswered, play};
use histories::History;
use std::alloc::Global;

/// What stands in a case: a log with the batch that is put together.
#[derive(Drop)]
struct Logs {
    history: History,
}

impl Player for Logs {
    fn begin(alloc: Global) -> Result<Logs, Unanswered> {
        Ok(Logs {
            history: History::new(alloc)?,
        })
    }

    fn answer(&mut self, alloc: Global, words: &[&str]) -> Result<String, Unanswered> {
        match words {
            ["records", words @ ..] => records::answer(alloc, words),
            ["disk", words @ ..] => disks::answer(alloc, words),
            ["live", words @ ..] => lives::answer(alloc, words),
            ["text", words @ ..] => texts::answer(alloc, words),
            ["report", words @ ..] => reports::answer(alloc, words),
            ["script", words @ ..] => drips::answer(alloc, words),
            words => self.history.answer(alloc, words),
        }
    }
}

fn main(rt: HostRuntime) -> anyhow::Result<()> {
    play::<Logs>(&rt)
}
