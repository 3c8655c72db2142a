//! Plays cases of trees in memory and of their proofs, for both families and both ways to fold peaks.
#![tactic(auto)]

mod batch;
mod building;
mod checks;
mod claims;
mod definitions;
mod proofs;
mod reading;
mod shelves;
mod stop;
mod stores;
mod texts;
mod told;
mod tree;
mod waiting;
mod widths;
mod words;

use crate::shelves::{Shelf, Shelves, bagging};
use crate::stop::Answer;
use crate::words::Hash;
use case_lines::{Player, Unanswered};
use merkle_core::{mmb, mmr};
use merkle_forest::{Bagging, ByteHash};
use std::alloc::Global;
use std::collections::BTreeMap;

/// What a case has made, of the family that it asked for.
#[derive(Drop)]
enum Trees {
    Range(Shelves<mmr::Family>),
    Belt(Shelves<mmb::Family>),
}

// The trees of a family, by the names that its module has.
fn range(alloc: Global, fold: Bagging) -> Trees {
    let hasher: mmr::StandardHasher<ByteHash> = mmr::StandardHasher::new(fold);
    let trees: Shelf<mmr::Mmr<Hash>> = BTreeMap::new(alloc);
    let proofs: Shelf<mmr::Proof<Hash>> = BTreeMap::new(alloc);
    Trees::Range(Shelves::new(alloc, hasher, trees, proofs))
}

fn belt(alloc: Global, fold: Bagging) -> Trees {
    let hasher: mmb::StandardHasher<ByteHash> = mmb::StandardHasher::new(fold);
    let trees: Shelf<mmb::Mmb<Hash>> = BTreeMap::new(alloc);
    let proofs: Shelf<mmb::Proof<Hash>> = BTreeMap::new(alloc);
    Trees::Belt(Shelves::new(alloc, hasher, trees, proofs))
}

impl Trees {
    // Begins anew with these.
    fn begin_with(&mut self, alloc: Global, trees: Trees) -> Answer {
        *self = trees;
        told::ok(alloc)
    }

    fn begin_range(&mut self, alloc: Global, fold: &str) -> Answer {
        self.begin_with(alloc, range(alloc, bagging(fold)?))
    }

    fn begin_belt(&mut self, alloc: Global, fold: &str) -> Answer {
        self.begin_with(alloc, belt(alloc, bagging(fold)?))
    }

    // The answer of the family that the case asked for.
    fn answer_of_family(&mut self, alloc: Global, words: &[&str]) -> Answer {
        match self {
            Trees::Range(shelves) => shelves.answer(alloc, words),
            Trees::Belt(shelves) => shelves.answer(alloc, words),
        }
    }

    fn answer_or_stop(&mut self, alloc: Global, words: &[&str]) -> Answer {
        match words {
            ["mmr", fold] => self.begin_range(alloc, fold),
            ["mmb", fold] => self.begin_belt(alloc, fold),
            words => self.answer_of_family(alloc, words),
        }
    }
}

impl Player for Trees {
    fn begin(alloc: Global) -> Result<Trees, Unanswered> {
        Ok(range(alloc, Bagging::ForwardFold))
    }

    fn answer(&mut self, alloc: Global, words: &[&str]) -> Result<String, Unanswered> {
        match self.answer_or_stop(alloc, words) {
            Ok(told) => Ok(told),
            Err(stop) => stop.told(alloc),
        }
    }
}

fn main(rt: HostRuntime) -> anyhow::Result<()> {
    case_lines::play::<Trees>(&rt)
}
