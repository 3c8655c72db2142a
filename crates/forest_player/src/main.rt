//! Plays cases of the codec, of both families' forests and of their digests. README.md has its words.
#![tactic(auto)]

mod codec;
mod hashing;
mod nodes;
mod numbers;
mod told;

use case_lines::{Player, Unanswered, play};
use merkle_forest::codec::FixedBytes;
use merkle_forest::{Graftable, PendingOf, mmb, mmr};
use std::alloc::Global;

// The answer to a question about a family: its name, and the words behind it.
fn of_family<F: Graftable + PendingOf<FixedBytes<32>>>(
    alloc: Global,
    name: &str,
    words: &[&str],
) -> Result<String, Unanswered> {
    match name {
        "location" => numbers::location_answer::<F>(alloc, words),
        "position" => numbers::position_answer::<F>(alloc, words),
        "decode" => numbers::decoded::<F>(alloc, words),
        "digest" => hashing::answer::<F>(alloc, words),
        name => nodes::answer::<F>(alloc, name, words),
    }
}

/// Plays the cases of the forest. It keeps nothing from one line to the next.
#[derive(Drop)]
struct ForestPlayer;

impl Player for ForestPlayer {
    fn begin(_alloc: Global) -> Result<Self, Unanswered> {
        Ok(ForestPlayer)
    }

    fn answer(&mut self, alloc: Global, words: &[&str]) -> Result<String, Unanswered> {
        match words {
            ["codec", words @ ..] => codec::answer(alloc, words),
            ["mmr", name, words @ ..] => of_family::<mmr::Family>(alloc, name, words),
            ["mmb", name, words @ ..] => of_family::<mmb::Family>(alloc, name, words),
            _ => Err(Unanswered::BadLine),
        }
    }
}

fn main(rt: HostRuntime) -> anyhow::Result<()> {
    play::<ForestPlayer>(&rt)
}
