//! Plays cases of bits, of their maps and of the proofs of a state: a call a line, its answer a line.
#![tactic(auto)]

mod arguments;
mod bits;
mod building;
mod canonical;
mod counts;
mod grafted;
mod kept_bits;
mod log_proofs;
mod map_proofs;
mod map_told;
mod maps;
mod overlays;
mod reading;
mod refusals;
mod state;
mod state_lines;
mod strings;

use arguments::{Answer, Hash, Line, digest, done};
use bits::Bits;
use case_lines::{Player, Unanswered, bytes};
use maps::Map;
use merkle_forest::codec::FixedBytes;
use merkle_forest::{mmb, mmr};
use reading::Shown;
use state::State;
use state_proofs::ChunkSize;
use std::alloc::Global;

/// A state in a tree of either family.
#[derive(Drop)]
enum Family {
    Range(State<mmr::Family>),
    Belt(State<mmb::Family>),
}

/// What a case has made so far.
#[derive(Drop)]
struct ProofsPlayer {
    bits: Bits,
    map: Map,
    state: Option<Family>,
    root: Hash,
    proof: Vec<u8>,
}

impl ProofsPlayer {
    // Begins a state without operations: `family NAME WIDTH`.
    fn begun(&mut self, alloc: Global, name: &str, width: usize) -> Answer {
        let Some(chunk_size) = ChunkSize::new(width) else {
            return Err(Unanswered::BadLine);
        };
        self.state = match name {
            "mmr" => Some(Family::Range(State::empty(alloc, chunk_size))),
            "mmb" => Some(Family::Belt(State::empty(alloc, chunk_size))),
            _ => return Err(Unanswered::BadLine),
        };
        done(alloc)
    }

    // Keeps a root.
    fn keep_root(&mut self, alloc: Global, root: Hash) -> Answer {
        self.root = root;
        done(alloc)
    }

    // Keeps the bytes of a proof.
    fn keep_proof(&mut self, alloc: Global, bytes: Vec<u8>) -> Answer {
        self.proof = bytes;
        done(alloc)
    }

    // The answer to a line about a state or a proof.
    fn of_state(&mut self, alloc: Global, words: &[&str]) -> Answer {
        let shown = Shown {
            bytes: &self.proof,
            root: &self.root,
        };
        match &mut self.state {
            Some(Family::Range(state)) => state.answer(alloc, shown, words),
            Some(Family::Belt(state)) => state.answer(alloc, shown, words),
            None => Err(Unanswered::BadLine),
        }
    }

    // Whether the answer to a line is `true`.
    fn is_shown(&mut self, alloc: Global, words: &[&str]) -> Result<bool, Unanswered> {
        Ok(self.of_state(alloc, words)?.as_str() == "true")
    }

    // Whether the answer to a line is `true` with a bit of the kept bytes changed.
    fn is_shown_without(
        &mut self,
        alloc: Global,
        words: &[&str],
        index: usize,
        bit: u8,
    ) -> Result<bool, Unanswered> {
        self.turn(index, bit);
        let is_shown = self.is_shown(alloc, words);
        self.turn(index, bit);
        is_shown
    }

    // The bits of the kept bytes that, changed singly, leave the answer to a line at `true`.
    fn spoilt(&mut self, alloc: Global, words: &[&str]) -> Answer {
        let mut line = Line::new(alloc);
        for index in 0..self.proof.len() {
            for bit in 0..8 {
                if self.is_shown_without(alloc, words, index, bit)? {
                    line.number(index as u64);
                }
            }
        }
        line.text_or_none()
    }

    // Turns a bit of the kept bytes.
    fn turn(&mut self, index: usize, bit: u8) {
        if let Some(byte) = self.proof.get_mut(index) {
            *byte ^= 1u8.wrapping_shl(u32::from(bit));
        }
    }

    // The lengths to which the kept bytes, cut, leave the answer to a line at `true`.
    fn shortened(&mut self, alloc: Global, words: &[&str]) -> Answer {
        let all = self.proof.clone()?;
        let told = self.shown_lengths(alloc, words);
        self.proof = all;
        told
    }

    // The lengths to which the kept bytes are cut, one by one, and at which the answer to a line is `true`.
    fn shown_lengths(&mut self, alloc: Global, words: &[&str]) -> Answer {
        let mut line = Line::new(alloc);
        for length in (0..self.proof.len()).rev() {
            self.proof.truncate(length);
            if self.is_shown(alloc, words)? {
                line.number(length as u64);
            }
        }
        line.text_or_none()
    }

    // The answer to a line that keeps something, or asks for a state or a proof.
    fn answer_more(&mut self, alloc: Global, words: &[&str]) -> Answer {
        match words {
            ["family", name, width] => self.begun(alloc, name, width.parse()?),
            ["root", word] => self.keep_root(alloc, digest(word)?),
            ["proof", digits] => self.keep_proof(alloc, bytes(alloc, digits)?),
            words => self.answer_changed(alloc, words),
        }
    }

    // The answer to a line that asks for a state or a proof, with other bytes kept perhaps.
    fn answer_changed(&mut self, alloc: Global, words: &[&str]) -> Answer {
        match words {
            ["spoilt", words @ ..] => self.spoilt(alloc, words),
            ["shortened", words @ ..] => self.shortened(alloc, words),
            words => self.of_state(alloc, words),
        }
    }
}

impl Player for ProofsPlayer {
    fn begin(alloc: Global) -> Result<ProofsPlayer, Unanswered> {
        Ok(ProofsPlayer {
            bits: Bits::none(alloc),
            map: Map::none(),
            state: None,
            root: FixedBytes::new([0; 32]),
            proof: Vec::new(alloc),
        })
    }

    fn answer(&mut self, alloc: Global, words: &[&str]) -> Answer {
        match words {
            ["bits", words @ ..] => self.bits.answer(alloc, words),
            ["map", words @ ..] => self.map.answer(alloc, words),
            ["chunk_size", words @ ..] => counts::of_sizes(alloc, words),
            ["chunk", words @ ..] => counts::of_chunks(alloc, words),
            words => self.answer_more(alloc, words),
        }
    }
}

fn main(rt: HostRuntime) -> anyhow::Result<()> {
    case_lines::play::<ProofsPlayer>(&rt)
}
