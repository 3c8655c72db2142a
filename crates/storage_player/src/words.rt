//! A generator of words that are written down.

ghost use Rattle.std.specs.Prelude.{ℕ, ◌+◌, ◌%◌, ◌^◌, List, slice_get, unwrap_or};
ghost use Rattle.rand_core.specs.Steps.{stream_of, steps_u64_low};

use rand_core::utils::NextWord;
use rand_core::{Rng, utils};
use std::alloc::Global;
use std::marker::Model;

/// A generator of these words, and of zeros behind them.
#[derive(Drop)]
pub struct Listed {
    words: Vec<u64>,
    taken: usize,
}

impl Model for Listed {
    ghost Value = { List ℕ × ℕ };

    ghost view = { λ it. (it.words.items, it.taken) };
}

impl Listed {
    /// A generator of these words.
    pub fn new(words: Vec<u64>) -> Listed {
        Listed { words, taken: 0 }
    }

    /// A generator of zeros alone.
    pub fn zeros(alloc: Global) -> Listed {
        Listed::new(Vec::new(alloc))
    }

    /// How many words were taken.
    pub fn taken(&self) -> usize {
        self.taken
    }
}

impl NextWord<u64> for Listed {
    ghost step = { λ s. (unwrap_or (slice_get s.0 s.1) 0, (s.0, (s.1 + 1) % 2 ^ 64)) };

    fn next_word(&mut self) -> u64 {
        let word = self.words.get(self.taken).copied().unwrap_or(0);
        self.taken = self.taken.wrapping_add(1);
        word
    }
}

impl Rng for Listed {
    ghost stream = { stream_of (steps_u64_low (λ s. (unwrap_or (slice_get s.0 s.1) 0, (s.0, (s.1 + 1) % 2 ^ 64)))) };

    fn next_u32(&mut self) -> u32 {
        (self.next_word() % (1 << 32)) as u32
    }

    fn next_u64(&mut self) -> u64 {
        self.next_word()
    }

    fn fill_bytes(&mut self, dst: &mut [u8]) {
        utils::fill_bytes_via_u64(self, dst)
    }
}
