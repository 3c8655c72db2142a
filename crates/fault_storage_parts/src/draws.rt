//! What a fault keeps is drawn from the generator's words.

ghost use Rattle.std.specs.Prelude.{◌≡◌, ◌<◌, ◌≤◌, ◌+◌, ◌-◌, ◌++◌, ◌∷◌, [], IfOk, OnErr};
ghost use Rattle.std.specs.Vec.{vec_len, vec_capacity};
ghost use Rattle.rand_core.specs.Stream.{next_u64};
ghost use Rattle.fault_storage_parts.specs.Draws.{first_kept, samples, kept_bytes, length_between};
ghost use Rattle.fault_storage_parts.specs.DrawsCode.{rate_of, mode_of};

use crate::probability::Probability;
use rand_core::Rng;
use std::alloc::{AllocError, Global};

/// How a write that is not durable is torn. In the Rust: `commonware_runtime::storage::faulty::PartialWriteMode`.
#[derive(Clone, Copy, Debug, PartialEq, Eq)]
pub enum PartialWriteMode {
    /// Some first bytes are kept: a word modulo the length and one more tells how many.
    Prefix,
    /// Each byte is kept or not, by one sample of the retention rate.
    Subset,
}

// Appends a bit for which there is room.
fn note(choice: &mut Vec<bool>, kept: bool)
    requires room { vec_len choice.old < vec_capacity choice.old }
    ensures items { choice.new.items ≡ choice.old.items ++ (kept ∷ []) }
    ensures len { vec_len choice.new ≡ vec_len choice.old + 1 }
    ensures capacity { vec_capacity choice.old ≤ vec_capacity choice.new }
{
    let _ = choice.push(kept);
}

// That the first `kept` of `count` bytes are kept.
fn note_first(choice: &mut Vec<bool>, count: usize, kept: usize)
    requires room { vec_len choice.old + count ≤ vec_capacity choice.old }
    requires within { kept ≤ count }
    ensures items { choice.new.items ≡ choice.old.items ++ first_kept count kept }
    ensures capacity { vec_capacity choice.old ≤ vec_capacity choice.new }
{
    for noted in 0..kept {
        note(choice, true);
    }
    for noted in kept..count {
        note(choice, false);
    }
}

// A sample for each of `count` bytes.
fn note_samples<R: Rng>(choice: &mut Vec<bool>, count: usize, retention: Probability, rng: &mut R)
    requires none { choice.old.items ≡ [] }
    requires room { vec_len choice.old + count ≤ vec_capacity choice.old }
    ensures drawn { (choice.new.items, R.stream rng.new) ≡ samples (rate_of retention) count (R.stream rng.old) }
    ensures capacity { vec_capacity choice.old ≤ vec_capacity choice.new }
{
    for noted in 0..count {
        let kept = retention.sample(rng);
        note(choice, kept);
    }
}

/// Notes for each of `count` bytes of a torn write whether it is kept. There is room for it, so that it always
/// succeeds.
pub fn note_kept_bytes<R: Rng>(
    choice: &mut Vec<bool>,
    mode: PartialWriteMode,
    retention: Probability,
    count: usize,
    rng: &mut R,
)
    requires none { choice.old.items ≡ [] }
    requires room { vec_len choice.old + count ≤ vec_capacity choice.old }
    ensures drawn { (choice.new.items, R.stream rng.new)
        ≡ kept_bytes (mode_of mode) (rate_of retention) count (R.stream rng.old) }
    ensures capacity { vec_capacity choice.old ≤ vec_capacity choice.new }
{
    match mode {
        PartialWriteMode::Prefix => {
            let kept = (u128::from(rng.next_u64()) % (count as u128 + 1)) as usize;
            note_first(choice, count, kept);
        }
        PartialWriteMode::Subset => note_samples(choice, count, retention, rng),
    }
}

/// For each of `count` bytes of a torn write whether it is kept. Room is found before any word is taken: a refusal,
/// which comes only when out of memory, takes none.
pub fn draw_kept_bytes<R: Rng>(
    alloc: Global,
    mode: PartialWriteMode,
    retention: Probability,
    count: usize,
    rng: &mut R,
) -> Result<Vec<bool>, AllocError>
    ensures ok { IfOk result (λ choice. (choice.items, R.stream rng.new)
        ≡ kept_bytes (mode_of mode) (rate_of retention) count (R.stream rng.old)) }
    ensures err { OnErr result (R.stream rng.new ≡ R.stream rng.old) }
{
    let mut choice = Vec::with_capacity(alloc, count)?;
    note_kept_bytes(&mut choice, mode, retention, count, rng);
    Ok(choice)
}

/// A length strictly between two others that are further apart than one, by one word.
pub fn draw_length_between<R: Rng>(low: u64, high: u64, rng: &mut R) -> u64
    requires { low + 1 < high }
    ensures length { result ≡ length_between low high (next_u64 (R.stream rng.old)).0 }
    ensures words { R.stream rng.new ≡ (next_u64 (R.stream rng.old)).1 }
{
    low + 1 + rng.next_u64() % (high - low - 1)
}
