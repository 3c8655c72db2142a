//! What one mutation makes of a file.

ghost use Rattle.std.specs.Prelude.{◌≡◌, ◌≤◌, length, if◌then◌else◌};
ghost use Rattle.std.specs.Vec.{vec_capacity};
ghost use Rattle.fault_storage_parts.specs.Draws.{sample};
ghost use Rattle.fault_storage_parts.specs.DrawsCode.{rate_of};
ghost use Rattle.fault_storage_parts.specs.Files.{durable_step, applied, resized, drawn_choice, HasRoomFor};
ghost use Rattle.fault_storage_parts.specs.Files.{chosen_bytes};
ghost use Rattle.fault_storage_parts.specs.FilesCode.{mutation_of};

use crate::draws::note_kept_bytes;
use crate::file::Mutation;
use crate::overlay::{put_kept, resize};
use crate::probability::Probability;
use rand_core::Rng;

/// The size of a file that has room for what the mutation writes.
pub fn size_for(mutation: &Mutation) -> usize
    ensures { HasRoomFor result (mutation_of mutation.now) }
{
    match mutation {
        Mutation::Plain(written, _, _) => written.offset + written.bytes.len(),
        Mutation::Fixed(written, _) => written.offset + written.bytes.len(),
        Mutation::ResizedTo(length, _) => *length,
    }
}

/// Of how many bytes of the mutation a crash chooses.
pub fn chosen_of(mutation: &Mutation) -> usize
    ensures { result ≡ chosen_bytes (mutation_of mutation.now) }
{
    match mutation {
        Mutation::Plain(written, _, _) => written.bytes.len(),
        Mutation::Fixed(_, _) => 0,
        Mutation::ResizedTo(_, _) => 0,
    }
}

/// Applies the mutation if it is durable already. There is room for it.
pub fn apply_durable(bytes: &mut Vec<u8>, mutation: &Mutation)
    requires room { HasRoomFor (vec_capacity bytes.old) (mutation_of mutation.now) }
    ensures applied { bytes.new.items ≡ durable_step (mutation_of mutation.now) bytes.old.items }
    ensures capacity { vec_capacity bytes.old ≤ vec_capacity bytes.new }
{
    match mutation {
        Mutation::Fixed(written, kept) => put_kept(bytes, written.offset, &written.bytes, kept),
        Mutation::Plain(_, _, _) => {}
        Mutation::ResizedTo(_, _) => {}
    }
}

// Resizes the file if one sample of the rate keeps that. There is room for it.
fn resize_if<R: Rng>(bytes: &mut Vec<u8>, size: usize, retention: Probability, rng: &mut R)
    requires room { size ≤ vec_capacity bytes.old }
    ensures resized { let drawn = sample (rate_of retention) (R.stream rng.old) in bytes.new.items ≡
        (if drawn.0 then resized size bytes.old.items else bytes.old.items) }
    ensures words { R.stream rng.new ≡ (sample (rate_of retention) (R.stream rng.old)).1 }
    ensures capacity { vec_capacity bytes.old ≤ vec_capacity bytes.new }
{
    if retention.sample(rng) {
        resize(bytes, size);
    }
}

/// Applies the mutation by a choice that is drawn. There is room for it, and for the choice.
pub fn apply_drawn<R: Rng>(
    bytes: &mut Vec<u8>,
    choice: &mut Vec<bool>,
    mutation: &Mutation,
    rng: &mut R,
)
    requires room { HasRoomFor (vec_capacity bytes.old) (mutation_of mutation.now) }
    requires room_for_choice { chosen_bytes (mutation_of mutation.now) ≤ vec_capacity choice.old }
    ensures applied { bytes.new.items
        ≡ applied (drawn_choice (mutation_of mutation.now) (R.stream rng.old)).0
        (mutation_of mutation.now) bytes.old.items }
    ensures words { R.stream rng.new ≡ (drawn_choice (mutation_of mutation.now) (R.stream rng.old)).1 }
    ensures capacity { vec_capacity bytes.old ≤ vec_capacity bytes.new }
    ensures choice_capacity { vec_capacity choice.old ≤ vec_capacity choice.new }
{
    match mutation {
        Mutation::Plain(written, mode, retention) => {
            choice.clear();
            note_kept_bytes(choice, *mode, *retention, written.bytes.len(), rng);
            put_kept(bytes, written.offset, &written.bytes, choice);
        }
        Mutation::Fixed(written, kept) => put_kept(bytes, written.offset, &written.bytes, kept),
        Mutation::ResizedTo(size, retention) => resize_if(bytes, *size, *retention, rng),
    }
}
