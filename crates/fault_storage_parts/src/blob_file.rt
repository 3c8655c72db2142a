//! Files.

ghost use Rattle.std.specs.Prelude.{◌≡◌, ◌<◌, ◌≤◌, ◌++◌, ◌∷◌, [], ℕ, drop};
ghost use Rattle.std.specs.VecDeque.{deque_len, deque_capacity};
ghost use Rattle.fault_storage_parts.specs.Files.{HasRoomFor, chosen_bytes};
ghost use Rattle.fault_storage_parts.specs.FilesCode.{mutation_of};
ghost use Rattle.fault_storage_parts.specs.Revisions.{kept_of, shortened};

use crate::file::Mutation;
use crate::replay::{apply_drawn, apply_durable, chosen_of, size_for};
use rand_core::Rng;
use std::alloc::{AllocError, Global};
use std::collections::VecDeque;
use std::marker::Model;

// Takes the first mutation from the log.
fn let_first_go(log: &mut VecDeque<Mutation>)
    ensures { log.new.items ≡ drop 1 log.old.items }
{
    let _ = log.pop_front();
}

// Puts the mutation at the end of the log. There is room for it.
fn put_last(log: &mut VecDeque<Mutation>, mutation: Mutation)
    requires { deque_len log.old < deque_capacity log.old }
    ensures { log.new.items ≡ log.old.items ++ mutation ∷ [] }
{
    let _ = log.push_back(mutation);
}

// The write with these bytes durable at once.
fn fixed(mutation: Mutation, kept: Vec<bool>) -> Mutation
    ensures is { mutation_of result ≡ kept_of kept.items (mutation_of mutation) }
    ensures room { (size : ℕ) → HasRoomFor size (mutation_of mutation) → HasRoomFor size (mutation_of result) }
    ensures chosen { chosen_bytes (mutation_of result) ≤ chosen_bytes (mutation_of mutation) }
{
    match mutation {
        Mutation::Plain(written, _, _) => Mutation::Fixed(written, kept),
        Mutation::Fixed(written, _) => Mutation::Fixed(written, kept),
        Mutation::ResizedTo(size, retention) => Mutation::ResizedTo(size, retention),
    }
}

// The resize to this length, where it went further.
fn shortened(mutation: Mutation, size: usize) -> Mutation
    ensures is { mutation_of result ≡ shortened size (mutation_of mutation) }
    ensures room { (room : ℕ) → HasRoomFor room (mutation_of mutation) → HasRoomFor room (mutation_of result) }
    ensures chosen { chosen_bytes (mutation_of result) ≤ chosen_bytes (mutation_of mutation) }
{
    match mutation {
        Mutation::ResizedTo(asked, retention) => Mutation::ResizedTo(asked.min(size), retention),
        write => write,
    }
}

/// A file: a base, which was durable at the last published sync, admission or crash, else at creation, and the uncut
/// log of its mutations since, in the order of issue. It has room for all that the log writes, so that a crash asks for
/// none.
#[derive(Debug, Drop)]
pub struct BlobFile {
    base: Vec<u8>,
    log: VecDeque<Mutation>,
    choice: Vec<bool>,
}

impl Model for BlobFile {
    ghost use Rattle.std.specs.Prelude.{◌≤◌};
    ghost use Rattle.std.specs.List.{All};
    ghost use Rattle.std.specs.Vec.{vec_capacity};
    ghost use Rattle.fault_storage_parts.specs.Files.{File, HasRoomFor, chosen_bytes};
    ghost use Rattle.fault_storage_parts.specs.FilesCode.{mutation_of, log_of};

    ghost Value = { File };

    ghost view = { λ it. record { base = it.base.items; log = log_of it.log.items } };

    ghost invariant = { λ it. All (λ m. HasRoomFor (vec_capacity it.base) (mutation_of m)
        × (chosen_bytes (mutation_of m) ≤ vec_capacity it.choice))
        it.log.items };
}

impl BlobFile {
    ghost use Rattle.std.specs.Prelude.{◌++◌, ◌∷◌, [], IfOk, OnOk, OnErr};
    ghost use Rattle.fault_storage_parts.specs.Files.{durable_bytes, settled};
    ghost use Rattle.fault_storage_parts.specs.Revisions.{kept_of, shortened, file_recast, file_without_last};
    ghost use Rattle.fault_storage_parts.specs.FilesCode.{mutation_of, log_of};

    /// A file with this base and an empty log.
    pub fn new(alloc: Global, base: Vec<u8>) -> BlobFile
        ensures { result ≡ record { base = base.items; log = [] } }
    {
        BlobFile {
            base,
            log: VecDeque::new(alloc),
            choice: Vec::new(alloc),
        }
    }

    /// What is durable of the file: its base with the durable mutations of its log. It fails only when out of memory.
    pub fn durable(&self, alloc: Global) -> Result<Vec<u8>, AllocError>
        ensures { IfOk result (λ bytes. bytes.items ≡ durable_bytes self.now.base self.now.log) }
    {
        let mut bytes = Vec::with_capacity(alloc, self.base.capacity())?;
        bytes.extend_from_slice(&self.base)?;
        for index in 0..self.log.len() {
            apply_durable(&mut bytes, &self.log[index]);
        }
        Ok(bytes)
    }

    /// Issues the mutation. It fails only when out of memory, and then nothing is changed.
    pub fn issue(&mut self, mutation: Mutation) -> Result<(), AllocError>
        ensures ok { OnOk result (self.new ≡ record {
          base = self.old.base;
          log = self.old.log
              ++ mutation_of mutation ∷ [];
        }) }
        ensures err { OnErr result (self.new ≡ self.old) }
    {
        let missing = size_for(&mutation).saturating_sub(self.base.len());
        self.base.reserve(missing)?;
        let missing = chosen_of(&mutation).saturating_sub(self.choice.len());
        self.choice.reserve(missing)?;
        self.log.push_back(mutation)?;
        Ok(())
    }

    /// Makes these bytes of the write that was issued last durable at once, and no others. A resize stays as it is.
    pub fn fix_last(&mut self, kept: Vec<bool>)
        ensures { self.new ≡ file_recast (kept_of kept.items) self.old }
    {
        if let Some(last) = self.log.pop_back() {
            put_last(&mut self.log, fixed(last, kept));
        }
    }

    /// Lets the resize that was issued last go to this length, where it went further. A write stays as it is.
    pub fn shorten_last(&mut self, size: usize)
        ensures { self.new ≡ file_recast (shortened size) self.old }
    {
        if let Some(last) = self.log.pop_back() {
            put_last(&mut self.log, shortened(last, size));
        }
    }

    /// Takes back the mutation that was issued last.
    pub fn withdraw_last(&mut self)
        ensures { self.new ≡ file_without_last self.old }
    {
        let _ = self.log.pop_back();
    }

    /// Makes these bytes the base, and empties the log.
    pub fn publish(&mut self, bytes: Vec<u8>)
        ensures { self.new ≡ record { base = bytes.items; log = [] } }
    {
        self.base = bytes;
        self.log.clear();
    }

    /// Settles the first mutation of the log, as a crash does: a choice is drawn of it, and it is applied to the base.
    pub fn settle_next<R: Rng>(&mut self, rng: &mut R)
        ensures { (self.new, R.stream rng.new) ≡ settled self.old (R.stream rng.old) }
    {
        if self.log.is_empty() {
            return;
        }
        apply_drawn(&mut self.base, &mut self.choice, &self.log[0], rng);
        let_first_go(&mut self.log);
    }
}
