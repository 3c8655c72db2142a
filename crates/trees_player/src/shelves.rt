//! What a case has made, by the names that it gave.

use crate::building::call_plan;
use crate::stop::{Answer, Stop, bad_line};
use crate::texts::text;
use crate::widths::call_width;
use crate::words::Hash;
use crate::{definitions, told};
use merkle_core::batch::{MerkleizedBatch, UnmerkleizedBatch};
use merkle_core::{Mem, Proof, ProofStore};
use merkle_forest::hasher::Standard;
use merkle_forest::{Bagging, ByteHash, Family};
use std::alloc::Global;
use std::collections::BTreeMap;

/// Things of a kind, by their names.
pub type Shelf<T> = BTreeMap<String, T>;

/// What a case has made of a family's trees, by the names that it gave.
#[derive(Drop)]
pub struct Shelves<F: Family> {
    pub hasher: Standard<ByteHash>,
    pub trees: Shelf<Mem<F, Hash>>,
    pub batches: Shelf<UnmerkleizedBatch<F, Hash>>,
    pub made: Shelf<MerkleizedBatch<F, Hash>>,
    pub proofs: Shelf<Proof<F, Hash>>,
    pub stores: Shelf<ProofStore<F, Hash>>,
}

impl<F: Family + PartialEq> Shelves<F> {
    /// Nothing made yet but these trees and proofs, and a way to hash.
    pub fn new(
        alloc: Global,
        hasher: Standard<ByteHash>,
        trees: Shelf<Mem<F, Hash>>,
        proofs: Shelf<Proof<F, Hash>>,
    ) -> Shelves<F> {
        Shelves {
            hasher,
            trees,
            batches: BTreeMap::new(alloc),
            made: BTreeMap::new(alloc),
            proofs,
            stores: BTreeMap::new(alloc),
        }
    }

    /// Answers the call that these words ask for, of which the first names what is called.
    pub fn answer(&mut self, alloc: Global, words: &[&str]) -> Answer {
        match words {
            [subject, name, call @ ..] => self.answer_about(alloc, subject, name, call),
            _ => bad_line(),
        }
    }

    // Answers a call of what has this name.
    fn answer_about(&mut self, alloc: Global, subject: &str, name: &str, call: &[&str]) -> Answer {
        match subject {
            "tree" => self.call_tree(alloc, name, call),
            "batch" => self.call_batch(alloc, name, call),
            "made" => self.call_made(alloc, name, call),
            subject => self.answer_about_proof(alloc, subject, name, call),
        }
    }

    // Answers a call of the proof of this name, or of what is kept of one.
    fn answer_about_proof(
        &mut self,
        alloc: Global,
        subject: &str,
        name: &str,
        call: &[&str],
    ) -> Answer {
        match subject {
            "prove" => self.prove(alloc, name, call),
            "proof" => self.call_proof(alloc, name, call),
            "check" => self.check(alloc, name, call),
            "store" => self.call_store(alloc, name, call),
            subject => self.answer_apart(alloc, subject, name, call),
        }
    }

    // Answers a call that asks for nothing that the case has made.
    fn answer_apart(&mut self, alloc: Global, subject: &str, name: &str, call: &[&str]) -> Answer {
        match subject {
            "fold" => self.refold(alloc, name),
            "plan" => call_plan::<F>(alloc, name, call),
            "digests" => definitions::honest::<F>(alloc, &self.hasher, name, call),
            subject => answer_of_family::<F>(alloc, subject, name, call),
        }
    }
}

impl<F: Family> Shelves<F> {
    // Folds peaks in another way from now on.
    fn refold(&mut self, alloc: Global, name: &str) -> Answer {
        self.hasher = Standard::new(bagging(name)?);
        told::ok(alloc)
    }
}

// Answers a call that asks for nothing that a case makes or chooses.
fn answer_of_family<F: Family>(alloc: Global, subject: &str, name: &str, call: &[&str]) -> Answer {
    match subject {
        "width" => call_width::<F>(alloc, name, call),
        "text" => text::<F>(alloc, name, call),
        "limit" => definitions::limit(alloc, name),
        _ => bad_line(),
    }
}

/// The way to fold peaks of this name.
pub fn bagging(word: &str) -> Result<Bagging, Stop> {
    match word {
        "forward" => Ok(Bagging::ForwardFold),
        "backward" => Ok(Bagging::BackwardFold),
        _ => bad_line(),
    }
}

/// What has this name.
pub fn named<'a, T>(shelf: &'a Shelf<T>, name: &str) -> Result<&'a T, Stop> {
    shelf.get(name).ok_or(Stop::BadLine)
}

/// What has this name, to be changed.
pub fn named_mut<'a, T>(shelf: &'a mut Shelf<T>, name: &str) -> Result<&'a mut T, Stop> {
    shelf.get_mut(name).ok_or(Stop::BadLine)
}

/// What has this name, taken away.
pub fn taken<T: Drop>(shelf: &mut Shelf<T>, name: &str) -> Result<T, Stop> {
    shelf.remove(name).ok_or(Stop::BadLine)
}

/// Gives this name, in place of what had it before.
pub fn put<T: Drop>(alloc: Global, shelf: &mut Shelf<T>, name: &str, value: T) -> Answer {
    shelf.insert(name.to_string(alloc)?, value)?;
    told::ok(alloc)
}

/// Gives this name to what was made, if it was.
pub fn put_made<T: Drop>(
    alloc: Global,
    shelf: &mut Shelf<T>,
    name: &str,
    made: Result<T, Stop>,
) -> Answer {
    match made {
        Ok(made) => put(alloc, shelf, name, made),
        Err(stop) => Err(stop),
    }
}

/// Gives a proof this name, and tells it.
pub fn put_proof<F: Family>(
    alloc: Global,
    shelf: &mut Shelf<Proof<F, Hash>>,
    name: &str,
    proof: Result<Proof<F, Hash>, Stop>,
) -> Answer {
    let proof = proof?;
    let told = told::proof(alloc, &proof);
    put(alloc, shelf, name, proof)?;
    told
}
