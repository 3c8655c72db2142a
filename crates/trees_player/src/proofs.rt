//! Proofs as values: made, changed, written and read.

use crate::shelves::{Shelves, named, named_mut, put, put_made};
use crate::stop::{Answer, Stop, bad_line};
use crate::told;
use crate::widths::{decoded, encoded};
use crate::words::{self, Hash};
use merkle_core::Proof;
use merkle_forest::codec::{Encode, EncodeSize};
use merkle_forest::{Family, Location};
use std::alloc::Global;

impl<F: Family + PartialEq> Shelves<F> {
    /// Makes the proof of a name, changes it, or asks it.
    pub fn call_proof(&mut self, alloc: Global, name: &str, call: &[&str]) -> Answer {
        match call {
            ["new", words @ ..] => put_made(alloc, &mut self.proofs, name, of_words(alloc, words)),
            ["decode", most, digits] => {
                let proof = decoded(alloc, most, digits);
                put_made(alloc, &mut self.proofs, name, proof)
            }
            call => self.call_known_proof(alloc, name, call),
        }
    }

    // The same of a proof that is there, or that no words tell.
    fn call_known_proof(&mut self, alloc: Global, name: &str, call: &[&str]) -> Answer {
        match call {
            ["empty"] => put(alloc, &mut self.proofs, name, Proof::empty(alloc)),
            ["copy", other] => self.copy_proof(alloc, name, other),
            ["equals", other] => self.are_same(alloc, name, other),
            call => call_of(alloc, named_mut(&mut self.proofs, name)?, call),
        }
    }

    // Gives the name to a copy of another proof.
    fn copy_proof(&mut self, alloc: Global, name: &str, other: &str) -> Answer {
        let copy = named(&self.proofs, other)?.try_copy()?;
        put(alloc, &mut self.proofs, name, copy)
    }

    // Whether two proofs are the same.
    fn are_same(&self, alloc: Global, name: &str, other: &str) -> Answer {
        are_same(
            alloc,
            named(&self.proofs, name)?,
            named(&self.proofs, other)?,
        )
    }
}

// The proof of these words: its leaves, its inactive peaks and its digests.
fn of_words<F: Family>(alloc: Global, words: &[&str]) -> Result<Proof<F, Hash>, Stop> {
    match words {
        [leaves, inactive, digests @ ..] => {
            Ok(Proof {
                leaves: words::location(leaves)?,
                inactive_peaks: inactive.parse()?,
                digests: words::digests(alloc, digests)?,
            })
        }
        _ => bad_line(),
    }
}

// Whether two proofs are the same.
fn are_same<F: Family + PartialEq>(
    alloc: Global,
    one: &Proof<F, Hash>,
    other: &Proof<F, Hash>,
) -> Answer {
    told::shown(alloc, *one == *other)
}

// A call of a proof that is there.
fn call_of<F: Family>(alloc: Global, proof: &mut Proof<F, Hash>, call: &[&str]) -> Answer {
    match call {
        [what] => alone(alloc, proof, what),
        ["more", digest] => more(alloc, proof, digest),
        ["canonical", floor] => canonical(alloc, proof, floor),
        ["set", part, number] => set(alloc, proof, part, number.parse()?),
        _ => bad_line(),
    }
}

// Adds a digest to a proof.
fn more<F: Family>(alloc: Global, proof: &mut Proof<F, Hash>, digest: &str) -> Answer {
    proof.digests.push(words::digest(digest)?)?;
    told::ok(alloc)
}

// Whether a proof tells as many inactive peaks as there are before a floor.
fn canonical<F: Family>(alloc: Global, proof: &Proof<F, Hash>, floor: &str) -> Answer {
    let floor = words::location(floor)?;
    told::shown(alloc, proof.matches_canonical_inactive_peaks(floor))
}

// Changes a number of a proof, or leaves it the first digests alone.
fn set<F: Family>(alloc: Global, proof: &mut Proof<F, Hash>, part: &str, number: u64) -> Answer {
    match part {
        "leaves" => proof.leaves = Location::new(number),
        "inactive" => proof.inactive_peaks = number,
        "first" => proof.digests.truncate(number as usize),
        _ => return bad_line(),
    }
    told::ok(alloc)
}

// What a proof tells.
fn alone<F: Family>(alloc: Global, proof: &Proof<F, Hash>, what: &str) -> Answer {
    match what {
        "show" => told::proof(alloc, proof),
        "encode" => encoded(alloc, proof),
        "encode-size" => encoded_size(alloc, proof),
        _ => bad_line(),
    }
}

// How many bytes the encoding of a proof has.
fn encoded_size<F: Family>(alloc: Global, proof: &Proof<F, Hash>) -> Answer {
    // The bytes are there, so their number has a size.
    let _bytes = proof.encode(alloc)?;
    told::shown(alloc, proof.encode_size())
}
