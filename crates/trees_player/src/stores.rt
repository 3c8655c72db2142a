//! What is kept of a verified proof of a range, and the proofs that are built out of it.

use crate::claims::Claim;
use crate::shelves::{Shelves, named, put_made, put_proof};
use crate::stop::{Answer, Stop, bad_line, or_stop};
use crate::told;
use crate::words::{self, Hash};
use merkle_core::proof_store::Supplied;
use merkle_core::{Proof, ProofStore, Readable};
use merkle_forest::hasher::Standard;
use merkle_forest::{ByteHash, Family, Position};
use std::alloc::Global;

impl<F: Family> Shelves<F> {
    /// Keeps what a proof tells, or builds proofs out of what is kept.
    pub fn call_store(&mut self, alloc: Global, name: &str, call: &[&str]) -> Answer {
        match call {
            [what, proof, words @ ..] => self.call_store_with(alloc, name, what, proof, words),
            ["suffix"] => suffix(alloc, named(&self.stores, name)?),
            _ => bad_line(),
        }
    }

    // The same with words behind what it is.
    fn call_store_with(
        &mut self,
        alloc: Global,
        name: &str,
        what: &str,
        word: &str,
        words: &[&str],
    ) -> Answer {
        match what {
            "of" => self.keep(alloc, name, word, words),
            "range" => self.prove_range(alloc, name, word, words),
            "many" => self.prove_many(alloc, name, word, words),
            "node" => node(alloc, named(&self.stores, name)?, word, words),
            _ => bad_line(),
        }
    }

    // Keeps what a proof tells that shows what is claimed.
    fn keep(&mut self, alloc: Global, name: &str, proof: &str, claim: &[&str]) -> Answer {
        let store = kept(alloc, &self.hasher, named(&self.proofs, proof)?, claim);
        put_made(alloc, &mut self.stores, name, store)
    }

    // Builds the proof of a range out of what is kept.
    fn prove_range(&mut self, alloc: Global, name: &str, proof: &str, ends: &[&str]) -> Answer {
        let built = range(alloc, &self.hasher, named(&self.stores, name)?, ends);
        put_proof(alloc, &mut self.proofs, proof, built)
    }

    // Builds the proof of several elements out of what is kept.
    fn prove_many(&mut self, alloc: Global, name: &str, proof: &str, parts: &[&str]) -> Answer {
        let built = several(alloc, named(&self.stores, name)?, parts);
        put_proof(alloc, &mut self.proofs, proof, built)
    }
}

// What a proof tells that shows what is claimed.
fn kept<F: Family>(
    alloc: Global,
    hasher: &Standard<ByteHash>,
    proof: &Proof<F, Hash>,
    claim: &[&str],
) -> Result<ProofStore<F, Hash>, Stop> {
    kept_of(alloc, hasher, proof, &Claim::of_words(alloc, claim)?)
}

// What a proof tells that shows this claim.
fn kept_of<F: Family>(
    alloc: Global,
    hasher: &Standard<ByteHash>,
    proof: &Proof<F, Hash>,
    claim: &Claim<F>,
) -> Result<ProofStore<F, Hash>, Stop> {
    let elements = words::slices(alloc, &claim.elements)?;
    Ok(ProofStore::new(alloc, hasher, proof, &elements, claim.start, &claim.root)?)
}

// The proof of the range that starts and stops at these locations.
fn range<F: Family>(
    alloc: Global,
    hasher: &Standard<ByteHash>,
    store: &ProofStore<F, Hash>,
    ends: &[&str],
) -> Result<Proof<F, Hash>, Stop> {
    match ends {
        [start, stop] => {
            let range = words::location(start)?..words::location(stop)?;
            or_stop(store.range_proof(alloc, hasher, range))
        }
        _ => bad_line(),
    }
}

// The proof of the elements at some locations, with the peaks that are supplied after a `/`.
fn several<F: Family>(
    alloc: Global,
    store: &ProofStore<F, Hash>,
    parts: &[&str],
) -> Result<Proof<F, Hash>, Stop> {
    let (locations, peaks) = words::two_lists(parts)?;
    let locations = words::numbers(alloc, locations)?;
    several_at(alloc, store, &locations, &supplied(alloc, peaks)?)
}

// The proof of the elements at these locations, with these peaks.
fn several_at<F: Family>(
    alloc: Global,
    store: &ProofStore<F, Hash>,
    locations: &[u64],
    peaks: &[(Position<F>, Hash)],
) -> Result<Proof<F, Hash>, Stop> {
    let locations = words::locations(alloc, locations)?;
    Ok(store.multi_proof(alloc, &locations, peaks)?)
}

// The positions of the folded peaks behind the range.
fn suffix<F: Family>(alloc: Global, store: &ProofStore<F, Hash>) -> Answer {
    let positions = store.suffix_peak_positions(alloc)?;
    told::positions(alloc, &positions)
}

// The digest of the node at a position, if it is kept or among the peaks that are supplied.
fn node<F: Family>(
    alloc: Global,
    store: &ProofStore<F, Hash>,
    position: &str,
    peaks: &[&str],
) -> Answer {
    let position = words::position(position)?;
    node_of(alloc, store, position, &supplied(alloc, peaks)?)
}

// The digest of the node at a position, if it is kept or among these peaks.
fn node_of<F: Family>(
    alloc: Global,
    store: &ProofStore<F, Hash>,
    position: Position<F>,
    peaks: &[(Position<F>, Hash)],
) -> Answer {
    let nodes = Supplied { store, peaks };
    told::some_digest(alloc, nodes.get_node(position))
}

// Digests of peaks, each at a position: words two by two, the position before the digest.
fn supplied<F: Family>(alloc: Global, words: &[&str]) -> Result<Vec<(Position<F>, Hash)>, Stop> {
    let mut found = Vec::new(alloc);
    for pair in words.chunks(2) {
        found.push(supplied_peak(pair)?)?;
    }
    Ok(found)
}

// The digest of a peak at a position.
fn supplied_peak<F: Family>(words: &[&str]) -> Result<(Position<F>, Hash), Stop> {
    match words {
        [position, digest] => Ok((words::position(position)?, words::digest(digest)?)),
        _ => bad_line(),
    }
}
