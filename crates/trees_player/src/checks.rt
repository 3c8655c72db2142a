//! Checks of proofs against a root, and roots that proofs lead to.

use crate::claims::{Claim, located, pointed};
use crate::shelves::{Shelves, named};
use crate::stop::{Answer, Stop, bad_line};
use crate::told;
use crate::words::{self, Hash};
use merkle_core::multi::root::reconstruct_shown;
use merkle_core::verifying::reconstruct_range;
use merkle_core::{ExtractionError, Proof, ReconstructionError};
use merkle_forest::hasher::Standard;
use merkle_forest::{ByteHash, Family, Location, Position};
use std::alloc::Global;

impl<F: Family> Shelves<F> {
    /// Checks the proof of a name against a root, or rebuilds the root that it leads to.
    pub fn check(&self, alloc: Global, name: &str, call: &[&str]) -> Answer {
        match call {
            [what, words @ ..] => {
                checked(alloc, &self.hasher, named(&self.proofs, name)?, what, words)
            }
            [] => bad_line(),
        }
    }
}

// What a check of a proof says.
fn checked<F: Family>(
    alloc: Global,
    hasher: &Standard<ByteHash>,
    proof: &Proof<F, Hash>,
    what: &str,
    words: &[&str],
) -> Answer {
    match what {
        "many" => many(alloc, hasher, proof, words),
        "pinned" => pinned(alloc, hasher, proof, words),
        "rebuild-many" => rebuilt_many(alloc, hasher, proof, words),
        "rebuild" | "rebuild-range" => rebuilt(alloc, hasher, proof, what, words),
        what => claimed(alloc, hasher, proof, what, &Claim::of_words(alloc, words)?),
    }
}

// Whether a proof shows what is claimed, or what it tells then.
fn claimed<F: Family>(
    alloc: Global,
    hasher: &Standard<ByteHash>,
    proof: &Proof<F, Hash>,
    what: &str,
    claim: &Claim<F>,
) -> Answer {
    match what {
        "element" => element(alloc, hasher, proof, claim),
        "range" => range(alloc, hasher, proof, claim),
        "extract" => extracted(alloc, hasher, proof, claim),
        _ => bad_line(),
    }
}

// Whether a proof shows an element at a location.
fn element<F: Family>(
    alloc: Global,
    hasher: &Standard<ByteHash>,
    proof: &Proof<F, Hash>,
    claim: &Claim<F>,
) -> Answer {
    match claim.elements.as_slice() {
        [element] => {
            told::shown(
                alloc,
                proof.verify_element_inclusion(hasher, element, claim.start, &claim.root),
            )
        }
        _ => bad_line(),
    }
}

// Whether a proof shows elements from a location on.
fn range<F: Family>(
    alloc: Global,
    hasher: &Standard<ByteHash>,
    proof: &Proof<F, Hash>,
    claim: &Claim<F>,
) -> Answer {
    let elements = words::slices(alloc, &claim.elements)?;
    told::shown(
        alloc,
        proof.verify_range_inclusion(hasher, &elements, claim.start, &claim.root),
    )
}

// The nodes that a proof tells, each with its position.
fn extracted<F: Family>(
    alloc: Global,
    hasher: &Standard<ByteHash>,
    proof: &Proof<F, Hash>,
    claim: &Claim<F>,
) -> Answer {
    let elements = words::slices(alloc, &claim.elements)?;
    nodes(
        alloc,
        proof.verify_range_inclusion_and_extract_digests(
            alloc,
            hasher,
            &elements,
            claim.start,
            &claim.root,
        ),
    )
}

// Nodes, or why they are not told.
fn nodes<F: Family>(
    alloc: Global,
    nodes: Result<Vec<(Position<F>, Hash)>, ExtractionError>,
) -> Answer {
    match nodes {
        Ok(nodes) => told::nodes(alloc, &nodes),
        Err(error) => Err(Stop::from(error)),
    }
}

// Whether a proof shows elements, and has been made over the nodes behind the `/` that are pinned before them.
fn pinned<F: Family>(
    alloc: Global,
    hasher: &Standard<ByteHash>,
    proof: &Proof<F, Hash>,
    words: &[&str],
) -> Answer {
    let (claim, pinned) = words::two_lists(words)?;
    let claim = Claim::of_words(alloc, claim)?;
    with_pinned(
        alloc,
        hasher,
        proof,
        &claim,
        &words::digests(alloc, pinned)?,
    )
}

// Whether a proof shows what is claimed, and has been made over these pinned nodes.
fn with_pinned<F: Family>(
    alloc: Global,
    hasher: &Standard<ByteHash>,
    proof: &Proof<F, Hash>,
    claim: &Claim<F>,
    pinned: &[Hash],
) -> Answer {
    let elements = words::slices(alloc, &claim.elements)?;
    told::shown(
        alloc,
        proof.verify_proof_and_pinned_nodes(
            alloc,
            hasher,
            &elements,
            claim.start,
            pinned,
            &claim.root,
        )?,
    )
}

// Whether a proof shows elements, each at its location.
fn many<F: Family>(
    alloc: Global,
    hasher: &Standard<ByteHash>,
    proof: &Proof<F, Hash>,
    words: &[&str],
) -> Answer {
    match words {
        [root, elements @ ..] => {
            let root = words::digest(root)?;
            many_under(alloc, hasher, proof, &root, &located(alloc, elements)?)
        }
        [] => bad_line(),
    }
}

// Whether a proof shows these elements under a root.
fn many_under<F: Family>(
    alloc: Global,
    hasher: &Standard<ByteHash>,
    proof: &Proof<F, Hash>,
    root: &Hash,
    elements: &[(Vec<u8>, Location<F>)],
) -> Answer {
    let elements = pointed(alloc, elements)?;
    told::shown(
        alloc,
        proof.verify_multi_inclusion(alloc, hasher, &elements, root)?,
    )
}

// The root that the proof of a range leads to, by the method of the proof or by the function below it.
fn rebuilt<F: Family>(
    alloc: Global,
    hasher: &Standard<ByteHash>,
    proof: &Proof<F, Hash>,
    what: &str,
    words: &[&str],
) -> Answer {
    match words {
        [start, elements @ ..] => {
            let start = words::location(start)?;
            let elements = words::elements(alloc, elements)?;
            rebuilt_from(alloc, hasher, proof, what, start, &elements)
        }
        [] => bad_line(),
    }
}

// The root that the proof of a range of these elements leads to.
fn rebuilt_from<F: Family>(
    alloc: Global,
    hasher: &Standard<ByteHash>,
    proof: &Proof<F, Hash>,
    what: &str,
    start: Location<F>,
    elements: &[Vec<u8>],
) -> Answer {
    let elements = words::slices(alloc, elements)?;
    rebuilt_of(alloc, hasher, proof, what, start, &elements)
}

// The same of elements that are lent.
fn rebuilt_of<F: Family>(
    alloc: Global,
    hasher: &Standard<ByteHash>,
    proof: &Proof<F, Hash>,
    what: &str,
    start: Location<F>,
    elements: &[&[u8]],
) -> Answer {
    match what {
        "rebuild" => root(alloc, proof.reconstruct_root(hasher, elements, start)),
        _ => root(alloc, reconstruct_range(hasher, proof, start, elements)),
    }
}

// A root, or why it is not rebuilt.
fn root(alloc: Global, root: Result<Hash, ReconstructionError>) -> Answer {
    match root {
        Ok(root) => told::digest(alloc, &root),
        Err(error) => Err(Stop::NotRebuilt(error)),
    }
}

// The root that the proof of several elements leads to.
fn rebuilt_many<F: Family>(
    alloc: Global,
    hasher: &Standard<ByteHash>,
    proof: &Proof<F, Hash>,
    elements: &[&str],
) -> Answer {
    let elements = located(alloc, elements)?;
    let elements = pointed(alloc, &elements)?;
    told::some_digest(alloc, reconstruct_shown(alloc, hasher, proof, &elements)?)
}
