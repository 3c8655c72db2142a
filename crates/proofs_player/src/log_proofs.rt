//! Proofs against the root of the operations' tree alone, of operations that are numbers.

use crate::arguments::{
    Answer, Hash, Line, digest, digest_told, digests, encoded, keep, numbers, parts, refused,
    truth_if,
};
use crate::reading::Shown;
use crate::refusals::{of_bytes, of_extraction, of_store, of_tree};
use case_lines::Unanswered;
use merkle_core::building::range_proof;
use merkle_core::{ExtractionError, Mem, Proof, ProofStore};
use merkle_forest::codec::Decode;
use merkle_forest::hasher::Standard;
use merkle_forest::{Bagging, ByteHash, Graftable, Location, Position};
use state_proofs::verify::{
    create_multi_proof, create_proof_store, verify_multi_proof, verify_proof,
    verify_proof_and_extract_digests, verify_proof_and_pinned_nodes,
};
use std::alloc::Global;
use std::ops::Range;

/// Nodes, each with its position and its digest.
pub(crate) fn nodes_told<F: Graftable>(alloc: Global, nodes: &[(Position<F>, Hash)]) -> Answer {
    let mut line = Line::new(alloc);
    for (position, digest) in nodes {
        line.say(node_told(alloc, *position, digest));
    }
    line.text()
}

// A node with its position and its digest.
fn node_told<F: Graftable>(alloc: Global, position: Position<F>, digest: &Hash) -> Answer {
    let digest = digest_told(alloc, digest)?;
    Ok(format!(in alloc; "{position}:{digest}")?)
}

/// The nodes that a proof tells, or why it tells none.
pub(crate) fn extracted<F: Graftable>(
    alloc: Global,
    nodes: Result<Vec<(Position<F>, Hash)>, ExtractionError>,
) -> Answer {
    match nodes {
        Ok(nodes) => nodes_told(alloc, &nodes),
        Err(error) => refused(alloc, of_extraction(error)),
    }
}

/// The proof of a range of the tree: `log_proof START STOP INACTIVE`.
pub(crate) fn proved<F: Graftable>(alloc: Global, tree: &Mem<F, Hash>, words: &[&str]) -> Answer {
    match words {
        [start, stop, inactive] => {
            let range = Location::new(start.parse()?)..Location::new(stop.parse()?);
            proved_range(alloc, tree, range, inactive.parse()?)
        }
        _ => Err(Unanswered::BadLine),
    }
}

// The proof of a range of the tree.
fn proved_range<F: Graftable>(
    alloc: Global,
    tree: &Mem<F, Hash>,
    range: Range<Location<F>>,
    inactive: usize,
) -> Answer {
    let hasher: Standard<ByteHash> = Standard::new(Bagging::BackwardFold);
    match range_proof(alloc, &hasher, tree, range, inactive) {
        Ok(proof) => encoded(alloc, &proof),
        Err(error) => refused(alloc, of_tree(error)),
    }
}

/// What the proof shows of numbers: `shows START NUMBERS`, `pinned START NUMBERS DIGESTS`, `digests START NUMBERS`,
/// `multi START NUMBERS LOCATIONS PEAKS`, `shows_each LOCATIONS NUMBERS`.
pub(crate) fn of_log<F: Graftable>(
    alloc: Global,
    shown: Shown<'_>,
    most: usize,
    words: &[&str],
) -> Answer {
    let read: Result<Proof<F, Hash>, _> = Proof::decode_cfg(alloc, shown.bytes, &most);
    match read {
        Ok(proof) => of_proof(alloc, &proof, shown.root, words),
        Err(error) => refused(alloc, of_bytes(error)),
    }
}

// What a proof shows of numbers.
fn of_proof<F: Graftable>(
    alloc: Global,
    proof: &Proof<F, Hash>,
    root: &Hash,
    words: &[&str],
) -> Answer {
    match words {
        ["shows_each", locations, list] => {
            each(alloc, proof, root, &located(alloc, locations, list)?)
        }
        [question, start, list, more @ ..] => {
            let start = Location::new(start.parse()?);
            of_range(
                alloc,
                proof,
                root,
                start,
                &numbers(alloc, list)?,
                question,
                more,
            )
        }
        _ => Err(Unanswered::BadLine),
    }
}

// Whether a proof shows numbers, each at its location.
fn each<F: Graftable>(
    alloc: Global,
    proof: &Proof<F, Hash>,
    root: &Hash,
    numbers: &[(Location<F>, u64)],
) -> Answer {
    truth_if(
        alloc,
        verify_multi_proof::<F, ByteHash, u64>(alloc, proof, numbers, root),
    )
}

// What the proof shows of numbers from a location on.
fn of_range<F: Graftable>(
    alloc: Global,
    proof: &Proof<F, Hash>,
    root: &Hash,
    start: Location<F>,
    numbers: &[u64],
    question: &str,
    more: &[&str],
) -> Answer {
    match more {
        [] => of_range_alone(alloc, proof, root, start, numbers, question),
        [list] if question == "pinned" => {
            pinned(alloc, proof, root, start, numbers, &digests(alloc, list)?)
        }
        [locations, peaks] if question == "multi" => {
            multi(alloc, proof, root, start, numbers, locations, peaks)
        }
        _ => Err(Unanswered::BadLine),
    }
}

// The same where nothing else is said.
fn of_range_alone<F: Graftable>(
    alloc: Global,
    proof: &Proof<F, Hash>,
    root: &Hash,
    start: Location<F>,
    numbers: &[u64],
    question: &str,
) -> Answer {
    match question {
        "shows" => truth_if(
            alloc,
            verify_proof::<F, ByteHash, u64>(alloc, proof, start, numbers, root),
        ),
        "digests" => extracted(
            alloc,
            verify_proof_and_extract_digests::<F, ByteHash, u64>(
                alloc, proof, start, numbers, root,
            ),
        ),
        _ => Err(Unanswered::BadLine),
    }
}

// Whether the proof shows numbers, and has been made over these nodes that are pinned before them.
fn pinned<F: Graftable>(
    alloc: Global,
    proof: &Proof<F, Hash>,
    root: &Hash,
    start: Location<F>,
    numbers: &[u64],
    pinned: &[Hash],
) -> Answer {
    truth_if(
        alloc,
        verify_proof_and_pinned_nodes::<F, ByteHash, u64>(
            alloc, proof, start, numbers, pinned, root,
        ),
    )
}

// Numbers, each with its location.
fn located<F: Graftable>(
    alloc: Global,
    locations: &str,
    list: &str,
) -> Result<Vec<(Location<F>, u64)>, Unanswered> {
    let (locations, list) = (numbers(alloc, locations)?, numbers(alloc, list)?);
    let mut found = Vec::new(alloc);
    for (location, number) in locations.iter().zip(list.iter()) {
        keep(&mut found, (Location::new(*location), *number))?;
    }
    Ok(found)
}

// A peak that is supplied: its position and its digest with a colon between them.
fn peak<F: Graftable>(word: &str) -> Result<(Position<F>, Hash), Unanswered> {
    let Some((position, node)) = word.split_once(':') else {
        return Err(Unanswered::BadLine);
    };
    Ok((Position::new(position.parse()?), digest(node)?))
}

// Peaks that are supplied, with commas between them, or `none`.
fn peaks<F: Graftable>(alloc: Global, list: &str) -> Result<Vec<(Position<F>, Hash)>, Unanswered> {
    let mut found = Vec::new(alloc);
    for part in parts(alloc, list)? {
        keep(&mut found, peak(part)?)?;
    }
    Ok(found)
}

// The locations of these numbers.
fn locations<F: Graftable>(alloc: Global, list: &str) -> Result<Vec<Location<F>>, Unanswered> {
    let mut found = Vec::new(alloc);
    for location in numbers(alloc, list)? {
        keep(&mut found, Location::new(location))?;
    }
    Ok(found)
}

// The proof of the numbers at some locations, out of what the proof of a range tells.
fn multi<F: Graftable>(
    alloc: Global,
    proof: &Proof<F, Hash>,
    root: &Hash,
    start: Location<F>,
    numbers: &[u64],
    list: &str,
    supplied: &str,
) -> Answer {
    match create_proof_store::<F, ByteHash, u64>(alloc, proof, start, numbers, root) {
        Ok(store) => {
            let locations = locations(alloc, list)?;
            multi_of(alloc, &store, &locations, &peaks(alloc, supplied)?)
        }
        Err(error) => refused(alloc, of_extraction(error)),
    }
}

// The proof of the numbers at these locations, with these peaks.
fn multi_of<F: Graftable>(
    alloc: Global,
    store: &ProofStore<F, Hash>,
    locations: &[Location<F>],
    peaks: &[(Position<F>, Hash)],
) -> Answer {
    match create_multi_proof(alloc, store, locations, peaks) {
        Ok(proof) => encoded(alloc, &proof),
        Err(error) => refused(alloc, of_store(error)),
    }
}
