//! What the definitions say of a list of elements, grown leaf by leaf.

use crate::stop::{Answer, Stop, bad_line};
use crate::told;
use crate::words::{self, Hash};
use merkle_core::building::plain::range_digests_of;
use merkle_core::{MAX_PINNED_NODES, MAX_PROOF_DIGESTS_PER_ELEMENT};
use merkle_forest::family::MAX_LEAVES;
use merkle_forest::forest::grow;
use merkle_forest::hasher::Standard;
use merkle_forest::trees::{Plain, locate};
use merkle_forest::{ByteHash, Family};
use std::alloc::Global;

/// The digests of the honest proof of a range of these elements, without inactive peaks: where it starts, and behind
/// where it stops the elements.
pub fn honest<F: Family>(
    alloc: Global,
    hasher: &Standard<ByteHash>,
    start: &str,
    words: &[&str],
) -> Answer {
    match words {
        [stop, elements @ ..] => {
            let elements = words::elements(alloc, elements)?;
            honest_of::<F>(alloc, hasher, start.parse()?, stop.parse()?, &elements)
        }
        [] => bad_line(),
    }
}

// The digests of that proof.
fn honest_of<F: Family>(
    alloc: Global,
    hasher: &Standard<ByteHash>,
    start: u64,
    stop: u64,
    elements: &[Vec<u8>],
) -> Answer {
    let digests = honest_digests::<F>(alloc, hasher, start, stop, elements)?;
    told::digests(alloc, &digests)
}

// The same as a list.
fn honest_digests<F: Family>(
    alloc: Global,
    hasher: &Standard<ByteHash>,
    start: u64,
    stop: u64,
    elements: &[Vec<u8>],
) -> Result<Vec<Hash>, Stop> {
    let leaves = elements.len() as u64;
    // A line has far fewer words.
    if leaves > MAX_LEAVES {
        return bad_line();
    }
    let peaks = grow::<F>(alloc, leaves)?;
    let located = locate(alloc, &peaks)?;
    let plain = Plain::<ByteHash>::new(elements);
    Ok(range_digests_of::<F, _, _>(alloc, hasher, &plain, start, stop, &[], &located)?)
}

/// The greatest count of the digests of the proof of an element, or of the nodes that are pinned before a range.
pub fn limit(alloc: Global, name: &str) -> Answer {
    match name {
        "digests" => told::shown(alloc, MAX_PROOF_DIGESTS_PER_ELEMENT),
        "pinned" => told::shown(alloc, MAX_PINNED_NODES),
        _ => bad_line(),
    }
}
