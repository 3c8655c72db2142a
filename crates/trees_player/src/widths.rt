//! Proofs of digests of other widths, written and read.

use crate::stop::{Answer, Stop, bad_line};
use crate::told::{self, Line};
use merkle_core::Proof;
use merkle_forest::codec::{Decode, Encode, FixedBytes};
use merkle_forest::{Digest, Family};
use std::alloc::Global;

/// Answers a call on proofs of digests of so many bytes.
pub fn call_width<F: Family>(alloc: Global, width: &str, call: &[&str]) -> Answer {
    match width {
        "1" => coded::<F, FixedBytes<1>>(alloc, call),
        "2" => coded::<F, FixedBytes<2>>(alloc, call),
        "32" => coded::<F, FixedBytes<32>>(alloc, call),
        _ => bad_line(),
    }
}

fn coded<F: Family, D: Digest>(alloc: Global, call: &[&str]) -> Answer {
    match call {
        ["greatest", most] => greatest::<F, D>(alloc, most.parse()?),
        [what, most, digits] => told(alloc, what, decoded::<F, D>(alloc, most, digits)),
        _ => bad_line(),
    }
}

// The greatest length of the encoding of a proof of at most so many digests.
fn greatest<F: Family, D: Digest>(alloc: Global, most: usize) -> Answer {
    match Proof::<F, D>::max_encode_size(most) {
        Some(size) => told::shown(alloc, size),
        None => told::shown(alloc, "none"),
    }
}

/// The proof that these digits spell, of at most so many digests.
pub fn decoded<F: Family, D: Digest>(
    alloc: Global,
    most: &str,
    digits: &str,
) -> Result<Proof<F, D>, Stop> {
    let most = most.parse()?;
    decoded_of(alloc, most, &case_lines::bytes(alloc, digits)?)
}

// The proof that these bytes are, of at most so many digests.
fn decoded_of<F: Family, D: Digest>(
    alloc: Global,
    most: usize,
    bytes: &[u8],
) -> Result<Proof<F, D>, Stop> {
    Ok(Proof::decode_cfg(alloc, bytes, &most)?)
}

// A proof that was read: its parts, or its encoding.
fn told<F: Family, D: Digest>(
    alloc: Global,
    what: &str,
    proof: Result<Proof<F, D>, Stop>,
) -> Answer {
    let proof = proof?;
    match what {
        "read" => shown(alloc, &proof),
        "again" => encoded(alloc, &proof),
        _ => bad_line(),
    }
}

/// The encoding of a proof.
pub fn encoded<F: Family, D: Digest>(alloc: Global, proof: &Proof<F, D>) -> Answer {
    Ok(hex::encode(alloc, &proof.encode(alloc)?)?)
}

// The leaves of a proof, its inactive peaks and its digests.
fn shown<F: Family, D: Digest>(alloc: Global, proof: &Proof<F, D>) -> Answer {
    let mut line = Line::new(alloc);
    line.number(proof.leaves.as_u64());
    line.number(proof.inactive_peaks);
    for digest in &proof.digests {
        line.encoding(digest);
    }
    line.text()
}
