//! Proofs whose keys and values are strings of bytes.

use crate::arguments::{Answer, Hash, refused, truth_if};
use crate::reading::{Shown, written};
use crate::refusals::of_bytes;
use case_lines::{Unanswered, bytes, digits};
use merkle_forest::codec::{Decode, RangeCfg};
use merkle_forest::{ByteHash, Graftable, PendingOf};
use state_ops::VariableEncoding;
use state_proofs::{ExclusionProof, KeyValueProof};
use std::alloc::Global;

/// How values are encoded.
type Strings = VariableEncoding<Vec<u8>>;

/// A line about a proof whose chunk has so many bytes, of at most so many digests, with strings of at most so many
/// bytes: `value WIDTH MOST GREATEST ..` or `absence WIDTH MOST GREATEST ..`.
pub(crate) fn told<F: Graftable + PendingOf<Hash>>(
    alloc: Global,
    shown: Shown<'_>,
    kind: &str,
    words: &[&str],
) -> Answer {
    match words {
        [width, most, greatest, words @ ..] => {
            let limits = (width.parse()?, most.parse()?);
            let strings = RangeCfg::new(0, greatest.parse()?);
            of_kind::<F>(alloc, shown, kind, limits, strings, words)
        }
        _ => Err(Unanswered::BadLine),
    }
}

// A line about a proof of this kind.
fn of_kind<F: Graftable + PendingOf<Hash>>(
    alloc: Global,
    shown: Shown<'_>,
    kind: &str,
    limits: (usize, usize),
    strings: RangeCfg,
    words: &[&str],
) -> Answer {
    match kind {
        "value" => value::<F>(alloc, shown, limits, strings, words),
        "absence" => absence::<F>(alloc, shown, limits, strings, words),
        _ => Err(Unanswered::BadLine),
    }
}

// A proof of a value: `written`, `next_key`, or `shows KEY VALUE`.
fn value<F: Graftable + PendingOf<Hash>>(
    alloc: Global,
    shown: Shown<'_>,
    limits: (usize, usize),
    strings: RangeCfg,
    words: &[&str],
) -> Answer {
    let read: Result<KeyValueProof<F, Vec<u8>, Hash>, _> = KeyValueProof::decode_cfg(
        alloc,
        shown.bytes,
        &(limits, strings),
    );
    match read {
        Ok(proof) => value_told(alloc, &proof, shown.root, words),
        Err(error) => refused(alloc, of_bytes(error)),
    }
}

// What a proof of a value tells.
fn value_told<F: Graftable + PendingOf<Hash>>(
    alloc: Global,
    proof: &KeyValueProof<F, Vec<u8>, Hash>,
    root: &Hash,
    words: &[&str],
) -> Answer {
    match words {
        ["written"] => written(alloc, proof),
        ["next_key"] => digits(alloc, &proof.next_key),
        ["shows", key, value] => {
            let key = bytes(alloc, key)?;
            let value = bytes(alloc, value)?;
            truth_if(
                alloc,
                proof.verify_as::<ByteHash, Strings>(alloc, &key, &value, root),
            )
        }
        _ => Err(Unanswered::BadLine),
    }
}

// A proof of absence: `written`, or `shows KEY`.
fn absence<F: Graftable + PendingOf<Hash>>(
    alloc: Global,
    shown: Shown<'_>,
    limits: (usize, usize),
    strings: RangeCfg,
    words: &[&str],
) -> Answer {
    let read: Result<ExclusionProof<F, Vec<u8>, Strings, Hash>, _> = ExclusionProof::decode_cfg(
        alloc,
        shown.bytes,
        &(limits, (strings, strings), strings),
    );
    match read {
        Ok(proof) => absence_told(alloc, &proof, shown.root, words),
        Err(error) => refused(alloc, of_bytes(error)),
    }
}

// What a proof of absence tells.
fn absence_told<F: Graftable + PendingOf<Hash>>(
    alloc: Global,
    proof: &ExclusionProof<F, Vec<u8>, Strings, Hash>,
    root: &Hash,
    words: &[&str],
) -> Answer {
    match words {
        ["written"] => written(alloc, proof),
        ["shows", asked] => {
            let asked = bytes(alloc, asked)?;
            truth_if(alloc, proof.verify_as::<ByteHash>(alloc, &asked, root))
        }
        _ => Err(Unanswered::BadLine),
    }
}
