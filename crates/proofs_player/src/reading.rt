//! Proofs that are read from bytes, written again, and checked.

ghost use Rattle.std.specs.Prelude.{◌<◌, ◌^◌};

use crate::arguments::{
    Answer, Hash, Line, array, arrays, byte_lists, digest, digest_list, digest_or_none,
    digest_told, lent, numbers, refused, truth, truth_if,
};
use crate::log_proofs::extracted;
use crate::refusals::of_bytes;
use case_lines::{Unanswered, digits};
use merkle_forest::codec::{Decode, Encode, EncodeSize, FixedBytes};
use merkle_forest::{ByteHash, Graftable, Location, PendingOf};
use state_ops::FixedEncoding;
use state_proofs::operation::Proof;
use state_proofs::proof::verify_proof_and_extract_digests;
use state_proofs::{ChunkForm, ExclusionProof, KeyValueProof, OpsRootWitness, RangeProof};
use std::alloc::Global;

/// A key of a state.
type Key = FixedBytes<8>;

/// Bytes that a case reads proofs from, and the root that it checks them under.
#[derive(Clone, Copy)]
pub(crate) struct Shown<'a> {
    /// The bytes of a proof.
    pub(crate) bytes: &'a [u8],
    /// A root.
    pub(crate) root: &'a Hash,
}

/// What was read, written again: its size, and its bytes.
pub(crate) fn written<T: Encode + EncodeSize>(alloc: Global, value: &T) -> Answer {
    let bytes = value.encode(alloc)?;
    let mut line = Line::new(alloc);
    line.number(value.encode_size() as u64);
    line.say(digits(alloc, &bytes));
    line.text()
}

// A key.
fn key(word: &str) -> Result<Key, Unanswered> {
    Ok(FixedBytes::new(array(word)?))
}

// The parts of a range proof: leaves, inactive peaks, digests, the pending and the partial digest, and the root of the
// operations.
fn range_parts<F: Graftable + PendingOf<Hash>>(
    alloc: Global,
    proof: &RangeProof<F, Hash>,
) -> Answer {
    let mut line = Line::new(alloc);
    line.number(proof.proof.leaves.as_u64());
    line.number(proof.proof.inactive_peaks);
    line.say(digest_list(alloc, &proof.proof.digests));
    line.say(digest_or_none(alloc, F::digest_of(&proof.pending_chunk_digest)));
    line.say(digest_or_none(alloc, proof.partial_chunk_digest));
    line.say(digest_told(alloc, &proof.ops_root));
    line.text()
}

/// A proof of an operation: what is read, `parts`, or whether it shows an operation, `shows OPERATION`.
pub(crate) fn operation<F: Graftable + PendingOf<Hash>, C: ChunkForm>(
    alloc: Global,
    shown: Shown<'_>,
    limits: &C::Limits,
    words: &[&str],
) -> Answer {
    let read: Result<Proof<F, Hash, C>, _> = Proof::decode_cfg(alloc, shown.bytes, limits);
    match read {
        Ok(proof) => operation_told(alloc, &proof, shown.root, words),
        Err(error) => refused(alloc, of_bytes(error)),
    }
}

// What a proof of an operation tells.
fn operation_told<F: Graftable + PendingOf<Hash>, C: ChunkForm>(
    alloc: Global,
    proof: &Proof<F, Hash, C>,
    root: &Hash,
    words: &[&str],
) -> Answer {
    match words {
        ["written"] => written(alloc, proof),
        ["parts"] => operation_parts(alloc, proof),
        ["shows", operation] => {
            let operation = case_lines::bytes(alloc, operation)?;
            truth(alloc, proof.verify::<ByteHash>(&operation, root))
        }
        _ => Err(Unanswered::BadLine),
    }
}

// The parts of a proof of an operation: its location, its chunk, and those of a range proof.
fn operation_parts<F: Graftable + PendingOf<Hash>, C: ChunkForm>(
    alloc: Global,
    proof: &Proof<F, Hash, C>,
) -> Answer {
    let mut line = Line::new(alloc);
    line.number(proof.loc.as_u64());
    line.say(digits(alloc, proof.chunk.as_slice()));
    line.say(range_parts(alloc, &proof.range_proof));
    line.text()
}

/// A proof of a value: `written`, `next_key`, or `shows KEY VALUE`.
pub(crate) fn value<F: Graftable + PendingOf<Hash>, C: ChunkForm>(
    alloc: Global,
    shown: Shown<'_>,
    limits: &(C::Limits, ()),
    words: &[&str],
) -> Answer {
    let read: Result<KeyValueProof<F, Key, Hash, C>, _> = KeyValueProof::decode_cfg(
        alloc,
        shown.bytes,
        limits,
    );
    match read {
        Ok(proof) => value_told(alloc, &proof, shown.root, words),
        Err(error) => refused(alloc, of_bytes(error)),
    }
}

// What a proof of a value tells.
fn value_told<F: Graftable + PendingOf<Hash>, C: ChunkForm>(
    alloc: Global,
    proof: &KeyValueProof<F, Key, Hash, C>,
    root: &Hash,
    words: &[&str],
) -> Answer {
    match words {
        ["written"] => written(alloc, proof),
        ["next_key"] => digits(alloc, proof.next_key.as_bytes()),
        ["shows", key_digits, value] => {
            shows_value(alloc, proof, root, &key(key_digits)?, value.parse()?)
        }
        _ => Err(Unanswered::BadLine),
    }
}

// Whether a proof shows that a key has a value.
fn shows_value<F: Graftable + PendingOf<Hash>, C: ChunkForm>(
    alloc: Global,
    proof: &KeyValueProof<F, Key, Hash, C>,
    root: &Hash,
    key: &Key,
    value: u64,
) -> Answer {
    truth_if(
        alloc,
        proof.verify::<ByteHash, u64>(alloc, key, &value, root),
    )
}

/// A proof of absence: `written`, or `shows KEY`.
pub(crate) fn absence<F: Graftable + PendingOf<Hash>, C: ChunkForm>(
    alloc: Global,
    shown: Shown<'_>,
    limits: &(C::Limits, (), ()),
    words: &[&str],
) -> Answer {
    let read: Result<ExclusionProof<F, Key, FixedEncoding<u64>, Hash, C>, _> =
        ExclusionProof::decode_cfg(alloc, shown.bytes, limits);
    match read {
        Ok(proof) => absence_told(alloc, &proof, shown.root, words),
        Err(error) => refused(alloc, of_bytes(error)),
    }
}

// What a proof of absence tells.
fn absence_told<F: Graftable + PendingOf<Hash>, C: ChunkForm>(
    alloc: Global,
    proof: &ExclusionProof<F, Key, FixedEncoding<u64>, Hash, C>,
    root: &Hash,
    words: &[&str],
) -> Answer {
    match words {
        ["written"] => written(alloc, proof),
        ["shows", asked] => { truth_if(alloc, proof.verify::<ByteHash>(alloc, &key(asked)?, root)) }
        _ => Err(Unanswered::BadLine),
    }
}

/// A witness of the root of the operations: `written`, `parts`, `root OPERATIONS`, `shows OPERATIONS`.
pub(crate) fn witness<F: Graftable + PendingOf<Hash>>(
    alloc: Global,
    shown: Shown<'_>,
    words: &[&str],
) -> Answer {
    let read: Result<OpsRootWitness<F, Hash>, _> = OpsRootWitness::decode_cfg(
        alloc,
        shown.bytes,
        &(),
    );
    match read {
        Ok(witness) => witness_told(alloc, &witness, shown.root, words),
        Err(error) => refused(alloc, of_bytes(error)),
    }
}

// What a witness tells.
fn witness_told<F: Graftable + PendingOf<Hash>>(
    alloc: Global,
    witness: &OpsRootWitness<F, Hash>,
    root: &Hash,
    words: &[&str],
) -> Answer {
    match words {
        ["written"] => written(alloc, witness),
        ["parts"] => witness_parts(alloc, witness),
        [question, operations] => {
            witness_under(alloc, witness, root, question, &digest(operations)?)
        }
        _ => Err(Unanswered::BadLine),
    }
}

// What a witness tells of a root of the operations.
fn witness_under<F: Graftable + PendingOf<Hash>>(
    alloc: Global,
    witness: &OpsRootWitness<F, Hash>,
    root: &Hash,
    question: &str,
    operations: &Hash,
) -> Answer {
    match question {
        "root" => digest_told(alloc, &witness.root::<ByteHash>(operations)),
        "shows" => truth(alloc, witness.verify::<ByteHash>(operations, root)),
        _ => Err(Unanswered::BadLine),
    }
}

// The parts of a witness: the root of the grafted tree, the pending digest, and behind the number of bits in it that of
// the partial chunk.
fn witness_parts<F: Graftable + PendingOf<Hash>>(
    alloc: Global,
    witness: &OpsRootWitness<F, Hash>,
) -> Answer {
    let mut line = Line::new(alloc);
    line.say(digest_told(alloc, &witness.grafted_root));
    line.say(digest_or_none(alloc, F::digest_of(&witness.pending_chunk_digest)));
    line.say(partial_told(alloc, witness.partial_chunk));
    line.text()
}

// The number of bits in a partial chunk, and its digest.
fn partial_told(alloc: Global, partial: Option<(u64, Hash)>) -> Answer {
    match partial {
        Some((next, digest)) => {
            let mut line = Line::new(alloc);
            line.number(next);
            line.say(digest_told(alloc, &digest));
            line.text()
        }
        None => Ok("none".to_string(alloc)?),
    }
}

/// A proof over a range: `written`, `parts`, `shows START OPERATIONS CHUNKS WIDTH`,
/// `shows_arrays START OPERATIONS CHUNKS WIDTH`, `digests START NUMBERS CHUNKS WIDTH`.
pub(crate) fn range<F: Graftable + PendingOf<Hash>>(
    alloc: Global,
    shown: Shown<'_>,
    most: usize,
    words: &[&str],
) -> Answer {
    let read: Result<RangeProof<F, Hash>, _> = RangeProof::decode_cfg(alloc, shown.bytes, &most);
    match read {
        Ok(proof) => range_told(alloc, &proof, shown.root, words),
        Err(error) => refused(alloc, of_bytes(error)),
    }
}

// What a proof over a range tells.
fn range_told<F: Graftable + PendingOf<Hash>>(
    alloc: Global,
    proof: &RangeProof<F, Hash>,
    root: &Hash,
    words: &[&str],
) -> Answer {
    match words {
        ["written"] => written(alloc, proof),
        ["parts"] => range_parts(alloc, proof),
        [question, start, list, chunks, width] => {
            let start = Location::new(start.parse()?);
            range_shown(alloc, proof, root, question, start, list, [*chunks, *width])
        }
        _ => Err(Unanswered::BadLine),
    }
}

// What a proof over a range shows of a list from a location on, with chunks of so many bytes.
fn range_shown<F: Graftable + PendingOf<Hash>>(
    alloc: Global,
    proof: &RangeProof<F, Hash>,
    root: &Hash,
    question: &str,
    start: Location<F>,
    list: &str,
    chunks: [&str; 2],
) -> Answer {
    match question {
        "shows" => slices_shown(alloc, proof, start, &byte_lists(alloc, list)?, chunks, root),
        "shows_arrays" => {
            arrays_shown(alloc, proof, start, &byte_lists(alloc, list)?, chunks, root)
        }
        "digests" => digests_told(alloc, proof, start, &numbers(alloc, list)?, chunks, root),
        _ => Err(Unanswered::BadLine),
    }
}

// Whether the proof shows operations with chunks that are lists of bytes.
fn slices_shown<F: Graftable + PendingOf<Hash>>(
    alloc: Global,
    proof: &RangeProof<F, Hash>,
    start: Location<F>,
    operations: &[Vec<u8>],
    words: [&str; 2],
    root: &Hash,
) -> Answer {
    let [chunks, width] = words;
    let chunks = byte_lists(alloc, chunks)?;
    slices_shown_of(
        alloc,
        proof,
        start,
        operations,
        &chunks,
        width.parse()?,
        root,
    )
}

// Whether the proof shows operations with these chunks.
fn slices_shown_of<F: Graftable + PendingOf<Hash>>(
    alloc: Global,
    proof: &RangeProof<F, Hash>,
    start: Location<F>,
    operations: &[Vec<u8>],
    chunks: &[Vec<u8>],
    width: usize,
    root: &Hash,
) -> Answer {
    let operations = lent(alloc, operations)?;
    let chunks = lent(alloc, chunks)?;
    truth(
        alloc,
        proof.verify_with_chunk_size::<ByteHash>(start, &operations, &chunks, width, root),
    )
}

// Whether the proof shows operations with chunks of N bytes.
fn shows_with<F: Graftable + PendingOf<Hash>, const N: usize>(
    alloc: Global,
    proof: &RangeProof<F, Hash>,
    start: Location<F>,
    operations: &[Vec<u8>],
    chunks: &str,
    root: &Hash,
) -> Answer
    requires { N < 2 ^ 62 }
{
    let chunks: Vec<[u8; N]> = arrays(alloc, chunks)?;
    let operations = lent(alloc, operations)?;
    truth(
        alloc,
        proof.verify::<ByteHash, N>(start, &operations, &chunks, root),
    )
}

// Whether the proof shows operations with chunks that are arrays.
fn arrays_shown<F: Graftable + PendingOf<Hash>>(
    alloc: Global,
    proof: &RangeProof<F, Hash>,
    start: Location<F>,
    operations: &[Vec<u8>],
    words: [&str; 2],
    root: &Hash,
) -> Answer {
    let [chunks, width] = words;
    match width {
        "0" => shows_with::<F, 0>(alloc, proof, start, operations, chunks, root),
        "1" => shows_with::<F, 1>(alloc, proof, start, operations, chunks, root),
        "2" => shows_with::<F, 2>(alloc, proof, start, operations, chunks, root),
        "3" => shows_with::<F, 3>(alloc, proof, start, operations, chunks, root),
        "32" => shows_with::<F, 32>(alloc, proof, start, operations, chunks, root),
        _ => Err(Unanswered::BadLine),
    }
}

// The nodes that the proof tells of numbers with chunks of N bytes: the position and the digest of each.
fn digests_with<F: Graftable + PendingOf<Hash>, const N: usize>(
    alloc: Global,
    proof: &RangeProof<F, Hash>,
    start: Location<F>,
    numbers: &[u64],
    chunks: &str,
    root: &Hash,
) -> Answer
    requires { N < 2 ^ 62 }
{
    let chunks: Vec<[u8; N]> = arrays(alloc, chunks)?;
    let told = verify_proof_and_extract_digests::<F, ByteHash, u64, N>(
        alloc, proof, start, numbers, &chunks, root,
    );
    extracted(alloc, told)
}

// The nodes that the proof tells of numbers with chunks that are arrays.
fn digests_told<F: Graftable + PendingOf<Hash>>(
    alloc: Global,
    proof: &RangeProof<F, Hash>,
    start: Location<F>,
    numbers: &[u64],
    words: [&str; 2],
    root: &Hash,
) -> Answer {
    let [chunks, width] = words;
    match width {
        "1" => digests_with::<F, 1>(alloc, proof, start, numbers, chunks, root),
        "3" => digests_with::<F, 3>(alloc, proof, start, numbers, chunks, root),
        "32" => digests_with::<F, 32>(alloc, proof, start, numbers, chunks, root),
        _ => Err(Unanswered::BadLine),
    }
}
