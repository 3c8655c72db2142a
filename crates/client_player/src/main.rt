//! Plays cases of the light client: a claim, a root and the bytes of a proof a line, its answer a line.
#![tactic(auto)]

use auth_store_client::{Claim, check};
use case_lines::{Player, Unanswered, bytes};
use merkle_forest::codec::{Cursor, FixedBytes};
use merkle_forest::{ByteHash, Graftable, PendingOf, mmb, mmr};
use state_ops::{OrderedOperation, ordered};
use std::alloc::Global;

type Name = FixedBytes<8>;

type Root = FixedBytes<32>;

/// Nothing is kept from one line to the next.
#[derive(Drop)]
struct Client {}

// The bytes of these digits, so many of them.
fn fixed<const M: usize>(digits: &str) -> Result<FixedBytes<M>, Unanswered> {
    let mut bytes = [0; M];
    hex::decode_to_slice(digits, &mut bytes)?;
    Ok(FixedBytes::new(bytes))
}

// The operation that these digits encode, all of them.
fn operation<F: Graftable>(
    alloc: Global,
    digits: &str,
) -> Result<OrderedOperation<F, Name, u64>, Unanswered> {
    let bytes = bytes(alloc, digits)?;
    let mut cursor = Cursor::new(&bytes);
    match ordered::read(alloc, &mut cursor) {
        Ok(operation) if cursor.is_empty() => Ok(operation),
        _ => Err(Unanswered::BadLine),
    }
}

// The operations that these digits encode, joined by commas, or none (`-`).
fn operations<F: Graftable>(
    alloc: Global,
    words: &str,
) -> Result<Vec<OrderedOperation<F, Name, u64>>, Unanswered> {
    let mut found = Vec::new(alloc);
    if words == "-" {
        return Ok(found);
    }
    for digits in words.split(',') {
        found.push(operation(alloc, digits)?)?;
    }
    Ok(found)
}

// The bits of these digits, 1 or 0 each, or none (`-`).
fn bits(alloc: Global, digits: &str) -> Result<Vec<bool>, Unanswered> {
    let mut found = Vec::new(alloc);
    if digits == "-" {
        return Ok(found);
    }
    for digit in digits.chars() {
        match digit {
            '0' => found.push(false)?,
            '1' => found.push(true)?,
            _ => return Err(Unanswered::BadLine),
        }
    }
    Ok(found)
}

// The claim of these words.
fn claim<F: Graftable>(alloc: Global, words: &[&str]) -> Result<Claim<F, Name, u64>, Unanswered> {
    match words {
        ["value", key, value] => Ok(Claim::Value {
            key: fixed(key)?,
            value: value.parse()?,
        }),
        ["absent", key] => Ok(Claim::Absent { key: fixed(key)? }),
        ["active", location, encoding] => Ok(Claim::Active {
            location: location.parse()?,
            operation: operation(alloc, encoding)?,
        }),
        ["range", start, encodings, active] => Ok(Claim::Range {
            start: start.parse()?,
            operations: operations(alloc, encodings)?,
            active: bits(alloc, active)?,
        }),
        ["slice", start, encodings] => Ok(Claim::Slice {
            start: start.parse()?,
            operations: operations(alloc, encodings)?,
        }),
        _ => Err(Unanswered::BadLine),
    }
}

// What the client says of the claim of these words under the root, with chunks of `N` bytes.
fn said<F: Graftable + PendingOf<Root>, const N: usize>(
    alloc: Global,
    root: &Root,
    proof: &[u8],
    words: &[&str],
) -> Result<bool, Unanswered> {
    let claim = claim::<F>(alloc, words)?;
    Ok(check::<F, ByteHash, Name, u64, N>(alloc, root, &claim, proof)?)
}

// What is said of the claim of these words: over the trees of this family, with chunks of this width.
fn told(
    alloc: Global,
    kind: (&str, &str),
    root: &Root,
    proof: &[u8],
    words: &[&str],
) -> Result<bool, Unanswered> {
    match kind {
        ("mmr", "1") => said::<mmr::Family, 1>(alloc, root, proof, words),
        ("mmr", "32") => said::<mmr::Family, 32>(alloc, root, proof, words),
        ("mmb", "1") => said::<mmb::Family, 1>(alloc, root, proof, words),
        ("mmb", "32") => said::<mmb::Family, 32>(alloc, root, proof, words),
        _ => Err(Unanswered::BadLine),
    }
}

impl Player for Client {
    fn begin(_alloc: Global) -> Result<Client, Unanswered> {
        Ok(Client {})
    }

    fn answer(&mut self, alloc: Global, words: &[&str]) -> Result<String, Unanswered> {
        let [family, width, root, proof, words @ ..] = words else {
            return Err(Unanswered::BadLine);
        };
        let root = fixed(root)?;
        let proof = bytes(alloc, proof)?;
        match told(alloc, (family, width), &root, &proof, words)? {
            true => Ok("yes".to_string(alloc)?),
            false => Ok("no".to_string(alloc)?),
        }
    }
}

fn main(rt: HostRuntime) -> anyhow::Result<()> {
    case_lines::play::<Client>(&rt)
}
