//! Digests of leaves, branches, folds and roots.

use crate::told::{refused, shown};
use case_lines::{Unanswered, bytes, digits};
use merkle_forest::codec::{Encode, FixedBytes};
use merkle_forest::forest::grow;
use merkle_forest::hasher::{Hasher, Standard, hash_leaf, hash_node};
use merkle_forest::trees::{Plain, digests_of_peaks};
use merkle_forest::{
    Bagging, ByteHash, Error, Family, HashFunction, Location, PendingOf, Position,
};
use std::alloc::Global;

type Hash = FixedBytes<32>;

// The digest of these digits.
fn digest(digits: &str) -> Result<Hash, Unanswered> {
    let mut bytes = [0; 32];
    hex::decode_to_slice(digits, &mut bytes)?;
    Ok(FixedBytes::new(bytes))
}

// The digests of these digits.
fn digests(alloc: Global, words: &[&str]) -> Result<Vec<Hash>, Unanswered> {
    let mut list = Vec::new(alloc);
    for word in words {
        list.push(digest(word)?)?;
    }
    Ok(list)
}

// The way to fold of this name.
fn bagging(word: &str) -> Result<Bagging, Unanswered> {
    match word {
        "forward" => Ok(Bagging::ForwardFold),
        "backward" => Ok(Bagging::BackwardFold),
        _ => Err(Unanswered::BadLine),
    }
}

// The digits of a digest.
fn told(alloc: Global, digest: &Hash) -> Result<String, Unanswered> {
    digits(alloc, digest.as_bytes())
}

// A hasher that folds this way.
fn hasher(word: &str) -> Result<Standard<ByteHash>, Unanswered> {
    Ok(Standard::new(bagging(word)?))
}

// The digits of a root, or why there is none.
fn root_told<F: Family>(alloc: Global, root: Result<Hash, Error<F>>) -> Result<String, Unanswered> {
    match root {
        Ok(root) => told(alloc, &root),
        Err(error) => refused(alloc, error),
    }
}

// The root over these digests of peaks.
fn root<F: Family>(
    alloc: Global,
    hasher: &Standard<ByteHash>,
    leaves: u64,
    inactive: usize,
    peaks: &[Hash],
) -> Result<String, Unanswered> {
    root_told::<F>(alloc, hasher.root(Location::new(leaves), inactive, peaks))
}

// The root over items, of which the first may stand for several peaks.
fn root_of_items<F: Family>(
    alloc: Global,
    hasher: &Standard<ByteHash>,
    leaves: u64,
    inactive: usize,
    items: &[Hash],
) -> Result<String, Unanswered> {
    root_told::<F>(
        alloc,
        hasher.root_with_folded_peaks(Location::new(leaves), inactive, items),
    )
}

// The digests of the peaks of the forest that is grown of these elements.
fn grown_peaks<F: Family>(alloc: Global, elements: &[Vec<u8>]) -> Result<Vec<Hash>, Unanswered> {
    let leaves = elements.len() as u64;
    if leaves > 1 << 12 {
        return Err(Unanswered::BadLine);
    }
    let plain: Plain<ByteHash> = Plain::new(elements);
    Ok(digests_of_peaks(alloc, &plain, &grow::<F>(alloc, leaves)?)?)
}

// The bytes of each word.
fn elements(alloc: Global, words: &[&str]) -> Result<Vec<Vec<u8>>, Unanswered> {
    let mut elements = Vec::new(alloc);
    for word in words {
        elements.push(bytes(alloc, word)?)?;
    }
    Ok(elements)
}

// The root over these elements, by the forest that is grown of them.
fn grown_root<F: Family>(
    alloc: Global,
    hasher: &Standard<ByteHash>,
    inactive: &str,
    words: &[&str],
) -> Result<String, Unanswered> {
    let peaks = grown_peaks::<F>(alloc, &elements(alloc, words)?)?;
    root::<F>(alloc, hasher, words.len() as u64, inactive.parse()?, &peaks)
}

// The digests of one branch, alone and as one of a pair.
fn branch_of<F: Family>(
    alloc: Global,
    position: u64,
    left: &Hash,
    right: &Hash,
) -> Result<String, Unanswered> {
    let hasher: Standard<ByteHash> = Standard::new(Bagging::ForwardFold);
    let at: Position<F> = Position::new(position);
    let alone = hasher.node_digest(at, left, right);
    let (first, second) = hasher.node_digest_pair((at, left, right), (at, right, left));
    if alone != first || second != hash_node::<ByteHash>(position, right, left) {
        return shown(alloc, "a pair of other digests");
    }
    told(alloc, &alone)
}

// What a proof of the family holds of a pending digest, as its bytes; `none` where it may not hold it.
fn held<F: PendingOf<Hash>>(alloc: Global, pending: Option<Hash>) -> Result<String, Unanswered> {
    match F::hold(pending) {
        Some(held) => held_told::<F>(alloc, &held, pending),
        None => shown(alloc, "none"),
    }
}

// What is held, as its bytes, and whether the digest comes back.
fn held_told<F: PendingOf<Hash>>(
    alloc: Global,
    held: &F::Pending,
    pending: Option<Hash>,
) -> Result<String, Unanswered> {
    let is_back = is_back::<F>(held, pending);
    let text = digits(alloc, &held.encode(alloc)?)?;
    Ok(format!(in alloc; "{text} {is_back}")?)
}

// Whether the digest that is held is this one.
fn is_back<F: PendingOf<Hash>>(held: &F::Pending, pending: Option<Hash>) -> bool {
    F::digest_of(held) == pending
}

// The digest of one string, or of two.
fn hash(alloc: Global, words: &[&str]) -> Result<String, Unanswered> {
    match words {
        [part] => told(alloc, &ByteHash::hash(&[&bytes(alloc, part)?])),
        [left, right] => hash_of_two(alloc, &bytes(alloc, left)?, &bytes(alloc, right)?),
        _ => Err(Unanswered::BadLine),
    }
}

// The digest of two strings behind one another.
fn hash_of_two(alloc: Global, left: &[u8], right: &[u8]) -> Result<String, Unanswered> {
    told(alloc, &ByteHash::hash(&[left, right]))
}

// The digest of a leaf.
fn leaf(alloc: Global, words: &[&str]) -> Result<String, Unanswered> {
    match words {
        [at, element] => {
            let element = bytes(alloc, element)?;
            told(alloc, &hash_leaf::<ByteHash>(at.parse()?, &element))
        }
        _ => Err(Unanswered::BadLine),
    }
}

// The fold of two digests.
fn fold<F: Family>(alloc: Global, words: &[&str]) -> Result<String, Unanswered> {
    match words {
        [left, right] => folded::<F>(alloc, &digest(left)?, &digest(right)?),
        _ => Err(Unanswered::BadLine),
    }
}

// The fold of these two.
fn folded<F: Family>(alloc: Global, left: &Hash, right: &Hash) -> Result<String, Unanswered> {
    let hasher: Standard<ByteHash> = Standard::new(Bagging::ForwardFold);
    told(alloc, &Hasher::<F>::fold(&hasher, left, right))
}

// The digest of a pending digest that a proof holds.
fn hold<F: PendingOf<Hash>>(alloc: Global, words: &[&str]) -> Result<String, Unanswered> {
    match words {
        ["none"] => held::<F>(alloc, None),
        [pending] => held::<F>(alloc, Some(digest(pending)?)),
        _ => Err(Unanswered::BadLine),
    }
}

// The domain of a way to fold.
fn domain(alloc: Global, words: &[&str]) -> Result<String, Unanswered> {
    match words {
        [fold] => shown(alloc, bagging(fold)?.domain()),
        _ => Err(Unanswered::BadLine),
    }
}

// The digest of a branch.
fn branch<F: Family>(alloc: Global, words: &[&str]) -> Result<String, Unanswered> {
    match words {
        [at, left, right] => branch_of::<F>(alloc, at.parse()?, &digest(left)?, &digest(right)?),
        _ => Err(Unanswered::BadLine),
    }
}

// The root over these digests, of peaks or of items.
fn of_digests<F: Family>(
    alloc: Global,
    name: &str,
    hasher: &Standard<ByteHash>,
    leaves: u64,
    inactive: usize,
    digests: &[Hash],
) -> Result<String, Unanswered> {
    match name {
        "root" => root::<F>(alloc, hasher, leaves, inactive, digests),
        "root-of-items" => root_of_items::<F>(alloc, hasher, leaves, inactive, digests),
        _ => Err(Unanswered::BadLine),
    }
}

// The root over the digests of these digits.
fn of_digits<F: Family>(
    alloc: Global,
    name: &str,
    hasher: &Standard<ByteHash>,
    counts: [&str; 2],
    words: &[&str],
) -> Result<String, Unanswered> {
    let [leaves, inactive] = counts;
    let (leaves, inactive) = (leaves.parse()?, inactive.parse()?);
    of_digests::<F>(
        alloc,
        name,
        hasher,
        leaves,
        inactive,
        &digests(alloc, words)?,
    )
}

// The answer to a question about a root that is folded so.
fn of_root<F: Family>(
    alloc: Global,
    name: &str,
    hasher: &Standard<ByteHash>,
    words: &[&str],
) -> Result<String, Unanswered> {
    match words {
        [inactive, elements @ ..] if name == "grown-root" => {
            grown_root::<F>(alloc, hasher, inactive, elements)
        }
        [leaves, inactive, words @ ..] => {
            of_digits::<F>(alloc, name, hasher, [*leaves, *inactive], words)
        }
        _ => Err(Unanswered::BadLine),
    }
}

// The answer to a question about a root: how it is folded, and what follows.
fn of_fold<F: Family>(alloc: Global, name: &str, words: &[&str]) -> Result<String, Unanswered> {
    match words {
        [fold, words @ ..] => of_root::<F>(alloc, name, &hasher(fold)?, words),
        [] => Err(Unanswered::BadLine),
    }
}

// The answer to a question of this name.
fn named<F: PendingOf<Hash>>(
    alloc: Global,
    name: &str,
    words: &[&str],
) -> Result<String, Unanswered> {
    match name {
        "hash" => hash(alloc, words),
        "leaf" => leaf(alloc, words),
        "branch" => branch::<F>(alloc, words),
        "fold" => fold::<F>(alloc, words),
        "domain" => domain(alloc, words),
        "hold" => hold::<F>(alloc, words),
        name => of_fold::<F>(alloc, name, words),
    }
}

/// The answer to a question about digests.
pub fn answer<F: PendingOf<Hash>>(alloc: Global, words: &[&str]) -> Result<String, Unanswered> {
    match words {
        [name, words @ ..] => named::<F>(alloc, name, words),
        [] => Err(Unanswered::BadLine),
    }
}
