//! Roots: peaks folded into one digest, and the string that is hashed.

ghost use Rattle.std.specs.Prelude.{◌≡◌, ◌<◌, ◌≤◌, ◌↔◌, ◌++◌, ◌∷◌, [], ℕ, List, map, take, drop, length, IfOk, IfErr};
ghost use Rattle.std.specs.Prelude.{OnErr, IsErr, IfSome, IfNone, MatchOption};
ghost use Rattle.std.specs.Option.{option_to_list};
ghost use Rattle.merkle_forest.specs.Hashing.{folded_onto, folded_forward, folded_backward, root_of, root_string};
ghost use Rattle.merkle_forest.specs.Hashing.{bagged, items};

use crate::bagging::Bagging;
use crate::digest::Digest;
use crate::family::Family;
use crate::hasher::Hasher;

/// The digest into which the digests are folded from the left, onto the first one (own).
pub fn fold_onto<F: Family, H: Hasher<F>>(
    hasher: &H,
    first: H::Digest,
    digests: &[H::Digest],
) -> H::Digest
    ensures { H.Digest.encoding result ≡ folded_onto H.hash_of (H.Digest.encoding first)
        (map H.Digest.encoding digests.now) }
{
    let mut folded = first;
    for digest in digests {
        folded = hasher.fold(&folded, digest);
    }
    folded
}

/// The digest into which the digests are folded from the right, with the first one at the left end (own).
pub fn fold_backward<F: Family, H: Hasher<F>>(
    hasher: &H,
    first: &H::Digest,
    digests: &[H::Digest],
) -> H::Digest
    ensures { H.Digest.encoding result ≡ folded_backward H.hash_of
        (H.Digest.encoding first.now ∷ map H.Digest.encoding digests.now) }
{
    let Some(last) = digests.last() else {
        return *first;
    };
    let mut folded = *last;
    for index in (0..digests.len() - 1).rev() {
        folded = hasher.fold(&digests[index], &folded);
    }
    hasher.fold(first, &folded)
}

// The digests folded as the bagging says.
fn bag<F: Family, H: Hasher<F>>(hasher: &H, first: &H::Digest, digests: &[H::Digest]) -> H::Digest
    ensures { H.Digest.encoding result ≡ bagged H.hash_of (H.bagging_of hasher.now)
        (H.Digest.encoding first.now ∷ map H.Digest.encoding digests.now) }
{
    match hasher.root_bagging() {
        Bagging::ForwardFold => fold_onto(hasher, *first, digests),
        Bagging::BackwardFold => fold_backward(hasher, first, digests),
    }
}

// The digest of a root's string.
#[tactic(auto, unfolding(crate::specs::Hashing::root_string))]
fn seal<F: Family, H: Hasher<F>>(hasher: &H, leaves: u64, inactive: u64, peaks: &[u8]) -> H::Digest
    ensures { H.Digest.encoding result ≡ H.hash_of (root_string (H.bagging_of hasher.now) leaves inactive peaks.now) }
{
    let leaves = leaves.to_be_bytes();
    let domain = [hasher.root_bagging().domain()];
    if inactive == 0 {
        hasher.hash(&[&leaves, &domain, peaks])
    } else {
        hasher.hash(&[&leaves, &domain, &inactive.to_be_bytes(), peaks])
    }
}

// The root over items: the inactive peaks folded into the first one where there are some, and the other peaks.
pub(crate) fn root_of_items<F: Family, H: Hasher<F>>(
    hasher: &H,
    leaves: u64,
    inactive: u64,
    items: &[H::Digest],
) -> H::Digest
    ensures { H.Digest.encoding result ≡ H.hash_of
        (root_string (H.bagging_of hasher.now) leaves inactive
        (bagged H.hash_of (H.bagging_of hasher.now) (map H.Digest.encoding items.now))) }
{
    match items {
        [] => seal(hasher, leaves, inactive, &[]),
        [first, rest @ ..] => seal(
            hasher,
            leaves,
            inactive,
            bag(hasher, first, rest).as_bytes(),
        ),
    }
}

/// The root over one item, into which all peaks are folded; `inactive` is how many of them are inactive (own).
pub fn root_over_item<F: Family, H: Hasher<F>>(
    hasher: &H,
    leaves: u64,
    inactive: u64,
    item: &H::Digest,
) -> H::Digest
    ensures { H.Digest.encoding result ≡ H.hash_of
        (root_string (H.bagging_of hasher.now) leaves inactive (H.Digest.encoding item.now)) }
{
    seal(hasher, leaves, inactive, item.as_bytes())
}

// The root over the peaks, of which the first `inactive` are inactive.
#[tactic(auto, unfolding(crate::specs::Hashing::root_of))]
pub(crate) fn root_of_peaks<F: Family, H: Hasher<F>>(
    hasher: &H,
    leaves: u64,
    inactive: usize,
    peaks: &[H::Digest],
) -> H::Digest
    requires { inactive ≤ length peaks.now }
    ensures { H.Digest.encoding result ≡ root_of H.hash_of (H.bagging_of hasher.now) leaves inactive
        (map H.Digest.encoding peaks.now) }
{
    let (front, rest) = peaks.split_at(inactive);
    match front {
        [] => root_of_items(hasher, leaves, 0, rest),
        [first, others @ ..] => {
            let folded = fold_onto(hasher, *first, others);
            let bagged = bag(hasher, &folded, rest);
            seal(hasher, leaves, inactive as u64, bagged.as_bytes())
        }
    }
}
