//! The canonical string.

ghost use Rattle.std.specs.Prelude.{◌≡◌, ◌++◌, option_map};
ghost use Rattle.state_theory.specs.Canonical.{canonical_string};

use merkle_forest::digest::Digest;
use merkle_forest::hasher::HashFunction;

// The digest of both roots and what stands after them.
fn seal_over<H: HashFunction>(
    operations: &H::Digest,
    grafted: &H::Digest,
    pending: &[u8],
    next: &[u8],
    partial: &[u8],
) -> H::Digest
    ensures { H.Digest.encoding result ≡ H.hash_of
        (H.Digest.encoding operations.now ++ (H.Digest.encoding grafted.now ++
        (pending.now ++ (next.now ++ partial.now)))) }
{
    H::hash(&[
        operations.as_bytes(),
        grafted.as_bytes(),
        pending,
        next,
        partial,
    ])
}

/// The digest of the canonical string: the root of the operations, the grafted root, the pending chunk's digest if any,
/// and the next bit and the partial chunk's digest if any.
/// In the Rust: `qmdb::current::db::combine_roots`, where the next bit and the partial chunk's digest are one pair.
#[tactic(auto, unfolding(state_theory::specs::Canonical::canonical_string))]
pub fn seal<H: HashFunction>(
    operations: &H::Digest,
    grafted: &H::Digest,
    pending: &Option<H::Digest>,
    next: u64,
    partial: &Option<H::Digest>,
) -> H::Digest
    ensures { H.Digest.encoding result ≡ H.hash_of
        (canonical_string (H.Digest.encoding operations.now) (H.Digest.encoding grafted.now)
        (option_map H.Digest.encoding pending.now) next (option_map H.Digest.encoding partial.now)) }
{
    let pending = match pending {
        Some(digest) => digest.as_bytes(),
        None => &[],
    };
    let next = next.to_be_bytes();
    match partial {
        Some(digest) => seal_over::<H>(operations, grafted, pending, &next, digest.as_bytes()),
        None => seal_over::<H>(operations, grafted, pending, &[], &[]),
    }
}
