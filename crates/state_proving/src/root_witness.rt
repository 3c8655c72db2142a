//! The witness of what is kept: what leads from the root of the operations' tree to the canonical one.

ghost use Rattle.std.specs.Prelude.{◌≡◌, ℕ, List, option_map};
ghost use Rattle.state_theory.specs.Canonical.{State, next_bit, partial_digest, pending_digest, setting_with};
ghost use Rattle.state_proofs.specs.Witness.{honest_witness, witness_of};
ghost use Rattle.state_current.specs.Kept.{StandsFor};

use merkle_forest::hasher::HashFunction;
use merkle_forest::{Graftable, PendingOf};
use state_current::Current;
use state_proofs::OpsRootWitness;

// What is held of the digest of the full chunk that has no node yet, or of its absence.
fn held_pending<F: Graftable + PendingOf<H::Digest>, H: HashFunction, const N: usize>(
    current: &Current<F, H, N>,
) -> F::Pending
    ensures { (height : ℕ) (state : State) → let setting = setting_with F.merge_rule H.hash_of N height in
        StandsFor setting state current.now → F.held result ≡ pending_digest setting state }
{
    let _few = current.leaves();
    let _size = current.chunk_size();
    let pending = current.pending_digest();
    F::hold(pending).unwrap()
}

// The next bit and the digest of the chunk that the last bits fill in part, if any.
fn partial_chunk<F: Graftable, H: HashFunction, const N: usize>(
    current: &Current<F, H, N>,
) -> Option<(u64, H::Digest)>
    ensures { (height : ℕ) (state : State) → let setting = setting_with F.merge_rule H.hash_of N height in
        StandsFor setting state current.now → option_map {U = ℕ × List ℕ} (λ x. (x.0, H.Digest.encoding x.1)) result
        ≡ option_map {U = ℕ × List ℕ} (λ digest. (next_bit setting state, digest)) (partial_digest setting state) }
{
    let next = current.chunk_size().bit_of(current.leaves().as_u64());
    match current.partial_digest() {
        Some(digest) => Some((next, digest)),
        None => None,
    }
}

/// The witness of the root of the operations' tree: the other parts of the canonical string. It takes no memory
/// (own).
pub fn witness<F: Graftable + PendingOf<H::Digest>, H: HashFunction, const N: usize>(
    current: &Current<F, H, N>,
) -> OpsRootWitness<F, H::Digest>
    ensures { (height : ℕ) (state : State) → let setting = setting_with F.merge_rule H.hash_of N height in
        StandsFor setting state current.now
        → witness_of H.Digest.encoding F.held result ≡ honest_witness setting state }
{
    OpsRootWitness {
        grafted_root: current.root_of_grafted(),
        pending_chunk_digest: held_pending(current),
        partial_chunk: partial_chunk(current),
    }
}
