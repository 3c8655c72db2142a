//! The digests of the nodes that a proof is made of: looked up one after the other, and folded into those of the proof.

ghost use Rattle.std.specs.Prelude.{◌≡◌, ◌<◌, ◌≤◌, ◌^◌, ◌++◌, ℕ, Some, map, take, drop, length, IfOk, IfErr, OnOk};
ghost use Rattle.merkle_theory.specs.Plans.{Lookup, AnswersAs, IsRefusalToLookUp};
ghost use Rattle.merkle_theory.specs.Assembled.{assembled};

use crate::building::plain::{append_folded_backward, append_folded_forward};
use merkle_core_parts::Error;
use merkle_forest::bagging::Bagging;
use merkle_forest::family::Family;
use merkle_forest::hasher::Hasher;
use merkle_forest::{Digest, Position};
use std::alloc::{AllocError, Global};

// The digests of the nodes at these positions, in their order. Where there is none: M10 with the first such position;
// out of memory: M23.
pub(crate) fn look_up<F: Family, D: Digest, G: Fn(u64) -> Option<D>>(
    alloc: Global,
    positions: &[Position<F>],
    get_node: &G,
) -> Result<Vec<D>, Error<F>>
    requires { G.IsAlwaysCallable get_node.now }
    ensures counted { IfOk result (λ found. length found.items ≡ length positions.now) }
    ensures found { (known : Lookup) → AnswersAs (G.post get_node.now) D.encoding known
        → IfOk result (λ found. map (λ d. Some d) (map D.encoding found.items) ≡ map known positions.now) }
    ensures refused { (known : Lookup) → AnswersAs (G.post get_node.now) D.encoding known
        → IfErr result (λ e. IsRefusalToLookUp known positions.now e) }
{
    let mut found = Vec::new(alloc);
    for position in positions {
        match get_node(position.as_u64()) {
            Some(digest) => found.push(digest)?,
            None => return Err(Error::ElementPruned(*position)),
        }
    }
    Ok(found)
}

// The digests of a proof, from those of the peaks before and after the range, of which so many are inactive, and of the
// other nodes.
pub(crate) fn assemble<F: Family, H: Hasher<F>>(
    alloc: Global,
    hasher: &H,
    before: &[H::Digest],
    inactive_before: usize,
    after: &[H::Digest],
    inactive_after: usize,
    inner: &[H::Digest],
) -> Result<Vec<H::Digest>, AllocError>
    requires before { inactive_before ≤ length before.now }
    requires after { inactive_after ≤ length after.now }
    ensures { IfOk result (λ found. map H.Digest.encoding found.items
        ≡ assembled H.hash_of (H.bagging_of hasher.now) inactive_before (map H.Digest.encoding before.now)
        inactive_after (map H.Digest.encoding after.now) (map H.Digest.encoding inner.now)) }
{
    let mut found = Vec::new(alloc);
    match hasher.root_bagging() {
        Bagging::ForwardFold => {
            append_folded_forward(&mut found, hasher, before)?;
            found.extend_from_slice(after)?;
        }
        Bagging::BackwardFold => {
            let (inactive, active) = before.split_at(inactive_before);
            append_folded_forward(&mut found, hasher, inactive)?;
            found.extend_from_slice(active)?;
            let (inactive, active) = after.split_at(inactive_after);
            found.extend_from_slice(inactive)?;
            append_folded_backward(&mut found, hasher, active)?;
        }
    }
    found.extend_from_slice(inner)?;
    Ok(found)
}
