//! A tree whose leaves get other digests, made anew from below: each branch over such a leaf once, and no other.

ghost use Rattle.std.specs.Prelude.{◌≡◌, ◌<◌, ◌≤◌, ◌+◌, ◌^◌, ◌↔◌, ℕ, suc, List, Some, map, length, drop, slice_get};
ghost use Rattle.std.specs.Prelude.{option_map, IsTrue, IfOk, IfErr, OnOk};
ghost use Rattle.std.specs.List.{AllByRecursion};
ghost use Rattle.std.specs.Prelude.{vec_len, vec_capacity};
ghost use Rattle.merkle_forest.specs.Forest.{Tree, position, leaf_count, forest_of};
ghost use Rattle.merkle_forest.specs.Nodes.{IsNodeAt};
ghost use Rattle.merkle_core_parts.specs.Errors.{IsRefusalOver};
ghost use Rattle.merkle_core_parts.specs.Layers.{known_at};
ghost use Rattle.merkle_core_parts.specs.Mem.{node_count, encoded, IsKept, replaced_at, value_after};
ghost use Rattle.merkle_core_parts.specs.Laws.Made.{HavePeaks};
ghost use Rattle.merkle_core_parts.specs.Laws.Replaced.{AreFrom};
ghost use Rattle.merkle_core_parts.specs.Laws.Rebuilt.{Digests, IsSetting, ArePending, IsDue, AreTaken, IsRight};
ghost use Rattle.merkle_core_parts.specs.Laws.Rebuilt.{IsPlace, IsRebuilt};
ghost use Rattle.merkle_core_parts.specs.Laws.Updated.{AreRebuilt};
ghost use Rattle.merkle_core_parts.specs.Laws.Enough.{IsRefusalOfKept};

use crate::layered::Layered;
use merkle_core_parts::Error;
use merkle_forest::family::{Family, MAX_LEAVES};
use merkle_forest::hasher::Hasher;
use merkle_forest::{Digest, Position};
use std::alloc::{AllocError, Global};

// A node: the location of its first leaf, its position and its height.
#[derive(Clone, Copy)]
struct Place {
    first: u64,
    position: u64,
    height: u32,
}

// Puts each digest at its index less `first`, where that is an index of the list, one after the other.
fn put_digests<D: Digest>(digests: &mut [D], first: u64, changes: &[(u64, D)])
    ensures { (k : ℕ) → slice_get (map D.encoding digests.new) k
        ≡ option_map (value_after (encoded D.encoding changes.now) (first + k))
        (slice_get (map D.encoding digests.old) k) }
{
    for (index, digest) in changes {
        if *index >= first {
            let place = (*index - first) as usize;
            if place < digests.len() {
                digests[place] = *digest;
            }
        }
    }
}

// The same in a vector.
pub(crate) fn put_all<D: Digest>(digests: &mut Vec<D>, first: u64, changes: &[(u64, D)])
    ensures each { (k : ℕ) → slice_get (map D.encoding digests.new.items) k
        ≡ option_map (value_after (encoded D.encoding changes.now) (first + k))
        (slice_get (map D.encoding digests.old.items) k) }
    ensures counted { length digests.new.items ≡ length digests.old.items }
    ensures len { vec_len digests.new ≡ vec_len digests.old }
    ensures room { vec_capacity digests.new ≡ vec_capacity digests.old }
{
    put_digests(digests, first, changes);
}

// What stands at a position after these changes, one after the other, where `digest` stood before.
fn last_digest<D: Digest>(changes: &[(u64, D)], position: u64, digest: D) -> D
    ensures { D.encoding result ≡ value_after (encoded D.encoding changes.now) position (D.encoding digest) }
{
    let mut last = digest;
    for (at, changed) in changes {
        if *at == position {
            last = *changed;
        }
    }
    last
}

// Changes digests that stand at positions, one after the other.
fn put_at_positions<D: Digest>(digests: &mut [(u64, D)], changes: &[(u64, D)])
    ensures { encoded D.encoding digests.new
        ≡ replaced_at (encoded D.encoding digests.old) (encoded D.encoding changes.now) }
{
    for place in 0..digests.len() {
        let one = digests[place];
        digests[place] = (one.0, last_digest(changes, one.0, one.1));
    }
}

// The same in a vector.
pub(crate) fn put_pinned<D: Digest>(digests: &mut Vec<(u64, D)>, changes: &[(u64, D)])
    ensures { encoded D.encoding digests.new.items
        ≡ replaced_at (encoded D.encoding digests.old.items) (encoded D.encoding changes.now) }
{
    put_at_positions(digests, changes);
}

// Sorts updates by location. Those at one location keep their order.
pub(crate) fn sort_updates<D: Digest>(updates: &mut Vec<(u64, D)>) -> Result<(), AllocError>
    ensures order { OnOk result (AreFrom 0 (encoded D.encoding updates.new.items)) }
    ensures bound { OnOk result ((b : ℕ) → AllByRecursion (λ one. b ≤ one.0) (encoded D.encoding updates.old.items)
        → AreFrom b (encoded D.encoding updates.new.items)) }
    ensures same { OnOk result ((k : ℕ) (old : List ℕ) → value_after (encoded D.encoding updates.old.items) k old
        ≡ value_after (encoded D.encoding updates.new.items) k old) }
{
    updates.sort_by_key(|update| update.0)?;
    Ok(())
}

// Whether the next update is at a location before `end`.
fn is_due<D: Digest>(updates: &[(u64, D)], next: usize, end: u64) -> bool
    ensures due { IsTrue result ↔ IsDue end (drop next (encoded D.encoding updates.now)) }
    ensures within { IsTrue result → next < length updates.now }
{
    if next >= updates.len() {
        return false;
    }
    updates[next].0 < end
}

// The digest that the leaf at a location gets, of the updates from `next` on, the first of which is at it; and which
// update is the first at a later one.
fn taken<D: Digest>(updates: &[(u64, D)], next: usize, location: u64) -> (D, usize)
    requires within { next < length updates.now }
    requires few { location < MAX_LEAVES }
    ensures { (boundary : ℕ) → AreFrom location (drop next (encoded D.encoding updates.now))
        → AreFrom boundary (drop next (encoded D.encoding updates.now))
        → IsDue (suc location) (drop next (encoded D.encoding updates.now))
        → AreTaken location boundary (drop next (encoded D.encoding updates.now))
        (drop result.1 (encoded D.encoding updates.now)) (D.encoding result.0) }
{
    let mut digest = updates[next].1;
    let mut after = next + 1;
    while is_due(updates, after, location + 1) {
        digest = updates[after].1;
        after += 1;
    }
    (digest, after)
}

// How many leaves a tree of this height has.
fn leaf_span(height: u32) -> u64
    requires { height ≤ 62 }
    ensures { result ≡ 2 ^ height }
{
    1u64 << height
}

// The digest of the node at a place of the forest of so many leaves, after the updates from `next` on, and which of
// them is the first past its leaves. Appends the nodes that change.
fn rebuild<F: Family, H: Hasher<F>>(
    hasher: &H,
    base: &Layered<F, H::Digest>,
    leaves: u64,
    updates: &[(u64, H::Digest)],
    next: usize,
    changed: &mut Vec<(u64, H::Digest)>,
    place: Place,
) -> Result<(H::Digest, usize), Error<F>>
    requires few { leaves ≤ MAX_LEAVES }
    requires place { IsPlace F.merge_rule leaves place.first place.position place.height }
    ensures rebuilt { IfOk result (λ made. (boundary : ℕ) (before after : Digests) (tree : Tree)
        → IsSetting F.merge_rule (H.node_of hasher.now) leaves boundary (known_at F.merge_rule base.now) before after
        → ArePending F.merge_rule leaves boundary before after place.first
        (drop next (encoded H.Digest.encoding updates.now))
        → IsRight F.merge_rule leaves after (encoded H.Digest.encoding changed.old.items)
        → IsNodeAt place.first tree (forest_of F.merge_rule leaves) → place.position ≡ position tree
        → IsRebuilt F.merge_rule leaves boundary before after place.first tree
        (encoded H.Digest.encoding changed.old.items) (encoded H.Digest.encoding changed.new.items)
        (H.Digest.encoding made.0) (place.first + leaf_count tree)
        (drop made.1 (encoded H.Digest.encoding updates.now))) }
    ensures refused { IfErr result (λ e. IsRefusalOver F.merge_rule (node_count F.merge_rule leaves) base.now e) }
    ensures kept { IfErr result (λ e. (b : ℕ) → b ≤ leaves → AreFrom b (encoded H.Digest.encoding updates.now)
        → IsKept F.merge_rule b place.position → IsRefusalOfKept F.merge_rule b e) }
{
    if !is_due(updates, next, place.first + leaf_span(place.height)) {
        return match base.get_node(Position::new(place.position)) {
            Some(digest) => Ok((digest, next)),
            None => Err(base.refusal(Position::new(place.position))),
        };
    }
    if place.height == 0 {
        let (digest, after) = taken(updates, next, place.first);
        changed.push((place.position, digest))?;
        return Ok((digest, after));
    }
    let (at_left, at_right) = F::child_positions(place.position, place.height);
    let left = Place {
        first: place.first,
        position: at_left,
        height: place.height - 1,
    };
    let right = Place {
        first: place.first + leaf_span(place.height - 1),
        position: at_right,
        height: place.height - 1,
    };
    let (one, middle) = rebuild::<F, H>(hasher, base, leaves, updates, next, changed, left)?;
    let (other, after) = rebuild::<F, H>(hasher, base, leaves, updates, middle, changed, right)?;
    let digest = hasher.digest_of_branch(place.position, &one, &other);
    changed.push((place.position, digest))?;
    Ok((digest, after))
}

// The positions and the digests of the peaks of the tree of so many leaves, after the updates, which are in order of
// location. Appends the nodes that change.
pub(crate) fn rebuild_peaks<F: Family, H: Hasher<F>>(
    alloc: Global,
    hasher: &H,
    base: &Layered<F, H::Digest>,
    leaves: u64,
    updates: &[(u64, H::Digest)],
    changed: &mut Vec<(u64, H::Digest)>,
) -> Result<Vec<(u64, H::Digest)>, Error<F>>
    requires { leaves ≤ MAX_LEAVES }
    ensures peaks { IfOk result (λ peaks. HavePeaks F.merge_rule leaves (encoded H.Digest.encoding peaks.items)) }
    ensures rebuilt { IfOk result (λ peaks. (boundary : ℕ) (before after : Digests)
        → IsSetting F.merge_rule (H.node_of hasher.now) leaves boundary (known_at F.merge_rule base.now) before after
        → ArePending F.merge_rule leaves boundary before after 0 (encoded H.Digest.encoding updates.now)
        → IsRight F.merge_rule leaves after (encoded H.Digest.encoding changed.old.items)
        → AreRebuilt F.merge_rule leaves before after (encoded H.Digest.encoding changed.old.items)
        (encoded H.Digest.encoding changed.new.items) (encoded H.Digest.encoding peaks.items)) }
    ensures refused { IfErr result (λ e. IsRefusalOver F.merge_rule (node_count F.merge_rule leaves) base.now e) }
    ensures kept { IfErr result (λ e. (b : ℕ) → b ≤ leaves → AreFrom b (encoded H.Digest.encoding updates.now)
        → IsRefusalOfKept F.merge_rule b e) }
{
    let mut peaks = Vec::new(alloc);
    let mut first = 0;
    let mut next = 0;
    while first < leaves {
        let (position, height) = F::peak_from(leaves, first);
        let place = Place {
            first,
            position,
            height,
        };
        let (digest, after) = rebuild::<F, H>(hasher, base, leaves, updates, next, changed, place)?;
        peaks.push((position, digest))?;
        next = after;
        first += leaf_span(height);
    }
    Ok(peaks)
}
