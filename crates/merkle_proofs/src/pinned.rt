//! What stands before a range, made of the digests that are pinned there.

ghost use Rattle.std.specs.Prelude.{◌≡◌, ◌<◌, ◌≤◌, ◌+◌, ◌^◌, ◌++◌, ◌↔◌, ℕ, List, map, filter, take, drop, length};
ghost use Rattle.std.specs.Prelude.{replicate, IfOk, OnOk, IsTrue, option_map};
ghost use Rattle.merkle_forest.specs.Forest.{Tree, forest_of};
ghost use Rattle.merkle_forest.specs.Nodes.{HasPeak};
ghost use Rattle.merkle_forest.specs.Peaks.{located_from};
ghost use Rattle.merkle_theory.specs.MadeRoots.{from_left, peaks_of};
ghost use Rattle.merkle_theory.specs.Pinned.{at_peak, pinned_digest, inner_before, Begins, ArePinned};
ghost use Rattle.merkle_theory.specs.Plans.{sibling_nodes};
ghost use Rattle.merkle_theory.specs.RangeCounts.{range_outer};
ghost use Rattle.merkle_theory.specs.Ranges.{is_before, singly};
ghost use Rattle.merkle_theory.specs.Subtrees.{IsTreeAt, HasTree};

use crate::building::plain::append_folded_forward;
use crate::subtree::{Subtree, peak_at, peaks_from};
use crate::verifying::counts::{count_outer, sides_of};
use crate::verifying::tree::{children_of, meets_range};
use crate::verifying::{folded_singly, split_digests};
use merkle_forest::Digest;
use merkle_forest::family::{Family, MAX_LEAVES};
use merkle_forest::hasher::Hasher;
use std::alloc::{AllocError, Global};
use std::marker::PhantomData;

/// The digests that are pinned before a range, from left to right, and what branches over them are hashed with (own).
#[derive(Drop)]
pub struct Pins<'a, F: Family, H: Hasher<F>> {
    /// The hasher.
    pub hasher: &'a H,
    /// The location where the range begins.
    pub start: u64,
    /// The digests of the peaks of the leaves before it.
    pub digests: &'a [H::Digest],
    /// The family of the tree.
    pub family: PhantomData<F>,
}

// The digest that is pinned at a position, of those of the peaks of so many leaves from the one on that begins at
// `first`.
fn digest_at_peak<F: Family, D: Digest>(
    leaves: u64,
    first: u64,
    position: u64,
    digests: &[D],
) -> Option<D>
    requires few { leaves ≤ MAX_LEAVES }
    requires begins { first < leaves → HasPeak (forest_of F.merge_rule leaves) first }
    ensures { option_map D.encoding result
        ≡ at_peak (located_from first (forest_of F.merge_rule leaves)) (map D.encoding digests.now) position }
{
    if first >= leaves {
        return None;
    }
    let (own, others) = digests.split_first()?;
    let (peak, next) = peak_at::<F>(leaves, first);
    if peak.position == position {
        return Some(*own);
    }
    digest_at_peak::<F, D>(leaves, next, position, others)
}

// The digest of the tree at the subtree: pinned, or made of those of its children.
fn digest_before<F: Family, H: Hasher<F>>(pins: &Pins<'_, F, H>, subtree: Subtree) -> H::Digest
    requires stands { HasTree F.merge_rule subtree.first subtree.position subtree.height }
    requires few { pins.now.start ≤ MAX_LEAVES }
    ensures { (node : Tree) → IsTreeAt F.merge_rule subtree.first subtree.position subtree.height node
        → H.Digest.encoding result ≡ pinned_digest (H.node_of pins.now.hasher.now) (replicate H.Digest.SIZE 0)
        (at_peak (peaks_of F.merge_rule pins.now.start)
        (map H.Digest.encoding pins.now.digests.now)) subtree.first node }
{
    if let Some(pinned) = digest_at_peak::<F, H::Digest>(
        pins.start,
        0,
        subtree.position,
        pins.digests,
    ) {
        return pinned;
    }
    if subtree.height == 0 {
        return H::Digest::empty();
    }
    let (left, right) = children_of::<F>(subtree);
    let left_digest = digest_before(pins, left);
    let right_digest = digest_before(pins, right);
    pins.hasher
        .digest_of_branch(subtree.position, &left_digest, &right_digest)
}

// Appends the digests of those of the first `most` peaks that stand before the range, from the one on that begins at
// `first`.
fn append_peaks_before<F: Family, H: Hasher<F>>(
    found: &mut Vec<H::Digest>,
    pins: &Pins<'_, F, H>,
    leaves: u64,
    first: u64,
    most: u64,
) -> Result<(), AllocError>
    requires few { leaves ≤ MAX_LEAVES }
    requires small { pins.now.start ≤ MAX_LEAVES }
    requires begins { first < leaves → HasPeak (forest_of F.merge_rule leaves) first }
    ensures { OnOk result (map H.Digest.encoding found.new.items ≡ map H.Digest.encoding found.old.items
        ++ singly (pinned_digest (H.node_of pins.now.hasher.now) (replicate H.Digest.SIZE 0)
        (at_peak (peaks_of F.merge_rule pins.now.start) (map H.Digest.encoding pins.now.digests.now)))
        (filter (is_before pins.now.start) (take most (located_from first (forest_of F.merge_rule leaves))))) }
{
    if first >= leaves {
        return Ok(());
    }
    if most == 0 {
        return Ok(());
    }
    let (peak, next) = peak_at::<F>(leaves, first);
    if next > pins.start {
        return append_peaks_before(found, pins, leaves, next, most - 1);
    }
    found.push(digest_before(pins, peak))?;
    append_peaks_before(found, pins, leaves, next, most - 1)
}

// Appends the digests of the maximal nodes of the tree at the subtree that hold no leaf of the range and stand before
// it.
fn append_nodes_before<F: Family, H: Hasher<F>>(
    found: &mut Vec<H::Digest>,
    pins: &Pins<'_, F, H>,
    subtree: Subtree,
    stop: u64,
) -> Result<(), AllocError>
    requires stands { HasTree F.merge_rule subtree.first subtree.position subtree.height }
    requires small { pins.now.start ≤ MAX_LEAVES }
    requires within { pins.now.start ≤ stop }
    ensures { (node : Tree) → IsTreeAt F.merge_rule subtree.first subtree.position subtree.height node
        → OnOk result (map H.Digest.encoding found.new.items ≡ map H.Digest.encoding found.old.items
        ++ singly (pinned_digest (H.node_of pins.now.hasher.now) (replicate H.Digest.SIZE 0)
        (at_peak (peaks_of F.merge_rule pins.now.start) (map H.Digest.encoding pins.now.digests.now)))
        (filter (is_before pins.now.start) (sibling_nodes pins.now.start stop subtree.first node))) }
{
    if pins.start <= subtree.first {
        return Ok(());
    }
    if !meets_range::<F>(subtree, pins.start, stop) {
        return Ok(found.push(digest_before(pins, subtree))?);
    }
    if subtree.height == 0 {
        return Ok(());
    }
    let (left, right) = children_of::<F>(subtree);
    append_nodes_before(found, pins, left, stop)?;
    append_nodes_before(found, pins, right, stop)
}

// Appends those of the peaks that meet the range, from the one that begins at `first` on.
fn append_inner_before<F: Family, H: Hasher<F>>(
    found: &mut Vec<H::Digest>,
    pins: &Pins<'_, F, H>,
    leaves: u64,
    first: u64,
    stop: u64,
) -> Result<(), AllocError>
    requires few { leaves ≤ MAX_LEAVES }
    requires small { pins.now.start ≤ MAX_LEAVES }
    requires within { pins.now.start ≤ stop }
    requires begins { first < leaves → HasPeak (forest_of F.merge_rule leaves) first }
    ensures { OnOk result (map H.Digest.encoding found.new.items ≡ map H.Digest.encoding found.old.items
        ++ inner_before (pinned_digest (H.node_of pins.now.hasher.now) (replicate H.Digest.SIZE 0)
        (at_peak (peaks_of F.merge_rule pins.now.start) (map H.Digest.encoding pins.now.digests.now))) pins.now.start
        stop
        (located_from first (forest_of F.merge_rule leaves))) }
{
    if first >= leaves {
        return Ok(());
    }
    let (peak, next) = peak_at::<F>(leaves, first);
    if !meets_range::<F>(peak, pins.start, stop) {
        return append_inner_before(found, pins, leaves, next, stop);
    }
    append_nodes_before(found, pins, peak, stop)?;
    append_inner_before(found, pins, leaves, next, stop)
}

// Whether these digests are the first ones.
fn begins_with<D: Digest>(digests: &[D], front: &[D]) -> bool
    ensures { IsTrue result ↔ Begins (map D.encoding front.now) (map D.encoding digests.now) }
{
    let [first, later @ ..] = front else {
        return true;
    };
    let [own, rest @ ..] = digests else {
        return false;
    };
    if *own != *first {
        return false;
    }
    begins_with(rest, later)
}

/// Whether each digest of the proof of a range that stands for leaves before it is made of those that are pinned there,
/// and these are as many as the leaves before it have peaks (own). It fails only when out of memory.
pub fn are_pinned<F: Family, H: Hasher<F>>(
    alloc: Global,
    pins: &Pins<'_, F, H>,
    leaves: u64,
    inactive: u64,
    stop: u64,
    digests: &[H::Digest],
) -> Result<bool, AllocError>
    requires few { leaves ≤ MAX_LEAVES }
    requires small { pins.now.start ≤ MAX_LEAVES }
    requires within { pins.now.start ≤ stop }
    ensures { let peaks = peaks_of F.merge_rule leaves in
        let bagging = H.bagging_of pins.now.hasher.now in
        IfOk result (λ yes. IsTrue yes ↔ ArePinned H.hash_of (H.node_of pins.now.hasher.now) (replicate H.Digest.SIZE 0)
        F.merge_rule leaves (from_left bagging inactive (length peaks)) pins.now.start stop
        (range_outer bagging pins.now.start stop inactive peaks) (map H.Digest.encoding digests.now)
        (map H.Digest.encoding pins.now.digests.now)) }
{
    if pins.digests.len() as u64 != peaks_from::<F>(pins.start, 0) {
        return Ok(false);
    }
    let bagging = pins.hasher.root_bagging();
    let peaks = peaks_from::<F>(leaves, 0);
    let singles = folded_singly(bagging, inactive, peaks);
    let sides = sides_of::<F>(leaves, 0, singles, pins.start, stop);
    let mut front = Vec::new(alloc);
    append_peaks_before(&mut front, pins, leaves, 0, singles)?;
    let mut outer = Vec::new(alloc);
    append_folded_forward(&mut outer, pins.hasher, &front)?;
    append_peaks_before(&mut outer, pins, leaves, sides.next, peaks)?;
    let mut inner = Vec::new(alloc);
    append_inner_before(&mut inner, pins, leaves, 0, stop)?;
    let outer_count = count_outer::<F>(bagging, leaves, peaks, inactive, pins.start, stop) as usize;
    let (_, rest) = split_digests(digests, outer_count);
    if !begins_with(digests, &outer) {
        return Ok(false);
    }
    Ok(begins_with(rest, &inner))
}
