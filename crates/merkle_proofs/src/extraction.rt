//! The nodes that a proof of a range tells, and their digests.

ghost use Rattle.std.specs.Prelude.{◌≡◌, ◌<◌, ◌≤◌, ◌+◌, ◌^◌, ◌++◌, ◌∷◌, ℕ, List, map, filter, take, drop, length, IfOk};
ghost use Rattle.std.specs.Prelude.{OnOk};
ghost use Rattle.merkle_forest.specs.Forest.{Tree, forest_of};
ghost use Rattle.merkle_forest.specs.Nodes.{HasPeak};
ghost use Rattle.merkle_forest.specs.Peaks.{located_from};
ghost use Rattle.merkle_core_parts.specs.Mem.{encoded};
ghost use Rattle.merkle_proofs.specs.Extracted.{AreMadeOf, AreGiven, AreExtracted, IsTold, told_nodes, inner_told};
ghost use Rattle.merkle_proofs.specs.Extracted.{extracted_nodes, node_digests};
ghost use Rattle.merkle_theory.specs.MadeRoots.{from_left, peaks_of};
ghost use Rattle.merkle_theory.specs.MadeTrees.{from};
ghost use Rattle.merkle_theory.specs.Ranges.{Digests, siblings, singly, inner_digests};
ghost use Rattle.merkle_proofs.specs.RangesCode.{stands};
ghost use Rattle.merkle_theory.specs.Subtrees.{IsTreeAt, HasTree};

use crate::building::plain::Side;
use crate::plan::positions::is_on_side;
use crate::subtree::{Subtree, peak_at, peaks_from};
use crate::verifying::counts::sides_of;
use crate::verifying::peaks::Reader;
use crate::verifying::tree::{children_of, meets_range};
use crate::verifying::{folded_singly, split_digests};
use merkle_forest::family::{Family, MAX_LEAVES};
use merkle_forest::hasher::Hasher;
use merkle_forest::{Digest, Position};
use std::alloc::{AllocError, Global};
use std::fmt;

/// Why nothing is extracted from a proof.
#[derive(Clone, Copy, Debug, PartialEq, Eq)]
pub enum ExtractionError {
    /// M15: the proof leads to no root. In the Rust: `merkle::Error::InvalidProof`.
    InvalidProof,
    /// M17: the proof leads to another root. In the Rust: `merkle::Error::RootMismatch`.
    RootMismatch,
    /// M23: out of memory (own).
    Memory,
}

/// An error is printed by its number and what it means.
impl fmt::Display for ExtractionError {
    ghost use Rattle.std.specs.Prelude.{Some};
    ghost use Rattle.merkle_proofs.specs.Extracted.{extraction_text};

    ghost output = { λ e. Some (extraction_text e) };

    fn fmt<W: fmt::Write>(&self, f: &mut fmt::Formatter<W>) -> fmt::Result {
        match self {
            ExtractionError::InvalidProof => f.write_str("M15: the proof leads to no root"),
            ExtractionError::RootMismatch => f.write_str("M17: the proof leads to another root"),
            ExtractionError::Memory => f.write_str("M23: out of memory"),
        }
    }
}

impl std::error::Error for ExtractionError {}

impl From<AllocError> for ExtractionError {
    ghost use Rattle.std.specs.Prelude.{◌≡◌};
    ghost use Rattle.merkle_proofs.specs.declared.extraction.ExtractionError.TheVariants.{Memory};

    ghost from_gives = { λ _ e. e ≡ Memory };

    fn from(_e: AllocError) -> ExtractionError {
        ExtractionError::Memory
    }
}

// The digest at an index, and the next index. Where there is none it is the empty one: a proof that leads to a root has
// them all.
fn digest_at<D: Digest>(digests: &[D], index: usize) -> (D, usize)
    ensures { (d : List ℕ) (rest : List (List ℕ)) → drop index (map D.encoding digests.now) ≡ d ∷ rest
        → (D.encoding result.0 ≡ d) × (drop result.1 (map D.encoding digests.now) ≡ rest) }
{
    if index >= digests.len() {
        return (D::empty(), index);
    }
    (digests[index], index + 1)
}

// Appends the told nodes of the tree at the subtree, and answers its digest and the index of the next digest.
fn append_told<F: Family, H: Hasher<F>>(
    found: &mut Vec<(Position<F>, H::Digest)>,
    reader: &Reader<'_, F, H>,
    subtree: Subtree,
    digests: &[H::Digest],
    index: usize,
) -> Result<(H::Digest, usize), AllocError>
    requires stands { HasTree F.merge_rule subtree.first subtree.position subtree.height }
    requires small { reader.now.start + length reader.now.elements.now < 2 ^ 64 }
    ensures { (node : Tree) (digest : Digests) (rest : List (List ℕ))
        → IsTreeAt F.merge_rule subtree.first subtree.position subtree.height node
        → AreMadeOf (H.leaf_of reader.now.hasher.now) (H.node_of reader.now.hasher.now)
        (from reader.now.start (map (λ e. e.now) reader.now.elements.now)) reader.now.start
        (reader.now.start + length reader.now.elements.now) digest
        → drop index (map H.Digest.encoding digests.now) ≡ siblings digest reader.now.start
        (reader.now.start + length reader.now.elements.now) subtree.first node ++ rest
        → IfOk result (λ own. IsTold digest subtree.first node rest (H.Digest.encoding own.0)
        (drop own.1 (map H.Digest.encoding digests.now))
        × (encoded H.Digest.encoding found.new.items ≡ encoded H.Digest.encoding found.old.items
        ++ node_digests digest (told_nodes reader.now.start (reader.now.start + length reader.now.elements.now)
        subtree.first node))) }
{
    let stop = reader.start + reader.elements.len() as u64;
    if !meets_range::<F>(subtree, reader.start, stop) {
        let (given, next) = digest_at(digests, index);
        found.push((Position::new(subtree.position), given))?;
        return Ok((given, next));
    }
    if subtree.height == 0 {
        let element = reader.elements[(subtree.first - reader.start) as usize];
        let digest = reader.hasher.digest_of_leaf(subtree.position, element);
        found.push((Position::new(subtree.position), digest))?;
        return Ok((digest, index));
    }
    let (left, right) = children_of::<F>(subtree);
    let (left_digest, middle) = append_told(found, reader, left, digests, index)?;
    let (right_digest, next) = append_told(found, reader, right, digests, middle)?;
    let own = reader
        .hasher
        .digest_of_branch(subtree.position, &left_digest, &right_digest);
    found.push((Position::new(subtree.position), own))?;
    Ok((own, next))
}

// Appends the told nodes of those peaks that meet the range, from the one that begins at `first` on.
fn append_told_peaks<F: Family, H: Hasher<F>>(
    found: &mut Vec<(Position<F>, H::Digest)>,
    reader: &Reader<'_, F, H>,
    first: u64,
    digests: &[H::Digest],
    index: usize,
) -> Result<(), AllocError>
    requires few { reader.now.leaves ≤ MAX_LEAVES }
    requires small { reader.now.start + length reader.now.elements.now < 2 ^ 64 }
    requires begins { first < reader.now.leaves → HasPeak (forest_of F.merge_rule reader.now.leaves) first }
    ensures { (digest : Digests) → AreMadeOf (H.leaf_of reader.now.hasher.now) (H.node_of reader.now.hasher.now)
        (from reader.now.start (map (λ e. e.now) reader.now.elements.now)) reader.now.start
        (reader.now.start + length reader.now.elements.now) digest
        → drop index (map H.Digest.encoding digests.now) ≡ inner_digests digest reader.now.start
        (reader.now.start + length reader.now.elements.now)
        (located_from first (forest_of F.merge_rule reader.now.leaves))
        → OnOk result (encoded H.Digest.encoding found.new.items ≡ encoded H.Digest.encoding found.old.items
        ++ node_digests digest (inner_told reader.now.start (reader.now.start + length reader.now.elements.now)
        (located_from first (forest_of F.merge_rule reader.now.leaves)))) }
{
    if first >= reader.leaves {
        return Ok(());
    }
    let stop = reader.start + reader.elements.len() as u64;
    let (peak, next) = peak_at::<F>(reader.leaves, first);
    if !meets_range::<F>(peak, reader.start, stop) {
        return append_told_peaks(found, reader, next, digests, index);
    }
    let (_, later) = append_told(found, reader, peak, digests, index)?;
    append_told_peaks(found, reader, next, digests, later)
}

// Appends those of the first `most` peaks that stand on that side, from the one on that begins at `first`, each with
// its digest, and answers the index of the next digest.
fn append_singles<F: Family, D: Digest>(
    found: &mut Vec<(Position<F>, D)>,
    leaves: u64,
    first: u64,
    most: u64,
    side: Side,
    digests: &[D],
    index: usize,
) -> Result<usize, AllocError>
    requires few { leaves ≤ MAX_LEAVES }
    requires begins { first < leaves → HasPeak (forest_of F.merge_rule leaves) first }
    ensures { (digest : Digests) (rest : List (List ℕ)) → drop index (map D.encoding digests.now)
        ≡ singly digest (filter (stands side) (take most (located_from first (forest_of F.merge_rule leaves)))) ++ rest
        → IfOk result (λ next. (drop next (map D.encoding digests.now) ≡ rest)
        × (encoded D.encoding found.new.items ≡ encoded D.encoding found.old.items
        ++ node_digests digest
        (filter (stands side) (take most (located_from first (forest_of F.merge_rule leaves)))))) }
{
    if first >= leaves {
        return Ok(index);
    }
    if most == 0 {
        return Ok(index);
    }
    let (peak, next) = peak_at::<F>(leaves, first);
    if !is_on_side(side, peak.first, next) {
        return append_singles(found, leaves, next, most - 1, side, digests, index);
    }
    let (given, later) = digest_at(digests, index);
    found.push((Position::new(peak.position), given))?;
    append_singles(found, leaves, next, most - 1, side, digests, later)
}

/// The nodes that a proof of a range tells, each with its digest, in ascending position: the peaks that it gives
/// singly, and in the peaks that meet the range each node that it gives or that is made of others (own). It fails only
/// when out of memory.
pub fn extract<F: Family, H: Hasher<F>>(
    alloc: Global,
    reader: &Reader<'_, F, H>,
    inactive: u64,
    digests: &[H::Digest],
) -> Result<Vec<(Position<F>, H::Digest)>, AllocError>
    requires few { reader.now.leaves ≤ MAX_LEAVES }
    requires small { reader.now.start + length reader.now.elements.now < 2 ^ 64 }
    ensures { (digest : Digests) → AreMadeOf (H.leaf_of reader.now.hasher.now) (H.node_of reader.now.hasher.now)
        (from reader.now.start (map (λ e. e.now) reader.now.elements.now)) reader.now.start
        (reader.now.start + length reader.now.elements.now) digest
        → let peaks = peaks_of F.merge_rule reader.now.leaves in
        let singles = from_left (H.bagging_of reader.now.hasher.now) inactive (length peaks) in
        AreGiven singles reader.now.start (reader.now.start + length reader.now.elements.now) peaks digest
        (map H.Digest.encoding digests.now)
        → IfOk result (λ found. AreExtracted H.Digest.encoding digest
        (extracted_nodes singles reader.now.start (reader.now.start + length reader.now.elements.now) peaks)
        found.items) }
{
    let stop = reader.start + reader.elements.len() as u64;
    let peaks = peaks_from::<F>(reader.leaves, 0);
    let singles = folded_singly(reader.hasher.root_bagging(), inactive, peaks);
    let first = sides_of::<F>(reader.leaves, 0, singles, reader.start, stop);
    let others = sides_of::<F>(reader.leaves, first.next, peaks, reader.start, stop);
    let mut found = Vec::new(alloc);
    let (_, rest) = split_digests(digests, first.before.min(1) as usize);
    let before = Side::Before(reader.start);
    let index = append_singles(
        &mut found,
        reader.leaves,
        first.next,
        peaks,
        before,
        rest,
        0,
    )?;
    let after = Side::After(stop);
    let index = append_singles(&mut found, reader.leaves, 0, singles, after, rest, index)?;
    let (_, rest) = split_digests(rest, index);
    let (_, inner) = split_digests(rest, others.after.min(1) as usize);
    append_told_peaks(&mut found, reader, 0, inner, 0)?;
    found.sort_by_key(|node| node.0.as_u64())?;
    Ok(found)
}
