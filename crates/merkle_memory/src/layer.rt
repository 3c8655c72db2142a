//! What one batch makes of its base, which the batches over it share.
//!
//! ```text
//!   the batch           own layer ──► below[0] ──► below[1] ──► the tree, where nothing newer knows the node
//!                       (newest)
//! ```

ghost use Rattle.std.specs.Prelude.{◌≡◌, ◌≤◌, ◌+◌, ◌++◌, ◌∷◌, ◌^◌, ℕ, List, Option, map, length, option_map, IfOk};
ghost use Rattle.std.specs.Prelude.{OnOk, OnErr};
ghost use Rattle.std.specs.Option.{option_or};
ghost use Rattle.std.specs.Prelude.{vec_len, vec_capacity};
ghost use Rattle.merkle_core_parts.specs.Layers.{replacement_at, layer_at, known_above, with_layers, oldest_leaves};
ghost use Rattle.merkle_core_parts.specs.Layers.{new_at};
ghost use Rattle.merkle_core_parts.specs.Layers.{AreStacked, IsWhole};
ghost use Rattle.merkle_core_parts.specs.Laws.Replaced.{AreFrom};
ghost use Rattle.merkle_core_parts.specs.Mem.{Base, Nodes, encoded, node_count, with_layer, replaced_from, replaced_at};
ghost use Rattle.merkle_core_parts.specs.Mem.{AreKeptNodes, node_at, value_after};

use crate::rebuild::{put_all, put_pinned};
use merkle_forest::family::Family;
use merkle_forest::{Digest, Location};
use std::alloc::AllocError;
use std::marker::{Model, PhantomData};
use std::rc::Rc;

// Nodes that are to be added to a base, and nodes of it that get other digests.
#[derive(Debug, Drop)]
pub(crate) struct Layer<F: Family, D: Digest> {
    base_leaves: u64,
    base_peaks: Vec<D>,
    leaves: u64,
    digests: Vec<D>,
    changed: Vec<(u64, D)>,
    family: PhantomData<F>,
}

impl<F: Family, D: Digest> Model for Layer<F, D> {
    ghost use Rattle.std.specs.Prelude.{◌≡◌, ◌≤◌, ◌+◌, ◌^◌, map, length};
    ghost use Rattle.merkle_core_parts.specs.Laws.Replaced.{AreFrom};
    ghost use Rattle.merkle_core_parts.specs.Mem as meaning;
    ghost use Rattle.merkle_core_parts.specs.Mem.{encoded, node_count};

    ghost Value = { meaning.Layer };

    ghost view = { λ b. record {
      base = record { leaves = b.base_leaves; peaks = map D.encoding b.base_peaks.items };
      leaves = b.leaves;
      digests = map D.encoding b.digests.items;
      changed = encoded D.encoding b.changed.items;
    } };

    ghost invariant = { λ b. (b.base_leaves ≤ b.leaves) × (b.leaves ≤ 2 ^ 62)
        × (node_count F.merge_rule b.base_leaves + length b.digests.items ≡ node_count F.merge_rule b.leaves)
        × AreFrom 0 (encoded D.encoding b.changed.items) };
}

// The digest that changes leave at a position, which are in order of position, where one of them is at it: the last
// one.
fn replacement_of<D: Digest>(changes: &[(u64, D)], position: u64) -> Option<D>
    requires { AreFrom 0 (encoded D.encoding changes.now) }
    ensures { option_map D.encoding result ≡ replacement_at (encoded D.encoding changes.now) position }
{
    let after = changes.partition_point(|change| change.0 <= position);
    if after == 0 {
        return None;
    }
    let last = changes[after - 1];
    if last.0 == position {
        Some(last.1)
    } else {
        None
    }
}

impl<F: Family, D: Digest> Layer<F, D> {
    // So many leaves over the base of so many with these digests of peaks, by these new nodes and these changed ones.
    pub(crate) fn new(
        base_leaves: u64,
        base_peaks: Vec<D>,
        leaves: u64,
        digests: Vec<D>,
        changed: Vec<(u64, D)>,
    ) -> Layer<F, D>
        requires grown { base_leaves ≤ leaves }
        requires few { leaves ≤ 2 ^ 62 }
        requires counted { node_count F.merge_rule base_leaves + length digests.items ≡ node_count F.merge_rule leaves }
        requires order { AreFrom 0 (encoded D.encoding changed.items) }
        ensures { result ≡ record {
          base = record { leaves = base_leaves; peaks = map D.encoding base_peaks.items };
          leaves = leaves;
          digests = map D.encoding digests.items;
          changed = encoded D.encoding changed.items;
        } }
    {
        Layer {
            base_leaves,
            base_peaks,
            leaves,
            digests,
            changed,
            family: PhantomData,
        }
    }

    // How many leaves the base has.
    pub(crate) fn base_leaves(&self) -> u64
        ensures leaves { result ≡ self.now.base.leaves }
        ensures few { result ≤ 2 ^ 62 }
    {
        self.base_leaves
    }

    // The digests of the base's peaks, from left to right.
    pub(crate) fn base_peaks(&self) -> &[D]
        ensures { map D.encoding result.now ≡ self.now.base.peaks }
    {
        &self.base_peaks
    }

    // How many leaves there are with the layer.
    pub(crate) fn leaves(&self) -> u64
        ensures leaves { result ≡ self.now.leaves }
        ensures few { result ≤ 2 ^ 62 }
        ensures grown { self.now.base.leaves ≤ result }
    {
        self.leaves
    }

    // The digests of the new nodes, in order of position.
    pub(crate) fn digests(&self) -> &[D]
        ensures digests { map D.encoding result.now ≡ self.now.digests }
        ensures counted { node_count F.merge_rule self.now.base.leaves + length result.now
            ≡ node_count F.merge_rule self.now.leaves }
    {
        &self.digests
    }

    // The digests of the changed nodes, each with its position.
    pub(crate) fn changed(&self) -> &[(u64, D)]
        ensures { encoded D.encoding result.now ≡ self.now.changed }
    {
        &self.changed
    }

    // The digest of a new node at a position.
    fn new_node(&self, position: u64) -> Option<D>
        ensures { option_map D.encoding result ≡ new_at F.merge_rule self.now position }
    {
        let first = F::location_to_position(Location::new(self.base_leaves)).as_u64();
        if position < first {
            return None;
        }
        self.digests.get((position - first) as usize).copied()
    }

    // The digest of the node at a position of a base with the new nodes, where the base has this one there.
    fn there_or_new(&self, there: Option<D>, position: u64) -> Option<D>
        ensures { option_map D.encoding result
            ≡ option_or (option_map D.encoding there) (new_at F.merge_rule self.now position) }
    {
        match there {
            Some(digest) => Some(digest),
            None => self.new_node(position),
        }
    }

    // The digest that the layer has at a position: one that it changes, or a new one.
    pub(crate) fn node(&self, position: u64) -> Option<D>
        ensures { option_map D.encoding result ≡ layer_at F.merge_rule self.now position }
    {
        let base_size = F::location_to_position(Location::new(self.base_leaves)).as_u64();
        if position < base_size {
            return replacement_of(&self.changed, position);
        }
        self.digests.get((position - base_size) as usize).copied()
    }
}

// The digest at a position of the newest layer that has one there.
pub(crate) fn node_of<F: Family, D: Digest>(layers: &[Rc<Layer<F, D>>], position: u64) -> Option<D>
    ensures { (known : ℕ → Option (List ℕ)) → option_or (option_map D.encoding result) (known position)
        ≡ known_above F.merge_rule (map (λ layer. layer.value) layers.now) known position }
{
    let mut rest = layers;
    while let [layer, below @ ..] = rest {
        if let Some(digest) = layer.node(position) {
            return Some(digest);
        }
        rest = below;
    }
    None
}

// Puts a layer's nodes after those of a tree that begin at a position, and changes those that it changes. There has to
// be room for them.
fn put_layer<F: Family, D: Digest>(
    start: u64,
    pinned: &mut Vec<(u64, D)>,
    digests: &mut Vec<D>,
    layer: &Layer<F, D>,
)
    requires room { vec_len digests.old + length layer.now.digests ≤ vec_capacity digests.old }
    ensures pinned { encoded D.encoding pinned.new.items
        ≡ replaced_at (encoded D.encoding pinned.old.items) layer.now.changed }
    ensures digests { map D.encoding digests.new.items
        ≡ replaced_from start (map D.encoding digests.old.items ++ layer.now.digests) layer.now.changed }
    ensures counted { vec_len digests.new ≡ vec_len digests.old + length layer.now.digests }
    ensures room { vec_capacity digests.old ≤ vec_capacity digests.new }
{
    let Ok(()) = digests.extend_from_slice(layer.digests()) else {
        unreachable!()
    };
    put_all(digests, start, layer.changed());
    put_pinned(pinned, layer.changed());
}

// Finds room for the nodes of layers after those of a tree that begin at a position, up to those of so many leaves. Out
// of memory: nothing changes.
pub(crate) fn reserve_room<F: Family, D: Digest>(
    start: u64,
    digests: &mut Vec<D>,
    leaves: u64,
) -> Result<(), AllocError>
    requires few { leaves ≤ 2 ^ 62 }
    requires within { start + length digests.old.items ≤ node_count F.merge_rule leaves }
    ensures room { OnOk result (node_count F.merge_rule leaves ≤ start + vec_capacity digests.new) }
    ensures unchanged { digests.new.items ≡ digests.old.items }
{
    let size = F::location_to_position(Location::new(leaves)).as_u64();
    digests.reserve((size - start) as usize - digests.len())
}

// Puts the nodes of layers after those of a tree that begin at a position, the oldest first and the own one last, and
// changes those that they change. There has to be room for them.
pub(crate) fn put_reserved<F: Family, D: Digest>(
    start: u64,
    pinned: &mut Vec<(u64, D)>,
    digests: &mut Vec<D>,
    own: &Layer<F, D>,
    following: &[Rc<Layer<F, D>>],
)
    requires whole { IsWhole F.merge_rule own.now }
    requires stacked { AreStacked F.merge_rule own.now.base.leaves (map (λ layer. layer.value) following.now) }
    requires counted { start + length digests.old.items ≡ node_count F.merge_rule
        (oldest_leaves own.now.base.leaves (map (λ layer. layer.value) following.now)) }
    requires room { node_count F.merge_rule own.now.leaves ≤ start + vec_capacity digests.old }
    ensures applied { (nodes : Nodes) → start ≡ node_count F.merge_rule nodes.boundary
        → encoded D.encoding pinned.old.items ≡ nodes.pinned → map D.encoding digests.old.items ≡ nodes.digests
        → let after = with_layer F.merge_rule
        (with_layers F.merge_rule nodes (map (λ layer. layer.value) following.now)) own.now in
        (encoded D.encoding pinned.new.items ≡ after.pinned) × (map D.encoding digests.new.items ≡ after.digests) }
{
    let mut left = following.len();
    while left > 0 {
        left -= 1;
        put_layer(start, pinned, digests, &following[left]);
    }
    put_layer(start, pinned, digests, own);
}

// Puts the nodes of layers after those of a tree that begin at a position, the oldest first and the own one last, and
// changes those that they change. Out of memory: nothing changes.
pub(crate) fn put_layers<F: Family, D: Digest>(
    start: u64,
    pinned: &mut Vec<(u64, D)>,
    digests: &mut Vec<D>,
    own: &Layer<F, D>,
    following: &[Rc<Layer<F, D>>],
) -> Result<(), AllocError>
    requires few { own.now.leaves ≤ 2 ^ 62 }
    requires whole { IsWhole F.merge_rule own.now }
    requires stacked { AreStacked F.merge_rule own.now.base.leaves (map (λ layer. layer.value) following.now) }
    requires counted { start + length digests.old.items ≡ node_count F.merge_rule
        (oldest_leaves own.now.base.leaves (map (λ layer. layer.value) following.now)) }
    ensures applied { OnOk result ((nodes : Nodes) → start ≡ node_count F.merge_rule nodes.boundary
        → encoded D.encoding pinned.old.items ≡ nodes.pinned → map D.encoding digests.old.items ≡ nodes.digests
        → let after = with_layer F.merge_rule
        (with_layers F.merge_rule nodes (map (λ layer. layer.value) following.now)) own.now in
        (encoded D.encoding pinned.new.items ≡ after.pinned) × (map D.encoding digests.new.items ≡ after.digests)) }
    ensures unchanged { OnErr result ((pinned.new ≡ pinned.old) × (digests.new.items ≡ digests.old.items)) }
{
    reserve_room::<F, D>(start, digests, own.leaves())?;
    put_reserved(start, pinned, digests, own, following);
    Ok(())
}

// The digest of the node at a position of a tree with a layer, where the tree has this one there: the layer's where it
// changes the node, and a new node where the tree has none.
fn node_with<F: Family, D: Digest>(
    layer: &Layer<F, D>,
    there: Option<D>,
    position: u64,
) -> Option<D>
    ensures { option_map D.encoding result ≡ option_map (value_after layer.now.changed position)
        (option_or (option_map D.encoding there) (new_at F.merge_rule layer.now position)) }
{
    let digest = layer.there_or_new(there, position)?;
    match replacement_of(&layer.changed, position) {
        Some(changed) => Some(changed),
        None => Some(digest),
    }
}

// The digest of the node at a position of a tree with layers, the oldest of which comes first over it and the own one
// last, where the tree has this one there.
pub(crate) fn node_with_layers<F: Family, D: Digest>(
    own: &Layer<F, D>,
    following: &[Rc<Layer<F, D>>],
    there: Option<D>,
    position: u64,
) -> Option<D>
    requires whole { IsWhole F.merge_rule own.now }
    requires stacked { AreStacked F.merge_rule own.now.base.leaves (map (λ layer. layer.value) following.now) }
    ensures { (nodes : Nodes) → AreKeptNodes F.merge_rule nodes
        → nodes.leaves ≡ oldest_leaves own.now.base.leaves (map (λ layer. layer.value) following.now)
        → option_map D.encoding there ≡ node_at F.merge_rule nodes position
        → option_map D.encoding result ≡ node_at F.merge_rule (with_layer F.merge_rule
        (with_layers F.merge_rule nodes (map (λ layer. layer.value) following.now)) own.now) position }
{
    let mut found = there;
    let mut newer = following.len();
    while newer > 0 {
        newer -= 1;
        found = node_with(&following[newer], found, position);
    }
    node_with(own, found, position)
}
