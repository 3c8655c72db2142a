//! Batches of changes to a tree: first the leaves that they add over a base, then the nodes that these make.
//!
//! A batch may be made over another one before that is applied. It knows what the batches below it make of their bases,
//! as layers that they share (layer.rt), and so needs no copy of the tree.

ghost use Rattle.std.specs.Prelude.{◌≡◌, ◌<◌, ◌≤◌, ◌+◌, ◌^◌, ◌++◌, ◌∷◌, [], ℕ, List, map, length};
ghost use Rattle.std.specs.Prelude.{option_map, take, IfOk, IfErr, false};
ghost use Rattle.std.specs.Prelude.{◌↔◌, IsOk, ◌||◌, OnOk, None, find, nat_le, nat_lt};
ghost use Rattle.merkle_core_parts.specs.Errors.{IsRefusalOver, IsRefusalPast, IsRefusalOfMany, IsRefusalAt};
ghost use Rattle.merkle_core_parts.specs.Errors.{first_refused, IsRefusalOfUpdates};
ghost use Rattle.merkle_core_parts.specs.Errors.{IsRefusalOnto};
ghost use Rattle.std.specs.List.{AllByRecursion};
ghost use Rattle.merkle_forest.specs.Hashing.{root_of};
ghost use Rattle.merkle_core_parts.specs.Layers.{AreStacked, IsWhole, AreLed, IsLed, IsOfOne, HasNone, bases};
ghost use Rattle.merkle_core_parts.specs.Layers.{known_above, given_up};
ghost use Rattle.merkle_core_parts.specs.Layers.{oldest_leaves};
ghost use Rattle.merkle_core_parts.specs.Mem.{node_count, encoded, AreKeptNodes, base_of, peak_digests};
ghost use Rattle.merkle_core_parts.specs.Mem.{NodeHash, with_leaves, own_layer, list_peaks, list_root};
ghost use Rattle.merkle_memory.specs.Begun.{AreAlikeFrom, ChangesFrom, LeadsOn, StandsOver};

use crate::growth::{grown_peaks, push_leaves};
use crate::layer::{Layer, node_of};
use crate::layered::Layered;
use crate::mem::Mem;
use crate::rebuild::{put_all, rebuild_peaks, sort_updates};
use merkle_core_parts::Error;
use merkle_forest::family::{Family, MAX_LEAVES};
use merkle_forest::hasher::Hasher;
use merkle_forest::{Digest, Location, Position};
use std::alloc::{AllocError, Global};
use std::marker::{Model, PhantomData};
use std::rc::Rc;

/// Leaves that are to be added to a tree, its base, and leaves that are to get other digests. Contracts see the base,
/// as its leaf count and the digests of its peaks, the location before which it is pruned, the digests of the new
/// leaves, and then the updates, one after the other.
/// In the Rust: `merkle::batch::UnmerkleizedBatch`.
#[derive(Debug, Drop)]
pub struct UnmerkleizedBatch<F: Family, D: Digest> {
    alloc: Global,
    base_leaves: u64,
    base_peaks: Vec<D>,
    boundary: u64,
    added: Vec<D>,
    updates: Vec<(u64, D)>,
    // The layers of the batches that it is made over, the newest first.
    below: Vec<Rc<Layer<F, D>>>,
    // Whether some of these were given up.
    dropped: bool,
    family: PhantomData<F>,
}

impl<F: Family, D: Digest> Model for UnmerkleizedBatch<F, D> {
    ghost use Rattle.std.specs.Prelude.{◌≤◌, ◌+◌, ◌^◌, map, length};
    ghost use Rattle.merkle_core_parts.specs.Layers.{AreStacked};
    ghost use Rattle.merkle_core_parts.specs.Mem.{Additions, encoded};

    ghost Value = { Additions };

    ghost view = { λ b. record {
      base = record { leaves = b.base_leaves; peaks = map D.encoding b.base_peaks.items };
      boundary = b.boundary;
      added = map D.encoding b.added.items;
      updates = encoded D.encoding b.updates.items;
      below = map (λ layer. layer.value) b.below.items;
      dropped = b.dropped;
    } };

    ghost invariant = { λ b. (b.base_leaves + length b.added.items ≤ 2 ^ 62)
        × AreStacked F.merge_rule b.base_leaves (map (λ layer. layer.value) b.below.items) };
}

impl<F: Family, D: Digest> UnmerkleizedBatch<F, D> {
    // A batch that adds nothing to the base of so many leaves, with these digests of peaks, that is pruned before a
    // location, made over these layers.
    pub(crate) fn over(
        alloc: Global,
        base_leaves: u64,
        base_peaks: Vec<D>,
        boundary: u64,
        below: Vec<Rc<Layer<F, D>>>,
        dropped: bool,
    ) -> UnmerkleizedBatch<F, D>
        requires few { base_leaves ≤ MAX_LEAVES }
        requires stacked { AreStacked F.merge_rule base_leaves (map (λ layer. layer.value) below.items) }
        ensures { result ≡ record {
          base = record { leaves = base_leaves; peaks = map D.encoding base_peaks.items };
          boundary = boundary;
          added = [];
          updates = [];
          below = map (λ layer. layer.value) below.items;
          dropped = dropped;
        } }
    {
        UnmerkleizedBatch {
            alloc,
            base_leaves,
            base_peaks,
            boundary,
            added: Vec::new(alloc),
            updates: Vec::new(alloc),
            below,
            dropped,
            family: PhantomData,
        }
    }

    /// A batch over this one that adds nothing yet. It fails only when out of memory: M23.
    /// In the Rust: `merkle::batch::UnmerkleizedBatch::new`, over a shared batch.
    pub fn new(parent: &MerkleizedBatch<F, D>) -> Result<UnmerkleizedBatch<F, D>, Error<F>>
        ensures batch { IfOk result (λ batch. batch ≡ record {
          base = record { leaves = parent.now.leaves; peaks = parent.now.peaks };
          boundary = parent.now.boundary;
          added = [];
          updates = [];
          below = own_layer parent.now ∷ parent.now.below;
          dropped = parent.now.dropped;
        }) }
        ensures refused { IfErr result (λ e. e ≡ Error.Memory) }
    {
        parent.new_batch()
    }

    /// How many leaves the tree has with those that are added. In the Rust: `merkle::batch::UnmerkleizedBatch::leaves`.
    pub fn leaves(&self) -> Location<F>
        ensures leaves { result ≡ self.now.base.leaves + length self.now.added }
        ensures few { result ≤ 2 ^ 62 }
    {
        Location::new(self.base_leaves + self.added.len() as u64)
    }

    /// Adds a leaf of this digest. Past `MAX_LEAVES`: M3 with its location; out of memory: M23. The batch is then given
    /// up.
    /// In the Rust: `merkle::batch::UnmerkleizedBatch::add_leaf_digest`, which refuses nothing.
    pub fn add_leaf_digest(self, digest: D) -> Result<UnmerkleizedBatch<F, D>, Error<F>>
        ensures added { IfOk result (λ batch. batch ≡ record self { added = self.added ++ D.encoding digest ∷ [] }) }
        ensures refused { IfErr result (λ e. IsRefusalPast (self.base.leaves + length self.added) e) }
    {
        let location = self.leaves();
        if location.as_u64() >= MAX_LEAVES {
            return Err(Error::LocationOverflow(location));
        }
        let mut batch = self;
        batch.added.push(digest)?;
        Ok(batch)
    }

    /// Adds a leaf of this element. Past `MAX_LEAVES`: M3 with its location; out of memory: M23. The batch is then
    /// given up.
    /// In the Rust: `merkle::batch::UnmerkleizedBatch::add`, which refuses nothing.
    pub fn add<H: Hasher<F, Digest = D>>(
        self,
        hasher: &H,
        element: &[u8],
    ) -> Result<UnmerkleizedBatch<F, D>, Error<F>>
        ensures added { IfOk result (λ batch. batch ≡ record self {
          added = self.added ++ H.leaf_of hasher.now
              (node_count F.merge_rule (self.base.leaves + length self.added)) element.now ∷ [];
        }) }
        ensures refused { IfErr result (λ e. IsRefusalPast (self.base.leaves + length self.added) e) }
    {
        let position = F::location_to_position(self.leaves());
        self.add_leaf_digest(hasher.leaf_digest(position, element))
    }

    /// Adds leaves of these digests, in their order. Past `MAX_LEAVES`: M3 with the first location past it; out of
    /// memory: M23. The batch is then given up.
    /// In the Rust: `merkle::batch::UnmerkleizedBatch::add_leaf_digests`, over an iterator, which refuses nothing.
    pub fn add_leaf_digests(self, digests: &[D]) -> Result<UnmerkleizedBatch<F, D>, Error<F>>
        ensures added { IfOk result (λ batch. batch ≡ record self {
          added = self.added ++ map D.encoding digests.now;
        }) }
        ensures refused { IfErr result (λ e. IsRefusalOfMany (self.base.leaves + length self.added)
            (length digests.now) e) }
    {
        if digests.len() as u64 > MAX_LEAVES - self.leaves().as_u64() {
            return Err(Error::LocationOverflow(Location::new(MAX_LEAVES)));
        }
        let mut batch = self;
        batch.added.extend_from_slice(digests)?;
        Ok(batch)
    }

    // Why the leaf at a location gets no other digest: M7 with it where there is none, else M10 with its position.
    fn refusal_at(&self, location: Location<F>) -> Error<F>
        ensures past { self.now.base.leaves + length self.now.added ≤ location
            → result ≡ Error.LeafOutOfBounds location }
        ensures pruned { location < self.now.base.leaves + length self.now.added
            → result ≡ Error.ElementPruned (node_count F.merge_rule location) }
    {
        if location >= self.leaves() {
            return Error::LeafOutOfBounds(location);
        }
        Error::ElementPruned(F::location_to_position(location))
    }

    // Whether a leaf stands at this location that is not pruned.
    fn check_location(&self, location: Location<F>) -> Result<(), Error<F>>
        ensures within { IsOk result ↔ ((self.now.boundary ≤ location)
            × (location < self.now.base.leaves + length self.now.added)) }
        ensures refused { IfErr result (λ e. IsRefusalAt F.merge_rule self.now.boundary
            (self.now.base.leaves + length self.now.added) location e) }
    {
        if location.as_u64() < self.boundary || location >= self.leaves() {
            return Err(self.refusal_at(location));
        }
        Ok(())
    }

    /// Gives the leaf at a location this digest, a leaf of the base or one that was added. Where no leaf stands there:
    /// M7 with the location; where it is pruned: M10 with its position; out of memory: M23. The batch is then given up.
    /// In the Rust: `merkle::batch::UnmerkleizedBatch::update_leaf_digest`.
    pub fn update_leaf_digest(
        self,
        location: Location<F>,
        digest: D,
    ) -> Result<UnmerkleizedBatch<F, D>, Error<F>>
        ensures updated { IfOk result (λ batch. batch ≡ record self {
          updates = self.updates ++ (location, D.encoding digest) ∷ [];
        }) }
        ensures within { OnOk result ((self.boundary ≤ location) × (location < self.base.leaves + length self.added)) }
        ensures refused { IfErr result (λ e. IsRefusalAt F.merge_rule self.boundary
            (self.base.leaves + length self.added) location e) }
    {
        self.check_location(location)?;
        let mut batch = self;
        batch.updates.push((location.as_u64(), digest))?;
        Ok(batch)
    }

    /// Gives the leaf at a location the digest of this element. Where no leaf stands there: M7 with the location; where
    /// it is pruned: M10 with its position; out of memory: M23. The batch is then given up.
    /// In the Rust: `merkle::batch::UnmerkleizedBatch::update_leaf`.
    pub fn update_leaf<H: Hasher<F, Digest = D>>(
        self,
        hasher: &H,
        location: Location<F>,
        element: &[u8],
    ) -> Result<UnmerkleizedBatch<F, D>, Error<F>>
        ensures updated { IfOk result (λ batch. batch ≡ record self {
          updates = self.updates
              ++ (location, H.leaf_of hasher.now (node_count F.merge_rule location) element.now) ∷ [];
        }) }
        ensures within { OnOk result ((self.boundary ≤ location) × (location < self.base.leaves + length self.added)) }
        ensures refused { IfErr result (λ e. IsRefusalAt F.merge_rule self.boundary
            (self.base.leaves + length self.added) location e) }
    {
        self.check_location(location)?;
        let position = F::location_to_position(location);
        self.update_leaf_digest(location, hasher.leaf_digest(position, element))
    }

    /// Gives leaves these digests, each at its location, in their order. Where no leaf stands at one, or it is pruned,
    /// the first such is named: M7 with the location, M10 with its position; out of memory: M23. The batch is then
    /// given up.
    /// In the Rust: `merkle::batch::UnmerkleizedBatch::update_leaf_batched`.
    pub fn update_leaf_batched(
        self,
        updates: &[(Location<F>, D)],
    ) -> Result<UnmerkleizedBatch<F, D>, Error<F>>
        ensures updated { IfOk result (λ batch. batch ≡ record self {
          updates = self.updates ++ encoded D.encoding updates.now;
        }) }
        ensures within { OnOk result (first_refused self.boundary (self.base.leaves + length self.added)
            (encoded D.encoding updates.now) ≡ None) }
        ensures refused { IfErr result (λ e. IsRefusalOfUpdates F.merge_rule self.boundary
            (self.base.leaves + length self.added) (encoded D.encoding updates.now) e) }
    {
        if let Some(location) = first_out_of(Location::new(self.boundary), self.leaves(), updates) {
            return Err(self.refusal_at(location));
        }
        let mut batch = self;
        push_updates(&mut batch.updates, updates)?;
        Ok(batch)
    }

    /// Gives up what the batches below have, as when they are applied: then a tree has to be the batch's own base where
    /// it is to be applied. It takes no memory.
    /// Own: in the Rust a batch holds those below it weakly, and loses what nobody else holds.
    pub fn forget_ancestors(self) -> UnmerkleizedBatch<F, D>
        ensures { result ≡ record self { below = []; dropped = given_up self.dropped self.below } }
    {
        let mut batch = self;
        if let [_, ..] = &batch.below[..] {
            batch.dropped = true;
        }
        batch.below = Vec::new(batch.alloc);
        batch
    }

    /// Makes the nodes that the batch adds to its base, and those of the base that its updates change. They are read of
    /// the batches below and of the tree, which is the batch's base, or that of one of the batches below it. A node
    /// that is needed and that none of them has: M14 where batches were given up and the tree is too small to have it,
    /// else M20 with its position; out of memory: M23. The batch is given up. Where the tree has at least the leaves of
    /// the oldest of these bases, and no more than the batch's, and is pruned before none of the updates, all is there
    /// that is needed. That the tree handed in is one of these is on the caller; over another one the digests are of no
    /// tree.
    /// In the Rust: `merkle::batch::UnmerkleizedBatch::merkleize`, which shares its answer.
    pub fn merkleize<H: Hasher<F, Digest = D>>(
        self,
        base: &Mem<F, D>,
        hasher: &H,
    ) -> Result<MerkleizedBatch<F, D>, Error<F>>
        ensures base { IfOk result (λ batch. batch.base ≡ self.base) }
        ensures boundary { IfOk result (λ batch. batch.boundary ≡ self.boundary) }
        ensures leaves { IfOk result (λ batch. batch.leaves ≡ self.base.leaves + length self.added) }
        ensures below { IfOk result (λ batch. (batch.below ≡ self.below) × (batch.dropped ≡ self.dropped)) }
        ensures of_list { (leaf_digests : List (List ℕ)) (earlier : List (List (List ℕ)))
            → self.base.leaves ≡ length leaf_digests
            → AreLed (H.node_of hasher.now) F.merge_rule self.below earlier leaf_digests
            → IsOfOne (H.node_of hasher.now) F.merge_rule base.now (leaf_digests ∷ earlier)
            → IfOk result (λ batch. IsLed (H.node_of hasher.now) F.merge_rule (own_layer batch) leaf_digests
            (with_leaves leaf_digests self) × (batch.peaks
            ≡ list_peaks (H.node_of hasher.now) F.merge_rule (with_leaves leaf_digests self))) }
        // Over a tree that is begun from pinned digests the hash may be another one before the boundary.
        ensures of_begun { (boundary : ℕ) (node : NodeHash) (list : List (List ℕ)) (earlier : List (List (List ℕ)))
            → AreAlikeFrom F.merge_rule boundary node (H.node_of hasher.now) → ChangesFrom boundary self
            → StandsOver node F.merge_rule self base.now list earlier
            → IfOk result (LeadsOn node F.merge_rule self list) }
        ensures refused { IfErr result (λ e. IsRefusalOver F.merge_rule (node_count F.merge_rule self.base.leaves)
            (record { tree = base.now; layers = self.below; dropped = self.dropped }) e) }
        ensures enough { oldest_leaves self.base.leaves self.below ≤ base.now.leaves
            → base.now.leaves ≤ self.base.leaves → AreKeptNodes F.merge_rule base.now
            → AllByRecursion (λ one. base.now.boundary ≤ one.0) self.updates
            → IfErr result (λ e. e ≡ Error.Memory) }
    {
        let leaves = self.leaves().as_u64();
        let base_size = F::location_to_position(Location::new(self.base_leaves)).as_u64();
        let mut updates = self.updates;
        let mut added = self.added;
        put_all(&mut added, self.base_leaves, &updates);
        sort_updates(&mut updates)?;
        let mut changed = Vec::new(self.alloc);
        let known = Layered::new(base, &self.below, self.dropped);
        let rebuilt = rebuild_peaks::<F, H>(
            self.alloc,
            hasher,
            &known,
            self.base_leaves,
            &updates,
            &mut changed,
        )?;
        let mut digests = Vec::new(self.alloc);
        push_leaves::<F, H>(
            hasher,
            self.base_leaves,
            base_size,
            &rebuilt,
            &mut digests,
            &added,
        )?;
        let peaks = grown_peaks::<F, D>(
            self.alloc,
            self.base_leaves,
            base_size,
            leaves,
            &rebuilt,
            &digests,
        )?;
        sort_updates(&mut changed)?;
        let layer = Layer::new(self.base_leaves, self.base_peaks, leaves, digests, changed);
        Ok(MerkleizedBatch {
            alloc: self.alloc,
            layer: Rc::new(self.alloc, layer)?,
            boundary: self.boundary,
            peaks,
            below: self.below,
            dropped: self.dropped,
        })
    }
}

// The first location that is before a boundary, or not below a leaf count.
fn first_out_of<F: Family, D: Digest>(
    boundary: Location<F>,
    leaves: Location<F>,
    updates: &[(Location<F>, D)],
) -> Option<Location<F>>
    ensures { result ≡ option_map (λ update. update.0)
        (find (λ update. nat_lt update.0 boundary || nat_le leaves update.0) updates.now) }
{
    updates
        .iter()
        .find(|update| update.0 < boundary || update.0 >= leaves)
        .map(|update| update.0)
}

// Appends updates, in their order.
fn push_updates<F: Family, D: Digest>(
    updates: &mut Vec<(u64, D)>,
    more: &[(Location<F>, D)],
) -> Result<(), AllocError>
    ensures { OnOk result (encoded D.encoding updates.new.items
        ≡ encoded D.encoding updates.old.items ++ encoded D.encoding more.now) }
{
    for (location, digest) in more {
        updates.push((location.as_u64(), *digest))?;
    }
    Ok(())
}

/// Nodes that are to be added to a tree, their base, and nodes of it that get other digests. Contracts see the base,
/// as its leaf count and the digests of its peaks, the location before which it was pruned, how many leaves there are
/// with the new ones, the digests of the new nodes in order of position, and the digests of the changed ones, each at
/// its position, the digests of the peaks that there are then, and the layers of the batches that it was made over.
/// In the Rust: `merkle::batch::MerkleizedBatch`.
#[derive(Debug, Drop)]
pub struct MerkleizedBatch<F: Family, D: Digest> {
    alloc: Global,
    // What the batch makes of its own base.
    layer: Rc<Layer<F, D>>,
    boundary: u64,
    peaks: Vec<D>,
    // The layers of the batches that it was made over, the newest first.
    below: Vec<Rc<Layer<F, D>>>,
    // Whether some of these were given up.
    dropped: bool,
}

impl<F: Family, D: Digest> Model for MerkleizedBatch<F, D> {
    ghost use Rattle.std.specs.Prelude.{◌∷◌, map};
    ghost use Rattle.merkle_core_parts.specs.Layers.{AreStacked};
    ghost use Rattle.merkle_core_parts.specs.Mem.{Growth};

    ghost Value = { Growth };

    ghost view = { λ b. record {
      base = b.layer.value.base;
      boundary = b.boundary;
      leaves = b.layer.value.leaves;
      digests = b.layer.value.digests;
      changed = b.layer.value.changed;
      peaks = map D.encoding b.peaks.items;
      below = map (λ layer. layer.value) b.below.items;
      dropped = b.dropped;
    } };

    ghost invariant = { λ b. AreStacked F.merge_rule b.layer.value.leaves
        (b.layer.value ∷ map (λ layer. layer.value) b.below.items) };
}

impl<F: Family, D: Digest> MerkleizedBatch<F, D> {
    /// A batch of no nodes over a tree. It fails only when out of memory: M23.
    /// In the Rust: `merkle::batch::MerkleizedBatch::from_mem`, which shares its answer.
    pub fn from_mem(tree: &Mem<F, D>) -> Result<MerkleizedBatch<F, D>, Error<F>>
        ensures batch { IfOk result (λ batch. batch ≡ record {
          base = base_of F.merge_rule tree.now;
          boundary = tree.now.boundary;
          leaves = tree.now.leaves;
          digests = [];
          changed = [];
          peaks = peak_digests F.merge_rule tree.now;
          below = [];
          dropped = false;
        }) }
        ensures refused { IfErr result (λ e. e ≡ Error.Memory) }
    {
        let (alloc, base_peaks) = tree.base()?;
        let peaks = Vec::from_slice(alloc, &base_peaks)?;
        let leaves = tree.leaves().as_u64();
        let layer = Layer::new(leaves, base_peaks, leaves, Vec::new(alloc), Vec::new(alloc));
        Ok(MerkleizedBatch {
            alloc,
            layer: Rc::new(alloc, layer)?,
            boundary: tree.pruning_boundary().as_u64(),
            peaks,
            below: Vec::new(alloc),
            dropped: false,
        })
    }

    /// How many leaves the tree has with the batch. In the Rust: `merkle::batch::MerkleizedBatch::leaves`.
    pub fn leaves(&self) -> Location<F>
        ensures leaves { result ≡ self.now.leaves }
        ensures few { result ≤ 2 ^ 62 }
        ensures grown { self.now.base.leaves ≤ result }
    {
        Location::new(self.layer.leaves())
    }

    /// The location before which the base was pruned when the batch was begun.
    /// In the Rust: `merkle::batch::MerkleizedBatch::pruning_boundary`.
    pub fn pruning_boundary(&self) -> Location<F>
        ensures { result ≡ self.now.boundary }
    {
        Location::new(self.boundary)
    }

    /// How many nodes the tree has with the batch. In the Rust: `merkle::batch::MerkleizedBatch::size`.
    pub fn size(&self) -> Position<F>
        ensures size { result ≡ node_count F.merge_rule self.now.leaves }
        ensures held { result ≡ node_count F.merge_rule self.now.base.leaves + length self.now.digests }
    {
        F::location_to_position(Location::new(self.layer.leaves()))
    }

    /// How many nodes the base has. In the Rust: `merkle::batch::MerkleizedBatch::base_size`.
    pub fn base_size(&self) -> Position<F>
        ensures { result ≡ node_count F.merge_rule self.now.base.leaves }
    {
        F::location_to_position(Location::new(self.layer.base_leaves()))
    }

    /// The digest of the node at a position that the batch makes, or one of those below it. Where none of them makes
    /// one there it is None: such nodes are the tree's.
    /// In the Rust: `merkle::batch::MerkleizedBatch::get_node`.
    pub fn get_node(&self, position: Position<F>) -> Option<D>
        ensures { option_map D.encoding result
            ≡ known_above F.merge_rule (own_layer self.now ∷ self.now.below) (λ p. None) position }
    {
        match self.layer.node(position.as_u64()) {
            Some(digest) => Some(digest),
            None => node_of(&self.below, position.as_u64()),
        }
    }

    /// The root of the tree with the batch, of whose peaks so many come first as inactive ones. Where there are fewer:
    /// M16. It takes no memory, and no tree: a batch knows its peaks.
    /// In the Rust: `merkle::batch::MerkleizedBatch::root`, which reads the peaks of the tree and of the batches below.
    pub fn root<H: Hasher<F, Digest = D>>(
        &self,
        hasher: &H,
        inactive_peaks: usize,
    ) -> Result<D, Error<F>>
        ensures answered { IsOk result ↔ (inactive_peaks ≤ length self.now.peaks) }
        ensures root { IfOk result (λ root. D.encoding root ≡ root_of H.hash_of (H.bagging_of hasher.now)
            self.now.leaves inactive_peaks self.now.peaks) }
        ensures of_list { (leaf_digests : List (List ℕ)) → self.now.leaves ≡ length leaf_digests
            → self.now.peaks ≡ list_peaks (H.node_of hasher.now) F.merge_rule leaf_digests
            → IfOk result (λ root. D.encoding root ≡ list_root H.hash_of (H.node_of hasher.now)
            (H.bagging_of hasher.now) F.merge_rule leaf_digests inactive_peaks) }
        ensures refused { IfErr result (λ e. e ≡ Error.InvalidInactivePeaks) }
    {
        match hasher.root(self.leaves(), inactive_peaks, &self.peaks) {
            Ok(root) => Ok(root),
            Err(_) => Err(Error::InvalidInactivePeaks),
        }
    }

    /// A batch over this one that adds nothing yet. It fails only when out of memory: M23.
    /// In the Rust: `merkle::batch::MerkleizedBatch::new_batch`, over a shared batch.
    pub fn new_batch(&self) -> Result<UnmerkleizedBatch<F, D>, Error<F>>
        ensures batch { IfOk result (λ batch. batch ≡ record {
          base = record { leaves = self.now.leaves; peaks = self.now.peaks };
          boundary = self.now.boundary;
          added = [];
          updates = [];
          below = own_layer self.now ∷ self.now.below;
          dropped = self.now.dropped;
        }) }
        ensures refused { IfErr result (λ e. e ≡ Error.Memory) }
    {
        let peaks = Vec::from_slice(self.alloc, &self.peaks)?;
        let layers = shared(self.alloc, &self.layer, &self.below)?;
        Ok(UnmerkleizedBatch::over(
            self.alloc,
            self.layer.leaves(),
            peaks,
            self.boundary,
            layers,
            self.dropped,
        ))
    }

    // What the batch makes of its own base.
    pub(crate) fn layer(&self) -> &Layer<F, D>
        ensures layer { result.now ≡ own_layer self.now }
        ensures whole { IsWhole F.merge_rule result.now }
        ensures few { result.now.leaves ≤ 2 ^ 62 }
    {
        &self.layer
    }

    // The layers of the batches that it was made over, the newest first.
    pub(crate) fn below(&self) -> &[Rc<Layer<F, D>>]
        ensures layers { map (λ layer. layer.value) result.now ≡ self.now.below }
        ensures stacked { AreStacked F.merge_rule self.now.base.leaves (map (λ layer. layer.value) result.now) }
    {
        &self.below
    }

    // The newest of these layers, so many.
    pub(crate) fn following(&self, count: usize) -> &[Rc<Layer<F, D>>]
        requires { count ≤ length self.now.below }
        ensures { map (λ layer. layer.value) result.now ≡ take count self.now.below }
    {
        &self.below[..count]
    }

    // Why the batch is not applied to a tree that is none of its bases: M14 where batches were given up and the tree
    // has fewer leaves than the oldest base that is left, else M13.
    pub(crate) fn refusal(&self, leaves: u64) -> Error<F>
        ensures { (peaks : List (List ℕ))
            → HasNone (record { leaves = leaves; peaks = peaks }) (bases self.now.base self.now.below)
            → IsRefusalOnto self.now (record { leaves = leaves; peaks = peaks }) result }
    {
        if self.dropped && leaves < oldest_base(&self.layer, &self.below) {
            return Error::AncestorDropped;
        }
        Error::StaleBatch
    }
}

// How many leaves the oldest base has that these layers know, the newest of which is the first one.
fn oldest_base<F: Family, D: Digest>(own: &Layer<F, D>, below: &[Rc<Layer<F, D>>]) -> u64
    ensures { result ≡ oldest_leaves own.now.base.leaves (map (λ layer. layer.value) below.now) }
{
    let mut leaves = own.base_leaves();
    let mut rest = below;
    while let [layer, older @ ..] = rest {
        leaves = layer.base_leaves();
        rest = older;
    }
    leaves
}

// The own layer, and then those below it, shared.
fn shared<F: Family, D: Digest>(
    alloc: Global,
    own: &Rc<Layer<F, D>>,
    below: &[Rc<Layer<F, D>>],
) -> Result<Vec<Rc<Layer<F, D>>>, AllocError>
    ensures { IfOk result (λ layers. map (λ layer. layer.value) layers.items
        ≡ own.now.value ∷ map (λ layer. layer.value) below.now) }
{
    let mut layers = Vec::new(alloc);
    layers.push(own.clone()?)?;
    for layer in below {
        layers.push(layer.clone()?)?;
    }
    Ok(layers)
}
