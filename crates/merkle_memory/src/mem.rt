//! The tree that is kept in memory.

ghost use Rattle.std.specs.Prelude.{◌≡◌, ◌<◌, ◌≤◌, ◌+◌, ◌↔◌, ◌^◌, [], ℕ, List, Some, map, length, option_map};
ghost use Rattle.std.specs.Prelude.{false, take, IsTrue, IsSome, IsNone, IfSome, IsOk, IfOk, IfErr, OnOk, OnErr};
ghost use Rattle.merkle_forest.specs.Forest.{size, forest_of};
ghost use Rattle.merkle_forest.specs.Hashing.{root_of};
ghost use Rattle.merkle_forest.specs.Peaks.{all_peaks};
ghost use Rattle.merkle_core_parts.specs.Errors.{IsRefusalOnto, IsRefusalToPrune, IsRefusalOfParts};
ghost use Rattle.merkle_core_parts.specs.Mem.{node_count, node_at, peak_digests, AreNodesOf, list_root};
ghost use Rattle.merkle_core_parts.specs.Mem.{AreKeptNodes, pinned_positions, placed};
ghost use Rattle.merkle_core_parts.specs.Layers.{IsFirstAt, HasNone, bases, with_layers};
ghost use Rattle.merkle_core_parts.specs.Mem.{base_of, with_batch, pruned_before, IsKept, IsPeakPosition, NodeHash};

use crate::batch::{MerkleizedBatch, UnmerkleizedBatch};
use crate::components::{leaves_of, placed_at_peaks};
use crate::growth::known_digest;
use crate::layer::{Layer, node_with_layers, put_layers, put_reserved, reserve_room};
use crate::peaks::{count_peaks, have_all_peaks, peaks_of, pinned_of, root_of_tree};
use merkle_core_parts::Error;
use merkle_forest::family::{MAX_LEAVES, MAX_PINNED_NODES};
use merkle_forest::hasher::Hasher;
use merkle_forest::peaks::Peaks;
use merkle_forest::{Digest, Family, Location, Position};
use std::alloc::{AllocError, Global};
use std::marker::{Model, PhantomData};
use std::ops::Range;
use std::rc::Rc;

/// A tree that is kept in memory as the digests of its nodes, and that may be pruned. Contracts see the number of its
/// leaves, the location before which it is pruned, the digests that stay pinned before it, each at its position, and
/// those of all nodes from there on; whose list of leaf digests they are is said for the hasher that a call takes.
/// In the Rust: `merkle::mem::Mem`.
#[derive(Debug, Drop)]
pub struct Mem<F: Family, D: Digest> {
    alloc: Global,
    leaves: u64,
    boundary: u64,
    // How many nodes the leaves before the boundary have: where `digests` begins.
    start: u64,
    pinned: Vec<(u64, D)>,
    digests: Vec<D>,
    family: PhantomData<F>,
}

impl<F: Family, D: Digest> Model for Mem<F, D> {
    ghost use Rattle.std.specs.Prelude.{◌≡◌, ◌≤◌, ◌^◌, map, length};
    ghost use Rattle.merkle_core_parts.specs.Mem.{Nodes, AreKeptNodes, node_count, encoded};

    ghost Value = { Nodes };

    ghost view = { λ m. record {
      leaves = m.leaves;
      boundary = m.boundary;
      pinned = encoded D.encoding m.pinned.items;
      digests = map D.encoding m.digests.items;
    } };

    ghost invariant = { λ m. (m.leaves ≤ 2 ^ 62) × (m.start ≡ node_count F.merge_rule m.boundary)
        × AreKeptNodes F.merge_rule (record {
          leaves = m.leaves;
          boundary = m.boundary;
          pinned = encoded D.encoding m.pinned.items;
          digests = map D.encoding m.digests.items;
        })
        × (length m.pinned.items ≤ 62) };
}

/// What a tree is made from that does not begin with no leaves: the nodes from a boundary on, in order of position, the
/// boundary, and the pinned nodes before it, from left to right. In the Rust: `merkle::mem::Config`.
#[derive(Debug, Drop)]
pub struct Config<F: Family, D: Digest> {
    /// The digests of the nodes from the boundary on, in order of position.
    pub nodes: Vec<D>,
    /// The location before which the tree is pruned.
    pub pruning_boundary: Location<F>,
    /// The digests of the nodes to pin at the boundary, from left to right.
    pub pinned_nodes: Vec<D>,
}

impl<F: Family, D: Digest> Mem<F, D> {
    /// A tree of no leaves. It takes no memory yet. In the Rust: `merkle::mem::Mem::new`.
    pub fn new(alloc: Global) -> Mem<F, D>
        ensures { result ≡ record { leaves = 0; boundary = 0; pinned = []; digests = [] } }
    {
        Mem {
            alloc,
            leaves: 0,
            boundary: 0,
            start: 0,
            pinned: Vec::new(alloc),
            digests: Vec::new(alloc),
            family: PhantomData,
        }
    }

    /// The tree that is pruned before a boundary and has these nodes. A boundary past `MAX_LEAVES`: M3 with it; where
    /// no tree has as many nodes: M6; too few or too many pinned nodes: M12; out of memory: M23. Whose list of leaf
    /// digests they are is for the caller to know.
    /// In the Rust: `merkle::mem::Mem::init`.
    pub fn init(alloc: Global, config: Config<F, D>) -> Result<Mem<F, D>, Error<F>>
        ensures boundary { IfOk result (λ tree. tree.boundary ≡ config.pruning_boundary) }
        ensures pinned { IfOk result (λ tree. tree.pinned
            ≡ placed (pinned_positions F.merge_rule config.pruning_boundary)
            (map D.encoding config.pinned_nodes.items)) }
        ensures digests { IfOk result (λ tree. tree.digests ≡ map D.encoding config.nodes.items) }
        ensures shape { IfOk result (λ tree. (tree.leaves ≤ 2 ^ 62) × AreKeptNodes F.merge_rule tree) }
        ensures counted { OnOk result (length config.pinned_nodes.items
            ≡ length (pinned_positions F.merge_rule config.pruning_boundary)) }
        ensures refused { IfErr result (λ e. IsRefusalOfParts F.merge_rule config.pruning_boundary
            (length config.nodes.items) (length config.pinned_nodes.items) e) }
    {
        Mem::from_components(
            alloc,
            config.nodes,
            config.pruning_boundary,
            &config.pinned_nodes,
        )
    }

    /// The tree that is pruned before a boundary and has these nodes. A boundary past `MAX_LEAVES`: M3 with it; where
    /// no tree has as many nodes: M6; too few or too many pinned nodes: M12; out of memory: M23. Whose list of leaf
    /// digests they are is for the caller to know.
    /// In the Rust: `merkle::mem::Mem::from_components`, which takes the pinned nodes too.
    pub fn from_components(
        alloc: Global,
        nodes: Vec<D>,
        pruning_boundary: Location<F>,
        pinned_nodes: &[D],
    ) -> Result<Mem<F, D>, Error<F>>
        ensures boundary { IfOk result (λ tree. tree.boundary ≡ pruning_boundary) }
        ensures pinned { IfOk result (λ tree. tree.pinned
            ≡ placed (pinned_positions F.merge_rule pruning_boundary) (map D.encoding pinned_nodes.now)) }
        ensures digests { IfOk result (λ tree. tree.digests ≡ map D.encoding nodes.items) }
        ensures shape { IfOk result (λ tree. (tree.leaves ≤ 2 ^ 62) × AreKeptNodes F.merge_rule tree) }
        ensures counted { OnOk result (length pinned_nodes.now
            ≡ length (pinned_positions F.merge_rule pruning_boundary)) }
        ensures refused { IfErr result (λ e. IsRefusalOfParts F.merge_rule pruning_boundary (length nodes.items)
            (length pinned_nodes.now) e) }
    {
        if pruning_boundary.as_u64() > MAX_LEAVES {
            return Err(Error::LocationOverflow(pruning_boundary));
        }
        let boundary = pruning_boundary.as_u64();
        let start = F::location_to_position(pruning_boundary).as_u64();
        let Some(leaves) = leaves_of::<F>(start, nodes.len() as u64) else {
            return Err(Error::InvalidSize);
        };
        if pinned_nodes.len() != count_peaks::<F>(boundary) {
            return Err(Error::InvalidPinnedNodes);
        }
        let pinned = placed_at_peaks::<F, D>(alloc, boundary, pinned_nodes)?;
        Ok(Mem {
            alloc,
            leaves: leaves.as_u64(),
            boundary,
            start,
            pinned,
            digests: nodes,
            family: PhantomData,
        })
    }

    /// How many leaves the tree has. In the Rust: `merkle::mem::Mem::leaves`.
    pub fn leaves(&self) -> Location<F>
        ensures leaves { result ≡ self.now.leaves }
        ensures few { result ≤ 2 ^ 62 }
    {
        Location::new(self.leaves)
    }

    /// How many nodes the tree has, with those that are pruned. In the Rust: `merkle::mem::Mem::size`.
    pub fn size(&self) -> Position<F>
        ensures size { result ≡ size (forest_of F.merge_rule self.now.leaves) }
        ensures held { result ≡ node_count F.merge_rule self.now.boundary + length self.now.digests }
    {
        Position::new(self.start + self.digests.len() as u64)
    }

    /// The location before which leaves are pruned. In the Rust: `merkle::mem::Mem::pruning_boundary`.
    pub fn pruning_boundary(&self) -> Location<F>
        ensures boundary { result ≡ self.now.boundary }
        ensures within { result ≤ self.now.leaves }
        ensures shape { AreKeptNodes F.merge_rule self.now }
        ensures few_pinned { length self.now.pinned ≤ MAX_PINNED_NODES }
    {
        Location::new(self.boundary)
    }

    /// The locations of the leaves that are not pruned. In the Rust: `merkle::mem::Mem::bounds`.
    pub fn bounds(&self) -> Range<Location<F>>
        ensures start { result.start ≡ self.now.boundary }
        ensures end { result.end ≡ self.now.leaves }
    {
        self.pruning_boundary()..self.leaves()
    }

    /// The peaks from left to right: the position and the height of each.
    /// In the Rust: `merkle::mem::Mem::peak_iterator`.
    pub fn peak_iterator(&self) -> Peaks<F>
        ensures { result ≡ all_peaks F.merge_rule self.now.leaves }
    {
        Peaks::of_leaves(self.leaves())
    }

    /// The digest of the node at a position. Where no node stands there, or it is pruned, it is None; a pinned one is
    /// there.
    /// In the Rust: `merkle::mem::Mem::get_node`.
    pub fn get_node(&self, position: Position<F>) -> Option<D>
        ensures { option_map D.encoding result ≡ node_at F.merge_rule self.now position }
    {
        known_digest(&self.pinned, self.start, &self.digests, position.as_u64())
    }

    // The digest of a peak of the first leaves of the tree, of so many.
    pub(crate) fn peak_digest(&self, leaves: u64, position: u64) -> D
        requires from { self.now.boundary ≤ leaves }
        requires within { leaves ≤ self.now.leaves }
        requires peak { IsPeakPosition F.merge_rule leaves position }
        ensures { node_at F.merge_rule self.now position ≡ Some (D.encoding result) }
    {
        match known_digest(&self.pinned, self.start, &self.digests, position) {
            Some(digest) => digest,
            None => unreachable!(),
        }
    }

    /// The root of the tree, of whose peaks so many come first as inactive ones. Where there are fewer: M16. It takes
    /// no memory.
    /// In the Rust: `merkle::mem::Mem::root`.
    pub fn root<H: Hasher<F, Digest = D>>(
        &self,
        hasher: &H,
        inactive_peaks: usize,
    ) -> Result<D, Error<F>>
        ensures answered { IsOk result ↔ (inactive_peaks ≤ length (peak_digests F.merge_rule self.now)) }
        ensures root { IfOk result (λ root. D.encoding root ≡ root_of H.hash_of (H.bagging_of hasher.now)
            self.now.leaves inactive_peaks (peak_digests F.merge_rule self.now)) }
        ensures of_list { (leaf_digests : List (List ℕ))
            → AreNodesOf (H.node_of hasher.now) F.merge_rule leaf_digests self.now
            → IfOk result (λ root. D.encoding root ≡ list_root H.hash_of (H.node_of hasher.now)
            (H.bagging_of hasher.now) F.merge_rule leaf_digests inactive_peaks) }
        ensures refused { IfErr result (λ e. e ≡ Error.InvalidInactivePeaks) }
    {
        root_of_tree(hasher, self.leaves, self, inactive_peaks)
    }

    /// A tree that is equal to this one. It fails only when out of memory: M23 (own). In the Rust: `Clone::clone`.
    pub fn try_copy(&self) -> Result<Mem<F, D>, Error<F>>
        ensures copy { IfOk result (λ copy. copy ≡ self.now) }
        ensures refused { IfErr result (λ e. e ≡ Error.Memory) }
    {
        let pinned = Vec::from_slice(self.alloc, &self.pinned)?;
        let digests = Vec::from_slice(self.alloc, &self.digests)?;
        Ok(Mem {
            alloc: self.alloc,
            leaves: self.leaves,
            boundary: self.boundary,
            start: self.start,
            pinned,
            digests,
            family: PhantomData,
        })
    }

    /// Prunes the leaves before a location: of the nodes that they have only those stay that later roots and branches
    /// are made from. Where leaves are pruned up to there already nothing changes. Past the leaves: M7 with the
    /// location; out of memory: M23. The tree then stays as it was.
    /// In the Rust: `merkle::mem::Mem::prune`.
    pub fn prune(&mut self, location: Location<F>) -> Result<(), Error<F>>
        ensures pruned { OnOk result (self.new ≡ pruned_before F.merge_rule self.old location) }
        ensures within { OnOk result (location ≤ self.old.leaves) }
        ensures base { base_of F.merge_rule self.new ≡ base_of F.merge_rule self.old }
        ensures kept { (p : ℕ) → IsKept F.merge_rule self.new.boundary p
            → node_at F.merge_rule self.new p ≡ node_at F.merge_rule self.old p }
        ensures dropped { (p : ℕ) → IsSome (node_at F.merge_rule self.new p) → IsKept F.merge_rule self.new.boundary p }
        ensures of_list { (node : NodeHash) (leaf_digests : List (List ℕ))
            → AreNodesOf node F.merge_rule leaf_digests self.old
            → AreNodesOf node F.merge_rule leaf_digests self.new }
        ensures refused { IfErr result (λ e. IsRefusalToPrune self.old.leaves location e) }
        ensures unchanged { OnErr result (self.new ≡ self.old) }
    {
        let boundary = location.as_u64();
        if boundary > self.leaves {
            return Err(Error::LeafOutOfBounds(location));
        }
        if boundary <= self.boundary {
            return Ok(());
        }
        let start = F::location_to_position(location).as_u64();
        let pinned = pinned_of::<F, D>(self.alloc, boundary, self)?;
        let dropped = (start - self.start) as usize;
        let digests = Vec::from_slice(self.alloc, &self.digests[dropped..])?;
        self.boundary = boundary;
        self.start = start;
        self.pinned = pinned;
        self.digests = digests;
        Ok(())
    }

    /// Prunes all leaves. It fails only when out of memory: M23. The tree then stays as it was.
    /// In the Rust: `merkle::mem::Mem::prune_all`, which refuses nothing.
    pub fn prune_all(&mut self) -> Result<(), Error<F>>
        ensures pruned { OnOk result (self.new ≡ pruned_before F.merge_rule self.old self.old.leaves) }
        ensures base { base_of F.merge_rule self.new ≡ base_of F.merge_rule self.old }
        ensures of_list { (node : NodeHash) (leaf_digests : List (List ℕ))
            → AreNodesOf node F.merge_rule leaf_digests self.old
            → AreNodesOf node F.merge_rule leaf_digests self.new }
        ensures refused { IfErr result (λ e. e ≡ Error.Memory) }
        ensures unchanged { OnErr result (self.new ≡ self.old) }
    {
        self.prune(self.leaves())
    }

    /// A batch that adds nothing to the tree yet. It fails only when out of memory: M23.
    /// In the Rust: `merkle::mem::Mem::new_batch`.
    pub fn new_batch(&self) -> Result<UnmerkleizedBatch<F, D>, Error<F>>
        ensures batch { IfOk result (λ batch. batch ≡ record {
          base = base_of F.merge_rule self.now;
          boundary = self.now.boundary;
          added = [];
          updates = [];
          below = [];
          dropped = false;
        }) }
        ensures refused { IfErr result (λ e. e ≡ Error.Memory) }
    {
        let (alloc, peaks) = self.base()?;
        let none = Vec::new(alloc);
        Ok(UnmerkleizedBatch::over(alloc, self.leaves, peaks, self.boundary, none, false))
    }

    // What a batch over the tree is made with: its allocator, and the digests of its peaks.
    pub(crate) fn base(&self) -> Result<(Global, Vec<D>), AllocError>
        ensures { IfOk result (λ base. map D.encoding base.1.items ≡ peak_digests F.merge_rule self.now) }
    {
        let peaks = peaks_of::<F, D>(self.alloc, self.leaves, self)?;
        Ok((self.alloc, peaks))
    }

    // Whether the tree is a layer's base, by its leaf count and the digests of its peaks.
    fn is_base_of(&self, layer: &Layer<F, D>) -> bool
        ensures { IsTrue result ↔ (layer.now.base ≡ base_of F.merge_rule self.now) }
    {
        if self.leaves != layer.base_leaves() {
            return false;
        }
        have_all_peaks::<F, D>(self.leaves, self, layer.base_peaks())
    }

    // How many of the layers below a batch follow the tree: those that are newer than the first base, from the batch's
    // own one back, that is the tree. Where none is: None.
    fn following(&self, own: &Layer<F, D>, below: &[Rc<Layer<F, D>>]) -> Option<usize>
        ensures found { IfSome result (λ count. IsFirstAt (base_of F.merge_rule self.now)
            (bases own.now.base (map (λ layer. layer.value) below.now)) count) }
        ensures within { IfSome result (λ count. count ≤ length below.now) }
        ensures none { IsNone result → HasNone (base_of F.merge_rule self.now)
            (bases own.now.base (map (λ layer. layer.value) below.now)) }
    {
        if self.is_base_of(own) {
            return Some(0);
        }
        let mut count = 0;
        for layer in below {
            count += 1;
            if self.is_base_of(layer) {
                return Some(count);
            }
        }
        None
    }

    /// Adds the nodes of the batch and of those below it that the tree is without, the oldest first, and changes those
    /// that they change: of the bases that the batch knows, from its own one back, the first that is the tree, by its
    /// leaf count and the digests of its peaks, tells which batches follow it. Where none is: M14 where batches were
    /// given up and the tree has fewer leaves than the oldest base that is left, else M13; out of memory: M23. The tree
    /// then stays as it was. That trees of one leaf count and equal digests of peaks stand over one list of leaf
    /// digests is for the caller to know.
    /// In the Rust: `merkle::mem::Mem::apply_batch`.
    pub fn apply_batch(&mut self, batch: &MerkleizedBatch<F, D>) -> Result<(), Error<F>>
        ensures applied { OnOk result ((count : ℕ)
            × IsFirstAt (base_of F.merge_rule self.old) (bases batch.now.base batch.now.below) count
            × (self.new ≡ with_batch F.merge_rule
            (with_layers F.merge_rule self.old (take count batch.now.below)) batch.now)) }
        ensures refused { IfErr result (λ e. IsRefusalOnto batch.now (base_of F.merge_rule self.old) e) }
        ensures unchanged { OnErr result (self.new ≡ self.old) }
    {
        let own = batch.layer();
        let below = batch.below();
        let Some(count) = self.following(own, below) else {
            return Err(batch.refusal(self.leaves));
        };
        put_layers(
            self.start,
            &mut self.pinned,
            &mut self.digests,
            own,
            &below[..count],
        )?;
        self.leaves = batch.leaves().as_u64();
        Ok(())
    }

    /// The tree with room for the batch, and for those below it that the tree is without: `Reserved::apply_batch` then
    /// takes them in, and can no longer be refused. It is refused as `apply_batch` is: M14, M13, out of memory: M23;
    /// the tree is then given back as it was, and the batch is given up (own).
    pub fn reserve_for(
        self,
        batch: MerkleizedBatch<F, D>,
    ) -> Result<Reserved<F, D>, Unreserved<F, D>>
        ensures before { IfOk result (λ waiting. waiting.before ≡ self) }
        ensures after { IfOk result (λ waiting. (count : ℕ)
            × IsFirstAt (base_of F.merge_rule self) (bases batch.base batch.below) count
            × (waiting.after ≡ with_batch F.merge_rule
            (with_layers F.merge_rule self (take count batch.below)) batch)) }
        ensures refused { IfErr result (λ back. IsRefusalOnto batch (base_of F.merge_rule self) back.error) }
        ensures unchanged { IfErr result (λ back. back.tree ≡ self) }
    {
        let Some(count) = self.following(batch.layer(), batch.below()) else {
            let error = batch.refusal(self.leaves);
            return Err(Unreserved { tree: self, error });
        };
        let mut tree = self;
        let leaves = batch.leaves().as_u64();
        let Ok(()) = reserve_room::<F, D>(tree.start, &mut tree.digests, leaves) else {
            return Err(Unreserved {
                tree,
                error: Error::Memory,
            });
        };
        Ok(Reserved {
            alloc: tree.alloc,
            leaves: tree.leaves,
            boundary: tree.boundary,
            start: tree.start,
            pinned: tree.pinned,
            digests: tree.digests,
            batch,
            count,
        })
    }
}

/// A tree that found no room for a batch, or is none of its bases, and why (own).
#[derive(Debug, Drop)]
pub struct Unreserved<F: Family, D: Digest> {
    /// The tree as it was.
    pub tree: Mem<F, D>,
    /// Why the batch is refused.
    pub error: Error<F>,
}

/// A tree and a batch that waits to be applied to it, for which all room is found (own). Contracts see the tree as it
/// is, and as it will be.
#[derive(Debug, Drop)]
pub struct Reserved<F: Family, D: Digest> {
    alloc: Global,
    leaves: u64,
    boundary: u64,
    start: u64,
    pinned: Vec<(u64, D)>,
    // With room for the nodes of the batch, and of those below it that the tree is without.
    digests: Vec<D>,
    batch: MerkleizedBatch<F, D>,
    // How many of the layers below the batch the tree is without.
    count: usize,
}

impl<F: Family, D: Digest> Model for Reserved<F, D> {
    ghost use Rattle.std.specs.Prelude.{◌≡◌, ◌≤◌, ◌+◌, ◌^◌, map, length, vec_capacity};
    ghost use Rattle.merkle_core_parts.specs.Layers.{Waiting, IsWaiting, waiting_for};
    ghost use Rattle.merkle_core_parts.specs.Mem.{node_count, encoded};

    ghost Value = { Waiting };

    ghost view = { λ m. waiting_for F.merge_rule (record {
      leaves = m.leaves;
      boundary = m.boundary;
      pinned = encoded D.encoding m.pinned.items;
      digests = map D.encoding m.digests.items;
    }) m.count m.batch };

    ghost invariant = { λ m. (m.leaves ≤ 2 ^ 62) × (m.start ≡ node_count F.merge_rule m.boundary)
        × IsWaiting F.merge_rule (record {
          leaves = m.leaves;
          boundary = m.boundary;
          pinned = encoded D.encoding m.pinned.items;
          digests = map D.encoding m.digests.items;
        }) m.count m.batch
        × (length m.pinned.items ≤ 62)
        × (node_count F.merge_rule m.batch.leaves ≤ m.start + vec_capacity m.digests) };
}

impl<F: Family, D: Digest> Reserved<F, D> {
    /// How many leaves the tree has once the batch is applied.
    pub fn leaves(&self) -> Location<F>
        ensures leaves { result ≡ self.now.after.leaves }
        ensures few { result ≤ 2 ^ 62 }
    {
        self.batch.leaves()
    }

    /// The location before which leaves are pruned. The batch leaves it as it is.
    pub fn pruning_boundary(&self) -> Location<F>
        ensures boundary { result ≡ self.now.after.boundary }
        ensures within { result ≤ self.now.after.leaves }
        ensures shape { AreKeptNodes F.merge_rule self.now.after }
    {
        Location::new(self.boundary)
    }

    /// The digest that the node at a position has once the batch is applied. Where no node stands there then, or it is
    /// pruned, it is None; a pinned one is there.
    pub fn get_node(&self, position: Position<F>) -> Option<D>
        ensures { option_map D.encoding result ≡ node_at F.merge_rule self.now.after position }
    {
        let place = position.as_u64();
        let there = known_digest(&self.pinned, self.start, &self.digests, place);
        let following = self.batch.following(self.count);
        node_with_layers(self.batch.layer(), following, there, place)
    }

    /// The tree with the batch, and with those below it that it was without. It takes no memory.
    pub fn apply_batch(self) -> Mem<F, D>
        ensures { result ≡ self.after }
    {
        let mut pinned = self.pinned;
        let mut digests = self.digests;
        put_reserved(
            self.start,
            &mut pinned,
            &mut digests,
            self.batch.layer(),
            self.batch.following(self.count),
        );
        Mem {
            alloc: self.alloc,
            leaves: self.batch.leaves().as_u64(),
            boundary: self.boundary,
            start: self.start,
            pinned,
            digests,
            family: PhantomData,
        }
    }

    /// The tree as it was, without the batch. It takes no memory.
    pub fn cancel(self) -> Mem<F, D>
        ensures { result ≡ self.before }
    {
        let waiting = self;
        Mem {
            alloc: waiting.alloc,
            leaves: waiting.leaves,
            boundary: waiting.boundary,
            start: waiting.start,
            pinned: waiting.pinned,
            digests: waiting.digests,
            family: PhantomData,
        }
    }
}
