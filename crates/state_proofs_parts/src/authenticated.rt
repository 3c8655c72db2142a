//! Bits with a root: a list of bits, and a tree over the chunks that it fills.
//!
//! Of 27 bits in chunks of one byte:
//!
//! ```text
//!    [ chunk 0 ][ chunk 1 ][ chunk 2 ]1 0 1       the root is the tree's where the bits fill their chunks, and here
//!         |          |          |                 the digest of 72 bytes:
//!         0          1          3
//!          \       /            |                     tree's root | 27 in eight bytes | digest of chunk 3
//!              2                3
//! ```
//!
//! A map is merkleized, and knows its root; or it has changed since: bits that were pushed have no leaf yet, and the
//! leaves of chunks with a bit that was set stand as they were. To merkleize it makes up for both.

ghost use Rattle.std.specs.Prelude.{◌≡◌, ◌<◌, ◌≤◌, ◌+◌, ◌-◌, ◌*◌, ◌/◌};
ghost use Rattle.std.specs.Prelude.{◌%◌, ◌^◌, ◌++◌, [], ◌∷◌, ◌↔◌, false, Bool, ℕ};
ghost use Rattle.std.specs.Prelude.{List};
ghost use Rattle.std.specs.Prelude.{length, replicate, take, slice_set, slice_index_or, option_map, map, Some, IsTrue};
ghost use Rattle.std.specs.Prelude.{OnOk, OnErr, IfOk, IfErr};
ghost use Rattle.merkle_forest.specs.Forest.{mmr_rule};
ghost use Rattle.merkle_forest.specs.Made.{value};
ghost use Rattle.merkle_core_parts.specs.Mem.{NodeHash, node_at, node_count, pinned_positions, pruned_before};
ghost use Rattle.merkle_theory.specs.MadeTrees.{Over};
ghost use Rattle.merkle_theory.specs.Reads.{HashesAs};
ghost use Rattle.state_theory.specs.Bits.{IsChunkWidth, bits_in, chunk_at, bit_count, last_chunk};
ghost use Rattle.state_theory.specs.Maps.{LeafHash, IsMapOf, merkleized, changed, map_root, bitmap_root};
ghost use Rattle.state_theory.specs.Maps.{bits_before};
ghost use Rattle.state_theory.specs.MapsCode.{remembered};
ghost use Rattle.state_theory.specs.Inclusion.{bit_root, honest_bit_digests};
ghost use Rattle.merkle_memory.specs.Begun.{pinned_hash};
ghost use Rattle.state_proofs_parts.specs.Begun.{AreHashedAlike, pinned_leaf};
ghost use Rattle.state_proofs_parts.specs.Errors.{CanBePruned, IsRefusalOfBit, IsRefusalOfPruned};
ghost use Rattle.state_theory.specs.Parts.{ArePinned, chunk_peaks, pruned_bits, pruned_tree};

use crate::bitmap::BitmapReadable;
use crate::bitmap_error::{Error, out_of_memory};
use crate::inclusion::{bit_digests, root_of_bit};
use crate::parts::{can_be_pruned, pinned_digests, tree_of_pinned};
use crate::prunable::{Prunable, bit_in};
use crate::tree::{root_over, tree_over};
use merkle_core::{Mem, Proof, Readable};
use merkle_forest::hasher::Hasher;
use merkle_forest::mmr::{Family, Position};
use merkle_forest::{Digest, Location};
use std::alloc::{AllocError, Global};
use std::collections::BTreeSet;
use std::marker::Model;

/// Whether a map knows its root. In the Rust: `bitmap::authenticated::State`, which is sealed.
pub trait State<D: Digest>: Drop {
    /// What contracts see of it.
    ghost stage_of: { Self → Rattle.state_theory.specs.Maps.Stage };
}

/// The state of a map that knows its root. In the Rust: `bitmap::authenticated::Merkleized`.
#[derive(Debug, Drop)]
pub struct Merkleized<D: Digest> {
    root: D,
}

impl<D: Digest> State<D> for Merkleized<D> {
    ghost stage_of = { λ state. merkleized (D.encoding state.root) };
}

/// The state of a map that may have changed since its root was made.
/// In the Rust: `bitmap::authenticated::Unmerkleized`, with a set.
#[derive(Debug, Drop)]
pub struct Unmerkleized {
    chunks: BTreeSet<u64>,
}

impl<D: Digest> State<D> for Unmerkleized {
    ghost stage_of = { λ state. changed state.chunks.keys };
}

/// Bits in chunks of N bytes, and a tree over the full chunks. Whole chunks may be pruned from the front. Contracts see
/// what is kept of the bits and of the tree's nodes, and the state; whose list of bits they are is said for the hasher
/// that a call takes.
/// In the Rust: `bitmap::authenticated::BitMap`, with a context and a strategy too.
#[derive(Debug, Drop)]
pub struct BitMap<D: Digest, const N: usize, M: State<D>> {
    alloc: Global,
    bits: Prunable<N>,
    tree: Mem<Family, D>,
    state: M,
}

impl<D: Digest, const N: usize, M: State<D>> Model for BitMap<D, N, M> {
    ghost use Rattle.state_theory.specs.Maps.{Map, IsMap};

    ghost Value = { Map };

    ghost view = { λ m. record { bits = m.bits; tree = m.tree; stage = M.stage_of m.state } };

    ghost invariant = { λ m. IsMap N m.bits m.tree (M.stage_of m.state) };
}

/// A map that knows its root. In the Rust: `bitmap::authenticated::MerkleizedBitMap`.
pub type MerkleizedBitMap<D, const N: usize> = BitMap<D, N, Merkleized<D>>;

/// A map that may have changed since its root was made. In the Rust: `bitmap::authenticated::UnmerkleizedBitMap`.
pub type UnmerkleizedBitMap<D, const N: usize> = BitMap<D, N, Unmerkleized>;

// Whether a root was found, and it is this one.
fn is_root<D: Digest>(found: Option<D>, root: &D) -> bool
    ensures { IsTrue result ↔ (option_map D.encoding found ≡ Some (D.encoding root.now)) }
{
    match found {
        Some(found) => found == *root,
        None => false,
    }
}

impl<D: Digest, const N: usize, M: State<D>> BitMap<D, N, M> {
    /// How many bits a chunk has. In the Rust: the constant `bitmap::authenticated::BitMap::CHUNK_SIZE_BITS`.
    pub fn chunk_size_bits() -> u64
        requires { IsChunkWidth N }
        ensures bits { result ≡ 8 * N }
        ensures some { 8 ≤ result }
        ensures few { result ≤ 2 ^ 62 }
    {
        Prunable::<N>::chunk_size_bits()
    }

    /// How many nodes the tree over the chunks has, with those that are pruned.
    /// In the Rust: `bitmap::authenticated::BitMap::size`.
    pub fn size(&self) -> Position
        ensures { result ≡ node_count mmr_rule self.now.tree.leaves }
    {
        self.tree.size()
    }

    /// How many bits there are, with those that are pruned. In the Rust: `bitmap::authenticated::BitMap::len`.
    pub fn len(&self) -> u64
        ensures { result ≡ bit_count N self.now.bits }
    {
        self.bits.len()
    }

    /// Whether there is no bit. In the Rust: `bitmap::authenticated::BitMap::is_empty`.
    pub fn is_empty(&self) -> bool
        ensures { IsTrue result ↔ (bit_count N self.now.bits ≡ 0) }
    {
        self.bits.is_empty()
    }

    /// How many bits are pruned. In the Rust: `bitmap::authenticated::BitMap::pruned_bits`.
    pub fn pruned_bits(&self) -> u64
        ensures pruned { result ≡ 8 * N * self.now.bits.pruned }
        ensures within { result ≤ bit_count N self.now.bits }
    {
        self.bits.pruned_bits()
    }

    /// The last chunk, and how many of its bits there are. Where no bit is kept it is zeros, and has none.
    /// In the Rust: `bitmap::authenticated::BitMap::last_chunk`, by reference.
    pub fn last_chunk(&self) -> ([u8; N], u64)
        ensures { result ≡ last_chunk N self.now.bits.kept }
    {
        self.bits.last_chunk()
    }

    /// The chunk with a bit that is there, and not pruned.
    /// In the Rust: `bitmap::authenticated::BitMap::get_chunk_containing`, by reference.
    pub fn get_chunk_containing(&self, bit: u64) -> [u8; N]
        requires kept { 8 * N * self.now.bits.pruned ≤ bit }
        requires there { bit < bit_count N self.now.bits }
        ensures { result ≡ chunk_at N self.now.bits.kept (bit / (8 * N) - self.now.bits.pruned) }
    {
        self.bits.get_chunk_containing(bit)
    }

    /// Whether a bit that is there, and not pruned, is set. In the Rust: `bitmap::authenticated::BitMap::get_bit`.
    pub fn get_bit(&self, bit: u64) -> bool
        requires kept { 8 * N * self.now.bits.pruned ≤ bit }
        requires there { bit < bit_count N self.now.bits }
        ensures { result ≡ slice_index_or self.now.bits.kept (bit - 8 * N * self.now.bits.pruned) false }
    {
        self.bits.get_bit(bit)
    }

    /// Whether a bit is set, read off its chunk. In the Rust: `bitmap::authenticated::BitMap::get_bit_from_chunk`.
    pub fn get_bit_from_chunk(chunk: &[u8; N], bit: u64) -> bool
        requires { IsChunkWidth N }
        ensures { result ≡ slice_index_or (bits_in chunk.now) (bit % (8 * N)) false }
    {
        bit_in(chunk, bit % Prunable::<N>::chunk_size_bits())
    }

    /// Whether the proof shows that this is the chunk of a bit, in the map with this root. It fails only when out of
    /// memory. Where the bit is at or past the proof's leaves, which are bits, where the proof has inactive peaks, and
    /// where a digest is missing or left over, it does not.
    /// In the Rust: `bitmap::authenticated::BitMap::verify_bit_inclusion`, which takes no allocator.
    pub fn verify_bit_inclusion<H: Hasher<Family, Digest = D>>(
        alloc: Global,
        hasher: &H,
        proof: &Proof<Family, D>,
        chunk: &[u8; N],
        bit: u64,
        root: &D,
    ) -> Result<bool, AllocError>
        requires { IsChunkWidth N }
        ensures { (over : Over)
            → HashesAs mmr_rule H.hash_of (H.leaf_of hasher.now) (H.node_of hasher.now) over
            → IfOk result (λ yes. IsTrue yes ↔ (option_map (value H.hash_of)
            (bit_root over (H.bagging_of hasher.now) N (record {
              bits = proof.now.leaves;
              inactive = proof.now.inactive_peaks;
              digests = map D.encoding proof.now.digests.items;
              bit = bit;
              chunk = chunk.now;
            })) ≡ Some (D.encoding root.now))) }
    {
        let found = root_of_bit(alloc, hasher, proof, chunk, bit)?;
        Ok(is_root(found, root))
    }
}

/// The bits of a map (own). Those that are pruned are said to be clear: which they were is not kept.
impl<D: Digest, const N: usize, M: State<D>> BitmapReadable<N> for BitMap<D, N, M> {
    ghost use Rattle.state_theory.specs.Bits.{all_bits};
    ghost use Rattle.state_theory.specs.Laws.Bits.{pruned_in_all};

    ghost bits = { λ map. all_bits N map.bits };

    ghost pruned = { λ map. map.bits.pruned };

    fn len(&self) -> u64 {
        BitmapReadable::len(&self.bits)
    }

    fn pruned_chunks(&self) -> u64 {
        BitmapReadable::pruned_chunks(&self.bits)
    }

    fn get_chunk(&self, index: u64) -> [u8; N] {
        BitmapReadable::get_chunk(&self.bits, index)
    }

    ghost pruned_within = { λ map. pruned_in_all N map.bits };
}

impl<D: Digest, const N: usize> BitMap<D, N, Merkleized<D>> {
    /// No bits. It takes no memory yet (own). In the Rust: `bitmap::authenticated::BitMap::init`, of no partition.
    pub fn new<H: Hasher<Family, Digest = D>>(
        alloc: Global,
        hasher: &H,
    ) -> BitMap<D, N, Merkleized<D>>
        requires { IsChunkWidth N }
        ensures map { result ≡ record {
          bits = record { pruned = 0; kept = [] };
          tree = record { leaves = 0; boundary = 0; pinned = []; digests = [] };
          stage = merkleized (bitmap_root H.hash_of (H.leaf_of hasher.now) (H.node_of hasher.now)
              (H.bagging_of hasher.now) N []);
        } }
        ensures of_list { IsMapOf (H.leaf_of hasher.now) (H.node_of hasher.now) N [] result }
    {
        let bits = Prunable::new(alloc);
        let tree = Mem::new(alloc);
        let root = root_over(hasher, &bits, &tree);
        BitMap {
            alloc,
            bits,
            tree,
            state: Merkleized { root },
        }
    }

    /// The map of so many pruned chunks, and no other bits, of which these are the digests of the pinned nodes, from
    /// left to right. Where there cannot be as many chunks: M21; then, where there are too few or too many digests:
    /// M12; out of memory: M23. Of which list of bits it is a map is for the caller to know (own).
    /// In the Rust: `bitmap::authenticated::BitMap::init`, out of a partition.
    pub fn from_pruned<H: Hasher<Family, Digest = D>>(
        alloc: Global,
        hasher: &H,
        chunks: u64,
        digests: &[D],
    ) -> Result<BitMap<D, N, Merkleized<D>>, Error>
        requires { IsChunkWidth N }
        ensures bits { IfOk result (λ made. made.bits ≡ pruned_bits chunks) }
        ensures tree { IfOk result (λ made. made.tree ≡ pruned_tree chunks (map D.encoding digests.now)) }
        ensures root { IfOk result (λ made. made.stage
            ≡ merkleized (map_root H.hash_of (H.bagging_of hasher.now) N made.bits made.tree)) }
        ensures of_list { (leaf_of : LeafHash) (node_of : NodeHash) (all : List Bool) → length all ≡ 8 * N * chunks
            → map D.encoding digests.now ≡ chunk_peaks leaf_of node_of N all
            → IfOk result (λ made. IsMapOf leaf_of node_of N all made) }
        ensures root_of_list { (all : List Bool) → length all ≡ 8 * N * chunks
            → map D.encoding digests.now ≡ chunk_peaks (H.leaf_of hasher.now) (H.node_of hasher.now) N all
            → IfOk result (λ made. made.stage ≡ merkleized (bitmap_root H.hash_of (H.leaf_of hasher.now)
            (H.node_of hasher.now) (H.bagging_of hasher.now) N all)) }
        // Where nobody has the pruned bits it is a map of any, by hashes that are others before its chunks alone.
        ensures begun { IfOk result (λ made. IsMapOf (pinned_leaf made.tree.pinned (H.leaf_of hasher.now))
            (pinned_hash made.tree.pinned (H.node_of hasher.now)) N (replicate (8 * N * chunks) false) made) }
        ensures alike { IfOk result (λ made. AreHashedAlike chunks
            (pinned_leaf made.tree.pinned (H.leaf_of hasher.now))
            (pinned_hash made.tree.pinned (H.node_of hasher.now)) (H.leaf_of hasher.now) (H.node_of hasher.now)) }
        ensures fits { OnOk result (CanBePruned N chunks) }
        ensures counted { OnOk result (length digests.now ≡ length (pinned_positions mmr_rule chunks)) }
        ensures refused { IfErr result (IsRefusalOfPruned N chunks (length digests.now)) }
    {
        if !can_be_pruned::<N>(chunks) {
            return Err(Error::DataCorrupted);
        }
        let tree = tree_of_pinned(alloc, chunks, digests)?;
        let bits = Prunable::new_with_pruned_chunks(alloc, chunks);
        let root = root_over(hasher, &bits, &tree);
        Ok(BitMap {
            alloc,
            bits,
            tree,
            state: Merkleized { root },
        })
    }

    /// How many chunks are pruned, and the digests of the nodes that stay pinned for them, from left to right: of them
    /// `from_pruned` makes the map of the pruned bits again (own). It fails only when out of memory.
    /// In the Rust: `bitmap::authenticated::MerkleizedBitMap::write_pruned`, into a partition.
    pub fn pruned_parts(&self) -> Result<(u64, Vec<D>), AllocError>
        ensures chunks { IfOk result (λ parts. parts.0 ≡ self.now.bits.pruned) }
        ensures digests { IfOk result (λ parts. ArePinned self.now.tree self.now.bits.pruned
            (map D.encoding parts.1.items)) }
        ensures of_list { (leaf_of : LeafHash) (node_of : NodeHash) (all : List Bool)
            → IsMapOf leaf_of node_of N all self.now
            → IfOk result (λ parts. map D.encoding parts.1.items
            ≡ chunk_peaks leaf_of node_of N (take (8 * N * self.now.bits.pruned) all)) }
    {
        let digests = pinned_digests(self.alloc, &self.tree)?;
        Ok((self.bits.pruned_chunks(), digests))
    }

    /// The digest of the node of the tree at a position. Where no node stands there, or it is pruned, it is None; a
    /// pinned one is there.
    /// In the Rust: `bitmap::authenticated::MerkleizedBitMap::get_node`.
    pub fn get_node(&self, position: Position) -> Option<D>
        ensures { option_map D.encoding result ≡ node_at mmr_rule self.now.tree position }
    {
        self.tree.get_node(position)
    }

    /// The root. In the Rust: `bitmap::authenticated::MerkleizedBitMap::root`.
    pub fn root(&self) -> D
        ensures { self.now.stage ≡ merkleized (D.encoding result) }
    {
        self.state.root
    }

    /// The same map, which may now be changed. It takes no memory yet.
    /// In the Rust: `bitmap::authenticated::MerkleizedBitMap::into_dirty`.
    pub fn into_dirty(self) -> BitMap<D, N, Unmerkleized>
        ensures { result ≡ record self { stage = changed [] } }
    {
        BitMap {
            alloc: self.alloc,
            bits: self.bits,
            tree: self.tree,
            state: Unmerkleized {
                chunks: BTreeSet::new(self.alloc),
            },
        }
    }

    /// The proof of a bit that is not pruned, and the chunk with it; it is one of each bit of the chunk. The proof's
    /// leaves are bits. Past the bits: M22 with the bit and how many bits there are; out of memory: M23.
    /// In the Rust: `bitmap::authenticated::MerkleizedBitMap::proof`.
    pub fn proof<H: Hasher<Family, Digest = D>>(
        &self,
        hasher: &H,
        bit: u64,
    ) -> Result<(Proof<Family, D>, [u8; N]), Error>
        requires { 8 * N * self.now.bits.pruned ≤ bit }
        ensures there { OnOk result (bit < bit_count N self.now.bits) }
        ensures leaves { IfOk result (λ it. it.0.leaves ≡ bit_count N self.now.bits) }
        ensures inactive { IfOk result (λ it. it.0.inactive_peaks ≡ 0) }
        ensures digests { (leaf_of : LeafHash) (node_of : NodeHash) (all : List Bool)
            → IsMapOf leaf_of node_of N all self.now → IfOk result (λ it. map D.encoding it.0.digests.items
            ≡ honest_bit_digests H.hash_of leaf_of node_of (H.bagging_of hasher.now) N all bit) }
        ensures chunk { IfOk result (λ it. it.1
            ≡ chunk_at N self.now.bits.kept (bit / (8 * N) - self.now.bits.pruned)) }
        ensures refused { IfErr result (IsRefusalOfBit (bit_count N self.now.bits) bit) }
    {
        let length = self.bits.len();
        if bit >= length {
            return Err(Error::BitOutOfBounds(bit, length));
        }
        let chunk = self.bits.get_chunk_containing(bit);
        let index = bit / self.bits.chunk_bits();
        let digests = bit_digests(self.alloc, hasher, &self.bits, &self.tree, index)?;
        let proof = Proof {
            leaves: Location::new(length),
            inactive_peaks: 0,
            digests,
        };
        Ok((proof, chunk))
    }

    /// Drops the full chunks before that of a bit, or before all others where the bit is the one after the last; the
    /// root stays. Where they are pruned already nothing changes. It fails only when out of memory: M23. The map then
    /// stays as it was.
    /// In the Rust: `bitmap::authenticated::MerkleizedBitMap::prune_to_bit`.
    pub fn prune_to_bit(&mut self, bit: u64) -> Result<(), Error>
        requires { bit ≤ bit_count N self.old.bits }
        ensures pruned { OnOk result (self.new ≡ record {
          bits = bits_before N self.old.bits (bit / (8 * N));
          tree = pruned_before mmr_rule self.old.tree (bit / (8 * N));
          stage = self.old.stage;
        }) }
        ensures of_list { (leaf_of : LeafHash) (node_of : NodeHash) (all : List Bool)
            → IsMapOf leaf_of node_of N all self.old → IsMapOf leaf_of node_of N all self.new }
        ensures refused { IfErr result (λ e. e ≡ Error.Memory) }
        ensures unchanged { OnErr result (self.new ≡ self.old) }
    {
        let chunk = bit / self.bits.chunk_bits();
        if chunk <= self.bits.pruned_chunks() {
            return Ok(());
        }
        if let Err(e) = self.tree.prune(Location::new(chunk)) {
            return Err(out_of_memory(e));
        }
        self.bits.prune_to_chunk(chunk);
        Ok(())
    }
}

/// The tree over the full chunks.
impl<D: Digest, const N: usize> Readable<Family> for BitMap<D, N, Merkleized<D>> {
    type Digest = D;

    ghost leaf_total = { λ map. map.tree.leaves };

    ghost digest_at = { λ map. node_at mmr_rule map.tree };

    fn leaf_count(&self) -> u64 {
        self.tree.leaf_count()
    }

    fn node_digest(&self, position: u64) -> Option<D> {
        self.tree.node_digest(position)
    }
}

// Remembers a chunk once, if it is one of those that have a leaf.
fn remember(chunks: &mut BTreeSet<u64>, leaves: u64, chunk: u64) -> Result<(), AllocError>
    ensures with { OnOk result (chunks.new.keys ≡ remembered leaves chunks.old.keys chunk) }
    ensures unchanged { OnErr result (chunks.new.keys ≡ chunks.old.keys) }
{
    if chunk >= leaves {
        return Ok(());
    }
    match chunks.insert(chunk) {
        Ok(_) => Ok(()),
        Err(_) => Err(AllocError),
    }
}

// The chunks of a set, in their order.
fn in_order(alloc: Global, chunks: BTreeSet<u64>) -> Result<Vec<u64>, AllocError>
    ensures { IfOk result (λ found. found.items ≡ chunks.keys) }
{
    chunks.into_iter().collect(alloc)
}

impl<D: Digest, const N: usize> BitMap<D, N, Unmerkleized> {
    /// Appends a bit. It fails only when out of memory; the map then stays as it was.
    /// In the Rust: `bitmap::authenticated::UnmerkleizedBitMap::push`.
    pub fn push(&mut self, bit: bool) -> Result<(), AllocError>
        requires { bit_count N self.old.bits < 2 ^ 62 }
        ensures pushed { OnOk result (self.new ≡ record self.old {
          bits = record self.old.bits { kept = self.old.bits.kept ++ bit ∷ [] };
        }) }
        ensures of_list { (leaf_of : LeafHash) (node_of : NodeHash) (all : List Bool)
            → IsMapOf leaf_of node_of N all self.old
            → OnOk result (IsMapOf leaf_of node_of N (all ++ bit ∷ []) self.new) }
        ensures unchanged { OnErr result (self.new ≡ self.old) }
    {
        self.bits.push(bit)
    }

    /// Appends the bits of these bytes, the least of each byte first. That the bits there fill their bytes is on the
    /// caller. It fails only when out of memory; the map then stays as it was. It is not in the Rust, where the bitmap
    /// below has `push_byte` and `push_chunk`.
    pub fn push_bytes(&mut self, bytes: &[u8]) -> Result<(), AllocError>
        requires aligned { bit_count N self.old.bits % 8 ≡ 0 }
        requires few { bit_count N self.old.bits + 8 * length bytes.now ≤ 2 ^ 62 }
        ensures pushed { OnOk result (self.new ≡ record self.old {
          bits = record self.old.bits { kept = self.old.bits.kept ++ bits_in bytes.now };
        }) }
        ensures of_list { (leaf_of : LeafHash) (node_of : NodeHash) (all : List Bool)
            → IsMapOf leaf_of node_of N all self.old
            → OnOk result (IsMapOf leaf_of node_of N (all ++ bits_in bytes.now) self.new) }
        ensures unchanged { OnErr result (self.new ≡ self.old) }
    {
        self.bits.push_bytes(bytes)
    }

    /// Sets or clears a bit that is there, and not pruned. It fails only when out of memory; the map then stays as it
    /// was.
    /// In the Rust: `bitmap::authenticated::UnmerkleizedBitMap::set_bit`, which refuses nothing.
    pub fn set_bit(&mut self, bit: u64, value: bool) -> Result<(), AllocError>
        requires kept { 8 * N * self.old.bits.pruned ≤ bit }
        requires there { bit < bit_count N self.old.bits }
        ensures bits { OnOk result (self.new.bits ≡ record self.old.bits {
          kept = slice_set self.old.bits.kept (bit - 8 * N * self.old.bits.pruned) value;
        }) }
        ensures tree { OnOk result (self.new.tree ≡ self.old.tree) }
        ensures of_list { (leaf_of : LeafHash) (node_of : NodeHash) (all : List Bool)
            → IsMapOf leaf_of node_of N all self.old
            → OnOk result (IsMapOf leaf_of node_of N (slice_set all bit value) self.new) }
        ensures unchanged { OnErr result (self.new ≡ self.old) }
    {
        let chunk = bit / self.bits.chunk_bits();
        let leaves = self.tree.leaves().as_u64();
        remember(&mut self.state.chunks, leaves, chunk)?;
        self.bits.set_bit(bit, value);
        Ok(())
    }

    /// The map with a leaf of each full chunk as it is now, and its root. It fails only when out of memory: M23. The
    /// map is then given up.
    /// In the Rust: `bitmap::authenticated::UnmerkleizedBitMap::merkleize`.
    pub fn merkleize<H: Hasher<Family, Digest = D>>(
        self,
        hasher: &H,
    ) -> Result<BitMap<D, N, Merkleized<D>>, Error>
        ensures bits { IfOk result (λ map. map.bits ≡ self.bits) }
        ensures root { IfOk result (λ map. map.stage
            ≡ merkleized (map_root H.hash_of (H.bagging_of hasher.now) N map.bits map.tree)) }
        ensures of_begun { (leaf_of : LeafHash) (node_of : NodeHash) (all : List Bool)
            → AreHashedAlike self.bits.pruned leaf_of node_of (H.leaf_of hasher.now) (H.node_of hasher.now)
            → IsMapOf leaf_of node_of N all self → IfOk result (λ map. IsMapOf leaf_of node_of N all map
            × (map.stage ≡ merkleized (bitmap_root H.hash_of leaf_of node_of (H.bagging_of hasher.now) N all))) }
        ensures of_list { (all : List Bool)
            → IsMapOf (H.leaf_of hasher.now) (H.node_of hasher.now) N all self
            → IfOk result (λ map. IsMapOf (H.leaf_of hasher.now) (H.node_of hasher.now) N all map) }
        ensures root_of_list { (all : List Bool)
            → IsMapOf (H.leaf_of hasher.now) (H.node_of hasher.now) N all self
            → IfOk result (λ map. map.stage ≡ merkleized (bitmap_root H.hash_of (H.leaf_of hasher.now)
            (H.node_of hasher.now) (H.bagging_of hasher.now) N all)) }
        ensures refused { IfErr result (λ e. e ≡ Error.Memory) }
    {
        let alloc = self.alloc;
        let bits = self.bits;
        let chunks = in_order(alloc, self.state.chunks)?;
        let tree = tree_over(hasher, &bits, self.tree, &chunks)?;
        let root = root_over(hasher, &bits, &tree);
        Ok(BitMap {
            alloc,
            bits,
            tree,
            state: Merkleized { root },
        })
    }
}
