//! Hashers: the strings that are hashed, and SHA-256 after them.

ghost use Rattle.std.specs.Prelude.{◌≡◌, ◌<◌, ◌≤◌, ◌↔◌, ℕ, List, map, length, IsOk, IsErr, IfOk, IfErr};
ghost use Rattle.std.specs.List.{flat_map};
ghost use Rattle.sha2.specs.Sha256.{sha256};
ghost use Rattle.merkle_forest.specs.Laws.Hash.{length-sha256};
ghost use Rattle.merkle_forest.specs.declared.bagging.Bagging.{Bagging};
ghost use Rattle.merkle_forest.specs.Hashing.{leaf_string, node_string, fold_string, root_of, root_string, bagged};

use crate::bagging::Bagging;
use crate::codec::FixedBytes;
use crate::digest::Digest;
use crate::error::Error;
use crate::family::Family;
use crate::location::Location;
use crate::position::Position;
use crate::root::{root_of_items, root_of_peaks};
use sha2::Sha256;
use std::marker::PhantomData;

/// A hash function from bytes to digests. In the Rust: `commonware_cryptography::Hasher`.
pub trait HashFunction: Drop {
    /// The digests of the function. In the Rust: `commonware_cryptography::Hasher::Digest`.
    type Digest: Digest;

    /// The bytes of the digest of these bytes.
    ghost hash_of: { List ℕ → List ℕ };

    /// The digest of the parts, one after the other.
    fn hash(parts: &[&[u8]]) -> Self::Digest
        ensures { Self.Digest.encoding result ≡ hash_of (flat_map (λ part. part.now) parts.now) };

    ghost sized: { (bytes : List ℕ) → length (hash_of bytes) ≡ Self.Digest.SIZE };
}

/// SHA-256 (own). In the Rust `commonware_cryptography::Sha256` stands in its place.
#[derive(Clone, Copy, Debug)]
pub struct ByteHash;

impl HashFunction for ByteHash {
    type Digest = FixedBytes<32>;

    ghost hash_of = { sha256 };

    fn hash(parts: &[&[u8]]) -> FixedBytes<32> {
        use sha2::Digest;
        let mut hasher = Sha256::new();
        for part in parts {
            hasher.update(*part);
        }
        FixedBytes::new(hasher.finalize())
    }

    ghost sized = { length-sha256 };
}

/// The digest of a leaf's string: its position in 8 bytes, and the element (own).
pub fn hash_leaf<H: HashFunction>(position: u64, element: &[u8]) -> H::Digest
    ensures { H.Digest.encoding result ≡ H.hash_of (leaf_string position element.now) }
{
    H::hash(&[&position.to_be_bytes(), element])
}

/// The digest of a branch's string: its position in 8 bytes, and the digests of its children (own).
pub fn hash_node<H: HashFunction>(position: u64, left: &H::Digest, right: &H::Digest) -> H::Digest
    ensures { H.Digest.encoding result ≡ H.hash_of
        (node_string position (H.Digest.encoding left.now) (H.Digest.encoding right.now)) }
{
    H::hash(&[&position.to_be_bytes(), left.as_bytes(), right.as_bytes()])
}

/// A hasher of a tree's leaves, branches and roots. It says how a leaf and a branch are hashed; all else is the same
/// for every hasher.
/// In the Rust: `merkle::hasher::Hasher`, whose `leaf_digest`, `node_digest` and `node_digest_pair` a hasher may give
/// itself.
pub trait Hasher<F: Family>: Drop {
    /// The digests of leaves, branches and roots. In the Rust: `merkle::hasher::Hasher::Digest`.
    type Digest: Digest;

    /// The bytes of the digest of these bytes.
    ghost hash_of: { List ℕ → List ℕ };

    /// The bytes of the digest of a leaf, as this hasher makes it: position and element.
    ghost leaf_of: { Self → ℕ → List ℕ → List ℕ };

    /// The bytes of the digest of a branch, as this hasher makes it: position and the digests of its children.
    ghost node_of: { Self → ℕ → List ℕ → List ℕ → List ℕ };

    /// The side from which a root's peaks are folded.
    ghost bagging_of: { Self → Bagging };

    /// The digest of the parts, one after the other. In the Rust: `merkle::hasher::Hasher::hash`.
    fn hash(&self, parts: &[&[u8]]) -> Self::Digest
        ensures { Self.Digest.encoding result ≡ hash_of (flat_map (λ part. part.now) parts.now) };

    /// The side from which a root's peaks are folded. In the Rust: `merkle::hasher::Hasher::root_bagging`.
    fn root_bagging(&self) -> Bagging
        ensures { result ≡ bagging_of self.now };

    /// The digest of a leaf at its position (own).
    fn digest_of_leaf(&self, position: u64, element: &[u8]) -> Self::Digest
        ensures { Self.Digest.encoding result ≡ leaf_of self.now position element.now };

    /// The digest of a branch at its position over its children's digests (own).
    fn digest_of_branch(
        &self,
        position: u64,
        left: &Self::Digest,
        right: &Self::Digest,
    ) -> Self::Digest
        ensures { Self.Digest.encoding result ≡ node_of self.now position (Self.Digest.encoding left.now)
            (Self.Digest.encoding right.now) };

    /// The digest of a leaf at its position. In the Rust: `merkle::hasher::Hasher::leaf_digest`.
    final fn leaf_digest(&self, position: Position<F>, element: &[u8]) -> Self::Digest
    where
        Self: Sized,
        ensures { Self.Digest.encoding result ≡ leaf_of self.now position element.now }
    {
        self.digest_of_leaf(position.as_u64(), element)
    }

    /// The digest of a branch at its position over its children's digests.
    /// In the Rust: `merkle::hasher::Hasher::node_digest`.
    final fn node_digest(
        &self,
        position: Position<F>,
        left: &Self::Digest,
        right: &Self::Digest,
    ) -> Self::Digest
    where
        Self: Sized,
        ensures { Self.Digest.encoding result ≡ node_of self.now position (Self.Digest.encoding left.now)
            (Self.Digest.encoding right.now) }
    {
        self.digest_of_branch(position.as_u64(), left, right)
    }

    /// The digests of two branches, each at its position over its children's digests.
    /// In the Rust: `merkle::hasher::Hasher::node_digest_pair`, over an array of two nodes.
    final fn node_digest_pair(
        &self,
        first: (Position<F>, &Self::Digest, &Self::Digest),
        second: (Position<F>, &Self::Digest, &Self::Digest),
    ) -> (Self::Digest, Self::Digest)
    where
        Self: Sized,
        ensures first { Self.Digest.encoding result.0
            ≡ node_of self.now first.entry.0 (Self.Digest.encoding first.entry.1.now)
            (Self.Digest.encoding first.entry.2.now) }
        ensures second { Self.Digest.encoding result.1
            ≡ node_of self.now second.entry.0 (Self.Digest.encoding second.entry.1.now)
            (Self.Digest.encoding second.entry.2.now) }
    {
        (
            self.node_digest(first.0, first.1, first.2),
            self.node_digest(second.0, second.1, second.2),
        )
    }

    /// The digest of these bytes alone. In the Rust: `merkle::hasher::Hasher::digest`.
    final fn digest(&self, bytes: &[u8]) -> Self::Digest
    where
        Self: Sized,
        ensures { Self.Digest.encoding result ≡ hash_of bytes.now }
    {
        self.hash(&[bytes])
    }

    /// The digest into which two are folded, the left one first. In the Rust: `merkle::hasher::Hasher::fold`.
    final fn fold(&self, left: &Self::Digest, right: &Self::Digest) -> Self::Digest
    where
        Self: Sized,
        ensures { Self.Digest.encoding result ≡ hash_of
            (fold_string (Self.Digest.encoding left.now) (Self.Digest.encoding right.now)) }
    {
        self.hash(&[left.as_bytes(), right.as_bytes()])
    }

    /// The root over a tree's peaks from left to right, of which the first `inactive_peaks` are inactive. Where there
    /// are fewer: M16.
    /// In the Rust: `merkle::hasher::Hasher::root`, over an iterator of digests.
    final fn root(
        &self,
        leaves: Location<F>,
        inactive_peaks: usize,
        peak_digests: &[Self::Digest],
    ) -> Result<Self::Digest, Error<F>>
    where
        Self: Sized,
        ensures answered { IsOk result ↔ (inactive_peaks ≤ length peak_digests.now) }
        ensures root { IfOk result (λ root. Self.Digest.encoding root
            ≡ root_of hash_of (bagging_of self.now) leaves inactive_peaks (map Self.Digest.encoding peak_digests.now)) }
        ensures refused { IfErr result (λ e. e ≡ Error.InvalidInactivePeaks) }
    {
        if peak_digests.len() < inactive_peaks {
            return Err(Error::InvalidInactivePeaks);
        }
        Ok(root_of_peaks(self, leaves.as_u64(), inactive_peaks, peak_digests))
    }

    /// The root over a tree's items, which are its peaks, but that the inactive ones are folded into the first item.
    /// Where some are inactive and there is no item: M16.
    /// In the Rust: `merkle::hasher::Hasher::root_with_folded_peaks`, over an iterator of digests.
    final fn root_with_folded_peaks(
        &self,
        leaves: Location<F>,
        inactive_peaks: usize,
        items: &[Self::Digest],
    ) -> Result<Self::Digest, Error<F>>
    where
        Self: Sized,
        ensures answered { IsErr result ↔ ((0 < inactive_peaks) × (length items.now ≡ 0)) }
        ensures root { IfOk result (λ root. Self.Digest.encoding root
            ≡ hash_of (root_string (bagging_of self.now) leaves inactive_peaks
            (bagged hash_of (bagging_of self.now) (map Self.Digest.encoding items.now)))) }
        ensures refused { IfErr result (λ e. e ≡ Error.InvalidInactivePeaks) }
    {
        if items.is_empty() && inactive_peaks > 0 {
            return Err(Error::InvalidInactivePeaks);
        }
        Ok(root_of_items(self, leaves.as_u64(), inactive_peaks as u64, items))
    }
}

/// The hasher of plain trees: a leaf and a branch are hashed with their positions.
/// In the Rust: `merkle::hasher::Standard`.
#[derive(Clone, Copy, Debug)]
pub struct Standard<H> {
    bagging: Bagging,
    function: PhantomData<H>,
}

impl<H> Standard<H> {
    /// A hasher that folds peaks from this side. In the Rust: `merkle::hasher::Standard::new`.
    pub fn new(bagging: Bagging) -> Standard<H>
        ensures { result.bagging ≡ bagging }
    {
        Standard {
            bagging,
            function: PhantomData,
        }
    }
}

impl<F: Family, H: HashFunction> Hasher<F> for Standard<H> {
    type Digest = H::Digest;

    ghost hash_of = { H.hash_of };

    ghost leaf_of = { λ _ position element. H.hash_of (leaf_string position element) };

    ghost node_of = { λ _ position left right. H.hash_of (node_string position left right) };

    ghost bagging_of = { λ hasher. hasher.bagging };

    fn hash(&self, parts: &[&[u8]]) -> H::Digest {
        H::hash(parts)
    }

    fn root_bagging(&self) -> Bagging {
        self.bagging
    }

    fn digest_of_leaf(&self, position: u64, element: &[u8]) -> H::Digest {
        hash_leaf::<H>(position, element)
    }

    fn digest_of_branch(&self, position: u64, left: &H::Digest, right: &H::Digest) -> H::Digest {
        hash_node::<H>(position, left, right)
    }
}
