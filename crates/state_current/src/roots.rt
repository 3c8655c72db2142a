//! Roots of what is kept: of the operations' tree, of the grafted tree, and the canonical one over both.

ghost use Rattle.std.specs.Prelude.{◌≡◌, ℕ, option_map, IfSome};
ghost use Rattle.merkle_forest.specs.declared.bagging.Bagging.TheVariants.{BackwardFold};
ghost use Rattle.state_theory.specs.Canonical.{State, canonical_root, operations_root, grafted_root};
ghost use Rattle.state_theory.specs.Canonical.{pending_digest};
ghost use Rattle.state_theory.specs.Canonical.{partial_digest, setting_with};
ghost use Rattle.state_current.specs.Kept.{StandsFor, IsPendingAmong};

use crate::current::Current;
use crate::peaks::root_over_peaks;
use merkle_core::Mem;
use merkle_forest::hasher::{HashFunction, Hasher, Standard};
use merkle_forest::peaks::inactive_count;
use merkle_forest::{Bagging, Graftable, Location};
use state_proofs_parts::grafting::chunk_aligned_inactive_peaks;
use state_proofs_parts::grafting::storage::Storage;
use state_proofs_parts::seal::seal;

impl<F: Graftable, H: HashFunction, const N: usize> Current<F, H, N> {
    /// The root of the operations' tree. It takes no memory (own).
    pub fn root_of_operations(&self) -> H::Digest
        ensures { (height : ℕ) (state : State) → let setting = setting_with F.merge_rule H.hash_of N height in
            StandsFor setting state self.now → H.Digest.encoding result ≡ operations_root setting state }
    {
        let hasher: Standard<H> = Standard::new(Bagging::BackwardFold);
        let leaves = self.operations.leaves().as_u64();
        let inactive = inactive_count::<F>(leaves, self.floor);
        match self.operations.root(&hasher, inactive) {
            Ok(root) => root,
            Err(_) => unreachable!(),
        }
    }

    /// The root of the grafted tree. It takes no memory (own).
    pub fn root_of_grafted(&self) -> H::Digest
        ensures { (height : ℕ) (state : State) → let setting = setting_with F.merge_rule H.hash_of N height in
            StandsFor setting state self.now → H.Digest.encoding result ≡ grafted_root setting state }
    {
        let hasher: Standard<H> = Standard::new(Bagging::BackwardFold);
        let height = self.chunk_size().grafting_height;
        let leaves = self.operations.leaves();
        // Both trees have their shape, which the proof reads here.
        let _boundary = self.operations.pruning_boundary();
        let _chunks = self.chunks.pruning_boundary();
        let inactive = match chunk_aligned_inactive_peaks::<F>(
            leaves,
            Location::new(self.floor),
            height,
        ) {
            Ok(inactive) => inactive,
            Err(_) => unreachable!(),
        };
        let tree: Storage<'_, F, H, Mem<F, H::Digest>, Mem<F, H::Digest>> = Storage::new(
            &self.chunks,
            height,
            &self.operations,
        );
        root_over_peaks(&hasher, leaves.as_u64(), &tree, inactive)
    }

    /// The digest of the full chunk that has no node yet, if any. It takes no memory (own).
    pub fn pending_digest(&self) -> Option<H::Digest>
        ensures digest { (height : ℕ) (state : State) → let setting = setting_with F.merge_rule H.hash_of N height in
            StandsFor setting state self.now → option_map H.Digest.encoding result ≡ pending_digest setting state }
        ensures some { IfSome result (λ digest. IsPendingAmong F.merge_rule N self.now.operations.leaves H.Digest.SIZE
            (H.Digest.encoding digest)) }
    {
        let full = self.chunk_size().full_chunks(self.bits.len());
        let graftable = self.chunks.leaves().as_u64();
        let _boundary = self.chunks.pruning_boundary();
        if graftable >= full {
            return None;
        }
        Some(H::hash(&[self.bits.get_chunk(graftable)]))
    }

    /// The digest of the chunk that the last bits fill in part, if any. It takes no memory (own).
    pub fn partial_digest(&self) -> Option<H::Digest>
        ensures { (height : ℕ) (state : State) → let setting = setting_with F.merge_rule H.hash_of N height in
            StandsFor setting state self.now → option_map H.Digest.encoding result ≡ partial_digest setting state }
    {
        let size = self.chunk_size();
        let count = self.bits.len();
        if size.bit_of(count) == 0 {
            return None;
        }
        Some(H::hash(&[self.bits.get_chunk(size.full_chunks(count))]))
    }

    /// The canonical root of the state. It takes no memory. In the Rust: `qmdb::current::db::Db::root`.
    pub fn root(&self) -> H::Digest
        ensures { (height : ℕ) (state : State) → let setting = setting_with F.merge_rule H.hash_of N height in
            StandsFor setting state self.now → H.Digest.encoding result ≡ canonical_root setting state }
    {
        let operations = self.root_of_operations();
        let grafted = self.root_of_grafted();
        let pending = self.pending_digest();
        let partial = self.partial_digest();
        let next = self.chunk_size().bit_of(self.bits.len());
        seal::<H>(&operations, &grafted, &pending, next, &partial)
    }
}
