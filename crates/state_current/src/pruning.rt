//! What is kept, with less before a location.

ghost use Rattle.std.specs.Prelude.{◌≡◌, ◌≤◌, ◌-◌, ◌*◌, ◌/◌, ◌^◌, ℕ, false, take, replicate, IfErr, OnOk, OnErr};
ghost use Rattle.state_theory.specs.Canonical.{State, setting_with};
ghost use Rattle.state_current.specs.Kept.{StandsFor, AreClearBefore};
ghost use Rattle.state_current.specs.Settled.{IsSettled, IsGreatestSettled};

use crate::current::Current;
use crate::settled::greatest_settled;
use merkle_core::error::Error;
use merkle_forest::hasher::HashFunction;
use merkle_forest::{Graftable, Location};

impl<F: Graftable, H: HashFunction, const N: usize> Current<F, H, N> {
    /// Prunes the chunks before one, which are settled and have no set bit: what is kept stands for the same state. Out
    /// of memory: M23, and it stays as it was (own).
    pub fn prune_to(&mut self, chunk: u64) -> Result<(), Error<F>>
        requires further { self.old.bits.pruned ≤ chunk }
        requires settled { (height : ℕ) → 8 * N ≡ 2 ^ height
            → IsSettled F.merge_rule height self.old.operations.leaves chunk }
        requires clear { AreClearBefore N self.old.bits (8 * N * chunk) }
        ensures pruned { OnOk result (self.new.bits.pruned ≡ chunk) }
        ensures stands { (height : ℕ) (state : State) → let setting = setting_with F.merge_rule H.hash_of N height in
            StandsFor setting state self.old → OnOk result (StandsFor setting state self.new) }
        ensures refused { IfErr result (λ e. e ≡ Error.Memory) }
        ensures unchanged { OnErr result (self.new ≡ self.old) }
    {
        let size = self.chunk_size();
        let _leaves = self.operations.leaves();
        let mut chunks = self.chunks.try_copy()?;
        chunks.prune(Location::new(chunk))?;
        self.operations.prune(Location::new(chunk * size.bits()))?;
        self.chunks = chunks;
        self.bits.prune_to_chunk(chunk);
        Ok(())
    }

    /// Prunes as many chunks before a location as are settled, where no bit before it is set: what is kept stands for
    /// the same state. None that is pruned comes back. Out of memory: M23, and it stays as it was.
    /// In the Rust: `qmdb::current::db::Db::prune`.
    pub fn prune(&mut self, location: Location<F>) -> Result<(), Error<F>>
        requires within { location ≤ self.old.operations.leaves }
        requires clear { AreClearBefore N self.old.bits location }
        ensures pruned { (height : ℕ) → 8 * N ≡ 2 ^ height
            → OnOk result (IsGreatestSettled F.merge_rule height self.old.operations.leaves self.old.bits.pruned
            (location / (8 * N)) self.new.bits.pruned) }
        ensures stands { (height : ℕ) (state : State) → let setting = setting_with F.merge_rule H.hash_of N height in
            StandsFor setting state self.old → OnOk result (StandsFor setting state self.new) }
        ensures refused { IfErr result (λ e. e ≡ Error.Memory) }
        ensures unchanged { OnErr result (self.new ≡ self.old) }
    {
        let size = self.chunk_size();
        let leaves = self.operations.leaves().as_u64();
        let pruned = self.bits.pruned_chunks();
        let limit = size.index_of(location.as_u64());
        let chunk = greatest_settled::<F>(leaves, pruned, limit, size.grafting_height);
        if chunk == pruned {
            return Ok(());
        }
        self.prune_to(chunk)
    }
}
