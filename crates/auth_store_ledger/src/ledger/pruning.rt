//! How far what is kept of a history is pruned.

ghost use Rattle.std.specs.Prelude.{◌≡◌, ◌≤◌, List, IfOk, IfErr, OnErr};
ghost use Rattle.auth_store_ledger.specs.History.{history_of};
ghost use Rattle.auth_store_ledger.specs.Store.{IsLedgerOf, IsPrunedUpTo, floor_of, setting_of_width};
ghost use Rattle.auth_store_log.specs.Records.{format_of};
ghost use Rattle.state_ops.specs.Operation as meaning;

use super::Ledger;
use crate::error::LedgerError;
use merkle_forest::{Graftable, HashFunction, Location};
use state_ops::{FixedKey, FixedValue};

impl<F: Graftable, H: HashFunction, K: FixedKey, V: FixedValue, const N: usize> Ledger<
    F,
    H,
    K,
    V,
    N,
> {
    /// How many chunks are pruned.
    pub fn pruned_chunks(&self) -> u64
        ensures { result ≡ self.now.kept.bits.pruned }
    {
        self.current.pruned_chunks()
    }

    /// Prunes up to a location, not past the floor, and answers how many chunks are pruned then: the greatest settled
    /// number of chunks that end by the location, but no fewer than before. It fails only when out of memory, and all
    /// stays as it was then.
    pub fn prune(&mut self, location: u64) -> Result<u64, LedgerError>
        requires { (log : List meaning.Operation) × IsLedgerOf (setting_of_width F.merge_rule H.hash_of N)
            (format_of (K.after tt) (V.after tt) K.SIZE V.SIZE) log self.old × (location ≤ floor_of (history_of log)) }
        ensures of { (log : List meaning.Operation) → let setting = setting_of_width F.merge_rule H.hash_of N in
            let format = format_of (K.after tt) (V.after tt) K.SIZE V.SIZE in
            IsLedgerOf setting format log self.old → IfOk result (λ chunks. IsLedgerOf setting format log self.new
            × IsPrunedUpTo setting (history_of log) self.old.kept.bits.pruned location chunks) }
        ensures pruned { IfOk result (λ chunks. self.new.kept.bits.pruned ≡ chunks) }
        ensures refused { IfErr result (λ e. e ≡ LedgerError.Memory) }
        ensures unchanged { OnErr result (self.new ≡ self.old) }
    {
        match self.current.prune(Location::new(location)) {
            Ok(()) => {}
            Err(_) => return Err(LedgerError::Memory),
        }
        Ok(self.current.pruned_chunks())
    }
}
