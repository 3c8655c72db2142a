//! A store on a disk that fails.

ghost use Rattle.std.specs.Prelude.{◌≡◌, ◌⊎◌, ◌+◌, ◌≤◌, ◌<◌, max, length, option_map, Ok, Err, None, Some, true};
ghost use Rattle.std.specs.Prelude.{is_some, IfOk, IfErr, OnOk, OnErr, IsFalse, MatchResult};
ghost use Rattle.paged_blob_parts.specs.Moments.{Grows};
ghost use Rattle.paged_blob.specs.Completed.{completed_syncs};
ghost use Rattle.auth_store_parts.specs.Batch as words;
ghost use Rattle.auth_store_parts.specs.History.{History, latest_map, log_of};
ghost use Rattle.auth_store_parts.specs.Map.{value_at};
ghost use Rattle.auth_store_device.specs.Devices.{after_asking, is_cut, log_fault};
ghost use Rattle.auth_store_device.specs.Logs.{has_log, HasOwnHeader};
ghost use Rattle.auth_store_client.specs.Claims.{terms};
ghost use Rattle.auth_store_proving.specs.Proving.{IsAccepted, honest_answer};
ghost use Rattle.auth_store_proving.specs.Proving.{IsAcceptedOperation, IsAcceptedRange, IsAcceptedSlice};
ghost use Rattle.auth_store_proving.specs.ProvingCode.{key_answer_of, operation_answer_of, range_answer_of};
ghost use Rattle.auth_store_proving.specs.ProvingCode.{slice_answer_of};
ghost use Rattle.auth_store_ledger.specs.Store.{IsChunkWidth, IsPrunedUpTo, floor_of, root_of_history};
ghost use Rattle.auth_store_ledger.specs.Store.{setting_of_width};
ghost use Rattle.auth_store_log.specs.Records.{format_of};
ghost use Rattle.auth_store_machine.specs.Machine.{machine, proof_of, refusal_of, Leaves, MayRefuseRead, State};
ghost use Rattle.auth_store_machine.specs.Machine.{of_operation, of_range, of_slice, operation_is, range_is, slice_is};
ghost use Rattle.auth_store_machine.specs.Reads.{IsLiveOn, live_on};
ghost use Rattle.auth_store_machine.specs.Sound.{IsSoundState};
ghost use Rattle.auth_store_machine.specs.Standing.{AnswersProof, Commits, IsOpenError, IsOpenedThrough, IsRecovered};
ghost use Rattle.auth_store_machine.specs.Standing.{IsShownThrough, StandsFor};
ghost use Rattle.auth_store_machine.specs.Standing.{power_of, result_of, shown_of};
ghost use Rattle.auth_store_machine.specs.Stores.{HasBuffer, IsCache, IsLiveAt, OpeningsShow, with_pruned};

use crate::sizes::Sizes;
use auth_store_device::Device;
use auth_store_ledger::Batch;
use auth_store_live::live::{
    Live, commit_live, get_live, prove_key_live, prove_log_live, prove_operation_live,
    prove_range_live, prune_live, recover_live,
};
use auth_store_machine::StoreError;
use auth_store_proving::{KeyProof, ProvedOperation, ProvedRange, ProvedSlice};
use fault_storage::Config;
use merkle_forest::{Graftable, HashFunction, PendingOf};
use paged_blob::CacheRef;
use rand_core::Rng;
use state_ops::{FixedKey, FixedValue};
use std::alloc::Global;
use std::marker::Model;

/// A history on a device, read through a cache. While it has not failed, what is durable of the device's log is the
/// history's log, and the history stands nowhere else; a failed one can only be taken apart. Its type names the
/// generator that the device draws of, the tree's family, the hash function, the types of keys and values, and how many
/// bytes a chunk has (own).
#[derive(Drop)]
pub struct Store<
    R: Rng,
    F: Graftable,
    H: HashFunction,
    K: FixedKey,
    V: FixedValue,
    const N: usize,
> {
    alloc: Global,
    device: Device<R>,
    cache: CacheRef,
    live: Option<Live<F, H, K, V, N>>,
    pruned: u64,
}

impl<R: Rng, F: Graftable, H: HashFunction, K: FixedKey, V: FixedValue, const N: usize> Model
    for Store<R, F, H, K, V, N> {
    ghost use Rattle.std.specs.Prelude.{◌≡◌, IfSome, is_some, true};
    ghost use Rattle.auth_store_ledger.specs.Store.{IsChunkWidth, setting_of_width};
    ghost use Rattle.auth_store_log.specs.Records.{format_of};
    ghost use Rattle.auth_store_machine.specs.Reads.{IsLiveOn, seen_on};
    ghost use Rattle.auth_store_machine.specs.Stores.{IsCache, StoreState};

    ghost Value = { StoreState R };

    ghost view = { λ s. record {
      device = s.device;
      cache = s.cache;
      live = seen_on (format_of (K.after tt) (V.after tt) K.SIZE V.SIZE) s.device.calls s.live;
      pruned = s.pruned;
    } };

    ghost invariant = { λ s. IsChunkWidth N × (is_some s.device.log ≡ true) × IsCache s.cache
        × IfSome s.live (IsLiveOn (setting_of_width F.merge_rule H.hash_of N)
        (format_of (K.after tt) (V.after tt) K.SIZE V.SIZE) s.device.calls s.cache)
        × IfSome s.live (λ now. now.ledger.kept.bits.pruned ≡ s.pruned) };
}

/// A store that was not opened: why, and the device, closed, and the cache (own).
#[derive(Debug, Drop)]
pub struct NotOpened<R: Rng> {
    /// Why.
    pub error: StoreError,
    /// The device, which is closed.
    pub device: Device<R>,
    /// The cache.
    pub cache: CacheRef,
}

// Opens the device's log, and takes the history whose log is recovered of it. After a refusal the log may be open.
fn open_live<R, F, H, K, V, const N: usize>(
    alloc: Global,
    device: &mut Device<R>,
    cache: &mut CacheRef,
    capacity: usize,
) -> Result<Live<F, H, K, V, N>, StoreError>
where
    R: Rng + Drop,
    F: Graftable + PendingOf<H::Digest>,
    H: HashFunction,
    K: FixedKey,
    V: FixedValue,
    requires width { IsChunkWidth N }
    requires closed { device.old.log ≡ None }
    requires cache { IsCache cache.old }
    ensures live { let format = format_of (K.after tt) (V.after tt) K.SIZE V.SIZE in
        IfOk result (IsLiveOn (setting_of_width F.merge_rule H.hash_of N) format device.new.calls cache.new) }
    ensures recovers { let format = format_of (K.after tt) (V.after tt) K.SIZE V.SIZE in
        IfOk result (λ live. IsRecovered format (cache.old.page_size + 12) (shown_of device.old)
        (live_on format device.new.calls live).history) }
    ensures whole { IfOk result (λ live. live.ledger.kept.bits.pruned ≡ 0) }
    ensures capacity { IfOk result (λ live. live.writer.tip.capacity ≡ max capacity (cache.old.page_size + 12)) }
    ensures shown { let format = format_of (K.after tt) (V.after tt) K.SIZE V.SIZE in
        OnOk result (IsShownThrough format (cache.old.page_size + 12) (shown_of device.old) device.old.calls
        device.new.calls) }
    ensures uncut { OnOk result (IsFalse (is_cut device.old.left)) }
    ensures fine { OnOk result (has_log device.old.storage.inner ≡ true
        → log_fault device.old.storage.inner ≡ None) }
    ensures is_open { OnOk result (is_some device.new.log ≡ true) }
    ensures any_moment { let format = format_of (K.after tt) (V.after tt) K.SIZE V.SIZE in
        IsOpenedThrough format (cache.old.page_size + 12) (shown_of device.old) device.old.calls device.new.calls }
    ensures header { HasOwnHeader device.old.storage.inner → HasOwnHeader device.new.storage.inner }
    ensures settings { device.new.storage.config ≡ device.old.storage.config }
    ensures leaves { Leaves 1 (refusal_of result) (power_of device.old cache.old) (power_of device.new cache.new) }
    ensures cache { IsCache cache.new }
    ensures page_size { cache.new.page_size ≡ cache.old.page_size }
    ensures refused { let format = format_of (K.after tt) (V.after tt) K.SIZE V.SIZE in
        let m = machine F.merge_rule H.hash_of F.pending_encoding N K.SIZE V.SIZE (cache.old.page_size + 12) in
        IfErr result (IsOpenError m format device.old cache.old device.new cache.new) }
{
    let count = device.open()?;
    let recovered = recover_live::<Device<R>, F, H, K, V, N>(alloc, device, cache, count, capacity);
    device.open_log_has_own_header();
    device.refuses_only_under_a_cut();
    let live = recovered?;
    Ok(live)
}

impl<R, F, H, K, V, const N: usize> Store<R, F, H, K, V, N>
where
    R: Rng + Drop,
    F: Graftable + PendingOf<H::Digest>,
    H: HashFunction,
    K: FixedKey,
    V: FixedValue,
{
    /// Opens the log of a closed device, recovers it, and takes the history whose log it is; an empty log is begun.
    /// S12: the log's header is refused. S5: what is recovered is the log of no history. S1 to S4 where a fault was
    /// injected, a cut stands, a number ends, or out of memory; device and cache are then given back. So many bytes as
    /// `sizes` says wait to be written at most, a page's at least.
    pub fn open(
        alloc: Global,
        device: Device<R>,
        cache: CacheRef,
        sizes: Sizes,
    ) -> Result<Store<R, F, H, K, V, N>, NotOpened<R>>
        requires width { IsChunkWidth N }
        requires closed { device.log ≡ None }
        requires cache { IsCache cache }
        ensures recovers { let format = format_of (K.after tt) (V.after tt) K.SIZE V.SIZE in
            IfOk result (λ store. (history : History) × IsLiveAt store history
            × IsRecovered format (cache.page_size + 12) (shown_of device) history) }
        ensures whole { IfOk result (λ store. store.pruned ≡ 0) }
        ensures buffer { IfOk result (λ store. HasBuffer (max sizes.write_buffer (cache.page_size + 12)) store) }
        ensures shown { let format = format_of (K.after tt) (V.after tt) K.SIZE V.SIZE in
            IfOk result (λ store. IsShownThrough format (cache.page_size + 12) (shown_of device) device.calls
            store.device.calls) }
        ensures uncut { OnOk result (IsFalse (is_cut device.left)) }
        ensures fine { OnOk result (has_log device.storage.inner ≡ true → log_fault device.storage.inner ≡ None) }
        ensures page_size { IfOk result (λ store. store.cache.page_size ≡ cache.page_size) }
        ensures closed { IfErr result (λ refused. refused.device.log ≡ None) }
        ensures kept { let format = format_of (K.after tt) (V.after tt) K.SIZE V.SIZE in
            IfErr result (λ refused. IsOpenedThrough format (cache.page_size + 12) (shown_of device) device.calls
            refused.device.calls) }
        ensures header { IfErr result (λ refused. HasOwnHeader device.storage.inner
            → HasOwnHeader refused.device.storage.inner) }
        ensures settings { MatchResult result (λ store. store.device.storage.config ≡ device.storage.config)
            (λ refused. refused.device.storage.config ≡ device.storage.config) }
        ensures leaves { MatchResult result
            (λ store. Leaves 1 None (power_of device cache) (power_of store.device store.cache))
            (λ refused. Leaves 1 (Some refused.error) (power_of device cache) (power_of refused.device refused.cache)) }
        ensures cache { IfErr result (λ refused. IsCache refused.cache
            × (refused.cache.page_size ≡ cache.page_size)) }
        ensures refused { let format = format_of (K.after tt) (V.after tt) K.SIZE V.SIZE in
            let m = machine F.merge_rule H.hash_of F.pending_encoding N K.SIZE V.SIZE (cache.page_size + 12) in
            IfErr result (λ refused. IsOpenError m format device cache refused.device refused.cache refused.error) }
    {
        let mut device = device;
        let mut cache = cache;
        match open_live(alloc, &mut device, &mut cache, sizes.write_buffer) {
            Ok(live) => Ok(Store {
                alloc,
                device,
                cache,
                live: Some(live),
                pruned: 0,
            }),
            Err(error) => {
                device.close();
                Err(NotOpened {
                    error,
                    device,
                    cache,
                })
            }
        }
    }

    /// The law that each history for which an open store stands is sound (own).
    pub(crate) fn stands_for_sound_histories(&self)
        ensures { let format = format_of (K.after tt) (V.after tt) K.SIZE V.SIZE in (state : State)
            → StandsFor format None (Some self.now) state → IsSoundState format state }
    {
        let _ = &self.live;
    }

    /// Takes a batch with its commit into the history, makes it durable, and answers the new root. S3: a number would
    /// pass its type, or the log 2 to the 62 operations; S4: out of memory; S1: a fault was injected; S2: a cut stands.
    /// Refused before anything is appended, as by a read, or where the log would pass 2 to the 62 operations, the store
    /// is as it was; refused later, by a write or a sync, it has failed, and openings show the batch wholly or not at
    /// all. S6: it had failed, and has still.
    pub fn commit(
        &mut self,
        batch: Batch<K, V>,
        metadata: Option<V>,
    ) -> Result<H::Digest, StoreError>
        ensures commits { let format = format_of (K.after tt) (V.after tt) K.SIZE V.SIZE in
            let size = self.old.cache.page_size + 12 in
            let m = machine F.merge_rule H.hash_of F.pending_encoding N K.SIZE V.SIZE size in
            let said = words.meanings K.encoding V.encoding batch.words.items in
            (history : History) → IsLiveAt self.old history
            → Commits m format said (option_map V.encoding metadata) history self.old
            (result_of H.Digest.encoding result) self.new }
        ensures failed { self.old.live ≡ None → (result ≡ Err StoreError.Failed) × (self.new ≡ self.old) }
        ensures pruned { self.new.pruned ≡ self.old.pruned }
        ensures page_size { self.new.cache.page_size ≡ self.old.cache.page_size }
        ensures settings { self.new.device.storage.config ≡ self.old.device.storage.config }
        ensures leaves { Leaves 0 (refusal_of result) (power_of self.old.device self.old.cache)
            (power_of self.new.device self.new.cache) }
        // Refused, no sync was completed: all that may refuse a batch, want of memory too, comes before.
        ensures unsynced { OnErr result (completed_syncs self.new.device.calls
            ≡ completed_syncs self.old.device.calls) }
        ensures grows { Grows self.old.device.calls self.new.device.calls }
    {
        let answer = commit_live(
            self.alloc,
            &mut self.live,
            &mut self.device,
            &mut self.cache,
            batch,
            metadata,
        );
        self.device.refuses_only_under_a_cut();
        answer
    }

    /// The value of the key in the latest state, read from the log through the cache, or `None` where there is none.
    /// S1 to S4 where a fault was injected, a cut stands, a count has ended, or out of memory; the store then stays
    /// open. S6: it had failed.
    pub fn get(&mut self, key: &K) -> Result<Option<V>, StoreError>
        ensures found { (history : History) → IsLiveAt self.old history → IfOk result (λ found.
            option_map V.encoding found ≡ value_at (latest_map history) (K.encoding key.now)) }
        ensures refused { (history : History) → IsLiveAt self.old history → IfErr result (MayRefuseRead
            (power_of self.old.device self.old.cache) (power_of self.new.device self.new.cache)) }
        ensures stays { (history : History) → IsLiveAt self.old history → IsLiveAt self.new history }
        ensures failed { self.old.live ≡ None → (result ≡ Err StoreError.Failed) × (self.new ≡ self.old) }
        ensures pruned { self.new.pruned ≡ self.old.pruned }
        ensures page_size { self.new.cache.page_size ≡ self.old.cache.page_size }
        ensures settings { self.new.device.storage.config ≡ self.old.device.storage.config }
        ensures leaves { Leaves 0 (refusal_of result) (power_of self.old.device self.old.cache)
            (power_of self.new.device self.new.cache) }
        ensures calls { self.new.device.calls ≡ self.old.device.calls }
    {
        let Some(live) = &self.live else {
            return Err(StoreError::Failed);
        };
        let answer = get_live(self.alloc, live, &mut self.device, &mut self.cache, key);
        self.device.refuses_only_under_a_cut();
        answer
    }

    /// The root of the history. S6: the store has failed.
    pub fn root(&self) -> Result<H::Digest, StoreError>
        ensures root { let size = self.now.cache.page_size + 12 in
            let m = machine F.merge_rule H.hash_of F.pending_encoding N K.SIZE V.SIZE size in
            (history : History) → IsLiveAt self.now history → result_of H.Digest.encoding result
            ≡ Ok (root_of_history m.setting K.SIZE V.SIZE history) }
        ensures failed { self.now.live ≡ None → result ≡ Err StoreError.Failed }
        ensures err { IfErr result (λ e. e ≡ StoreError.Failed) }
    {
        let live = self.live.as_ref().ok_or(StoreError::Failed)?;
        Ok(live.ledger.root())
    }

    /// How many commits the history has. S6: the store has failed.
    pub fn commits(&self) -> Result<u64, StoreError>
        ensures count { (history : History) → IsLiveAt self.now history → result ≡ Ok (length history) }
        ensures failed { self.now.live ≡ None → result ≡ Err StoreError.Failed }
        ensures err { IfErr result (λ e. e ≡ StoreError.Failed) }
    {
        let live = self.live.as_ref().ok_or(StoreError::Failed)?;
        Ok(live.ledger.commits())
    }

    /// The floor that the last commit of the log records: the location of an operation. S6: the store has failed.
    pub fn floor(&self) -> Result<u64, StoreError>
        ensures floor { (history : History) → IsLiveAt self.now history → result ≡ Ok (floor_of history) }
        ensures failed { self.now.live ≡ None → result ≡ Err StoreError.Failed }
        ensures err { IfErr result (λ e. e ≡ StoreError.Failed) }
    {
        let live = self.live.as_ref().ok_or(StoreError::Failed)?;
        Ok(live.ledger.floor())
    }

    /// How many operations the log has. S6: the store has failed.
    pub fn len(&self) -> Result<u64, StoreError>
        ensures count { (history : History) → IsLiveAt self.now history → result ≡ Ok (length (log_of history)) }
        ensures failed { self.now.live ≡ None → result ≡ Err StoreError.Failed }
        ensures err { IfErr result (λ e. e ≡ StoreError.Failed) }
    {
        let live = self.live.as_ref().ok_or(StoreError::Failed)?;
        Ok(live.ledger.len())
    }

    /// Prunes the chunks that are settled and end by the location, and answers how many are pruned then: no fewer than
    /// before. Root, values and proofs of keys stay as they were, and what led to the pruned ones alone is let go. S6:
    /// the store has failed. S7: the location stands past the floor. S4: out of memory.
    pub fn prune(&mut self, location: u64) -> Result<u64, StoreError>
        ensures ok { let setting = setting_of_width F.merge_rule H.hash_of N in
            (history : History) → IsLiveAt self.old history → IfOk result (λ chunks. (self.new.pruned ≡ chunks)
            × (location ≤ floor_of history) × IsPrunedUpTo setting history self.old.pruned location chunks) }
        ensures past { (history : History) → IsLiveAt self.old history
            → IfErr result (λ e. ((e ≡ StoreError.PastFloor) × (floor_of history < location))
            ⊎ ((e ≡ StoreError.Memory) × (location ≤ floor_of history))) }
        ensures failed { self.old.live ≡ None → result ≡ Err StoreError.Failed }
        ensures rest { OnOk result (self.new ≡ record self.old {
          live = with_pruned self.old.live self.new.pruned;
          pruned = self.new.pruned;
        }) }
        ensures kept { OnErr result (self.new ≡ self.old) }
        ensures err { IfErr result (λ e. (e ≡ StoreError.PastFloor) ⊎ (e ≡ StoreError.Memory)
            ⊎ (e ≡ StoreError.Failed)) }
    {
        match prune_live(&mut self.live, location) {
            Ok(chunks) => {
                self.pruned = chunks;
                Ok(chunks)
            }
            Err(error) => Err(error),
        }
    }

    /// The value of the key, or that it is absent, and the honest bytes that prove it under the root of this moment:
    /// the client accepts them. S1 to S4 where a fault was injected into a read, a cut stands, a count has ended, or
    /// out of memory; the store then stays open. S6: it had failed.
    pub fn prove_key(&mut self, key: &K) -> Result<KeyProof<V>, StoreError>
        ensures proof { let size = self.old.cache.page_size + 12 in
            let m = machine F.merge_rule H.hash_of F.pending_encoding N K.SIZE V.SIZE size in
            (history : History) → IsLiveAt self.old history → IfOk result (λ found.
            key_answer_of V.encoding found
            ≡ honest_answer m.pending m.setting K.SIZE V.SIZE history (K.encoding key.now)) }
        ensures shown { let terms = terms F.merge_rule H.hash_of N H.Digest.SIZE F.is_pending F.pending_encoding
            (K.after tt) (V.after tt) K.SIZE V.SIZE in
            let setting = setting_of_width F.merge_rule H.hash_of N in
            (history : History) → IsLiveAt self.old history → IfOk result (λ found. IsAccepted terms
            (root_of_history setting K.SIZE V.SIZE history) (K.encoding key.now) (key_answer_of V.encoding found)) }
        ensures refused { (history : History) → IsLiveAt self.old history → IfErr result (MayRefuseRead
            (power_of self.old.device self.old.cache) (power_of self.new.device self.new.cache)) }
        ensures stays { (history : History) → IsLiveAt self.old history → IsLiveAt self.new history }
        ensures failed { self.old.live ≡ None → (result ≡ Err StoreError.Failed) × (self.new ≡ self.old) }
        ensures pruned { self.new.pruned ≡ self.old.pruned }
        ensures page_size { self.new.cache.page_size ≡ self.old.cache.page_size }
        ensures settings { self.new.device.storage.config ≡ self.old.device.storage.config }
        ensures leaves { Leaves 0 (refusal_of result) (power_of self.old.device self.old.cache)
            (power_of self.new.device self.new.cache) }
        ensures calls { self.new.device.calls ≡ self.old.device.calls }
    {
        let Some(live) = &self.live else {
            return Err(StoreError::Failed);
        };
        let (device, cache) = (&mut self.device, &mut self.cache);
        let answer = prove_key_live(self.alloc, live, device, cache, key);
        self.device.refuses_only_under_a_cut();
        answer
    }

    /// The operation at a location, and the honest bytes that prove it active under the root of this moment: the client
    /// accepts them. S9: the log has no such operation. S10: its chunk is pruned. S8: it is not active. S1 to S4 where
    /// a fault was injected into a read, a cut stands, a count has ended, or out of memory; the store then stays open.
    /// S6: it had failed.
    pub fn prove_operation(&mut self, location: u64) -> Result<ProvedOperation<F, K, V>, StoreError>
        ensures proof { let size = self.old.cache.page_size + 12 in
            let m = machine F.merge_rule H.hash_of F.pending_encoding N K.SIZE V.SIZE size in
            (history : History) → IsLiveAt self.old history
            → AnswersProof (power_of self.old.device self.old.cache) (power_of self.new.device self.new.cache)
            (λ proved. operation_is (operation_answer_of K.encoding V.encoding proved))
            (proof_of m history self.old.pruned (of_operation location)) result }
        ensures shown { let terms = terms F.merge_rule H.hash_of N H.Digest.SIZE F.is_pending F.pending_encoding
            (K.after tt) (V.after tt) K.SIZE V.SIZE in
            let setting = setting_of_width F.merge_rule H.hash_of N in
            (history : History) → IsLiveAt self.old history → IfOk result (λ proved. IsAcceptedOperation terms
            (root_of_history setting K.SIZE V.SIZE history) location
            (operation_answer_of K.encoding V.encoding proved)) }
        ensures stays { (history : History) → IsLiveAt self.old history → IsLiveAt self.new history }
        ensures failed { self.old.live ≡ None → (result ≡ Err StoreError.Failed) × (self.new ≡ self.old) }
        ensures pruned { self.new.pruned ≡ self.old.pruned }
        ensures page_size { self.new.cache.page_size ≡ self.old.cache.page_size }
        ensures settings { self.new.device.storage.config ≡ self.old.device.storage.config }
        ensures leaves { Leaves 0 (refusal_of result) (power_of self.old.device self.old.cache)
            (power_of self.new.device self.new.cache) }
        ensures calls { self.new.device.calls ≡ self.old.device.calls }
    {
        let Some(live) = &self.live else {
            return Err(StoreError::Failed);
        };
        let (device, cache) = (&mut self.device, &mut self.cache);
        let answer = prove_operation_live(self.alloc, live, device, cache, location);
        self.device.refuses_only_under_a_cut();
        answer
    }

    /// The operations from `start` up to `stop` with a bit for each that says whether it is active, and the honest
    /// bytes that prove both under the root of this moment: the client accepts them. S11: the range is empty. S9: it
    /// ends past the log. S10: it starts before the pruned chunks. S1 to S4 where a fault was injected into a read, a
    /// cut stands, a count has ended, or out of memory; the store then stays open. S6: it had failed.
    pub fn prove_range(&mut self, start: u64, stop: u64) -> Result<ProvedRange<F, K, V>, StoreError>
        ensures proof { let size = self.old.cache.page_size + 12 in
            let m = machine F.merge_rule H.hash_of F.pending_encoding N K.SIZE V.SIZE size in
            (history : History) → IsLiveAt self.old history
            → AnswersProof (power_of self.old.device self.old.cache) (power_of self.new.device self.new.cache)
            (λ proved. range_is (range_answer_of K.encoding V.encoding proved))
            (proof_of m history self.old.pruned (of_range start stop)) result }
        ensures shown { let terms = terms F.merge_rule H.hash_of N H.Digest.SIZE F.is_pending F.pending_encoding
            (K.after tt) (V.after tt) K.SIZE V.SIZE in
            let setting = setting_of_width F.merge_rule H.hash_of N in
            (history : History) → IsLiveAt self.old history → IfOk result (λ proved. IsAcceptedRange terms
            (root_of_history setting K.SIZE V.SIZE history) start (range_answer_of K.encoding V.encoding proved)) }
        ensures stays { (history : History) → IsLiveAt self.old history → IsLiveAt self.new history }
        ensures failed { self.old.live ≡ None → (result ≡ Err StoreError.Failed) × (self.new ≡ self.old) }
        ensures pruned { self.new.pruned ≡ self.old.pruned }
        ensures page_size { self.new.cache.page_size ≡ self.old.cache.page_size }
        ensures settings { self.new.device.storage.config ≡ self.old.device.storage.config }
        ensures leaves { Leaves 0 (refusal_of result) (power_of self.old.device self.old.cache)
            (power_of self.new.device self.new.cache) }
        ensures calls { self.new.device.calls ≡ self.old.device.calls }
    {
        let Some(live) = &self.live else {
            return Err(StoreError::Failed);
        };
        let (device, cache) = (&mut self.device, &mut self.cache);
        let answer = prove_range_live(self.alloc, live, device, cache, start, stop);
        self.device.refuses_only_under_a_cut();
        answer
    }

    /// The operations from `start` up to `stop`, and the honest bytes that prove under the root of this moment that the
    /// log has them: the client accepts them. It is refused as `prove_range` is.
    pub fn prove_log(&mut self, start: u64, stop: u64) -> Result<ProvedSlice<F, K, V>, StoreError>
        ensures proof { let size = self.old.cache.page_size + 12 in
            let m = machine F.merge_rule H.hash_of F.pending_encoding N K.SIZE V.SIZE size in
            (history : History) → IsLiveAt self.old history
            → AnswersProof (power_of self.old.device self.old.cache) (power_of self.new.device self.new.cache)
            (λ proved. slice_is (slice_answer_of K.encoding V.encoding proved))
            (proof_of m history self.old.pruned (of_slice start stop)) result }
        ensures shown { let terms = terms F.merge_rule H.hash_of N H.Digest.SIZE F.is_pending F.pending_encoding
            (K.after tt) (V.after tt) K.SIZE V.SIZE in
            let setting = setting_of_width F.merge_rule H.hash_of N in
            (history : History) → IsLiveAt self.old history → IfOk result (λ proved. IsAcceptedSlice terms
            (root_of_history setting K.SIZE V.SIZE history) start (slice_answer_of K.encoding V.encoding proved)) }
        ensures stays { (history : History) → IsLiveAt self.old history → IsLiveAt self.new history }
        ensures failed { self.old.live ≡ None → (result ≡ Err StoreError.Failed) × (self.new ≡ self.old) }
        ensures pruned { self.new.pruned ≡ self.old.pruned }
        ensures page_size { self.new.cache.page_size ≡ self.old.cache.page_size }
        ensures settings { self.new.device.storage.config ≡ self.old.device.storage.config }
        ensures leaves { Leaves 0 (refusal_of result) (power_of self.old.device self.old.cache)
            (power_of self.new.device self.new.cache) }
        ensures calls { self.new.device.calls ≡ self.old.device.calls }
    {
        let Some(live) = &self.live else {
            return Err(StoreError::Failed);
        };
        let (device, cache) = (&mut self.device, &mut self.cache);
        let answer = prove_log_live(self.alloc, live, device, cache, start, stop);
        self.device.refuses_only_under_a_cut();
        answer
    }

    /// The settings by which the device fails, also of a store that has failed.
    pub fn config(&self) -> Config
        ensures { result ≡ self.now.device.storage.config }
    {
        self.device.config()
    }

    /// How many faults were injected into the device's calls so far, also of a store that has failed.
    pub fn injections(&self) -> u64
        ensures { result ≡ self.now.device.storage.injections }
    {
        self.device.injections()
    }

    /// Other settings from now on, also of a store that has failed.
    pub fn set_config(&mut self, config: Config)
        ensures device { let storage = record self.old.device.storage { config = config } in
            self.new.device ≡ record self.old.device { storage = storage } }
        ensures rest { (self.new.cache ≡ self.old.cache) × (self.new.live ≡ self.old.live) }
        ensures pruned { self.new.pruned ≡ self.old.pruned }
    {
        self.device.set_config(config);
    }

    /// Lets so many calls of the device through, and cuts the power then, also of a store that has failed. Under a cut
    /// it changes nothing.
    pub fn cut_after(&mut self, calls: u64)
        ensures device { self.new.device ≡ record self.old.device { left = after_asking calls self.old.device.left } }
        ensures rest { (self.new.cache ≡ self.old.cache) × (self.new.live ≡ self.old.live) }
        ensures pruned { self.new.pruned ≡ self.old.pruned }
    {
        self.device.cut_after(calls);
    }

    /// Closes the log, and answers device and cache. It always succeeds.
    pub fn into_parts(self) -> (Device<R>, CacheRef)
        ensures device { result.0 ≡ record self.device { log = None } }
        ensures cache { (result.1 ≡ self.cache) × IsCache result.1 }
        ensures header { HasOwnHeader result.0.storage.inner }
        ensures shows { let format = format_of (K.after tt) (V.after tt) K.SIZE V.SIZE in
            (history : History) → IsLiveAt self history
            → OpeningsShow format (self.cache.page_size + 12) history None result.0.calls }
    {
        let Store {
            alloc: _,
            mut device,
            cache,
            live,
            pruned: _,
        } = self;
        device.open_log_has_own_header();
        device.close();
        if let Some(live) = &live {
            live.is_shown();
        }
        (device, cache)
    }
}
