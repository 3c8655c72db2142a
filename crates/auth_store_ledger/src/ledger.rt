//! What a store knows of its history beside the operations of its log.

ghost use Rattle.std.specs.Prelude.{◌≡◌, ◌+◌, ◌*◌, ◌<◌, ◌≤◌, ◌^◌, ◌⊎◌, ◌++◌, List, length, option_map, IfOk, IfErr};
ghost use Rattle.std.specs.Prelude.{OnOk, OnErr, MatchOption, None};
ghost use Rattle.state_ops.specs.Operation as meaning;
ghost use Rattle.auth_store_index.specs.Refusals.{IfLog};
ghost use Rattle.auth_store_ledger.specs.Batch as words;
ghost use Rattle.auth_store_ledger.specs.Batch.{Word};
ghost use Rattle.auth_store_ledger.specs.Commits.{AreChanges, changes_of};
ghost use Rattle.auth_store_ledger.specs.History as spec;
ghost use Rattle.auth_store_ledger.specs.History.{history_of, log_of};
ghost use Rattle.auth_store_ledger.specs.Map.{value_at};
ghost use Rattle.auth_store_ledger.specs.Refusals.{IsUncommitted};
ghost use Rattle.auth_store_parts.specs.Places.{places_of};
ghost use Rattle.auth_store_log.specs.Records.{format_of, log_bytes, AreRecorded};
ghost use Rattle.auth_store_ledger.specs.Store.{AreWritten, IsChunkWidth, IsKept, IsLedgerOf, HasValueAt, IsPlaced};
ghost use Rattle.auth_store_ledger.specs.Store.{LedgerState, commit_after, commit_count, floor_of, root_of_history};
ghost use Rattle.auth_store_ledger.specs.Store.{setting_of_width};

pub mod commit;
pub mod kept;
mod pruning;

use crate::batch::Batch;
use crate::error::{CommitError, LedgerError};
use crate::history::Places;
use crate::logged::LoggedOperations;
use auth_store_index::{ReadError, changes_near};
use auth_store_log::PlacedLog;
use auth_store_log::laws::a_log_has_floors_within;
use auth_store_log::records::ends_batch;
use commit::{Found, found_of, grow_or_back};
use kept::{encodings_of, joined, kept_of_log};
use merkle_forest::{Family, Graftable, HashFunction};
use state_current::Current;
use state_ops::{FixedKey, FixedValue, Operation, OrderedOperation};
use std::alloc::{AllocError, Global};
use std::marker::{Model, PhantomData};

/// The greatest number of operations in a log: 2^62.
pub const MAX_OPERATIONS: u64 = 0x4000_0000_0000_0000;

/// What is kept of the log of a store of keys `K` and values `V` beside its operations, which are read where they
/// stand: where the updates stand that give keys their values, how many commits there are, and trees, bits and floor.
/// The root is hashed by `H` over trees of the family `F` and over chunks of `N` bytes. All is kept in step with the
/// log, so that a commit takes what its batch takes, and no root or proof is made of the whole log anew; chunks of
/// trees and bits may be pruned from the front. Its contracts see it as what it keeps (own).
#[derive(Drop)]
pub struct Ledger<F: Graftable, H: HashFunction, K: FixedKey, V: FixedValue, const N: usize> {
    alloc: Global,
    places: Places<K>,
    commits: u64,
    current: Current<F, H, N>,
    values: PhantomData<V>,
}

impl<F: Graftable, H: HashFunction, K: FixedKey, V: FixedValue, const N: usize> Model
    for Ledger<F, H, K, V, N> {
    ghost Value = { LedgerState };

    ghost view = { λ s. record { places = s.places; commits = s.commits; kept = s.current } };

    ghost invariant = { λ s. IsChunkWidth N };
}

// How many commits the operations have.
fn commits_in<F: Family, K: FixedKey, V: FixedValue>(
    operations: &[OrderedOperation<F, K, V>],
) -> u64
    ensures { result ≡ commit_count (spec.meanings K.encoding V.encoding operations.now) }
{
    let mut count = 0u64;
    let mut rest = operations;
    while let [operation, later @ ..] = rest {
        if ends_batch(operation) {
            count += 1;
        }
        rest = later;
    }
    count
}

// How many commits the history has that operations stand for: the first one is none of them.
fn commits_of<F: Family, K: FixedKey, V: FixedValue>(
    operations: &[OrderedOperation<F, K, V>],
) -> u64
    ensures { result ≡ length (spec.history_of (spec.meanings K.encoding V.encoding operations.now)) }
{
    match operations {
        [] => 0,
        [_, later @ ..] => commits_in(later),
    }
}

// The floor that the last commit of operations records.
fn floor_of<F: Family, K: FixedKey, V: FixedValue>(operations: &[OrderedOperation<F, K, V>]) -> u64
    ensures { result ≡ spec.last_floor (spec.meanings K.encoding V.encoding operations.now) }
{
    let mut floor = 0u64;
    let mut rest = operations;
    while let [operation, later @ ..] = rest {
        if let Operation::CommitFloor(_, recorded) = operation {
            floor = recorded.as_u64();
        }
        rest = later;
    }
    floor
}

// How many commits the history has whose log these operations are, with these places, and what is kept of it. It fails
// only when out of memory.
fn counted_and_kept<F, H, K, V, const N: usize>(
    alloc: Global,
    operations: &[OrderedOperation<F, K, V>],
    places: &Places<K>,
) -> Result<(u64, Current<F, H, N>), AllocError>
where
    F: Graftable,
    H: HashFunction,
    K: FixedKey,
    V: FixedValue,
    requires width { IsChunkWidth N }
    requires few { length operations.now ≤ 2 ^ 62 }
    requires places { places.now ≡ places_of (spec.meanings K.encoding V.encoding operations.now) }
    ensures commits { IfOk result (λ made. made.0
        ≡ length (spec.history_of (spec.meanings K.encoding V.encoding operations.now))) }
    ensures whole { IfOk result (λ made. made.1.bits.pruned ≡ 0) }
    ensures kept { IfOk result (λ made. IsKept (setting_of_width F.merge_rule H.hash_of N) K.SIZE V.SIZE
        (spec.meanings K.encoding V.encoding operations.now) made.1) }
    ensures written { OnOk result (AreWritten (format_of (K.after tt) (V.after tt) K.SIZE V.SIZE)
        (spec.meanings K.encoding V.encoding operations.now)) }
{
    let commits = commits_of(operations);
    let floor = floor_of(operations);
    let current = kept_of_log::<F, H, K, V, N>(alloc, operations, places, floor)?;
    Ok((commits, current))
}

impl<F: Graftable, H: HashFunction, K: FixedKey, V: FixedValue, const N: usize> Ledger<
    F,
    H,
    K,
    V,
    N,
> {
    /// What is kept of this log, of which nothing is pruned. It is refused where the log has more than 2^62 operations,
    /// or out of memory.
    pub fn of(alloc: Global, log: PlacedLog<F, K, V>) -> Result<Ledger<F, H, K, V, N>, LedgerError>
        requires width { IsChunkWidth N }
        requires log { spec.meanings K.encoding V.encoding log.operations.items
            ≡ log_of (history_of (spec.meanings K.encoding V.encoding log.operations.items)) }
        requires places { log.places ≡ places_of (spec.meanings K.encoding V.encoding log.operations.items) }
        ensures ok { IfOk result (IsLedgerOf (setting_of_width F.merge_rule H.hash_of N)
            (format_of (K.after tt) (V.after tt) K.SIZE V.SIZE)
            (spec.meanings K.encoding V.encoding log.operations.items)) }
        ensures whole { IfOk result (λ ledger. ledger.kept.bits.pruned ≡ 0) }
        ensures refused { IfErr result (λ e. (e ≡ LedgerError.Memory) ⊎ ((e ≡ LedgerError.NumberEnded)
            × (2 ^ 62 < length log.operations.items))) }
    {
        let PlacedLog { operations, places } = log;
        if operations.len() as u64 > MAX_OPERATIONS {
            return Err(LedgerError::NumberEnded);
        }
        let (commits, current) = counted_and_kept(alloc, &operations, &places)?;
        Ok(Ledger {
            alloc,
            places,
            commits,
            current,
            values: PhantomData,
        })
    }

    // Takes the changes that a batch makes in the log, with its commit, and answers the bytes that the log grows by. It
    // is refused where the log would pass 2^62 operations, or out of memory; the ledger then stays as it was.
    fn take_changes(
        &mut self,
        changes: Vec<OrderedOperation<F, K, V>>,
        metadata: Option<V>,
    ) -> Result<Vec<u8>, LedgerError>
        requires changes { AreChanges (setting_of_width F.merge_rule H.hash_of N)
            (format_of (K.after tt) (V.after tt) K.SIZE V.SIZE) self.old
            (spec.meanings K.encoding V.encoding changes.items) }
        ensures ok { (log : List meaning.Operation) (said : List Word)
            → let setting = setting_of_width F.merge_rule H.hash_of N in
            let format = format_of (K.after tt) (V.after tt) K.SIZE V.SIZE in
            let next = commit_after said (option_map V.encoding metadata) (history_of log) in
            IsLedgerOf setting format log self.old
            → spec.meanings K.encoding V.encoding changes.items ≡ changes_of said log
            → OnOk result (IsLedgerOf setting format (log_of next) self.new) }
        ensures bytes { (log : List meaning.Operation) (said : List Word)
            → let next = commit_after said (option_map V.encoding metadata) (history_of log) in
            IsLedgerOf (setting_of_width F.merge_rule H.hash_of N)
            (format_of (K.after tt) (V.after tt) K.SIZE V.SIZE) log self.old
            → spec.meanings K.encoding V.encoding changes.items ≡ changes_of said log
            → IfOk result (λ bytes. log_bytes K.SIZE V.SIZE (log_of next)
            ≡ log_bytes K.SIZE V.SIZE log ++ bytes.items) }
        ensures pruned { self.new.kept.bits.pruned ≡ self.old.kept.bits.pruned }
        ensures err { OnErr result (self.new ≡ self.old) }
        ensures refused { IfErr result (λ e. (e ≡ LedgerError.Memory) ⊎ ((e ≡ LedgerError.NumberEnded)
            × (2 ^ 62 ≤ self.old.kept.operations.leaves + length changes.items))) }
    {
        let leaves = self.current.leaves().as_u64();
        if changes.len() as u64 >= MAX_OPERATIONS - leaves {
            return Err(LedgerError::NumberEnded);
        }
        let Found {
            operations,
            bits,
            places,
            floor,
        } = found_of(self.alloc, &self.places, &self.current, changes, metadata)?;
        let encodings = encodings_of(self.alloc, &operations)?;
        let bytes = joined(self.alloc, &encodings)?;
        let earlier = self.places.follow_updates(leaves as usize, &operations)?;
        grow_or_back(
            &mut self.places,
            earlier,
            &mut self.current,
            &encodings,
            &bits,
            &places,
            floor,
        )?;
        self.places.follow_deletes(&operations);
        self.commits += 1;
        Ok(bytes)
    }

    // What the batch changes in the log. It is refused out of memory, or as the log is.
    fn changes_in<L: LoggedOperations<F, K, V>>(
        &self,
        log: &mut L,
        batch: &Batch<K, V>,
    ) -> Result<Vec<OrderedOperation<F, K, V>>, ReadError<L::Error>>
        requires may { L.readable log.old }
        requires of { IsLedgerOf (setting_of_width F.merge_rule H.hash_of N)
            (format_of (K.after tt) (V.after tt) K.SIZE V.SIZE) (L.log log.old) self.now }
        ensures what { let said = words.meanings K.encoding V.encoding batch.now.words.items in
            IfOk result (λ changes. spec.meanings K.encoding V.encoding changes.items
            ≡ changes_of said (L.log log.old)) }
        ensures are { IfOk result (λ changes. AreChanges (setting_of_width F.merge_rule H.hash_of N)
            (format_of (K.after tt) (V.after tt) K.SIZE V.SIZE) self.now
            (spec.meanings K.encoding V.encoding changes.items)) }
        ensures same { L.log log.new ≡ L.log log.old }
        ensures few { L.reads log.new ≤ L.reads log.old + 2 * length batch.now.words.items }
        ensures leads { OnOk result (L.leads log.old log.new) }
        ensures refused { IfErr result (IfLog (L.leads log.old log.new) (L.refuses log.old log.new)) }
    {
        changes_near(self.alloc, log, &self.places, batch)
    }

    /// Takes the batch with its commit behind the log, and answers the bytes that the log grows by. Values that the
    /// batch may leave as they are are read of the log. It is refused where the log would pass 2^62 operations, out of
    /// memory, or as the log is; the ledger then stays as it was.
    pub fn commit<L: LoggedOperations<F, K, V>>(
        &mut self,
        log: &mut L,
        batch: Batch<K, V>,
        metadata: Option<V>,
    ) -> Result<Vec<u8>, CommitError<L::Error>>
        requires may { L.readable log.old }
        requires of { IsLedgerOf (setting_of_width F.merge_rule H.hash_of N)
            (format_of (K.after tt) (V.after tt) K.SIZE V.SIZE) (L.log log.old) self.old }
        ensures ok { let said = words.meanings K.encoding V.encoding batch.words.items in
            let next = commit_after said (option_map V.encoding metadata) (history_of (L.log log.old)) in
            OnOk result (IsLedgerOf (setting_of_width F.merge_rule H.hash_of N)
            (format_of (K.after tt) (V.after tt) K.SIZE V.SIZE) (log_of next) self.new) }
        ensures bytes { let said = words.meanings K.encoding V.encoding batch.words.items in
            let next = commit_after said (option_map V.encoding metadata) (history_of (L.log log.old)) in
            IfOk result (λ bytes. log_bytes K.SIZE V.SIZE (log_of next)
            ≡ log_bytes K.SIZE V.SIZE (L.log log.old) ++ bytes.items) }
        ensures pruned { self.new.kept.bits.pruned ≡ self.old.kept.bits.pruned }
        ensures same { L.log log.new ≡ L.log log.old }
        ensures few { L.reads log.new ≤ L.reads log.old + 2 * length batch.words.items }
        ensures leads { OnOk result (L.leads log.old log.new) }
        ensures err { OnErr result (self.new ≡ self.old) }
        ensures refused { let said = words.meanings K.encoding V.encoding batch.words.items in
            let next = commit_after said (option_map V.encoding metadata) (history_of (L.log log.old)) in
            IfErr result (IsUncommitted (length (log_of next)) (L.leads log.old log.new) (L.refuses log.old log.new)) }
    {
        let changes = self.changes_in(log, &batch)?;
        let bytes = self.take_changes(changes, metadata)?;
        Ok(bytes)
    }

    /// Where in the log the update stands that gives the key its value. None: the key isn't there.
    pub fn location(&self, key: &K) -> Option<u64>
        ensures { (log : List meaning.Operation) → IsLedgerOf (setting_of_width F.merge_rule H.hash_of N)
            (format_of (K.after tt) (V.after tt) K.SIZE V.SIZE) log self.now
            → MatchOption result (value_at (spec.latest_map (history_of log)) (K.encoding key.now) ≡ None)
            (HasValueAt (K.encoding key.now) (history_of log)) }
    {
        match self.places.get(key) {
            Some(location) => Some(location as u64),
            None => None,
        }
    }

    /// The root of the history.
    pub fn root(&self) -> H::Digest
        ensures { (log : List meaning.Operation) → let setting = setting_of_width F.merge_rule H.hash_of N in
            IsLedgerOf setting (format_of (K.after tt) (V.after tt) K.SIZE V.SIZE) log self.now
            → H.Digest.encoding result ≡ root_of_history setting K.SIZE V.SIZE (history_of log) }
    {
        self.current.root()
    }

    /// How many commits the history has.
    pub fn commits(&self) -> u64
        ensures { (log : List meaning.Operation) → IsLedgerOf (setting_of_width F.merge_rule H.hash_of N)
            (format_of (K.after tt) (V.after tt) K.SIZE V.SIZE) log self.now → result ≡ length (history_of log) }
    {
        self.commits
    }

    /// The floor that the last commit of the log records: the location of an operation.
    pub fn floor(&self) -> u64
        ensures floor { (log : List meaning.Operation) → IsLedgerOf (setting_of_width F.merge_rule H.hash_of N)
            (format_of (K.after tt) (V.after tt) K.SIZE V.SIZE) log self.now → result ≡ floor_of (history_of log) }
        ensures kept { result ≡ self.now.kept.floor }
    {
        self.current.floor().as_u64()
    }

    /// How many operations the log has.
    pub fn len(&self) -> u64
        ensures len { (log : List meaning.Operation) → IsLedgerOf (setting_of_width F.merge_rule H.hash_of N)
            (format_of (K.after tt) (V.after tt) K.SIZE V.SIZE) log self.now → result ≡ length log }
        ensures kept { result ≡ self.now.kept.operations.leaves }
    {
        self.current.leaves().as_u64()
    }

    /// What holds of every ledger: the operations of its log are read again as they were written.
    pub fn is_recorded(&self)
        ensures { (log : List meaning.Operation) → let format = format_of (K.after tt) (V.after tt) K.SIZE V.SIZE in
            IsLedgerOf (setting_of_width F.merge_rule H.hash_of N) format log self.now → AreRecorded format log }
    {
        a_log_has_floors_within();
    }

    /// Where the updates stand that give keys their values, and what is kept of the log: of these proofs are made.
    pub fn parts(&self) -> (&Places<K>, &Current<F, H, N>)
        ensures placed { (log : List meaning.Operation) → let setting = setting_of_width F.merge_rule H.hash_of N in
            IsLedgerOf setting (format_of (K.after tt) (V.after tt) K.SIZE V.SIZE) log self.now
            → IsPlaced setting K.SIZE V.SIZE log result.0.now result.1.now }
        ensures places { result.0.now ≡ self.now.places }
        ensures kept { result.1.now ≡ self.now.kept }
    {
        (&self.places, &self.current)
    }

    /// What proofs are allocated by.
    pub fn allocator(&self) -> Global {
        self.alloc
    }

    /// What holds of every ledger: its chunks have a width that may be.
    pub fn holds_a_history(&self)
        ensures width { IsChunkWidth N }
    {
        let _ = &self.current;
    }
}
