//! A session with a store: it takes requests, one after the other, and answers each.
//!
//! ```text
//!            Open: Opened                Commit: refused after the first append
//!   closed ---------------> live -------------------------------------------> failed
//!     ^ |                    | |                                                |
//!     | | Crash              | | Commit, Get, Root, ..                          | S6
//!     | +-> closed           | +-> live                                         +-> failed
//!     |                      |                                                  |
//!     +--- Close ------------+--------------------- Close ----------------------+
//! ```

ghost use Rattle.std.specs.Prelude.{◌≡◌, ◌+◌, ℕ, max, Option, None, Some, IfSome, is_some, true, false};
ghost use Rattle.fault_storage_parts.specs.declared.config.Config as settings;
ghost use Rattle.paged_blob_parts.specs.Caches.{Cache};
ghost use Rattle.paged_blob_parts.specs.Moments.{Grows};
ghost use Rattle.auth_store_ledger.specs.Store.{IsChunkWidth};
ghost use Rattle.auth_store_log.specs.Records.{Format, format_of};
ghost use Rattle.auth_store_machine.specs.Machine.{machine, Machine, State, at_rest, IsAnswerTo, is_open_after};
ghost use Rattle.auth_store_machine.specs.Machine.{ask_open, ask_close};
ghost use Rattle.auth_store_session.specs.MachineCode.{meaning_of, request_of, config_after, IsLeftBy};
ghost use Rattle.auth_store_machine.specs.Sound.{IsSoundState};
ghost use Rattle.auth_store_machine.specs.Standing.{IsAtRest, IsLeftOpen, StandsFor, Steps, closed_at};
ghost use Rattle.auth_store_session.specs.declared.sizes.Sizes as buffers;
ghost use Rattle.auth_store_machine.specs.Standing.{calls_in, config_in, left_in, page_size_in, power_in, power_of};
ghost use Rattle.auth_store_machine.specs.Stores.{HasBuffer, IsCache};

use crate::asking::step_open;
use crate::laws::an_opening_shows_what_stood;
use crate::sizes::Sizes;
use crate::store::{NotOpened, Store};
use auth_store_device::Device;
use auth_store_ledger::Batch;
use auth_store_machine::StoreError;
use auth_store_proving::{KeyProof, ProvedOperation, ProvedRange, ProvedSlice};
use fault_storage::Config;
use merkle_forest::{Family, Graftable, HashFunction, PendingOf};
use paged_blob::CacheRef;
use rand_core::Rng;
use state_ops::{FixedKey, FixedValue};
use std::alloc::Global;
use std::marker::Model;

/// A request to a session.
#[derive(Debug, Drop)]
pub enum Step<K, V> {
    /// Opens the store.
    Open(Sizes),
    /// Commits a batch with its metadata.
    Commit(Batch<K, V>, Option<V>),
    /// Asks for the value of a key.
    Get(K),
    /// Asks for the root.
    Root,
    /// Asks for the number of commits.
    Commits,
    /// Asks for the last floor.
    Floor,
    /// Asks for the number of operations.
    Len,
    /// Prunes up to a location.
    Prune(u64),
    /// Asks for the value of a key, or that it is absent, and its proof.
    ProveKey(K),
    /// Asks for the operation at a location and the proof that it is active.
    ProveOperation(u64),
    /// Asks for the operations from a location up to another, their activity bits and the proof of both.
    ProveRange(u64, u64),
    /// Asks for the operations from a location up to another and the proof that the log has them.
    ProveLog(u64, u64),
    /// Closes the store.
    Close,
    /// Crashes the device.
    Crash,
    /// Puts settings in place by which the device fails.
    Config(Config),
    /// Lets so many calls of the device through, and cuts its power then.
    CutAfter(u64),
}

/// What a session answers to a step: what the store's call answers, or why there was none.
#[derive(Debug, Drop)]
pub enum Answer<F: Family, D, K: FixedKey, V: FixedValue> {
    /// The store is open.
    Opened,
    /// The batch is committed; the new root.
    Committed(D),
    /// The key's value, if it is there.
    Value(Option<V>),
    /// The root.
    Root(D),
    /// How many commits there are.
    Commits(u64),
    /// The last floor: the location of an operation.
    Floor(u64),
    /// How many operations there are.
    Len(u64),
    /// How many chunks are pruned.
    Pruned(u64),
    /// The key's value, or that it is absent, and its proof.
    Proof(KeyProof<V>),
    /// An active operation and its proof.
    Operation(ProvedOperation<F, K, V>),
    /// Operations with their activity bits and the proof of both.
    Range(ProvedRange<F, K, V>),
    /// Operations and the proof that the log has them.
    Slice(ProvedSlice<F, K, V>),
    /// The store is closed.
    Closed,
    /// The device has crashed.
    Crashed,
    /// The settings, or the cut, are in place.
    Set,
    /// The refusal of the step's call.
    Refused(StoreError),
    /// No store is open, and nothing was done.
    NotOpen,
    /// A store is open, and nothing was done.
    StillOpen,
}

// Whether the step closes a store.
fn is_close<K: FixedKey, V: FixedValue>(step: &Step<K, V>) -> bool
    ensures yes { result ≡ true → request_of K.encoding V.encoding step.now ≡ ask_close }
    ensures no { result ≡ false → IsLeftOpen (request_of K.encoding V.encoding step.now) }
    ensures settings { result ≡ true → (before : Option settings.Config) → config_after step.now before ≡ before }
    ensures left { result ≡ true → (before after : Option ℕ) → after ≡ before → IsLeftBy step.now before after }
{
    matches!(step, Step::Close)
}

// Whether the step opens a store.
fn is_opening<K: FixedKey, V: FixedValue>(step: &Step<K, V>) -> bool
    ensures yes { result ≡ true → request_of K.encoding V.encoding step.now ≡ ask_open }
    ensures no { result ≡ false → IsAtRest (request_of K.encoding V.encoding step.now) }
    ensures settings { result ≡ true → (before : Option settings.Config) → config_after step.now before ≡ before }
    ensures left { result ≡ true → (before after : Option ℕ) → IsLeftBy step.now before after }
    ensures sizes { result ≡ false → (sizes : buffers.Sizes) → step.now ≡ Step.Open sizes → ⊥ }
{
    matches!(step, Step::Open(_))
}

// The sizes with which the step opens a store; of any other step nothing is said.
fn sizes_of<K: FixedKey, V: FixedValue>(step: &Step<K, V>) -> Sizes
    ensures { (sizes : buffers.Sizes) → step.now ≡ Step.Open sizes → result ≡ sizes }
{
    match step {
        Step::Open(sizes) => *sizes,
        _ => Sizes::default(),
    }
}

// What a closed device makes of a step that opens no store. One that wants a store finds none.
fn step_device<R, F, H, K, V>(
    device: &mut Device<R>,
    step: Step<K, V>,
) -> Answer<F, H::Digest, K, V>
where
    R: Rng + Drop,
    F: Family,
    H: HashFunction,
    K: FixedKey,
    V: FixedValue,
    requires { device.old.log ≡ None }
    ensures steps { let request = request_of K.encoding V.encoding step in IsAtRest request
        → (m : Machine) (format : Format) (cache : Cache) → Steps m format (closed_at device.old cache) request
        (meaning_of H.Digest.encoding K.encoding V.encoding result) (closed_at device.new cache) }
    ensures kind { let request = request_of K.encoding V.encoding step in
        IsAtRest request → IsAnswerTo false request (meaning_of H.Digest.encoding K.encoding V.encoding result) }
    ensures closed { device.new.log ≡ None }
    ensures open { is_open_after false (meaning_of H.Digest.encoding K.encoding V.encoding result) ≡ false }
    ensures grows { Grows device.old.calls device.new.calls }
    ensures settings { Some device.new.storage.config ≡ config_after step (Some device.old.storage.config) }
    ensures left { IsLeftBy step device.old.left device.new.left }
{
    match step {
        Step::Crash => {
            device.crash();
            Answer::Crashed
        }
        Step::Config(config) => {
            device.set_config(config);
            Answer::Set
        }
        Step::CutAfter(calls) => {
            device.cut_after(calls);
            Answer::Set
        }
        _ => Answer::NotOpen,
    }
}

/// A closed device with a cache, or the open store on them. Its contracts see which it has; that a session stands for a
/// state of the machine is said of what it has (own).
#[derive(Drop)]
pub struct Session<
    R: Rng,
    F: Graftable,
    H: HashFunction,
    K: FixedKey,
    V: FixedValue,
    const N: usize,
> {
    alloc: Global,
    parts: Option<(Device<R>, CacheRef)>,
    store: Option<Store<R, F, H, K, V, N>>,
}

impl<R: Rng, F: Graftable, H: HashFunction, K: FixedKey, V: FixedValue, const N: usize> Model
    for Session<R, F, H, K, V, N> {
    ghost use Rattle.auth_store_ledger.specs.Store.{IsChunkWidth};
    ghost use Rattle.auth_store_machine.specs.Standing.{SessionState, IsSession};

    ghost Value = { SessionState R };

    ghost view = { λ s. record { parts = s.parts; store = s.store } };

    ghost invariant = { λ s. IsChunkWidth N × IsSession s.parts s.store };
}

impl<R, F, H, K, V, const N: usize> Session<R, F, H, K, V, N>
where
    R: Rng + Drop,
    F: Graftable + PendingOf<H::Digest>,
    H: HashFunction,
    K: FixedKey,
    V: FixedValue,
{
    /// A session over a closed device and a cache, with no store open.
    pub fn new(alloc: Global, device: Device<R>, cache: CacheRef) -> Session<R, F, H, K, V, N>
        requires width { IsChunkWidth N }
        requires closed { device.log ≡ None }
        requires cache { IsCache cache }
        ensures { result ≡ record { parts = Some (device, cache); store = None } }
    {
        Session {
            alloc,
            parts: Some((device, cache)),
            store: None,
        }
    }

    /// The law that each history for which a session stands is sound: a client's yes under its root is true of it, or
    /// strings collide (own).
    pub fn stands_for_sound_histories(&self)
        ensures { let format = format_of (K.after tt) (V.after tt) K.SIZE V.SIZE in (state : State)
            → StandsFor format self.now.parts self.now.store state → IsSoundState format state }
    {
        if let Some(store) = &self.store {
            store.stands_for_sound_histories();
        }
    }

    // Opens the store, which is closed.
    fn open(&mut self, sizes: Sizes) -> Answer<F, H::Digest, K, V>
        requires { self.old.store ≡ None }
        ensures steps { let format = format_of (K.after tt) (V.after tt) K.SIZE V.SIZE in
            let m = machine F.merge_rule H.hash_of F.pending_encoding N K.SIZE V.SIZE
            (page_size_in self.old.parts self.old.store) in
            Steps m format self.old ask_open (meaning_of H.Digest.encoding K.encoding V.encoding result) self.new }
        ensures kind { IsAnswerTo false ask_open (meaning_of H.Digest.encoding K.encoding V.encoding result) }
        ensures open { is_some self.new.store
            ≡ is_open_after false (meaning_of H.Digest.encoding K.encoding V.encoding result) }
        ensures page_size { page_size_in self.new.parts self.new.store
            ≡ page_size_in self.old.parts self.old.store }
        ensures buffer { IfSome self.new.store (HasBuffer (max sizes.write_buffer
            (page_size_in self.old.parts self.old.store))) }
        ensures grows { Grows (calls_in self.old.parts self.old.store) (calls_in self.new.parts self.new.store) }
        ensures settings { config_in self.new.parts self.new.store ≡ config_in self.old.parts self.old.store }
    {
        let Some((device, cache)) = self.parts.take() else {
            unreachable!();
        };
        an_opening_shows_what_stood();
        match Store::open(self.alloc, device, cache, sizes) {
            Ok(store) => {
                self.store = Some(store);
                Answer::Opened
            }
            Err(
                NotOpened {
                    error,
                    device,
                    cache,
                },
            ) => {
                self.parts = Some((device, cache));
                Answer::Refused(error)
            }
        }
    }

    // Takes a step of a closed session that opens no store.
    fn step_at_rest(&mut self, step: Step<K, V>) -> Answer<F, H::Digest, K, V>
        requires { self.old.store ≡ None }
        ensures steps { let format = format_of (K.after tt) (V.after tt) K.SIZE V.SIZE in
            let m = machine F.merge_rule H.hash_of F.pending_encoding N K.SIZE V.SIZE
            (page_size_in self.old.parts self.old.store) in
            let request = request_of K.encoding V.encoding step in
            IsAtRest request → Steps m format self.old request (meaning_of H.Digest.encoding K.encoding
            V.encoding result)
            self.new }
        ensures kind { let request = request_of K.encoding V.encoding step in
            IsAtRest request → IsAnswerTo false request (meaning_of H.Digest.encoding K.encoding V.encoding result) }
        ensures open { is_some self.new.store
            ≡ is_open_after false (meaning_of H.Digest.encoding K.encoding V.encoding result) }
        ensures page_size { page_size_in self.new.parts self.new.store
            ≡ page_size_in self.old.parts self.old.store }
        ensures grows { Grows (calls_in self.old.parts self.old.store) (calls_in self.new.parts self.new.store) }
        ensures settings { config_in self.new.parts self.new.store
            ≡ config_after step (config_in self.old.parts self.old.store) }
        ensures left { IsLeftBy step (left_in self.old.parts self.old.store)
            (left_in self.new.parts self.new.store) }
    {
        let Some((mut device, cache)) = self.parts.take() else {
            unreachable!();
        };
        let answer = step_device::<R, F, H, K, V>(&mut device, step);
        self.parts = Some((device, cache));
        answer
    }

    // Takes a step of a closed session.
    fn step_closed(&mut self, step: Step<K, V>) -> Answer<F, H::Digest, K, V>
        requires { self.old.store ≡ None }
        ensures steps { let format = format_of (K.after tt) (V.after tt) K.SIZE V.SIZE in
            let m = machine F.merge_rule H.hash_of F.pending_encoding N K.SIZE V.SIZE
            (page_size_in self.old.parts self.old.store) in
            Steps m format self.old (request_of K.encoding V.encoding step)
            (meaning_of H.Digest.encoding K.encoding V.encoding result) self.new }
        ensures kind { IsAnswerTo false (request_of K.encoding V.encoding step)
            (meaning_of H.Digest.encoding K.encoding V.encoding result) }
        ensures open { is_some self.new.store
            ≡ is_open_after false (meaning_of H.Digest.encoding K.encoding V.encoding result) }
        ensures buffer { self.old.store ≡ None → (sizes : buffers.Sizes) → step ≡ Step.Open sizes
            → IfSome self.new.store (HasBuffer (max sizes.write_buffer (page_size_in self.old.parts self.old.store))) }
        ensures page_size { page_size_in self.new.parts self.new.store
            ≡ page_size_in self.old.parts self.old.store }
        ensures grows { Grows (calls_in self.old.parts self.old.store) (calls_in self.new.parts self.new.store) }
        ensures settings { config_in self.new.parts self.new.store
            ≡ config_after step (config_in self.old.parts self.old.store) }
        ensures left { IsLeftBy step (left_in self.old.parts self.old.store)
            (left_in self.new.parts self.new.store) }
    {
        if is_opening(&step) {
            return self.open(sizes_of(&step));
        }
        self.step_at_rest(step)
    }

    // Closes the store, which is open.
    fn close(&mut self) -> Answer<F, H::Digest, K, V>
        requires { is_some self.old.store ≡ true }
        ensures steps { let format = format_of (K.after tt) (V.after tt) K.SIZE V.SIZE in
            let m = machine F.merge_rule H.hash_of F.pending_encoding N K.SIZE V.SIZE
            (page_size_in self.old.parts self.old.store) in
            Steps m format self.old ask_close (meaning_of H.Digest.encoding K.encoding V.encoding result) self.new }
        ensures kind { IsAnswerTo true ask_close (meaning_of H.Digest.encoding K.encoding V.encoding result) }
        ensures closed { self.new.store ≡ None }
        ensures page_size { page_size_in self.new.parts self.new.store
            ≡ page_size_in self.old.parts self.old.store }
        ensures grows { Grows (calls_in self.old.parts self.old.store) (calls_in self.new.parts self.new.store) }
        ensures settings { config_in self.new.parts self.new.store ≡ config_in self.old.parts self.old.store }
        ensures left { left_in self.new.parts self.new.store ≡ left_in self.old.parts self.old.store }
    {
        let Some(store) = self.store.take() else {
            unreachable!();
        };
        self.parts = Some(store.into_parts());
        Answer::Closed
    }

    // Takes a step of an open session that leaves it open.
    fn step_within(&mut self, step: Step<K, V>) -> Answer<F, H::Digest, K, V>
        requires some { is_some self.old.store ≡ true }
        requires left { IsLeftOpen (request_of K.encoding V.encoding step) }
        ensures steps { let format = format_of (K.after tt) (V.after tt) K.SIZE V.SIZE in
            let m = machine F.merge_rule H.hash_of F.pending_encoding N K.SIZE V.SIZE
            (page_size_in self.old.parts self.old.store) in
            Steps m format self.old (request_of K.encoding V.encoding step)
            (meaning_of H.Digest.encoding K.encoding V.encoding result) self.new }
        ensures kind { IsAnswerTo true (request_of K.encoding V.encoding step)
            (meaning_of H.Digest.encoding K.encoding V.encoding result) }
        ensures open { is_some self.new.store
            ≡ is_open_after true (meaning_of H.Digest.encoding K.encoding V.encoding result) }
        ensures page_size { page_size_in self.new.parts self.new.store
            ≡ page_size_in self.old.parts self.old.store }
        ensures grows { Grows (calls_in self.old.parts self.old.store) (calls_in self.new.parts self.new.store) }
        ensures settings { config_in self.new.parts self.new.store
            ≡ config_after step (config_in self.old.parts self.old.store) }
        ensures left { IsLeftBy step (left_in self.old.parts self.old.store)
            (left_in self.new.parts self.new.store) }
    {
        let Some(store) = &mut self.store else {
            unreachable!();
        };
        step_open(store, step)
    }

    // Takes a step of an open session.
    fn step_opened(&mut self, step: Step<K, V>) -> Answer<F, H::Digest, K, V>
        requires { is_some self.old.store ≡ true }
        ensures steps { let format = format_of (K.after tt) (V.after tt) K.SIZE V.SIZE in
            let m = machine F.merge_rule H.hash_of F.pending_encoding N K.SIZE V.SIZE
            (page_size_in self.old.parts self.old.store) in
            Steps m format self.old (request_of K.encoding V.encoding step)
            (meaning_of H.Digest.encoding K.encoding V.encoding result) self.new }
        ensures kind { IsAnswerTo true (request_of K.encoding V.encoding step)
            (meaning_of H.Digest.encoding K.encoding V.encoding result) }
        ensures open { is_some self.new.store
            ≡ is_open_after true (meaning_of H.Digest.encoding K.encoding V.encoding result) }
        ensures page_size { page_size_in self.new.parts self.new.store
            ≡ page_size_in self.old.parts self.old.store }
        ensures grows { Grows (calls_in self.old.parts self.old.store) (calls_in self.new.parts self.new.store) }
        ensures settings { config_in self.new.parts self.new.store
            ≡ config_after step (config_in self.old.parts self.old.store) }
        ensures left { IsLeftBy step (left_in self.old.parts self.old.store)
            (left_in self.new.parts self.new.store) }
    {
        if is_close(&step) {
            return self.close();
        }
        self.step_within(step)
    }

    // Whether a store is open.
    fn is_open(&self) -> bool
        ensures yes { result ≡ true → is_some self.now.store ≡ true }
        ensures no { result ≡ false → self.now.store ≡ None }
    {
        match &self.store {
            Some(_) => true,
            None => false,
        }
    }

    /// Takes one step and answers it: a step of the machine, from each state that the session stood for, where no
    /// opening of the device is by chance, or in doubt; and an answer of the step's kind, by chance or not, which tells
    /// whether a store is open then. The device has the settings of the last step that had some, and lets through as
    /// many calls as a step says, also while a store is open; a store that it opens has the buffer that it says.
    pub fn step(&mut self, step: Step<K, V>) -> Answer<F, H::Digest, K, V>
        ensures steps { let format = format_of (K.after tt) (V.after tt) K.SIZE V.SIZE in
            let m = machine F.merge_rule H.hash_of F.pending_encoding N K.SIZE V.SIZE
            (page_size_in self.old.parts self.old.store) in
            Steps m format self.old (request_of K.encoding V.encoding step)
            (meaning_of H.Digest.encoding K.encoding V.encoding result) self.new }
        ensures kind { IsAnswerTo (is_some self.old.store) (request_of K.encoding V.encoding step)
            (meaning_of H.Digest.encoding K.encoding V.encoding result) }
        ensures open { is_some self.new.store
            ≡ is_open_after (is_some self.old.store) (meaning_of H.Digest.encoding K.encoding V.encoding result) }
        ensures buffer { self.old.store ≡ None → (sizes : buffers.Sizes) → step ≡ Step.Open sizes
            → IfSome self.new.store (HasBuffer (max sizes.write_buffer (page_size_in self.old.parts self.old.store))) }
        ensures page_size { page_size_in self.new.parts self.new.store
            ≡ page_size_in self.old.parts self.old.store }
        ensures grows { Grows (calls_in self.old.parts self.old.store) (calls_in self.new.parts self.new.store) }
        ensures settings { config_in self.new.parts self.new.store
            ≡ config_after step (config_in self.old.parts self.old.store) }
        ensures left { IsLeftBy step (left_in self.old.parts self.old.store)
            (left_in self.new.parts self.new.store) }
    {
        if self.is_open() {
            return self.step_opened(step);
        }
        self.step_closed(step)
    }

    /// How many faults were injected into the device's calls so far: with each answer S1 one more.
    pub fn injections(&self) -> u64
        ensures { result ≡ (power_in self.now.parts self.now.store).injected }
    {
        match (&self.parts, &self.store) {
            (Some((device, _)), _) => device.injections(),
            (None, Some(store)) => store.injections(),
            (None, None) => unreachable!(),
        }
    }

    /// Closes the store, if one is open, and answers device and cache: they stand for the state at rest. It always
    /// succeeds.
    pub fn into_parts(self) -> (Device<R>, CacheRef)
        ensures rests { let format = format_of (K.after tt) (V.after tt) K.SIZE V.SIZE in
            (state : State) → StandsFor format self.parts self.store state
            → StandsFor format (Some result) None (at_rest state) }
        ensures closed { result.0.log ≡ None }
        ensures cache { IsCache result.1 }
        ensures page_size { result.1.page_size + 12 ≡ page_size_in self.parts self.store }
        ensures calls { result.0.calls ≡ calls_in self.parts self.store }
        ensures power { power_of result.0 result.1 ≡ power_in self.parts self.store }
        ensures settings { Some result.0.storage.config ≡ config_in self.parts self.store }
        ensures left { result.0.left ≡ left_in self.parts self.store }
    {
        let Session {
            alloc: _,
            parts,
            store,
        } = self;
        match (parts, store) {
            (Some(parts), _) => parts,
            (None, Some(store)) => store.into_parts(),
            (None, None) => unreachable!(),
        }
    }
}
