//! A session, or a store by itself, of one family and one width of chunks.

ghost use Rattle.std.specs.Prelude.{◌≡◌, None};
ghost use Rattle.auth_store_ledger.specs.Store.{IsChunkWidth};
ghost use Rattle.auth_store_machine.specs.Stores.{IsCache};

use auth_store_device::Device;
use auth_store_run::{Ran, run, run_session};
use auth_store_session::{Answer, Session, Sizes, Step, Store, StoreError};
use case_lines::Unanswered;
use fault_storage::Config;
use merkle_forest::{ByteHash, Graftable, PendingOf};
use paged_blob::CacheRef;
use rand_pcg::Pcg32;
use std::alloc::{AllocError, Global};
use std::mem;
use store_lines::asked::Asking;
use store_lines::told::{Told, all_told, told};
use store_lines::words::{Name, Root};

type Alone<F, const N: usize> = Store<Pcg32, F, ByteHash, Name, u64, N>;

type Talk<F, const N: usize> = Session<Pcg32, F, ByteHash, Name, u64, N>;

/// A session or a store that has the device, if one has.
#[derive(Drop)]
pub enum Standing<F: Graftable + PendingOf<Root>, const N: usize> {
    /// None has it.
    Nothing,
    /// A session.
    Session(Session<Pcg32, F, ByteHash, Name, u64, N>),
    /// A store by itself.
    Store(Store<Pcg32, F, ByteHash, Name, u64, N>),
}

// A new cache that keeps so many pages of 52 bytes, and one at least.
fn cache(alloc: Global, kept: usize) -> CacheRef
    ensures { IsCache result }
{
    CacheRef::new(alloc, 52, if kept == 0 { 1 } else { kept })
}

// Opens a store over a closed device; a refusal gives the device back, closed.
fn opened<F: Graftable + PendingOf<Root>, const N: usize>(
    alloc: Global,
    device: Device<Pcg32>,
    cache: CacheRef,
    sizes: Sizes,
) -> Result<Alone<F, N>, (StoreError, Device<Pcg32>)>
    requires width { IsChunkWidth N }
    requires closed { device.log ≡ None }
    requires cache { IsCache cache }
{
    match Store::open(alloc, device, cache, sizes) {
        Ok(store) => Ok(store),
        Err(refused) => Err((refused.error, refused.device)),
    }
}

// Whether a store by itself can be asked for this step.
fn is_of_store(step: &Asking) -> bool {
    !matches!(step, Step::Open(_) | Step::Close | Step::Crash)
}

// What a store by itself answers.
fn asked_of<F: Graftable + PendingOf<Root>, const N: usize>(
    store: &mut Alone<F, N>,
    step: Asking,
) -> Result<Told<F>, StoreError> {
    match step {
        Step::Commit(batch, metadata) => Ok(Answer::Committed(store.commit(batch, metadata)?)),
        Step::Get(key) => Ok(Answer::Value(store.get(&key)?)),
        Step::Root => Ok(Answer::Root(store.root()?)),
        Step::Commits => Ok(Answer::Commits(store.commits()?)),
        Step::Floor => Ok(Answer::Floor(store.floor()?)),
        Step::Len => Ok(Answer::Len(store.len()?)),
        Step::Prune(location) => Ok(Answer::Pruned(store.prune(location)?)),
        Step::ProveKey(key) => Ok(Answer::Proof(store.prove_key(&key)?)),
        Step::ProveOperation(location) => Ok(Answer::Operation(store.prove_operation(location)?)),
        Step::ProveRange(start, stop) => Ok(Answer::Range(store.prove_range(start, stop)?)),
        Step::ProveLog(start, stop) => Ok(Answer::Slice(store.prove_log(start, stop)?)),
        Step::Config(settings) => {
            store.set_config(settings);
            Ok(Answer::Set)
        }
        Step::CutAfter(calls) => {
            store.cut_after(calls);
            Ok(Answer::Set)
        }
        Step::Open(_) | Step::Close | Step::Crash => Ok(Answer::NotOpen),
    }
}

// What a store by itself answers, its refusals too.
fn answer_of<F: Graftable + PendingOf<Root>, const N: usize>(
    store: &mut Alone<F, N>,
    step: Asking,
) -> Told<F> {
    match asked_of(store, step) {
        Ok(answer) => answer,
        Err(error) => Answer::Refused(error),
    }
}

// What a run has answered, and a session over the device and the cache that it leaves.
fn begun_again<F: Graftable + PendingOf<Root>, const N: usize>(
    alloc: Global,
    ran: Ran<Pcg32, F, Root, Name, u64>,
) -> (Vec<Told<F>>, Talk<F, N>)
    requires width { IsChunkWidth N }
    requires closed { ran.device.log ≡ None }
    requires cache { IsCache ran.cache }
{
    let Ran {
        answers,
        device,
        cache,
    } = ran;
    (answers, Session::new(alloc, device, cache))
}

// Takes the steps of a session as one run, which closes it.
fn run_on<F: Graftable + PendingOf<Root>, const N: usize>(
    alloc: Global,
    session: Talk<F, N>,
    steps: Vec<Asking>,
) -> Result<(Vec<Told<F>>, Talk<F, N>), AllocError>
    requires { IsChunkWidth N }
{
    match run_session(alloc, session, steps) {
        Ok(ran) => Ok(begun_again(alloc, ran)),
        Err(_) => Err(AllocError),
    }
}

// Takes the steps as one run over the device and the cache of a session.
fn run_anew<F: Graftable + PendingOf<Root>, const N: usize>(
    alloc: Global,
    session: Talk<F, N>,
    steps: Vec<Asking>,
) -> Result<(Vec<Told<F>>, Talk<F, N>), AllocError>
    requires { IsChunkWidth N }
{
    let (device, cache) = session.into_parts();
    match run::<Pcg32, F, ByteHash, Name, u64, N>(alloc, device, cache, steps) {
        Ok(ran) => Ok(begun_again(alloc, ran)),
        Err(_) => Err(AllocError),
    }
}

impl<F: Graftable + PendingOf<Root>, const N: usize> Standing<F, N> {
    /// Begins a session over a closed device.
    pub fn begin_session(&mut self, alloc: Global, device: Device<Pcg32>, kept: usize)
        requires width { IsChunkWidth N }
        requires closed { device.log ≡ None }
    {
        let session = Session::new(alloc, device, cache(alloc, kept));
        let _before = mem::replace(self, Standing::Session(session));
    }

    /// Opens a store over a closed device; a refusal gives the device back, closed.
    pub fn open_store(
        &mut self,
        alloc: Global,
        device: Device<Pcg32>,
        kept: usize,
        sizes: Sizes,
    ) -> Result<(), (StoreError, Device<Pcg32>)>
        requires width { IsChunkWidth N }
        requires closed { device.log ≡ None }
    {
        let store = opened(alloc, device, cache(alloc, kept), sizes)?;
        let _before = mem::replace(self, Standing::Store(store));
        Ok(())
    }

    /// Takes the device away, closed.
    pub fn taken_apart(&mut self) -> Option<Device<Pcg32>> {
        match mem::replace(self, Standing::Nothing) {
            Standing::Session(session) => Some(session.into_parts().0),
            Standing::Store(store) => Some(store.into_parts().0),
            Standing::Nothing => None,
        }
    }

    /// The settings of a store by itself.
    pub fn settings(&self) -> Result<Config, Unanswered> {
        match self {
            Standing::Store(store) => Ok(store.config()),
            _ => Err(Unanswered::BadLine),
        }
    }

    /// How many faults were injected into the calls of the device.
    pub fn injections(&self) -> Result<u64, Unanswered> {
        match self {
            Standing::Session(session) => Ok(session.injections()),
            Standing::Store(store) => Ok(store.injections()),
            Standing::Nothing => Err(Unanswered::BadLine),
        }
    }

    /// What is answered to a step.
    pub fn step(&mut self, alloc: Global, step: Asking) -> Result<String, Unanswered> {
        match self {
            Standing::Session(session) => told(alloc, &session.step(step)),
            Standing::Store(store) if is_of_store(&step) => told(alloc, &answer_of(store, step)),
            _ => Err(Unanswered::BadLine),
        }
    }

    /// What is answered to steps that are taken as one run of the session, which is closed then.
    pub fn run(&mut self, alloc: Global, steps: Vec<Asking>) -> Result<String, Unanswered>
        requires { IsChunkWidth N }
    {
        let Standing::Session(session) = mem::replace(self, Standing::Nothing) else {
            return Err(Unanswered::BadLine);
        };
        let (answers, session) = run_on(alloc, session, steps)?;
        let _before = mem::replace(self, Standing::Session(session));
        all_told(alloc, &answers)
    }

    /// What is answered to steps that are taken as one run over the device and the cache of the session.
    pub fn run_whole(&mut self, alloc: Global, steps: Vec<Asking>) -> Result<String, Unanswered>
        requires { IsChunkWidth N }
    {
        let Standing::Session(session) = mem::replace(self, Standing::Nothing) else {
            return Err(Unanswered::BadLine);
        };
        let (answers, session) = run_anew(alloc, session, steps)?;
        let _before = mem::replace(self, Standing::Session(session));
        all_told(alloc, &answers)
    }
}
