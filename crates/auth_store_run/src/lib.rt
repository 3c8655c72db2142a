//! Whole runs: a device, a cache and a list of steps, and the answers to them.
//!
//! ```text
//!   run            device, cache --Session::new--> session
//!   run_session                                    session --step, step, ..--> session --into_parts--> device, cache
//! ```
#![tactic(auto)]

ghost use Rattle.std.specs.Prelude.{◌≡◌, ◌<◌, ◌≤◌, ◌+◌, [], ◌∷◌, ◌++◌, Some, None, is_some, IfOk, IfErr};
ghost use Rattle.std.specs.Vec.{vec_len, vec_capacity};
ghost use Rattle.auth_store_ledger.specs.Store.{IsChunkWidth};
ghost use Rattle.auth_store_run.specs.Room.{HasRoom};
ghost use Rattle.auth_store_log.specs.Records.{format_of};
ghost use Rattle.auth_store_machine.specs.Machine.{machine, AreAnswersTo};
ghost use Rattle.paged_blob_parts.specs.Moments.{Grows};
ghost use Rattle.auth_store_session.specs.MachineCode.{requests_of, meanings_of, config_after_all};
ghost use Rattle.auth_store_machine.specs.Standing.{Runs, RunsInDoubt, HasRunToRest, closed_at};
ghost use Rattle.auth_store_machine.specs.Standing.{calls_in, config_in, page_size_in};
ghost use Rattle.auth_store_machine.specs.Stores.{IsCache};

pub mod laws;

use auth_store_device::Device;
use auth_store_session::{Answer, Session, Step};
use merkle_forest::{Family, Graftable, HashFunction, PendingOf};
use paged_blob::CacheRef;
use rand_core::Rng;
use state_ops::{FixedKey, FixedValue};
use std::alloc::{AllocError, Global};

/// What a whole run has answered, and the device, closed, and the cache that it leaves (own).
#[derive(Drop)]
pub struct Ran<R: Rng, F: Family, D, K: FixedKey, V: FixedValue> {
    /// An answer for each step.
    pub answers: Vec<Answer<F, D, K, V>>,
    /// The device, which is closed.
    pub device: Device<R>,
    /// The cache.
    pub cache: CacheRef,
}

// Appends an answer, where there is room for it.
fn note<T: Drop>(answers: &mut Vec<T>, answer: T)
    ensures items { vec_len answers.old < vec_capacity answers.old
        → answers.new.items ≡ answers.old.items ++ answer ∷ [] }
    ensures len { vec_len answers.old < vec_capacity answers.old → vec_len answers.new ≡ vec_len answers.old + 1 }
    ensures capacity { vec_capacity answers.old ≤ vec_capacity answers.new }
{
    let _ = answers.push(answer);
}

// Takes the steps one after the other, and puts an answer for each into the list, where it is empty and has room for
// them. No clause is a `requires`: the prover cannot state one at a call in a function of every hash function.
fn take_all<R, F, H, K, V, const N: usize>(
    session: &mut Session<R, F, H, K, V, N>,
    steps: Vec<Step<K, V>>,
    answers: &mut Vec<Answer<F, H::Digest, K, V>>,
)
where
    R: Rng + Drop,
    F: Graftable + PendingOf<H::Digest>,
    H: HashFunction,
    K: FixedKey,
    V: FixedValue,
    ensures runs { let format = format_of (K.after tt) (V.after tt) K.SIZE V.SIZE in
        let m = machine F.merge_rule H.hash_of F.pending_encoding N K.SIZE V.SIZE
        (page_size_in session.old.parts session.old.store) in
        HasRoom answers.old (vec_len steps) → Runs m format session.old (requests_of K.encoding V.encoding steps.items)
        (meanings_of H.Digest.encoding K.encoding V.encoding answers.new.items) session.new }
    ensures kept { let format = format_of (K.after tt) (V.after tt) K.SIZE V.SIZE in
        let m = machine F.merge_rule H.hash_of F.pending_encoding N K.SIZE V.SIZE
        (page_size_in session.old.parts session.old.store) in
        HasRoom answers.old (vec_len steps)
        → RunsInDoubt m format session.old (requests_of K.encoding V.encoding steps.items)
        (meanings_of H.Digest.encoding K.encoding V.encoding answers.new.items) session.new }
    ensures kinds { HasRoom answers.old (vec_len steps)
        → AreAnswersTo (is_some session.old.store) (requests_of K.encoding V.encoding steps.items)
        (meanings_of H.Digest.encoding K.encoding V.encoding answers.new.items) }
    ensures page_size { HasRoom answers.old (vec_len steps)
        → page_size_in session.new.parts session.new.store ≡ page_size_in session.old.parts session.old.store }
    ensures grows { HasRoom answers.old (vec_len steps)
        → Grows (calls_in session.old.parts session.old.store) (calls_in session.new.parts session.new.store) }
    ensures settings { config_in session.new.parts session.new.store
        ≡ config_after_all steps.items (config_in session.old.parts session.old.store) }
{
    let mut steps = steps.into_iter();
    session.stands_for_sound_histories();
    while let Some(step) = steps.next() {
        note(answers, session.step(step));
        session.stands_for_sound_histories();
    }
}

// Takes the steps one after the other, puts an answer for each into the list, where it is empty and has room for them,
// and closes the store, if one is open then.
fn run_within<R, F, H, K, V, const N: usize>(
    session: Session<R, F, H, K, V, N>,
    steps: Vec<Step<K, V>>,
    answers: Vec<Answer<F, H::Digest, K, V>>,
) -> Ran<R, F, H::Digest, K, V>
where
    R: Rng + Drop,
    F: Graftable + PendingOf<H::Digest>,
    H: HashFunction,
    K: FixedKey,
    V: FixedValue,
    ensures runs { let format = format_of (K.after tt) (V.after tt) K.SIZE V.SIZE in
        let m = machine F.merge_rule H.hash_of F.pending_encoding N K.SIZE V.SIZE
        (page_size_in session.parts session.store) in
        HasRoom answers (vec_len steps)
        → HasRunToRest m format session (requests_of K.encoding V.encoding steps.items)
        (meanings_of H.Digest.encoding K.encoding V.encoding result.answers.items) result.device result.cache }
    ensures settings { Some result.device.storage.config
        ≡ config_after_all steps.items (config_in session.parts session.store) }
{
    let mut session = session;
    let mut answers = answers;
    take_all(&mut session, steps, &mut answers);
    let (device, cache) = session.into_parts();
    Ran {
        answers,
        device,
        cache,
    }
}

// Room for so many answers. It fails only when out of memory.
fn room<T>(alloc: Global, count: usize) -> Result<Vec<T>, AllocError>
    ensures { IfOk result (λ answers. HasRoom answers count) }
{
    Ok(Vec::with_capacity(alloc, count)?)
}

/// Takes the steps of a session one after the other, closes its store, if one is open then, and answers the list of
/// answers with device and cache. Refused only where there is no memory for the answers, which is found first: no step
/// was taken then, and the session is given back as it was. What is promised is that of [`run`], of any session.
pub fn run_session<R, F, H, K, V, const N: usize>(
    alloc: Global,
    session: Session<R, F, H, K, V, N>,
    steps: Vec<Step<K, V>>,
) -> Result<Ran<R, F, H::Digest, K, V>, Session<R, F, H, K, V, N>>
where
    R: Rng + Drop,
    F: Graftable + PendingOf<H::Digest>,
    H: HashFunction,
    K: FixedKey,
    V: FixedValue,
    ensures runs { let format = format_of (K.after tt) (V.after tt) K.SIZE V.SIZE in
        let m = machine F.merge_rule H.hash_of F.pending_encoding N K.SIZE V.SIZE
        (page_size_in session.parts session.store) in
        IfOk result (λ ran. HasRunToRest m format session (requests_of K.encoding V.encoding steps.items)
        (meanings_of H.Digest.encoding K.encoding V.encoding ran.answers.items) ran.device ran.cache) }
    ensures settings { IfOk result (λ ran. Some ran.device.storage.config
        ≡ config_after_all steps.items (config_in session.parts session.store)) }
    ensures unchanged { IfErr result (λ begun. begun ≡ session) }
{
    match room(alloc, steps.len()) {
        Ok(answers) => Ok(run_within(session, steps, answers)),
        Err(_) => Err(session),
    }
}

/// Runs a store over a device and a cache: takes the steps one after the other, closes the store, if one is open at the
/// end, and answers the list of answers with device and cache. Refused only where there is no memory for the answers,
/// which is found first: nothing was done then, and a session over device and cache is given back, which
/// `Session::into_parts` takes apart.
///
/// Where no opening in the device's record is by chance, the answers are a run of the machine, from each state for
/// which device and cache stood, and these stand for its last state at rest; by chance or not there is an answer for
/// each step, of its kind, and what was acknowledged begins the log of every later history; and each history of the run
/// is of keys and values, so that a client's yes under any root that is answered is true of it, or strings collide
/// (`laws`). A device of which nothing was called yet stands for the empty history, for every seed
/// (`auth_store_laws::a_new_device_stands_for_the_empty_history`).
pub fn run<R, F, H, K, V, const N: usize>(
    alloc: Global,
    device: Device<R>,
    cache: CacheRef,
    steps: Vec<Step<K, V>>,
) -> Result<Ran<R, F, H::Digest, K, V>, Session<R, F, H, K, V, N>>
where
    R: Rng + Drop,
    F: Graftable + PendingOf<H::Digest>,
    H: HashFunction,
    K: FixedKey,
    V: FixedValue,
    requires width { IsChunkWidth N }
    requires closed { device.log ≡ None }
    requires cache { IsCache cache }
    ensures runs { let format = format_of (K.after tt) (V.after tt) K.SIZE V.SIZE in
        let m = machine F.merge_rule H.hash_of F.pending_encoding N K.SIZE V.SIZE (cache.page_size + 12) in
        IfOk result (λ ran. HasRunToRest m format (closed_at device cache)
        (requests_of K.encoding V.encoding steps.items)
        (meanings_of H.Digest.encoding K.encoding V.encoding ran.answers.items) ran.device ran.cache) }
    ensures settings { IfOk result (λ ran. Some ran.device.storage.config
        ≡ config_after_all steps.items (Some device.storage.config)) }
    ensures unchanged { IfErr result (λ begun. begun ≡ closed_at device cache) }
{
    run_session(alloc, Session::new(alloc, device, cache), steps)
}
