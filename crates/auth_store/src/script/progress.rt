//! What a script has made so far, and what each line does to it.
//!
//! A line takes its steps one after the other, and says the last answer:
//!
//! ```text
//!   open    Open ---Opened---> Commits         prove        ProveKey ---a proof---> Root ---> keeps both
//!   commit  Commit ---Committed---> Commits    mode, fault  Config, with the settings that are kept
//!   get, root, floor, len, prune, cut, close, crash: the step of that name
//!   put, del, proof, check: no step
//! ```

ghost use Rattle.std.specs.Prelude.{◌≡◌, ◌∷◌, [], None, Some};
ghost use Rattle.std.specs.Prelude.{IfOk, IfErr, Option, List, ℕ};
ghost use Rattle.auth_store_client.specs.ClaimsCode.{claim_of};
ghost use Rattle.auth_store_proving.specs.ProvingCode.{key_answer_of};
ghost use Rattle.auth_store_machine.specs.Machine.{proof, key_is};
ghost use Rattle.auth_store_session.specs.MachineCode.{meaning_of};
ghost use Rattle.auth_store.specs.ScriptLines.{proof_in, Exchange, bytes_of, value_of, new_progress};
ghost use Rattle.auth_store.specs.ScriptRun.{IsRunOf};
ghost use Rattle.auth_store.specs.ScriptCode.{ChecksKept, Goes, Handled, IsRunning, Says, SetsTo, TakesLine};
ghost use Rattle.auth_store.specs.ScriptCode.{exchange_of, now_of, progress_of};

use super::answers::{Keys, ScriptAnswer, report, report_checked, report_committed, report_opened};
use super::end::End;
use super::family::Named;
use super::settings::{with_mode, with_rate};
use auth_store_client::{Claim, check};
use auth_store_device::Device;
use auth_store_ledger::Batch;
use auth_store_parts::script::report::{report_absent, report_present, report_proof};
use auth_store_parts::script::{FaultKind, Line, TornMode};
use auth_store_proving::KeyProof;
use auth_store_session::{Answer, Session, Sizes, Step};
use fault_storage::{Config, Probability};
use merkle_forest::ByteHash;
use merkle_forest::codec::FixedBytes;
use paged_blob::CacheRef;
use rand_pcg::Pcg32;
use std::alloc::Global;
use std::io::Write;

pub(crate) type ScriptSession<F> = Session<Pcg32, F, ByteHash, Keys, u64, 1>;

/// Both buffers of the script's store, in bytes.
const SIZES: Sizes = Sizes {
    write_buffer: 128,
    replay_buffer: 128,
};

/// How many bytes of content a page of the script's log has: with its footer 64 on the disk.
const PAGE_CONTENT: u16 = 52;

/// How many pages of the log are kept in memory.
const PAGES_KEPT: usize = 8;

/// The bytes of the last proof, and the root of the moment at which it was made.
#[derive(Drop)]
pub(crate) struct Kept {
    bytes: Vec<u8>,
    root: FixedBytes<32>,
}

/// What a script has made so far: the number that its device is seeded by, the settings that are in place, its session,
/// the words of its batch and the last proof.
#[derive(Drop)]
pub(crate) struct Progress<F: Named> {
    alloc: Global,
    seed: u64,
    settings: Config,
    session: ScriptSession<F>,
    batch: Batch<Keys, u64>,
    kept: Option<Kept>,
}

// Takes a step of the session.
fn ask<F: Named>(session: &mut ScriptSession<F>, step: Step<Keys, u64>) -> ScriptAnswer<F>
    ensures { Goes F.family session.old (exchange_of step (meaning_of bytes_of bytes_of value_of result) ∷ [])
        session.new }
{
    let answer = session.step(step);
    session.stands_for_sound_histories();
    answer
}

// The proof of a key in an answer, or the other answer.
fn proof_of<F: Named>(answer: ScriptAnswer<F>) -> Result<KeyProof<u64>, ScriptAnswer<F>>
    ensures proved { IfOk result (λ found.
        meaning_of bytes_of bytes_of value_of answer ≡ proof (key_is (key_answer_of value_of found))) }
    ensures other { IfErr result (λ other. (meaning_of bytes_of bytes_of value_of other
        ≡ meaning_of bytes_of bytes_of value_of answer)
        × (proof_in (meaning_of bytes_of bytes_of value_of answer) ≡ None)) }
{
    match answer {
        Answer::Proof(found) => Ok(found),
        other => Err(other),
    }
}

impl<F: Named> Progress<F> {
    // The session over a new device, with no word and no proof.
    pub(crate) fn new(alloc: Global, seed: u64, device: Device<Pcg32>) -> Progress<F>
        requires { device.log ≡ None }
        ensures progress { progress_of F.family result ≡ new_progress F.family seed device.storage.config }
        ensures session { result.session ≡ record {
          parts = Some (device, record { page_size = 52; capacity = 8; next_id = 0; pages = [] });
          store = None;
        } }
    {
        Progress {
            alloc,
            seed,
            settings: device.config(),
            session: Session::new(
                alloc,
                device,
                CacheRef::new(alloc, PAGE_CONTENT, PAGES_KEPT),
            ),
            batch: Batch::new(alloc),
            kept: None,
        }
    }

    // Opens a store, where none is open.
    fn open<W: Write>(&mut self, out: &mut W) -> Result<(), End>
        ensures { Handled (TakesLine F.family self.old Line.Open self.new) (W.contents out.old)
            (W.contents out.new) result }
    {
        match ask(&mut self.session, Step::Open(SIZES)) {
            Answer::Opened => {
                let count = ask(&mut self.session, Step::Commits);
                report_opened(self.alloc, out, count)
            }
            other => report(self.alloc, out, other),
        }
    }

    // Says in the batch that the key has this value.
    fn put(&mut self, key: Keys, value: u64) -> Result<(), End>
        ensures { (contents : Option (List ℕ))
            → Handled (TakesLine F.family self.old (Line.Put key value) self.new) contents contents result }
    {
        Ok(self.batch.put(key, value)?)
    }

    // Commits the words so far. The batch is empty again, also after a refusal.
    fn commit<W: Write>(&mut self, out: &mut W, metadata: Option<u64>) -> Result<(), End>
        ensures { Handled (TakesLine F.family self.old (Line.Commit metadata) self.new) (W.contents out.old)
            (W.contents out.new) result }
    {
        let batch = std::mem::replace(&mut self.batch, Batch::new(self.alloc));
        match ask(&mut self.session, Step::Commit(batch, metadata)) {
            Answer::Committed(_root) => {
                let count = ask(&mut self.session, Step::Commits);
                report_committed(self.alloc, out, count)
            }
            other => report(self.alloc, out, other),
        }
    }

    // Says in the batch that the key is gone.
    fn delete(&mut self, key: Keys) -> Result<(), End>
        ensures { (contents : Option (List ℕ))
            → Handled (TakesLine F.family self.old (Line.Delete key) self.new) contents contents result }
    {
        Ok(self.batch.delete(key)?)
    }

    // Takes one step, and says its answer.
    fn say<W: Write>(&mut self, out: &mut W, step: Step<Keys, u64>) -> Result<(), End>
        ensures { Handled (Says F.family self.old step self.new) (W.contents out.old) (W.contents out.new) result }
    {
        let answer = ask(&mut self.session, step);
        report(self.alloc, out, answer)
    }

    // Puts settings in place, and keeps them.
    fn set<W: Write>(&mut self, out: &mut W, settings: Config) -> Result<(), End>
        ensures { Handled (SetsTo F.family self.old settings self.new) (W.contents out.old)
            (W.contents out.new) result }
    {
        self.settings = settings;
        self.say(out, Step::Config(settings))
    }

    // Sets what is kept of a torn write.
    fn set_mode<W: Write>(&mut self, out: &mut W, mode: TornMode) -> Result<(), End>
        ensures { Handled (TakesLine F.family self.old (Line.Mode mode) self.new)
            (W.contents out.old) (W.contents out.new) result }
    {
        let settings = with_mode(self.settings, mode);
        self.set(out, settings)
    }

    // Sets how often a call of this kind fails. A fraction that is no rate is out of place.
    fn set_rate<W: Write>(
        &mut self,
        out: &mut W,
        kind: FaultKind,
        numerator: u64,
        denominator: u64,
    ) -> Result<(), End>
        ensures { Handled (TakesLine F.family self.old (Line.Fault kind numerator denominator) self.new)
            (W.contents out.old) (W.contents out.new) result }
    {
        let Some(rate) = Probability::new(numerator, denominator) else {
            return Err(End::BadLine);
        };
        let settings = with_rate(self.settings, kind, rate);
        self.set(out, settings)
    }

    // Proves the value of a key, or that it is absent, and keeps the bytes and the root of now. A refused proof keeps
    // the former ones.
    fn prove<W: Write>(&mut self, out: &mut W, key: Keys) -> Result<(), End>
        ensures { Handled (TakesLine F.family self.old (Line.Prove key) self.new) (W.contents out.old)
            (W.contents out.new) result }
    {
        let answer = ask(&mut self.session, Step::ProveKey(key));
        let found = match proof_of(answer) {
            Ok(found) => found,
            Err(other) => return report(self.alloc, out, other),
        };
        let root = match ask(&mut self.session, Step::Root) {
            Answer::Root(root) => root,
            other => return report(self.alloc, out, other),
        };
        match found {
            KeyProof::Value(value, bytes) => {
                self.kept = Some(Kept { bytes, root });
                Ok(report_present(out, value)?)
            }
            KeyProof::Absent(bytes) => {
                self.kept = Some(Kept { bytes, root });
                Ok(report_absent(out)?)
            }
        }
    }

    // Answers the kept bytes.
    fn proof<W: Write>(&self, out: &mut W) -> Result<(), End>
        ensures { Handled (TakesLine F.family self.now Line.Proof self.now) (W.contents out.old)
            (W.contents out.new) result }
    {
        let Some(kept) = &self.kept else {
            return Err(End::BadLine);
        };
        Ok(report_proof(self.alloc, out, &kept.bytes)?)
    }

    // Checks the kept bytes against the kept root.
    fn check_kept<W: Write>(&self, out: &mut W, claim: &Claim<F, Keys, u64>) -> Result<(), End>
        ensures { Handled (ChecksKept F.family self.now (claim_of bytes_of value_of claim.now)) (W.contents out.old)
            (W.contents out.new) result }
    {
        let Some(kept) = &self.kept else {
            return Err(End::BadLine);
        };
        let checked = check::<F, ByteHash, Keys, u64, 1>(
            self.alloc,
            &kept.root,
            claim,
            &kept.bytes,
        );
        Ok(report_checked(out, checked)?)
    }

    // Takes one line after the first one.
    pub(crate) fn step<W: Write>(&mut self, out: &mut W, line: Line) -> Result<(), End>
        ensures { Handled (TakesLine F.family self.old line self.new) (W.contents out.old) (W.contents out.new) result }
    {
        match line {
            Line::Empty => Ok(()),
            Line::New { family: _, seed: _ } => Err(End::BadLine),
            Line::Open => self.open(out),
            Line::Put { key, value } => self.put(key, value),
            Line::Delete { key } => self.delete(key),
            Line::Commit { metadata } => self.commit(out, metadata),
            Line::Get { key } => self.say(out, Step::Get(key)),
            Line::Root => self.say(out, Step::Root),
            Line::Floor => self.say(out, Step::Floor),
            Line::Len => self.say(out, Step::Len),
            Line::Prune { location } => self.say(out, Step::Prune(location)),
            Line::Prove { key } => self.prove(out, key),
            Line::Proof => self.proof(out),
            Line::CheckValue { key, value } => {
                self.check_kept(out, &Claim::Value { key, value })
            }
            Line::CheckAbsent { key } => self.check_kept(out, &Claim::Absent { key }),
            Line::Cut { calls } => self.say(out, Step::CutAfter(calls)),
            Line::Mode { mode } => self.set_mode(out, mode),
            Line::Fault {
                kind,
                numerator,
                denominator,
            } => self.set_rate(out, kind, numerator, denominator),
            Line::Close => self.say(out, Step::Close),
            Line::Crash => self.say(out, Step::Crash),
        }
    }

    // Closes the store, if one is open, and answers its device.
    pub(crate) fn into_device(self) -> Device<Pcg32>
        ensures { (exchanges : List Exchange) → IsRunning exchanges (Some (now_of F.family self))
            → IsRunOf (Some (progress_of F.family self)) (Some result) exchanges }
    {
        let (device, _cache) = self.session.into_parts();
        device
    }
}
