//! What holds of all runs of a session, whatever is asked in them: laws of the machine that its answers are.
#![tactic(auto)]

ghost use Rattle.std.specs.Prelude.{◌≡◌, ◌+◌, ◌++◌, ℕ, List, [], ◌∷◌, Option, Some, None};
ghost use Rattle.paged_blob_parts.specs.Caches.{Cache};
ghost use Rattle.auth_store_parts.specs.History.{History};
ghost use Rattle.auth_store_device.specs.Devices.{DeviceState};
ghost use Rattle.auth_store_device.specs.Settings.{IsNew};
ghost use Rattle.auth_store_log.specs.Records.{Format};
ghost use Rattle.auth_store_machine.specs.Machine.{Machine, Power, State, Request, Answer, IsStep, IsRun};
ghost use Rattle.auth_store_machine.specs.Machine.{Passes, IsRunSeen, GivesNumbers, openings_of};
ghost use Rattle.auth_store_machine.specs.Machine.{AsksNoPrune, IsBehind, ask_prune, live};
ghost use Rattle.auth_store_machine.specs.Machine.{AskNoCut, TellNoCut, faults_told, AskNoCrash, AcknowledgeNone};
ghost use Rattle.auth_store_machine.specs.Machine.{closed, in_doubt, kept_history, Begins, GoesOn, IsCertain};
ghost use Rattle.auth_store_machine.specs.Machine.{IsRunInDoubt};
ghost use Rattle.auth_store_machine.specs.Standing.{StandsFor};
ghost use Rattle.auth_store_machine.specs.Stores.{StoreState};

use auth_store_log::laws::what_is_encoded_is_recorded;
use rand_core::Rng;

/// A run with a step behind it is a run, whichever of its openings may be by chance.
pub fn a_run_goes_on()
    ensures { (see : State → State) (m : Machine) (before : Power) (first : State) (requests : List Request)
        (answers : List Answer) (at : Power) (now : State) (request : Request) (answer : Answer) (after : Power)
        (next : State)
        → IsRunSeen see m before first requests answers at now → IsStep m at after (see now) request answer next
        → Passes request answer at after
        → IsRunSeen see m before first (requests ++ request ∷ []) (answers ++ answer ∷ []) after next }
{}

/// A run tells causes that were there: of injected faults as many answers as faults were injected, and of a cut of the
/// power none where none was asked for; and where an opening says that a number ends, there were that many openings, or
/// the calls that were made left so many bytes, since openings alone give names and files, and the record only grows.
pub fn a_run_tells_causes()
    ensures faults { (m : Machine) (before : Power) (first : State) (requests : List Request) (answers : List Answer)
        (after : Power) (last : State) → IsRun m before first requests answers after last
        → after.injected ≡ before.injected + faults_told answers }
    ensures cuts { (m : Machine) (before : Power) (first : State) (requests : List Request) (answers : List Answer)
        (after : Power) (last : State) → IsRun m before first requests answers after last
        → before.left ≡ None → AskNoCut requests → TellNoCut answers }
    ensures numbers { (see : State → State) (m : Machine) (before : Power) (first : State) (requests : List Request)
        (answers : List Answer) (after : Power) (last : State)
        → IsRunSeen see m before first requests answers after last → GivesNumbers (openings_of requests) before after }
{}

/// A cut of the power that stands does so until a crash is asked for, and till then no opening and no commit succeeds.
pub fn a_cut_stands_until_a_crash()
    ensures { (m : Machine) (before : Power) (first : State) (requests : List Request) (answers : List Answer)
        (after : Power) (last : State) → IsRun m before first requests answers after last → before.left ≡ Some 0
        → AskNoCrash requests → AcknowledgeNone answers × (after.left ≡ Some 0) }
{}

/// A batch that was acknowledged, or that an opening has shown, is in for good, and none goes in before it: the history
/// that has to stay before a step, or a run, is that after it without the commits that came last. A state that is not
/// in doubt stays so.
pub fn what_is_kept_stays()
    ensures step { (m : Machine) (before after : Power) (state : State) (request : Request) (answer : Answer)
        (next : State) → IsCertain state → IsStep m before after state request answer next
        → IsCertain next × GoesOn (kept_history state) (kept_history next) }
    ensures run { (m : Machine) (before : Power) (first : State) (requests : List Request) (answers : List Answer)
        (after : Power) (last : State) → IsCertain first → IsRun m before first requests answers after last
        → IsCertain last × GoesOn (kept_history first) (kept_history last) }
{}

/// Whatever openings show, what has to stay does: the log of the history before a run in doubt begins that of the
/// history after it. So what was acknowledged in its steps begins all that is shown in later ones.
pub fn what_is_kept_stays_in_doubt()
    ensures step { (m : Machine) (before after : Power) (state : State) (request : Request) (answer : Answer)
        (next : State) → IsStep m before after (in_doubt state) request answer next
        → Begins (kept_history state) (kept_history next) }
    ensures run { (m : Machine) (before : Power) (first : State) (requests : List Request) (answers : List Answer)
        (after : Power) (last : State) → IsRunInDoubt m before first requests answers after last
        → Begins (kept_history first) (kept_history last) }
{}

/// Pruning changes no root, no value and no proof that is still answered: a prune leaves the history, and to each other
/// request a live store answers what it answers with any other number of chunks pruned, and has the same history after
/// it; but a proof of operations is to be asked from what is pruned in neither on.
pub fn pruning_changes_no_answer()
    ensures history { (m : Machine) (before after : Power) (history : History) (pruned location : ℕ) (answer : Answer)
        (next : State) → IsStep m before after (live history pruned) (ask_prune location) answer next
        → (chunks : ℕ) × (next ≡ live history chunks) }
    ensures answers { (m : Machine) (before after : Power) (history : History) (pruned other : ℕ) (request : Request)
        (answer : Answer) (next : State) → AsksNoPrune request → IsBehind m pruned request → IsBehind m other request
        → IsStep m before after (live history pruned) request answer next
        → (later : State) × IsStep m before after (live history other) request answer later
        × (kept_history later ≡ kept_history next) }
{}

/// A session that stands for a state stands for it in doubt.
pub fn what_stands_stands_in_doubt<R: Rng>()
    ensures { (format : Format) (parts : Option (DeviceState R × Cache)) (store : Option (StoreState R)) (state : State)
        → StandsFor format parts store state → StandsFor format parts store (in_doubt state) }
{}

/// A device of which nothing was called yet stands for the empty history, with any cache, keys and values.
pub fn a_new_device_stands_for_the_empty_history<R: Rng>()
    ensures { (rng : R) (device : DeviceState R) (cache : Cache) (format : Format) → IsNew rng device
        → StandsFor format (Some (device, cache)) None (closed [] None) }
{
    what_is_encoded_is_recorded();
}
