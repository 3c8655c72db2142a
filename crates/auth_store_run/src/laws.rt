//! What holds of the roots that a run answers.

ghost use Rattle.std.specs.Prelude.{◌≡◌, ◌⊎◌, ℕ, List};
ghost use Rattle.auth_store_parts.specs.History.{History};
ghost use Rattle.auth_store_client.specs.Claims.{Claim, terms};
ghost use Rattle.auth_store_client.specs.Soundness.{IsProved, IsTrueOrCollides};
ghost use Rattle.auth_store_log.specs.Records.{Format, format_of};
ghost use Rattle.auth_store_machine.specs.Machine.{Machine, Power, State, live, Request, Answer, committed, root_is};
ghost use Rattle.auth_store_machine.specs.Machine.{machine, IsRunSeen};
ghost use Rattle.auth_store_machine.specs.Sound.{HasSoundStates, TellsRootOf, TellsRoots};

use merkle_forest::{Graftable, HashFunction, PendingOf};
use state_ops::{FixedKey, FixedValue};

/// Each root that a run of sound states answers is that of the history which the machine has then, and the history is
/// sound.
pub fn answered_roots_are_of_sound_histories()
    ensures { (format : Format) (see : State → State) (m : Machine) (before : Power) (first : State)
        (requests : List Request) (answers : List Answer) (after : Power) (last : State)
        → (ran : IsRunSeen see m before first requests answers after last)
        → HasSoundStates format see m before first requests answers after last ran
        → TellsRoots format see m before first requests answers after last ran }
{}

/// What a client says yes to under such a root is true of that history, or two different strings hashed at one place
/// share a digest: `auth_store_client::check` says what is proved where it says yes.
pub fn a_yes_under_an_answered_root_is_true<F, H, K, V, const N: usize>()
where
    F: Graftable + PendingOf<H::Digest>,
    H: HashFunction,
    K: FixedKey,
    V: FixedValue,
    ensures { (page_size : ℕ) (history : History) (pruned : ℕ) (answer : Answer) (claim : Claim) (root bytes : List ℕ)
        → (let format = format_of (K.after tt) (V.after tt) K.SIZE V.SIZE in
        let m = machine F.merge_rule H.hash_of F.pending_encoding N K.SIZE V.SIZE page_size in
        let terms = terms F.merge_rule H.hash_of N H.Digest.SIZE F.is_pending F.pending_encoding (K.after tt)
        (V.after tt) K.SIZE V.SIZE in
        (answer ≡ committed root) ⊎ (answer ≡ root_is root) → TellsRootOf m format answer (live history pruned)
        → (proved : IsProved m.setting terms claim root bytes)
        → IsTrueOrCollides m.setting terms claim history root bytes proved.shown) }
{}
