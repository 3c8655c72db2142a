//! What holds of all proofs.

ghost use Rattle.std.specs.Prelude.{◌<◌, ℕ, Bool, List, []};
ghost use Rattle.state_ops.specs.Operation.{Operation};
ghost use Rattle.state_ops.specs.Reading.{IsField, IsOfFields};
ghost use Rattle.auth_store_parts.specs.History.{History, log_of};
ghost use Rattle.auth_store_client.specs.Claims.{Claim, Shows, has_value, has_range, has_slice, terms};
ghost use Rattle.auth_store_client.specs.Fields.{IsSound};
ghost use Rattle.auth_store_client.specs.Promises.{TrueValuesAreShown, AbsencesAreShown, ActiveOperationsAreShown};
ghost use Rattle.auth_store_client.specs.Promises.{RangesAreShown, SlicesAreShown};
ghost use Rattle.auth_store_client.specs.Promises.{ShownValuesAreTrue, ShownAbsencesAreTrue, ShownOperationsAreActive};
ghost use Rattle.auth_store_client.specs.Promises.{ShownRangesAreTrue, ShownSlicesAreTrue, ShownClaimsAreTrue};
ghost use Rattle.auth_store_client.specs.Promises.{ShownValuesAreHonest, ShownAbsencesAreHonest};
ghost use Rattle.auth_store_client.specs.Promises.{ShownOperationsAreHonest, ShownRangesAreHonest};
ghost use Rattle.auth_store_client.specs.Promises.{ShownSlicesAreHonest, ShownClaimsAreHonest, RebuildsTheSame};
ghost use Rattle.auth_store_client.specs.Soundness.{HasSizes, IsAlone, AreReadAgain};
ghost use Rattle.auth_store_client.specs.States.{setting_of_width};

use merkle_core::laws::{
    built_proofs_lead_to_the_root, honest_digests_are_few, proofs_that_agree_with_a_root_are_honest,
};
use merkle_forest::{Graftable, HashFunction, PendingOf};
use state_ops::ordered::laws::encoded_is_read_again;
use state_ops::{FixedKey, FixedValue};
use state_proofs::laws::{
    honest_bytes_show_the_operation, honest_bytes_show_the_update, honest_ranges_verify,
    honest_witnesses_lead_to_the_root, verified_absences_are_the_states_or_strings_collide,
    verified_operations_are_active_or_strings_collide,
    verified_operations_are_honest_or_strings_collide,
    verified_ranges_are_honest_or_strings_collide,
    verified_ranges_are_the_states_or_strings_collide,
    verified_witnesses_are_honest_or_strings_collide,
    witnessed_roots_are_the_states_or_strings_collide,
};

/// The honest proof of a key's value shows it under the root of the history, where the next key is one that is read: so
/// `check` says yes to it.
pub fn honest_proofs_show_true_values<F, H, K, V, const N: usize>()
where
    F: Graftable + PendingOf<H::Digest>,
    H: HashFunction,
    K: FixedKey,
    V: FixedValue,
    ensures { TrueValuesAreShown (setting_of_width F.merge_rule H.hash_of N)
        (terms F.merge_rule H.hash_of N H.Digest.SIZE F.is_pending F.pending_encoding (K.after tt) (V.after tt)
        K.SIZE V.SIZE) }
{
    honest_bytes_show_the_update::<F, H, K>();
}

/// The honest proof that a key is absent shows it under the root of the history, where what it names are keys and
/// values: so `check` says yes to it.
pub fn honest_proofs_show_absence<F, H, K, V, const N: usize>()
where
    F: Graftable + PendingOf<H::Digest>,
    H: HashFunction,
    K: FixedKey,
    V: FixedValue,
    ensures { AbsencesAreShown (setting_of_width F.merge_rule H.hash_of N)
        (terms F.merge_rule H.hash_of N H.Digest.SIZE F.is_pending F.pending_encoding (K.after tt) (V.after tt)
        K.SIZE V.SIZE) }
{
    honest_bytes_show_the_operation::<F, H, K>();
}

/// The honest proof of an operation that is active shows it under the root of the history: so `check` says yes to it.
pub fn honest_operations_are_shown<F, H, K, V, const N: usize>()
where
    F: Graftable + PendingOf<H::Digest>,
    H: HashFunction,
    K: FixedKey,
    V: FixedValue,
    ensures { ActiveOperationsAreShown (setting_of_width F.merge_rule H.hash_of N)
        (terms F.merge_rule H.hash_of N H.Digest.SIZE F.is_pending F.pending_encoding (K.after tt) (V.after tt)
        K.SIZE V.SIZE) }
{
    honest_bytes_show_the_operation::<F, H, K>();
}

/// The honest proof over operations of the log, with the chunks over them, shows them with their bits under the root of
/// the history: so `check` says yes to it.
pub fn honest_ranges_are_shown<F, H, K, V, const N: usize>()
where
    F: Graftable + PendingOf<H::Digest>,
    H: HashFunction,
    K: FixedKey,
    V: FixedValue,
    ensures { RangesAreShown (setting_of_width F.merge_rule H.hash_of N)
        (terms F.merge_rule H.hash_of N H.Digest.SIZE F.is_pending F.pending_encoding (K.after tt) (V.after tt)
        K.SIZE V.SIZE) }
{
    honest_digests_are_few::<F>();
    honest_ranges_verify::<F>();
}

/// The honest witness with the honest proof of operations of the log shows them under the root of the history: so
/// `check` says yes to it.
pub fn honest_slices_are_shown<F, H, K, V, const N: usize>()
where
    F: Graftable + PendingOf<H::Digest>,
    H: HashFunction,
    K: FixedKey,
    V: FixedValue,
    ensures { SlicesAreShown (setting_of_width F.merge_rule H.hash_of N)
        (terms F.merge_rule H.hash_of N H.Digest.SIZE F.is_pending F.pending_encoding (K.after tt) (V.after tt)
        K.SIZE V.SIZE) }
{
    honest_digests_are_few::<F>();
    built_proofs_lead_to_the_root::<F>();
    honest_witnesses_lead_to_the_root();
}

/// Where bytes show a key's value under the root of a history, the key has it in the latest state, or the strings
/// hashed for the history and those rebuilt from the claim and the decoded proof have a collision: at one site two
/// strings differ that have one digest. So where `check` says yes the claim is true or two strings collide, with
/// digests of 32 bytes.
pub fn shown_values_are_true_or_strings_collide<F, H, K, V, const N: usize>()
where
    F: Graftable + PendingOf<H::Digest>,
    H: HashFunction,
    K: FixedKey,
    V: FixedValue,
    ensures { ShownValuesAreTrue (setting_of_width F.merge_rule H.hash_of N)
        (terms F.merge_rule H.hash_of N H.Digest.SIZE F.is_pending F.pending_encoding (K.after tt) (V.after tt)
        K.SIZE V.SIZE) }
{
    verified_operations_are_active_or_strings_collide::<F>();
}

/// Where bytes show under the root of a history that a key is absent, the latest state lacks the key, or strings
/// collide.
pub fn shown_absences_are_true_or_strings_collide<F, H, K, V, const N: usize>()
where
    F: Graftable + PendingOf<H::Digest>,
    H: HashFunction,
    K: FixedKey,
    V: FixedValue,
    ensures { ShownAbsencesAreTrue (setting_of_width F.merge_rule H.hash_of N)
        (terms F.merge_rule H.hash_of N H.Digest.SIZE F.is_pending F.pending_encoding (K.after tt) (V.after tt)
        K.SIZE V.SIZE) (K.after tt) (V.after tt) }
{
    encoded_is_read_again();
    verified_absences_are_the_states_or_strings_collide::<F>();
}

/// Where bytes show under the root of a history that an operation is active at a location, it stands there in the log
/// and is active, or strings collide.
pub fn shown_operations_are_active_or_strings_collide<F, H, K, V, const N: usize>()
where
    F: Graftable + PendingOf<H::Digest>,
    H: HashFunction,
    K: FixedKey,
    V: FixedValue,
    ensures { ShownOperationsAreActive (setting_of_width F.merge_rule H.hash_of N)
        (terms F.merge_rule H.hash_of N H.Digest.SIZE F.is_pending F.pending_encoding (K.after tt) (V.after tt)
        K.SIZE V.SIZE) }
{
    verified_operations_are_active_or_strings_collide::<F>();
}

/// Where bytes show under the root of a history that operations stand from a location on and are active as these bits
/// say, they stand there in the log and are so, or strings collide.
pub fn shown_ranges_are_true_or_strings_collide<F, H, K, V, const N: usize>()
where
    F: Graftable + PendingOf<H::Digest>,
    H: HashFunction,
    K: FixedKey,
    V: FixedValue,
    ensures { ShownRangesAreTrue (setting_of_width F.merge_rule H.hash_of N)
        (terms F.merge_rule H.hash_of N H.Digest.SIZE F.is_pending F.pending_encoding (K.after tt) (V.after tt)
        K.SIZE V.SIZE) }
{
    verified_ranges_are_the_states_or_strings_collide::<F>();
}

/// Where bytes show under the root of a history that operations stand from a location on, they stand there in the log,
/// or strings collide.
pub fn shown_slices_are_true_or_strings_collide<F, H, K, V, const N: usize>()
where
    F: Graftable + PendingOf<H::Digest>,
    H: HashFunction,
    K: FixedKey,
    V: FixedValue,
    ensures { ShownSlicesAreTrue (setting_of_width F.merge_rule H.hash_of N)
        (terms F.merge_rule H.hash_of N H.Digest.SIZE F.is_pending F.pending_encoding (K.after tt) (V.after tt)
        K.SIZE V.SIZE) }
{
    witnessed_roots_are_the_states_or_strings_collide();
}

/// Where bytes show a key's value under the root of a history of keys and values, they are the honest bytes of the key,
/// or strings collide.
pub fn shown_values_are_honest_or_strings_collide<F, H, K, V, const N: usize>()
where
    F: Graftable + PendingOf<H::Digest>,
    H: HashFunction,
    K: FixedKey,
    V: FixedValue,
    ensures { ShownValuesAreHonest (setting_of_width F.merge_rule H.hash_of N)
        (terms F.merge_rule H.hash_of N H.Digest.SIZE F.is_pending F.pending_encoding (K.after tt) (V.after tt)
        K.SIZE V.SIZE) }
{
    verified_operations_are_active_or_strings_collide::<F>();
    verified_operations_are_honest_or_strings_collide::<F>();
}

/// Where bytes show under the root of a history of keys and values that a key is absent, they are the honest bytes of
/// this, or strings collide.
pub fn shown_absences_are_honest_or_strings_collide<F, H, K, V, const N: usize>()
where
    F: Graftable + PendingOf<H::Digest>,
    H: HashFunction,
    K: FixedKey,
    V: FixedValue,
    ensures { ShownAbsencesAreHonest (setting_of_width F.merge_rule H.hash_of N)
        (terms F.merge_rule H.hash_of N H.Digest.SIZE F.is_pending F.pending_encoding (K.after tt) (V.after tt)
        K.SIZE V.SIZE) }
{
    sound_histories_are_read_again::<K, V>();
    verified_operations_are_active_or_strings_collide::<F>();
    verified_operations_are_honest_or_strings_collide::<F>();
}

/// Where bytes show under the root of a history that an operation is active at a location, they are the honest bytes of
/// the operation there, or strings collide.
pub fn shown_operations_are_honest_or_strings_collide<F, H, K, V, const N: usize>()
where
    F: Graftable + PendingOf<H::Digest>,
    H: HashFunction,
    K: FixedKey,
    V: FixedValue,
    ensures { ShownOperationsAreHonest (setting_of_width F.merge_rule H.hash_of N)
        (terms F.merge_rule H.hash_of N H.Digest.SIZE F.is_pending F.pending_encoding (K.after tt) (V.after tt)
        K.SIZE V.SIZE) }
{
    verified_operations_are_honest_or_strings_collide::<F>();
}

/// Where bytes show under the root of a history that operations stand from a location on and are active as these bits
/// say, they are the honest bytes of these operations with their bits, or strings collide.
pub fn shown_ranges_are_honest_or_strings_collide<F, H, K, V, const N: usize>()
where
    F: Graftable + PendingOf<H::Digest>,
    H: HashFunction,
    K: FixedKey,
    V: FixedValue,
    ensures { ShownRangesAreHonest (setting_of_width F.merge_rule H.hash_of N)
        (terms F.merge_rule H.hash_of N H.Digest.SIZE F.is_pending F.pending_encoding (K.after tt) (V.after tt)
        K.SIZE V.SIZE) }
{
    verified_ranges_are_the_states_or_strings_collide::<F>();
    verified_ranges_are_honest_or_strings_collide::<F>();
}

/// Where bytes show under the root of a history that operations stand from a location on, they are the honest bytes of
/// these operations, or strings collide.
pub fn shown_slices_are_honest_or_strings_collide<F, H, K, V, const N: usize>()
where
    F: Graftable + PendingOf<H::Digest>,
    H: HashFunction,
    K: FixedKey,
    V: FixedValue,
    ensures { ShownSlicesAreHonest (setting_of_width F.merge_rule H.hash_of N)
        (terms F.merge_rule H.hash_of N H.Digest.SIZE F.is_pending F.pending_encoding (K.after tt) (V.after tt)
        K.SIZE V.SIZE) }
{
    proofs_that_agree_with_a_root_are_honest::<F>();
    witnessed_roots_are_the_states_or_strings_collide();
    verified_witnesses_are_honest_or_strings_collide();
}

/// Where bytes show a claim of keys and values under the root of a history of such, they are the honest bytes of the
/// claim, or strings collide: so a claim has one proof at most.
pub fn shown_claims_are_honest_or_strings_collide<F, H, K, V, const N: usize>()
where
    F: Graftable + PendingOf<H::Digest>,
    H: HashFunction,
    K: FixedKey,
    V: FixedValue,
    ensures { ShownClaimsAreHonest (setting_of_width F.merge_rule H.hash_of N)
        (terms F.merge_rule H.hash_of N H.Digest.SIZE F.is_pending F.pending_encoding (K.after tt) (V.after tt)
        K.SIZE V.SIZE) }
{
    shown_values_are_honest_or_strings_collide::<F, H, K, V, N>();
    shown_absences_are_honest_or_strings_collide::<F, H, K, V, N>();
    shown_operations_are_honest_or_strings_collide::<F, H, K, V, N>();
    shown_ranges_are_honest_or_strings_collide::<F, H, K, V, N>();
    shown_slices_are_honest_or_strings_collide::<F, H, K, V, N>();
}

/// No bytes show a claim of a range or of a slice that names no operation: so `check` says no to it.
pub fn claims_without_operations_are_not_shown<F, H, K, V, const N: usize>()
where
    F: Graftable + PendingOf<H::Digest>,
    H: HashFunction,
    K: FixedKey,
    V: FixedValue,
    ensures range { (start : ℕ) (active : List Bool) (root bytes : List ℕ)
        → (let terms = terms F.merge_rule H.hash_of N H.Digest.SIZE F.is_pending F.pending_encoding (K.after tt)
        (V.after tt) K.SIZE V.SIZE in
        Shows terms (has_range start [] active) root bytes → ⊥) }
    ensures slice { (start : ℕ) (root bytes : List ℕ)
        → (let terms = terms F.merge_rule H.hash_of N H.Digest.SIZE F.is_pending F.pending_encoding (K.after tt)
        (V.after tt) K.SIZE V.SIZE in
        Shows terms (has_slice start []) root bytes → ⊥) }
{}

/// Bytes that show a claim under two roots are rebuilt to the same strings: the bytes and the claim tell which.
pub fn rebuilt_strings_are_of_the_bytes<F, H, K, V, const N: usize>()
where
    F: Graftable + PendingOf<H::Digest>,
    H: HashFunction,
    K: FixedKey,
    V: FixedValue,
    ensures values { (key value root other bytes : List ℕ)
        → RebuildsTheSame (setting_of_width F.merge_rule H.hash_of N)
        (terms F.merge_rule H.hash_of N H.Digest.SIZE F.is_pending F.pending_encoding (K.after tt) (V.after tt)
        K.SIZE V.SIZE) (has_value key value) root other bytes }
    ensures claims { (claim : Claim) (root other bytes : List ℕ) → 0 < N
        → RebuildsTheSame (setting_of_width F.merge_rule H.hash_of N)
        (terms F.merge_rule H.hash_of N H.Digest.SIZE F.is_pending F.pending_encoding (K.after tt) (V.after tt)
        K.SIZE V.SIZE) claim root other bytes }
{}

/// The operations of a history whose keys and values are some are read again as they were written, its keys and values
/// have their sizes, and an operation of keys and values is alone in its log: so what is said of such histories above
/// holds of each that a store may have.
pub fn sound_histories_are_read_again<K: FixedKey, V: FixedValue>()
    ensures read { (history : History) → IsSound (IsField (K.after tt) K.SIZE) (IsField (V.after tt) V.SIZE) history
        → AreReadAgain (K.after tt) (V.after tt) K.SIZE V.SIZE (log_of history) }
    ensures sized { (history : History) → IsSound (IsField (K.after tt) K.SIZE) (IsField (V.after tt) V.SIZE) history
        → HasSizes K.SIZE V.SIZE history }
    ensures alone { (history : History) (operation : Operation)
        → IsSound (IsField (K.after tt) K.SIZE) (IsField (V.after tt) V.SIZE) history
        → IsOfFields (IsField (K.after tt) K.SIZE) (IsField (V.after tt) V.SIZE) operation
        → IsAlone K.SIZE V.SIZE (log_of history) operation }
{
    encoded_is_read_again();
}

/// Where bytes show a claim of keys and values under the root of a history of such, the claim is true of it, or strings
/// collide.
pub fn shown_claims_are_true_or_strings_collide<F, H, K, V, const N: usize>()
where
    F: Graftable + PendingOf<H::Digest>,
    H: HashFunction,
    K: FixedKey,
    V: FixedValue,
    ensures { ShownClaimsAreTrue (setting_of_width F.merge_rule H.hash_of N)
        (terms F.merge_rule H.hash_of N H.Digest.SIZE F.is_pending F.pending_encoding (K.after tt) (V.after tt)
        K.SIZE V.SIZE) }
{
    sound_histories_are_read_again::<K, V>();
    shown_values_are_true_or_strings_collide::<F, H, K, V, N>();
    shown_absences_are_true_or_strings_collide::<F, H, K, V, N>();
    shown_operations_are_active_or_strings_collide::<F, H, K, V, N>();
    shown_ranges_are_true_or_strings_collide::<F, H, K, V, N>();
    shown_slices_are_true_or_strings_collide::<F, H, K, V, N>();
}
