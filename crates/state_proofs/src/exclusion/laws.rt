//! What holds of proofs that a key is not in a state, with keys and values of any size.

ghost use Rattle.std.specs.Prelude.{◌≡◌, ◌≤◌, ◌*◌, ◌^◌, ◌⊎◌, ℕ, List, length};
ghost use Rattle.merkle_forest.specs.Hashing.{Hash};
ghost use Rattle.merkle_forest.specs.Made.{Collision};
ghost use Rattle.state_ops_parts.specs.Operation.{Operation};
ghost use Rattle.state_proofs.specs.Exclusion.{ExclusionParts, ExcludesAs, LeavesOut, operation_as, proof_of};
ghost use Rattle.state_theory.specs.Canonical.{State, canonical_root, setting_with};
ghost use Rattle.state_theory.specs.Honest.{honest_parts};
ghost use Rattle.state_theory.specs.MadeRanges.{HasActive, HasDigestsOf, rebuilt_strings};
ghost use Rattle.state_theory.specs.MadeStates.{hashed_strings};

use crate::laws::{honest_proofs_verify, verified_operations_are_active_or_strings_collide};
use merkle_forest::Graftable;

/// Where an operation is active in a state and leaves a key out, the honest proof of it shows that the key is not in
/// the state, under its canonical root, however operations are encoded.
pub fn honest_absences_of_any_size_verify<F: Graftable>()
    ensures { (hash : Hash) (width grafting_height : ℕ) (spelled : Operation (List ℕ) → List ℕ) (state : State)
        (proof span : ExclusionParts) (key : List ℕ)
        → 8 * width ≡ 2 ^ grafting_height → grafting_height ≤ 62 → length state.operations ≤ 2 ^ 62
        → (let setting = setting_with F.merge_rule hash width grafting_height in
        proof_of proof ≡ honest_parts setting state (proof_of proof).location
        → HasActive state (proof_of proof).location (operation_as spelled proof) → LeavesOut span key
        → ExcludesAs F.merge_rule hash spelled (canonical_root setting state) proof span key) }
{
    honest_proofs_verify::<F>();
}

/// Where a proof of absence verifies under the canonical root of a state, its operation stands at its location in the
/// state, is active there and leaves the key out, or the strings hashed for the state and those rebuilt from the proof
/// have a collision, however operations are encoded. So it is with digests of 32 bytes.
pub fn verified_absences_of_any_size_are_the_states_or_strings_collide<F: Graftable>()
    ensures { (hash : Hash) (width grafting_height : ℕ) (spelled : Operation (List ℕ) → List ℕ) (state : State)
        (proof span : ExclusionParts) (key : List ℕ)
        → ((bytes : List ℕ) → length (hash bytes) ≡ 32) → 8 * width ≡ 2 ^ grafting_height → grafting_height ≤ 62
        → length state.operations ≤ 2 ^ 62 → length (proof_of proof).chunk ≡ width
        → HasDigestsOf 32 (proof_of proof).range
        → (let setting = setting_with F.merge_rule hash width grafting_height in
        ExcludesAs F.merge_rule hash spelled (canonical_root setting state) proof span key
        → (HasActive state (proof_of proof).location (operation_as spelled proof) × LeavesOut span key)
        ⊎ Collision hash (hashed_strings setting state)
        (rebuilt_strings setting (proof_of proof) (operation_as spelled proof))) }
{
    verified_operations_are_active_or_strings_collide::<F>();
}
