//! What holds of all proofs.

ghost use Rattle.std.specs.Prelude.{◌≡◌, ◌<◌, ◌≤◌, ◌*◌, ◌^◌, ◌⊎◌, ℕ, List, [], length, slice_get, slice_index_or};
ghost use Rattle.std.specs.Prelude.{drop, take, IfSome, Some, true};
ghost use Rattle.merkle_forest.specs.declared.bagging.Bagging.TheVariants.{BackwardFold};
ghost use Rattle.merkle_forest.specs.Forest.{forest_of, Rule};
ghost use Rattle.merkle_forest.specs.Hashing.{Hash};
ghost use Rattle.merkle_forest.specs.Made.{Collision, strings};
ghost use Rattle.merkle_forest.specs.Trees.{located};
ghost use Rattle.merkle_proofs.specs.declared.extraction.ExtractionError.{ExtractionError};
ghost use Rattle.merkle_proofs.specs.declared.extraction.ExtractionError.TheVariants.{Memory};
ghost use Rattle.merkle_theory.specs.OneEach.{OneEach};
ghost use Rattle.merkle_theory.specs.Ranges.{Digests, range_digests};
ghost use Rattle.state_ops.specs.Reading.{IsField};
ghost use Rattle.state_theory.specs.Canonical.{Setting, State, canonical_root, grafted_digests, operations_root};
ghost use Rattle.state_theory.specs.Canonical.{setting_with};
ghost use Rattle.state_theory.specs.Encoded.{format_of, ShowsOperation, ShowsUpdate};
ghost use Rattle.state_proofs.specs.Exclusion.{ExclusionParts, proof_of, operation_of, LeavesOut, Excludes};
ghost use Rattle.state_theory.specs.Honest.{honest_parts, honest_range, operation_proof, key_value_proof};
ghost use Rattle.state_theory.specs.MadeRanges.{HasActive, HasDigestsOf, HasRange, range_strings, rebuilt_strings};
ghost use Rattle.state_theory.specs.MadeStates.{hashed_strings};
ghost use Rattle.state_proofs.specs.RangeExtracted.{IsRefusalToTell, LeadsNowhere, ShowsDigests};
ghost use Rattle.state_theory.specs.Verified.{Shown, IsShaped, VerifiesRange, shown_bits, stop_of, RangeParts, Parts};
ghost use Rattle.state_theory.specs.Verified.{Verifies};
ghost use Rattle.state_proofs.specs.Witness.{WitnessParts, HasWitnessOf, witnessed_string, witnessed_made};
ghost use Rattle.state_proofs.specs.Witness.{honest_witness};

use merkle_core::laws::{
    honest_digests_are_few, honest_proofs_tell_the_nodes_of_the_list,
    honest_ranges_lead_to_the_root, proofs_that_agree_with_a_root_are_honest,
    proofs_that_lead_to_a_root_give_digests,
};
use merkle_forest::{Graftable, HashFunction, PendingOf};
use state_ops::FixedKey;
pub use state_proofs_parts::grafting::laws::a_node_has_one_position_in_each_tree;

/// The honest proof of an active operation verifies under the canonical root of its state.
pub fn honest_proofs_verify<F: Graftable>()
    ensures { (hash : Hash) (width grafting_height : ℕ) (state : State) (location : ℕ)
        → 8 * width ≡ 2 ^ grafting_height → grafting_height ≤ 62 → length state.operations ≤ 2 ^ 62
        → location < length state.operations → slice_get state.bits location ≡ Some true
        → (let setting = setting_with F.merge_rule hash width grafting_height in
        Verifies F.merge_rule hash (canonical_root setting state) (honest_parts setting state location)
        (slice_index_or state.operations location [])) }
{
    honest_ranges_verify::<F>();
}

/// The honest proof over several leaves of a tree has at most 244 digests, twice as many as that of one.
pub fn honest_range_digests_are_few<F: Graftable>()
    ensures { (hash : Hash) (digest : Digests) (leaves inactive start stop : ℕ) → leaves ≤ 2 ^ 62 → start < stop
        → stop ≤ leaves → inactive ≤ length (forest_of F.merge_rule leaves)
        → length (range_digests hash digest BackwardFold start stop
        (take inactive (located (forest_of F.merge_rule leaves)))
        (drop inactive (located (forest_of F.merge_rule leaves)))) ≤ 244 }
{
    honest_digests_are_few::<F>();
}

/// The honest bytes of an active operation are those of a proof within the limits, which shows it under the canonical
/// root.
pub fn honest_bytes_show_the_operation<
    F: Graftable + PendingOf<H::Digest>,
    H: HashFunction,
    K: FixedKey,
>()
    ensures { (width grafting_height : ℕ) (state : State) (location : ℕ)
        → 8 * width ≡ 2 ^ grafting_height → grafting_height ≤ 62 → length state.operations ≤ 2 ^ 62
        → location < length state.operations → slice_get state.bits location ≡ Some true
        → (let setting = setting_with F.merge_rule H.hash_of width grafting_height in
        let is_key = IsField (K.after tt) K.SIZE in
        let format = format_of F.merge_rule H.hash_of width H.Digest.SIZE F.is_pending F.pending_encoding is_key in
        ShowsOperation format (canonical_root setting state) (slice_index_or state.operations location [])
        (operation_proof F.pending_encoding setting state location)) }
{
    honest_digests_are_few::<F>();
    honest_proofs_verify::<F>();
}

/// The honest bytes of an active update, with the next key that it names, are those of a proof within the limits, which
/// shows it under the canonical root.
pub fn honest_bytes_show_the_update<
    F: Graftable + PendingOf<H::Digest>,
    H: HashFunction,
    K: FixedKey,
>()
    ensures { (width grafting_height : ℕ) (state : State) (location : ℕ) (update : List ℕ → List ℕ) (next_key : List ℕ)
        → 8 * width ≡ 2 ^ grafting_height → grafting_height ≤ 62 → length state.operations ≤ 2 ^ 62
        → location < length state.operations → slice_get state.bits location ≡ Some true
        → slice_index_or state.operations location [] ≡ update next_key → IsField (K.after tt) K.SIZE next_key
        → (let setting = setting_with F.merge_rule H.hash_of width grafting_height in
        let is_key = IsField (K.after tt) K.SIZE in
        let format = format_of F.merge_rule H.hash_of width H.Digest.SIZE F.is_pending F.pending_encoding is_key in
        ShowsUpdate format (canonical_root setting state) update
        (key_value_proof F.pending_encoding setting state location next_key)) }
{
    honest_bytes_show_the_operation::<F, H, K>();
}

/// Where a proof of one operation verifies under the canonical root of a state, the operation stands at its location in
/// the state and is active there, or the strings hashed for the state and those rebuilt from the proof have a
/// collision: at one site two strings differ that have one digest. So it is with digests of 32 bytes.
pub fn verified_operations_are_active_or_strings_collide<F: Graftable>()
    ensures { (hash : Hash) (width grafting_height : ℕ) (state : State) (proof : Parts) (operation : List ℕ)
        → ((bytes : List ℕ) → length (hash bytes) ≡ 32) → 8 * width ≡ 2 ^ grafting_height → grafting_height ≤ 62
        → length state.operations ≤ 2 ^ 62 → length proof.chunk ≡ width → HasDigestsOf 32 proof.range
        → (let setting = setting_with F.merge_rule hash width grafting_height in
        Verifies F.merge_rule hash (canonical_root setting state) proof operation
        → HasActive state proof.location operation
        ⊎ Collision hash (hashed_strings setting state) (rebuilt_strings setting proof operation)) }
{
    verified_ranges_are_the_states_or_strings_collide::<F>();
}

/// Where a proof over a range verifies under the canonical root of a state, the operations that are shown stand in the
/// state from the location on and the chunks over them are the state's, or the strings hashed for the state and those
/// rebuilt from the proof have a collision. So it is with digests of 32 bytes.
pub fn verified_ranges_are_the_states_or_strings_collide<F: Graftable>()
    ensures { (hash : Hash) (width grafting_height : ℕ) (state : State) (proof : RangeParts) (shown : Shown)
        → ((bytes : List ℕ) → length (hash bytes) ≡ 32) → 8 * width ≡ 2 ^ grafting_height → grafting_height ≤ 62
        → length state.operations ≤ 2 ^ 62 → shown.width ≡ width → HasDigestsOf 32 proof
        → (let setting = setting_with F.merge_rule hash width grafting_height in
        VerifiesRange F.merge_rule hash (canonical_root setting state) proof shown
        → HasRange setting state shown
        ⊎ Collision hash (hashed_strings setting state) (range_strings setting proof shown)) }
{}

/// Where a proof over a range verifies under the canonical root of a state, it is, field by field, the honest proof
/// over that range, or the strings hashed for the state and those rebuilt from the proof have a collision. So it is
/// with digests of 32 bytes.
pub fn verified_ranges_are_honest_or_strings_collide<F: Graftable>()
    ensures { (hash : Hash) (width grafting_height : ℕ) (state : State) (proof : RangeParts) (shown : Shown)
        → ((bytes : List ℕ) → length (hash bytes) ≡ 32) → 8 * width ≡ 2 ^ grafting_height → grafting_height ≤ 62
        → length state.operations ≤ 2 ^ 62 → shown.width ≡ width → HasDigestsOf 32 proof
        → (let setting = setting_with F.merge_rule hash width grafting_height in
        VerifiesRange F.merge_rule hash (canonical_root setting state) proof shown
        → (proof ≡ honest_range setting state shown.start (stop_of shown))
        ⊎ Collision hash (hashed_strings setting state) (range_strings setting proof shown)) }
{
    proofs_that_agree_with_a_root_are_honest::<F>();
}

/// Where a proof of one operation verifies under the canonical root of a state, it is, field by field, the honest proof
/// of the operation at its location, or the strings hashed for the state and those rebuilt from the proof have a
/// collision. So it is with digests of 32 bytes.
pub fn verified_operations_are_honest_or_strings_collide<F: Graftable>()
    ensures { (hash : Hash) (width grafting_height : ℕ) (state : State) (proof : Parts) (operation : List ℕ)
        → ((bytes : List ℕ) → length (hash bytes) ≡ 32) → 8 * width ≡ 2 ^ grafting_height → grafting_height ≤ 62
        → length state.operations ≤ 2 ^ 62 → length proof.chunk ≡ width → HasDigestsOf 32 proof.range
        → (let setting = setting_with F.merge_rule hash width grafting_height in
        Verifies F.merge_rule hash (canonical_root setting state) proof operation
        → (proof ≡ honest_parts setting state proof.location)
        ⊎ Collision hash (hashed_strings setting state) (rebuilt_strings setting proof operation)) }
{
    verified_ranges_are_the_states_or_strings_collide::<F>();
    verified_ranges_are_honest_or_strings_collide::<F>();
}

/// Where operations stand in a state from a location on and the chunks over them are the state's, the honest proof over
/// them shows them under the canonical root.
pub fn honest_ranges_verify<F: Graftable>()
    ensures { (hash : Hash) (width grafting_height : ℕ) (state : State) (shown : Shown)
        → 8 * width ≡ 2 ^ grafting_height → grafting_height ≤ 62 → length state.operations ≤ 2 ^ 62
        → shown.width ≡ width → IsShaped (length state.operations) shown
        → (let setting = setting_with F.merge_rule hash width grafting_height in
        HasRange setting state shown
        → VerifiesRange F.merge_rule hash (canonical_root setting state)
        (honest_range setting state shown.start (stop_of shown)) shown) }
{
    honest_ranges_lead_to_the_root::<F>();
}

/// The honest witness of a state leads from the root of its operations' tree to its canonical root.
pub fn honest_witnesses_lead_to_the_root()
    ensures { (setting : Setting) (state : State)
        → setting.hash (witnessed_string (honest_witness setting state) (operations_root setting state))
        ≡ canonical_root setting state }
{}

/// Where a witness leads from a root to the canonical root of a state, that root is the one of the state's operations,
/// or the strings hashed for the state and those rebuilt from the witness have a collision. So it is with digests of 32
/// bytes.
pub fn witnessed_roots_are_the_states_or_strings_collide()
    ensures { (setting : Setting) (state : State) (witness : WitnessParts) (operations : List ℕ)
        → ((bytes : List ℕ) → length (setting.hash bytes) ≡ 32) → HasWitnessOf 32 witness → length operations ≡ 32
        → setting.hash (witnessed_string witness operations) ≡ canonical_root setting state
        → (operations ≡ operations_root setting state)
        ⊎ Collision setting.hash (hashed_strings setting state)
        (strings setting.hash (witnessed_made witness operations)) }
{}

/// Where a witness leads from a root to the canonical root of a state, it is, field by field, the honest one, or the
/// strings hashed for the state and those rebuilt from the witness have a collision. So it is with digests of 32 bytes.
pub fn verified_witnesses_are_honest_or_strings_collide()
    ensures { (setting : Setting) (state : State) (witness : WitnessParts) (operations : List ℕ)
        → ((bytes : List ℕ) → length (setting.hash bytes) ≡ 32) → length state.operations ≤ 2 ^ 62
        → HasWitnessOf 32 witness → IfSome witness.partial (λ x. x.0 < 2 ^ 64) → length operations ≡ 32
        → setting.hash (witnessed_string witness operations) ≡ canonical_root setting state
        → (witness ≡ honest_witness setting state)
        ⊎ Collision setting.hash (hashed_strings setting state)
        (strings setting.hash (witnessed_made witness operations)) }
{}

/// Where an operation is active in a state and leaves a key out, the honest proof of it shows that the key is not in
/// the state, under its canonical root.
pub fn honest_absences_verify<F: Graftable>()
    ensures { (hash : Hash) (width grafting_height key_size value_size : ℕ) (state : State) (proof : ExclusionParts)
        (key : List ℕ)
        → 8 * width ≡ 2 ^ grafting_height → grafting_height ≤ 62 → length state.operations ≤ 2 ^ 62
        → (let setting = setting_with F.merge_rule hash width grafting_height in
        proof_of proof ≡ honest_parts setting state (proof_of proof).location
        → HasActive state (proof_of proof).location (operation_of key_size value_size proof) → LeavesOut proof key
        → Excludes F.merge_rule hash key_size value_size (canonical_root setting state) proof key) }
{
    honest_proofs_verify::<F>();
}

/// Where a proof of absence verifies under the canonical root of a state, its operation stands at its location in the
/// state, is active there and leaves the key out, or the strings hashed for the state and those rebuilt from the proof
/// have a collision. So it is with digests of 32 bytes.
pub fn verified_absences_are_the_states_or_strings_collide<F: Graftable>()
    ensures { (hash : Hash) (width grafting_height key_size value_size : ℕ) (state : State) (proof : ExclusionParts)
        (key : List ℕ)
        → ((bytes : List ℕ) → length (hash bytes) ≡ 32) → 8 * width ≡ 2 ^ grafting_height → grafting_height ≤ 62
        → length state.operations ≤ 2 ^ 62 → length (proof_of proof).chunk ≡ width
        → HasDigestsOf 32 (proof_of proof).range
        → (let setting = setting_with F.merge_rule hash width grafting_height in
        Excludes F.merge_rule hash key_size value_size (canonical_root setting state) proof key
        → (HasActive state (proof_of proof).location (operation_of key_size value_size proof) × LeavesOut proof key)
        ⊎ Collision hash (hashed_strings setting state)
        (rebuilt_strings setting (proof_of proof) (operation_of key_size value_size proof))) }
{
    verified_operations_are_active_or_strings_collide::<F>();
}

/// At each site one string is hashed for a state, and one when a canonical root is rebuilt from a proof of one
/// operation, from one over a range, or from a witness.
pub fn each_site_has_one_string<F: Graftable>()
    ensures hashed { (hash : Hash) (width grafting_height : ℕ) (state : State)
        → (let setting = setting_with F.merge_rule hash width grafting_height in
        OneEach (hashed_strings setting state)) }
    ensures rebuilt { (hash : Hash) (width grafting_height : ℕ) (proof : Parts) (operation : List ℕ)
        → (let setting = setting_with F.merge_rule hash width grafting_height in
        OneEach (rebuilt_strings setting proof operation)) }
    ensures shown { (hash : Hash) (width grafting_height : ℕ) (proof : RangeParts) (shown : Shown)
        → (let setting = setting_with F.merge_rule hash width grafting_height in
        OneEach (range_strings setting proof shown)) }
    ensures witnessed { (hash : Hash) (witness : WitnessParts) (operations : List ℕ)
        → OneEach (strings hash (witnessed_made witness operations)) }
{}

/// A proof over a range leads to one root at most, and to none where it is told why.
pub fn a_range_leads_to_one_root_or_to_none()
    ensures one { (rule : Rule) (hash : Hash) (one other : List ℕ) (proof : RangeParts) (shown : Shown)
        → VerifiesRange rule hash one proof shown → VerifiesRange rule hash other proof shown → one ≡ other }
    ensures none { (rule : Rule) (hash : Hash) (root : List ℕ) (proof : RangeParts) (shown : Shown)
        → LeadsNowhere rule hash proof shown → VerifiesRange rule hash root proof shown → ⊥ }
{}

/// Each proof over a range that leads to a root shows digests of the nodes that it tells.
pub fn ranges_that_lead_to_a_root_show_digests<F: Graftable>()
    ensures { (hash : Hash) (grafting_height : ℕ) (root : List ℕ) (proof : RangeParts) (shown : Shown)
        → shown_bits shown ≡ 2 ^ grafting_height → VerifiesRange F.merge_rule hash root proof shown
        → (digest : Digests) × ShowsDigests F.merge_rule hash grafting_height proof shown digest }
{
    proofs_that_lead_to_a_root_give_digests::<F>();
}

/// Where operations stand in a state from a location on and the chunks over them are the state's, the honest proof over
/// them shows the digests of the state's grafted tree: what it tells are the nodes of the state, and under the
/// canonical root only memory may be lacking for them.
pub fn honest_ranges_tell_the_nodes_of_the_state<F: Graftable>()
    ensures nodes { (hash : Hash) (width grafting_height : ℕ) (state : State) (shown : Shown)
        → 8 * width ≡ 2 ^ grafting_height → grafting_height ≤ 62 → length state.operations ≤ 2 ^ 62
        → shown.width ≡ width → IsShaped (length state.operations) shown
        → (let setting = setting_with F.merge_rule hash width grafting_height in
        HasRange setting state shown
        → ShowsDigests F.merge_rule hash grafting_height (honest_range setting state shown.start (stop_of shown)) shown
        (grafted_digests setting state)) }
    ensures refused { (hash : Hash) (width grafting_height : ℕ) (state : State) (shown : Shown)
        (error : ExtractionError)
        → 8 * width ≡ 2 ^ grafting_height → grafting_height ≤ 62 → length state.operations ≤ 2 ^ 62
        → shown.width ≡ width → IsShaped (length state.operations) shown
        → (let setting = setting_with F.merge_rule hash width grafting_height in
        HasRange setting state shown
        → IsRefusalToTell F.merge_rule hash (canonical_root setting state)
        (honest_range setting state shown.start (stop_of shown)) shown error → error ≡ Memory) }
{
    honest_proofs_tell_the_nodes_of_the_list::<F>();
    honest_ranges_verify::<F>();
}
