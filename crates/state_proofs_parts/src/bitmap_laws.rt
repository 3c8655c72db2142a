//! What is kept of a list of bits says of the list, and what the proof of a bit says of it.

ghost use Rattle.std.specs.Prelude.{◌≡◌, ◌<◌, ◌≤◌, ◌+◌, ◌-◌, ◌*◌};
ghost use Rattle.std.specs.Prelude.{◌/◌, ◌%◌, ◌^◌, ◌++◌, false, Bool, ℕ, List, length};
ghost use Rattle.std.specs.Prelude.{slice_set, slice_index_or, option_map, Some, IfSome};
ghost use Rattle.std.specs.List.{All};
ghost use Rattle.merkle_forest.specs.declared.bagging.Bagging.{Bagging};
ghost use Rattle.merkle_forest.specs.Hashing.{Hash};
ghost use Rattle.merkle_forest.specs.Made.{value, strings};
ghost use Rattle.merkle_core_parts.specs.Mem.{plain_node};
ghost use Rattle.merkle_theory.specs.MadeTrees.{plain_over};
ghost use Rattle.merkle_theory.specs.OneEach.{OneEach};
ghost use Rattle.state_theory.specs.Bits.{Bits, IsChunkWidth, AreBitsOf, bits_in, bit_count, chunk_at};
ghost use Rattle.state_theory.specs.Bits.{last_chunk, last_chunk_of, pruned_to};
ghost use Rattle.state_theory.specs.Inclusion.{made_bitmap, BitClaim, bit_root, IsSound, plain_leaf, plain_root};
ghost use Rattle.state_theory.specs.Inclusion.{honest_claim, IsTrueOf};
ghost use Rattle.state_theory.specs.Maps.{bitmap_string};

use merkle_core::laws::{
    built_proofs_lead_to_the_root, each_site_has_one_string as tree_sites_have_one_string,
};
use merkle_core_parts::laws::plain_roots_are_tree_roots;
use merkle_forest::mmr::Family;

/// There are as many bits as the list has.
pub fn bits_are_as_many_as_the_list_has()
    ensures { (width : ℕ) (all : List Bool) (bits : Bits) → AreBitsOf width all bits
        → bit_count width bits ≡ length all }
{}

/// A bit that is not pruned is that of the list.
pub fn a_kept_bit_is_that_of_the_list()
    ensures { (width : ℕ) (all : List Bool) (bits : Bits) (bit : ℕ) → AreBitsOf width all bits
        → 8 * width * bits.pruned ≤ bit
        → slice_index_or bits.kept (bit - 8 * width * bits.pruned) false ≡ slice_index_or all bit false }
{}

/// A chunk that is not pruned is that of the list.
pub fn a_kept_chunk_is_that_of_the_list()
    ensures { (width : ℕ) (all : List Bool) (bits : Bits) (index : ℕ) → AreBitsOf width all bits
        → bits.pruned ≤ index → chunk_at width bits.kept (index - bits.pruned) ≡ chunk_at width all index }
{}

/// The last chunk of what is kept is that of the list: where all bits are pruned, or there are none, zeros without a
/// bit; where they fill their chunks the last full one; else the partial one.
pub fn a_last_chunk_is_that_of_the_list()
    ensures { (width : ℕ) (all : List Bool) (bits : Bits) → IsChunkWidth width → AreBitsOf width all bits
        → last_chunk width bits.kept ≡ last_chunk_of width all bits.pruned }
{}

/// What is read out of the chunk of a bit is that bit of the list.
pub fn a_bit_of_its_chunk_is_that_of_the_list()
    ensures { (width : ℕ) (all : List Bool) (bit : ℕ) → IsChunkWidth width
        → slice_index_or (bits_in (chunk_at width all (bit / (8 * width)))) (bit % (8 * width)) false
        ≡ slice_index_or all bit false }
{}

/// What is read out of the chunk of a claim that is true of a list of bits is the claimed bit of the list.
pub fn a_bit_of_a_true_claim_is_that_of_the_list()
    ensures { (width : ℕ) (all : List Bool) (claim : BitClaim) → IsChunkWidth width → IsTrueOf width all claim
        → slice_index_or (bits_in claim.chunk) (claim.bit % (8 * width)) false
        ≡ slice_index_or all claim.bit false }
{}

/// What is kept with more bits is kept of the list with those at its end.
pub fn pushed_bits_end_the_list()
    ensures { (width : ℕ) (all : List Bool) (bits : Bits) (more : List Bool) → AreBitsOf width all bits
        → AreBitsOf width (all ++ more) (record bits { kept = bits.kept ++ more }) }
{}

/// What is kept with one bit changed is kept of the list with that bit changed.
pub fn a_changed_bit_is_changed_in_the_list()
    ensures { (width : ℕ) (all : List Bool) (bits : Bits) (bit : ℕ) (value : Bool) → AreBitsOf width all bits
        → 8 * width * bits.pruned ≤ bit
        → AreBitsOf width (slice_set all bit value)
        (record bits { kept = slice_set bits.kept (bit - 8 * width * bits.pruned) value }) }
{}

/// What is kept after chunks are pruned is kept of the same list.
pub fn pruning_keeps_the_list()
    ensures { (width : ℕ) (all : List Bool) (bits : Bits) (index : ℕ) → AreBitsOf width all bits
        → bits.pruned ≤ index → 8 * width * (index - bits.pruned) ≤ length bits.kept
        → AreBitsOf width all (pruned_to width bits index) }
{}

/// What is kept where nothing is pruned is the list.
pub fn nothing_pruned_is_the_list()
    ensures { (width : ℕ) (all : List Bool) → AreBitsOf width all (record { pruned = 0; kept = all }) }
{}

/// The root of a list of bits over a plain tree is the value of the term that is made of the list.
pub fn roots_are_values_of_what_is_made()
    ensures { (hash : Hash) (bagging : Bagging) (width : ℕ) (all : List Bool) → IsChunkWidth width
        → value hash (made_bitmap bagging width all) ≡ plain_root hash bagging width all }
{}

/// Where a proof of a bit leads to the root of a list of bits, there are as many bits as it says, the bit is one of
/// them, and the chunk is that of the list, or the strings hashed for the list and those rebuilt from the proof have a
/// collision: at one site two strings differ that have one digest. So it is with digests of 32 bytes.
pub fn shown_bits_are_true_or_strings_collide()
    ensures { (hash : Hash) (bagging : Bagging) (width : ℕ) (all : List Bool) (claim : BitClaim)
        → ((bytes : List ℕ) → length (hash bytes) ≡ 32) → All (λ digest. length digest ≡ 32) claim.digests
        → IsChunkWidth width → length all < 2 ^ 64 → claim.bits < 2 ^ 64
        → IfSome (bit_root plain_over bagging width claim) (IsSound hash bagging width all claim) }
{}

/// The honest proof of a bit of a list leads to the root of the list, over a plain tree.
pub fn honest_proofs_of_bits_lead_to_the_root()
    ensures { (hash : Hash) (bagging : Bagging) (width : ℕ) (all : List Bool) (bit : ℕ)
        → IsChunkWidth width → length all < 2 ^ 64 → bit < length all
        → option_map (value hash) (bit_root plain_over bagging width
        (honest_claim hash (plain_leaf hash) (plain_node hash) bagging width all bit))
        ≡ Some (plain_root hash bagging width all) }
{
    plain_roots_are_tree_roots::<Family>();
    built_proofs_lead_to_the_root::<Family>();
}

/// The string of a root over a partial chunk has 72 bytes, where digests have 32.
pub fn strings_of_partial_roots_have_72_bytes()
    ensures { (tree_root last : List ℕ) (bits : ℕ) → length tree_root ≡ 32 → length last ≡ 32
        → length (bitmap_string tree_root bits last) ≡ 72 }
{}

/// At each site one string is hashed for the root of a list of bits, and one where a root is rebuilt from a proof of a
/// bit: a collision is between the two strings of a site.
pub fn each_site_has_one_string()
    ensures hashed { (hash : Hash) (bagging : Bagging) (width : ℕ) (all : List Bool)
        → OneEach (strings hash (made_bitmap bagging width all)) }
    ensures rebuilt { (hash : Hash) (bagging : Bagging) (width : ℕ) (claim : BitClaim)
        → IfSome (bit_root plain_over bagging width claim) (λ made. OneEach (strings hash made)) }
{
    tree_sites_have_one_string::<Family>();
}
