//! The families of trees that a script names.

ghost use Rattle.std.specs.Prelude.{◌≡◌, ◌↔◌, ℕ, List, refl};
ghost use Rattle.sha2.specs.Sha256.{sha256};
ghost use Rattle.merkle_forest.specs.Codec.{after_fixed};
ghost use Rattle.auth_store_client.specs.Claims.{Claim, Shows, terms};
ghost use Rattle.auth_store_parts.specs.declared.script.words.TreeFamily.{TreeFamily};
ghost use Rattle.auth_store_parts.specs.declared.script.words.TreeFamily.TheVariants.{Mmr, Mmb};
ghost use Rattle.auth_store.specs.ScriptLines.{pending_of, rule_of, script_terms};

use merkle_forest::codec::FixedBytes;
use merkle_forest::{Graftable, PendingOf, mmb, mmr};

/// A family of trees that a script names.
pub(crate) trait Named: Graftable + PendingOf<FixedBytes<32>> {
    /// By which word it names it.
    ghost family: { TreeFamily };

    /// Its trees merge as those of that word.
    ghost rule_is: { Self.merge_rule ≡ rule_of family };

    /// Its pending digests are encoded as theirs.
    ghost pending_is: { Self.pending_encoding ≡ pending_of family };

    /// Its proofs show what theirs do.
    ghost shows: { (claim : Claim) (root bytes : List ℕ)
        → Shows (terms Self.merge_rule sha256 1 32 Self.is_pending Self.pending_encoding (after_fixed 8) (after_fixed 8)
        8 8) claim root bytes ↔ Shows (script_terms family) claim root bytes };
}

impl Named for mmr::Family {
    ghost family = { Mmr };

    ghost rule_is = { refl };

    ghost pending_is = { refl };

    ghost shows = { λ _ _ _. (λ h. h, λ h. h) };
}

impl Named for mmb::Family {
    ghost family = { Mmb };

    ghost rule_is = { refl };

    ghost pending_is = { refl };

    ghost shows = { λ _ _ _. (λ h. h, λ h. h) };
}
