//! What a proof holds of the digest of a chunk that is full and not yet graftable.
//!
//! A chunk of leaves is full when its last leaf is there, and graftable when the node over it is born. Where a family's
//! nodes are born with their last leaf no full chunk is pending, and a proof has nothing to hold. Where they are born
//! later, a proof holds the digest of the one that is pending, if any. In chunks of eight leaves:
//!
//! ```text
//!     leaves                  7    8    9   10   11   ..   16   17   18   19
//!     full chunks             0    1    1    1    1         2    2    2    2
//!     graftable, a range      0    1    1    1    1         2    2    2    2
//!     graftable, a belt       0    0    0    0    1         1    1    1    2        one is pending in between
//! ```

ghost use Rattle.std.specs.Prelude.{◌≡◌, ◌<◌, ◌≤◌, ◌/◌, ◌^◌, ◌++◌, ◌↔◌, ℕ, List, [], length, Option, Some, None, Ok};
ghost use Rattle.std.specs.Prelude.{IsSome, IfSome, option_map, refl, ⊤};
ghost use Rattle.std.proofs.Common.{sym, ◌∙◌};
ghost use Rattle.merkle_forest_parts.specs.Codec.{Outcome, after_fixed, after_option, option_encoding};
ghost use Rattle.merkle_forest.specs.Forest.{forest_of};
ghost use Rattle.merkle_forest.specs.Laws.MmrCounts.{all-mmr};
ghost use Rattle.merkle_forest.specs.Laws.Pending.{encoded-pending, read-pending, value-pending, never-lacks_pending};
ghost use Rattle.merkle_forest.specs.Laws.Pending.{same-pending, again-pending, once-pending, sized-none};
ghost use Rattle.merkle_forest.specs.Nodes.{nodes_of_height};

use crate::codec::{Cursor, EncodeSize, Error, Read, Write};
use crate::digest::Digest;
use crate::family::Family;
use crate::{mmb, mmr};
use std::alloc::{AllocError, Global};
use std::fmt::Debug;

/// A family that says how a proof holds the digest of the pending chunk, of which there is at most one (own).
/// In the Rust a type of each family stands in its place, `merkle::Graftable::PendingChunk`, a `merkle::PendingChunk`.
pub trait PendingOf<D: Digest>: Family {
    /// What a proof holds: the digest of the pending chunk, or its absence.
    type Pending: Read<Cfg = ()> + EncodeSize + Copy + Eq + Debug;

    /// Holds of what a proof may hold: the bytes of the digest of the pending chunk, or its absence.
    ghost is_pending: { Option (List ℕ) → Type 0 };

    /// The bytes that encode the digest of the pending chunk, or its absence.
    ghost pending_encoding: { Option (List ℕ) → List ℕ };

    /// The bytes after that encoding at the front, or the first fault from the left.
    ghost pending_after: { List ℕ → Outcome };

    /// The bytes of the digest that is held, or its absence.
    ghost held: { Self.Pending → Option (List ℕ) };

    /// What a proof holds of this digest or its absence. None where a proof of the family may not hold it.
    /// In the Rust: `TryFrom<Option<D>>` of a `merkle::PendingChunk`.
    fn hold(digest: Option<D>) -> Option<Self::Pending>
        ensures held { IfSome result (λ pending. held pending ≡ option_map D.encoding digest) }
        ensures some { IsSome result ↔ is_pending (option_map D.encoding digest) };

    /// The digest that is held, or None where none is. In the Rust: `merkle::PendingChunk::as_ref`.
    fn digest_of(pending: &Self::Pending) -> Option<D>
        ensures { option_map D.encoding result ≡ held pending.now };

    /// The encoding of what is held is that of the digest or of its absence.
    ghost pending_encoded: { (pending : Self.Pending)
        → Self.Pending.encoding pending ≡ pending_encoding (held pending) };

    /// The bytes after what is held.
    ghost pending_read: { (bytes : List ℕ) → Self.Pending.after tt bytes ≡ pending_after bytes };

    /// What is read, and each other value, is one that a proof may hold.
    ghost pending_value: { (pending : Self.Pending) → Self.Pending.is_value pending → is_pending (held pending) };

    /// Reading it takes no memory.
    ghost pending_never_lacks: { (bytes : List ℕ) → Self.Pending.may_lack tt bytes → ⊥ };

    /// What is held determines the value.
    ghost pending_same: { (pending other : Self.Pending) → held pending ≡ held other → pending ≡ other };

    /// What was encoded is read again.
    ghost pending_again: { (digest : Option (List ℕ)) (rest : List ℕ) → is_pending digest
        → pending_after (pending_encoding digest ++ rest) ≡ Ok rest };

    /// One encoding stands for one digest, and does not begin another encoding.
    ghost pending_once: { (digest other : Option (List ℕ)) (rest more : List ℕ) → is_pending digest → is_pending other
        → pending_encoding digest ++ rest ≡ pending_encoding other ++ more → (digest ≡ other) × (rest ≡ more) };

    /// A digest that a proof may hold has `SIZE` bytes.
    ghost pending_sized: { (digest : Option (List ℕ)) → is_pending digest
        → IfSome digest (λ bytes. length bytes ≡ D.SIZE) };

    /// A proof may hold no digest.
    ghost none_pending: { is_pending None };

    /// Where some full chunk of 2^height leaves has no node, a proof may hold any digest.
    ghost some_pending: { (leaves height : ℕ) (digest : List ℕ) → leaves ≤ 2 ^ 62 → 0 < height → height ≤ 62
        → nodes_of_height height (forest_of Self.merge_rule leaves) < leaves / 2 ^ height → length digest ≡ D.SIZE
        → is_pending (Some digest) };
}

/// What a proof of a family holds in which no chunk is ever pending: nothing, written as no bytes.
/// In the Rust: `merkle::Unused`.
#[derive(Clone, Copy, Debug, PartialEq, Eq)]
pub struct Unused;

impl Write for Unused {
    ghost encoding = { λ _. [] };

    ghost is_value = { λ _. ⊤ };

    fn write(&self, _out: &mut Vec<u8>) -> Result<(), AllocError> {
        Ok(())
    }
}

impl EncodeSize for Unused {
    fn encode_size(&self) -> usize {
        0
    }
}

impl Read for Unused {
    type Cfg = ();

    ghost after = { λ _ bytes. Ok bytes };

    ghost may_lack = { λ _ _. ⊥ };

    ghost is_within = { λ _ _. ⊤ };

    fn read_cfg(_alloc: Global, _cursor: &mut Cursor<'_>, _cfg: &()) -> Result<Unused, Error> {
        Ok(Unused)
    }

    ghost read_again = { λ _ _ _ _ _. refl };
}

/// A proof over a Merkle Mountain Range holds nothing of it: there no chunk is ever pending.
impl<D: Digest> PendingOf<D> for mmr::Family {
    type Pending = Unused;

    ghost is_pending = { λ digest. digest ≡ None };

    ghost pending_encoding = { λ _. [] };

    ghost pending_after = { λ bytes. Ok bytes };

    ghost held = { λ _. None };

    fn hold(digest: Option<D>) -> Option<Unused>
        ensures held { IfSome result (λ _. None ≡ option_map D.encoding digest) }
        ensures some { IsSome result ↔ (option_map D.encoding digest ≡ None) }
    {
        match digest {
            None => Some(Unused),
            Some(_) => None,
        }
    }

    fn digest_of(_pending: &Unused) -> Option<D> {
        None
    }

    ghost pending_encoded = { λ _. refl };

    ghost pending_read = { λ _. refl };

    ghost pending_value = { λ _ _. refl };

    ghost pending_never_lacks = { λ _ lacks. lacks };

    ghost pending_same = { λ _ _ _. refl };

    ghost pending_again = { λ _ _ _. refl };

    ghost pending_once = { λ _ _ _ _ is was same. (is ∙ sym was, same) };

    ghost pending_sized = { sized-none D.SIZE };

    ghost none_pending = { refl };

    ghost some_pending = { λ leaves height _ _ _ _ more _. absurd (all-mmr leaves height more) };
}

/// A proof over a Merkle Mountain Belt holds the digest of the pending chunk, or that none is pending.
impl<D: Digest> PendingOf<D> for mmb::Family {
    type Pending = Option<D>;

    ghost is_pending = { λ digest. IfSome digest (λ bytes. length bytes ≡ D.SIZE) };

    ghost pending_encoding = { option_encoding (λ bytes. bytes) };

    ghost pending_after = { after_option (after_fixed D.SIZE) };

    ghost held = { option_map D.encoding };

    fn hold(digest: Option<D>) -> Option<Option<D>>
        ensures held { IfSome result (λ pending. option_map D.encoding pending ≡ option_map D.encoding digest) }
        ensures some { IsSome result ↔ IfSome (option_map D.encoding digest) (λ bytes. length bytes ≡ D.SIZE) }
    {
        match digest {
            None => Some(None),
            Some(digest) => {
                // that it has `SIZE` bytes is known of the bytes that it shows
                let _bytes = digest.as_bytes();
                Some(Some(digest))
            }
        }
    }

    fn digest_of(pending: &Option<D>) -> Option<D> {
        *pending
    }

    ghost pending_encoded = { encoded-pending D.encoding };

    ghost pending_read = { read-pending D.SIZE (D.after tt) D.any_bytes };

    ghost pending_value = { value-pending D.SIZE D.encoding D.is_value D.sized };

    ghost pending_never_lacks = { never-lacks_pending (D.may_lack tt) D.never_lacks };

    ghost pending_same = { same-pending D.encoding D.same_bytes };

    ghost pending_again = { again-pending D.SIZE };

    ghost pending_once = { once-pending D.SIZE };

    ghost pending_sized = { λ _ sized. sized };

    ghost none_pending = { tt };

    ghost some_pending = { λ _ _ _ _ _ _ _ sized. sized };
}
