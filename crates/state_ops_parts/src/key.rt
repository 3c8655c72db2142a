//! What may be a key of a state.

ghost use Rattle.std.specs.Prelude.{◌≡◌, ℕ, List, refl};
ghost use Rattle.std.specs.Cmp.Lexicographic.{slice_cmp};
ghost use Rattle.std.specs.Ordering.{nat_cmp};

use merkle_forest::codec::{Faithful, FixedBytes, FixedSize, Read};

/// A key: bytes, in the order of bytes. In the Rust: `qmdb::operation::Key`.
pub trait Key: Read + Faithful + Ord {
    /// The bytes of a key.
    ghost bytes: { Self → List ℕ };

    /// The bytes. In the Rust: `AsRef::as_ref` of the key.
    fn as_bytes(&self) -> &[u8]
        ensures { result.now ≡ bytes self.now };

    ghost ordered: { (k l : Self) → Self.cmp k l ≡ slice_cmp nat_cmp (bytes k) (bytes l) };
}

/// A key of a fixed size, whose encoding is its bytes. In the Rust: `commonware_utils::Array`.
pub trait FixedKey: Key + Read<Cfg = ()> + FixedSize {
    ghost spelled: { (k : Self) → Self.bytes k ≡ Self.encoding k };

    /// The order of keys is that of their encodings.
    ghost in_order: { (k l : Self) → Self.cmp k l ≡ slice_cmp nat_cmp (Self.encoding k) (Self.encoding l) };

    /// Each key may be read.
    ghost within: { (k : Self) → Self.is_within tt k };
}

impl<const M: usize> Key for FixedBytes<M> {
    ghost bytes = { λ k. k.bytes };

    fn as_bytes(&self) -> &[u8] {
        &self.bytes
    }

    ghost ordered = { λ _ _. refl };
}

impl Key for Vec<u8> {
    ghost bytes = { λ k. k.items };

    fn as_bytes(&self) -> &[u8] {
        self.as_slice()
    }

    ghost ordered = { λ _ _. refl };
}

impl<const M: usize> FixedKey for FixedBytes<M> {
    ghost spelled = { λ _. refl };

    ghost in_order = { λ _ _. refl };

    ghost within = { λ _. tt };
}
