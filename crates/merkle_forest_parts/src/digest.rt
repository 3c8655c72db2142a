//! Digests.

ghost use Rattle.std.specs.Prelude.{◌≡◌, ℕ, List, length, replicate, true, refl};
ghost use Rattle.std.proofs.Common.{rules, ap};
ghost use Rattle.merkle_forest_parts.specs.Codec.{after_fixed};

use crate::codec::{EncodeSize, FixedBytes, FixedSize, Read};
use std::fmt::Debug;

/// A digest of a fixed number of bytes, which are its encoding. In the Rust: `commonware_cryptography::Digest`.
pub trait Digest: Read<Cfg = ()> + FixedSize + EncodeSize + Copy + Eq + Debug {
    /// The digest of which all `SIZE` bytes are zeros.
    /// In the Rust: the constant `commonware_cryptography::Digest::EMPTY`.
    fn empty() -> Self
        ensures { Self.encoding result ≡ replicate Self.SIZE 0 };

    /// The digest's bytes, `SIZE` of them. In the Rust: `AsRef::as_ref` of a digest.
    fn as_bytes(&self) -> &[u8]
        ensures bytes { result.now ≡ Self.encoding self.now }
        ensures sized { Self.is_value self.now };

    ghost same_bytes: { (d e : Self) → Self.encoding d ≡ Self.encoding e → d ≡ e };

    ghost copied: { (d e : Self) → Self.is_clone d e → e ≡ d };

    ghost equal: { (d e : Self) → Self.eq d e ≡ true → d ≡ e };

    /// Any `SIZE` bytes are a digest.
    ghost any_bytes: { (bytes : List ℕ) → Self.after tt bytes ≡ after_fixed Self.SIZE bytes };

    /// Reading a digest takes no memory.
    ghost never_lacks: { (bytes : List ℕ) → Self.may_lack tt bytes → ⊥ };
}

impl<const M: usize> Digest for FixedBytes<M> {
    fn empty() -> FixedBytes<M> {
        FixedBytes { bytes: [0; M] }
    }

    fn as_bytes(&self) -> &[u8] {
        &self.bytes
    }

    ghost same_bytes = { λ d e same. ap (λ b. record { bytes = b }) same };

    ghost copied = { λ d e same. Prim.cc };

    ghost equal = { λ d e same. Prim.search rules };

    ghost any_bytes = { λ bytes. refl };

    ghost never_lacks = { λ bytes lacks. lacks };
}
