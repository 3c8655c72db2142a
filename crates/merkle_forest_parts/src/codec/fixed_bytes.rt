//! A fixed number of bytes.

ghost use Rattle.std.specs.Prelude.{◌≡◌, ◌<◌, ◌^◌, ◌++◌, ◌∷◌, [], ℕ, ⊤, refl, Ok, length};
ghost use Rattle.merkle_forest_parts.specs.Codec.{after_fixed};
ghost use Rattle.merkle_forest_parts.specs.Laws.Codec.{fixed_again};

use super::cursor::Cursor;
use super::error::Error;
use super::traits::{EncodeSize, Faithful, FixedSize, Read, Write};
use std::alloc::{AllocError, Global};

/// `M` bytes, in the order of bytes. In the Rust: `commonware_utils::sequence::FixedBytes`.
#[derive(Clone, Copy, Debug, PartialEq, Eq, PartialOrd, Ord, Hash)]
pub struct FixedBytes<const M: usize> {
    /// The bytes, from first to last.
    pub bytes: [u8; M],
}

impl<const M: usize> FixedBytes<M> {
    /// The value with these `M` bytes. In the Rust: `commonware_utils::sequence::FixedBytes::new`.
    pub fn new(bytes: [u8; M]) -> FixedBytes<M>
        ensures { result.bytes ≡ bytes.entry }
    {
        FixedBytes { bytes }
    }

    /// The bytes as a slice of length `M`. In the Rust: `AsRef::as_ref` of the value.
    pub fn as_bytes(&self) -> &[u8]
        ensures { result.now ≡ self.now.bytes }
    {
        &self.bytes
    }
}

/// The value with these `M` bytes. In the Rust: `From` of an array for `commonware_utils::sequence::FixedBytes`.
impl<const M: usize> From<[u8; M]> for FixedBytes<M> {
    ghost from_gives = { λ bytes v. v.bytes ≡ bytes };

    fn from(bytes: [u8; M]) -> FixedBytes<M> {
        FixedBytes::new(bytes)
    }
}

impl<const M: usize> Write for FixedBytes<M> {
    ghost encoding = { λ v. v.bytes };

    ghost is_value = { λ v. length v.bytes ≡ M };

    fn write(&self, out: &mut Vec<u8>) -> Result<(), AllocError> {
        out.extend_from_slice(&self.bytes)
    }
}

impl<const M: usize> Faithful for FixedBytes<M> {
    ghost copied = { λ v w same. Prim.cc };
}

impl<const M: usize> FixedSize for FixedBytes<M> {
    ghost SIZE = { M };

    const SIZE: usize = M;

    ghost sized = { λ _ h. h };
}

impl<const M: usize> EncodeSize for FixedBytes<M> {
    fn encode_size(&self) -> usize {
        M
    }
}

impl<const M: usize> Read for FixedBytes<M> {
    type Cfg = ();

    ghost after = { λ _ bytes. after_fixed M bytes };

    ghost may_lack = { λ _ _. ⊥ };

    ghost is_within = { λ _ _. ⊤ };

    fn read_cfg(
        _alloc: Global,
        cursor: &mut Cursor<'_>,
        _cfg: &(),
    ) -> Result<FixedBytes<M>, Error> {
        let mut bytes = [0; M];
        bytes.copy_from_slice(cursor.take(M)?);
        Ok(FixedBytes { bytes })
    }

    ghost read_again = { λ _ v rest sized _. fixed_again M v.bytes rest sized };
}
