//! Arrays of bytes.

ghost use Rattle.std.specs.Prelude.{◌≡◌, ◌++◌, ⊤, Ok, length};
ghost use Rattle.merkle_forest_parts.specs.Codec.{after_fixed};
ghost use Rattle.merkle_forest_parts.specs.Laws.Codec.{fixed_again};

use super::cursor::Cursor;
use super::error::Error;
use super::traits::{EncodeSize, FixedSize, Read, Write};
use std::alloc::{AllocError, Global};

/// An array of bytes is encoded by its bytes.
impl<const M: usize> Write for [u8; M] {
    ghost encoding = { λ v. v };

    ghost is_value = { λ v. length v ≡ M };

    fn write(&self, out: &mut Vec<u8>) -> Result<(), AllocError> {
        out.extend_from_slice(self)
    }
}

impl<const M: usize> FixedSize for [u8; M] {
    ghost SIZE = { M };

    const SIZE: usize = M;

    ghost sized = { λ _ h. h };
}

impl<const M: usize> EncodeSize for [u8; M] {
    fn encode_size(&self) -> usize {
        M
    }
}

impl<const M: usize> Read for [u8; M] {
    type Cfg = ();

    ghost after = { λ _ bytes. after_fixed M bytes };

    ghost may_lack = { λ _ _. ⊥ };

    ghost is_within = { λ _ _. ⊤ };

    fn read_cfg(_alloc: Global, cursor: &mut Cursor<'_>, _cfg: &()) -> Result<[u8; M], Error> {
        let mut bytes = [0; M];
        bytes.copy_from_slice(cursor.take(M)?);
        Ok(bytes)
    }

    ghost read_again = { λ _ v rest sized _. fixed_again M v rest sized };
}
