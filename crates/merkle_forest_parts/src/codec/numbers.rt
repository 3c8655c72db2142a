//! Numbers of a fixed width, and bool.

ghost use Rattle.std.specs.Prelude.{◌≡◌, ◌<◌, ◌^◌, ◌++◌, ◌∷◌, [], ℕ, ⊤, refl, Ok};
ghost use Rattle.std.proofs.Common.{ap};
ghost use Rattle.std.specs.Int.{w8, w16, w32, w64, to_be_bytes};
ghost use Rattle.merkle_forest_parts.specs.Codec.{after_fixed, after_bool, bool_byte};
ghost use Rattle.merkle_forest_parts.specs.Laws.Codec.{number_again, bool_again};

use super::cursor::Cursor;
use super::error::Error;
use super::traits::{EncodeSize, Faithful, FixedSize, Read, Write};
use std::alloc::{AllocError, Global};

impl Write for bool {
    ghost encoding = { bool_byte };

    ghost is_value = { λ _. ⊤ };

    fn write(&self, out: &mut Vec<u8>) -> Result<(), AllocError> {
        Ok(out.push(if *self { 1 } else { 0 })?)
    }
}

impl FixedSize for bool {
    ghost SIZE = { 1 };

    const SIZE: usize = 1;

    ghost sized = { λ _ _. refl };
}

impl EncodeSize for bool {
    fn encode_size(&self) -> usize {
        1
    }
}

impl Read for bool {
    type Cfg = ();

    ghost after = { λ _ bytes. after_bool bytes };

    ghost may_lack = { λ _ _. ⊥ };

    ghost is_within = { λ _ _. ⊤ };

    fn read_cfg(_alloc: Global, cursor: &mut Cursor<'_>, _cfg: &()) -> Result<bool, Error> {
        match cursor.take(1)? {
            [0] => Ok(false),
            [1] => Ok(true),
            _ => Err(Error::InvalidBool),
        }
    }

    ghost read_again = { λ _ b rest _ _. bool_again b rest };
}

impl Write for u8 {
    ghost encoding = { λ n. to_be_bytes w8 n };

    ghost is_value = { λ n. n < 2 ^ 8 };

    fn write(&self, out: &mut Vec<u8>) -> Result<(), AllocError> {
        out.extend_from_slice(&u8::to_be_bytes(*self))
    }
}

impl Faithful for u8 {
    ghost copied = { λ v w same. ap (λ n. to_be_bytes w8 n) same };
}

impl FixedSize for u8 {
    ghost SIZE = { 1 };

    const SIZE: usize = 1;

    ghost sized = { λ n h. refl };
}

impl EncodeSize for u8 {
    fn encode_size(&self) -> usize {
        1
    }
}

impl Read for u8 {
    type Cfg = ();

    ghost after = { λ _ bytes. after_fixed 1 bytes };

    ghost may_lack = { λ _ _. ⊥ };

    ghost is_within = { λ _ _. ⊤ };

    fn read_cfg(_alloc: Global, cursor: &mut Cursor<'_>, _cfg: &()) -> Result<u8, Error> {
        let b = cursor.take(1)?;
        Ok(u8::from_be_bytes([b[0]]))
    }

    ghost read_again = { λ _ n rest _ _. number_again w8 n rest refl };
}

impl Write for u16 {
    ghost encoding = { λ n. to_be_bytes w16 n };

    ghost is_value = { λ n. n < 2 ^ 16 };

    fn write(&self, out: &mut Vec<u8>) -> Result<(), AllocError> {
        out.extend_from_slice(&u16::to_be_bytes(*self))
    }
}

impl Faithful for u16 {
    ghost copied = { λ v w same. ap (λ n. to_be_bytes w16 n) same };
}

impl FixedSize for u16 {
    ghost SIZE = { 2 };

    const SIZE: usize = 2;

    ghost sized = { λ n h. refl };
}

impl EncodeSize for u16 {
    fn encode_size(&self) -> usize {
        2
    }
}

impl Read for u16 {
    type Cfg = ();

    ghost after = { λ _ bytes. after_fixed 2 bytes };

    ghost may_lack = { λ _ _. ⊥ };

    ghost is_within = { λ _ _. ⊤ };

    fn read_cfg(_alloc: Global, cursor: &mut Cursor<'_>, _cfg: &()) -> Result<u16, Error> {
        let b = cursor.take(2)?;
        Ok(u16::from_be_bytes([b[0], b[1]]))
    }

    ghost read_again = { λ _ n rest _ _. number_again w16 n rest refl };
}

impl Write for u32 {
    ghost encoding = { λ n. to_be_bytes w32 n };

    ghost is_value = { λ n. n < 2 ^ 32 };

    fn write(&self, out: &mut Vec<u8>) -> Result<(), AllocError> {
        out.extend_from_slice(&u32::to_be_bytes(*self))
    }
}

impl Faithful for u32 {
    ghost copied = { λ v w same. ap (λ n. to_be_bytes w32 n) same };
}

impl FixedSize for u32 {
    ghost SIZE = { 4 };

    const SIZE: usize = 4;

    ghost sized = { λ n h. refl };
}

impl EncodeSize for u32 {
    fn encode_size(&self) -> usize {
        4
    }
}

impl Read for u32 {
    type Cfg = ();

    ghost after = { λ _ bytes. after_fixed 4 bytes };

    ghost may_lack = { λ _ _. ⊥ };

    ghost is_within = { λ _ _. ⊤ };

    fn read_cfg(_alloc: Global, cursor: &mut Cursor<'_>, _cfg: &()) -> Result<u32, Error> {
        let b = cursor.take(4)?;
        Ok(u32::from_be_bytes([b[0], b[1], b[2], b[3]]))
    }

    ghost read_again = { λ _ n rest _ _. number_again w32 n rest refl };
}

impl Write for u64 {
    ghost encoding = { λ n. to_be_bytes w64 n };

    ghost is_value = { λ n. n < 2 ^ 64 };

    fn write(&self, out: &mut Vec<u8>) -> Result<(), AllocError> {
        out.extend_from_slice(&u64::to_be_bytes(*self))
    }
}

impl Faithful for u64 {
    ghost copied = { λ v w same. ap (λ n. to_be_bytes w64 n) same };
}

impl FixedSize for u64 {
    ghost SIZE = { 8 };

    const SIZE: usize = 8;

    ghost sized = { λ n h. refl };
}

impl EncodeSize for u64 {
    fn encode_size(&self) -> usize {
        8
    }
}

impl Read for u64 {
    type Cfg = ();

    ghost after = { λ _ bytes. after_fixed 8 bytes };

    ghost may_lack = { λ _ _. ⊥ };

    ghost is_within = { λ _ _. ⊤ };

    fn read_cfg(_alloc: Global, cursor: &mut Cursor<'_>, _cfg: &()) -> Result<u64, Error> {
        let b = cursor.take(8)?;
        Ok(u64::from_be_bytes([b[0], b[1], b[2], b[3], b[4], b[5], b[6], b[7]]))
    }

    ghost read_again = { λ _ n rest _ _. number_again w64 n rest refl };
}
