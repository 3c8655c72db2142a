//! Numbers in base 128, each in its shortest encoding.

ghost use Rattle.std.specs.Prelude.{◌≡◌, ◌<◌, ◌^◌, ◌++◌, ◌∷◌, [], ⊤, IfOk, IfErr, OnOk, OnErr, length};
ghost use Rattle.merkle_forest_parts.specs.Codec.{Extends};
ghost use Rattle.merkle_forest_parts.specs.Varint.{varint, varint_at, after_varint, Finds};
ghost use Rattle.merkle_forest_parts.specs.Laws.Varint.{after_varint_again};

use super::cursor::Cursor;
use super::error::Error;
use super::traits::{EncodeSize, Faithful, Read, Write};
use super::undo::or_undo;
use std::alloc::{AllocError, Global};

/// A number that is encoded as a varint, of 1 to 10 bytes. In the Rust: `commonware_codec::varint::UInt`, of a u64.
#[derive(Clone, Copy, Debug, PartialEq, Eq, PartialOrd, Ord, Hash)]
pub struct UInt(pub u64);

/// The length in bytes of a number's varint, from 1 to 10.
pub fn number_size(number: u64) -> usize
    ensures { result ≡ length (varint number) }
{
    let bits = 64 - number.max(1).leading_zeros();
    ((bits + 6) / 7) as usize
}

// Appends a number's groups. Out of memory, some of them may have been appended.
fn write_groups(out: &mut Vec<u8>, number: u64) -> Result<(), AllocError>
    ensures ok { OnOk result (out.new.items ≡ out.old.items ++ varint number) }
    ensures err { OnErr result (Extends out.old.items out.new.items) }
{
    let mut rest = number;
    while rest >= 128 {
        out.push((rest % 128) as u8 + 128)?;
        rest /= 128;
    }
    Ok(out.push(rest as u8)?)
}

/// Appends a number's varint. It fails only when out of memory, and `out` is then as it was.
pub fn write_number(out: &mut Vec<u8>, number: u64) -> Result<(), AllocError>
    ensures ok { OnOk result (out.new.items ≡ out.old.items ++ varint number) }
    ensures err { OnErr result (out.new.items ≡ out.old.items) }
{
    let start = out.len();
    or_undo(write_groups(out, number), out, start)
}

/// The next byte. Where none is left: C1.
fn next_byte(cursor: &mut Cursor<'_>) -> Result<u8, Error>
    ensures ok { IfOk result (λ byte. cursor.old ≡ byte ∷ cursor.new) }
    ensures err { IfErr result (λ e. (e ≡ Error.EndOfBuffer) × (cursor.old ≡ [])) }
{
    let bytes = cursor.take(1)?;
    Ok(bytes[0])
}

/// The number whose varint stands at the front. Where bytes are missing: C1; a long encoding, or more than 64 bits: C3.
/// After a refusal it is open what the cursor has left.
pub fn read_number(cursor: &mut Cursor<'_>) -> Result<u64, Error>
    ensures exact { Finds cursor.new (varint_at cursor.old) result }
    ensures encoded { IfOk result (λ number. cursor.old ≡ varint number ++ cursor.new) }
{
    let mut number = 0;
    let mut weight = 1;
    for group in 0..9u32 {
        let byte = next_byte(cursor)?;
        if byte == 0 && group > 0 {
            return Err(Error::InvalidVarint);
        }
        number += u64::from(byte % 128) * weight;
        if byte < 128 {
            return Ok(number);
        }
        weight *= 128;
    }
    if next_byte(cursor)? != 1 {
        return Err(Error::InvalidVarint);
    }
    Ok(number + weight)
}

impl Write for UInt {
    ghost encoding = { λ v. varint v.0 };

    ghost is_value = { λ v. v.0 < 2 ^ 64 };

    fn write(&self, out: &mut Vec<u8>) -> Result<(), AllocError> {
        write_number(out, self.0)
    }
}

impl Faithful for UInt {
    ghost copied = { λ v w same. Prim.cc };
}

impl EncodeSize for UInt {
    fn encode_size(&self) -> usize {
        number_size(self.0)
    }
}

impl Read for UInt {
    type Cfg = ();

    ghost after = { λ _ bytes. after_varint bytes };

    ghost may_lack = { λ _ _. ⊥ };

    ghost is_within = { λ _ _. ⊤ };

    fn read_cfg(_alloc: Global, cursor: &mut Cursor<'_>, _cfg: &()) -> Result<UInt, Error> {
        Ok(UInt(read_number(cursor)?))
    }

    ghost read_again = { λ _ v rest small _. after_varint_again v.0 rest small };
}
