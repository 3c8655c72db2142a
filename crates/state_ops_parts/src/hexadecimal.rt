//! Bytes in lower hexadecimal digits, written without building a string.

ghost use Rattle.std.specs.Prelude.{◌∷◌, []};
ghost use Rattle.std.specs.Fmt.{WritesOnOk};
ghost use Rattle.hex.specs.Hex.{encode_lower};
ghost use Rattle.merkle_forest.specs.Lists.{bytes_encoding};
ghost use Rattle.merkle_forest.specs.Varint.{varint};

use merkle_forest::codec::{FixedBytes, Write};
use std::{fmt, str};

/// A value whose encoding can be printed in hexadecimal digits (own).
pub trait HexEncoding: Write {
    /// Writes the digits of the encoding, two a byte (own).
    fn fmt_hex<W: fmt::Write>(&self, f: &mut fmt::Formatter<W>) -> fmt::Result
        ensures { WritesOnOk W.write_str_gives f.old result (encode_lower (Self.encoding self.now)) f.new };
}

// Writes the two digits of a byte.
fn write_byte<W: fmt::Write>(byte: u8, f: &mut fmt::Formatter<W>) -> fmt::Result
    ensures { WritesOnOk W.write_str_gives f.old result (encode_lower (byte ∷ [])) f.new }
{
    let mut digits = [0; 2];
    let Ok(()) = hex::encode_to_slice([byte], &mut digits) else {
        unreachable!();
    };
    let Ok(text) = str::from_utf8(&digits) else {
        unreachable!();
    };
    f.write_str(text)
}

/// Writes the digits of the bytes, two a byte (own).
pub fn write_hex<W: fmt::Write>(bytes: &[u8], f: &mut fmt::Formatter<W>) -> fmt::Result
    ensures { WritesOnOk W.write_str_gives f.old result (encode_lower bytes.now) f.new }
{
    for byte in bytes {
        write_byte(*byte, f)?;
    }
    Ok(())
}

// Writes the digits of the number's varint.
fn write_varint<W: fmt::Write>(number: u64, f: &mut fmt::Formatter<W>) -> fmt::Result
    ensures { WritesOnOk W.write_str_gives f.old result (encode_lower (varint number)) f.new }
{
    let mut rest = number;
    while rest >= 128 {
        write_byte((rest % 128) as u8 + 128, f)?;
        rest /= 128;
    }
    write_byte(rest as u8, f)
}

// Writes the digits of the encoding of bytes, their count first.
fn write_sized<W: fmt::Write>(bytes: &[u8], f: &mut fmt::Formatter<W>) -> fmt::Result
    ensures { WritesOnOk W.write_str_gives f.old result (encode_lower (bytes_encoding bytes.now)) f.new }
{
    write_varint(bytes.len() as u64, f)?;
    write_hex(bytes, f)
}

impl<const M: usize> HexEncoding for FixedBytes<M> {
    fn fmt_hex<W: fmt::Write>(&self, f: &mut fmt::Formatter<W>) -> fmt::Result {
        write_hex(&self.bytes, f)
    }
}

impl HexEncoding for u64 {
    fn fmt_hex<W: fmt::Write>(&self, f: &mut fmt::Formatter<W>) -> fmt::Result {
        write_hex(&self.to_be_bytes(), f)
    }
}

impl HexEncoding for Vec<u8> {
    fn fmt_hex<W: fmt::Write>(&self, f: &mut fmt::Formatter<W>) -> fmt::Result {
        write_sized(self, f)
    }
}
