//! Values that are written as bytes and read back.

ghost use Rattle.std.specs.Prelude.{◌≡◌, ◌<◌, ◌^◌, ◌++◌, ℕ, List, [], length, Ok, OnOk, OnErr, IfOk};
ghost use Rattle.merkle_forest_parts.specs.Codec.{Outcome, Reads, whole};

use super::cursor::Cursor;
use super::error::Error;
use std::alloc::{AllocError, Global};

/// A value that has one encoding in bytes. In the Rust: `commonware_codec::Write`.
pub trait Write: Drop {
    /// The bytes that encode a value.
    ghost encoding: { Self → List ℕ };

    /// Holds of the values of the type.
    ghost is_value: { Self → Type 0 };

    /// Appends the value's encoding. It fails only when out of memory, and `out` is then as it was.
    /// In the Rust: `commonware_codec::Write::write`, which never fails.
    fn write(&self, out: &mut Vec<u8>) -> Result<(), AllocError>
        ensures ok { OnOk result (out.new.items ≡ out.old.items ++ encoding self.now) }
        ensures err { OnErr result (out.new.items ≡ out.old.items) }
        ensures value { OnOk result (is_value self.now) };
}

/// A value whose copies are encoded as it is (own).
pub trait Faithful: Write + Clone {
    ghost copied: { (v w : Self) → Self.is_clone v w → Self.encoding w ≡ Self.encoding v };
}

/// A value that knows the length of its encoding. In the Rust: `commonware_codec::EncodeSize`.
pub trait EncodeSize: Write {
    /// The length of the encoding in bytes. In the Rust: `commonware_codec::EncodeSize::encode_size`.
    fn encode_size(&self) -> usize
        requires { length (Self.encoding self.now) < 2 ^ 64 }
        ensures { result ≡ length (Self.encoding self.now) };
}

/// A type whose values all have encodings of one length. In the Rust: `commonware_codec::FixedSize`.
pub trait FixedSize: Write {
    ghost SIZE: { ℕ };

    /// The length of each encoding in bytes. In the Rust: `commonware_codec::FixedSize::SIZE`.
    const SIZE: usize;

    ghost sized: { (v : Self) → Self.is_value v → length (Self.encoding v) ≡ SIZE };
}

/// A type whose values are read from bytes. In the Rust: `commonware_codec::Read`, which does not ask for `Write`.
pub trait Read: Write {
    /// What a reader is told: limits on counts and on sizes. In the Rust: `commonware_codec::Read::Cfg`.
    type Cfg;

    /// The bytes after the value that stands at the front, or the first fault from the left.
    ghost after: { Self.Cfg → List ℕ → Outcome };

    /// Holds where memory may be lacking for the value that stands at the front of the bytes.
    ghost may_lack: { Self.Cfg → List ℕ → Type 0 };

    /// Holds of the values that are read under these limits.
    ghost is_within: { Self.Cfg → Self → Type 0 };

    /// The value at the front, or the first fault from the left, or C8 where memory may be lacking. A list's count
    /// sizes no allocation before its items are read. After a refusal it is open what the cursor has left.
    /// In the Rust: `commonware_codec::Read::read_cfg`, from any buffer and without an allocator.
    fn read_cfg(alloc: Global, cursor: &mut Cursor<'_>, cfg: &Self::Cfg) -> Result<Self, Error>
        ensures read { Reads Self.encoding cursor.old cursor.new (after cfg.now cursor.old)
            (may_lack cfg.now cursor.old) result }
        ensures value { IfOk result Self.is_value };

    ghost read_again: { (cfg : Self.Cfg) (v : Self) (rest : List ℕ) → Self.is_value v → is_within cfg v
        → after cfg (Self.encoding v ++ rest) ≡ Ok rest };
}

/// A value that is written into a vector of its own. In the Rust: `commonware_codec::Encode`.
pub trait Encode: Write {
    /// The value's encoding, in a vector of its own. It fails only when out of memory.
    /// In the Rust: `commonware_codec::Encode::encode`, which never fails.
    final fn encode(&self, alloc: Global) -> Result<Vec<u8>, AllocError>
        ensures { IfOk result (λ v. v.items ≡ Self.encoding self.now) }
    {
        let mut out = Vec::new(alloc);
        self.write(&mut out)?;
        Ok(out)
    }
}

/// A value that is read from all of the bytes. In the Rust: `commonware_codec::Decode`.
pub trait Decode: Read {
    /// The value that the bytes encode, all of them, or the first fault from the left, or C8 where memory may be
    /// lacking. Where bytes are left over: C2.
    /// In the Rust: `commonware_codec::Decode::decode_cfg`, without an allocator.
    final fn decode_cfg(alloc: Global, bytes: &[u8], cfg: &Self::Cfg) -> Result<Self, Error>
        ensures read { Reads Self.encoding bytes.now [] (whole (Self.after cfg.now bytes.now))
            (Self.may_lack cfg.now bytes.now) result }
        ensures value { IfOk result Self.is_value }
    {
        let mut cursor = Cursor::new(bytes);
        let value = Self::read_cfg(alloc, &mut cursor, cfg)?;
        if !cursor.is_empty() {
            return Err(Error::ExtraData);
        }
        Ok(value)
    }
}

impl<T: Write> Encode for T {}

impl<T: Read> Decode for T {}
