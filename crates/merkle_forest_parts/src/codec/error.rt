//! Why bytes could not be read.

ghost use Rattle.std.specs.Prelude.{◌≡◌};
ghost use Rattle.merkle_forest_parts.specs.declared.codec.error.Error.TheVariants.{Memory};

use std::alloc::{AllocError, AllocFailed};
use std::fmt;

/// The first fault of the bytes from the left, or out of memory. In the Rust: `commonware_codec::Error`.
#[derive(Clone, Copy, Debug, PartialEq, Eq)]
pub enum Error {
    /// C1: a value goes past the end of the bytes. In the Rust: `commonware_codec::Error::EndOfBuffer`.
    EndOfBuffer,
    /// C2: bytes are left over after the value. In the Rust: `commonware_codec::Error::ExtraData`.
    ExtraData,
    /// C3: a varint has a long encoding, or passes 64 bits. In the Rust: `commonware_codec::Error::InvalidVarint`.
    InvalidVarint,
    /// C4: a bool is neither 0 nor 1. In the Rust: `commonware_codec::Error::InvalidBool`.
    InvalidBool,
    /// C5: this tag names no variant. In the Rust: `commonware_codec::Error::InvalidEnum`.
    InvalidEnum(u8),
    /// C6: a count lies outside its range. In the Rust: `commonware_codec::Error::InvalidLength`.
    InvalidLength,
    /// C7: a value passes its limit, or a byte of padding isn't zero.
    /// In the Rust: `commonware_codec::Error::Invalid`, with two texts.
    Invalid,
    /// C8: out of memory; says nothing of the bytes (own).
    Memory,
}

/// An error is printed by its number and what it means.
impl fmt::Display for Error {
    ghost use Rattle.std.specs.Prelude.{Some};
    ghost use Rattle.merkle_forest_parts.specs.Errors.{error_text};

    ghost output = { λ e. Some (error_text e) };

    fn fmt<W: fmt::Write>(&self, f: &mut fmt::Formatter<W>) -> fmt::Result {
        match self {
            Error::EndOfBuffer => f.write_str("C1: unexpected end of the bytes"),
            Error::ExtraData => f.write_str("C2: bytes left over"),
            Error::InvalidVarint => f.write_str("C3: invalid varint"),
            Error::InvalidBool => f.write_str("C4: invalid bool"),
            Error::InvalidEnum(tag) => write!(f, "C5: invalid tag {tag}"),
            Error::InvalidLength => f.write_str("C6: invalid length"),
            Error::Invalid => f.write_str("C7: invalid value"),
            Error::Memory => f.write_str("C8: out of memory"),
        }
    }
}

impl std::error::Error for Error {}

impl From<AllocError> for Error {
    ghost from_gives = { λ _ e. e ≡ Memory };

    fn from(_e: AllocError) -> Error {
        Error::Memory
    }
}

impl<T: Drop> From<AllocFailed<T>> for Error {
    ghost from_gives = { λ _ e. e ≡ Memory };

    fn from(_e: AllocFailed<T>) -> Error {
        Error::Memory
    }
}
