//! A reader's way through a slice of bytes.

ghost use Rattle.std.specs.Prelude.{◌≡◌, ◌<◌, ◌≤◌, ◌++◌, ◌↔◌, ℕ, List, [], ◌∷◌, length, take, drop, IsTrue, Ok, Err};
ghost use Rattle.std.specs.Prelude.{if◌then◌else◌, nat_lt, MatchResult, IfOk, IfErr};
ghost use Rattle.merkle_forest_parts.specs.Codec.{Outcome, after_fixed};

use super::error::Error;
use std::marker::Model;

/// The bytes of a slice that are still to be read (own). In the Rust any `commonware_codec::Buf` stands in its place.
#[derive(Drop)]
pub struct Cursor<'a> {
    rest: &'a [u8],
}

impl<'a> Model for Cursor<'a> {
    ghost use Rattle.std.specs.Prelude.{List, ℕ};

    ghost Value = { List ℕ };

    ghost view = { λ c. c.rest.now };
}

impl<'a> Cursor<'a> {
    /// A cursor at the beginning of the bytes.
    pub fn new(bytes: &'a [u8]) -> Cursor<'a>
        ensures { result ≡ bytes.now }
    {
        Cursor { rest: bytes }
    }

    /// Whether no byte is left.
    pub fn is_empty(&self) -> bool
        ensures { IsTrue result ↔ (self.now ≡ []) }
    {
        self.rest.is_empty()
    }

    /// How many bytes are left.
    pub fn remaining(&self) -> usize
        ensures { result ≡ length self.now }
    {
        self.rest.len()
    }

    /// The next `count` bytes. Where fewer are left: C1, and those stay.
    pub fn take(&mut self, count: usize) -> Result<&'a [u8], Error>
        ensures step { MatchResult result (λ bytes. after_fixed count self.old ≡ Ok self.new)
            (λ e. after_fixed count self.old ≡ Err e) }
        ensures ok { IfOk result (λ bytes. (self.old ≡ bytes.now ++ self.new) × (length bytes.now ≡ count)) }
        ensures err { IfErr result (λ e. (e ≡ Error.EndOfBuffer) × (self.new ≡ self.old)) }
    {
        if self.rest.len() < count {
            return Err(Error::EndOfBuffer);
        }
        let (front, rest) = self.rest.split_at(count);
        self.rest = rest;
        Ok(front)
    }
}
