//! The end of a list of bytes, kept in memory.

ghost use Rattle.std.specs.Prelude.{◌≡◌, ◌+◌, ◌-◌, ◌<◌, ◌≤◌, ◌^◌, ◌++◌, ◌↔◌, [], min, length, take, drop};
ghost use Rattle.std.specs.Prelude.{IsTrue, IfOk, OnErr};
ghost use Rattle.paged_format.specs.Tips.{Tip};

use std::alloc::{AllocError, Global};
use std::marker::Model;

/// The bytes of a list from an offset on, at most as many as its capacity.
/// In the Rust: `utils::buffer::tip::Buffer`, which is private there.
#[derive(Debug, Drop)]
pub struct TipBuffer {
    offset: u64,
    bytes: Vec<u8>,
    capacity: usize,
}

impl Model for TipBuffer {
    ghost Value = { Tip };

    ghost view = { λ b. record { offset = b.offset; bytes = b.bytes.items; capacity = b.capacity } };

    ghost invariant = { λ b. (length b.bytes.items ≤ b.capacity) × (b.offset + length b.bytes.items < 2 ^ 64) };
}

impl TipBuffer {
    /// No bytes at this offset, with room for so many. It takes no memory yet.
    pub fn new(alloc: Global, offset: u64, capacity: usize) -> TipBuffer
        ensures { result ≡ record { offset = offset; bytes = []; capacity = capacity } }
    {
        TipBuffer {
            offset,
            bytes: Vec::new(alloc),
            capacity,
        }
    }

    /// Where the first of the bytes stands.
    pub fn offset(&self) -> u64
        ensures { result ≡ self.now.offset }
    {
        self.offset
    }

    /// Where the list ends.
    pub fn end(&self) -> u64
        ensures { result ≡ self.now.offset + length self.now.bytes }
    {
        self.offset + self.bytes.len() as u64
    }

    /// The bytes.
    pub fn as_bytes(&self) -> &[u8]
        ensures { result.now ≡ self.now.bytes }
    {
        &self.bytes
    }

    /// Whether there is no byte.
    pub fn is_empty(&self) -> bool
        ensures { IsTrue result ↔ (self.now.bytes ≡ []) }
    {
        self.bytes.is_empty()
    }

    /// How many bytes there is room for.
    pub fn room(&self) -> usize
        ensures { result ≡ self.now.capacity - length self.now.bytes }
    {
        self.capacity - self.bytes.len()
    }

    /// Appends as many of the bytes as there is room for, and answers how many. Out of memory, nothing changes. That
    /// the list does not pass 2^64 bytes is on the caller.
    pub fn append(&mut self, bytes: &[u8]) -> Result<usize, AllocError>
        requires { self.old.offset + length self.old.bytes + length bytes.now < 2 ^ 64 }
        ensures count { IfOk result (λ n. n ≡ min (length bytes.now) (self.old.capacity - length self.old.bytes)) }
        ensures ok { IfOk result (λ n. self.new ≡ record self.old { bytes = self.old.bytes ++ take n bytes.now }) }
        ensures err { OnErr result (self.new ≡ self.old) }
    {
        let count = bytes.len().min(self.room());
        self.bytes.extend_from_slice(&bytes[..count])?;
        Ok(count)
    }

    /// Gives up the first bytes, so many, which then stand elsewhere. That they are there is on the caller.
    pub fn drain(&mut self, count: usize)
        requires { count ≤ length self.old.bytes }
        ensures { self.new ≡ record self.old {
          offset = self.old.offset + count;
          bytes = drop count self.old.bytes;
        } }
    {
        let kept = self.bytes.len() - count;
        self.bytes.copy_within(count.., 0);
        self.bytes.truncate(kept);
        self.offset += count as u64;
    }

    /// Keeps the first bytes, so many, and gives up those behind them.
    pub fn truncate(&mut self, count: usize)
        ensures { self.new ≡ record self.old { bytes = take count self.old.bytes } }
    {
        self.bytes.truncate(count);
    }

    /// Gives up all bytes, and begins again at this offset.
    pub fn restart(&mut self, offset: u64)
        ensures { self.new ≡ record self.old { offset = offset; bytes = [] } }
    {
        self.bytes.clear();
        self.offset = offset;
    }
}
