//! How a proof of one operation holds the chunk with the operation's activity bit.

ghost use Rattle.std.specs.Prelude.{◌≡◌, ◌<◌, ◌≤◌, ⊤, ℕ, List, length, true, IfOk};
ghost use Rattle.merkle_forest.specs.Codec.{Reads, after_fixed};
ghost use Rattle.state_theory.specs.Told.{Told, is_chunk_width};

use crate::chunk_size::ChunkSize;
use bytes::Bytes;
use merkle_forest::codec::{Cursor, Error, Read};
use std::alloc::{AllocError, Global};
use std::convert::AsSlice;

/// What holds the bytes of a proof's chunk, and what a reader of the proof is told: an array, `Bytes`, or a vector
/// (own). In the Rust: any `AsRef<[u8]>`, with an impl of `commonware_codec::Read` for each form.
pub trait ChunkForm: AsSlice<u8> + Drop {
    /// What a reader of a proof is told.
    type Limits;

    /// What that says of the proof.
    ghost told: { Self.Limits → Told };

    /// Holds where memory may be lacking for the chunk that stands at the front of the bytes.
    ghost may_lack: { Self.Limits → List ℕ → Type 0 };

    /// Holds of how many bytes a chunk may have.
    ghost may_have: { ℕ → Type 0 };

    /// Whether a reader may be told so.
    fn is_allowed(limits: &Self::Limits) -> bool
        ensures { result ≡ (told limits.now).allowed };

    /// The greatest count of digests that a proof may have.
    fn most_digests(limits: &Self::Limits) -> usize
        ensures { result ≡ (told limits.now).most };

    /// The chunk at the front. Where its bytes are missing: C1; or C8 where memory may be lacking.
    fn read_chunk(
        alloc: Global,
        cursor: &mut Cursor<'_>,
        limits: &Self::Limits,
    ) -> Result<Self, Error>
        ensures read { Reads Self.items cursor.old cursor.new (after_fixed (told limits.now).width cursor.old)
            (may_lack limits.now cursor.old) result }
        ensures width { IfOk result (λ chunk. length (Self.items chunk) ≡ (told limits.now).width) };

    /// The chunk with these bytes. It fails only when out of memory (own).
    fn from_bytes(alloc: Global, bytes: &[u8]) -> Result<Self, AllocError>
        requires { may_have (length bytes.now) }
        ensures { IfOk result (λ chunk. Self.items chunk ≡ bytes.now) };

    /// A chunk with the same bytes. It fails only when out of memory (own). In the Rust: `Clone::clone`.
    fn try_copy(&self) -> Result<Self, AllocError>
        ensures { IfOk result (λ copy. Self.items copy ≡ Self.items self.now) };
}

/// A reader is told the greatest count of digests. The chunk has N bytes, and takes no memory.
impl<const N: usize> ChunkForm for [u8; N] {
    type Limits = usize;

    ghost told = { λ most. record { allowed = true; width = N; most = most } };

    ghost may_lack = { λ _ _. ⊥ };

    ghost may_have = { λ width. width ≡ N };

    fn is_allowed(_limits: &usize) -> bool {
        true
    }

    fn most_digests(limits: &usize) -> usize {
        *limits
    }

    fn read_chunk(
        alloc: Global,
        cursor: &mut Cursor<'_>,
        _limits: &usize,
    ) -> Result<[u8; N], Error> {
        <[u8; N]>::read_cfg(alloc, cursor, &())
    }

    fn from_bytes(_alloc: Global, bytes: &[u8]) -> Result<[u8; N], AllocError> {
        let mut chunk = [0; N];
        chunk.copy_from_slice(bytes);
        Ok(chunk)
    }

    fn try_copy(&self) -> Result<[u8; N], AllocError> {
        Ok(*self)
    }
}

/// A reader is told how many bytes a chunk has, whose bits are a power of two, 2^62 at most, and the greatest count of
/// digests.
impl ChunkForm for Bytes {
    type Limits = (usize, usize);

    ghost told = { λ limits. record { allowed = is_chunk_width limits.0; width = limits.0; most = limits.1 } };

    ghost may_lack = { λ limits bytes. (0 < limits.0) × (limits.0 ≤ length bytes) };

    ghost may_have = { λ _. ⊤ };

    fn is_allowed(limits: &(usize, usize)) -> bool {
        ChunkSize::new(limits.0).is_some()
    }

    fn most_digests(limits: &(usize, usize)) -> usize {
        limits.1
    }

    fn read_chunk(
        alloc: Global,
        cursor: &mut Cursor<'_>,
        limits: &(usize, usize),
    ) -> Result<Bytes, Error> {
        let chunk: Vec<u8> = Vec::read_chunk(alloc, cursor, limits)?;
        Ok(Bytes::from_vec(chunk)?)
    }

    fn from_bytes(alloc: Global, bytes: &[u8]) -> Result<Bytes, AllocError> {
        let chunk = Vec::from_slice(alloc, bytes)?;
        Ok(Bytes::from_vec(chunk)?)
    }

    fn try_copy(&self) -> Result<Bytes, AllocError> {
        self.clone()
    }
}

/// A reader is told how many bytes a chunk has, and the greatest count of digests.
impl ChunkForm for Vec<u8> {
    type Limits = (usize, usize);

    ghost told = { λ limits. record { allowed = true; width = limits.0; most = limits.1 } };

    ghost may_lack = { λ limits bytes. (0 < limits.0) × (limits.0 ≤ length bytes) };

    ghost may_have = { λ _. ⊤ };

    fn is_allowed(_limits: &(usize, usize)) -> bool {
        true
    }

    fn most_digests(limits: &(usize, usize)) -> usize {
        limits.1
    }

    fn read_chunk(
        alloc: Global,
        cursor: &mut Cursor<'_>,
        limits: &(usize, usize),
    ) -> Result<Vec<u8>, Error> {
        let front = cursor.take(limits.0)?;
        let mut chunk = Vec::new(alloc);
        if limits.0 > 0 {
            chunk.extend_from_slice(front)?;
        }
        Ok(chunk)
    }

    fn from_bytes(alloc: Global, bytes: &[u8]) -> Result<Vec<u8>, AllocError> {
        Vec::from_slice(alloc, bytes)
    }

    fn try_copy(&self) -> Result<Vec<u8>, AllocError> {
        Vec::from_slice(*self.allocator(), self)
    }
}
