//! The greatest lengths of encodings.

ghost use Rattle.std.specs.Prelude.{◌≤◌, ℕ, length};
ghost use Rattle.std.proofs.Common.{arith};
ghost use Rattle.merkle_forest_parts.specs.Laws.Varint.{varint_at_most};

use super::fixed_bytes::FixedBytes;
use super::traits::Write;
use super::varint::UInt;

/// A type whose encodings have a greatest length. In the Rust: `commonware_codec::MaxEncodeSize`.
pub trait MaxEncodeSize: Write {
    ghost MAX_SIZE: { ℕ };

    /// The greatest length of an encoding in bytes.
    const MAX_SIZE: usize;

    ghost bounded: { (v : Self) → Self.is_value v → length (Self.encoding v) ≤ MAX_SIZE };
}

impl MaxEncodeSize for bool {
    ghost MAX_SIZE = { 1 };

    const MAX_SIZE: usize = 1;

    ghost bounded = { λ v h. Prim.omega arith };
}

impl MaxEncodeSize for u8 {
    ghost MAX_SIZE = { 1 };

    const MAX_SIZE: usize = 1;

    ghost bounded = { λ v h. Prim.omega arith };
}

impl MaxEncodeSize for u16 {
    ghost MAX_SIZE = { 2 };

    const MAX_SIZE: usize = 2;

    ghost bounded = { λ v h. Prim.omega arith };
}

impl MaxEncodeSize for u32 {
    ghost MAX_SIZE = { 4 };

    const MAX_SIZE: usize = 4;

    ghost bounded = { λ v h. Prim.omega arith };
}

impl MaxEncodeSize for u64 {
    ghost MAX_SIZE = { 8 };

    const MAX_SIZE: usize = 8;

    ghost bounded = { λ v h. Prim.omega arith };
}

impl<const M: usize> MaxEncodeSize for [u8; M] {
    ghost MAX_SIZE = { M };

    const MAX_SIZE: usize = M;

    ghost bounded = { λ v h. Prim.omega arith };
}

impl<const M: usize> MaxEncodeSize for FixedBytes<M> {
    ghost MAX_SIZE = { M };

    const MAX_SIZE: usize = M;

    ghost bounded = { λ v h. Prim.omega arith };
}

impl MaxEncodeSize for UInt {
    ghost MAX_SIZE = { 10 };

    const MAX_SIZE: usize = 10;

    ghost bounded = { λ v small. varint_at_most v.0 small };
}
