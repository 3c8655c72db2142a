//! A state whose root is asked for.

ghost use Rattle.std.specs.Prelude.{◌≤◌, ◌^◌, length};

use crate::chunk_size::ChunkSize;

/// Encoded operations, a bit for each, and the last floor; and how many bits a chunk has (own).
#[derive(Clone, Copy)]
pub struct Snapshot<'a> {
    /// The encoded operations.
    pub operations: &'a [Vec<u8>],
    /// Whether each operation is active.
    pub bits: &'a [bool],
    /// The last floor: the location of the least active update.
    pub floor: u64,
    /// How many bits a chunk has.
    pub chunk_size: ChunkSize,
    ghost few: { length operations.now ≤ 2 ^ 62 },
}
