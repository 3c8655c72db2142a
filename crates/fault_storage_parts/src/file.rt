//! A file: a base and one uncut log of mutations in the order of issue.
//!
//! ```text
//!   base   "abcd"                        what was durable at the last sync, admission or crash
//!   log    write at 4 "xy", plain        a crash keeps some of it, by the mode and rate of its issue
//!          write at 8 "zw", synced       durable: gaps before it are zeros
//!
//!   durable now          "abcd" 0 0 0 0 "zw"
//!   a crash that keeps   "abcd" "xy" 0 0 "zw"
//!   a crash that drops   "abcd" 0 0 0 0 "zw"
//! ```
//!
//! Nothing is cut out of the log before it ends, since a later durable write says nothing of an earlier one that
//! overlaps it: only the replay in order tells what stands at last.

ghost use Rattle.std.specs.Prelude.{◌<◌, ◌+◌, ◌^◌, length};

use crate::draws::PartialWriteMode;
use crate::probability::Probability;

/// Bytes that were written at an offset.
#[derive(Debug, Drop)]
pub struct Written {
    /// Where the first of them stands.
    pub offset: usize,
    /// The bytes.
    pub bytes: Vec<u8>,
    ghost fits: { offset + length bytes.items < 2 ^ 64 },
}

/// A change of a file, as it was issued.
#[derive(Debug, Drop)]
pub enum Mutation {
    /// A plain write: a crash keeps bytes of it by this mode and retention rate.
    Plain(Written, PartialWriteMode, Probability),
    /// A write that is durable already, of which these bytes are kept: all of a synced one, of a failed one those that
    /// were drawn.
    Fixed(Written, Vec<bool>),
    /// A resize to this length: a crash keeps it by this retention rate.
    ResizedTo(usize, Probability),
}
