//! Lists: a count as a varint, and that many items.

ghost use Rattle.std.specs.Prelude.{◌≡◌, ◌<◌, ◌≤◌, ◌-◌, ◌^◌, ◌++◌, IfOk, OnOk, OnErr, length};
ghost use Rattle.std.specs.List.{All, each_same};
ghost use Rattle.std.proofs.Common.{ap};
ghost use Rattle.merkle_forest_parts.specs.Varint.{varint, Finds};
ghost use Rattle.merkle_forest_parts.specs.Codec.{Extends};
ghost use Rattle.merkle_forest_parts.specs.Lists.{list_encoding, bytes_encoding, AreItems, count_at, HasItems};
ghost use Rattle.merkle_forest_parts.specs.Lists.{after_list, after_bytes};
ghost use Rattle.merkle_forest_parts.specs.Laws.Lists.{list_again, bytes_again};

use super::cursor::Cursor;
use super::error::Error;
use super::traits::{EncodeSize, Faithful, Read, Write};
use super::undo::or_undo;
use super::varint::{number_size, read_number, write_number};
use crate::digest::Digest;
use std::alloc::{AllocError, Global};
use std::ops::{RangeFull, RangeInclusive};

/// The counts of items that a list may have, both ends among them. In the Rust: `commonware_codec::RangeCfg`.
#[derive(Clone, Copy, Debug, PartialEq, Eq)]
pub struct RangeCfg {
    /// The least count of items.
    pub least: usize,
    /// The greatest count of items.
    pub greatest: usize,
}

impl RangeCfg {
    /// The counts from the least to the greatest. No count is allowed where the least is the greater.
    /// In the Rust: `commonware_codec::RangeCfg::new`, over a range.
    pub fn new(least: usize, greatest: usize) -> RangeCfg
        ensures least { result.least ≡ least }
        ensures greatest { result.greatest ≡ greatest }
    {
        RangeCfg { least, greatest }
    }
}

/// All counts. In the Rust: `From` of `..` for `commonware_codec::RangeCfg`.
impl From<RangeFull> for RangeCfg {
    ghost from_gives = { λ _ cfg. cfg ≡ record { least = 0; greatest = 2 ^ 64 - 1 } };

    fn from(_range: RangeFull) -> RangeCfg {
        RangeCfg::new(0, usize::MAX)
    }
}

/// The counts from the range's start to its end. In the Rust: `From` of an inclusive range for
/// `commonware_codec::RangeCfg`.
impl From<RangeInclusive<usize>> for RangeCfg {
    ghost from_gives = { λ range cfg. cfg ≡ record { least = range.start; greatest = range.end } };

    fn from(range: RangeInclusive<usize>) -> RangeCfg {
        RangeCfg::new(*range.start(), *range.end())
    }
}

/// The count of items whose varint stands at the front. Where its bytes are missing: C1; a bad varint: C3; outside the
/// range: C6. After a refusal it is open what the cursor has left.
pub fn read_count(cursor: &mut Cursor<'_>, range: &RangeCfg) -> Result<usize, Error>
    ensures exact { Finds cursor.new (count_at range.now.least range.now.greatest cursor.old) result }
    ensures encoded { IfOk result (λ count. cursor.old ≡ varint count ++ cursor.new) }
    ensures within { IfOk result (λ count. (range.now.least ≤ count) × (count ≤ range.now.greatest)) }
{
    let count = read_number(cursor)? as usize;
    if count < range.least || count > range.greatest {
        return Err(Error::InvalidLength);
    }
    Ok(count)
}

// Appends the count and the digests. Out of memory, some of the bytes may have been appended.
fn write_list<D: Digest>(digests: &[D], out: &mut Vec<u8>) -> Result<(), AllocError>
    ensures ok { OnOk result (out.new.items ≡ out.old.items ++ list_encoding D.encoding digests.now) }
    ensures err { OnErr result (Extends out.old.items out.new.items) }
    ensures values { OnOk result (AreItems D.is_value digests.now) }
{
    write_number(out, digests.len() as u64)?;
    for digest in digests {
        digest.write(out)?;
    }
    Ok(())
}

// Appends the count and the bytes. Out of memory, those of the count may have been appended.
fn write_bytes(bytes: &[u8], out: &mut Vec<u8>) -> Result<(), AllocError>
    ensures ok { OnOk result (out.new.items ≡ out.old.items ++ bytes_encoding bytes.now) }
    ensures err { OnErr result (Extends out.old.items out.new.items) }
{
    write_number(out, bytes.len() as u64)?;
    out.extend_from_slice(bytes)
}

impl<D: Digest> Write for Vec<D> {
    ghost encoding = { λ v. list_encoding D.encoding v.items };

    ghost is_value = { λ v. AreItems D.is_value v.items };

    fn write(&self, out: &mut Vec<u8>) -> Result<(), AllocError> {
        let start = out.len();
        or_undo(write_list(self, out), out, start)
    }
}

impl<D: Digest> EncodeSize for Vec<D> {
    fn encode_size(&self) -> usize {
        let mut size = number_size(self.len() as u64);
        for item in self {
            size += item.as_bytes().len();
        }
        size
    }
}

impl<D: Digest> Read for Vec<D> {
    type Cfg = RangeCfg;

    ghost after = { λ cfg bytes. after_list (D.after tt) cfg.least cfg.greatest bytes };

    ghost may_lack = { λ cfg bytes. HasItems (count_at cfg.least cfg.greatest bytes) };

    ghost is_within = { λ cfg v. (cfg.least ≤ length v.items) × (length v.items ≤ cfg.greatest)
        × All (D.is_within tt) v.items };

    fn read_cfg(alloc: Global, cursor: &mut Cursor<'_>, cfg: &RangeCfg) -> Result<Vec<D>, Error> {
        let count = read_count(cursor, cfg)?;
        let mut items = Vec::new(alloc);
        for read in 0..count {
            items.push(D::read_cfg(alloc, cursor, &())?)?;
        }
        Ok(items)
    }

    ghost read_again = { λ cfg v rest values within.
        list_again D.encoding (D.after tt) D.is_value (D.is_within tt)
        (D.read_again tt) cfg.least cfg.greatest v.items rest values within.0 within.1 within.2 };
}

impl Write for Vec<u8> {
    ghost encoding = { λ v. bytes_encoding v.items };

    ghost is_value = { λ v. length v.items < 2 ^ 64 };

    fn write(&self, out: &mut Vec<u8>) -> Result<(), AllocError> {
        let start = out.len();
        or_undo(write_bytes(self, out), out, start)
    }
}

impl Faithful for Vec<u8> {
    ghost copied = { λ v w same. ap bytes_encoding (each_same v.items w.items same.0) };
}

impl EncodeSize for Vec<u8> {
    fn encode_size(&self) -> usize {
        number_size(self.len() as u64) + self.len()
    }
}

impl Read for Vec<u8> {
    type Cfg = RangeCfg;

    ghost after = { λ cfg bytes. after_bytes cfg.least cfg.greatest bytes };

    ghost may_lack = { λ cfg bytes. HasItems (count_at cfg.least cfg.greatest bytes) };

    ghost is_within = { λ cfg v. (cfg.least ≤ length v.items) × (length v.items ≤ cfg.greatest) };

    fn read_cfg(alloc: Global, cursor: &mut Cursor<'_>, cfg: &RangeCfg) -> Result<Vec<u8>, Error> {
        let count = read_count(cursor, cfg)?;
        let mut bytes = Vec::new(alloc);
        bytes.extend_from_slice(cursor.take(count)?)?;
        Ok(bytes)
    }

    ghost read_again = { λ cfg v rest value within.
        bytes_again cfg.least cfg.greatest v.items rest value within.0 within.1 };
}
