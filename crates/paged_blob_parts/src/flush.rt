//! What a writer puts on the disk: pages of content with their footers.
//!
//! A page in which a completed sync ended has a slot that is durable. A flush over it writes each byte that this slot
//! vouches for, and the slot, as they stand there, and says the new length in the other slot: so whatever a crash tears
//! of the write, the durable slot stands whole. Of pages of eight bytes, with `*` at the slot that stays:
//!
//! ```text
//!     durable      abcde...  | 5*   -
//!     appended          fghij
//!     flushed      abcdefgh  | 5*   8      ij......  | 2    -       the next page keeps no slot
//! ```

ghost use Rattle.std.specs.Prelude.{◌≡◌, ◌+◌, ◌-◌, ◌*◌, ◌<◌, ◌≤◌, ◌^◌, ◌++◌, false, length, IfOk, OnOk, IfErr};
ghost use Rattle.paged_format.specs.Footers.{IsPageSize, content_size, footer_bytes};
ghost use Rattle.paged_blob_parts.specs.Flushes.{footer_over, page_bytes, flushed_bytes, page_count, physical_size};
ghost use Rattle.paged_blob_parts.specs.Flushes.{SumsFit, other, free_slot, last_slot};
ghost use Rattle.paged_blob_parts.specs.Calls.{wrote};
ghost use Rattle.paged_blob_parts.specs.Answers.{Records, failures_after, IsCause};
ghost use Rattle.paged_blob_parts.specs.declared.error.CallKind.{CallKind};

use crate::blob::{Blob, WriteMode};
use crate::error::Error;
use fault_storage::Checksum;
use merkle_forest::codec::Write;
use paged_format::{Footer, Slot};
use std::alloc::{AllocError, Global};

/// The slot of a page that a completed sync made durable: until the next has completed it is not written
/// differently (own).
#[derive(Clone, Copy, Debug, PartialEq, Eq)]
pub struct DurableSlot {
    /// Which of the two it is.
    pub slot: Slot,
    /// The length that it says.
    pub len: u16,
    /// The checksum that it says.
    pub crc: u32,
}

// The footer that says this length and checksum beside the slot that stays.
fn footer_over(kept: Option<DurableSlot>, len: u16, crc: u32) -> Footer
    ensures { footer_bytes result.len1 result.crc1 result.len2 result.crc2 ≡ footer_over kept len crc }
{
    let Some(kept) = kept else {
        return Footer {
            len1: len,
            crc1: crc,
            len2: 0,
            crc2: 0,
        };
    };
    match kept.slot {
        Slot::First => Footer {
            len1: kept.len,
            crc1: kept.crc,
            len2: len,
            crc2: crc,
        },
        Slot::Second => Footer {
            len1: len,
            crc1: crc,
            len2: kept.len,
            crc2: kept.crc,
        },
    }
}

#[tactic(auto, unfolding(crate::specs::Flushes::page_bytes, crate::specs::Calls::resized))]
// Lays a page of content, with zeros behind it and its footer, behind other bytes. Out of memory, some of it may stand
// there.
fn push_page<C: Checksum>(
    pages: &mut Vec<u8>,
    page_size: usize,
    kept: Option<DurableSlot>,
    content: &[u8],
) -> Result<(), AllocError>
    requires size { IsPageSize page_size }
    requires within { length content.now ≤ content_size page_size }
    requires room { length pages.old.items + page_size < 2 ^ 64 }
    ensures page { OnOk result (pages.new.items
        ≡ pages.old.items ++ page_bytes C.checksum_of page_size kept content.now) }
    ensures fits { OnOk result (C.checksum_of content.now < 2 ^ 32) }
{
    let footer = footer_over(kept, content.len() as u16, C::checksum(content));
    let end = pages.len() + (page_size - 12);
    pages.extend_from_slice(content)?;
    pages.resize(end, 0)?;
    footer.write(pages)
}

// The pages of this content, of which the first keeps a slot.
fn physical_bytes<C: Checksum>(
    alloc: Global,
    page_size: usize,
    kept: Option<DurableSlot>,
    content: &[u8],
) -> Result<Vec<u8>, AllocError>
    requires size { IsPageSize page_size }
    requires numbers { physical_size page_size (length content.now) < 2 ^ 64 }
    ensures bytes { IfOk result (λ pages. pages.items ≡ flushed_bytes C.checksum_of page_size kept content.now) }
    ensures fits { OnOk result
        (SumsFit C.checksum_of page_size (page_count page_size (length content.now)) content.now) }
{
    let mut pages = Vec::new(alloc);
    let mut stays = kept;
    let mut rest = content;
    while !rest.is_empty() {
        let (page, behind) = rest.split_at(rest.len().min(page_size - 12));
        push_page::<C>(&mut pages, page_size, stays, page)?;
        stays = None;
        rest = behind;
    }
    Ok(pages)
}

/// Writes the pages of this content, of which the first keeps a slot, from a page of the blob on (own).
pub fn flush<C: Checksum, B: Blob>(
    alloc: Global,
    blob: &mut B,
    page_size: usize,
    first: u64,
    kept: Option<DurableSlot>,
    content: &[u8],
) -> Result<(), Error>
    requires size { IsPageSize page_size }
    requires numbers { first * page_size + physical_size page_size (length content.now) < 2 ^ 64 }
    ensures calls { Records result
        (wrote (first * page_size) (flushed_bytes C.checksum_of page_size kept content.now) false)
        (B.calls blob.old) (B.calls blob.new) }
    ensures fits { OnOk result
        (SumsFit C.checksum_of page_size (page_count page_size (length content.now)) content.now) }
    ensures cause { IfErr result
        (IsCause (B.failures blob.old) CallKind.Write (first * page_size
        + physical_size page_size (length content.now))) }
    ensures failures { B.failures blob.new ≡ failures_after result (B.failures blob.old) }
    ensures left { B.left blob.new ≤ B.left blob.old }
{
    let pages = physical_bytes::<C>(alloc, page_size, kept, content)?;
    blob.write_at(first * page_size as u64, &pages, WriteMode::Plain)
}

// The other slot.
fn other(slot: Slot) -> Slot
    ensures { result ≡ other slot }
{
    match slot {
        Slot::First => Slot::Second,
        Slot::Second => Slot::First,
    }
}

// The slot that a flush says anew in a page in which this one stays.
fn free_slot(kept: Option<DurableSlot>) -> Slot
    ensures { result ≡ free_slot kept }
{
    match kept {
        None => Slot::First,
        Some(kept) => other(kept.slot),
    }
}

/// The slot that vouches for the last page of flushed content, where that is not whole (own).
pub fn last_slot<C: Checksum>(
    page_size: usize,
    kept: Option<DurableSlot>,
    content: &[u8],
) -> Option<DurableSlot>
    requires { IsPageSize page_size }
    ensures { result ≡ last_slot C.checksum_of page_size kept content.now }
{
    let room = page_size - 12;
    let len = content.len() % room;
    if len == 0 {
        return None;
    }
    let (_, last) = content.split_at(content.len() - len);
    let stays = if content.len() < room { kept } else { None };
    Some(DurableSlot {
        slot: free_slot(stays),
        len: len as u16,
        crc: C::checksum(last),
    })
}
