//! The footer of a page and its two slots.

ghost use Rattle.std.specs.Prelude.{◌≡◌, ◌<◌, ◌^◌, ◌↔◌, ⊤, IsTrue, length, take, if◌then◌else◌};
ghost use Rattle.merkle_forest.specs.Codec.{after_fixed};
ghost use Rattle.paged_format.specs.Footers.{IsPageSize, content_size, slot_bytes, footer_bytes};
ghost use Rattle.paged_format.specs.Pages.{vouches, greater_slot, counted_slot};

use fault_storage::Checksum;
use merkle_forest::codec::{Cursor, EncodeSize, Error, FixedSize, Read, Write};
use std::alloc::{AllocError, Global};

/// How many bytes the footer of a page has. In the Rust: `paged::CHECKSUM_SIZE`.
pub const CHECKSUM_SIZE: u64 = 12;

/// Whether a page on the disk may have so many bytes: a power of two from 16 to 65536 (own).
pub fn is_page_size(size: u32) -> bool
    ensures { IsTrue result ↔ IsPageSize size }
{
    matches!(
        size,
        16 | 32 | 64 | 128 | 256 | 512 | 1024 | 2048 | 4096 | 8192 | 16384 | 32768 | 65536
    )
}

/// How many bytes of content a page of so many bytes has. That these are a power of two from 16 to 65536 is on the
/// caller.
/// In the Rust: `paged::page_size`, which answers a `NonZeroU16`.
pub const fn page_size(physical_page_size: u32) -> u16
    requires { IsPageSize physical_page_size }
    ensures { result ≡ content_size physical_page_size }
{
    (physical_page_size - 12) as u16
}

/// One of the two slots of a page's footer (own).
#[derive(Clone, Copy, Debug, PartialEq, Eq)]
pub enum Slot {
    /// It begins twelve bytes before the page's end.
    First,
    /// It begins six bytes before the page's end.
    Second,
}

/// The footer of a page: two slots, each a length and the checksum of as many first bytes of the page.
/// In the Rust: `paged::Checksum`, which is private there.
#[derive(Clone, Copy, Debug, PartialEq, Eq)]
pub struct Footer {
    /// The length in the first slot.
    pub len1: u16,
    /// The checksum in the first slot.
    pub crc1: u32,
    /// The length in the second slot.
    pub len2: u16,
    /// The checksum in the second slot.
    pub crc2: u32,
}

// A slot's six bytes.
fn slot_of(len: u16, crc: u32) -> [u8; 6]
    ensures { result ≡ slot_bytes len crc }
{
    let a = u16::to_be_bytes(len);
    let b = u32::to_be_bytes(crc);
    [a[0], a[1], b[0], b[1], b[2], b[3]]
}

impl Write for Footer {
    ghost encoding = { λ f. footer_bytes f.len1 f.crc1 f.len2 f.crc2 };

    ghost is_value = { λ f. (f.len1 < 2 ^ 16) × (f.crc1 < 2 ^ 32) × (f.len2 < 2 ^ 16) × (f.crc2 < 2 ^ 32) };

    fn write(&self, out: &mut Vec<u8>) -> Result<(), AllocError> {
        let a = slot_of(self.len1, self.crc1);
        let b = slot_of(self.len2, self.crc2);
        out.extend_from_slice(&[
            a[0], a[1], a[2], a[3], a[4], a[5], b[0], b[1], b[2], b[3], b[4], b[5],
        ])
    }
}

impl FixedSize for Footer {
    ghost use Rattle.std.specs.Prelude.{refl};

    ghost SIZE = { 12 };

    const SIZE: usize = 12;

    ghost sized = { λ f h. refl };
}

impl EncodeSize for Footer {
    fn encode_size(&self) -> usize {
        12
    }
}

#[tactic(auto, unfolding(crate::specs::Pages::vouches))]
// The length where it is vouched for by the checksum of as many first bytes of the page, else 0.
fn vouched_len<C: Checksum>(page: &[u8], len: u16, crc: u32) -> u16
    requires { IsPageSize (length page.now) }
    ensures { result ≡ (if vouches C.checksum_of (length page.now) page.now len crc then len else 0) }
{
    let count = len as usize;
    if count > 0 && count <= page.len() - 12 && C::checksum(&page[..count]) == crc {
        return len;
    }
    0
}

// Of slots that vouch for these lengths the one with the greater, on a tie the first. None where both are 0.
fn greater_slot(first: u16, second: u16) -> Option<(Slot, u16)>
    ensures { result ≡ greater_slot first second }
{
    if first < second {
        return Some((Slot::Second, second));
    }
    if first > 0 {
        return Some((Slot::First, first));
    }
    None
}

// The slot that these six bytes are.
fn read_slot(bytes: &[u8]) -> (u16, u32)
    requires { length bytes.now ≡ 6 }
    ensures { bytes.now ≡ slot_bytes result.0 result.1 }
{
    let len = u16::from_be_bytes([bytes[0], bytes[1]]);
    let crc = u32::from_be_bytes([bytes[2], bytes[3], bytes[4], bytes[5]]);
    (len, crc)
}

impl Footer {
    // The footer that these twelve bytes are.
    fn of(bytes: &[u8]) -> Footer
        requires { length bytes.now ≡ 12 }
        ensures { bytes.now ≡ footer_bytes result.len1 result.crc1 result.len2 result.crc2 }
    {
        let (first, second) = bytes.split_at(6);
        let (len1, crc1) = read_slot(first);
        let (len2, crc2) = read_slot(second);
        Footer {
            len1,
            crc1,
            len2,
            crc2,
        }
    }

    /// The slot of a page that counts, and its length: of the slots that verify the one with the greater length, on a
    /// tie the first. A slot verifies where its length is 1 to P - 12 and its checksum that of as many first bytes of
    /// the page. None where neither does. That the page has a power of two from 16 to 65536 bytes is on the caller.
    /// In the Rust: `paged::Checksum::validate_page`, which is private there and answers the whole footer.
    pub fn valid_slot<C: Checksum>(page: &[u8]) -> Option<(Slot, u16)>
        requires { IsPageSize (length page.now) }
        ensures { result ≡ counted_slot C.checksum_of (length page.now) page.now }
    {
        let (_, last) = page.split_at(page.len() - 12);
        let footer = Footer::of(last);
        let first = vouched_len::<C>(page, footer.len1, footer.crc1);
        let second = vouched_len::<C>(page, footer.len2, footer.crc2);
        greater_slot(first, second)
    }
}

impl Read for Footer {
    ghost use Rattle.paged_format.specs.Laws.Footers.{read_footer_again};

    type Cfg = ();

    ghost after = { λ _ bytes. after_fixed 12 bytes };

    ghost may_lack = { λ _ _. ⊥ };

    ghost is_within = { λ _ _. ⊤ };

    fn read_cfg(_alloc: Global, cursor: &mut Cursor<'_>, _cfg: &()) -> Result<Footer, Error> {
        Ok(Footer::of(cursor.take(12)?))
    }

    ghost read_again = { λ _ f rest _ _. read_footer_again f rest };
}
