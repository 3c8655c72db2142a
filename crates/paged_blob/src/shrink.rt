//! Cutting a blob of pages.
//!
//! The pages behind the new end are taken off first. Where the end is within a page, the slot that counts there hands
//! over to the other by three writes, each durable before the next, so that at each moment one of both stands whole. A
//! page of eight bytes that is cut to five:
//!
//! ```text
//!     abcdefgh  | 8    -       the slot that counts says eight
//!     abcdefgh  | 8    0       the other gets the checksum of five bytes, with a length that never verifies
//!     abcdefgh  | 8    5       and its length: both verify, the greater counts
//!     abcdefgh  | 0    5       the slot that counted is zeroed: five bytes are left
//! ```

ghost use Rattle.std.specs.Prelude.{◌≡◌, ◌+◌, ◌*◌, ◌<◌, ◌≤◌, ◌^◌, ◌↔◌, [], ℕ, length, take, IsTrue, IsFalse};
ghost use Rattle.std.specs.Prelude.{◌⊎◌, min, OnOk, IfOk, IfErr};
ghost use Rattle.paged_format.specs.Footers.{IsPageSize, content_size, slot_bytes, slot_start};
ghost use Rattle.paged_format.specs.Pages.{recovered};
ghost use Rattle.paged_blob_parts.specs.Calls.{file_of, content};
ghost use Rattle.paged_blob_parts.specs.Moments.{Through};
ghost use Rattle.paged_blob_parts.specs.Answers.{failures_after, RecordsSync};
ghost use Rattle.paged_blob_parts.specs.Chance.{page_at, slot_in};
ghost use Rattle.paged_blob_parts.specs.Writers.{Keeps};
ghost use Rattle.paged_blob_parts.specs.Shrinks.{other_slot, handed_over, Withstands, IsTrimmed, IsCut, IsCutCause};
ghost use Rattle.paged_blob_parts.specs.Shrinks.{EndsWithSync};
ghost use Rattle.paged_blob.specs.ShrinksCode.{StandsAlone, IsLeftAlone, IsLast, EndsWith, IsSettled};

use fault_storage::Checksum;
use paged_blob_parts::{Blob, Error, WriteMode};
use paged_format::{Footer, Slot};
use std::alloc::Global;

/// The last page of a blob, where the content does not fill it (own).
#[derive(Debug, Drop)]
pub struct LastPage {
    /// The one slot that vouches for its bytes. The other is zero.
    pub slot: Slot,
    /// The checksum in that slot.
    pub crc: u32,
    /// The content that the page has.
    pub bytes: Vec<u8>,
}

// The slot beside a slot.
fn other_slot(slot: Slot) -> Slot
    ensures { result ≡ other_slot slot }
{
    match slot {
        Slot::First => Slot::Second,
        Slot::Second => Slot::First,
    }
}

// Where a slot begins in a page of so many bytes.
fn slot_start(physical_page_size: u32, slot: Slot) -> u64
    requires { IsPageSize physical_page_size }
    ensures { result ≡ slot_start physical_page_size slot }
{
    match slot {
        Slot::First => u64::from(physical_page_size) - 12,
        Slot::Second => u64::from(physical_page_size) - 6,
    }
}

// The six bytes of a slot.
fn slot_of(len: u16, crc: u32) -> [u8; 6]
    ensures { result ≡ slot_bytes len crc }
{
    let a = u16::to_be_bytes(len);
    let b = u32::to_be_bytes(crc);
    [a[0], a[1], b[0], b[1], b[2], b[3]]
}

// Lets the other slot of the last page vouch for so many of its bytes, and clears the slot that counted: three writes,
// each durable before the next, so that at each moment one of the two slots stands whole.
fn hand_over<B: Blob, C: Checksum>(
    blob: &mut B,
    physical_page_size: u32,
    page: u64,
    counted: Slot,
    len: u16,
    crc: u32,
) -> Result<(), Error>
    requires page { IsPageSize physical_page_size }
    requires numbers { (page + 1) * physical_page_size < 2 ^ 64 }
    requires trimmed { IsTrimmed C.checksum_of physical_page_size (B.calls blob.old) page counted len crc }
    ensures calls { OnOk result (B.calls blob.new
        ≡ handed_over physical_page_size page counted len crc (B.calls blob.old)) }
    ensures any_moment { let old = recovered C.checksum_of physical_page_size (file_of (B.calls blob.old)).base in
        let count = page * content_size physical_page_size + len in
        Through (Keeps C.checksum_of physical_page_size old count) (B.calls blob.old) (B.calls blob.new) }
    ensures cause { IfErr result (IsCutCause (B.failures blob.old) ((page + 1) * physical_page_size)) }
    ensures failures { B.failures blob.new ≡ failures_after result (B.failures blob.old) }
    ensures left { B.left blob.new ≤ B.left blob.old }
{
    let start = page * u64::from(physical_page_size);
    let other = start + slot_start(physical_page_size, other_slot(counted));
    blob.write_at(other, &slot_of(0, crc), WriteMode::Sync)?;
    blob.write_at(other, &u16::to_be_bytes(len), WriteMode::Sync)?;
    let old = start + slot_start(physical_page_size, counted);
    blob.write_at(old, &slot_of(0, 0), WriteMode::Sync)
}

#[tactic(auto, unfolding(paged_blob_parts::specs::Chance::slot_in))]
// A slot's six bytes in a page.
fn slot_in(page: &[u8], slot: Slot) -> &[u8]
    requires { IsPageSize (length page.now) }
    ensures { result.now ≡ slot_in (length page.now) slot page.now }
{
    let start = slot_start(page.len() as u32, slot) as usize;
    &page[start..start + 6]
}

// Whether a slot of a page says so many bytes with this checksum, and the other one is zero.
fn stands_alone(page: &[u8], slot: Slot, len: u16, crc: u32) -> bool
    requires { IsPageSize (length page.now) }
    ensures { IsTrue result ↔ StandsAlone (length page.now) page.now slot len crc }
{
    let says = slot_in(page, slot) == slot_of(len, crc).as_slice();
    let cleared = slot_in(page, other_slot(slot)) == slot_of(0, 0).as_slice();
    says && cleared
}

// Leaves one slot of the last page, which vouches for so many bytes, and answers which. Nothing is written where the
// slot that counts does so and the other is zero.
fn leave_one_slot<B: Blob, C: Checksum>(
    blob: &mut B,
    bytes: &[u8],
    page: u64,
    counted: Slot,
    len: u16,
    crc: u32,
) -> Result<Slot, Error>
    requires page { IsPageSize (length bytes.now) }
    requires numbers { (page + 1) * length bytes.now < 2 ^ 64 }
    requires trimmed { IsTrimmed C.checksum_of (length bytes.now) (B.calls blob.old) page counted len crc }
    requires read { bytes.now ≡ page_at (length bytes.now) page (file_of (B.calls blob.old)).base }
    ensures alone { IfOk result
        (λ slot. IsLeftAlone (length bytes.now) page counted len crc (B.calls blob.old) (B.calls blob.new) slot) }
    ensures any_moment { let old = recovered C.checksum_of (length bytes.now) (file_of (B.calls blob.old)).base in
        let count = page * content_size (length bytes.now) + len in
        Through (Keeps C.checksum_of (length bytes.now) old count) (B.calls blob.old) (B.calls blob.new) }
    ensures cause { IfErr result (IsCutCause (B.failures blob.old) ((page + 1) * length bytes.now)) }
    ensures failures { B.failures blob.new ≡ failures_after result (B.failures blob.old) }
    ensures left { B.left blob.new ≤ B.left blob.old }
{
    if stands_alone(bytes, counted, len, crc) {
        return Ok(counted);
    }
    hand_over::<B, C>(blob, bytes.len() as u32, page, counted, len, crc)?;
    Ok(other_slot(counted))
}

// Cuts a blob of which all is durable behind a page.
fn cut_behind<B: Blob, C: Checksum>(
    blob: &mut B,
    physical_page_size: u32,
    pages: u64,
) -> Result<(), Error>
    requires page { IsPageSize physical_page_size }
    requires sound { IsFalse (file_of (B.calls blob.old)).failed }
    requires settled { (file_of (B.calls blob.old)).changes ≡ [] }
    requires numbers { length (file_of (B.calls blob.old)).base < 2 ^ 64 }
    requires within { pages * content_size physical_page_size
        ≤ length (recovered C.checksum_of physical_page_size (file_of (B.calls blob.old)).base) }
    ensures cut { let old = recovered C.checksum_of physical_page_size (file_of (B.calls blob.old)).base in
        OnOk result (IsCut C.checksum_of physical_page_size (take (pages * content_size physical_page_size) old)
        (B.calls blob.new)) }
    ensures ends { OnOk result (EndsWithSync (B.calls blob.new)) }
    ensures any_moment { let old = recovered C.checksum_of physical_page_size (file_of (B.calls blob.old)).base in
        Through (Keeps C.checksum_of physical_page_size old (pages * content_size physical_page_size))
        (B.calls blob.old) (B.calls blob.new) }
    ensures cause { IfErr result (IsCutCause (B.failures blob.old) (length (file_of (B.calls blob.old)).base)) }
    ensures failures { B.failures blob.new ≡ failures_after result (B.failures blob.old) }
    ensures left { B.left blob.new ≤ B.left blob.old }
{
    blob.resize(pages * u64::from(physical_page_size))?;
    blob.sync()
}

// Cuts a blob of which all is durable within a page, of which so many bytes are left. The pages behind it are cut off
// first: a crash then leaves any of them, or zeros, behind a page that shows what it showed, so that what is recovered
// is a beginning of the old content; and the last page's slots are written where no page comes after it.
fn cut_within<B: Blob, C: Checksum>(
    alloc: Global,
    blob: &mut B,
    physical_page_size: u32,
    page: u64,
    part: u16,
) -> Result<LastPage, Error>
    requires page { IsPageSize physical_page_size }
    requires sound { IsFalse (file_of (B.calls blob.old)).failed }
    requires settled { (file_of (B.calls blob.old)).changes ≡ [] }
    requires numbers { length (file_of (B.calls blob.old)).base < 2 ^ 64 }
    requires some { 0 < part }
    requires short { part < content_size physical_page_size }
    requires within { page * content_size physical_page_size + part
        ≤ length (recovered C.checksum_of physical_page_size (file_of (B.calls blob.old)).base) }
    ensures cut { let old = recovered C.checksum_of physical_page_size (file_of (B.calls blob.old)).base in
        let kept = page * content_size physical_page_size + part in
        IfOk result (λ last. IsCut C.checksum_of physical_page_size (take kept old) (B.calls blob.new)) }
    ensures last { let old = recovered C.checksum_of physical_page_size (file_of (B.calls blob.old)).base in
        let kept = page * content_size physical_page_size + part in
        IfOk result (λ last. IsLast physical_page_size (take kept old) (file_of (B.calls blob.new)).base last) }
    ensures ends { OnOk result (EndsWithSync (B.calls blob.new)) }
    ensures any_moment { let old = recovered C.checksum_of physical_page_size (file_of (B.calls blob.old)).base in
        let kept = page * content_size physical_page_size + part in
        Through (Keeps C.checksum_of physical_page_size old kept) (B.calls blob.old) (B.calls blob.new) }
    ensures cause { IfErr result (IsCutCause (B.failures blob.old) (length (file_of (B.calls blob.old)).base)) }
    ensures failures { B.failures blob.new ≡ failures_after result (B.failures blob.old) }
    ensures left { B.left blob.new ≤ B.left blob.old }
{
    let size = u64::from(physical_page_size);
    let mut bytes = blob.read_at(alloc, page * size, physical_page_size as usize)?;
    let Some((counted, _)) = Footer::valid_slot::<C>(&bytes) else {
        return Err(Error::ChecksumMismatch);
    };
    let crc = C::checksum(&bytes[..part as usize]);
    blob.resize((page + 1) * size)?;
    let slot = leave_one_slot::<B, C>(blob, &bytes, page, counted, part, crc)?;
    blob.sync()?;
    bytes.truncate(part as usize);
    Ok(LastPage { slot, crc, bytes })
}

// Makes all of a blob durable where that is asked. Where it is not, that all is durable is on the caller.
fn settle<B: Blob>(blob: &mut B, needs_sync: bool) -> Result<(), Error>
    requires sound { IsFalse (file_of (B.calls blob.old)).failed }
    requires settled { IsFalse needs_sync → (file_of (B.calls blob.old)).changes ≡ [] }
    ensures settled { OnOk result (IsSettled (B.calls blob.old) (B.calls blob.new)) }
    ensures calls { (B.calls blob.new ≡ B.calls blob.old) ⊎ RecordsSync result (B.calls blob.old) (B.calls blob.new) }
    ensures cause { IfErr result (IsCutCause (B.failures blob.old) 0) }
    ensures failures { B.failures blob.new ≡ failures_after result (B.failures blob.old) }
    ensures left { B.left blob.new ≤ B.left blob.old }
{
    if needs_sync {
        return blob.sync();
    }
    Ok(())
}

/// Cuts a blob to the first so many bytes of its content, `size`, or to all of it where it has fewer, and makes them
/// durable; it answers the last page where the content does not fill it. The blob then is exactly the pages of the
/// content, and a slot that a torn append left is cleared; its last call is a sync that succeeded. It is refused where
/// a call of the blob is; what a crash then shows is a beginning of the old content with what was durable of the first
/// `size` bytes, as at each moment before. That no call has failed, that `len` bytes of content are recovered of it,
/// and that all is durable unless it `needs_sync` is on the caller. In the Rust a part of `paged::Recovery::truncate`.
pub fn cut_blob<B: Blob, C: Checksum>(
    alloc: Global,
    blob: &mut B,
    physical_page_size: u32,
    needs_sync: bool,
    len: u64,
    size: u64,
) -> Result<Option<LastPage>, Error>
    requires page { IsPageSize physical_page_size }
    requires sound { IsFalse (file_of (B.calls blob.old)).failed }
    requires settled { IsFalse needs_sync → (file_of (B.calls blob.old)).changes ≡ [] }
    requires numbers { length (content (B.calls blob.old)) < 2 ^ 64 }
    requires known { len ≡ length (recovered C.checksum_of physical_page_size (content (B.calls blob.old))) }
    ensures cut { let old = recovered C.checksum_of physical_page_size (content (B.calls blob.old)) in
        IfOk result (λ last. IsCut C.checksum_of physical_page_size (take size old) (B.calls blob.new)) }
    ensures last { let old = recovered C.checksum_of physical_page_size (content (B.calls blob.old)) in
        IfOk result (λ last. EndsWith physical_page_size (take size old) (file_of (B.calls blob.new)).base last) }
    ensures ends { OnOk result (EndsWithSync (B.calls blob.new)) }
    ensures any_moment { let old = recovered C.checksum_of physical_page_size (content (B.calls blob.old)) in
        (synced : ℕ) → Withstands C.checksum_of physical_page_size old synced (file_of (B.calls blob.old))
        → Through (Keeps C.checksum_of physical_page_size old (min size synced)) (B.calls blob.old) (B.calls blob.new) }
    ensures cause { IfErr result (IsCutCause (B.failures blob.old) (length (content (B.calls blob.old)))) }
    ensures failures { B.failures blob.new ≡ failures_after result (B.failures blob.old) }
    ensures left { B.left blob.new ≤ B.left blob.old }
{
    settle(blob, needs_sync)?;
    let kept = size.min(len);
    let room = u64::from(physical_page_size) - 12;
    let page = kept / room;
    let part = (kept % room) as u16;
    if part == 0 {
        cut_behind::<B, C>(blob, physical_page_size, page)?;
        return Ok(None);
    }
    let last = cut_within::<B, C>(alloc, blob, physical_page_size, page, part)?;
    Ok(Some(last))
}
