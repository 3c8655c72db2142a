//! Whether an opening is by chance: a slot verifies that none of the files before it had, each mutation being whole.

ghost use Rattle.std.specs.Prelude.{◌≡◌, ◌+◌, ◌*◌, ◌/◌, ◌<◌, ◌≤◌, ◌^◌, ◌++◌, false, length, take, drop, IfOk, OnOk};
ghost use Rattle.std.specs.List.{list_any};
ghost use Rattle.paged_blob_parts.specs.Calls.{whole};
ghost use Rattle.paged_blob_parts.specs.Chance.{page_at, has_slot, was_written, is_chance_slot, has_chance_slot};
ghost use Rattle.paged_format.specs.Footers.{IsPageSize, slot_start, slot_len, slot_crc};
ghost use Rattle.paged_format.specs.Pages.{verifies};
ghost use Rattle.paged_format.specs.declared.footer.Slot.TheVariants.{First, Second};
ghost use Rattle.auth_store_device.specs.Devices.{shown_file};
ghost use Rattle.auth_store_device.specs.OpeningsCode.{is_base, file_from};
ghost use Rattle.auth_store_device.specs.RecordsCode.{changes_of};

use crate::file::{put_bytes, set_length};
use crate::kept::Entry;
use crate::openings::Since;
use fault_storage::Checksum;
use paged_format::Slot;
use std::alloc::{AllocError, Global};

// So many bytes from a place on, or as many as there are.
fn part(bytes: &[u8], start: usize, count: usize) -> &[u8]
    ensures { result.now ≡ take count (drop start bytes.now) }
{
    let (_, behind) = bytes.split_at(start.min(bytes.len()));
    let (first, _) = behind.split_at(count.min(behind.len()));
    first
}

// Where a slot begins in a page of so many bytes.
fn slot_start(size: usize, slot: Slot) -> usize
    requires { 12 ≤ size }
    ensures { result ≡ slot_start size slot }
{
    match slot {
        Slot::First => size - 12,
        Slot::Second => size - 6,
    }
}

// The length that a slot of a page says.
fn slot_len(page: &[u8], slot: Slot) -> u16
    requires { 12 ≤ length page.now }
    ensures { result ≡ slot_len (length page.now) slot page.now }
{
    let at = slot_start(page.len(), slot);
    u16::from_be_bytes([page[at], page[at + 1]])
}

// Its checksum.
fn slot_crc(page: &[u8], slot: Slot) -> u32
    requires { 12 ≤ length page.now }
    ensures { result ≡ slot_crc (length page.now) slot page.now }
{
    let at = slot_start(page.len(), slot) + 2;
    u32::from_be_bytes([page[at], page[at + 1], page[at + 2], page[at + 3]])
}

// Whether a slot of a page verifies.
fn verifies<C: Checksum>(page: &[u8], slot: Slot) -> bool
    requires { 12 ≤ length page.now }
    ensures { result ≡ verifies C.checksum_of (length page.now) slot page.now }
{
    let len = slot_len(page, slot) as usize;
    if len == 0 {
        return false;
    }
    if len > page.len() - 12 {
        return false;
    }
    slot_crc(page, slot) == C::checksum(&page[..len])
}

// Whether a page has the slot of the shown one, and the bytes that it vouches for.
fn has_slot(shown: &[u8], slot: Slot, page: &[u8]) -> bool
    requires { 12 ≤ length shown.now }
    ensures { result ≡ has_slot (length shown.now) slot shown.now page.now }
{
    let start = slot_start(shown.len(), slot);
    if part(page, start, 6) != part(shown, start, 6) {
        return false;
    }
    let len = slot_len(shown, slot) as usize;
    part(page, 0, len) == part(shown, 0, len)
}

// A page of a file, or as much of it as there is.
fn page_at(size: usize, page: usize, file: &[u8]) -> &[u8]
    requires { page * size < 2 ^ 64 }
    ensures { result.now ≡ page_at size page file.now }
{
    part(file, page * size, size)
}

// Makes the mutation that a call is, where it is one, on the file, whole. It fails only when out of memory.
fn make_whole(file: &mut Vec<u8>, call: Entry<'_>) -> Result<(), AllocError>
    ensures { OnOk result (file.new.items ≡ whole file.old.items (changes_of call.entry)) }
{
    match call {
        Entry::Wrote(offset, bytes, _, _) => put_bytes(file, offset as usize, bytes),
        Entry::ResizedTo(len, _) => set_length(file, len as usize),
        _ => Ok(()),
    }
}

// Whether the base, or the base with the first of the mutations since, each whole, has the slot of the shown page. It
// fails only when out of memory.
fn was_written(
    alloc: Global,
    since: &Since<'_>,
    page: usize,
    slot: Slot,
    shown: &[u8],
) -> Result<bool, AllocError>
    requires size { 12 ≤ length shown.now }
    requires page { page * length shown.now < 2 ^ 64 }
    requires calls { list_any is_base since.now.calls ≡ false }
    ensures { let file = file_from (shown_file since.now.base.now) since.now.calls in
        IfOk result (λ is. is ≡ was_written (length shown.now) page slot shown.now file.base file.changes) }
{
    let mut file = since.base.to_vec(alloc)?;
    let mut is_found = has_slot(shown, slot, page_at(shown.len(), page, &file));
    for place in 0..since.calls.len() {
        make_whole(&mut file, since.calls.entry(place))?;
        is_found |= has_slot(shown, slot, page_at(shown.len(), page, &file));
    }
    Ok(is_found)
}

// Whether a slot of a page verifies that none of these files has. It fails only when out of memory.
fn is_chance_slot<C: Checksum>(
    alloc: Global,
    since: &Since<'_>,
    shown: &[u8],
    size: usize,
    page: usize,
    slot: Slot,
) -> Result<bool, AllocError>
    requires size { 12 ≤ size }
    requires page { page < length shown.now / size }
    requires calls { list_any is_base since.now.calls ≡ false }
    ensures { let file = file_from (shown_file since.now.base.now) since.now.calls in
        IfOk result (λ is. is ≡ is_chance_slot C.checksum_of size file shown.now page slot) }
{
    let here = page_at(size, page, shown);
    if !verifies::<C>(here, slot) {
        return Ok(false);
    }
    let is_written = was_written(alloc, since, page, slot, here)?;
    Ok(!is_written)
}

/// Whether a slot of one of the first pages verifies that none of these files has. It fails only when out of memory.
pub(crate) fn has_chance_slot<C: Checksum>(
    alloc: Global,
    since: &Since<'_>,
    shown: &[u8],
    size: usize,
) -> Result<bool, AllocError>
    requires size { 12 ≤ size }
    requires calls { list_any is_base since.now.calls ≡ false }
    ensures { let file = file_from (shown_file since.now.base.now) since.now.calls in
        IfOk result (λ is. is ≡ has_chance_slot C.checksum_of size file shown.now (length shown.now / size)) }
{
    let count = shown.len() / size;
    let mut is_found = false;
    for page in 0..count {
        is_found |= is_chance_slot::<C>(alloc, since, shown, size, page, Slot::Second)?;
        is_found |= is_chance_slot::<C>(alloc, since, shown, size, page, Slot::First)?;
    }
    Ok(is_found)
}
