//! The openings of a device, lent from its record.

ghost use Rattle.std.specs.Prelude.{◌≡◌, ◌≤◌, [], false, length, take, drop, map, reverse, IfOk};
ghost use Rattle.std.specs.Iterator.{YieldsFirst, YieldsFirstBy, item_count};
ghost use Rattle.std.specs.List.{list_any};
ghost use Rattle.fault_storage_parts.specs.Crc32.{crc32};
ghost use Rattle.paged_format.specs.Footers.{IsPageSize};
ghost use Rattle.paged_blob_parts.specs.Calls.{file_of};
ghost use Rattle.paged_blob_parts.specs.Chance.{is_by_chance};
ghost use Rattle.auth_store_device.specs.Openings.{openings_of, mutations_of, plain};
ghost use Rattle.auth_store_device.specs.OpeningsCode.{is_base, file_from};
ghost use Rattle.auth_store_device.specs.Records.{calls_of};
ghost use Rattle.auth_store_device.specs.RecordsCode.{begins};
ghost use Rattle.auth_store_device.specs.Devices.{shown_file};

use crate::blocks::Image;
use crate::chance::has_chance_slot;
use crate::kept::Entry;
use crate::record::{Calls, Record};
use fault_storage::Crc32;
use std::alloc::{AllocError, Global};
use std::marker::Model;

/// The openings that are left of a record, the oldest first (own).
#[derive(Debug, Drop)]
pub struct Openings<'a> {
    record_kept: &'a Record,
    place: usize,
}

impl<'a> Model for Openings<'a> {
    ghost use Rattle.std.specs.Prelude.{List, ◌≤◌, length, take, drop};
    ghost use Rattle.auth_store_device.specs.Openings.{Showing};
    ghost use Rattle.auth_store_device.specs.OpeningsCode.{openings_from};

    ghost Value = { List Showing };

    ghost view = { λ it. openings_from (take it.place it.record_kept.now.in_order)
        (drop it.place it.record_kept.now.in_order) };

    ghost invariant = { λ it. it.place ≤ length it.record_kept.now.in_order };
}

impl<'a> Openings<'a> {
    /// All those of a record.
    pub(crate) fn of(record_kept: &'a Record) -> Openings<'a>
        ensures { result ≡ openings_of (calls_of record_kept.now) }
    {
        Openings {
            record_kept,
            place: 0,
        }
    }
}

impl<'a> Iterator for Openings<'a> {
    type Item = Opening<'a>;

    ghost next_gives = { YieldsFirst (λ s. s) };

    ghost remaining = { item_count (λ s. s) };

    fn next(&mut self) -> Option<Opening<'a>> {
        while self.place < self.record_kept.len() {
            let place = self.place;
            self.place += 1;
            if let Entry::Opened(base, shown) = self.record_kept.entry(place) {
                return Some(Opening {
                    earlier: self.record_kept.first(place),
                    base,
                    shown,
                });
            }
        }
        None
    }
}

/// An opening of the device: what it showed, what was durable at the sync or opening before it, and the calls before it
/// (own).
#[derive(Debug, Drop)]
pub struct Opening<'a> {
    earlier: Calls<'a>,
    base: Image<'a>,
    shown: Image<'a>,
}

impl<'a> Model for Opening<'a> {
    ghost use Rattle.std.specs.Prelude.{◌≡◌, reverse};
    ghost use Rattle.paged_blob_parts.specs.Calls.{file_of};
    ghost use Rattle.auth_store_device.specs.Openings.{Showing};

    ghost Value = { Showing };

    ghost view = { λ it. record { before = reverse it.earlier; shown = it.shown } };

    ghost invariant = { λ it. it.base ≡ (file_of (reverse it.earlier)).base };
}

impl<'a> Opening<'a> {
    /// The bytes that were durable at the sync or opening before, behind the header.
    pub fn base(&self) -> Image<'a>
        ensures { result ≡ (file_of self.now.before).base }
    {
        self.base.lend()
    }

    /// The bytes that the opening showed, behind the header.
    pub fn shown(&self) -> Image<'a>
        ensures { result ≡ self.now.shown }
    {
        self.shown.lend()
    }

    /// The writes and resizes between the base and the opening, whole, the oldest first; those that failed are among
    /// them.
    pub fn mutations(&self) -> Mutations<'a>
        ensures { result ≡ mutations_of self.now }
    {
        Mutations {
            calls: calls_since(&self.earlier),
        }
    }

    /// Whether the opening is by chance, where pages have so many bytes, with checksums CRC-32: a slot of the bytes
    /// that it showed verifies, and neither the base nor the base with the first of the mutations, each whole, has in
    /// the same place that slot and the bytes that it vouches for. It fails only when out of memory. That a page may
    /// have so many bytes is on the caller.
    pub fn by_chance(&self, alloc: Global, physical_page_size: u32) -> Result<bool, AllocError>
        requires { IsPageSize physical_page_size }
        ensures { IfOk result (λ is. is
            ≡ is_by_chance crc32 physical_page_size (file_of self.now.before) self.now.shown) }
    {
        let base = self.base.to_vec(alloc)?;
        let shown = self.shown.to_vec(alloc)?;
        let since = Since {
            base: &base,
            calls: calls_since(&self.earlier),
        };
        has_chance_slot::<Crc32>(alloc, &since, &shown, physical_page_size as usize)
    }
}

/// A write or a resize that was asked for, whole (own).
#[derive(Debug, Drop)]
pub enum Mutation<'a> {
    /// A write.
    Write {
        /// Where its bytes begin.
        offset: u64,
        /// The bytes.
        bytes: &'a [u8],
    },
    /// A resize.
    Resize {
        /// The length that was asked for.
        length: u64,
    },
}

/// The mutations that are left of calls, the oldest first (own).
#[derive(Debug, Drop)]
pub struct Mutations<'a> {
    calls: Calls<'a>,
}

impl<'a> Model for Mutations<'a> {
    ghost use Rattle.std.specs.Prelude.{List, map};
    ghost use Rattle.paged_blob_parts.specs.Calls.{Change};
    ghost use Rattle.auth_store_device.specs.Openings.{plain};
    ghost use Rattle.auth_store_device.specs.OpeningsCode.{changes_in};

    ghost Value = { List Change };

    ghost view = { λ it. map plain (changes_in it.calls) };
}

impl<'a> Iterator for Mutations<'a> {
    ghost use Rattle.auth_store_device.specs.Mutations.{change_of};

    type Item = Mutation<'a>;

    ghost next_gives = { YieldsFirstBy change_of (λ s. s) };

    ghost remaining = { item_count (λ s. s) };

    fn next(&mut self) -> Option<Mutation<'a>> {
        while self.calls.len() > 0 {
            let call = self.calls.entry(0);
            self.calls = self.calls.behind(1);
            match call {
                Entry::Wrote(offset, bytes, _, _) => {
                    return Some(Mutation::Write { offset, bytes });
                }
                Entry::ResizedTo(length, _) => {
                    return Some(Mutation::Resize { length });
                }
                _ => {}
            }
        }
        None
    }
}

/// A base, and the calls since, none of which begins the file anew.
#[derive(Drop)]
pub(crate) struct Since<'a> {
    /// The bytes that were durable.
    pub(crate) base: &'a [u8],
    /// The calls since, the oldest first.
    pub(crate) calls: Calls<'a>,
}

// Whether the file begins anew with the call.
fn begins(call: Entry<'_>) -> bool
    ensures { result ≡ begins call.entry }
{
    match call {
        Entry::Opened(_, _) => true,
        Entry::Synced(is_made) => is_made,
        _ => false,
    }
}

/// The calls since the last with which the file begins anew; all of them where there is none.
pub(crate) fn calls_since<'a>(earlier: &Calls<'a>) -> Calls<'a>
    ensures file { file_of (reverse earlier.now) ≡ file_from (shown_file (file_of (reverse earlier.now)).base) result }
    ensures calls { list_any is_base result ≡ false }
{
    let mut count = earlier.len();
    while count > 0 {
        if begins(earlier.entry(count - 1)) {
            return earlier.behind(count);
        }
        count -= 1;
    }
    earlier.behind(0)
}
