//! What appending and syncing cost beside the checksums and one copy alone, what a read of a kept page costs in a small
//! and in a large list, and what lists cost that are replayed, lent and sealed.

mod lists;
mod work;

use measurement::{measure, report_ratio};
use std::alloc::Global;
use std::io;
use std::time::CpuClock;

// How many bytes are appended.
const APPENDED: usize = 64 << 20;

// How many reads are measured at once.
const READS: u64 = 5_000_000;

fn measure_appends<R: Print + Eprint + CpuClock>(
    rt: &R,
    alloc: Global,
    count: u64,
) -> io::Result<()> {
    let summed = measure(
        rt,
        "checksums of the pages of 64 MiB, and one copy",
        count,
        |round| work::summed_and_copied(alloc, APPENDED, round),
    )?;
    let appended = measure(
        rt,
        "64 MiB appended in pieces of 100 bytes, synced each MiB",
        count,
        |_round| work::appended(alloc, APPENDED),
    )?;
    report_ratio(rt, "appended over checksums and one copy", appended, summed)
}

// The time of as many reads as are measured at once, from a list of so many bytes.
fn measure_reads<R: Print + Eprint + CpuClock>(
    rt: &R,
    alloc: Global,
    name: &str,
    size: usize,
    count: u64,
) -> io::Result<u64> {
    let made = measure(rt, "the list alone", count, |_round| {
        work::read(alloc, size, 0)
    })?;
    let read = measure(rt, name, count, |_round| work::read(alloc, size, READS))?;
    Ok(read.saturating_sub(made))
}

/// Measures all, each done so many times.
pub fn measure_all<R: Print + Eprint + CpuClock>(
    rt: &R,
    alloc: Global,
    count: u64,
) -> io::Result<()> {
    measure_appends(rt, alloc, count)?;
    let small = measure_reads(
        rt,
        alloc,
        "5,000,000 reads of 25 bytes from 64 KiB",
        64 << 10,
        count,
    )?;
    let large = measure_reads(
        rt,
        alloc,
        "5,000,000 reads of 25 bytes from 4 MiB",
        4 << 20,
        count,
    )?;
    report_ratio(rt, "reads from 4 MiB over reads from 64 KiB", large, small)
}

// How often a list is replayed at once.
const REPLAYS: u64 = 8;

// How many bytes the list has of which snapshots are taken: 4,000 of them stand behind its whole pages.
const SEALED: usize = 4_190_100;

/// Measures a replay of a list of so many MiB, reads of a view, and snapshots, each done so many times.
pub fn measure_lists<R: Print + Eprint + CpuClock>(
    rt: &R,
    alloc: Global,
    size: usize,
    count: u64,
) -> io::Result<()> {
    let made = measure(rt, "the list alone", count, |_round| {
        lists::replayed(alloc, size, 0)
    })?;
    let checked = measure(rt, "its pages read and checked 8 times", count, |_round| {
        lists::checked(alloc, size, REPLAYS)
    })?;
    let replayed = measure(rt, "the list replayed 8 times", count, |_round| {
        lists::replayed(alloc, size, REPLAYS)
    })?;
    let (replay, check) = (replayed.saturating_sub(made), checked.saturating_sub(made));
    report_ratio(
        rt,
        "a replay over its pages read and checked",
        replay,
        check,
    )?;
    let by_writer = measure(
        rt,
        "5,000,000 reads of 25 bytes by a writer",
        count,
        |_round| { lists::viewed(alloc, 64 << 10, READS, false) },
    )?;
    let by_view = measure(
        rt,
        "5,000,000 reads of 25 bytes by a view",
        count,
        |_round| { lists::viewed(alloc, 64 << 10, READS, true) },
    )?;
    report_ratio(
        rt,
        "reads by a view over reads by a writer",
        by_view,
        by_writer,
    )?;
    let copied = measure(rt, "1,000,000 copies of a page", count, |_round| {
        lists::copied(alloc, 1_000_000)
    })?;
    let list = measure(rt, "the list alone", count, |_round| {
        lists::snapped(alloc, SEALED, 0)
    })?;
    let sealed = measure(rt, "1,000,000 snapshots of the list", count, |_round| {
        lists::snapped(alloc, SEALED, 1_000_000)
    })?;
    report_ratio(
        rt,
        "a snapshot over a copy of a page",
        sealed.saturating_sub(list),
        copied,
    )
}
