//! What pushing a million bits and merkleizing cost beside the bare hashes of the chunks and their tree, and what
//! setting one bit of a million and merkleizing again costs beside the bare hashes of its path.

mod work;

use measurement::{measure, report_ratio};
use std::alloc::Global;
use std::io;
use std::time::CpuClock;

// How many bits are set one after the other.
const SETS: u64 = 10_000;

fn measure_pushes<R: Print + Eprint + CpuClock>(
    rt: &R,
    alloc: Global,
    count: u64,
) -> io::Result<()> {
    let bare = measure(
        rt,
        "bare hashes of 125,000 chunks of one byte and their tree",
        count,
        |round| work::hashed(1, work::BITS / 8, round),
    )?;
    let pushed = measure(
        rt,
        "1,000,000 bits pushed and merkleized, in chunks of one byte",
        count,
        |round| work::pushed_bytes(alloc, round),
    )?;
    report_ratio(rt, "pushed over hashed, chunks of one byte", pushed, bare)?;
    let bare = measure(
        rt,
        "bare hashes of 3,906 chunks of 32 bytes and their tree",
        count,
        |round| work::hashed(32, work::BITS / 256, round),
    )?;
    let pushed = measure(
        rt,
        "1,000,000 bits pushed and merkleized, in chunks of 32 bytes",
        count,
        |round| work::pushed_words(alloc, round),
    )?;
    report_ratio(rt, "pushed over hashed, chunks of 32 bytes", pushed, bare)?;
    let pushed = measure(
        rt,
        "1,000,000 bits pushed as bytes and merkleized, in chunks of 32 bytes",
        count,
        |round| work::pushed_parts(alloc, round),
    )?;
    report_ratio(
        rt,
        "pushed as bytes over hashed, chunks of 32 bytes",
        pushed,
        bare,
    )
}

fn measure_sets<R: Print + Eprint + CpuClock>(rt: &R, alloc: Global, count: u64) -> io::Result<()> {
    let bare = measure(
        rt,
        "bare hashes of 10,000 paths of a leaf and 17 branches",
        count,
        |round| work::hashed_paths(SETS, round),
    )?;
    let none = measure(rt, "a map of a million bits alone", count, |_round| {
        work::set(alloc, 0)
    })?;
    let set = measure(
        rt,
        "10,000 times one bit of a million set, and merkleized again",
        count,
        |_round| work::set(alloc, SETS),
    )?;
    report_ratio(rt, "set over hashed", set.saturating_sub(none), bare)
}

/// Measures all, each done so many times.
pub fn measure_all<R: Print + Eprint + CpuClock>(
    rt: &R,
    alloc: Global,
    count: u64,
) -> io::Result<()> {
    measure_pushes(rt, alloc, count)?;
    measure_sets(rt, alloc, count)
}
