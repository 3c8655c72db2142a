//! What commits of one word each cost, one after the other: a second thousand beside the first.

use crate::growing::{self, Growing, commit_new};
use measurement::{measure, report_ratio};
use std::alloc::Global;
use std::io;
use std::time::CpuClock;

// How many commits are measured at once.
const COMMITS: u64 = 1_000;

// What a thousand of them cost in a store, of new keys from a number on.
fn measure_thousand<R: Print + Eprint + CpuClock>(
    rt: &R,
    alloc: Global,
    name: &str,
    store: &mut Growing,
    from: u64,
) -> io::Result<u64> {
    measure(rt, name, COMMITS, |round| {
        commit_new(alloc, &mut *store, from.saturating_add(round), 1)
    })
}

/// What two thousands of them cost, in a store of so many thousand keys at first.
pub fn measure_all<R: Print + Eprint + CpuClock>(
    rt: &R,
    alloc: Global,
    thousands: u64,
) -> io::Result<()> {
    let keys = thousands.saturating_mul(1_000);
    println!(rt; "commits of one new key, in a store of {keys} keys at first")?;
    eprintln!(rt; "commits of one new key, in a store of {keys} keys at first")?;
    let Some(mut store) = growing::filled(alloc, keys, 1) else {
        return Ok(());
    };
    let from = keys.saturating_add(1);
    let first = measure_thousand(rt, alloc, "a thousand", &mut store, from)?;
    let from = from.saturating_add(COMMITS);
    let second = measure_thousand(rt, alloc, "a second thousand", &mut store, from)?;
    report_ratio(rt, "the second thousand over the first", second, first)
}
