//! What a read of a value costs in a small store, in one with a long log and in one with many keys, beside the lookup
//! of the key.

use crate::stores::{self, Filling};
use measurement::{measure, report_ratio};
use std::alloc::Global;
use std::io;
use std::time::CpuClock;

// What so many reads of values cost in a store that is filled so.
fn measure_reads<R: Print + Eprint + CpuClock>(
    rt: &R,
    alloc: Global,
    filling: Filling,
    reads: u64,
) -> io::Result<u64> {
    let Filling { keys, times, .. } = filling;
    println!(rt; "{reads} reads over {keys} keys, each put {times} times")?;
    eprintln!(rt; "{reads} reads over {keys} keys, each put {times} times")?;
    let Some(mut store) = stores::made(alloc, filling) else {
        return Ok(0);
    };
    measure(rt, "reads", 1, |_round| {
        stores::read(&mut store, keys, reads)
    })
}

// What it costs to look up so many keys in the index of such a store.
fn measure_lookups<R: Print + Eprint + CpuClock>(
    rt: &R,
    alloc: Global,
    filling: Filling,
    lookups: u64,
) -> io::Result<u64> {
    let Some(places) = stores::index_of(alloc, filling) else {
        return Ok(0);
    };
    measure(rt, "their keys are looked up", 1, |_round| {
        stores::look_up(&places, filling.keys, lookups)
    })
}

/// What reads cost where the log is long, and where the index is large, beside those of a small store.
pub fn measure_all<R: Print + Eprint + CpuClock>(
    rt: &R,
    alloc: Global,
    thousands: u64,
) -> io::Result<()> {
    let keys = thousands.saturating_mul(1_000);
    let reads = thousands.saturating_mul(5_000);
    let few = keys / 100;
    let small = Filling::once(few, few);
    let long = Filling {
        times: 100,
        ..small
    };
    let large = Filling::once(keys, keys);
    let of_small = measure_reads(rt, alloc, small, reads)?;
    let in_small = measure_lookups(rt, alloc, small, reads)?;
    let of_long = measure_reads(rt, alloc, long, reads)?;
    let of_large = measure_reads(rt, alloc, large, reads)?;
    let in_large = measure_lookups(rt, alloc, large, reads)?;
    report_ratio(rt, "reads in a log 100 times as long", of_long, of_small)?;
    report_ratio(rt, "reads over 100 times as many keys", of_large, of_small)?;
    report_ratio(rt, "lookups in an index of these", in_large, in_small)?;
    report_ratio(rt, "reads over lookups, few keys", of_small, in_small)?;
    report_ratio(rt, "reads over lookups, many keys", of_large, in_large)
}
