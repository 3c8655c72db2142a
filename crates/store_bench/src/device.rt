//! What a call of the device costs beside that of the faulty store under it.

use crate::calls::{self, Calls, Kind};
use measurement::{Done, report, report_ratio, time};
use std::alloc::Global;
use std::io;
use std::time::CpuClock;

// In how many rounds calls are measured.
const ROUNDS: u64 = 6;

// How many bytes the log has whose calls are measured.
const SHORT_LOG: u64 = 4_096;

// How many a log has that is 64 times as long.
const LONG_LOG: u64 = 262_144;

// What calls cost on a store that is made for them.
fn time_below<R: CpuClock>(rt: &R, alloc: Global, calls: Calls) -> io::Result<Done> {
    let Ok(mut store) = calls::below_of(alloc, calls.size) else {
        return Ok(Done::NONE);
    };
    time(rt, 1, |_round| calls::made_below(&mut store, calls))
}

// What they cost on a device that is made for them.
fn time_above<R: CpuClock>(rt: &R, alloc: Global, calls: Calls) -> io::Result<Done> {
    let Some(mut device) = calls::device_of(alloc, calls.size) else {
        return Ok(Done::NONE);
    };
    time(rt, 1, |_round| calls::made(alloc, &mut device, calls))
}

// What calls cost on the device, and on the store under it. They are made in rounds, in which now the one comes first
// and now the other, since memory that the first gave back may serve the second.
fn measure_calls<R: Print + Eprint + CpuClock>(
    rt: &R,
    alloc: Global,
    calls: Calls,
) -> io::Result<()> {
    let Calls { kind, size, count } = calls;
    let name = kind.name();
    println!(rt; "{count} {name}, of a log of {size} bytes")?;
    eprintln!(rt; "{count} {name}, of a log of {size} bytes")?;
    let mut below = Done::NONE;
    let mut above = Done::NONE;
    for round in 0..ROUNDS {
        if round % 2 == 0 {
            below = below.and(time_below(rt, alloc, calls)?);
            above = above.and(time_above(rt, alloc, calls)?);
        } else {
            above = above.and(time_above(rt, alloc, calls)?);
            below = below.and(time_below(rt, alloc, calls)?);
        }
    }
    report(rt, "by the faulty store", below)?;
    report(rt, "by the device", above)?;
    report_ratio(
        rt,
        "the device over its store",
        above.nanoseconds,
        below.nanoseconds,
    )
}

// What each kind of calls costs: some whose cost is in few bytes, and some that copy the log, of a short one and of one
/// 64 times as long. The latter are fewer, so that as many bytes are copied.
pub fn measure_all<R: Print + Eprint + CpuClock>(
    rt: &R,
    alloc: Global,
    thousands: u64,
) -> io::Result<()> {
    for kind in [
        Kind::Read,
        Kind::PlainWrite,
        Kind::SyncedWrite,
        Kind::Resize,
    ] {
        let count = thousands.saturating_mul(1_000);
        let size = SHORT_LOG;
        measure_calls(rt, alloc, Calls { kind, size, count })?;
    }
    for kind in [
        Kind::Sync,
        Kind::WriteAndSync,
        Kind::Opening,
        Kind::AdmittedOpening,
        Kind::WriteAndOpening,
    ] {
        let short = Calls {
            kind,
            size: SHORT_LOG,
            count: thousands.saturating_mul(64),
        };
        let long = Calls {
            kind,
            size: LONG_LOG,
            count: thousands,
        };
        measure_calls(rt, alloc, short)?;
        measure_calls(rt, alloc, long)?;
    }
    Ok(())
}
