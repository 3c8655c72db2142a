//! What opening a store costs beside reading and decoding its log.

use crate::stores::{self, Filling, Use};
use measurement::{measure, report_ratio};
use std::alloc::Global;
use std::io;
use std::time::CpuClock;

// How often a store is opened in a measure.
const OPENINGS: u64 = 20;

// What it costs to open the device of a store that is filled so, to read its log, and to make this of it, so many
// times. How the store is made is not measured.
fn measure_use<R: Print + Eprint + CpuClock>(
    rt: &R,
    alloc: Global,
    name: &str,
    filling: Filling,
    used: Use,
) -> io::Result<u64> {
    let mut device = stores::device_of(alloc, filling);
    measure(rt, name, 1, |_round| {
        stores::used(alloc, &mut device, OPENINGS, used)
    })
}

// What it costs to open a store that is filled so, as many times.
fn measure_opened<R: Print + Eprint + CpuClock>(
    rt: &R,
    alloc: Global,
    filling: Filling,
) -> io::Result<u64> {
    let mut device = stores::device_of(alloc, filling);
    measure(rt, "it is opened 20 times", 1, |_round| {
        stores::opened(alloc, &mut device, OPENINGS)
    })
}

// What openings of a store that is filled so cost beside reading its log.
fn measure_openings<R: Print + Eprint + CpuClock>(
    rt: &R,
    alloc: Global,
    filling: Filling,
) -> io::Result<()> {
    let Filling { keys, batch, times } = filling;
    println!(rt; "{keys} keys in batches of {batch}, each put {times} times")?;
    eprintln!(rt; "{keys} keys in batches of {batch}, each put {times} times")?;
    let read = measure_use(
        rt,
        alloc,
        "its log, read and decoded 20 times",
        filling,
        Use::Decoded,
    )?;
    let indexed = measure_use(
        rt,
        alloc,
        "its log, read, decoded and indexed 20 times",
        filling,
        Use::Indexed,
    )?;
    let checked = measure_use(
        rt,
        alloc,
        "its log, checked and indexed 20 times",
        filling,
        Use::Checked,
    )?;
    let taken = measure_use(
        rt,
        alloc,
        "its log, all done but the root 20 times",
        filling,
        Use::Taken,
    )?;
    let opened = measure_opened(rt, alloc, filling)?;
    report_ratio(rt, "indexing over decoding", indexed, read)?;
    report_ratio(rt, "checking over decoding", checked, read)?;
    report_ratio(rt, "opening without the root over decoding", taken, read)?;
    report_ratio(rt, "opening over decoding", opened, read)
}

/// What openings cost of logs that came in one batch, in fifty, in fifty of a tenth as many keys, and in a hundred that
/// put the same keys anew.
pub fn measure_all<R: Print + Eprint + CpuClock>(
    rt: &R,
    alloc: Global,
    thousands: u64,
) -> io::Result<()> {
    let keys = thousands.saturating_mul(1_000);
    let few = keys / 100;
    measure_openings(rt, alloc, Filling::once(keys, keys))?;
    measure_openings(rt, alloc, Filling::once(keys / 2, few))?;
    measure_openings(rt, alloc, Filling::once(keys / 20, keys / 1_000))?;
    let again = Filling {
        times: 100,
        ..Filling::once(few, few)
    };
    measure_openings(rt, alloc, again)
}
