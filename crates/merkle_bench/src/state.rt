//! What a check of one operation's proof costs, and of a proof over 1,000 operations, beside the bare hashes of the
//! strings that it needs.

mod work;

use measurement::{measure, report_ratio};
use merkle_forest::{ByteHash, Location};
use std::alloc::Global;
use std::io;
use std::time::CpuClock;

fn measure_one<R: Print + Eprint + CpuClock>(rt: &R, alloc: Global, count: u64) -> io::Result<()> {
    let Ok((proof, root)) = work::prove_one(alloc) else {
        return println!(rt; "out of memory");
    };
    let operation = work::operation_at(work::PLACE);
    let bare = measure(rt, "strings of one operation's proof", count, |round| {
        work::bare_one(round)
    })?;
    let checked = measure(rt, "proof of one operation checked", count, |_round| {
        u64::from(proof.verify::<ByteHash>(&operation, &root))
    })?;
    report_ratio(rt, "check of one over its strings", checked, bare)
}

fn measure_range<R: Print + Eprint + CpuClock>(
    rt: &R,
    alloc: Global,
    count: u64,
) -> io::Result<()> {
    let Ok((proof, root)) = work::prove_range(alloc) else {
        return println!(rt; "out of memory");
    };
    let mut operations = Vec::new(alloc);
    for place in 0..work::SHOWN {
        operations.push(work::operation_at(place))?;
    }
    let mut shown: Vec<&[u8]> = Vec::new(alloc);
    for operation in &operations {
        shown.push(operation)?;
    }
    let chunk = work::wide_chunk();
    let chunks: [&[u8]; 1] = [&chunk];
    let bare = measure(
        rt,
        "strings of a proof over 1,000 operations",
        count,
        |round| { work::bare_range(round) },
    )?;
    let start = Location::new(0);
    let checked = measure(rt, "proof over 1,000 operations checked", count, |_round| {
        u64::from(proof.verify_with_chunk_size::<ByteHash>(start, &shown, &chunks, 256, &root))
    })?;
    report_ratio(rt, "check of a range over its strings", checked, bare)
}

/// Measures both, each done so many times.
pub fn measure_all<R: Print + Eprint + CpuClock>(
    rt: &R,
    alloc: Global,
    count: u64,
) -> io::Result<()> {
    measure_one(rt, alloc, count)?;
    measure_range(rt, alloc, count)
}
