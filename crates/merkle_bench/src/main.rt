//! Measures digests, positions and varints (`forest`), trees in memory (`trees`), encodings of operations
//! (`operations`), the bitmap (`bitmap`) and checks of state proofs (`state`), each beside the bare hashes or copies
//! that it needs. It reads from standard input what is measured, a line each: a subject, and a number that says how
//! much of it. Standard output gets what was done and a sum of the answers, standard error the processor time of one.
#![tactic(auto)]

mod bitmap;
mod forest;
mod operations;
mod state;
mod trees;

use std::alloc::Global;
use std::io;
use std::time::CpuClock;

// Measures the subject that a line names; of others it says so.
fn measure_subject<R: Print + Eprint + CpuClock>(
    rt: &R,
    alloc: Global,
    line: &str,
) -> io::Result<()> {
    let words: Vec<&str> = line.split_whitespace().collect(alloc)?;
    match words.as_slice() {
        ["forest", count] => forest::measure_all(rt, alloc, count.parse().unwrap_or(1)),
        ["trees", count] => trees::measure_all(rt, alloc, count.parse().unwrap_or(1)),
        ["operations", count] => operations::measure_all(rt, alloc, count.parse().unwrap_or(1)),
        ["bitmap", count] => bitmap::measure_all(rt, alloc, count.parse().unwrap_or(1)),
        ["state", count] => state::measure_all(rt, alloc, count.parse().unwrap_or(1)),
        _ => println!(rt; "bad line"),
    }
}

fn main(rt: HostRuntime) -> io::Result<()> {
    for line in rt.lines(rt.alloc()) {
        measure_subject(&rt, rt.alloc(), line?.as_str())?;
    }
    Ok(())
}
