//! Measures the fault storage (`storage`), writers of pages (`pages`) and lists of so many MiB that are replayed, lent
//! and sealed (`lists`), each beside copies and bare checksums. It reads from standard input what is measured, a line
//! each: a subject, and numbers that say how much of it. Standard output gets what was done and a sum of the answers,
//! standard error the processor time of one.
#![tactic(auto)]

mod pages;
mod storage;

use std::alloc::Global;
use std::io;
use std::time::CpuClock;

// Measures the subject that a line names; of others it says so.
fn measure_subject<R: Print + Eprint + CpuClock>(
    rt: &R,
    alloc: Global,
    line: &str,
) -> io::Result<()> {
    let words: Vec<&str> = line.split_whitespace().collect(alloc)?;
    match words.as_slice() {
        ["storage", count] => storage::measure_all(rt, alloc, count.parse().unwrap_or(1)),
        ["pages", count] => pages::measure_all(rt, alloc, count.parse().unwrap_or(1)),
        ["lists", size, count] => {
            let size: usize = size.parse().unwrap_or(1);
            pages::measure_lists(rt, alloc, size.min(1024) << 20, count.parse().unwrap_or(1))
        }
        _ => println!(rt; "bad line"),
    }
}

fn main(rt: HostRuntime) -> io::Result<()> {
    for line in rt.lines(rt.alloc()) {
        measure_subject(&rt, rt.alloc(), line?.as_str())?;
    }
    Ok(())
}
