//! Measures openings of a store beside reading its log (`openings`), reads of values beside lookups of their keys
//! (`reads`), calls of the device beside those of the faulty store under it (`device`), commits over many keys beside
//! those over few (`commits`), commits of a thousand keys beside their strings and bytes (`batches`), commits of one
//! key beside earlier ones (`singles`), and the memory of open stores (`memory`), each for so many thousands of
//! operations or keys. It reads from standard input what is measured, a line each: a subject, and a number that says
//! how much of it. Standard output gets what was done and a sum of the answers, standard error the processor time of
//! one.
#![tactic(auto)]

mod batches;
mod calls;
mod commits;
mod device;
mod growing;
mod logs;
mod memory;
mod open_store;
mod openings;
mod plain_hash;
mod reads;
mod singles;
mod stores;
mod strings;

use std::alloc::Global;
use std::io;
use std::rt::Files;
use std::time::CpuClock;

// Measures the subject that a line names; of others it says so.
fn measure_subject<R: Print + Eprint + Files + Alloc + CpuClock>(
    rt: &R,
    alloc: Global,
    line: &str,
) -> io::Result<()> {
    let words: Vec<&str> = line.split_whitespace().collect(alloc)?;
    match words.as_slice() {
        ["openings", count] => openings::measure_all(rt, alloc, count.parse().unwrap_or(1)),
        ["commits", count] => commits::measure_all(rt, alloc, count.parse().unwrap_or(1)),
        ["batches", count] => batches::measure_all(rt, alloc, count.parse().unwrap_or(1)),
        ["singles", count] => singles::measure_all(rt, alloc, count.parse().unwrap_or(1)),
        ["memory", count] => memory::measure_all(rt, alloc, count.parse().unwrap_or(1)),
        ["reads", count] => reads::measure_all(rt, alloc, count.parse().unwrap_or(1)),
        ["device", count] => device::measure_all(rt, alloc, count.parse().unwrap_or(1)),
        _ => println!(rt; "bad line"),
    }
}

fn main(rt: HostRuntime) -> io::Result<()> {
    for line in rt.lines(rt.alloc()) {
        measure_subject(&rt, rt.alloc(), line?.as_str())?;
    }
    Ok(())
}
