//! What a commit of a thousand new keys costs, beside the bare hash of the strings that have to be hashed for it
//! (`strings`) and the append of its bytes to a log.

use crate::growing::{self, commit_new};
use crate::logs::Log;
use crate::strings::{Strings, hash_strings, strings_of};
use fault_storage::Crc32;
use measurement::{measure, report_ratio};
use std::alloc::Global;
use std::io;
use std::time::CpuClock;
use undo_disk::UndoDisk;

// How many new keys a commit has.
const NEW: u64 = 1_000;

// How many commits a measure makes.
const COMMITS: u64 = 10;

// How many bytes an operation has in the log.
const OPERATION: u64 = 25;

// What the commits cost in a store of so many keys.
fn measure_commits<R: Print + Eprint + CpuClock>(
    rt: &R,
    alloc: Global,
    keys: u64,
) -> io::Result<u64> {
    let Some(mut store) = growing::filled(alloc, keys, NEW) else {
        return Ok(0);
    };
    measure(rt, "commits", COMMITS, |round| {
        let from = round.saturating_add(1).saturating_mul(NEW);
        commit_new(alloc, &mut store, keys.saturating_add(from), NEW)
    })
}

// A log to which so many bytes were appended.
fn log_of(alloc: Global, keys: u64, bytes: u64) -> Option<Log<UndoDisk, Crc32>> {
    let Ok(disk) = UndoDisk::with_capacity(alloc, growing::room_for(keys)) else {
        return None;
    };
    let Ok(mut log) = Log::begin(alloc, disk) else {
        return None;
    };
    let zeros = vec![in alloc; 0; bytes as usize].ok()?;
    log.append(&zeros);
    Some(log)
}

// What it costs to append the bytes of so many operations as often to the log of as many keys. One append is not
// measured, as one commit is not.
fn measure_appends<R: Print + Eprint + CpuClock>(
    rt: &R,
    alloc: Global,
    keys: u64,
    operations: u64,
) -> io::Result<u64> {
    let Some(mut log) = log_of(alloc, keys, keys.saturating_mul(OPERATION)) else {
        return Ok(0);
    };
    let bytes = vec![in alloc; 0; operations.saturating_mul(OPERATION) as usize]?;
    log.append(&bytes);
    measure(rt, "their bytes, appended to a log", COMMITS, |_round| {
        log.append(&bytes)
    })
}

/// What the commits cost over so many thousand keys, beside their strings and bytes.
pub fn measure_all<R: Print + Eprint + CpuClock>(
    rt: &R,
    alloc: Global,
    thousands: u64,
) -> io::Result<()> {
    let keys = thousands.saturating_mul(1_000);
    println!(rt; "commits of {NEW} new keys, in a store of {keys} keys at first")?;
    eprintln!(rt; "commits of {NEW} new keys, in a store of {keys} keys at first")?;
    let strings = strings_of(alloc, keys, NEW)?;
    let Strings {
        operations,
        short,
        long,
    } = strings;
    println!(rt; "{operations} operations, {short} strings of 33 bytes and {long} of 72")?;
    let commits = measure_commits(rt, alloc, keys)?;
    let hashed = measure(rt, "their strings, hashed alone", COMMITS, |round| {
        hash_strings(strings, round)
    })?;
    let appended = measure_appends(rt, alloc, keys, operations)?;
    report_ratio(
        rt,
        "commits over their strings and bytes",
        commits,
        hashed.saturating_add(appended),
    )
}
