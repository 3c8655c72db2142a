//! How much memory an open store takes for a key, and for an operation.
//!
//! Three stores are opened, each behind the one before: one of half the keys, one of these that were put twice, which
//! has as many operations more, and one of all keys, which has as many keys more than that. What is resident is read
//! from the system before and after an opening. Freed memory may be resident still and serve the opening: in an
//! environment with `MALLOC_MMAP_THRESHOLD_=65536 MALLOC_TRIM_THRESHOLD_=0` the C library gives back what it can.

use crate::stores::{self, Filling};
use std::alloc::Global;
use std::rt::Files;
use std::{fs, io};

// How many bytes a page of memory has.
const PAGE: u64 = 4_096;

// How many bytes of memory the program has now, or 0 where the system does not tell.
fn resident<R: Files + Alloc>(rt: &R) -> u64 {
    let Ok(text) = fs::read_to_string(rt, "/proc/self/statm") else {
        return 0;
    };
    let mut words = text.split_whitespace();
    let _all = words.next();
    let pages: u64 = words.next().unwrap_or("").parse().unwrap_or(0);
    pages.saturating_mul(PAGE)
}

// How many bytes more are there while a store is open that is filled so, beside the simulated disk's own of its log.
fn measure_store<R: Print + Eprint + Files + Alloc>(
    rt: &R,
    alloc: Global,
    filling: Filling,
) -> io::Result<u64> {
    let Filling { keys, times, .. } = filling;
    let mut device = stores::device_of(alloc, filling);
    let closed = resident(rt);
    stores::open_log(&mut device);
    let open = resident(rt);
    let store = stores::reopened(alloc, &mut device);
    let all = resident(rt);
    let operations = stores::operations_in(&store);
    println!(rt; "{keys} keys, each put {times} times: {operations} operations")?;
    let disk = open.saturating_sub(closed);
    let taken = all.saturating_sub(open);
    eprintln!(rt; "{keys} keys, {operations} operations: {taken} bytes, of the disk {disk} more")?;
    Ok(taken)
}

/// How much memory a store takes for each of so many thousand keys, and for each operation.
pub fn measure_all<R: Print + Eprint + Files + Alloc>(
    rt: &R,
    alloc: Global,
    thousands: u64,
) -> io::Result<()> {
    let half = thousands.saturating_mul(500);
    let few = Filling::once(half, half);
    let of_few = measure_store(rt, alloc, few)?;
    let of_twice = measure_store(rt, alloc, Filling { times: 2, ..few })?;
    let keys = half.saturating_mul(2);
    let of_all = measure_store(rt, alloc, Filling::once(keys, keys))?;
    let an_operation = of_twice.saturating_sub(of_few) / half.max(1);
    let a_key = of_all.saturating_sub(of_twice) / half.max(1);
    eprintln!(rt; "bytes an operation: {an_operation}, and a key beside its operation: {a_key}")
}
