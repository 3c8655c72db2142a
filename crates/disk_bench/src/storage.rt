//! What checksums of pages, writes and syncs cost.

mod work;

use fault_storage::memory::Storage;
use measurement::{measure, report_ratio};
use std::alloc::Global;
use std::io;
use std::time::CpuClock;

fn measure_checksums<R: Print + Eprint + CpuClock>(rt: &R, count: u64) -> io::Result<()> {
    let mut page = [7; 4096];
    measure(rt, "checksum of 4096 bytes", count, |round| {
        work::checksum(&mut page, round)
    })?;
    Ok(())
}

// The time of writes to a blob of this size; 0 where it cannot be made.
fn measure_writes<R: Print + Eprint + CpuClock>(
    rt: &R,
    alloc: Global,
    name: &str,
    size: u64,
    count: u64,
) -> io::Result<u64> {
    let mut storage = Storage::new(alloc);
    let bytes = [5; 64];
    match work::blob_of(&mut storage, b"n", size) {
        Ok(mut blob) => measure(rt, name, count, |_round| {
            work::write(&mut blob, &mut storage, &bytes)
        }),
        Err(_) => Ok(0),
    }
}

// The time of syncs of a blob of this size; 0 where it cannot be made.
fn measure_syncs<R: Print + Eprint + CpuClock>(
    rt: &R,
    alloc: Global,
    name: &str,
    size: u64,
    count: u64,
) -> io::Result<u64> {
    let mut storage = Storage::new(alloc);
    match work::blob_of(&mut storage, b"n", size) {
        Ok(blob) => measure(rt, name, count, |_round| work::sync(&blob, &mut storage)),
        Err(_) => Ok(0),
    }
}

fn measure_stores<R: Print + Eprint + CpuClock>(
    rt: &R,
    alloc: Global,
    count: u64,
) -> io::Result<()> {
    let small = measure_writes(rt, alloc, "write of 64 bytes to 1 KiB", 1 << 10, count)?;
    let large = measure_writes(rt, alloc, "write of 64 bytes to 1 MiB", 1 << 20, count)?;
    report_ratio(
        rt,
        "write of 64 bytes, to 1 MiB over to 1 KiB",
        large,
        small,
    )?;
    let bytes = vec![in alloc; 0u8; 1 << 20]?;
    let copied = measure(rt, "copy of 1 MiB", count, |_round| {
        work::copy(alloc, &bytes)
    })?;
    let synced = measure_syncs(rt, alloc, "sync of 1 MiB", 1 << 20, count)?;
    report_ratio(rt, "sync over copy of 1 MiB", synced, copied)
}

/// Measures all, each done so many times.
pub fn measure_all<R: Print + Eprint + CpuClock>(
    rt: &R,
    alloc: Global,
    count: u64,
) -> io::Result<()> {
    measure_checksums(rt, count)?;
    measure_stores(rt, alloc, count)
}
