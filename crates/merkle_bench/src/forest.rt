//! What digests of branches, positions, peaks and varints cost.

mod work;

use measurement::{measure, report_ratio};
use merkle_forest::codec::FixedBytes;
use merkle_forest::hasher::Standard;
use merkle_forest::{Bagging, ByteHash, Position};
use std::alloc::Global;
use std::io;
use std::time::CpuClock;

fn measure_digests<R: Print + Eprint + CpuClock>(rt: &R, count: u64) -> io::Result<()> {
    let left = FixedBytes::new([1; 32]);
    let right = FixedBytes::new([2; 32]);
    let mut bytes = [3; 72];
    let hasher: Standard<ByteHash> = Standard::new(Bagging::BackwardFold);
    let bare = measure(rt, "sha2 of 72 bytes", count, |round| {
        work::bare_hash(&mut bytes, round)
    })?;
    let branch = measure(rt, "digest of a branch", count, |round| {
        work::branch_digest(&hasher, Position::new(round), &left, &right)
    })?;
    report_ratio(rt, "digest of a branch over sha2 of 72 bytes", branch, bare)
}

fn measure_positions<R: Print + Eprint + CpuClock>(rt: &R, count: u64) -> io::Result<()> {
    let few = measure(rt, "position of a leaf near 2^10", count, |round| {
        work::position(1 << 10, round)
    })?;
    measure(rt, "position of a leaf near 2^30", count, |round| {
        work::position(1 << 30, round)
    })?;
    let many = measure(rt, "position of a leaf near 2^60", count, |round| {
        work::position(1 << 60, round)
    })?;
    report_ratio(rt, "position of a leaf, 2^60 over 2^10", many, few)
}

fn measure_peaks<R: Print + Eprint + CpuClock>(rt: &R, count: u64) -> io::Result<()> {
    let few = measure(rt, "peaks of some 2^10 leaves", count, |round| {
        work::peaks(1 << 10, round)
    })?;
    measure(rt, "peaks of some 2^30 leaves", count, |round| {
        work::peaks(1 << 30, round)
    })?;
    let many = measure(rt, "peaks of some 2^60 leaves", count, |round| {
        work::peaks(1 << 60, round)
    })?;
    report_ratio(rt, "peaks, 2^60 over 2^10 leaves", many, few)
}

fn measure_varints<R: Print + Eprint + CpuClock>(
    rt: &R,
    alloc: Global,
    count: u64,
) -> io::Result<()> {
    let mut out = Vec::with_capacity(alloc, 10)?;
    for (name, least) in [("1 byte", 0), ("5 bytes", 1 << 28), ("10 bytes", 1 << 63)] {
        let written = format!(in alloc; "varint of {name} written")?;
        measure(rt, written.as_str(), count, |round| {
            work::write_varint(&mut out, least, round)
        })?;
        let read = format!(in alloc; "varint of {name} written and read")?;
        measure(rt, read.as_str(), count, |round| {
            work::write_varint(&mut out, least, round) ^ work::read_varint(&out)
        })?;
    }
    Ok(())
}

/// Measures all, each done so many times.
pub fn measure_all<R: Print + Eprint + CpuClock>(
    rt: &R,
    alloc: Global,
    count: u64,
) -> io::Result<()> {
    measure_digests(rt, count)?;
    measure_positions(rt, count)?;
    measure_peaks(rt, count)?;
    measure_varints(rt, alloc, count)
}
