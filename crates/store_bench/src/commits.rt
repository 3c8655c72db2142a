//! What a commit costs in a store with many keys, beside one in a store with few.

use crate::growing::{self, commit_new};
use measurement::{measure, report_ratio};
use merkle_forest::digest::Digest;
use merkle_forest::{ByteHash, HashFunction};
use std::alloc::Global;
use std::io;
use std::time::CpuClock;

// How many commits a measure makes.
const COMMITS: u64 = 20;

// How many keys the store has at most that has few.
const FEW: u64 = 1_000;

// What commits cost, each of so many new keys, in a store that has so many. How the store is made is not measured.
fn measure_commits<R: Print + Eprint + CpuClock>(
    rt: &R,
    alloc: Global,
    before: u64,
    new: u64,
) -> io::Result<u64> {
    println!(rt; "commits of {new} new keys, in a store of {before} keys at first")?;
    eprintln!(rt; "commits of {new} new keys, in a store of {before} keys at first")?;
    let Some(mut store) = growing::filled(alloc, before, new) else {
        return Ok(0);
    };
    measure(rt, "commits", COMMITS, |round| {
        let from = round.saturating_add(1).saturating_mul(new);
        commit_new(alloc, &mut store, before.saturating_add(from), new)
    })
}

// What 60 hashes of 72 bytes cost as often.
fn measure_hashes<R: Print + Eprint + CpuClock>(rt: &R) -> io::Result<u64> {
    measure(rt, "hashes of 72 bytes", 60 * COMMITS, |round| {
        let digest = ByteHash::hash(&[&[(round % 251) as u8; 72]]);
        u64::from(digest.as_bytes().len() == 32)
    })
}

/// What commits of one new key, and of a hundred, cost over so many thousand keys, beside a thousand, or a hundredth
/// where they are fewer; and what one costs more, beside 60 hashes.
pub fn measure_all<R: Print + Eprint + CpuClock>(
    rt: &R,
    alloc: Global,
    thousands: u64,
) -> io::Result<()> {
    let many = thousands.saturating_mul(1_000);
    let few = FEW.min(many / 100);
    let one_of_few = measure_commits(rt, alloc, few, 1)?;
    let one_of_many = measure_commits(rt, alloc, many, 1)?;
    let hundred_of_few = measure_commits(rt, alloc, few, 100)?;
    let hundred_of_many = measure_commits(rt, alloc, many, 100)?;
    let hashes = measure_hashes(rt)?;
    report_ratio(
        rt,
        "a commit of one key, over many beside few",
        one_of_many,
        one_of_few,
    )?;
    report_ratio(
        rt,
        "a commit of 100 keys, over many beside few",
        hundred_of_many,
        hundred_of_few,
    )?;
    report_ratio(
        rt,
        "what a commit of one key costs more, beside 60 hashes",
        one_of_many.saturating_sub(one_of_few),
        hashes,
    )
}
