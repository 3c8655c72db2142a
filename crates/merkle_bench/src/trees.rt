//! What leaves, updates, proofs and checks of a tree in memory cost, beside the bare hashes of the strings that have to
//! be hashed.

mod work;

use measurement::{measure, report_ratio};
use merkle_core::Mem;
use merkle_forest::hasher::Standard;
use merkle_forest::{Bagging, ByteHash};
use std::alloc::Global;
use std::io;
use std::time::CpuClock;
use work::Tree;

// How often an update, a proof and a check are done.
const ROUNDS: u64 = 1000;

// Adds the leaves to an empty tree and makes the root, and hashes the strings of both alone.
fn measure_leaves<R: Print + Eprint + CpuClock>(
    rt: &R,
    hasher: &Standard<ByteHash>,
    tree: &mut Tree,
    leaves: u64,
) -> io::Result<()> {
    let bare = measure(rt, "strings of all leaves and branches", 1, |_| {
        work::bare_strings(leaves)
    })?;
    let added = measure(rt, "leaves added and the root made", 1, |_| {
        work::add_leaves(hasher, tree, leaves)
    })?;
    report_ratio(rt, "leaves and root over their strings", added, bare)
}

// Gives leaves other elements, one after the other, each in a batch of its own.
fn measure_updates<R: Print + Eprint + CpuClock>(
    rt: &R,
    hasher: &Standard<ByteHash>,
    tree: &mut Tree,
    leaves: u64,
) -> io::Result<()> {
    let bare = measure(rt, "strings from a leaf up", ROUNDS, |round| {
        work::bare_path(leaves, round)
    })?;
    let updated = measure(rt, "leaf updated", ROUNDS, |round| {
        work::update_leaf(hasher, tree, work::spread(round, leaves))
    })?;
    report_ratio(rt, "update over its strings", updated, bare)
}

// Proves one element after the other, and checks one proof as often.
fn measure_proofs<R: Print + Eprint + CpuClock>(
    rt: &R,
    alloc: Global,
    hasher: &Standard<ByteHash>,
    tree: &Tree,
    leaves: u64,
) -> io::Result<()> {
    let proved = measure(rt, "proof of one element", ROUNDS, |round| {
        work::prove(alloc, hasher, tree, work::spread(round, leaves))
    })?;
    let bare = measure(
        rt,
        "strings from a leaf up, and of the root",
        ROUNDS,
        |round| { work::bare_path(leaves, round) ^ work::bare_root(round) },
    )?;
    report_ratio(rt, "proof over the strings of its check", proved, bare)?;
    let shown = work::make_shown(alloc, hasher, tree, leaves);
    let checked = measure(rt, "proof checked", ROUNDS, |round| {
        work::check(hasher, &shown, round)
    })?;
    report_ratio(rt, "check over its strings", checked, bare)
}

/// Measures all, over a tree of so many leaves, best a power of two.
pub fn measure_all<R: Print + Eprint + CpuClock>(
    rt: &R,
    alloc: Global,
    leaves: u64,
) -> io::Result<()> {
    let hasher: Standard<ByteHash> = Standard::new(Bagging::BackwardFold);
    let mut tree = Mem::new(alloc);
    measure_leaves(rt, &hasher, &mut tree, leaves)?;
    measure_updates(rt, &hasher, &mut tree, leaves)?;
    measure_proofs(rt, alloc, &hasher, &tree, leaves)
}
