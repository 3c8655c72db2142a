//! What an operation of 25 bytes costs, encoded and decoded, beside a copy of its fields.

mod work;

use measurement::{measure, report_ratio};
use std::alloc::Global;
use std::io;
use std::time::CpuClock;

/// Measures both, each done so many times.
pub fn measure_all<R: Print + Eprint + CpuClock>(
    rt: &R,
    alloc: Global,
    count: u64,
) -> io::Result<()> {
    let key = [1, 2, 3, 4, 5, 6, 7, 8];
    let mut out = Vec::with_capacity(alloc, 25)?;
    let copied = measure(rt, "25 bytes copied field by field", count, |round| {
        work::copy_fields(&mut out, key, round)
    })?;
    let coded = measure(
        rt,
        "operation of 25 bytes encoded and decoded",
        count,
        |round| { work::encode_and_decode(alloc, &mut out, key, round) },
    )?;
    report_ratio(rt, "operation over copy", coded, copied)
}
