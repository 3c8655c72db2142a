//! What the programs that measure share: how often each work is done, timing it, and reporting.
#![tactic(auto)]

use std::io;
use std::time::CpuClock;

// The processor time used so far in nanoseconds.
fn nanoseconds(clock: &impl CpuClock) -> io::Result<u64> {
    let time = clock.process_cpu_time()?;
    let whole = time.as_secs().saturating_mul(1_000_000_000);
    Ok(whole.saturating_add(u64::from(time.subsec_nanos())))
}

/// Work that was done so many times: a sum of its answers, and the nanoseconds that all of it took.
#[derive(Clone, Copy, Debug)]
pub struct Done {
    pub times: u64,
    pub sum: u64,
    pub nanoseconds: u64,
}

impl Done {
    /// Nothing yet.
    pub const NONE: Done = Done {
        times: 0,
        sum: 0,
        nanoseconds: 0,
    };

    /// This work and more.
    pub fn and(self, more: Done) -> Done {
        Done {
            times: self.times.saturating_add(more.times),
            sum: self.sum.rotate_left(1) ^ more.sum,
            nanoseconds: self.nanoseconds.saturating_add(more.nanoseconds),
        }
    }
}

/// Does the work so many times. `Err` where the clock cannot be read.
pub fn time<R: CpuClock, W: FnMut(u64) -> u64>(rt: &R, times: u64, mut work: W) -> io::Result<Done>
    requires { W.IsAlwaysCallable work }
{
    let mut sum = 0u64;
    let start = nanoseconds(rt)?;
    for round in 0..times {
        sum = sum.rotate_left(1) ^ work(round);
    }
    let nanoseconds = nanoseconds(rt)?.saturating_sub(start);
    Ok(Done {
        times,
        sum,
        nanoseconds,
    })
}

/// Prints how often the work was done with the sum of its answers, and to standard error the time of one.
pub fn report<R: Print + Eprint>(rt: &R, name: &str, done: Done) -> io::Result<()> {
    let Done {
        times,
        sum,
        nanoseconds,
    } = done;
    let tenths = nanoseconds.saturating_mul(10) / times.max(1);
    println!(rt; "{name}: {times} times, sum {sum}")?;
    eprintln!(rt; "{name}: {}.{} ns", tenths / 10, tenths % 10)
}

/// The nanoseconds that the work takes, done so many times. Prints them as `report` does.
pub fn measure<R: Print + Eprint + CpuClock, W: FnMut(u64) -> u64>(
    rt: &R,
    name: &str,
    times: u64,
    work: W,
) -> io::Result<u64>
    requires { W.IsAlwaysCallable work }
{
    let done = time(rt, times, work)?;
    report(rt, name, done)?;
    Ok(done.nanoseconds)
}

/// Prints how many times as long the one took as the other.
pub fn report_ratio<R: Eprint>(rt: &R, name: &str, one: u64, other: u64) -> io::Result<()> {
    let hundredths = one.saturating_mul(100) / other.max(1);
    eprintln!(rt;
        "ratio, {name}: {}.{:02}",
        hundredths / 100,
        hundredths % 100
    )
}
