//! Devices that no store has: made, and called.

use crate::refusals;
use crate::settings::first_settings;
use auth_store_device::Device;
use case_lines::{Unanswered, bytes, digits};
use fault_storage::{faulty, memory};
use paged_blob::{Blob, Error, WriteMode};
use rand_core::SeedableRng;
use rand_pcg::Pcg32;
use std::alloc::{AllocError, Global};

/// Whether these words ask for a new device: a number comes first.
pub fn is_beginning(words: &[&str]) -> bool {
    match words {
        [first, ..] => first.parse::<u64>().is_ok(),
        [] => false,
    }
}

// A device over a log whose header is of a version.
fn versioned(alloc: Global, seed: u64, version: u16) -> Result<Option<Device<Pcg32>>, AllocError> {
    let [high, low] = version.to_be_bytes();
    let header = [0x43, 0x57, 0x49, 0x43, 0, 0, high, low].to_vec(alloc)?;
    let mut below = memory::Storage::new(alloc);
    if below.set_raw_blob("store", b"log", header).is_err() {
        return Ok(None);
    }
    let storage = faulty::Storage::new(below, Pcg32::seed_from_u64(seed), first_settings());
    Ok(Some(Device::new(alloc, storage)?))
}

/// A new device by these words, and how many pages a cache keeps.
pub fn begun(alloc: Global, words: &[&str]) -> Result<(Device<Pcg32>, usize), Unanswered> {
    match words {
        [seed, kept] => {
            let device = Device::empty(alloc, Pcg32::seed_from_u64(seed.parse()?))?;
            Ok((device, kept.parse()?))
        }
        [seed, kept, "version", version] => {
            match versioned(alloc, seed.parse()?, version.parse()?)? {
                Some(device) => Ok((device, kept.parse()?)),
                None => Err(Unanswered::Memory),
            }
        }
        _ => Err(Unanswered::BadLine),
    }
}

// `ok`, or the refusal.
fn done(alloc: Global, answer: Result<(), Error>) -> Result<String, Unanswered> {
    match answer {
        Ok(()) => Ok("ok".to_string(alloc)?),
        Err(error) => refusals::of_device(alloc, error),
    }
}

// Opens a device that is closed: how many bytes it shows.
fn open(alloc: Global, device: &mut Device<Pcg32>) -> Result<String, Unanswered> {
    if !device.is_closed() {
        return Err(Unanswered::BadLine);
    }
    match device.open() {
        Ok(count) => Ok(format!(in alloc; "{count}")?),
        Err(error) => refusals::of_opening(alloc, error),
    }
}

// Crashes a device that is closed.
fn crash(alloc: Global, device: &mut Device<Pcg32>) -> Result<String, Unanswered> {
    if !device.is_closed() {
        return Err(Unanswered::BadLine);
    }
    device.crash();
    Ok("ok".to_string(alloc)?)
}

// The ranges of these words, an offset and a count each.
fn ranges(alloc: Global, words: &[&str]) -> Result<Vec<(u64, usize)>, Unanswered> {
    let mut ranges = Vec::new(alloc);
    for pair in words.chunks(2) {
        let [offset, count] = pair else {
            return Err(Unanswered::BadLine);
        };
        ranges.push((offset.parse::<u64>()?, count.parse::<usize>()?))?;
    }
    Ok(ranges)
}

// The bytes of each range, `none` where none was asked for, or the refusal.
fn of_ranges(alloc: Global, answer: Result<Vec<Vec<u8>>, Error>) -> Result<String, Unanswered> {
    let pieces = match answer {
        Ok(pieces) => pieces,
        Err(error) => return refusals::of_device(alloc, error),
    };
    let mut line = String::new(alloc);
    for piece in pieces.iter() {
        if !line.is_empty() {
            line.push_str(" ")?;
        }
        line.push_str(digits(alloc, piece)?.as_str())?;
    }
    if line.is_empty() {
        line.push_str("none")?;
    }
    Ok(line)
}

// What is answered of a device's bytes.
fn of_bytes(
    alloc: Global,
    device: &mut Device<Pcg32>,
    words: &[&str],
) -> Result<String, Unanswered> {
    match words {
        ["read", offset, count] => {
            match device.read_at(alloc, offset.parse()?, count.parse()?) {
                Ok(found) => digits(alloc, &found),
                Err(error) => refusals::of_device(alloc, error),
            }
        }
        ["read-many", words @ ..] => {
            of_ranges(alloc, device.read_many(alloc, &ranges(alloc, words)?))
        }
        ["write", offset, written, mode] => {
            let mode = match *mode {
                "plain" => WriteMode::Plain,
                "sync" => WriteMode::Sync,
                _ => return Err(Unanswered::BadLine),
            };
            let written = bytes(alloc, written)?;
            done(alloc, device.write_at(offset.parse()?, &written, mode))
        }
        ["resize", length] => done(alloc, device.resize(length.parse()?)),
        ["sync"] => done(alloc, device.sync()),
        _ => Err(Unanswered::BadLine),
    }
}

// Starts a sync, or a read of one range, makes a call, and then finishes what was started: both answers.
fn started(
    alloc: Global,
    device: &mut Device<Pcg32>,
    words: &[&str],
) -> Result<String, Unanswered> {
    match words {
        ["sync", words @ ..] => {
            let started = device.start_sync();
            let between = of_bytes(alloc, device, words)?;
            let answer = done(alloc, started.finish())?;
            Ok(format!(in alloc; "{between}; {answer}")?)
        }
        ["read", offset, count, words @ ..] => {
            let range = (offset.parse::<u64>()?, count.parse::<usize>()?);
            let started = device.start_read_many(alloc, &[range]);
            let between = of_bytes(alloc, device, words)?;
            let answer = of_ranges(alloc, started.finish())?;
            Ok(format!(in alloc; "{between}; {answer}")?)
        }
        _ => Err(Unanswered::BadLine),
    }
}

/// What is answered of a device.
pub fn answer(
    alloc: Global,
    device: &mut Device<Pcg32>,
    words: &[&str],
) -> Result<String, Unanswered> {
    match words {
        ["open"] => open(alloc, device),
        ["crash"] => crash(alloc, device),
        ["close"] => {
            device.close();
            Ok("ok".to_string(alloc)?)
        }
        ["cut", calls] => {
            device.cut_after(calls.parse()?);
            Ok("ok".to_string(alloc)?)
        }
        ["start", words @ ..] => started(alloc, device, words),
        ["is", "cut"] => Ok(format!(in alloc; "{}", device.is_cut())?),
        ["is", "closed"] => Ok(format!(in alloc; "{}", device.is_closed())?),
        words => of_bytes(alloc, device, words),
    }
}
