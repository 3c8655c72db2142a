//! An explorer of crashes: at each moment of a script it makes images that a crash may leave, and recovers them. It
//! finds nothing where the proofs are right.

use super::{pages_of, started};
use fault_storage::Crc32;
use paged_blob::bench::MemoryDisk;
use paged_blob::cache::CacheRef;
use paged_blob::record::Recorded;
use paged_blob::writer::recovery::Recovery;
use paged_blob::writer::{Append, Writer};
use paged_format::prefix_len;
use std::alloc::Global;
use std::test::Fail;

// Numbers that look drawn, always the same ones.
#[derive(Drop)]
struct Dice(u64);

impl Dice {
    fn throw(&mut self) -> u64 {
        self.0 ^= self.0 << 13;
        self.0 ^= self.0 >> 7;
        self.0 ^= self.0 << 17;
        self.0
    }
}

fn put(image: &mut Vec<u8>, at: usize, byte: u8) -> Result<(), Fail> {
    if image.len() <= at {
        image.resize(at.saturating_add(1), 0)?;
    }
    if let Some(place) = image.get_mut(at) {
        *place = byte;
    }
    Ok(())
}

// Lays a write over the image: none of it, all, a beginning, or byte by byte as the dice fall.
fn tear(
    image: &mut Vec<u8>,
    dice: &mut Dice,
    offset: u64,
    bytes: &[u8],
    is_sync: bool,
) -> Result<(), Fail> {
    let way = if is_sync { 1 } else { dice.throw() % 4 };
    let kept = dice.throw() % 200;
    for (k, byte) in bytes.iter().enumerate() {
        let is_kept = match way {
            0 => false,
            1 => true,
            2 => (k as u64) < kept,
            _ => dice.throw() % 2 == 0,
        };
        if is_kept {
            put(image, (offset as usize).saturating_add(k), *byte)?;
        }
    }
    Ok(())
}

// Something that a crash may leave after these calls, and what was durable then.
fn crashed(
    alloc: Global,
    record: &[Recorded],
    dice: &mut Dice,
) -> Result<(Vec<u8>, Vec<u8>), Fail> {
    let mut durable = Vec::new(alloc);
    let mut image = Vec::new(alloc);
    for (k, call) in record.iter().enumerate() {
        // The last write may have failed half way, also one that was to be durable at once.
        let is_done = k.saturating_add(1) < record.len();
        match call {
            Recorded::Opened(shown) | Recorded::Synced(shown, true) => {
                durable = shown.to_vec(alloc)?;
                image = shown.to_vec(alloc)?;
            }
            Recorded::Wrote(offset, bytes, is_sync, _) => {
                tear(&mut image, dice, *offset, bytes, *is_sync && is_done)?;
            }
            Recorded::ResizedTo(len, _) => {
                if dice.throw() % 2 == 0 {
                    image.resize((*len as usize).min(4096), 0)?;
                }
            }
            Recorded::Synced(_, false) => {}
        }
    }
    Ok((image, durable))
}

// Whether what is recovered of the image is a beginning of the content, and has at least so many bytes.
fn is_right(image: &[u8], content: &[u8], least: u64) -> bool {
    let len = prefix_len::<Crc32>(image, 64);
    if len < least || len > content.len() as u64 {
        return false;
    }
    for (k, byte) in content.iter().enumerate() {
        let place = (k / 52).wrapping_mul(64).wrapping_add(k % 52);
        if (k as u64) < len && image.get(place) != Some(byte) {
            return false;
        }
    }
    true
}

// How many images were tried, some hundreds at each moment from so many calls on, and how many of them were recovered
// wrongly, where a call may cut the content to so many bytes.
fn explore(
    alloc: Global,
    record: &[Recorded],
    first: usize,
    content: &[u8],
    cut: u64,
) -> Result<(u64, u64), Fail> {
    let mut dice = Dice(0x9e37_79b9_7f4a_7c15);
    let (mut tried, mut wrong) = (0u64, 0u64);
    for (moment, _) in record.iter().enumerate().skip(first) {
        let Some(calls) = record.get(..=moment) else {
            continue;
        };
        for _ in 0..250u8 {
            let (image, durable) = crashed(alloc, calls, &mut dice)?;
            let least = prefix_len::<Crc32>(&durable, 64).min(cut);
            tried = tried.saturating_add(1);
            if !is_right(&image, content, least) {
                wrong = wrong.saturating_add(1);
            }
        }
    }
    Ok((tried, wrong))
}

#[test]
fn no_crash_loses_what_a_writer_synced(rt: HostRuntime) -> Result<(), Fail> {
    let alloc = rt.alloc();
    let mut disk = MemoryDisk::new(alloc);
    let mut cache = CacheRef::new(alloc, 52, 4);
    let writer = started::<MemoryDisk, Crc32>(alloc, &mut disk, &mut cache, 64)?;
    let mut content = Vec::new(alloc);
    for k in 0..230u8 {
        content.push(k)?;
    }
    let (writer, _) = writer.append(&mut disk, &mut cache, &[0, 1, 2, 3, 4, 5, 6, 7])?;
    let writer = writer.sync(&mut disk, &mut cache)?;
    let (writer, _) = writer.append(&mut disk, &mut cache, content.get(8..60).unwrap_or(&[]))?;
    let writer = writer.sync(&mut disk, &mut cache)?;
    let (writer, _) = writer.append(&mut disk, &mut cache, content.get(60..200).unwrap_or(&[]))?;
    let writer = writer.sync(&mut disk, &mut cache)?;
    let (writer, _) = writer.append(&mut disk, &mut cache, content.get(200..).unwrap_or(&[]))?;
    let _writer = writer.sync(&mut disk, &mut cache)?;
    let (tried, wrong) = explore(alloc, disk.record(), 0, &content, u64::MAX)?;
    assert_eq!(rt; (tried > 2000, wrong), (true, 0));
    Ok(())
}

#[test]
fn no_crash_of_a_cut_loses_what_it_keeps(rt: HostRuntime) -> Result<(), Fail> {
    let alloc = rt.alloc();
    let bytes = pages_of(alloc, &[(52, 0), (52, 0), (8, 12)])?;
    let mut disk = MemoryDisk::showing(alloc, bytes)?;
    let mut cache = CacheRef::new(alloc, 52, 4);
    let size = disk.as_bytes().len() as u64;
    let recovery = Recovery::<Crc32>::open(alloc, &mut disk, &mut cache, size, 128)?;
    let _cut = recovery.truncate(&mut disk, &mut cache, 60)?;
    let mut content = Vec::new(alloc);
    for k in 0..116u8 {
        content.push(k % 52)?;
    }
    let (tried, wrong) = explore(alloc, disk.record(), 0, &content, 60)?;
    assert_eq!(rt; (tried > 1000, wrong), (true, 0));
    Ok(())
}

#[test]
fn no_crash_of_a_writer_over_old_pages_loses_any(rt: HostRuntime) -> Result<(), Fail> {
    let alloc = rt.alloc();
    let bytes = pages_of(alloc, &[(52, 0), (52, 0), (8, 12), (52, 0)])?;
    let mut disk = MemoryDisk::showing(alloc, bytes)?;
    let mut cache = CacheRef::new(alloc, 52, 4);
    let size = disk.as_bytes().len() as u64;
    let _writer = Writer::<Crc32>::new(alloc, &mut disk, &mut cache, size, 128)?;
    let mut content = Vec::new(alloc);
    for k in 0..116u8 {
        content.push(k % 52)?;
    }
    let (tried, wrong) = explore(alloc, disk.record(), 0, &content, u64::MAX)?;
    assert_eq!(rt; (tried > 1000, wrong), (true, 0));
    Ok(())
}

// A hundred and sixteen bytes, of which all but eighty are cut off, and others after these.
#[test]
fn no_crash_of_appends_after_a_cut_loses_what_they_keep(rt: HostRuntime) -> Result<(), Fail> {
    let alloc = rt.alloc();
    let mut content = Vec::new(alloc);
    for k in 0..200u8 {
        content.push(if k < 80 { k % 52 } else { k })?;
    }
    let bytes = pages_of(alloc, &[(52, 0), (52, 0), (8, 12)])?;
    let mut disk = MemoryDisk::showing(alloc, bytes)?;
    let mut cache = CacheRef::new(alloc, 52, 4);
    let size = disk.as_bytes().len() as u64;
    let recovery = Recovery::<Crc32>::open(alloc, &mut disk, &mut cache, size, 64)?;
    let cut: Writer<Crc32, Append> = recovery.truncate(&mut disk, &mut cache, 80)?.into();
    let calls = disk.record().len();
    let (writer, _) = cut.append(&mut disk, &mut cache, content.get(80..).unwrap_or(&[]))?;
    let _writer = writer.sync(&mut disk, &mut cache)?;
    let (tried, wrong) = explore(alloc, disk.record(), calls, &content, u64::MAX)?;
    assert_eq!(rt; (tried > 500, wrong), (true, 0));
    Ok(())
}
