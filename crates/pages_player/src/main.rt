//! Plays cases of pages and of writers over them. README.md has its words.
#![tactic(auto)]

ghost use Rattle.std.specs.Prelude.{◌≡◌, ◌+◌, [], IfOk};
ghost use Rattle.paged_format.specs.Footers.{IsPageSize};

mod faulty;
mod formats;
mod keeping;
mod many;
mod sealing;
mod syncing;
mod told;
mod writers;

use case_lines::{Player, Unanswered, bytes, digits, play};
use fault_storage::Crc32;
use faulty::FaultyDisk;
use formats::{page, prefix, slot_lengths, spelled};
use keeping::Kept;
use paged_blob::bench::MemoryDisk;
use paged_blob::{
    CacheRef, Error, Recorded, Recovery, Writer, cut_blob, prefix_of_blob, prefix_of_blob_at_most,
};
use paged_format::is_page_size;
use std::alloc::Global;
use told::{Told, number};
use writers::End;

/// The file of a case and what of it a crash cannot take, in pages of so many bytes, with the buffer of its writers,
/// how many pages their cache has room for, how many calls the last one made, and what else is kept.
#[derive(Drop)]
struct PagesPlayer {
    file: Vec<u8>,
    durable: Vec<u8>,
    page_size: u32,
    capacity: usize,
    room: usize,
    calls: usize,
    kept: Kept,
}

// Tells a refusal that ended a line.
fn ended(end: Result<(), End>, told: &mut Told) -> Result<(), Unanswered> {
    match end {
        Ok(()) => Ok(()),
        Err(End::Refused(error)) => told.push(number(error)),
        Err(End::Unanswered(unanswered)) => Err(unanswered),
    }
}

// What the last sync of a record made durable, or its opening showed.
fn durable(alloc: Global, record: &[Recorded]) -> Result<Vec<u8>, Unanswered> {
    for call in record.iter().rev() {
        if let Recorded::Opened(bytes) | Recorded::Synced(bytes, true) = call {
            return Ok(bytes.to_vec(alloc)?);
        }
    }
    Ok(Vec::new(alloc))
}

impl PagesPlayer {
    // The pages that a writer keeps.
    fn cache(&self, alloc: Global) -> Result<CacheRef, Unanswered>
        ensures size { IfOk result (λ cache. IsPageSize (cache.page_size + 12)) }
        ensures empty { IfOk result (λ cache. cache.pages ≡ []) }
    {
        if !is_page_size(self.page_size) || self.room == 0 {
            return Err(Unanswered::BadLine);
        }
        let content = paged_format::page_size(self.page_size);
        Ok(CacheRef::new(alloc, content, self.room))
    }

    // Keeps what a line left of the file.
    fn keep(&mut self, alloc: Global, disk: &MemoryDisk) -> Result<(), Unanswered> {
        self.file = disk.as_bytes().to_vec(alloc)?;
        self.durable = durable(alloc, disk.record())?;
        self.calls = disk.record().len();
        Ok(())
    }

    // Makes the calls of a line on a writer over the file.
    fn write(&mut self, alloc: Global, words: &[&str]) -> Result<String, Unanswered> {
        let mut cache = self.cache(alloc)?;
        let mut told = Told::new(alloc);
        let mut disk = MemoryDisk::showing(alloc, self.file.to_vec(alloc)?)?;
        let size = disk.as_bytes().len() as u64;
        match writers::opened::<MemoryDisk, Crc32>(
            alloc,
            &mut disk,
            &mut cache,
            size,
            self.capacity,
        ) {
            Ok(writer) => {
                let end = writers::play(alloc, writer, &mut disk, &mut cache, words, &mut told);
                ended(end, &mut told)?;
            }
            Err(error) => told.push(number(error))?,
        }
        self.keep(alloc, &disk)?;
        told.finish(alloc)
    }

    // Starts a sync of a writer over the file behind some bytes, and makes the calls of a line.
    fn start(&mut self, alloc: Global, first: &str, words: &[&str]) -> Result<String, Unanswered> {
        let mut cache = self.cache(alloc)?;
        let mut told = Told::new(alloc);
        let mut disk = MemoryDisk::showing(alloc, self.file.to_vec(alloc)?)?;
        let (size, room) = (disk.as_bytes().len() as u64, self.capacity);
        let end = syncing::start(
            alloc, &mut disk, &mut cache, size, room, first, words, &mut told,
        );
        ended(end, &mut told)?;
        self.keep(alloc, &disk)?;
        told.finish(alloc)
    }

    // So it does where this sync is refused by a fault; that of the opening is not.
    fn fault(&mut self, alloc: Global, first: &str, words: &[&str]) -> Result<String, Unanswered> {
        let mut cache = self.cache(alloc)?;
        let mut told = Told::new(alloc);
        let mut disk = FaultyDisk::showing(alloc, self.file.to_vec(alloc)?, 1)?;
        let (size, room) = (self.file.len() as u64, self.capacity);
        let end = syncing::start(
            alloc, &mut disk, &mut cache, size, room, first, words, &mut told,
        );
        ended(end, &mut told)?;
        self.keep(alloc, disk.disk())?;
        told.finish(alloc)
    }

    // Appends to the buffer of a writer over the file.
    fn try_write(&mut self, alloc: Global, words: &[&str]) -> Result<String, Unanswered> {
        let mut cache = self.cache(alloc)?;
        let mut told = Told::new(alloc);
        let mut disk = MemoryDisk::showing(alloc, self.file.to_vec(alloc)?)?;
        let size = disk.as_bytes().len() as u64;
        match Writer::<Crc32>::new(alloc, &mut disk, &mut cache, size, self.capacity) {
            Ok(writer) => {
                let writer = writers::try_appends(alloc, writer, words, &mut told)?;
                told.push_number(alloc, writer.size())?;
            }
            Err(error) => told.push(number(error))?,
        }
        self.keep(alloc, &disk)?;
        told.finish(alloc)
    }

    // Takes a snapshot of a writer that goes on, or seals its list, and makes the calls of a line on it.
    fn seal(
        &mut self,
        alloc: Global,
        first: &[u8],
        more: Option<&[u8]>,
        words: &[&str],
    ) -> Result<String, Unanswered> {
        let mut cache = self.cache(alloc)?;
        let mut told = Told::new(alloc);
        let mut disk = MemoryDisk::showing(alloc, self.file.to_vec(alloc)?)?;
        let size = disk.as_bytes().len() as u64;
        let room = self.capacity;
        let writer = writers::opened::<MemoryDisk, Crc32>(alloc, &mut disk, &mut cache, size, room);
        match sealing::sealed_of(writer, &mut disk, &mut cache, first, more) {
            Ok(sealed) => {
                let disk = &mut disk;
                sealing::play_sealed(alloc, &sealed, disk, &mut cache, words, &mut told)?;
            }
            Err(error) => told.push(number(error))?,
        }
        self.keep(alloc, &disk)?;
        told.finish(alloc)
    }

    // Takes a snapshot of a writer of which a later sync is refused by a fault, and makes the calls of a line on it.
    fn snapshot_then_fault(
        &mut self,
        alloc: Global,
        first: &[u8],
        more: &[u8],
        words: &[&str],
    ) -> Result<String, Unanswered> {
        let mut cache = self.cache(alloc)?;
        let mut told = Told::new(alloc);
        // The opening syncs, and the snapshot where there is something to sync.
        let spared = if first.is_empty() { 1 } else { 2 };
        let mut disk = FaultyDisk::showing(alloc, self.file.to_vec(alloc)?, spared)?;
        let (size, room) = (self.file.len() as u64, self.capacity);
        let writer = writers::opened::<FaultyDisk, Crc32>(alloc, &mut disk, &mut cache, size, room);
        match sealing::sealed_of(writer, &mut disk, &mut cache, first, Some(more)) {
            Ok(sealed) => {
                told.push(if disk.has_failed() {
                    "failed"
                } else {
                    "synced"
                })?;
                let disk = &mut disk;
                sealing::play_sealed(alloc, &sealed, disk, &mut cache, words, &mut told)?;
            }
            Err(error) => told.push(number(error))?,
        }
        self.keep(alloc, disk.disk())?;
        told.finish(alloc)
    }

    // Replays the list of a writer, and makes the calls of a line on the replay.
    fn replay(
        &mut self,
        alloc: Global,
        first: &[u8],
        buffer_size: usize,
        words: &[&str],
    ) -> Result<String, Unanswered> {
        let mut cache = self.cache(alloc)?;
        let mut told = Told::new(alloc);
        let mut disk = MemoryDisk::showing(alloc, self.file.to_vec(alloc)?)?;
        let size = disk.as_bytes().len() as u64;
        let room = self.capacity;
        let writer = writers::opened::<MemoryDisk, Crc32>(alloc, &mut disk, &mut cache, size, room);
        match sealing::replayed(writer, &mut disk, &mut cache, first, buffer_size) {
            Ok(replay) => {
                let mut replay = replay;
                sealing::play_replay(alloc, &mut replay, &mut disk, words, &mut told)?;
            }
            Err(error) => told.push(number(error))?,
        }
        self.keep(alloc, &disk)?;
        told.finish(alloc)
    }

    // Recovers the file, says how many bytes are found, cuts it to so many and makes the calls of a line on it.
    fn recover(&mut self, alloc: Global, cut: u64, words: &[&str]) -> Result<String, Unanswered> {
        let mut cache = self.cache(alloc)?;
        let mut told = Told::new(alloc);
        let mut disk = MemoryDisk::showing(alloc, self.file.to_vec(alloc)?)?;
        let size = disk.as_bytes().len() as u64;
        let recovery = match Recovery::<Crc32>::open(
            alloc,
            &mut disk,
            &mut cache,
            size,
            self.capacity,
        ) {
            Ok(recovery) => recovery,
            Err(error) => return Ok(number(error).to_string(alloc)?),
        };
        told.push_number(alloc, recovery.size())?;
        match writers::cut(recovery, &mut disk, &mut cache, cut) {
            Ok(writer) => {
                let end = writers::play(alloc, writer, &mut disk, &mut cache, words, &mut told);
                ended(end, &mut told)?;
            }
            Err(error) => told.push(number(error))?,
        }
        self.keep(alloc, &disk)?;
        told.finish(alloc)
    }

    // Recovers the file, cuts it to so many bytes, and makes the calls of a line on a replay of what is left.
    fn replay_recovery(
        &mut self,
        alloc: Global,
        cut: u64,
        buffer_size: usize,
        words: &[&str],
    ) -> Result<String, Unanswered> {
        let mut cache = self.cache(alloc)?;
        let mut told = Told::new(alloc);
        let mut disk = MemoryDisk::showing(alloc, self.file.to_vec(alloc)?)?;
        let size = disk.as_bytes().len() as u64;
        let recovery = match Recovery::<Crc32>::open(
            alloc,
            &mut disk,
            &mut cache,
            size,
            self.capacity,
        ) {
            Ok(recovery) => recovery,
            Err(error) => return Ok(number(error).to_string(alloc)?),
        };
        match sealing::replayed_recovery(recovery, &mut disk, &mut cache, cut, buffer_size) {
            Ok(replay) => {
                let mut replay = replay;
                sealing::play_replay(alloc, &mut replay, &mut disk, words, &mut told)?;
            }
            Err(error) => told.push(number(error))?,
        }
        self.keep(alloc, &disk)?;
        told.finish(alloc)
    }

    // How many bytes a recovery finds, in reads of so many bytes, and at most so many.
    fn found(&self, alloc: Global, buffer: usize, most: u64) -> Result<String, Unanswered> {
        let mut cache = self.cache(alloc)?;
        let mut told = Told::new(alloc);
        let mut disk = MemoryDisk::showing(alloc, self.file.to_vec(alloc)?)?;
        let size = disk.as_bytes().len() as u64;
        match Recovery::<Crc32>::open(alloc, &mut disk, &mut cache, size, self.capacity) {
            Ok(recovery) => {
                told.push_number(alloc, recovery.size())?;
                let all = recovery.recoverable_prefix_len(&mut disk, size, 0, buffer);
                told.push_option(alloc, all.map(Some))?;
                let some = recovery.recoverable_prefix_len_at_most(
                    &mut disk, size, 0, most, buffer,
                );
                told.push_option(alloc, some.map(Some))?;
            }
            Err(error) => told.push(number(error))?,
        }
        told.finish(alloc)
    }

    // How many bytes are recovered of the file, in reads of so many bytes, and at most so many.
    fn scan(&self, alloc: Global, buffer: usize, most: u64) -> Result<String, Unanswered> {
        if !is_page_size(self.page_size) {
            return Err(Unanswered::BadLine);
        }
        let mut told = Told::new(alloc);
        let mut disk = MemoryDisk::showing(alloc, self.file.to_vec(alloc)?)?;
        let (size, page) = (self.file.len() as u64, self.page_size);
        let all = prefix_of_blob::<MemoryDisk, Crc32>(alloc, &mut disk, page, size, 0, buffer);
        told.push_option(alloc, all.map(Some))?;
        let some = prefix_of_blob_at_most::<MemoryDisk, Crc32>(
            alloc, &mut disk, page, size, 0, most, buffer,
        );
        told.push_option(alloc, some.map(Some))?;
        told.finish(alloc)
    }

    // So many bytes of what is recovered of the file, from an offset on.
    fn range(&self, alloc: Global, offset: u64, count: usize) -> Result<String, Unanswered> {
        if !is_page_size(self.page_size) {
            return Err(Unanswered::BadLine);
        }
        let mut told = Told::new(alloc);
        let mut disk = MemoryDisk::showing(alloc, self.file.to_vec(alloc)?)?;
        let page = self.page_size;
        let size = disk.as_bytes().len() as u64;
        let found = prefix_of_blob::<MemoryDisk, Crc32>(alloc, &mut disk, page, size, 0, 64);
        let Ok(length) = found else {
            return Err(Unanswered::Memory);
        };
        if offset > length || count as u64 > length - offset {
            return Err(Unanswered::BadLine);
        }
        let read = Writer::<Crc32>::read_range(alloc, &mut disk, page, offset, count);
        told.push_bytes(alloc, read)?;
        told.finish(alloc)
    }

    // How many bytes are recovered of the file, and the last so many of them.
    fn tail(&self, alloc: Global, count: usize) -> Result<String, Unanswered> {
        if !is_page_size(self.page_size) {
            return Err(Unanswered::BadLine);
        }
        let mut told = Told::new(alloc);
        let mut disk = MemoryDisk::showing(alloc, self.file.to_vec(alloc)?)?;
        let page = self.page_size;
        let size = disk.as_bytes().len() as u64;
        let found = prefix_of_blob::<MemoryDisk, Crc32>(alloc, &mut disk, page, size, 0, 64);
        let Ok(length) = found else {
            return Err(Unanswered::Memory);
        };
        let room = u64::from(page) - 12;
        let whole = size / u64::from(page) * room;
        if whole >= room && whole - room >= length {
            return Err(Unanswered::BadLine);
        }
        match Writer::<Crc32>::read_tail(alloc, &mut disk, size, page, count) {
            Ok((all, bytes)) => {
                told.push_number(alloc, all)?;
                told.push(digits(alloc, &bytes)?.as_str())?;
            }
            Err(error) => told.push(number(error))?,
        }
        told.finish(alloc)
    }

    // Cuts the file to so many bytes of its content: how many the last page has where it is not full.
    fn cut(&mut self, alloc: Global, size: u64) -> Result<String, Unanswered> {
        if !is_page_size(self.page_size) {
            return Err(Unanswered::BadLine);
        }
        let page = self.page_size;
        let mut disk = MemoryDisk::showing(alloc, self.file.to_vec(alloc)?)?;
        let whole = disk.as_bytes().len() as u64;
        let found = prefix_of_blob::<MemoryDisk, Crc32>(alloc, &mut disk, page, whole, 0, 64);
        let Ok(length) = found else {
            return Err(Unanswered::Memory);
        };
        let last = cut_blob::<MemoryDisk, Crc32>(alloc, &mut disk, page, false, length, size);
        self.keep(alloc, &disk)?;
        match last {
            Ok(Some(page)) => Ok(page.bytes.len().to_string(alloc)?),
            Ok(None) => Ok("none".to_string(alloc)?),
            Err(error) => Ok(number(error).to_string(alloc)?),
        }
    }

    // The lengths that the slots of each page say.
    fn slots(&self, alloc: Global) -> Result<String, Unanswered> {
        let size = self.page_size as usize;
        if size == 0 || self.file.len() % size != 0 {
            return Err(Unanswered::BadLine);
        }
        let mut told = Told::new(alloc);
        for page in self.file.chunks_exact(size) {
            let (less, more) = slot_lengths(page);
            told.push(format!(in alloc; "{less}:{more}")?.as_str())?;
        }
        told.finish(alloc)
    }

    // Sets the file, or tells of it.
    fn file_answer(&mut self, alloc: Global, words: &[&str]) -> Result<String, Unanswered> {
        match words {
            ["pages", size, capacity, room] => {
                self.page_size = size.parse()?;
                self.capacity = capacity.parse()?;
                self.room = room.parse()?;
            }
            ["file", words @ ..] => self.file = spelled(alloc, words)?,
            ["page", first, second] => {
                let page = page(alloc, first.parse()?, second.parse()?)?;
                self.file.extend_from_slice(&page)?;
            }
            ["show"] => return digits(alloc, &self.file),
            ["crash"] => self.file = self.durable.to_vec(alloc)?,
            ["length"] => return Ok(self.file.len().to_string(alloc)?),
            ["calls"] => return Ok(self.calls.to_string(alloc)?),
            ["slots"] => return self.slots(alloc),
            ["prefix"] => return Ok(prefix(&self.file, self.page_size)?.to_string(alloc)?),
            ["found", buffer, most] => return self.found(alloc, buffer.parse()?, most.parse()?),
            ["scan", buffer, most] => return self.scan(alloc, buffer.parse()?, most.parse()?),
            ["range", offset, count] => return self.range(alloc, offset.parse()?, count.parse()?),
            ["tail", count] => return self.tail(alloc, count.parse()?),
            _ => return Err(Unanswered::BadLine),
        }
        Ok("ok".to_string(alloc)?)
    }
}

// The text of an error.
fn text(alloc: Global, number: &str) -> Result<String, Unanswered> {
    let error = match number {
        "F1" => Error::BlobMissing,
        "F6" => Error::Injected(paged_blob::CallKind::Sync),
        "F7" => Error::BlobInsufficientLength,
        "F8" => Error::NumberEnded,
        "F9" => Error::Memory,
        "F10" => Error::PowerCut,
        "F12" => Error::ChecksumMismatch,
        _ => return Err(Unanswered::BadLine),
    };
    Ok(format!(in alloc; "{error}")?)
}

impl Player for PagesPlayer {
    fn begin(alloc: Global) -> Result<Self, Unanswered> {
        Ok(PagesPlayer {
            file: Vec::new(alloc),
            durable: Vec::new(alloc),
            page_size: 64,
            capacity: 128,
            room: 8,
            calls: 0,
            kept: Kept::new(alloc),
        })
    }

    fn answer(&mut self, alloc: Global, words: &[&str]) -> Result<String, Unanswered> {
        match words {
            ["format", words @ ..] => formats::answer(alloc, words),
            ["tip", words @ ..] => self.kept.tip_answer(alloc, words),
            ["cache", words @ ..] => self.kept.cache_answer(alloc, words),
            ["disk", words @ ..] => self.kept.disk_answer(alloc, words),
            ["write", words @ ..] => self.write(alloc, words),
            ["start", first, words @ ..] => self.start(alloc, first, words),
            ["fault", first, words @ ..] => self.fault(alloc, first, words),
            ["try-write", words @ ..] => self.try_write(alloc, words),
            ["recover", cut, words @ ..] => self.recover(alloc, cut.parse()?, words),
            ["snapshot", first, more, words @ ..] => {
                let (first, more) = (bytes(alloc, first)?, bytes(alloc, more)?);
                self.seal(alloc, &first, Some(&more), words)
            }
            ["fault-behind", first, more, words @ ..] => {
                let (first, more) = (bytes(alloc, first)?, bytes(alloc, more)?);
                self.snapshot_then_fault(alloc, &first, &more, words)
            }
            ["seal", first, words @ ..] => self.seal(alloc, &bytes(alloc, first)?, None, words),
            ["replay", first, buffer, words @ ..] => {
                self.replay(alloc, &bytes(alloc, first)?, buffer.parse()?, words)
            }
            ["replay-recovered", cut, buffer, words @ ..] => {
                self.replay_recovery(alloc, cut.parse()?, buffer.parse()?, words)
            }
            ["cut", size] => self.cut(alloc, size.parse()?),
            ["text", number] => text(alloc, number),
            words => self.file_answer(alloc, words),
        }
    }
}

fn main(rt: HostRuntime) -> anyhow::Result<()> {
    play::<PagesPlayer>(&rt)
}
