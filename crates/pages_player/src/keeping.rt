//! What is kept in memory: the tip of a list, pages of blobs, and a blob that never fails.

use crate::told::{Told, number};
use case_lines::{Unanswered, bytes, digits};
use paged_blob::bench::MemoryDisk;
use paged_blob::{Blob, CacheRef, Error, StartedReads, StartedSync, WriteMode};
use paged_format::TipBuffer;
use std::alloc::Global;

/// What a case keeps of each.
#[derive(Drop)]
pub struct Kept {
    tip: TipBuffer,
    cache: CacheRef,
    disk: MemoryDisk,
    reads: Option<StartedReads>,
    sync: Option<StartedSync>,
}

// `ok`, or the refusal.
fn done(alloc: Global, answer: Result<(), Error>) -> Result<String, Unanswered> {
    match answer {
        Ok(()) => Ok("ok".to_string(alloc)?),
        Err(error) => Ok(number(error).to_string(alloc)?),
    }
}

// Ranges, each an offset and a count.
fn ranges(alloc: Global, words: &[&str]) -> Result<Vec<(u64, usize)>, Unanswered> {
    let mut ranges = Vec::new(alloc);
    for pair in words.chunks(2) {
        let [offset, count] = pair else {
            return Err(Unanswered::BadLine);
        };
        ranges.push((offset.parse::<u64>()?, count.parse::<usize>()?))?;
    }
    Ok(ranges)
}

// Tells what was read, or the refusal.
fn told_many(alloc: Global, answer: Result<Vec<Vec<u8>>, Error>) -> Result<String, Unanswered> {
    let mut told = Told::new(alloc);
    match answer {
        Ok(pieces) => {
            for piece in pieces.iter() {
                told.push(digits(alloc, piece)?.as_str())?;
            }
        }
        Err(error) => told.push(number(error))?,
    }
    told.finish(alloc)
}

impl Kept {
    /// Nothing is kept yet.
    pub fn new(alloc: Global) -> Kept {
        Kept {
            tip: TipBuffer::new(alloc, 0, 64),
            cache: CacheRef::new(alloc, 4, 2),
            disk: MemoryDisk::new(alloc),
            reads: None,
            sync: None,
        }
    }

    // Adds bytes to the tip, as many as there is room for.
    fn append(&mut self, alloc: Global, piece: &[u8]) -> Result<String, Unanswered> {
        if self.tip.end().checked_add(piece.len() as u64).is_none() {
            return Err(Unanswered::BadLine);
        }
        let count = self.tip.append(piece)?;
        Ok(count.to_string(alloc)?)
    }

    /// Makes a call of the tip.
    pub fn tip_answer(&mut self, alloc: Global, words: &[&str]) -> Result<String, Unanswered> {
        match words {
            ["new", offset, capacity] => {
                self.tip = TipBuffer::new(alloc, offset.parse()?, capacity.parse()?);
            }
            ["append", piece] => return self.append(alloc, &bytes(alloc, piece)?),
            ["drain", count] => {
                let count: usize = count.parse()?;
                if count > self.tip.as_bytes().len() {
                    return Err(Unanswered::BadLine);
                }
                self.tip.drain(count);
            }
            ["truncate", count] => self.tip.truncate(count.parse()?),
            ["restart", offset] => self.tip.restart(offset.parse()?),
            ["show"] => {
                let text = digits(alloc, self.tip.as_bytes())?;
                let (offset, end) = (self.tip.offset(), self.tip.end());
                let (room, is_empty) = (self.tip.room(), self.tip.is_empty());
                return Ok(format!(in alloc; "{offset} {end} {room} {is_empty} {text}")?);
            }
            _ => return Err(Unanswered::BadLine),
        }
        Ok("ok".to_string(alloc)?)
    }

    // Puts whole pages of a blob into memory: how many bytes are left over.
    fn put(
        &mut self,
        alloc: Global,
        blob: u64,
        piece: &[u8],
        offset: u64,
    ) -> Result<String, Unanswered> {
        let page_size = u64::from(self.cache.page_size());
        if page_size == 0 || offset % page_size != 0 {
            return Err(Unanswered::BadLine);
        }
        if offset.checked_add(piece.len() as u64).is_none() {
            return Err(Unanswered::BadLine);
        }
        Ok(self.cache.cache(blob, piece, offset).to_string(alloc)?)
    }

    /// Makes a call of the pages in memory.
    pub fn cache_answer(&mut self, alloc: Global, words: &[&str]) -> Result<String, Unanswered> {
        match words {
            ["new", page_size, capacity] => {
                let (page_size, capacity) = (page_size.parse::<u16>()?, capacity.parse::<usize>()?);
                if page_size == 0 || capacity == 0 {
                    return Err(Unanswered::BadLine);
                }
                self.cache = CacheRef::new(alloc, page_size, capacity);
                Ok("ok".to_string(alloc)?)
            }
            ["next-id"] => match self.cache.next_id() {
                Ok(id) => Ok(id.to_string(alloc)?),
                Err(error) => Ok(number(error).to_string(alloc)?),
            },
            ["page-size"] => Ok(self.cache.page_size().to_string(alloc)?),
            ["place", offset] => {
                let (page, within) = self.cache.offset_to_page(offset.parse()?);
                Ok(format!(in alloc; "{page} {within}")?)
            }
            ["put", blob, piece, offset] => {
                let piece = bytes(alloc, piece)?;
                self.put(alloc, blob.parse()?, &piece, offset.parse()?)
            }
            ["page", blob, page] => match self.cache.page(blob.parse()?, page.parse()?) {
                Some(page) => digits(alloc, page),
                None => Ok("none".to_string(alloc)?),
            },
            _ => Err(Unanswered::BadLine),
        }
    }

    // Starts a call of the blob.
    fn start(&mut self, alloc: Global, words: &[&str]) -> Result<String, Unanswered> {
        match words {
            ["reads", words @ ..] => {
                let ranges = ranges(alloc, words)?;
                self.reads = Some(self.disk.start_read_many(alloc, &ranges));
            }
            ["sync"] => self.sync = Some(self.disk.start_sync()),
            _ => return Err(Unanswered::BadLine),
        }
        Ok("ok".to_string(alloc)?)
    }

    // Finishes the call that was started last of its kind.
    fn finish(&mut self, alloc: Global, word: &str) -> Result<String, Unanswered> {
        match word {
            "reads" => match self.reads.take() {
                Some(reads) => told_many(alloc, reads.finish()),
                None => Err(Unanswered::BadLine),
            },
            "sync" => match self.sync.take() {
                Some(sync) => done(alloc, sync.finish()),
                None => Err(Unanswered::BadLine),
            },
            _ => Err(Unanswered::BadLine),
        }
    }

    /// Makes a call of the blob.
    pub fn disk_answer(&mut self, alloc: Global, words: &[&str]) -> Result<String, Unanswered> {
        match words {
            ["showing", text] => {
                self.disk = MemoryDisk::showing(alloc, bytes(alloc, text)?)?;
                Ok("ok".to_string(alloc)?)
            }
            ["read", offset, count] => {
                let mut told = Told::new(alloc);
                let read = self.disk.read_at(alloc, offset.parse()?, count.parse()?);
                told.push_bytes(alloc, read)?;
                told.finish(alloc)
            }
            ["read-many", words @ ..] => {
                told_many(alloc, self.disk.read_many(alloc, &ranges(alloc, words)?))
            }
            ["start", words @ ..] => self.start(alloc, words),
            ["finish", word] => self.finish(alloc, word),
            ["write", offset, text, mode] => {
                let mode = match *mode {
                    "plain" => WriteMode::Plain,
                    "sync" => WriteMode::Sync,
                    _ => return Err(Unanswered::BadLine),
                };
                let written = bytes(alloc, text)?;
                done(alloc, self.disk.write_at(offset.parse()?, &written, mode))
            }
            ["resize", size] => done(alloc, self.disk.resize(size.parse()?)),
            ["sync"] => done(alloc, self.disk.sync()),
            ["show"] => digits(alloc, self.disk.as_bytes()),
            ["calls"] => Ok(self.disk.record().len().to_string(alloc)?),
            _ => Err(Unanswered::BadLine),
        }
    }
}
