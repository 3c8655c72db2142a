//! A store in memory that never fails, and one that fails over it, each with the blobs that were opened, from number 0
//! on.

use crate::calls::{blob_of, finish, of_blob, of_store, open, partition_of};
use crate::formats::{listed, versions};
use crate::names::while_open;
use crate::settings::{rate, with_setting};
use crate::told::{bytes as told_bytes, done, refused};
use crate::words::Listed;
use case_lines::{Unanswered, bytes, digits};
use fault_storage::{Config, StartedSync, faulty, memory};
use std::alloc::Global;

/// A store that never fails.
#[derive(Drop)]
pub struct Plain {
    pub storage: memory::Storage,
    pub blobs: Vec<memory::Blob>,
    pub started: Vec<StartedSync>,
}

/// A store that fails.
#[derive(Drop)]
pub struct Failing {
    pub storage: faulty::Storage<memory::Storage, Listed>,
    pub blobs: Vec<faulty::Blob<memory::Blob>>,
    pub started: Vec<StartedSync>,
}

// What is durable in a store in memory.
fn told_of(alloc: Global, storage: &memory::Storage, words: &[&str]) -> Result<String, Unanswered> {
    match words {
        ["file", partition, name] => {
            let name = bytes(alloc, name)?;
            told_bytes(alloc, storage.raw_blob(partition_of(partition), &name))
        }
        ["logical", partition, name] => {
            let name = bytes(alloc, name)?;
            told_bytes(alloc, storage.logical_blob(partition_of(partition), &name))
        }
        ["audit"] => match storage.audit() {
            Ok(sum) => digits(alloc, &sum),
            Err(error) => refused(alloc, error),
        },
        _ => Err(Unanswered::BadLine),
    }
}

impl Plain {
    /// A store with nothing in it.
    pub fn new(alloc: Global) -> Plain {
        Plain {
            storage: memory::Storage::new(alloc),
            blobs: Vec::new(alloc),
            started: Vec::new(alloc),
        }
    }

    /// The store under one that fails by these words, with its blobs.
    pub fn failing(self, alloc: Global, words: &[&str]) -> Result<Failing, Unanswered> {
        let Plain {
            storage,
            blobs,
            started,
        } = self;
        let mut wrapped = Vec::new(alloc);
        for blob in blobs {
            wrapped.push(faulty::Blob::new(blob))?;
        }
        Ok(Failing {
            storage: faulty::Storage::new(storage, listed(alloc, words)?, Config::default()),
            blobs: wrapped,
            started,
        })
    }

    // What a write leaves of these bytes that failed: those for which the digits have a 1.
    fn retain_write(
        &mut self,
        alloc: Global,
        blob: &str,
        offset: u64,
        written: &str,
        kept: &str,
    ) -> Result<String, Unanswered> {
        let mut choice = Vec::new(alloc);
        for digit in kept.as_bytes() {
            choice.push(*digit == b'1')?;
        }
        let written = bytes(alloc, written)?;
        let blob = blob_of(&mut self.blobs, blob)?;
        done(
            alloc,
            blob.retain_crash_write(&mut self.storage, offset, &written, &choice),
        )
    }

    // Makes the store anew of a snapshot of it.
    fn rebuild(&mut self, alloc: Global) -> Result<String, Unanswered> {
        let snapshot = match self.storage.take_snapshot() {
            Ok(snapshot) => snapshot,
            Err(error) => return refused(alloc, error),
        };
        match memory::Storage::from_snapshot(alloc, snapshot) {
            Ok(storage) => {
                self.storage = storage;
                Ok("ok".to_string(alloc)?)
            }
            Err(error) => refused(alloc, error),
        }
    }

    // A call that only a store in memory has.
    fn own_answer(&mut self, alloc: Global, words: &[&str]) -> Result<String, Unanswered> {
        match words {
            ["put", partition, name, digits] => {
                let (name, bytes) = (bytes(alloc, name)?, bytes(alloc, digits)?);
                done(
                    alloc,
                    self.storage
                        .set_raw_blob(partition_of(partition), &name, bytes),
                )
            }
            ["admit", partition, name] => {
                let name = bytes(alloc, name)?;
                done(alloc, self.storage.admit(partition_of(partition), &name))
            }
            ["snapshot"] => self.rebuild(alloc),
            ["finish"] => finish(alloc, &mut self.started),
            ["blob", number, "keep", offset, written, kept] => {
                self.retain_write(alloc, number, offset.parse()?, written, kept)
            }
            ["blob", number, "stretch", size, n, d] => {
                let (size, retention) = (size.parse()?, rate(n, d)?);
                let blob = blob_of(&mut self.blobs, number)?;
                done(
                    alloc,
                    blob.retain_crash_resize(&mut self.storage, size, retention),
                )
            }
            ["blob", number, words @ ..] => {
                let blob = blob_of(&mut self.blobs, number)?;
                of_blob(alloc, &mut self.storage, blob, &mut self.started, words)
            }
            words => of_store(alloc, &mut self.storage, words),
        }
    }

    /// Makes a call of the store or of a blob.
    pub fn answer(&mut self, alloc: Global, words: &[&str]) -> Result<String, Unanswered> {
        match words {
            ["open", partition, name, least, greatest] => {
                let (name, versions) = (bytes(alloc, name)?, versions(least, greatest)?);
                open(
                    alloc,
                    &mut self.storage,
                    &mut self.blobs,
                    partition_of(partition),
                    &name,
                    versions,
                )
            }
            ["while", least, greatest, words @ ..] => {
                while_open(alloc, &mut self.storage, versions(least, greatest)?, words)
            }
            ["retire"] => {
                self.storage.remove_retired();
                Ok("ok".to_string(alloc)?)
            }
            ["file", _, _] => told_of(alloc, &self.storage, words),
            ["logical", _, _] => told_of(alloc, &self.storage, words),
            ["audit"] => told_of(alloc, &self.storage, words),
            ["live", number] => {
                let blob = blob_of(&mut self.blobs, number)?;
                digits(alloc, blob.live())
            }
            words => self.own_answer(alloc, words),
        }
    }
}

impl Failing {
    /// The store below, without its blobs.
    pub fn plain(self, alloc: Global) -> Plain {
        let Failing {
            storage,
            blobs,
            started,
        } = self;
        drop(blobs);
        Plain {
            storage: storage.into_inner(),
            blobs: Vec::new(alloc),
            started,
        }
    }

    // A call that only a store that fails has.
    fn own_answer(&mut self, alloc: Global, words: &[&str]) -> Result<String, Unanswered> {
        match words {
            ["crash"] => self.storage.crash(),
            ["retire"] => self.storage.remove_retired(),
            ["defaults"] => self.storage.set_config(Config::default()),
            ["set", words @ ..] => {
                let config = with_setting(self.storage.config(), words)?;
                self.storage.set_config(config);
            }
            ["finish"] => return finish(alloc, &mut self.started),
            ["faults"] => return Ok(format!(in alloc; "{}", self.storage.injections())?),
            ["admit", partition, name] => {
                let name = bytes(alloc, name)?;
                return done(alloc, self.storage.admit(partition_of(partition), &name));
            }
            ["blob", number, words @ ..] => {
                let blob = blob_of(&mut self.blobs, number)?;
                return of_blob(alloc, &mut self.storage, blob, &mut self.started, words);
            }
            words => return of_store(alloc, &mut self.storage, words),
        }
        Ok("ok".to_string(alloc)?)
    }

    /// Makes a call of the store or of a blob.
    pub fn answer(&mut self, alloc: Global, words: &[&str]) -> Result<String, Unanswered> {
        match words {
            ["open", partition, name, least, greatest] => {
                let (name, versions) = (bytes(alloc, name)?, versions(least, greatest)?);
                open(
                    alloc,
                    &mut self.storage,
                    &mut self.blobs,
                    partition_of(partition),
                    &name,
                    versions,
                )
            }
            ["while", least, greatest, words @ ..] => {
                while_open(alloc, &mut self.storage, versions(least, greatest)?, words)
            }
            ["file", _, _] => told_of(alloc, self.storage.inner(), words),
            ["logical", _, _] => told_of(alloc, self.storage.inner(), words),
            ["audit"] => told_of(alloc, self.storage.inner(), words),
            ["live", number] => {
                let blob = blob_of(&mut self.blobs, number)?;
                digits(alloc, blob.inner().live())
            }
            ["show", number, partition, name] => {
                let name = bytes(alloc, name)?;
                let bytes = self
                    .storage
                    .inner()
                    .raw_blob(partition_of(partition), &name);
                let bytes = bytes.map_err(|_| Unanswered::BadLine)?;
                let blob = blob_of(&mut self.blobs, number)?;
                self.storage.admit_shown(blob, bytes);
                Ok("ok".to_string(alloc)?)
            }
            words => self.own_answer(alloc, words),
        }
    }
}
