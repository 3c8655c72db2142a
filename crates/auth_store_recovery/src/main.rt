//! Commits, closes the store, crashes its device and opens it again, twice, and prints a line for each answer.
//!
//! It is for `tools/refuse_each_allocation.py`, which runs it once for each of its allocations with that one refused.
//! No script closes a store or crashes, so only here do these meet a refusal: the recovery of a log with commits and
//! the check that it is the log of a history, a delete, reads through a cache that holds nothing yet, and what follows
//! an opening that was refused. A refusal is printed and the steps go on; only where printing fails does it end early.
#![tactic(auto)]

use auth_store::{
    Answer, Batch, ByteHash, CacheRef, Claim, Device, FixedBytes, KeyProof, Pcg32, ProvedOperation,
    ProvedRange, ProvedSlice, Session, Sizes, Step, check, mmr, new_device,
};
use std::alloc::{AllocError, Global};
use std::io;

type Name = FixedBytes<8>;

type Root = FixedBytes<32>;

type Said = Claim<mmr::Family, Name, u64>;

type Small = Session<Pcg32, mmr::Family, ByteHash, Name, u64, 1>;

const A: Name = FixedBytes {
    bytes: [0, 0, 0, 0, 0, 0, 0, 0x61],
};

const B: Name = FixedBytes {
    bytes: [0, 0, 0, 0, 0, 0, 0, 0x62],
};

const C: Name = FixedBytes {
    bytes: [0, 0, 0, 0, 0, 0, 0, 0x63],
};

const SIZES: Sizes = Sizes {
    write_buffer: 128,
    replay_buffer: 128,
};

/// How many bytes of content a page has: so the log has several pages, of which the cache keeps one.
const PAGE_CONTENT: u16 = 52;

/// How many bytes a page has on the disk, with its footer.
const PAGE_SIZE: u32 = 64;

const PAGES_KEPT: usize = 1;

/// How many operations there are when some are proved, the location of the last one, and the floor that it records.
const LEN: u64 = 10;

const LAST: u64 = 9;

const FLOOR: u64 = 4;

/// A session, and the root that it answered last.
#[derive(Drop)]
struct User {
    alloc: Global,
    session: Small,
    root: Option<Root>,
}

// A batch that puts these keys with their values.
fn puts(alloc: Global, words: &[(Name, u64)]) -> Result<Batch<Name, u64>, AllocError> {
    let mut batch = Batch::new(alloc);
    for (key, value) in words {
        batch.put(*key, *value)?;
    }
    Ok(batch)
}

// A batch that deletes the key.
fn delete(alloc: Global, key: Name) -> Result<Batch<Name, u64>, AllocError> {
    let mut batch = Batch::new(alloc);
    batch.delete(key)?;
    Ok(batch)
}

// Prints a word and the digits of a root. It takes no memory.
fn print_root(rt: &HostRuntime, word: &str, root: &Root) -> io::Result<()> {
    print!(rt; "{word} ")?;
    for byte in root.as_bytes() {
        print!(rt; "{byte:02x}")?;
    }
    println!(rt; "")
}

impl User {
    // What the client says of a claim and its proof, under the root that was answered last.
    fn checked(&self, claim: &Said, proof: &[u8]) -> &'static str {
        let Some(root) = &self.root else {
            return "no root";
        };
        match check::<mmr::Family, ByteHash, Name, u64, 1>(self.alloc, root, claim, proof) {
            Ok(true) => "yes",
            Ok(false) => "no",
            Err(_) => "out of memory",
        }
    }

    // Takes a step, prints its answer, and keeps the root in it. What is proved is the value of c, the absence of a,
    // the last operation, those from the floor on, and the whole log.
    fn take(&mut self, rt: &HostRuntime, step: Step<Name, u64>) -> io::Result<()> {
        match self.session.step(step) {
            Answer::Opened => println!(rt; "opened"),
            Answer::Committed(root) => {
                self.root = Some(root);
                print_root(rt, "committed", &root)
            }
            Answer::Value(Some(value)) => println!(rt; "value {value}"),
            Answer::Value(None) => println!(rt; "none"),
            Answer::Root(root) => {
                self.root = Some(root);
                print_root(rt, "root", &root)
            }
            Answer::Commits(count) => println!(rt; "commits {count}"),
            Answer::Floor(location) => println!(rt; "floor {location}"),
            Answer::Len(count) => println!(rt; "len {count}"),
            Answer::Pruned(chunks) => println!(rt; "pruned {chunks}"),
            Answer::Proof(KeyProof::Value(value, proof)) => {
                let checked = self.checked(&Claim::Value { key: C, value }, &proof);
                println!(rt; "present {value} {checked}")
            }
            Answer::Proof(KeyProof::Absent(proof)) => {
                let checked = self.checked(&Claim::Absent { key: A }, &proof);
                println!(rt; "absent {checked}")
            }
            Answer::Operation(ProvedOperation { operation, bytes }) => {
                let location = LAST;
                let claim = Claim::Active {
                    location,
                    operation,
                };
                println!(rt; "operation {}", self.checked(&claim, &bytes))
            }
            Answer::Range(
                ProvedRange {
                    operations,
                    active,
                    bytes,
                },
            ) => {
                let start = FLOOR;
                let claim = Claim::Range {
                    start,
                    operations,
                    active,
                };
                println!(rt; "range {}", self.checked(&claim, &bytes))
            }
            Answer::Slice(ProvedSlice { operations, bytes }) => {
                let claim = Claim::Slice {
                    start: 0,
                    operations,
                };
                println!(rt; "slice {}", self.checked(&claim, &bytes))
            }
            Answer::Closed => println!(rt; "closed"),
            Answer::Crashed => println!(rt; "crashed"),
            Answer::Set => println!(rt; "set"),
            Answer::Refused(error) => println!(rt; "error {}", error.number()),
            Answer::NotOpen => println!(rt; "not open"),
            Answer::StillOpen => println!(rt; "still open"),
        }
    }

    // Commits the batch, if there was memory for it.
    fn commit(
        &mut self,
        rt: &HostRuntime,
        batch: Result<Batch<Name, u64>, AllocError>,
    ) -> io::Result<()> {
        match batch {
            Ok(batch) => self.take(rt, Step::Commit(batch, None)),
            Err(_) => println!(rt; "out of memory"),
        }
    }

    // Closes the store, crashes the device, and opens the store again.
    fn reopen(&mut self, rt: &HostRuntime) -> io::Result<()> {
        self.take(rt, Step::Close)?;
        self.take(rt, Step::Crash)?;
        self.take(rt, Step::Open(SIZES))
    }

    // Takes all steps.
    fn take_all(&mut self, rt: &HostRuntime) -> io::Result<()> {
        self.take(rt, Step::Open(SIZES))?;
        self.commit(rt, puts(self.alloc, &[(A, 1), (B, 2)]))?;
        self.commit(rt, puts(self.alloc, &[(C, 3)]))?;
        self.reopen(rt)?;
        self.commit(rt, delete(self.alloc, A))?;
        self.take(rt, Step::Get(B))?;
        self.take(rt, Step::Get(A))?;
        self.take(rt, Step::ProveKey(C))?;
        self.take(rt, Step::ProveKey(A))?;
        self.take(rt, Step::ProveOperation(LAST))?;
        self.take(rt, Step::ProveRange(FLOOR, LEN))?;
        self.take(rt, Step::ProveLog(0, LEN))?;
        self.take(rt, Step::Prune(FLOOR))?;
        self.take(rt, Step::Root)?;
        self.reopen(rt)?;
        self.take(rt, Step::Get(C))?;
        self.take(rt, Step::Commits)?;
        self.take(rt, Step::Floor)?;
        self.take(rt, Step::Len)?;
        self.take(rt, Step::Close)
    }
}

// How many openings the device lends.
fn openings(device: &Device<Pcg32>) -> u64 {
    let mut count = 0u64;
    for _opening in device.openings() {
        count = count.saturating_add(1);
    }
    count
}

// How many of the device's openings are by chance.
fn by_chance(alloc: Global, device: &Device<Pcg32>) -> Result<u64, AllocError> {
    let mut count = 0u64;
    for opening in device.openings() {
        if opening.by_chance(alloc, PAGE_SIZE)? {
            count = count.saturating_add(1);
        }
    }
    Ok(count)
}

fn main(rt: HostRuntime) -> io::Result<()> {
    let alloc = rt.alloc();
    let Ok(device) = new_device(alloc, 0) else {
        return println!(rt; "out of memory");
    };
    let cache = CacheRef::new(alloc, PAGE_CONTENT, PAGES_KEPT);
    let mut user = User {
        alloc,
        session: Session::new(alloc, device, cache),
        root: None,
    };
    user.take_all(&rt)?;
    let (device, _cache) = user.session.into_parts();
    println!(rt; "openings {}", openings(&device))?;
    match by_chance(alloc, &device) {
        Ok(count) => println!(rt; "by chance {count}"),
        Err(_) => println!(rt; "out of memory"),
    }
}
