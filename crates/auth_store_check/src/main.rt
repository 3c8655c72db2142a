//! Checks a claim about a store under a root, without the store: the light client for people and for scripts. It reads
//! four lines and prints `yes` or `no`. Root and proof stand as `auth_store_script` prints them, so that its lines may
//! be pasted.
//!
//! ```text
//! mmr                          the family of the trees: mmr or mmb
//! root 4c11c3..                the root
//! value 0000000000000061 1     the claim: this, `absent KEY`, `active LOCATION OPERATION`, its bytes in hex digits,
//!                              `range START OPERATIONS BITS`, these joined by commas, a 1 or 0 each, or
//!                              `slice START OPERATIONS`
//! proof 0338..                 the bytes of the proof
//! ```
//!
//! A line of another form, or a missing one, prints `bad line N`. Status 0: it is answered; 1: reading or printing
//! failed; 2: a line is bad; 3: out of memory.
#![tactic(auto)]

use auth_store_client::{Claim, check};
use merkle_forest::codec::{Cursor, FixedBytes};
use merkle_forest::{ByteHash, Graftable, PendingOf, mmb, mmr};
use state_ops::{OrderedOperation, ordered};
use std::alloc::{AllocError, AllocFailed, Global};
use std::io;
use std::num::ParseIntError;
use std::process::ExitCode;

type Name = FixedBytes<8>;

type Root = FixedBytes<32>;

/// Why a line is not read.
#[derive(Debug, Drop)]
enum Fault {
    Malformed,
    Memory,
}

impl From<AllocError> for Fault {
    fn from(_error: AllocError) -> Fault {
        Fault::Memory
    }
}

impl<T: Drop> From<AllocFailed<T>> for Fault {
    fn from(_error: AllocFailed<T>) -> Fault {
        Fault::Memory
    }
}

impl From<ParseIntError> for Fault {
    fn from(_error: ParseIntError) -> Fault {
        Fault::Malformed
    }
}

impl From<hex::FromHexError> for Fault {
    fn from(error: hex::FromHexError) -> Fault {
        match error {
            hex::FromHexError::OutOfMemory => Fault::Memory,
            _ => Fault::Malformed,
        }
    }
}

/// What is said: whether the claim is proved, or why there is no answer.
#[derive(Debug, Drop)]
enum Verdict {
    Proved(bool),
    BadLine(u64),
    Memory,
    Io,
}

/// The four lines.
#[derive(Drop)]
struct Lines {
    family: String,
    root: String,
    claim: String,
    proof: String,
}

// The bytes of these digits, so many of them.
fn fixed<const M: usize>(digits: &str) -> Result<FixedBytes<M>, Fault> {
    let mut bytes = [0; M];
    hex::decode_to_slice(digits, &mut bytes)?;
    Ok(FixedBytes::new(bytes))
}

// The root of a line.
fn root_of(line: &str) -> Result<Root, Fault> {
    match line.strip_prefix("root ") {
        Some(digits) => fixed(digits),
        None => Err(Fault::Malformed),
    }
}

// The bytes of the proof of a line.
fn proof_of(alloc: Global, line: &str) -> Result<Vec<u8>, Fault> {
    match line.strip_prefix("proof ") {
        Some(digits) => Ok(hex::decode(alloc, digits)?),
        None => Err(Fault::Malformed),
    }
}

// The operation that these digits encode, all of them.
fn operation<F: Graftable>(
    alloc: Global,
    digits: &str,
) -> Result<OrderedOperation<F, Name, u64>, Fault> {
    let bytes = hex::decode(alloc, digits)?;
    let mut cursor = Cursor::new(&bytes);
    match ordered::read(alloc, &mut cursor) {
        Ok(operation) if cursor.is_empty() => Ok(operation),
        _ => Err(Fault::Malformed),
    }
}

// The operations that these digits encode, joined by commas.
fn operations<F: Graftable>(
    alloc: Global,
    words: &str,
) -> Result<Vec<OrderedOperation<F, Name, u64>>, Fault> {
    let mut found = Vec::new(alloc);
    for digits in words.split(',') {
        found.push(operation(alloc, digits)?)?;
    }
    Ok(found)
}

// The bits of these digits, 1 or 0 each.
fn bits(alloc: Global, digits: &str) -> Result<Vec<bool>, Fault> {
    let mut found = Vec::new(alloc);
    for digit in digits.chars() {
        match digit {
            '0' => found.push(false)?,
            '1' => found.push(true)?,
            _ => return Err(Fault::Malformed),
        }
    }
    Ok(found)
}

// The claim of a line.
fn claim_of<F: Graftable>(alloc: Global, line: &str) -> Result<Claim<F, Name, u64>, Fault> {
    let words: Vec<&str> = line.split(' ').collect(alloc)?;
    match words.as_slice() {
        ["value", key, value] => Ok(Claim::Value {
            key: fixed(key)?,
            value: value.parse()?,
        }),
        ["absent", key] => Ok(Claim::Absent { key: fixed(key)? }),
        ["active", location, encoding] => Ok(Claim::Active {
            location: location.parse()?,
            operation: operation(alloc, encoding)?,
        }),
        ["range", start, encodings, active] => Ok(Claim::Range {
            start: start.parse()?,
            operations: operations(alloc, encodings)?,
            active: bits(alloc, active)?,
        }),
        ["slice", start, encodings] => Ok(Claim::Slice {
            start: start.parse()?,
            operations: operations(alloc, encodings)?,
        }),
        _ => Err(Fault::Malformed),
    }
}

// What is said where the line with this number is not read.
fn said_of(fault: Fault, number: u64) -> Verdict {
    match fault {
        Fault::Malformed => Verdict::BadLine(number),
        Fault::Memory => Verdict::Memory,
    }
}

// What the client says of the lines, over the trees of the family.
fn checked<F: Graftable + PendingOf<Root>>(alloc: Global, lines: &Lines) -> Verdict {
    let root = match root_of(lines.root.as_str()) {
        Ok(root) => root,
        Err(fault) => return said_of(fault, 2),
    };
    let claim = match claim_of::<F>(alloc, lines.claim.as_str()) {
        Ok(claim) => claim,
        Err(fault) => return said_of(fault, 3),
    };
    let proof = match proof_of(alloc, lines.proof.as_str()) {
        Ok(proof) => proof,
        Err(fault) => return said_of(fault, 4),
    };
    match check::<F, ByteHash, Name, u64, 1>(alloc, &root, &claim, &proof) {
        Ok(proved) => Verdict::Proved(proved),
        Err(AllocError) => Verdict::Memory,
    }
}

// What is said of the lines.
fn said(alloc: Global, lines: &Lines) -> Verdict {
    match lines.family.as_str() {
        "mmr" => checked::<mmr::Family>(alloc, lines),
        "mmb" => checked::<mmb::Family>(alloc, lines),
        _ => Verdict::BadLine(1),
    }
}

// A line that was read, or an empty one where there is none.
fn line_of(alloc: Global, line: Option<io::Result<String>>) -> io::Result<String> {
    match line {
        Some(line) => line,
        None => Ok(String::new(alloc)),
    }
}

// The four lines that are read.
fn read(rt: &HostRuntime) -> io::Result<Lines> {
    let alloc = rt.alloc();
    let mut lines = rt.lines(alloc);
    Ok(Lines {
        family: line_of(alloc, lines.next())?,
        root: line_of(alloc, lines.next())?,
        claim: line_of(alloc, lines.next())?,
        proof: line_of(alloc, lines.next())?,
    })
}

// The status, where what is said was printed.
fn status(printed: io::Result<()>, status: u8) -> ExitCode {
    match printed {
        Ok(()) => ExitCode::from(status),
        Err(_) => ExitCode::from(1),
    }
}

fn main(rt: HostRuntime) -> ExitCode {
    let said = match read(&rt) {
        Ok(lines) => said(rt.alloc(), &lines),
        Err(_) => Verdict::Io,
    };
    match said {
        Verdict::Proved(true) => status(println!(rt; "yes"), 0),
        Verdict::Proved(false) => status(println!(rt; "no"), 0),
        Verdict::BadLine(number) => status(println!(rt; "bad line {number}"), 2),
        Verdict::Memory => ExitCode::from(3),
        Verdict::Io => ExitCode::from(1),
    }
}
