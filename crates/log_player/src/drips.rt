//! Scripts that are read to their end, or to a read that fails.

use crate::texts::text_bytes;
use auth_store_parts::script::{InputError, read_script};
use case_lines::{Unanswered, digits};
use std::alloc::Global;
use std::io;
use std::io::{ErrorKind, Read};

/// A reader of `left` bytes, one in each read, which fails at the read before its last `broken` bytes.
#[derive(Drop)]
struct Dripping {
    left: usize,
    broken: usize,
}

impl Read for Dripping {
    fn read(&mut self, buf: &mut [u8]) -> io::Result<usize> {
        if self.left == self.broken && self.broken > 0 {
            return Err(io::Error::from(ErrorKind::Other));
        }
        match buf {
            [first, ..] if self.left > 0 => {
                *first = b'x';
                self.left -= 1;
                Ok(1)
            }
            _ => Ok(0),
        }
    }
}

// How many bytes a script has that was read, all of them `x`; or why it was not read.
fn count(alloc: Global, script: Result<Vec<u8>, InputError>) -> Result<String, Unanswered> {
    match script {
        Ok(script) => {
            let is_all = script.iter().all(|byte| *byte == b'x');
            Ok(format!(in alloc; "{} {is_all}", script.len())?)
        }
        Err(InputError::Read) => Ok("read".to_string(alloc)?),
        Err(InputError::Memory) => Err(Unanswered::Memory),
    }
}

/// What is answered of scripts that are read.
pub fn answer(alloc: Global, words: &[&str]) -> Result<String, Unanswered> {
    match words {
        ["text", text] => {
            let bytes = text_bytes(alloc, text)?;
            let mut reader: &[u8] = bytes.as_slice();
            match read_script(alloc, &mut reader) {
                Ok(script) => digits(alloc, &script),
                Err(_) => Err(Unanswered::Memory),
            }
        }
        ["drip", left, broken] => {
            let mut reader = Dripping {
                left: left.parse()?,
                broken: broken.parse()?,
            };
            count(alloc, read_script(alloc, &mut reader))
        }
        ["repeat", len] => {
            let mut reader = io::repeat(b'x').take(len.parse()?);
            count(alloc, read_script(alloc, &mut reader))
        }
        _ => Err(Unanswered::BadLine),
    }
}
