//! Reading a script.

ghost use Rattle.std.specs.Prelude.{◌≡◌, ◌≤◌, ◌^◌, ◌⊎◌, length, IfOk, IfErr, OnOk, IfSome};
ghost use Rattle.std.specs.Io.KnownBytes.{IsAtEnd};
ghost use Rattle.auth_store_parts.specs.declared.script.input.InputError.TheVariants as errors;

use std::alloc::{AllocError, Global};
use std::io;
use std::io::Read;

/// The greatest length of a script in bytes: 2^24.
pub const MAX_SCRIPT_BYTES: usize = 0x100_0000;

/// The greatest number of reads in which a script may come, the one that finds its end among them: 2^24.
pub const MAX_READS: usize = 0x100_0000;

const BUFFER_BYTES: usize = 4096;

/// Why a script was not read.
#[derive(Clone, Copy, Debug, PartialEq, Eq, thiserror::Error)]
pub enum InputError {
    /// Out of memory.
    #[error("out of memory")]
    Memory,
    /// A read failed or was interrupted, or the script has no end within the limits.
    #[error("the script cannot be read")]
    Read,
}

impl From<AllocError> for InputError {
    ghost from_gives = { λ _ e. e ≡ errors.Memory };

    fn from(_e: AllocError) -> InputError {
        InputError::Memory
    }
}

impl From<io::Error> for InputError {
    ghost from_gives = { λ _ e. e ≡ errors.Read };

    fn from(_e: io::Error) -> InputError {
        InputError::Read
    }
}

/// The limits of a script, as numbers.
pub fn limits_of_scripts()
    ensures bytes { MAX_SCRIPT_BYTES ≡ 2 ^ 24 }
    ensures reads { MAX_READS ≡ 2 ^ 24 }
{}

/// All bytes that the reader has left, at most 2^24 of them in fewer than 2^24 reads. A read that fails, an interrupted
/// one too, or a longer script: `Read`; out of memory: `Memory`. What was read is then lost.
pub fn read_script<R: Read>(alloc: Global, reader: &mut R) -> Result<Vec<u8>, InputError>
    ensures size { IfOk result (λ script. length script.items ≤ 2 ^ 24) }
    ensures bytes { IfOk result (λ script. IfSome (R.remaining reader.old) (λ bytes. script.items ≡ bytes)) }
    ensures end { OnOk result (IsAtEnd (R.remaining reader.new)) }
    ensures refused { IfErr result (λ e. (e ≡ InputError.Memory) ⊎ (e ≡ InputError.Read)) }
{
    let mut script = Vec::new(alloc);
    let mut buffer = [0; BUFFER_BYTES];
    for _ in 0..MAX_READS {
        let count = reader.read(&mut buffer)?;
        if count == 0 {
            return Ok(script);
        }
        if count > MAX_SCRIPT_BYTES - script.len() {
            return Err(InputError::Read);
        }
        script.extend_from_slice(&buffer[..count])?;
    }
    Err(InputError::Read)
}
