//! Refusals: their numbers.

use auth_store_log::LogError;
use auth_store_machine::StoreError;
use case_lines::Unanswered;
use paged_blob::Error;
use std::alloc::Global;

/// What a disk refuses, or why it was left without an answer. No fault is injected into a disk in memory.
pub fn of_disk(alloc: Global, refused: Error) -> Result<String, Unanswered> {
    match refused {
        Error::BlobInsufficientLength => Ok("F7".to_string(alloc)?),
        Error::NumberEnded => Ok("F8".to_string(alloc)?),
        Error::ChecksumMismatch => Ok("F12".to_string(alloc)?),
        Error::Memory => Err(Unanswered::Memory),
        _ => Err(Unanswered::BadLine),
    }
}

/// What a log refuses.
pub fn of_log(alloc: Global, refused: LogError) -> Result<String, Unanswered> {
    match refused {
        LogError::Corrupt => Ok("corrupt".to_string(alloc)?),
        LogError::Refused(error) => of_disk(alloc, error),
    }
}

/// What a store refuses.
pub fn of_store(alloc: Global, refused: StoreError) -> Result<String, Unanswered> {
    match refused {
        StoreError::Memory => Err(Unanswered::Memory),
        other => Ok(other.number().to_string(alloc)?),
    }
}
