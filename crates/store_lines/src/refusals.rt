//! What a store refuses: numbers, and what they carry.

use auth_store_session::StoreError;
use case_lines::Unanswered;
use device_lines::refusals::{call_name, header_number};
use std::alloc::Global;

/// What a store refuses.
pub fn of_store(alloc: Global, error: StoreError) -> Result<String, Unanswered> {
    let number = error.number();
    let carried = match error {
        StoreError::Fault(None) => " open",
        StoreError::Fault(Some(call)) => return Ok(format!(in alloc;
            "{number} {}",
            call_name(call)
        )?),
        StoreError::Header(fault) => return Ok(format!(in alloc;
            "{number} {}",
            header_number(fault)
        )?),
        _ => "",
    };
    Ok(format!(in alloc; "{number}{carried}")?)
}
