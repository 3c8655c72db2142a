//! What a device refuses: numbers, and what they carry.

use auth_store_device::OpenError;
use case_lines::Unanswered;
use fault_storage::HeaderError;
use paged_blob::{CallKind, Error};
use std::alloc::Global;

/// The number of a header's fault.
pub fn header_number(fault: HeaderError) -> &'static str {
    match fault {
        HeaderError::Magic => "H1",
        HeaderError::LayoutNotAllowed => "H2",
        HeaderError::Short => "H3",
        HeaderError::LayoutVersion => "H4",
        HeaderError::Checksum => "H5",
        HeaderError::BlobVersion => "H6",
    }
}

/// The name of a call.
pub fn call_name(call: CallKind) -> &'static str {
    match call {
        CallKind::Read => "read",
        CallKind::Write => "write",
        CallKind::Resize => "resize",
        CallKind::Sync => "sync",
    }
}

/// What a device refuses.
pub fn of_device(alloc: Global, error: Error) -> Result<String, Unanswered> {
    let number = match error {
        Error::BlobMissing => "F1",
        Error::Injected(call) => return Ok(format!(in alloc; "F6 {}", call_name(call))?),
        Error::BlobInsufficientLength => "F7",
        Error::NumberEnded => "F8",
        Error::Memory => "F9",
        Error::PowerCut => "F10",
        Error::ChecksumMismatch => "F12",
    };
    Ok(number.to_string(alloc)?)
}

/// Why a device is not opened.
pub fn of_opening(alloc: Global, error: OpenError) -> Result<String, Unanswered> {
    let number = match error {
        OpenError::Header(fault) => return Ok(format!(in alloc; "F5 {}", header_number(fault))?),
        OpenError::Injected => "F6 open",
        OpenError::NumberEnded => "F8",
        OpenError::Memory => "F9",
        OpenError::PowerCut => "F10",
    };
    Ok(number.to_string(alloc)?)
}
