//! Refusals by their numbers.

use fault_storage::{Call, Error, HeaderError};

/// The number of a header's fault.
pub fn header_number(fault: HeaderError) -> &'static str {
    match fault {
        HeaderError::Magic => "H1",
        HeaderError::LayoutNotAllowed => "H2",
        HeaderError::Short => "H3",
        HeaderError::LayoutVersion => "H4",
        HeaderError::Checksum => "H5",
        HeaderError::BlobVersion => "H6",
    }
}

// What a call is called.
fn call_name(call: Call) -> &'static str {
    match call {
        Call::Open => "open",
        Call::Read => "read",
        Call::Write => "write",
        Call::Sync => "sync",
        Call::Resize => "resize",
        Call::Remove => "remove",
        Call::Scan => "scan",
    }
}

/// The number of a refusal, and the word for what it carries (empty where that is nothing).
pub fn number(error: Error) -> (&'static str, &'static str) {
    match error {
        Error::BlobMissing => ("F1", ""),
        Error::PartitionMissing => ("F2", ""),
        Error::PartitionNameInvalid => ("F3", ""),
        Error::AlreadyOpen => ("F4", ""),
        Error::Header(fault) => ("F5 ", header_number(fault)),
        Error::Injected(call) => ("F6 ", call_name(call)),
        Error::BlobInsufficientLength => ("F7", ""),
        Error::NumberEnded => ("F8", ""),
        Error::Memory => ("F9", ""),
        Error::Retained => ("F11", ""),
    }
}
