//! The names of partitions.

ghost use Rattle.std.specs.Prelude.{◌≡◌, true, false, MatchResult};
ghost use Rattle.std.specs.List.{list_all};
ghost use Rattle.fault_storage_parts.specs.Names.{is_name_byte, is_partition_name};

use crate::error::Error;

// Whether a name may have this byte.
fn is_in_names(byte: u8) -> bool
    ensures { result ≡ is_name_byte byte }
{
    byte.is_ascii_alphanumeric() || byte == b'_' || byte == b'-'
}

// Whether a name may have all of these bytes.
fn are_in_names(bytes: &[u8]) -> bool
    ensures { result ≡ list_all is_name_byte bytes.now }
{
    bytes.iter().all(|byte| is_in_names(*byte))
}

/// Whether a partition may have this name: one or more ASCII letters, digits, `_` and `-`. Any other: F3.
/// In the Rust: `commonware_runtime::storage::validate_partition_name`.
pub fn validate_partition_name(partition: &str) -> Result<(), Error>
    ensures { MatchResult result (λ _. is_partition_name partition.now ≡ true)
        (λ e. (e ≡ Error.PartitionNameInvalid) × (is_partition_name partition.now ≡ false)) }
{
    if partition.is_empty() || !are_in_names(partition.as_bytes()) {
        return Err(Error::PartitionNameInvalid);
    }
    Ok(())
}
