//! What a change makes of the bytes of a file, whole.

ghost use Rattle.std.specs.Prelude.{◌≡◌, ◌+◌, ◌≤◌, ◌++◌, length, take, drop, OnOk, OnErr};
ghost use Rattle.paged_blob_parts.specs.Calls.{resized, with_bytes};

use std::alloc::AllocError;

/// Cuts the file to a length, or grows it by zeros. It fails only when out of memory, and then the file is as it was.
pub(crate) fn set_length(file: &mut Vec<u8>, len: usize) -> Result<(), AllocError>
    ensures ok { OnOk result (file.new.items ≡ resized len file.old.items) }
    ensures err { OnErr result (file.new.items ≡ file.old.items) }
{
    file.resize(len, 0)
}

// Lays the bytes over others, which reach as far.
fn overwrite(file: &mut [u8], offset: usize, bytes: &[u8])
    requires { offset + length bytes.now ≤ length file.old }
    ensures { file.new ≡ take offset file.old ++ (bytes.now ++ drop (offset + length bytes.now) file.old) }
{
    file[offset..offset + bytes.len()].copy_from_slice(bytes);
}

/// Lays the bytes over the file, with zeros in a gap before them. It fails only when out of memory, and then the file
/// is as it was: no memory has room for a file that ends past a u64.
pub(crate) fn put_bytes(file: &mut Vec<u8>, offset: usize, bytes: &[u8]) -> Result<(), AllocError>
    ensures ok { OnOk result (file.new.items ≡ with_bytes offset bytes.now file.old.items) }
    ensures err { OnErr result (file.new.items ≡ file.old.items) }
{
    let Some(end) = offset.checked_add(bytes.len()) else {
        return Err(AllocError);
    };
    if file.len() >= end {
        overwrite(file, offset, bytes);
        return Ok(());
    }
    set_length(file, end)?;
    overwrite(file, offset, bytes);
    Ok(())
}
