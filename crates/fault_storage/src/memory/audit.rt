//! What an audit of the store in memory tells of its files.

ghost use Rattle.std.specs.Prelude.{◌≡◌, ◌++◌, IfOk, OnOk};
ghost use Rattle.fault_storage.specs.Audits.{framed, file_told, files_told};

use crate::stored::StoredFile;
use std::alloc::{AllocError, Global};

// Puts the bytes behind the others, with their length before them in eight bytes. It fails only when out of memory.
#[tactic(auto, unfolding(crate::specs::Audits::framed))]
fn put_framed(told: &mut Vec<u8>, bytes: &[u8]) -> Result<(), AllocError>
    ensures { OnOk result (told.new.items ≡ told.old.items ++ framed bytes.now) }
{
    told.extend_from_slice(&(bytes.len() as u64).to_be_bytes())?;
    told.extend_from_slice(bytes)?;
    Ok(())
}

// Puts what is told of the file behind the others. It fails only when out of memory.
fn put_file(alloc: Global, told: &mut Vec<u8>, stored: &StoredFile) -> Result<(), AllocError>
    ensures { OnOk result (told.new.items ≡ told.old.items ++ file_told stored.now) }
{
    put_framed(told, stored.name.partition().as_bytes())?;
    put_framed(told, stored.name.name())?;
    let bytes = stored.file.durable(alloc)?;
    put_framed(told, &bytes)?;
    Ok(())
}

// What is told of the files. It fails only when out of memory.
pub(crate) fn files_told(alloc: Global, files: &[StoredFile]) -> Result<Vec<u8>, AllocError>
    ensures { IfOk result (λ told. told.items ≡ files_told files.now) }
{
    let mut told = Vec::new(alloc);
    for stored in files {
        put_file(alloc, &mut told, stored)?;
    }
    Ok(told)
}
