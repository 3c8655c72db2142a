//! Calls as a record keeps them, and as they are read from it.

ghost use Rattle.std.specs.Prelude.{◌≡◌, ◌∷◌, ℕ, List, OnOk, OnErr};
ghost use Rattle.paged_blob_parts.specs.Calls.{Call, content};
ghost use Rattle.auth_store_device.specs.RecordsCode.{call_in, call_of, HasItsBytes, KnowsBase, HasBase};

use crate::blocks::{Blocks, Image, Part};
use crate::file::{put_bytes, set_length};
use std::alloc::AllocError;

/// A call as it is kept.
#[derive(Clone, Copy, Debug)]
pub(crate) enum Kept {
    /// An opening: the image with which the file began before it, and the one that it showed.
    Opened(usize, usize),
    /// A write at an offset: its bytes, whether they were to be durable at once, and whether it succeeded.
    Wrote(u64, Part, bool, bool),
    /// A resize to a length, and whether it succeeded.
    ResizedTo(u64, bool),
    /// A sync that made durable what the calls before it make of the file, each of them whole.
    SyncedWhole,
    /// A sync that made this image durable.
    SyncedAs(usize),
    /// A sync that failed.
    SyncFailed,
}

/// A call as it is read from a record.
#[derive(Debug, Drop)]
pub(crate) enum Entry<'a> {
    /// An opening: the bytes with which the file began before it, and those that it showed.
    Opened(Image<'a>, Image<'a>),
    /// A write at an offset: its bytes, whether they were to be durable at once, and whether it succeeded.
    Wrote(u64, &'a [u8], bool, bool),
    /// A resize to a length, and whether it succeeded.
    ResizedTo(u64, bool),
    /// A sync, and whether it succeeded.
    Synced(bool),
}

/// The call that is kept, as it is read.
pub(crate) fn entry_of<'a>(blocks: &'a Blocks, kept: Kept) -> Entry<'a>
    requires { HasItsBytes blocks.now kept }
    ensures call { (past : List Call) → (bytes : List ℕ) × (call_of bytes result ≡ call_in blocks.now past kept) }
    ensures base { (past : List Call) → KnowsBase blocks.now past kept → HasBase past result }
{
    match kept {
        Kept::Opened(base, shown) => Entry::Opened(blocks.image(base), blocks.image(shown)),
        Kept::Wrote(offset, part, is_sync, is_made) => {
            Entry::Wrote(offset, blocks.bytes(part), is_sync, is_made)
        }
        Kept::ResizedTo(len, is_made) => Entry::ResizedTo(len, is_made),
        Kept::SyncedWhole => Entry::Synced(true),
        Kept::SyncedAs(_) => Entry::Synced(true),
        Kept::SyncFailed => Entry::Synced(false),
    }
}

/// Makes of the file what the call makes of it, whole. It fails only when out of memory, and then the file is as it
/// was.
pub(crate) fn make_call(file: &mut Vec<u8>, blocks: &Blocks, kept: Kept) -> Result<(), AllocError>
    requires { HasItsBytes blocks.now kept }
    ensures ok { (past : List Call) → file.old.items ≡ content past
        → OnOk result (file.new.items ≡ content (call_in blocks.now past kept ∷ past)) }
    ensures err { OnErr result (file.new.items ≡ file.old.items) }
{
    match kept {
        Kept::Opened(_, image) | Kept::SyncedAs(image) => {
            *file = blocks.copy(image)?;
            Ok(())
        }
        Kept::Wrote(offset, part, _, _) => put_bytes(file, offset as usize, blocks.bytes(part)),
        Kept::ResizedTo(len, _) => set_length(file, len as usize),
        Kept::SyncedWhole | Kept::SyncFailed => Ok(()),
    }
}
