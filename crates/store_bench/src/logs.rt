//! A log to which bytes are appended as a commit appends them: what a commit costs beside them is its own work.

ghost use Rattle.std.specs.Prelude.{◌≡◌, [], length, IsFalse};
ghost use Rattle.paged_blob_parts.specs.Calls.{content, file_of};

use auth_store_log::append_batch;
use auth_store_session::Sizes;
use fault_storage::Checksum;
use paged_blob::{Blob, CacheRef, Error, Writer};
use std::alloc::Global;
use std::marker::Model;

/// A log on a blob, which takes no more bytes once an append was refused. Contracts see nothing of it.
#[derive(Drop)]
pub struct Log<B: Blob, C: Checksum> {
    writer: Option<Writer<C>>,
    blob: B,
    cache: CacheRef,
}

impl<B: Blob, C: Checksum> Model for Log<B, C> {
    ghost use Rattle.std.specs.Prelude.{◌≡◌, ⊤, IfSome};
    ghost use Rattle.paged_blob_parts.specs.Writers.{IsWriter};
    ghost use Rattle.paged_format.specs.Footers.{content_size};

    ghost Value = { ⊤ };

    ghost view = { λ _. tt };

    ghost invariant = { λ l. IfSome l.writer (λ w. IsWriter C.checksum_of (B.calls l.blob) w
        × (l.cache.page_size ≡ content_size w.page_size)) };
}

impl<B: Blob + Drop, C: Checksum> Log<B, C> {
    /// Begins the log in an empty blob, with pages and a buffer as those of a store.
    pub fn begin(alloc: Global, blob: B) -> Result<Log<B, C>, Error>
        requires sound { IsFalse (file_of (B.calls blob)).failed }
        requires settled { (file_of (B.calls blob)).changes ≡ [] }
        requires empty { 0 ≡ length (content (B.calls blob)) }
    {
        let mut blob = blob;
        let mut cache = CacheRef::new(alloc, 4084, 1024);
        let buffer = Sizes::default().write_buffer;
        let writer = Writer::new(alloc, &mut blob, &mut cache, 0, buffer)?;
        Ok(Log {
            writer: Some(writer),
            blob,
            cache,
        })
    }

    /// Appends the bytes durably: 1, or 0 where that is refused.
    pub fn append(&mut self, bytes: &[u8]) -> u64 {
        let Some(writer) = self.writer.take() else {
            return 0;
        };
        match append_batch(writer, &mut self.blob, &mut self.cache, bytes) {
            Ok(writer) => {
                self.writer = Some(writer);
                1
            }
            Err(_) => 0,
        }
    }
}
