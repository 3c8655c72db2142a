//! The files of a store, found by their numbers.

ghost use Rattle.std.specs.Prelude.{◌≡◌, false, MatchOption};
ghost use Rattle.std.specs.List.{list_any};

use crate::blob_file::BlobFile;
use crate::opens::BlobName;

/// A file under its name, with the number that no other file of its store has or had.
#[derive(Debug, Drop)]
pub struct StoredFile {
    /// The name.
    pub name: BlobName,
    /// The number.
    pub number: u64,
    /// The file.
    pub file: BlobFile,
}

impl StoredFile {
    ghost use Rattle.fault_storage.specs.Stores.{has_number};

    // Whether it has this number.
    fn has_number(&self, number: u64) -> bool
        ensures { result ≡ has_number number self.now }
    {
        self.number == number
    }
}
