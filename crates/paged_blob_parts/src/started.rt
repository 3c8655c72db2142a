//! Calls of a blob that were started: values that keep their answer until they are finished.

ghost use Rattle.std.specs.Prelude.{◌≡◌};

use crate::error::Error;

/// A sync that was started, which keeps its answer until it is finished. In the Rust a handle of a task that runs.
#[derive(Debug, Drop)]
pub struct StartedSync {
    answer: Result<(), Error>,
}

impl StartedSync {
    /// A sync that has this answer (own).
    pub fn new(answer: Result<(), Error>) -> StartedSync
        ensures { result ≡ record { answer = answer } }
    {
        StartedSync { answer }
    }

    /// Finishes the sync: its answer, which is a refusal where the sync that was started was refused.
    pub fn finish(self) -> Result<(), Error>
        ensures { result ≡ self.answer }
    {
        self.answer
    }
}

/// Reads that were started, which keep their answer until they are finished. In the Rust a handle of a task that runs.
#[derive(Debug, Drop)]
pub struct StartedReads {
    answer: Result<Vec<Vec<u8>>, Error>,
}

impl StartedReads {
    /// Reads that have this answer (own).
    pub fn new(answer: Result<Vec<Vec<u8>>, Error>) -> StartedReads
        ensures { result ≡ record { answer = answer } }
    {
        StartedReads { answer }
    }

    /// Finishes the reads: the bytes of each range, or the refusal of the first that was refused.
    pub fn finish(self) -> Result<Vec<Vec<u8>>, Error>
        ensures { result ≡ self.answer }
    {
        self.answer
    }
}
