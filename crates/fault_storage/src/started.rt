//! Syncs that were started.

ghost use Rattle.std.specs.Prelude.{◌≡◌};

use crate::error::Error;

/// A sync that was started, which keeps its answer until it is finished. In the Rust a handle of a task that runs.
#[derive(Debug, Drop)]
pub struct StartedSync {
    answer: Result<(), Error>,
}

impl StartedSync {
    /// A sync that has this answer (own).
    pub fn new(answer: Result<(), Error>) -> StartedSync
        ensures { result ≡ record { answer = answer } }
    {
        StartedSync { answer }
    }

    /// Finishes the sync: its answer, which is a refusal where the sync that was started was refused.
    pub fn finish(self) -> Result<(), Error>
        ensures { result ≡ self.answer }
    {
        self.answer
    }
}
