//! Logs of operations that may be read by places.

ghost use Rattle.std.specs.Prelude.{◌≡◌, ◌<◌, List, ℕ, length, map, IfOk, IfErr, OnOk};
ghost use Rattle.std.specs.List.{AllByRecursion};
ghost use Rattle.state_proofs.specs.declared.error.Error.{Error};
ghost use Rattle.state_proofs.specs.Requests.{AreAscending, at_places};

use crate::error::Error;
use merkle_forest::Family;
use merkle_forest::codec::Write;
use std::alloc::Global;

/// A log of operations, which are read at places. Contracts see the encodings of all of them, and why it refuses to
/// read some (own). In the Rust: `journal::contiguous::Contiguous`, of which it has two calls.
pub trait LogRead<F: Family> {
    /// What stands in the log.
    type Operation: Write;

    /// The encodings of the operations, the first one first.
    ghost operations: { Self → List (List ℕ) };

    /// Whether it refuses a read with this error.
    ghost refuses: { Self → Error F → Type 0 };

    /// How many operations there are. In the Rust: `Contiguous::size`.
    fn len(&self) -> u64
        ensures { result ≡ length (operations self.now) };

    /// The operations at ascending places. A place past the log is refused, and so may others be.
    /// In the Rust: `Contiguous::read_many`.
    fn read_many(&self, alloc: Global, places: &[u64]) -> Result<Vec<Self::Operation>, Error<F>>
        requires { AreAscending 0 places.now }
        ensures found { IfOk result (λ found. map Self.Operation.encoding found.items
            ≡ at_places (operations self.now) places.now) }
        ensures there { OnOk result (AllByRecursion (λ place. place < length (operations self.now)) places.now) }
        ensures refused { IfErr result (refuses self.now) };
}
