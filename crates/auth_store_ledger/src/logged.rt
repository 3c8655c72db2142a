//! The operations of a log, read where they stand.

ghost use Rattle.std.specs.Prelude.{◌≡◌, ◌<◌, Some, length, slice_get, IfOk, IfErr, OnOk};
ghost use Rattle.state_ops.specs.Operation.{meaning_of};

use auth_store_index::LoggedValues;
use merkle_forest::Family;
use state_ops::{FixedKey, FixedValue, OrderedOperation};

/// What operations are read of by their locations, beside the values that they name (own).
pub trait LoggedOperations<F: Family, K: FixedKey, V: FixedValue>: LoggedValues<V> {
    /// The operation at a location of the log. It refuses as the log does.
    fn operation_at(&mut self, location: u64) -> Result<OrderedOperation<F, K, V>, Self::Error>
        requires may { Self.readable self.old }
        requires within { location < length (Self.log self.old) }
        ensures operation { IfOk result (λ operation. slice_get (Self.log self.old) location
            ≡ Some (meaning_of K.encoding V.encoding operation)) }
        ensures same { Self.log self.new ≡ Self.log self.old }
        ensures leads { OnOk result (Self.leads self.old self.new) }
        ensures refused { IfErr result (λ e. Self.refuses self.old self.new e) };
}
