//! Copies of operations.

ghost use Rattle.std.specs.Prelude.{◌≡◌, IfOk};
ghost use Rattle.state_ops_parts.specs.Operation as spec;

use crate::operation::Operation;
use crate::update::Update;
use merkle_forest::Family;
use std::alloc::AllocError;

impl<F: Family, S: Update> Operation<F, S> {
    /// An operation that says the same. It fails only when out of memory.
    /// In the Rust: `Clone::clone`, which never fails.
    pub fn try_copy(&self) -> Result<Operation<F, S>, AllocError>
        ensures same { IfOk result (λ copy. spec.meaning_of S.Key.encoding S.Value.encoding S.encoding copy
            ≡ spec.meaning_of S.Key.encoding S.Value.encoding S.encoding self.now) }
        ensures fields { IfOk result (λ copy. spec.fields_of S.Key.encoding S.Value.encoding S.key_of S.value_of copy
            ≡ spec.fields_of S.Key.encoding S.Value.encoding S.key_of S.value_of self.now) }
    {
        match self {
            Operation::Delete(key) => Ok(Operation::Delete(key.clone()?)),
            Operation::Update(update) => Ok(Operation::Update(update.try_copy()?)),
            Operation::CommitFloor(None, floor) => Ok(Operation::CommitFloor(None, *floor)),
            Operation::CommitFloor(Some(value), floor) => {
                Ok(Operation::CommitFloor(Some(value.clone()?), *floor))
            }
        }
    }
}
