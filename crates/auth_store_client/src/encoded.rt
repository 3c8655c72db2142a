//! Encodings of a claim's operations.

ghost use Rattle.std.specs.List.{AllByRecursion};
ghost use Rattle.std.specs.Prelude.{◌≡◌, map, IfOk, OnOk};
ghost use Rattle.state_ops.specs.Operation.{fixed_encoding, meaning_of};
ghost use Rattle.state_ops.specs.Reading.{IsField, IsOfFields};

use merkle_forest::Family;
use state_ops::ordered::encode;
use state_ops::{FixedKey, FixedValue, OrderedOperation};
use std::alloc::{AllocError, Global};

// The encodings of operations: then their keys and values have their sizes and are read again. It fails only when out
// of memory.
pub(crate) fn encodings<F: Family, K: FixedKey, V: FixedValue>(
    alloc: Global,
    operations: &[OrderedOperation<F, K, V>],
) -> Result<Vec<Vec<u8>>, AllocError>
    ensures encoded { IfOk result (λ found. map (λ e. e.items) found.items
        ≡ map (fixed_encoding K.SIZE V.SIZE) (map (meaning_of K.encoding V.encoding) operations.now)) }
    ensures fields { OnOk result (AllByRecursion (IsOfFields (IsField (K.after tt) K.SIZE)
        (IsField (V.after tt) V.SIZE)) (map (meaning_of K.encoding V.encoding) operations.now)) }
{
    let mut found = Vec::new(alloc);
    for operation in operations {
        let bytes = encode(alloc, operation)?;
        found.push(bytes)?;
    }
    Ok(found)
}

// The bytes of each, lent. It fails only when out of memory.
pub(crate) fn lent<'a>(alloc: Global, encodings: &'a [Vec<u8>]) -> Result<Vec<&'a [u8]>, AllocError>
    ensures { IfOk result (λ found. map (λ e. e.now) found.items ≡ map (λ e. e.items) encodings.now) }
{
    let mut found: Vec<&'a [u8]> = Vec::new(alloc);
    let mut rest = encodings;
    while let [encoding, later @ ..] = rest {
        found.push(encoding)?;
        rest = later;
    }
    Ok(found)
}
