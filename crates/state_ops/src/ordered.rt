//! Ordered operations of one size, those of the store.

ghost use Rattle.std.specs.Prelude.{◌≡◌, IfOk, OnOk};
ghost use Rattle.state_ops_parts.specs.Grammar.{ReadsAs};
ghost use Rattle.state_ops.specs.Operation as spec;
ghost use Rattle.state_ops.specs.Reading.{IsField, IsOfFields, OperationLacks, operation_at};

pub mod laws;

use merkle_forest::Family;
use merkle_forest::codec::{Cursor, Error};
use state_ops_parts::fixed::{read_operation, write_operation};
use state_ops_parts::key::FixedKey;
use state_ops_parts::value::{FixedEncoding, FixedValue};
use state_ops_parts::{operation, update};
use std::alloc::{AllocError, Global};

/// What an update says that names the next key, of keys and values of one size.
/// In the Rust: `qmdb::any::ordered::fixed::Update`.
pub type OrderedUpdate<K, V> = update::Ordered<K, FixedEncoding<V>>;

/// An operation over such updates. In the Rust: `qmdb::any::ordered::fixed::Operation`.
pub type OrderedOperation<F, K, V> = operation::Ordered<F, K, FixedEncoding<V>>;

/// The bytes of the operation's fixed encoding: then its keys and values have their sizes and are read again. It fails
/// only when out of memory.
/// In the Rust: `commonware_codec::Encode::encode` of such an operation, which never fails.
pub fn encode<F: Family, K: FixedKey, V: FixedValue>(
    alloc: Global,
    operation: &OrderedOperation<F, K, V>,
) -> Result<Vec<u8>, AllocError>
    ensures bytes { IfOk result (λ v. v.items
        ≡ spec.fixed_encoding K.SIZE V.SIZE (spec.meaning_of K.encoding V.encoding operation.now)) }
    ensures fields { OnOk result (IsOfFields (IsField (K.after tt) K.SIZE) (IsField (V.after tt) V.SIZE)
        (spec.meaning_of K.encoding V.encoding operation.now)) }
{
    let mut out = Vec::new(alloc);
    write_operation(operation, &mut out)?;
    Ok(out)
}

/// The operation at the front, or the first fault from the left, as `fixed::read_operation` names it: fewer bytes than
/// its size are C1, another tag C5, a flag that is neither 0 nor 1 C4; a byte of padding or of absent metadata that
/// isn't zero and a floor past the greatest number of operations are C7; out of memory is C8, only where a key or a
/// value that stands there may take memory. What is read has keys and values of their sizes, which are read again.
/// After a refusal the cursor's position is open.
/// In the Rust: `commonware_codec::Read::read_cfg` of such an operation.
pub fn read<F: Family, K: FixedKey, V: FixedValue>(
    alloc: Global,
    cursor: &mut Cursor<'_>,
) -> Result<OrderedOperation<F, K, V>, Error>
    ensures read { ReadsAs (spec.meaning_of K.encoding V.encoding)
        (λ o. spec.fixed_encoding K.SIZE V.SIZE (spec.meaning_of K.encoding V.encoding o)) cursor.old cursor.new
        (operation_at (K.after tt) (V.after tt) K.SIZE V.SIZE cursor.old)
        (OperationLacks (K.after tt) (V.after tt) (K.may_lack tt) (V.may_lack tt) K.SIZE V.SIZE cursor.old) result }
    ensures fields { IfOk result (λ o. IsOfFields (IsField (K.after tt) K.SIZE) (IsField (V.after tt) V.SIZE)
        (spec.meaning_of K.encoding V.encoding o)) }
{
    read_operation(alloc, cursor)
}
