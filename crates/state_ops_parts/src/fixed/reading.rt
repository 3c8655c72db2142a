//! Operations read from their fixed encoding.

ghost use Rattle.std.specs.Prelude.{◌≡◌, [], replicate, length, option_map, nat_eq, IfOk, IfSome, Ok, Err, MatchResult};
ghost use Rattle.std.specs.Prelude.{◌≤◌, ◌^◌};
ghost use Rattle.std.specs.Int.{w64, to_be_bytes};
ghost use Rattle.std.specs.List.{list_all};
ghost use Rattle.merkle_forest.specs.Codec.{Reads, OptionLacks};
ghost use Rattle.state_ops_parts.specs.Operation as spec;
ghost use Rattle.state_ops_parts.specs.Grammar as grammar;

use super::fixed_size;
use crate::key::FixedKey;
use crate::operation::{COMMIT_CONTEXT, DELETE_CONTEXT, Operation, UPDATE_CONTEXT};
use crate::update::FixedUpdate;
use crate::value::FixedValue;
use merkle_forest::codec::{Cursor, Error, FixedSize, Read};
use merkle_forest::{Family, Location, MAX_LEAVES};
use std::alloc::Global;

/// Whether all bytes are zeros.
fn are_zeros(bytes: &[u8]) -> bool
    ensures { result ≡ list_all (λ byte. nat_eq byte 0) bytes.now }
{
    bytes.iter().all(|byte| *byte == 0)
}

/// Checks that all bytes are zeros. Where one isn't: C7.
#[tactic(auto, using(crate::proofs::Zeros::zeros_all, crate::proofs::Zeros::zeros_not_all))]
fn check_zeros(bytes: &[u8]) -> Result<(), Error>
    ensures { MatchResult result (λ _. grammar.after_zeros bytes.now ≡ Ok [])
        (λ e. (e ≡ Error.Invalid) × (grammar.after_zeros bytes.now ≡ Err Error.Invalid)) }
{
    if are_zeros(bytes) {
        Ok(())
    } else {
        Err(Error::Invalid)
    }
}

/// Reads the zeros that stand in place of a value.
fn read_absent<V: FixedValue>(cursor: &mut Cursor<'_>) -> Result<(), Error>
    ensures { Reads (λ _. replicate V.SIZE 0) cursor.old cursor.new (grammar.after_absent V.SIZE cursor.old) ⊥ result }
{
    let bytes = cursor.take(V::SIZE)?;
    check_zeros(bytes)
}

/// Reads the metadata of a commit.
fn read_metadata<V: FixedValue>(alloc: Global, cursor: &mut Cursor<'_>) -> Result<Option<V>, Error>
    ensures read { grammar.ReadsAs (option_map V.encoding) (λ m. spec.fixed_metadata V.SIZE (option_map V.encoding m))
        cursor.old cursor.new (grammar.fixed_metadata_at (V.after tt) V.SIZE cursor.old)
        (OptionLacks (V.may_lack tt) cursor.old) result }
    ensures value { IfOk result (λ m. IfSome m V.is_value) }
{
    match cursor.take(1)? {
        [0] => {
            read_absent::<V>(cursor)?;
            Ok(None)
        }
        [1] => Ok(Some(V::read_cfg(alloc, cursor, &())?)),
        _ => Err(Error::InvalidBool),
    }
}

/// Reads the floor of a commit. Past the greatest number of operations: C7.
fn read_floor<F: Family>(alloc: Global, cursor: &mut Cursor<'_>) -> Result<Location<F>, Error>
    ensures read { grammar.ReadsAs (λ n. n) (λ n. to_be_bytes w64 n) cursor.old cursor.new
        (grammar.fixed_floor_at cursor.old) ⊥ result }
    ensures value { IfOk result (λ floor. floor ≤ 2 ^ 62) }
{
    let floor = u64::read_cfg(alloc, cursor, &())?;
    if floor > MAX_LEAVES {
        return Err(Error::Invalid);
    }
    Ok(Location::new(floor))
}

/// Reads an operation without its padding.
fn read_unpadded<F, K, V, S>(
    alloc: Global,
    cursor: &mut Cursor<'_>,
) -> Result<Operation<F, S>, Error>
where
    F: Family,
    K: FixedKey,
    V: FixedValue,
    S: FixedUpdate<Key = K, Value = V>,
    ensures read { grammar.ReadsAs (spec.meaning_of K.encoding V.encoding S.encoding)
        (λ o. spec.unpadded (λ bytes. bytes) V.SIZE (spec.meaning_of K.encoding V.encoding S.encoding o))
        cursor.old cursor.new
        (grammar.unpadded_at (K.after tt) (V.after tt) (grammar.item_at (S.after tt)) V.SIZE cursor.old)
        (grammar.OperationLacks (K.may_lack tt) (V.may_lack tt) (S.may_lack tt) cursor.old) result }
    ensures value { IfOk result (spec.IsValue K.is_value V.is_value S.is_value) }
{
    match cursor.take(1)? {
        [DELETE_CONTEXT] => Ok(Operation::Delete(K::read_cfg(alloc, cursor, &())?)),
        [UPDATE_CONTEXT] => Ok(Operation::Update(S::read_cfg(alloc, cursor, &())?)),
        [COMMIT_CONTEXT] => {
            let metadata = read_metadata(alloc, cursor)?;
            let floor = read_floor(alloc, cursor)?;
            Ok(Operation::CommitFloor(metadata, floor))
        }
        tag => Err(Error::InvalidEnum(tag[0])),
    }
}

/// Reads an operation of the fixed size and its padding, which are all of the bytes.
fn read_padded<F, K, V, S>(alloc: Global, bytes: &[u8]) -> Result<Operation<F, S>, Error>
where
    F: Family,
    K: FixedKey,
    V: FixedValue,
    S: FixedUpdate<Key = K, Value = V>,
    requires { length bytes.now ≡ spec.fixed_size K.SIZE V.SIZE S.UPDATE_SIZE }
    ensures read { grammar.ReadsAs (spec.meaning_of K.encoding V.encoding S.encoding)
        (λ o. spec.fixed_encoding (λ bytes. bytes) K.SIZE V.SIZE S.UPDATE_SIZE
        (spec.meaning_of K.encoding V.encoding S.encoding o)) bytes.now []
        (grammar.padded_at (K.after tt) (V.after tt) (grammar.item_at (S.after tt)) V.SIZE bytes.now)
        (grammar.OperationLacks (K.may_lack tt) (V.may_lack tt) (S.may_lack tt) bytes.now) result }
    ensures value { IfOk result (spec.IsValue K.is_value V.is_value S.is_value) }
{
    let mut cursor = Cursor::new(bytes);
    let operation = read_unpadded(alloc, &mut cursor)?;
    let padding = cursor.take(cursor.remaining())?;
    check_zeros(padding)?;
    Ok(operation)
}

/// The operation at the front, or the first fault from the left: fewer bytes than its size are C1, another tag C5, a
/// flag that is neither 0 nor 1 C4; a byte of padding or of absent metadata that isn't zero and a floor past the
/// greatest number of operations are C7; out of memory is C8, only where a key, a value or an update that stands there
/// may take memory. After a refusal the cursor's position is open.
/// In the Rust: `qmdb::any::operation::OperationCodec::read_operation` of `FixedEncoding`.
pub fn read_operation<F, K, V, S>(
    alloc: Global,
    cursor: &mut Cursor<'_>,
) -> Result<Operation<F, S>, Error>
where
    F: Family,
    K: FixedKey,
    V: FixedValue,
    S: FixedUpdate<Key = K, Value = V>,
    ensures read { grammar.ReadsAs (spec.meaning_of K.encoding V.encoding S.encoding)
        (λ o. spec.fixed_encoding (λ bytes. bytes) K.SIZE V.SIZE S.UPDATE_SIZE
        (spec.meaning_of K.encoding V.encoding S.encoding o)) cursor.old cursor.new
        (grammar.fixed_at (K.after tt) (V.after tt) (grammar.item_at (S.after tt)) K.SIZE V.SIZE S.UPDATE_SIZE
        cursor.old)
        (grammar.FixedLacks (K.may_lack tt) (V.may_lack tt) (S.may_lack tt)
        (spec.fixed_size K.SIZE V.SIZE S.UPDATE_SIZE) cursor.old) result }
    ensures value { IfOk result (spec.IsValue K.is_value V.is_value S.is_value) }
{
    let size = fixed_size::<K, V, S>();
    if (cursor.remaining() as u128) < size {
        return Err(Error::EndOfBuffer);
    }
    let bytes = cursor.take(size as usize)?;
    read_padded(alloc, bytes)
}
