//! Operations read from their variable encoding.

ghost use Rattle.std.specs.Prelude.{◌≡◌, ◌≤◌, ◌^◌, option_map, IfOk, IfSome};
ghost use Rattle.merkle_forest.specs.Codec.{OptionLacks, option_encoding};
ghost use Rattle.merkle_forest.specs.Varint.{varint};
ghost use Rattle.state_ops_parts.specs.Operation as spec;
ghost use Rattle.state_ops_parts.specs.Grammar as grammar;

use crate::key::Key;
use crate::operation::{COMMIT_CONTEXT, DELETE_CONTEXT, Operation, UPDATE_CONTEXT};
use crate::update::Update;
use crate::value::VariableValue;
use merkle_forest::codec::{Cursor, Error, Read};
use merkle_forest::{Family, Location};
use std::alloc::Global;

/// Reads the metadata of a commit.
fn read_metadata<V: VariableValue>(
    alloc: Global,
    cursor: &mut Cursor<'_>,
    cfg: &V::Cfg,
) -> Result<Option<V>, Error>
    ensures read { grammar.ReadsAs (option_map V.encoding) (option_encoding V.encoding) cursor.old cursor.new
        (grammar.option_at (V.after cfg.now) cursor.old) (OptionLacks (V.may_lack cfg.now) cursor.old) result }
    ensures value { IfOk result (λ m. IfSome m V.is_value) }
{
    Option::read_cfg(alloc, cursor, cfg)
}

/// Reads the floor of a commit. Past the greatest number of operations: C7.
fn read_floor<F: Family>(alloc: Global, cursor: &mut Cursor<'_>) -> Result<Location<F>, Error>
    ensures read { grammar.ReadsAs (λ n. n) varint cursor.old cursor.new (grammar.floor_at cursor.old) ⊥ result }
    ensures value { IfOk result (λ floor. floor ≤ 2 ^ 62) }
{
    Location::read_cfg(alloc, cursor, &())
}

/// The operation at the front, or the first fault from the left: no byte is C1, another tag C5, a flag that is neither
/// 0 nor 1 C4, a floor in a long spelling C3 and one past the greatest number of operations C7; what a key, a value or
/// an update is refused for; out of memory is C8, only where one of these that stands there may take memory. After a
/// refusal the cursor's position is open.
/// In the Rust: `qmdb::any::operation::OperationCodec::read_operation` of `VariableEncoding`.
pub fn read_operation<F, K, V, S>(
    alloc: Global,
    cursor: &mut Cursor<'_>,
    cfg: &(K::Cfg, V::Cfg),
) -> Result<Operation<F, S>, Error>
where
    F: Family,
    K: Key,
    V: VariableValue,
    S: Update<Key = K, Value = V> + Read<Cfg = (K::Cfg, V::Cfg)>,
    ensures read { grammar.ReadsAs (spec.meaning_of K.encoding V.encoding S.encoding)
        (λ o. spec.variable_encoding (λ bytes. bytes) (spec.meaning_of K.encoding V.encoding S.encoding o))
        cursor.old cursor.new
        (grammar.variable_at (K.after cfg.now.0) (V.after cfg.now.1) (grammar.item_at (S.after cfg.now)) cursor.old)
        (grammar.OperationLacks (K.may_lack cfg.now.0) (V.may_lack cfg.now.1) (S.may_lack cfg.now) cursor.old) result }
    ensures value { IfOk result (spec.IsValue K.is_value V.is_value S.is_value) }
{
    match cursor.take(1)? {
        [DELETE_CONTEXT] => Ok(Operation::Delete(K::read_cfg(alloc, cursor, &cfg.0)?)),
        [UPDATE_CONTEXT] => Ok(Operation::Update(S::read_cfg(alloc, cursor, cfg)?)),
        [COMMIT_CONTEXT] => {
            let metadata = read_metadata(alloc, cursor, &cfg.1)?;
            let floor = read_floor(alloc, cursor)?;
            Ok(Operation::CommitFloor(metadata, floor))
        }
        tag => Err(Error::InvalidEnum(tag[0])),
    }
}
