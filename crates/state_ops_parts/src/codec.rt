//! The encodings of operations, by whether their values have a fixed size.

ghost use Rattle.std.specs.Prelude.{⊤, ◌≡◌, ◌++◌, ℕ, List, OnOk, OnErr, IfOk, Ok};
ghost use Rattle.state_ops_parts.specs.Operation as spec;
ghost use Rattle.state_ops_parts.specs.Grammar as grammar;
ghost use Rattle.state_ops_parts.specs.Laws.Encoded.{fixed_found_again, variable_found_again, both};
ghost use Rattle.std.proofs.Common.{ap};
ghost use Rattle.state_ops_parts.specs.declared.operation.Operation.{Operation};

use crate::key::{FixedKey, Key};
use crate::operation::Operation;
use crate::update::{FixedUpdate, Update};
use crate::value::{FixedEncoding, FixedValue, ValueEncoding, VariableEncoding, VariableValue};
use crate::{fixed, variable};
use merkle_forest::Family;
use merkle_forest::codec::{Cursor, Error, Read, Write};
use std::alloc::{AllocError, Global};

/// How operations over updates `S` are written and read.
/// In the Rust: `qmdb::any::operation::OperationCodec`.
pub trait OperationCodec<F: Family, S: Update>: ValueEncoding {
    /// What a reader is told. In the Rust: `qmdb::any::operation::OperationCodec::ReadCfg`.
    type ReadCfg;

    /// The bytes that encode an operation, from what it says.
    ghost spelled: { spec.Operation (List ℕ) → List ℕ };

    /// The operation at the front of the bytes and the bytes after it, or the first fault from the left.
    ghost found: { Self.ReadCfg → List ℕ → grammar.Found (spec.Operation (List ℕ)) };

    /// Holds where memory may be lacking for the operation at the front of the bytes.
    ghost operation_lacks: { Self.ReadCfg → List ℕ → Type 0 };

    /// Holds of the operations that are read under these limits.
    ghost operation_within: { Self.ReadCfg → Operation F S S.Key S.Value S.ValueEncoding S.Cached S.Key.Cfg S.Value.Cfg
        → Type 0 };

    /// Appends the operation's encoding. It fails only when out of memory, and `out` is then as it was.
    /// In the Rust: `qmdb::any::operation::OperationCodec::write_operation`, which never fails.
    fn write_operation(operation: &Operation<F, S>, out: &mut Vec<u8>) -> Result<(), AllocError>
        ensures ok { OnOk result (out.new.items ≡ out.old.items
            ++ spelled (spec.meaning_of S.Key.encoding S.Value.encoding S.encoding operation.now)) }
        ensures err { OnErr result (out.new.items ≡ out.old.items) }
        ensures value { OnOk result (spec.IsValue S.Key.is_value S.Value.is_value S.is_value operation.now) };

    /// The operation at the front, or the first fault from the left, or C8 where memory may be lacking.
    /// In the Rust: `qmdb::any::operation::OperationCodec::read_operation`.
    fn read_operation(
        alloc: Global,
        cursor: &mut Cursor<'_>,
        cfg: &Self::ReadCfg,
    ) -> Result<Operation<F, S>, Error>
        ensures read { grammar.ReadsAs (spec.meaning_of S.Key.encoding S.Value.encoding S.encoding)
            (λ o. spelled (spec.meaning_of S.Key.encoding S.Value.encoding S.encoding o)) cursor.old cursor.new
            (found cfg.now cursor.old) (operation_lacks cfg.now cursor.old) result }
        ensures value { IfOk result (spec.IsValue S.Key.is_value S.Value.is_value S.is_value) };

    /// What is written is found again, whatever follows it.
    ghost found_again: { (cfg : Self.ReadCfg)
        (operation : Operation F S S.Key S.Value S.ValueEncoding S.Cached S.Key.Cfg S.Value.Cfg) (rest : List ℕ)
        → spec.IsValue S.Key.is_value S.Value.is_value S.is_value operation → operation_within cfg operation
        → found cfg (spelled (spec.meaning_of S.Key.encoding S.Value.encoding S.encoding operation) ++ rest)
        ≡ Ok (spec.meaning_of S.Key.encoding S.Value.encoding S.encoding operation, rest) };
}

impl<F, K, V, S> OperationCodec<F, S> for FixedEncoding<V>
where
    F: Family,
    K: FixedKey,
    V: FixedValue,
    S: FixedUpdate<Key = K, Value = V, ValueEncoding = FixedEncoding<V>>,
{
    type ReadCfg = ();

    ghost spelled = { spec.fixed_encoding (λ bytes. bytes) K.SIZE V.SIZE S.UPDATE_SIZE };

    ghost found = { λ _ bytes.
        grammar.fixed_at (K.after tt) (V.after tt) (grammar.item_at (S.after tt)) K.SIZE V.SIZE S.UPDATE_SIZE bytes };

    ghost operation_lacks = { λ _ bytes. grammar.FixedLacks (K.may_lack tt) (V.may_lack tt) (S.may_lack tt)
        (spec.fixed_size K.SIZE V.SIZE S.UPDATE_SIZE) bytes };

    ghost operation_within = { λ _ o. spec.IsOperation (λ _. ⊤) (λ _. ⊤) (λ _. ⊤) o };

    fn write_operation(operation: &Operation<F, S>, out: &mut Vec<u8>) -> Result<(), AllocError> {
        fixed::write_operation(operation, out)
    }

    fn read_operation(
        alloc: Global,
        cursor: &mut Cursor<'_>,
        _cfg: &(),
    ) -> Result<Operation<F, S>, Error> {
        fixed::read_operation(alloc, cursor)
    }

    ghost found_again = { λ _ o rest is within.
        fixed_found_again K.encoding V.encoding S.encoding (K.after tt) (V.after tt) (S.after tt)
        (λ k. K.is_value k × ⊤) (λ v. V.is_value v × ⊤) (λ u. S.is_value u × ⊤)
        (λ k value more. K.read_again tt k more value.0 (K.within k))
        (λ v value more. V.read_again tt v more value.0 (V.within v))
        (λ u value more. S.read_again tt u more value.0 (S.update_within u))
        K.SIZE V.SIZE S.UPDATE_SIZE (λ k value. K.sized k value.0) (λ v value. V.sized v value.0)
        (λ u value. S.update_sized u value.0) o rest
        (both K.is_value (λ _. ⊤) V.is_value (λ _. ⊤) S.is_value (λ _. ⊤) o is within) };
}

impl<F, K, V, S> OperationCodec<F, S> for VariableEncoding<V>
where
    F: Family,
    K: Key,
    V: VariableValue,
    S: Update<Key = K, Value = V, ValueEncoding = VariableEncoding<V>>
        + Read<Cfg = (K::Cfg, V::Cfg)>,
{
    type ReadCfg = (K::Cfg, V::Cfg);

    ghost spelled = { spec.variable_encoding (λ bytes. bytes) };

    ghost found = { λ cfg bytes.
        grammar.variable_at (K.after cfg.0) (V.after cfg.1) (grammar.item_at (S.after cfg)) bytes };

    ghost operation_lacks = { λ cfg bytes.
        grammar.OperationLacks (K.may_lack cfg.0) (V.may_lack cfg.1) (S.may_lack cfg) bytes };

    ghost operation_within = { λ cfg o. spec.IsOperation (K.is_within cfg.0) (V.is_within cfg.1) (S.is_within cfg) o };

    fn write_operation(operation: &Operation<F, S>, out: &mut Vec<u8>) -> Result<(), AllocError> {
        variable::write_operation(operation, out)
    }

    fn read_operation(
        alloc: Global,
        cursor: &mut Cursor<'_>,
        cfg: &(K::Cfg, V::Cfg),
    ) -> Result<Operation<F, S>, Error> {
        variable::read_operation(alloc, cursor, cfg)
    }

    ghost found_again = { λ cfg o rest is within.
        variable_found_again K.encoding V.encoding S.encoding (K.after cfg.0) (V.after cfg.1) (S.after cfg)
        (λ k. K.is_value k × K.is_within cfg.0 k) (λ v. V.is_value v × V.is_within cfg.1 v)
        (λ u. S.is_value u × S.is_within cfg u)
        (λ k value more. K.read_again cfg.0 k more value.0 value.1)
        (λ v value more. V.read_again cfg.1 v more value.0 value.1)
        (λ u value more. S.read_again cfg u more value.0 value.1) o rest
        (both K.is_value (K.is_within cfg.0) V.is_value (V.is_within cfg.1) S.is_value (S.is_within cfg) o is within) };
}

impl<F: Family, S: Update> Write for Operation<F, S>
where
    S::ValueEncoding: OperationCodec<F, S>,
{
    ghost encoding = { λ o. S.ValueEncoding.spelled (spec.meaning_of S.Key.encoding S.Value.encoding S.encoding o) };

    ghost is_value = { λ o. spec.IsValue S.Key.is_value S.Value.is_value S.is_value o };

    fn write(&self, out: &mut Vec<u8>) -> Result<(), AllocError> {
        S::ValueEncoding::write_operation(self, out)
    }
}

impl<F: Family, S: Update> Read for Operation<F, S>
where
    S::ValueEncoding: OperationCodec<F, S>,
{
    type Cfg = <S::ValueEncoding as OperationCodec<F, S>>::ReadCfg;

    ghost after = { λ cfg bytes. grammar.after_found (S.ValueEncoding.found cfg bytes) };

    ghost may_lack = { λ cfg bytes. S.ValueEncoding.operation_lacks cfg bytes };

    ghost is_within = { λ cfg o. S.ValueEncoding.operation_within cfg o };

    fn read_cfg(
        alloc: Global,
        cursor: &mut Cursor<'_>,
        cfg: &<S::ValueEncoding as OperationCodec<F, S>>::ReadCfg,
    ) -> Result<Operation<F, S>, Error> {
        S::ValueEncoding::read_operation(alloc, cursor, cfg)
    }

    ghost read_again = { λ cfg o rest is within.
        ap grammar.after_found (S.ValueEncoding.found_again cfg o rest is within) };
}
