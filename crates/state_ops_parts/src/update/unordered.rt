//! Updates that name no other key.

ghost use Rattle.std.specs.Prelude.{◌≡◌, ◌+◌, ◌++◌, ⊤, OnOk, OnErr};
ghost use Rattle.merkle_forest.specs.Codec.{Extends};
ghost use Rattle.state_ops_parts.specs.Grammar.{UnorderedLacks, after_unordered};
ghost use Rattle.state_ops_parts.specs.Laws.Updates.{two_again, two_sized};

use crate::key::{FixedKey, Key};
use crate::update::{FixedUpdate, Parts, Update};
use crate::value::{FixedEncoding, FixedValue, ValueEncoding, VariableEncoding, VariableValue};
use merkle_forest::codec::{Cursor, EncodeSize, Error, Read, Write, or_undo};
use std::alloc::{AllocError, Global};

/// What an unordered update says: the key has this value.
/// In the Rust: `qmdb::any::operation::update::Unordered`.
#[derive(Debug, PartialEq, Eq, Drop)]
pub struct Unordered<K: Key, E: ValueEncoding>(pub K, pub E::Value);

// Appends the fields. Out of memory, some of their bytes may have been appended.
fn write_fields<K: Key, E: ValueEncoding>(
    update: &Unordered<K, E>,
    out: &mut Vec<u8>,
) -> Result<(), AllocError>
    ensures ok { OnOk result (out.new.items ≡ out.old.items ++ (K.encoding update.now.0
        ++ E.Value.encoding update.now.1)) }
    ensures err { OnErr result (Extends out.old.items out.new.items) }
    ensures key { OnOk result (K.is_value update.now.0) }
    ensures value { OnOk result (E.Value.is_value update.now.1) }
{
    update.0.write(out)?;
    update.1.write(out)
}

impl<K: Key, E: ValueEncoding> Write for Unordered<K, E> {
    ghost encoding = { λ u. K.encoding u.0 ++ E.Value.encoding u.1 };

    ghost is_value = { λ u. K.is_value u.0 × E.Value.is_value u.1 };

    fn write(&self, out: &mut Vec<u8>) -> Result<(), AllocError> {
        let start = out.len();
        or_undo(write_fields(self, out), out, start)
    }
}

impl<K: FixedKey, V: FixedValue> Read for Unordered<K, FixedEncoding<V>> {
    type Cfg = ();

    ghost after = { λ _ bytes. after_unordered (K.after tt) (V.after tt) bytes };

    ghost may_lack = { λ _ bytes. UnorderedLacks (K.after tt) (K.may_lack tt) (V.may_lack tt) bytes };

    ghost is_within = { λ _ _. ⊤ };

    fn read_cfg(
        alloc: Global,
        cursor: &mut Cursor<'_>,
        _cfg: &(),
    ) -> Result<Unordered<K, FixedEncoding<V>>, Error> {
        let key = K::read_cfg(alloc, cursor, &())?;
        let value = V::read_cfg(alloc, cursor, &())?;
        Ok(Unordered(key, value))
    }

    ghost read_again = { λ _ u rest value _.
        two_again (K.after tt) (V.after tt) (K.encoding u.0) (V.encoding u.1) rest
        (λ more. K.read_again tt u.0 more value.0 (K.within u.0))
        (λ more. V.read_again tt u.1 more value.1 (V.within u.1)) };
}

impl<K: Key + EncodeSize, V: VariableValue> EncodeSize for Unordered<K, VariableEncoding<V>> {
    fn encode_size(&self) -> usize {
        self.0.encode_size() + self.1.encode_size()
    }
}

impl<K: Key, V: VariableValue> Read for Unordered<K, VariableEncoding<V>> {
    type Cfg = (K::Cfg, V::Cfg);

    ghost after = { λ cfg bytes. after_unordered (K.after cfg.0) (V.after cfg.1) bytes };

    ghost may_lack = { λ cfg bytes. UnorderedLacks (K.after cfg.0) (K.may_lack cfg.0) (V.may_lack cfg.1) bytes };

    ghost is_within = { λ cfg u. K.is_within cfg.0 u.0 × V.is_within cfg.1 u.1 };

    fn read_cfg(
        alloc: Global,
        cursor: &mut Cursor<'_>,
        cfg: &(K::Cfg, V::Cfg),
    ) -> Result<Unordered<K, VariableEncoding<V>>, Error> {
        let key = K::read_cfg(alloc, cursor, &cfg.0)?;
        let value = V::read_cfg(alloc, cursor, &cfg.1)?;
        Ok(Unordered(key, value))
    }

    ghost read_again = { λ cfg u rest value within.
        two_again (K.after cfg.0) (V.after cfg.1) (K.encoding u.0) (V.encoding u.1) rest
        (λ more. K.read_again cfg.0 u.0 more value.0 within.0)
        (λ more. V.read_again cfg.1 u.1 more value.1 within.1) };
}

impl<K: Key, E: ValueEncoding> Update for Unordered<K, E> {
    type Key = K;

    type Value = E::Value;

    type ValueEncoding = E;

    type Cached = ();

    ghost key_of = { λ u. u.0 };

    ghost value_of = { λ u. u.1 };

    ghost NeedsUpdate = { ⊥ };

    ghost caches = { λ _ _. ⊤ };

    fn key(&self) -> &K {
        &self.0
    }

    fn into_key(self) -> K {
        self.0
    }

    fn value(&self) -> &E::Value {
        &self.1
    }

    fn into_value(self) -> E::Value {
        self.1
    }

    fn cached_alike() -> Option<()> {
        Some(())
    }

    fn cache(&self) -> Result<(), AllocError> {
        Ok(())
    }

    fn try_copy(&self) -> Result<Unordered<K, E>, AllocError> {
        Ok(Unordered(self.0.clone()?, self.1.clone()?))
    }
}

impl<K: Key, E: ValueEncoding> Parts for Unordered<K, E> {
    const SIBLINGS: bool = false;

    fn into_parts(self) -> (K, E::Value, ()) {
        (self.0, self.1, ())
    }

    fn from_parts(key: K, value: E::Value, _cached: ()) -> Unordered<K, E> {
        Unordered(key, value)
    }
}

impl<K: FixedKey, V: FixedValue> FixedUpdate for Unordered<K, FixedEncoding<V>> {
    ghost UPDATE_SIZE = { K.SIZE + V.SIZE };

    fn update_size() -> u128 {
        K::SIZE as u128 + V::SIZE as u128
    }

    ghost update_sized = { λ u value. two_sized (K.encoding u.0) (V.encoding u.1) K.SIZE V.SIZE (K.sized u.0 value.0)
        (V.sized u.1 value.1) };

    ghost update_within = { λ _. tt };
}
