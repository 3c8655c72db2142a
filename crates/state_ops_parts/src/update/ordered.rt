//! Updates that name the next key.

ghost use Rattle.std.specs.Prelude.{◌≡◌, ◌+◌, ◌++◌, ◌⊎◌, ⊤, OnOk, OnErr};
ghost use Rattle.merkle_forest.specs.Codec.{Extends};
ghost use Rattle.state_ops_parts.specs.Grammar.{OrderedLacks, after_ordered};
ghost use Rattle.state_ops_parts.specs.Laws.Updates.{three_again, three_sized};

use crate::key::{FixedKey, Key};
use crate::update::{FixedUpdate, Parts, Update};
use crate::value::{FixedEncoding, FixedValue, ValueEncoding, VariableEncoding, VariableValue};
use merkle_forest::codec::{Cursor, EncodeSize, Error, Read, Write, or_undo};
use std::alloc::{AllocError, Global};

/// What an ordered update says: the key has this value, and the next key of the state follows it, or the first where
/// none does. In the Rust: `qmdb::any::operation::update::Ordered`.
#[derive(Debug, PartialEq, Eq, Drop)]
pub struct Ordered<K: Key, E: ValueEncoding> {
    /// The key.
    pub key: K,
    /// Its value.
    pub value: E::Value,
    /// The next key of the state, in cyclic order.
    pub next_key: K,
}

// Appends the fields. Out of memory, some of their bytes may have been appended.
fn write_fields<K: Key, E: ValueEncoding>(
    update: &Ordered<K, E>,
    out: &mut Vec<u8>,
) -> Result<(), AllocError>
    ensures ok { OnOk result (out.new.items ≡ out.old.items ++ (K.encoding update.now.key
        ++ (E.Value.encoding update.now.value ++ K.encoding update.now.next_key))) }
    ensures err { OnErr result (Extends out.old.items out.new.items) }
    ensures key { OnOk result (K.is_value update.now.key) }
    ensures value { OnOk result (E.Value.is_value update.now.value) }
    ensures next_key { OnOk result (K.is_value update.now.next_key) }
{
    update.key.write(out)?;
    update.value.write(out)?;
    update.next_key.write(out)
}

impl<K: Key, E: ValueEncoding> Write for Ordered<K, E> {
    ghost encoding = { λ u. K.encoding u.key ++ (E.Value.encoding u.value ++ K.encoding u.next_key) };

    ghost is_value = { λ u. K.is_value u.key × (E.Value.is_value u.value × K.is_value u.next_key) };

    fn write(&self, out: &mut Vec<u8>) -> Result<(), AllocError> {
        let start = out.len();
        or_undo(write_fields(self, out), out, start)
    }
}

impl<K: FixedKey, V: FixedValue> Read for Ordered<K, FixedEncoding<V>> {
    type Cfg = ();

    ghost after = { λ _ bytes. after_ordered (K.after tt) (V.after tt) bytes };

    ghost may_lack = { λ _ bytes. OrderedLacks (K.after tt) (V.after tt) (K.may_lack tt) (V.may_lack tt) bytes };

    ghost is_within = { λ _ _. ⊤ };

    fn read_cfg(
        alloc: Global,
        cursor: &mut Cursor<'_>,
        _cfg: &(),
    ) -> Result<Ordered<K, FixedEncoding<V>>, Error> {
        let key = K::read_cfg(alloc, cursor, &())?;
        let value = V::read_cfg(alloc, cursor, &())?;
        let next_key = K::read_cfg(alloc, cursor, &())?;
        Ok(Ordered {
            key,
            value,
            next_key,
        })
    }

    ghost read_again = { λ _ u rest value _.
        three_again (K.after tt) (V.after tt) (K.encoding u.key) (V.encoding u.value) (K.encoding u.next_key) rest
        (λ more. K.read_again tt u.key more value.0 (K.within u.key))
        (λ more. V.read_again tt u.value more value.1.0 (V.within u.value))
        (λ more. K.read_again tt u.next_key more value.1.1 (K.within u.next_key)) };
}

impl<K: Key + EncodeSize, V: VariableValue> EncodeSize for Ordered<K, VariableEncoding<V>> {
    fn encode_size(&self) -> usize {
        self.key.encode_size() + self.value.encode_size() + self.next_key.encode_size()
    }
}

impl<K: Key, V: VariableValue> Read for Ordered<K, VariableEncoding<V>> {
    type Cfg = (K::Cfg, V::Cfg);

    ghost after = { λ cfg bytes. after_ordered (K.after cfg.0) (V.after cfg.1) bytes };

    ghost may_lack = { λ cfg bytes.
        OrderedLacks (K.after cfg.0) (V.after cfg.1) (K.may_lack cfg.0) (V.may_lack cfg.1) bytes };

    ghost is_within = { λ cfg u. K.is_within cfg.0 u.key × (V.is_within cfg.1 u.value × K.is_within cfg.0 u.next_key) };

    fn read_cfg(
        alloc: Global,
        cursor: &mut Cursor<'_>,
        cfg: &(K::Cfg, V::Cfg),
    ) -> Result<Ordered<K, VariableEncoding<V>>, Error> {
        let key = K::read_cfg(alloc, cursor, &cfg.0)?;
        let value = V::read_cfg(alloc, cursor, &cfg.1)?;
        let next_key = K::read_cfg(alloc, cursor, &cfg.0)?;
        Ok(Ordered {
            key,
            value,
            next_key,
        })
    }

    ghost read_again = { λ cfg u rest value within.
        three_again (K.after cfg.0) (V.after cfg.1) (K.encoding u.key) (V.encoding u.value) (K.encoding u.next_key) rest
        (λ more. K.read_again cfg.0 u.key more value.0 within.0)
        (λ more. V.read_again cfg.1 u.value more value.1.0 within.1.0)
        (λ more. K.read_again cfg.0 u.next_key more value.1.1 within.1.1) };
}

impl<K: Key, E: ValueEncoding> Update for Ordered<K, E> {
    type Key = K;

    type Value = E::Value;

    type ValueEncoding = E;

    type Cached = K;

    ghost key_of = { λ u. u.key };

    ghost value_of = { λ u. u.value };

    ghost NeedsUpdate = { ⊤ };

    ghost caches = { λ u cached. K.encoding cached ≡ K.encoding u.next_key };

    fn key(&self) -> &K {
        &self.key
    }

    fn into_key(self) -> K {
        self.key
    }

    fn value(&self) -> &E::Value {
        &self.value
    }

    fn into_value(self) -> E::Value {
        self.value
    }

    fn cached_alike() -> Option<K> {
        None
    }

    fn cache(&self) -> Result<K, AllocError> {
        Ok(self.next_key.clone()?)
    }

    fn try_copy(&self) -> Result<Ordered<K, E>, AllocError> {
        Ok(Ordered {
            key: self.key.clone()?,
            value: self.value.clone()?,
            next_key: self.next_key.clone()?,
        })
    }
}

impl<K: Key, E: ValueEncoding> Parts for Ordered<K, E> {
    const SIBLINGS: bool = true;

    fn into_parts(self) -> (K, E::Value, K) {
        (self.key, self.value, self.next_key)
    }

    fn from_parts(key: K, value: E::Value, next_key: K) -> Ordered<K, E> {
        Ordered {
            key,
            value,
            next_key,
        }
    }
}

impl<K: FixedKey, V: FixedValue> FixedUpdate for Ordered<K, FixedEncoding<V>> {
    ghost UPDATE_SIZE = { K.SIZE + V.SIZE + K.SIZE };

    fn update_size() -> u128 {
        K::SIZE as u128 + V::SIZE as u128 + K::SIZE as u128
    }

    ghost update_sized = { λ u value. three_sized (K.encoding u.key) (V.encoding u.value) (K.encoding u.next_key) K.SIZE
        V.SIZE (K.sized u.key value.0) (V.sized u.value value.1.0) (K.sized u.next_key value.1.1) };

    ghost update_within = { λ _. tt };
}
