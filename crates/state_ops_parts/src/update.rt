//! Updates: what an operation says of a key and its value.

ghost use Rattle.std.specs.Prelude.{◌≡◌, ◌<◌, ◌^◌, ℕ, List, length, IfOk, MatchOption};

pub mod ordered;
pub mod unordered;

use crate::key::Key;
use crate::value::ValueEncoding;
use merkle_forest::codec::{Faithful, Read, Write};
pub use ordered::Ordered;
use std::alloc::AllocError;
pub use unordered::Unordered;

/// An update of a key's value. In the Rust: `qmdb::any::operation::update::Update`.
pub trait Update: Write {
    /// The key.
    type Key: Key;

    /// The value.
    type Value: Read + Faithful;

    /// Whether the value's encoding has a fixed size.
    type ValueEncoding: ValueEncoding<Value = Self::Value>;

    /// What is kept of an update beside its key and its value.
    type Cached;

    /// The key of an update.
    ghost key_of: { Self → Self.Key };

    /// The value of an update.
    ghost value_of: { Self → Self.Value };

    /// Holds where what is kept hangs on the update.
    ghost NeedsUpdate: { Type 0 };

    /// What is kept of an update.
    ghost caches: { Self → Self.Cached → Type 0 };

    /// The updated key.
    fn key(&self) -> &Self::Key
        ensures { result.now ≡ key_of self.now };

    /// The updated key, taken out.
    fn into_key(self) -> Self::Key
        ensures { result ≡ key_of self };

    /// The updated value.
    fn value(&self) -> &Self::Value
        ensures { result.now ≡ value_of self.now };

    /// The updated value, taken out.
    fn into_value(self) -> Self::Value
        ensures { result ≡ value_of self };

    /// What is kept of every update alike. None: it hangs on the update (own).
    fn cached_alike() -> Option<Self::Cached>
        ensures { MatchOption result NeedsUpdate (λ cached. (NeedsUpdate → ⊥) × ((u : Self) → caches u cached)) };

    /// What is kept of this update. It fails only when out of memory (own).
    fn cache(&self) -> Result<Self::Cached, AllocError>
        ensures { IfOk result (λ cached. caches self.now cached) };

    /// An update that says the same. It fails only when out of memory.
    fn try_copy(&self) -> Result<Self, AllocError>
        ensures same { IfOk result (λ copy. Self.encoding copy ≡ Self.encoding self.now) }
        ensures key { IfOk result (λ copy. Self.Key.encoding (key_of copy) ≡ Self.Key.encoding (key_of self.now)) }
        ensures value { IfOk result
            (λ copy. Self.Value.encoding (value_of copy) ≡ Self.Value.encoding (value_of self.now)) };
}

/// What is kept of the update that the closure gives. The closure is called only where that hangs on the update. It
/// fails only when out of memory. In the Rust: `qmdb::any::operation::update::Update::cached`, a function of the trait.
pub fn cached<'a, S: Update + 'a, C: FnOnce() -> &'a S>(update: C) -> Result<S::Cached, AllocError>
    requires { S.NeedsUpdate → C.IsAlwaysCallable update }
    ensures { S.NeedsUpdate → ((u : _) × (C.post update u × IfOk result (S.caches u.now))) }
{
    match S::cached_alike() {
        Some(cached) => Ok(cached),
        None => update().cache(),
    }
}

/// An update whose encoding has a fixed size (own).
pub trait FixedUpdate: Update + Read<Cfg = ()> {
    /// The size in bytes.
    ghost UPDATE_SIZE: { ℕ };

    /// The size of each encoding in bytes.
    fn update_size() -> u128
        ensures size { result ≡ UPDATE_SIZE }
        ensures small { result < 2 ^ 67 };

    ghost update_sized: { (u : Self) → Self.is_value u → length (Self.encoding u) ≡ UPDATE_SIZE };

    /// Each update may be read.
    ghost update_within: { (u : Self) → Self.is_within tt u };
}

/// An update as its key, its value and what is kept beside.
pub trait Parts: Update {
    /// Whether it names another key.
    const SIBLINGS: bool;

    /// Key, value and what is kept beside.
    fn into_parts(self) -> (Self::Key, Self::Value, Self::Cached)
        ensures { (result.0 ≡ Self.key_of self) × ((result.1 ≡ Self.value_of self) × Self.caches self result.2) };

    /// The update of these parts.
    fn from_parts(key: Self::Key, value: Self::Value, cached: Self::Cached) -> Self
        ensures { (Self.key_of result ≡ key) × ((Self.value_of result ≡ value) × Self.caches result cached) };
}
