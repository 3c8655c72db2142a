//! Batches of changes to a state.

ghost use Rattle.std.specs.Prelude.{◌≡◌, [], ◌∷◌, ◌++◌, IfOk, OnOk, OnErr};
ghost use Rattle.auth_store_parts.specs.Batch.{meanings, meaning_of, put, delete, after_word, map_after};
ghost use Rattle.auth_store_parts.specs.Map.{state_of};

use crate::state;
use state_ops::{FixedKey, FixedValue};
use std::alloc::{AllocError, Global};
use std::collections::BTreeMap;

/// What a batch says of one key.
#[derive(Debug, Drop)]
pub enum Word<K, V> {
    /// The key has this value.
    Put(K, V),
    /// The key is gone.
    Delete(K),
}

/// Words about keys, in the order in which they were said. On each key the last word wins.
#[derive(Debug, Drop)]
pub struct Batch<K, V> {
    /// The words, the first said first.
    pub words: Vec<Word<K, V>>,
}

impl<K: FixedKey, V: FixedValue> Batch<K, V> {
    /// A batch that says nothing.
    pub fn new(alloc: Global) -> Batch<K, V>
        ensures { result.words.items ≡ [] }
    {
        Batch {
            words: Vec::new(alloc),
        }
    }

    /// Says that the key has this value. It fails only when out of memory, and the batch then stays as it was.
    pub fn put(&mut self, key: K, value: V) -> Result<(), AllocError>
        ensures ok { OnOk result (meanings K.encoding V.encoding self.new.words.items
            ≡ meanings K.encoding V.encoding self.old.words.items ++ put (K.encoding key) (V.encoding value) ∷ []) }
        ensures err { OnErr result (self.new.words.items ≡ self.old.words.items) }
    {
        Ok(self.words.push(Word::Put(key, value))?)
    }

    /// Says that the key is gone. It fails only when out of memory, and the batch then stays as it was.
    pub fn delete(&mut self, key: K) -> Result<(), AllocError>
        ensures ok { OnOk result (meanings K.encoding V.encoding self.new.words.items
            ≡ meanings K.encoding V.encoding self.old.words.items ++ delete (K.encoding key) ∷ []) }
        ensures err { OnErr result (self.new.words.items ≡ self.old.words.items) }
    {
        Ok(self.words.push(Word::Delete(key))?)
    }
}

/// Applies one word to the state. It fails only when out of memory, and the state then stays as it was.
fn apply_word<K: FixedKey, V: FixedValue>(
    state: &mut BTreeMap<K, V>,
    word: &Word<K, V>,
) -> Result<(), AllocError>
    ensures ok { OnOk result (state_of K.encoding V.encoding state.new.entries
        ≡ after_word (meaning_of K.encoding V.encoding word.now) (state_of K.encoding V.encoding state.old.entries)) }
    ensures err { OnErr result (state.new.entries ≡ state.old.entries) }
{
    match word {
        Word::Put(key, value) => state::put(state, key, value),
        Word::Delete(key) => {
            state::remove(state, key);
            Ok(())
        }
    }
}

/// The state after the batch's words, in the order in which they were said. It fails only when out of memory; the state
/// is then gone, so hand in a copy where it is still wanted.
pub fn apply_batch<K: FixedKey, V: FixedValue>(
    state: BTreeMap<K, V>,
    batch: &Batch<K, V>,
) -> Result<BTreeMap<K, V>, AllocError>
    ensures { IfOk result (λ after. state_of K.encoding V.encoding after.entries
        ≡ map_after (meanings K.encoding V.encoding batch.now.words.items)
        (state_of K.encoding V.encoding state.entries)) }
{
    let mut after = state;
    for word in &batch.words {
        apply_word(&mut after, word)?;
    }
    Ok(after)
}
