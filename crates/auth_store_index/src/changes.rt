//! What a batch makes of a state whose values stand in a log or are given.

ghost use Rattle.std.specs.Prelude.{◌≡◌, ◌+◌, ◌≤◌, List, length, IfOk, OnOk};
ghost use Rattle.state_ops.specs.Operation as meaning;
ghost use Rattle.auth_store_parts.specs.Batch as words;
ghost use Rattle.auth_store_parts.specs.Batch.{map_after};
ghost use Rattle.auth_store_parts.specs.Map.{Map, state_of};
ghost use Rattle.auth_store_index.specs.Sources.{AreOwn, source_value};

use crate::values::Source;
use auth_store_parts::{Batch, Word};
use state_ops::{FixedKey, FixedValue};
use std::alloc::AllocError;
use std::collections::BTreeMap;

/// Applies one word to a state. It fails only when out of memory.
fn apply_word<K: FixedKey, V: FixedValue>(
    state: &mut BTreeMap<K, Source<V>>,
    word: &Word<K, V>,
) -> Result<(), AllocError>
    ensures after { OnOk result ((log : List meaning.Operation)
        → state_of K.encoding (source_value V.encoding log) state.new.entries
        ≡ words.after_word (words.meaning_of K.encoding V.encoding word.now)
        (state_of K.encoding (source_value V.encoding log) state.old.entries)) }
    ensures own { OnOk result ((places : Map) → AreOwn K.encoding places state.old.entries
        → AreOwn K.encoding places state.new.entries) }
    ensures few { OnOk result (length state.new.entries ≤ length state.old.entries + 1) }
{
    match word {
        Word::Put(key, value) => {
            let key = key.clone()?;
            let value = value.clone()?;
            state.insert(key, Source::Given(value))?;
        }
        Word::Delete(key) => {
            state.remove(key);
        }
    }
    Ok(())
}

/// Applies a batch to a state. It fails only when out of memory.
pub(crate) fn apply_batch<K: FixedKey, V: FixedValue>(
    state: BTreeMap<K, Source<V>>,
    batch: &Batch<K, V>,
) -> Result<BTreeMap<K, Source<V>>, AllocError>
    ensures after { IfOk result (λ after. (log : List meaning.Operation)
        → state_of K.encoding (source_value V.encoding log) after.entries
        ≡ map_after (words.meanings K.encoding V.encoding batch.now.words.items)
        (state_of K.encoding (source_value V.encoding log) state.entries)) }
    ensures own { IfOk result (λ after. (places : Map) → AreOwn K.encoding places state.entries
        → AreOwn K.encoding places after.entries) }
    ensures few { IfOk result (λ after. length after.entries
        ≤ length state.entries + length batch.now.words.items) }
{
    let mut after = state;
    for word in &batch.words {
        apply_word(&mut after, word)?;
    }
    Ok(after)
}
