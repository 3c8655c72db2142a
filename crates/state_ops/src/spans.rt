//! The span of an update: the keys from its own up to its next one, of which a state has its own alone.

ghost use Rattle.std.specs.Prelude.{◌≡◌, ◌↔◌, IsTrue};
ghost use Rattle.state_ops.specs.Spans.{IsLeftOut, is_below, is_in_span};

use state_ops_parts::key::FixedKey;
use std::cmp::Ordering;

// Whether a key stands before another.
fn is_key_below<K: FixedKey>(one: &K, other: &K) -> bool
    ensures { result ≡ is_below (K.encoding one.now) (K.encoding other.now) }
{
    matches!(one.cmp(other), Ordering::Less)
}

// Whether the cyclic span from a key up to the next one holds a third.
fn span_holds_key<K: FixedKey>(key: &K, next_key: &K, asked: &K) -> bool
    ensures { result ≡ is_in_span (K.encoding key.now) (K.encoding next_key.now) (K.encoding asked.now) }
{
    let is_from = !is_key_below(asked, key);
    let is_before = is_key_below(asked, next_key);
    match key.cmp(next_key) {
        Ordering::Less => is_from && is_before,
        Ordering::Equal => true,
        Ordering::Greater => is_from || is_before,
    }
}

// Whether it is the same key.
fn is_key<K: FixedKey>(one: &K, other: &K) -> bool
    ensures { IsTrue result ↔ (K.encoding one.now ≡ K.encoding other.now) }
{
    matches!(one.cmp(other), Ordering::Equal)
}

/// Whether an update leaves the asked key out: its cyclic span, from its key up to its next key, holds the asked one,
/// which is not its own. A state in which the update counts then lacks the asked key (own).
pub fn leaves_out<K: FixedKey>(key: &K, next_key: &K, asked: &K) -> bool
    ensures { IsTrue result ↔ IsLeftOut (K.encoding key.now) (K.encoding next_key.now) (K.encoding asked.now) }
{
    if is_key(asked, key) {
        return false;
    }
    span_holds_key(key, next_key, asked)
}
