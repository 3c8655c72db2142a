//! Keys compared by their first eight bytes.
//!
//!     00 00 00 00 00 00 00 61   as a number 97
//!     00 00 00 00 00 00 00 63   as a number 99: the key behind it
//!
//! Most keys that are sorted differ there, and one step compares two numbers where byte by byte it takes up to eight.
//! Keys of eight bytes, which are those of the program, need no other step.

ghost use Rattle.std.specs.Prelude.{◌≡◌, ◌<◌, ℕ, length, get_or, MatchOption};
ghost use Rattle.std.specs.Bool.{Decides};
ghost use Rattle.std.specs.Int.{w64, from_be_bytes};
ghost use Rattle.auth_store_parts.specs.Map.{key_order};
ghost use Rattle.auth_store_parts.specs.Fronts.{IsFront};

use state_ops::FixedKey;
use std::cmp::Ordering;

/// The number that eight bytes spell, the first of them the highest.
fn number_of(bytes: [u8; 8]) -> u64
    ensures spelled { result ≡ from_be_bytes w64 bytes }
    // They are bytes.
    ensures small { (i : ℕ) → get_or bytes i 0 < 256 }
{
    u64::from_be_bytes(bytes)
}

/// The first eight bytes of a key as a number. None: it has fewer.
fn front_of<K: FixedKey>(key: &K) -> Option<u64>
    ensures { MatchOption result (length (K.encoding key.now) < 8) (IsFront (K.encoding key.now)) }
{
    let front = key.as_bytes().first_chunk::<8>()?;
    Some(number_of(*front))
}

/// Whether the first eight bytes of a key are all that it has.
fn is_front<K: FixedKey>(key: &K) -> bool
    ensures { Decides result (length (K.encoding key.now) ≡ 8) }
{
    key.as_bytes().len() == 8
}

/// How two keys compare, which their first eight bytes tell where these differ, and where the keys have no more.
pub(super) fn compare<K: FixedKey>(key: &K, other: &K) -> Ordering
    ensures { result ≡ key_order (K.encoding key.now) (K.encoding other.now) }
{
    let (Some(front), Some(other_front)) = (front_of(key), front_of(other)) else {
        return key.cmp(other);
    };
    if front != other_front {
        return front.cmp(&other_front);
    }
    if is_front(key) && is_front(other) {
        return Ordering::Equal;
    }
    key.cmp(other)
}
