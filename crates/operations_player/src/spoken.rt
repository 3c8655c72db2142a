//! Values as words of a line.

use case_lines::{Unanswered, bytes, digits};
use merkle_forest::codec::{Encode, Error, FixedBytes};
use state_ops::key::Key;
use state_ops::update::{Ordered, Unordered};
use state_ops::value::ValueEncoding;
use std::alloc::Global;
use std::fmt::Display;

/// The answer to a line.
pub type Answer = Result<String, Unanswered>;

/// A value that is one word.
pub trait Word: Drop + Sized {
    /// The value of this word.
    fn of_word(alloc: Global, word: &str) -> Result<Self, Unanswered>;

    /// The word of the value.
    fn say(&self, alloc: Global) -> Answer;
}

impl Word for u64 {
    fn of_word(_alloc: Global, word: &str) -> Result<u64, Unanswered> {
        Ok(word.parse()?)
    }

    fn say(&self, alloc: Global) -> Answer {
        shown(alloc, *self)
    }
}

impl<const M: usize> Word for FixedBytes<M> {
    fn of_word(_alloc: Global, word: &str) -> Result<FixedBytes<M>, Unanswered> {
        let mut bytes = [0; M];
        hex::decode_to_slice(word, &mut bytes)?;
        Ok(FixedBytes::new(bytes))
    }

    fn say(&self, alloc: Global) -> Answer {
        digits(alloc, self.as_bytes())
    }
}

impl Word for Vec<u8> {
    fn of_word(alloc: Global, word: &str) -> Result<Vec<u8>, Unanswered> {
        bytes(alloc, word)
    }

    fn say(&self, alloc: Global) -> Answer {
        digits(alloc, self)
    }
}

/// A value that is said in several words.
pub trait Spoken: Drop + Sized {
    /// The value of these words.
    fn of_words(alloc: Global, words: &[&str]) -> Result<Self, Unanswered>;

    /// The words of the value.
    fn say(&self, alloc: Global) -> Answer;
}

impl<K: Key + Word, E: ValueEncoding> Spoken for Ordered<K, E>
where
    E::Value: Word,
{
    fn of_words(alloc: Global, words: &[&str]) -> Result<Ordered<K, E>, Unanswered> {
        let [key, value, next_key] = words else {
            return Err(Unanswered::BadLine);
        };
        Ok(Ordered {
            key: K::of_word(alloc, key)?,
            value: <E::Value as Word>::of_word(alloc, value)?,
            next_key: K::of_word(alloc, next_key)?,
        })
    }

    fn say(&self, alloc: Global) -> Answer {
        let said = joined(alloc, self.key.say(alloc), self.value.say(alloc));
        joined(alloc, said, self.next_key.say(alloc))
    }
}

impl<K: Key + Word, E: ValueEncoding> Spoken for Unordered<K, E>
where
    E::Value: Word,
{
    fn of_words(alloc: Global, words: &[&str]) -> Result<Unordered<K, E>, Unanswered> {
        let [key, value] = words else {
            return Err(Unanswered::BadLine);
        };
        let key = K::of_word(alloc, key)?;
        Ok(Unordered(key, <E::Value as Word>::of_word(alloc, value)?))
    }

    fn say(&self, alloc: Global) -> Answer {
        joined(alloc, self.0.say(alloc), self.1.say(alloc))
    }
}

/// The bytes of the one word.
pub fn bytes_of(alloc: Global, words: &[&str]) -> Result<Vec<u8>, Unanswered> {
    match words {
        [digits] => bytes(alloc, digits),
        _ => Err(Unanswered::BadLine),
    }
}

/// A value as it is printed.
pub fn shown<T: Display + Drop>(alloc: Global, value: T) -> Answer {
    Ok(value.to_string(alloc)?)
}

/// The encoding of a value.
pub fn written<T: Encode>(alloc: Global, value: &T) -> Answer {
    digits(alloc, &value.encode(alloc)?)
}

/// The word of a value, or `none`.
pub fn said_or_none<T: Word>(alloc: Global, value: Option<T>) -> Answer {
    match value {
        Some(value) => value.say(alloc),
        None => shown(alloc, "none"),
    }
}

/// Words behind another one.
pub fn behind(alloc: Global, word: &str, words: Answer) -> Answer {
    let words = words?;
    Ok(format!(in alloc; "{word} {words}")?)
}

/// Words, and others behind them.
pub fn joined(alloc: Global, words: Answer, others: Answer) -> Answer {
    match words {
        Ok(words) => behind(alloc, &words, others),
        Err(why) => Err(why),
    }
}

/// What was read at the front of some bytes, and how many are left behind it.
pub fn with_left(alloc: Global, words: Answer, left: usize) -> Answer {
    let words = words?;
    Ok(format!(in alloc; "{words}, {left} left")?)
}

/// A refusal to read, by its number and what it carries.
pub fn fault(alloc: Global, error: Error) -> Answer {
    let number = match error {
        Error::EndOfBuffer => "C1",
        Error::ExtraData => "C2",
        Error::InvalidVarint => "C3",
        Error::InvalidBool => "C4",
        Error::InvalidEnum(tag) => return behind(alloc, "C5", shown(alloc, tag)),
        Error::InvalidLength => "C6",
        Error::Invalid => "C7",
        Error::Memory => "C8",
    };
    shown(alloc, number)
}
