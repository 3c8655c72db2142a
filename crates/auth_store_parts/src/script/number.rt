//! Numbers as decimal text.

ghost use Rattle.std.specs.Prelude.{SomeIff};
ghost use Rattle.auth_store_parts.specs.Script.{IsNumber, decimal_value};

/// The number that one or more decimal digits spell. Any other text, or a value past 64 bits: `None`.
pub fn parse_number(text: &[u8]) -> Option<u64>
    ensures { SomeIff result (IsNumber text.now) (decimal_value text.now) }
{
    if text.is_empty() {
        return None;
    }
    let mut value = 0u64;
    for digit in text {
        if !digit.is_ascii_digit() {
            return None;
        }
        value = value
            .checked_mul(10)?
            .checked_add(u64::from(*digit - b'0'))?;
    }
    Some(value)
}
