//! Keys as hexadecimal text.

ghost use Rattle.std.specs.Prelude.{◌≡◌, ◌↔◌, IsSome, IfSome};
ghost use Rattle.hex.specs.Hex.{decode_of};
ghost use Rattle.auth_store_parts.specs.Script.{IsKey};

use merkle_forest::codec::FixedBytes;

/// The 8 bytes that 16 hexadecimal digits of either case spell. Any other text: `None`.
pub fn parse_key(text: &[u8]) -> Option<FixedBytes<8>>
    ensures value { IfSome result (λ key. decode_of text.now ≡ Ok key.bytes) }
    ensures found { IsSome result ↔ IsKey text.now }
{
    let mut bytes = [0; 8];
    hex::decode_to_slice(text, &mut bytes).ok()?;
    Some(FixedBytes::new(bytes))
}
