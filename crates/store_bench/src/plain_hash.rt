//! A hash that costs next to nothing, so that what a root costs stands aside.

ghost use Rattle.std.specs.Prelude.{refl, replicate};

use merkle_forest::HashFunction;
use merkle_forest::codec::FixedBytes;

/// A hash of which each digest is 32 zeros.
#[derive(Clone, Copy, Debug)]
pub struct PlainHash;

impl HashFunction for PlainHash {
    type Digest = FixedBytes<32>;

    ghost hash_of = { λ bytes. replicate 32 0 };

    fn hash(_parts: &[&[u8]]) -> FixedBytes<32> {
        FixedBytes::new([0; 32])
    }

    ghost sized = { λ bytes. refl };
}
