//! What a client says of a proof, without a store.

use crate::words::{Kind, Name, Root, key, kind_of};
use auth_store_client::{Claim, check};
use case_lines::{Unanswered, bytes};
use merkle_forest::codec::FixedBytes;
use merkle_forest::{ByteHash, Graftable, PendingOf, mmb, mmr};
use std::alloc::{AllocError, Global};

/// Whether a key has a value, or is absent where there is none, under a root of a store of this kind.
#[derive(Drop)]
struct Question {
    kind: Kind,
    root: Root,
    key: Name,
    value: Option<u64>,
}

// The root of these digits.
fn root(digits: &str) -> Result<Root, Unanswered> {
    let mut bytes = [0; 32];
    hex::decode_to_slice(digits, &mut bytes)?;
    Ok(FixedBytes::new(bytes))
}

// Turns a bit.
fn turn(bytes: &mut [u8], index: usize, bit: u8) {
    if let Some(byte) = bytes.get_mut(index) {
        *byte ^= 1u8.wrapping_shl(u32::from(bit));
    }
}

// The value of these digits; none where it says that there is none.
fn value(word: &str) -> Result<Option<u64>, Unanswered> {
    match word {
        "absent" => Ok(None),
        digits => Ok(Some(digits.parse()?)),
    }
}

impl Question {
    // Whether the client says yes to the claim, over trees of a family and in chunks of a width.
    fn is_shown_in<F: Graftable + PendingOf<Root>, const N: usize>(
        &self,
        alloc: Global,
        proof: &[u8],
    ) -> Result<bool, AllocError> {
        let claim = match self.value {
            Some(value) => Claim::Value {
                key: self.key,
                value,
            },
            None => Claim::Absent { key: self.key },
        };
        check::<F, ByteHash, Name, u64, N>(alloc, &self.root, &claim, proof)
    }

    // Whether the client says yes to the claim.
    fn is_shown(&self, alloc: Global, proof: &[u8]) -> Result<bool, AllocError> {
        match self.kind {
            Kind::Range => self.is_shown_in::<mmr::Family, 1>(alloc, proof),
            Kind::WideRange => self.is_shown_in::<mmr::Family, 32>(alloc, proof),
            Kind::Belt => self.is_shown_in::<mmb::Family, 1>(alloc, proof),
            Kind::WideBelt => self.is_shown_in::<mmb::Family, 32>(alloc, proof),
        }
    }

    // To how many the client says yes of the proofs in which one bit is turned.
    fn shown_when_turned(&self, alloc: Global, proof: &mut [u8]) -> Result<u64, AllocError> {
        let mut shown = 0u64;
        for index in 0..proof.len() {
            for bit in 0..8u8 {
                turn(proof, index, bit);
                if self.is_shown(alloc, proof)? {
                    shown = shown.saturating_add(1);
                }
                turn(proof, index, bit);
            }
        }
        Ok(shown)
    }

    // To how many the client says yes of the beginnings of a proof, each shorter than it.
    fn shown_when_cut(&self, alloc: Global, proof: &[u8]) -> Result<u64, AllocError> {
        let mut shown = 0u64;
        for count in 0..proof.len() {
            if self.is_shown(alloc, proof.get(..count).unwrap_or(&[]))? {
                shown = shown.saturating_add(1);
            }
        }
        Ok(shown)
    }
}

/// What is answered of claims and proofs.
pub fn answer(alloc: Global, words: &[&str]) -> Result<String, Unanswered> {
    let [call, family, width, of_root, digits, of_value, proof] = words else {
        return Err(Unanswered::BadLine);
    };
    let question = Question {
        kind: kind_of(family, width)?,
        root: root(of_root)?,
        key: key(digits)?,
        value: value(of_value)?,
    };
    let mut proof = bytes(alloc, proof)?;
    match *call {
        "check" if question.is_shown(alloc, &proof)? => Ok("yes".to_string(alloc)?),
        "check" => Ok("no".to_string(alloc)?),
        "turned" => {
            let shown = question.shown_when_turned(alloc, proof.as_mut_slice())?;
            Ok(format!(in alloc; "{shown}")?)
        }
        "shortened" => Ok(format!(in alloc; "{}", question.shown_when_cut(alloc, &proof)?)?),
        _ => Err(Unanswered::BadLine),
    }
}
