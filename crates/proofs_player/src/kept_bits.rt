//! Bits of which chunks are pruned from the front, and a log of numbers: what builders of proofs read.

ghost use Rattle.std.specs.Prelude.{◌≤◌, ◌*◌, length, map, ⊤};

use merkle_forest::Graftable;
use merkle_forest::codec::Write;
use state_proofs::{BitList, BitmapReadable, Error, LogRead};
use std::alloc::Global;

/// Bits in chunks of N bytes, of which so many chunks are pruned.
#[derive(Clone, Copy)]
pub(crate) struct KeptBits<'a, const N: usize> {
    list: BitList<'a>,
    pruned: u64,
    ghost within: { 8 * N * pruned ≤ length list.bits.now },
}

impl<'a, const N: usize> KeptBits<'a, N> {
    /// The bits without so many chunks. None: there are fewer.
    pub(crate) fn new(bits: &'a [bool], pruned: u64) -> Option<KeptBits<'a, N>> {
        let chunk_bits = 8u64.checked_mul(N as u64)?;
        if chunk_bits.checked_mul(pruned)? > bits.len() as u64 {
            return None;
        }
        Some(KeptBits {
            list: BitList { bits },
            pruned,
        })
    }
}

impl<'a, const N: usize> BitmapReadable<N> for KeptBits<'a, N> {
    ghost bits = { λ kept. kept.list.bits.now };

    ghost pruned = { λ kept. kept.pruned };

    fn len(&self) -> u64 {
        BitmapReadable::<N>::len(&self.list)
    }

    fn pruned_chunks(&self) -> u64 {
        self.pruned
    }

    fn get_chunk(&self, index: u64) -> [u8; N] {
        self.list.get_chunk(index)
    }

    ghost pruned_within = { λ kept. kept.within };
}

/// A log of numbers, which is read whole. A place past it is Q1.
#[derive(Drop)]
pub(crate) struct Numbers<'a> {
    /// The numbers.
    pub(crate) numbers: &'a [u64],
}

impl<F: Graftable> LogRead<F> for Numbers<'_> {
    type Operation = u64;

    ghost operations = { λ log. map ⟦<u64 as Write>⟧.encoding log.numbers.now };

    ghost refuses = { λ _ _. ⊤ };

    fn len(&self) -> u64 {
        self.numbers.len() as u64
    }

    fn read_many(&self, alloc: Global, places: &[u64]) -> Result<Vec<u64>, Error<F>> {
        let mut found = Vec::new(alloc);
        let mut rest = places;
        while let [place, later @ ..] = rest {
            let Some(number) = self.numbers.get(*place as usize) else {
                return Err(Error::DataCorrupted);
            };
            if found.push(*number).is_err() {
                return Err(Error::Memory);
            }
            rest = later;
        }
        Ok(found)
    }
}
