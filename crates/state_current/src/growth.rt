//! What is kept, with more operations.

ghost use Rattle.std.specs.Prelude.{◌≡◌, ◌<◌, ◌≤◌, ◌+◌, ◌*◌, ◌^◌, ℕ, map, length, IfOk, IfErr, OnOk, OnErr};
ghost use Rattle.std.specs.List.{AllByRecursion};
ghost use Rattle.state_theory.specs.Canonical.{State, setting_with};
ghost use Rattle.state_current.specs.Growth.{grown};
ghost use Rattle.state_current.specs.Kept.{StandsFor};

use crate::current::Current;
use crate::trees::{grow_chunks, grow_operations};
use merkle_core::error::Error;
use merkle_forest::Graftable;
use merkle_forest::hasher::HashFunction;
use state_proofs_parts::stage_bits;
use std::mem;

// What is kept, as it was, and why no more came to it.
#[derive(Drop)]
struct Ungrown<F: Graftable, H: HashFunction, const N: usize> {
    current: Current<F, H, N>,
    error: Error<F>,
}

impl<F: Graftable, H: HashFunction, const N: usize> Current<F, H, N> {
    /// More operations and a bit for each come to what is kept, after which the bits at these places are cleared, and
    /// the floor is another. Nothing that is kept is copied. Out of memory: M23, and it stays as it was (own).
    pub fn grow(
        &mut self,
        operations: &[Vec<u8>],
        bits: &[bool],
        cleared: &[u64],
        floor: u64,
    ) -> Result<(), Error<F>>
        requires few { self.old.operations.leaves + length operations.now ≤ 2 ^ 62 }
        requires paired { length bits.now ≡ length operations.now }
        requires there { AllByRecursion (λ at. (8 * N * self.old.bits.pruned ≤ at)
            × (at < self.old.operations.leaves + length operations.now)) cleared.now }
        ensures leaves { OnOk result (self.new.operations.leaves
            ≡ self.old.operations.leaves + length operations.now) }
        ensures pruned { self.new.bits.pruned ≡ self.old.bits.pruned }
        ensures floor { OnOk result (self.new.floor ≡ floor) }
        ensures stands { (height : ℕ) (state : State) → let setting = setting_with F.merge_rule H.hash_of N height in
            StandsFor setting state self.old → OnOk result (StandsFor setting (grown state (record {
              operations = map (λ e. e.items) operations.now;
              bits = bits.now;
              cleared = cleared.now;
              floor = floor;
            })) self.new) }
        ensures refused { IfErr result (λ e. e ≡ Error.Memory) }
        ensures unchanged { OnErr result (self.new ≡ self.old) }
    {
        let empty: Current<F, H, N> = Current::new(self.alloc);
        match mem::replace(self, empty).with_more(operations, bits, cleared, floor) {
            Ok(after) => {
                *self = after;
                Ok(())
            }
            Err(back) => {
                *self = back.current;
                Err(back.error)
            }
        }
    }

    // What is kept, with more operations and a bit for each, after which the bits at these places are cleared, and
    // another floor; or as it was. All room is found before anything changes.
    fn with_more(
        self,
        operations: &[Vec<u8>],
        bits: &[bool],
        cleared: &[u64],
        floor: u64,
    ) -> Result<Current<F, H, N>, Ungrown<F, H, N>>
        requires few { self.operations.leaves + length operations.now ≤ 2 ^ 62 }
        requires paired { length bits.now ≡ length operations.now }
        requires there { AllByRecursion (λ at. (8 * N * self.bits.pruned ≤ at)
            × (at < self.operations.leaves + length operations.now)) cleared.now }
        ensures leaves { IfOk result (λ after. after.operations.leaves
            ≡ self.operations.leaves + length operations.now) }
        ensures pruned { IfOk result (λ after. after.bits.pruned ≡ self.bits.pruned) }
        ensures floor { IfOk result (λ after. after.floor ≡ floor) }
        ensures stands { (height : ℕ) (state : State) → let setting = setting_with F.merge_rule H.hash_of N height in
            StandsFor setting state self → IfOk result (λ after. StandsFor setting (grown state (record {
              operations = map (λ e. e.items) operations.now;
              bits = bits.now;
              cleared = cleared.now;
              floor = floor;
            })) after) }
        ensures refused { IfErr result (λ back. back.error ≡ Error.Memory) }
        ensures unchanged { IfErr result (λ back. back.current ≡ self) }
    {
        let size = self.chunk_size();
        let _leaves = self.operations.leaves();
        let _boundary = self.chunks.pruning_boundary();
        let Current {
            alloc,
            operations: tree,
            chunks,
            bits: kept,
            floor: was,
        } = self;
        let tree = match grow_operations::<F, H>(tree, operations) {
            Ok(tree) => tree,
            Err(back) => {
                let current = Current {
                    alloc,
                    operations: back.tree,
                    chunks,
                    bits: kept,
                    floor: was,
                };
                return Err(Ungrown {
                    current,
                    error: back.error,
                });
            }
        };
        let after = match stage_bits(kept, bits, cleared) {
            Ok(after) => after,
            Err(kept) => {
                let operations = tree.cancel();
                let current = Current {
                    alloc,
                    operations,
                    chunks,
                    bits: kept,
                    floor: was,
                };
                return Err(Ungrown {
                    current,
                    error: Error::Memory,
                });
            }
        };
        match grow_chunks::<F, H, N>(chunks, &tree, &after, size, cleared) {
            Ok(chunks) => Ok(Current {
                alloc,
                operations: tree.apply_batch(),
                chunks: chunks.apply_batch(),
                bits: after.apply(),
                floor,
            }),
            Err(back) => {
                let current = Current {
                    alloc,
                    operations: tree.cancel(),
                    chunks: back.tree,
                    bits: after.cancel(),
                    floor: was,
                };
                Err(Ungrown {
                    current,
                    error: back.error,
                })
            }
        }
    }
}
