//! What is kept of a log beside its operations: their tree, the tree of the chunks of their bits, the bits and the
//! floor.

ghost use Rattle.std.specs.Prelude.{◌≡◌, ◌<◌, ◌≤◌, ◌+◌, ◌*◌, ◌^◌, map, length, IfOk, OnOk, OnErr};
ghost use Rattle.std.specs.List.{AllByRecursion, flat_map};
ghost use Rattle.auth_store_ledger.specs.History.{last_floor, meanings};
ghost use Rattle.auth_store_ledger.specs.Store.{IsChunkWidth, IsKept, AreWritten};
ghost use Rattle.auth_store_ledger.specs.Store.{encodings, setting_of_width};
ghost use Rattle.auth_store_parts.specs.Places.{places_of};
ghost use Rattle.auth_store_log.specs.Records.{format_of};
ghost use Rattle.state_current.specs.Growth.{grown};
ghost use Rattle.state_current.specs.Kept.{StandsFor};
ghost use Rattle.state_theory.specs.Canonical.{State};

use crate::history::{Places, activity_bits};
use auth_store_log::encoding::record_bytes;
use merkle_core::error::Error;
use merkle_forest::{Family, Graftable, HashFunction};
use state_current::Current;
use state_ops::{FixedKey, FixedValue, OrderedOperation};
use std::alloc::{AllocError, Global};

/// Want of memory for a tree.
pub fn out_of_memory<F: Family>(error: Error<F>) -> AllocError
    requires { error ≡ Error.Memory }
{
    match error {
        Error::Memory => AllocError,
        _ => unreachable!(),
    }
}

/// More operations and a bit for each come to what is kept, after which the bits at these places, whose chunks are not
/// pruned, are cleared, and the floor is another. It fails only when out of memory; what is kept then stays as it was.
pub fn grow_by<F: Graftable, H: HashFunction, const N: usize>(
    current: &mut Current<F, H, N>,
    operations: &[Vec<u8>],
    bits: &[bool],
    cleared: &[u64],
    floor: u64,
) -> Result<(), AllocError>
    requires few { current.old.operations.leaves + length operations.now ≤ 2 ^ 62 }
    requires paired { length bits.now ≡ length operations.now }
    requires there { AllByRecursion (λ at. (8 * N * current.old.bits.pruned ≤ at)
        × (at < current.old.operations.leaves + length operations.now)) cleared.now }
    ensures leaves { OnOk result (current.new.operations.leaves
        ≡ current.old.operations.leaves + length operations.now) }
    ensures pruned { current.new.bits.pruned ≡ current.old.bits.pruned }
    ensures stands { (state : State) → let setting = setting_of_width F.merge_rule H.hash_of N in
        StandsFor setting state current.old → OnOk result (StandsFor setting (grown state (record {
          operations = map (λ e. e.items) operations.now;
          bits = bits.now;
          cleared = cleared.now;
          floor = floor;
        })) current.new) }
    ensures unchanged { OnErr result (current.new ≡ current.old) }
{
    match current.grow(operations, bits, cleared, floor) {
        Ok(()) => Ok(()),
        Err(error) => Err(out_of_memory(error)),
    }
}

/// The fixed encodings of the operations. It fails only when out of memory.
pub fn encodings_of<F: Family, K: FixedKey, V: FixedValue>(
    alloc: Global,
    operations: &[OrderedOperation<F, K, V>],
) -> Result<Vec<Vec<u8>>, AllocError>
    ensures encoded { IfOk result (λ encoded. map (λ e. e.items) encoded.items
        ≡ encodings K.SIZE V.SIZE (meanings K.encoding V.encoding operations.now)) }
    ensures written { OnOk result (AreWritten (format_of (K.after tt) (V.after tt) K.SIZE V.SIZE)
        (meanings K.encoding V.encoding operations.now)) }
{
    let mut encoded = Vec::new(alloc);
    for operation in operations {
        let record = record_bytes(alloc, operation)?;
        encoded.push(record)?;
    }
    Ok(encoded)
}

/// What is kept of a log of these operations, whose places and whose last floor these are, in chunks of `N` bytes:
/// nothing of it is pruned. It fails only when out of memory.
pub fn kept_of_log<F: Graftable, H: HashFunction, K: FixedKey, V: FixedValue, const N: usize>(
    alloc: Global,
    operations: &[OrderedOperation<F, K, V>],
    places: &Places<K>,
    floor: u64,
) -> Result<Current<F, H, N>, AllocError>
    requires width { IsChunkWidth N }
    requires few { length operations.now ≤ 2 ^ 62 }
    requires places { places.now ≡ places_of (meanings K.encoding V.encoding operations.now) }
    requires last { floor ≡ last_floor (meanings K.encoding V.encoding operations.now) }
    ensures whole { IfOk result (λ kept. kept.bits.pruned ≡ 0) }
    ensures kept { IfOk result (IsKept (setting_of_width F.merge_rule H.hash_of N) K.SIZE V.SIZE
        (meanings K.encoding V.encoding operations.now)) }
    ensures written { OnOk result (AreWritten (format_of (K.after tt) (V.after tt) K.SIZE V.SIZE)
        (meanings K.encoding V.encoding operations.now)) }
{
    let bits = activity_bits(alloc, operations, places)?;
    let encodings = encodings_of(alloc, operations)?;
    let mut kept: Current<F, H, N> = Current::new(alloc);
    grow_by(&mut kept, &encodings, &bits, &[], floor)?;
    Ok(kept)
}

// The bytes, one after the other. It fails only when out of memory.
pub(super) fn joined(alloc: Global, parts: &[Vec<u8>]) -> Result<Vec<u8>, AllocError>
    ensures { IfOk result (λ bytes. bytes.items ≡ flat_map (λ part. part.items) parts.now) }
{
    let mut bytes = Vec::new(alloc);
    for part in parts {
        bytes.extend_from_slice(part)?;
    }
    Ok(bytes)
}
