//! The device of a script.

ghost use Rattle.std.specs.Prelude.{IfOk};
ghost use Rattle.auth_store_device.specs.Settings.{IsNew};
ghost use Rattle.auth_store.specs.ScriptRun.{seeded_by};

use auth_store_device::Device;
use rand_core::SeedableRng;
use rand_pcg::Pcg32;
use std::alloc::{AllocError, Global};

/// A closed device without a file, whose faults and choices are drawn of the words that Pcg32 gives at this seed:
/// nothing fails, and of what is not durable a crash keeps each byte, and each resize, one time in two. F9.
pub fn new_device(alloc: Global, seed: u64) -> Result<Device<Pcg32>, AllocError>
    ensures { IfOk result (IsNew (seeded_by seed)) }
{
    Device::empty(alloc, Pcg32::seed_from_u64(seed))
}
