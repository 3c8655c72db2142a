//! A script that has begun, over trees of the family that its first line names.

ghost use Rattle.std.specs.Prelude.{◌≡◌, List, None, Some};
ghost use Rattle.auth_store.specs.ScriptLines.{Exchange, new_progress};
ghost use Rattle.auth_store.specs.ScriptRun.{IsRunOf, script_cache};
ghost use Rattle.auth_store.specs.ScriptCode.{DoesLine, Handled, IsRunning, now_in};

use super::end::End;
use super::progress::Progress;
use auth_store_device::Device;
use auth_store_parts::script::{Line, TreeFamily};
use merkle_forest::{mmb, mmr};
use rand_pcg::Pcg32;
use std::alloc::Global;
use std::io::Write;

/// What a script has made so far, over either family.
#[derive(Drop)]
pub(crate) enum Running {
    Mmr(Progress<mmr::Family>),
    Mmb(Progress<mmb::Family>),
}

impl Running {
    // A session over a new device, with no word and no proof.
    pub(crate) fn new(
        alloc: Global,
        family: TreeFamily,
        seed: u64,
        device: Device<Pcg32>,
    ) -> Running
        requires { device.log ≡ None }
        ensures progress { (now_in result).progress ≡ new_progress family seed device.storage.config }
        ensures session { (now_in result).session ≡ record { parts = Some (device, script_cache); store = None } }
    {
        match family {
            TreeFamily::Mmr => Running::Mmr(Progress::new(alloc, seed, device)),
            TreeFamily::Mmb => Running::Mmb(Progress::new(alloc, seed, device)),
        }
    }

    // Takes one line after the first one.
    pub(crate) fn step<W: Write>(&mut self, out: &mut W, line: Line) -> Result<(), End>
        ensures { Handled (DoesLine (now_in self.old) line (now_in self.new)) (W.contents out.old) (W.contents out.new)
            result }
    {
        match self {
            Running::Mmr(progress) => progress.step(out, line),
            Running::Mmb(progress) => progress.step(out, line),
        }
    }

    // Closes the store, if one is open, and answers its device.
    pub(crate) fn into_device(self) -> Device<Pcg32>
        ensures { (exchanges : List Exchange) → IsRunning exchanges (Some (now_in self))
            → IsRunOf (Some (now_in self).progress) (Some result) exchanges }
    {
        match self {
            Running::Mmr(progress) => progress.into_device(),
            Running::Mmb(progress) => progress.into_device(),
        }
    }
}
