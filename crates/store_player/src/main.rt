//! Plays cases of the store: of its device, of sessions step by step, of whole runs, and of stores by themselves.
#![tactic(auto)]

mod any;
mod standing;

use any::Any;
use auth_store_device::Device;
use case_lines::{Player, Unanswered};
use device_lines::{calls, openings};
use rand_pcg::Pcg32;
use std::alloc::Global;
use store_lines::asked::Asked;
use store_lines::words::asked_for;
use store_lines::{clients, refusals};

/// What stands in a case: a device, or a session or store that has it; and what was said for the next step.
#[derive(Drop)]
struct Stores {
    device: Option<Device<Pcg32>>,
    kept: usize,
    any: Any,
    asked: Asked,
}

impl Stores {
    // Makes a device that draws of a seed, and remembers how many pages a cache keeps.
    fn begin_device(&mut self, alloc: Global, words: &[&str]) -> Result<String, Unanswered> {
        let (device, kept) = calls::begun(alloc, words)?;
        self.kept = kept;
        let _before = self.any.taken_apart();
        let _other = self.device.replace(device);
        self.asked.begin_settings();
        Ok("ok".to_string(alloc)?)
    }

    // Hands the device, which is closed, to a session or to a store.
    fn hand_over(&mut self, alloc: Global, words: &[&str]) -> Result<String, Unanswered> {
        let (kind, sizes) = asked_for(words)?;
        let Some(device) = self.device.take() else {
            return Err(Unanswered::BadLine);
        };
        if !device.is_closed() {
            self.device = Some(device);
            return Err(Unanswered::BadLine);
        }
        let Some(sizes) = sizes else {
            self.any.begin_session(alloc, device, self.kept, kind);
            return Ok("ok".to_string(alloc)?);
        };
        match self.any.open_store(alloc, device, self.kept, kind, sizes) {
            Ok(()) => Ok("opened".to_string(alloc)?),
            Err((error, device)) => {
                self.device = Some(device);
                refusals::of_store(alloc, error)
            }
        }
    }

    // Takes the device from the session or the store.
    fn take_apart(&mut self, alloc: Global) -> Result<String, Unanswered> {
        match self.any.taken_apart() {
            Some(device) => {
                self.device = Some(device);
                Ok("ok".to_string(alloc)?)
            }
            None => Err(Unanswered::BadLine),
        }
    }

    // Whether what stands has the settings that were said last.
    fn has_settings(&self, alloc: Global) -> Result<String, Unanswered> {
        let settings = match &self.device {
            Some(device) => device.config(),
            None => self.any.settings()?,
        };
        Ok(format!(in alloc; "{}", settings == self.asked.settings())?)
    }

    // How many faults were injected so far.
    fn injections(&self, alloc: Global) -> Result<String, Unanswered> {
        let count = match &self.device {
            Some(device) => device.injections(),
            None => self.any.injections()?,
        };
        Ok(format!(in alloc; "{count}")?)
    }

    // Says settings to what stands.
    fn set(&mut self, alloc: Global, words: &[&str]) -> Result<String, Unanswered> {
        if let Some(device) = &mut self.device {
            device.set_config(self.asked.changed_settings(words)?);
            return Ok("set".to_string(alloc)?);
        }
        self.step(alloc, words)
    }

    // Takes a step.
    fn step(&mut self, alloc: Global, words: &[&str]) -> Result<String, Unanswered> {
        if self.any.is_nothing() {
            return Err(Unanswered::BadLine);
        }
        let step = self.asked.step(alloc, words)?;
        self.any.step(alloc, step)
    }
}

impl Player for Stores {
    fn begin(alloc: Global) -> Result<Stores, Unanswered> {
        Ok(Stores {
            device: None,
            kept: 1,
            any: Any::nothing(),
            asked: Asked::nothing(alloc),
        })
    }

    fn answer(&mut self, alloc: Global, words: &[&str]) -> Result<String, Unanswered> {
        match words {
            ["device", words @ ..] => match &mut self.device {
                Some(device) if !calls::is_beginning(words) => {
                    calls::answer(alloc, device, words)
                }
                _ => self.begin_device(alloc, words),
            },
            ["openings"] | ["opening", ..] => match &self.device {
                Some(device) => openings::answer(alloc, device, words),
                None => Err(Unanswered::BadLine),
            },
            ["session", ..] | ["store", ..] => self.hand_over(alloc, words),
            ["check", ..] | ["turned", ..] | ["shortened", ..] => clients::answer(alloc, words),
            ["apart"] => self.take_apart(alloc),
            ["has", "settings"] => self.has_settings(alloc),
            ["injections"] => self.injections(alloc),
            ["fault", ..] | ["keep", ..] | ["mode", ..] => self.set(alloc, words),
            ["put", key, value] => self.asked.put(alloc, key, value),
            ["del", key] => self.asked.delete(alloc, key),
            ["later", words @ ..] if self.any.is_session() => self.asked.wait(alloc, words),
            ["run"] if self.any.is_session() => {
                self.any.run(alloc, self.asked.take_waiting(alloc))
            }
            ["run", "whole"] if self.any.is_session() => {
                self.any.run_whole(alloc, self.asked.take_waiting(alloc))
            }
            words => self.step(alloc, words),
        }
    }
}

fn main(rt: HostRuntime) -> anyhow::Result<()> {
    case_lines::play::<Stores>(&rt)
}
