//! Sessions and stores of both families, in narrow chunks and in wide ones.

ghost use Rattle.std.specs.Prelude.{◌≡◌, None};

use crate::standing::Standing;
use auth_store_device::Device;
use auth_store_session::{Sizes, StoreError};
use case_lines::Unanswered;
use fault_storage::Config;
use merkle_forest::{mmb, mmr};
use rand_pcg::Pcg32;
use std::alloc::Global;
use store_lines::asked::Asking;
use store_lines::words::Kind;

/// A place for a session or a store of each family and width, of which one at most is taken.
#[derive(Drop)]
pub struct Any {
    taken: Option<Kind>,
    is_session: bool,
    range: Standing<mmr::Family, 1>,
    wide_range: Standing<mmr::Family, 32>,
    belt: Standing<mmb::Family, 1>,
    wide_belt: Standing<mmb::Family, 32>,
}

impl Any {
    /// Nothing stands.
    pub fn nothing() -> Any {
        Any {
            taken: None,
            is_session: false,
            range: Standing::Nothing,
            wide_range: Standing::Nothing,
            belt: Standing::Nothing,
            wide_belt: Standing::Nothing,
        }
    }

    /// Whether nothing stands.
    pub fn is_nothing(&self) -> bool {
        self.taken.is_none()
    }

    /// Whether a session stands.
    pub fn is_session(&self) -> bool {
        self.taken.is_some() && self.is_session
    }

    /// Begins a session of a kind over a closed device.
    pub fn begin_session(&mut self, alloc: Global, device: Device<Pcg32>, kept: usize, kind: Kind)
        requires { device.log ≡ None }
    {
        self.taken = Some(kind);
        self.is_session = true;
        match kind {
            Kind::Range => self.range.begin_session(alloc, device, kept),
            Kind::WideRange => self.wide_range.begin_session(alloc, device, kept),
            Kind::Belt => self.belt.begin_session(alloc, device, kept),
            Kind::WideBelt => self.wide_belt.begin_session(alloc, device, kept),
        }
    }

    /// Opens a store of a kind over a closed device; a refusal gives the device back, closed.
    pub fn open_store(
        &mut self,
        alloc: Global,
        device: Device<Pcg32>,
        kept: usize,
        kind: Kind,
        sizes: Sizes,
    ) -> Result<(), (StoreError, Device<Pcg32>)>
        requires { device.log ≡ None }
    {
        let opened = match kind {
            Kind::Range => self.range.open_store(alloc, device, kept, sizes),
            Kind::WideRange => self.wide_range.open_store(alloc, device, kept, sizes),
            Kind::Belt => self.belt.open_store(alloc, device, kept, sizes),
            Kind::WideBelt => self.wide_belt.open_store(alloc, device, kept, sizes),
        };
        if opened.is_ok() {
            self.taken = Some(kind);
            self.is_session = false;
        }
        opened
    }

    /// Takes the device away, closed, if something has it.
    pub fn taken_apart(&mut self) -> Option<Device<Pcg32>> {
        match self.taken.take()? {
            Kind::Range => self.range.taken_apart(),
            Kind::WideRange => self.wide_range.taken_apart(),
            Kind::Belt => self.belt.taken_apart(),
            Kind::WideBelt => self.wide_belt.taken_apart(),
        }
    }

    /// The settings of a store by itself.
    pub fn settings(&self) -> Result<Config, Unanswered> {
        match self.taken {
            Some(Kind::Range) => self.range.settings(),
            Some(Kind::WideRange) => self.wide_range.settings(),
            Some(Kind::Belt) => self.belt.settings(),
            Some(Kind::WideBelt) => self.wide_belt.settings(),
            None => Err(Unanswered::BadLine),
        }
    }

    /// How many faults were injected into the calls of the device that something has.
    pub fn injections(&self) -> Result<u64, Unanswered> {
        match self.taken {
            Some(Kind::Range) => self.range.injections(),
            Some(Kind::WideRange) => self.wide_range.injections(),
            Some(Kind::Belt) => self.belt.injections(),
            Some(Kind::WideBelt) => self.wide_belt.injections(),
            None => Err(Unanswered::BadLine),
        }
    }

    /// What is answered to a step.
    pub fn step(&mut self, alloc: Global, step: Asking) -> Result<String, Unanswered> {
        match self.taken {
            Some(Kind::Range) => self.range.step(alloc, step),
            Some(Kind::WideRange) => self.wide_range.step(alloc, step),
            Some(Kind::Belt) => self.belt.step(alloc, step),
            Some(Kind::WideBelt) => self.wide_belt.step(alloc, step),
            None => Err(Unanswered::BadLine),
        }
    }

    /// What is answered to steps that are taken as one run of a session, which is closed then.
    pub fn run(&mut self, alloc: Global, steps: Vec<Asking>) -> Result<String, Unanswered> {
        match self.taken {
            Some(Kind::Range) => self.range.run(alloc, steps),
            Some(Kind::WideRange) => self.wide_range.run(alloc, steps),
            Some(Kind::Belt) => self.belt.run(alloc, steps),
            Some(Kind::WideBelt) => self.wide_belt.run(alloc, steps),
            None => Err(Unanswered::BadLine),
        }
    }

    /// What is answered to steps that are taken as one run over the device of a session.
    pub fn run_whole(&mut self, alloc: Global, steps: Vec<Asking>) -> Result<String, Unanswered> {
        match self.taken {
            Some(Kind::Range) => self.range.run_whole(alloc, steps),
            Some(Kind::WideRange) => self.wide_range.run_whole(alloc, steps),
            Some(Kind::Belt) => self.belt.run_whole(alloc, steps),
            Some(Kind::WideBelt) => self.wide_belt.run_whole(alloc, steps),
            None => Err(Unanswered::BadLine),
        }
    }
}
