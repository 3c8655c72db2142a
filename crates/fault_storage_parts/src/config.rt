//! The settings of a store that fails.

ghost use Rattle.std.specs.Prelude.{◌≡◌};
ghost use Rattle.fault_storage_parts.specs.Settings.{IsDefault};

use crate::draws::PartialWriteMode;
use crate::probability::Probability;

/// How writes fail. In the Rust: `commonware_runtime::storage::faulty::WriteConfig`.
#[derive(Clone, Copy, Debug, PartialEq, Eq)]
pub struct WriteConfig {
    /// How often a write fails.
    pub rate: Probability,
    /// How often a byte is kept of a write that is torn in mode `Subset`.
    pub retention: Probability,
    /// How a write is torn that fails, or that a crash meets before it is durable.
    pub mode: PartialWriteMode,
}

/// How resizes fail. In the Rust: `commonware_runtime::storage::faulty::ResizeConfig`.
#[derive(Clone, Copy, Debug, PartialEq, Eq)]
pub struct ResizeConfig {
    /// How often a resize fails.
    pub rate: Probability,
    /// How often one that fails goes a part of the way, and how often a crash keeps one that is not durable.
    pub retention: Probability,
}

/// How often each kind of call fails, and what is kept. In the Rust: `commonware_runtime::storage::faulty::Config`.
#[derive(Clone, Copy, Debug, PartialEq, Eq)]
pub struct Config {
    /// How often an opening fails.
    pub open: Probability,
    /// How often a read fails.
    pub read: Probability,
    /// How writes fail.
    pub write: WriteConfig,
    /// How often a sync fails.
    pub sync: Probability,
    /// How resizes fail.
    pub resize: ResizeConfig,
    /// How often a removal fails.
    pub remove: Probability,
    /// How often a listing fails.
    pub scan: Probability,
}

impl Default for Config {
    ghost is_default = { λ config. IsDefault config };

    /// Nothing fails, and a crash keeps nothing that is not durable but a beginning of each write.
    fn default() -> Config {
        Config {
            open: Probability::ZERO,
            read: Probability::ZERO,
            write: WriteConfig {
                rate: Probability::ZERO,
                retention: Probability::ZERO,
                mode: PartialWriteMode::Prefix,
            },
            sync: Probability::ZERO,
            resize: ResizeConfig {
                rate: Probability::ZERO,
                retention: Probability::ZERO,
            },
            remove: Probability::ZERO,
            scan: Probability::ZERO,
        }
    }
}

impl Config {
    /// With this rate of openings that fail.
    pub fn open(self, rate: Probability) -> Config
        ensures { result ≡ record self { «open» = rate } }
    {
        Config { open: rate, ..self }
    }

    /// With this rate of reads that fail.
    pub fn read(self, rate: Probability) -> Config
        ensures { result ≡ record self { read = rate } }
    {
        Config { read: rate, ..self }
    }

    /// With writes that fail so.
    pub fn write(self, config: WriteConfig) -> Config
        ensures { result ≡ record self { write = config } }
    {
        Config {
            write: config,
            ..self
        }
    }

    /// With this rate of syncs that fail.
    pub fn sync(self, rate: Probability) -> Config
        ensures { result ≡ record self { sync = rate } }
    {
        Config { sync: rate, ..self }
    }

    /// With resizes that fail so.
    pub fn resize(self, config: ResizeConfig) -> Config
        ensures { result ≡ record self { resize = config } }
    {
        Config {
            resize: config,
            ..self
        }
    }

    /// With this rate of removals that fail.
    pub fn remove(self, rate: Probability) -> Config
        ensures { result ≡ record self { remove = rate } }
    {
        Config {
            remove: rate,
            ..self
        }
    }

    /// With this rate of listings that fail.
    pub fn scan(self, rate: Probability) -> Config
        ensures { result ≡ record self { scan = rate } }
    {
        Config { scan: rate, ..self }
    }
}
