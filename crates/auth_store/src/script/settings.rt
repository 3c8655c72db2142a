//! The settings of a script's device, changed by its lines.

ghost use Rattle.std.specs.Prelude.{◌≡◌};
ghost use Rattle.auth_store.specs.ScriptLines as lines;

use auth_store_parts::script::{FaultKind, TornMode};
use fault_storage::{Config, PartialWriteMode, Probability, ResizeConfig, WriteConfig};

// The settings with this rate for a kind of calls.
pub(crate) fn with_rate(settings: Config, kind: FaultKind, rate: Probability) -> Config
    ensures { result ≡ lines.with_rate kind rate settings }
{
    match kind {
        FaultKind::Open => settings.open(rate),
        FaultKind::Read => settings.read(rate),
        FaultKind::Write => settings.write(WriteConfig {
            rate,
            ..settings.write
        }),
        FaultKind::Sync => settings.sync(rate),
        FaultKind::Resize => settings.resize(ResizeConfig {
            rate,
            ..settings.resize
        }),
    }
}

// The settings with this mode of writes.
pub(crate) fn with_mode(settings: Config, mode: TornMode) -> Config
    ensures { result ≡ lines.with_mode mode settings }
{
    let mode = match mode {
        TornMode::Prefix => PartialWriteMode::Prefix,
        TornMode::Subset => PartialWriteMode::Subset,
    };
    settings.write(WriteConfig {
        mode,
        ..settings.write
    })
}
