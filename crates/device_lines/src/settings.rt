//! Settings of a device: by which rates its calls fail, and what a crash keeps.

use case_lines::Unanswered;
use fault_storage::{Config, PartialWriteMode, Probability, ResizeConfig, WriteConfig};

// The rate of this numerator and denominator.
fn rate(numerator: &str, denominator: &str) -> Result<Probability, Unanswered> {
    Probability::new(numerator.parse()?, denominator.parse()?).ok_or(Unanswered::BadLine)
}

/// The settings that a device begins with: no fault, and a crash keeps each byte and each resize one time in two.
pub fn first_settings() -> Config {
    let half = Probability::new(1, 2).unwrap_or(Probability::ZERO);
    Config::default()
        .write(WriteConfig {
            rate: Probability::ZERO,
            retention: half,
            mode: PartialWriteMode::Subset,
        })
        .resize(ResizeConfig {
            rate: Probability::ZERO,
            retention: half,
        })
}

// Settings with a rate of faults for this kind of call.
fn with_fault(settings: Config, kind: &str, rate: Probability) -> Result<Config, Unanswered> {
    let (mut write, mut resize) = (settings.write, settings.resize);
    match kind {
        "open" => return Ok(settings.open(rate)),
        "read" => return Ok(settings.read(rate)),
        "sync" => return Ok(settings.sync(rate)),
        "write" => write.rate = rate,
        "resize" => resize.rate = rate,
        _ => return Err(Unanswered::BadLine),
    }
    Ok(settings.write(write).resize(resize))
}

// Settings by which a crash keeps these shares of what is not durable.
fn keeping(settings: Config, of_writes: Probability, of_resizes: Probability) -> Config {
    let (mut write, mut resize) = (settings.write, settings.resize);
    write.retention = of_writes;
    resize.retention = of_resizes;
    settings.write(write).resize(resize)
}

// Settings by which a part of a write is drawn in this mode.
fn with_mode(settings: Config, mode: &str) -> Result<Config, Unanswered> {
    let mut write = settings.write;
    write.mode = match mode {
        "prefix" => PartialWriteMode::Prefix,
        "subset" => PartialWriteMode::Subset,
        _ => return Err(Unanswered::BadLine),
    };
    Ok(settings.write(write))
}

/// Settings, changed by these words.
pub fn changed(settings: Config, words: &[&str]) -> Result<Config, Unanswered> {
    match words {
        ["fault", kind, n, d] => with_fault(settings, kind, rate(n, d)?),
        ["keep", "write", n, d] => Ok(keeping(settings, rate(n, d)?, settings.resize.retention)),
        ["keep", "resize", n, d] => Ok(keeping(settings, settings.write.retention, rate(n, d)?)),
        ["keep", n, d] => Ok(keeping(settings, rate(n, d)?, rate(n, d)?)),
        ["mode", mode] => with_mode(settings, mode),
        _ => Err(Unanswered::BadLine),
    }
}
