//! Settings, by words.

use case_lines::Unanswered;
use fault_storage::{Config, PartialWriteMode, Probability, ResizeConfig, WriteConfig};

/// The mode of this name.
pub fn mode(word: &str) -> Result<PartialWriteMode, Unanswered> {
    match word {
        "prefix" => Ok(PartialWriteMode::Prefix),
        "subset" => Ok(PartialWriteMode::Subset),
        _ => Err(Unanswered::BadLine),
    }
}

/// The rate of this numerator and denominator.
pub fn rate(numerator: &str, denominator: &str) -> Result<Probability, Unanswered> {
    Probability::new(numerator.parse()?, denominator.parse()?).ok_or(Unanswered::BadLine)
}

/// The settings with one more.
pub fn with_setting(config: Config, words: &[&str]) -> Result<Config, Unanswered> {
    match words {
        ["open", n, d] => Ok(config.open(rate(n, d)?)),
        ["read", n, d] => Ok(config.read(rate(n, d)?)),
        ["sync", n, d] => Ok(config.sync(rate(n, d)?)),
        ["remove", n, d] => Ok(config.remove(rate(n, d)?)),
        ["scan", n, d] => Ok(config.scan(rate(n, d)?)),
        ["resize", n, d, kept, of] => Ok(config.resize(ResizeConfig {
            rate: rate(n, d)?,
            retention: rate(kept, of)?,
        })),
        ["write", n, d, kept, of, torn] => Ok(config.write(WriteConfig {
            rate: rate(n, d)?,
            retention: rate(kept, of)?,
            mode: mode(torn)?,
        })),
        _ => Err(Unanswered::BadLine),
    }
}
