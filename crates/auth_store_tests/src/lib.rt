//! Tests of scripts: what whole runs print, and how they end where reading or writing fails.
#![tactic(auto)]

#[cfg(test)]
mod failing;
#[cfg(test)]
mod scripts;
