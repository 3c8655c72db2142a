//! Tests of what needs more than a line: an explorer of crashes at each moment of a writer, and reads of pages with a
//! tip behind them. They stand apart, so that the gate proves what is tested once.
#![tactic(auto)]

#[cfg(test)]
mod blobs;
