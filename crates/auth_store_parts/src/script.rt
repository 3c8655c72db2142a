//! The texts of the script language: a text of lines, each of words with one space between, and its answers.

pub mod input;
pub mod key;
pub mod line;
pub mod number;
pub mod report;
pub mod words;

pub use input::{InputError, MAX_READS, MAX_SCRIPT_BYTES, read_script};
pub use key::parse_key;
pub use line::{Line, parse_line};
pub use number::parse_number;
pub use words::{FaultKind, TornMode, TreeFamily};
