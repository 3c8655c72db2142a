//! The script language of the store's program: a text of lines, each of words with one space between.

mod answers;
pub mod device;
mod end;
mod family;
mod progress;
pub mod run;
mod running;
mod settings;

pub use auth_store_parts::script::{
    FaultKind, InputError, Line, MAX_READS, MAX_SCRIPT_BYTES, TornMode, TreeFamily, input, key,
    line, number, parse_key, parse_line, parse_number, read_script, report, words,
};
pub use device::new_device;
pub use run::{ScriptEnd, run_script};
