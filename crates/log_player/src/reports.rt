//! What the script prints, as the digits of its bytes.

use auth_store_parts::script::report::{
    report_absent, report_bad_line, report_check, report_closed, report_commit, report_crashed,
    report_error, report_floor, report_len, report_new, report_none, report_ok, report_open,
    report_present, report_proof, report_pruned, report_root, report_value,
};
use case_lines::{Unanswered, bytes, digits};
use std::alloc::Global;
use std::io;

// Prints an answer that carries a number.
fn number(out: &mut Vec<u8>, name: &str, number: u64) -> Result<io::Result<()>, Unanswered> {
    match name {
        "open" => Ok(report_open(out, number)),
        "commit" => Ok(report_commit(out, number)),
        "value" => Ok(report_value(out, number)),
        "present" => Ok(report_present(out, number)),
        "floor" => Ok(report_floor(out, number)),
        "len" => Ok(report_len(out, number)),
        "pruned" => Ok(report_pruned(out, number)),
        "bad" => Ok(report_bad_line(out, number)),
        _ => Err(Unanswered::BadLine),
    }
}

// Prints an answer.
fn print(alloc: Global, out: &mut Vec<u8>, words: &[&str]) -> Result<io::Result<()>, Unanswered> {
    match words {
        ["new"] => Ok(report_new(out)),
        ["none"] => Ok(report_none(out)),
        ["absent"] => Ok(report_absent(out)),
        ["yes"] => Ok(report_check(out, true)),
        ["no"] => Ok(report_check(out, false)),
        ["ok"] => Ok(report_ok(out)),
        ["closed"] => Ok(report_closed(out)),
        ["crashed"] => Ok(report_crashed(out)),
        ["error", code] => Ok(report_error(out, code)),
        ["root", digits] => Ok(report_root(alloc, out, &bytes(alloc, digits)?)),
        ["proof", digits] => Ok(report_proof(alloc, out, &bytes(alloc, digits)?)),
        [name, count] => number(out, name, count.parse()?),
        _ => Err(Unanswered::BadLine),
    }
}

/// What is printed for an answer of the script.
pub fn answer(alloc: Global, words: &[&str]) -> Result<String, Unanswered> {
    let mut out = Vec::new(alloc);
    match print(alloc, &mut out, words)? {
        Ok(()) => digits(alloc, &out),
        Err(_) => Err(Unanswered::Memory),
    }
}
