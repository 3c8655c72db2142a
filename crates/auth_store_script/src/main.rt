//! Runs a script of the authenticated store over a device that fails: reads it from standard input, and writes a line
//! for most of its lines.
#![tactic(auto)]

use auth_store::script::run_script;
use std::process::ExitCode;

fn main(rt: HostRuntime) -> ExitCode {
    let end = run_script(rt.alloc(), &mut rt.stdin(), &mut rt.stdout());
    ExitCode::from(end.status)
}
