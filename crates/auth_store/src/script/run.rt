//! A whole run of a script.

ghost use Rattle.std.specs.Prelude.{◌≡◌, ◌<◌, ◌≤◌, ◌^◌, ◌⊎◌, ◌++◌, ◌∷◌, ◌==◌, [], List, length, option_map};
ghost use Rattle.std.specs.Prelude.{position, MatchOption};
ghost use Rattle.std.specs.Prelude.{IfSome, codes};
ghost use Rattle.std.specs.Fmt.{decimal};
ghost use Rattle.std.specs.Io.KnownBytes.{Appends};
ghost use Rattle.auth_store_parts.specs.Line.{line_of};
ghost use Rattle.auth_store_parts.specs.Report.{reported};
ghost use Rattle.auth_store.specs.ScriptLines.{Exchange};
ghost use Rattle.auth_store.specs.ScriptRun.{Ends, IsRunOf, Prints, Stops, lines_of};
ghost use Rattle.auth_store.specs.ScriptCode.{DoesText, Handled, IsRunning, kept_in, now_in};

use super::device::new_device;
use super::end::End;
use super::running::Running;
use auth_store_device::Device;
use auth_store_parts::script::report::{report_bad_line, report_new};
use auth_store_parts::script::{InputError, Line, parse_line, read_script};
use rand_pcg::Pcg32;
use std::alloc::Global;
use std::io::{Read, Write};

/// The status of a run to the end of the script.
pub const DONE: u8 = 0;

/// The status of a run in which reading or writing failed.
pub const IO_FAILED: u8 = 1;

/// The status of a run that a bad line ended.
pub const BAD_LINE: u8 = 2;

/// The status of a run in which the script itself was out of memory.
pub const NO_MEMORY: u8 = 3;

/// How a run of a script ended.
#[derive(Drop)]
pub struct ScriptEnd {
    /// 0 at the end of the script, 1 where reading or writing failed, 2 after a bad line, 3 where the script itself was
    /// out of memory.
    pub status: u8,
    /// The device on which the script's store was, closed, where the script began one. Its openings tell whether one of
    /// them was by chance.
    pub device: Option<Device<Pcg32>>,
}

// Takes a line: the first one that isn't empty begins the run.
fn take_line<W: Write>(
    alloc: Global,
    running: &mut Option<Running>,
    out: &mut W,
    text: &[u8],
) -> Result<(), End>
    ensures { Handled (DoesText (option_map now_in running.old) (line_of text.now) (option_map now_in running.new))
        (W.contents out.old) (W.contents out.new) result }
{
    let Some(line) = parse_line(text) else {
        return Err(End::BadLine);
    };
    if let Some(running) = running {
        return running.step(out, line);
    }
    match line {
        Line::Empty => Ok(()),
        Line::New { family, seed } => {
            let device = new_device(alloc, seed)?;
            *running = Some(Running::new(alloc, family, seed, device));
            Ok(report_new(out)?)
        }
        _ => Err(End::BadLine),
    }
}

// Ends the run at a line with this number, and answers the status. A bad line is printed first.
fn end_run<W: Write>(out: &mut W, end: End, number: u64) -> u8
    ensures memory { end ≡ End.Memory → result ≡ 3 }
    ensures io { end ≡ End.Io → result ≡ 1 }
    ensures bad { end ≡ End.BadLine → (result ≡ 1)
        ⊎ ((result ≡ 2) × Appends (W.contents out.old) (W.contents out.new)
        (reported (codes "bad line " ++ decimal number))) }
{
    match end {
        End::Memory => NO_MEMORY,
        End::Io => IO_FAILED,
        End::BadLine => match report_bad_line(out, number) {
            Ok(()) => BAD_LINE,
            Err(_) => IO_FAILED,
        },
    }
}

// Where the first newline stands.
fn newline(text: &[u8]) -> Option<usize>
    ensures { result ≡ position (λ byte. byte == 10) text.now }
{
    text.iter().position(|byte| *byte == b'\n')
}

// The first line of a text, and what stands after its newline, if it has one.
fn cut_line(text: &[u8]) -> (&[u8], Option<&[u8]>)
    ensures cut { MatchOption result.1 (lines_of text.now ≡ result.0.now ∷ [])
        (λ rest. lines_of text.now ≡ result.0.now ∷ lines_of rest.now) }
    ensures shorter { IfSome result.1 (λ rest. length rest.now < length text.now) }
{
    match newline(text) {
        Some(end) => (&text[..end], Some(&text[end + 1..])),
        None => (text, None),
    }
}

// The device of a run, closed, where there is one.
fn device_of(running: Option<Running>) -> Option<Device<Pcg32>>
    ensures { (exchanges : List Exchange) → IsRunning exchanges (option_map now_in running)
        → IsRunOf (kept_in (option_map now_in running)) result exchanges }
{
    match running {
        Some(running) => Some(running.into_device()),
        None => None,
    }
}

// Takes all lines.
fn run_lines<W: Write>(alloc: Global, script: &[u8], out: &mut W) -> ScriptEnd
    requires { length script.now ≤ 2 ^ 24 }
    ensures done { result.status ≡ 0 → Prints (W.contents out.old) (W.contents out.new)
        (Ends script.now result.device) }
    ensures bad { result.status ≡ 2 → Prints (W.contents out.old) (W.contents out.new)
        (Stops script.now result.device) }
    ensures status { result.status ≤ 3 }
{
    let mut running = None;
    let mut number = 0u64;
    let mut left = Some(script);
    while let Some(text) = left {
        let (line, rest) = cut_line(text);
        number += 1;
        if let Err(end) = take_line(alloc, &mut running, out, line) {
            let status = end_run(out, end, number);
            return ScriptEnd {
                status,
                device: device_of(running),
            };
        }
        left = rest;
    }
    ScriptEnd {
        status: DONE,
        device: device_of(running),
    }
}

// The status of a script that was not read.
fn status_of(refused: InputError) -> u8
    ensures memory { refused ≡ InputError.Memory → result ≡ 3 }
    ensures read { refused ≡ InputError.Read → result ≡ 1 }
{
    match refused {
        InputError::Memory => NO_MEMORY,
        InputError::Read => IO_FAILED,
    }
}

/// Reads the whole script, runs it line by line over a device of its own, and answers how it ended, with the device:
/// where none of its openings is by chance, what the lines asked and were answered is a run of the store's machine.
pub fn run_script<R: Read, W: Write>(alloc: Global, reader: &mut R, writer: &mut W) -> ScriptEnd
    ensures done { result.status ≡ 0 → IfSome (R.remaining reader.old) (λ script.
        Prints (W.contents writer.old) (W.contents writer.new)
        (Ends script result.device)) }
    ensures bad { result.status ≡ 2 → IfSome (R.remaining reader.old) (λ script.
        Prints (W.contents writer.old) (W.contents writer.new)
        (Stops script result.device)) }
    ensures status { result.status ≤ 3 }
{
    match read_script(alloc, reader) {
        Ok(script) => run_lines(alloc, &script, writer),
        Err(refused) => ScriptEnd {
            status: status_of(refused),
            device: None,
        },
    }
}
