//! What the program prints: one line for each answer.

ghost use Rattle.std.specs.Prelude.{◌++◌, ◌∷◌, [], codes, OnOk, if◌then◌else◌};
ghost use Rattle.std.specs.Fmt.{decimal};
ghost use Rattle.std.specs.Io.KnownBytes.{Appends};
ghost use Rattle.hex.specs.Hex.{encode_lower};
ghost use Rattle.auth_store_parts.specs.Report.{reported};

use std::alloc::Global;
use std::io;
use std::io::Write;

/// Prints `new`. Where the writer fails, a part of the line may have been written, as in each function here.
pub fn report_new<W: Write>(out: &mut W) -> io::Result<()>
    ensures { OnOk result (Appends (W.contents out.old) (W.contents out.new) (reported (codes "new"))) }
{
    out.write_all(b"new\n")
}

/// Prints `open N`.
pub fn report_open<W: Write>(out: &mut W, count: u64) -> io::Result<()>
    ensures { OnOk result (Appends (W.contents out.old) (W.contents out.new)
        (reported (codes "open " ++ decimal count))) }
{
    writeln!(out, "open {count}")
}

/// Prints `commit N`.
pub fn report_commit<W: Write>(out: &mut W, count: u64) -> io::Result<()>
    ensures { OnOk result (Appends (W.contents out.old) (W.contents out.new)
        (reported (codes "commit " ++ decimal count))) }
{
    writeln!(out, "commit {count}")
}

/// Prints `value V`.
pub fn report_value<W: Write>(out: &mut W, value: u64) -> io::Result<()>
    ensures { OnOk result (Appends (W.contents out.old) (W.contents out.new)
        (reported (codes "value " ++ decimal value))) }
{
    writeln!(out, "value {value}")
}

/// Prints `none`.
pub fn report_none<W: Write>(out: &mut W) -> io::Result<()>
    ensures { OnOk result (Appends (W.contents out.old) (W.contents out.new) (reported (codes "none"))) }
{
    out.write_all(b"none\n")
}

/// Prints `root HEX`, with the digest's bytes in lower case. Out of memory for the digits fails too.
pub fn report_root<W: Write>(alloc: Global, out: &mut W, digest: &[u8]) -> io::Result<()>
    ensures { OnOk result (Appends (W.contents out.old) (W.contents out.new)
        (reported (codes "root " ++ encode_lower digest.now))) }
{
    let digits = hex::encode(alloc, digest)?;
    writeln!(out, "root {digits}")
}

/// Prints `floor N`.
pub fn report_floor<W: Write>(out: &mut W, location: u64) -> io::Result<()>
    ensures { OnOk result (Appends (W.contents out.old) (W.contents out.new)
        (reported (codes "floor " ++ decimal location))) }
{
    writeln!(out, "floor {location}")
}

/// Prints `len N`.
pub fn report_len<W: Write>(out: &mut W, count: u64) -> io::Result<()>
    ensures { OnOk result (Appends (W.contents out.old) (W.contents out.new)
        (reported (codes "len " ++ decimal count))) }
{
    writeln!(out, "len {count}")
}

/// Prints `pruned Q`.
pub fn report_pruned<W: Write>(out: &mut W, chunks: u64) -> io::Result<()>
    ensures { OnOk result (Appends (W.contents out.old) (W.contents out.new)
        (reported (codes "pruned " ++ decimal chunks))) }
{
    writeln!(out, "pruned {chunks}")
}

/// Prints `ok`.
pub fn report_ok<W: Write>(out: &mut W) -> io::Result<()>
    ensures { OnOk result (Appends (W.contents out.old) (W.contents out.new) (reported (codes "ok"))) }
{
    out.write_all(b"ok\n")
}

/// Prints `closed`.
pub fn report_closed<W: Write>(out: &mut W) -> io::Result<()>
    ensures { OnOk result (Appends (W.contents out.old) (W.contents out.new) (reported (codes "closed"))) }
{
    out.write_all(b"closed\n")
}

/// Prints `crashed`.
pub fn report_crashed<W: Write>(out: &mut W) -> io::Result<()>
    ensures { OnOk result (Appends (W.contents out.old) (W.contents out.new) (reported (codes "crashed"))) }
{
    out.write_all(b"crashed\n")
}

/// Prints `present V`.
pub fn report_present<W: Write>(out: &mut W, value: u64) -> io::Result<()>
    ensures { OnOk result (Appends (W.contents out.old) (W.contents out.new)
        (reported (codes "present " ++ decimal value))) }
{
    writeln!(out, "present {value}")
}

/// Prints `absent`.
pub fn report_absent<W: Write>(out: &mut W) -> io::Result<()>
    ensures { OnOk result (Appends (W.contents out.old) (W.contents out.new) (reported (codes "absent"))) }
{
    out.write_all(b"absent\n")
}

/// Prints `proof HEX`, with the proof's bytes in lower case. Out of memory for the digits fails too.
pub fn report_proof<W: Write>(alloc: Global, out: &mut W, proof: &[u8]) -> io::Result<()>
    ensures { OnOk result (Appends (W.contents out.old) (W.contents out.new)
        (reported (codes "proof " ++ encode_lower proof.now))) }
{
    let digits = hex::encode(alloc, proof)?;
    writeln!(out, "proof {digits}")
}

/// Prints `yes` or `no`.
pub fn report_check<W: Write>(out: &mut W, holds: bool) -> io::Result<()>
    ensures { OnOk result (Appends (W.contents out.old) (W.contents out.new)
        (reported (if holds then codes "yes" else codes "no"))) }
{
    if holds {
        out.write_all(b"yes\n")
    } else {
        out.write_all(b"no\n")
    }
}

/// Prints `error CODE`, with a refusal's short name, such as `S3`.
pub fn report_error<W: Write>(out: &mut W, code: &str) -> io::Result<()>
    ensures { OnOk result (Appends (W.contents out.old) (W.contents out.new) (reported (codes "error " ++ code.now))) }
{
    writeln!(out, "error {code}")
}

/// Prints `bad line N`, with the line's number from 1.
pub fn report_bad_line<W: Write>(out: &mut W, number: u64) -> io::Result<()>
    ensures { OnOk result (Appends (W.contents out.old) (W.contents out.new)
        (reported (codes "bad line " ++ decimal number))) }
{
    writeln!(out, "bad line {number}")
}
