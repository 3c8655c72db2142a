//! How the answers of a script's session are printed.

ghost use Rattle.std.specs.Prelude.{◌≡◌, ◌↔◌, [], None, OnOk, IsSomeAnd, codes};
ghost use Rattle.std.specs.Io.KnownBytes.{Appends};
ghost use Rattle.auth_store_parts.specs.Report.{reported};
ghost use Rattle.auth_store_session.specs.MachineCode.{meaning_of};
ghost use Rattle.auth_store.specs.ScriptLines.{answer_line, count_line, checked_line, bytes_of, value_of};

use super::end::End;
use auth_store_parts::script::report::{
    report_check, report_closed, report_commit, report_crashed, report_error, report_floor,
    report_len, report_none, report_ok, report_open, report_pruned, report_root, report_value,
};
use auth_store_session::{Answer, StoreError};
use merkle_forest::Family;
use merkle_forest::codec::FixedBytes;
use merkle_forest::digest::Digest;
use std::alloc::{AllocError, Global};
use std::io;
use std::io::Write;

pub(crate) type Keys = FixedBytes<8>;

pub(crate) type ScriptAnswer<F> = Answer<F, FixedBytes<32>, Keys, u64>;

// Prints an answer. One that has no line of its own came to a line out of place.
pub(crate) fn report<F: Family, W: Write>(
    alloc: Global,
    out: &mut W,
    answer: ScriptAnswer<F>,
) -> Result<(), End>
    ensures line { OnOk result (IsSomeAnd (answer_line (meaning_of bytes_of bytes_of value_of answer))
        (λ line. Appends (W.contents out.old) (W.contents out.new) (reported line))) }
    ensures bad { result ≡ Err End.BadLine ↔ (answer_line (meaning_of bytes_of bytes_of value_of answer) ≡ None) }
    ensures quiet { result ≡ Err End.BadLine → Appends (W.contents out.old) (W.contents out.new) [] }
{
    match answer {
        Answer::Value(Some(value)) => Ok(report_value(out, value)?),
        Answer::Value(None) => Ok(report_none(out)?),
        Answer::Root(root) => Ok(report_root(alloc, out, root.as_bytes())?),
        Answer::Floor(location) => Ok(report_floor(out, location)?),
        Answer::Len(count) => Ok(report_len(out, count)?),
        Answer::Pruned(chunks) => Ok(report_pruned(out, chunks)?),
        Answer::Closed => Ok(report_closed(out)?),
        Answer::Crashed => Ok(report_crashed(out)?),
        Answer::Set => Ok(report_ok(out)?),
        Answer::Refused(error) => Ok(report_error(out, error.number())?),
        _ => Err(End::BadLine),
    }
}

// Prints how many commits an opened store has, or what else was answered.
pub(crate) fn report_opened<F: Family, W: Write>(
    alloc: Global,
    out: &mut W,
    answer: ScriptAnswer<F>,
) -> Result<(), End>
    ensures line { OnOk result (IsSomeAnd (count_line (codes "open ") (meaning_of bytes_of bytes_of value_of answer))
        (λ line. Appends (W.contents out.old) (W.contents out.new) (reported line))) }
    ensures bad { result ≡ Err End.BadLine
        ↔ (count_line (codes "open ") (meaning_of bytes_of bytes_of value_of answer) ≡ None) }
    ensures quiet { result ≡ Err End.BadLine → Appends (W.contents out.old) (W.contents out.new) [] }
{
    match answer {
        Answer::Commits(commits) => Ok(report_open(out, commits)?),
        other => report(alloc, out, other),
    }
}

// Prints how many commits there are after one, or what else was answered.
pub(crate) fn report_committed<F: Family, W: Write>(
    alloc: Global,
    out: &mut W,
    answer: ScriptAnswer<F>,
) -> Result<(), End>
    ensures line { OnOk result (IsSomeAnd (count_line (codes "commit ") (meaning_of bytes_of bytes_of value_of answer))
        (λ line. Appends (W.contents out.old) (W.contents out.new) (reported line))) }
    ensures bad { result ≡ Err End.BadLine
        ↔ (count_line (codes "commit ") (meaning_of bytes_of bytes_of value_of answer) ≡ None) }
    ensures quiet { result ≡ Err End.BadLine → Appends (W.contents out.old) (W.contents out.new) [] }
{
    match answer {
        Answer::Commits(commits) => Ok(report_commit(out, commits)?),
        other => report(alloc, out, other),
    }
}

// Prints what a check answers.
pub(crate) fn report_checked<W: Write>(
    out: &mut W,
    checked: Result<bool, AllocError>,
) -> io::Result<()>
    ensures { OnOk result (Appends (W.contents out.old) (W.contents out.new) (reported (checked_line checked))) }
{
    match checked {
        Ok(holds) => report_check(out, holds),
        Err(_) => report_error(out, StoreError::Memory.number()),
    }
}
