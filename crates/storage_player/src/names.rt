//! Names that are open: a call that is made while one of them is.

use crate::told::{done, refused};
use case_lines::{Unanswered, bytes};
use fault_storage::{Error, OpenBlob, Opens, Storage, Versions};
use std::alloc::Global;

// The answer to an opening, and closes what it opened.
fn opened<B: Drop>(
    alloc: Global,
    opens: &mut Opens,
    answer: Result<OpenBlob<B>, Error>,
) -> Result<String, Unanswered> {
    match answer {
        Ok(open) => {
            let shown = open.opened();
            let (size, version) = (shown.size, shown.version);
            opens.close(open);
            Ok(format!(in alloc; "{size} {version}")?)
        }
        Err(error) => refused(alloc, error),
    }
}

// The answer to a call of the names that are open.
fn answer<S: Storage<Blob = B>, B: Drop>(
    alloc: Global,
    opens: &mut Opens,
    storage: &mut S,
    versions: Versions,
    words: &[&str],
) -> Result<String, Unanswered> {
    match words {
        ["open", partition, name] => {
            let name = bytes(alloc, name)?;
            let answer = opens.open(storage, partition, &name, versions);
            opened(alloc, opens, answer)
        }
        ["remove", partition] => done(alloc, opens.remove(storage, partition, None)),
        ["remove", partition, name] => {
            let name = bytes(alloc, name)?;
            done(alloc, opens.remove(storage, partition, Some(&name)))
        }
        ["replace", partition, name] => {
            let name = bytes(alloc, name)?;
            done(alloc, opens.replace(partition, &name, || Ok(())))
        }
        _ => Err(Unanswered::BadLine),
    }
}

/// Opens a name, answers a call that is made while it is open, and closes it. The refusal of the first opening, where
/// it is refused.
pub fn while_open<S: Storage<Blob = B>, B: Drop>(
    alloc: Global,
    storage: &mut S,
    versions: Versions,
    words: &[&str],
) -> Result<String, Unanswered> {
    let [partition, name, words @ ..] = words else {
        return Err(Unanswered::BadLine);
    };
    let name = bytes(alloc, name)?;
    let mut opens = Opens::new(alloc);
    match opens.open(storage, partition, &name, versions) {
        Ok(open) => {
            let told = answer(alloc, &mut opens, storage, versions, words);
            opens.close(open);
            told
        }
        Err(error) => refused(alloc, error),
    }
}
