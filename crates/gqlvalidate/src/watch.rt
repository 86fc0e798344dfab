//! Runs that begin again whenever a file changes.

use crate::configured::{check_configured, settings_of};
use crate::snapshots::Snapshot;
use gqlvalidate_check::presentations::Presentation;
use gqlvalidate_check::{KeptRuns, Repeated, Words};
use gqlvalidate_inputs::faults::{Fault, fault_of_output};
use gqlvalidate_inputs::printable::Printable;
use gqlvalidate_inputs::statuses::Status;
use gqlvalidate_words::ConfigurationChoice;
use std::alloc::{AllocError, Global};
use std::io::{Read, Write};
use std::rt::Files;
use std::thread;
use std::time::{Clock, Duration};

/// So many milliseconds pass between two looks at the files.
const PAUSE: u64 = 300;

/// Validates what the words and the configuration name, and does so again whenever a file of the run changes, comes or goes: it then validates again only
/// that of which something else may be reported. Ends with the status of the last run if standard output cannot be written, or memory is refused; a run
/// that ends for another reason is followed by the next one.
pub fn repeat<R: Files + AllocGlobal + Clock + Clone + Drop, I: Read, O: Write, F: Write>(
    rt: &R,
    words: Words<'_>,
    choice: ConfigurationChoice<'_>,
    presentation: Presentation,
    input: &mut I,
    output: &mut O,
    faults: &mut F,
) -> Result<Status, Fault> {
    let mut status = Status::Accepted;
    let mut kept = KeptRuns::new(rt.alloc(), true);
    for _ in 0..u64::MAX {
        let before = snapshot(rt, words, choice)?;
        let ended = check_configured(
            rt,
            words,
            choice,
            presentation,
            &mut kept,
            input,
            output,
            faults,
        );
        status = status_of(ended, faults)?;
        output.flush().map_err(fault_of_output)?;
        say_waiting(kept.end(rt.alloc()), faults);
        wait(rt, words, choice, &before, faults)?;
    }
    Ok(status)
}

/// The status of a run. A fault of its words ends the run alone.
fn status_of<F: Write>(ended: Result<Status, Fault>, faults: &mut F) -> Result<Status, Fault> {
    match ended {
        Err(fault) => match fault {
            Fault::WordRefused | Fault::NoDocument => {
                fault.explain(faults);
                Ok(fault.status())
            }
            _ => Err(fault),
        },
        Ok(status) => Ok(status),
    }
}

/// Says on standard error that the run ended, and what it validated again, if that was not all. That this fails changes nothing.
fn say_waiting<F: Write>(repeated: Option<Repeated>, faults: &mut F) {
    let _ = match repeated {
        Some(Repeated { documents, all }) => {
            writeln!(
                faults,
                "waiting for changes (validated {documents} of {all} documents again)"
            )
        }
        None => writeln!(faults, "waiting for changes"),
    };
}

/// Waits until a file differs from this snapshot, and says on standard error which one does.
fn wait<R: Files + AllocGlobal + Clock + Clone + Drop, F: Write>(
    rt: &R,
    words: Words<'_>,
    choice: ConfigurationChoice<'_>,
    before: &Snapshot,
    faults: &mut F,
) -> Result<(), AllocError> {
    for _ in 0..u64::MAX {
        thread::sleep(rt, Duration::from_millis(PAUSE));
        let now = snapshot(rt, words, choice)?;
        if let Some(path) = difference(rt.alloc(), before, &now)? {
            say_changed(path.as_str(), faults);
            return Ok(());
        }
    }
    Ok(())
}

/// The path of the first file that differs, if one does.
fn difference(
    alloc: Global,
    before: &Snapshot,
    now: &Snapshot,
) -> Result<Option<String>, AllocError> {
    if let Some(path) = now.first_difference(before) {
        return Ok(Some(String::from_str(alloc, path)?));
    }
    match before.first_difference(now) {
        Some(path) => Ok(Some(String::from_str(alloc, path)?)),
        None => Ok(None),
    }
}

/// Says on standard error which file changed. That this fails changes nothing.
fn say_changed<F: Write>(path: &str, faults: &mut F) {
    let path = Printable(path);
    let _ = writeln!(faults, "\n{path} changed");
}

/// The files that the words and the configuration name.
fn snapshot<R: Files + AllocGlobal + Clone + Drop>(
    rt: &R,
    words: Words<'_>,
    choice: ConfigurationChoice<'_>,
) -> Result<Snapshot, AllocError> {
    let mut snapshot = Snapshot::new(rt.alloc());
    snapshot.add_words(rt, words.schema)?;
    snapshot.add_words(rt, words.documents)?;
    snapshot.add_words(rt, words.fragments)?;
    if let Some(list) = words.files_from {
        snapshot.add_path(rt, list.file)?;
    }
    match settings_of(rt, choice.configuration) {
        Ok(Some(settings)) => snapshot.add_settings(rt, &settings)?,
        Ok(None) => {}
        Err(fault) => snapshot.add_fault(rt, &fault)?,
    }
    Ok(snapshot)
}
