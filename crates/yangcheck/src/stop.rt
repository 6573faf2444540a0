//! Why a run ends before it compiles.
use std::alloc::{AllocError, Global};
use std::fmt::Display;
use yv_note_text::push_shown;
use yv_run::{RunEnd, Status};

/// What stopped a run before it compiled.
#[derive(Drop)]
pub(crate) enum Stop {
    /// The words ask for what can't be done. The text is for standard error.
    Usage(String),
    /// A file can't be read, or there is no memory.
    Ended(RunEnd),
}

impl Stop {
    /// Memory was refused.
    pub(crate) fn no_memory() -> Stop {
        Stop::Ended(RunEnd::stop_with_note(Status::NoMemory, Ok(None)))
    }

    /// The words ask for what can't be done, for this reason.
    pub(crate) fn usage(alloc: Global, reason: &str) -> Stop {
        Stop::of_usage(format!(in alloc; "yangcheck: usage\n{reason}\n"))
    }

    /// A folder was named as a file.
    pub(crate) fn folder(alloc: Global, name: &str) -> Stop {
        Stop::of_usage(format!(in alloc;
            "yangcheck: usage\n\"{name}\" is a folder; --path {name} finds the modules in it\n"
        ))
    }

    // The words ask for what can't be done, by this text.
    fn of_usage(text: Result<String, AllocError>) -> Stop {
        match text {
            Ok(text) => Stop::Usage(text),
            Err(_) => Stop::no_memory(),
        }
    }

    /// A file or a folder of this name can't be read, for this reason of the system's.
    pub(crate) fn unread_file<D: Display + Drop>(alloc: Global, name: &str, reason: D) -> Stop {
        Stop::Ended(read_failure(alloc, name, reason))
    }
}

/// A run that is stopped by a file that can't be opened or read, with the file's name and the
/// system's reason.
pub(crate) fn read_failure<D: Display + Drop>(alloc: Global, name: &str, reason: D) -> RunEnd {
    let note = unread_note(alloc, name.as_bytes(), None, reason).map(Some);
    RunEnd::stop_with_note(Status::ReadFault, note)
}

/// What stands before the number of an error, where the system's reason ends with one.
const ERROR_NUMBER: &str = " (os error ";

// A reason without the number of the system's error, which says nothing to a person.
fn without_number(reason: &str) -> &str {
    match reason.rsplit_once(ERROR_NUMBER) {
        Some((words, _)) => words,
        None => reason,
    }
}

/// The name of a file as a terminal may show it, with the number of its line where it is one line
/// of the file that can't be read, and why it can't be read.
pub(crate) fn unread_note<D: Display + Drop>(
    alloc: Global,
    name: &[u8],
    line: Option<u64>,
    reason: D,
) -> Result<String, AllocError> {
    let mut note = String::new(alloc);
    push_shown(&mut note, name)?;
    let whole = format!(in alloc; "{reason}")?;
    let words = without_number(whole.as_str());
    let reason = match line {
        Some(line) => format!(in alloc; ":{line}: {words}\n")?,
        None => format!(in alloc; ": {words}\n")?,
    };
    note.push_str(reason.as_str())?;
    Ok(note)
}
