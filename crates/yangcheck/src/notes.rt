//! Notes on many documents: they go to standard error, and not without end.
ghost use Rattle.std.specs.Prelude.{◌≡◌};

use crate::stop::unread_note;
use std::alloc::Global;
use std::cell::Cell;
use std::io::Error;
use yv_batch::{Content, Documents, Fetched};
use yv_run::NoteSink;

/// How many documents have a note.
const MOST_NOTES: u32 = 20;

/// How many bytes the name of a file may have.
const MOST_NAME_BYTES: usize = 4_095;

/// How many documents may still have a note. All that show notes share it.
pub(crate) fn note_count() -> Cell<u32> {
    Cell::new(MOST_NOTES)
}

/// Standard error as the place of notes: the first 20 documents that want one have a note.
#[derive(Drop)]
pub(crate) struct ErrorNotes<'a, R> {
    rt: &'a R,
    left: &'a Cell<u32>,
    has_labels: bool,
}

impl<'a, R> ErrorNotes<'a, R> {
    /// The place of notes, of which so many are left. Their lines may have labels.
    pub(crate) fn new(rt: &'a R, left: &'a Cell<u32>, has_labels: bool) -> ErrorNotes<'a, R> {
        ErrorNotes {
            rt,
            left,
            has_labels,
        }
    }
}

impl<R: Eprint> NoteSink for ErrorNotes<'_, R> {
    fn wants_note(&self) -> bool {
        self.left.get() > 0
    }

    fn wants_labels(&self) -> bool {
        self.has_labels
    }

    fn show(&mut self, note: &str) {
        self.left.set(self.left.get().saturating_sub(1));
        let _ = self.rt.eprint(note);
    }

    fn add(&mut self, line: &str) {
        let _ = self.rt.eprint(line);
    }
}

/// A document that could not be read, as its note names it.
#[derive(Clone, Copy)]
struct Unread {
    line: Option<u64>,
}

/// Documents, with a note on each that can't be read. It is shown when the next one is asked for,
/// so that it comes after the document's lines.
#[derive(Drop)]
pub(crate) struct NotedDocuments<'a, D, N> {
    documents: D,
    notes: N,
    failure: &'a Cell<Option<Error>>,
    unread: Option<Unread>,
}

// The document that was fetched, if it could not be read.
fn unread_of(fetched: &Option<Fetched>) -> Option<Unread> {
    match fetched {
        Some(
            Fetched {
                line,
                content: Content::Unread,
            },
        ) => Some(Unread { line: *line }),
        _ => None,
    }
}

// Why a document can't be read for which the system gave no error.
fn reason_without_error(name: &[u8]) -> &'static str {
    if name.len() > MOST_NAME_BYTES {
        "its name has more than 4095 bytes"
    } else if str::from_utf8(name).is_err() {
        "its name is not UTF-8"
    } else {
        "reading it failed"
    }
}

impl<'a, D: Documents, N: NoteSink> NotedDocuments<'a, D, N> {
    /// These documents, with such notes. Here the system's last error is noted.
    pub(crate) fn new(
        documents: D,
        notes: N,
        failure: &'a Cell<Option<Error>>,
    ) -> NotedDocuments<'a, D, N> {
        NotedDocuments {
            documents,
            notes,
            failure,
            unread: None,
        }
    }

    // Shows why the last document could not be read, unless it could, or nobody would see it, or
    // there is no memory for the note.
    fn show_unread(&mut self, alloc: Global)
        ensures { self.new.documents ≡ self.old.documents }
    {
        let failure = self.failure.replace(None);
        let Some(unread) = self.unread else {
            return;
        };
        if !self.notes.wants_note() {
            return;
        }
        let name = self.documents.name();
        let note = match failure {
            Some(error) => unread_note(alloc, name, unread.line, error),
            None => unread_note(alloc, name, unread.line, reason_without_error(name)),
        };
        if let Ok(note) = note {
            self.notes.show(note.as_str());
        }
    }
}

impl<D: Documents, N: NoteSink> Documents for NotedDocuments<'_, D, N> {
    ghost left = { λ n. D.left n.documents };

    ghost last_name = { λ n. D.last_name n.documents };

    ghost is_over = { λ n. D.is_over n.documents };

    fn next(&mut self, alloc: Global) -> Option<Fetched> {
        self.show_unread(alloc);
        let fetched = self.documents.next(alloc);
        self.unread = unread_of(&fetched);
        fetched
    }

    fn name(&self) -> &[u8] {
        self.documents.name()
    }
}
