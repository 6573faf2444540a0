//! Where notes go.
use crate::document::Document;
use crate::findings::Findings;
use crate::note_labels::label_note;
use crate::notes::{DocumentSource, NoteBasis, document_note, fault_note, repeats_note};
use serde_json::Value;
use std::alloc::{AllocError, Global};

/// A sink of notes: where those for a person go.
pub trait NoteSink {
    /// Whether a note would be seen. This is asked before a note is made, so that none is made that
    /// nobody sees.
    fn wants_note(&self) -> bool;

    /// Whether a line of a note that begins with no place begins with the label of its document, as
    /// it does where there may be other documents.
    fn wants_labels(&self) -> bool;

    /// Shows a note. Each of its lines ends with a line feed.
    fn show(&mut self, note: &str);

    /// Shows a line that is shown of each document, however many there are.
    fn add(&mut self, line: &str);
}

// Shows a person the notes on documents.
#[derive(Drop)]
pub(crate) struct Notes<'a, N> {
    pub(crate) basis: NoteBasis<'a>,
    pub(crate) sink: &'a mut N,
}

impl<N: NoteSink> Notes<'_, N> {
    // Shows the note on a document, unless there is no memory for it. Where nobody would see it, a
    // line says whether a member is repeated.
    pub(crate) fn show(&mut self, alloc: Global, source: &DocumentSource<'_>, findings: &Findings) {
        if self.sink.wants_note() {
            if let Ok(Some(note)) = self.note(alloc, source, findings) {
                self.sink.show(note.as_str());
            }
        } else if let Document::Json(value) = &findings.document
            && let Ok(line) = repeats_note(alloc, source, value, 1)
            && !line.is_empty()
        {
            self.sink.add(line.as_str());
        }
    }

    // The note on a document, if there is something to say.
    fn note(
        &self,
        alloc: Global,
        source: &DocumentSource<'_>,
        findings: &Findings,
    ) -> Result<Option<String>, AllocError> {
        let faults = findings.faults.as_slice();
        let Document::Json(value) = &findings.document else {
            let note = document_note(alloc, &self.basis, source, &findings.document, faults)?;
            return Ok(note.and_then(|note| self.with_labels(alloc, source, note)));
        };
        let note = fault_note(alloc, &self.basis, source, value, faults)?;
        let mut text = note.lines;
        if let Some(rest) = self.with_labels(alloc, source, note.rest) {
            text.push_str(rest.as_str())?;
        }
        Ok(if text.is_empty() { None } else { Some(text) })
    }

    // Lines with the label of a document in front of each, where that is wanted. None if there is
    // no memory for it.
    fn with_labels(
        &self,
        alloc: Global,
        source: &DocumentSource<'_>,
        note: String,
    ) -> Option<String> {
        if self.sink.wants_labels() {
            label_note(alloc, source.name, source.line, note.as_str())
        } else {
            Some(note)
        }
    }
}
