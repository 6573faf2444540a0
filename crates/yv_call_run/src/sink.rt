//! Notes on documents, which are kept until the output is written.
ghost use Rattle.std.specs.Prelude.{◌≡◌, [], string_bytes};
ghost use Rattle.yv_call_run.specs.InnerNotes.{Gets};

use std::alloc::Global;
use yv_documents::NoteSink;

/// How many documents have a note.
const MOST_NOTES: u32 = 20;

/// A text of notes: the first 20 documents that want one have a note. One for which there is no
/// memory is left out.
#[derive(Drop)]
pub struct NoteText {
    text: String,
    left: u32,
    has_labels: bool,
}

// Puts a note after the others, unless there is no memory for it.
fn push(text: &mut String, note: &str)
    ensures { Gets note.now (string_bytes text.old) (string_bytes text.new) }
{
    match text.push_str(note) {
        Ok(()) => {}
        Err(_) => {}
    }
}

impl NoteText {
    ghost use Rattle.yv_call_run.specs.NoteTexts.{notes_of};

    /// No notes yet. Their lines may have labels.
    pub fn new(alloc: Global, has_labels: bool) -> NoteText
        // There are none.
        ensures { notes_of result ≡ [] }
    {
        NoteText {
            text: String::new(alloc),
            left: MOST_NOTES,
            has_labels,
        }
    }

    /// All notes.
    pub fn into_text(self) -> String
        // These are all.
        ensures { string_bytes result ≡ notes_of self }
    {
        self.text
    }
}

impl NoteSink for NoteText {
    ghost use Rattle.yv_call_run.specs.{InnerNotes.{Gets}, NoteTexts.{notes_of}};

    fn wants_note(&self) -> bool {
        self.left > 0
    }

    fn wants_labels(&self) -> bool {
        self.has_labels
    }

    fn show(&mut self, note: &str)
        ensures { Gets note.now (notes_of self.old) (notes_of self.new) }
    {
        self.left = self.left.saturating_sub(1);
        push(&mut self.text, note);
    }

    fn add(&mut self, line: &str)
        ensures { Gets line.now (notes_of self.old) (notes_of self.new) }
    {
        push(&mut self.text, line);
    }
}
