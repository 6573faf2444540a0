//! The note of a call, in parts, so that it takes no memory to put them together.
ghost use Rattle.std.specs.Prelude.{◌≡◌, ◌-◌, ◌^◌, ◌++◌, ◌∷◌, [], length, min, option_map, string_bytes};
ghost use Rattle.yv_call.specs.FrontText.{initial_of, name_of, text_of};
ghost use Rattle.yv_call_run.specs.NoteParts.{line_text, note_text};

use std::alloc::Global;
use yv_call::TextFront;

/// The note of a call: what is said of documents, a line without its line feed, the note of the
/// run, and what is said of the selection.
#[derive(Drop)]
pub struct Note {
    pub first: String,
    pub line: Option<&'static str>,
    pub run: String,
    pub last: String,
}

// Adds a line to a text, and answers how long it is.
fn push_line(front: &mut TextFront<'_>, line: Option<&'static str>) -> usize
    ensures text { text_of front.new ≡ text_of front.old
        ++ line_text (option_map (λ l. l.now) line.entry) }
    ensures initial { initial_of front.new ≡ initial_of front.old }
    ensures name { name_of front.new ≡ name_of front.old }
    ensures length { result ≡ min (length (line_text (option_map (λ l. l.now) line.entry)))
        (2 ^ 64 - 1) }
{
    let Some(text) = line else {
        return 0;
    };
    front.push(text.as_bytes());
    front.push(b"\n");
    text.len().saturating_add(1)
}

impl Note {
    /// A note that is one line.
    pub(crate) fn of_line(alloc: Global, line: &'static str) -> Note
        ensures { note_text result ≡ line.now ++ 10 ∷ [] }
    {
        Note {
            first: String::new(alloc),
            line: Some(line),
            run: String::new(alloc),
            last: String::new(alloc),
        }
    }

    /// A note that is this text.
    pub(crate) fn of_text(alloc: Global, text: String) -> Note {
        Note {
            first: text,
            line: None,
            run: String::new(alloc),
            last: String::new(alloc),
        }
    }

    /// Adds the note to a text, and answers how long the note is; 2^64 - 1 if it is longer.
    pub fn push(&self, front: &mut TextFront<'_>) -> usize
        // It comes after the text.
        ensures text { text_of front.new ≡ text_of front.old ++ note_text self.now }
        // What the buffer held at first is the same.
        ensures initial { initial_of front.new ≡ initial_of front.old }
        // The buffer is the same.
        ensures name { name_of front.new ≡ name_of front.old }
        // It is the length of the note, up to 2^64 - 1.
        ensures length { result ≡ min (length (note_text self.now)) (2 ^ 64 - 1) }
    {
        front.push(self.first.as_bytes());
        let line = push_line(front, self.line);
        front.push(self.run.as_bytes());
        front.push(self.last.as_bytes());
        let rest = self.run.len().saturating_add(self.last.len());
        self.first.len().saturating_add(line.saturating_add(rest))
    }
}
