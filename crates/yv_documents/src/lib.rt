//! Documents: what their bytes are, and what is written of them.
#![tactic(auto)]

mod answer;
mod costs;
mod document;
mod findings;
mod json_reply;
mod lines;
mod measured_validator;
mod note_labels;
mod note_sink;
mod notes;
mod output;
mod reply;
mod text_reply;
mod verdict_text;

pub use answer::DocumentAnswer;
pub use costs::{cost_of, steps_text};
pub use document::{Document, read_document};
pub use lines::write_faults;
pub use note_sink::NoteSink;
pub use notes::{DocumentSource, NoteBasis, document_note};
pub use output::flush_all;
pub use verdict_text::write_checked;
