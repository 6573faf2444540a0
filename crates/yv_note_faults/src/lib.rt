//! The notes for a person on the documents that are validated: a line for each fault, with its
//! place in the document, its entry, and what to do. However long names and paths are, a line has
//! some kilobytes at most.
#![tactic(auto)]

mod all_sentences;
mod causes;
mod choice;
mod document;
mod front;
mod hint;
mod place_line;
mod places;
mod repeats;
mod sentence;

pub use all_sentences::sentences;
pub use document::{FaultNote, NotedDocument};
pub use repeats::repeat_lines;
