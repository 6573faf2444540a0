//! The messages for a file that is refused, or has a pattern that isn't built: the line of the
//! place, a sentence on what is wrong there, and a line on each other file that is refused.
#![tactic(auto)]

mod cause;
mod clear;
mod explain;
mod found_files;
mod other_files;
mod refusal_text;
mod words;

pub use explain::explanation;
pub use other_files::other_refusals;
pub use refusal_text::push_sentence;
pub use words::subject;
pub use yv_note_json::{why_not_json, why_too_large};
pub use yv_note_patterns::unbuilt_pattern;
