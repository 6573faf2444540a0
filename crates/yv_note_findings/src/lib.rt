//! What standard error says of the findings of `lint`: for each the line of its file with a caret
//! under the place, and below it a sentence on what is wrong and how to mend it.
#![tactic(auto)]

mod definition_sentences;
mod file_facts;
mod file_sentences;
mod newer;
mod notes;
mod order_sentences;
mod sentences;
mod spot;
mod words;

pub use notes::findings_note;
