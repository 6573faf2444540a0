//! Many documents, one after the other: how they are supplied, and how they are answered.
#![tactic(auto)]

mod batch;
mod documents;
mod label;
pub mod laws;
mod level;
mod lines;
mod names;
mod pieces;
mod sources;

pub use batch::{Answer, BatchEnd, Tally, answer_all, put_total_line};
pub use documents::{Content, Documents, Fetched};
pub use label::{put_escaped, put_label, put_label_line};
pub use level::Level;
pub use lines::Lines;
pub use names::{Files, NameList, NamedFiles};
pub use sources::{Opener, SourceKind, Sources};
