//! Why a file is not the text of a statement, and what is wrong with the form of a statement.
#![tactic(auto)]

mod arguments;
mod blanks;
mod file_forms;
mod outline;
mod substatements;
mod syntax;
mod syntax_note;
mod tokens;

pub use arguments::{tell_argument, tell_unsupported};
pub use substatements::{tell_cardinality, tell_keyword};
pub use syntax_note::push_unread;
