//! Results as lines of JSON, one object on each, written through a page of fixed size.
#![tactic(auto)]

mod document;
mod fault;
pub mod laws;
mod path;
mod pointer;
mod refusal;
mod steps;
mod strings;
mod totals;

pub use document::{DocumentVerdict, ValidationCost, put_document_line};
pub use fault::put_fault_line;
pub use path::put_path;
pub use pointer::put_pointer;
pub use refusal::{Position, put_finding_line, put_refusal_line};
pub use strings::put_quoted;
pub use totals::{put_count_line, put_linted_line, put_run_line};
