//! A parser of YANG files (RFC 7950, section 6): the bytes of a file make a source, and a source
//! its one statement, or else what is refused first, with its offset and line.
#![tactic(auto)]

mod double_quotes;
mod escapes;
mod fault;
mod gap;
mod identifier;
pub mod laws;
mod machine;
mod place;
mod reader;
mod scan;
mod source;
mod statements;
mod text;
mod texts;
mod turn;

pub use reader::parse;
pub use source::{MOST_BYTES, Source};
pub use texts::Texts;
pub use yv_text_grammar::{Xpath, conform};
pub use yv_text_statement::{Code, Refusal, Statement, Stop};
