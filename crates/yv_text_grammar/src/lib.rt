//! Whether the statements of a YANG file are as the tables of RFC 7950 say.
#![tactic(auto)]

mod argument;
mod distinct;
mod form;
mod keyword_set;
pub mod laws;
mod lists;
mod refusal;
mod table;
mod text;
mod words;
mod xpath;

pub use refusal::conform;
pub use xpath::Xpath;
pub use yv_text_statement::Keyword;
