//! Statements of YANG files as trees, the characters that they may have, what is refused, and which
//! of several refusals comes first.
#![tactic(auto)]

mod document_kind;
mod keyword;
pub mod laws;
mod legal;
mod refusal;
mod selection;
mod statement;
mod words;
mod written_text;

pub use document_kind::Kind;
pub use keyword::Keyword;
pub use legal::{is_legal, is_legal_text};
pub use refusal::{Code, Refusal, Stop, lesser, refusal_if};
pub use selection::Selection;
pub use statement::Statement;
pub use words::is_among;
pub use written_text::WrittenText;
