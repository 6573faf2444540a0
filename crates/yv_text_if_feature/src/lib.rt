//! The truth of an `if-feature` expression, by the truth of the features that it names (RFC 7950,
//! section 7.20.2).
#![tactic(auto)]

mod evaluator;
mod frame;
mod if_feature;
pub mod laws;
mod name;
mod stack;
mod word;

pub use evaluator::Evaluator;
pub use if_feature::is_if_feature;
pub use name::{is_identifier, is_name};
pub use word::{Word, Words};
