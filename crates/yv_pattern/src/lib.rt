//! Patterns of YANG types (RFC 7950, section 9.4.5): the dialect that is read, and its translation
//! for the crate
//! `regex`, which decides what matches.
#![tactic(auto)]

mod category;
mod character;
mod class;
mod count;
pub mod laws;
mod mark;
mod matchers;
mod part;
mod pattern;
mod patterns;
mod place;
mod reader;
mod ready;
mod size_estimate;

pub use matchers::Matchers;
pub use pattern::Pattern;
pub use patterns::Patterns;
