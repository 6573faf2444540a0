//! What is wrong with a pattern: what of it is outside the dialect, and which one isn't built.
#![tactic(auto)]

mod pattern_class;
mod pattern_failure;
mod pattern_flaw;
mod pattern_text;
mod patterns;

pub use pattern_failure::unbuilt_pattern;
pub use pattern_text::tell_pattern;
