//! The features of YANG files: which names mean none, which features depend on themselves, which
//! are on, and whether an `if-feature` expression holds (RFC 7950, sections 5.6.1 and 7.20).
#![tactic(auto)]

mod features;
mod if_features;
pub mod laws;
mod names;
mod refusals;
mod truths;

pub use features::Features;
