//! The paths that the arguments of `key`, `unique` and `path` statements have (RFC 7950, sections
//! 7.8.2, 7.8.3 and 9.9.2).
#![tactic(auto)]

mod first_word;
pub mod laws;
mod paths;
mod pieces;
mod referral;
mod steps;

pub use paths::LeafPaths;
pub use referral::LeafrefPath;
