//! What is wrong with modules as a whole: names given twice, files that aren't there, revisions,
//! cyclic imports, prefixes, and submodules.
#![tactic(auto)]

mod dates;
mod first;
mod imports;
mod links;
mod prefixes;

pub use first::first_bad;
