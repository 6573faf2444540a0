//! Lines on the names of a selection that mean nothing, for people: modules that no file defines,
//! submodules, and features that a module doesn't have.
#![tactic(auto)]

mod lines;
mod names;
mod sentences;

pub use lines::selection_lines;
