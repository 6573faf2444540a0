//! What is wrong at each fault of a document, and what to do, for a person: the words that follow
//! a fault's line. However long names and paths are, each advice has some kilobytes at most.
#![tactic(auto)]

mod advice;
mod advisor;
mod beside;
mod choices;
mod definitions;
mod duplicates;
mod features;
mod keys;
mod modules;
mod near_text;
mod reference;
mod spot;
mod target_path;
mod target_values;
mod unknown;
mod words;

pub use advisor::Advisor;
