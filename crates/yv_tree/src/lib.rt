//! Tree diagrams of YANG modules (RFC 8340).
#![tactic(auto)]

mod diagrams;
mod draw;
pub mod laws;
mod line;
mod margin;
mod modules;
mod paper;
mod sections;
mod text;
mod tree_diagram;
mod way;

pub use diagrams::{Missing, TreeDiagrams};
pub use tree_diagram::{TreeDiagram, diagram};
pub use way::is_step;
