//! The schema of modules: numbered nodes with the tables by which they are found, and what they
//! measure.
#![tactic(auto)]

mod data_children;
mod data_nodes;
mod directory;
mod from_nodes;
pub mod laws;
mod measures;
mod member;
mod module_files;
mod names;
mod notes;
mod schema;
mod table;
mod tables;

pub use data_nodes::DataNodes;
pub use measures::Measures;
pub use notes::{AugmentNote, Module};
pub use schema::Schema;
