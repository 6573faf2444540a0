//! Names of schema nodes and the steps of schema paths as numbers, so that they are compared once
//! for a statement and not for each of its copies (RFC 7950, section 6.5).
#![tactic(auto)]

pub mod laws;
mod names;
mod paths;
mod step;
mod table;

pub use names::{NodeNames, node_name};
pub use paths::Paths;
pub use step::{SchemaStep, qualified_name};
