//! What the statements of files say of the schema nodes that they define, shared by all copies of a
//! node.
#![tactic(auto)]

mod chain;
mod changes;
mod definitions;
mod features;
mod keys;
pub mod laws;
mod nothing;
mod properties;
mod reader;
mod refined_definitions;
mod statements;
mod store;
mod values;

pub use definitions::Definitions;
pub use refined_definitions::RefinedDefinitions;
