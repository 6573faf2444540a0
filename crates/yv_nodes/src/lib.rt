//! The numbered nodes of a schema tree, never more than a limit.
#![tactic(auto)]

mod above;
mod link;
mod node;
mod nodes;

pub use above::Above;
pub use link::{Link, Links};
pub use node::{Node, NodeId, NodePlace};
pub use nodes::Nodes;
