//! What the files of implemented modules define when all augments were applied: the final tree of
//! their expansion, what refines change of it, and which of its nodes are there by their conditions
//! (RFC 7950, sections 5.6.5, 7.12, 7.13, 7.17 and 7.20.2). All takes time n log n in statements
//! and items, where an augment of a uses counts once for each copy, and so does each different path
//! of its refines; a refine counts once for each module that copies its uses.
#![tactic(auto)]

mod file_order;
pub mod laws;
mod nodes;
mod tree;
mod whole;
mod wrong;

pub use tree::FinalTree;
pub use whole::final_tree;
