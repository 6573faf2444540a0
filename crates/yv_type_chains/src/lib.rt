//! The types of YANG files: the built-in type to which each leads along typedefs, the type that it
//! follows, an order in which each comes after those from which it takes its values, and what is
//! wrong with them. All takes time linear in statements except for the names of types, which are
//! compared with a few words each, and without recursion.
#![tactic(auto)]

mod base;
mod bases;
mod by_block;
mod counts;
mod draft;
mod findings;
mod follows;
mod inside;
mod kinds;
pub mod laws;
mod marks;
mod misfits;
mod order;
mod refusals;
mod steps;

pub use bases::Bases;
pub use by_block::types_by_block;
