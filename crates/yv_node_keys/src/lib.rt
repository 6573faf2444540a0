//! Which leafs the `key` and `unique` statements of a list name (RFC 7950, sections 7.8.2 and
//! 7.8.3), and which case the default of a choice (section 7.9.3).
#![tactic(auto)]

mod cases;
mod counterparts;
mod index;
mod keys;
pub mod laws;
mod models;
mod moved_leafs;
mod names;
mod node_numbers;
mod place;
mod shift;
mod targets;
mod unique;
mod walk;

pub use keys::key_leafs;
pub use targets::{FoundTargets, LeafTargets, leaf_targets};
pub use unique::unique_leafs;
