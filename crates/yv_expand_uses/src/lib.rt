//! What `uses` statements give before their augments are applied: where each item of an expansion
//! is, which augments each block has, in which order and with which paths, to which nodes the
//! refines of each `uses` lead, and which items exist by the conditions of what gave them (RFC
//! 7950, sections 7.13, 7.17 and 7.20.2). Takes time n log n in statements and items, an augment of
//! a uses that gives something being counted once for each copy. The refines of a uses are read
//! once for each module to which copies of it belong. Their different paths are followed all at
//! once for each copy, in time n log n in the fewer of these paths' steps and the nodes that the
//! uses gives.
#![tactic(auto)]

mod augment_order;
mod ends;
mod if_features;
mod kinds;
pub mod laws;
mod layout;
mod leading_paths;
mod plan;
mod refine_targets;
mod spot;

pub use ends::item_ends;
pub use if_features::{is_augment, items_on};
pub use kinds::is_uses;
pub use layout::{Layout, source_in, spot_at};
pub use plan::Plan;
pub use refine_targets::RefineTargets;
pub use spot::Spot;
