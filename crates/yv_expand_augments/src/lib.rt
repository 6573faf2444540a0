//! What augments make of the expansion of files: where each item is once those of each uses are
//! applied, and then those of modules in rounds (RFC 7950, sections 7.13 and 7.17); the final tree,
//! what is refused of it, and what is left of it. Takes time n log n in statements and items, an
//! augment of a uses that gives something being counted once for each copy. The augments of a uses
//! are read once for each module to which copies of it belong. Of augments that give nothing, only
//! different paths are followed for each copy, up to the first that leads nowhere.
#![tactic(auto)]

mod augmentation;
mod final_tree;
pub mod laws;
mod mandatory_nodes;
mod placement;
mod refusals;
mod remains;
mod schedule;

pub use augmentation::{AugmentedItems, apply_augments};
pub use final_tree::AugmentedTree;
pub use mandatory_nodes::{RefinedMarks, first_imposed};
pub use placement::first_misplaced;
pub use refusals::first_too_deep;
pub use remains::remaining_rows;
