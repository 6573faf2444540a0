//! What is wrong with the nodes of a schema: with augments and refines, keys, paths, nodes that
//! can't be where they are, and how many there are.
#![tactic(auto)]

mod augment_names;
mod augments;
mod default_cases;
mod explanation;
mod lists;
mod mandatory;
mod nodes;
mod paths;
mod placement;
mod step_modules;
mod tree;
mod units;
mod unprefixed_paths;
mod weights;

pub use augments::{tell_augment, tell_augment_target, tell_refine, tell_refine_target};
pub use default_cases::tell_default_case;
pub use lists::{tell_key, tell_unique};
pub use mandatory::tell_mandatory;
pub use paths::{tell_path, tell_path_cycle};
pub use placement::{tell_config, tell_operation, tell_second_node};
pub use units::tell_units;
