//! Modules, prefixes and definitions that are missing, are there twice, or lead to themselves.
#![tactic(auto)]

mod cycle;
mod definitions;
mod modules;
mod prefixes;

pub use cycle::{tell_cycle, tell_imports};
pub use definitions::{
    tell_feature_name, tell_grouping_name, tell_identity_name, tell_second_module,
    tell_second_name, tell_type_name,
};
pub use modules::{say_nearest_file, tell_missing, tell_prefix, tell_revision, tell_submodule};
