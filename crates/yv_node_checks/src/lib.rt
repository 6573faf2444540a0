//! What is wrong with the nodes of a schema tree, except for duplicate names, for what keys and
//! `unique` statements name, and for paths.
#![tactic(auto)]

mod above;
mod checks;
mod lineage;
mod mandatory;
mod node_numbers;

pub use checks::least_in_tree;
