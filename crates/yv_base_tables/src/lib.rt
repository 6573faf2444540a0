//! Tables by number: values, lists and paths at numbers, as statements by the block that contains
//! them.
#![tactic(auto)]

mod chains;
mod families;
pub mod laws;
mod path_tree;
pub mod path_tree_laws;
pub mod slots;
mod sparse;
mod table;

pub use families::Families;
pub use path_tree::PathTree;
pub use sparse::Sparse;
pub use table::Table;
