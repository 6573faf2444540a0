//! What the type of a node expects in place of a value, for people, and the files of the modules in
//! which notes find statements.
#![tactic(auto)]

mod failed_pattern;
mod listed_names;
mod numbers;
mod type_chain;
mod types;
mod union_members;
mod values;
mod yang_files;

pub use numbers::push_count;
pub use types::push_type;
pub use values::push_written;
pub use yang_files::{FileStatement, YangFiles, definition_in, module_of};
