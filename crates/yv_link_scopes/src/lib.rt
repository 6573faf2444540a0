//! The statements of many YANG files as one numbered list, and what the names and prefixes in them
//! mean.
//!
//! A block has the number of its statement, a file's root has the file's number, and a name at the
//! top of a submodule is in the block of its module. What is inside an extension's statement isn't
//! listed.
#![tactic(auto)]

mod entries;
mod entry;
mod files;
mod kind;
pub mod laws;
mod names;
mod places;
mod prefixes;
mod rows;
mod scopes;

pub use entry::Entry;
pub use files::File;
pub use kind::{DefinitionPlaces, NameKind, definition_places, first_places};
pub use names::{local, name_of, prefix_of};
pub use places::NamePlaces;
pub use prefixes::PrefixTable;
pub use rows::Rows;
