//! Which files of folders a search for imported modules finds, and which modules are then
//! implemented. It opens no files: the caller lists folders, and fetches what is chosen.
#![tactic(auto)]

mod edges;
mod file_name;
mod file_search;
mod graph;
mod index;
pub mod laws;
mod listing;
mod modules;
mod plain_job;
mod prefixes;
mod roles;
mod roots;
mod search;
mod statements;
mod table;
mod wants;

pub use file_search::{Gathering, Shelf, gather};
pub use listing::Folder;
pub use plain_job::{files_text, import_only};
pub use roots::{file_root, file_text};
