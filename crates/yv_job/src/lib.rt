//! What a command line of `yangcheck` asks for.
#![tactic(auto)]

mod folder_search;
mod help;
mod hints;
mod job;
mod laws;
mod matches;
mod names;
mod options;
mod reasons;
mod request;
mod syntax;
mod way;
mod words;

pub use folder_search::FolderSearch;
pub use job::{Command, Job, OutputForm, OutputOptions};
pub use laws::words_ask_once;
pub use request::{Action, Each, JobFault, Request};
pub use words::read_request;
pub use yv_text_statement::Kind;
pub use yv_tree_drawing::{Drawing, TreeOptions, WayStep};
