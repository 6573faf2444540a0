//! Files and folders as the system has them: reading a file whole, with the reason if it can't be
//! read, and listing the modules of folders. No clause says what is in a real folder or file: that
//! is tested only.
#![tactic(auto)]

mod error_reader;
mod file_read;
mod file_shelf;
mod folder_fault;
mod folder_list;
mod folder_walk;
mod path_rules;

pub use error_reader::ErrorReader;
pub use file_read::{FileFault, FilesFault, read_file, read_files};
pub use file_shelf::FileShelf;
pub use folder_fault::FolderFault;
pub use folder_list::list_folders;
