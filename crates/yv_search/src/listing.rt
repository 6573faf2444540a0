//! Folders with their files.

/// A folder in which files are looked for.
#[derive(Debug, Drop)]
pub struct Folder {
    /// Its name, as it was written.
    pub name: String,
    /// The paths of its files from it, in the order in which they are preferred.
    pub paths: Vec<String>,
}
