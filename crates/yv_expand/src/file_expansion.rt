//! What files expand to.
use crate::expansion::Expansion;

/// The expansion of files. After the items of the files' own trees comes what the augments of
/// modules give, augment by augment, and below no node yet.
#[derive(Drop)]
pub struct FileExpansion {
    /// All items.
    pub expansion: Expansion,
    /// How many of them are those of the files' own trees.
    pub own: u32,
    /// The statements of the augments of modules, by file and statement.
    pub augments: Vec<usize>,
}
