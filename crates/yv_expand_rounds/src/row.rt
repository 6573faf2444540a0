//! What is known of an item of the final tree.

/// An item of the final tree: its number, that of the item above it, and its depth, an item at the
/// top having depth 1.
#[derive(Clone, Copy, Debug, PartialEq, Eq)]
pub struct ItemRow {
    pub number: usize,
    pub parent: Option<usize>,
    pub depth: usize,
}
