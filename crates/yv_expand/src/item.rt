//! What an expansion consists of.
use yv_expand_statements::Origin;

/// An entry of a list of items, each before those below it.
#[derive(Clone, Copy, Debug, PartialEq, Eq)]
pub struct PlacedItem<O> {
    /// What it is made of.
    pub origin: O,
    /// The number of the item above it. None at the top.
    pub parent: Option<usize>,
}

/// A copy of a statement that gives a schema node, the input or output of an operation, or a uses,
/// which is above what it copies and what its augments give.
pub type Item = PlacedItem<Origin>;

/// A schema node that is left of an item, whose number is its origin.
pub type RemainingNode = PlacedItem<usize>;
