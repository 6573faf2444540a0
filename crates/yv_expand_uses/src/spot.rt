//! What is known of an item before any augment is applied.

use yv_expand_rounds::Label;

/// The spot of an item in an expansion.
#[derive(Clone, Copy, Debug, PartialEq, Eq)]
pub struct Spot {
    /// The number of the statement that gives it.
    pub statement: usize,
    /// The group that it is in: 0 at the top, and one more than the number of the node above it. A
    /// uses is where the nodes that it copies are. What an augment gives is in a group after the
    /// groups of items, until it is applied.
    pub group: usize,
    /// Of a uses the number of the first copy of its augments that give something.
    pub first: usize,
    /// The number of its module and name, its kind, and whether an augment of a module gives it.
    pub label: Label,
    /// The file of the module to which it belongs (RFC 7950, sections 7.13 and 7.17).
    pub module_file: u32,
}
