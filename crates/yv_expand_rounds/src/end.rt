//! Where paths end.

/// Where a path ends.
#[derive(Clone, Copy, Debug, PartialEq, Eq)]
pub enum End {
    /// Above the items of this group, where it begins.
    Start(usize),
    /// At this node.
    Node(usize),
    /// At the case that is left out above this node of a choice (RFC 7950, section 7.9.2).
    ShorthandCase(usize),
}
