//! Where a path is.
use yv_nodes::NodeId;

/// Where a path is after some of its steps: at a node, or at the case that is left out around a
/// node (RFC 7950, section 7.9.2).
#[derive(Clone, Copy)]
pub(crate) enum Way {
    AtNode(NodeId),
    AtShorthandCase(NodeId),
}
