//! Nodes by their numbers.
ghost use Rattle.std.specs.{Prelude.{◌≡◌, slice_get}, Option.{option_map}};

use yv_nodes::{Node, NodeId};

/// The node of a number.
pub(crate) fn node_at<'n>(nodes: &'n [Node], number: NodeId) -> Option<&'n Node>
    ensures { option_map (λ n. n.now) result ≡ slice_get nodes.now number.0 }
{
    nodes.get(number.number() as usize)
}
