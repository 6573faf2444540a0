//! Nodes by their numbers.
ghost use Rattle.std.specs.{Prelude.{◌≡◌, slice_get}, Option.{option_map}};
ghost use Rattle.yv_node_content.specs.Kinds.{is_case, is_choice, is_leaf, is_list};
ghost use Rattle.yv_node_keys.specs.Numbers.{arrived_at, children_at, module_file_at, is_called_at, is_kind_at, leaf_of};

use crate::place::Way;
use yv_node_content::NodeKind;
use yv_nodes::{Node, NodeId};

/// The node of a number.
pub(crate) fn node_at<'n>(nodes: &'n [Node], number: NodeId) -> Option<&'n Node>
    ensures { option_map (λ n. n.now) result ≡ slice_get nodes.now number.0 }
{
    nodes.get(number.number() as usize)
}

/// The number of the file of the module whose namespace the node of a number is in, or 0 where
/// there is none.
pub(crate) fn module_file_at(nodes: &[Node], number: NodeId) -> u32
    ensures { result ≡ module_file_at nodes.now number }
{
    match node_at(nodes, number) {
        Some(node) => node.module_file(),
        None => 0,
    }
}

/// The numbers of the nodes directly below the node of a number.
pub(crate) fn children_at<'n>(nodes: &'n [Node], number: NodeId) -> &'n [NodeId]
    ensures { result.now ≡ children_at nodes.now number }
{
    match node_at(nodes, number) {
        Some(node) => node.children(),
        None => &[],
    }
}

/// Whether the node of a number has this module and this name.
pub(crate) fn is_called_at(nodes: &[Node], number: NodeId, module_file: u32, name: &str) -> bool
    ensures { result ≡ is_called_at nodes.now module_file name.now number }
{
    match node_at(nodes, number) {
        Some(node) => node.module_file() == module_file && node.name() == name,
        None => false,
    }
}

// Whether the node of a number is a leaf.
fn is_leaf(nodes: &[Node], number: NodeId) -> bool
    ensures { result ≡ is_kind_at nodes.now is_leaf number }
{
    match node_at(nodes, number) {
        Some(node) => node.kind() == NodeKind::Leaf,
        None => false,
    }
}

// Whether it is a list.
fn is_list(nodes: &[Node], number: NodeId) -> bool
    ensures { result ≡ is_kind_at nodes.now is_list number }
{
    match node_at(nodes, number) {
        Some(node) => node.kind() == NodeKind::List,
        None => false,
    }
}

// Whether it is a choice.
fn is_choice(nodes: &[Node], number: NodeId) -> bool
    ensures { result ≡ is_kind_at nodes.now is_choice number }
{
    match node_at(nodes, number) {
        Some(node) => node.kind() == NodeKind::Choice,
        None => false,
    }
}

// Whether it is a case.
fn is_case(nodes: &[Node], number: NodeId) -> bool
    ensures { result ≡ is_kind_at nodes.now is_case number }
{
    match node_at(nodes, number) {
        Some(node) => node.kind() == NodeKind::Case,
        None => false,
    }
}

/// The number itself, where the node is a leaf.
pub(crate) fn leaf_of(nodes: &[Node], number: NodeId) -> Option<NodeId>
    ensures { result ≡ leaf_of nodes.now number }
{
    if is_leaf(nodes, number) {
        Some(number)
    } else {
        None
    }
}

/// Where a path is that came down from one node to another. It leads to no list.
pub(crate) fn arrived_at(nodes: &[Node], above: NodeId, below: NodeId) -> Option<Way>
    ensures { result ≡ arrived_at nodes.now above below }
{
    if is_list(nodes, below) {
        None
    } else if is_choice(nodes, above) && !is_case(nodes, below) {
        Some(Way::AtShorthandCase(below))
    } else {
        Some(Way::AtNode(below))
    }
}
