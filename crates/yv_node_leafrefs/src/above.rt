//! The places above nodes.
ghost use Rattle.std.specs.Prelude.{◌≡◌, ◌<◌, ◌≤◌, ◌↔◌, ℕ, List, Some, length, IfOk, IsTrue, slice_get};
ghost use Rattle.yv_nodes.specs.Rows.{Row};
ghost use Rattle.yv_node_leafrefs.specs.{Above.{AreBehind, Closest, IsInside, parent_of, place_of}, InnerOutline.{AreAbove, AreInside}};

use std::alloc::{AllocError, Global};
use yv_nodes::{Node, NodeId};

// The place of a number: none is that of the document.
fn place_of(number: NodeId) -> Option<u32>
    ensures { result ≡ place_of number }
{
    if number.number() == 4_294_967_295 {
        None
    } else {
        Some(number.number())
    }
}

/// The place just above a node.
pub(crate) fn parent_of(node: &Node) -> Option<u32>
    ensures { result ≡ parent_of node.now }
{
    place_of(node.parent())
}

// The closest place from one upwards, where those above the nodes before it are known.
fn closest(nodes: &[Node], above: &[Option<u32>], place: Option<u32>) -> Option<u32>
    requires behind { (p : ℕ) → place ≡ Some p → p < length above.now }
    requires within { length above.now ≤ length nodes.now }
    requires above { AreAbove nodes.now (length above.now) above.now }
    ensures { Closest nodes.now place result }
{
    match place {
        None => None,
        Some(number) => {
            let node = &nodes[number as usize];
            if node.kind().is_passed() {
                above[number as usize]
            } else {
                Some(number)
            }
        }
    }
}

/// For each node the closest place above it that is not a choice or case.
pub(crate) fn places_above(alloc: Global, nodes: &[Node]) -> Result<Vec<Option<u32>>, AllocError>
    requires { AreBehind nodes.now }
    ensures each { IfOk result (λ above. length above.items ≡ length nodes.now) }
    ensures above { IfOk result (λ above. AreAbove nodes.now (length nodes.now) above.items) }
{
    let mut above = Vec::new(alloc);
    for node in nodes {
        let place = closest(nodes, &above, parent_of(node));
        above.push(place)?;
    }
    Ok(above)
}

// Whether a node or one above it is an operation or a notification, where this is known of the
// nodes before it.
fn is_inside(inside: &[bool], node: &Node) -> bool
    requires behind { (p : ℕ) → parent_of node.now ≡ Some p → p < length inside.now }
    ensures { (rows : List Row) (n : ℕ) → slice_get rows n ≡ Some node.now
        → AreInside rows (length inside.now) inside.now
        → IsTrue result ↔ IsInside rows (Some n) }
{
    if node.kind().is_operation_or_notification() {
        return true;
    }
    match parent_of(node) {
        None => false,
        Some(number) => inside[number as usize],
    }
}

/// For each node whether it or one above it is an operation or a notification.
pub(crate) fn operation_marks(alloc: Global, nodes: &[Node]) -> Result<Vec<bool>, AllocError>
    requires { AreBehind nodes.now }
    ensures each { IfOk result (λ inside. length inside.items ≡ length nodes.now) }
    ensures inside { IfOk result (λ inside. AreInside nodes.now (length nodes.now) inside.items) }
{
    let mut inside = Vec::new(alloc);
    for node in nodes {
        let flag = is_inside(&inside, node);
        inside.push(flag)?;
    }
    Ok(inside)
}
