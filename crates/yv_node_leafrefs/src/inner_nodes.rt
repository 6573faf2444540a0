//! The containers and lists above nodes.
ghost use Rattle.std.specs.{Prelude.{◌≡◌, ◌<◌, ◌≤◌, ◌↔◌, ℕ, None, Some, length, IfOk}, List.{slice_index_or}};
ghost use Rattle.yv_node_leafrefs.specs.{Above.{AreBehind, Closest, parent_of}, Links.{IsInner}, InnerWays.{AreAbove}};

use crate::above::parent_of;
use std::alloc::{AllocError, Global};
use yv_node_content::NodeKind;
use yv_nodes::Node;

/// The place above a node, of those above nodes: none beyond them.
pub(crate) fn above_at(above: &[Option<u32>], number: u32) -> Option<u32>
    ensures { result ≡ slice_index_or above.now number None }
{
    above.get(number as usize).copied().unwrap_or(None)
}

// The container or list that is the closest place from one upwards, where those above the nodes
// before it are known.
fn closest(nodes: &[Node], above: &[Option<u32>], place: Option<u32>) -> Option<u32>
    requires behind { (p : ℕ) → place ≡ Some p → p < length above.now }
    requires within { length above.now ≤ length nodes.now }
    requires above { AreAbove nodes.now (length above.now) above.now }
    ensures { (p : ℕ) → (result ≡ Some p)
        ↔ (Closest nodes.now place (Some p) × IsInner nodes.now p) }
{
    let number = place?;
    match nodes[number as usize].kind() {
        NodeKind::Choice | NodeKind::Case => above_at(above, number),
        NodeKind::Container | NodeKind::List => Some(number),
        _ => None,
    }
}

/// For each node the container or list above it, choices and cases being passed over: none where
/// the document or another node is there. It takes linear time.
pub(crate) fn inner_above(alloc: Global, nodes: &[Node]) -> Result<Vec<Option<u32>>, AllocError>
    requires { AreBehind nodes.now }
    ensures { IfOk result (λ above. AreAbove nodes.now (length nodes.now) above.items) }
{
    let mut above = Vec::new(alloc);
    for node in nodes {
        let place = closest(nodes, &above, parent_of(node));
        above.push(place)?;
    }
    Ok(above)
}
