//! The links of a schema's leafrefs.
ghost use Rattle.std.specs.{Prelude.{◌≡◌, ◌↔◌, Some, length, IfOk}, Option.{option_map}};
ghost use Rattle.yv_nodes.specs.Link as spec;
ghost use Rattle.yv_node_leafrefs.specs.{Above.{AreBehind}, Leafrefs.{AreLeafrefs}, Schema.{Schema, leafref_of_row}, Links.{AreLinks, IsLinkOf}, InnerWays.{AreAbove}};

use crate::inner_nodes::inner_above;
use crate::leafref::Leafref;
use crate::leafrefs::Leafrefs;
use crate::link::link_to;
use std::alloc::{AllocError, Global};
use yv_nodes::{Link, Links, NodeId, Nodes};

// What a node says as a leafref.
fn leafref_of<'a>(
    of: &[Option<usize>],
    leafrefs: &'a [Leafref],
    node: NodeId,
) -> Option<&'a Leafref>
    ensures { option_map (λ leafref. leafref.now) result
        ≡ leafref_of_row of.now leafrefs.now node.0 }
{
    let says = of.get(node.number() as usize).copied().unwrap_or(None)?;
    leafrefs.get(says)
}

// The link of a node, if it has one.
fn link_of(
    alloc: Global,
    above: &[Option<u32>],
    of: &[Option<usize>],
    leafrefs: &[Leafref],
    resolved: &Leafrefs,
    node: NodeId,
) -> Result<Option<Link>, AllocError>
    ensures { (s : Schema) → AreLeafrefs s resolved.now → s.says node.0
        ≡ leafref_of_row of.now leafrefs.now node.0
        → AreAbove s.rows (length s.rows) above.now
        → IfOk result (λ found. (link : spec.Link) → (found ≡ Some link) ↔ IsLinkOf s node.0 link) }
{
    let Some(target) = resolved.target(node) else {
        return Ok(None);
    };
    match leafref_of(of, leafrefs, node) {
        None => Ok(None),
        Some(leafref) => {
            let link = link_to(alloc, above, leafref, target)?;
            Ok(link)
        }
    }
}

/// The links of the leafrefs among these nodes, whether they require an instance or not. `of` gives
/// for each node which of the leafrefs it is, if it is one, and `resolved` what they refer to (RFC
/// 7950, sections 9.9.2 and 9.9.3). It takes time and memory linear in the nodes and in the steps
/// of the links, none of which has more steps than nodes are nested, and time n log n in the links.
/// Err only if memory runs out.
pub fn links(
    alloc: Global,
    nodes: &Nodes,
    of: &[Option<usize>],
    leafrefs: &[Leafref],
    resolved: &Leafrefs,
) -> Result<Links, AllocError>
    // Each node comes after the one above it.
    requires behind { AreBehind nodes.now.rows }
    // What is resolved is that of these nodes and leafrefs.
    requires resolves { AreLeafrefs
        (record { rows = nodes.now.rows; says = leafref_of_row of.now leafrefs.now }) resolved.now }
    // For each node the link of its leafref: how often its path climbs, the data node that each
    // step means, the target, and whether it requires an instance; none for other nodes.
    ensures { IfOk result
        (AreLinks (record { rows = nodes.now.rows; says = leafref_of_row of.now leafrefs.now })) }
{
    let above = inner_above(alloc, nodes.all())?;
    let mut links = Vec::new(alloc);
    for number in 0..nodes.len() {
        let link = link_of(alloc, &above, of, leafrefs, resolved, NodeId(number))?;
        links.push(link)?;
    }
    let made = Links::new(alloc, links)?;
    Ok(made)
}
