//! What leafrefs refer to.
ghost use Rattle.std.specs.Prelude.{◌≡◌, ◌↔◌, ◌<◌, ℕ, List, Some, None, map, length, slice_get, slice_index_or, IsTrue, IfOk};
ghost use Rattle.yv_node_content.specs.declared.kind.NodeKind.{NodeKind};
ghost use Rattle.yv_node_leafrefs.specs.{Targets.{IsLeafref, RefersTo, is_fit}, InnerNames.{told_of, stride_of}, InnerOutline.{rows_in, schema_in}, InnerIndex.{IsDraft}, InnerGraph.{AreTargets, IsOne}};
ghost use Rattle.yv_node_content.specs.Kinds.{has_values};

use crate::draft::Draft;
use crate::leafref::Leafref;
use crate::outline::Outline;
use crate::strides::Stride;
use crate::walk::{start, walk};
use std::alloc::{AllocError, Global};
use yv_node_content::NodeKind;
use yv_nodes::Node;

fn has_values(kind: NodeKind) -> bool
    ensures { result ≡ has_values kind }
{
    matches!(kind, NodeKind::Leaf | NodeKind::LeafList)
}

// Whether a node may be the target of a leafref.
fn is_fit(node: &Node, leafref: &Leafref, target: &Node) -> bool
    ensures { result ≡ is_fit node.now leafref.now target.now }
{
    has_values(target.kind()) && (!(leafref.is_required() && node.config()) || target.config())
}

// The number of what a node says as a leafref.
fn leafref_number(of: &[Option<usize>], number: u32) -> Option<usize>
    ensures { result ≡ slice_index_or of.now number None }
{
    of.get(number as usize).copied().unwrap_or(None)
}

// The target of a leafref that says this, with these steps.
fn follow(
    outline: &Outline<'_>,
    draft: &Draft<'_>,
    number: u32,
    node: &Node,
    leafref: &Leafref,
    strides: &[Option<Stride>],
) -> Option<u32>
    requires draft { IsDraft outline.now draft.now }
    requires leafref { IsLeafref (schema_in outline.now) number node.now leafref.now }
    requires strides { strides.now ≡ map (stride_of (told_of draft.now.names)) leafref.now.steps }
    ensures { (target : ℕ) → (result ≡ Some target)
        ↔ RefersTo (schema_in outline.now) number target }
{
    let place = start(draft, number, leafref.climbs())?;
    let found = walk(draft, node.module_file(), strides, place)?;
    if is_fit(node, leafref, &outline.nodes[found as usize]) {
        Some(found)
    } else {
        None
    }
}

// The target of a node.
fn target(outline: &Outline<'_>, draft: &Draft<'_>, number: u32) -> Option<u32>
    requires draft { IsDraft outline.now draft.now }
    requires within { number < length (rows_in outline.now) }
    ensures { (target : ℕ) → (result ≡ Some target)
        ↔ RefersTo (schema_in outline.now) number target }
{
    if draft.inside[number as usize] {
        return None;
    }
    let says = leafref_number(outline.of, number)?;
    let leafref = outline.leafrefs.get(says)?;
    let node = &outline.nodes[number as usize];
    follow(outline, draft, number, node, leafref, &draft.strides[says])
}

/// Whether a node is a leafref outside operations and notifications.
pub(crate) fn is_leafref(outline: &Outline<'_>, draft: &Draft<'_>, number: u32) -> bool
    requires draft { IsDraft outline.now draft.now }
    requires within { number < length (rows_in outline.now) }
    ensures { IsTrue result ↔ IsOne (schema_in outline.now) number }
{
    if draft.inside[number as usize] {
        return false;
    }
    match leafref_number(outline.of, number) {
        None => false,
        Some(says) => says < outline.leafrefs.len(),
    }
}

/// The targets of all nodes.
pub(crate) fn targets(
    alloc: Global,
    outline: &Outline<'_>,
    draft: &Draft<'_>,
) -> Result<Vec<Option<u32>>, AllocError>
    requires { IsDraft outline.now draft.now }
    ensures each { IfOk result (λ targets. length targets.items ≡ length (rows_in outline.now)) }
    ensures targets { IfOk result (λ targets. AreTargets (schema_in outline.now) targets.items) }
{
    let mut targets = Vec::new(alloc);
    for number in 0..outline.nodes.len() {
        let found = target(outline, draft, number as u32);
        targets.push(found)?;
    }
    Ok(targets)
}
