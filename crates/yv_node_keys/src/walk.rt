//! Where paths lead.
ghost use Rattle.std.specs.{Prelude.{◌≡◌, Some, None, IfOk, if◌then◌else◌}, Option.{option_and_then}};
ghost use Rattle.yv_node_keys.specs.{declared.place.Way.TheVariants.{AtNode}, Numbers.{arrived_at, is_called_at, leaf_at_end_of, led_by_at, unique_leaf_at}};

use crate::index::Index;
use crate::node_numbers::{arrived_at, is_called_at, leaf_of, module_file_at};
use crate::place::Way;
use std::alloc::{AllocError, Global};
use yv_node_content::PathStep;
use yv_nodes::{Node, NodeId};

// Where a path is that came down from one node to another, if there is one.
fn arrived_from(nodes: &[Node], above: NodeId, below: Option<NodeId>) -> Option<Way>
    ensures { result ≡ option_and_then (arrived_at nodes.now above) below }
{
    let below = below?;
    arrived_at(nodes, above, below)
}

// Where a path is that came from the case left out around a node, if it is of this module and this
// name.
fn enter_case(nodes: &[Node], node: NodeId, module_file: u32, name: &str) -> Option<Way>
    ensures { result
        ≡ (if is_called_at nodes.now module_file name.now node then Some (AtNode node) else None) }
{
    if is_called_at(nodes, node, module_file, name) {
        Some(Way::AtNode(node))
    } else {
        None
    }
}

// Where a step leads.
fn step_to<'n>(
    alloc: Global,
    index: &mut Index<'n>,
    own: u32,
    from: Way,
    step: &'n PathStep,
) -> Result<Option<Way>, AllocError>
    ensures rows { index.new ≡ index.old }
    ensures next { IfOk result (λ next. next ≡ led_by_at index.old own (Some step.now) from) }
{
    let module_file = step.module_file().unwrap_or(own);
    let name = step.name();
    match from {
        Way::AtNode(above) => {
            let child = index.child(alloc, above, module_file, name)?;
            Ok(arrived_from(index.nodes(), above, child))
        }
        Way::AtShorthandCase(node) => Ok(enter_case(index.nodes(), node, module_file, name)),
    }
}

// Where a step leads; its prefix may refer to no module.
fn follow_step<'n>(
    alloc: Global,
    index: &mut Index<'n>,
    own: u32,
    from: Way,
    step: &'n Option<PathStep>,
) -> Result<Option<Way>, AllocError>
    ensures rows { index.new ≡ index.old }
    ensures next { IfOk result (λ next. next ≡ led_by_at index.old own step.now from) }
{
    match step {
        Some(step) => {
            let next = step_to(alloc, index, own, from, step)?;
            Ok(next)
        }
        None => Ok(None),
    }
}

// The leaf at which a path has arrived.
fn leaf_at_end(nodes: &[Node], place: Way) -> Option<NodeId>
    ensures { result ≡ leaf_at_end_of nodes.now place }
{
    match place {
        Way::AtNode(node) => leaf_of(nodes, node),
        Way::AtShorthandCase(_) => None,
    }
}

/// The leaf below a list that a path names.
pub(crate) fn unique_leaf<'n>(
    alloc: Global,
    index: &mut Index<'n>,
    list: NodeId,
    path: &'n [Option<PathStep>],
) -> Result<Option<NodeId>, AllocError>
    ensures rows { index.new ≡ index.old }
    ensures leaf { IfOk result (λ leaf. leaf ≡ unique_leaf_at index.old list path.now) }
{
    if path.is_empty() {
        return Ok(None);
    }
    let own = module_file_at(index.nodes(), list);
    let mut place = Way::AtNode(list);
    for step in path {
        match follow_step(alloc, index, own, place, step)? {
            Some(next) => place = next,
            None => return Ok(None),
        }
    }
    Ok(leaf_at_end(index.nodes(), place))
}
