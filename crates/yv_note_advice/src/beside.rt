//! The nodes in one object.
use crate::spot::{Spot, children_at, node_at};
use std::alloc::{AllocError, Global};
use yv_data_faults::MemberName;
use yv_node_content::NodeKind;
use yv_nodes::{Node, NodeId};
use yv_schema_tables::Schema;

/// How many nodes of an object are looked at.
const MOST_NODES: usize = 1000;

/// The first 1,000 nodes below the node around a place, and after them those in choices and cases,
/// which are in the same object.
pub(crate) fn beside(alloc: Global, spot: &Spot<'_, '_>) -> Result<Vec<NodeId>, AllocError> {
    let schema = spot.schema;
    let mut nodes = Vec::new(alloc);
    add(&mut nodes, children_at(schema, spot.around))?;
    for at in 0..MOST_NODES {
        let Some(id) = nodes.get(at).copied() else {
            return Ok(nodes);
        };
        if is_passed(schema, id) {
            add(&mut nodes, children_at(schema, Some(id)))?;
        }
    }
    Ok(nodes)
}

/// The data nodes among them: those that a member of the object can write.
pub(crate) fn data_beside(alloc: Global, spot: &Spot<'_, '_>) -> Result<Vec<NodeId>, AllocError> {
    let nodes = beside(alloc, spot)?;
    nodes
        .iter()
        .copied()
        .filter(|id| is_data(spot.schema, *id))
        .collect(alloc)
}

fn is_data(schema: &Schema, id: NodeId) -> bool {
    node_at(schema, Some(id)).is_some_and(|node| node.kind().is_data())
}

// Adds nodes, as long as there are fewer than 1,000.
fn add(nodes: &mut Vec<NodeId>, others: &[NodeId]) -> Result<(), AllocError> {
    for id in others {
        if nodes.len() >= MOST_NODES {
            return Ok(());
        }
        nodes.push(*id)?;
    }
    Ok(())
}

fn is_passed(schema: &Schema, id: NodeId) -> bool {
    node_at(schema, Some(id)).is_some_and(|node| node.kind().is_passed())
}

/// The choice of a name that is in the object around a place.
pub(crate) fn choice_of(
    alloc: Global,
    spot: &Spot<'_, '_>,
    name: &MemberName<'_>,
) -> Result<Option<NodeId>, AllocError> {
    let nodes = beside(alloc, spot)?;
    Ok(
        nodes.iter().copied().find(|id| {
            node_at(spot.schema, Some(*id)).is_some_and(|node| is_choice(node, name))
        }),
    )
}

// Whether a node is the choice of a name.
fn is_choice(node: &Node, name: &MemberName<'_>) -> bool {
    let is_same_module = match name.module {
        Some(module) => module == node.module(),
        None => true,
    };
    matches!(node.kind(), NodeKind::Choice) && is_same_module && node.name() == name.name
}
