//! Names of nodes.
use crate::spot::node_at;
use std::alloc::AllocError;
use yv_nodes::NodeId;
use yv_note_text::{Joint, push_between, push_quoted};
use yv_schema_tables::Schema;

/// What nodes are called.
#[derive(Clone, Copy)]
pub(crate) enum Naming {
    /// By their names.
    Name,
    /// As the JSON members are called that write them.
    Member,
}

/// Adds what the nodes of these numbers are called, in quotes, of many the first 8.
pub(crate) fn push_names(
    text: &mut String,
    schema: &Schema,
    ids: &[NodeId],
    naming: Naming,
    joint: Joint,
) -> Result<(), AllocError> {
    for (place, id) in ids.iter().enumerate() {
        if !push_between(text, place, ids.len(), joint)? {
            break;
        }
        push_name(text, schema, *id, naming)?;
    }
    Ok(())
}

/// Adds what a node is called, in quotes.
pub(crate) fn push_name(
    text: &mut String,
    schema: &Schema,
    id: NodeId,
    naming: Naming,
) -> Result<(), AllocError> {
    match (node_at(schema, Some(id)), naming) {
        (Some(node), Naming::Name) => push_quoted(text, node.name()),
        (Some(node), Naming::Member) => {
            let member = node.member(*text.allocator())?;
            push_quoted(text, member.as_str())
        }
        (None, _) => text.push_str("a node"),
    }
}
