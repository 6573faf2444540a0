//! What is said of a member that names no data node of its object.
use crate::beside::{beside, data_beside};
use crate::features::push_feature;
use crate::modules::{is_implemented, push_no_module};
use crate::spot::{Spot, node_at};
use crate::words::{Naming, push_name, push_names};
use std::alloc::{AllocError, Global};
use yv_link_scopes::{local, prefix_of};
use yv_node_content::NodeKind;
use yv_nodes::{Node, NodeId};
use yv_note_text::{Joint, Likeness, compare};
use yv_schema_tables::Schema;

/// How the names of members begin that RESTCONF's media types have (RFC 8040).
const RESTCONF: &str = "ietf-restconf:";

// A node whose name is like that of a member.
#[derive(Clone, Copy)]
struct Candidate {
    id: NodeId,
    likeness: Likeness,
}

/// Adds what is wrong with a member that names no data node of an object.
pub(crate) fn push_unknown(
    text: &mut String,
    spot: &Spot<'_, '_>,
    member: &str,
) -> Result<(), AllocError> {
    let alloc = *text.allocator();
    let name = local(member);
    if member.starts_with('@') {
        return text.push_str("metadata is not supported; remove it");
    }
    if let Some(node) = other_kind(alloc, spot, name)? {
        return text.push_str(not_data(node.kind()));
    }
    let data = data_beside(alloc, spot)?;
    let near = nearest(spot.schema, &data, name);
    if !is_same(near) && push_cause(text, spot, member)? {
        return Ok(());
    }
    push_guess(text, spot.schema, &data, near)
}

// Adds why no node of the schema is meant, where that is seen, and returns whether it is.
fn push_cause(text: &mut String, spot: &Spot<'_, '_>, member: &str) -> Result<bool, AllocError> {
    if is_wrapper(spot, member) {
        text.push_str("this is a wrapper; give the document that is inside it")?;
        return Ok(true);
    }
    match prefix_of(member) {
        Some(module) if !is_implemented(spot.schema, module) => {
            push_no_module(text, &spot.advisor, module)?;
            Ok(true)
        }
        _ => push_feature(text, spot, member),
    }
}

// The node of this name that no member of an object writes: an operation, a notification, a choice
// or a case.
fn other_kind<'d>(
    alloc: Global,
    spot: &Spot<'d, '_>,
    name: &str,
) -> Result<Option<&'d Node>, AllocError> {
    let nodes = beside(alloc, spot)?;
    let mut other = None;
    for id in nodes.iter() {
        if let Some(node) = node_at(spot.schema, Some(*id)) {
            if node.name() == name && node.kind().is_data() {
                return Ok(None);
            }
            if node.name() == name {
                other = Some(node);
            }
        }
    }
    Ok(other)
}

// What is said of a node that no member of an object writes.
fn not_data(kind: NodeKind) -> &'static str {
    match kind {
        NodeKind::Choice =>
            "this is a choice, which is not in a document itself; write the nodes of one of its cases",
        NodeKind::Case => "this is a case, which is not in a document itself; write its nodes",
        NodeKind::Notification =>
            "this is a notification, which does not belong in a data document; remove it",
        NodeKind::Rpc => "this is an rpc, which does not belong in a data document; remove it",
        _ => "this is an action, which does not belong in a data document; remove it",
    }
}

// Whether a node has the very name of the member.
fn is_same(near: Option<Candidate>) -> bool {
    near.is_some_and(|near| near.likeness == Likeness::Same)
}

// Whether a member of the top is one in which other tools wrap a document.
fn is_wrapper(spot: &Spot<'_, '_>, member: &str) -> bool {
    spot.around == Some(Schema::ROOT)
        && (member == "data" || member == "ietf-netconf:data" || member.starts_with(RESTCONF))
}

// Adds which node may be meant, or which members there are.
fn push_guess(
    text: &mut String,
    schema: &Schema,
    data: &[NodeId],
    near: Option<Candidate>,
) -> Result<(), AllocError> {
    let Some(near) = near else {
        return push_all(text, schema, data);
    };
    if near.likeness == Likeness::Same {
        text.push_str("the name of this member is ")?;
        push_name(text, schema, near.id, Naming::Member)
    } else {
        text.push_str("there is no such member here; did you mean ")?;
        push_name(text, schema, near.id, Naming::Member)?;
        text.push_str("?")
    }
}

// Adds which members an object can have.
fn push_all(text: &mut String, schema: &Schema, data: &[NodeId]) -> Result<(), AllocError> {
    if data.is_empty() {
        return text.push_str("there is no such member here; remove it");
    }
    text.push_str("there is no such member here, only ")?;
    push_names(text, schema, data, Naming::Member, Joint::And)
}

// The node whose name is most like another one: the first, where several are.
fn nearest(schema: &Schema, data: &[NodeId], name: &str) -> Option<Candidate> {
    data.iter()
        .fold(None, |found, id| nearer(found, near(schema, *id, name)))
}

// A node, where its name is like another one.
fn near(schema: &Schema, id: NodeId, name: &str) -> Option<Candidate> {
    let node = node_at(schema, Some(id))?;
    let likeness = compare(name.as_bytes(), node.name().as_bytes())?;
    Some(Candidate { id, likeness })
}

// The more alike of two nodes: the first, where both are as much.
fn nearer(first: Option<Candidate>, second: Option<Candidate>) -> Option<Candidate> {
    match (first, second) {
        (Some(one), Some(other)) if other.likeness < one.likeness => Some(other),
        (None, other) => other,
        (one, _) => one,
    }
}
