//! Where a fault's path leads, in the document and in the schema.
ghost use Rattle.std.specs.Prelude.{◌≡◌, ◌≤◌, true, length};
ghost use Rattle.yv_nodes.specs.Rows.{rank};

use crate::advisor::Advisor;
use serde_json::Value;
use std::alloc::{AllocError, Global};
use yv_data_faults::Part;
use yv_nodes::{Node, NodeId};
use yv_schema_tables::Schema;
use yv_values::Meter;

/// How many leafrefs that lead to one another are followed.
const MOST_LINKS: usize = 64;

/// A place that a path leads to.
#[derive(Clone, Copy)]
pub(crate) struct Spot<'d, 's> {
    pub(crate) schema: &'d Schema,
    pub(crate) advisor: Advisor<'d, 's>,
    /// The node around it: the root for a member of the top. None where the path has left the
    /// schema.
    pub(crate) around: Option<NodeId>,
    /// The object around it, where the document has it.
    pub(crate) object: Option<&'d Value>,
    /// The node at this place, if a member can name it.
    pub(crate) node: Option<NodeId>,
    /// What the member writes.
    pub(crate) written: Option<&'d Value>,
    /// The same, or of an array the entry or item that the step numbers.
    pub(crate) value: Option<&'d Value>,
    /// That number, from 1.
    pub(crate) item: Option<u64>,
}

impl<'d, 's> Spot<'d, 's> {
    /// The place of the document.
    pub(crate) fn top(advisor: &Advisor<'d, 's>) -> Spot<'d, 's> {
        Spot {
            schema: advisor.schema,
            advisor: *advisor,
            around: None,
            object: None,
            node: Some(Schema::ROOT),
            written: Some(advisor.document),
            value: Some(advisor.document),
            item: None,
        }
    }

    /// The place that a path leads to. It takes time linear in the path's names.
    pub(crate) fn find(
        alloc: Global,
        advisor: &Advisor<'d, 's>,
        path: &[Part<'_>],
    ) -> Result<Spot<'d, 's>, AllocError> {
        let mut spot = Spot::top(advisor);
        for step in path {
            spot = spot.below(alloc, step)?;
        }
        Ok(spot)
    }

    /// The place that one step leads to from here.
    pub(crate) fn below(&self, alloc: Global, step: &Part<'_>) -> Result<Spot<'d, 's>, AllocError> {
        let member = step.member(alloc)?;
        let written = member_of(self.value, member.as_str());
        Ok(Spot {
            schema: self.schema,
            advisor: self.advisor,
            around: self.node,
            object: self.value,
            node: node_named(self.schema, self.node, member.as_str()),
            written,
            value: item_of(written, step.item),
            item: step.item,
        })
    }

    /// What the schema says of the node at this place.
    pub(crate) fn schema_node(&self) -> Option<&'d Node> {
        node_at(self.schema, self.node)
    }
}

/// The value of an object's member.
pub(crate) fn member_of<'d>(object: Option<&'d Value>, member: &str) -> Option<&'d Value> {
    match object {
        Some(Value::Object(members)) => members.get(member),
        _ => None,
    }
}

// The item of this number from 1, where there is one, and else the value itself.
fn item_of<'d>(value: Option<&'d Value>, item: Option<u64>) -> Option<&'d Value> {
    let Some(number) = item else {
        return value;
    };
    let index = usize::try_from(number.saturating_sub(1)).ok()?;
    items_of(value).get(index)
}

/// The items of an array, and none of another value.
pub(crate) fn items_of<'d>(value: Option<&'d Value>) -> &'d [Value] {
    match value {
        Some(Value::Array(items)) => items.as_slice(),
        _ => &[],
    }
}

// The node that a member names in an object of a node.
fn node_named(schema: &Schema, around: Option<NodeId>, member: &str) -> Option<NodeId> {
    let around = around?;
    if has_children(schema, around) {
        schema.find(&mut Meter::new(), around, member)
    } else {
        None
    }
}

/// Whether a number is the root's or that of a node.
pub(crate) fn has_children(schema: &Schema, id: NodeId) -> bool
    ensures { result ≡ true → rank id ≤ length schema.now.nodes }
{
    id == Schema::ROOT || id.number() < schema.len()
}

/// The node of a number, where there is one.
pub(crate) fn node_at<'s>(schema: &'s Schema, id: Option<NodeId>) -> Option<&'s Node> {
    let id = id?;
    if id.number() < schema.len() {
        Some(schema.node(id))
    } else {
        None
    }
}

/// The children of a node or of the root.
pub(crate) fn children_at<'s>(schema: &'s Schema, id: Option<NodeId>) -> &'s [NodeId] {
    match id {
        Some(id) if has_children(schema, id) => schema.children(id),
        _ => &[],
    }
}

/// The node whose type the values of a node have: the target of a leafref, and of other nodes
/// themselves.
pub(crate) fn target_of(schema: &Schema, id: NodeId) -> NodeId {
    let mut target = id;
    for _ in 0..MOST_LINKS {
        match schema.reference(target) {
            Some(link) => target = link.target,
            None => break,
        }
    }
    target
}
