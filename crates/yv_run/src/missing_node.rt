//! The node to which a way doesn't lead.
ghost use Rattle.std.specs.Prelude.{◌<◌, All, IfSome, length};

use crate::nearest::nearer;
use std::alloc::AllocError;
use yv_job::WayStep;
use yv_node_content::NodeKind;
use yv_nodes::{Node, NodeId};
use yv_note_text::{front, push_quoted, push_shown};
use yv_schema_tables::Schema;
use yv_tree::is_step;

/// Adds which step of a way leads to no node, and what may be meant.
pub(crate) fn push_missing_node(
    text: &mut String,
    schema: &Schema,
    way: &[WayStep],
) -> Result<(), AllocError> {
    let mut above = None;
    for step in way {
        match child(schema, above, step) {
            Some(found) => above = Some(found),
            None => return push_missing_child(text, schema, above, step),
        }
    }
    text.push_str("--below leads to no node that is drawn")
}

// The nodes below a node, or those at the top.
fn children(schema: &Schema, above: Option<NodeId>) -> &[NodeId]
    requires { IfSome above (λ id. id.0 < length schema.now.nodes) }
    ensures { All (λ id. id.0 < length schema.now.nodes) result.now }
{
    match above {
        Some(id) => schema.children(id),
        None => schema.children(Schema::ROOT),
    }
}

// The number of the file of a node's module: None for what is above the nodes at the top.
fn module_file(schema: &Schema, id: Option<NodeId>) -> Option<u32>
    requires { IfSome id (λ id. id.0 < length schema.now.nodes) }
{
    match id {
        Some(id) => Some(schema.node(id).module_file()),
        None => None,
    }
}

// Whether a node is drawn: an input or output without nodes below it is not.
fn is_drawn(schema: &Schema, id: NodeId) -> bool
    requires { id.0 < length schema.now.nodes }
{
    match schema.node(id).kind() {
        NodeKind::Input | NodeKind::Output => !schema.children(id).is_empty(),
        _ => true,
    }
}

// The child of a node to which a step leads, and which is drawn.
fn child(schema: &Schema, above: Option<NodeId>, step: &WayStep) -> Option<NodeId>
    requires { IfSome above (λ id. id.0 < length schema.now.nodes) }
    ensures { IfSome result (λ id. id.0 < length schema.now.nodes) }
{
    let of_above = module_file(schema, above);
    for id in children(schema, above) {
        if is_step(of_above, step, schema.node(*id)) && is_drawn(schema, *id) {
            return Some(*id);
        }
    }
    None
}

// Adds that a node has no child of a step, and which child may be meant.
fn push_missing_child(
    text: &mut String,
    schema: &Schema,
    above: Option<NodeId>,
    step: &WayStep,
) -> Result<(), AllocError>
    requires { IfSome above (λ id. id.0 < length schema.now.nodes) }
{
    text.push_str("there is no node ")?;
    push_step(text, step.module(), step.name())?;
    match above {
        Some(id) => {
            text.push_str(" below ")?;
            push_quoted(text, schema.node(id).name())?;
        }
        None => text.push_str(" at the top")?,
    }
    if let Some(near) = near_child(schema, above, step.name()) {
        text.push_str("; did you mean ")?;
        push_child(text, module_file(schema, above), near)?;
        text.push_str("?")?;
    }
    Ok(())
}

// The child of a node that has the name most like this one, of those that are drawn.
fn near_child<'s>(schema: &'s Schema, above: Option<NodeId>, name: &str) -> Option<&'s Node>
    requires { IfSome above (λ id. id.0 < length schema.now.nodes) }
{
    let mut nearest = None;
    for id in children(schema, above) {
        if is_drawn(schema, *id) {
            nearest = nearer(name, nearest, schema.node(*id).name());
        }
    }
    let (near, _) = nearest?;
    for id in children(schema, above) {
        let node = schema.node(*id);
        if node.name() == near && is_drawn(schema, *id) {
            return Some(node);
        }
    }
    None
}

// Adds the step to a child of a node of this module.
fn push_child(text: &mut String, above: Option<u32>, node: &Node) -> Result<(), AllocError> {
    let module = if above == Some(node.module_file()) {
        None
    } else {
        Some(node.module())
    };
    push_step(text, module, node.name())
}

// Adds a name in quotes, after its module and a colon where there is one.
fn push_step(text: &mut String, module: Option<&str>, name: &str) -> Result<(), AllocError> {
    text.push_str("\"")?;
    if let Some(module) = module {
        push_shown(text, front(module.as_bytes()))?;
        text.push_str(":")?;
    }
    push_shown(text, front(name.as_bytes()))?;
    text.push_str("\"")
}
