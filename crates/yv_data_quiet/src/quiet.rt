//! Nodes of which nothing comes but steps, where they aren't in an object.
ghost use Rattle.std.specs.{Prelude.{◌≡◌, ◌<◌, ◌≤◌, ℕ, length, true, Some, IfOk, IfSome}, BTreeSet.{contains}, Ordering.{nat_cmp}};
ghost use Rattle.yv_nodes.specs.Rows.{below, rank};
ghost use Rattle.yv_schema_tables.specs.Measures.{is_open, count_met};
ghost use Rattle.yv_data_quiet.specs.{NamedLeafs.{is_named}, Quiet.{are_quiet, AreKnown, is_mute, is_unread, steps_at}};

use crate::named_leafs::{is_read, named_leafs};
use std::alloc::{AllocError, Global};
use std::collections::BTreeSet;
use yv_node_content::NodeKind;
use yv_nodes::{Node, NodeId};
use yv_schema_tables::Schema;
use yv_walk::laws;

/// What is known of the nodes of a schema, from the last to the first: the steps of a node with all
/// that is met below it, where nothing else comes of them if none of them exists in an object. It
/// takes time n log n, and memory linear in the nodes.
pub fn known_nodes(alloc: Global, schema: &Schema) -> Result<Vec<Option<u64>>, AllocError>
    ensures { IfOk result (λ known. AreKnown schema.now known.items) }
{
    let named = named_leafs(alloc, schema)?;
    let mut known = Vec::new(alloc);
    for index in 0..schema.len() {
        let id = NodeId(schema.len() - 1 - index);
        let steps = tree_steps(schema, &named, known.as_slice(), id);
        known.push(steps)?;
    }
    Ok(known)
}

/// What is known of a node.
pub fn known_steps(schema: &Schema, known: &[Option<u64>], id: NodeId) -> Option<u64>
    // The number is that of a node.
    requires node { id.0 < length schema.now.nodes }
    // What is known is that of this schema.
    requires known { AreKnown schema.now known.now }
    // The steps of a quiet node, or none.
    ensures { IfSome result (λ steps. steps_at schema.now id ≡ Some steps) }
{
    let back = schema.len() - 1 - id.number();
    match known.get(back as usize) {
        Some(steps) => *steps,
        None => None,
    }
}

/// The steps of the nodes below a node or the root.
pub fn inner_steps(schema: &Schema, known: &[Option<u64>], parent: NodeId) -> Option<u64>
    // The number is that of a node, or the root.
    requires node { rank parent ≤ length schema.now.nodes }
    // What is known is that of this schema.
    requires known { AreKnown schema.now known.now }
    // If there are some: all that is met below the node is quiet, and these are its steps.
    ensures quiet { IfSome result (λ steps.
        are_quiet schema.now (rank parent) (below schema.now parent) ≡ true) }
    // They are the steps of what is met there.
    ensures steps { IfSome result (λ steps. count_met (below schema.now parent) ≡ steps) }
{
    laws::child_numbers();
    let mut total: u64 = 0;
    for child in schema.children(parent) {
        let steps = known_steps(schema, known, *child)?;
        total = total.checked_add(steps)?;
    }
    Some(total)
}

// The steps of a node, by those of the nodes in it, which come later.
fn tree_steps(
    schema: &Schema,
    named: &BTreeSet<u32>,
    known: &[Option<u64>],
    id: NodeId,
) -> Option<u64>
    requires node { id.0 < length schema.now.nodes }
    requires named { (n : ℕ) → contains nat_cmp named.now n ≡ is_named schema.now n }
    requires known { AreKnown schema.now known.now }
    ensures { IfSome result (λ steps. steps_at schema.now id ≡ Some steps) }
{
    let node = schema.node(id);
    let kind = node.kind();
    if kind.is_operation_or_notification() {
        return Some(0);
    }
    let asked = is_read(schema, named, id);
    if !is_mute(node, asked) {
        return None;
    }
    let width = node.width();
    if !is_open(node) {
        return Some(width);
    }
    let inner = inner_steps(schema, known, id)?;
    width.checked_add(inner)
}

// Whether nothing is missed where the node itself isn't there, and its defaults don't matter.
fn is_mute(node: &Node, asked: bool) -> bool
    ensures { result ≡ is_mute asked node.now.label.defined.kind node.now.label }
{
    match node.kind() {
        NodeKind::Leaf => !node.is_key() && !node.mandatory() && is_unread(node, asked),
        NodeKind::LeafList => node.min() == 0 && is_unread(node, asked),
        NodeKind::List => node.min() == 0,
        NodeKind::Choice | NodeKind::Anydata | NodeKind::Anyxml => !node.mandatory(),
        _ => true,
    }
}

// Whether no default of a node is in use where it isn't there, or nothing asks for it.
fn is_unread(node: &Node, asked: bool) -> bool
    ensures { result ≡ is_unread asked node.now.label }
{
    node.defaults().is_empty() || !asked
}

// Whether the nodes below this one are met where it is.
fn is_open(node: &Node) -> bool
    ensures { result ≡ is_open node.now.label }
{
    match node.kind() {
        NodeKind::Container => !node.presence(),
        kind => kind.is_passed(),
    }
}
