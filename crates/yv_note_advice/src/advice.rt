//! What is wrong at a fault, and what to do.
use crate::choices::{push_choice, push_missing_choice};
use crate::duplicates::{push_duplicate, push_key_names, push_unique};
use crate::reference::push_reference;
use crate::spot::{Spot, items_of, node_at, target_of};
use crate::unknown::push_unknown;
use itoa::Buffer;
use serde_json::Value;
use std::alloc::AllocError;
use yv_data_faults::{Fault, FaultKind, MemberName};
use yv_node_content::NodeKind;
use yv_nodes::NodeId;
use yv_note_values::{push_count, push_type};
use yv_schema_tables::Schema;

const STATE: &str =
    "this is state data, which a configuration cannot contain; remove it, or use --kind data";

const MISSING_STATE: &str =
    "this state is missing; if the document is configuration alone, use --kind config";

/// Adds what is wrong at a fault whose path isn't empty, and what to do.
pub(crate) fn push_advice(
    text: &mut String,
    spot: &Spot<'_, '_>,
    name: &MemberName<'_>,
    fault: &Fault,
) -> Result<(), AllocError> {
    if spot.advisor.is_missing_state(fault) {
        return text.push_str(MISSING_STATE);
    }
    match fault.kind {
        FaultKind::Unknown => push_unknown(text, spot, name.name),
        FaultKind::Shape => push_shape(text, spot),
        FaultKind::Value => push_value(text, spot),
        FaultKind::MissingKey => push_key_names(text, spot),
        FaultKind::Duplicate => push_duplicate(text, spot, fault),
        FaultKind::Unique => push_unique(text, spot, fault),
        FaultKind::Mandatory if name.is_choice => push_missing_choice(text, spot, name),
        FaultKind::Mandatory => push_mandatory(text, spot),
        FaultKind::Min => push_few(text, spot),
        FaultKind::Max => push_many(text, spot),
        FaultKind::Choice => push_choice(text, spot, name),
        FaultKind::Reference => push_reference(text, spot, fault),
        FaultKind::State => text.push_str(STATE),
    }
}

// Adds what shape a node is written in.
fn push_shape(text: &mut String, spot: &Spot<'_, '_>) -> Result<(), AllocError> {
    if spot.item.is_some() {
        return text.push_str("each entry needs to be an object in braces");
    }
    match spot.schema_node() {
        Some(node) if matches!(node.kind(), NodeKind::List) => {
            text.push_str("write an array in brackets, with an object in braces for each entry")
        }
        Some(node) if matches!(node.kind(), NodeKind::LeafList) => {
            text.push_str("write an array in brackets, with a value for each item")
        }
        _ => text.push_str("write an object in braces"),
    }
}

// Adds what values a node has.
fn push_value(text: &mut String, spot: &Spot<'_, '_>) -> Result<(), AllocError> {
    match spot.node {
        Some(id) => push_expected(text, spot, id, spot.value),
        None => text.push_str("its type has other values"),
    }
}

// Adds that a node must be there, and what values it has.
fn push_mandatory(text: &mut String, spot: &Spot<'_, '_>) -> Result<(), AllocError> {
    text.push_str("it is missing, and the schema requires it")?;
    match spot.node {
        Some(id) if is_leaf(spot.schema, id) => {
            text.push_str("; ")?;
            push_expected(text, spot, id, None)
        }
        _ => Ok(()),
    }
}

fn is_leaf(schema: &Schema, id: NodeId) -> bool {
    node_at(schema, Some(id)).is_some_and(|node| matches!(node.kind(), NodeKind::Leaf))
}

// Adds what the type of a node expects in place of a value: of a leafref that of its target.
fn push_expected(
    text: &mut String,
    spot: &Spot<'_, '_>,
    id: NodeId,
    value: Option<&Value>,
) -> Result<(), AllocError> {
    let target = target_of(spot.schema, id);
    let Some(node) = node_at(spot.schema, Some(target)) else {
        return text.push_str("its type has other values");
    };
    if target != id {
        text.push_str("a leafref to ")?;
    }
    let files = spot.advisor.files();
    push_type(text, node, value, files.as_ref())
}

// Adds how many entries there must be at least, and how many there are.
fn push_few(text: &mut String, spot: &Spot<'_, '_>) -> Result<(), AllocError> {
    let least = spot.schema_node().map_or(1, |node| node.min());
    text.push_str("the schema requires at least ")?;
    push_count(text, u64::from(least), "entry", "entries")?;
    match items_of(spot.written).len() {
        0 => text.push_str(", but there are none"),
        1 => text.push_str(", but there is only 1"),
        count => {
            text.push_str(", but there are only ")?;
            text.push_str(Buffer::new().format(count))
        }
    }
}

// Adds how many entries there may be, and how many there are.
fn push_many(text: &mut String, spot: &Spot<'_, '_>) -> Result<(), AllocError> {
    let most = spot
        .schema_node()
        .and_then(|node| node.max())
        .unwrap_or(u32::MAX);
    text.push_str("the schema allows at most ")?;
    push_count(text, u64::from(most), "entry", "entries")?;
    text.push_str(", but there are ")?;
    text.push_str(Buffer::new().format(items_of(spot.written).len()))
}
