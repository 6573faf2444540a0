//! What is said of entries and items that repeat earlier ones.
use crate::spot::Spot;
use crate::words::{Naming, push_names};
use itoa::Buffer;
use std::alloc::AllocError;
use yv_data_faults::Fault;
use yv_node_content::NodeKind;
use yv_nodes::NodeId;
use yv_note_text::Joint;
use yv_schema_tables::Schema;

/// Adds which earlier entry has the keys of this one, or which earlier item its value.
pub(crate) fn push_duplicate(
    text: &mut String,
    spot: &Spot<'_, '_>,
    fault: &Fault,
) -> Result<(), AllocError> {
    match spot.schema_node() {
        Some(node) if !matches!(node.kind(), NodeKind::List) => {
            push_earlier(text, "item", fault.earlier)?;
            text.push_str(" has the same value; remove one of them")
        }
        _ => {
            push_earlier(text, "entry", fault.earlier)?;
            text.push_str(" has the same key; remove one of them, or change its key")
        }
    }
}

/// Adds which earlier entry has the values of this one for a `unique` statement.
pub(crate) fn push_unique(
    text: &mut String,
    spot: &Spot<'_, '_>,
    fault: &Fault,
) -> Result<(), AllocError> {
    push_earlier(text, "entry", fault.earlier)?;
    text.push_str(" has the same ")?;
    let leafs = unique_at(spot.schema, spot.node, fault.number);
    push_names(text, spot.schema, leafs, Naming::Name, Joint::And)?;
    text.push_str("; change one of them")
}

/// Adds which keys an entry has.
pub(crate) fn push_key_names(text: &mut String, spot: &Spot<'_, '_>) -> Result<(), AllocError> {
    let keys = keys_at(spot.schema, spot.around);
    if keys.len() == 1 {
        text.push_str("it is missing: each entry needs the key ")?;
    } else {
        text.push_str("it is missing: each entry needs the keys ")?;
    }
    push_names(text, spot.schema, keys, Naming::Name, Joint::And)
}

// Adds which earlier entry or item it is.
fn push_earlier(text: &mut String, word: &str, earlier: Option<u32>) -> Result<(), AllocError> {
    match earlier {
        Some(number) => {
            text.push_str(word)?;
            text.push_str(" ")?;
            text.push_str(Buffer::new().format(number))
        }
        None => {
            text.push_str("an earlier ")?;
            text.push_str(word)
        }
    }
}

/// The leafs that the key of a list names.
pub(crate) fn keys_at<'s>(schema: &'s Schema, list: Option<NodeId>) -> &'s [NodeId] {
    match list {
        Some(id) if id.number() < schema.len() => schema.keys(id),
        _ => &[],
    }
}

// The leafs that a `unique` statement of a list names, by its number from 1.
fn unique_at<'s>(schema: &'s Schema, list: Option<NodeId>, number: u32) -> &'s [NodeId] {
    let place = number.saturating_sub(1) as usize;
    match list {
        Some(id) if id.number() < schema.len() => match schema.uniques(id).get(place) {
            Some(leafs) => leafs.as_slice(),
            None => &[],
        },
        _ => &[],
    }
}
