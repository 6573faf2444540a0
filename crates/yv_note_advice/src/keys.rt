//! The keys of the entry around a fault.
use crate::advisor::Advisor;
use crate::duplicates::keys_at;
use crate::spot::{Spot, member_of, node_at};
use serde_json::Value;
use std::alloc::{AllocError, Global};
use yv_data_faults::Part;
use yv_node_content::NodeKind;
use yv_nodes::NodeId;
use yv_note_text::{front, push_shown};
use yv_note_values::push_written;

/// How many keys of an entry are shown.
const MOST_KEYS: usize = 4;

/// Adds the keys of the innermost list entry on a path, as `name "eth0", number 3`. It adds nothing
/// where no entry is on the path, and where one of the keys has no value that can be shown.
pub(crate) fn push_keys(
    alloc: Global,
    text: &mut String,
    advisor: &Advisor<'_, '_>,
    path: &[Part<'_>],
) -> Result<(), AllocError> {
    let Some(entry) = innermost_entry(alloc, advisor, path)? else {
        return Ok(());
    };
    let mut keys = String::new(alloc);
    let ids = keys_at(entry.schema, entry.node);
    for (place, key) in ids.iter().take(MOST_KEYS).enumerate() {
        if place > 0 {
            keys.push_str(", ")?;
        }
        if !push_key(alloc, &mut keys, &entry, *key)? {
            return Ok(());
        }
    }
    text.push_str(keys.as_str())
}

// The innermost list entry on a path that the document has.
fn innermost_entry<'d, 's>(
    alloc: Global,
    advisor: &Advisor<'d, 's>,
    path: &[Part<'_>],
) -> Result<Option<Spot<'d, 's>>, AllocError> {
    let mut spot = Spot::top(advisor);
    let mut entry = None;
    for step in path {
        spot = spot.below(alloc, step)?;
        if is_entry(&spot) {
            entry = Some(spot);
        }
    }
    Ok(entry)
}

// Whether a place is that of a list entry.
fn is_entry(spot: &Spot<'_, '_>) -> bool {
    let is_list = spot
        .schema_node()
        .is_some_and(|node| matches!(node.kind(), NodeKind::List));
    is_list && spot.item.is_some() && matches!(spot.value, Some(Value::Object(_)))
}

// Adds a key of an entry with its value, and returns whether it has one.
fn push_key(
    alloc: Global,
    text: &mut String,
    entry: &Spot<'_, '_>,
    key: NodeId,
) -> Result<bool, AllocError> {
    let Some(node) = node_at(entry.schema, Some(key)) else {
        return Ok(false);
    };
    let member = node.member(alloc)?;
    match member_of(entry.value, member.as_str()) {
        Some(value) if is_plain(value) => {
            push_shown(text, front(node.name().as_bytes()))?;
            text.push_str(" ")?;
            push_written(text, value)?;
            Ok(true)
        }
        _ => Ok(false),
    }
}

// Whether a value is a string, a number or a boolean.
fn is_plain(value: &Value) -> bool {
    matches!(value, Value::String(_) | Value::Number(_) | Value::Bool(_))
}
