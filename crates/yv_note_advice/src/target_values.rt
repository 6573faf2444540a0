//! The values that a document has at the end of a path.
use crate::spot::{member_of, node_at};
use serde_json::Value;
use std::alloc::{AllocError, Global};
use yv_nodes::NodeId;
use yv_schema_tables::Schema;

/// How many values are looked at.
const MOST_VALUES: usize = 1000;

/// The first 1,000 values at the end of these steps down from a value.
pub(crate) fn values_at<'d>(
    alloc: Global,
    schema: &Schema,
    base: Option<&'d Value>,
    steps: &[NodeId],
) -> Result<Vec<&'d Value>, AllocError> {
    let mut values = Vec::new(alloc);
    if let Some(value) = base {
        values.push(value)?;
    }
    for step in steps {
        if values.is_empty() {
            break;
        }
        values = values_below(alloc, schema, &values, *step)?;
    }
    Ok(values)
}

// The first 1,000 values that one step down from others leads to.
fn values_below<'d>(
    alloc: Global,
    schema: &Schema,
    values: &[&'d Value],
    step: NodeId,
) -> Result<Vec<&'d Value>, AllocError> {
    let mut below = Vec::new(alloc);
    let Some(node) = node_at(schema, Some(step)) else {
        return Ok(below);
    };
    let member = node.member(alloc)?;
    for value in values {
        push_items(&mut below, member_of(Some(*value), member.as_str()))?;
    }
    Ok(below)
}

// Adds a value, or the items of an array, as long as there are fewer than 1,000.
fn push_items<'d>(values: &mut Vec<&'d Value>, value: Option<&'d Value>) -> Result<(), AllocError> {
    let room = MOST_VALUES.saturating_sub(values.len());
    match value {
        Some(Value::Array(items)) => {
            for item in items.as_slice().iter().take(room) {
                values.push(item)?;
            }
        }
        Some(value) if room > 0 => values.push(value)?,
        _ => {}
    }
    Ok(())
}
