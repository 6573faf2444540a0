//! What is said of a reference without a target.
use crate::near_text::NearText;
use crate::spot::{Spot, member_of, node_at};
use crate::target_path::{TargetPath, push_target_path};
use crate::target_values::values_at;
use serde_json::Value;
use std::alloc::AllocError;
use yv_data_faults::Fault;
use yv_nodes::Link;
use yv_note_text::push_quoted;
use yv_note_values::push_written;

/// Adds which node has no such value in the document, and what may be meant by the value.
pub(crate) fn push_reference(
    text: &mut String,
    spot: &Spot<'_, '_>,
    fault: &Fault,
) -> Result<(), AllocError> {
    let alloc = *text.allocator();
    let Some(link) = link_at(spot) else {
        return text.push_str("nothing has this value; write a value that exists, or add this one");
    };
    let path = fault.path.steps().to_vec(alloc)?;
    let target = TargetPath::of(link, path.as_slice());
    text.push_str("no ")?;
    push_target_path(text, spot.schema, &target)?;
    push_sought(text, spot.value)?;
    let base = Spot::find(alloc, &spot.advisor, target.base)?;
    let values = values_at(alloc, spot.schema, base.value, target.steps)?;
    push_remedy(text, spot, link, &values)
}

// The path of the leafref at a place.
fn link_at<'d>(spot: &Spot<'d, '_>) -> Option<&'d Link> {
    spot.schema.reference(spot.node?)
}

// Adds which value is sought.
fn push_sought(text: &mut String, value: Option<&Value>) -> Result<(), AllocError> {
    match value {
        Some(value) => {
            text.push_str(" has the value ")?;
            push_written(text, value)
        }
        None => text.push_str(" has this value"),
    }
}

// Adds which of the values that are there may be meant, or else what to do.
fn push_remedy(
    text: &mut String,
    spot: &Spot<'_, '_>,
    link: &Link,
    values: &[&Value],
) -> Result<(), AllocError> {
    if let Some(near) = nearest(values, spot.value) {
        text.push_str("; did you mean ")?;
        push_quoted(text, near.text)?;
        return text.push_str("?");
    }
    if values.is_empty() && push_unknown_top(text, spot, link)? {
        return Ok(());
    }
    text.push_str("; write a value that exists there, or add this one")
}

// The string that is most like the one that is sought.
fn nearest<'d>(values: &[&'d Value], sought: Option<&Value>) -> Option<NearText<'d>> {
    let Some(Value::String(sought)) = sought else {
        return None;
    };
    values.iter().fold(None, |found, value| {
        NearText::nearer(found, near(sought.as_str(), *value))
    })
}

fn near<'d>(sought: &str, value: &'d Value) -> Option<NearText<'d>> {
    match value {
        Value::String(text) => NearText::read(sought, text.as_str()),
        _ => None,
    }
}

// Adds that the target may be in a member of the top that lacks its module's name, if it is so, and
// returns whether it is.
fn push_unknown_top(
    text: &mut String,
    spot: &Spot<'_, '_>,
    link: &Link,
) -> Result<bool, AllocError> {
    let Some(top) = node_at(spot.schema, link.steps.first().copied()) else {
        return Ok(false);
    };
    let document = Some(spot.advisor.document);
    let member = top.member(*text.allocator())?;
    let is_there = member_of(document, member.as_str()).is_some();
    if link.climbs.is_some() || is_there || member_of(document, top.name()).is_none() {
        return Ok(false);
    }
    text.push_str("; what it refers to may be in ")?;
    push_quoted(text, top.name())?;
    text.push_str(", which is unknown")?;
    Ok(true)
}
