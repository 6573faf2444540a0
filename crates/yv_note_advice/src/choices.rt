//! What is said of choices.
use crate::beside::choice_of;
use crate::spot::{Spot, children_at, has_children};
use crate::words::{Naming, push_names};
use serde_json::Value;
use std::alloc::{AllocError, Global};
use yv_data_faults::MemberName;
use yv_nodes::NodeId;
use yv_note_text::Joint;
use yv_schema_tables::Schema;
use yv_values::Meter;
use yv_walk::Context;

/// How many members an object has whose cases are looked for.
const MOST_MEMBERS: usize = 1000;

/// How many cases of a choice are looked at.
const MOST_CASES: usize = 1000;

/// Adds that one of the cases of a choice must exist.
pub(crate) fn push_missing_choice(
    text: &mut String,
    spot: &Spot<'_, '_>,
    name: &MemberName<'_>,
) -> Result<(), AllocError> {
    let choice = choice_of(*text.allocator(), spot, name)?;
    let cases = children_at(spot.schema, choice);
    if cases.is_empty() {
        return text.push_str("the schema requires a node of one of its cases, but it has none");
    }
    text.push_str("it is missing: write a node of one of its cases, ")?;
    push_names(text, spot.schema, cases, Naming::Name, Joint::Or)
}

/// Adds which cases of a choice exist.
pub(crate) fn push_choice(
    text: &mut String,
    spot: &Spot<'_, '_>,
    name: &MemberName<'_>,
) -> Result<(), AllocError> {
    let alloc = *text.allocator();
    text.push_str("only one case can exist, but there are nodes of ")?;
    let choice = choice_of(alloc, spot, name)?;
    let cases = cases_at(alloc, spot, choice)?;
    if cases.is_empty() {
        text.push_str("several")?;
    } else {
        push_names(text, spot.schema, &cases, Naming::Name, Joint::And)?;
    }
    text.push_str("; keep the nodes of one case")
}

// The cases of a choice of which an object has nodes.
fn cases_at(
    alloc: Global,
    spot: &Spot<'_, '_>,
    choice: Option<NodeId>,
) -> Result<Vec<NodeId>, AllocError> {
    let schema = spot.schema;
    let around = spot.around.unwrap_or(Schema::ROOT);
    match spot.object {
        Some(Value::Object(members))
            if has_children(schema, around) && members.len() <= MOST_MEMBERS => {
            let context = Context::read(alloc, schema, &mut Meter::new(), around, members)?;
            cases_in(alloc, schema, &context, choice)
        }
        _ => Ok(Vec::new(alloc)),
    }
}

fn cases_in(
    alloc: Global,
    schema: &Schema,
    context: &Context<'_>,
    choice: Option<NodeId>,
) -> Result<Vec<NodeId>, AllocError> {
    children_at(schema, choice)
        .iter()
        .copied()
        .take(MOST_CASES)
        .filter(|case| exists(schema, context, *case))
        .collect(alloc)
}

fn exists(schema: &Schema, context: &Context<'_>, case: NodeId) -> bool {
    case.number() < schema.len() && context.existence_of(schema, case).any()
}
