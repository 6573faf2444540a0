//! The path to the target of a leafref.
use crate::spot::node_at;
use itoa::Buffer;
use std::alloc::AllocError;
use yv_data_faults::Part;
use yv_nodes::{Link, NodeId};
use yv_note_text::{front, push_shown};
use yv_schema_tables::Schema;

/// How many steps of a path are shown: its last ones.
const MOST_STEPS: usize = 12;

/// The path to the target of a leafref: the steps of the leafref's own path to the place to which
/// it climbs, or none where it is absolute, and the nodes on its way down from there.
#[derive(Clone, Copy)]
pub(crate) struct TargetPath<'p, 'n> {
    pub(crate) base: &'p [Part<'n>],
    pub(crate) steps: &'p [NodeId],
}

impl<'p, 'n> TargetPath<'p, 'n> {
    /// The path of a link, from a leafref at the end of another path.
    pub(crate) fn of(link: &'p Link, path: &'p [Part<'n>]) -> TargetPath<'p, 'n> {
        let count = match link.climbs {
            Some(climbs) => path.len().saturating_sub(climbs),
            None => 0,
        };
        TargetPath {
            base: &path[..count],
            steps: link.steps.as_slice(),
        }
    }
}

/// Adds a path, of a longer one two dots and the last 12 steps. The entries to which it is bound
/// have their numbers.
pub(crate) fn push_target_path(
    text: &mut String,
    schema: &Schema,
    path: &TargetPath<'_, '_>,
) -> Result<(), AllocError> {
    let count = path.base.len().saturating_add(path.steps.len());
    let left_out = count.saturating_sub(MOST_STEPS);
    if left_out > 0 {
        text.push_str("..")?;
    }
    for step in path.base.iter().skip(left_out) {
        push_part(text, step)?;
    }
    let rest = left_out.saturating_sub(path.base.len());
    for step in path.steps.iter().skip(rest) {
        push_step(text, schema, *step)?;
    }
    Ok(())
}

// Adds a step of a fault's path.
fn push_part(text: &mut String, step: &Part<'_>) -> Result<(), AllocError> {
    let member = step.member(*text.allocator())?;
    push_member(text, member.as_str())?;
    if let Some(item) = step.item {
        text.push_str("[")?;
        text.push_str(Buffer::new().format(item))?;
        text.push_str("]")?;
    }
    Ok(())
}

// Adds a step to a node.
fn push_step(text: &mut String, schema: &Schema, id: NodeId) -> Result<(), AllocError> {
    match node_at(schema, Some(id)) {
        Some(node) => {
            let member = node.member(*text.allocator())?;
            push_member(text, member.as_str())
        }
        None => Ok(()),
    }
}

fn push_member(text: &mut String, member: &str) -> Result<(), AllocError> {
    text.push_str("/")?;
    push_shown(text, front(member.as_bytes()))
}
