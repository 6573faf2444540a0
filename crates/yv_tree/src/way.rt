//! Ways down a schema, step by step.
ghost use Rattle.std.specs.{Prelude.{◌≡◌, ◌<◌, ◌∷◌, [], All, MatchOption, Some, None, length}, Option.{option_map}};
ghost use Rattle.yv_nodes.specs.Rows.{AreTrees, below, forest, row_at, tree_of};
ghost use Rattle.yv_schema_tables.specs.Sound.{IsChild};
ghost use Rattle.yv_tree.specs.{Columns.{is_choice}, InnerPart.{IsPlaceOf, others, step_into, trimmed_trees, trimmed_tree}, Lines.{are_some, has_line}, Part.{gives_module, is_below, is_step, leads, part, steps_behind}};

use yv_node_content::NodeKind;
use yv_nodes::{Node, NodeId};
use yv_schema_tables::Schema;
use yv_tree_drawing::WayStep;

/// Some children of a node, which may be a choice, and the steps of a way that are left for what is
/// below them.
#[derive(Clone, Copy)]
pub(crate) struct Group<'a> {
    pub(crate) parent: NodeId,
    pub(crate) in_choice: bool,
    pub(crate) ids: &'a [NodeId],
    pub(crate) way: &'a [WayStep],
}

/// Whether a node of this kind is a choice.
pub(crate) fn is_choice(kind: NodeKind) -> bool
    ensures { result ≡ is_choice kind }
{
    matches!(kind, NodeKind::Choice)
}

/// Whether these steps lead to a node, from some children of a node of the module of this number.
pub(crate) fn leads(
    schema: &Schema,
    above: Option<u32>,
    parent: NodeId,
    ids: &[NodeId],
    way: &[WayStep],
) -> bool
    requires children { All (IsChild schema.now parent) ids.now }
    requires trees { AreTrees schema.now ids.now }
    ensures { result ≡ leads above way.now (forest schema.now ids.now) }
{
    let Some((step, others)) = way.split_first() else {
        return true;
    };
    match first_place(schema, above, parent, ids, step) {
        Some(place) => {
            let id = ids[place];
            let module_file = schema.node(id).module_file();
            has_line(schema, id, &[])
                && leads(schema, Some(module_file), id, schema.children(id), others)
        }
        None => false,
    }
}

/// The nodes among these children of a node that are shown, where these steps are left for them:
/// all without a step, else at most one.
pub(crate) fn shown_ids<'a>(
    schema: &Schema,
    above: Option<u32>,
    parent: NodeId,
    ids: &'a [NodeId],
    way: &[WayStep],
) -> &'a [NodeId]
    requires children { All (IsChild schema.now parent) ids.now }
    requires trees { AreTrees schema.now ids.now }
    ensures part { part above way.now (forest schema.now ids.now)
        ≡ trimmed_trees (others way.now) (forest schema.now result.now) }
    ensures children { All (IsChild schema.now parent) result.now }
    ensures trees { AreTrees schema.now result.now }
{
    match way.split_first() {
        Some((step, _)) => match first_place(schema, above, parent, ids, step) {
            Some(place) => &ids[place..place + 1],
            None => &ids[..0],
        },
        None => ids,
    }
}

// The place of the first of these children of a node to which a step leads.
fn first_place(
    schema: &Schema,
    above: Option<u32>,
    _parent: NodeId,
    ids: &[NodeId],
    step: &WayStep,
) -> Option<usize>
    requires children { All (IsChild schema.now _parent) ids.now }
    requires trees { AreTrees schema.now ids.now }
    ensures { let found = step_into above step.now (forest schema.now ids.now) in
        MatchOption result (found ≡ None) (IsPlaceOf schema.now ids.now found) }
{
    for (place, id) in ids.iter().enumerate() {
        if is_step(above, step, schema.node(*id)) {
            return Some(place);
        }
    }
    None
}

/// The steps behind the first.
pub(crate) fn others(way: &[WayStep]) -> &[WayStep]
    ensures { result.now ≡ others way.now }
{
    match way.split_first() {
        Some((_, others)) => others,
        None => way,
    }
}

/// The steps that are left behind a node, where these are left behind the node above it, which is
/// of the module of this number: None where the step leads elsewhere.
pub(crate) fn steps_behind<'a>(
    above: Option<u32>,
    way: &'a [WayStep],
    node: &Node,
) -> Option<&'a [WayStep]>
    ensures { option_map (λ steps. steps.now) result
        ≡ steps_behind above way.now (node.now.label ∷ []) }
{
    match way.split_first() {
        Some((step, others)) => {
            if is_step(above, step, node) {
                Some(others)
            } else {
                None
            }
        }
        None => Some(way),
    }
}

/// Whether a step leads to a node, where the node above it is of the module of this number: there
/// is none above the nodes at the top.
pub fn is_step(above: Option<u32>, step: &WayStep, node: &Node) -> bool
    ensures { result ≡ is_step above step.now node.now.label }
{
    node.name() == step.name() && gives_module(above, step, node)
}

fn gives_module(above: Option<u32>, step: &WayStep, node: &Node) -> bool
    ensures { result ≡ gives_module above step.now.module node.now.label }
{
    match step.module() {
        Some(module) => !is_below(above, node.module_file()) && node.module() == module,
        None => is_below(above, node.module_file()),
    }
}

// Whether the node above is of the module of this number.
fn is_below(above: Option<u32>, module_file: u32) -> bool
    ensures { result ≡ is_below above module_file }
{
    match above {
        Some(above) => above == module_file,
        None => false,
    }
}

/// Whether a node below which these steps are left has a line: an input or output with nothing
/// shown below it has none.
pub(crate) fn has_line(schema: &Schema, id: NodeId, way: &[WayStep]) -> bool
    requires { id.0 < length schema.now.nodes }
    ensures { result ≡ has_line (trimmed_tree way.now (tree_of schema.now id)) }
{
    match schema.node(id).kind() {
        NodeKind::Input | NodeKind::Output => shows_below(schema, id, way),
        _ => true,
    }
}

// Whether something is shown below a node, below which these steps are left.
fn shows_below(schema: &Schema, id: NodeId, way: &[WayStep]) -> bool
    requires { id.0 < length schema.now.nodes }
    ensures { result
        ≡ are_some (part (Some (row_at schema.now id).label.module_file) way.now
        (below schema.now id)) }
{
    let module_file = schema.node(id).module_file();
    !shown_ids(schema, Some(module_file), id, schema.children(id), way).is_empty()
}
