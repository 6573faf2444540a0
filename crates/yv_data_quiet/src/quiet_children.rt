//! Children of a node that are passed over.
ghost use Rattle.std.specs.Prelude.{◌≡◌, ◌<◌, ◌≤◌, length, true};
ghost use Rattle.yv_nodes.specs.Rows.{children_of, rank};
ghost use Rattle.yv_walk.specs.{Context.{IsContext, members_of, parent_of}, Existence.{ChildrenStand, passes, stands_in}};
ghost use Rattle.yv_data_quiet.specs.Runs.{AreRuns, IsPast};

use crate::runs::{Run, first_steps, run_at};
use yv_nodes::NodeId;
use yv_schema_tables::Schema;
use yv_values::Meter;
use yv_walk::{Context, laws};

/// Passes over children of a choice or case in the object, from this place on, of which none exists
/// and nothing comes but steps: the meter counts these at once. The place after them, which is this
/// one where there are none. It takes time log n.
pub fn pass_quiet(
    schema: &Schema,
    runs: &[Run],
    parent: NodeId,
    from: usize,
    context: &Context<'_>,
    meter: &mut Meter,
) -> usize
    // The number is that of a node.
    requires node { parent.0 < length schema.now.nodes }
    // The runs are those of its children.
    requires runs { AreRuns schema.now (children_of schema.now parent) runs.now }
    // The object was read by this schema.
    requires context { IsContext schema.now context.now }
    // The choice or case is in the object.
    requires stands { stands_in schema.now (parent_of context.now) parent ≡ true }
    // It is a choice or a case.
    requires passes { passes schema.now parent ≡ true }
    // Each child of the choice or case from `from` up to the place that is returned is quiet and
    // does not exist in the object, and the meter counts the steps of all of them.
    ensures { IsPast schema.now parent (members_of context.now) from result meter.old meter.new }
{
    let _children = schema.children(parent);
    laws::inner_stands();
    pass_quiet_children(schema, runs, parent, from, context, meter)
}

/// The same of the children of any node, or of the root, that may be in the object.
pub fn pass_quiet_children(
    schema: &Schema,
    runs: &[Run],
    parent: NodeId,
    from: usize,
    context: &Context<'_>,
    meter: &mut Meter,
) -> usize
    // The number is that of a node, or the root.
    requires node { rank parent ≤ length schema.now.nodes }
    // The runs are those of its children.
    requires runs { AreRuns schema.now (children_of schema.now parent) runs.now }
    // The object was read by this schema.
    requires context { IsContext schema.now context.now }
    // The children are in the object.
    requires stand { ChildrenStand schema.now (parent_of context.now) parent }
    // The same of the children of any node, or of the root.
    ensures { IsPast schema.now parent (members_of context.now) from result meter.old meter.new }
{
    let children = schema.children(parent);
    let run = run_at(children.len(), runs, from);
    if run.many == 0 {
        return from;
    }
    let next = context.pass_absent(schema, parent, from);
    let many = run.many.min(next.saturating_sub(from));
    let rest = run_at(children.len(), runs, from + many);
    let Some(steps) = first_steps(run, many, rest) else {
        return from;
    };
    meter.visit_all(steps);
    from + many
}
