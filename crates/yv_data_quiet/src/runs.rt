//! Quiet nodes one after the other, among the children of a node.
ghost use Rattle.std.specs.Prelude.{◌≡◌, ◌∷◌, ◌<◌, ◌≤◌, List, ℕ, drop, length, Some, IfOk, IfSome, OnOk};
ghost use Rattle.yv_nodes.specs.{Rows.{children_of, rank, Rows}, declared.node.NodeId.{NodeId}};
ghost use Rattle.yv_data_quiet.specs.{Quiet.{AreKnown, steps_at}, Runs.{AreRuns, HasRuns, HaveRuns, IsRun, runs_in}};

use crate::quiet::known_steps;
use std::alloc::{AllocError, Global};
use std::collections::BTreeMap;
use yv_nodes::NodeId;
use yv_schema_tables::Schema;

// Of so many children each is asked, which takes the least time.
const FEW_CHILDREN: usize = 16;

/// A run of quiet nodes, one after the other: how many there are, and their steps with all that is
/// met below them.
#[derive(Clone, Copy)]
pub struct Run {
    pub(crate) many: usize,
    pub(crate) steps: u64,
}

/// The runs among the children of each node that has many, and of the root where it has many.
#[derive(Drop)]
pub struct RunTable {
    rows: BTreeMap<u32, Vec<Run>>,
}

impl RunTable {
    /// Finds the runs, in time n log n and memory linear in the nodes.
    pub fn read(
        alloc: Global,
        schema: &Schema,
        known: &[Option<u64>],
    ) -> Result<RunTable, AllocError>
        // The runs that it keeps of the children of a node are of quiet nodes, with their steps.
        requires { AreKnown schema.now known.now }
        // The runs that it keeps of the children of a node are of quiet nodes, with their steps.
        ensures { IfOk result (HasRuns schema.now) }
    {
        let mut rows = BTreeMap::new(alloc);
        keep_runs(alloc, schema, known, Schema::ROOT, &mut rows)?;
        for index in 0..schema.len() {
            keep_runs(alloc, schema, known, NodeId(index), &mut rows)?;
        }
        Ok(RunTable { rows })
    }

    /// The run that begins at each child of a node, or of the root, from the last to the first.
    /// There are none where there are few children.
    pub fn runs_at(&self, parent: NodeId) -> &[Run]
        ensures { result.now ≡ runs_in self.now parent }
    {
        match self.rows.get(&parent.0) {
            Some(runs) => runs,
            None => &[],
        }
    }
}

// Keeps the runs among the children of a node, where there are many.
fn keep_runs(
    alloc: Global,
    schema: &Schema,
    known: &[Option<u64>],
    parent: NodeId,
    rows: &mut BTreeMap<u32, Vec<Run>>,
) -> Result<(), AllocError>
    requires node { rank parent ≤ length schema.now.nodes }
    requires known { AreKnown schema.now known.now }
    requires runs { HaveRuns schema.now rows.old }
    ensures { OnOk result (HaveRuns schema.now rows.new) }
{
    if schema.children(parent).len() <= FEW_CHILDREN {
        return Ok(());
    }
    let runs = child_runs(alloc, schema, known, parent)?;
    rows.insert(parent.0, runs)?;
    Ok(())
}

// The run that begins at each child of a node, from the last to the first.
fn child_runs(
    alloc: Global,
    schema: &Schema,
    known: &[Option<u64>],
    parent: NodeId,
) -> Result<Vec<Run>, AllocError>
    requires node { rank parent ≤ length schema.now.nodes }
    requires known { AreKnown schema.now known.now }
    ensures { IfOk result (λ runs. AreRuns schema.now (children_of schema.now parent) runs.items) }
{
    let children = schema.children(parent);
    let mut runs = Vec::with_capacity(alloc, children.len())?;
    let mut run = Run { many: 0, steps: 0 };
    for index in 0..children.len() {
        let child = children[children.len() - 1 - index];
        let steps = known_steps(schema, known, child);
        run = longer(run, steps).unwrap_or(Run { many: 0, steps: 0 });
        runs.push(run)?;
    }
    Ok(runs)
}

// A run with a node before it that has these steps: none if the node isn't known to be quiet, or a
// sum doesn't fit.
fn longer(run: Run, steps: Option<u64>) -> Option<Run>
    ensures { IfSome result (λ r. (s : Rows) (n : NodeId) (ns : List NodeId) → IsRun s ns run
        → IfSome steps (λ w. steps_at s n ≡ Some w) → IsRun s (n ∷ ns) r) }
{
    let own = steps?;
    let many = run.many.checked_add(1)?;
    let all = run.steps.checked_add(own)?;
    Some(Run { many, steps: all })
}

/// The run that begins at a place among so many children: an empty one where none is kept.
pub(crate) fn run_at(count: usize, runs: &[Run], place: usize) -> Run
    ensures { (s : Rows) (ns : List NodeId) → length ns ≡ count → AreRuns s ns runs.now
        → IsRun s (drop place ns) result }
{
    if count <= place {
        return Run { many: 0, steps: 0 };
    }
    match runs.get(count - 1 - place) {
        Some(run) => *run,
        None => Run { many: 0, steps: 0 },
    }
}

/// The steps of so many nodes at the beginning of a run, where the rest of it is this one.
pub(crate) fn first_steps(run: Run, many: usize, rest: Run) -> Option<u64>
    ensures { IfSome result (λ steps. (s : Rows) (ns : List NodeId) → IsRun s ns run
        → IsRun s (drop many ns) rest → IsRun s ns (record { many = many; steps = steps })) }
{
    let others = run.many.checked_sub(many)?;
    if others != rest.many {
        return None;
    }
    run.steps.checked_sub(rest.steps)
}
