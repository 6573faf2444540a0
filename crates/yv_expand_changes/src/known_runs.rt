//! The runs that are known of a `uses`, and the items that they change.
ghost use Rattle.std.specs.Prelude.{◌≡◌, ◌++◌, ℕ, List, [], IfOk, IsTrue, OnOk, map};
ghost use Rattle.yv_link_scopes.specs.Views.{lent_in};
ghost use Rattle.yv_expand_refines.specs.{Changes.{each}, Targets.{RefineMeaning, meaning_of}};
ghost use Rattle.yv_expand_changes.specs.{Changes.{all_changes}, InnerAlike.{AreRuns, IsRun, KeepsRuns, noted_from, note_run, runs_of, ways_of}, InnerRuns.{IsKnown}, InnerLists.{lists_of}};

use crate::runs::read_runs;
use crate::ways::{Way, is_same, read_ways};
use std::alloc::{AllocError, Global};
use yv_expand_refines::{Changes, RefineTarget, RefinedUses};
use yv_expand_uses::Spot;
use yv_link_scopes::Rows;

/// The numbers of the runs of refines that change items at those copies of a `uses` that are alike,
/// by path.
#[derive(Drop)]
pub(crate) struct KnownRuns {
    ways: Vec<Option<Way>>,
    numbers: Vec<Option<usize>>,
}

// Keeps a run, if it isn't empty.
fn keep(changes: &mut Changes, run: Vec<usize>) -> Result<Option<usize>, AllocError>
    ensures number { IfOk result (λ number. IsRun changes.new.runs number run.items) }
    ensures each { OnOk result (each changes.new ≡ each changes.old) }
    ensures runs { OnOk result (KeepsRuns changes.old.runs changes.new.runs) }
{
    if run.is_empty() {
        return Ok(None);
    }
    Ok(Some(changes.add_run(run)?))
}

// Keeps runs, and answers their numbers.
fn keep_all(
    alloc: Global,
    changes: &mut Changes,
    runs: Vec<Vec<usize>>,
) -> Result<Vec<Option<usize>>, AllocError>
    ensures numbers { IfOk result
        (λ numbers. AreRuns changes.new.runs numbers.items (lists_of runs.items)) }
    ensures each { OnOk result (each changes.new ≡ each changes.old) }
    ensures runs { OnOk result (KeepsRuns changes.old.runs changes.new.runs) }
{
    let mut numbers = Vec::new(alloc);
    for run in runs {
        numbers.push(keep(changes, run)?)?;
    }
    Ok(numbers)
}

// Notes that a run changes the item to which a path leads.
fn note_item(
    changes: &mut Changes,
    target: Option<usize>,
    number: Option<usize>,
) -> Result<(), AllocError>
    ensures each { (run : List ℕ) → IsRun changes.old.runs number run
        → OnOk result (each changes.new ≡ note_run target run (each changes.old)) }
    ensures runs { changes.new.runs ≡ changes.old.runs }
{
    if let (Some(item), Some(number)) = (target, number) {
        changes.note(item, number)?;
    }
    Ok(())
}

// Notes that runs change the items to which paths lead.
fn note_all(
    changes: &mut Changes,
    targets: &[Option<usize>],
    numbers: &[Option<usize>],
) -> Result<(), AllocError>
    ensures each { (lists : List (List ℕ)) → AreRuns changes.old.runs numbers.now lists
        → OnOk result (each changes.new ≡ noted_from 0 targets.now lists (each changes.old)) }
    ensures runs { changes.new.runs ≡ changes.old.runs }
{
    for (path, target) in targets.iter().enumerate() {
        let number = numbers.get(path).copied().unwrap_or(None);
        note_item(changes, *target, number)?;
    }
    Ok(())
}

impl KnownRuns {
    /// No runs.
    pub(crate) fn new(alloc: Global) -> KnownRuns
        ensures ways { result.ways.items ≡ [] }
        ensures numbers { result.numbers.items ≡ [] }
    {
        KnownRuns {
            ways: Vec::new(alloc),
            numbers: Vec::new(alloc),
        }
    }

    // Learns the runs of the copies that agree on these ways, if they aren't known.
    fn learn(
        &mut self,
        alloc: Global,
        rows: &Rows<'_, '_>,
        ways: Vec<Option<Way>>,
        refine_targets: &[RefineTarget],
        changes: &mut Changes,
    ) -> Result<(), AllocError>
        ensures knows { IsKnown (lent_in rows.now) refine_targets.now changes.old.runs self.old
            → OnOk result (IsKnown
            (lent_in rows.now) refine_targets.now changes.new.runs self.new) }
        ensures ways { OnOk result (self.new.ways.items ≡ ways.items) }
        ensures each { OnOk result (each changes.new ≡ each changes.old) }
        ensures runs { OnOk result (KeepsRuns changes.old.runs changes.new.runs) }
    {
        if is_same(&self.ways, &ways) {
            return Ok(());
        }
        let runs = read_runs(alloc, rows, &ways, refine_targets)?;
        let numbers = keep_all(alloc, changes, runs)?;
        *self = KnownRuns { ways, numbers };
        Ok(())
    }

    /// Notes which items the refines of a copy change, after what changes them already. Takes time
    /// n log n in its paths, and where it isn't like the copy before it, linear in its refines.
    pub(crate) fn note(
        &mut self,
        alloc: Global,
        rows: &Rows<'_, '_>,
        spots: &[Spot],
        uses: &RefinedUses,
        refine_targets: &[RefineTarget],
        changes: &mut Changes,
    ) -> Result<(), AllocError>
        ensures knows { IsKnown (lent_in rows.now) refine_targets.now changes.old.runs self.old
            → OnOk result (IsKnown
            (lent_in rows.now) refine_targets.now changes.new.runs self.new) }
        ensures each { (refined : List RefineMeaning)
            → IsKnown (lent_in rows.now) refine_targets.now changes.old.runs self.old
            → each changes.old ≡ all_changes (lent_in rows.now) spots.now refined
            → OnOk result (each changes.new ≡ all_changes (lent_in rows.now) spots.now
            (refined ++ map (meaning_of uses.now.item uses.now.targets.items) refine_targets.now)) }
        ensures runs { OnOk result (KeepsRuns changes.old.runs changes.new.runs) }
    {
        let ways = read_ways(alloc, spots, &uses.targets)?;
        self.learn(alloc, rows, ways, refine_targets, changes)?;
        note_all(changes, &uses.targets, &self.numbers)
    }
}
