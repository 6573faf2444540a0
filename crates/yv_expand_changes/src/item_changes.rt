//! Which refines change which items.
ghost use Rattle.std.specs.Prelude.{◌≡◌, ◌++◌, List, [], IfOk, OnOk};
ghost use Rattle.yv_link_scopes.specs.{Files.{Files}, Views.{lent_in}};
ghost use Rattle.yv_expand_refines.specs.{Changes.{each}, Targets.{RefineMeaning, all_meant, meant_at}};
ghost use Rattle.yv_expand_changes.specs.{Changes.{all_changes}, InnerRuns.{AreKnown}};

use crate::known_runs::KnownRuns;
use std::alloc::{AllocError, Global};
use yv_expand_refines::{Changes, RefineTarget, RefinedUses, Refinements};
use yv_expand_uses::Spot;
use yv_link_scopes::Rows;

// Nothing is known of so many uses.
fn nothing_known(
    alloc: Global,
    refine_targets: &[Vec<RefineTarget>],
) -> Result<Vec<KnownRuns>, AllocError>
    ensures { IfOk result (λ known. (files : Files)
        → AreKnown files refine_targets.now [] known.items) }
{
    let mut known = Vec::new(alloc);
    for _ in refine_targets {
        known.push(KnownRuns::new(alloc))?;
    }
    Ok(known)
}

// Notes which items the refines of a copy change, after what changes them already.
fn note_copy(
    alloc: Global,
    rows: &Rows<'_, '_>,
    spots: &[Spot],
    refine_targets: &[Vec<RefineTarget>],
    uses: &RefinedUses,
    known: &mut Vec<KnownRuns>,
    changes: &mut Changes,
) -> Result<(), AllocError>
    requires { AreKnown (lent_in rows.now) refine_targets.now changes.old.runs known.old.items }
    ensures knows { OnOk result
        (AreKnown (lent_in rows.now) refine_targets.now changes.new.runs known.new.items) }
    ensures each { (refined : List RefineMeaning) → each changes.old
        ≡ all_changes (lent_in rows.now) spots.now refined
        → OnOk result
        (each changes.new
        ≡ all_changes (lent_in rows.now) spots.now (refined
        ++ meant_at refine_targets.now uses.now)) }
{
    let place = uses.refine_targets;
    if place >= refine_targets.len() {
        return Ok(());
    }
    known[place].note(alloc, rows, spots, uses, &refine_targets[place], changes)
}

/// Which of these refines, each at a copy of its uses, change which of the items whose spots these
/// are: a refine changes the item that it means, if it is fit for it, and else nothing. Takes time
/// n log n in items, in the refine targets of each place, and in the paths of each copy: refine
/// targets are gone through again only where a copy differs from the one before it. Err only if
/// memory runs out.
pub fn changes(
    alloc: Global,
    rows: &Rows<'_, '_>,
    spots: &[Spot],
    refinements: &Refinements,
) -> Result<Changes, AllocError>
    ensures { IfOk result
        (λ c. each c ≡ all_changes (lent_in rows.now) spots.now (all_meant refinements.now)) }
{
    let refine_targets = refinements.refine_targets.as_slice();
    let mut changes = Changes::none(alloc, spots.len())?;
    let mut known = nothing_known(alloc, refine_targets)?;
    for uses in &refinements.uses {
        note_copy(
            alloc,
            rows,
            spots,
            refine_targets,
            uses,
            &mut known,
            &mut changes,
        )?;
    }
    Ok(changes)
}
