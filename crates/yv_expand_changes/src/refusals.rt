//! What is wrong with refines.
ghost use Rattle.std.specs.Prelude.{◌≡◌, List, None, slice_get, slice_index_or, IfOk, IfSome, OnOk};
ghost use Rattle.yv_text_statement.specs.Order.{IsLeast};
ghost use Rattle.yv_link_scopes.specs.{Files.{Files}, Views.{lent_in, rows_in}};
ghost use Rattle.yv_expand_rounds.specs.declared.row.ItemRow.{ItemRow};
ghost use Rattle.yv_expand_refines.specs.{Targets.{all_meant, meant_at}, declared.targets.RefineTarget.{RefineTarget}};
ghost use Rattle.yv_expand_changes.specs.{Refusals.{BadRefines}, InnerAlike.{ways_of}, InnerRefusals.{AreItems, AreJudged, IsJudged, IsLeastOf, code_at, refusal_of_code}};

use crate::allowed_refines::is_fit_at;
use crate::runs::way_at;
use crate::ways::{Way, is_same, read_ways};
use std::alloc::{AllocError, Global};
use std::collections::BTreeSet;
use yv_expand_refines::{RefineTarget, RefinedUses, Refinements};
use yv_expand_rounds::ItemRow;
use yv_expand_uses::Spot;
use yv_link_scopes::Rows;
use yv_text_statement::{Code, Refusal, lesser, refusal_if};

// The numbers of the items of the final tree.
fn items_of(alloc: Global, tree: &[ItemRow]) -> Result<BTreeSet<usize>, AllocError>
    ensures { IfOk result (λ items. AreItems items tree.now) }
{
    let mut items = BTreeSet::new(alloc);
    for row in tree {
        items.insert(row.number)?;
    }
    Ok(items)
}

// What is wrong with a refine, if anything is: it means no item, or isn't fit for the one that it
// means.
fn code_at(rows: &Rows<'_, '_>, way: Option<Way>, refine: usize) -> Option<Code>
    ensures { result ≡ code_at (lent_in rows.now) refine way }
{
    match way {
        None => Some(Code::RefineTarget),
        Some(way) if is_fit_at(rows, way.statement, refine) => None,
        Some(_) => Some(Code::BadRefine),
    }
}

// The refusal of a numbered statement with which this is wrong.
fn refusal(rows: &Rows<'_, '_>, code: Option<Code>, number: usize) -> Option<Refusal>
    ensures { result ≡ refusal_of_code code (slice_get (rows_in rows.now) number) }
{
    let code = code?;
    let entry = rows.entries().get(number)?;
    refusal_if(true, code, entry.file, entry.statement)
}

// The refusal of a refine at copies that agree on these ways, if it is wrong.
fn refusal_of_refine(
    rows: &Rows<'_, '_>,
    ways: &[Option<Way>],
    refine_target: RefineTarget,
) -> Option<Refusal>
    ensures { result
        ≡ refusal_of_code
        (code_at (lent_in rows.now) refine_target.refine
        (slice_index_or ways.now refine_target.path None))
        (slice_get (rows_in rows.now) refine_target.refine) }
{
    let code = code_at(rows, way_at(ways, refine_target.path), refine_target.refine);
    refusal(rows, code, refine_target.refine)
}

// The least refusal of the refines of a copy.
fn least_of(
    rows: &Rows<'_, '_>,
    ways: &[Option<Way>],
    refine_targets: &[RefineTarget],
) -> Option<Refusal>
    ensures { IsLeastOf (lent_in rows.now) refine_targets.now ways.now result }
{
    let mut least = None;
    for refine_target in refine_targets {
        least = lesser(least, refusal_of_refine(rows, ways, *refine_target));
    }
    least
}

// The least refusal of the refines of those copies of a `uses` that are alike.
#[derive(Drop)]
pub(crate) struct Judgement {
    ways: Vec<Option<Way>>,
    least: Option<Refusal>,
}

// Nothing was judged of so many uses.
fn nothing_judged(
    alloc: Global,
    refine_targets: &[Vec<RefineTarget>],
) -> Result<Vec<Option<Judgement>>, AllocError>
    ensures { IfOk result (λ judged. (files : Files)
        → AreJudged files refine_targets.now judged.items) }
{
    let mut judged = Vec::new(alloc);
    for _ in refine_targets {
        judged.push(None)?;
    }
    Ok(judged)
}

// The least refusal of copies that agree on these ways, if such were judged.
fn known_refusal(judged: &Option<Judgement>, ways: &[Option<Way>]) -> Option<Option<Refusal>>
    ensures { (files : Files) (refine_targets : List RefineTarget)
        → IsJudged files refine_targets judged.now
        → IfSome result (IsLeastOf files refine_targets ways.now) }
{
    match judged {
        Some(judged) if is_same(&judged.ways, ways) => Some(judged.least),
        _ => None,
    }
}

// The least refusal of the refines of a copy, which is kept for copies that are alike.
fn judge(
    alloc: Global,
    rows: &Rows<'_, '_>,
    spots: &[Spot],
    uses: &RefinedUses,
    refine_targets: &[RefineTarget],
    judged: &mut Option<Judgement>,
) -> Result<Option<Refusal>, AllocError>
    ensures judges { IsJudged (lent_in rows.now) refine_targets.now judged.old
        → OnOk result (IsJudged (lent_in rows.now) refine_targets.now judged.new) }
    ensures least { IsJudged (lent_in rows.now) refine_targets.now judged.old
        → IfOk result
        (IsLeastOf (lent_in rows.now) refine_targets.now
        (ways_of spots.now uses.now.targets.items)) }
{
    let ways = read_ways(alloc, spots, &uses.targets)?;
    if let Some(least) = known_refusal(judged, &ways) {
        return Ok(least);
    }
    let least = least_of(rows, &ways, refine_targets);
    *judged = Some(Judgement { ways, least });
    Ok(least)
}

// The least refusal of the refines of a copy, if that is one of these items.
fn wrong(
    alloc: Global,
    rows: &Rows<'_, '_>,
    spots: &[Spot],
    items: &BTreeSet<usize>,
    refine_targets: &[Vec<RefineTarget>],
    uses: &RefinedUses,
    judged: &mut Vec<Option<Judgement>>,
) -> Result<Option<Refusal>, AllocError>
    requires { AreJudged (lent_in rows.now) refine_targets.now judged.old.items }
    ensures judges { OnOk result (AreJudged
        (lent_in rows.now) refine_targets.now judged.new.items) }
    ensures least { (tree : List ItemRow) → AreItems items.now tree
        → IfOk result
        (IsLeast (BadRefines (lent_in rows.now) spots.now
        (meant_at refine_targets.now uses.now) tree)) }
{
    let place = uses.refine_targets;
    if place >= refine_targets.len() || !items.contains(&uses.item) {
        return Ok(None);
    }
    judge(
        alloc,
        rows,
        spots,
        uses,
        &refine_targets[place],
        &mut judged[place],
    )
}

/// The least `RefineTarget` or `BadRefine` of these refines, each at a copy of its uses, where that
/// is one of the items of the final tree: a refine means no item, or isn't fit for the one that it
/// means. Takes time n log n in items, in the refine targets of each place, and in the paths of
/// each copy: refine targets are judged again only where a copy isn't like the one before it.
pub fn first_wrong(
    alloc: Global,
    rows: &Rows<'_, '_>,
    spots: &[Spot],
    refinements: &Refinements,
    tree: &[ItemRow],
) -> Result<Option<Refusal>, AllocError>
    ensures { IfOk result
        (IsLeast (BadRefines (lent_in rows.now) spots.now (all_meant refinements.now) tree.now)) }
{
    // Most files refine nothing, and then the items aren't needed.
    if refinements.uses.as_slice().is_empty() {
        return Ok(None);
    }
    let refine_targets = refinements.refine_targets.as_slice();
    let items = items_of(alloc, tree)?;
    let mut judged = nothing_judged(alloc, refine_targets)?;
    let mut least = None;
    for uses in &refinements.uses {
        let wrong = wrong(
            alloc,
            rows,
            spots,
            &items,
            refine_targets,
            uses,
            &mut judged,
        )?;
        least = lesser(least, wrong);
    }
    Ok(least)
}
