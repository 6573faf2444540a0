//! Where items are once all augments are applied.
ghost use Rattle.std.specs.{Prelude.{◌≡◌, ◌≤◌, ◌<◌, ◌==◌, ◌+◌, ◌^◌, ◌&&◌, not, ℕ, List, [], length, map, None, if◌then◌else◌, slice_index_or, IfOk, OnOk}, BTreeMap.{get}, Option.{option_or}, Ordering.{nat_cmp}};
ghost use Rattle.yv_text_statement.specs.{Order.{IsLeast}, declared.refusal.Code.TheVariants.{AugmentTarget}};
ghost use Rattle.yv_link_scopes.specs.{Files.{Briefs}, Rows.{Row}, Views.{files_in, rows_in}};
ghost use Rattle.yv_expand.specs.Tree.{Item};
ghost use Rattle.yv_expand_rounds.specs.{declared.label.Label.{Label}, Groups.{group_of_augment, members_of}, Turns.{State, target_of}, InnerState.{IsAugmentation}};
ghost use Rattle.yv_expand_statements.specs.Kinds.{is_uses};
ghost use Rattle.yv_expand_augments.specs.{Augmentation.{copy_turn, last_of, placement, turns}, Refusals.{RefusesIf}, FinalItems.{AreAugmentedItems, AreAugmentedTree}, MissingTargets.{MissesAt, MissesOf, next_number}, RefineMeanings.{refine_meanings}, InnerSchedule.{AreOrdered, AreSchedules, IsReady, IsStretch, MissesBetween, MissesIdle, added_to}};
ghost use Rattle.yv_expand_uses.specs.{Paths.{module_paths, path_in}, Spots.{Whole, copies_of, labels_of, layout_of, whole}, AugmentOrder.{augments_in}, InnerPlan.{IsPlan, whole_in}, InnerLayout.{AreLaid, IsNumbered, laid_in}};
ghost use Rattle.yv_expand_refines.specs.Targets.{all_meant};

use crate::final_tree::AugmentedTree;
use crate::refusals::{is_absent, refused_at};
use crate::schedule::{AddressedAugment, Schedules, Stretch, prepare};
use std::alloc::{AllocError, Global};
use std::collections::BTreeMap;
use yv_expand::Item;
use yv_expand_refines::Refinements;
use yv_expand_rounds::{Augmentation, Label};
use yv_expand_uses::{Layout, Plan, RefineTargets, Spot, is_uses, item_ends};
use yv_link_scopes::Rows;
use yv_text_statement::{Code, Refusal, lesser};

// The last of these; 0 where there is none.
fn last_of(items: &[usize]) -> usize
    ensures { result ≡ last_of items.now }
{
    items.last().copied().unwrap_or(0)
}

// The number after the last item below this one.
fn end_of(ends: &[usize], number: usize) -> usize
    ensures { result ≡ slice_index_or ends.now number 0 }
{
    ends.get(number).copied().unwrap_or(0)
}

// Keeps the least refusal of an item, if there is one.
fn note(
    missing: &mut BTreeMap<usize, Refusal>,
    number: usize,
    refusal: Option<Refusal>,
) -> Result<(), AllocError>
    ensures { OnOk result ((i : ℕ) → get nat_cmp missing.new i
        ≡ (if i == number then option_or refusal (get nat_cmp missing.old i)
        else get nat_cmp missing.old i)) }
{
    if let Some(refusal) = refusal {
        missing.insert(number, refusal)?;
    }
    Ok(())
}

// What is known of these items.
fn labels(alloc: Global, spots: &[Spot]) -> Result<Vec<Label>, AllocError>
    ensures { IfOk result (λ labels. labels.items ≡ labels_of spots.now) }
{
    let mut labels = Vec::with_capacity(alloc, spots.len())?;
    for spot in spots {
        labels.push(spot.label)?;
    }
    Ok(labels)
}

// Items that have entered, the least refusal of each that is a uses, and what refines mean.
#[derive(Drop)]
struct PlacedItems {
    augmentation: Augmentation,
    missing: BTreeMap<usize, Refusal>,
    refined: Refinements,
}

// A stretch of augments that had its turns: its least refusal, and the number of the next copy.
#[derive(Drop)]
struct StretchResult {
    augmentation: Augmentation,
    missing: Option<Refusal>,
    number: usize,
}

// A uses whose augments had their turns, and the least refusal of these.
#[derive(Drop)]
struct TurnResult {
    augmentation: Augmentation,
    missing: Option<Refusal>,
}

// The refusal of an augment whose path begins in this group, if it adds to no node.
fn refusal_of_target(
    plan: &Plan<'_, '_, '_>,
    augmentation: &Augmentation,
    group: usize,
    limit: usize,
    it: &AddressedAugment,
) -> Option<Refusal>
    ensures { (labels : List Label) (st : State) → IsAugmentation labels st augmentation.now
        → IsLeast (RefusesIf (rows_in plan.now.rows.now) AugmentTarget
        (added_to labels st limit group it.now.path.items ≡ None) it.now.augment) result }
{
    let bad = is_absent(augmentation.reach(group, limit, &it.path));
    refused_at(plan.rows, Code::AugmentTarget, bad, it.augment)
}

// The least refusal of these augments of a uses, which give nothing: that of the first which adds
// to no node.
fn first_missing(
    plan: &Plan<'_, '_, '_>,
    augmentation: &Augmentation,
    spot: &Spot,
    end: usize,
    idle: &[AddressedAugment],
) -> Option<Refusal>
    ensures { (labels : List Label) (st : State) → IsAugmentation labels st augmentation.now
        → AreOrdered (rows_in plan.now.rows.now) idle.now
        → IsLeast
        (MissesIdle (rows_in plan.now.rows.now) (added_to labels st end spot.now.group)
        idle.now) result }
{
    for it in idle {
        let missing = refusal_of_target(plan, augmentation, spot.group, end, it);
        if missing.is_some() {
            return missing;
        }
    }
    None
}

// The turn of the numbered copy of an augment of a uses that gives something. Its refusal, if it
// adds to no node.
fn give(
    plan: &Plan<'_, '_, '_>,
    augmentation: Augmentation,
    spot: &Spot,
    number: usize,
    it: &AddressedAugment,
) -> Result<TurnResult, AllocError>
    requires few { number < 2 ^ 63 }
    ensures state { (labels : List Label) (st : State) → IsAugmentation labels st augmentation
        → length labels ≡ length plan.now.items.now
        → it.now.path.items ≡ path_in (whole_in plan.now) spot.now.module_file it.now.augment
        → number < length st.ends
        → IfOk result
        (λ turned. IsAugmentation labels
        (copy_turn (whole_in plan.now) labels spot.now number it.now.augment st)
        turned.augmentation) }
    ensures lacks { (labels : List Label) (st : State) → IsAugmentation labels st augmentation
        → length labels ≡ length plan.now.items.now
        → IfOk result
        (λ turned. IsLeast
        (RefusesIf (rows_in plan.now.rows.now) AugmentTarget (added_to labels st
        (last_of (members_of st.groups (group_of_augment labels number))) spot.now.group
        it.now.path.items ≡ None) it.now.augment)
        turned.missing) }
{
    let group = plan.copy_group(number);
    let limit = last_of(augmentation.members(group));
    let missing = refusal_of_target(plan, &augmentation, spot.group, limit, it);
    let augmentation = augmentation.turn(number, spot.group, limit, &it.path)?;
    Ok(TurnResult {
        augmentation,
        missing,
    })
}

// The turns of a stretch of augments of a uses.
fn follow(
    plan: &Plan<'_, '_, '_>,
    augmentation: Augmentation,
    spot: &Spot,
    end: usize,
    number: usize,
    stretch: &Stretch,
) -> Result<StretchResult, AllocError>
    requires few { number < 2 ^ 63 }
    ensures number { (from to : ℕ)
        → IsStretch (whole_in plan.now) spot.now.statement spot.now.module_file from to
        stretch.now
        → number ≡ next_number (rows_in plan.now.rows.now) spot.now from
        → IfOk result
        (λ followed. followed.number ≡ next_number (rows_in plan.now.rows.now) spot.now to) }
    ensures ready { (labels : List Label) (st : State) (from to : ℕ)
        → IsReady (whole_in plan.now) labels spot.now st from number augmentation
        → IsStretch (whole_in plan.now) spot.now.statement spot.now.module_file from to
        stretch.now
        → IfOk result
        (λ followed. IsReady (whole_in plan.now) labels spot.now st to followed.number
        followed.augmentation) }
    ensures lacks { (labels : List Label) (st : State) (from to : ℕ)
        → IsReady (whole_in plan.now) labels spot.now st from number augmentation
        → IsStretch (whole_in plan.now) spot.now.statement spot.now.module_file from to
        stretch.now
        → IfOk result
        (λ followed. IsLeast (MissesBetween (whole_in plan.now) labels spot.now end st from to)
        followed.missing) }
{
    yv_expand_rounds::laws::turns_keep_augments();
    let missing = first_missing(plan, &augmentation, spot, end, &stretch.idle);
    match &stretch.giving {
        Some(it) => {
            let own = give(plan, augmentation, spot, number, it)?;
            Ok(StretchResult {
                augmentation: own.augmentation,
                missing: lesser(missing, own.missing),
                number: number + 1,
            })
        }
        None => Ok(StretchResult {
            augmentation,
            missing,
            number,
        }),
    }
}

// Whether an item is a uses that augments.
fn has_augments(plan: &Plan<'_, '_, '_>, spot: &Spot) -> bool
    requires { IsPlan plan.now }
    ensures { result ≡ (is_uses spot.now.label.kind
        && not (length (augments_in (rows_in plan.now.rows.now) spot.now.statement) == 0)) }
{
    is_uses(spot.label.kind) && !plan.augments_in(spot.statement).is_empty()
}

// The turns of the augments of a uses, in order. The least refusal of one that adds to no node.
fn turns(
    alloc: Global,
    plan: &Plan<'_, '_, '_>,
    mut augmentation: Augmentation,
    spot: &Spot,
    end: usize,
    schedules: &mut Schedules,
) -> Result<TurnResult, AllocError>
    requires plan { IsPlan plan.now }
    requires schedules { AreSchedules (whole_in plan.now) schedules.old }
    requires few { IsNumbered (rows_in plan.now.rows.now) spot.now }
    ensures schedules { OnOk result (AreSchedules (whole_in plan.now) schedules.new) }
    ensures state { (labels : List Label) (st : State) → IsAugmentation labels st augmentation
        → length labels ≡ length plan.now.items.now
        → spot.now.first + copies_of (rows_in plan.now.rows.now) spot.now ≤ length st.ends
        → IfOk result
        (λ turned. IsAugmentation labels (turns (whole_in plan.now) labels spot.now st)
        turned.augmentation) }
    ensures lacks { (labels : List Label) (st : State) → IsAugmentation labels st augmentation
        → length labels ≡ length plan.now.items.now
        → spot.now.first + copies_of (rows_in plan.now.rows.now) spot.now ≤ length st.ends
        → IfOk result
        (λ turned. IsLeast (MissesOf (whole_in plan.now) labels spot.now end st)
        turned.missing) }
{
    let mut least = None;
    if !has_augments(plan, spot) {
        return Ok(TurnResult {
            augmentation,
            missing: least,
        });
    }
    prepare(alloc, plan, schedules, spot.statement, spot.module_file)?;
    let mut number = spot.first;
    for stretch in schedules.stretches(spot.statement) {
        let followed = follow(plan, augmentation, spot, end, number, stretch)?;
        least = lesser(least, followed.missing);
        number = followed.number;
        augmentation = followed.augmentation;
    }
    Ok(TurnResult {
        augmentation,
        missing: least,
    })
}

// The items enter from the last to the first, and before a uses enters its refines are followed,
// and its augments have their turns.
fn place(
    alloc: Global,
    plan: &Plan<'_, '_, '_>,
    layout: &Layout,
    ends: &[usize],
) -> Result<PlacedItems, AllocError>
    requires plan { IsPlan plan.now }
    requires lays { AreLaid (whole_in plan.now) (laid_in layout.now) }
    requires few { layout.now.copies < 2 ^ 63 }
    ensures state { IfOk result (λ outcome.
        IsAugmentation (labels_of (laid_in layout.now).spots)
        (placement (whole_in plan.now) (laid_in layout.now)) outcome.augmentation) }
    ensures lacks { IfOk result (λ outcome. (i : ℕ)
        → IsLeast
        (MissesAt (whole_in plan.now) (laid_in layout.now) (slice_index_or ends.now i 0) i)
        (get nat_cmp outcome.missing i)) }
    ensures refines { IfOk result (λ outcome.
        all_meant outcome.refined
        ≡ refine_meanings (whole_in plan.now) (laid_in layout.now)
        (λ i. slice_index_or ends.now i 0)) }
{
    yv_expand_rounds::laws::turns_keep_augments();
    let labels = labels(alloc, &layout.spots)?;
    let mut augmentation = Augmentation::new(alloc, labels, layout.copies)?;
    let mut missing = BTreeMap::new(alloc);
    let mut refine_targets = RefineTargets::new(alloc);
    let mut schedules = Schedules::new(alloc);
    let mut left = layout.spots.len();
    while left > 0 {
        left -= 1;
        let spot = &layout.spots[left];
        let end = end_of(ends, left);
        plan.refine_all(alloc, &augmentation, spot, left, end, &mut refine_targets)?;
        let turned = turns(alloc, plan, augmentation, spot, end, &mut schedules)?;
        note(&mut missing, left, turned.missing)?;
        augmentation = turned.augmentation;
        augmentation.enter(left, spot.group)?;
    }
    Ok(PlacedItems {
        augmentation,
        missing,
        refined: refine_targets.refinements,
    })
}

/// Where items are once all augments are applied.
#[derive(Drop)]
pub struct AugmentedItems {
    spots: Vec<Spot>,
    // The least refusal of the augments of an item, where there is one.
    missing: BTreeMap<usize, Refusal>,
    refined: Refinements,
    augmentation: Augmentation,
}

impl AugmentedItems {
    /// The node to which an augment of a module adds, by its place among these. None where its path
    /// leads nowhere, or ends where no augment may add.
    pub fn target(&self, place: usize) -> Option<usize>
        ensures { (w : Whole) (items : List Item) (st : State)
            → AreAugmentedItems w items st self.now
            → result ≡ target_of (labels_of (layout_of w items).spots) st.ends place }
    {
        self.augmentation.target(place)
    }

    /// The final tree, and what is still asked of it.
    pub fn into_tree(self) -> Result<AugmentedTree, AllocError>
        ensures { (w : Whole) (items : List Item) (st : State) → AreAugmentedItems w items st self
            → IfOk result (AreAugmentedTree w items st) }
    {
        let AugmentedItems {
            spots,
            missing,
            refined,
            augmentation,
        } = self;
        let tree = augmentation.into_rows()?;
        Ok(AugmentedTree {
            spots,
            refined,
            tree,
            missing,
        })
    }
}

// No items, and no augments of modules. No statement is read then: each would take time for
// nothing.
fn nothing_augmented(alloc: Global) -> Result<AugmentedItems, AllocError>
    ensures { (files : Briefs) (rows : List Row)
        → IfOk result
        (λ augmented_items. (st : State) × AreAugmentedItems
        (whole files rows [] 0) [] st augmented_items) }
{
    yv_expand_rounds::laws::each_item_stands_once();
    let augmentation = Augmentation::new(alloc, Vec::new(alloc), 0)?;
    Ok(AugmentedItems {
        spots: Vec::new(alloc),
        missing: BTreeMap::new(alloc),
        refined: Refinements {
            refine_targets: Vec::new(alloc),
            uses: Vec::new(alloc),
        },
        augmentation,
    })
}

/// Applies the augments of an expansion of files whose items these are: those of each uses, inner
/// ones first, and then those of modules in rounds, whose statements are given by file and
/// statement (RFC 7950, sections 7.13 and 7.17). Err if memory runs out, and where there are more
/// than 2 to the 32 less 3 statements.
pub fn apply_augments(
    alloc: Global,
    rows: &Rows<'_, '_>,
    items: &[Item],
    augments: &[usize],
) -> Result<AugmentedItems, AllocError>
    ensures { IfOk result (λ augmented_items. (st : State)
        × AreAugmentedItems
        (whole (files_in rows.now) (rows_in rows.now) augments.now (length items.now)) items.now st
        augmented_items) }
{
    yv_expand_rounds::laws::each_item_stands_once();
    yv_expand_rounds::laws::turns_keep_augments();
    if items.is_empty() && augments.is_empty() {
        return nothing_augmented(alloc);
    }
    let plan = Plan::read(alloc, rows, augments, items)?;
    let layout = plan.lay(alloc, items)?;
    let ends = item_ends(alloc, items)?;
    let PlacedItems {
        augmentation,
        missing,
        refined,
    } = place(alloc, &plan, &layout, &ends)?;
    let paths = plan.module_paths(alloc)?;
    let augmentation = augmentation.run(0, &paths)?;
    let Layout { spots, copies: _ } = layout;
    Ok(AugmentedItems {
        spots,
        missing,
        refined,
        augmentation,
    })
}
