//! The augments of `uses` statements in order, worked out once for all copies of a `uses` in one
//! module.
ghost use Rattle.std.specs.{Prelude.{◌≡◌, ◌<◌, ◌+◌, ℕ, true, Some, length, slice_get, IfOk, OnOk}, BTreeMap.{get}, Ordering.{nat_cmp}};
ghost use Rattle.yv_text_statement.specs.{Order.{IsUpTo}, declared.refusal.Refusal.{Refusal}};
ghost use Rattle.yv_link_scopes.specs.Views.{rows_in};
ghost use Rattle.yv_expand_uses.specs.{Spots.{Whole}, AugmentOrder.{augments_in}, InnerPlan.{IsPlan, whole_in}};
ghost use Rattle.yv_expand_augments.specs.InnerSchedule.{AreSchedules, AreStretches, IsGathering, IsRefusalOf, IsSchedule, stretches_in};

use std::alloc::{AllocError, Global};
use std::collections::{BTreeMap, BTreeSet};
use std::mem;
use yv_base_tables::PathTree;
use yv_expand_uses::Plan;
use yv_text_statement::{Code, Refusal};

/// An augment with its path.
#[derive(Drop)]
pub(crate) struct AddressedAugment {
    pub augment: usize,
    pub path: Vec<usize>,
}

/// Augments of a `uses` that follow one another: some that give nothing, and then one that gives
/// something, if there is one. Of those that give nothing and have the same path only the first is
/// kept: they can only be refused, and are refused together.
#[derive(Drop)]
pub(crate) struct Stretch {
    pub idle: Vec<AddressedAugment>,
    pub giving: Option<AddressedAugment>,
}

// All augments of a `uses`, where names without prefix are of the module of the file `module_file`.
#[derive(Drop)]
struct Schedule {
    module_file: u32,
    stretches: Vec<Stretch>,
}

/// The augments of `uses` statements, as far as these were looked at.
#[derive(Drop)]
pub(crate) struct Schedules {
    // By the statement of the `uses`. Copies in one module come one after the other, so only those
    // of the last module are kept.
    known: BTreeMap<usize, Schedule>,
}

// Whether a refusal isn't after another of the same code, by file and place.
fn is_up_to(first: Refusal, second: Refusal) -> bool
    ensures { result ≡ true → first.code ≡ second.code → IsUpTo first second }
{
    if first.file != second.file {
        return first.file < second.file;
    }
    if first.offset != second.offset {
        return first.offset < second.offset;
    }
    first.line <= second.line
}

// Stretches, and after them the first augment of each path among those that give nothing.
#[derive(Drop)]
struct ScheduleDraft {
    stretches: Vec<Stretch>,
    idle: Vec<AddressedAugment>,
    // The paths of `idle`, and their numbers in this tree, which has numbers for what these paths
    // begin with too.
    paths: PathTree,
    known: BTreeSet<usize>,
    // The refusal of the last augment after the stretches, also if `idle` has its path already.
    // These refusals never go back.
    last: Option<Refusal>,
}

impl ScheduleDraft {
    ghost use Rattle.yv_expand_augments.specs.InnerSchedule.{AreStretches, IsEnded, IsFollowed, IsGathering, IsNext};

    // No augment was looked at.
    fn new(alloc: Global) -> Result<ScheduleDraft, AllocError>
        ensures { (w : Whole) (statement module_file : ℕ)
            → IfOk result (IsGathering w statement module_file 0) }
    {
        Ok(ScheduleDraft {
            stretches: Vec::new(alloc),
            idle: Vec::new(alloc),
            paths: PathTree::new(alloc)?,
            known: BTreeSet::new(alloc),
            last: None,
        })
    }

    // Ends a stretch, with an augment that gives something or without one.
    fn close(&mut self, alloc: Global, giving: Option<AddressedAugment>) -> Result<(), AllocError>
        ensures gathers { (w : Whole) (statement module_file count next : ℕ)
            → IsGathering w statement module_file count self.old
            → IsEnded w statement module_file count next giving
            → OnOk result (IsGathering w statement module_file next self.new) }
        ensures ends { (w : Whole) (statement module_file count next : ℕ)
            → IsGathering w statement module_file count self.old
            → IsEnded w statement module_file count next giving
            → OnOk result (AreStretches w statement module_file 0 next self.new.stretches.items) }
        ensures follows { (refusal : Refusal) → OnOk result (IsFollowed self.new.last refusal) }
    {
        let idle = mem::replace(&mut self.idle, Vec::new(alloc));
        self.stretches.push(Stretch { idle, giving })?;
        self.paths = PathTree::new(alloc)?;
        self.known = BTreeSet::new(alloc);
        self.last = None;
        Ok(())
    }

    // Whether the next augment, which has this refusal, may join those after the stretches: its
    // refusal doesn't go back.
    fn is_followed(&self, refusal: Refusal) -> bool
        ensures { result ≡ true → IsFollowed self.now.last refusal }
    {
        match self.last {
            Some(last) => is_up_to(last, refusal),
            None => true,
        }
    }

    // Ends a stretch if the refusal of the next augment goes back.
    fn keep_order(&mut self, alloc: Global, refusal: Refusal) -> Result<(), AllocError>
        ensures gathers { (w : Whole) (statement module_file count : ℕ)
            → IsGathering w statement module_file count self.old
            → OnOk result (IsGathering w statement module_file count self.new) }
        ensures follows { OnOk result (IsFollowed self.new.last refusal) }
    {
        if self.is_followed(refusal) {
            return Ok(());
        }
        self.close(alloc, None)
    }

    // Adds an augment that gives nothing, and whose refusal doesn't go back.
    fn push(
        &mut self,
        alloc: Global,
        it: AddressedAugment,
        refusal: Refusal,
    ) -> Result<(), AllocError>
        ensures { (w : Whole) (statement module_file count : ℕ)
            → IsGathering w statement module_file count self.old
            → IsNext w statement module_file count it refusal → IsFollowed self.old.last refusal
            → OnOk result (IsGathering w statement module_file (count + 1) self.new) }
    {
        let number = self.paths.add(alloc, &it.path)?;
        self.last = Some(refusal);
        if !self.known.insert(number)? {
            return Ok(());
        }
        self.idle.push(it)?;
        Ok(())
    }

    // Adds an augment that gives nothing.
    fn note(
        &mut self,
        alloc: Global,
        it: AddressedAugment,
        refusal: Refusal,
    ) -> Result<(), AllocError>
        ensures { (w : Whole) (statement module_file count : ℕ)
            → IsGathering w statement module_file count self.old
            → IsNext w statement module_file count it refusal
            → OnOk result (IsGathering w statement module_file (count + 1) self.new) }
    {
        self.keep_order(alloc, refusal)?;
        self.push(alloc, it, refusal)
    }
}

impl Schedules {
    ghost use Rattle.yv_expand_augments.specs.InnerSchedule.{AreSchedules, is_of_module, stretches_in};

    /// No item was looked at.
    pub(crate) fn new(alloc: Global) -> Schedules
        ensures { (w : Whole) → AreSchedules w result }
    {
        Schedules {
            known: BTreeMap::new(alloc),
        }
    }

    // Whether the augments of a `uses` are kept for the module of this file.
    fn is_ready(&self, statement: usize, module_file: u32) -> bool
        ensures { result ≡ is_of_module module_file (get nat_cmp self.now.known statement) }
    {
        match self.known.get(&statement) {
            Some(schedule) => schedule.module_file == module_file,
            None => false,
        }
    }

    /// The augments of a `uses` that are kept.
    pub(crate) fn stretches(&self, statement: usize) -> &[Stretch]
        ensures { result.now ≡ stretches_in self.now statement }
    {
        match self.known.get(&statement) {
            Some(schedule) => &schedule.stretches,
            None => &[],
        }
    }
}

// The refusal of an augment that adds to no node.
fn refusal_of(plan: &Plan<'_, '_, '_>, augment: usize) -> Refusal
    requires { augment < length (rows_in plan.now.rows.now) }
    ensures { IsRefusalOf (rows_in plan.now.rows.now) augment result }
{
    let entry = &plan.rows.entries()[augment];
    Refusal {
        code: Code::AugmentTarget,
        file: entry.file,
        offset: entry.statement.offset(),
        line: entry.statement.line(),
    }
}

// Adds the next augment of a `uses`.
fn gather(
    alloc: Global,
    plan: &Plan<'_, '_, '_>,
    gathering: &mut ScheduleDraft,
    statement: usize,
    module_file: u32,
    augment: usize,
) -> Result<(), AllocError>
    requires plan { IsPlan plan.now }
    requires within { augment < length (rows_in plan.now.rows.now) }
    ensures { (count : ℕ)
        → IsGathering (whole_in plan.now) statement module_file count gathering.old
        → slice_get (augments_in (rows_in plan.now.rows.now) statement) count ≡ Some augment
        → OnOk result
        (IsGathering (whole_in plan.now) statement module_file (count + 1) gathering.new) }
{
    let path = plan.path(alloc, module_file, augment)?;
    let it = AddressedAugment { augment, path };
    if plan.is_giving(statement, augment) {
        gathering.close(alloc, Some(it))
    } else {
        gathering.note(alloc, it, refusal_of(plan, augment))
    }
}

// The augments of a `uses` in the module of this file.
fn schedule_of_uses(
    alloc: Global,
    plan: &Plan<'_, '_, '_>,
    statement: usize,
    module_file: u32,
) -> Result<Schedule, AllocError>
    requires { IsPlan plan.now }
    ensures schedule { IfOk result (IsSchedule (whole_in plan.now) statement) }
    ensures module_file { IfOk result (λ schedule. schedule.module_file ≡ module_file) }
{
    yv_base_tables::laws::a_number_is_listed_at_its_place();
    let mut gathering = ScheduleDraft::new(alloc)?;
    for augment in plan.augments_in(statement) {
        gather(
            alloc,
            plan,
            &mut gathering,
            statement,
            module_file,
            *augment,
        )?;
    }
    gathering.close(alloc, None)?;
    let ScheduleDraft { stretches, .. } = gathering;
    Ok(Schedule {
        module_file,
        stretches,
    })
}

/// Works out the augments of a `uses` in the module of this file, if they aren't kept.
pub(crate) fn prepare(
    alloc: Global,
    plan: &Plan<'_, '_, '_>,
    schedules: &mut Schedules,
    statement: usize,
    module_file: u32,
) -> Result<(), AllocError>
    requires plan { IsPlan plan.now }
    requires schedules { AreSchedules (whole_in plan.now) schedules.old }
    ensures schedules { OnOk result (AreSchedules (whole_in plan.now) schedules.new) }
    ensures ready { OnOk result (AreStretches (whole_in plan.now) statement module_file 0
        (length (augments_in (rows_in plan.now.rows.now) statement))
        (stretches_in schedules.new statement)) }
{
    if schedules.is_ready(statement, module_file) {
        return Ok(());
    }
    let schedule = schedule_of_uses(alloc, plan, statement, module_file)?;
    schedules.known.insert(statement, schedule)?;
    Ok(())
}
