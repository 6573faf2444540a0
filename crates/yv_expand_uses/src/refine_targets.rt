//! What the refines of `uses` statements aim at, made once for all copies of a `uses` in one
//! module, and what they mean.
ghost use Rattle.std.specs.Prelude.{◌≡◌, ◌<◌, ◌==◌, ◌&&◌, not, ◌++◌, ℕ, [], List, Some, length, map, slice_get, IfOk, IfSome, IsOk, OnErr, OnOk};
ghost use Rattle.yv_link_scopes.specs.Views.{rows_in};
ghost use Rattle.yv_expand_rounds.specs.{declared.label.Label.{Label}, Turns.{State}, InnerState.{IsAugmentation}};
ghost use Rattle.yv_expand_statements.specs.Kinds.{is_uses};
ghost use Rattle.yv_base_tables.specs.InnerTree.{IsPathTree};
ghost use Rattle.yv_expand_refines.specs.Targets.{targets_at, all_meant, meaning_of};
ghost use Rattle.yv_expand_uses.specs.{InnerLeadingPaths.{IsLed, place_aim}, InnerPaths.{target_of_path}, RefineTargets.{SameRefinements, refined_at, refines_in}, Spots.{Whole}};

use crate::kinds::is_uses;
use crate::leading_paths::{LeadingPaths, place_aims};
use crate::plan::Plan;
use crate::spot::Spot;
use std::alloc::{AllocError, Global};
use std::collections::BTreeMap;
use yv_base_tables::PathTree;
use yv_expand_refines::{RefineTarget, RefinedUses, Refinements};
use yv_expand_rounds::Augmentation;

// What the refines of a `uses` aim at in a module: each with the number of its path among the
// different ones.
#[derive(Drop)]
struct UsesTargets {
    paths: PathTree,
    refine_targets: Vec<RefineTarget>,
}

// The paths that lead to nodes at a copy, and the place of the refine targets that are noted for
// copies where these do. Copies of one `uses` are alike, so that those of the copy before are kept.
#[derive(Drop)]
struct KeptTargets {
    paths: Vec<usize>,
    place: usize,
}

/// The targets that refines of items mean, as far as these were looked at.
#[derive(Drop)]
pub struct RefineTargets {
    // For each `uses` that refines and each module to which copies of it belong the number of what
    // its refines aim at.
    known: BTreeMap<(usize, u32), usize>,
    aimed: Vec<UsesTargets>,
    // By number what is kept of the copy before.
    kept: Vec<Option<KeptTargets>>,
    /// What the refines of these items mean.
    pub refinements: Refinements,
}

impl RefineTargets {
    ghost use Rattle.yv_expand_uses.specs.InnerRefineTargets.{AreRefineTargets, HasNumber, HasRoom, IsAsBefore, IsUsesTargets, IsPlaced, number_in};

    /// No item was looked at.
    pub fn new(alloc: Global) -> RefineTargets
        // Nothing is noted.
        ensures refine_targets { (w : Whole) → AreRefineTargets w result }
        // No refine means anything yet.
        ensures means { all_meant result.refinements ≡ [] }
    {
        RefineTargets {
            known: BTreeMap::new(alloc),
            aimed: Vec::new(alloc),
            kept: Vec::new(alloc),
            refinements: Refinements {
                refine_targets: Vec::new(alloc),
                uses: Vec::new(alloc),
            },
        }
    }

    // Makes room for one more copy, so that noting it doesn't fail.
    fn make_room(&mut self) -> Result<(), AllocError>
        ensures same { IsAsBefore self.old self.new }
        ensures room { OnOk result (HasRoom self.new) }
    {
        self.refinements.uses.reserve(1)
    }

    // The number of what the refines of a `uses` aim at in the module of this file, if that was
    // made.
    fn find(&self, statement: usize, module_file: u32) -> Option<usize>
        ensures { result ≡ number_in self.now statement module_file }
    {
        self.known.get(&(statement, module_file)).copied()
    }

    // What the refines of a `uses` aim at in a module gets the next number.
    fn add(
        &mut self,
        statement: usize,
        module_file: u32,
        aimed: UsesTargets,
    ) -> Result<usize, AllocError>
        ensures refine_targets { (w : Whole) → AreRefineTargets w self.old
            → IsUsesTargets w statement module_file aimed
            → OnOk result (AreRefineTargets w self.new) }
        ensures number { (w : Whole) → AreRefineTargets w self.old
            → IsUsesTargets w statement module_file aimed
            → IfOk result (HasNumber w self.new statement module_file) }
        ensures means { self.new.refinements ≡ self.old.refinements }
        ensures err { OnErr result (IsAsBefore self.old self.new) }
    {
        // With this room nothing fails once the number is known.
        self.aimed.reserve(1)?;
        self.kept.reserve(1)?;
        let number = self.aimed.len();
        self.known.insert((statement, module_file), number)?;
        self.aimed.push(aimed)?;
        self.kept.push(None)?;
        Ok(number)
    }

    // Which paths lead to nodes at a copy.
    fn paths_that_lead(
        &self,
        alloc: Global,
        augmentation: &Augmentation,
        group: usize,
        end: usize,
        number: usize,
    ) -> Result<LeadingPaths, AllocError>
        requires { number < length self.now.aimed.items }
        ensures { (labels : List Label) (st : State) (all : List (List ℕ)) (aimed : UsesTargets)
            → IsAugmentation labels st augmentation.now
            → slice_get self.now.aimed.items number ≡ Some aimed → IsPathTree all aimed.paths
            → IfOk result (IsLed (target_of_path labels st end group) all) }
    {
        let arrivals = augmentation.walk_all(alloc, group, end, &self.aimed[number].paths)?;
        LeadingPaths::read(alloc, &arrivals)
    }

    // The place of refine targets for copies where these paths lead to nodes, if they did at the
    // copy before.
    fn last_place(&self, number: usize, paths: &[usize]) -> Option<usize>
        ensures { (w : Whole) → AreRefineTargets w self.now
            → IfSome result (IsPlaced self.now number paths.now) }
    {
        match self.kept.get(number) {
            Some(Some(kept)) => {
                if kept.paths.as_slice() == paths {
                    Some(kept.place)
                } else {
                    None
                }
            }
            _ => None,
        }
    }

    // Notes refine targets for copies where these paths lead to nodes.
    fn keep(
        &mut self,
        number: usize,
        paths: Vec<usize>,
        refine_targets: Vec<RefineTarget>,
    ) -> Result<usize, AllocError>
        requires { number < length self.old.kept.items }
        ensures refine_targets { (w : Whole) → AreRefineTargets w self.old
            → ((aimed : UsesTargets) → slice_get self.old.aimed.items number ≡ Some aimed
            → refine_targets.items ≡ map (place_aim paths.items) aimed.refine_targets.items)
            → OnOk result (AreRefineTargets w self.new) }
        ensures place { ((aimed : UsesTargets) → slice_get self.old.aimed.items number ≡ Some aimed
            → refine_targets.items ≡ map (place_aim paths.items) aimed.refine_targets.items)
            → IfOk result (IsPlaced self.new number paths.items) }
        ensures aims_at { self.new.aimed ≡ self.old.aimed }
        ensures means { (w : Whole) → AreRefineTargets w self.old
            → OnOk result (all_meant self.new.refinements ≡ all_meant self.old.refinements) }
        ensures uses { self.new.refinements.uses ≡ self.old.refinements.uses }
        ensures err { OnErr result (IsAsBefore self.old self.new) }
    {
        let place = self.refinements.refine_targets.len();
        self.refinements.refine_targets.push(refine_targets)?;
        self.kept[number] = Some(KeptTargets { paths, place });
        Ok(place)
    }

    // The place of refine targets for copies where these paths lead to nodes.
    fn place(
        &mut self,
        alloc: Global,
        number: usize,
        paths: Vec<usize>,
    ) -> Result<usize, AllocError>
        requires aims_at { number < length self.old.aimed.items }
        requires keeps { number < length self.old.kept.items }
        ensures refine_targets { (w : Whole) → AreRefineTargets w self.old
            → OnOk result (AreRefineTargets w self.new) }
        ensures place { (w : Whole) → AreRefineTargets w self.old
            → IfOk result (IsPlaced self.new number paths.items) }
        ensures aims_at { self.new.aimed ≡ self.old.aimed }
        ensures means { (w : Whole) → AreRefineTargets w self.old
            → OnOk result (all_meant self.new.refinements ≡ all_meant self.old.refinements) }
        ensures uses { self.new.refinements.uses ≡ self.old.refinements.uses }
        ensures err { OnErr result (IsAsBefore self.old self.new) }
    {
        match self.last_place(number, &paths) {
            Some(place) => Ok(place),
            None => {
                let refine_targets = place_aims(alloc, &self.aimed[number].refine_targets, &paths)?;
                self.keep(number, paths, refine_targets)
            }
        }
    }

    // Notes a copy of a `uses`, whose refine targets stand at this place, and where their paths
    // lead.
    fn note(
        &mut self,
        item: usize,
        place: usize,
        targets: Vec<Option<usize>>,
    ) -> Result<(), AllocError>
        requires { place < length self.old.refinements.refine_targets.items }
        ensures refine_targets { (w : Whole) → AreRefineTargets w self.old
            → OnOk result (AreRefineTargets w self.new) }
        ensures means { OnOk result (all_meant self.new.refinements
            ≡ all_meant self.old.refinements
            ++ map (meaning_of item targets.items)
            (targets_at self.old.refinements.refine_targets.items place)) }
        ensures succeeds { HasRoom self.old → IsOk result }
    {
        self.refinements.uses.push(RefinedUses {
            item,
            refine_targets: place,
            targets,
        })?;
        Ok(())
    }
}

impl Plan<'_, '_, '_> {
    ghost use Rattle.yv_expand_uses.specs.{InnerRefineTargets.{AreRefineTargets, HasNumber, IsAsBefore, IsUsesTargets}, InnerPlan.{IsPlan, whole_in}};

    // Whether an item is a `uses` that refines.
    fn has_refines(&self, spot: &Spot) -> bool
        requires { IsPlan self.now }
        ensures { result ≡ (is_uses spot.now.label.kind
            && not (length (refines_in (rows_in self.now.rows.now) spot.now.statement) == 0)) }
    {
        is_uses(spot.label.kind) && !self.refines_in(spot.statement).is_empty()
    }

    // What the refines of a `uses` aim at in the module of this file.
    fn targets_of_uses(
        &self,
        alloc: Global,
        statement: usize,
        module_file: u32,
    ) -> Result<UsesTargets, AllocError>
        requires { IsPlan self.now }
        ensures { IfOk result (IsUsesTargets (whole_in self.now) statement module_file) }
    {
        let mut paths = PathTree::new(alloc)?;
        let refines = self.refines_in(statement);
        let mut refine_targets = Vec::with_capacity(alloc, refines.len())?;
        for refine in refines {
            let steps = self.path(alloc, module_file, *refine)?;
            let path = paths.add(alloc, &steps)?;
            refine_targets.push(RefineTarget {
                refine: *refine,
                path,
            })?;
        }
        Ok(UsesTargets {
            paths,
            refine_targets,
        })
    }

    // The number of what the refines of a `uses` aim at in a module, which is made where it wasn't
    // yet.
    fn number_of_targets(
        &self,
        alloc: Global,
        refine_targets: &mut RefineTargets,
        statement: usize,
        module_file: u32,
    ) -> Result<usize, AllocError>
        requires plan { IsPlan self.now }
        requires refine_targets { AreRefineTargets (whole_in self.now) refine_targets.old }
        ensures refine_targets { OnOk result (AreRefineTargets
            (whole_in self.now) refine_targets.new) }
        ensures number { IfOk result
            (HasNumber (whole_in self.now) refine_targets.new statement module_file) }
        ensures means { refine_targets.new.refinements ≡ refine_targets.old.refinements }
        ensures err { OnErr result (IsAsBefore refine_targets.old refine_targets.new) }
    {
        match refine_targets.find(statement, module_file) {
            Some(number) => Ok(number),
            None => {
                let aimed = self.targets_of_uses(alloc, statement, module_file)?;
                refine_targets.add(statement, module_file, aimed)
            }
        }
    }

    /// Notes what the refines of an item mean, if it is a `uses` that has some, where the items
    /// before `end` may be what it gives. Err only if memory runs out: at most what the refines of
    /// the `uses` aim at is known then, so that it isn't read once more.
    pub fn refine_all(
        &self,
        alloc: Global,
        augmentation: &Augmentation,
        spot: &Spot,
        item: usize,
        end: usize,
        refine_targets: &mut RefineTargets,
    ) -> Result<(), AllocError>
        // The plan is one of statements.
        requires plan { IsPlan self.now }
        // What was noted is of this plan.
        requires refine_targets { AreRefineTargets (whole_in self.now) refine_targets.old }
        // So is what is noted then, also after an error.
        ensures refine_targets { AreRefineTargets (whole_in self.now) refine_targets.new }
        // What the refines of an item mean is added to what is noted: the node that each means
        // among what the `uses` gives, if the item is a `uses`.
        ensures means { (labels : List Label) (st : State)
            → IsAugmentation labels st augmentation.now
            → OnOk result (all_meant refine_targets.new.refinements
            ≡ all_meant refine_targets.old.refinements
            ++ refined_at (whole_in self.now) labels spot.now item end st) }
        // After an error the refinements are as before.
        ensures keeps { OnErr result
            (SameRefinements refine_targets.old.refinements refine_targets.new.refinements) }
    {
        if !self.has_refines(spot) {
            return Ok(());
        }
        refine_targets.make_room()?;
        let number = self.number_of_targets(
            alloc,
            refine_targets,
            spot.statement,
            spot.module_file,
        )?;
        let leading_paths = refine_targets.paths_that_lead(
            alloc,
            augmentation,
            spot.group,
            end,
            number,
        )?;
        let LeadingPaths { paths, targets } = leading_paths;
        let place = refine_targets.place(alloc, number, paths)?;
        refine_targets.note(item, place, targets)
    }
}
