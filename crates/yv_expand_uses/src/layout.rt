//! Where items are before any augment is applied.
ghost use Rattle.std.specs.Prelude.{◌≡◌, ◌<◌, ◌+◌, ◌^◌, true, List, length, slice_get, IfOk, OnOk};
ghost use Rattle.yv_link_scopes.specs.Views.{files_in, rows_in};
ghost use Rattle.yv_expand_statements.specs.Origin.{number_of};
ghost use Rattle.yv_expand_statements.specs.Kinds.{is_uses};
ghost use Rattle.yv_expand_uses.specs.{AugmentOrder.{ordinal}, Spots.{copies_of, copy_group, source_in, group_below, module_file_below, layout_of, spot_at, spot_of, top_group, used_group}};

use crate::kinds::{is_uses, label_of};
use crate::plan::Plan;
use crate::spot::Spot;
use std::alloc::{AllocError, Global};
use yv_expand::Item;

/// A layout of items, each with what is known of it, and how many copies of augments there are.
#[derive(Drop)]
pub struct Layout {
    /// What is known of each item, by its number.
    pub spots: Vec<Spot>,
    /// How many copies of augments give something: those of modules, and one for each copy of a
    /// uses whose augment it is.
    pub copies: usize,
}

/// The item of a number, if there is one.
pub fn spot_at(spots: &[Spot], number: Option<usize>) -> Option<Spot>
    ensures { result ≡ spot_at spots.now number }
{
    spots.get(number?).copied()
}

/// The augment of a module in whose block the items of a group stand; there are so many items.
pub fn source_in(items: usize, augments: &[usize], group: usize) -> Option<usize>
    ensures { result ≡ source_in items augments.now group }
{
    if items < group {
        augments.get(group - items - 1).copied()
    } else {
        None
    }
}

impl Plan<'_, '_, '_> {
    ghost use Rattle.yv_expand_uses.specs.{InnerPlan.{IsPlan, whole_in}, InnerLayout.{AreNumbered, IsNumbered, laid_in}};

    /// The group of what the numbered copy of an augment gives, until the augment is applied.
    pub fn copy_group(&self, number: usize) -> usize
        // The group of what the numbered copy of an augment gives.
        requires { number < 2 ^ 63 }
        // The group of what the numbered copy of an augment gives.
        ensures { result ≡ copy_group (whole_in self.now) number }
    {
        self.items.len() + 1 + number
    }

    // The group of an item at the top.
    fn top_group(&self, statement: usize) -> usize
        requires { IsPlan self.now }
        ensures { result
            ≡ top_group (whole_in self.now) (slice_get (rows_in self.now.rows.now) statement) }
    {
        yv_link_scopes::laws::blocks_are_nested();
        let entries = self.rows.entries();
        if statement >= entries.len() {
            return 0;
        }
        match self.module_place(entries[statement].scope) {
            Some(place) => self.copy_group(place),
            None => 0,
        }
    }

    // The group of what an augment of a uses gives.
    fn given_group(&self, spot: &Spot, augment: usize) -> usize
        requires plan { IsPlan self.now }
        requires few { spot.now.first + ordinal (rows_in self.now.rows.now) augment < 2 ^ 63 }
        ensures { result
            ≡ copy_group (whole_in self.now)
            (spot.now.first + ordinal (rows_in self.now.rows.now) augment) }
    {
        self.copy_group(spot.first + self.ordinal(augment))
    }

    // The group of an item in a uses.
    fn used_group(&self, spot: &Spot, statement: usize) -> usize
        requires plan { IsPlan self.now }
        requires few { IsNumbered (rows_in self.now.rows.now) spot.now }
        requires uses { is_uses spot.now.label.kind ≡ true }
        ensures { result
            ≡ used_group (whole_in self.now) spot.now
            (slice_get (rows_in self.now.rows.now) statement) }
    {
        match self.rows.entries().get(statement) {
            Some(entry) => {
                if self.is_giving(spot.statement, entry.scope) {
                    self.given_group(spot, entry.scope)
                } else {
                    spot.group
                }
            }
            None => spot.group,
        }
    }

    // The group of an item below another, or at the top.
    fn group_below(&self, spots: &[Spot], item: &Item) -> usize
        requires plan { IsPlan self.now }
        requires few { AreNumbered (rows_in self.now.rows.now) spots.now }
        ensures { result ≡ group_below (whole_in self.now)
            (slice_get (rows_in self.now.rows.now) (number_of item.now.origin)) item.now.parent
            (spot_at spots.now item.now.parent) }
    {
        let statement = item.origin.number();
        let Some(parent) = item.parent else {
            return self.top_group(statement);
        };
        match spots.get(parent) {
            Some(spot) => {
                if is_uses(spot.label.kind) {
                    self.used_group(spot, statement)
                } else {
                    parent + 1
                }
            }
            None => 0,
        }
    }

    // The file of the module to which an item belongs.
    fn module_file_below(&self, spots: &[Spot], item: &Item) -> u32
        requires { IsPlan self.now }
        ensures { result ≡ module_file_below (files_in self.now.rows.now)
            (slice_get (rows_in self.now.rows.now) (number_of item.now.origin))
            (spot_at spots.now item.now.parent) }
    {
        match spot_at(spots, item.parent) {
            Some(spot) => spot.module_file,
            None => self.own_module_file(item.origin.number()),
        }
    }

    // What is known of the next item.
    fn spot(&self, spots: &[Spot], copies: usize, item: &Item) -> Spot
        requires plan { IsPlan self.now }
        requires few { AreNumbered (rows_in self.now.rows.now) spots.now }
        ensures { result ≡ spot_of (whole_in self.now) spots.now copies item.now }
    {
        let module_file = self.module_file_below(spots, item);
        let group = self.group_below(spots, item);
        let given = source_in(self.items.len(), self.augments, group).is_some();
        let label = label_of(self.rows, &self.names, module_file, item.origin, given);
        Spot {
            statement: item.origin.number(),
            module_file,
            label,
            group,
            first: copies,
        }
    }

    // Lists the augments of which an item adds copies.
    fn add_copies(&self, copies: &mut Vec<usize>, spot: &Spot) -> Result<(), AllocError>
        requires { IsPlan self.now }
        ensures { OnOk result
            (length copies.new.items ≡ length copies.old.items
            + copies_of (rows_in self.now.rows.now) spot.now) }
    {
        if is_uses(spot.label.kind) {
            copies.extend_from_slice(self.augments_giving(spot.statement))?;
        }
        Ok(())
    }

    /// All items, one after the other. The augment of each copy is listed meanwhile: so the copies
    /// are counted within the length of a list in memory. Takes time and memory linear in items and
    /// copies. Err only if memory runs out.
    #[tactic(auto, unfolding(crate::specs::Spots::layout_of))]
    pub fn lay(&self, alloc: Global, items: &[Item]) -> Result<Layout, AllocError>
        // The plan is one of statements.
        requires { IsPlan self.now }
        // For each item its statement, the file of its module, its kind, the number of its module
        // and name, and where it is before any augment is applied.
        ensures lays { IfOk result
            (λ layout. laid_in layout ≡ layout_of (whole_in self.now) items.now) }
        // And how many copies of augments there are, fewer than 2 to the 63.
        ensures few { IfOk result (λ layout. layout.copies < 2 ^ 63) }
    {
        let mut spots = Vec::with_capacity(alloc, items.len())?;
        let mut copies = Vec::new(alloc);
        copies.extend_from_slice(self.augments)?;
        for item in items {
            let spot = self.spot(&spots, copies.len(), item);
            self.add_copies(&mut copies, &spot)?;
            spots.push(spot)?;
        }
        Ok(Layout {
            spots,
            copies: copies.len(),
        })
    }
}
