//! Which items are where, and where paths lead among them.
ghost use Rattle.std.specs.Prelude.{◌≡◌, ◌≢◌, ◌<◌, ◌+◌, ◌++◌, ◌∷◌, [], ℕ, List, length, replicate, set, IfOk, IfSome, OnErr, OnOk, Some, None, slice_get};
ghost use Rattle.yv_expand_rounds.specs.{declared.label.Label.{Label}, declared.end.End.TheVariants.{Start}, Labels.{is_named}, Groups.{Groups, members_of, move_items}, Paths.{is_shorthand, first_named, before, answer, end_at, step_end, path_end}, Turns.{target, give}, InnerGroups.{ArePlaces, HaveBefore}, InnerPendingPaths.{KeepFirst, Lead, IsFollowed, last_end}, InnerArrivals.{AreMet}};

use crate::end::End;
use crate::group::Group;
use crate::label::{Label, is_named};
use crate::trail::Trail;
use std::alloc::{AllocError, Global};
use std::mem;

/// Items, and for each group those in it.
#[derive(Drop)]
pub(crate) struct ItemPlaces {
    pub alloc: Global,
    pub labels: Vec<Label>,
    pub groups: Vec<Group>,
}

// What was found, if it comes before the limit.
fn before(limit: usize, found: Option<usize>) -> Option<usize>
    ensures { result ≡ before limit found }
{
    match found {
        Some(item) => { if item < limit { Some(item) } else { None } }
        None => None,
    }
}

// Whether an item is a choice and the other one, below it, no case.
fn is_shorthand(parent: Option<Label>, label: Option<Label>) -> bool
    ensures { result ≡ is_shorthand parent label }
{
    match (parent, label) {
        (Some(parent), Some(label)) => parent.kind.is_choice() && !label.kind.is_case(),
        _ => false,
    }
}

impl ItemPlaces {
    /// So many groups after those of these items, with no item in any of them.
    pub(crate) fn new(
        alloc: Global,
        labels: Vec<Label>,
        others: usize,
    ) -> Result<ItemPlaces, AllocError>
        ensures state { IfOk result
            (ArePlaces labels.items (replicate (length labels.items + 1 + others) [])) }
        ensures keeps { IfOk result (λ places. places.labels ≡ labels) }
        ensures count { IfOk result
            (λ places. length places.groups.items ≡ length labels.items + 1 + others) }
    {
        let count = labels.len().saturating_add(others).saturating_add(1);
        let mut groups = Vec::with_capacity(alloc, count)?;
        for _ in 0..labels.len() {
            groups.push(Group::new(alloc))?;
        }
        groups.push(Group::new(alloc))?;
        for _ in 0..others {
            groups.push(Group::new(alloc))?;
        }
        Ok(ItemPlaces {
            alloc,
            labels,
            groups,
        })
    }

    // The first node of a name in a group.
    fn first(&self, group: usize, name: usize) -> Option<usize>
        ensures { (labels : List Label) (groups : Groups) → ArePlaces labels groups self.now
            → result ≡ first_named labels name (members_of groups group) }
    {
        match self.groups.get(group) {
            Some(group) => group.first(&self.labels, name),
            None => None,
        }
    }

    // What answers a step in a group.
    fn answer(&self, limit: usize, group: usize, name: usize) -> Option<usize>
        ensures { (labels : List Label) (groups : Groups) → ArePlaces labels groups self.now
            → result ≡ answer labels groups limit group name }
    {
        before(limit, self.first(group, name))
    }

    // Whether an item is a node of this name.
    fn is_named(&self, name: usize, item: usize) -> bool
        ensures { result ≡ is_named self.now.labels.items name item }
    {
        is_named(&self.labels, name, item)
    }

    // Where a step comes that one node answers below another.
    fn end_at(&self, parent: usize, item: usize) -> End
        ensures { result ≡ end_at self.now.labels.items parent item }
    {
        if is_shorthand(
            self.labels.get(parent).copied(),
            self.labels.get(item).copied(),
        ) {
            End::ShorthandCase(item)
        } else {
            End::Node(item)
        }
    }

    // The first node below another that answers a step.
    fn below(&self, limit: usize, parent: usize, name: usize) -> Option<usize>
        ensures { (labels : List Label) (groups : Groups) → ArePlaces labels groups self.now
            → result ≡ answer labels groups limit (parent + 1) name }
    {
        match parent.checked_add(1) {
            Some(group) => self.answer(limit, group, name),
            None => None,
        }
    }

    // Among these items are all of a group that come before the limit. None where they may be more
    // than `most`.
    fn few_of(&self, limit: usize, group: usize, most: usize) -> Option<&[usize]>
        ensures { (labels : List Label) (groups : Groups) → ArePlaces labels groups self.now
            → IfSome result (λ few. HaveBefore (members_of groups group) limit few.now) }
    {
        match self.groups.get(group) {
            Some(group) => group.few(limit, most),
            None => Some(&[]),
        }
    }

    /// Among these items is each to which one step leads, whatever its name. None where they may be
    /// more than `most`; at a case that is left out only its own node answers a step.
    pub(crate) fn few(&self, limit: usize, end: End, most: usize) -> Option<&[usize]>
        ensures { (labels : List Label) (groups : Groups) → ArePlaces labels groups self.now
            → IfSome result (λ few. AreMet labels groups limit end few.now) }
    {
        match end {
            End::Start(group) => self.few_of(limit, group, most),
            End::Node(item) => match item.checked_add(1) {
                Some(group) => self.few_of(limit, group, most),
                None => None,
            },
            End::ShorthandCase(_) => None,
        }
    }

    /// Where one step leads.
    pub(crate) fn step(&self, limit: usize, end: End, name: usize) -> Option<End>
        ensures { (labels : List Label) (groups : Groups) → ArePlaces labels groups self.now
            → result ≡ step_end labels groups limit end name }
    {
        match end {
            End::Start(group) => match self.answer(limit, group, name) {
                Some(item) => Some(End::Node(item)),
                None => None,
            },
            End::Node(parent) => match self.below(limit, parent, name) {
                Some(item) => Some(self.end_at(parent, item)),
                None => None,
            },
            End::ShorthandCase(item) => {
                if self.is_named(name, item) {
                    Some(End::Node(item))
                } else {
                    None
                }
            }
        }
    }

    /// Where a path leads from the items of a group.
    pub(crate) fn walk(&self, start: usize, limit: usize, path: &[usize]) -> Option<End>
        ensures { (labels : List Label) (groups : Groups) → ArePlaces labels groups self.now
            → result ≡ path_end labels groups limit path.now (Start start) }
    {
        let mut end = End::Start(start);
        for name in path {
            end = self.step(limit, end, *name)?;
        }
        Some(end)
    }

    /// Follows a path from the top on, as far as it leads.
    pub(crate) fn follow(&self, path: &[usize], trail: &mut Trail) -> Result<(), AllocError>
        ensures { (labels : List Label) (groups : Groups) → ArePlaces labels groups self.now
            → Lead labels groups path.now (length trail.old.ends.items)
            (last_end trail.old.ends.items)
            → OnOk result
            (IsFollowed labels groups path.now trail.old.ends.items trail.new.ends.items) }
    {
        let limit = self.labels.len();
        let mut end = trail.end();
        while trail.ends.len() < path.len() {
            let name = path[trail.ends.len()];
            let Some(next) = self.step(limit, end, name) else {
                return Ok(());
            };
            trail.ends.push(next)?;
            end = next;
        }
        Ok(())
    }

    /// The node to which an augment adds whose path ends there.
    pub(crate) fn target(&self, end: End) -> Option<usize>
        ensures value { result ≡ target self.now.labels.items end }
        ensures within { IfSome result (λ item. item < length self.now.labels.items) }
    {
        let End::Node(item) = end else { return None };
        match self.labels.get(item) {
            Some(label) => {
                if label.kind.may_be_target() {
                    Some(item)
                } else {
                    None
                }
            }
            None => None,
        }
    }

    // Gives the items of one group to another. Answers the nodes there that were the first of their
    // names, where others are now.
    fn shift(&mut self, from: usize, to: usize) -> Result<Vec<usize>, AllocError>
        requires from { from < length self.old.groups.items }
        requires to { to < length self.old.groups.items }
        requires other { from ≢ to }
        ensures state { (labels : List Label) (groups : Groups) → ArePlaces labels groups self.old
            → OnOk result (ArePlaces labels (move_items from to groups) self.new) }
        ensures keeps { (labels : List Label) (groups : Groups) → ArePlaces labels groups self.old
            → IfOk result
            (λ displaced. KeepFirst labels from groups (move_items from to groups)
            displaced.items) }
        ensures labels { self.new.labels ≡ self.old.labels }
        ensures count { length self.new.groups.items ≡ length self.old.groups.items }
    {
        let moving = mem::replace(&mut self.groups[from], Group::new(self.alloc));
        let displaced = self.groups[to].join(self.alloc, &self.labels, &moving.members)?;
        Ok(displaced)
    }

    /// Moves what is in a group to the node at which an augment's path ends, if that may take
    /// nodes. Returns the nodes there that were the first of their names before, if others are now.
    pub(crate) fn settle(&mut self, from: usize, end: End) -> Result<Vec<usize>, AllocError>
        requires behind { length self.old.labels.items < from }
        requires within { from < length self.old.groups.items }
        ensures state { (labels : List Label) (groups : Groups) → ArePlaces labels groups self.old
            → OnOk result (ArePlaces labels (give from (target labels end) groups) self.new) }
        ensures keeps { (labels : List Label) (groups : Groups) → ArePlaces labels groups self.old
            → IfOk result
            (λ displaced. KeepFirst labels from groups (give from (target labels end) groups)
            displaced.items) }
        ensures labels { self.new.labels ≡ self.old.labels }
        ensures count { length self.new.groups.items ≡ length self.old.groups.items }
    {
        let Some(item) = self.target(end) else {
            return Ok(Vec::new(self.alloc));
        };
        let displaced = self.shift(from, item + 1)?;
        Ok(displaced)
    }

    /// An item enters a group. All is as before where memory runs out.
    pub(crate) fn enter(&mut self, item: usize, group: usize) -> Result<(), AllocError>
        ensures state { (labels : List Label) (groups : Groups) → ArePlaces labels groups self.old
            → OnOk result
            (ArePlaces labels (set groups group (members_of groups group ++ item ∷ [])) self.new) }
        ensures keeps { (labels : List Label) (groups : Groups) → ArePlaces labels groups self.old
            → OnErr result (ArePlaces labels groups self.new) }
        ensures labels { self.new.labels ≡ self.old.labels }
        ensures count { length self.new.groups.items ≡ length self.old.groups.items }
    {
        if group < self.groups.len() {
            self.groups[group].push(self.alloc, &self.labels, item)?;
        }
        Ok(())
    }

    /// The items of a group.
    pub(crate) fn members(&self, group: usize) -> &[usize]
        ensures { (labels : List Label) (groups : Groups) → ArePlaces labels groups self.now
            → result.now ≡ members_of groups group }
    {
        match self.groups.get(group) {
            Some(group) => &group.members,
            None => &[],
        }
    }

    /// The items below another.
    pub(crate) fn children(&self, item: usize) -> &[usize]
        ensures { (labels : List Label) (groups : Groups) → ArePlaces labels groups self.now
            → result.now ≡ members_of groups (item + 1) }
    {
        match item.checked_add(1) {
            Some(group) => self.members(group),
            None => &[],
        }
    }
}
