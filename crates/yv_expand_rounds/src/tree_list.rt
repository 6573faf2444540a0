//! The final tree as a list.
ghost use Rattle.std.specs.Prelude.{◌≡◌, ◌+◌, ◌++◌, [], ℕ, List, length, reverse, set, IfOk, OnOk};
ghost use Rattle.yv_expand_rounds.specs.{declared.label.Label.{Label}, Turns.{State}, Placements.{StandOnce}, Tree.{AreInOrder, AreRows}, InnerState.{IsAugmentation}, InnerTreeList.{StandAtMostOnce, groups_in, under}};

use crate::augmentation::Augmentation;
use crate::group::Group;
use crate::label::Label;
use crate::order::sort;
use crate::places::ItemPlaces;
use crate::row::ItemRow;
use std::alloc::{AllocError, Global};
use std::mem;

// Takes the items of a group out, in order.
fn take_group(alloc: Global, labels: &[Label], groups: &mut Vec<Group>, group: usize) -> Vec<usize>
    ensures takes { AreInOrder labels.now (groups_in groups.old.items) group result.items }
    ensures others { groups_in groups.new.items ≡ set (groups_in groups.old.items) group [] }
{
    if group >= groups.len() {
        return Vec::new(alloc);
    }
    let taken = mem::replace(&mut groups[group], Group::new(alloc));
    let Group { members, .. } = taken;
    let mut items = members;
    sort(labels, &mut items);
    items
}

// Takes the items below another out, in order.
fn take_below(alloc: Global, labels: &[Label], groups: &mut Vec<Group>, number: usize) -> Vec<usize>
    ensures takes { AreInOrder labels.now (groups_in groups.old.items) (number + 1) result.items }
    ensures others { groups_in groups.new.items ≡ set (groups_in groups.old.items) (number + 1) [] }
{
    if number >= groups.len() {
        return Vec::new(alloc);
    }
    take_group(alloc, labels, groups, number + 1)
}

// Puts items of one parent on a stack, the first on top.
fn put(
    stack: &mut Vec<ItemRow>,
    items: &[usize],
    parent: Option<usize>,
    depth: usize,
) -> Result<(), AllocError>
    ensures { OnOk result
        (stack.new.items ≡ stack.old.items ++ reverse (under parent depth items.now)) }
{
    let mut rest = items;
    while let Some((last, others)) = rest.split_last() {
        stack.push(ItemRow {
            number: *last,
            parent,
            depth,
        })?;
        rest = others;
    }
    Ok(())
}

// The tree of groups as a list. Each group is taken out when its turn comes.
fn list(
    alloc: Global,
    labels: &[Label],
    groups: &mut Vec<Group>,
) -> Result<Vec<ItemRow>, AllocError>
    ensures { StandAtMostOnce (groups_in groups.old.items)
        → IfOk result (λ rows. AreRows labels.now (groups_in groups.old.items) rows.items) }
{
    let mut rows = Vec::with_capacity(alloc, labels.len())?;
    let mut stack = Vec::new(alloc);
    let top = take_group(alloc, labels, groups, 0);
    put(&mut stack, &top, None, 1)?;
    while let Some(row) = stack.pop() {
        rows.push(row)?;
        let below = take_below(alloc, labels, groups, row.number);
        put(&mut stack, &below, Some(row.number), row.depth + 1)?;
    }
    Ok(rows)
}

impl Augmentation {
    /// The final tree in order: each item before those below it and, of the children of one parent,
    /// those that augments of modules give after the others, each by number. A uses is among them,
    /// with nothing below it, if what it gives is in its own group. Takes no memory for each level,
    /// except for the items on the way.
    pub fn into_rows(self) -> Result<Vec<ItemRow>, AllocError>
        ensures { (labels : List Label) (st : State) → IsAugmentation labels st self
            → StandOnce (length labels) st.groups
            → IfOk result (λ rows. AreRows labels st.groups rows.items) }
    {
        let Augmentation { places, ends: _ } = self;
        let ItemPlaces {
            alloc,
            labels,
            mut groups,
        } = places;
        let rows = list(alloc, &labels, &mut groups)?;
        Ok(rows)
    }
}
