//! What augments do to the places of items.
ghost use Rattle.std.specs.{Prelude.{◌≡◌, ◌<◌, ◌+◌, ◌&&◌, not, false, ℕ, List, length, replicate, None, IfOk, MatchResult, OnOk, if◌then◌else◌, slice_index_or}, Option.{option_and_then}};
ghost use Rattle.yv_expand_rounds.specs.declared.label.Label.{Label};

use crate::end::End;
use crate::label::Label;
use crate::places::ItemPlaces;
use std::alloc::{AllocError, Global};

// So many augments of which none was applied.
fn no_ends(alloc: Global, count: usize) -> Result<Vec<Option<End>>, AllocError>
    ensures { IfOk result (λ ends. ends.items ≡ replicate count None) }
{
    let mut ends = Vec::new(alloc);
    for _ in 0..count {
        ends.push(None)?;
    }
    Ok(ends)
}

/// Numbered items that enter groups, and numbered augments that give others to nodes among them. An
/// augment that gives nothing needs no number: it may be asked where its path leads, and changes
/// nothing.
#[derive(Drop)]
pub struct Augmentation {
    pub(crate) places: ItemPlaces,
    pub(crate) ends: Vec<Option<End>>,
    ghost each: { length places.groups.items ≡ length places.labels.items + 1 + length ends.items },
}

impl Augmentation {
    ghost use Rattle.yv_expand_rounds.specs.{Groups.{group_of_augment, members_of}, Paths.{path_end}, declared.end.End.TheVariants.{Start}, Turns.{State, is_applied, is_some, resolve, target, turn, target_of}, Placements.{nothing, enter}, InnerState.{IsAugmentation, count_left}, InnerPendingPaths.{KeepFirst}};

    /// Items with these labels, none of which is in a group yet, and so many augments, none of
    /// which is applied yet.
    pub fn new(
        alloc: Global,
        labels: Vec<Label>,
        augments: usize,
    ) -> Result<Augmentation, AllocError>
        ensures { IfOk result
            (IsAugmentation labels.items (nothing (length labels.items) augments)) }
    {
        let ends = no_ends(alloc, augments)?;
        let places = ItemPlaces::new(alloc, labels, augments)?;
        Ok(Augmentation { places, ends })
    }

    /// Where a path leads from the items of a group, each step to the first node of its name before
    /// the limit; a path into a choice names cases that are left out, too (RFC 7950, section 6.5).
    pub fn walk(&self, start: usize, limit: usize, path: &[usize]) -> Option<End>
        ensures { (labels : List Label) (st : State) → IsAugmentation labels st self.now
            → result ≡ path_end labels st.groups limit path.now (Start start) }
    {
        self.places.walk(start, limit, path)
    }

    /// The node to which an augment with this path would add in its turn, if its path ends at one
    /// that may take nodes.
    pub fn reach(&self, start: usize, limit: usize, path: &[usize]) -> Option<usize>
        ensures { (labels : List Label) (st : State) → IsAugmentation labels st self.now
            → result
            ≡ option_and_then (target labels)
            (path_end labels st.groups limit path.now (Start start)) }
    {
        let end = self.walk(start, limit, path)?;
        self.places.target(end)
    }

    /// An item enters a group: 0 at the top, i + 1 below item i, and after these the group of the
    /// numbered augment whose block it is in. All is as before where memory runs out.
    pub fn enter(&mut self, item: usize, group: usize) -> Result<(), AllocError>
        ensures { (labels : List Label) (st : State) → IsAugmentation labels st self.old
            → MatchResult result (λ done. IsAugmentation labels (enter item group st) self.new)
            (λ error. IsAugmentation labels st self.new) }
    {
        self.places.enter(item, group)?;
        Ok(())
    }

    // An augment whose path ends there, or nowhere, is applied, if it wasn't yet and the path does
    // end. Tells whether it was applied now, and answers the nodes that were the first of their
    // names, where what the augment gives is now.
    pub(crate) fn settle(
        &mut self,
        number: usize,
        end: Option<End>,
    ) -> Result<(bool, Vec<usize>), AllocError>
        requires { number < length self.old.ends.items }
        ensures state { (labels : List Label) (st : State) → IsAugmentation labels st self.old
            → OnOk result (IsAugmentation labels (resolve labels number end st) self.new) }
        ensures takes { (labels : List Label) (st : State) → IsAugmentation labels st self.old
            → IfOk result (λ outcome. outcome.0 ≡ (not (is_applied st number) && is_some end)) }
        ensures keeps { (labels : List Label) (st : State) → IsAugmentation labels st self.old
            → IfOk result
            (λ outcome. KeepFirst labels (group_of_augment labels number) st.groups
            (resolve labels number end st).groups outcome.1.items) }
        ensures leaves { IfOk result
            (λ outcome. count_left self.new.ends.items + (if outcome.0 then 1 else 0)
            ≡ count_left self.old.ends.items) }
        ensures each { length self.new.ends.items ≡ length self.old.ends.items }
    {
        if self.ends[number].is_some() {
            return Ok((false, Vec::new(self.places.alloc)));
        }
        let Some(place) = end else {
            return Ok((false, Vec::new(self.places.alloc)));
        };
        let _groups = self.places.groups.len();
        let from = self.places.labels.len() + 1 + number;
        let displaced = self.places.settle(from, place)?;
        self.ends[number] = end;
        Ok((true, displaced))
    }

    /// An augment has its turn: it is applied, if it wasn't yet and its target is there. What it
    /// gives goes to the target, if that may take nodes (RFC 7950, sections 7.13 and 7.17). The
    /// path of one of a uses begins in the group of the uses, and its limit is the number of the
    /// first item of its block. Where memory runs out, part of it may have been given: nothing is
    /// left then.
    pub fn turn(
        mut self,
        number: usize,
        start: usize,
        limit: usize,
        path: &[usize],
    ) -> Result<Augmentation, AllocError>
        ensures { (labels : List Label) (st : State) → IsAugmentation labels st self → number
            < length st.ends
            → IfOk result (IsAugmentation labels (turn labels number start limit path.now st)) }
    {
        if number < self.ends.len() {
            let end = self.places.walk(start, limit, path);
            self.settle(number, end)?;
        }
        Ok(self)
    }

    /// The items of a group, as they came there.
    pub fn members(&self, group: usize) -> &[usize]
        ensures { (labels : List Label) (st : State) → IsAugmentation labels st self.now
            → result.now ≡ members_of st.groups group }
    {
        self.places.members(group)
    }

    /// Where the path of a numbered augment ended when it was applied, if it was.
    pub fn end(&self, number: usize) -> Option<End>
        ensures { (labels : List Label) (st : State) → IsAugmentation labels st self.now → result
            ≡ slice_index_or st.ends number None }
    {
        match self.ends.get(number).copied() {
            Some(end) => end,
            None => None,
        }
    }

    /// The node to which a numbered augment adds, if it was applied and there is one.
    pub fn target(&self, number: usize) -> Option<usize>
        ensures { (labels : List Label) (st : State) → IsAugmentation labels st self.now → result
            ≡ target_of labels st.ends number }
    {
        let end = self.end(number)?;
        self.places.target(end)
    }
}
