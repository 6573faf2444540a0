//! Many paths followed at once: wherever one has come, either the items that may answer a step are
//! looked up among the paths or the paths that go on are looked up among the items, whichever are
//! fewer.
ghost use Rattle.std.specs.{Prelude.{◌≡◌, ◌≤◌, ℕ, true, List, Some, length, IfOk, IfSome, OnOk, slice_get}, Option.{option_map}};
ghost use Rattle.yv_base_tables.specs.{Fronts.{GoesOn}, InnerTree.{IsPathTree}};
ghost use Rattle.yv_expand_rounds.specs.{declared.arrivals.Arrival.{Arrival}, declared.label.Label.{Label}, Arrivals.{AreArrivals}, Groups.{Groups}, InnerArrivals.{FindFollowers, Follows, FollowsSome, Gains, Meets, is_at}, InnerGroups.{ArePlaces}, InnerState.{IsAugmentation}, Turns.{State}};

use crate::augmentation::Augmentation;
use crate::end::End;
use crate::places::ItemPlaces;
use std::alloc::{AllocError, Global};
use yv_base_tables::PathTree;

/// An arrival: a path of a tree, and where it leads.
#[derive(Clone, Copy, Debug, PartialEq, Eq)]
pub struct Arrival {
    /// The number of the path.
    pub path: usize,
    /// Where it ends.
    pub end: End,
}

// Whether a path that ends there has come to this item.
fn is_at(end: End, item: usize) -> bool
    ensures { result ≡ is_at end item }
{
    match end {
        End::Start(_) => false,
        End::Node(node) => node == item,
        End::ShorthandCase(node) => node == item,
    }
}

impl ItemPlaces {
    // The name of an item.
    fn name_of(&self, item: usize) -> Option<usize>
        ensures { result
            ≡ option_map (λ (l : Label). l.name) (slice_get self.now.labels.items item) }
    {
        match self.labels.get(item) {
            Some(label) => Some(label.name),
            None => None,
        }
    }

    // The path that goes on by the name of an item and comes to that item, if there is one. Where
    // the step comes to another item of that name there is none, so that no path is found twice.
    fn meet(&self, limit: usize, paths: &PathTree, from: Arrival, item: usize) -> Option<Arrival>
        ensures some { (labels : List Label) (groups : Groups) (all : List (List ℕ))
            → ArePlaces labels groups self.now → IsPathTree all paths.now
            → IfSome result (Follows labels groups limit all from) }
        ensures all { (labels : List Label) (groups : Groups) (all : List (List ℕ)) (next : Arrival)
            → ArePlaces labels groups self.now
            → IsPathTree all paths.now → Follows labels groups limit all from next
            → is_at next.end item ≡ true → result ≡ Some next }
        ensures there { IfSome result (λ next. is_at next.end item ≡ true) }
    {
        let name = self.name_of(item)?;
        let path = paths.next(from.path, name)?;
        let end = self.step(limit, from.end, name)?;
        if is_at(end, item) {
            Some(Arrival { path, end })
        } else {
            None
        }
    }

    // Finds the paths that go on by one step and come to one of these items.
    fn meet_all(
        &self,
        limit: usize,
        paths: &PathTree,
        from: Arrival,
        items: &[usize],
        found: &mut Vec<Arrival>,
    ) -> Result<(), AllocError>
        ensures longer { OnOk result (length found.old.items ≤ length found.new.items) }
        ensures finds { (labels : List Label) (groups : Groups) (all : List (List ℕ))
            → ArePlaces labels groups self.now → IsPathTree all paths.now
            → OnOk result (Gains (Follows labels groups limit all from)
            (Meets labels groups limit all from items.now (length items.now)) found.old.items
            found.new.items) }
    {
        for item in items {
            if let Some(next) = self.meet(limit, paths, from, *item) {
                found.push(next)?;
            }
        }
        Ok(())
    }

    // Where a path leads that goes on from another by one step, if it leads anywhere.
    fn branch(&self, limit: usize, paths: &PathTree, from: Arrival, path: usize) -> Option<Arrival>
        ensures some { (labels : List Label) (groups : Groups) (all : List (List ℕ)) (step : ℕ)
            → ArePlaces labels groups self.now
            → IsPathTree all paths.now → GoesOn all from.path step path
            → IfSome result (Follows labels groups limit all from) }
        ensures all { (labels : List Label) (groups : Groups) (all : List (List ℕ)) (next : Arrival)
            → ArePlaces labels groups self.now
            → IsPathTree all paths.now → Follows labels groups limit all from next → next.path
            ≡ path → result ≡ Some next }
    {
        let end = self.step(limit, from.end, paths.step(path))?;
        Some(Arrival { path, end })
    }

    // Finds the paths that go on by one step, by these numbers.
    fn branch_all(
        &self,
        limit: usize,
        paths: &PathTree,
        from: Arrival,
        found: &mut Vec<Arrival>,
    ) -> Result<(), AllocError>
        ensures longer { OnOk result (length found.old.items ≤ length found.new.items) }
        ensures finds { FindFollowers (OnOk result) self.now paths.now limit from found.old.items
            found.new.items }
    {
        let branches = paths.branches(from.path);
        for path in branches {
            if let Some(next) = self.branch(limit, paths, from, *path) {
                found.push(next)?;
            }
        }
        Ok(())
    }

    // Finds the paths that go on from one by one step.
    fn go_on(
        &self,
        limit: usize,
        paths: &PathTree,
        from: Arrival,
        found: &mut Vec<Arrival>,
    ) -> Result<(), AllocError>
        ensures longer { OnOk result (length found.old.items ≤ length found.new.items) }
        ensures finds { FindFollowers (OnOk result) self.now paths.now limit from found.old.items
            found.new.items }
    {
        if let End::ShorthandCase(item) = from.end {
            return self.meet_all(limit, paths, from, &[item], found);
        }
        let branches = paths.branches(from.path).len();
        match self.few(limit, from.end, branches) {
            Some(items) => self.meet_all(limit, paths, from, items, found),
            None => self.branch_all(limit, paths, from, found),
        }
    }

    // Finds the paths that go on by one step from those that were found, but for the first ones.
    // Tells how many were there.
    fn deepen(
        &self,
        limit: usize,
        paths: &PathTree,
        first: usize,
        found: &mut Vec<Arrival>,
    ) -> Result<usize, AllocError>
        ensures count { IfOk result (λ count. count ≡ length found.old.items) }
        ensures finds { (labels : List Label) (groups : Groups) (all : List (List ℕ))
            → ArePlaces labels groups self.now → IsPathTree all paths.now
            → OnOk result
            (Gains
            (FollowsSome labels groups limit all found.old.items first (length found.old.items))
            (FollowsSome labels groups limit all found.old.items first (length found.old.items))
            found.old.items found.new.items) }
    {
        let count = found.len();
        for place in first..count {
            let from = found[place];
            self.go_on(limit, paths, from, found)?;
        }
        Ok(count)
    }
}

impl Augmentation {
    /// Where each of these paths leads that leads somewhere, as `walk` says, in time n log n in the
    /// fewer of the paths and the nodes before the limit that they may meet. Err only if memory
    /// runs out.
    pub fn walk_all(
        &self,
        alloc: Global,
        start: usize,
        limit: usize,
        paths: &PathTree,
    ) -> Result<Vec<Arrival>, AllocError>
        ensures { (labels : List Label) (st : State) (all : List (List ℕ))
            → IsAugmentation labels st self.now → IsPathTree all paths.now
            → IfOk result
            (λ arrivals. AreArrivals labels st.groups limit start all arrivals.items) }
    {
        yv_base_tables::path_tree_laws::paths_have_fronts();
        let mut arrivals = Vec::new(alloc);
        arrivals.push(Arrival {
            path: 0,
            end: End::Start(start),
        })?;
        // Each time around all paths of one step more are found.
        let mut followed = 0;
        for _ in 0..paths.deepest() {
            if followed == arrivals.len() {
                break;
            }
            followed = self.places.deepen(limit, paths, followed, &mut arrivals)?;
        }
        Ok(arrivals)
    }
}
