//! Nodes to which no path from the top leads any more.
ghost use Rattle.std.specs.Prelude.{◌≡◌, ℕ, true, false, List, Some, length, replicate, IfOk, OnOk, slice_get};
ghost use Rattle.yv_expand_rounds.specs.{declared.label.Label.{Label}, Groups.{Groups}, declared.end.End.TheVariants.{Node}, InnerGroups.{ArePlaces, IsOneOf}, InnerHiddenNodes.{Hides, Spreads, Updates, is_hidden, is_hidden_at, count_shown}};

use crate::end::End;
use crate::places::ItemPlaces;
use std::alloc::{AllocError, Global};

/// The items that are hidden: nodes that were the first of their name until another came before
/// them, and all that is below such a node. No path from the top leads there any more.
#[derive(Drop)]
pub(crate) struct HiddenNodes {
    pub marks: Vec<bool>,
}

impl HiddenNodes {
    /// None of so many items is hidden.
    pub(crate) fn new(alloc: Global, count: usize) -> Result<HiddenNodes, AllocError>
        ensures { IfOk result (λ hidden. hidden.marks.items ≡ replicate count false) }
    {
        let mut marks = Vec::new(alloc);
        for _ in 0..count {
            marks.push(false)?;
        }
        Ok(HiddenNodes { marks })
    }

    // Whether an item is hidden. What isn't there is.
    fn is_hidden(&self, item: usize) -> bool
        ensures { result ≡ is_hidden self.now.marks.items item }
    {
        match self.marks.get(item) {
            Some(mark) => *mark,
            None => true,
        }
    }

    /// Whether a path that ends there ends at a hidden node.
    pub(crate) fn has(&self, end: End) -> bool
        ensures { result ≡ is_hidden_at self.now.marks.items end }
    {
        match end {
            End::Start(_) => false,
            End::Node(item) => self.is_hidden(item),
            End::ShorthandCase(item) => self.is_hidden(item),
        }
    }

    // Hides an item, which is found so, if it wasn't hidden yet.
    fn hide(&mut self, item: usize, found: &mut Vec<usize>) -> Result<(), AllocError>
        ensures covers { OnOk result (is_hidden self.new.marks.items item ≡ true) }
        ensures hides { OnOk result
            (Hides self.old.marks.items self.new.marks.items found.old.items found.new.items) }
    {
        if !self.is_hidden(item) {
            self.marks[item] = true;
            found.push(item)?;
        }
        Ok(())
    }

    // Hides items.
    fn hide_all(&mut self, items: &[usize], found: &mut Vec<usize>) -> Result<(), AllocError>
        ensures covers { OnOk result
            ((place item : ℕ) → slice_get items.now place ≡ Some item
            → is_hidden self.new.marks.items item ≡ true) }
        ensures hides { OnOk result
            (Hides self.old.marks.items self.new.marks.items found.old.items found.new.items) }
    {
        for item in items {
            self.hide(*item, found)?;
        }
        Ok(())
    }

    // Hides all that is below these items.
    fn hide_below(&mut self, places: &ItemPlaces, mut found: Vec<usize>) -> Result<(), AllocError>
        ensures { (labels : List Label) (groups : Groups) → ArePlaces labels groups places.now
            → OnOk result (Spreads groups self.old.marks.items self.new.marks.items found.items) }
    {
        let mut place = 0;
        while place < found.len() {
            let item = found[place];
            self.hide_all(places.children(item), &mut found)?;
            place += 1;
        }
        Ok(())
    }

    // The node at this end, if it is hidden.
    fn hidden_at(&self, alloc: Global, end: Option<End>) -> Result<Vec<usize>, AllocError>
        ensures { IfOk result
            (λ found. (item : ℕ) → end ≡ Some (Node item) → is_hidden self.now.marks.items item
            ≡ true
            → IsOneOf found.items item) }
    {
        let mut found = Vec::new(alloc);
        if let Some(End::Node(item)) = end {
            if self.is_hidden(item) {
                found.push(item)?;
            }
        }
        Ok(found)
    }

    /// Hides nodes that were displaced when others were moved below the node at this end, and all
    /// that is below hidden nodes.
    pub(crate) fn update(
        &mut self,
        places: &ItemPlaces,
        end: Option<End>,
        displaced: &[usize],
    ) -> Result<(), AllocError>
        ensures { (labels : List Label) (groups : Groups) → ArePlaces labels groups places.now
            → OnOk result
            (Updates groups self.old.marks.items self.new.marks.items end displaced.now) }
    {
        let mut found = self.hidden_at(places.alloc, end)?;
        self.hide_all(displaced, &mut found)?;
        self.hide_below(places, found)?;
        Ok(())
    }
}
