//! The places that paths lead through, as a tree.
use crate::places::DocumentStep;
use crate::tokens::Container;
use std::alloc::{AllocError, Global};
use std::collections::BTreeMap;

/// The place of the whole document.
pub(crate) const TOP: usize = 0;

// The places to which a place leads on: those of members of an object, and of items of an array.
// Names are chosen by strangers, so they are kept in order.
#[derive(Drop)]
struct Branches {
    members: BTreeMap<Vec<u8>, usize>,
    items: BTreeMap<u64, usize>,
}

impl Branches {
    fn new(alloc: Global) -> Branches {
        Branches {
            members: BTreeMap::new(alloc),
            items: BTreeMap::new(alloc),
        }
    }
}

/// The places that paths lead through. Each has a number: that of the whole document is 0.
#[derive(Drop)]
pub(crate) struct PlaceTree {
    branches: Vec<Branches>,
}

impl PlaceTree {
    /// The places of these paths.
    pub(crate) fn of_paths(
        alloc: Global,
        paths: &[Vec<DocumentStep>],
    ) -> Result<PlaceTree, AllocError> {
        let mut tree = PlaceTree {
            branches: Vec::new(alloc),
        };
        tree.add_place(alloc)?;
        for path in paths {
            tree.add_path(alloc, path)?;
        }
        Ok(tree)
    }

    /// How many places there are.
    pub(crate) fn len(&self) -> usize {
        self.branches.len()
    }

    // One more place, from which nothing leads on.
    fn add_place(&mut self, alloc: Global) -> Result<usize, AllocError> {
        let number = self.branches.len();
        self.branches.push(Branches::new(alloc))?;
        Ok(number)
    }

    fn add_path(&mut self, alloc: Global, path: &[DocumentStep]) -> Result<(), AllocError> {
        let mut place = TOP;
        for step in path {
            place = self.add_member(alloc, place, step.member.as_bytes())?;
            if let Some(item) = step.item {
                place = self.add_item(alloc, place, item)?;
            }
        }
        Ok(())
    }

    // The place of a member of the object at a place.
    fn add_member(
        &mut self,
        alloc: Global,
        place: usize,
        name: &[u8],
    ) -> Result<usize, AllocError> {
        if let Some(known) = self.member(place, name) {
            return Ok(known);
        }
        let number = self.add_place(alloc)?;
        if let Some(branches) = self.branches.get_mut(place) {
            branches.members.insert(name.to_vec(alloc)?, number)?;
        }
        Ok(number)
    }

    // The place of an item of the array at a place.
    fn add_item(&mut self, alloc: Global, place: usize, item: u64) -> Result<usize, AllocError> {
        if let Some(known) = self.item(place, item) {
            return Ok(known);
        }
        let number = self.add_place(alloc)?;
        if let Some(branches) = self.branches.get_mut(place) {
            branches.items.insert(item, number)?;
        }
        Ok(number)
    }

    /// The place of a member of the object at a place, where a path leads to it.
    pub(crate) fn member(&self, place: usize, name: &[u8]) -> Option<usize> {
        self.branches.get(place)?.members.get(name).copied()
    }

    /// The place of an item of the array at a place, by its number from 1, where a path leads to
    /// it.
    pub(crate) fn item(&self, place: usize, item: u64) -> Option<usize> {
        self.branches.get(place)?.items.get(&item).copied()
    }

    /// Whether a path leads into an object or an array at a place.
    pub(crate) fn leads_into(&self, place: usize, container: Container) -> bool {
        match (self.branches.get(place), container) {
            (Some(branches), Container::Object) => !branches.members.is_empty(),
            (Some(branches), Container::Array) => !branches.items.is_empty(),
            (None, _) => false,
        }
    }
}
