//! For each item a place, where most items have none.
ghost use Rattle.std.specs.Prelude.{◌≡◌, ◌<◌, None, Some, length, replicate, set, slice_index_or, OnOk};

use std::alloc::{AllocError, Global};

/// For each of so many items a place, if it has one. While none has one there is no list.
#[derive(Drop)]
pub(crate) struct Places {
    alloc: Global,
    count: usize,
    given: Vec<Option<usize>>,
    ghost all: { 0 < length given.items → length given.items ≡ count },
}

impl Places {
    ghost use Rattle.yv_expand_refines.specs.InnerPlaces.{places_in};

    /// No places.
    pub(crate) fn none(alloc: Global, count: usize) -> Places
        ensures { places_in result ≡ replicate count None }
    {
        Places {
            alloc,
            count,
            given: Vec::new(alloc),
        }
    }

    /// How many items there are.
    pub(crate) fn len(&self) -> usize
        ensures { result ≡ length (places_in self.now) }
    {
        let _given = self.given.len();
        self.count
    }

    /// The place of an item, if it has one.
    pub(crate) fn get(&self, item: usize) -> Option<usize>
        ensures { result ≡ slice_index_or (places_in self.now) item None }
    {
        self.given.get(item).copied().unwrap_or(None)
    }

    /// Makes the list, if there is none. The places stay.
    pub(crate) fn open(&mut self) -> Result<(), AllocError>
        ensures same { places_in self.new ≡ places_in self.old }
        ensures opens { OnOk result (length self.new.given.items ≡ length (places_in self.new)) }
    {
        if self.given.is_empty() {
            self.given = vec![in self.alloc; None; self.count]?;
        }
        Ok(())
    }

    /// Gives an item a place, where there is a list.
    pub(crate) fn put(&mut self, item: usize, place: usize)
        requires { item < length self.old.given.items }
        ensures { places_in self.new ≡ set (places_in self.old) item (Some place) }
    {
        self.given[item] = Some(place);
    }
}
