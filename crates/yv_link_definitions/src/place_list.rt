//! A list in which places are searched for.
ghost use Rattle.std.specs.Prelude.{◌≡◌, ℕ, None, true, OnOk};
ghost use Rattle.yv_link_definitions.specs.InnerOrder.{Rise};

use crate::place::{Place, are_before, find_there, first_there};
use std::alloc::{AllocError, Global};

/// A list of places of statements, each with its number. Where statements are in the order of files
/// and offsets, as where texts are read, a search takes time log n; otherwise it takes time linear
/// in the places.
#[derive(Drop)]
pub struct PlaceList {
    places: Vec<Place>,
    is_rising: bool,
    ghost rising: { is_rising ≡ true → Rise places.items },
}

impl PlaceList {
    ghost use Rattle.yv_link_definitions.specs.{Places.{placed_in}, InnerPlaces.{IsKept}};

    /// No places.
    pub(crate) fn new(alloc: Global) -> PlaceList
        ensures { (f o : ℕ) → placed_in result f o ≡ None }
    {
        PlaceList {
            places: Vec::new(alloc),
            is_rising: true,
        }
    }

    /// Adds a place after the others.
    pub(crate) fn add(&mut self, place: Place) -> Result<(), AllocError>
        ensures { OnOk result (IsKept place self.old self.new) }
    {
        let is_rising = self.is_rising && are_before(&self.places, place.file, place.offset);
        self.is_rising = is_rising;
        self.places.push(place)?;
        Ok(())
    }

    /// The number of the first of the statements that is at an offset (bytes) of a file.
    pub fn get(&self, file: u32, offset: u64) -> Option<usize>
        ensures { result ≡ placed_in self.now file offset }
    {
        if self.is_rising {
            find_there(&self.places, file, offset)
        } else {
            first_there(&self.places, file, offset)
        }
    }
}
