//! Places where something was kept.
ghost use Rattle.std.specs.{Prelude.{◌≡◌, ℕ, ◌≤◌, ◌<◌, [], ◌∷◌, IfOk, OnOk, OnErr, IsTrue, ◌↔◌, length, slice_index}, List.Sorted.{IsNonDecreasing}};
ghost use Rattle.yv_values.specs.Places.{AddsPlace, IsLeastPlace, HasBetween};

use std::alloc::{AllocError, Global};
use std::marker::Model;

/// The places, one or more, where a key was kept, in ascending order. One takes no memory of its
/// own, since most keys are kept at one place; of more each takes eight bytes.
#[derive(Drop)]
pub struct KeyPlaces {
    alloc: Global,
    kept: PlaceList,
}

// One place, or a list of them.
#[derive(Drop)]
pub(crate) enum PlaceList {
    One(u64),
    Many(Box<Vec<u64>>),
}

impl Model for KeyPlaces {
    ghost use Rattle.std.specs.{Prelude.{ℕ, ◌<◌, List, length}, List.Sorted.{IsNonDecreasing}};
    ghost use Rattle.yv_values.specs.InnerPlaces.{places_of};

    ghost Value = { List ℕ };

    ghost view = { λ p. places_of p.kept };

    ghost invariant = { λ p. (0 < length (places_of p.kept)) × IsNonDecreasing (places_of p.kept) };
}

impl KeyPlaces {
    /// One place.
    pub fn new(alloc: Global, place: u64) -> Result<KeyPlaces, AllocError>
        ensures { IfOk result (λ places. places ≡ place ∷ []) }
    {
        Ok(KeyPlaces::one(alloc, place))
    }

    // One place; no memory is asked for.
    pub(crate) fn one(alloc: Global, place: u64) -> KeyPlaces
        ensures { result ≡ place ∷ [] }
    {
        KeyPlaces {
            alloc,
            kept: PlaceList::One(place),
        }
    }

    /// Adds a place; it costs least where the places come in ascending order.
    pub fn add(&mut self, place: u64) -> Result<(), AllocError>
        // The place is among them.
        ensures adds { OnOk result (AddsPlace self.old self.new place) }
        // Nothing changes if memory was refused.
        ensures same { OnErr result (self.new ≡ self.old) }
    {
        match &mut self.kept {
            PlaceList::One(first) => {
                let both = two(self.alloc, *first, place)?;
                self.kept = PlaceList::Many(Box::new(self.alloc, both)?);
                Ok(())
            }
            PlaceList::Many(places) => add_to(places, place),
        }
    }

    pub(crate) fn least(&self) -> u64
        ensures { IsLeastPlace self.now result }
    {
        self.as_slice()[0]
    }

    /// Whether one of the places lies from the first to the last, both included.
    pub fn is_within(&self, first: u64, last: u64) -> bool
        ensures { IsTrue result ↔ HasBetween self.now first last }
    {
        let places = self.as_slice();
        let at = count_below(places, first);
        at < places.len() && places[at] <= last
    }

    // They, in ascending order.
    fn as_slice(&self) -> &[u64]
        ensures value { result.now ≡ self.now }
        ensures some { 0 < length result.now }
        ensures order { IsNonDecreasing result.now }
    {
        match &self.kept {
            PlaceList::One(place) => std::slice::from_ref(place),
            PlaceList::Many(places) => places.as_slice(),
        }
    }
}

// Two places, in ascending order.
fn two(alloc: Global, first: u64, place: u64) -> Result<Vec<u64>, AllocError>
    ensures adds { IfOk result (λ both. AddsPlace (first ∷ []) both.items place) }
    ensures some { IfOk result (λ both. 0 < length both.items) }
    ensures order { IfOk result (λ both. IsNonDecreasing both.items) }
{
    let mut both = Vec::new(alloc);
    both.push(first)?;
    add_to(&mut both, place)?;
    Ok(both)
}

// Adds a place to others.
fn add_to(places: &mut Vec<u64>, place: u64) -> Result<(), AllocError>
    requires some { 0 < length places.old.items }
    requires order { IsNonDecreasing places.old.items }
    ensures adds { OnOk result (AddsPlace places.old.items places.new.items place) }
    ensures same { OnErr result (places.new.items ≡ places.old.items) }
    ensures some { 0 < length places.new.items }
    ensures order { IsNonDecreasing places.new.items }
{
    let at = count_below(places.as_slice(), place);
    places.insert(at, place)?;
    Ok(())
}

// How many of these places are below this one.
fn count_below(places: &[u64], place: u64) -> usize
    requires { IsNonDecreasing places.now }
    ensures bound { result ≤ length places.now }
    ensures below { (k : ℕ) → k < result → slice_index places.now k < place }
    ensures above { (k : ℕ) → result ≤ k → k < length places.now → place
        ≤ slice_index places.now k }
{
    places.partition_point(|other| *other < place)
}
