//! Indexes: which keys were kept, and where.
ghost use Rattle.std.specs.Prelude.{◌≡◌, true, false, ℕ, ◌+◌, ◌≤◌, ◌⊎◌, [], is_ok, IfOk, OnOk, OnErr, IsTrue, ◌↔◌, if◌then◌else◌, unwrap_or, option_map};
ghost use Rattle.yv_values.specs.{Count.{count_up}, Pairs.{Keeps, IsLeast, Adds, AddsIfNone, IsAlone, IsWithin}};

use crate::defaults::Defaults;
use crate::key::Key;
use crate::meter::Meter;
use crate::places::KeyPlaces;
use crate::value::Tuple;
use std::alloc::{AllocError, Global};
use std::collections::BTreeMap;
use std::marker::Model;

/// An index of keys: which were kept, and where. A key is a tuple of values; the least place and
/// the membership of a key are what can be asked. Keys are found by their order, and the places of
/// a key by theirs.
#[derive(Drop)]
pub struct Index {
    alloc: Global,
    places: BTreeMap<Key, KeyPlaces>,
}

impl Model for Index {
    ghost use Rattle.std.specs.Prelude.{List};
    ghost use Rattle.yv_values.specs.{Pairs.{Pair}, InnerPlaces.{pairs_of, AreApart}};

    ghost Value = { List Pair };

    ghost view = { λ i. pairs_of i.places.entries };

    ghost invariant = { λ i. AreApart i.places.entries };
}

impl Index {
    /// An index that keeps nothing.
    pub fn new(alloc: Global) -> Index
        ensures { result ≡ [] }
    {
        Index {
            alloc,
            places: BTreeMap::new(alloc),
        }
    }

    /// Keeps a key and its place. It counts no step: it is part of the visit or check that calls
    /// it. It costs least where the places of a key come in ascending order.
    pub fn keep(&mut self, key: Tuple, place: u64) -> Result<(), AllocError>
        // The pair is kept.
        ensures keeps { OnOk result (Adds self.old self.new key place) }
        // Nothing changes if memory was refused.
        ensures same { OnErr result (self.new ≡ self.old) }
    {
        if self.add(&key, place)? {
            return Ok(());
        }
        self.keep_new(key, place)
    }

    /// The least place that was kept with the same key; where there is none the pair is kept. It is
    /// one step.
    pub fn keep_first(
        &mut self,
        meter: &mut Meter,
        key: Tuple,
        place: u64,
    ) -> Result<Option<u64>, AllocError>
        // The least place of the key, or else the pair is kept; one step.
        ensures least { IfOk result (λ found. IsLeast self.old key found) }
        // Where there is none, the pair is kept, and else all stays.
        ensures keeps { AddsIfNone result self.old self.new key place }
        // One step is counted, unless memory runs out.
        ensures steps { meter.new ≡ (if is_ok result then count_up (meter.old + 1) else meter.old) }
    {
        let found = self.find_or_keep(key, place)?;
        meter.visit();
        Ok(found)
    }

    /// Whether the same key was kept at a place from the first to the last, both included. It is
    /// one step.
    pub fn within(&self, meter: &mut Meter, key: &Tuple, first: u64, last: u64) -> bool
        // Whether the key was kept at a place from the first to the last.
        ensures finds { IsTrue result ↔ IsWithin self.now key.now first last }
        // One step.
        ensures steps { meter.new ≡ count_up (meter.old + 1) }
    {
        meter.visit();
        self.is_within(key, first, last)
    }

    /// Whether the same key was kept at a place from the first to the last, both included, or is
    /// one of these other values, alone. It is one step.
    pub fn within_or_among(
        &self,
        meter: &mut Meter,
        key: &Tuple,
        first: u64,
        last: u64,
        others: Option<&Defaults>,
    ) -> bool
        // Whether the key was kept at a place from the first to the last, or is one of these other
        // values alone.
        ensures finds { IsTrue result ↔
            (IsWithin self.now key.now first last
            ⊎ IsAlone key.now (unwrap_or (option_map (λ o. o.now) others.entry) [])) }
        // One step.
        ensures steps { meter.new ≡ count_up (meter.old + 1) }
    {
        meter.visit();
        self.is_within(key, first, last) || is_among(key, others)
    }

    // The least place that was kept with the same key; where there is none the pair is kept. It
    // counts no step, and takes one search.
    pub(crate) fn find_or_keep(&mut self, key: Tuple, place: u64) -> Result<Option<u64>, AllocError>
        ensures least { IfOk result (λ found. IsLeast self.old key found) }
        ensures keeps { AddsIfNone result self.old self.new key place }
    {
        let count = self.places.len();
        let first = KeyPlaces::one(self.alloc, place);
        let least = self.places.entry(key.into_key())?.or_insert(first).least();
        if self.places.len() == count {
            return Ok(Some(least));
        }
        Ok(None)
    }

    // The same as `within`, and counts no step.
    pub(crate) fn is_within(&self, key: &Tuple, first: u64, last: u64) -> bool
        ensures { IsTrue result ↔ IsWithin self.now key.now first last }
    {
        match self.places.get(key.as_key()) {
            Some(places) => places.is_within(first, last),
            None => false,
        }
    }

    // Adds a place to those of a key, where there are some, and says whether there are.
    fn add(&mut self, key: &Tuple, place: u64) -> Result<bool, AllocError>
        ensures adds { IfOk result (λ known. known ≡ true → Adds self.old self.new key.now place) }
        ensures none { IfOk result
            (λ known. known ≡ false → (self.new ≡ self.old)
            × ((p : ℕ) → Keeps self.old key.now p → ⊥)) }
        ensures same { OnErr result (self.new ≡ self.old) }
    {
        match self.places.get_mut(key.as_key()) {
            Some(places) => places.add(place)?,
            None => return Ok(false),
        }
        Ok(true)
    }

    // Keeps a key that wasn't kept before.
    fn keep_new(&mut self, key: Tuple, place: u64) -> Result<(), AllocError>
        requires { (p : ℕ) → Keeps self.old key p → ⊥ }
        ensures keeps { OnOk result (Adds self.old self.new key place) }
        ensures same { OnErr result (self.new ≡ self.old) }
    {
        let places = KeyPlaces::one(self.alloc, place);
        self.places.insert(key.into_key(), places)?;
        Ok(())
    }
}

// Whether the key is one of these values, alone.
fn is_among(key: &Tuple, others: Option<&Defaults>) -> bool
    ensures { IsTrue result
        ↔ IsAlone key.now (unwrap_or (option_map (λ o. o.now) others.entry) []) }
{
    match others {
        Some(values) => values.has(key),
        None => false,
    }
}
