//! Where the defaults of targets are in use.
ghost use Rattle.std.specs.Prelude.{◌≡◌, [], ◌∷◌, OnErr, OnOk, IsTrue, ◌↔◌};
ghost use Rattle.yv_values.specs.Places.{HasBetween};
ghost use Rattle.yv_data_leafrefs.specs.Findings.{places_of, Spreads};

use std::alloc::{AllocError, Global};
use std::collections::BTreeMap;
use std::marker::Model;
use yv_nodes::NodeId;
use yv_values::KeyPlaces;

/// For each target the numbers of the objects in which its defaults are in use. The values
/// themselves are only in the schema: a long default costs the same for each object as a short one,
/// and many cost the same as one.
#[derive(Drop)]
pub(crate) struct Uses {
    places: BTreeMap<u32, KeyPlaces>,
}

impl Model for Uses {
    ghost use Rattle.yv_data_leafrefs.specs.Findings as findings;

    ghost Value = { findings.Uses };

    ghost view = { λ u. u.places.entries };
}

impl Uses {
    /// No defaults in use.
    pub(crate) fn new(alloc: Global) -> Uses
        ensures { result ≡ [] }
    {
        Uses {
            places: BTreeMap::new(alloc),
        }
    }

    /// Adds a place where the defaults of a target are in use. It costs least where its places come
    /// in ascending order.
    pub(crate) fn add(
        &mut self,
        alloc: Global,
        target: NodeId,
        place: u64,
    ) -> Result<(), AllocError>
        ensures adds { OnOk result
            (Spreads self.old self.new (record { target = target.0; place = place } ∷ [])) }
        ensures same { OnErr result (self.new ≡ self.old) }
    {
        match self.places.get_mut(&target.0) {
            Some(places) => places.add(place),
            None => self.add_first(alloc, target, place),
        }
    }

    // Adds the first place of a target.
    fn add_first(&mut self, alloc: Global, target: NodeId, place: u64) -> Result<(), AllocError>
        requires { places_of self.old target.0 ≡ [] }
        ensures adds { OnOk result
            (Spreads self.old self.new (record { target = target.0; place = place } ∷ [])) }
        ensures same { OnErr result (self.new ≡ self.old) }
    {
        let places = KeyPlaces::new(alloc, place)?;
        self.places.insert(target.0, places)?;
        Ok(())
    }

    /// Whether the defaults of a target are in use at a place from the first to the last, both
    /// included.
    pub(crate) fn is_within(&self, target: NodeId, first: u64, last: u64) -> bool
        ensures { IsTrue result ↔ HasBetween (places_of self.now target.0) first last }
    {
        match self.places.get(&target.0) {
            Some(places) => places.is_within(first, last),
            None => false,
        }
    }
}
