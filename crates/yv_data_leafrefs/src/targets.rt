//! The values of targets, and where they occur.
ghost use Rattle.std.specs.Prelude.{◌≡◌, ◌+◌, ◌⊎◌, [], ◌∷◌, OnErr, OnOk, IsTrue, ◌↔◌, option_map, unwrap_or};
ghost use Rattle.yv_values.specs.{Count.{count_up}, Pairs.{IsAlone, IsWithin}, Values.{Val}};
ghost use Rattle.yv_data_leafrefs.specs.Findings.{Gains, index_of};

use std::alloc::{AllocError, Global};
use std::collections::BTreeMap;
use std::marker::Model;
use yv_nodes::NodeId;
use yv_values::{Defaults, Index, Meter, Tuple, Value};

/// For each target an index of its values, each with the numbers of the objects where it occurs.
#[derive(Drop)]
pub(crate) struct Targets {
    alloc: Global,
    indexes: BTreeMap<u32, Index>,
}

impl Model for Targets {
    ghost use Rattle.yv_data_leafrefs.specs.Findings.{Indexes};

    ghost Value = { Indexes };

    ghost view = { λ t. t.indexes.entries };
}

impl Targets {
    /// Indexes that keep nothing.
    pub(crate) fn new(alloc: Global) -> Targets
        ensures { result ≡ [] }
    {
        Targets {
            alloc,
            indexes: BTreeMap::new(alloc),
        }
    }

    /// Keeps a value of a target. It counts no step: it is part of the visit that calls it.
    pub(crate) fn keep(
        &mut self,
        target: NodeId,
        value: Value,
        place: u64,
    ) -> Result<(), AllocError>
        ensures keeps { OnOk result
            (Gains self.old self.new
            (record { target = target.0; value = value; place = place } ∷ [])) }
        ensures same { OnErr result (self.new ≡ self.old) }
    {
        let mut key = Tuple::new(self.alloc);
        key.push(value)?;
        match self.indexes.get_mut(&target.0) {
            Some(index) => index.keep(key, place),
            None => self.keep_first(target, key, place),
        }
    }

    // Keeps the first value of a target.
    fn keep_first(&mut self, target: NodeId, key: Tuple, place: u64) -> Result<(), AllocError>
        requires { index_of self.old target.0 ≡ [] }
        ensures keeps { OnOk result
            ((v : Val) → key ≡ v ∷ []
            → Gains self.old self.new
            (record { target = target.0; value = v; place = place } ∷ [])) }
        ensures same { OnErr result (self.new ≡ self.old) }
    {
        let mut index = Index::new(self.alloc);
        index.keep(key, place)?;
        self.indexes.insert(target.0, index)?;
        Ok(())
    }

    /// Whether a value of a target was kept at a place from the first to the last, both included,
    /// or is one of these others, the target's defaults. It is one step.
    pub(crate) fn within_or_among(
        &self,
        meter: &mut Meter,
        target: NodeId,
        key: &Tuple,
        first: u64,
        last: u64,
        others: Option<&Defaults>,
    ) -> bool
        ensures finds { IsTrue result ↔
            (IsWithin (index_of self.now target.0) key.now first last
            ⊎ IsAlone key.now (unwrap_or (option_map (λ o. o.now) others.entry) [])) }
        ensures steps { meter.new ≡ count_up (meter.old + 1) }
    {
        match self.indexes.get(&target.0) {
            Some(index) => index.within_or_among(meter, key, first, last, others),
            None => {
                let none = Index::new(self.alloc);
                none.within_or_among(meter, key, first, last, others)
            }
        }
    }
}
