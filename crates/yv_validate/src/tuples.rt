//! The tuples by which list entries differ.
ghost use Rattle.std.specs.Prelude.{◌≡◌, ◌∷◌, [], ◌++◌, ◌+◌, ◌<◌, length, map, min, Some, IfOk, OnOk};
ghost use Rattle.serde_json.specs.{Data.{Data}, View.{view}};
ghost use Rattle.yv_values.specs.Count.{count_up};
ghost use Rattle.yv_validate.specs.{InnerMemory.{RemembersEach}, InnerNotes.{HasTuples, list_tuple, tuple_in}, Faults.{unique_faults, unique_if}, Work.{uniques_work}, InnerPromises.{Reports}};
ghost use Rattle.yv_data_quiet.specs.NamedLeafs.{uniques_at};
ghost use Rattle.yv_data_faults.specs.Trails.{places, IsWithin};

use crate::memory::stood_before;
use crate::notes::Notes;
use crate::walk::Walk;
use serde_json::Value;
use std::alloc::AllocError;
use yv_data_faults::{FaultKind, Faults, Trail};
use yv_nodes::NodeId;
use yv_values::{Index, Meter, Tuple};

impl Walk<'_> {
    /// The values of these leafs at an entry, where it is an object and they are all there.
    pub(crate) fn tuple(
        &self,
        notes: &Option<Notes>,
        leafs: &[NodeId],
    ) -> Result<Option<Tuple>, AllocError>
        ensures { IfOk result
            (λ t. t ≡ tuple_in self.now.schema.now notes.now (map (λ n. Some n) leafs.now)) }
    {
        match notes {
            Some(notes) => notes.tuple(self.schema, leafs),
            None => Ok(None),
        }
    }

    /// An empty index for each `unique` statement of a list.
    pub(crate) fn no_tuples(&self, id: NodeId) -> Result<Vec<Index>, AllocError>
        requires { id.0 < length self.now.schema.now.nodes }
        ensures { IfOk result
            (λ v. RemembersEach v.items (list_tuple self.now.kind self.now.schema.now id)
            (uniques_at self.now.schema.now id) []) }
    {
        let mut uniques = Vec::new(self.alloc);
        for _statement in self.schema.uniques(id) {
            uniques.push(Index::new(self.alloc))?;
        }
        Ok(uniques)
    }

    /// What comes after an entry, whose leafs have these values, for the `unique` statements of its
    /// list.
    pub(crate) fn end_uniques(
        &self,
        id: NodeId,
        earlier: &[Value],
        notes: &Option<Notes>,
        kept: &mut Vec<Index>,
        here: &Trail<'_>,
        meter: &mut Meter,
        faults: &mut Faults,
    ) -> Result<(), AllocError>
        requires node { id.0 < length self.now.schema.now.nodes }
        requires way { IsWithin self.now.schema.now here.now }
        requires keeps { RemembersEach kept.now.items
            (list_tuple self.now.kind self.now.schema.now id) (uniques_at self.now.schema.now id)
            (map view earlier.now) }
        ensures faults { OnOk result
            ((d : Data) → HasTuples self.now.kind self.now.schema.now id notes.now d
            → faults.new.items ≡ faults.old.items
            ++ unique_faults (list_tuple self.now.kind self.now.schema.now id)
            (places self.now.schema.now here.now) 1 (uniques_at self.now.schema.now id)
            (map view earlier.now) d) }
        ensures keeps { OnOk result
            ((d : Data) → HasTuples self.now.kind self.now.schema.now id notes.now d
            → RemembersEach kept.new.items
            (list_tuple self.now.kind self.now.schema.now id) (uniques_at self.now.schema.now id)
            (map view earlier.now ++ d ∷ [])) }
        ensures steps { OnOk result
            ((d : Data) → HasTuples self.now.kind self.now.schema.now id notes.now d
            → count_up meter.new ≡ count_up (meter.old
            + uniques_work (list_tuple self.now.kind self.now.schema.now id)
            (uniques_at self.now.schema.now id) d)) }
    {
        let place = earlier.len() as u64 + 1;
        for (number, leafs) in self.schema.uniques(id).iter().enumerate() {
            let tuple = self.tuple(notes, leafs)?;
            let first = stood_before(tuple, place, &mut kept[number], meter)?;
            self.tell_unique(first, number, here, faults)?;
        }
        Ok(())
    }

    // Tells that an entry has the values of an earlier one, of this place, for the `unique`
    // statement after so many, where there is one.
    fn tell_unique(
        &self,
        first: Option<u64>,
        before: usize,
        here: &Trail<'_>,
        faults: &mut Faults,
    ) -> Result<(), AllocError>
        requires { IsWithin self.now.schema.now here.now }
        ensures { OnOk result (Reports faults.old faults.new
            (unique_if first (places self.now.schema.now here.now) (before + 1))) }
    {
        let number = before.saturating_add(1).min(4294967295) as u32;
        self.tell_repeat(first, FaultKind::Unique, number, here, faults)?;
        Ok(())
    }
}
