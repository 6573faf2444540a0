//! Sequences that are made of runs.
ghost use Rattle.std.specs.Prelude.{◌≡◌, ◌++◌, ◌∷◌, [], Some, length, slice_get, IfOk, IfSome, OnOk, OnErr};
ghost use Rattle.yv_expand_refines.specs.InnerJoints.{Grows};

use std::alloc::{AllocError, Global};
use std::collections::BTreeMap;

/// A sequence that goes on by a run from an earlier one, or from nothing.
#[derive(Clone, Copy, Debug, PartialEq, Eq, PartialOrd, Ord)]
pub(crate) struct Joint {
    pub front: Option<usize>,
    pub run: usize,
}

/// The sequences that were made, and where each is found again.
#[derive(Drop)]
pub(crate) struct Joints {
    pub made: Vec<Joint>,
    places: BTreeMap<Joint, usize>,
    // By run the place of a sequence that goes on by it: of copies that are alike each item goes on
    // as that of the copy before, and no sequence is looked up.
    latest: Vec<usize>,
}

impl Joints {
    /// No sequences.
    pub(crate) fn new(alloc: Global) -> Joints
        ensures { result.made.items ≡ [] }
    {
        Joints {
            made: Vec::new(alloc),
            places: BTreeMap::new(alloc),
            latest: Vec::new(alloc),
        }
    }

    /// How the sequence of a place goes on.
    pub(crate) fn at(&self, place: usize) -> Option<Joint>
        ensures { result ≡ slice_get self.now.made.items place }
    {
        self.made.get(place).copied()
    }

    // This place, if the sequence is there. That it is there is looked at, and not kept as a fact.
    fn if_made(&self, place: usize, joint: Joint) -> Option<usize>
        ensures { IfSome result (λ place. slice_get self.now.made.items place ≡ Some joint) }
    {
        if self.at(place) == Some(joint) {
            Some(place)
        } else {
            None
        }
    }

    // The place of a sequence, if it is the latest that goes on by its run.
    fn latest_place(&self, joint: Joint) -> Option<usize>
        ensures { IfSome result (λ place. slice_get self.now.made.items place ≡ Some joint) }
    {
        let place = *self.latest.get(joint.run)?;
        self.if_made(place, joint)
    }

    // The place of a sequence, if it was made.
    fn place(&self, joint: Joint) -> Option<usize>
        ensures { IfSome result (λ place. slice_get self.now.made.items place ≡ Some joint) }
    {
        let place = *self.places.get(&joint)?;
        self.if_made(place, joint)
    }

    // Notes the place of the latest sequence that goes on by a run. Runs come in the order of their
    // numbers; one that is far ahead isn't noted.
    fn note_latest(&mut self, run: usize, place: usize) -> Result<(), AllocError>
        ensures { self.new.made ≡ self.old.made }
    {
        if run < self.latest.len() {
            self.latest[run] = place;
        } else if run == self.latest.len() {
            self.latest.push(place)?;
        }
        Ok(())
    }

    // Makes a sequence after the others, and answers its place.
    fn make(&mut self, joint: Joint) -> Result<usize, AllocError>
        ensures place { IfOk result (λ place. place ≡ length self.old.made.items) }
        ensures makes { OnOk result (self.new.made.items ≡ self.old.made.items ++ joint ∷ []) }
        ensures err { OnErr result (self.new.made.items ≡ self.old.made.items) }
    {
        let place = self.made.len();
        self.places.insert(joint, place)?;
        self.note_latest(joint.run, place)?;
        self.made.push(joint)?;
        Ok(place)
    }

    /// The place of a sequence, which is made where it wasn't yet.
    pub(crate) fn of(&mut self, joint: Joint) -> Result<usize, AllocError>
        ensures place { IfOk result (λ place. slice_get self.new.made.items place ≡ Some joint) }
        ensures grows { OnOk result (Grows joint self.old.made.items self.new.made.items) }
        ensures err { OnErr result (self.new.made.items ≡ self.old.made.items) }
    {
        if let Some(place) = self.latest_place(joint) {
            return Ok(place);
        }
        match self.place(joint) {
            Some(place) => {
                self.note_latest(joint.run, place)?;
                Ok(place)
            }
            None => self.make(joint),
        }
    }
}
