//! Which refines change which items, where items that are changed alike share what changes them.
ghost use Rattle.std.specs.Prelude.{◌≡◌, ◌++◌, ◌∷◌, ◌<◌, ℕ, [], None, length, replicate, slice_index_or, slice_set, IfOk, IfSome, OnOk, OnErr};
ghost use Rattle.yv_expand_refines.specs.Changes.{each, sequence_at};

use crate::joints::{Joint, Joints};
use crate::places::Places;
use std::alloc::{AllocError, Global};
use std::marker::Model;

/// The changes of items: for each item of an expansion the refines that change it, in order; items
/// that are changed alike share one sequence of refines. A sequence goes on by a run of refines
/// from an earlier one, or from nothing, and each that is made so is kept once.
#[derive(Drop)]
pub struct Changes {
    runs: Vec<Vec<usize>>,
    joints: Joints,
    of: Places,
}

impl Model for Changes {
    ghost use Rattle.std.specs.{Prelude.{ℕ, map, length}, declared.alloc.Global.{Global}, declared.vec.Vec.{Vec}};
    ghost use Rattle.yv_expand_refines.specs.{Changes.{ChangesView}, InnerJoints.{AreJoined, sequences_of}, InnerPlaces.{places_in}};

    ghost Value = { ChangesView };

    ghost view = { λ c. record {
      runs = map (λ (v : Vec ℕ Global). v.items) c.runs.items;
      sequences = sequences_of (map (λ
          (v : Vec ℕ Global). v.items) c.runs.items) c.joints.made.items;
      of = places_in c.of;
    } };

    ghost invariant = { λ c. AreJoined (length c.runs.items) c.joints.made.items (places_in c.of) };
}

/// How a sequence continues an earlier one.
#[derive(Clone, Copy, Debug)]
pub struct Continuation<'c> {
    /// The place of the sequence from which it goes on, if there is one.
    pub front: Option<usize>,
    /// The numbers of the refines that it has after that.
    pub run: &'c [usize],
}

impl Changes {
    /// No changes to so many items. Err only if memory runs out.
    pub fn none(alloc: Global, count: usize) -> Result<Changes, AllocError>
        // There are no runs.
        ensures runs { IfOk result (λ c. c.runs ≡ []) }
        // There are no sequences.
        ensures sequences { IfOk result (λ c. c.sequences ≡ []) }
        // There are `count` items, and none has a sequence.
        ensures of { IfOk result (λ c. c.of ≡ replicate count None) }
    {
        Ok(Changes {
            runs: Vec::new(alloc),
            joints: Joints::new(alloc),
            of: Places::none(alloc, count),
        })
    }

    /// Keeps a run, and answers its number: how many there were before it. It changes nothing yet.
    /// Err only if memory runs out.
    pub fn add_run(&mut self, refines: Vec<usize>) -> Result<usize, AllocError>
        // The number of the run is how many runs there were.
        ensures number { IfOk result (λ number. number ≡ length self.old.runs) }
        // These refines become a run after the others.
        ensures runs { OnOk result (self.new.runs ≡ self.old.runs ++ refines.items ∷ []) }
        // The sequences stay.
        ensures sequences { self.new.sequences ≡ self.old.sequences }
        // So do the changes of items.
        ensures of { self.new.of ≡ self.old.of }
        // After an error all is as before.
        ensures err { OnErr result (self.new ≡ self.old) }
    {
        let number = self.runs.len();
        self.runs.push(refines)?;
        Ok(number)
    }

    // Gives an item a sequence that goes on from the one that it has.
    fn give(&mut self, item: usize, run: usize) -> Result<(), AllocError>
        requires item { item < length self.old.of }
        requires run { run < length self.old.runs }
        ensures notes { OnOk result (each self.new
            ≡ slice_set (each self.old) item
            (slice_index_or (each self.old) item [] ++ slice_index_or self.old.runs run [])) }
        ensures runs { self.new.runs ≡ self.old.runs }
        ensures err { OnErr result (self.new ≡ self.old) }
    {
        self.of.open()?;
        let front = self.of.get(item);
        let place = self.joints.of(Joint { front, run })?;
        self.of.put(item, place);
        Ok(())
    }

    /// Notes that the refines of a numbered run change an item, after those that do already. An
    /// item past the last changes nothing, and so does a run that isn't there. Takes time log n in
    /// sequences, whatever the run's length. Err only if memory runs out.
    pub fn note(&mut self, item: usize, run: usize) -> Result<(), AllocError>
        // The refines of the run change the item, after those that already do; the changes of other
        // items stay. An item past the last changes nothing, nor does a run that does not exist.
        ensures notes { OnOk result (each self.new
            ≡ slice_set (each self.old) item
            (slice_index_or (each self.old) item [] ++ slice_index_or self.old.runs run [])) }
        // The runs stay.
        ensures runs { self.new.runs ≡ self.old.runs }
        // After an error all is as before.
        ensures err { OnErr result (self.new ≡ self.old) }
    {
        if item >= self.of.len() || run >= self.runs.len() {
            return Ok(());
        }
        self.give(item, run)
    }

    /// How many different sequences there are.
    pub fn count(&self) -> usize
        ensures { result ≡ length self.now.sequences }
    {
        self.joints.made.len()
    }

    /// The place of the sequence of the refines that change an item, if one does.
    pub fn sequence(&self, item: usize) -> Option<usize>
        // The place of the item's sequence, if it has one, which is below `count`.
        ensures place { result ≡ slice_index_or self.now.of item None }
        // The refines that change the item are those of that sequence.
        ensures refines { slice_index_or (each self.now) item []
            ≡ sequence_at self.now.sequences result }
        // The place is that of a sequence.
        ensures within { IfSome result (λ place. place < length self.now.sequences) }
    {
        self.of.get(item)
    }

    // The refines of a run.
    fn run(&self, number: usize) -> &[usize]
        ensures { result.now ≡ slice_index_or self.now.runs number [] }
    {
        match self.runs.get(number) {
            Some(refines) => refines,
            None => &[],
        }
    }

    /// How a sequence is made, so that what is computed of it goes on from what was computed of the
    /// earlier one.
    pub fn link(&self, sequence: usize) -> Continuation<'_>
        // How a sequence is made: the one at the place `front`, if there is one, followed by the
        // refines of `run`.
        ensures sequence { slice_index_or self.now.sequences sequence []
            ≡ sequence_at self.now.sequences result.front ++ result.run.now }
        // The sequence at `front` is an earlier one.
        ensures before { IfSome result.front (λ front. front < sequence) }
    {
        match self.joints.at(sequence) {
            Some(joint) => Continuation {
                front: joint.front,
                run: self.run(joint.run),
            },
            None => Continuation {
                front: None,
                run: &[],
            },
        }
    }
}
