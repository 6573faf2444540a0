//! The augments of modules, which are applied in rounds. How far the path of each was followed is
//! kept, so that no step is made twice, unless an item comes before another of its name that was
//! met.
ghost use Rattle.std.specs.Prelude.{◌≡◌, ◌<◌, ◌≤◌, ◌+◌, [], ℕ, List, length, map, false, Some, slice_get, IfOk, OnOk, replicate, if◌then◌else◌};
ghost use Rattle.yv_expand_rounds.specs.{declared.label.Label.{Label}, declared.end.End.TheVariants.{Start}, declared.trail.Trail.{Trail}, Paths.{path_end}, Turns.{State, turn, is_taken}, Rounds.{AreApplied, round, is_any}, InnerHiddenNodes.{IsClosed}, InnerState.{IsAugmentation, count_left}, InnerPendingPaths.{AreWaiting, IsTrail, StillLead}};

use crate::augmentation::Augmentation;
use crate::end::End;
use crate::hidden_nodes::HiddenNodes;
use crate::trail::Trail;
use std::alloc::{AllocError, Global};

/// What is known of the paths of augments that wait: how far each was followed, and which nodes no
/// path meets any more.
#[derive(Drop)]
pub(crate) struct PathProgress {
    pub trails: Vec<Trail>,
    pub hidden: HiddenNodes,
}

impl PathProgress {
    // So many paths, of which none was followed yet among so many items.
    fn new(alloc: Global, paths: usize, items: usize) -> Result<PathProgress, AllocError>
        ensures trails { IfOk result (λ waiting. length waiting.trails.items ≡ paths) }
        ensures new { IfOk result
            (λ waiting. (j : ℕ) (t : Trail) → slice_get waiting.trails.items j ≡ Some t
            → t.ends.items ≡ []) }
        ensures hides { IfOk result
            (λ waiting. waiting.hidden.marks.items ≡ replicate items false) }
    {
        let mut trails = Vec::new(alloc);
        for _ in 0..paths {
            trails.push(Trail::new(alloc))?;
        }
        let hidden = HiddenNodes::new(alloc, items)?;
        Ok(PathProgress { trails, hidden })
    }
}

impl Augmentation {
    // Follows a path on from where it was left. Answers where it ends, if it leads anywhere.
    fn follow_on(
        &self,
        path: &[usize],
        trail: &mut Trail,
        hidden: &HiddenNodes,
    ) -> Result<Option<End>, AllocError>
        ensures end { (labels : List Label) (st : State) → IsAugmentation labels st self.now
            → IsTrail labels st.groups hidden.now.marks.items path.now trail.old.ends.items
            → IfOk result
            (λ end. end ≡ path_end labels st.groups (length labels) path.now (Start 0)) }
        ensures trail { (labels : List Label) (st : State) → IsAugmentation labels st self.now
            → IsTrail labels st.groups hidden.now.marks.items path.now trail.old.ends.items
            → OnOk result
            (IsTrail labels st.groups hidden.now.marks.items path.now trail.new.ends.items) }
    {
        trail.retreat(hidden);
        self.places.follow(path, trail)?;
        Ok(trail.end_of(path))
    }

    // An augment of a module has its turn. Tells whether it was applied.
    fn turn_from_top(
        &mut self,
        number: usize,
        path: &[usize],
        trail: &mut Trail,
        hidden: &mut HiddenNodes,
    ) -> Result<bool, AllocError>
        requires { number < length self.old.ends.items }
        ensures state { (labels : List Label) (st : State) → IsAugmentation labels st self.old
            → IsTrail labels st.groups hidden.old.marks.items path.now trail.old.ends.items
            → OnOk result
            (IsAugmentation labels (turn labels number 0 (length labels) path.now st) self.new) }
        ensures takes { (labels : List Label) (st : State) → IsAugmentation labels st self.old
            → IsTrail labels st.groups hidden.old.marks.items path.now trail.old.ends.items
            → IfOk result
            (λ applied. applied ≡ is_taken labels number 0 (length labels) path.now st) }
        ensures trail { (labels : List Label) (st : State) → IsAugmentation labels st self.old
            → IsClosed labels st.groups hidden.old.marks.items
            → IsTrail labels st.groups hidden.old.marks.items path.now trail.old.ends.items
            → OnOk result
            (IsTrail labels (turn labels number 0 (length labels) path.now st).groups
            hidden.new.marks.items
            path.now trail.new.ends.items) }
        ensures others { (labels : List Label) (st : State) → IsAugmentation labels st self.old
            → IsClosed labels st.groups hidden.old.marks.items
            → IsTrail labels st.groups hidden.old.marks.items path.now trail.old.ends.items
            → OnOk result
            (StillLead labels st.groups (turn labels number 0 (length labels) path.now st).groups
            hidden.old.marks.items hidden.new.marks.items) }
        ensures leaves { IfOk result
            (λ applied. count_left self.new.ends.items + (if applied then 1 else 0)
            ≡ count_left self.old.ends.items) }
        ensures each { length self.new.ends.items ≡ length self.old.ends.items }
    {
        let end = self.follow_on(path, trail, hidden)?;
        let (applied, displaced) = self.settle(number, end)?;
        hidden.update(&self.places, end, &displaced)?;
        Ok(applied)
    }

    // A round: each augment in order that isn't applied is, if its target is there. Tells whether
    // one was.
    fn round(
        &mut self,
        first: usize,
        paths: &[Vec<usize>],
        waiting: &mut PathProgress,
    ) -> Result<bool, AllocError>
        requires augments { first + length paths.now ≤ length self.old.ends.items }
        requires trails { length waiting.old.trails.items ≡ length paths.now }
        ensures state { (labels : List Label) (st : State) → IsAugmentation labels st self.old
            → AreWaiting labels st.groups (map (λ p. p.items) paths.now) waiting.old
            → OnOk result
            (IsAugmentation labels (round labels first (map (λ p. p.items) paths.now) st)
            self.new) }
        ensures any { (labels : List Label) (st : State) → IsAugmentation labels st self.old
            → AreWaiting labels st.groups (map (λ p. p.items) paths.now) waiting.old
            → IfOk result (λ any. any ≡ is_any labels first (map (λ p. p.items) paths.now) st) }
        ensures waits { (labels : List Label) (st : State) → IsAugmentation labels st self.old
            → AreWaiting labels st.groups (map (λ p. p.items) paths.now) waiting.old
            → OnOk result
            (AreWaiting labels (round labels first (map (λ p. p.items) paths.now) st).groups
            (map (λ p. p.items) paths.now) waiting.new) }
        ensures leaves { IfOk result
            (λ any. count_left self.new.ends.items + (if any then 1 else 0)
            ≤ count_left self.old.ends.items) }
        ensures each { length self.new.ends.items ≡ length self.old.ends.items }
        ensures trails { length waiting.new.trails.items ≡ length waiting.old.trails.items }
    {
        let _count = self.ends.len();
        let mut any = false;
        for (index, path) in paths.iter().enumerate() {
            let trail = &mut waiting.trails[index];
            let applied = self.turn_from_top(first + index, path, trail, &mut waiting.hidden)?;
            any |= applied;
        }
        Ok(any)
    }

    // Applies augments in rounds.
    fn run_rounds(&mut self, first: usize, paths: &[Vec<usize>]) -> Result<(), AllocError>
        requires { first + length paths.now ≤ length self.old.ends.items }
        ensures { (labels : List Label) (st : State) → IsAugmentation labels st self.old
            → OnOk result
            ((new : State) × AreApplied labels first (map (λ p. p.items) paths.now) st new
            × IsAugmentation labels new self.new) }
    {
        let mut waiting = PathProgress::new(
            self.places.alloc,
            paths.len(),
            self.places.labels.len(),
        )?;
        while self.round(first, paths, &mut waiting)? {}
        Ok(())
    }

    /// Applies augments of modules in rounds, the first of them having this number and all paths
    /// beginning at the top: a round goes through those that aren't applied, in order, and applies
    /// each whose target is there; a round that applies none is the last (RFC 7950, section 7.17).
    /// Where memory runs out, some may have been applied: nothing is left then.
    pub fn run(mut self, first: usize, paths: &[Vec<usize>]) -> Result<Augmentation, AllocError>
        ensures { (labels : List Label) (st : State) → IsAugmentation labels st self → first
            + length paths.now ≤ length st.ends
            → IfOk result
            (λ augmentation. (new : State)
            × AreApplied labels first (map (λ p. p.items) paths.now) st new
            × IsAugmentation labels new augmentation) }
    {
        if paths.is_empty() {
            return Ok(self);
        }
        let count = self.ends.len();
        if first > count || paths.len() > count - first {
            return Ok(self);
        }
        self.run_rounds(first, paths)?;
        Ok(self)
    }
}
