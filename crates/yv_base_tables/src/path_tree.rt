//! Different paths as a tree.
ghost use Rattle.std.specs.Prelude.{◌≡◌, ◌<◌, ◌≤◌, ◌+◌, ◌∷◌, ◌++◌, ℕ, [], List, Some, length, slice_get, IfOk, IfSome, MatchResult, OnErr, OnOk};
ghost use Rattle.yv_base_tables.specs.{Fronts.{GoesOn, IsReached, StandsIn}, InnerTree.{HasRoom, branches_in}};

use std::alloc::{AllocError, Global};
use std::collections::BTreeMap;

/// Different paths, each with a number, where what a path has before its last step has a number
/// too: the empty path is 0. Takes memory for each step that no path before had there.
#[derive(Drop)]
pub struct PathTree {
    // The last step of each path; 0 of the first.
    steps: Vec<usize>,
    // The paths that go on from each by one step.
    branches: Vec<Vec<usize>>,
    // For each path and a step the path that goes on so. Steps are chosen by strangers, so they are
    // kept in order.
    known: BTreeMap<(usize, usize), usize>,
    deepest: usize,
}

// Makes room for one more path that goes on from a numbered one.
fn make_room(branches: &mut [Vec<usize>], front: usize) -> Result<(), AllocError>
    ensures room { OnOk result (HasRoom branches.new front) }
    ensures keeps { (number : ℕ) → branches_in branches.new number
        ≡ branches_in branches.old number }
{
    if front < branches.len() {
        branches[front].reserve(1)?;
    }
    Ok(())
}

// A path goes on from a numbered one, after those that did before; from none where no path has this
// number.
fn branch(branches: &mut [Vec<usize>], front: usize, path: usize) -> Result<(), AllocError>
    ensures here { front < length branches.old
        → OnOk result
        (branches_in branches.new front ≡ branches_in branches.old front ++ path ∷ []) }
    ensures others { (other : ℕ) → (other ≡ front → ⊥)
        → OnOk result (branches_in branches.new other ≡ branches_in branches.old other) }
    ensures full { OnErr result (HasRoom branches.old front → ⊥) }
{
    if front < branches.len() {
        branches[front].push(path)?;
    }
    Ok(())
}

impl PathTree {
    ghost use Rattle.yv_base_tables.specs.InnerTree.{HoldsPaths, IsAdded, IsPathTree, known_in, branches_at};

    /// Only the empty path. Err only if memory runs out.
    pub fn new(alloc: Global) -> Result<PathTree, AllocError>
        ensures { IfOk result (IsPathTree ([] ∷ [])) }
    {
        let mut steps = Vec::new(alloc);
        steps.push(0)?;
        let mut branches = Vec::new(alloc);
        branches.push(Vec::new(alloc))?;
        Ok(PathTree {
            steps,
            branches,
            known: BTreeMap::new(alloc),
            deepest: 0,
        })
    }

    /// The path that goes on from a numbered one by a step, if there is one. Takes time log n in
    /// paths.
    pub fn next(&self, front: usize, step: usize) -> Option<usize>
        // What is returned extends the numbered path by this step.
        ensures some { (paths : List (List ℕ)) → IsPathTree paths self.now
            → IfSome result (GoesOn paths front step) }
        // If a path does, it is returned.
        ensures all { (paths : List (List ℕ)) (path : ℕ) → IsPathTree paths self.now
            → GoesOn paths front step path
            → result ≡ Some path }
    {
        self.known.get(&(front, step)).copied()
    }

    // A path of so many steps that goes on from a numbered one by a step, and is a new one. Room
    // for it is made first, so that none is half added where memory runs out.
    fn grow(
        &mut self,
        alloc: Global,
        front: usize,
        step: usize,
        depth: usize,
    ) -> Result<usize, AllocError>
        ensures adds { (paths : List (List ℕ)) (steps : List ℕ) → IsPathTree paths self.old
            → slice_get paths front ≡ Some steps
            → depth ≡ length steps + 1 → ((path : ℕ) → GoesOn paths front step path → ⊥)
            → IfOk result (λ path. IsAdded paths (steps ++ step ∷ []) path self.new) }
        ensures keeps { (paths : List (List ℕ)) (steps : List ℕ) → IsPathTree paths self.old
            → slice_get paths front ≡ Some steps
            → OnErr result (IsPathTree paths self.new) }
    {
        let path = self.steps.len();
        make_room(&mut self.branches, front)?;
        self.branches.reserve(1)?;
        self.steps.reserve(1)?;
        self.known.insert((front, step), path)?;
        self.steps.push(step)?;
        self.branches.push(Vec::new(alloc))?;
        branch(&mut self.branches, front, path)?;
        self.deepest = self.deepest.max(depth);
        Ok(path)
    }

    // The path of so many steps that goes on from a numbered one by a step, which is a new one
    // where there was none.
    fn go_on(
        &mut self,
        alloc: Global,
        front: usize,
        step: usize,
        depth: usize,
    ) -> Result<usize, AllocError>
        ensures adds { (paths : List (List ℕ)) (steps : List ℕ) → IsPathTree paths self.old
            → slice_get paths front ≡ Some steps
            → depth ≡ length steps + 1
            → IfOk result (λ path. IsAdded paths (steps ++ step ∷ []) path self.new) }
        ensures keeps { (paths : List (List ℕ)) (steps : List ℕ) → IsPathTree paths self.old
            → slice_get paths front ≡ Some steps
            → OnErr result (IsPathTree paths self.new) }
    {
        match self.next(front, step) {
            Some(path) => Ok(path),
            None => self.grow(alloc, front, step, depth),
        }
    }

    /// The number of a path, which is a new one where none has these steps. Takes time n log n in
    /// its steps. Err only if memory runs out, and then the paths that were there are there still,
    /// with their numbers; some that the new one begins with may be there too.
    pub fn add(&mut self, alloc: Global, steps: &[usize]) -> Result<usize, AllocError>
        ensures { (paths : List (List ℕ)) → IsPathTree paths self.old
            → MatchResult result (λ path. IsAdded paths steps.now path self.new)
            (λ error. HoldsPaths paths self.new) }
    {
        let mut path = 0;
        for (place, step) in steps.iter().enumerate() {
            path = self.go_on(alloc, path, *step, place + 1)?;
        }
        Ok(path)
    }

    /// The paths that go on from a numbered one by one step.
    pub fn branches(&self, front: usize) -> &[usize]
        // Each of them extends the numbered path by one step.
        ensures some { (paths : List (List ℕ)) (path : ℕ) → IsPathTree paths self.now
            → StandsIn result.now path
            → (step : ℕ) × GoesOn paths front step path }
        // Each path that does is one of them.
        ensures all { (paths : List (List ℕ)) (step path : ℕ) → IsPathTree paths self.now
            → GoesOn paths front step path
            → StandsIn result.now path }
    {
        match self.branches.get(front) {
            Some(branches) => branches,
            None => &[],
        }
    }

    /// The last step of a path. What it answers of the empty path, or of a number that no path has,
    /// means nothing.
    pub fn step(&self, path: usize) -> usize
        ensures { (paths : List (List ℕ)) (front step : ℕ) → IsPathTree paths self.now
            → GoesOn paths front step path
            → result ≡ step }
    {
        self.steps.get(path).copied().unwrap_or(0)
    }

    /// How many steps a path has than which none has more.
    pub fn deepest(&self) -> usize
        // No path has more steps.
        ensures most { (paths : List (List ℕ)) (path : ℕ) (steps : List ℕ)
            → IsPathTree paths self.now
            → slice_get paths path ≡ Some steps → length steps ≤ result }
        // A path has so many.
        ensures reaches { (paths : List (List ℕ)) → IsPathTree paths self.now
            → IsReached paths result }
    {
        self.deepest
    }
}
