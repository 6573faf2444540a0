//! Which of the different paths of refines lead to nodes at a copy, and refine targets by their
//! places among these.
ghost use Rattle.std.specs.{Prelude.{◌≡◌, ◌==◌, ◌++◌, ◌∷◌, ℕ, [], List, Some, map, if◌then◌else◌, IfOk, OnOk}, BTreeMap.{get}, Ordering.{nat_cmp}};
ghost use Rattle.yv_expand_rounds.specs.{declared.label.Label.{Label}, Arrivals.{AreArrivals}, Turns.{State}};
ghost use Rattle.yv_expand_uses.specs.{InnerLeadingPaths.{first_from, place_aim}, InnerPaths.{target_of_path}, RefineTargets.{node_at}};

use std::alloc::{AllocError, Global};
use std::collections::BTreeMap;
use yv_expand_refines::RefineTarget;
use yv_expand_rounds::{Arrival, End};

/// The numbers of the paths that lead to nodes at a copy, and for each the node.
#[derive(Drop)]
pub(crate) struct LeadingPaths {
    pub paths: Vec<usize>,
    pub targets: Vec<Option<usize>>,
}

// The node at which a path ends; a case that is left out is none.
fn node_at(end: End) -> Option<usize>
    ensures { result ≡ node_at end }
{
    match end {
        End::Node(item) => Some(item),
        _ => None,
    }
}

impl LeadingPaths {
    ghost use Rattle.yv_expand_uses.specs.InnerLeadingPaths.{IsLed, paths_of, targets_of};

    // Notes where a path leads, if it leads to a node.
    fn note(&mut self, arrival: Arrival) -> Result<(), AllocError>
        ensures paths { OnOk result
            (self.new.paths.items ≡ self.old.paths.items ++ paths_of (arrival ∷ [])) }
        ensures targets { OnOk result
            (self.new.targets.items ≡ self.old.targets.items ++ targets_of (arrival ∷ [])) }
    {
        if let Some(item) = node_at(arrival.end) {
            self.paths.push(arrival.path)?;
            self.targets.push(Some(item))?;
        }
        Ok(())
    }

    /// Those of these paths that lead to nodes.
    pub(crate) fn read(alloc: Global, arrivals: &[Arrival]) -> Result<LeadingPaths, AllocError>
        ensures { (labels : List Label) (st : State) (end group : ℕ) (all : List (List ℕ))
            → AreArrivals labels st.groups end group all arrivals.now
            → IfOk result (IsLed (target_of_path labels st end group) all) }
    {
        // The targets of each copy stay, so that no more memory is taken for them than they need.
        let mut leading_paths = LeadingPaths {
            paths: Vec::with_capacity(alloc, arrivals.len())?,
            targets: Vec::with_capacity(alloc, arrivals.len())?,
        };
        for arrival in arrivals {
            leading_paths.note(*arrival)?;
        }
        Ok(leading_paths)
    }
}

// Keeps the place of a path in the place of that of a later one.
fn put_first(
    places: &mut BTreeMap<usize, usize>,
    path: usize,
    place: usize,
) -> Result<(), AllocError>
    ensures { OnOk result
        ((p : ℕ) → get nat_cmp places.new p
        ≡ (if path == p then Some place else get nat_cmp places.old p)) }
{
    places.insert(path, place)?;
    Ok(())
}

// For each path its first place among these.
fn places_of(alloc: Global, paths: &[usize]) -> Result<BTreeMap<usize, usize>, AllocError>
    ensures { IfOk result
        (λ places. (path : ℕ) → get nat_cmp places path ≡ first_from 0 paths.now path) }
{
    let mut places = BTreeMap::new(alloc);
    let mut left = paths.len();
    while left > 0 {
        left -= 1;
        put_first(&mut places, paths[left], left)?;
    }
    Ok(places)
}

/// Aims by the places of their paths among these; one whose path isn't among them gets the place
/// after the last. Takes time n log n in both.
pub(crate) fn place_aims(
    alloc: Global,
    refine_targets: &[RefineTarget],
    paths: &[usize],
) -> Result<Vec<RefineTarget>, AllocError>
    ensures { IfOk result (λ placed. placed.items ≡ map (place_aim paths.now) refine_targets.now) }
{
    let places = places_of(alloc, paths)?;
    let mut placed = Vec::with_capacity(alloc, refine_targets.len())?;
    for refine_target in refine_targets {
        placed.push(RefineTarget {
            refine: refine_target.refine,
            path: places
                .get(&refine_target.path)
                .copied()
                .unwrap_or(paths.len()),
        })?;
    }
    Ok(placed)
}
