//! On what the copies of a `uses` agree that are alike.
ghost use Rattle.std.specs.{Prelude.{◌≡◌, ℕ, List, None, Option, Some, slice_get, if◌then◌else◌, IfOk, IsTrue, OnOk}, BTreeMap.{get}, Option.{option_map}, Ordering.{nat_cmp}};
ghost use Rattle.yv_expand_changes.specs.{Changes.{is_meant}, InnerAlike.{first_from, way_of_target, ways_of}, InnerFirstPaths.{AreFirsts, are_rising, is_after}};

use std::alloc::{AllocError, Global};
use std::collections::BTreeMap;
use yv_expand_uses::Spot;

/// Where a path leads at a copy of a `uses`, as far as copies that are alike agree on it.
#[derive(Clone, Copy, Debug, PartialEq, Eq)]
pub(crate) struct Way {
    /// The statement of the item to which it leads, if there is such an item.
    pub statement: Option<usize>,
    /// The first path that leads there.
    pub first: Option<usize>,
}

// Keeps the number of a path for the item to which it leads, in the place of that of a later one.
fn put_first(
    firsts: &mut BTreeMap<usize, usize>,
    target: Option<usize>,
    path: usize,
) -> Result<(), AllocError>
    ensures { OnOk result ((item : ℕ) → get nat_cmp firsts.new item
        ≡ (if is_meant item target then Some path else get nat_cmp firsts.old item)) }
{
    if let Some(item) = target {
        firsts.insert(item, path)?;
    }
    Ok(())
}

// Whether an item comes after another one, if there is one.
fn is_after(last: Option<usize>, target: Option<usize>) -> bool
    ensures { result ≡ is_after last target }
{
    match (last, target) {
        (Some(last), Some(target)) => last < target,
        (None, Some(_)) => true,
        (_, None) => false,
    }
}

// Whether each path leads to an item, which comes after that of the path before.
fn are_rising(targets: &[Option<usize>]) -> bool
    ensures { result ≡ are_rising None targets.now }
{
    let mut last = None;
    for target in targets {
        if !is_after(last, *target) {
            return false;
        }
        last = *target;
    }
    true
}

// For each item the first path that leads to it.
fn first_paths(
    alloc: Global,
    targets: &[Option<usize>],
) -> Result<BTreeMap<usize, usize>, AllocError>
    ensures { IfOk result
        (λ firsts. (item : ℕ) → get nat_cmp firsts item ≡ first_from 0 targets.now item) }
{
    let mut firsts = BTreeMap::new(alloc);
    let mut left = targets.len();
    while left > 0 {
        left -= 1;
        put_first(&mut firsts, targets[left], left)?;
    }
    Ok(firsts)
}

// For each item the first path that leads to it. Nothing is kept where items rise from path to
// path, as those of refines in the order of their nodes do: each path is then the first to its
// item.
fn firsts_unless_rising(
    alloc: Global,
    targets: &[Option<usize>],
) -> Result<Option<BTreeMap<usize, usize>>, AllocError>
    ensures { IfOk result (AreFirsts targets.now) }
{
    if are_rising(targets) {
        return Ok(None);
    }
    let firsts = first_paths(alloc, targets)?;
    Ok(Some(firsts))
}

// The first path that leads to the item of this path.
fn first_path(firsts: &Option<BTreeMap<usize, usize>>, path: usize, item: usize) -> Option<usize>
    ensures { (targets : List (Option ℕ)) → AreFirsts targets firsts.now
        → slice_get targets path ≡ Some (Some item) → result ≡ first_from 0 targets item }
{
    match firsts {
        Some(firsts) => firsts.get(&item).copied(),
        None => Some(path),
    }
}

// The statement that gives an item.
fn statement_of(spots: &[Spot], item: usize) -> Option<usize>
    ensures { result ≡ option_map (λ s. s.statement) (slice_get spots.now item) }
{
    match spots.get(item) {
        Some(spot) => Some(spot.statement),
        None => None,
    }
}

// On what copies agree where this path leads to this item.
fn way_to(
    spots: &[Spot],
    firsts: &Option<BTreeMap<usize, usize>>,
    path: usize,
    target: Option<usize>,
) -> Option<Way>
    ensures { (targets : List (Option ℕ)) → AreFirsts targets firsts.now
        → slice_get targets path ≡ Some target → result ≡ way_of_target spots.now targets target }
{
    let item = target?;
    Some(Way {
        statement: statement_of(spots, item),
        first: first_path(firsts, path, item),
    })
}

// On what copies agree where the paths lead to these items, by the first path to each.
fn ways_by(
    alloc: Global,
    spots: &[Spot],
    firsts: &Option<BTreeMap<usize, usize>>,
    targets: &[Option<usize>],
) -> Result<Vec<Option<Way>>, AllocError>
    requires { AreFirsts targets.now firsts.now }
    ensures { IfOk result (λ ways. ways.items ≡ ways_of spots.now targets.now) }
{
    let mut ways = Vec::with_capacity(alloc, targets.len())?;
    for (path, target) in targets.iter().enumerate() {
        ways.push(way_to(spots, firsts, path, *target))?;
    }
    Ok(ways)
}

/// On what copies agree where the paths lead to these items. Takes time n log n in paths, and
/// linear in them where items rise from path to path.
pub(crate) fn read_ways(
    alloc: Global,
    spots: &[Spot],
    targets: &[Option<usize>],
) -> Result<Vec<Option<Way>>, AllocError>
    ensures { IfOk result (λ ways. ways.items ≡ ways_of spots.now targets.now) }
{
    let firsts = firsts_unless_rising(alloc, targets)?;
    ways_by(alloc, spots, &firsts, targets)
}

/// Whether two copies agree.
pub(crate) fn is_same(one: &[Option<Way>], other: &[Option<Way>]) -> bool
    ensures { IsTrue result → one.now ≡ other.now }
{
    one == other
}
