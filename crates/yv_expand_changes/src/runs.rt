//! Runs of refines that change items alike.
ghost use Rattle.std.specs.Prelude.{◌≡◌, ◌++◌, ◌∷◌, ℕ, None, Some, [], length, map, slice_index_or, slice_set, IfOk, OnOk};
ghost use Rattle.yv_link_scopes.specs.Views.{lent_in};
ghost use Rattle.yv_expand_changes.specs.{Changes.{is_meant}, InnerAlike.{is_run, runs_of}, InnerLists.{lists_of}};

use crate::allowed_refines::is_fit_at;
use crate::ways::Way;
use std::alloc::{AllocError, Global};
use yv_expand_refines::RefineTarget;
use yv_link_scopes::Rows;

/// Where the path of a refine target leads at a copy.
pub(crate) fn way_at(ways: &[Option<Way>], path: usize) -> Option<Way>
    ensures { result ≡ slice_index_or ways.now path None }
{
    ways.get(path).copied().unwrap_or(None)
}

// So many empty runs.
fn no_runs(alloc: Global, count: usize) -> Result<Vec<Vec<usize>>, AllocError>
    ensures each { IfOk result (λ runs. length (lists_of runs.items) ≡ count) }
    ensures none { IfOk result
        (λ runs. (path : ℕ) → slice_index_or (lists_of runs.items) path [] ≡ []) }
{
    let mut runs = Vec::new(alloc);
    for _ in 0..count {
        runs.push(Vec::new(alloc))?;
    }
    Ok(runs)
}

// Puts a refine after those of a run that there is.
fn push_at(runs: &mut Vec<Vec<usize>>, path: usize, refine: usize) -> Result<(), AllocError>
    ensures { OnOk result (lists_of runs.new.items
        ≡ slice_set (lists_of runs.old.items) path
        (slice_index_or (lists_of runs.old.items) path [] ++ refine ∷ [])) }
{
    if path < runs.len() {
        runs[path].push(refine)?;
    }
    Ok(())
}

// The first path that leads to the item that a refine changes, if it changes one.
fn changed_path(
    rows: &Rows<'_, '_>,
    ways: &[Option<Way>],
    refine_target: RefineTarget,
) -> Option<usize>
    ensures { (path : ℕ) → is_meant path result ≡ is_run
        (lent_in rows.now) ways.now path refine_target }
{
    let way = way_at(ways, refine_target.path)?;
    if is_fit_at(rows, way.statement, refine_target.refine) {
        way.first
    } else {
        None
    }
}

/// For each path the refines that change its item, if no earlier path leads to that. Takes time and
/// memory linear in both.
pub(crate) fn read_runs(
    alloc: Global,
    rows: &Rows<'_, '_>,
    ways: &[Option<Way>],
    refine_targets: &[RefineTarget],
) -> Result<Vec<Vec<usize>>, AllocError>
    ensures { IfOk result
        (λ runs. lists_of runs.items ≡ runs_of (lent_in rows.now) ways.now refine_targets.now) }
{
    let mut runs = no_runs(alloc, ways.len())?;
    for refine_target in refine_targets {
        if let Some(path) = changed_path(rows, ways, *refine_target) {
            push_at(&mut runs, path, refine_target.refine)?;
        }
    }
    Ok(runs)
}
