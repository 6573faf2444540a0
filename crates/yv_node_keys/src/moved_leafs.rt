//! The leafs that `unique` statements name, by those that they name in an earlier list.
ghost use Rattle.std.specs.{Prelude.{◌≡◌, List, Option, Some, false, map, IfOk, IfSome}, List.{list_any}};
ghost use Rattle.yv_node_content.specs.Steps.{Step};
ghost use Rattle.yv_node_keys.specs.{Numbers.{unique_leaf_at}, InnerMixedConfig.{is_bad_statement_at, is_mixed_at}, InnerShifts.{AreUnmixed, moved_id}};

use crate::shift::{Shift, shift_between};
use crate::unique::is_mixed;
use std::alloc::{AllocError, Global};
use yv_node_content::PathStep;
use yv_nodes::{NodeId, Nodes};

// How many nodes take as long to compare as a step takes to follow, or fewer.
fn weigh_step(step: &Option<PathStep>) -> usize {
    match step {
        Some(step) => (step.name().len() / 64).saturating_add(8),
        None => 0,
    }
}

// The same of a path.
fn weigh_path(path: &[Option<PathStep>]) -> usize {
    let mut weight = 0usize;
    for step in path {
        weight = weight.saturating_add(weigh_step(step));
    }
    weight
}

// The same of the paths of a statement.
fn weigh_paths(paths: &[Vec<Option<PathStep>>]) -> usize {
    let mut weight = 0usize;
    for path in paths {
        weight = weight.saturating_add(weigh_path(path));
    }
    weight
}

// The same of all statements.
fn weigh_statements(statements: &[Vec<Vec<Option<PathStep>>>]) -> usize {
    let mut weight = 0usize;
    for paths in statements {
        weight = weight.saturating_add(weigh_paths(paths));
    }
    weight
}

// The leafs so far from these.
fn moved_leafs(
    alloc: Global,
    shift: Shift,
    known: &[NodeId],
) -> Result<Option<Vec<NodeId>>, AllocError>
    ensures { IfOk result (λ leafs. IfSome leafs
        (λ numbers. numbers.items ≡ map (moved_id shift.by) known.now)) }
{
    let mut leafs = Vec::with_capacity(alloc, known.len())?;
    for leaf in known {
        match shift.counterpart(*leaf) {
            Some(leaf) => leafs.push(leaf)?,
            None => return Ok(None),
        }
    }
    Ok(Some(leafs))
}

// The same, where all of them are configuration, or none is.
fn unmixed_leafs(
    alloc: Global,
    nodes: &Nodes,
    shift: Shift,
    known: &[NodeId],
) -> Result<Option<Vec<NodeId>>, AllocError>
    ensures moved { IfOk result (λ leafs. IfSome leafs
        (λ numbers. numbers.items ≡ map (moved_id shift.by) known.now)) }
    ensures unmixed { IfOk result (λ leafs. IfSome leafs
        (λ numbers. is_mixed_at nodes.now.rows numbers.items ≡ false)) }
{
    let Some(leafs) = moved_leafs(alloc, shift, known)? else {
        return Ok(None);
    };
    if is_mixed(nodes.all(), &leafs) {
        return Ok(None);
    }
    Ok(Some(leafs))
}

// Those of all statements.
fn all_moved(
    alloc: Global,
    nodes: &Nodes,
    shift: Shift,
    known: &[Vec<NodeId>],
) -> Result<Option<Vec<Vec<NodeId>>>, AllocError>
    ensures moved { IfOk result (λ found. IfSome found (λ lists.
        map (λ v. v.items) lists.items ≡ map (λ v. map (moved_id shift.by) v.items) known.now)) }
    ensures unmixed { IfOk result
        (λ found. IfSome found (λ lists. AreUnmixed nodes.now.rows lists.items)) }
{
    let mut found = Vec::with_capacity(alloc, known.len())?;
    for leafs in known {
        match unmixed_leafs(alloc, nodes, shift, leafs)? {
            Some(leafs) => found.push(leafs)?,
            None => return Ok(None),
        }
    }
    Ok(Some(found))
}

/// The leafs that the `unique` statements of a list name, where those are known that they name in
/// an earlier list: None if the nodes below both differ, or it takes longer to compare these than
/// to follow the paths, or something is wrong with a statement.
pub(crate) fn counterpart_uniques(
    alloc: Global,
    nodes: &Nodes,
    list: NodeId,
    earlier: NodeId,
    statements: &[Vec<Vec<Option<PathStep>>>],
    known: &[Vec<NodeId>],
) -> Result<Option<Vec<Vec<NodeId>>>, AllocError>
    ensures numbers { (all : List (List (List (Option Step))))
        → map (λ v. map (λ n. Some n) v.items) known.now
        ≡ map (map (unique_leaf_at nodes.now.rows earlier)) all
        → IfOk result (λ found. IfSome found (λ lists.
        map (λ v. map (λ n. Some n) v.items) lists.items
        ≡ map (map (unique_leaf_at nodes.now.rows list)) all)) }
    ensures good { (all : List (List (List (Option Step))))
        → map (λ v. map (λ n. Some n) v.items) known.now
        ≡ map (map (unique_leaf_at nodes.now.rows earlier)) all
        → IfOk result (λ found. IfSome found
        (λ lists. list_any (is_bad_statement_at nodes.now.rows list) all ≡ false)) }
{
    let most = weigh_statements(statements);
    let Some(shift) = shift_between(nodes, earlier, list, most) else {
        return Ok(None);
    };
    let found = all_moved(alloc, nodes, shift, known)?;
    Ok(found)
}
