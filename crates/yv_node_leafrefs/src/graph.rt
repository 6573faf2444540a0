//! The graph of leafrefs: the nodes that lead to themselves, and the nodes whose types leafrefs
//! have.
ghost use Rattle.std.specs.{Prelude.{◌≡◌, ◌<◌, ◌^◌, ℕ, length, map, option_to_list, Some, IfOk, slice_index}, List.{All}};
ghost use Rattle.yv_node_leafrefs.specs.{Schema.{Schema}, Targets.{LeadsTo, HasTypesOf}, InnerGraph.{AreTargets, AreLeafrefCycles, AreEdges, IsBehind, IsVisited, origin_of}};

use std::alloc::{AllocError, Global};
use yv_base_graph::{Ranking, nodes_on_cycles, rank};

// The edges of a node: to its target, if it has one.
fn edges(alloc: Global, target: Option<u32>) -> Result<Vec<usize>, AllocError>
    ensures { IfOk result (λ row. row.items ≡ option_to_list target) }
{
    let mut row = Vec::new(alloc);
    if let Some(node) = target {
        row.push(node as usize)?;
    }
    Ok(row)
}

// An edge from each node to its target.
fn graph(alloc: Global, targets: &[Option<u32>]) -> Result<Vec<Vec<usize>>, AllocError>
    ensures { IfOk result (λ graph. AreEdges targets.now (length targets.now) graph.items) }
{
    let mut graph = Vec::new(alloc);
    for target in targets {
        let row = edges(alloc, *target)?;
        graph.push(row)?;
    }
    Ok(graph)
}

/// Marks the nodes that lead to themselves.
pub(crate) fn cycles(alloc: Global, targets: &[Option<u32>]) -> Result<Vec<bool>, AllocError>
    requires { (s : Schema) × (length targets.now ≡ length s.rows) × AreTargets s targets.now }
    ensures each { IfOk result (λ marks. length marks.items ≡ length targets.now) }
    ensures cycles { (s : Schema) → length targets.now ≡ length s.rows → AreTargets s targets.now
        → IfOk result (λ marks. AreLeafrefCycles s marks.items) }
{
    let graph = graph(alloc, targets)?;
    let marks = nodes_on_cycles(alloc, &graph)?;
    Ok(marks)
}

// The order in which types are found: each node after its target.
fn order(alloc: Global, targets: &[Option<u32>]) -> Result<Vec<usize>, AllocError>
    requires { (s : Schema) × (length targets.now ≡ length s.rows) × AreTargets s targets.now
        × ((n : ℕ) → LeadsTo s n n → ⊥) }
    ensures within { IfOk result (λ order. All (λ n. n < length targets.now) order.items) }
    ensures all { IfOk result
        (λ order. (n : ℕ) → n < length targets.now → IsVisited order.items (length order.items) n) }
    ensures behind { IfOk result (λ order. IsBehind targets.now order.items) }
{
    let graph = graph(alloc, targets)?;
    match rank(alloc, &graph)? {
        Ranking::Ranks { order, .. } => Ok(order),
        Ranking::Cycle(_) => unreachable!(),
    }
}

// The node whose types a node has, where that is known of its target.
fn origin(origins: &[usize], node: usize, target: Option<u32>) -> usize
    requires { (b : ℕ) → target ≡ Some b → b < length origins.now }
    ensures { result ≡ origin_of target node origins.now }
{
    match target {
        None => node,
        Some(number) => origins[number as usize],
    }
}

/// For each node the node whose types its values have.
pub(crate) fn origins(alloc: Global, targets: &[Option<u32>]) -> Result<Vec<usize>, AllocError>
    requires { (s : Schema) × (length targets.now ≡ length s.rows) × AreTargets s targets.now
        × ((n : ℕ) → LeadsTo s n n → ⊥) }
    ensures each { IfOk result (λ origins. length origins.items ≡ length targets.now) }
    ensures types { (s : Schema) → length targets.now ≡ length s.rows → AreTargets s targets.now
        → IfOk result
        (λ origins. (n : ℕ) → n < length s.rows → HasTypesOf s n (slice_index origins.items n)) }
{
    let order = order(alloc, targets)?;
    let mut origins = Vec::new(alloc);
    for number in 0..targets.len() {
        origins.push(number)?;
    }
    for node in &order {
        let origin = origin(&origins, *node, targets[*node]);
        origins[*node] = origin;
    }
    Ok(origins)
}
