//! The first node that leads to itself, all such nodes, or else ranks that fall along each edge.
ghost use Rattle.std.specs.{Prelude.{◌≡◌, ◌==◌, ◌<◌, length, slice_index, IfOk, IfSome, IfNone}, List.{All, list_any}};
ghost use Rattle.yv_base_graph.specs.{Graph.{IsGraph, IsFirstOnCycle, HasNoCycle, AreOnCycles, HasRanks, AreRanks, IsOrder, ArePlaces}, InnerEdgeless.{HasNoEdge}, InnerPeers.{ArePeers}, Ranks.{IfRanks, IfCycle}};

use crate::edgeless::{has_no_edge, numbers};
use crate::search::Search;
use std::alloc::{AllocError, Global};

/// The first node that leads to itself, for a caller that needs no order of the nodes, and so not
/// `rank`.
pub fn first_on_cycle(alloc: Global, graph: &[Vec<usize>]) -> Result<Option<usize>, AllocError>
    // Each edge goes to a node of the graph.
    requires graph { IsGraph graph.now }
    // The least node that leads to itself.
    ensures first { IfOk result (λ found. IfSome found (IsFirstOnCycle graph.now)) }
    // None is returned only if no node leads to itself.
    ensures none { IfOk result (λ found. IfNone found (HasNoCycle graph.now)) }
    // Then there are ranks that fall along each edge.
    ensures ranks { IfOk result (λ found. IfNone found (HasRanks graph.now)) }
{
    let search = Search::run(alloc, graph)?;
    let least = search.least();
    if least < graph.len() {
        Ok(Some(least))
    } else {
        Ok(None)
    }
}

// Whether one of these nodes has the rank.
fn has_rank(row: &[usize], ranks: &[usize], rank: usize) -> bool
    requires { All (λ b. b < length ranks.now) row.now }
    ensures { result ≡ list_any (λ b. slice_index ranks.now b == rank) row.now }
{
    row.iter().any(|node| ranks[*node] == rank)
}

// Marks the nodes that have an edge to a node of their own rank.
fn peers(alloc: Global, graph: &[Vec<usize>], ranks: &Vec<usize>) -> Result<Vec<bool>, AllocError>
    requires graph { IsGraph graph.now }
    requires each { length ranks.now.items ≡ length graph.now }
    ensures { IfOk result (λ marks. ArePeers graph.now ranks.now.items marks.items) }
{
    let mut marks = Vec::new(alloc);
    for (node, row) in graph.iter().enumerate() {
        let mark = has_rank(row, ranks, ranks[node]);
        marks.push(mark)?;
    }
    Ok(marks)
}

/// Marks exactly the nodes that lead to themselves.
pub fn nodes_on_cycles(alloc: Global, graph: &[Vec<usize>]) -> Result<Vec<bool>, AllocError>
    // Each edge goes to a node of the graph.
    requires graph { IsGraph graph.now }
    // Exactly the nodes that lead to themselves are marked.
    ensures exact { IfOk result (λ marks. AreOnCycles graph.now marks.items) }
{
    if has_no_edge(graph) {
        return Ok(vec![in alloc; false; graph.len()]?);
    }
    let search = Search::run(alloc, graph)?;
    // Nodes of one rank lead to one another, and no rank rises along an edge.
    let ranks = search.ranks(alloc)?;
    let marks = peers(alloc, graph, &ranks)?;
    Ok(marks)
}

/// What a ranking of the nodes answers.
#[derive(Debug, Drop)]
pub enum Ranking {
    /// No node leads to itself.
    Ranks {
        /// The rank of each node, which is its place in the order.
        ranks: Vec<usize>,
        /// The nodes, each after all that it leads to.
        order: Vec<usize>,
    },
    /// The first node that leads to itself.
    Cycle(usize),
}

// Ranks nodes without edges: each by its number.
fn edgeless_ranking(alloc: Global, graph: &[Vec<usize>]) -> Result<Ranking, AllocError>
    requires { HasNoEdge graph.now }
    ensures ranks { IfOk result
        (λ ranked. IfRanks ranked (λ ranks order. AreRanks graph.now ranks)) }
    ensures order { IfOk result
        (λ ranked. IfRanks ranked (λ ranks order. IsOrder graph.now order)) }
    ensures places { IfOk result (λ ranked. IfRanks ranked ArePlaces) }
    ensures cycle { IfOk result (λ ranked. IfCycle ranked (IsFirstOnCycle graph.now)) }
{
    let ranks = numbers(alloc, graph.len())?;
    let order = numbers(alloc, graph.len())?;
    Ok(Ranking::Ranks { ranks, order })
}

// Ranks the nodes by a search along the edges.
fn searched_ranking(alloc: Global, graph: &[Vec<usize>]) -> Result<Ranking, AllocError>
    requires graph { IsGraph graph.now }
    ensures ranks { IfOk result
        (λ ranked. IfRanks ranked (λ ranks order. AreRanks graph.now ranks)) }
    ensures order { IfOk result
        (λ ranked. IfRanks ranked (λ ranks order. IsOrder graph.now order)) }
    ensures places { IfOk result (λ ranked. IfRanks ranked ArePlaces) }
    ensures cycle { IfOk result (λ ranked. IfCycle ranked (IsFirstOnCycle graph.now)) }
{
    let search = Search::run(alloc, graph)?;
    let least = search.least();
    if least < graph.len() {
        return Ok(Ranking::Cycle(least));
    }
    let ranks = search.ranks(alloc)?;
    let order = search.into_order();
    Ok(Ranking::Ranks { ranks, order })
}

/// Ranks the nodes, or finds the first that leads to itself.
pub fn rank(alloc: Global, graph: &[Vec<usize>]) -> Result<Ranking, AllocError>
    // Each edge goes to a node of the graph.
    requires graph { IsGraph graph.now }
    // A rank for each node, which falls along each edge.
    ensures ranks { IfOk result
        (λ ranked. IfRanks ranked (λ ranks order. AreRanks graph.now ranks)) }
    // All nodes, each once and after all that it leads to.
    ensures order { IfOk result
        (λ ranked. IfRanks ranked (λ ranks order. IsOrder graph.now order)) }
    // The rank of a node is its place in that order.
    ensures places { IfOk result (λ ranked. IfRanks ranked ArePlaces) }
    // Without ranks, the least node that leads to itself.
    ensures cycle { IfOk result (λ ranked. IfCycle ranked (IsFirstOnCycle graph.now)) }
{
    if has_no_edge(graph) {
        edgeless_ranking(alloc, graph)
    } else {
        searched_ranking(alloc, graph)
    }
}
