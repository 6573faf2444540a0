//! Graphs without edges. Most statements lead to nothing, and no search is needed then.
ghost use Rattle.std.specs.{Prelude.{◌≡◌, IsTrue, IfOk, map}, List.{list_all}};
ghost use Rattle.yv_base_graph.specs.{Graph.{AreOnCycles, AreRanks, IsOrder, ArePlaces}, InnerEdgeless.{HasNoEdge, AreNumbers}};

use std::alloc::{AllocError, Global};

/// Whether no node has an edge.
pub(crate) fn has_no_edge(graph: &[Vec<usize>]) -> bool
    ensures { IsTrue result → HasNoEdge graph.now }
{
    graph.iter().all(|row| row.is_empty())
}

/// The numbers below this one, in order.
pub(crate) fn numbers(alloc: Global, count: usize) -> Result<Vec<usize>, AllocError>
    ensures { IfOk result (λ numbers. AreNumbers count numbers.items) }
{
    let mut numbers = Vec::with_capacity(alloc, count)?;
    for number in 0..count {
        numbers.push(number)?;
    }
    Ok(numbers)
}
