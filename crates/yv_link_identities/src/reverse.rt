//! The edges of a graph turned round.
ghost use Rattle.std.specs.{Prelude.{◌<◌, length, IfOk, OnOk}, List.{All}};
ghost use Rattle.yv_base_graph.specs.Graph.{IsGraph};
ghost use Rattle.yv_link_identities.specs.InnerWays.{AddsEdges, AreReversed};

use crate::pairs::no_bases;
use std::alloc::{AllocError, Global};

// Adds an edge from each of these to a node.
fn add_edges(graph: &mut Vec<Vec<usize>>, froms: &[usize], node: usize) -> Result<(), AllocError>
    requires { All (λ b. b < length graph.old.items) froms.now }
    ensures { OnOk result (AddsEdges froms.now node graph.old.items graph.new.items) }
{
    for from in froms {
        graph[*from].push(node)?;
    }
    Ok(())
}

/// For each node those from which an edge goes to it.
pub(crate) fn reverse(alloc: Global, graph: &[Vec<usize>]) -> Result<Vec<Vec<usize>>, AllocError>
    requires { IsGraph graph.now }
    ensures { IfOk result (λ back. AreReversed graph.now back.items) }
{
    let mut back = no_bases(alloc, graph.len())?;
    for (node, row) in graph.iter().enumerate() {
        add_edges(&mut back, row, node)?;
    }
    Ok(back)
}
