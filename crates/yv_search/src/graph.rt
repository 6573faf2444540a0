//! Edges as a graph of numbers.
ghost use Rattle.std.specs.{Prelude.{◌≡◌, ◌<◌, ◌^◌, length, IfOk, OnOk}, List.{All}};
ghost use Rattle.yv_search.specs.InnerGraph.{number_of, IsWithin, HasOneMore, IsBare, IsGraphOf};

use crate::edges::{Edge, Node};
use std::alloc::{AllocError, Global};

/// The number of a node among so many modules: those that are required come first, then the
/// lenders, and the start.
pub(crate) fn number_of(node: Node, count: usize) -> usize
    requires few { count < 2 ^ 63 }
    requires within { IsWithin count node }
    ensures { result ≡ number_of count node }
{
    match node {
        Node::Required(module) => module,
        Node::Lender(module) => count + module,
        Node::Start => count + count,
    }
}

// Adds an edge to a graph.
fn connect(graph: &mut Vec<Vec<usize>>, from: usize, to: usize) -> Result<(), AllocError>
    requires { from < length graph.old.items }
    ensures { OnOk result (HasOneMore graph.old.items graph.new.items from to) }
{
    graph[from].push(to)?;
    Ok(())
}

// So many nodes without edges.
fn bare_graph(alloc: Global, count: usize) -> Result<Vec<Vec<usize>>, AllocError>
    ensures { IfOk result (λ graph. IsBare count graph.items) }
{
    let mut graph = Vec::new(alloc);
    for _ in 0..count {
        graph.push(Vec::new(alloc))?;
    }
    Ok(graph)
}

/// The graph of these edges among so many modules.
pub(crate) fn graph_of(
    alloc: Global,
    edges: &[Edge],
    count: usize,
) -> Result<Vec<Vec<usize>>, AllocError>
    requires few { count < 2 ^ 63 }
    requires within { All (λ e. IsWithin count e.from × IsWithin count e.to) edges.now }
    ensures { IfOk result (λ graph. IsGraphOf count edges.now graph.items) }
{
    let mut graph = bare_graph(alloc, count + count + 1)?;
    for edge in edges {
        let from = number_of(edge.from, count);
        let to = number_of(edge.to, count);
        connect(&mut graph, from, to)?;
    }
    Ok(graph)
}
