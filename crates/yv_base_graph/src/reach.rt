//! The nodes that a node leads to.
ghost use Rattle.std.specs.{Prelude.{◌<◌, length, IfOk, OnOk}, List.{All}};
ghost use Rattle.yv_base_graph.specs.{Graph.{IsGraph, AreReached}, InnerMarks.{MarksRow}};

use std::alloc::{AllocError, Global};

// Marks each node of the row, and adds those that weren't marked to the list.
fn mark_row(row: &[usize], marks: &mut Vec<bool>, found: &mut Vec<usize>) -> Result<(), AllocError>
    requires { All (λ b. b < length marks.old.items) row.now }
    ensures { OnOk result
        (MarksRow row.now marks.old.items found.old.items marks.new.items found.new.items) }
{
    for node in row {
        let node = *node;
        let known = marks[node];
        if !known {
            marks[node] = true;
            found.push(node)?;
        }
    }
    Ok(())
}

/// Marks exactly the nodes that a node leads to by one edge or more: the node itself only where it
/// is on a cycle. It is for a caller that asks what one node needs; `cyclic` and `rank` answer for
/// all nodes.
pub fn reachable_from(
    alloc: Global,
    graph: &[Vec<usize>],
    from: usize,
) -> Result<Vec<bool>, AllocError>
    // Each edge goes to a node of the graph.
    requires graph { IsGraph graph.now }
    // `from` is one of its nodes.
    requires from { from < length graph.now }
    // Exactly the nodes to which `from` leads by one or more edges are marked.
    ensures exact { IfOk result (λ marks. AreReached graph.now from marks.items) }
{
    let mut marks = vec![in alloc; false; graph.len()]?;
    let mut found = Vec::new(alloc);
    mark_row(&graph[from], &mut marks, &mut found)?;
    // Each node is found once, and each node found is followed once.
    let mut next = 0;
    while next < found.len() {
        let node = found[next];
        mark_row(&graph[node], &mut marks, &mut found)?;
        next += 1;
    }
    Ok(marks)
}
