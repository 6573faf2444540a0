//! Laws about the definitions only.
ghost use Rattle.yv_base_graph.specs.Graph.{Graph, HasRanks, HasNoCycle};

/// Where ranks fall along each edge no node leads to itself, since the ranks would fall along the
/// whole cycle.
pub fn ranks_leave_no_cycle()
    ensures { (g : Graph) → HasRanks g → HasNoCycle g }
{}
