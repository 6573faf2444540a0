//! Graphs of numbered nodes: the nodes that a node leads to, and the nodes that lead to themselves,
//! or else ranks that fall along each edge; and marks on nodes. All takes time linear in nodes and
//! edges, and nothing recurses.
#![tactic(auto)]

mod cycles;
mod edgeless;
pub mod laws;
mod marks;
mod reach;
mod search;

pub use cycles::{Ranking, first_on_cycle, nodes_on_cycles, rank};
pub use marks::is_marked;
pub use reach::reachable_from;
